use std::alloc::{AllocError, AllocFailed};
use thiserror::Error;
use vx_base::Pos;

/// Why a text has no tokens. A position is that of the first fault.
#[derive(Clone, Copy, Debug, PartialEq, Eq, Error)]
pub enum LexFault {
    /// A byte that begins no token and is not white, or a `#` that does not begin its line.
    #[error("{0}: this byte begins no token")]
    BadByte(Pos),
    /// The first byte of a number that is no literal.
    #[error("{0}: this number is no literal of a whole number of 32 bits")]
    BadNumber(Pos),
    /// The `#` of a line that is no directive, or of an `#ifdef` or `#ifndef` without `#endif`.
    #[error("{0}: this line is no directive of the subset")]
    BadDirective(Pos),
    /// A `/*` without a `*/` behind it.
    #[error("{0}: this comment has no end")]
    OpenComment(Pos),
    /// The token, or the use of a macro in the text, with which tokens and uses pass 1,048,576.
    #[error("{0}: the text has more than 1,048,576 tokens and uses of macros")]
    TooManyTokens(Pos),
    /// Memory ran out.
    #[error("memory ran out")]
    Memory,
}

impl From<AllocError> for LexFault {
    ghost use Rattle.std.specs.Prelude.{◌≡◌};
    ghost use Rattle.ocl_lex.specs.declared.faults.LexFault.TheVariants as fault;

    ghost from_gives = { λ _ e. e ≡ fault.Memory };

    fn from(_error: AllocError) -> LexFault {
        LexFault::Memory
    }
}

impl<T: Drop> From<AllocFailed<T>> for LexFault {
    ghost use Rattle.std.specs.Prelude.{◌≡◌};
    ghost use Rattle.ocl_lex.specs.declared.faults.LexFault.TheVariants as fault;

    ghost from_gives = { λ _ e. e ≡ fault.Memory };

    fn from(_error: AllocFailed<T>) -> LexFault {
        LexFault::Memory
    }
}

//! What a line of assembly says, and why a text is refused.

use crate::mnemonics::{Mnemonic, Operands};
use std::alloc::{AllocError, AllocFailed};
use thiserror::Error;
use vx_base::Pos;

/// A piece of a line.
#[derive(Clone, Copy, Debug, PartialEq, Eq)]
pub struct Span {
    /// How many bytes the line has from the piece's first one on.
    pub left: usize,
    /// How many bytes the piece has.
    pub len: usize,
}

/// A number as a text writes it.
#[derive(Clone, Copy, Debug, PartialEq, Eq)]
pub struct Number {
    /// Whether `-` stands before it.
    pub minus: bool,
    /// What its digits say.
    pub size: u64,
}

/// A mnemonic with what stands behind it.
#[derive(Clone, Copy, Debug, PartialEq, Eq)]
pub struct Statement {
    /// The first word.
    pub mnemonic: Mnemonic,
    /// The registers, and the numbers that fit, in order.
    pub operands: Operands,
    /// How many bytes the line has from the first number on that does not fit, if there is one.
    pub misfit: Option<usize>,
    /// The label at the place of the last operand, if one stands there.
    pub target: Option<Span>,
}

/// A line, without blanks and comment.
#[derive(Clone, Copy, Debug, PartialEq, Eq)]
pub struct Line {
    /// The label before `:`, if there is one.
    pub label: Option<Span>,
    /// The statement, if there is one.
    pub statement: Option<Statement>,
}

/// Why a text of assembly is refused.
#[derive(Clone, Copy, Debug, PartialEq, Eq, Error)]
pub enum AsmFault {
    /// The first byte of a line that no line goes on with; the line's end counts as a byte behind its last.
    #[error("{0}: no line of assembly goes on like this")]
    Syntax(Pos),
    /// The first byte of a number that does not fit its field, or of a label that is too far.
    #[error("{0}: this number does not fit its field, or this label is too far away")]
    Range(Pos),
    /// A label that no line has.
    #[error("{0}: no line has this label")]
    NoLabel(Pos),
    /// The second label of a name.
    #[error("{0}: an earlier line has this label")]
    LabelTwice(Pos),
    /// The first byte of the line of a word past the 65,536th, and the number of words up to that one.
    #[error("{pos}: word {words} is one more than an image may have")]
    TooLarge { pos: Pos, words: u32 },
    /// Memory ran out.
    #[error("memory ran out")]
    Memory,
}

impl From<AllocError> for AsmFault {
    ghost use Rattle.std.specs.Prelude.{◌≡◌};
    ghost use Rattle.asm_text.specs.declared.statements.AsmFault.TheVariants as fault;

    ghost from_gives = { λ _ e. e ≡ fault.Memory };

    fn from(_error: AllocError) -> AsmFault {
        AsmFault::Memory
    }
}

impl<T: Drop> From<AllocFailed<T>> for AsmFault {
    ghost use Rattle.std.specs.Prelude.{◌≡◌};
    ghost use Rattle.asm_text.specs.declared.statements.AsmFault.TheVariants as fault;

    ghost from_gives = { λ _ e. e ≡ fault.Memory };

    fn from(_error: AllocFailed<T>) -> AsmFault {
        AsmFault::Memory
    }
}

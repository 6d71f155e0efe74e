use std::alloc::{AllocError, AllocFailed};
use std::fmt;
use thiserror::Error;
use vx_base::Pos;

/// What a function has too many of.
#[derive(Clone, Copy, Debug, PartialEq, Eq)]
pub enum Counted {
    /// Parameters: at most 16.
    Params,
    /// Variables of a kernel, at most 256, or its `__local` arrays, at most 16.
    Variables,
    /// Nodes of a kernel: at most 16,384.
    Nodes,
}

impl fmt::Display for Counted {
    fn fmt<W: fmt::Write>(&self, f: &mut fmt::Formatter<W>) -> fmt::Result {
        match self {
            Counted::Params => write!(f, "parameters"),
            Counted::Variables => write!(f, "variables or arrays"),
            Counted::Nodes => write!(f, "nodes"),
        }
    }
}

/// Why a file has no program.
#[derive(Clone, Copy, Debug, PartialEq, Eq, Error)]
pub enum TypeFault {
    /// No scope has the name, and it is no built-in function in a call's place.
    #[error("{0}: no scope has this name")]
    Unknown(Pos),
    /// The name's scope has it already, or a function has a built-in function's name.
    #[error("{0}: this name is taken")]
    Twice(Pos),
    /// Something stands where another kind is wanted.
    #[error("{0}: another kind is wanted here")]
    Mismatch(Pos),
    /// The function can reach a call of itself.
    #[error("{0}: this function can reach a call of itself")]
    Recursive(Pos),
    /// The function has too many parameters, or the kernel with its calls expanded too many variables, arrays or nodes.
    #[error("{pos}: this function has too many {what}: {count}")]
    TooMany {
        /// The place of the function's name.
        pos: Pos,
        /// What it has too many of.
        what: Counted,
        /// How many it has, 2^32 - 1 where there are more.
        count: u32,
    },
    /// The kernel with its calls expanded has branches and loops, or calls, nested too deep.
    #[error("{0}: this kernel is nested too deep with its calls expanded")]
    TooNested(Pos),
    /// Memory ran out.
    #[error("memory ran out")]
    Memory,
}

impl From<AllocError> for TypeFault {
    ghost use Rattle.std.specs.Prelude.{◌≡◌};
    ghost use Rattle.ocl_types.specs.declared.faults.TypeFault.TheVariants as fault;

    ghost from_gives = { λ _ made. made ≡ fault.Memory };

    fn from(_fault: AllocError) -> TypeFault {
        TypeFault::Memory
    }
}

impl<T: Drop> From<AllocFailed<T>> for TypeFault {
    ghost use Rattle.std.specs.Prelude.{◌≡◌};
    ghost use Rattle.ocl_types.specs.declared.faults.TypeFault.TheVariants as fault;

    ghost from_gives = { λ _ made. made ≡ fault.Memory };

    fn from(_fault: AllocFailed<T>) -> TypeFault {
        TypeFault::Memory
    }
}

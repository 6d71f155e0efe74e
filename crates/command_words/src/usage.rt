//! What is wrong with words that are refused.
ghost use Rattle.std.specs.Prelude.{◌≡◌};
ghost use Rattle.command_words.specs.declared.usage.UsageFault.TheVariants.{Memory};

use std::alloc::{AllocError, AllocFailed};
use std::fmt;
use thiserror::Error;

/// What is wrong with a word, in the order in which it is asked.
#[derive(Clone, Copy, Debug, PartialEq, Eq)]
pub enum UsageKind {
    /// The first word is no command.
    Command,
    /// The word is of no form that may stand there, or no word may.
    Form,
    /// A number is outside its limits, or no power of two where one is asked for.
    Number,
    /// The key of a machine word or the name of a buffer was given before, or there are 64 words of the key already.
    Repeated,
    /// A buffer is named that no word gives.
    Unknown,
    /// A word is missing, behind the last.
    Missing,
}

/// Why words are not read.
#[derive(Clone, Copy, Debug, PartialEq, Eq, Error)]
pub enum UsageFault {
    /// The words are not as they should be.
    #[error("usage word {word} {kind}")]
    Usage {
        /// The number of the word, from 0; a number past 32 bits is kept as 2^32 - 1.
        word: u32,
        /// What is wrong.
        kind: UsageKind,
    },
    /// Memory ran out.
    #[error("memory ran out")]
    Memory,
}

impl From<AllocError> for UsageFault {
    ghost from_gives = { λ _ e. e ≡ Memory };

    fn from(_e: AllocError) -> UsageFault {
        UsageFault::Memory
    }
}

impl<T: Drop> From<AllocFailed<T>> for UsageFault {
    ghost from_gives = { λ _ e. e ≡ Memory };

    fn from(_e: AllocFailed<T>) -> UsageFault {
        UsageFault::Memory
    }
}

impl fmt::Display for UsageKind {
    ghost use Rattle.std.specs.Prelude.{Some};
    ghost use Rattle.command_words.specs.Kinds.{usage_kind_text};

    ghost output = { λ kind. Some (usage_kind_text kind) };

    fn fmt<W: fmt::Write>(&self, f: &mut fmt::Formatter<W>) -> fmt::Result {
        match self {
            UsageKind::Command => write!(f, "Command"),
            UsageKind::Form => write!(f, "Form"),
            UsageKind::Number => write!(f, "Number"),
            UsageKind::Repeated => write!(f, "Repeated"),
            UsageKind::Unknown => write!(f, "Unknown"),
            UsageKind::Missing => write!(f, "Missing"),
        }
    }
}

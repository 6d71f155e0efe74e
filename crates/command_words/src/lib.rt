//! The words of the command line, read exactly.
//!
//! Read first `commands` for what words ask for and `usage` for what is wrong with them. Then, in `specs/`: `Texts.antt` says
//! how each word is written, `Limits.antt` which numbers it may have and `Repeats.antt` what it must not repeat; `Spelled.antt`
//! says which words are those of a command, and what is wrong with others. `Readers.antt` and `Commands.antt` have the same as
//! functions, which the code computes.
#![tactic(auto)]

pub mod commands;
pub mod entries;
pub mod further;
pub mod given;
pub mod launches;
pub mod limits;
pub mod machine;
pub mod meaning;
pub mod names;
pub mod pass;
pub mod places;
pub mod reading;
pub mod repeats;
pub mod usage;

pub use commands::{BufFrom, BufWord, BufWordList, Command, DoWord, DoWordList, ShowList};
pub use reading::read_command_line;
pub use usage::{UsageFault, UsageKind};

//! The words of the command line, and what they ask for.
//!
//! Read first `specs/Commands.antt` for the commands and the faults, and `specs/Words.antt` for the words of `run`; then
//! `command` for what is read from them, `form` for the words of `run` together, and `further` for each word behind its
//! file.
#![tactic(auto)]

pub mod command;
pub mod form;
pub mod further;
pub mod numbers;
pub mod run_words;
pub mod usage;

pub use command::{Command, read_words};
pub use run_words::{BufFrom, BufWord, RunWords};
pub use usage::{UsageFault, UsageKind};

//! The typing of kernel files: which files have a program, and which one.
//!
//! `specs/Names.antt` says what a name stands for, `specs/Exprs.antt` and `specs/Stmts.antt` type expressions and
//! statements, and `specs/Functions.antt` the functions of a file with their limits. These are the crate's statement;
//! `Answers`, `Results` and `Tables` retell what its parts give, for the proof.
#![tactic(auto)]

pub mod args;
pub mod bodies;
mod builtins;
pub mod calls;
pub mod changes;
pub mod counts;
pub mod exprs;
pub mod faults;
pub mod file;
pub mod functions;
mod kinds;
mod limits;
pub mod names;
pub mod parts;
pub mod programs;
pub mod scopes;
pub mod simple;
pub mod standing;
pub mod uses;

pub use faults::{Counted, TypeFault};
pub use programs::Program;

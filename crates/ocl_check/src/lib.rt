//! The typing of statements, functions and files: whether a file has a program, and which one.
//!
//! The definitions stand in `ocl_types`: `specs/Stmts.antt` types statements, and `specs/Functions.antt` the functions of
//! a file with their limits.
#![tactic(auto)]

pub mod bodies;
pub mod file;
pub mod stmts;

pub use file::check;
pub use ocl_types::{Counted, Program, TypeFault};

//! The normal form of a flat kernel: structured code whose operations work on variables and numbers alone, which asks for the same.
//!
//! `specs/Operators.antt` says which operations an operator comes to, and `specs/Normal.antt` what expressions and statements do: `&&`,
//! `||` and `?:` are branches, loads stand from left to right behind their checks, and a `return` leaves its value in a variable of its
//! call. `specs/Laws.antt` and `specs/Kept.antt` say what the code keeps of the kernel, and `specs/Proper.antt` of `ocl_inline` of
//! which kernels this is asked. [`normalise`] makes it, and [`fits`] tells whether its variables can be numbered.
#![tactic(auto)]

pub mod arguments;
pub mod assignments;
pub mod expressions;
pub mod kernels;
pub mod occurrences;
pub mod operators;
pub mod parts;
pub mod rooms;
pub mod standings;
pub mod statements;

pub use kernels::{fits, normalise};

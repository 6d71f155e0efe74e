//! Jumps turned into flags: a structured kernel without `break`, `continue`, `return` and calls, which asks for the same.
//!
//! `specs/Flagging.antt` says what the flags are and which operations set and test them, and `specs/WithoutJumps.antt` what the kernel
//! made so keeps of the one that it is made from. [`flags`] makes it, and [`fits`] tells whether
//! its variables can be numbered.
#![tactic(auto)]

pub mod flagging;
pub mod kernels;
pub mod laws;
pub mod leaving;
pub mod scopes;
pub mod singles;

pub use kernels::{fits, flags};

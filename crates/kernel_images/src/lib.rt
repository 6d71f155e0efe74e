//! A kernel of a program as an image: machine words, and what a launch must know of them.
//!
//! Read first `specs/Images.antt` for what an image is, then `specs/Refusals.antt` for which kernels have none. [`compile`] makes it.
#![tactic(auto)]

pub mod compiling;
pub mod parts;

pub use compiling::{CompileFault, compile};

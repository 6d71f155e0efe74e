//! Which variables of a structured kernel are uniform: the same in all work-items of a group that stand at the same place, in the same
//! turns of the loops round it.
//!
//! Read first `specs/Marks.antt` for which they are, then `specs/Pairs.antt` for what they are good for. [`uniform`] finds the marks of a
//! kernel.
#![tactic(auto)]

pub mod laws;
pub mod marks;
pub mod sweeps;

pub use marks::Marks;
pub use sweeps::uniform;

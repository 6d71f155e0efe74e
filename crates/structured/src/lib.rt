//! A kernel of a program as structured code without jumps: its calls expanded, in normal form, with flags in place of jumps.
//!
//! Read first `specs/Source.antt` for what the code keeps of what the items in the source ask for, then `specs/Ready.antt` for what the
//! code has beside that. [`structured`] makes it. What stands above cites these two alone, and none of the three passes.
#![tactic(auto)]

pub mod kernels;
pub mod laws;

pub use kernels::structured;

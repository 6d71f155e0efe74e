//! Launches of images: whether a launch may run.
//!
//! Read first `specs/Conditions.antt` for what a launch and its machine have to meet (`launch_plans` has their types), with
//! `buffers` for where its buffers lie, and `specs/Refusals.antt` for the refusals; `checks` has those of the arguments, and
//! `ranges` those of the range.
#![tactic(auto)]

pub mod arguments;
pub mod buffers;
pub mod checked;
pub mod checks;
pub mod faults;
pub mod locals;
pub mod ranges;
pub mod spaces;
pub mod words;

pub use buffers::{BufShape, BufShapeList};
pub use checked::Checked;
pub use faults::LaunchFault;

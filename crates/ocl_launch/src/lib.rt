//! Launches of the kernels of a program: what the parameters of a kernel may stand for, and the work-items of a launch.
//!
//! Read first `specs/Fitting.antt`, then [`launches`]. What a work-item does is said in `ocl_sem`, and of a kernel with
//! its calls expanded in `ocl_inline`.
#![tactic(auto)]

pub mod launches;

pub use launches::{fits, flat_items_of, items_of};

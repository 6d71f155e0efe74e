//! Kernels of assignments: each work-item assigns sums to its own elements of the parameters' arrays.
//!
//! Read first `tree` for the form of such a kernel, then `specs/FirstForms.antt` for the resolved kernels that have it, and
//! `specs/First.antt` for what a work-item does. `forms` finds whether a kernel has the form.
#![tactic(auto)]

pub mod code;
pub mod forms;
pub mod laws;
pub mod run;
pub mod tree;
pub mod unread;
pub mod warp;

//! A kernel of a program as code for the lanes of warps: structured code without jumps, its uniform variables, and what both are lowered to.
//!
//! Read first `specs/Source.antt` for what the lanes keep of what the items in the source ask for, then `specs/Sizes.antt` for how large the
//! code is. [`lane_kernel`] makes it.
#![tactic(auto)]

pub mod kernels;

pub use kernels::lane_kernel;

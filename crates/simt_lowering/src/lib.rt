//! Structured kernels as code for the lanes of warps.
//!
//! Read `specs/Lowered.antt` for the code that a kernel becomes, `specs/Around.antt` for when a lane is laid out for a work-item, and
//! `specs/Kept.antt` for what is kept.
#![tactic(auto)]

pub mod elements;
pub mod ids;
pub mod known;
pub mod laws;
pub mod lowering;
pub mod operations;
pub mod places;
pub mod starting;
pub mod warps;

pub use lowering::lower;

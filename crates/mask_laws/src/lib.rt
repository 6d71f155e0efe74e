//! A warp over lowered code does for each of its lanes what the lane does alone.
//!
//! Read `specs/Laws.antt` for the law, `specs/Spots.antt` for what stands round a place of lowered code, and `specs/Labels.antt` for the
//! places of a kernel.
#![tactic(auto)]

pub mod laws;

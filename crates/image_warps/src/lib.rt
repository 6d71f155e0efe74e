//! A warp at compiled words steps as the warp of code for lanes.
//!
//! Read `specs/Warps.antt` for the warp at words, written as a function of the warp of the code, and `specs/Laws.antt` for the law.
#![tactic(auto)]

pub mod laws;

//! A lane alone at a kernel's machine words does as its item in the source.
//!
//! Read `specs/Lanes.antt` for the statement, and `specs/Laws.antt` for the kernels of which it is said.
#![tactic(auto)]

pub mod laws;

//! Code for lanes as machine words: each register is a word of the lane's frame.
//!
//! Read `specs/Blocks.antt` for the words of each operation, `specs/Layout.antt` for where they stand, and `specs/Alone.antt` for what a
//! lane does alone at these words. `specs/Laws.antt` says what is known of the words. Then [`allocate`]; `blocks` has the block of
//! each operation.
#![tactic(auto)]

pub mod allocation;
pub mod blocks;
pub mod counting;
pub mod laws;
pub mod numbers;
pub mod operations;
pub mod putting;
pub mod rows;
pub mod starts;

pub use allocation::{AllocateFault, Allocated, allocate};

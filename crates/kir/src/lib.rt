//! The structured form of a kernel, between its source and the code of the machine: operations whose operands are variables
//! and numbers, held by branches, loops and calls.
//!
//! Read first `specs/Trees.antt` for the form, then `specs/Machine.antt` for what a work-item of it does. `specs/Shapes.antt`
//! says which plain tree the code's trees are, and `specs/Views.antt` which state of the machine the code's state is.
//! [`kir_next`] is what other crates call, and the constructors of `nodes`.
#![tactic(auto)]

pub mod accesses;
pub mod computing;
pub mod items;
pub mod jumps;
pub mod lists;
pub mod nodes;
pub mod opening;
pub mod ops;
pub mod runs;
pub mod states;
pub mod steps;
pub mod tasks;

pub use items::{KirItems, kir_next};
pub use lists::{put, put_set};
pub use nodes::{call_op, if_op, loop_op};
pub use ops::{Kir, Op, Operand};

//! A work-item as a machine of small steps over tasks, the same for every form of program that is a tree: a form says how
//! its sub-trees become tasks.
//!
//! Read first `specs/Tasks.antt` for the machine, and `specs/Operators.antt` for the values of built-in functions. [`Form`] is
//! what a form of program gives, and [`State`] a work-item, whose `run` says what it asks for.
#![tactic(auto)]

pub mod accesses;
pub mod choices;
pub mod forms;
pub mod jumps;
pub mod loops;
pub mod operators;
pub mod runs;
pub mod states;
pub mod steps;
pub mod tasks;
pub mod turnings;
pub mod values;

pub use forms::Form;
pub use states::State;
pub use tasks::{Task, Tasks};
pub use turnings::Loop;

//! A kernel with its calls expanded: what stands at a call is the body of the helper.
//!
//! Read first `specs/Trees.antt` for the flat kernel, `specs/FlatTasks.antt` for what its items do, and `specs/Expansion.antt`
//! for which flat kernel a kernel is. `specs/Mapping.antt` says which state of the flat kernel stands for a state of the source;
//! `laws` has what follows: both make the same steps.
#![tactic(auto)]

pub mod expansion;
pub mod kernels;
pub mod laws;
pub mod nodes;
pub mod trees;

pub use kernels::expand;
pub use trees::{Binding, Flat, FlatArgument, FlatExpr, FlatStmt};

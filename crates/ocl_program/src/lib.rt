//! The resolved program: the trees of a file in which every name is a number and every type is known.
//!
//! Read first `exprs` and `stmts`, then `functions`. Contracts see them as the plain trees of `specs/Nodes.antt`, by
//! `specs/Shapes.antt`; `specs/Measures.antt` says how large a function is once its calls are expanded.
#![tactic(auto)]

pub mod exprs;
pub mod functions;
pub mod nodes;
pub mod stmts;
pub mod values;

pub use exprs::{Argument, ArrayRef, Builtin, TypedExpr};
pub use functions::{CallSite, LocalArray, Measures, TypedFunction};
pub use stmts::TypedStmt;
pub use values::{binary_value, unary_value};

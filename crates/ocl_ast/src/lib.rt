//! The trees of kernel files: what the parser makes and the typing reads.
//!
//! Read first `exprs` for expressions, then `stmts` for statements and `units` for functions and files. Contracts see
//! them as the plain trees of `specs/Trees.antt`, by `specs/Shapes.antt`; `specs/Measures.antt` has the levels of
//! statements and the height of an expression.
#![tactic(auto)]

pub mod exprs;
pub mod nodes;
pub mod stmts;
pub mod units;

pub use exprs::{BinOp, Expr, ExprList, Ident, UnOp};
pub use stmts::{AssignOp, Stmt, StmtList, Target};
pub use units::{Function, FunctionList, Gives, Param, ParamList, Unit};

use crate::stmts::TypedStmt;
use ocl_ast::{Gives, Ident, ParamList};
use vx_base::Elem;

/// A `__local` array that a kernel declares.
#[derive(Clone, Copy, Debug, PartialEq, Eq)]
pub struct LocalArray {
    /// The type of its elements.
    pub elem: Elem,
    /// How many elements it has.
    pub count: u32,
}

/// A call of a helper in a function. The variables and barriers of all calls that precede it stand before its own, and
/// those of the function itself before all; both numbers are cut at 2^32 - 1.
#[derive(Clone, Copy, Debug, PartialEq, Eq)]
pub struct CallSite {
    /// The number of the helper among the functions of the file.
    pub callee: u32,
    /// Where the helper's variables begin in the caller's numbering.
    pub variables: u32,
    /// Where the helper's barriers begin in the caller's numbering.
    pub sites: u32,
}

/// A kernel or a helper whose names are resolved.
#[derive(Debug, Drop)]
pub struct TypedFunction {
    /// Whether it is a kernel.
    pub kernel: bool,
    /// Its name.
    pub name: Ident,
    /// What it gives back.
    pub gives: Gives,
    /// Its parameters in order.
    pub params: ParamList,
    /// How many variables it has: its scalar parameters first, then what it declares, each array too.
    pub variables: u32,
    /// How many barriers stand in it.
    pub sites: u32,
    /// The `__local` arrays that it declares, in order.
    pub arrays: Vec<LocalArray>,
    /// The calls of helpers in it; a call stands behind those in its arguments.
    pub calls: Vec<CallSite>,
    /// The items of its block.
    pub body: Vec<TypedStmt>,
}

/// How large a function is once each call of a helper stands for the helper's body.
#[derive(Clone, Copy, Debug, PartialEq, Eq)]
pub struct Measures {
    /// Scalar parameters and declared names.
    pub variables: u32,
    /// Statements and parts of expressions.
    pub nodes: u32,
    /// The greatest depth of an expression, 0 where there is none.
    pub depth: u32,
    /// The greatest number of branches and loops round a statement or an expression.
    pub control: u32,
    /// The greatest number of calls inside one another.
    pub calls: u32,
}

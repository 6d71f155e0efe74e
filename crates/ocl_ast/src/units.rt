use crate::exprs::Ident;
use crate::stmts::StmtList;
use vx_base::{Elem, ListOf, ParamKind};

/// A parameter of a function.
#[derive(Debug, Drop)]
pub struct Param {
    /// Its name.
    pub name: Ident,
    /// What it takes.
    pub kind: ParamKind,
    /// Whether it is `const` itself: for a pointer that is a `const` behind the `*`.
    pub constant: bool,
}

/// Parameters in order.
pub type ParamList = ListOf<Param>;

/// What a function gives back.
#[derive(Clone, Copy, Debug, PartialEq, Eq)]
pub enum Gives {
    /// Nothing: `void`.
    Nothing,
    /// A value of this type.
    Value(Elem),
}

/// A kernel or a helper.
#[derive(Debug, Drop)]
pub struct Function {
    /// Whether it is a kernel.
    pub kernel: bool,
    /// Its name.
    pub name: Ident,
    /// What it gives back.
    pub gives: Gives,
    /// Its parameters in order.
    pub params: ParamList,
    /// The items of its block.
    pub body: StmtList,
}

/// Functions in order.
pub type FunctionList = ListOf<Function>;

/// A source file.
#[derive(Debug, Drop)]
pub struct Unit {
    /// Its functions in order.
    pub functions: FunctionList,
}

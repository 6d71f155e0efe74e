use crate::exprs::{ArrayRef, TypedExpr};
use ocl_ast::AssignOp;
use vx_base::{Elem, Pos};

/// A statement whose names are resolved and whose types are known.
#[derive(Debug, Drop)]
pub enum TypedStmt {
    /// A variable begins to live: it is 0, and then the value where one is written.
    Declare {
        /// Its number in its function.
        variable: u32,
        /// Its type.
        elem: Elem,
        /// Its first value.
        value: Option<TypedExpr>,
    },
    /// A `__local` array, which lives as long as its group runs.
    LocalArray {
        /// Its number among the arrays of its function.
        array: u32,
        /// How many elements it has, as it is written.
        count: TypedExpr,
    },
    /// An assignment to a variable.
    SetVariable {
        /// The variable.
        variable: u32,
        /// Its type.
        elem: Elem,
        /// What is done with it.
        op: AssignOp,
        /// Whether the operator before the `=` works on uint; of a shift, whether the variable is uint.
        unsigned: bool,
        /// What stands right of the operator; none with `++` and `--`.
        value: Option<TypedExpr>,
    },
    /// An assignment to an element of an array.
    SetElement {
        /// The array.
        array: ArrayRef,
        /// The type of its elements.
        elem: Elem,
        /// Which element, from 0.
        place: TypedExpr,
        /// What is done with it.
        op: AssignOp,
        /// Whether the operator before the `=` works on uint; of a shift, whether the element is uint.
        unsigned: bool,
        /// What stands right of the operator; none with `++` and `--`.
        value: Option<TypedExpr>,
        /// The place of the `[`.
        pos: Pos,
    },
    /// A call whose value is not used.
    Call(TypedExpr),
    /// A barrier.
    Barrier {
        /// Its number among the barriers of its function.
        site: u32,
    },
    /// `if`, with or without `else`.
    If {
        /// What chooses.
        test: TypedExpr,
        /// What runs where the test is not 0.
        yes: Box<TypedStmt>,
        /// What runs where the test is 0.
        no: Option<Box<TypedStmt>>,
    },
    /// `while`.
    While {
        /// What is tested before each turn.
        test: TypedExpr,
        /// The turn.
        body: Box<TypedStmt>,
    },
    /// `do`.
    Do {
        /// The turn.
        body: Box<TypedStmt>,
        /// What is tested after each turn.
        test: TypedExpr,
    },
    /// `for`.
    For {
        /// What runs first.
        first: Vec<TypedStmt>,
        /// What is tested before each turn, where it is written.
        test: Option<TypedExpr>,
        /// What runs after each turn.
        step: Vec<TypedStmt>,
        /// The turn.
        body: Box<TypedStmt>,
    },
    /// `break;`
    Break,
    /// `continue;`
    Continue,
    /// `return`, with the value where one is written.
    Return(Option<TypedExpr>),
    /// Statements in braces.
    Block(Vec<TypedStmt>),
    /// `;` alone.
    Empty,
}

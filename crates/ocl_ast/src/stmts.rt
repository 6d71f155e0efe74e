use crate::exprs::{BinOp, Expr, ExprList, Ident};
use vx_base::{Elem, Pos};

/// What an assignment changes.
#[derive(Debug, Drop)]
pub enum Target {
    /// A variable.
    Name(Ident),
    /// An element of an array.
    Index {
        /// The array.
        array: Ident,
        /// Which element, from 0.
        place: Expr,
        /// The place of the `[`.
        pos: Pos,
    },
}

/// What an assignment does with its target (C99, sections 6.5.16, 6.5.2.4 and 6.5.3.1).
#[derive(Clone, Copy, Debug, PartialEq, Eq)]
pub enum AssignOp {
    /// `=`
    Set,
    /// An operator and `=`, as `+=`.
    With(BinOp),
    /// `++`, before or behind the target.
    Up,
    /// `--`, before or behind the target.
    Down,
}

/// A statement, or a declaration among statements.
#[derive(Debug, Drop)]
pub enum Stmt {
    /// A variable of its own scalar type. A declaration of several names is several of these in order.
    Declare {
        /// The type.
        elem: Elem,
        /// Whether it is `const`.
        constant: bool,
        /// The variable.
        name: Ident,
        /// Its first value, where one is written.
        value: Option<Expr>,
    },
    /// A `__local` array.
    LocalArray {
        /// The type of its elements.
        elem: Elem,
        /// The array.
        name: Ident,
        /// How many elements it has.
        count: Expr,
    },
    /// An assignment.
    Assign {
        /// What it changes.
        target: Target,
        /// What it does.
        op: AssignOp,
        /// What stands right of the operator; none with `++` and `--`.
        value: Option<Expr>,
        /// The place of the operator.
        pos: Pos,
    },
    /// A call whose value is not used.
    Call {
        /// The function.
        name: Ident,
        /// The arguments in order.
        args: ExprList,
    },
    /// `barrier(..);`.
    Barrier {
        /// Where it begins.
        pos: Pos,
    },
    /// `if`, with or without `else`.
    If {
        /// What chooses.
        test: Expr,
        /// What runs where the test is not 0.
        yes: Box<Stmt>,
        /// What runs where the test is 0.
        no: Option<Box<Stmt>>,
    },
    /// `while`.
    While {
        /// What is tested before each turn.
        test: Expr,
        /// The turn.
        body: Box<Stmt>,
    },
    /// `do`.
    Do {
        /// The turn.
        body: Box<Stmt>,
        /// What is tested after each turn.
        test: Expr,
    },
    /// `for`.
    For {
        /// What runs first: declarations of one type, or assignments.
        first: StmtList,
        /// What is tested before each turn, where it is written.
        test: Option<Expr>,
        /// The assignments after each turn.
        step: StmtList,
        /// The turn.
        body: Box<Stmt>,
    },
    /// `break;`, with its place.
    Break(Pos),
    /// `continue;`, with its place.
    Continue(Pos),
    /// `return`.
    Return {
        /// The value, where one is written.
        value: Option<Expr>,
        /// The place of the word.
        pos: Pos,
    },
    /// Statements in braces.
    Block(StmtList),
    /// `;` alone.
    Empty,
}

/// Statements in order.
pub type StmtList = Vec<Stmt>;

//! The flat kernel.

use ocl_ast::{AssignOp, BinOp, Gives, ParamList, UnOp};
use ocl_program::{ArrayRef, Builtin, LocalArray};
use vx_base::{Elem, Pos};

/// What is done with the value of an argument.
#[derive(Clone, Copy, Debug, PartialEq, Eq)]
pub enum Binding {
    /// It goes into the variable of this number, of this type.
    Variable(u32, Elem),
    /// It is not used.
    Dropped,
}

/// An expression with its calls expanded. Variables and arrays are numbered in the kernel.
#[derive(Debug, Drop)]
#[cycle(flat)]
pub enum FlatExpr {
    /// A number.
    Number {
        /// The value, of 32 bits.
        value: u32,
        /// Whether the type is uint, where it is otherwise int.
        unsigned: bool,
    },
    /// The value of a variable.
    Variable(u32),
    /// An operator before its operand.
    Unary {
        /// The operator.
        op: UnOp,
        /// The operand.
        part: Box<FlatExpr>,
    },
    /// An operator between its operands.
    Binary {
        /// The operator.
        op: BinOp,
        /// Whether the operands' common type is uint; of a shift, that of its left operand.
        unsigned: bool,
        /// The left operand.
        left: Box<FlatExpr>,
        /// The right operand.
        right: Box<FlatExpr>,
    },
    /// `&&`.
    Both {
        /// The left operand.
        left: Box<FlatExpr>,
        /// The right operand.
        right: Box<FlatExpr>,
    },
    /// `||`.
    Either {
        /// The left operand.
        left: Box<FlatExpr>,
        /// The right operand.
        right: Box<FlatExpr>,
    },
    /// `test ? yes : no`.
    Choose {
        /// Whether the common type of the two values is uint.
        unsigned: bool,
        /// What chooses.
        test: Box<FlatExpr>,
        /// The value where the test is not 0.
        yes: Box<FlatExpr>,
        /// The value where the test is 0.
        no: Box<FlatExpr>,
    },
    /// A conversion.
    Cast {
        /// The type.
        elem: Elem,
        /// The operand.
        part: Box<FlatExpr>,
    },
    /// An element of an array.
    Load {
        /// The array.
        array: ArrayRef,
        /// The type of its elements.
        elem: Elem,
        /// Which element, from 0.
        place: Box<FlatExpr>,
        /// The place of the `[`.
        pos: Pos,
    },
    /// A call of a helper: its arguments are bound from left to right, and then its body runs.
    Call {
        /// The arguments in order.
        args: Vec<FlatArgument>,
        /// The items of the helper's block.
        body: Vec<FlatStmt>,
    },
    /// A call that leads to no helper, which gives 0. No kernel of an accepted file has one.
    Lost {
        /// The arguments in order.
        args: Vec<FlatArgument>,
    },
    /// A call of a built-in function.
    Builtin {
        /// Which one.
        which: Builtin,
        /// Whether the common type of the arguments is uint.
        unsigned: bool,
        /// The arguments in order, all of them values.
        args: Vec<FlatArgument>,
    },
    /// An expression in parentheses.
    Paren(Box<FlatExpr>),
}

/// An argument of a call.
#[derive(Debug, Drop)]
#[cycle(flat)]
pub enum FlatArgument {
    /// A number.
    Number {
        /// Its value.
        value: FlatExpr,
        /// What is done with it.
        binding: Binding,
    },
    /// An array.
    Array(ArrayRef),
}

/// A statement with its calls expanded. Variables, barriers and arrays are numbered in the kernel.
#[derive(Debug, Drop)]
#[cycle(flat)]
pub enum FlatStmt {
    /// A variable is 0, and then the value where one is written.
    Declare {
        /// The variable.
        variable: u32,
        /// Its type.
        elem: Elem,
        /// Its first value.
        value: Option<Box<FlatExpr>>,
    },
    /// A `__local` array of the kernel.
    LocalArray {
        /// Its number among the arrays that the kernel declares.
        array: u32,
        /// How many elements it has, as it is written.
        count: Box<FlatExpr>,
    },
    /// An assignment to a variable.
    SetVariable {
        /// The variable.
        variable: u32,
        /// Its type.
        elem: Elem,
        /// What is done with it.
        op: AssignOp,
        /// Whether the operator before the `=` works on uint; of a shift, whether the variable is uint.
        unsigned: bool,
        /// What stands right of the operator; none with `++` and `--`.
        value: Option<Box<FlatExpr>>,
    },
    /// An assignment to an element of an array.
    SetElement {
        /// The array.
        array: ArrayRef,
        /// The type of its elements.
        elem: Elem,
        /// Which element, from 0.
        place: Box<FlatExpr>,
        /// What is done with it.
        op: AssignOp,
        /// Whether the operator before the `=` works on uint; of a shift, whether the element is uint.
        unsigned: bool,
        /// What stands right of the operator; none with `++` and `--`.
        value: Option<Box<FlatExpr>>,
        /// The place of the `[`.
        pos: Pos,
    },
    /// A call whose value is not used.
    Call(Box<FlatExpr>),
    /// A barrier.
    Barrier {
        /// Its number among the barriers of the kernel.
        site: u32,
    },
    /// `if`, with or without `else`.
    If {
        /// What chooses.
        test: Box<FlatExpr>,
        /// What runs where the test is not 0.
        yes: Box<FlatStmt>,
        /// What runs where the test is 0.
        no: Option<Box<FlatStmt>>,
    },
    /// `while`.
    While {
        /// What is tested before each turn.
        test: Box<FlatExpr>,
        /// The turn.
        body: Box<FlatStmt>,
    },
    /// `do`.
    Do {
        /// The turn.
        body: Box<FlatStmt>,
        /// What is tested after each turn.
        test: Box<FlatExpr>,
    },
    /// `for`.
    For {
        /// What runs first.
        first: Vec<FlatStmt>,
        /// What is tested before each turn, where it is written.
        test: Option<Box<FlatExpr>>,
        /// What runs after each turn.
        step: Vec<FlatStmt>,
        /// The turn.
        body: Box<FlatStmt>,
    },
    /// `break;`
    Break,
    /// `continue;`
    Continue,
    /// `return`.
    Return {
        /// What the function gives back.
        gives: Gives,
        /// The value, where one is written.
        value: Option<Box<FlatExpr>>,
    },
    /// Statements in braces.
    Block(Vec<FlatStmt>),
    /// `;` alone.
    Empty,
}

/// A kernel with its calls expanded.
#[derive(Debug, Drop)]
pub struct Flat {
    /// Its parameters in order.
    pub params: ParamList,
    /// The `__local` arrays that it declares, in order.
    pub arrays: Vec<LocalArray>,
    /// How many variables it has: its scalar parameters first, then its own, then those of its calls.
    pub variables: u32,
    /// How many barriers it has.
    pub sites: u32,
    /// The items of its block.
    pub body: Vec<FlatStmt>,
}

//! The operations of a structured kernel.
use ocl_ast::ParamList;
use ocl_program::{ArrayRef, Builtin, LocalArray};
use vx_base::{Alu, Elem, Pos};

/// What an operation works on.
#[derive(Clone, Copy, Debug, PartialEq, Eq)]
pub enum Operand {
    /// The value of the variable of this number.
    Variable(u32),
    /// A number.
    Number(u32),
}

/// An operation.
#[derive(Debug, Drop)]
pub enum Op {
    /// A value into a variable.
    Set {
        /// The variable.
        variable: u32,
        /// The value.
        value: Operand,
    },
    /// What an operation on two words gives, into a variable.
    Calculate {
        /// The variable.
        variable: u32,
        /// The operation.
        op: Alu,
        /// The first word.
        left: Operand,
        /// The second word.
        right: Operand,
    },
    /// A value cut to a type, into a variable.
    Fit {
        /// The variable.
        variable: u32,
        /// The type.
        elem: Elem,
        /// The value.
        value: Operand,
    },
    /// What a built-in function of a dimension gives, into a variable.
    Id {
        /// The variable.
        variable: u32,
        /// Which function.
        which: Builtin,
        /// The dimension.
        dimension: Operand,
    },
    /// An element of an array into a variable.
    Load {
        /// The variable.
        variable: u32,
        /// The array.
        array: ArrayRef,
        /// The type of its elements.
        elem: Elem,
        /// Which element, from 0.
        index: Operand,
    },
    /// A value into an element of an array.
    Store {
        /// The array.
        array: ArrayRef,
        /// The type of its elements.
        elem: Elem,
        /// Which element, from 0.
        index: Operand,
        /// The value.
        value: Operand,
    },
    /// A fault where an array has no element at an index.
    Check {
        /// The array.
        array: ArrayRef,
        /// The index.
        index: Operand,
        /// The place of the `[`.
        pos: Pos,
    },
    /// A barrier.
    Barrier {
        /// Its number in the kernel.
        site: u32,
    },
    /// A branch.
    If {
        /// What chooses.
        test: Operand,
        /// What runs where the test is not 0.
        yes: Vec<Op>,
        /// What runs where the test is 0.
        no: Vec<Op>,
    },
    /// A loop.
    Loop {
        /// What runs before each test.
        head: Vec<Op>,
        /// What is tested behind the head: where it is 0, the loop is left.
        test: Operand,
        /// The turn.
        body: Vec<Op>,
        /// What runs behind each turn.
        step: Vec<Op>,
    },
    /// The innermost loop is left.
    Break,
    /// The turn of the innermost loop is over.
    Continue,
    /// The innermost call is left, or the kernel outside all calls.
    Return,
    /// The body of a helper.
    Call {
        /// What it does.
        body: Vec<Op>,
    },
}

/// A structured kernel.
#[derive(Debug, Drop)]
pub struct Kir {
    /// Its parameters in order.
    pub params: ParamList,
    /// The `__local` arrays that it declares, in order.
    pub arrays: Vec<LocalArray>,
    /// How many variables it has. The scalar parameters are the first of them.
    pub variables: u32,
    /// What it does.
    pub ops: Vec<Op>,
}

use ocl_ast::{BinOp, UnOp};
use vx_base::{Elem, Pos};

/// An array as a function names it.
#[derive(Clone, Copy, Debug, PartialEq, Eq)]
pub enum ArrayRef {
    /// What the parameter of this number is bound to, all parameters counted from 0.
    Parameter(u32),
    /// The declared `__local` array of this number, from 0 in order of declaration.
    Declared(u32),
}

/// The built-in functions (OpenCL C 1.2, sections 6.12.1 and 6.12.3).
#[derive(Clone, Copy, Debug, PartialEq, Eq)]
pub enum Builtin {
    /// `get_work_dim()`
    WorkDim,
    /// `get_global_id(d)`
    GlobalId,
    /// `get_local_id(d)`
    LocalId,
    /// `get_group_id(d)`
    GroupId,
    /// `get_global_size(d)`
    GlobalSize,
    /// `get_local_size(d)`
    LocalSize,
    /// `get_num_groups(d)`
    NumGroups,
    /// `get_global_offset(d)`
    GlobalOffset,
    /// `min(x, y)`
    Min,
    /// `max(x, y)`
    Max,
    /// `clamp(x, low, high)`
    Clamp,
    /// `abs(x)`
    Abs,
    /// `mul_hi(x, y)`
    MulHi,
}

/// An expression whose names are resolved and whose types are known.
#[derive(Debug, Drop)]
#[cycle(typed)]
pub enum TypedExpr {
    /// A number.
    Number {
        /// The value, of 32 bits.
        value: u32,
        /// Whether the type is uint, where it is otherwise int.
        unsigned: bool,
    },
    /// A variable.
    Variable {
        /// Its number in its function, from 0: the scalar parameters first, then the declared ones.
        variable: u32,
        /// Its type.
        elem: Elem,
    },
    /// An operator before its operand.
    Unary {
        /// The operator.
        op: UnOp,
        /// The operand.
        part: Box<TypedExpr>,
    },
    /// An operator between its operands.
    Binary {
        /// The operator.
        op: BinOp,
        /// Whether the operands' common type is uint; of a shift, that of its left operand.
        unsigned: bool,
        /// The left operand.
        left: Box<TypedExpr>,
        /// The right operand.
        right: Box<TypedExpr>,
    },
    /// `&&`.
    Both {
        /// The left operand.
        left: Box<TypedExpr>,
        /// The right operand.
        right: Box<TypedExpr>,
    },
    /// `||`.
    Either {
        /// The left operand.
        left: Box<TypedExpr>,
        /// The right operand.
        right: Box<TypedExpr>,
    },
    /// `test ? yes : no`.
    Choose {
        /// Whether the common type of the two values is uint.
        unsigned: bool,
        /// What chooses.
        test: Box<TypedExpr>,
        /// The value where the test is not 0.
        yes: Box<TypedExpr>,
        /// The value where the test is 0.
        no: Box<TypedExpr>,
    },
    /// A conversion.
    Cast {
        /// The type.
        elem: Elem,
        /// The operand.
        part: Box<TypedExpr>,
    },
    /// An element of an array.
    Load {
        /// The array.
        array: ArrayRef,
        /// The type of its elements.
        elem: Elem,
        /// Which element, from 0.
        place: Box<TypedExpr>,
        /// The place of the `[`.
        pos: Pos,
    },
    /// A call of a helper.
    Call {
        /// Its row in its function's table of calls.
        call: u32,
        /// The arguments in order.
        args: Vec<Argument>,
    },
    /// A call of a built-in function.
    Builtin {
        /// Which one.
        which: Builtin,
        /// Whether the common type of the arguments is uint.
        unsigned: bool,
        /// The arguments in order, all of them values.
        args: Vec<Argument>,
    },
    /// An expression in parentheses.
    Paren(Box<TypedExpr>),
}

/// What a parameter is bound to.
#[derive(Debug, Drop)]
#[cycle(typed)]
pub enum Argument {
    /// A number.
    Value(TypedExpr),
    /// An array.
    Array(ArrayRef),
}

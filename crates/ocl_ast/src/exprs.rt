use vx_base::{Elem, Pos, Text};

/// A name with its place.
#[derive(Debug, Drop)]
pub struct Ident {
    /// The bytes of the name.
    pub text: Text,
    /// Where it begins.
    pub pos: Pos,
}

/// The operators with one operand (C99, section 6.5.3.3).
#[derive(Clone, Copy, Debug, PartialEq, Eq)]
pub enum UnOp {
    /// `+`
    Plus,
    /// `-`
    Minus,
    /// `!`
    Not,
    /// `~`
    Flip,
}

/// The operators with two operands that are both evaluated (C99, sections 6.5.5 to 6.5.12).
#[derive(Clone, Copy, Debug, PartialEq, Eq)]
pub enum BinOp {
    /// `*`
    Mul,
    /// `/`
    Div,
    /// `%`
    Rem,
    /// `+`
    Add,
    /// `-`
    Sub,
    /// `<<`
    Shl,
    /// `>>`
    Shr,
    /// `<`
    Lt,
    /// `>`
    Gt,
    /// `<=`
    Le,
    /// `>=`
    Ge,
    /// `==`
    Eq,
    /// `!=`
    Ne,
    /// `&`
    And,
    /// `^`
    Xor,
    /// `|`
    Or,
}

/// An expression. The place of an operator is its token, that of an index its `[`.
#[derive(Debug, Drop)]
pub enum Expr {
    /// A number.
    Number {
        /// The value, of 32 bits.
        value: u32,
        /// Whether the type is uint, where it is otherwise int.
        unsigned: bool,
        /// Where it begins.
        pos: Pos,
    },
    /// A variable.
    Name(Ident),
    /// An operator before its operand.
    Unary {
        /// The operator.
        op: UnOp,
        /// The operand.
        part: Box<Expr>,
        /// The place of the operator.
        pos: Pos,
    },
    /// An operator between its operands.
    Binary {
        /// The operator.
        op: BinOp,
        /// The left operand.
        left: Box<Expr>,
        /// The right operand.
        right: Box<Expr>,
        /// The place of the operator.
        pos: Pos,
    },
    /// `&&`, whose right operand is evaluated only where the left is not 0.
    Both {
        /// The left operand.
        left: Box<Expr>,
        /// The right operand.
        right: Box<Expr>,
        /// The place of the operator.
        pos: Pos,
    },
    /// `||`, whose right operand is evaluated only where the left is 0.
    Either {
        /// The left operand.
        left: Box<Expr>,
        /// The right operand.
        right: Box<Expr>,
        /// The place of the operator.
        pos: Pos,
    },
    /// `test ? yes : no`.
    Choose {
        /// What chooses.
        test: Box<Expr>,
        /// The value where the test is not 0.
        yes: Box<Expr>,
        /// The value where the test is 0.
        no: Box<Expr>,
        /// The place of the `?`.
        pos: Pos,
    },
    /// A scalar type in parentheses before its operand.
    Cast {
        /// The type.
        elem: Elem,
        /// The operand.
        part: Box<Expr>,
        /// The place of the `(`.
        pos: Pos,
    },
    /// An element of an array.
    Index {
        /// The array.
        array: Ident,
        /// Which element, from 0.
        place: Box<Expr>,
        /// The place of the `[`.
        pos: Pos,
    },
    /// A call of a function.
    Call {
        /// The function.
        name: Ident,
        /// The arguments in order.
        args: ExprList,
    },
    /// An expression in parentheses.
    Paren {
        /// What stands in them.
        part: Box<Expr>,
        /// The place of the `(`.
        pos: Pos,
    },
}

/// Expressions in order.
pub type ExprList = Vec<Expr>;

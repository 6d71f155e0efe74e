use ocl_program::{ArrayRef, Builtin};
use vx_base::{Elem, Pos, Space};

/// What a name of a scope stands for.
#[derive(Clone, Copy, Debug, PartialEq, Eq)]
pub enum Binding {
    /// A variable.
    Scalar {
        /// Its number in its function.
        variable: u32,
        /// Its type.
        elem: Elem,
        /// Whether it is `const`.
        constant: bool,
    },
    /// A pointer parameter or a `__local` array.
    Array {
        /// Which one.
        array: ArrayRef,
        /// Where it lives.
        space: Space,
        /// The type of its elements.
        elem: Elem,
        /// Whether no store to it is accepted.
        readonly: bool,
    },
}

/// What a name stands for where it is used.
#[derive(Clone, Copy, Debug, PartialEq, Eq)]
pub enum Meaning {
    /// Something of a scope.
    Bound(Binding),
    /// The function of this number.
    Function(u32),
    /// A built-in function.
    Builtin(Builtin),
    /// Nothing.
    Unknown,
}

/// What a call is given for a parameter.
#[derive(Clone, Copy, Debug, PartialEq, Eq)]
pub enum Given {
    /// A number.
    Value {
        /// Its type.
        elem: Elem,
        /// Where its first token stands.
        pos: Pos,
    },
    /// An array by its bare name.
    Array {
        /// Where it lives.
        space: Space,
        /// The type of its elements.
        elem: Elem,
        /// Whether no store to it is accepted.
        readonly: bool,
        /// Where the name stands.
        pos: Pos,
    },
}

/// An array that a name finds.
#[derive(Clone, Copy, Debug, PartialEq, Eq)]
pub struct FoundArray {
    /// Which one.
    pub array: ArrayRef,
    /// Where it lives.
    pub space: Space,
    /// The type of its elements.
    pub elem: Elem,
    /// Whether no store to it is accepted.
    pub readonly: bool,
}

//! Types of expressions, and kinds of arguments.
ghost use Rattle.std.specs.Prelude.{◌≡◌};
ghost use Rattle.ocl_types.specs.Exprs.{is_uint as is_uint_of, word_type as word_type_of, unary_type as unary_type_of, on_uint as on_uint_of, is_comparison as is_comparison_of, binary_type as binary_type_of, arity as arity_of, is_of_kind as is_of_kind_of, is_word as is_word_of, given_pos, builtin_type as builtin_type_of, same_elem as same_elem_of, same_space as same_space_of};
ghost use Rattle.ocl_types.specs.Names.{is_fixed as is_fixed_of};

use crate::names::Given;
use ocl_ast::{BinOp, UnOp};
use ocl_program::Builtin;
use vx_base::{Elem, ParamKind, Pos, Space};

/// Whether a type is uint once it is promoted: what is smaller than int becomes int (C99, section 6.3.1.1).
pub fn is_uint(elem: Elem) -> bool
    ensures { result ≡ is_uint_of elem }
{
    match elem {
        Elem::Char | Elem::Uchar | Elem::Short | Elem::Ushort | Elem::Int => false,
        Elem::Uint => true,
    }
}

/// uint or int.
pub fn word_type(unsigned: bool) -> Elem
    ensures { result ≡ word_type_of unsigned }
{
    if unsigned { Elem::Uint } else { Elem::Int }
}

/// The type of an operator's value before its operand.
pub fn unary_type(op: UnOp, part: Elem) -> Elem
    ensures { result ≡ unary_type_of op part }
{
    match op {
        UnOp::Plus | UnOp::Minus | UnOp::Flip => word_type(is_uint(part)),
        UnOp::Not => Elem::Int,
    }
}

/// Whether an operator works on uint: a shift by its left side, every other by the common type (C99, section 6.3.1.8).
pub fn on_uint(op: BinOp, left: Elem, right: Elem) -> bool
    ensures { result ≡ on_uint_of op left right }
{
    match op {
        BinOp::Shl | BinOp::Shr => is_uint(left),
        BinOp::Mul
        | BinOp::Div
        | BinOp::Rem
        | BinOp::Add
        | BinOp::Sub
        | BinOp::Lt
        | BinOp::Gt
        | BinOp::Le
        | BinOp::Ge
        | BinOp::Eq
        | BinOp::Ne
        | BinOp::And
        | BinOp::Xor
        | BinOp::Or => is_uint(left) || is_uint(right),
    }
}

/// Whether an operator gives 0 or 1 (C99, sections 6.5.8 and 6.5.9).
pub fn is_comparison(op: BinOp) -> bool
    ensures { result ≡ is_comparison_of op }
{
    match op {
        BinOp::Lt | BinOp::Gt | BinOp::Le | BinOp::Ge | BinOp::Eq | BinOp::Ne => true,
        BinOp::Mul
        | BinOp::Div
        | BinOp::Rem
        | BinOp::Add
        | BinOp::Sub
        | BinOp::Shl
        | BinOp::Shr
        | BinOp::And
        | BinOp::Xor
        | BinOp::Or => false,
    }
}

/// The type of an operator's value between its operands.
pub fn binary_type(op: BinOp, left: Elem, right: Elem) -> Elem
    ensures { result ≡ binary_type_of op left right }
{
    if is_comparison(op) {
        Elem::Int
    } else {
        word_type(on_uint(op, left, right))
    }
}

/// How many arguments a built-in function takes.
pub fn arity(which: Builtin) -> usize
    ensures { result ≡ arity_of which }
{
    match which {
        Builtin::WorkDim => 0,
        Builtin::GlobalId
        | Builtin::LocalId
        | Builtin::GroupId
        | Builtin::GlobalSize
        | Builtin::LocalSize
        | Builtin::NumGroups
        | Builtin::GlobalOffset
        | Builtin::Abs => 1,
        Builtin::Min | Builtin::Max | Builtin::MulHi => 2,
        Builtin::Clamp => 3,
    }
}

/// What a built-in function gives, whose arguments have the common type uint or int.
pub fn builtin_type(which: Builtin, unsigned: bool) -> Elem
    ensures { result ≡ builtin_type_of which unsigned }
{
    match which {
        Builtin::Min | Builtin::Max | Builtin::Clamp | Builtin::MulHi => word_type(unsigned),
        Builtin::WorkDim
        | Builtin::GlobalId
        | Builtin::LocalId
        | Builtin::GroupId
        | Builtin::GlobalSize
        | Builtin::LocalSize
        | Builtin::NumGroups
        | Builtin::GlobalOffset
        | Builtin::Abs => Elem::Uint,
    }
}

/// Whether no store is accepted: a parameter is marked, or what it points to is constant.
pub fn is_fixed(space: Space, readonly: bool) -> bool
    ensures { result ≡ is_fixed_of space readonly }
{
    match space {
        Space::Constant => true,
        Space::Global | Space::Local => readonly,
    }
}

/// Whether an argument is of its parameter's kind: for a pointer an array of the same space and element type, readonly
/// only where the parameter is.
pub fn is_of_kind(kind: ParamKind, given: Given) -> bool
    ensures { result ≡ is_of_kind_of kind given }
{
    match (kind, given) {
        (ParamKind::Scalar(_), Given::Value { .. }) => true,
        (ParamKind::Scalar(_), Given::Array { .. }) => false,
        (ParamKind::Pointer { .. }, Given::Value { .. }) => false,
        (
            ParamKind::Pointer {
                space: wants,
                elem: wants_elem,
                readonly: may,
            },
            Given::Array {
                space,
                elem,
                readonly,
                pos: _,
            },
        ) => {
            same_space(wants, space)
                && same_elem(wants_elem, elem)
                && (!readonly || is_fixed(wants, may))
        }
    }
}

/// Whether two spaces are the same.
fn same_space(one: Space, other: Space) -> bool
    ensures { result ≡ same_space_of one other }
{
    match one {
        Space::Global => matches!(other, Space::Global),
        Space::Constant => matches!(other, Space::Constant),
        Space::Local => matches!(other, Space::Local),
    }
}

/// Whether two types are the same.
fn same_elem(one: Elem, other: Elem) -> bool
    ensures { result ≡ same_elem_of one other }
{
    match one {
        Elem::Char => matches!(other, Elem::Char),
        Elem::Uchar => matches!(other, Elem::Uchar),
        Elem::Short => matches!(other, Elem::Short),
        Elem::Ushort => matches!(other, Elem::Ushort),
        Elem::Int => matches!(other, Elem::Int),
        Elem::Uint => matches!(other, Elem::Uint),
    }
}

/// Whether an argument is an int or a uint as it is.
pub fn is_word(given: Given) -> bool
    ensures { result ≡ is_word_of given }
{
    match given {
        Given::Value { elem, pos: _ } => match elem {
            Elem::Int | Elem::Uint => true,
            Elem::Char | Elem::Uchar | Elem::Short | Elem::Ushort => false,
        },
        Given::Array { .. } => false,
    }
}

/// Where an argument's first token stands.
pub fn pos_of(given: Given) -> Pos
    ensures { result ≡ given_pos given }
{
    match given {
        Given::Value { elem: _, pos } => pos,
        Given::Array { pos, .. } => pos,
    }
}

//! Typed expressions made of their typed parts.
ghost use Rattle.std.specs.Prelude.{◌≡◌};
ghost use Rattle.vx_base.specs.declared.types.Elem.TheVariants as elems;
ghost use Rattle.ocl_program.specs.Nodes.{UnaryNode, BinaryNode, BothNode, EitherNode, ChooseNode, CastNode, LoadNode, ParenNode};
ghost use Rattle.ocl_program.specs.Shapes.{node_of};
ghost use Rattle.ocl_types.specs.Answers.{Makes};
ghost use Rattle.ocl_types.specs.Exprs.{binary_type as binary_type_of, meet, on_uint as on_uint_of, unary_type as unary_type_of, word_type as word_type_of};

use crate::faults::TypeFault;
use crate::kinds::{binary_type, is_uint, on_uint, unary_type, word_type};
use ocl_ast::{BinOp, UnOp};
use ocl_program::{ArrayRef, TypedExpr, nodes};
use std::alloc::Global;
use vx_base::{Elem, Pos};

/// A typed expression with its type.
#[derive(Drop)]
pub struct TypedPart {
    /// The expression.
    pub expr: TypedExpr,
    /// Its type, before it is promoted.
    pub elem: Elem,
}

/// An operator before its operand.
pub fn unary(alloc: Global, op: UnOp, part: TypedPart) -> Result<TypedPart, TypeFault>
    ensures { Makes result (UnaryNode op (node_of part.expr)) (unary_type_of op part.elem) }
{
    let elem = unary_type(op, part.elem);
    let expr = nodes::unary(alloc, op, part.expr)?;
    Ok(TypedPart { expr, elem })
}

/// An operator between its operands.
pub fn binary(
    alloc: Global,
    op: BinOp,
    left: TypedPart,
    right: TypedPart,
) -> Result<TypedPart, TypeFault>
    ensures { Makes result (BinaryNode op (on_uint_of op left.elem right.elem) (node_of left.expr) (node_of right.expr)) (binary_type_of op left.elem right.elem) }
{
    let elem = binary_type(op, left.elem, right.elem);
    let unsigned = on_uint(op, left.elem, right.elem);
    let expr = nodes::binary(alloc, op, unsigned, left.expr, right.expr)?;
    Ok(TypedPart { expr, elem })
}

/// `&&`.
pub fn both(alloc: Global, left: TypedPart, right: TypedPart) -> Result<TypedPart, TypeFault>
    ensures { Makes result (BothNode (node_of left.expr) (node_of right.expr)) elems.Int }
{
    let expr = nodes::both(alloc, left.expr, right.expr)?;
    Ok(TypedPart {
        expr,
        elem: Elem::Int,
    })
}

/// `||`.
pub fn either(alloc: Global, left: TypedPart, right: TypedPart) -> Result<TypedPart, TypeFault>
    ensures { Makes result (EitherNode (node_of left.expr) (node_of right.expr)) elems.Int }
{
    let expr = nodes::either(alloc, left.expr, right.expr)?;
    Ok(TypedPart {
        expr,
        elem: Elem::Int,
    })
}

/// `test ? one : other`.
pub fn choose(
    alloc: Global,
    test: TypedPart,
    one: TypedPart,
    other: TypedPart,
) -> Result<TypedPart, TypeFault>
    ensures { Makes result (ChooseNode (meet one.elem other.elem) (node_of test.expr) (node_of one.expr) (node_of other.expr)) (word_type_of (meet one.elem other.elem)) }
{
    let unsigned = is_uint(one.elem) || is_uint(other.elem);
    let expr = nodes::choose(alloc, unsigned, test.expr, one.expr, other.expr)?;
    Ok(TypedPart {
        expr,
        elem: word_type(unsigned),
    })
}

/// A conversion.
pub fn cast(alloc: Global, elem: Elem, part: TypedPart) -> Result<TypedPart, TypeFault>
    ensures { Makes result (CastNode elem (node_of part.expr)) elem }
{
    let expr = nodes::cast(alloc, elem, part.expr)?;
    Ok(TypedPart { expr, elem })
}

/// An element of an array.
pub fn load(
    alloc: Global,
    array: ArrayRef,
    elem: Elem,
    place: TypedPart,
    pos: Pos,
) -> Result<TypedPart, TypeFault>
    ensures { Makes result (LoadNode array elem (node_of place.expr) pos) elem }
{
    let expr = nodes::load(alloc, array, elem, place.expr, pos)?;
    Ok(TypedPart { expr, elem })
}

/// An expression in parentheses.
pub fn paren(alloc: Global, part: TypedPart) -> Result<TypedPart, TypeFault>
    ensures { Makes result (ParenNode (node_of part.expr)) part.elem }
{
    let elem = part.elem;
    let expr = nodes::paren(alloc, part.expr)?;
    Ok(TypedPart { expr, elem })
}

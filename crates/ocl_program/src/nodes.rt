//! Nodes made of their parts. Want of memory drops the parts.
ghost use Rattle.std.specs.Prelude.{◌≡◌, map, IfOk};
ghost use Rattle.std.specs.Option.{option_map};
ghost use Rattle.ocl_program.specs.Nodes.{UnaryNode, BinaryNode, BothNode, EitherNode, ChooseNode, CastNode, LoadNode, CallNode, BuiltinNode, ParenNode, WhileNode, DoNode, ForNode, BlockNode, arg_nodes};
ghost use Rattle.ocl_program.specs.Shapes.{node_of, argument_node, stmt_node, typed_stmts, if_node};

use crate::exprs::{Argument, ArrayRef, Builtin, TypedExpr};
use crate::stmts::TypedStmt;
use ocl_ast::{BinOp, UnOp};
use std::alloc::{AllocError, Global};
use vx_base::{Elem, Pos};

/// An operator before its operand.
pub fn unary(alloc: Global, op: UnOp, part: TypedExpr) -> Result<TypedExpr, AllocError>
    ensures { IfOk result (λ expr. node_of expr ≡ UnaryNode op (node_of part)) }
{
    let part = Box::new(alloc, part)?;
    Ok(TypedExpr::Unary { op, part })
}

/// An operator between its operands.
pub fn binary(
    alloc: Global,
    op: BinOp,
    unsigned: bool,
    left: TypedExpr,
    right: TypedExpr,
) -> Result<TypedExpr, AllocError>
    ensures { IfOk result (λ expr. node_of expr ≡ BinaryNode op unsigned (node_of left) (node_of right)) }
{
    let left = Box::new(alloc, left)?;
    let right = Box::new(alloc, right)?;
    Ok(TypedExpr::Binary {
        op,
        unsigned,
        left,
        right,
    })
}

/// `&&`.
pub fn both(alloc: Global, left: TypedExpr, right: TypedExpr) -> Result<TypedExpr, AllocError>
    ensures { IfOk result (λ expr. node_of expr ≡ BothNode (node_of left) (node_of right)) }
{
    let left = Box::new(alloc, left)?;
    let right = Box::new(alloc, right)?;
    Ok(TypedExpr::Both { left, right })
}

/// `||`.
pub fn either(alloc: Global, left: TypedExpr, right: TypedExpr) -> Result<TypedExpr, AllocError>
    ensures { IfOk result (λ expr. node_of expr ≡ EitherNode (node_of left) (node_of right)) }
{
    let left = Box::new(alloc, left)?;
    let right = Box::new(alloc, right)?;
    Ok(TypedExpr::Either { left, right })
}

/// `test ? one : other`.
pub fn choose(
    alloc: Global,
    unsigned: bool,
    test: TypedExpr,
    one: TypedExpr,
    other: TypedExpr,
) -> Result<TypedExpr, AllocError>
    ensures { IfOk result (λ expr. node_of expr ≡ ChooseNode unsigned (node_of test) (node_of one) (node_of other)) }
{
    let test = Box::new(alloc, test)?;
    let yes = Box::new(alloc, one)?;
    let no = Box::new(alloc, other)?;
    Ok(TypedExpr::Choose {
        unsigned,
        test,
        yes,
        no,
    })
}

/// A conversion.
pub fn cast(alloc: Global, elem: Elem, part: TypedExpr) -> Result<TypedExpr, AllocError>
    ensures { IfOk result (λ expr. node_of expr ≡ CastNode elem (node_of part)) }
{
    let part = Box::new(alloc, part)?;
    Ok(TypedExpr::Cast { elem, part })
}

/// An element of an array.
pub fn load(
    alloc: Global,
    array: ArrayRef,
    elem: Elem,
    place: TypedExpr,
    pos: Pos,
) -> Result<TypedExpr, AllocError>
    ensures { IfOk result (λ expr. node_of expr ≡ LoadNode array elem (node_of place) pos) }
{
    let place = Box::new(alloc, place)?;
    Ok(TypedExpr::Load {
        array,
        elem,
        place,
        pos,
    })
}

/// A call of a helper.
pub fn call(call: u32, args: Vec<Argument>) -> TypedExpr
    ensures { node_of result ≡ CallNode call (arg_nodes (map argument_node args.items)) }
{
    TypedExpr::Call { call, args }
}

/// A call of a built-in function.
pub fn builtin(which: Builtin, unsigned: bool, args: Vec<Argument>) -> TypedExpr
    ensures { node_of result ≡ BuiltinNode which unsigned (arg_nodes (map argument_node args.items)) }
{
    TypedExpr::Builtin {
        which,
        unsigned,
        args,
    }
}

/// An expression in parentheses.
pub fn paren(alloc: Global, part: TypedExpr) -> Result<TypedExpr, AllocError>
    ensures { IfOk result (λ expr. node_of expr ≡ ParenNode (node_of part)) }
{
    let part = Box::new(alloc, part)?;
    Ok(TypedExpr::Paren(part))
}

/// `if`, with or without `else`.
pub fn if_stmt(
    alloc: Global,
    test: TypedExpr,
    one: TypedStmt,
    other: Option<TypedStmt>,
) -> Result<TypedStmt, AllocError>
    ensures { IfOk result (λ stmt. stmt_node stmt ≡ if_node (node_of test) (stmt_node one) (option_map stmt_node other)) }
{
    let yes = Box::new(alloc, one)?;
    let no = match other {
        Some(other) => Some(Box::new(alloc, other)?),
        None => None,
    };
    Ok(TypedStmt::If { test, yes, no })
}

/// `while`.
pub fn while_stmt(alloc: Global, test: TypedExpr, body: TypedStmt) -> Result<TypedStmt, AllocError>
    ensures { IfOk result (λ stmt. stmt_node stmt ≡ WhileNode (node_of test) (stmt_node body)) }
{
    let body = Box::new(alloc, body)?;
    Ok(TypedStmt::While { test, body })
}

/// `do`.
pub fn do_stmt(alloc: Global, body: TypedStmt, test: TypedExpr) -> Result<TypedStmt, AllocError>
    ensures { IfOk result (λ stmt. stmt_node stmt ≡ DoNode (stmt_node body) (node_of test)) }
{
    let body = Box::new(alloc, body)?;
    Ok(TypedStmt::Do { body, test })
}

/// `for`.
pub fn for_stmt(
    alloc: Global,
    first: Vec<TypedStmt>,
    test: Option<TypedExpr>,
    step: Vec<TypedStmt>,
    body: TypedStmt,
) -> Result<TypedStmt, AllocError>
    ensures { IfOk result (λ stmt. stmt_node stmt ≡ ForNode (typed_stmts first.items) (option_map node_of test) (typed_stmts step.items) (stmt_node body)) }
{
    let body = Box::new(alloc, body)?;
    Ok(TypedStmt::For {
        first,
        test,
        step,
        body,
    })
}

/// Statements in braces.
pub fn block(items: Vec<TypedStmt>) -> TypedStmt
    ensures { stmt_node result ≡ BlockNode (typed_stmts items.items) }
{
    TypedStmt::Block(items)
}

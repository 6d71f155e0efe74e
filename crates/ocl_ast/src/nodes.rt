//! Nodes made of their parts. Want of memory drops the parts.

ghost use Rattle.std.specs.Prelude.{◌≡◌, ◌∷◌, [], Some, None, IfOk};
ghost use Rattle.std.specs.Option.{option_map};
ghost use Rattle.ocl_ast.specs.Shapes.{tree_of, arg_trees, stmt_tree, stmt_trees, if_tree};
ghost use Rattle.ocl_ast.specs.Trees.{UnaryTree, BinaryTree, BothTree, EitherTree, ChooseTree, CastTree, IndexTree, CallTree, ParenTree, IfTree, IfElseTree, WhileTree, DoTree, ForTree, BlockTree};

use crate::exprs::{BinOp, Expr, ExprList, Ident, UnOp};
use crate::stmts::{Stmt, StmtList};
use std::alloc::{AllocError, Global};
use vx_base::{Elem, Pos};

/// An operator before its operand.
pub fn unary(alloc: Global, op: UnOp, part: Expr, pos: Pos) -> Result<Expr, AllocError>
    ensures { IfOk result (λ expr. tree_of expr ≡ UnaryTree op (tree_of part) pos) }
{
    let part = Box::new(alloc, part)?;
    Ok(Expr::Unary { op, part, pos })
}

/// An operator between its operands.
pub fn binary(
    alloc: Global,
    op: BinOp,
    left: Expr,
    right: Expr,
    pos: Pos,
) -> Result<Expr, AllocError>
    ensures { IfOk result (λ expr. tree_of expr ≡ BinaryTree op (tree_of left) (tree_of right) pos) }
{
    let left = Box::new(alloc, left)?;
    let right = Box::new(alloc, right)?;
    Ok(Expr::Binary {
        op,
        left,
        right,
        pos,
    })
}

/// `&&`.
pub fn both(alloc: Global, left: Expr, right: Expr, pos: Pos) -> Result<Expr, AllocError>
    ensures { IfOk result (λ expr. tree_of expr ≡ BothTree (tree_of left) (tree_of right) pos) }
{
    let left = Box::new(alloc, left)?;
    let right = Box::new(alloc, right)?;
    Ok(Expr::Both { left, right, pos })
}

/// `||`.
pub fn either(alloc: Global, left: Expr, right: Expr, pos: Pos) -> Result<Expr, AllocError>
    ensures { IfOk result (λ expr. tree_of expr ≡ EitherTree (tree_of left) (tree_of right) pos) }
{
    let left = Box::new(alloc, left)?;
    let right = Box::new(alloc, right)?;
    Ok(Expr::Either { left, right, pos })
}

/// `test ? one : other`.
pub fn choose(
    alloc: Global,
    test: Expr,
    one: Expr,
    other: Expr,
    pos: Pos,
) -> Result<Expr, AllocError>
    ensures { IfOk result (λ expr. tree_of expr ≡ ChooseTree (tree_of test) (tree_of one) (tree_of other) pos) }
{
    let test = Box::new(alloc, test)?;
    let yes = Box::new(alloc, one)?;
    let no = Box::new(alloc, other)?;
    Ok(Expr::Choose { test, yes, no, pos })
}

/// A scalar type in parentheses before its operand.
pub fn cast(alloc: Global, elem: Elem, part: Expr, pos: Pos) -> Result<Expr, AllocError>
    ensures { IfOk result (λ expr. tree_of expr ≡ CastTree elem (tree_of part) pos) }
{
    let part = Box::new(alloc, part)?;
    Ok(Expr::Cast { elem, part, pos })
}

/// An element of an array.
pub fn index(alloc: Global, array: Ident, place: Expr, pos: Pos) -> Result<Expr, AllocError>
    ensures { IfOk result (λ expr. tree_of expr ≡ IndexTree array (tree_of place) pos) }
{
    let place = Box::new(alloc, place)?;
    Ok(Expr::Index { array, place, pos })
}

/// A call of a function.
pub fn call(name: Ident, args: ExprList) -> Expr
    ensures { tree_of result ≡ CallTree name (arg_trees args.items) }
{
    Expr::Call { name, args }
}

/// An expression in parentheses.
pub fn paren(alloc: Global, part: Expr, pos: Pos) -> Result<Expr, AllocError>
    ensures { IfOk result (λ expr. tree_of expr ≡ ParenTree (tree_of part) pos) }
{
    let part = Box::new(alloc, part)?;
    Ok(Expr::Paren { part, pos })
}

/// `if`, with or without `else`.
pub fn if_stmt(
    alloc: Global,
    test: Expr,
    one: Stmt,
    other: Option<Stmt>,
) -> Result<Stmt, AllocError>
    ensures { IfOk result (λ stmt. stmt_tree stmt ≡ if_tree (tree_of test) (stmt_tree one) (option_map stmt_tree other)) }
{
    let yes = Box::new(alloc, one)?;
    let no = match other {
        Some(other) => Some(Box::new(alloc, other)?),
        None => None,
    };
    Ok(Stmt::If { test, yes, no })
}

/// `while`.
pub fn while_stmt(alloc: Global, test: Expr, body: Stmt) -> Result<Stmt, AllocError>
    ensures { IfOk result (λ stmt. stmt_tree stmt ≡ WhileTree (tree_of test) (stmt_tree body)) }
{
    let body = Box::new(alloc, body)?;
    Ok(Stmt::While { test, body })
}

/// `do`.
pub fn do_stmt(alloc: Global, body: Stmt, test: Expr) -> Result<Stmt, AllocError>
    ensures { IfOk result (λ stmt. stmt_tree stmt ≡ DoTree (stmt_tree body) (tree_of test)) }
{
    let body = Box::new(alloc, body)?;
    Ok(Stmt::Do { body, test })
}

/// `for`.
pub fn for_stmt(
    alloc: Global,
    first: StmtList,
    test: Option<Expr>,
    step: StmtList,
    body: Stmt,
) -> Result<Stmt, AllocError>
    ensures { IfOk result (λ stmt. stmt_tree stmt ≡ ForTree (stmt_trees first.items) (option_map tree_of test) (stmt_trees step.items) (stmt_tree body)) }
{
    let body = Box::new(alloc, body)?;
    Ok(Stmt::For {
        first,
        test,
        step,
        body,
    })
}

/// Statements in braces.
pub fn block(items: StmtList) -> Stmt
    ensures { stmt_tree result ≡ BlockTree (stmt_trees items.items) }
{
    Stmt::Block(items)
}

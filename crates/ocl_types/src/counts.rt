//! The counts of `__local` arrays.
ghost use Rattle.std.specs.Prelude.{◌≡◌, ◌&&◌, ◌==◌, if◌then◌else◌, nat_le};
ghost use Rattle.ocl_ast.specs.Shapes.{tree_of};
ghost use Rattle.ocl_program.specs.Shapes.{node_of};
ghost use Rattle.ocl_types.specs.Answers.{CountTo, placed_in};
ghost use Rattle.ocl_types.specs.Stmts.{count_value as count_value_of, is_count as is_count_of, most_elements, typed_count as typed_count_of};
ghost use Rattle.ocl_types.specs.Tables.{NumbersOf, trees_of};

use crate::exprs::typed_expr;
use crate::faults::TypeFault;
use crate::functions::Functions;
use crate::scopes::Scopes;
use crate::standing::Place;
use ocl_ast::Expr;
use ocl_program::{TypedExpr, binary_value, unary_value};
use std::alloc::Global;
use vx_base::Pos;

/// The count of an array.
#[derive(Drop)]
pub struct CountPart {
    /// The expression.
    pub expr: TypedExpr,
    /// Its value.
    pub value: u32,
}

/// The greatest count of a `__local` array.
const MOST_ELEMENTS: u32 = 262_144;

/// Whether an expression is built of numbers, unary and binary operators and parentheses.
fn is_count(expr: &Expr) -> bool
    ensures { result ≡ is_count_of (tree_of expr.now) }
{
    match expr {
        Expr::Number { .. } => true,
        Expr::Unary { part, .. } | Expr::Paren { part, .. } => is_count(part),
        Expr::Binary { left, right, .. }
        | Expr::Both { left, right, .. }
        | Expr::Either { left, right, .. } => is_count(left) && is_count(right),
        Expr::Name(_)
        | Expr::Choose { .. }
        | Expr::Cast { .. }
        | Expr::Index { .. }
        | Expr::Call { .. } => false,
    }
}

/// 1 where both are not 0, else 0.
fn both_value(left: u32, right: u32) -> u32
    ensures { result ≡ (if left == 0 then 0 else if right == 0 then 0 else 1) }
{
    if left == 0 {
        return 0;
    }
    if right == 0 {
        return 0;
    }
    1
}

/// 1 where one of two is not 0, else 0.
fn either_value(left: u32, right: u32) -> u32
    ensures { result ≡ (if left == 0 then (if right == 0 then 0 else 1) else 1) }
{
    if left != 0 {
        return 1;
    }
    if right == 0 {
        return 0;
    }
    1
}

/// The value of a count.
fn count_value(expr: &TypedExpr) -> u32
    ensures { result ≡ count_value_of (node_of expr.now) }
{
    match expr {
        TypedExpr::Number { value, .. } => *value,
        TypedExpr::Unary { op, part } => unary_value(*op, count_value(part)),
        TypedExpr::Binary {
            op,
            unsigned,
            left,
            right,
        } => binary_value(*op, *unsigned, count_value(left), count_value(right)),
        TypedExpr::Both { left, right } => both_value(count_value(left), count_value(right)),
        TypedExpr::Either { left, right } => either_value(count_value(left), count_value(right)),
        TypedExpr::Paren(part) => count_value(part),
        TypedExpr::Variable { .. }
        | TypedExpr::Choose { .. }
        | TypedExpr::Cast { .. }
        | TypedExpr::Load { .. }
        | TypedExpr::Call { .. }
        | TypedExpr::Builtin { .. } => 0,
    }
}

/// Whether a count is within the limits.
fn is_within(count: u32) -> bool
    ensures { result ≡ nat_le 1 count && nat_le count most_elements }
{
    1 <= count && count <= MOST_ELEMENTS
}

/// Types the count of an array in its place; no name in it is looked up.
pub fn typed_count(
    alloc: Global,
    functions: &Functions<'_>,
    place: Place,
    pos: Pos,
    count: &Expr,
) -> Result<CountPart, TypeFault>
    requires { NumbersOf functions.now.numbers.entries (trees_of functions.now.functions.now) }
    ensures { CountTo result (typed_count_of (placed_in (trees_of functions.now.functions.now) place) pos (tree_of count.now)) }
{
    if !is_count(count) {
        return Err(TypeFault::Mismatch(pos));
    }
    let scopes = Scopes::new(alloc);
    let mut calls = Vec::new(alloc);
    let part = typed_expr(alloc, functions, &scopes, &mut calls, count)?;
    let value = count_value(&part.expr);
    if !(place.outermost && is_within(value)) {
        return Err(TypeFault::Mismatch(pos));
    }
    Ok(CountPart {
        expr: part.expr,
        value,
    })
}

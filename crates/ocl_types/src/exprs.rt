//! The typing of expressions.
ghost use Rattle.ocl_ast.specs.Shapes.{tree_of, arg_trees};
ghost use Rattle.std.specs.Prelude.{[], option_map};
ghost use Rattle.ocl_types.specs.Answers.{MaybeTo, callee_in, TypesTo, TakesTo};
ghost use Rattle.ocl_types.specs.Exprs.{typed, typed_args as typed_args_of, typed_option as typed_option_of};
ghost use Rattle.ocl_types.specs.Tables.{NumbersOf, trees_of};

use crate::args::{Args, bare_array, first_pos, pointer_wanted};
use crate::calls::value_call;
use crate::faults::TypeFault;
use crate::functions::{Functions, meaning_of};
use crate::kinds::word_type;
use crate::parts;
use crate::parts::TypedPart;
use crate::scopes::Scopes;
use crate::uses::{Callee, as_array, as_callee, as_variable};
use ocl_ast::Expr;
use ocl_program::TypedExpr;
use std::alloc::Global;
use vx_base::Elem;

/// Types an expression. `calls` are the callees of its function so far; after a fault they are not to be used.
#[cycle(exprs)]
#[tactic(auto, using(crate::proofs::Steps::fault_onward, crate::proofs::Steps::fault_behind, crate::proofs::Steps::types_behind, crate::proofs::Steps::types_made, crate::proofs::Steps::call_seen))]
pub fn typed_expr(
    alloc: Global,
    functions: &Functions<'_>,
    scopes: &Scopes<'_>,
    calls: &mut Vec<u32>,
    expr: &Expr,
) -> Result<TypedPart, TypeFault>
    requires { NumbersOf functions.now.numbers.entries (trees_of functions.now.functions.now) }
    ensures { TypesTo result calls.new.items (typed (trees_of functions.now.functions.now) scopes.now calls.old.items (tree_of expr.now)) }
{
    match expr {
        Expr::Number {
            value,
            unsigned,
            ..
        } => Ok(TypedPart {
            expr: TypedExpr::Number {
                value: *value,
                unsigned: *unsigned,
            },
            elem: word_type(*unsigned),
        }),
        Expr::Name(name) => as_variable(
            name.pos,
            meaning_of(functions, scopes, name.text.as_slice()),
        ),
        Expr::Unary { op, part, .. } => {
            let part = typed_expr(alloc, functions, scopes, calls, part)?;
            parts::unary(alloc, *op, part)
        }
        Expr::Binary {
            op,
            left,
            right,
            ..
        } => {
            let left = typed_expr(alloc, functions, scopes, calls, left)?;
            let right = typed_expr(alloc, functions, scopes, calls, right)?;
            parts::binary(alloc, *op, left, right)
        }
        Expr::Both { left, right, .. } => {
            let left = typed_expr(alloc, functions, scopes, calls, left)?;
            let right = typed_expr(alloc, functions, scopes, calls, right)?;
            parts::both(alloc, left, right)
        }
        Expr::Either { left, right, .. } => {
            let left = typed_expr(alloc, functions, scopes, calls, left)?;
            let right = typed_expr(alloc, functions, scopes, calls, right)?;
            parts::either(alloc, left, right)
        }
        Expr::Choose { test, yes, no, .. } => {
            let test = typed_expr(alloc, functions, scopes, calls, test)?;
            let one = typed_expr(alloc, functions, scopes, calls, yes)?;
            let other = typed_expr(alloc, functions, scopes, calls, no)?;
            parts::choose(alloc, test, one, other)
        }
        Expr::Cast { elem, part, .. } => {
            let part = typed_expr(alloc, functions, scopes, calls, part)?;
            parts::cast(alloc, *elem, part)
        }
        Expr::Index { array, place, pos } => {
            let found = as_array(
                array.pos,
                meaning_of(functions, scopes, array.text.as_slice()),
            )?;
            let place = typed_expr(alloc, functions, scopes, calls, place)?;
            parts::load(alloc, found.array, found.elem, place, *pos)
        }
        Expr::Call { name, args } => {
            let callee = as_callee(
                functions,
                name.pos,
                meaning_of(functions, scopes, name.text.as_slice()),
            )?;
            let args = typed_args(alloc, functions, scopes, calls, callee, args)?;
            value_call(name.pos, callee, calls, args)
        }
        Expr::Paren { part, .. } => {
            let part = typed_expr(alloc, functions, scopes, calls, part)?;
            parts::paren(alloc, part)
        }
    }
}

/// Types the arguments of a call.
#[cycle(exprs)]
pub fn typed_args(
    alloc: Global,
    functions: &Functions<'_>,
    scopes: &Scopes<'_>,
    calls: &mut Vec<u32>,
    callee: Callee<'_>,
    args: &[Expr],
) -> Result<Args, TypeFault>
    requires { NumbersOf functions.now.numbers.entries (trees_of functions.now.functions.now) }
    ensures { TakesTo result calls.new.items (typed_args_of (trees_of functions.now.functions.now) scopes.now (callee_in callee.entry) (record { args = []; given = []; calls = calls.old.items }) (arg_trees args.now)) }
{
    let mut sofar = Args::new(alloc);
    for arg in args {
        let pos = first_pos(arg);
        let pointer = pointer_wanted(callee, sofar.given.len());
        match bare_array(functions, scopes, pointer, arg) {
            Some(array) => match sofar.push_array(array, pos) {
                Ok(()) => {}
                Err(fault) => return Err(fault),
            },
            None => match typed_expr(alloc, functions, scopes, calls, arg) {
                Ok(part) => match sofar.push_value(part, pos) {
                    Ok(()) => {}
                    Err(fault) => return Err(fault),
                },
                Err(fault) => return Err(fault),
            },
        }
    }
    Ok(sofar)
}

/// An expression that may be left out, with its type; int where it is left out.
#[derive(Drop)]
pub struct MaybePart {
    /// The expression.
    pub expr: Option<TypedExpr>,
    /// Its type, before it is promoted.
    pub elem: Elem,
}

/// Types an expression that may be left out.
pub fn typed_option(
    alloc: Global,
    functions: &Functions<'_>,
    scopes: &Scopes<'_>,
    calls: &mut Vec<u32>,
    expr: &Option<Expr>,
) -> Result<MaybePart, TypeFault>
    requires { NumbersOf functions.now.numbers.entries (trees_of functions.now.functions.now) }
    ensures { MaybeTo result calls.new.items (typed_option_of (trees_of functions.now.functions.now) scopes.now calls.old.items (option_map tree_of expr.now)) }
{
    match expr {
        Some(expr) => {
            let part = typed_expr(alloc, functions, scopes, calls, expr)?;
            Ok(MaybePart {
                expr: Some(part.expr),
                elem: part.elem,
            })
        }
        None => Ok(MaybePart {
            expr: None,
            elem: Elem::Int,
        }),
    }
}

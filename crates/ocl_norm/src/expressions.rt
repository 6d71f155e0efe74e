//! Expressions as operations, from their first variable on.
ghost use Rattle.std.specs.Prelude.{◌≡◌, ◌+◌, ◌<◌, ◌^◌, IfOk, OnOk, true};
ghost use Rattle.kir.specs.Lists.{Puts};
ghost use Rattle.kir.specs.Shapes.{operand_of, ops_of};
ghost use Rattle.kir.specs.Trees.{NoOps};
ghost use Rattle.ocl_inline.specs.Shapes.{expr_of, flat_arguments};
ghost use Rattle.ocl_inline.specs.Trees.{BothFlat, ChooseFlat, EitherFlat};
ghost use Rattle.ocl_program.specs.declared.exprs.Builtin.TheVariants.{Max};
ghost use Rattle.ocl_norm.specs.Arguments.{ThreeValues, function_ops, function_room};
ghost use Rattle.ocl_norm.specs.Normal.{args_ops, builtin_ops, calls as calls_of, value_ops};
ghost use Rattle.ocl_norm.specs.Operators.{truth_ops};
ghost use Rattle.ocl_norm.specs.Rooms.{args_room, builtin_room, pair_room, value_room};
ghost use Rattle.ocl_norm.specs.Standings.{above, copied, held_at, operand_at, settled, standing};
ghost use Rattle.ocl_norm.specs.Views.{arg_ops, arg_room};

use crate::arguments::{Values, values_in};
use crate::occurrences::calls;
use crate::operators::{
    put_binary, put_greatest, put_id, put_least, put_one, put_truth, put_two, put_unary,
};
use crate::parts::{
    Element, put_bound, put_branch, put_call, put_else, put_fit, put_load, put_then,
};
use crate::standings::{Pair, operand_in, put_copied, put_settled, standing_of};
use crate::statements::stmts_list;
use kir::{Op, Operand};
use ocl_inline::trees::{FlatArgument, FlatExpr};
use ocl_program::Builtin;
use std::alloc::{AllocError, Global};

/// An expression.
#[cycle(normal)]
pub fn push_value(
    alloc: Global,
    out: &mut Vec<Op>,
    expr: &FlatExpr,
    first: u32,
) -> Result<(), AllocError>
    requires room { first + value_room (expr_of expr.now) < 2 ^ 32 }
    ensures { OnOk result (Puts out.old.items out.new.items (value_ops (expr_of expr.now) first)) }
{
    match expr {
        FlatExpr::Number { .. } | FlatExpr::Variable(_) | FlatExpr::Lost { .. } => Ok(()),
        FlatExpr::Unary { op, part } => {
            push_value(alloc, out, part, first)?;
            put_unary(out, *op, operand_in(part, first), first)
        }
        FlatExpr::Binary {
            op,
            unsigned,
            left,
            right,
        } => {
            let pair = push_pair(alloc, out, left, right, first)?;
            put_binary(out, *op, *unsigned, pair.left, pair.right, first)
        }
        FlatExpr::Both { left, right } => push_both(alloc, out, left, right, first),
        FlatExpr::Either { left, right } => push_either(alloc, out, left, right, first),
        FlatExpr::Choose { test, yes, no, .. } => push_choice(alloc, out, test, yes, no, first),
        FlatExpr::Cast { elem, part } => {
            push_value(alloc, out, part, first)?;
            put_fit(out, first, *elem, operand_in(part, first))
        }
        FlatExpr::Load {
            array,
            elem,
            place,
            pos,
        } => {
            let element = Element {
                array: *array,
                elem: *elem,
                pos: *pos,
            };
            push_value(alloc, out, place, first)?;
            put_load(out, element, operand_in(place, first), first)
        }
        FlatExpr::Call { args, body } => {
            push_args(alloc, out, args.as_slice(), first)?;
            let body = stmts_list(alloc, body.as_slice(), first)?;
            put_call(out, first, body)
        }
        FlatExpr::Builtin {
            which,
            unsigned,
            args,
        } => push_builtin(alloc, out, *which, *unsigned, args.as_slice(), first),
        FlatExpr::Paren(part) => push_value(alloc, out, part, first),
    }
}

/// Two parts, the left one first.
#[cycle(normal)]
pub fn push_pair(
    alloc: Global,
    out: &mut Vec<Op>,
    left: &FlatExpr,
    right: &FlatExpr,
    first: u32,
) -> Result<Pair, AllocError>
    requires room { first + pair_room (value_room (expr_of left.now)) (standing (expr_of left.now)) (value_room (expr_of right.now)) (calls_of (expr_of right.now)) < 2 ^ 32 }
    ensures puts { OnOk result (Puts out.old.items out.new.items (λ c. value_ops (expr_of left.now) first (copied (calls_of (expr_of right.now)) (standing (expr_of left.now)) first (value_ops (expr_of right.now) (above (calls_of (expr_of right.now)) (standing (expr_of left.now)) first) c)))) }
    ensures left { IfOk result (λ pair. operand_of pair.left ≡ held_at (calls_of (expr_of right.now)) (standing (expr_of left.now)) first) }
    ensures right { IfOk result (λ pair. operand_of pair.right ≡ operand_at (standing (expr_of right.now)) (above (calls_of (expr_of right.now)) (standing (expr_of left.now)) first)) }
{
    let calls = calls(right);
    let held = standing_of(left);
    push_value(alloc, out, left, first)?;
    put_copied(out, calls, held, first)?;
    let above = held.above(calls, first);
    push_value(alloc, out, right, above)?;
    Ok(Pair {
        left: held.held(calls, first),
        right: operand_in(right, above),
    })
}

/// `&&`
#[cycle(normal)]
fn push_both(
    alloc: Global,
    out: &mut Vec<Op>,
    left: &FlatExpr,
    right: &FlatExpr,
    first: u32,
) -> Result<(), AllocError>
    requires room { first + value_room (BothFlat (expr_of left.now) (expr_of right.now)) < 2 ^ 32 }
    ensures { OnOk result (Puts out.old.items out.new.items (value_ops (BothFlat (expr_of left.now) (expr_of right.now)) first)) }
{
    push_truth(alloc, out, left, first, first)?;
    let yes = truth_list(alloc, right, first + 1, first)?;
    put_then(alloc, out, first, yes)
}

/// `||`
#[cycle(normal)]
fn push_either(
    alloc: Global,
    out: &mut Vec<Op>,
    left: &FlatExpr,
    right: &FlatExpr,
    first: u32,
) -> Result<(), AllocError>
    requires room { first + value_room (EitherFlat (expr_of left.now) (expr_of right.now)) < 2 ^ 32 }
    ensures { OnOk result (Puts out.old.items out.new.items (value_ops (EitherFlat (expr_of left.now) (expr_of right.now)) first)) }
{
    push_truth(alloc, out, left, first, first)?;
    let no = truth_list(alloc, right, first + 1, first)?;
    put_else(alloc, out, first, no)
}

/// Whether a value is not 0, into a variable.
#[cycle(normal)]
fn push_truth(
    alloc: Global,
    out: &mut Vec<Op>,
    expr: &FlatExpr,
    first: u32,
    variable: u32,
) -> Result<(), AllocError>
    requires room { first + value_room (expr_of expr.now) < 2 ^ 32 }
    ensures { OnOk result (Puts out.old.items out.new.items (λ c. value_ops (expr_of expr.now) first (truth_ops (operand_at (standing (expr_of expr.now)) first) variable c))) }
{
    push_value(alloc, out, expr, first)?;
    put_truth(out, operand_in(expr, first), variable)
}

/// The same as a list of its own.
#[cycle(normal)]
fn truth_list(
    alloc: Global,
    expr: &FlatExpr,
    first: u32,
    variable: u32,
) -> Result<Vec<Op>, AllocError>
    requires room { first + value_room (expr_of expr.now) < 2 ^ 32 }
    ensures { IfOk result (λ list. ops_of list.items ≡ value_ops (expr_of expr.now) first (truth_ops (operand_at (standing (expr_of expr.now)) first) variable NoOps)) }
{
    let mut list = Vec::new(alloc);
    push_truth(alloc, &mut list, expr, first, variable)?;
    Ok(list)
}

/// `test ? yes : no`
#[cycle(normal)]
fn push_choice(
    alloc: Global,
    out: &mut Vec<Op>,
    test: &FlatExpr,
    yes: &FlatExpr,
    no: &FlatExpr,
    first: u32,
) -> Result<(), AllocError>
    requires room { first + value_room (ChooseFlat true (expr_of test.now) (expr_of yes.now) (expr_of no.now)) < 2 ^ 32 }
    ensures { OnOk result (Puts out.old.items out.new.items (value_ops (ChooseFlat true (expr_of test.now) (expr_of yes.now) (expr_of no.now)) first)) }
{
    push_value(alloc, out, test, first)?;
    let one = settled_list(alloc, yes, first)?;
    let other = settled_list(alloc, no, first)?;
    put_branch(out, test, first, one, other)
}

/// An expression whose value has to stand in its first variable.
#[cycle(normal)]
pub fn settled_list(alloc: Global, expr: &FlatExpr, first: u32) -> Result<Vec<Op>, AllocError>
    requires room { first + value_room (expr_of expr.now) < 2 ^ 32 }
    ensures { IfOk result (λ list. ops_of list.items ≡ value_ops (expr_of expr.now) first (settled (standing (expr_of expr.now)) first NoOps)) }
{
    let mut list = Vec::new(alloc);
    push_value(alloc, &mut list, expr, first)?;
    put_settled(&mut list, standing_of(expr), first)?;
    Ok(list)
}

/// An expression as a list of its own.
#[cycle(normal)]
pub fn value_list(alloc: Global, expr: &FlatExpr, first: u32) -> Result<Vec<Op>, AllocError>
    requires room { first + value_room (expr_of expr.now) < 2 ^ 32 }
    ensures { IfOk result (λ list. ops_of list.items ≡ value_ops (expr_of expr.now) first NoOps) }
{
    let mut list = Vec::new(alloc);
    push_value(alloc, &mut list, expr, first)?;
    Ok(list)
}

/// Arguments, each bound before the next one is evaluated.
#[cycle(normal)]
fn push_args(
    alloc: Global,
    out: &mut Vec<Op>,
    args: &[FlatArgument],
    first: u32,
) -> Result<(), AllocError>
    requires room { first + args_room (flat_arguments args.now) < 2 ^ 32 }
    ensures { OnOk result (Puts out.old.items out.new.items (args_ops (flat_arguments args.now) first)) }
{
    for k in 0..args.len() {
        push_arg(alloc, out, &args[k], first)?;
    }
    Ok(())
}

/// An argument with what is done with it.
#[cycle(normal)]
fn push_arg(
    alloc: Global,
    out: &mut Vec<Op>,
    arg: &FlatArgument,
    first: u32,
) -> Result<(), AllocError>
    requires room { first + arg_room arg.now < 2 ^ 32 }
    ensures { OnOk result (Puts out.old.items out.new.items (arg_ops arg.now first)) }
{
    match arg {
        FlatArgument::Number { value, binding } => {
            push_value(alloc, out, value, first)?;
            put_bound(out, *binding, operand_in(value, first))
        }
        FlatArgument::Array(_) => Ok(()),
    }
}

/// A built-in function.
#[cycle(normal)]
fn push_builtin(
    alloc: Global,
    out: &mut Vec<Op>,
    which: Builtin,
    unsigned: bool,
    args: &[FlatArgument],
    first: u32,
) -> Result<(), AllocError>
    requires room { first + builtin_room which (flat_arguments args.now) < 2 ^ 32 }
    ensures { OnOk result (Puts out.old.items out.new.items (builtin_ops which unsigned (flat_arguments args.now) first)) }
{
    match values_in(args) {
        Values::None => put_id(out, which, Operand::Number(0), first),
        Values::One(value) => {
            push_value(alloc, out, value, first)?;
            put_one(out, which, unsigned, operand_in(value, first), first)
        }
        Values::Two(left, right) => {
            let pair = push_pair(alloc, out, left, right, first)?;
            put_two(out, which, unsigned, pair.left, pair.right, first)
        }
        Values::Three(value, low, high) => {
            push_clamp(alloc, out, unsigned, value, low, high, first)
        }
    }
}

/// `clamp`: the greater of the first two is taken before the third is evaluated.
#[cycle(normal)]
fn push_clamp(
    alloc: Global,
    out: &mut Vec<Op>,
    unsigned: bool,
    value: &FlatExpr,
    low: &FlatExpr,
    high: &FlatExpr,
    first: u32,
) -> Result<(), AllocError>
    requires room { first + function_room Max (ThreeValues (expr_of value.now) (expr_of low.now) (expr_of high.now)) < 2 ^ 32 }
    ensures { OnOk result (Puts out.old.items out.new.items (function_ops Max unsigned (ThreeValues (expr_of value.now) (expr_of low.now) (expr_of high.now)) first)) }
{
    let pair = push_pair(alloc, out, value, low, first)?;
    put_greatest(out, unsigned, pair.left, pair.right, first)?;
    push_value(alloc, out, high, first + 1)?;
    let least = operand_in(high, first + 1);
    put_least(out, unsigned, Operand::Variable(first), least, first)
}

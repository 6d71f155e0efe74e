//! Whether an expression has calls, and whether it has branches.
ghost use Rattle.std.specs.Prelude.{◌≡◌, ◌||◌, option_map};
ghost use Rattle.ocl_inline.specs.Shapes.{expr_of, flat_arguments};
ghost use Rattle.ocl_inline.specs.Trees.{written};
ghost use Rattle.ocl_norm.specs.Occurrences.{args_branch as args_branch_of, args_call as args_call_of, branches as branches_of, calls as calls_of, right_branches as right_branches_of, right_calls as right_calls_of};
ghost use Rattle.ocl_norm.specs.Views.{arg_branches as arg_branches_of, arg_calls as arg_calls_of};

use ocl_inline::trees::{FlatArgument, FlatExpr};

/// Whether one of two holds.
fn either(one: bool, other: bool) -> bool
    ensures { result ≡ one || other }
{
    one || other
}

/// Whether an expression has a call, outside the bodies of its calls.
#[cycle(calls)]
pub fn calls(expr: &FlatExpr) -> bool
    ensures { result ≡ calls_of (expr_of expr.now) }
{
    match expr {
        FlatExpr::Unary { part, .. } | FlatExpr::Cast { part, .. } => calls(part),
        FlatExpr::Binary { left, right, .. } => either(calls(left), calls(right)),
        FlatExpr::Both { left, right } => either(calls(left), calls(right)),
        FlatExpr::Either { left, right } => either(calls(left), calls(right)),
        FlatExpr::Choose { test, yes, no, .. } => {
            either(calls(test), either(calls(yes), calls(no)))
        }
        FlatExpr::Load { place, .. } => calls(place),
        FlatExpr::Call { .. } => true,
        FlatExpr::Builtin { args, .. } => args_call(args.as_slice()),
        FlatExpr::Paren(part) => calls(part),
        FlatExpr::Number { .. } | FlatExpr::Variable(_) | FlatExpr::Lost { .. } => false,
    }
}

/// Whether one of several arguments has a call.
#[cycle(calls)]
fn args_call(args: &[FlatArgument]) -> bool
    ensures { result ≡ args_call_of (flat_arguments args.now) }
{
    for k in 0..args.len() {
        if arg_calls(&args[k]) {
            return true;
        }
    }
    false
}

/// Whether an argument has a call.
#[cycle(calls)]
fn arg_calls(arg: &FlatArgument) -> bool
    ensures { result ≡ arg_calls_of arg.now }
{
    match arg {
        FlatArgument::Number { value, .. } => calls(value),
        FlatArgument::Array(_) => false,
    }
}

/// The same of a right side.
pub fn right_calls(value: &Option<Box<FlatExpr>>) -> bool
    ensures { result ≡ right_calls_of (written (option_map (λ b. expr_of b.value) value.now)) }
{
    match value {
        Some(expr) => calls(expr),
        None => false,
    }
}

/// Whether an expression comes to more than single operations.
#[cycle(branches)]
pub fn branches(expr: &FlatExpr) -> bool
    ensures { result ≡ branches_of (expr_of expr.now) }
{
    match expr {
        FlatExpr::Unary { part, .. } | FlatExpr::Cast { part, .. } => branches(part),
        FlatExpr::Binary { left, right, .. } => either(branches(left), branches(right)),
        FlatExpr::Load { place, .. } => branches(place),
        FlatExpr::Builtin { args, .. } => args_branch(args.as_slice()),
        FlatExpr::Paren(part) => branches(part),
        FlatExpr::Both { .. } | FlatExpr::Either { .. } => true,
        FlatExpr::Choose { .. } | FlatExpr::Call { .. } => true,
        FlatExpr::Number { .. } | FlatExpr::Variable(_) | FlatExpr::Lost { .. } => false,
    }
}

/// Whether one of several arguments comes to more than single operations.
#[cycle(branches)]
fn args_branch(args: &[FlatArgument]) -> bool
    ensures { result ≡ args_branch_of (flat_arguments args.now) }
{
    for k in 0..args.len() {
        if arg_branches(&args[k]) {
            return true;
        }
    }
    false
}

/// Whether an argument comes to more than single operations.
#[cycle(branches)]
fn arg_branches(arg: &FlatArgument) -> bool
    ensures { result ≡ arg_branches_of arg.now }
{
    match arg {
        FlatArgument::Number { value, .. } => branches(value),
        FlatArgument::Array(_) => false,
    }
}

/// The same of a right side.
pub fn right_branches(value: &Option<Box<FlatExpr>>) -> bool
    ensures { result ≡ right_branches_of (written (option_map (λ b. expr_of b.value) value.now)) }
{
    match value {
        Some(expr) => branches(expr),
        None => false,
    }
}

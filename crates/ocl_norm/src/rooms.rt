//! How many variables parts use, from their first one on. Counts are kept up to 2^64 - 1. Who has counted has read all numbers that are
//! written there, and so knows that they are words.
ghost use Rattle.std.specs.Prelude.{◌≡◌, max, option_map, suc};
ghost use Rattle.ocl_inline.specs.Shapes.{expr_of, flat_arguments, flat_trees, stmt_of};
ghost use Rattle.ocl_inline.specs.Trees.{CallFlat, ForFlat, if_flat, written};
ghost use Rattle.ocl_norm.specs.Arguments.{ThreeValues, function_room};
ghost use Rattle.ocl_norm.specs.Normal.{calls as calls_of, right_calls as right_calls_of};
ghost use Rattle.ocl_inline.specs.Proper.{ArgsWords, ExprWords, StmtWords, StmtsWords, ValueWords};
ghost use Rattle.ocl_norm.specs.Counting.{ArgWords, ElseWords, counted};
ghost use Rattle.ocl_norm.specs.Rooms.{args_room as args_room_of, assigned_room, builtin_room as builtin_room_of, one_room as one_room_of, pair_room as pair_room_of, right_room as right_room_of, stmt_room as stmt_room_of, stmts_room as stmts_room_of, two_room as two_room_of, value_room as value_room_of};
ghost use Rattle.ocl_norm.specs.Standings.{Named, above, standing};
ghost use Rattle.ocl_norm.specs.Views.{arg_room as arg_room_of, else_room as else_room_of, standing_by};
ghost use Rattle.ocl_program.specs.declared.exprs.Builtin.TheVariants.{Max};

use crate::arguments::{Values, values_in};
use crate::occurrences::{calls, right_calls};
use crate::standings::{Standing, standing_of};
use ocl_ast::AssignOp;
use ocl_inline::trees::{FlatArgument, FlatExpr, FlatStmt};
use ocl_program::Builtin;

/// What a part uses behind the variable that holds the value of the one before it.
fn room_above(held: Standing, calls: bool, room: u64) -> u64
    ensures { result ≡ counted (above calls (standing_by held) room) }
{
    match held {
        Standing::Fixed(_) => room,
        Standing::Named(_) => { if calls { room.saturating_add(1) } else { room } }
        Standing::Made => room.saturating_add(1),
    }
}

/// What an assignment uses, where the value before is not used and where it is.
fn assigned(op: AssignOp, one: u64, other: u64) -> u64
    ensures { result ≡ assigned_room op one other }
{
    match op {
        AssignOp::Set => one,
        AssignOp::With(_) | AssignOp::Up | AssignOp::Down => other,
    }
}

/// What a built-in function of one argument uses.
fn one_room(which: Builtin) -> u64
    ensures { result ≡ one_room_of which }
{
    match which {
        Builtin::Abs => 2,
        Builtin::WorkDim
        | Builtin::GlobalId
        | Builtin::LocalId
        | Builtin::GroupId
        | Builtin::GlobalSize
        | Builtin::LocalSize
        | Builtin::NumGroups
        | Builtin::GlobalOffset
        | Builtin::Min
        | Builtin::Max
        | Builtin::Clamp
        | Builtin::MulHi => 1,
    }
}

/// What a built-in function of two arguments uses.
fn two_room(which: Builtin) -> u64
    ensures { result ≡ two_room_of which }
{
    match which {
        Builtin::Min | Builtin::Max => 3,
        Builtin::WorkDim
        | Builtin::GlobalId
        | Builtin::LocalId
        | Builtin::GroupId
        | Builtin::GlobalSize
        | Builtin::LocalSize
        | Builtin::NumGroups
        | Builtin::GlobalOffset
        | Builtin::Clamp
        | Builtin::Abs
        | Builtin::MulHi => 1,
    }
}

/// A part that uses no variable, whatever is read of it.
fn none_for(_read: u64) -> u64
    ensures { result ≡ 0 }
{
    0
}

/// How many variables an expression uses.
#[cycle(room)]
fn value_room(expr: &FlatExpr) -> u64
    ensures room { result ≡ counted (value_room_of (expr_of expr.now)) }
    ensures words { ExprWords (expr_of expr.now) }
{
    match expr {
        FlatExpr::Number { value, .. } => none_for(u64::from(*value)),
        FlatExpr::Variable(_) => 0,
        FlatExpr::Unary { part, .. } | FlatExpr::Cast { part, .. } => u64::max(1, value_room(part)),
        FlatExpr::Binary { left, right, .. } => u64::max(1, pair_room(left, right)),
        FlatExpr::Both { left, right } | FlatExpr::Either { left, right } => {
            value_room(left).max(value_room(right).saturating_add(1))
        }
        FlatExpr::Choose { test, yes, no, .. } => choice_room(test, yes, no),
        FlatExpr::Load { place, .. } => u64::max(1, value_room(place)),
        FlatExpr::Call { args, body } => call_room(args.as_slice(), body.as_slice()),
        FlatExpr::Lost { args } => none_for(args_room(args.as_slice())),
        FlatExpr::Builtin { which, args, .. } => builtin_room(*which, args.as_slice()),
        FlatExpr::Paren(part) => value_room(part),
    }
}

/// How many variables the first part of `?:` uses, and then the greater of the others.
#[cycle(room)]
fn choice_room(test: &FlatExpr, yes: &FlatExpr, no: &FlatExpr) -> u64
    ensures room { result ≡ counted (max (value_room_of (expr_of test.now)) (max 1 (max (value_room_of (expr_of yes.now)) (value_room_of (expr_of no.now))))) }
    ensures test { ExprWords (expr_of test.now) }
    ensures yes { ExprWords (expr_of yes.now) }
    ensures no { ExprWords (expr_of no.now) }
{
    let one = value_room(yes);
    let other = value_room(no);
    value_room(test).max(u64::max(1, one.max(other)))
}

/// How many variables two parts use, the right one behind the variable that holds the value of the left one.
#[cycle(room)]
fn pair_room(left: &FlatExpr, right: &FlatExpr) -> u64
    ensures room { result ≡ counted (pair_room_of (value_room_of (expr_of left.now)) (standing (expr_of left.now)) (value_room_of (expr_of right.now)) (calls_of (expr_of right.now))) }
    ensures left { ExprWords (expr_of left.now) }
    ensures right { ExprWords (expr_of right.now) }
{
    let behind = room_above(standing_of(left), calls(right), value_room(right));
    value_room(left).max(behind)
}

/// How many variables a call uses: its result is one.
#[cycle(room)]
fn call_room(args: &[FlatArgument], body: &[FlatStmt]) -> u64
    ensures room { result ≡ counted (value_room_of (CallFlat (flat_arguments args.now) (flat_trees body.now))) }
    ensures args { ArgsWords (flat_arguments args.now) }
    ensures body { StmtsWords (flat_trees body.now) }
{
    args_room(args).max(u64::max(1, stmts_room(body)))
}

/// How many variables a built-in function uses.
#[cycle(room)]
fn builtin_room(which: Builtin, args: &[FlatArgument]) -> u64
    ensures room { result ≡ counted (builtin_room_of which (flat_arguments args.now)) }
    ensures words { ArgsWords (flat_arguments args.now) }
{
    match values_in(args) {
        Values::None => none_for(args_room(args)) + 1,
        Values::One(value) => one_room(which).max(value_room(value)),
        Values::Two(left, right) => two_room(which).max(pair_room(left, right)),
        Values::Three(value, low, high) => {
            let more = none_for(args_room(&args[3..]));
            more.max(clamp_room(value, low, high))
        }
    }
}

/// How many variables `clamp` uses.
#[cycle(room)]
fn clamp_room(value: &FlatExpr, low: &FlatExpr, high: &FlatExpr) -> u64
    ensures room { result ≡ counted (function_room Max (ThreeValues (expr_of value.now) (expr_of low.now) (expr_of high.now))) }
    ensures value { ExprWords (expr_of value.now) }
    ensures low { ExprWords (expr_of low.now) }
    ensures high { ExprWords (expr_of high.now) }
{
    let last = value_room(high).saturating_add(1);
    u64::max(3, pair_room(value, low).max(last))
}

/// How many variables arguments use, each from the same one on.
#[cycle(room)]
fn args_room(args: &[FlatArgument]) -> u64
    ensures room { result ≡ counted (args_room_of (flat_arguments args.now)) }
    ensures words { ArgsWords (flat_arguments args.now) }
{
    let mut most = 0_u64;
    for k in 0..args.len() {
        most = most.max(arg_room(&args[k]));
    }
    most
}

/// How many variables an argument uses.
#[cycle(room)]
fn arg_room(arg: &FlatArgument) -> u64
    ensures room { result ≡ counted (arg_room_of arg.now) }
    ensures words { ArgWords arg.now }
{
    match arg {
        FlatArgument::Number { value, .. } => value_room(value),
        FlatArgument::Array(_) => 0,
    }
}

/// How many variables an expression uses where one is written.
#[cycle(room)]
fn right_room(value: &Option<Box<FlatExpr>>) -> u64
    ensures room { result ≡ counted (right_room_of (written (option_map (λ b. expr_of b.value) value.now))) }
    ensures words { ValueWords (written (option_map (λ b. expr_of b.value) value.now)) }
{
    match value {
        Some(expr) => value_room(expr),
        None => 0,
    }
}

/// How many variables a statement uses, of which the first is for the result of its call.
#[cycle(room)]
fn stmt_room(stmt: &FlatStmt) -> u64
    ensures room { result ≡ counted (stmt_room_of (stmt_of stmt.now)) }
    ensures words { StmtWords (stmt_of stmt.now) }
{
    match stmt {
        FlatStmt::Declare { value, .. } | FlatStmt::Return { value, .. } => {
            right_room(value).saturating_add(1)
        }
        FlatStmt::LocalArray { count, .. } => none_for(value_room(count)),
        FlatStmt::SetVariable {
            variable,
            op,
            value,
            ..
        } => variable_room(*op, *variable, value),
        FlatStmt::SetElement {
            place,
            op,
            value,
            ..
        } => element_room(*op, place, value),
        FlatStmt::Call(call) => value_room(call).saturating_add(1),
        FlatStmt::If { test, yes, no } => if_room(test, yes, no),
        FlatStmt::While { test, body } => {
            value_room(test).saturating_add(1).max(stmt_room(body))
        }
        FlatStmt::Do { body, test } => {
            let turn = stmt_room(body);
            u64::max(1, value_room(test)).saturating_add(1).max(turn)
        }
        FlatStmt::For {
            first,
            test,
            step,
            body,
        } => for_room(first.as_slice(), test, step.as_slice(), body),
        FlatStmt::Block(items) => stmts_room(items.as_slice()),
        FlatStmt::Barrier { .. } | FlatStmt::Break | FlatStmt::Continue | FlatStmt::Empty => 0,
    }
}

/// How many variables the new value of a variable uses.
#[cycle(room)]
fn variable_room(op: AssignOp, variable: u32, value: &Option<Box<FlatExpr>>) -> u64
    ensures room { result ≡ counted (suc (assigned_room op (right_room_of (written (option_map (λ b. expr_of b.value) value.now))) (max 1 (above (right_calls_of (written (option_map (λ b. expr_of b.value) value.now))) (Named variable) (right_room_of (written (option_map (λ b. expr_of b.value) value.now))))))) }
    ensures words { ValueWords (written (option_map (λ b. expr_of b.value) value.now)) }
{
    let right = right_room(value);
    let behind = room_above(Standing::Named(variable), right_calls(value), right);
    assigned(op, right, u64::max(1, behind)).saturating_add(1)
}

/// How many variables the new value of an element uses.
#[cycle(room)]
fn element_room(op: AssignOp, place: &FlatExpr, value: &Option<Box<FlatExpr>>) -> u64
    ensures room { result ≡ counted (suc (assigned_room op (pair_room_of (value_room_of (expr_of place.now)) (standing (expr_of place.now)) (right_room_of (written (option_map (λ b. expr_of b.value) value.now))) (right_calls_of (written (option_map (λ b. expr_of b.value) value.now)))) (pair_room_of (value_room_of (expr_of place.now)) (standing (expr_of place.now)) (suc (right_room_of (written (option_map (λ b. expr_of b.value) value.now)))) (right_calls_of (written (option_map (λ b. expr_of b.value) value.now)))))) }
    ensures place { ExprWords (expr_of place.now) }
    ensures words { ValueWords (written (option_map (λ b. expr_of b.value) value.now)) }
{
    let held = standing_of(place);
    let calls = right_calls(value);
    let left = value_room(place);
    let right = right_room(value);
    let stored = left.max(room_above(held, calls, right));
    let changed = left.max(room_above(held, calls, right.saturating_add(1)));
    assigned(op, stored, changed).saturating_add(1)
}

/// How many variables what stands behind `else` uses.
#[cycle(room)]
fn else_room(other: &Option<Box<FlatStmt>>) -> u64
    ensures room { result ≡ counted (else_room_of (option_map (λ b. stmt_of b.value) other.now)) }
    ensures words { ElseWords (option_map (λ b. stmt_of b.value) other.now) }
{
    match other {
        Some(stmt) => stmt_room(stmt),
        None => 0,
    }
}

/// How many variables `if` uses, with or without `else`.
#[cycle(room)]
fn if_room(test: &FlatExpr, yes: &FlatStmt, no: &Option<Box<FlatStmt>>) -> u64
    ensures room { result ≡ counted (stmt_room_of (if_flat (expr_of test.now) (stmt_of yes.now) (option_map (λ b. stmt_of b.value) no.now))) }
    ensures words { StmtWords (if_flat (expr_of test.now) (stmt_of yes.now) (option_map (λ b. stmt_of b.value) no.now)) }
{
    let one = stmt_room(yes);
    let other = else_room(no);
    value_room(test).saturating_add(1).max(one.max(other))
}

/// How many variables `for` uses.
#[cycle(room)]
fn for_room(
    first: &[FlatStmt],
    test: &Option<Box<FlatExpr>>,
    step: &[FlatStmt],
    body: &FlatStmt,
) -> u64
    ensures room { result ≡ counted (stmt_room_of (ForFlat (flat_trees first.now) (written (option_map (λ b. expr_of b.value) test.now)) (flat_trees step.now) (stmt_of body.now))) }
    ensures words { StmtWords (ForFlat (flat_trees first.now) (written (option_map (λ b. expr_of b.value) test.now)) (flat_trees step.now) (stmt_of body.now)) }
{
    let head = right_room(test).saturating_add(1);
    let behind = stmts_room(step);
    let turn = stmt_room(body);
    stmts_room(first).max(head.max(behind.max(turn)))
}

/// How many variables statements use, kept up to 2^64 - 1; all numbers written in them are words.
#[cycle(room)]
pub fn stmts_room(stmts: &[FlatStmt]) -> u64
    ensures room { result ≡ counted (stmts_room_of (flat_trees stmts.now)) }
    ensures words { StmtsWords (flat_trees stmts.now) }
{
    let mut most = 0_u64;
    for k in 0..stmts.len() {
        most = most.max(stmt_room(&stmts[k]));
    }
    most
}

//! Operations without jumps and calls, in front of what follows.
ghost use Rattle.std.specs.Prelude.{◌≡◌, ◌<◌, ◌+◌, ◌^◌, ◌&&◌, IfOk, OnOk, if◌then◌else◌, max, not, true, false};
ghost use Rattle.kir.specs.Lists.{Puts, set_op};
ghost use Rattle.kir.specs.Measures.{is_single as is_single_of};
ghost use Rattle.kir.specs.Shapes.{op_of, operand_of, ops_of};
ghost use Rattle.kir.specs.Trees.{AndOp, Call, If, Loop, NoOps, Ops};
ghost use Rattle.kir_flow.specs.Flagging.{clear, flagged, flagged_op, guarded, jump_ops, live as live_of, op_is_left as op_is_left_of, op_room, passed_on, room};
ghost use Rattle.kir_flow.specs.Views.{GoesOn, cut_loop, kept_where, test_op, turn_of, turn_room};

use crate::leaving::{both, is_flagged, is_left, leaves, op_is_left, returns_through};
use crate::scopes::{Jump, Scope};
use crate::singles::{copy_single, copy_singles, is_single};
use kir::{Op, Operand, if_op, loop_op, put, put_set};
use std::alloc::{AllocError, Global};
use vx_base::Alu;

/// A flag is cleared if the turn or call that the jump is in is alive.
fn put_clear(out: &mut Vec<Op>, flag: u32, live: u32) -> Result<(), AllocError>
    ensures { OnOk result (Puts out.old.items out.new.items (clear flag live)) }
{
    put(
        out,
        Op::Calculate {
            variable: flag,
            op: Alu::Sub,
            left: Operand::Variable(flag),
            right: Operand::Variable(live),
        },
    )
}

/// What a jump comes to.
fn put_jump(out: &mut Vec<Op>, scope: Scope, jump: Jump) -> Result<(), AllocError>
    requires { live_of scope < 2 ^ 32 }
    ensures { OnOk result (Puts out.old.items out.new.items (jump_ops scope jump)) }
{
    let live = scope.live();
    match (scope, jump) {
        (Scope::InBody { .. } | Scope::InEdge { .. }, Jump::ByReturn) => {
            put_clear(out, scope.whole(), live)?;
            put_clear(out, scope.run(), live)?;
        }
        (Scope::InBody { .. } | Scope::InEdge { .. }, Jump::ByBreak)
        | (Scope::InEdge { .. }, Jump::ByContinue) => put_clear(out, scope.run(), live)?,
        (Scope::InBody { .. }, Jump::ByContinue) => {}
        (Scope::InCall(_), _) => {}
    }
    put(
        out,
        Op::Set {
            variable: live,
            value: Operand::Number(0),
        },
    )
}

/// Behind a loop that a `return` may leave, the loop around it goes on only where the call does.
fn put_passed_on(out: &mut Vec<Op>, scope: Scope) -> Result<(), AllocError>
    requires { live_of scope < 2 ^ 32 }
    ensures { OnOk result (Puts out.old.items out.new.items (passed_on scope)) }
{
    match scope {
        Scope::InCall(_) => Ok(()),
        Scope::InBody { .. } | Scope::InEdge { .. } => {
            put_and(out, scope.live(), scope.whole())?;
            put_and(out, scope.run(), scope.whole())
        }
    }
}

/// A flag stays only where another one is.
fn put_and(out: &mut Vec<Op>, flag: u32, other: u32) -> Result<(), AllocError>
    ensures { OnOk result (Puts out.old.items out.new.items (kept_where flag other)) }
{
    put(
        out,
        Op::Calculate {
            variable: flag,
            op: Alu::And,
            left: Operand::Variable(flag),
            right: Operand::Variable(other),
        },
    )
}

/// A single operation, and those behind it in `from` where it is the first of a run that stands under a branch.
fn put_guarded(
    alloc: Global,
    out: &mut Vec<Op>,
    scope: Scope,
    sure: bool,
    among: bool,
    op: &Op,
    from: &[Op],
) -> Result<(), AllocError>
    requires live { live_of scope < 2 ^ 32 }
    requires single { is_single_of (op_of op.now) ≡ true }
    ensures { OnOk result ((rest : Ops) → ops_of from.now ≡ AndOp (op_of op.now) rest → Puts out.old.items out.new.items (guarded among scope sure (op_of op.now) rest)) }
{
    if sure {
        return put(out, copy_single(op));
    }
    if among {
        return Ok(());
    }
    let run = copy_singles(alloc, from)?;
    put(
        out,
        if_op(Operand::Variable(scope.live()), run, Vec::new(alloc)),
    )
}

/// What is known behind an operation.
#[derive(Clone, Copy, Debug, PartialEq, Eq)]
pub struct Reached {
    /// Whether it is a single one that stands under a branch.
    pub among: bool,
    /// Whether what follows is reached only alive.
    pub sure: bool,
}

/// Operations without jumps and calls; `sure` says that they are reached only alive.
#[cycle(flagging)]
pub fn push_flagged(
    alloc: Global,
    out: &mut Vec<Op>,
    scope: Scope,
    sure: bool,
    ops: &[Op],
) -> Result<(), AllocError>
    requires room { live_of scope + room sure (ops_of ops.now) < 2 ^ 32 }
    ensures { OnOk result (Puts out.old.items out.new.items (flagged false scope sure (ops_of ops.now))) }
{
    let mut reached = Reached { among: false, sure };
    for k in 0..ops.len() {
        reached = push_next(alloc, out, scope, reached, &ops[k], &ops[k..])?;
    }
    Ok(())
}

/// An operation of several, where `from` begins with it.
#[cycle(flagging)]
fn push_next(
    alloc: Global,
    out: &mut Vec<Op>,
    scope: Scope,
    before: Reached,
    op: &Op,
    from: &[Op],
) -> Result<Reached, AllocError>
    requires room { live_of scope + op_room before.sure (op_of op.now) < 2 ^ 32 }
    ensures puts { IfOk result (λ behind. (rest : Ops) → ops_of from.now ≡ AndOp (op_of op.now) rest → GoesOn scope before (op_of op.now) rest out.old.items behind out.new.items) }
    ensures sure { IfOk result (λ behind. behind.sure ≡ before.sure && not (op_is_left_of (op_of op.now))) }
{
    if is_single(op) {
        put_guarded(alloc, out, scope, before.sure, before.among, op, from)?;
        return Ok(Reached {
            among: !before.sure,
            sure: before.sure,
        });
    }
    push_op(alloc, out, scope, before.sure, op)?;
    Ok(Reached {
        among: false,
        sure: both(before.sure, !op_is_left(op)),
    })
}

/// The same as a list of their own.
#[cycle(flagging)]
fn flagged_ops(alloc: Global, scope: Scope, sure: bool, ops: &[Op]) -> Result<Vec<Op>, AllocError>
    requires room { live_of scope + room sure (ops_of ops.now) < 2 ^ 32 }
    ensures { IfOk result (λ list. ops_of list.items ≡ flagged false scope sure (ops_of ops.now) NoOps) }
{
    let mut list = Vec::new(alloc);
    push_flagged(alloc, &mut list, scope, sure, ops)?;
    Ok(list)
}

/// The same behind a flag that is set first.
#[cycle(flagging)]
fn started_ops(
    alloc: Global,
    scope: Scope,
    sure: bool,
    flag: u32,
    value: Operand,
    ops: &[Op],
) -> Result<Vec<Op>, AllocError>
    requires room { live_of scope + room sure (ops_of ops.now) < 2 ^ 32 }
    ensures { IfOk result (λ list. ops_of list.items ≡ set_op flag (operand_of value) (flagged false scope sure (ops_of ops.now) NoOps)) }
{
    let mut list = Vec::new(alloc);
    put_set(&mut list, flag, value)?;
    push_flagged(alloc, &mut list, scope, sure, ops)?;
    Ok(list)
}

/// The head of a loop with flags, and what its test leaves in the flag of the turn.
#[cycle(flagging)]
fn tested_ops(
    alloc: Global,
    scope: Scope,
    flag: u32,
    test: Operand,
    ops: &[Op],
) -> Result<Vec<Op>, AllocError>
    requires room { live_of scope + room false (ops_of ops.now) < 2 ^ 32 }
    ensures { IfOk result (λ list. ops_of list.items ≡ flagged false scope false (ops_of ops.now) (test_op flag (operand_of test) NoOps)) }
{
    let mut list = Vec::new(alloc);
    push_flagged(alloc, &mut list, scope, false, ops)?;
    put(
        &mut list,
        Op::Calculate {
            variable: flag,
            op: Alu::Mul,
            left: Operand::Variable(flag),
            right: test,
        },
    )?;
    Ok(list)
}

/// An operation that is no single one.
#[cycle(flagging)]
fn push_op(
    alloc: Global,
    out: &mut Vec<Op>,
    scope: Scope,
    sure: bool,
    op: &Op,
) -> Result<(), AllocError>
    requires room { live_of scope + op_room sure (op_of op.now) < 2 ^ 32 }
    ensures { OnOk result (Puts out.old.items out.new.items (flagged_op scope sure (op_of op.now))) }
{
    match op {
        Op::If { test, yes, no } => {
            push_if(
                alloc,
                out,
                scope,
                sure,
                *test,
                yes.as_slice(),
                no.as_slice(),
            )
        }
        Op::Loop {
            head,
            test,
            body,
            step,
        } => push_loop(
            alloc,
            out,
            scope,
            sure,
            head.as_slice(),
            *test,
            body.as_slice(),
            step.as_slice(),
        ),
        Op::Call { body } => push_call(alloc, out, scope, sure, body.as_slice()),
        Op::Break => put_jump(out, scope, Jump::ByBreak),
        Op::Continue => put_jump(out, scope, Jump::ByContinue),
        Op::Return => put_jump(out, scope, Jump::ByReturn),
        Op::Set { .. } | Op::Calculate { .. } | Op::Fit { .. } | Op::Id { .. } => {
            put(out, copy_single(op))
        }
        Op::Load { .. } | Op::Store { .. } | Op::Check { .. } | Op::Barrier { .. } => {
            put(out, copy_single(op))
        }
    }
}

/// A branch.
#[cycle(flagging)]
fn push_if(
    alloc: Global,
    out: &mut Vec<Op>,
    scope: Scope,
    sure: bool,
    test: Operand,
    yes: &[Op],
    no: &[Op],
) -> Result<(), AllocError>
    requires room { live_of scope + max (room sure (ops_of yes.now)) (room sure (ops_of no.now)) < 2 ^ 32 }
    ensures { OnOk result (Puts out.old.items out.new.items (flagged_op scope sure (If (operand_of test) (ops_of yes.now) (ops_of no.now)))) }
{
    let one = flagged_ops(alloc, scope, sure, yes)?;
    let other = flagged_ops(alloc, scope, sure, no)?;
    put(out, if_op(test, one, other))
}

/// The body of a helper.
#[cycle(flagging)]
fn push_call(
    alloc: Global,
    out: &mut Vec<Op>,
    scope: Scope,
    sure: bool,
    body: &[Op],
) -> Result<(), AllocError>
    requires room { live_of scope + op_room sure (Call (ops_of body.now)) < 2 ^ 32 }
    ensures { OnOk result (Puts out.old.items out.new.items (flagged_op scope sure (Call (ops_of body.now)))) }
{
    if !is_left(body) {
        return push_flagged(alloc, out, scope, sure, body);
    }
    let flag = scope.inside();
    put_set(out, flag, scope.alive(sure))?;
    push_flagged(alloc, out, Scope::InCall(flag), sure, body)
}

/// A loop.
#[cycle(flagging)]
fn push_loop(
    alloc: Global,
    out: &mut Vec<Op>,
    scope: Scope,
    sure: bool,
    head: &[Op],
    test: Operand,
    body: &[Op],
    step: &[Op],
) -> Result<(), AllocError>
    requires room { live_of scope + op_room sure (Loop (ops_of head.now) (operand_of test) (ops_of body.now) (ops_of step.now)) < 2 ^ 32 }
    ensures { OnOk result (Puts out.old.items out.new.items (flagged_op scope sure (Loop (ops_of head.now) (operand_of test) (ops_of body.now) (ops_of step.now)))) }
{
    if is_flagged(sure, head, body, step) {
        return push_cut_loop(alloc, out, scope, sure, head, test, body, step);
    }
    let before = flagged_ops(alloc, scope, true, head)?;
    let turn = turn_ops(alloc, scope, body)?;
    let behind = flagged_ops(alloc, scope, true, step)?;
    put(out, loop_op(before, test, turn, behind))
}

/// The turn of a loop that no jump leaves: where a `continue` ends it, it has a flag.
#[cycle(flagging)]
fn turn_ops(alloc: Global, scope: Scope, body: &[Op]) -> Result<Vec<Op>, AllocError>
    requires room { live_of scope + turn_room (ops_of body.now) < 2 ^ 32 }
    ensures { IfOk result (λ turn. ops_of turn.items ≡ turn_of scope (ops_of body.now)) }
{
    if !leaves(Jump::ByContinue, body) {
        return flagged_ops(alloc, scope, true, body);
    }
    let flag = scope.inside();
    started_ops(
        alloc,
        Scope::InCall(flag),
        true,
        flag,
        Operand::Number(1),
        body,
    )
}

/// A loop with its two flags.
#[cycle(flagging)]
fn push_cut_loop(
    alloc: Global,
    out: &mut Vec<Op>,
    scope: Scope,
    sure: bool,
    head: &[Op],
    test: Operand,
    body: &[Op],
    step: &[Op],
) -> Result<(), AllocError>
    requires room { live_of scope + (2 + max (room false (ops_of head.now)) (max (room true (ops_of body.now)) (room false (ops_of step.now)))) < 2 ^ 32 }
    ensures { OnOk result (Puts out.old.items out.new.items (cut_loop scope sure (ops_of head.now) (operand_of test) (ops_of body.now) (ops_of step.now))) }
{
    let first = scope.inside();
    let live = first + 1;
    let run = Operand::Variable(first);
    let before = tested_ops(alloc, scope.edge(), live, test, head)?;
    let turn = started_ops(alloc, scope.body(), true, live, run, body)?;
    let behind = started_ops(alloc, scope.edge(), false, live, run, step)?;
    put_set(out, first, scope.alive(sure))?;
    put_set(out, live, run)?;
    put(out, loop_op(before, Operand::Variable(live), turn, behind))?;
    put_returned(out, scope, returns_through(head, body, step))
}

/// Behind a loop, where a `return` may have left it.
fn put_returned(out: &mut Vec<Op>, scope: Scope, returns: bool) -> Result<(), AllocError>
    requires { live_of scope < 2 ^ 32 }
    ensures { OnOk result (Puts out.old.items out.new.items (λ c. if returns then passed_on scope c else c)) }
{
    if returns {
        return put_passed_on(out, scope);
    }
    Ok(())
}

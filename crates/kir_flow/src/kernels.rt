//! Kernels with flags in place of jumps.
ghost use Rattle.std.specs.Prelude.{◌≡◌, ◌<◌, ◌+◌, ◌^◌, IfOk, max, nat_lt, true, false};
ghost use Rattle.kir.specs.Shapes.{code_of, op_of, operand_of, ops_of};
ghost use Rattle.kir.specs.Trees.{Call, Loop, NoOps, NumberOf};
ghost use Rattle.ocl_program.specs.Measures.{cut};
ghost use Rattle.kir_flow.specs.Flagging.{flagged, flags as flags_of, op_room as op_room_of, room as room_of};
ghost use Rattle.kir.specs.Lists.{set_op};
ghost use Rattle.kir_flow.specs.Views.{turn_room as turn_room_of};
ghost use Rattle.kir_flow.specs.WithoutJumps.{WithoutJumps};

use crate::flagging::push_flagged;
use crate::leaving::{both, is_flagged, is_left, leaves, op_is_left};
use crate::scopes::{Jump, Scope};
use item_settings::copied_params;
use kir::{Kir, Op, Operand, put_set};
use std::alloc::{AllocError, Global};
use vx_base::Memory;

/// How many flags operations need at most, one inside another, kept up to 2^32 - 1.
#[cycle(room)]
fn room(sure: bool, ops: &[Op]) -> u32
    ensures { result ≡ cut (room_of sure (ops_of ops.now)) }
{
    let mut most = 0_u32;
    let mut certain = sure;
    for k in 0..ops.len() {
        let op = &ops[k];
        most = most.max(op_room(certain, op));
        certain = both(certain, !op_is_left(op));
    }
    most
}

/// How many flags an operation needs.
#[cycle(room)]
fn op_room(sure: bool, op: &Op) -> u32
    ensures { result ≡ cut (op_room_of sure (op_of op.now)) }
{
    match op {
        Op::If { yes, no, .. } => room(sure, yes.as_slice()).max(room(sure, no.as_slice())),
        Op::Loop {
            head,
            body,
            step,
            ..
        } => loop_room(sure, head.as_slice(), body.as_slice(), step.as_slice()),
        Op::Call { body } => call_room(sure, body.as_slice()),
        Op::Set { .. } | Op::Calculate { .. } | Op::Fit { .. } | Op::Id { .. } => 0,
        Op::Load { .. } | Op::Store { .. } | Op::Check { .. } | Op::Barrier { .. } => 0,
        Op::Break | Op::Continue | Op::Return => 0,
    }
}

/// How many flags a call needs.
#[cycle(room)]
fn call_room(sure: bool, body: &[Op]) -> u32
    ensures { result ≡ cut (op_room_of sure (Call (ops_of body.now))) }
{
    if is_left(body) {
        room(sure, body).saturating_add(1)
    } else {
        room(sure, body)
    }
}

/// How many flags a loop needs.
#[cycle(room)]
fn loop_room(sure: bool, head: &[Op], body: &[Op], step: &[Op]) -> u32
    ensures { result ≡ cut (op_room_of sure (Loop (ops_of head.now) (NumberOf 0) (ops_of body.now) (ops_of step.now))) }
{
    if is_flagged(sure, head, body, step) {
        let inside = room(true, body).max(room(false, step));
        return room(false, head).max(inside).saturating_add(2);
    }
    room(true, head).max(turn_room(body).max(room(true, step)))
}

/// How many flags the turn of a loop needs that no jump leaves.
#[cycle(room)]
fn turn_room(body: &[Op]) -> u32
    ensures { result ≡ cut (turn_room_of (ops_of body.now)) }
{
    if leaves(Jump::ByContinue, body) {
        room(true, body).saturating_add(1)
    } else {
        room(true, body)
    }
}

/// The operations of a kernel, behind its own flag.
fn kernel_ops(alloc: Global, flag: u32, ops: &[Op]) -> Result<Vec<Op>, AllocError>
    requires room { flag + room_of true (ops_of ops.now) < 2 ^ 32 }
    ensures { IfOk result (λ list. ops_of list.items ≡ set_op flag (NumberOf 1) (flagged false (Scope.InCall flag) true (ops_of ops.now) NoOps)) }
{
    let mut list = Vec::new(alloc);
    put_set(&mut list, flag, Operand::Number(1))?;
    push_flagged(alloc, &mut list, Scope::InCall(flag), true, ops)?;
    Ok(list)
}

/// The kernel with flags.
fn flagged_kernel(alloc: Global, code: &Kir) -> Result<Kir, Memory>
    requires numbers { (flags_of (code_of code.now)).variables < 2 ^ 32 }
    ensures { IfOk result (λ made. code_of made ≡ flags_of (code_of code.now)) }
{
    let variables = code.variables + 1 + room(true, code.ops.as_slice());
    let params = copied_params(alloc, code.params.as_slice())?;
    let arrays = code.arrays.as_slice().to_vec(alloc)?;
    let ops = kernel_ops(alloc, code.variables, code.ops.as_slice())?;
    Ok(Kir {
        params,
        arrays,
        variables,
        ops,
    })
}

/// Whether the numbers of all variables of a kernel are words once its jumps are flags.
pub fn fits(code: &Kir) -> bool
    ensures { result ≡ nat_lt (flags_of (code_of code.now)).variables (2 ^ 32) }
{
    match code.variables.checked_add(1) {
        Some(own) => own.checked_add(room(true, code.ops.as_slice())).is_some(),
        None => false,
    }
}

/// A kernel with flags in place of jumps, which are variables numbered behind its own. It has no jump left and asks for what the
/// kernel asks for; its barriers, accesses, checks, branches, loops, variables and words are as those were, but for the flags. All
/// numbers of variables are words. Memory is the only reason to give up.
pub fn flags(alloc: Global, code: &Kir) -> Result<Kir, Memory>
    requires numbers { (flags_of (code_of code.now)).variables < 2 ^ 32 }
    ensures flags { IfOk result (λ made. code_of made ≡ flags_of (code_of code.now)) }
    ensures keeps { IfOk result (λ made. WithoutJumps (code_of code.now) (code_of made)) }
{
    let made = flagged_kernel(alloc, code)?;
    Ok(made)
}

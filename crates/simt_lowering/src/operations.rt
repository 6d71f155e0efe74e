//! Operations of a kernel at their places.
ghost use Rattle.std.specs.Prelude.{◌≡◌, ◌<◌, ◌+◌, ◌^◌, ◌∷◌, OnOk, suc};
ghost use Rattle.kir.specs.Loops.{loop_nesting, loop_nesting_in};
ghost use Rattle.kir.specs.Shapes.{op_of, operand_of, ops_of};
ghost use Rattle.vcode.specs.Code.{Enter, Goto, IfZero, Leaves};
ghost use Rattle.vcode.specs.Shapes.{Puts};
ghost use Rattle.simt_lowering.specs.Lowered.{goes_on, keeps_mask, lowered, lowered_op, op_end as op_end_of, ops_end as ops_end_of, splits};
ghost use Rattle.simt_lowering.specs.Views.{HasRoom, accessed, branch_of, computed, known_in, loop_of};

use crate::elements::{put_checked, put_compared, put_load, put_store};
use crate::ids::put_id;
use crate::known::Known;
use crate::places::{if_places, loop_places, op_end};
use crate::warps::{put_join, put_kept_mask, put_pred, put_split};
use kir::{Op, Operand};
use std::alloc::AllocError;
use vcode::{VOp, put, put_compute, put_copy};

/// An operation that computes the value of a variable.
fn put_computed(out: &mut Vec<VOp>, known: &Known<'_>, op: &Op) -> Result<(), AllocError>
    requires room { HasRoom (known_in known.now) }
    ensures { OnOk result (Puts out.old.items out.new.items
        (computed (known_in known.now) (op_of op.now))) }
{
    match op {
        Op::Set { variable, value } => put_copy(out, *variable, *value),
        Op::Calculate {
            variable,
            op,
            left,
            right,
        } => put_compute(out, *variable, *op, *left, *right),
        Op::Fit {
            variable,
            elem,
            value,
        } => put(
            out,
            VOp::Cut {
                register: *variable,
                elem: *elem,
                value: *value,
            },
        ),
        Op::Id {
            variable,
            which,
            dimension,
        } => put_id(out, known, *variable, *which, *dimension),
        Op::Load { .. } | Op::Store { .. } | Op::Check { .. } | Op::Barrier { .. } => Ok(()),
        Op::If { .. } | Op::Loop { .. } | Op::Call { .. } => Ok(()),
        Op::Break | Op::Continue | Op::Return => Ok(()),
    }
}

/// An operation on an array, or a barrier.
fn put_accessed(
    out: &mut Vec<VOp>,
    known: &Known<'_>,
    op: &Op,
    place: u32,
) -> Result<(), AllocError>
    requires room { HasRoom (known_in known.now) }
    requires fits { op_end_of (known_in known.now).marks (op_of op.now) place < 2 ^ 32 }
    ensures { OnOk result (Puts out.old.items out.new.items
        (accessed (known_in known.now) (op_of op.now) place)) }
{
    match op {
        Op::Load {
            variable,
            array,
            elem,
            index,
        } => put_load(out, known, *variable, *array, *elem, *index),
        Op::Store {
            array,
            elem,
            index,
            value,
        } => put_store(out, known, *array, *elem, *index, *value),
        Op::Check { array, index, pos } => {
            put_compared(out, known, *array, *index)?;
            let uniform = known.marks.is_same(*index);
            put_checked(out, known, uniform, *pos, place + 2)
        }
        Op::Barrier { site } => put(out, VOp::Bar { site: *site }),
        Op::Set { .. } | Op::Calculate { .. } | Op::Fit { .. } | Op::Id { .. } => Ok(()),
        Op::If { .. } | Op::Loop { .. } | Op::Call { .. } => Ok(()),
        Op::Break | Op::Continue | Op::Return => Ok(()),
    }
}

/// Operations in order, within so many loops, from a place on.
#[cycle(lowering)]
pub fn put_ops(
    out: &mut Vec<VOp>,
    known: &Known<'_>,
    depth: u32,
    ops: &[Op],
    place: u32,
) -> Result<(), AllocError>
    requires room { HasRoom (known_in known.now) }
    requires masks { known.now.variables + (8 + (depth + loop_nesting (ops_of ops.now))) < 2 ^ 32 }
    requires fits { ops_end_of (known_in known.now).marks (ops_of ops.now) place < 2 ^ 32 }
    ensures { OnOk result (Puts out.old.items out.new.items
        (lowered (known_in known.now) depth (ops_of ops.now) place)) }
{
    let mut at = place;
    for k in 0..ops.len() {
        let op = &ops[k];
        put_op(out, known, depth, op, at)?;
        at = op_end(known.marks, op, at);
    }
    Ok(())
}

/// An operation at a place.
#[cycle(lowering)]
fn put_op(
    out: &mut Vec<VOp>,
    known: &Known<'_>,
    depth: u32,
    op: &Op,
    place: u32,
) -> Result<(), AllocError>
    requires room { HasRoom (known_in known.now) }
    requires masks { known.now.variables + (8 + (depth + loop_nesting_in (op_of op.now))) < 2 ^ 32 }
    requires fits { op_end_of (known_in known.now).marks (op_of op.now) place < 2 ^ 32 }
    ensures { OnOk result (Puts out.old.items out.new.items
        (lowered_op (known_in known.now) depth (op_of op.now) place)) }
{
    match op {
        Op::Set { .. } | Op::Calculate { .. } | Op::Fit { .. } | Op::Id { .. } => {
            put_computed(out, known, op)
        }
        Op::Load { .. } | Op::Store { .. } | Op::Check { .. } | Op::Barrier { .. } => {
            put_accessed(out, known, op, place)
        }
        Op::If { test, yes, no } => {
            put_if(
                out,
                known,
                depth,
                *test,
                yes.as_slice(),
                no.as_slice(),
                place,
            )
        }
        Op::Loop {
            head,
            test,
            body,
            step,
        } => put_loop(
            out,
            known,
            depth,
            head.as_slice(),
            *test,
            body.as_slice(),
            step.as_slice(),
            place,
        ),
        Op::Break | Op::Continue | Op::Return | Op::Call { .. } => Ok(()),
    }
}

/// A branch.
#[cycle(lowering)]
fn put_if(
    out: &mut Vec<VOp>,
    known: &Known<'_>,
    depth: u32,
    test: Operand,
    yes: &[Op],
    no: &[Op],
    place: u32,
) -> Result<(), AllocError>
    requires room { HasRoom (known_in known.now) }
    requires masks { known.now.variables +
        (8 + (depth + loop_nesting_in (branch_of test yes.now no.now))) < 2 ^ 32 }
    requires fits { op_end_of (known_in known.now).marks (branch_of test yes.now no.now) place
        < 2 ^ 32 }
    ensures { OnOk result (Puts out.old.items out.new.items
        (lowered_op (known_in known.now) depth (branch_of test yes.now no.now) place)) }
{
    let uniform = known.marks.is_same(test);
    let places = if_places(known.marks, uniform, yes, no, place);
    put_branch(out, uniform, test, places.other)?;
    put_ops(out, known, depth, yes, places.one)?;
    put(out, VOp::Goto { place: places.meet })?;
    put_ops(out, known, depth, no, places.other)?;
    put_join(out, uniform)
}

/// The first operations of a branch: the warp parts, and lanes whose test is 0 go to a place.
fn put_branch(
    out: &mut Vec<VOp>,
    uniform: bool,
    test: Operand,
    place: u32,
) -> Result<(), AllocError>
    ensures { OnOk result (Puts out.old.items out.new.items
        (λ c. splits uniform (operand_of test) (IfZero (operand_of test) place ∷ c))) }
{
    put_split(out, uniform, test)?;
    put(out, VOp::IfZero { test, place })
}

/// A loop.
#[cycle(lowering)]
fn put_loop(
    out: &mut Vec<VOp>,
    known: &Known<'_>,
    depth: u32,
    head: &[Op],
    test: Operand,
    body: &[Op],
    step: &[Op],
    place: u32,
) -> Result<(), AllocError>
    requires room { HasRoom (known_in known.now) }
    requires masks { known.now.variables +
        (8 + (depth + loop_nesting_in (loop_of head.now test body.now step.now))) < 2 ^ 32 }
    requires fits { op_end_of (known_in known.now).marks (loop_of head.now test body.now step.now)
        place < 2 ^ 32 }
    ensures { OnOk result (Puts out.old.items out.new.items
        (lowered_op (known_in known.now) depth (loop_of head.now test body.now step.now) place)) }
{
    let uniform = known.marks.is_same(test);
    let mask = known.mask(depth);
    let places = loop_places(known.marks, uniform, head, body, step, place);
    put_entry(out, uniform, mask, places.head)?;
    put_ops(out, known, depth + 1, step, places.step)?;
    put_ops(out, known, depth + 1, head, places.head)?;
    put_test(out, uniform, test, mask, places.end)?;
    put_ops(out, known, depth + 1, body, places.body)?;
    put(out, VOp::Again { place: places.step })
}

/// The first operations of a loop, which goes to its head.
fn put_entry(out: &mut Vec<VOp>, uniform: bool, mask: u32, head: u32) -> Result<(), AllocError>
    ensures { OnOk result (Puts out.old.items out.new.items
        (λ c. Enter ∷ keeps_mask uniform mask (Goto head ∷ c))) }
{
    put(out, VOp::Enter)?;
    put_kept_mask(out, uniform, mask)?;
    put(out, VOp::Goto { place: head })
}

/// The test of a loop, which is left to a place.
fn put_test(
    out: &mut Vec<VOp>,
    uniform: bool,
    test: Operand,
    mask: u32,
    end: u32,
) -> Result<(), AllocError>
    ensures { OnOk result (Puts out.old.items out.new.items
        (λ c. goes_on uniform (operand_of test) mask (Leaves (operand_of test) end ∷ c))) }
{
    put_pred(out, uniform, test, mask)?;
    put(out, VOp::Leaves { test, place: end })
}

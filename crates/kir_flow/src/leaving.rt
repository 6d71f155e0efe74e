//! Which jumps leave operations.
ghost use Rattle.std.specs.Prelude.{◌≡◌, ◌&&◌, ◌||◌};
ghost use Rattle.kir.specs.Shapes.{op_of, ops_of};
ghost use Rattle.kir_flow.specs.Flagging.{is_cut as is_cut_of, is_flagged as is_flagged_of, is_left as is_left_of, is_return as is_return_of, leaves as leaves_of, op_is_left as op_is_left_of, op_leaves as op_leaves_of};

use crate::scopes::Jump;
use kir::Op;

/// Whether it is a `return`.
fn is_return(jump: Jump) -> bool
    ensures { result ≡ is_return_of jump }
{
    matches!(jump, Jump::ByReturn)
}

/// Whether one of two holds.
fn either(one: bool, other: bool) -> bool
    ensures { result ≡ one || other }
{
    one || other
}

/// Whether two hold.
pub fn both(one: bool, other: bool) -> bool
    ensures { result ≡ one && other }
{
    one && other
}

/// Whether operations hold this jump, so that it leaves them.
#[cycle(leaving)]
pub fn leaves(jump: Jump, ops: &[Op]) -> bool
    ensures { result ≡ leaves_of jump (ops_of ops.now) }
{
    for k in 0..ops.len() {
        if op_leaves(jump, &ops[k]) {
            return true;
        }
    }
    false
}

/// Whether an operation holds this jump, so that it leaves it.
#[cycle(leaving)]
pub fn op_leaves(jump: Jump, op: &Op) -> bool
    ensures { result ≡ op_leaves_of jump (op_of op.now) }
{
    match op {
        Op::If { yes, no, .. } => {
            either(leaves(jump, yes.as_slice()), leaves(jump, no.as_slice()))
        }
        Op::Loop {
            head,
            body,
            step,
            ..
        } => {
            let head = leaves(jump, head.as_slice());
            let body = leaves(jump, body.as_slice());
            let step = leaves(jump, step.as_slice());
            both(is_return(jump), either(head, either(body, step)))
        }
        Op::Break => matches!(jump, Jump::ByBreak),
        Op::Continue => matches!(jump, Jump::ByContinue),
        Op::Return => matches!(jump, Jump::ByReturn),
        Op::Call { .. } => false,
        Op::Set { .. } | Op::Calculate { .. } | Op::Fit { .. } | Op::Id { .. } => false,
        Op::Load { .. } | Op::Store { .. } | Op::Check { .. } | Op::Barrier { .. } => false,
    }
}

/// Whether any jump leaves operations.
pub fn is_left(ops: &[Op]) -> bool
    ensures { result ≡ is_left_of (ops_of ops.now) }
{
    leaves(Jump::ByBreak, ops) || leaves(Jump::ByContinue, ops) || leaves(Jump::ByReturn, ops)
}

/// Whether any jump leaves an operation.
pub fn op_is_left(op: &Op) -> bool
    ensures { result ≡ op_is_left_of (op_of op.now) }
{
    op_leaves(Jump::ByBreak, op) || op_leaves(Jump::ByContinue, op) || op_leaves(Jump::ByReturn, op)
}

/// Whether a jump in it leaves a loop.
fn is_cut(head: &[Op], body: &[Op], step: &[Op]) -> bool
    ensures { result ≡ is_cut_of (ops_of head.now) (ops_of body.now) (ops_of step.now) }
{
    is_left(head) || is_left(step) || leaves(Jump::ByBreak, body) || leaves(Jump::ByReturn, body)
}

/// Whether a loop needs flags, where it is known or not that it is begun alive.
pub fn is_flagged(sure: bool, head: &[Op], body: &[Op], step: &[Op]) -> bool
    ensures { result ≡ is_flagged_of sure (ops_of head.now) (ops_of body.now) (ops_of step.now) }
{
    !sure || is_cut(head, body, step)
}

/// Whether a `return` leaves a loop.
pub fn returns_through(head: &[Op], body: &[Op], step: &[Op]) -> bool
    ensures { result ≡ leaves_of Jump.ByReturn (ops_of head.now) || (leaves_of Jump.ByReturn (ops_of body.now) || leaves_of Jump.ByReturn (ops_of step.now)) }
{
    leaves(Jump::ByReturn, head) || leaves(Jump::ByReturn, body) || leaves(Jump::ByReturn, step)
}

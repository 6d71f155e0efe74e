//! Where operations end.
ghost use Rattle.std.specs.Prelude.{◌≡◌, ◌<◌, ◌^◌, suc};
ghost use Rattle.kir.specs.Shapes.{op_of, operand_of, ops_of};
ghost use Rattle.uniformity.specs.Marks.{marked};
ghost use Rattle.simt_lowering.specs.Lowered.{body_place, check_end as check_end_of, head_place, id_count as id_count_of, id_end as id_end_of, if_end, loop_end, meet_place, one_place, op_end as op_end_of, ops_end as ops_end_of, other_place, step_place};
ghost use Rattle.simt_lowering.specs.Views.{part_of};

use crate::warps::past;
use kir::{Op, Operand};
use ocl_program::Builtin;
use uniformity::Marks;

/// How many operations give what a built-in function of a dimension gives, by how many it is for dimension 2 and for one in a variable.
fn id_count(second: u32, any: u32, dimension: Operand) -> u32
    ensures { result ≡ id_count_of second any (operand_of dimension) }
{
    match dimension {
        Operand::Number(2) => second,
        Operand::Number(_) => 1,
        Operand::Variable(_) => any,
    }
}

/// The place behind them.
fn id_end(which: Builtin, dimension: Operand, place: u32) -> u32
    requires { id_end_of which (operand_of dimension) place < 2 ^ 32 }
    ensures { result ≡ id_end_of which (operand_of dimension) place }
{
    let count = match which {
        Builtin::GlobalId | Builtin::LocalId => id_count(3, 7, dimension),
        Builtin::GroupId => id_count(1, 4, dimension),
        Builtin::LocalSize | Builtin::GlobalSize | Builtin::NumGroups => {
            id_count(1, 6, dimension)
        }
        Builtin::WorkDim
        | Builtin::GlobalOffset
        | Builtin::Min
        | Builtin::Max
        | Builtin::Clamp
        | Builtin::Abs
        | Builtin::MulHi => 1,
    };
    place + count
}

/// The place behind a trap and the way round it.
fn check_end(uniform: bool, place: u32) -> u32
    requires { check_end_of uniform place < 2 ^ 32 }
    ensures { result ≡ check_end_of uniform place }
{
    past(uniform, past(uniform, place) + 2)
}

/// The places of a branch.
#[derive(Clone, Copy, Debug, PartialEq, Eq)]
pub struct IfPlaces {
    /// Where the operations begin that run where the test is not 0.
    pub one: u32,
    /// Where those begin that run where it is 0.
    pub other: u32,
    /// Where both ways meet.
    pub meet: u32,
}

/// The places of a loop.
#[derive(Clone, Copy, Debug, PartialEq, Eq)]
pub struct LoopPlaces {
    /// Where its step begins.
    pub step: u32,
    /// Where its head begins.
    pub head: u32,
    /// Where its body begins.
    pub body: u32,
    /// The place behind it.
    pub end: u32,
}

/// The place behind operations that begin at a place.
#[cycle(ends)]
pub fn ops_end(marks: &Marks, ops: &[Op], place: u32) -> u32
    requires fits { ops_end_of (marked marks.now) (ops_of ops.now) place < 2 ^ 32 }
    ensures { result ≡ ops_end_of (marked marks.now) (ops_of ops.now) place }
{
    let mut end = place;
    for k in 0..ops.len() {
        end = op_end(marks, &ops[k], end);
    }
    end
}

/// The place behind an operation that begins at a place.
#[cycle(ends)]
pub fn op_end(marks: &Marks, op: &Op, place: u32) -> u32
    requires fits { op_end_of (marked marks.now) (op_of op.now) place < 2 ^ 32 }
    ensures { result ≡ op_end_of (marked marks.now) (op_of op.now) place }
{
    match op {
        Op::Set { .. } | Op::Calculate { .. } | Op::Fit { .. } | Op::Barrier { .. } => place + 1,
        Op::Id {
            which,
            dimension,
            ..
        } => id_end(*which, *dimension, place),
        Op::Load { .. } | Op::Store { .. } => place + 4,
        Op::Check { index, .. } => check_end(marks.is_same(*index), place + 2),
        Op::If { test, yes, no } => {
            let uniform = marks.is_same(*test);
            let places = if_places(marks, uniform, yes.as_slice(), no.as_slice(), place);
            past(uniform, places.meet)
        }
        Op::Loop {
            head,
            test,
            body,
            step,
        } => {
            let uniform = marks.is_same(*test);
            loop_places(
                marks,
                uniform,
                head.as_slice(),
                body.as_slice(),
                step.as_slice(),
                place,
            )
            .end
        }
        Op::Break | Op::Continue | Op::Return | Op::Call { .. } => place,
    }
}

/// The places of a branch that begins at a place.
#[cycle(ends)]
pub fn if_places(marks: &Marks, uniform: bool, yes: &[Op], no: &[Op], place: u32) -> IfPlaces
    requires fits { if_end uniform (part_of marks.now yes.now) (part_of marks.now no.now) place
        < 2 ^ 32 }
    ensures one { result.one ≡ one_place uniform place }
    ensures other { result.other ≡ other_place uniform (part_of marks.now yes.now) place }
    ensures meet { result.meet
        ≡ meet_place uniform (part_of marks.now yes.now) (part_of marks.now no.now) place }
{
    let one = past(uniform, place) + 1;
    let other = ops_end(marks, yes, one) + 1;
    let meet = ops_end(marks, no, other);
    IfPlaces { one, other, meet }
}

/// The places of a loop that begins at a place.
#[cycle(ends)]
pub fn loop_places(
    marks: &Marks,
    uniform: bool,
    head: &[Op],
    body: &[Op],
    step: &[Op],
    place: u32,
) -> LoopPlaces
    requires fits { loop_end uniform (part_of marks.now step.now) (part_of marks.now head.now)
        (part_of marks.now body.now) place < 2 ^ 32 }
    ensures step { result.step ≡ step_place uniform place }
    ensures head { result.head ≡ head_place uniform (part_of marks.now step.now) place }
    ensures body { result.body
        ≡ body_place uniform (part_of marks.now step.now) (part_of marks.now head.now) place }
    ensures end { result.end ≡ loop_end uniform (part_of marks.now step.now)
        (part_of marks.now head.now) (part_of marks.now body.now) place }
{
    let first = past(uniform, place + 1) + 1;
    let second = ops_end(marks, step, first);
    let third = past(uniform, ops_end(marks, head, second)) + 1;
    let end = ops_end(marks, body, third) + 1;
    LoopPlaces {
        step: first,
        head: second,
        body: third,
        end,
    }
}

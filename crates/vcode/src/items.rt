//! Runs of a lane alone.
ghost use Rattle.std.specs.Prelude.{◌≡◌, IfOk};
ghost use Rattle.vcode.specs.Machine.{lane_asks};
ghost use Rattle.vcode.specs.Shapes.{vops_of};

use crate::lanes::{Lane, Surroundings, Target};
use crate::ops::{VCode, VOp};
use item_acts::Asked;
use std::alloc::{AllocError, Global};
use step_machine::{Found, SmallSteps, run};
use vx_base::Memory;

/// The operations of a kernel, and what stands around a lane.
#[derive(Drop)]
struct Placed<'a, A> {
    /// The operations.
    code: &'a [VOp],
    /// What stands around the lane.
    at: &'a A,
}

impl<'a, A: Surroundings + Drop> SmallSteps for Placed<'a, A> {
    ghost use Rattle.vcode.specs.Machine.{Lane as AnyLane, step as step_of_lane};
    ghost use Rattle.vcode.specs.Rising.{step_rises};
    ghost use Rattle.vcode.specs.Shapes.{vops_of};
    ghost use Rattle.vcode.specs.Views.{lane_of, told_value};

    type State = Lane<'a>;

    type Kept = Option<Target>;

    ghost Standing = { AnyLane };

    ghost state_of = { lane_of };

    ghost step_of = { λ placed. step_of_lane (A.around placed.at.now) (vops_of placed.code.now) };

    ghost told = { told_value };

    ghost turns_of = { λ s. s.turns };

    fn step(
        &self,
        alloc: Global,
        state: &mut Lane<'a>,
    ) -> Result<Found<Option<Target>>, AllocError> {
        state.step(alloc, self.at, self.code)
    }

    fn take_answer(
        &self,
        state: &mut Lane<'a>,
        kept: Option<Target>,
        answer: u32,
    ) -> Result<(), AllocError> {
        state.take_answer(kept, answer)
    }

    ghost rises = { λ placed. step_rises (A.around placed.at.now) (vops_of placed.code.now) };
}

/// What a lane alone asks for once it has taken these answers, if at most `fuel` small steps from its start lead there. The numbers are
/// what the control registers of the core and of the mask answer it, in order.
pub fn vcode_next<A: Surroundings + Drop>(
    alloc: Global,
    code: &VCode,
    at: &A,
    numbers: &[u32],
    answers: &[u32],
    fuel: u64,
) -> Result<Asked, Memory>
    ensures { IfOk result (λ asked.
        asked ≡ lane_asks (A.around at.now) (vops_of code.now.ops.items) numbers.now answers.now
        fuel) }
{
    match asked(alloc, code.ops.as_slice(), at, numbers, answers, fuel) {
        Ok(asked) => Ok(asked),
        Err(_) => Err(Memory),
    }
}

/// The same, from the operations as a slice.
fn asked<A: Surroundings + Drop>(
    alloc: Global,
    code: &[VOp],
    at: &A,
    numbers: &[u32],
    answers: &[u32],
    fuel: u64,
) -> Result<Asked, AllocError>
    ensures { IfOk result (λ asked.
        asked ≡ lane_asks (A.around at.now) (vops_of code.now) numbers.now answers.now fuel) }
{
    let mut lane = Lane::start(alloc, numbers);
    run(alloc, &Placed { code, at }, &mut lane, answers, fuel)
}

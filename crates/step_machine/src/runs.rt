//! Runs of a machine: from a state, after some answers, for some small steps.
ghost use Rattle.std.specs.Prelude.{◌≡◌, ◌-◌, ◌^◌, [], IfOk};
ghost use Rattle.item_acts.specs.Machine.{asked as asked_of, asked_at_once};
ghost use Rattle.step_machine.specs.Steps.{Advances, without_answers};
ghost use Rattle.step_machine.specs.Turns.{EachBelow};

use crate::steps::{Found, SmallSteps};
use item_acts::{Action, Asked};
use std::alloc::{AllocError, Global};

/// What has come of a step: the answers that are left, or what is asked for.
#[derive(Drop)]
pub enum Progress<'b> {
    /// The machine goes on, with these answers.
    GoesOn(&'b [u32]),
    /// This is asked for.
    Reached(Asked),
}

/// What is asked for after these answers, if at most `fuel` small steps lead there from a state that is in no loop.
pub fn run<M: SmallSteps>(
    alloc: Global,
    machine: &M,
    state: &mut M::State,
    answers: &[u32],
    fuel: u64,
) -> Result<Asked, AllocError>
    requires fresh { M.turns_of (M.state_of state.now) ≡ [] }
    ensures { IfOk result (λ asked. asked ≡ asked_of (M.step_of machine.now) fuel (M.state_of state.old) answers.now) }
{
    let mut rest = answers;
    for _ in 0..fuel {
        match advance(alloc, machine, state, rest) {
            Ok(Progress::GoesOn(more)) => rest = more,
            Ok(Progress::Reached(asked)) => return Ok(asked),
            Err(fault) => return Err(fault),
        }
    }
    at_once(alloc, machine, state, rest)
}

/// One small step, and an answer where it asks for one.
fn advance<'b, M: SmallSteps>(
    alloc: Global,
    machine: &M,
    state: &mut M::State,
    answers: &'b [u32],
) -> Result<Progress<'b>, AllocError>
    requires below { EachBelow (2 ^ 64 - 1) (M.turns_of (M.state_of state.now)) }
    ensures { IfOk result (λ progress. Advances (M.step_of machine.now) M.turns_of (M.state_of state.old) answers.now (M.state_of state.new) progress) }
{
    match machine.step(alloc, state)? {
        Found::Moved => Ok(Progress::GoesOn(answers)),
        Found::Asks(action, kept) => match answers {
            [] => Ok(Progress::Reached(Asked::Act(action))),
            [answer, more @ ..] => {
                machine.take_answer(state, kept, *answer)?;
                Ok(Progress::GoesOn(more))
            }
        },
        Found::Stops(action) => Ok(Progress::Reached(stopped(action, answers))),
    }
}

/// What is asked for after these answers without another small step.
fn at_once<M: SmallSteps>(
    alloc: Global,
    machine: &M,
    state: &mut M::State,
    answers: &[u32],
) -> Result<Asked, AllocError>
    requires below { EachBelow (2 ^ 64 - 1) (M.turns_of (M.state_of state.now)) }
    ensures { IfOk result (λ asked. asked ≡ asked_at_once (M.step_of machine.now (M.state_of state.old)) answers.now) }
{
    match machine.step(alloc, state)? {
        Found::Moved => Ok(Asked::Running),
        Found::Asks(action, _) => Ok(stopped(action, answers)),
        Found::Stops(action) => Ok(stopped(action, answers)),
    }
}

/// An action, where no answer is left.
fn stopped(action: Action, answers: &[u32]) -> Asked
    ensures { result ≡ without_answers action answers.now }
{
    match answers {
        [] => Asked::Act(action),
        [_, ..] => Asked::Running,
    }
}

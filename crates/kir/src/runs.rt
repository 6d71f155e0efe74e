//! A kernel in a launch, as a machine of small steps.
ghost use Rattle.std.specs.Prelude.{◌≡◌, [], IfOk, OnOk};
ghost use Rattle.item_acts.specs.Machine.{asked as asked_of};
ghost use Rattle.item_settings.specs.Views.{setting_in};
ghost use Rattle.kir.specs.Machine.{step as step_of_item};
ghost use Rattle.kir.specs.Views.{state_of, told_value};

use crate::ops::Kir;
use crate::states::{State, Target};
use item_acts::Asked;
use item_settings::Setting;
use std::alloc::{AllocError, Global};
use step_machine::{Found, SmallSteps, run};
use vx_base::fit;

/// A kernel, and what a work-item knows of its launch.
#[derive(Drop)]
struct Launched<'a, 'r, 's> {
    /// The kernel.
    code: &'a Kir,
    /// What the item knows.
    at: &'r Setting<'s>,
}

impl<'a, 'r, 's> SmallSteps for Launched<'a, 'r, 's> {
    ghost use Rattle.item_settings.specs.Views.{setting_in};
    ghost use Rattle.kir.specs.Machine.{State as AnyState, step as step_of_item};
    ghost use Rattle.kir.specs.Rising.{step_rises};
    ghost use Rattle.kir.specs.Views.{state_of as standing, told_value};

    type State = State<'a>;

    type Kept = Option<Target>;

    ghost Standing = { AnyState };

    ghost state_of = { standing };

    ghost step_of = { λ launched. step_of_item (setting_in launched.at.now) };

    ghost told = { told_value };

    ghost turns_of = { λ s. s.turns };

    fn step(
        &self,
        alloc: Global,
        state: &mut State<'a>,
    ) -> Result<Found<Option<Target>>, AllocError> {
        state.step(alloc, self.at)
    }

    fn take_answer(
        &self,
        state: &mut State<'a>,
        kept: Option<Target>,
        answer: u32,
    ) -> Result<(), AllocError> {
        state.take_answer(kept, answer)
    }

    ghost rises = { λ launched. step_rises (setting_in launched.at.now) };
}

impl<'a> State<'a> {
    /// Takes an answer: the value of a variable, or nothing.
    fn take_answer(&mut self, kept: Option<Target>, answer: u32) -> Result<(), AllocError>
        ensures { OnOk result (state_of self.new ≡ told_value kept answer (state_of self.old)) }
    {
        match kept {
            Some(target) => self
                .variables
                .put(target.variable, fit(target.elem, answer)),
            None => Ok(()),
        }
    }

    /// What is asked for after these answers, if at most so many small steps lead there from a state that is in no loop.
    pub fn run(
        &mut self,
        alloc: Global,
        code: &'a Kir,
        at: &Setting<'_>,
        answers: &[u32],
        fuel: u64,
    ) -> Result<Asked, AllocError>
        requires fresh { self.now.turns ≡ [] }
        ensures { IfOk result (λ asked. asked ≡ asked_of (step_of_item (setting_in at.now)) fuel (state_of self.old) answers.now) }
    {
        run(alloc, &Launched { code, at }, self, answers, fuel)
    }
}

//! A form of program in a launch, as a machine of small steps.
ghost use Rattle.std.specs.Prelude.{◌≡◌, [], IfOk, OnOk};
ghost use Rattle.item_acts.specs.Machine.{asked as asked_of};
ghost use Rattle.item_settings.specs.Views.{HasRoom, setting_in};
ghost use Rattle.task_machine.specs.Tasks.{step as step_of_item};
ghost use Rattle.task_machine.specs.Views.{plain, state_of, told_value};

use crate::forms::Form;
use crate::states::State;
use item_acts::Asked;
use item_settings::Setting;
use std::alloc::{AllocError, Global};
use step_machine::{Found, SmallSteps, run};
use vx_base::{Elem, fit};

/// A form of program, and what a work-item knows of its launch.
#[derive(Drop)]
struct Launched<'r, 's, F: Form> {
    /// The form.
    form: &'r F,
    /// What the item knows.
    at: &'r Setting<'s>,
    ghost room: { HasRoom (setting_in at.now) },
}

impl<'r, 's, F: Form> SmallSteps for Launched<'r, 's, F> {
    ghost use Rattle.item_settings.specs.Views.{setting_in};
    ghost use Rattle.task_machine.specs.Rising.{step_rises};
    ghost use Rattle.task_machine.specs.Tasks.{State as AnyState, step as step_of_item};
    ghost use Rattle.task_machine.specs.Views.{state_of as standing, told_value};

    type State = State<F::Expr, F::Stmt>;

    type Kept = Option<Elem>;

    ghost Standing = { AnyState F.Value F.Body };

    ghost state_of = { standing F.expr_of F.stmt_of };

    ghost step_of = { λ launched. step_of_item (F.parts launched.form.now) (setting_in launched.at.now) };

    ghost told = { told_value };

    ghost turns_of = { λ s. s.turns };

    fn step(
        &self,
        alloc: Global,
        state: &mut State<F::Expr, F::Stmt>,
    ) -> Result<Found<Option<Elem>>, AllocError> {
        state.step(alloc, self.form, self.at)
    }

    #[tactic(auto, using(crate::proofs::Viewed::told_so))]
    fn take_answer(
        &self,
        state: &mut State<F::Expr, F::Stmt>,
        kept: Option<Elem>,
        answer: u32,
    ) -> Result<(), AllocError> {
        state.take_answer(kept, answer)
    }

    ghost rises = { λ launched. step_rises (F.parts launched.form.now) (setting_in launched.at.now) };
}

impl<V: Drop, T: Drop> State<V, T> {
    /// Takes an answer: a value of this type, or nothing.
    fn take_answer(&mut self, kept: Option<Elem>, answer: u32) -> Result<(), AllocError>
        ensures { OnOk result (plain self.new ≡ told_value kept answer (plain self.old)) }
    {
        match kept {
            Some(elem) => self.values.push(fit(elem, answer)),
            None => Ok(()),
        }
    }

    /// What is asked for after these answers, if at most `fuel` small steps lead there from a state that is in no loop.
    pub fn run<F: Form<Expr = V, Stmt = T>>(
        &mut self,
        alloc: Global,
        form: &F,
        at: &Setting<'_>,
        answers: &[u32],
        fuel: u64,
    ) -> Result<Asked, AllocError>
        requires room { HasRoom (setting_in at.now) }
        requires fresh { self.now.turns ≡ [] }
        ensures { IfOk result (λ asked. asked ≡ asked_of (step_of_item (F.parts form.now) (setting_in at.now)) fuel (state_of F.expr_of F.stmt_of self.old) answers.now) }
    {
        run(alloc, &Launched { form, at }, self, answers, fuel)
    }
}

//! The small steps of a work-item.
ghost use Rattle.std.specs.Prelude.{◌≡◌, ◌-◌, ◌^◌, IfOk};
ghost use Rattle.item_settings.specs.Views.{HasRoom, setting_in};
ghost use Rattle.step_machine.specs.Steps.{shown};
ghost use Rattle.step_machine.specs.Turns.{EachBelow};
ghost use Rattle.task_machine.specs.Tasks.{step as step_of_item, task_step};
ghost use Rattle.task_machine.specs.Views.{state_of, task_by, told_value};

use crate::accesses::{load, store};
use crate::forms::Form;
use crate::states::State;
use crate::tasks::Task;
use crate::values::take;
use item_acts::{Action, Point};
use item_settings::Setting;
use std::alloc::{AllocError, Global};
use step_machine::Found;
use vx_base::Elem;

impl<V: Drop, T: Drop> State<V, T> {
    /// One small step: what it found, and the state behind it.
    pub fn step<F: Form<Expr = V, Stmt = T>>(
        &mut self,
        alloc: Global,
        form: &F,
        at: &Setting<'_>,
    ) -> Result<Found<Option<Elem>>, AllocError>
        requires room { HasRoom (setting_in at.now) }
        requires below { EachBelow (2 ^ 64 - 1) self.now.turns }
        ensures { IfOk result (λ found. step_of_item (F.parts form.now) (setting_in at.now) (state_of F.expr_of F.stmt_of self.old) ≡ shown told_value found (state_of F.expr_of F.stmt_of self.new)) }
    {
        match self.tasks.pop() {
            Some(task) => self.perform(alloc, form, at, task),
            None => Ok(Found::Stops(Action::End)),
        }
    }

    /// A task, behind which the state's tasks are left to do.
    fn perform<F: Form<Expr = V, Stmt = T>>(
        &mut self,
        alloc: Global,
        form: &F,
        at: &Setting<'_>,
        task: Task<V, T>,
    ) -> Result<Found<Option<Elem>>, AllocError>
        requires room { HasRoom (setting_in at.now) }
        requires below { EachBelow (2 ^ 64 - 1) self.now.turns }
        ensures { IfOk result (λ found. task_step (F.parts form.now) (setting_in at.now) (task_by F.expr_of F.stmt_of task) (state_of F.expr_of F.stmt_of self.old) ≡ shown told_value found (state_of F.expr_of F.stmt_of self.new)) }
    {
        match task {
            Task::Load { array, pos } => {
                let i = take(&mut self.values);
                Ok(load(at, array, i, pos))
            }
            Task::Reread { array, pos } => {
                let i = take(&mut self.values);
                self.values.push(i)?;
                Ok(load(at, array, i, pos))
            }
            Task::Store { array, pos } => {
                let value = take(&mut self.values);
                let i = take(&mut self.values);
                Ok(store(at, array, i, value, pos))
            }
            Task::Wait(site) => {
                let turns = self.turns.to_list(alloc)?;
                Ok(Found::Asks(Action::Barrier(Point { site, turns }), None))
            }
            Task::Number(_) | Task::Variable(_) | Task::Unary(_) | Task::Binary { .. } => {
                self.compute(at, &task)?;
                Ok(Found::Moved)
            }
            Task::Fit(_) | Task::Call { .. } | Task::Truth => {
                self.compute(at, &task)?;
                Ok(Found::Moved)
            }
            Task::Clear(_) | Task::Assign { .. } | Task::Discard => {
                self.assign(&task)?;
                Ok(Found::Moved)
            }
            Task::AndThen(_) | Task::OrElse(_) | Task::Choose { .. } | Task::Branch { .. } => {
                self.choose(form, task)?;
                Ok(Found::Moved)
            }
            Task::Enter(_) | Task::EnterTurn(_) => {
                self.turn_loop(form, task)?;
                Ok(Found::Moved)
            }
            Task::Decide(_) | Task::Begin(_) | Task::Again(_) => {
                self.turn_loop(form, task)?;
                Ok(Found::Moved)
            }
            Task::Invoke(_) | Task::CallEnd | Task::Break | Task::Continue | Task::Return => {
                self.jump(form, task)?;
                Ok(Found::Moved)
            }
        }
    }
}

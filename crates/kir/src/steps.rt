//! The small steps of a work-item.
ghost use Rattle.std.specs.Prelude.{◌≡◌, ◌-◌, ◌^◌, IfOk};
ghost use Rattle.item_settings.specs.Views.{setting_in};
ghost use Rattle.kir.specs.Machine.{op_step, step as step_of_item, task_step};
ghost use Rattle.kir.specs.Shapes.{op_of};
ghost use Rattle.kir.specs.Views.{state_of, task_of, tasks_of, told_value, variables_of};
ghost use Rattle.step_machine.specs.Steps.{shown};
ghost use Rattle.step_machine.specs.Turns.{EachBelow};

use crate::ops::Op;
use crate::states::{State, Target};
use crate::tasks::Task;
use item_acts::{Action, Point};
use item_settings::Setting;
use std::alloc::{AllocError, Global};
use step_machine::Found;

impl<'a> State<'a> {
    /// One small step: what it found, and the state behind it.
    pub fn step(
        &mut self,
        alloc: Global,
        at: &Setting<'_>,
    ) -> Result<Found<Option<Target>>, AllocError>
        requires below { EachBelow (2 ^ 64 - 1) self.now.turns }
        ensures { IfOk result (λ found. step_of_item (setting_in at.now) (state_of self.old) ≡ shown told_value found (state_of self.new)) }
    {
        match self.tasks.pop() {
            Some(task) => self.perform(alloc, at, task),
            None => Ok(Found::Stops(Action::End)),
        }
    }

    /// A task.
    fn perform(
        &mut self,
        alloc: Global,
        at: &Setting<'_>,
        task: Task<'a>,
    ) -> Result<Found<Option<Target>>, AllocError>
        requires below { EachBelow (2 ^ 64 - 1) self.now.turns }
        ensures { IfOk result (λ found. task_step (setting_in at.now) (task_of task.entry) (tasks_of self.old.tasks) (variables_of self.old) self.old.turns ≡ shown told_value found (state_of self.new)) }
    {
        match task {
            Task::Do(op) => self.operate(alloc, at, op),
            Task::Decide(turning) => {
                self.decide(turning)?;
                Ok(Found::Moved)
            }
            Task::Again(turning) => {
                self.again(turning)?;
                Ok(Found::Moved)
            }
            Task::CallEnd => Ok(Found::Moved),
        }
    }

    /// An operation.
    fn operate(
        &mut self,
        alloc: Global,
        at: &Setting<'_>,
        op: &'a Op,
    ) -> Result<Found<Option<Target>>, AllocError>
        ensures { IfOk result (λ found. op_step (setting_in at.now) (op_of op.now) (tasks_of self.old.tasks) (variables_of self.old) self.old.turns ≡ shown told_value found (state_of self.new)) }
    {
        match op {
            Op::Set { .. } | Op::Calculate { .. } | Op::Fit { .. } | Op::Id { .. } => {
                self.compute(at, op)?;
                Ok(Found::Moved)
            }
            Op::If { .. } | Op::Loop { .. } | Op::Call { .. } => {
                self.open(op)?;
                Ok(Found::Moved)
            }
            Op::Break | Op::Continue | Op::Return => {
                self.jump(op)?;
                Ok(Found::Moved)
            }
            Op::Load { .. } | Op::Store { .. } | Op::Check { .. } => Ok(self.access(at, op)),
            Op::Barrier { site } => {
                let turns = self.turns.to_list(alloc)?;
                Ok(Found::Asks(Action::Barrier(Point { site: *site, turns }), None))
            }
        }
    }
}

//! Jumps.
ghost use Rattle.std.specs.Prelude.{◌≡◌, ◌∷◌, List, OnOk, true, false};
ghost use Rattle.kir.specs.Machine.{Task as AnyTask, broken, continued};
ghost use Rattle.kir.specs.Shapes.{op_of};
ghost use Rattle.kir.specs.Views.{ReturnsAt, ReturnsTo, jumped, state_of, task_of, tasks_of, variables_of};

use crate::ops::Op;
use crate::states::State;
use crate::tasks::{Task, Tasks, find_marker};
use std::alloc::AllocError;
use step_machine::{Turns, leave_turns};

/// Leaves a task on the way of a `Return`, with the loop that it is of; true where the task is the end of a call.
fn ends_call(task: Task<'_>, turns: &mut Turns) -> bool
    ensures end { result ≡ true → (before : List AnyTask) → ReturnsAt (task_of task.entry ∷ before) turns.old before turns.new }
    ensures other { result ≡ false → (before : List AnyTask) → ReturnsTo (task_of task.entry ∷ before) turns.old before turns.new }
{
    match task {
        Task::Do(_) => false,
        Task::Decide(_) | Task::Again(_) => {
            leave_turns(turns);
            false
        }
        Task::CallEnd => true,
    }
}

/// Takes the tasks of the innermost call, or all tasks outside every call, and leaves the loops of which they are.
fn leave_call(tasks: &mut Tasks<'_>, turns: &mut Turns)
    ensures { ReturnsAt (tasks_of tasks.old) turns.old (tasks_of tasks.new) turns.new }
{
    while let Some(task) = tasks.pop() {
        if ends_call(task, turns) {
            return;
        }
    }
}

impl<'a> State<'a> {
    /// A jump.
    pub fn jump(&mut self, op: &Op) -> Result<(), AllocError>
        ensures { OnOk result (state_of self.new ≡ jumped (op_of op.now) (tasks_of self.old.tasks) (variables_of self.old) self.old.turns) }
    {
        match op {
            Op::Break => {
                self.leave_loop();
                Ok(())
            }
            Op::Continue => self.end_turn(),
            Op::Return => {
                leave_call(&mut self.tasks, &mut self.turns);
                Ok(())
            }
            Op::Set { .. } | Op::Calculate { .. } | Op::Fit { .. } | Op::Id { .. } => Ok(()),
            Op::Load { .. } | Op::Store { .. } | Op::Check { .. } | Op::Barrier { .. } => Ok(()),
            Op::If { .. } | Op::Loop { .. } | Op::Call { .. } => Ok(()),
        }
    }

    /// `break`
    fn leave_loop(&mut self)
        ensures { state_of self.new ≡ broken (tasks_of self.old.tasks) (variables_of self.old) self.old.turns }
    {
        match find_marker(&mut self.tasks) {
            Some(Task::Decide(_) | Task::Again(_)) => leave_turns(&mut self.turns),
            Some(Task::CallEnd | Task::Do(_)) => {}
            None => {}
        }
    }

    /// `continue`
    fn end_turn(&mut self) -> Result<(), AllocError>
        ensures { OnOk result (state_of self.new ≡ continued (tasks_of self.old.tasks) (variables_of self.old) self.old.turns) }
    {
        match find_marker(&mut self.tasks) {
            Some(Task::Again(turning)) => self.tasks.push(Task::Again(turning)),
            Some(Task::Decide(_)) => {
                leave_turns(&mut self.turns);
                Ok(())
            }
            Some(Task::CallEnd | Task::Do(_)) => Ok(()),
            None => Ok(()),
        }
    }
}

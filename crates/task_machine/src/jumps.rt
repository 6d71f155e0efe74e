//! Calls and jumps.
ghost use Rattle.std.specs.Prelude.{◌≡◌, ◌≢◌, ◌∷◌, [], MatchOption, OnOk};
ghost use Rattle.task_machine.specs.Tasks as machine;
ghost use Rattle.task_machine.specs.Tasks.{marker_of};
ghost use Rattle.task_machine.specs.Views.{ReturnsAt, SkipsTo, jumped, plain, state_of, task_by};

use crate::forms::Form;
use crate::states::State;
use crate::tasks::{Marker, Task, Tasks};
use std::alloc::AllocError;
use step_machine::{Turns, leave_turns};

/// What a helper gives that comes to its end without `return`.
const GIVEN_AT_END: u32 = 0;

/// Takes the tasks down to the innermost loop or call, and gives its task, where there is one.
fn find_marker<V: Drop, T: Drop>(tasks: &mut Tasks<V, T>) -> Option<Task<V, T>>
    ensures { MatchOption result ((tasks.new ≡ []) × SkipsTo tasks.old []) (λ found. (marker_of found ≢ Marker.Plain) × SkipsTo tasks.old (found ∷ tasks.new)) }
{
    while let Some(task) = tasks.pop() {
        match task.marker() {
            Marker::Plain => {}
            Marker::TurnEnd | Marker::TurnStart | Marker::BodyEnd => return Some(task),
        }
    }
    None
}

/// Takes the tasks of the innermost call, or all tasks outside every call, and leaves the loops of which they are.
fn leave_call<V: Drop, T: Drop>(tasks: &mut Tasks<V, T>, turns: &mut Turns)
    ensures { ReturnsAt tasks.old turns.old tasks.new turns.new }
{
    while let Some(task) = tasks.pop() {
        match task.marker() {
            Marker::Plain => {}
            Marker::TurnEnd | Marker::TurnStart => leave_turns(turns),
            Marker::BodyEnd => return,
        }
    }
}

impl<V: Drop, T: Drop> State<V, T> {
    /// A call, its end, or a jump.
    pub fn jump<F: Form<Expr = V, Stmt = T>>(
        &mut self,
        form: &F,
        task: Task<V, T>,
    ) -> Result<(), AllocError>
        ensures { OnOk result (state_of F.expr_of F.stmt_of self.new ≡ jumped (F.parts form.now) (task_by F.expr_of F.stmt_of task) (state_of F.expr_of F.stmt_of self.old)) }
    {
        match task {
            Task::Invoke(body) => {
                self.tasks.push(Task::CallEnd)?;
                form.push_body(&mut self.tasks, body)
            }
            Task::CallEnd => self.values.push(GIVEN_AT_END),
            Task::Break => self.leave_loop(),
            Task::Continue => self.end_turn(),
            Task::Return => {
                leave_call(&mut self.tasks, &mut self.turns);
                Ok(())
            }
            Task::Number(_) | Task::Variable(_) | Task::Unary(_) | Task::Binary { .. } => Ok(()),
            Task::Fit(_) | Task::Call { .. } | Task::Truth => Ok(()),
            Task::Clear(_) | Task::Assign { .. } | Task::Discard => Ok(()),
            Task::Load { .. } | Task::Reread { .. } | Task::Store { .. } | Task::Wait(_) => Ok(()),
            Task::AndThen(_) | Task::OrElse(_) | Task::Choose { .. } | Task::Branch { .. } => Ok(
                (),
            ),
            Task::Enter(_) | Task::EnterTurn(_) => Ok(()),
            Task::Decide(_) | Task::Begin(_) | Task::Again(_) => Ok(()),
        }
    }

    /// `break`. Outside every loop of a call it is a `return` of 0.
    fn leave_loop(&mut self) -> Result<(), AllocError>
        ensures { OnOk result (plain self.new ≡ machine.left self.old.tasks (plain self.old)) }
    {
        let Some(task) = find_marker(&mut self.tasks) else {
            return Ok(());
        };
        match task.marker() {
            Marker::TurnEnd | Marker::TurnStart => {
                leave_turns(&mut self.turns);
                Ok(())
            }
            Marker::BodyEnd => self.values.push(0),
            Marker::Plain => Ok(()),
        }
    }

    /// `continue`. Outside every loop of a call it is a `return` of 0.
    fn end_turn(&mut self) -> Result<(), AllocError>
        ensures { OnOk result (plain self.new ≡ machine.continued self.old.tasks (plain self.old)) }
    {
        let Some(task) = find_marker(&mut self.tasks) else {
            return Ok(());
        };
        match task.marker() {
            Marker::TurnEnd => self.tasks.push(task),
            Marker::TurnStart => {
                leave_turns(&mut self.turns);
                Ok(())
            }
            Marker::BodyEnd => self.values.push(0),
            Marker::Plain => Ok(()),
        }
    }
}

//! Loops and their turns.
ghost use Rattle.std.specs.Prelude.{◌≡◌, ◌-◌, ◌^◌, OnOk, option_map};
ghost use Rattle.step_machine.specs.Turns.{EachBelow};
ghost use Rattle.task_machine.specs.Tasks.{headed, turned};
ghost use Rattle.task_machine.specs.Views.{decided, loop_by, looped, state_of, task_by, tasks_by};

use crate::forms::Form;
use crate::states::State;
use crate::tasks::{Task, Tasks};
use crate::turnings::Loop;
use crate::values::take;
use std::alloc::AllocError;
use step_machine::{enter_turns, leave_turns, raise};

/// A turn of a loop.
fn push_turn<F: Form>(
    form: &F,
    tasks: &mut Tasks<F::Expr, F::Stmt>,
    turning: Loop<F::Expr, F::Stmt>,
) -> Result<(), AllocError>
    ensures { OnOk result (tasks_by F.expr_of F.stmt_of tasks.new ≡ turned (F.parts form.now) (loop_by F.expr_of F.stmt_of turning) (tasks_by F.expr_of F.stmt_of tasks.old)) }
{
    let body = form.copy_stmt(turning.body())?;
    tasks.push(Task::Again(turning))?;
    form.push_body(tasks, body)
}

/// A loop from its test on.
fn push_head<F: Form>(
    form: &F,
    tasks: &mut Tasks<F::Expr, F::Stmt>,
    turning: Loop<F::Expr, F::Stmt>,
) -> Result<(), AllocError>
    ensures { OnOk result (tasks_by F.expr_of F.stmt_of tasks.new ≡ headed (F.parts form.now) (loop_by F.expr_of F.stmt_of turning) (option_map F.expr_of turning.test) (tasks_by F.expr_of F.stmt_of tasks.old)) }
{
    match turning.test() {
        Some(test) => {
            let test = form.copy_expr(test)?;
            tasks.push(Task::Decide(turning))?;
            form.push_value(tasks, test)
        }
        None => tasks.push(Task::Begin(turning)),
    }
}

impl<V: Drop, T: Drop> State<V, T> {
    /// A task of a loop.
    pub fn turn_loop<F: Form<Expr = V, Stmt = T>>(
        &mut self,
        form: &F,
        task: Task<V, T>,
    ) -> Result<(), AllocError>
        requires below { EachBelow (2 ^ 64 - 1) self.now.turns }
        ensures { OnOk result (state_of F.expr_of F.stmt_of self.new ≡ looped (F.parts form.now) (task_by F.expr_of F.stmt_of task) (state_of F.expr_of F.stmt_of self.old)) }
    {
        match task {
            Task::Enter(turning) => {
                enter_turns(&mut self.turns)?;
                push_head(form, &mut self.tasks, turning)
            }
            Task::EnterTurn(turning) => {
                enter_turns(&mut self.turns)?;
                self.tasks.push(Task::Begin(turning))
            }
            Task::Decide(turning) => self.decide(form, turning),
            Task::Begin(turning) => push_turn(form, &mut self.tasks, turning),
            Task::Again(turning) => {
                raise(&mut self.turns)?;
                let step = form.copy_stmt(turning.step())?;
                push_head(form, &mut self.tasks, turning)?;
                form.push_body(&mut self.tasks, step)
            }
            Task::Number(_) | Task::Variable(_) | Task::Unary(_) | Task::Binary { .. } => Ok(()),
            Task::Fit(_) | Task::Call { .. } | Task::Truth => Ok(()),
            Task::Clear(_) | Task::Assign { .. } | Task::Discard => Ok(()),
            Task::Load { .. } | Task::Reread { .. } | Task::Store { .. } | Task::Wait(_) => Ok(()),
            Task::AndThen(_) | Task::OrElse(_) | Task::Choose { .. } | Task::Branch { .. } => Ok(
                (),
            ),
            Task::Invoke(_) | Task::CallEnd => Ok(()),
            Task::Break | Task::Continue | Task::Return => Ok(()),
        }
    }

    /// A turn begins where the value on top is not 0.
    fn decide<F: Form<Expr = V, Stmt = T>>(
        &mut self,
        form: &F,
        turning: Loop<V, T>,
    ) -> Result<(), AllocError>
        ensures { OnOk result (state_of F.expr_of F.stmt_of self.new ≡ decided (F.parts form.now) (loop_by F.expr_of F.stmt_of turning) (state_of F.expr_of F.stmt_of self.old)) }
    {
        if take(&mut self.values) == 0 {
            leave_turns(&mut self.turns);
            return Ok(());
        }
        push_turn(form, &mut self.tasks, turning)
    }
}

//! Parts that run by a value.
ghost use Rattle.std.specs.Prelude.{◌≡◌, OnOk};
ghost use Rattle.step_machine.specs.Stacks.{top, under};
ghost use Rattle.task_machine.specs.Tasks.{holding, onward};
ghost use Rattle.task_machine.specs.Views.{chosen, state_of, task_by};

use crate::forms::Form;
use crate::states::State;
use crate::tasks::Task;
use crate::values::take;
use std::alloc::AllocError;

impl<V: Drop, T: Drop> State<V, T> {
    /// A choice by the value on top.
    pub fn choose<F: Form<Expr = V, Stmt = T>>(
        &mut self,
        form: &F,
        task: Task<V, T>,
    ) -> Result<(), AllocError>
        ensures { OnOk result (state_of F.expr_of F.stmt_of self.new ≡ chosen (F.parts form.now) (task_by F.expr_of F.stmt_of task) (state_of F.expr_of F.stmt_of self.old)) }
    {
        match task {
            Task::AndThen(right) => {
                if take(&mut self.values) == 0 {
                    return self.values.push(0);
                }
                self.tasks.push(Task::Truth)?;
                form.push_value(&mut self.tasks, right)
            }
            Task::OrElse(right) => {
                if take(&mut self.values) != 0 {
                    return self.values.push(1);
                }
                self.tasks.push(Task::Truth)?;
                form.push_value(&mut self.tasks, right)
            }
            Task::Choose { one, other } => {
                let part = if take(&mut self.values) == 0 {
                    other
                } else {
                    one
                };
                form.push_value(&mut self.tasks, part)
            }
            Task::Branch { one, other } => {
                let part = if take(&mut self.values) == 0 {
                    other
                } else {
                    Some(one)
                };
                match part {
                    Some(part) => form.push_body(&mut self.tasks, part),
                    None => Ok(()),
                }
            }
            Task::Number(_) | Task::Variable(_) | Task::Unary(_) | Task::Binary { .. } => Ok(()),
            Task::Fit(_) | Task::Call { .. } | Task::Truth => Ok(()),
            Task::Clear(_) | Task::Assign { .. } | Task::Discard => Ok(()),
            Task::Load { .. } | Task::Reread { .. } | Task::Store { .. } | Task::Wait(_) => Ok(()),
            Task::Enter(_) | Task::EnterTurn(_) => Ok(()),
            Task::Decide(_) | Task::Begin(_) | Task::Again(_) => Ok(()),
            Task::Invoke(_) | Task::CallEnd => Ok(()),
            Task::Break | Task::Continue | Task::Return => Ok(()),
        }
    }
}

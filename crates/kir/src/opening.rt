//! Operations that hold others.
ghost use Rattle.std.specs.Prelude.{◌≡◌, ◌∷◌, ◌-◌, ◌^◌, OnOk};
ghost use Rattle.kir.specs.Machine as machine;
ghost use Rattle.kir.specs.Machine.{ops_tasks, state, step_tasks, value as value_of};
ghost use Rattle.kir.specs.Shapes.{op_of, operand_of, ops_of};
ghost use Rattle.kir.specs.Views.{chosen, decided, looped, opened, state_of, tasks_of, turning_of, variables_of};
ghost use Rattle.step_machine.specs.Turns.{EachBelow, risen};

use crate::ops::{Op, Operand};
use crate::states::State;
use crate::tasks::{Task, Turning, push_head, push_ops, push_step, push_turn};
use std::alloc::AllocError;
use step_machine::{enter_turns, leave_turns, raise};

impl<'a> State<'a> {
    /// The operations of a branch, of a loop before its first test, or of a call.
    pub fn open(&mut self, op: &'a Op) -> Result<(), AllocError>
        ensures { OnOk result (state_of self.new ≡ opened (op_of op.now) (tasks_of self.old.tasks) (variables_of self.old) self.old.turns) }
    {
        match op {
            Op::If { test, yes, no } => self.choose(*test, yes.as_slice(), no.as_slice()),
            Op::Loop {
                head,
                test,
                body,
                step,
            } => self.enter(Turning {
                head: head.as_slice(),
                test: *test,
                body: body.as_slice(),
                step: step.as_slice(),
            }),
            Op::Call { body } => self.invoke(body.as_slice()),
            Op::Set { .. } | Op::Calculate { .. } | Op::Fit { .. } | Op::Id { .. } => Ok(()),
            Op::Load { .. } | Op::Store { .. } | Op::Check { .. } | Op::Barrier { .. } => Ok(()),
            Op::Break | Op::Continue | Op::Return => Ok(()),
        }
    }

    /// One of two branches.
    fn choose(&mut self, test: Operand, yes: &'a [Op], no: &'a [Op]) -> Result<(), AllocError>
        ensures { OnOk result (state_of self.new ≡ chosen (value_of (variables_of self.old) (operand_of test)) (ops_of yes.now) (ops_of no.now) (tasks_of self.old.tasks) (variables_of self.old) self.old.turns) }
    {
        if self.value(test) == 0 {
            push_ops(&mut self.tasks, no)
        } else {
            push_ops(&mut self.tasks, yes)
        }
    }

    /// A loop before its first test.
    fn enter(&mut self, turning: Turning<'a>) -> Result<(), AllocError>
        ensures { OnOk result (state_of self.new ≡ looped (turning_of turning.entry) (tasks_of self.old.tasks) (variables_of self.old) self.old.turns) }
    {
        enter_turns(&mut self.turns)?;
        push_head(&mut self.tasks, turning)
    }

    /// The body of a helper.
    fn invoke(&mut self, body: &'a [Op]) -> Result<(), AllocError>
        ensures { OnOk result (state_of self.new ≡ state (ops_tasks (ops_of body.now) (machine.CallEnd ∷ tasks_of self.old.tasks)) (variables_of self.old) self.old.turns) }
    {
        self.tasks.push(Task::CallEnd)?;
        push_ops(&mut self.tasks, body)
    }

    /// A turn of a loop, or what stands behind it, by the test.
    pub fn decide(&mut self, turning: Turning<'a>) -> Result<(), AllocError>
        ensures { OnOk result (state_of self.new ≡ decided (turning_of turning.entry) (tasks_of self.old.tasks) (variables_of self.old) self.old.turns) }
    {
        if self.value(turning.test) == 0 {
            leave_turns(&mut self.turns);
            Ok(())
        } else {
            push_turn(&mut self.tasks, turning)
        }
    }

    /// A turn of a loop is over.
    pub fn again(&mut self, turning: Turning<'a>) -> Result<(), AllocError>
        requires below { EachBelow (2 ^ 64 - 1) self.now.turns }
        ensures { OnOk result (state_of self.new ≡ state (step_tasks (turning_of turning.entry) (tasks_of self.old.tasks)) (variables_of self.old) (risen self.old.turns)) }
    {
        raise(&mut self.turns)?;
        push_step(&mut self.tasks, turning)
    }
}

//! The state of a work-item.
ghost use Rattle.std.specs.Prelude.{◌≡◌, [], IfOk};
ghost use Rattle.kir.specs.Machine.{kir_start, value as value_of};
ghost use Rattle.kir.specs.Shapes.{code_of, operand_of};
ghost use Rattle.kir.specs.Views.{state_of, variables_of};

use crate::ops::{Kir, Operand};
use crate::tasks::{Tasks, push_ops};
use item_acts::Bound;
use item_settings::{Variables, bound_values};
use std::alloc::{AllocError, Global};
use step_machine::{Stack, Turns};
use vx_base::Elem;

/// The state of a work-item.
#[derive(Drop)]
pub struct State<'a> {
    /// What is left to do.
    pub tasks: Tasks<'a>,
    /// The variables.
    pub variables: Variables,
    /// The numbers of turns of the loops that the item is in.
    pub turns: Turns,
}

/// What becomes of an answer.
#[derive(Clone, Copy, Debug, PartialEq, Eq)]
pub struct Target {
    /// The variable whose value it is.
    pub variable: u32,
    /// The type to which it is cut.
    pub elem: Elem,
}

impl<'a> State<'a> {
    /// A work-item of a kernel before its first step.
    pub fn start(alloc: Global, code: &'a Kir, bounds: &[Bound]) -> Result<State<'a>, AllocError>
        ensures start { IfOk result (λ state. state_of state ≡ kir_start (code_of code.now) bounds.now) }
        ensures fresh { IfOk result (λ state. state.turns ≡ []) }
    {
        let mut tasks = Stack::new(alloc);
        push_ops(&mut tasks, code.ops.as_slice())?;
        let values = bound_values(alloc, code.params.as_slice(), bounds)?;
        Ok(State {
            tasks,
            variables: Variables { items: values },
            turns: Stack::new(alloc),
        })
    }

    /// The value of an operand.
    pub fn value(&self, operand: Operand) -> u32
        ensures { result ≡ value_of (variables_of self.now) (operand_of operand) }
    {
        match operand {
            Operand::Variable(variable) => self.variables.get(variable),
            Operand::Number(n) => n,
        }
    }
}

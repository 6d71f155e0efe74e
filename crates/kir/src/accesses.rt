//! Operations on arrays.
ghost use Rattle.std.specs.Prelude.{◌≡◌};
ghost use Rattle.item_settings.specs.Views.{setting_in};
ghost use Rattle.kir.specs.Machine.{op_step};
ghost use Rattle.kir.specs.Shapes.{op_of, operand_of};
ghost use Rattle.kir.specs.Trees as tree;
ghost use Rattle.kir.specs.Views.{accessed, state_of, tasks_of, told_value, variables_of};
ghost use Rattle.step_machine.specs.Steps.{shown};

use crate::ops::{Op, Operand};
use crate::states::{State, Target};
use item_acts::Action;
use item_settings::{Setting, low_bytes, size_of_elem};
use ocl_program::ArrayRef;
use step_machine::Found;
use vx_base::{Elem, Pos};

impl<'a> State<'a> {
    /// An operation on an array.
    pub fn access(&self, at: &Setting<'_>, op: &Op) -> Found<Option<Target>>
        ensures { accessed (setting_in at.now) (op_of op.now) (state_of self.now) ≡ shown told_value result (state_of self.now) }
    {
        match op {
            Op::Load {
                variable,
                array,
                elem,
                index,
            } => self.load(at, *variable, *array, *elem, *index),
            Op::Store {
                array,
                elem,
                index,
                value,
            } => self.store(at, *array, *elem, *index, *value),
            Op::Check { array, index, pos } => self.check(at, *array, *index, *pos),
            Op::Set { .. } | Op::Calculate { .. } | Op::Fit { .. } | Op::Id { .. } => Found::Moved,
            Op::If { .. } | Op::Loop { .. } | Op::Call { .. } => Found::Moved,
            Op::Barrier { .. } | Op::Break | Op::Continue | Op::Return => Found::Moved,
        }
    }

    /// A load of an element, whose value a variable becomes.
    fn load(
        &self,
        at: &Setting<'_>,
        variable: u32,
        array: ArrayRef,
        elem: Elem,
        index: Operand,
    ) -> Found<Option<Target>>
        ensures { op_step (setting_in at.now) (tree.Load variable array elem (operand_of index)) (tasks_of self.now.tasks) (variables_of self.now) self.now.turns ≡ shown told_value result (state_of self.now) }
    {
        let place = at.array(array).place(at.group(), elem, self.value(index));
        let size = size_of_elem(elem);
        Found::Asks(
            Action::Load { place, size },
            Some(Target { variable, elem }),
        )
    }

    /// A store of a value to an element.
    fn store(
        &self,
        at: &Setting<'_>,
        array: ArrayRef,
        elem: Elem,
        index: Operand,
        value: Operand,
    ) -> Found<Option<Target>>
        ensures { op_step (setting_in at.now) (tree.Store array elem (operand_of index) (operand_of value)) (tasks_of self.now.tasks) (variables_of self.now) self.now.turns ≡ shown told_value result (state_of self.now) }
    {
        let place = at.array(array).place(at.group(), elem, self.value(index));
        let size = size_of_elem(elem);
        let value = low_bytes(elem, self.value(value));
        Found::Asks(Action::Store { place, size, value }, None)
    }

    /// A fault where an array has no element at an index.
    fn check(
        &self,
        at: &Setting<'_>,
        array: ArrayRef,
        index: Operand,
        pos: Pos,
    ) -> Found<Option<Target>>
        ensures { op_step (setting_in at.now) (tree.Check array (operand_of index) pos) (tasks_of self.now.tasks) (variables_of self.now) self.now.turns ≡ shown told_value result (state_of self.now) }
    {
        if self.value(index) < at.array(array).count {
            Found::Moved
        } else {
            Found::Stops(Action::Fault(pos))
        }
    }
}

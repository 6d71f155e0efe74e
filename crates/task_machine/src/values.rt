//! Tasks that compute, or use a value up. What is taken from an empty stack of values is 0.
ghost use Rattle.std.specs.Prelude.{◌≡◌, ◌∷◌, ◌==◌, OnOk, if◌then◌else◌};
ghost use Rattle.vx_base.specs.Values.{fitted};
ghost use Rattle.ocl_program.specs.Values.{binary_value as binary_of, unary_value as unary_of};
ghost use Rattle.step_machine.specs.Stacks.{top, under};
ghost use Rattle.task_machine.specs.Tasks.{called};
ghost use Rattle.item_settings.specs.Views.{setting_in};
ghost use Rattle.task_machine.specs.Views.{assigned, computed, plain};

use crate::operators::{clamped, greatest_of, high_product, least_of, magnitude};
use crate::states::{State, Values};
use crate::tasks::Task;
use item_settings::Setting;
use ocl_ast::{BinOp, UnOp};
use ocl_program::{Builtin, binary_value, unary_value};
use std::alloc::AllocError;
use vx_base::{Elem, fit};

/// Takes the value on top.
pub fn take(values: &mut Values) -> u32
    ensures value { result ≡ top values.old }
    ensures rest { values.new ≡ under values.old }
{
    match values.pop() {
        Some(value) => value,
        None => 0,
    }
}

/// The value of an operator in place of its operand.
fn apply_unary(values: &mut Values, op: UnOp) -> Result<(), AllocError>
    ensures { OnOk result (values.new ≡ unary_of op (top values.old) ∷ under values.old) }
{
    let part = take(values);
    values.push(unary_value(op, part))
}

/// The value of an operator in place of its operands.
fn apply_binary(values: &mut Values, op: BinOp, unsigned: bool) -> Result<(), AllocError>
    ensures { OnOk result (values.new ≡ binary_of op unsigned (top (under values.old)) (top values.old) ∷ under (under values.old)) }
{
    let right = take(values);
    let left = take(values);
    values.push(binary_value(op, unsigned, left, right))
}

/// A value converted.
fn convert(values: &mut Values, elem: Elem) -> Result<(), AllocError>
    ensures { OnOk result (values.new ≡ fitted elem (top values.old) ∷ under values.old) }
{
    let value = take(values);
    values.push(fit(elem, value))
}

/// 1 in place of a value that is not 0.
fn apply_truth(values: &mut Values) -> Result<(), AllocError>
    ensures { OnOk result (values.new ≡ (if top values.old == 0 then 0 else 1) ∷ under values.old) }
{
    let value = take(values);
    values.push(truth(value))
}

/// 1 for what is not 0.
fn truth(value: u32) -> u32
    ensures { result ≡ (if value == 0 then 0 else 1) }
{
    if value == 0 { 0 } else { 1 }
}

/// The value of a built-in function in place of its arguments.
fn call(
    values: &mut Values,
    at: &Setting<'_>,
    which: Builtin,
    unsigned: bool,
) -> Result<(), AllocError>
    ensures { OnOk result (values.new ≡ called (setting_in at.now) which unsigned values.old) }
{
    match which {
        Builtin::WorkDim => values.push(at.range.dims),
        Builtin::GlobalId => call_id(values, at, Builtin::GlobalId),
        Builtin::LocalId => call_id(values, at, Builtin::LocalId),
        Builtin::GroupId => call_id(values, at, Builtin::GroupId),
        Builtin::GlobalSize => call_id(values, at, Builtin::GlobalSize),
        Builtin::LocalSize => call_id(values, at, Builtin::LocalSize),
        Builtin::NumGroups => call_id(values, at, Builtin::NumGroups),
        Builtin::GlobalOffset => call_id(values, at, Builtin::GlobalOffset),
        Builtin::Min => {
            let right = take(values);
            let left = take(values);
            values.push(least_of(unsigned, left, right))
        }
        Builtin::Max => {
            let right = take(values);
            let left = take(values);
            values.push(greatest_of(unsigned, left, right))
        }
        Builtin::Clamp => {
            let high = take(values);
            let low = take(values);
            let value = take(values);
            values.push(clamped(unsigned, value, low, high))
        }
        Builtin::Abs => {
            let value = take(values);
            values.push(magnitude(unsigned, value))
        }
        Builtin::MulHi => {
            let right = take(values);
            let left = take(values);
            values.push(high_product(unsigned, left, right))
        }
    }
}

/// What a built-in function gives of the dimension on top.
fn call_id(values: &mut Values, at: &Setting<'_>, which: Builtin) -> Result<(), AllocError>
    ensures { OnOk result (values.new ≡ (setting_in at.now).id which (top values.old) ∷ under values.old) }
{
    let d = take(values);
    values.push(at.id(which, d))
}

impl<V: Drop, T: Drop> State<V, T> {
    /// A task that computes a value.
    pub fn compute(&mut self, at: &Setting<'_>, task: &Task<V, T>) -> Result<(), AllocError>
        ensures { OnOk result (plain self.new ≡ computed (setting_in at.now) task.now (plain self.old)) }
    {
        match task {
            Task::Number(n) => self.values.push(*n),
            Task::Variable(variable) => self.values.push(self.variables.get(*variable)),
            Task::Unary(op) => apply_unary(&mut self.values, *op),
            Task::Binary { op, unsigned } => apply_binary(&mut self.values, *op, *unsigned),
            Task::Fit(elem) => convert(&mut self.values, *elem),
            Task::Call { which, unsigned } => call(&mut self.values, at, *which, *unsigned),
            Task::Truth => apply_truth(&mut self.values),
            Task::AndThen(_) | Task::OrElse(_) | Task::Choose { .. } | Task::Branch { .. } => Ok(
                (),
            ),
            Task::Load { .. } | Task::Reread { .. } | Task::Store { .. } | Task::Wait(_) => Ok(()),
            Task::Clear(_) | Task::Assign { .. } | Task::Discard => Ok(()),
            Task::Enter(_) | Task::EnterTurn(_) => Ok(()),
            Task::Decide(_) | Task::Begin(_) | Task::Again(_) => Ok(()),
            Task::Invoke(_) | Task::CallEnd => Ok(()),
            Task::Break | Task::Continue | Task::Return => Ok(()),
        }
    }

    /// A task that uses a value up.
    pub fn assign(&mut self, task: &Task<V, T>) -> Result<(), AllocError>
        ensures { OnOk result (plain self.new ≡ assigned task.now (plain self.old)) }
    {
        match task {
            Task::Clear(variable) => self.variables.put(*variable, 0),
            Task::Assign { variable, elem } => {
                let value = take(&mut self.values);
                self.variables.put(*variable, fit(*elem, value))
            }
            Task::Discard => {
                take(&mut self.values);
                Ok(())
            }
            Task::Number(_) | Task::Variable(_) | Task::Unary(_) | Task::Binary { .. } => Ok(()),
            Task::Fit(_) | Task::Call { .. } | Task::Truth => Ok(()),
            Task::AndThen(_) | Task::OrElse(_) | Task::Choose { .. } | Task::Branch { .. } => Ok(
                (),
            ),
            Task::Load { .. } | Task::Reread { .. } | Task::Store { .. } | Task::Wait(_) => Ok(()),
            Task::Enter(_) | Task::EnterTurn(_) => Ok(()),
            Task::Decide(_) | Task::Begin(_) | Task::Again(_) => Ok(()),
            Task::Invoke(_) | Task::CallEnd => Ok(()),
            Task::Break | Task::Continue | Task::Return => Ok(()),
        }
    }
}

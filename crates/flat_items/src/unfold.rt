//! Expressions as tasks. A stack takes what is done last first.
ghost use Rattle.std.specs.Prelude.{◌≡◌, OnOk};
ghost use Rattle.ocl_inline.specs.FlatTasks.{args_tasks, bound_to, value_tasks, values_tasks};
ghost use Rattle.ocl_inline.specs.Shapes.{expr_of, flat_arguments};
ghost use Rattle.flat_items.specs.Views.{argument_tasks, bound_tasks, flat_task, flat_tasks};

use crate::forms::{FlatPart, FlatTask, FlatTasks};
use ocl_inline::{Binding, FlatArgument, FlatExpr};
use std::alloc::AllocError;
use task_machine::Task;

/// The value of an expression onto the stack.
#[cycle(unfold)]
pub fn push_value<'a>(tasks: &mut FlatTasks<'a>, expr: &'a FlatExpr) -> Result<(), AllocError>
    ensures { OnOk result (flat_tasks tasks.new ≡ value_tasks (expr_of expr.now) (flat_tasks tasks.old)) }
{
    match expr {
        FlatExpr::Number { value, .. } => tasks.push(Task::Number(*value)),
        FlatExpr::Variable(variable) => tasks.push(Task::Variable(*variable)),
        FlatExpr::Unary { op, part } => {
            tasks.push(Task::Unary(*op))?;
            push_value(tasks, part)
        }
        FlatExpr::Binary {
            op,
            unsigned,
            left,
            right,
        } => {
            tasks.push(Task::Binary {
                op: *op,
                unsigned: *unsigned,
            })?;
            push_value(tasks, right)?;
            push_value(tasks, left)
        }
        FlatExpr::Both { left, right } => {
            tasks.push(Task::AndThen(right))?;
            push_value(tasks, left)
        }
        FlatExpr::Either { left, right } => {
            tasks.push(Task::OrElse(right))?;
            push_value(tasks, left)
        }
        FlatExpr::Choose { test, yes, no, .. } => {
            tasks.push(Task::Choose {
                one: yes,
                other: no,
            })?;
            push_value(tasks, test)
        }
        FlatExpr::Cast { elem, part } => {
            tasks.push(Task::Fit(*elem))?;
            push_value(tasks, part)
        }
        FlatExpr::Load {
            array,
            place,
            pos,
            ..
        } => {
            tasks.push(Task::Load {
                array: *array,
                pos: *pos,
            })?;
            push_value(tasks, place)
        }
        FlatExpr::Call { args, body } => {
            tasks.push(Task::Invoke(FlatPart::Block(body.as_slice())))?;
            push_args(tasks, args.as_slice())
        }
        FlatExpr::Lost { .. } => tasks.push(Task::Number(0)),
        FlatExpr::Builtin {
            which,
            unsigned,
            args,
        } => {
            tasks.push(Task::Call {
                which: *which,
                unsigned: *unsigned,
            })?;
            push_values(tasks, args.as_slice())
        }
        FlatExpr::Paren(part) => push_value(tasks, part),
    }
}

/// The values of a built-in function's arguments.
#[cycle(unfold)]
fn push_values<'a>(tasks: &mut FlatTasks<'a>, args: &'a [FlatArgument]) -> Result<(), AllocError>
    ensures { OnOk result (flat_tasks tasks.new ≡ values_tasks (flat_arguments args.now) (flat_tasks tasks.old)) }
{
    for k in (0..args.len()).rev() {
        push_argument(tasks, &args[k])?;
    }
    Ok(())
}

/// The value of an argument, where it is one.
#[cycle(unfold)]
fn push_argument<'a>(tasks: &mut FlatTasks<'a>, arg: &'a FlatArgument) -> Result<(), AllocError>
    ensures { OnOk result (flat_tasks tasks.new ≡ argument_tasks arg.now (flat_tasks tasks.old)) }
{
    match arg {
        FlatArgument::Number { value, .. } => push_value(tasks, value),
        FlatArgument::Array(_) => Ok(()),
    }
}

/// The arguments of a call, each bound to its parameter.
#[cycle(unfold)]
fn push_args<'a>(tasks: &mut FlatTasks<'a>, args: &'a [FlatArgument]) -> Result<(), AllocError>
    ensures { OnOk result (flat_tasks tasks.new ≡ args_tasks (flat_arguments args.now) (flat_tasks tasks.old)) }
{
    for k in (0..args.len()).rev() {
        push_bound(tasks, &args[k])?;
    }
    Ok(())
}

/// The value of an argument, where it is one, and what is done with it.
#[cycle(unfold)]
fn push_bound<'a>(tasks: &mut FlatTasks<'a>, arg: &'a FlatArgument) -> Result<(), AllocError>
    ensures { OnOk result (flat_tasks tasks.new ≡ bound_tasks arg.now (flat_tasks tasks.old)) }
{
    match arg {
        FlatArgument::Number { value, binding } => {
            tasks.push(bound(*binding))?;
            push_value(tasks, value)
        }
        FlatArgument::Array(_) => Ok(()),
    }
}

/// What is done with the value of an argument.
fn bound<'a>(binding: Binding) -> FlatTask<'a>
    ensures { flat_task result ≡ bound_to binding }
{
    match binding {
        Binding::Variable(variable, elem) => Task::Assign { variable, elem },
        Binding::Dropped => Task::Discard,
    }
}

//! Statements as tasks. A stack takes what is done last first.
ghost use Rattle.std.specs.Prelude.{◌≡◌, OnOk, map, option_map};
ghost use Rattle.ocl_program.specs.Shapes.{function_node, node_of, stmt_node, typed_stmts};
ghost use Rattle.ocl_sem.specs.Source.{assigned_tasks, combined_tasks, declared_tasks, given_tasks, operand_tasks, return_tasks, stmt_tasks, stmts_tasks};
ghost use Rattle.ocl_sem.specs.Views.{branch_tasks, do_tasks, entered_tasks, scope_of, source_loop, source_task, source_tasks};

use crate::placed::{PlacedStmt, SourceLoop, SourcePart, SourceTask, SourceTasks, place_loop};
use crate::scopes::Scope;
use crate::unfold::{Source, push_value};
use ocl_ast::{AssignOp, BinOp, Gives};
use ocl_program::{TypedExpr, TypedStmt};
use std::alloc::AllocError;
use std::rc::Rc;
use task_machine::Task;
use vx_base::Elem;

/// The tasks of a statement.
#[cycle(statements)]
pub fn push_stmt<'a>(
    tasks: &mut SourceTasks<'a>,
    source: &Source<'a>,
    scope: &Rc<Scope<'a>>,
    stmt: &'a TypedStmt,
) -> Result<(), AllocError>
    ensures { OnOk result (source_tasks tasks.new ≡ stmt_tasks (map function_node source.now.program.now) (scope_of scope.now.value) (stmt_node stmt.now) (source_tasks tasks.old)) }
{
    match stmt {
        TypedStmt::Declare {
            variable,
            elem,
            value,
        } => push_declaration(
            tasks,
            source,
            scope,
            scope.variable(*variable),
            *elem,
            value,
        ),
        TypedStmt::SetVariable {
            variable,
            elem,
            op,
            unsigned,
            value,
        } => {
            let variable = scope.variable(*variable);
            tasks.push(Task::Assign {
                variable,
                elem: *elem,
            })?;
            push_assigned(
                tasks,
                source,
                scope,
                *op,
                *unsigned,
                Task::Variable(variable),
                value,
            )
        }
        TypedStmt::SetElement {
            array,
            place,
            op,
            unsigned,
            value,
            pos,
            ..
        } => {
            let array = scope.array(*array);
            let pos = *pos;
            tasks.push(Task::Store { array, pos })?;
            push_assigned(
                tasks,
                source,
                scope,
                *op,
                *unsigned,
                Task::Reread { array, pos },
                value,
            )?;
            push_value(tasks, source, scope, place)
        }
        TypedStmt::Call(call) => {
            tasks.push(Task::Discard)?;
            push_value(tasks, source, scope, call)
        }
        TypedStmt::Barrier { site } => tasks.push(Task::Wait(scope.site(*site))),
        TypedStmt::If { test, yes, no } => {
            let other = match no {
                Some(other) => Some(&**other),
                None => None,
            };
            push_branch(tasks, source, scope, test, yes, other)
        }
        TypedStmt::While { test, body } => {
            push_entered(tasks, source, scope, Some(test), &[], body)
        }
        TypedStmt::Do { body, test } => push_do(tasks, source, scope, body, test),
        TypedStmt::For {
            first,
            test,
            step,
            body,
        } => {
            push_entered(tasks, source, scope, test.as_ref(), step.as_slice(), body)?;
            push_stmts(tasks, source, scope, first.as_slice())
        }
        TypedStmt::Break => tasks.push(Task::Break),
        TypedStmt::Continue => tasks.push(Task::Continue),
        TypedStmt::Return(value) => push_return(tasks, source, scope, value),
        TypedStmt::Block(items) => push_stmts(tasks, source, scope, items.as_slice()),
        TypedStmt::LocalArray { .. } | TypedStmt::Empty => Ok(()),
    }
}

/// The tasks of statements in order.
#[cycle(statements)]
pub fn push_stmts<'a>(
    tasks: &mut SourceTasks<'a>,
    source: &Source<'a>,
    scope: &Rc<Scope<'a>>,
    stmts: &'a [TypedStmt],
) -> Result<(), AllocError>
    ensures { OnOk result (source_tasks tasks.new ≡ stmts_tasks (map function_node source.now.program.now) (scope_of scope.now.value) (typed_stmts stmts.now) (source_tasks tasks.old)) }
{
    for k in (0..stmts.len()).rev() {
        push_stmt(tasks, source, scope, &stmts[k])?;
    }
    Ok(())
}

/// A variable, by its number in the kernel, begins to live.
fn push_declaration<'a>(
    tasks: &mut SourceTasks<'a>,
    source: &Source<'a>,
    scope: &Rc<Scope<'a>>,
    variable: u32,
    elem: Elem,
    value: &'a Option<TypedExpr>,
) -> Result<(), AllocError>
    ensures { OnOk result (source_tasks tasks.new ≡ declared_tasks (map function_node source.now.program.now) (scope_of scope.now.value) variable elem (option_map node_of value.now) (source_tasks tasks.old)) }
{
    match value {
        Some(expr) => {
            tasks.push(Task::Assign { variable, elem })?;
            push_value(tasks, source, scope, expr)?;
            tasks.push(Task::Clear(variable))
        }
        None => tasks.push(Task::Clear(variable)),
    }
}

/// The right side of an assignment; of `++` and `--` it is 1.
fn push_operand<'a>(
    tasks: &mut SourceTasks<'a>,
    source: &Source<'a>,
    scope: &Rc<Scope<'a>>,
    value: &'a Option<TypedExpr>,
) -> Result<(), AllocError>
    ensures { OnOk result (source_tasks tasks.new ≡ operand_tasks (map function_node source.now.program.now) (scope_of scope.now.value) (option_map node_of value.now) (source_tasks tasks.old)) }
{
    match value {
        Some(expr) => push_value(tasks, source, scope, expr),
        None => tasks.push(Task::Number(1)),
    }
}

/// The new value of a target, where a task has its value before.
fn push_assigned<'a>(
    tasks: &mut SourceTasks<'a>,
    source: &Source<'a>,
    scope: &Rc<Scope<'a>>,
    op: AssignOp,
    unsigned: bool,
    before: SourceTask<'a>,
    value: &'a Option<TypedExpr>,
) -> Result<(), AllocError>
    ensures { OnOk result (source_tasks tasks.new ≡ assigned_tasks op unsigned (source_task before.entry) (operand_tasks (map function_node source.now.program.now) (scope_of scope.now.value) (option_map node_of value.now)) (source_tasks tasks.old)) }
{
    match op {
        AssignOp::Set => push_operand(tasks, source, scope, value),
        AssignOp::With(op) => push_combined(tasks, source, scope, op, unsigned, before, value),
        AssignOp::Up => push_combined(tasks, source, scope, BinOp::Add, unsigned, before, value),
        AssignOp::Down => push_combined(tasks, source, scope, BinOp::Sub, unsigned, before, value),
    }
}

/// The value of an operator on the value before and the right side.
fn push_combined<'a>(
    tasks: &mut SourceTasks<'a>,
    source: &Source<'a>,
    scope: &Rc<Scope<'a>>,
    op: BinOp,
    unsigned: bool,
    before: SourceTask<'a>,
    value: &'a Option<TypedExpr>,
) -> Result<(), AllocError>
    ensures { OnOk result (source_tasks tasks.new ≡ combined_tasks op unsigned (source_task before.entry) (operand_tasks (map function_node source.now.program.now) (scope_of scope.now.value) (option_map node_of value.now)) (source_tasks tasks.old)) }
{
    tasks.push(Task::Binary { op, unsigned })?;
    push_operand(tasks, source, scope, value)?;
    tasks.push(before)
}

/// The test of an `if`, and then the choice of its branch.
fn push_branch<'a>(
    tasks: &mut SourceTasks<'a>,
    source: &Source<'a>,
    scope: &Rc<Scope<'a>>,
    test: &'a TypedExpr,
    one: &'a TypedStmt,
    other: Option<&'a TypedStmt>,
) -> Result<(), AllocError>
    ensures { OnOk result (source_tasks tasks.new ≡ branch_tasks (map function_node source.now.program.now) (scope_of scope.now.value) (node_of test.now) (stmt_node one.now) (option_map (λ s. stmt_node s.now) other.entry) (source_tasks tasks.old)) }
{
    let one = PlacedStmt::new(scope, SourcePart::One(one))?;
    let other = match other {
        Some(other) => Some(PlacedStmt::new(scope, SourcePart::One(other))?),
        None => None,
    };
    tasks.push(Task::Branch { one, other })?;
    push_value(tasks, source, scope, test)
}

/// A loop that begins with its test is entered.
fn push_entered<'a>(
    tasks: &mut SourceTasks<'a>,
    source: &Source<'a>,
    scope: &Rc<Scope<'a>>,
    test: Option<&'a TypedExpr>,
    step: &'a [TypedStmt],
    body: &'a TypedStmt,
) -> Result<(), AllocError>
    ensures { OnOk result (source_tasks tasks.new ≡ entered_tasks (scope_of scope.now.value) (option_map (λ e. node_of e.now) test.entry) (typed_stmts step.now) (stmt_node body.now) (source_tasks tasks.old)) }
{
    let turning = place_loop(source.alloc, scope, test, step, body)?;
    tasks.push(Task::Enter(turning))
}

/// A loop whose test stands behind its body is entered.
fn push_do<'a>(
    tasks: &mut SourceTasks<'a>,
    source: &Source<'a>,
    scope: &Rc<Scope<'a>>,
    body: &'a TypedStmt,
    test: &'a TypedExpr,
) -> Result<(), AllocError>
    ensures { OnOk result (source_tasks tasks.new ≡ do_tasks (scope_of scope.now.value) (stmt_node body.now) (node_of test.now) (source_tasks tasks.old)) }
{
    let turning = place_loop(source.alloc, scope, Some(test), &[], body)?;
    tasks.push(Task::EnterTurn(turning))
}

/// `return`
fn push_return<'a>(
    tasks: &mut SourceTasks<'a>,
    source: &Source<'a>,
    scope: &Rc<Scope<'a>>,
    value: &'a Option<TypedExpr>,
) -> Result<(), AllocError>
    ensures { OnOk result (source_tasks tasks.new ≡ return_tasks (map function_node source.now.program.now) (scope_of scope.now.value) (option_map node_of value.now) (source_tasks tasks.old)) }
{
    tasks.push(Task::Return)?;
    match value {
        Some(expr) => {
            push_given(tasks, scope)?;
            push_value(tasks, source, scope, expr)
        }
        None => tasks.push(Task::Number(0)),
    }
}

/// The conversion of a value that a function gives back.
fn push_given<'a>(tasks: &mut SourceTasks<'a>, scope: &Rc<Scope<'a>>) -> Result<(), AllocError>
    ensures { OnOk result (source_tasks tasks.new ≡ given_tasks scope.now.value.function.now.gives (source_tasks tasks.old)) }
{
    match scope.function.gives {
        Gives::Nothing => Ok(()),
        Gives::Value(elem) => tasks.push(Task::Fit(elem)),
    }
}

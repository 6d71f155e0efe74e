//! Statements as tasks. A stack takes what is done last first.
ghost use Rattle.std.specs.Prelude.{◌≡◌, OnOk, option_map};
ghost use Rattle.ocl_inline.specs.FlatTasks.{assigned_tasks, combined_tasks, declared_tasks, given_tasks, operand_tasks, return_tasks, stmt_tasks, stmts_tasks};
ghost use Rattle.ocl_inline.specs.Shapes.{expr_of, flat_trees, stmt_of};
ghost use Rattle.ocl_inline.specs.Trees.{DoFlat, WhileFlat, written};
ghost use Rattle.flat_items.specs.Views.{branch_tasks, entered_tasks, flat_task, flat_tasks};

use crate::forms::{FlatPart, FlatTask, FlatTasks};
use crate::unfold::push_value;
use ocl_ast::{AssignOp, BinOp, Gives};
use ocl_inline::{FlatExpr, FlatStmt};
use std::alloc::{AllocError, Global};
use task_machine::{Loop, Task};
use vx_base::Elem;

/// The tasks of a statement.
#[cycle(statements)]
pub fn push_stmt<'a>(
    tasks: &mut FlatTasks<'a>,
    alloc: Global,
    stmt: &'a FlatStmt,
) -> Result<(), AllocError>
    ensures { OnOk result (flat_tasks tasks.new ≡ stmt_tasks (stmt_of stmt.now) (flat_tasks tasks.old)) }
{
    match stmt {
        FlatStmt::Declare {
            variable,
            elem,
            value,
        } => push_declaration(tasks, *variable, *elem, value),
        FlatStmt::SetVariable {
            variable,
            elem,
            op,
            unsigned,
            value,
        } => {
            let variable = *variable;
            tasks.push(Task::Assign {
                variable,
                elem: *elem,
            })?;
            push_assigned(tasks, *op, *unsigned, Task::Variable(variable), value)
        }
        FlatStmt::SetElement {
            array,
            place,
            op,
            unsigned,
            value,
            pos,
            ..
        } => {
            let array = *array;
            let pos = *pos;
            tasks.push(Task::Store { array, pos })?;
            push_assigned(tasks, *op, *unsigned, Task::Reread { array, pos }, value)?;
            push_value(tasks, place)
        }
        FlatStmt::Call(call) => {
            tasks.push(Task::Discard)?;
            push_value(tasks, call)
        }
        FlatStmt::Barrier { site } => tasks.push(Task::Wait(*site)),
        FlatStmt::If { test, yes, no } => push_branch(tasks, test, yes, no),
        FlatStmt::While { test, body } => push_while(tasks, alloc, test, body),
        FlatStmt::Do { body, test } => push_do(tasks, alloc, body, test),
        FlatStmt::For {
            first,
            test,
            step,
            body,
        } => {
            push_entered(tasks, alloc, test, step.as_slice(), body)?;
            push_stmts(tasks, alloc, first.as_slice())
        }
        FlatStmt::Break => tasks.push(Task::Break),
        FlatStmt::Continue => tasks.push(Task::Continue),
        FlatStmt::Return { gives, value } => push_return(tasks, *gives, value),
        FlatStmt::Block(items) => push_stmts(tasks, alloc, items.as_slice()),
        FlatStmt::LocalArray { .. } | FlatStmt::Empty => Ok(()),
    }
}

/// The tasks of statements in order.
#[cycle(statements)]
pub fn push_stmts<'a>(
    tasks: &mut FlatTasks<'a>,
    alloc: Global,
    stmts: &'a [FlatStmt],
) -> Result<(), AllocError>
    ensures { OnOk result (flat_tasks tasks.new ≡ stmts_tasks (flat_trees stmts.now) (flat_tasks tasks.old)) }
{
    for k in (0..stmts.len()).rev() {
        push_stmt(tasks, alloc, &stmts[k])?;
    }
    Ok(())
}

/// A variable begins to live.
fn push_declaration<'a>(
    tasks: &mut FlatTasks<'a>,
    variable: u32,
    elem: Elem,
    value: &'a Option<Box<FlatExpr>>,
) -> Result<(), AllocError>
    ensures { OnOk result (flat_tasks tasks.new ≡ declared_tasks variable elem (written (option_map (λ b. expr_of b.value) value.now)) (flat_tasks tasks.old)) }
{
    match value {
        Some(expr) => {
            tasks.push(Task::Assign { variable, elem })?;
            push_value(tasks, expr)?;
            tasks.push(Task::Clear(variable))
        }
        None => tasks.push(Task::Clear(variable)),
    }
}

/// The right side of an assignment; of `++` and `--` it is 1.
fn push_operand<'a>(
    tasks: &mut FlatTasks<'a>,
    value: &'a Option<Box<FlatExpr>>,
) -> Result<(), AllocError>
    ensures { OnOk result (flat_tasks tasks.new ≡ operand_tasks (written (option_map (λ b. expr_of b.value) value.now)) (flat_tasks tasks.old)) }
{
    match value {
        Some(expr) => push_value(tasks, expr),
        None => tasks.push(Task::Number(1)),
    }
}

/// The new value of a target, where a task has its value before.
fn push_assigned<'a>(
    tasks: &mut FlatTasks<'a>,
    op: AssignOp,
    unsigned: bool,
    before: FlatTask<'a>,
    value: &'a Option<Box<FlatExpr>>,
) -> Result<(), AllocError>
    ensures { OnOk result (flat_tasks tasks.new ≡ assigned_tasks op unsigned (flat_task before.entry) (operand_tasks (written (option_map (λ b. expr_of b.value) value.now))) (flat_tasks tasks.old)) }
{
    match op {
        AssignOp::Set => push_operand(tasks, value),
        AssignOp::With(op) => push_combined(tasks, op, unsigned, before, value),
        AssignOp::Up => push_combined(tasks, BinOp::Add, unsigned, before, value),
        AssignOp::Down => push_combined(tasks, BinOp::Sub, unsigned, before, value),
    }
}

/// The value of an operator on the value before and the right side.
fn push_combined<'a>(
    tasks: &mut FlatTasks<'a>,
    op: BinOp,
    unsigned: bool,
    before: FlatTask<'a>,
    value: &'a Option<Box<FlatExpr>>,
) -> Result<(), AllocError>
    ensures { OnOk result (flat_tasks tasks.new ≡ combined_tasks op unsigned (flat_task before.entry) (operand_tasks (written (option_map (λ b. expr_of b.value) value.now))) (flat_tasks tasks.old)) }
{
    tasks.push(Task::Binary { op, unsigned })?;
    push_operand(tasks, value)?;
    tasks.push(before)
}

/// The test of an `if`, and then the choice of its branch.
fn push_branch<'a>(
    tasks: &mut FlatTasks<'a>,
    test: &'a FlatExpr,
    one: &'a FlatStmt,
    other: &'a Option<Box<FlatStmt>>,
) -> Result<(), AllocError>
    ensures { OnOk result (flat_tasks tasks.new ≡ branch_tasks (expr_of test.now) (stmt_of one.now) (option_map (λ b. stmt_of b.value) other.now) (flat_tasks tasks.old)) }
{
    let other = match other {
        Some(other) => Some(FlatPart::One(other)),
        None => None,
    };
    tasks.push(Task::Branch {
        one: FlatPart::One(one),
        other,
    })?;
    push_value(tasks, test)
}

/// A loop that begins with its test is entered.
fn push_while<'a>(
    tasks: &mut FlatTasks<'a>,
    alloc: Global,
    test: &'a FlatExpr,
    body: &'a FlatStmt,
) -> Result<(), AllocError>
    ensures { OnOk result (flat_tasks tasks.new ≡ stmt_tasks (WhileFlat (expr_of test.now) (stmt_of body.now)) (flat_tasks tasks.old)) }
{
    let turning = Loop::new(alloc, Some(test), FlatPart::Block(&[]), FlatPart::One(body))?;
    tasks.push(Task::Enter(turning))
}

/// A loop whose test stands behind its body is entered.
fn push_do<'a>(
    tasks: &mut FlatTasks<'a>,
    alloc: Global,
    body: &'a FlatStmt,
    test: &'a FlatExpr,
) -> Result<(), AllocError>
    ensures { OnOk result (flat_tasks tasks.new ≡ stmt_tasks (DoFlat (stmt_of body.now) (expr_of test.now)) (flat_tasks tasks.old)) }
{
    let turning = Loop::new(alloc, Some(test), FlatPart::Block(&[]), FlatPart::One(body))?;
    tasks.push(Task::EnterTurn(turning))
}

/// A `for` is entered, behind what runs first.
fn push_entered<'a>(
    tasks: &mut FlatTasks<'a>,
    alloc: Global,
    test: &'a Option<Box<FlatExpr>>,
    step: &'a [FlatStmt],
    body: &'a FlatStmt,
) -> Result<(), AllocError>
    ensures { OnOk result (flat_tasks tasks.new ≡ entered_tasks (written (option_map (λ b. expr_of b.value) test.now)) (flat_trees step.now) (stmt_of body.now) (flat_tasks tasks.old)) }
{
    let test = match test {
        Some(test) => Some(&**test),
        None => None,
    };
    let turning = Loop::new(alloc, test, FlatPart::Block(step), FlatPart::One(body))?;
    tasks.push(Task::Enter(turning))
}

/// `return`
fn push_return<'a>(
    tasks: &mut FlatTasks<'a>,
    gives: Gives,
    value: &'a Option<Box<FlatExpr>>,
) -> Result<(), AllocError>
    ensures { OnOk result (flat_tasks tasks.new ≡ return_tasks gives (written (option_map (λ b. expr_of b.value) value.now)) (flat_tasks tasks.old)) }
{
    tasks.push(Task::Return)?;
    match value {
        Some(expr) => {
            push_given(tasks, gives)?;
            push_value(tasks, expr)
        }
        None => tasks.push(Task::Number(0)),
    }
}

/// The conversion of a value that a function gives back.
fn push_given(tasks: &mut FlatTasks<'_>, gives: Gives) -> Result<(), AllocError>
    ensures { OnOk result (flat_tasks tasks.new ≡ given_tasks gives (flat_tasks tasks.old)) }
{
    match gives {
        Gives::Nothing => Ok(()),
        Gives::Value(elem) => tasks.push(Task::Fit(elem)),
    }
}

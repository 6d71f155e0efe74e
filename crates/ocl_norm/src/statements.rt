//! Statements as operations.
ghost use Rattle.std.specs.Prelude.{◌≡◌, ◌+◌, ◌<◌, ◌^◌, IfOk, OnOk, option_map, suc};
ghost use Rattle.kir.specs.Lists.{Puts};
ghost use Rattle.kir.specs.Shapes.{ops_of};
ghost use Rattle.kir.specs.Trees.{NoOps};
ghost use Rattle.ocl_inline.specs.Shapes.{expr_of, flat_trees, stmt_of};
ghost use Rattle.ocl_inline.specs.Trees.{DoFlat, ForFlat, WhileFlat, if_flat, written};
ghost use Rattle.ocl_norm.specs.Normal.{stmt_ops, stmts_ops};
ghost use Rattle.ocl_norm.specs.Rooms.{stmt_room, stmts_room};
ghost use Rattle.ocl_norm.specs.Views.{else_ops, else_room};

use crate::assignments::{
    push_declared, push_returned, push_set_element, push_set_variable, right_list,
};
use crate::expressions::{push_value, settled_list, value_list};
use crate::parts::{Element, put_branch, put_loop};
use crate::standings::{operand_in, operand_right};
use kir::{Op, Operand, put, put_set};
use ocl_inline::trees::{FlatExpr, FlatStmt};
use std::alloc::{AllocError, Global};

/// A statement in a call whose result is the variable `given`; those behind it are free.
#[cycle(normal)]
pub fn push_stmt(
    alloc: Global,
    out: &mut Vec<Op>,
    stmt: &FlatStmt,
    given: u32,
) -> Result<(), AllocError>
    requires room { given + stmt_room (stmt_of stmt.now) < 2 ^ 32 }
    ensures { OnOk result (Puts out.old.items out.new.items (stmt_ops (stmt_of stmt.now) given)) }
{
    match stmt {
        FlatStmt::Declare {
            variable,
            elem,
            value,
        } => push_declared(alloc, out, *variable, *elem, value, given + 1),
        FlatStmt::LocalArray { .. } | FlatStmt::Empty => Ok(()),
        FlatStmt::SetVariable {
            variable,
            elem,
            op,
            unsigned,
            value,
        } => push_set_variable(
            alloc,
            out,
            *op,
            *unsigned,
            *variable,
            *elem,
            value,
            given + 1,
        ),
        FlatStmt::SetElement {
            array,
            elem,
            place,
            op,
            unsigned,
            value,
            pos,
        } => {
            let element = Element {
                array: *array,
                elem: *elem,
                pos: *pos,
            };
            push_set_element(alloc, out, *op, *unsigned, element, place, value, given + 1)
        }
        FlatStmt::Call(call) => push_value(alloc, out, call, given + 1),
        FlatStmt::Barrier { site } => put(out, Op::Barrier { site: *site }),
        FlatStmt::If { test, yes, no } => push_if(alloc, out, test, yes, no, given),
        FlatStmt::While { test, body } => push_while(alloc, out, test, body, given),
        FlatStmt::Do { body, test } => push_do(alloc, out, body, test, given),
        FlatStmt::For {
            first,
            test,
            step,
            body,
        } => push_for(
            alloc,
            out,
            first.as_slice(),
            test,
            step.as_slice(),
            body,
            given,
        ),
        FlatStmt::Break => put(out, Op::Break),
        FlatStmt::Continue => put(out, Op::Continue),
        FlatStmt::Return { gives, value } => push_returned(alloc, out, *gives, value, given),
        FlatStmt::Block(items) => push_stmts(alloc, out, items.as_slice(), given),
    }
}

/// Statements in order.
#[cycle(normal)]
pub fn push_stmts(
    alloc: Global,
    out: &mut Vec<Op>,
    stmts: &[FlatStmt],
    given: u32,
) -> Result<(), AllocError>
    requires room { given + stmts_room (flat_trees stmts.now) < 2 ^ 32 }
    ensures { OnOk result (Puts out.old.items out.new.items (stmts_ops (flat_trees stmts.now) given)) }
{
    for k in 0..stmts.len() {
        push_stmt(alloc, out, &stmts[k], given)?;
    }
    Ok(())
}

/// A statement as a list of its own.
#[cycle(normal)]
fn stmt_list(alloc: Global, stmt: &FlatStmt, given: u32) -> Result<Vec<Op>, AllocError>
    requires room { given + stmt_room (stmt_of stmt.now) < 2 ^ 32 }
    ensures { IfOk result (λ list. ops_of list.items ≡ stmt_ops (stmt_of stmt.now) given NoOps) }
{
    let mut list = Vec::new(alloc);
    push_stmt(alloc, &mut list, stmt, given)?;
    Ok(list)
}

/// Statements in order as a list of their own.
#[cycle(normal)]
pub fn stmts_list(alloc: Global, stmts: &[FlatStmt], given: u32) -> Result<Vec<Op>, AllocError>
    requires room { given + stmts_room (flat_trees stmts.now) < 2 ^ 32 }
    ensures { IfOk result (λ list. ops_of list.items ≡ stmts_ops (flat_trees stmts.now) given NoOps) }
{
    let mut list = Vec::new(alloc);
    push_stmts(alloc, &mut list, stmts, given)?;
    Ok(list)
}

/// What stands behind `else`, where there is one.
#[cycle(normal)]
fn else_list(
    alloc: Global,
    other: &Option<Box<FlatStmt>>,
    given: u32,
) -> Result<Vec<Op>, AllocError>
    requires room { given + else_room (option_map (λ b. stmt_of b.value) other.now) < 2 ^ 32 }
    ensures { IfOk result (λ list. ops_of list.items ≡ else_ops (option_map (λ b. stmt_of b.value) other.now) given) }
{
    match other {
        Some(stmt) => stmt_list(alloc, stmt, given),
        None => Ok(Vec::new(alloc)),
    }
}

/// `if`, with or without `else`.
#[cycle(normal)]
fn push_if(
    alloc: Global,
    out: &mut Vec<Op>,
    test: &FlatExpr,
    yes: &FlatStmt,
    no: &Option<Box<FlatStmt>>,
    given: u32,
) -> Result<(), AllocError>
    requires room { given + stmt_room (if_flat (expr_of test.now) (stmt_of yes.now) (option_map (λ b. stmt_of b.value) no.now)) < 2 ^ 32 }
    ensures { OnOk result (Puts out.old.items out.new.items (stmt_ops (if_flat (expr_of test.now) (stmt_of yes.now) (option_map (λ b. stmt_of b.value) no.now)) given)) }
{
    push_value(alloc, out, test, given + 1)?;
    let one = stmt_list(alloc, yes, given)?;
    let other = else_list(alloc, no, given)?;
    put_branch(out, test, given + 1, one, other)
}

/// `while`
#[cycle(normal)]
fn push_while(
    alloc: Global,
    out: &mut Vec<Op>,
    test: &FlatExpr,
    body: &FlatStmt,
    given: u32,
) -> Result<(), AllocError>
    requires room { given + stmt_room (WhileFlat (expr_of test.now) (stmt_of body.now)) < 2 ^ 32 }
    ensures { OnOk result (Puts out.old.items out.new.items (stmt_ops (WhileFlat (expr_of test.now) (stmt_of body.now)) given)) }
{
    let head = value_list(alloc, test, given + 1)?;
    let turn = stmt_list(alloc, body, given)?;
    put_loop(
        out,
        head,
        operand_in(test, given + 1),
        turn,
        Vec::new(alloc),
    )
}

/// `do`: the test of the turn before stands in a variable, which is 1 at first.
#[cycle(normal)]
fn push_do(
    alloc: Global,
    out: &mut Vec<Op>,
    body: &FlatStmt,
    test: &FlatExpr,
    given: u32,
) -> Result<(), AllocError>
    requires room { given + stmt_room (DoFlat (stmt_of body.now) (expr_of test.now)) < 2 ^ 32 }
    ensures { OnOk result (Puts out.old.items out.new.items (stmt_ops (DoFlat (stmt_of body.now) (expr_of test.now)) given)) }
{
    let turn = stmt_list(alloc, body, given)?;
    let step = settled_list(alloc, test, given + 1)?;
    put_set(out, given + 1, Operand::Number(1))?;
    put_loop(
        out,
        Vec::new(alloc),
        Operand::Variable(given + 1),
        turn,
        step,
    )
}

/// `for`: where no test is written it holds.
#[cycle(normal)]
fn push_for(
    alloc: Global,
    out: &mut Vec<Op>,
    first: &[FlatStmt],
    test: &Option<Box<FlatExpr>>,
    step: &[FlatStmt],
    body: &FlatStmt,
    given: u32,
) -> Result<(), AllocError>
    requires room { given + stmt_room (ForFlat (flat_trees first.now) (written (option_map (λ b. expr_of b.value) test.now)) (flat_trees step.now) (stmt_of body.now)) < 2 ^ 32 }
    ensures { OnOk result (Puts out.old.items out.new.items (stmt_ops (ForFlat (flat_trees first.now) (written (option_map (λ b. expr_of b.value) test.now)) (flat_trees step.now) (stmt_of body.now)) given)) }
{
    push_stmts(alloc, out, first, given)?;
    let head = right_list(alloc, test, given + 1)?;
    let turn = stmt_list(alloc, body, given)?;
    let behind = stmts_list(alloc, step, given)?;
    put_loop(out, head, operand_right(test, given + 1), turn, behind)
}

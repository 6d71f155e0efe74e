//! Statements that set variables and elements, as operations.
ghost use Rattle.std.specs.Prelude.{◌≡◌, ◌+◌, ◌<◌, ◌^◌, IfOk, OnOk, max, option_map, suc, false, true};
ghost use Rattle.kir.specs.Lists.{Puts};
ghost use Rattle.kir.specs.Shapes.{operand_of, ops_of};
ghost use Rattle.kir.specs.Trees.{NoOps};
ghost use Rattle.ocl_ast.specs.declared.stmts.AssignOp.TheVariants as assign;
ghost use Rattle.ocl_inline.specs.Shapes.{expr_of};
ghost use Rattle.ocl_inline.specs.Trees.{written};
ghost use Rattle.ocl_norm.specs.Normal.{assigned_element, assigned_variable, changed_element, combined_element, combined_variable, declared_ops, return_ops, right_branches as right_branches_of, right_calls as right_calls_of, right_ops, value_ops};
ghost use Rattle.ocl_norm.specs.Rooms.{assigned_room, pair_room, right_room, value_room};
ghost use Rattle.ocl_norm.specs.Standings.{Named, above, right_standing as right_standing_of, standing};

use crate::expressions::push_value;
use crate::occurrences::{right_branches, right_calls};
use crate::operators::put_binary;
use crate::parts::{Element, put_fit, put_load, put_restore, put_return, put_store};
use crate::standings::{Standing, operand_in, operand_right, put_copied, standing_of};
use kir::{Op, Operand, put, put_set};
use ocl_ast::{AssignOp, BinOp, Gives};
use ocl_inline::trees::FlatExpr;
use std::alloc::{AllocError, Global};
use vx_base::Elem;

/// An expression where one is written.
#[cycle(normal)]
fn push_right(
    alloc: Global,
    out: &mut Vec<Op>,
    value: &Option<Box<FlatExpr>>,
    first: u32,
) -> Result<(), AllocError>
    requires room { first + right_room (written (option_map (λ b. expr_of b.value) value.now)) < 2 ^ 32 }
    ensures { OnOk result (Puts out.old.items out.new.items (right_ops (written (option_map (λ b. expr_of b.value) value.now)) first)) }
{
    match value {
        Some(expr) => push_value(alloc, out, expr, first),
        None => Ok(()),
    }
}

/// The same as a list of its own.
#[cycle(normal)]
pub fn right_list(
    alloc: Global,
    value: &Option<Box<FlatExpr>>,
    first: u32,
) -> Result<Vec<Op>, AllocError>
    requires room { first + right_room (written (option_map (λ b. expr_of b.value) value.now)) < 2 ^ 32 }
    ensures { IfOk result (λ list. ops_of list.items ≡ right_ops (written (option_map (λ b. expr_of b.value) value.now)) first NoOps) }
{
    let mut list = Vec::new(alloc);
    push_right(alloc, &mut list, value, first)?;
    Ok(list)
}

/// A variable is 0, and then it has the value that is written.
#[cycle(normal)]
pub fn push_declared(
    alloc: Global,
    out: &mut Vec<Op>,
    variable: u32,
    elem: Elem,
    value: &Option<Box<FlatExpr>>,
    first: u32,
) -> Result<(), AllocError>
    requires room { first + right_room (written (option_map (λ b. expr_of b.value) value.now)) < 2 ^ 32 }
    ensures { OnOk result (Puts out.old.items out.new.items (declared_ops variable elem (written (option_map (λ b. expr_of b.value) value.now)) first)) }
{
    put_set(out, variable, Operand::Number(0))?;
    match value {
        Some(expr) => {
            push_value(alloc, out, expr, first)?;
            put_fit(out, variable, elem, operand_in(expr, first))
        }
        None => Ok(()),
    }
}

/// The variable of a call's result has what the call gives back.
#[cycle(normal)]
pub fn push_returned(
    alloc: Global,
    out: &mut Vec<Op>,
    gives: Gives,
    value: &Option<Box<FlatExpr>>,
    given: u32,
) -> Result<(), AllocError>
    requires room { given + suc (right_room (written (option_map (λ b. expr_of b.value) value.now))) < 2 ^ 32 }
    ensures { OnOk result (Puts out.old.items out.new.items (return_ops gives (written (option_map (λ b. expr_of b.value) value.now)) given)) }
{
    match value {
        Some(expr) => {
            push_value(alloc, out, expr, given + 1)?;
            put_return(out, gives, operand_in(expr, given + 1), given)
        }
        None => put(out, Op::Return),
    }
}

/// The new value of a variable.
#[cycle(normal)]
pub fn push_set_variable(
    alloc: Global,
    out: &mut Vec<Op>,
    op: AssignOp,
    unsigned: bool,
    variable: u32,
    elem: Elem,
    value: &Option<Box<FlatExpr>>,
    first: u32,
) -> Result<(), AllocError>
    requires room { first + assigned_room op (right_room (written (option_map (λ b. expr_of b.value) value.now))) (max 1 (above (right_calls_of (written (option_map (λ b. expr_of b.value) value.now))) (Named variable) (right_room (written (option_map (λ b. expr_of b.value) value.now))))) < 2 ^ 32 }
    ensures { OnOk result (Puts out.old.items out.new.items (assigned_variable op unsigned variable elem (right_ops (written (option_map (λ b. expr_of b.value) value.now))) (right_standing_of (written (option_map (λ b. expr_of b.value) value.now))) (right_calls_of (written (option_map (λ b. expr_of b.value) value.now))) first)) }
{
    match op {
        AssignOp::Set => {
            push_right(alloc, out, value, first)?;
            put_fit(out, variable, elem, operand_right(value, first))
        }
        AssignOp::With(op) => {
            push_combined_variable(alloc, out, op, unsigned, variable, elem, value, first)
        }
        AssignOp::Up => push_combined_variable(
            alloc,
            out,
            BinOp::Add,
            unsigned,
            variable,
            elem,
            value,
            first,
        ),
        AssignOp::Down => push_combined_variable(
            alloc,
            out,
            BinOp::Sub,
            unsigned,
            variable,
            elem,
            value,
            first,
        ),
    }
}

/// The new value of a variable, whose value before is the left side of an operator.
#[cycle(normal)]
fn push_combined_variable(
    alloc: Global,
    out: &mut Vec<Op>,
    op: BinOp,
    unsigned: bool,
    variable: u32,
    elem: Elem,
    value: &Option<Box<FlatExpr>>,
    first: u32,
) -> Result<(), AllocError>
    requires room { first + max 1 (above (right_calls_of (written (option_map (λ b. expr_of b.value) value.now))) (Named variable) (right_room (written (option_map (λ b. expr_of b.value) value.now)))) < 2 ^ 32 }
    ensures { OnOk result (Puts out.old.items out.new.items (combined_variable op unsigned variable elem (right_ops (written (option_map (λ b. expr_of b.value) value.now))) (right_standing_of (written (option_map (λ b. expr_of b.value) value.now))) (right_calls_of (written (option_map (λ b. expr_of b.value) value.now))) first)) }
{
    let held = Standing::Named(variable);
    let calls = right_calls(value);
    let above = held.above(calls, first);
    put_copied(out, calls, held, first)?;
    push_right(alloc, out, value, above)?;
    let right = operand_right(value, above);
    put_binary(out, op, unsigned, held.held(calls, first), right, first)?;
    put_fit(out, variable, elem, Operand::Variable(first))
}

/// The new value of an element.
#[cycle(normal)]
pub fn push_set_element(
    alloc: Global,
    out: &mut Vec<Op>,
    op: AssignOp,
    unsigned: bool,
    element: Element,
    place: &FlatExpr,
    value: &Option<Box<FlatExpr>>,
    first: u32,
) -> Result<(), AllocError>
    requires room { first + assigned_room op (pair_room (value_room (expr_of place.now)) (standing (expr_of place.now)) (right_room (written (option_map (λ b. expr_of b.value) value.now))) (right_calls_of (written (option_map (λ b. expr_of b.value) value.now)))) (pair_room (value_room (expr_of place.now)) (standing (expr_of place.now)) (suc (right_room (written (option_map (λ b. expr_of b.value) value.now)))) (right_calls_of (written (option_map (λ b. expr_of b.value) value.now)))) < 2 ^ 32 }
    ensures { OnOk result (Puts out.old.items out.new.items (assigned_element op unsigned element.array element.elem element.pos (value_ops (expr_of place.now)) (standing (expr_of place.now)) (right_ops (written (option_map (λ b. expr_of b.value) value.now))) (right_standing_of (written (option_map (λ b. expr_of b.value) value.now))) (right_calls_of (written (option_map (λ b. expr_of b.value) value.now))) (right_branches_of (written (option_map (λ b. expr_of b.value) value.now))) first)) }
{
    match op {
        AssignOp::Set => push_stored(alloc, out, element, place, value, first),
        AssignOp::With(op) => {
            push_changed(alloc, out, op, unsigned, element, place, value, first)
        }
        AssignOp::Up => {
            push_changed(
                alloc,
                out,
                BinOp::Add,
                unsigned,
                element,
                place,
                value,
                first,
            )
        }
        AssignOp::Down => {
            push_changed(
                alloc,
                out,
                BinOp::Sub,
                unsigned,
                element,
                place,
                value,
                first,
            )
        }
    }
}

/// A value into an element.
#[cycle(normal)]
fn push_stored(
    alloc: Global,
    out: &mut Vec<Op>,
    element: Element,
    place: &FlatExpr,
    value: &Option<Box<FlatExpr>>,
    first: u32,
) -> Result<(), AllocError>
    requires room { first + pair_room (value_room (expr_of place.now)) (standing (expr_of place.now)) (right_room (written (option_map (λ b. expr_of b.value) value.now))) (right_calls_of (written (option_map (λ b. expr_of b.value) value.now))) < 2 ^ 32 }
    ensures { OnOk result (Puts out.old.items out.new.items (assigned_element assign.Set true element.array element.elem element.pos (value_ops (expr_of place.now)) (standing (expr_of place.now)) (right_ops (written (option_map (λ b. expr_of b.value) value.now))) (right_standing_of (written (option_map (λ b. expr_of b.value) value.now))) (right_calls_of (written (option_map (λ b. expr_of b.value) value.now))) false first)) }
{
    let held = standing_of(place);
    let calls = right_calls(value);
    push_value(alloc, out, place, first)?;
    put_copied(out, calls, held, first)?;
    let above = held.above(calls, first);
    push_right(alloc, out, value, above)?;
    let right = operand_right(value, above);
    put_store(out, element, held.held(calls, first), right)
}

/// An element whose value before is the left side of an operator.
#[cycle(normal)]
fn push_changed(
    alloc: Global,
    out: &mut Vec<Op>,
    op: BinOp,
    unsigned: bool,
    element: Element,
    place: &FlatExpr,
    value: &Option<Box<FlatExpr>>,
    first: u32,
) -> Result<(), AllocError>
    requires room { first + pair_room (value_room (expr_of place.now)) (standing (expr_of place.now)) (suc (right_room (written (option_map (λ b. expr_of b.value) value.now)))) (right_calls_of (written (option_map (λ b. expr_of b.value) value.now))) < 2 ^ 32 }
    ensures { OnOk result (Puts out.old.items out.new.items (changed_element op unsigned element.array element.elem element.pos (value_ops (expr_of place.now)) (standing (expr_of place.now)) (right_ops (written (option_map (λ b. expr_of b.value) value.now))) (right_standing_of (written (option_map (λ b. expr_of b.value) value.now))) (right_calls_of (written (option_map (λ b. expr_of b.value) value.now))) (right_branches_of (written (option_map (λ b. expr_of b.value) value.now))) first)) }
{
    let held = standing_of(place);
    let calls = right_calls(value);
    push_value(alloc, out, place, first)?;
    put_copied(out, calls, held, first)?;
    let index = held.held(calls, first);
    let before = held.above(calls, first);
    push_combined_element(alloc, out, op, unsigned, element, index, value, before)
}

/// The new value of the element at an index, with its value before from the variable `before` on.
#[cycle(normal)]
fn push_combined_element(
    alloc: Global,
    out: &mut Vec<Op>,
    op: BinOp,
    unsigned: bool,
    element: Element,
    index: Operand,
    value: &Option<Box<FlatExpr>>,
    before: u32,
) -> Result<(), AllocError>
    requires room { before + suc (right_room (written (option_map (λ b. expr_of b.value) value.now))) < 2 ^ 32 }
    ensures { OnOk result (Puts out.old.items out.new.items (combined_element op unsigned element.array element.elem element.pos (right_ops (written (option_map (λ b. expr_of b.value) value.now))) (right_standing_of (written (option_map (λ b. expr_of b.value) value.now))) (right_branches_of (written (option_map (λ b. expr_of b.value) value.now))) (operand_of index) before)) }
{
    let left = Operand::Variable(before);
    put_load(out, element, index, before)?;
    push_right(alloc, out, value, before + 1)?;
    let right = operand_right(value, before + 1);
    put_binary(out, op, unsigned, left, right, before)?;
    put_restore(out, right_branches(value), element, index, left)
}

ghost use Rattle.std.specs.Prelude.{◌≡◌, ◌==◌, ◌&&◌, map, nat_le, option_map, Some, IfOk, IfSome};
ghost use Rattle.std.specs.List.{list_all};
ghost use Rattle.ocl_program.specs.Nodes.{arg_nodes};
ghost use Rattle.ocl_program.specs.Shapes.{argument_node, function_node, node_of, stmt_node, typed_stmts};
ghost use Rattle.first_kernels.specs.FirstForms.{applied, assigned, assignment_from, assignments_from, form_from, Gives, IsFit, has_int_arrays, is_int_array, is_own_id, is_count, is_global_id, is_zero, is_zero_literal, literal_from, operator_of, own_parameter, sum_from};
ghost use Rattle.first_kernels.specs.FirstTree.{Grouped, assigns_of, form_of, height, tree_of};

use crate::tree::{Assignment, Kernel, Operator, Sum};
use crate::unread::Unread;
use ocl_ast::{AssignOp, BinOp, Param};
use ocl_program::{Argument, ArrayRef, Builtin, TypedExpr, TypedFunction, TypedStmt};
use std::alloc::Global;
use vx_base::{Elem, ListOf, Memory, ParamKind, Space};

/// The greatest height of a sum.
const MOST_HEIGHT: u32 = 16;

/// The most parameters of a kernel.
const MOST_PARAMETERS: usize = 16;

/// Whether an expression is the int `0`.
fn is_zero_literal(expr: &TypedExpr) -> bool
    ensures { result ≡ is_zero_literal (node_of expr.now) }
{
    match expr {
        TypedExpr::Number { value, unsigned } => !*unsigned && *value == 0,
        _ => false,
    }
}

/// Whether there is one argument, `0`.
fn is_zero(args: &[Argument]) -> bool
    ensures { result ≡ is_zero (arg_nodes (map argument_node args.now)) }
{
    match args {
        [] | [Argument::Array(_), ..] => false,
        [Argument::Value(expr)] => is_zero_literal(expr),
        [Argument::Value(_), Argument::Value(_), ..] => false,
        [Argument::Value(_), Argument::Array(_), ..] => false,
    }
}

fn is_global_id(which: Builtin) -> bool
    ensures { result ≡ is_global_id which }
{
    match which {
        Builtin::GlobalId => true,
        _ => false,
    }
}

/// Whether an expression is `get_global_id(0)`.
#[tactic(auto, using(ocl_program::proofs::Rows::builtin_node))]
fn is_own_id(expr: &TypedExpr) -> bool
    ensures { result ≡ is_own_id (node_of expr.now) }
{
    match expr {
        TypedExpr::Builtin { which, args, .. } => {
            is_global_id(*which) && is_zero(args.as_slice())
        }
        _ => false,
    }
}

fn operator_of(op: BinOp) -> Option<Operator>
    ensures { result ≡ operator_of op }
{
    match op {
        BinOp::Add => Some(Operator::Add),
        BinOp::Sub => Some(Operator::Subtract),
        BinOp::Mul => Some(Operator::Multiply),
        _ => None,
    }
}

/// A literal of type int below 2^31.
fn literal(value: u32, unsigned: bool) -> Result<Sum, Unread>
    ensures { Gives tree_of result (literal_from value unsigned) }
{
    if !unsigned && value < 1 << 31 {
        Ok(Sum::Number(value))
    } else {
        Err(Unread::OtherForm)
    }
}

/// The number of the parameter whose array has this element, where it is the item's own.
fn own_parameter(parameters: u32, array: ArrayRef, elem: Elem, place: &TypedExpr) -> Option<u32>
    ensures { result ≡ own_parameter parameters array elem (node_of place.now) }
{
    match (array, elem) {
        (ArrayRef::Parameter(parameter), Elem::Int) => {
            if is_own_id(place) && parameter < parameters {
                Some(parameter)
            } else {
                None
            }
        }
        _ => None,
    }
}

/// Two sums with an operator between them.
fn joined(alloc: Global, operator: Operator, left: Sum, right: Sum) -> Result<Sum, Unread>
    ensures { Gives tree_of result (applied (Some operator) (Some (tree_of left)) (Some (tree_of right))) }
{
    Ok(Sum::Operation {
        operator,
        left: Box::new(alloc, left)?,
        right: Box::new(alloc, right)?,
    })
}

/// A sum in parentheses.
fn grouped(alloc: Global, sum: Sum) -> Result<Sum, Unread>
    ensures { Gives tree_of result (Some (Grouped (tree_of sum))) }
{
    Ok(Sum::Group(Box::new(alloc, sum)?))
}

/// The sum that an expression over so many parameters is.
fn sum_from(alloc: Global, parameters: u32, expr: &TypedExpr) -> Result<Sum, Unread>
    ensures { Gives tree_of result (sum_from parameters (node_of expr.now)) }
{
    match expr {
        TypedExpr::Number { value, unsigned } => literal(*value, *unsigned),
        TypedExpr::Builtin { .. } => {
            if is_own_id(expr) {
                Ok(Sum::GlobalId)
            } else {
                Err(Unread::OtherForm)
            }
        }
        TypedExpr::Load {
            array,
            elem,
            place,
            ..
        } => {
            let parameter = own_parameter(parameters, *array, *elem, place).ok_or(
                Unread::OtherForm,
            )?;
            Ok(Sum::Element(parameter))
        }
        TypedExpr::Paren(inner) => {
            let sum = sum_from(alloc, parameters, inner)?;
            grouped(alloc, sum)
        }
        TypedExpr::Binary {
            op,
            left,
            right,
            ..
        } => {
            let operator = operator_of(*op).ok_or(Unread::OtherForm)?;
            let left = sum_from(alloc, parameters, left)?;
            let right = sum_from(alloc, parameters, right)?;
            joined(alloc, operator, left, right)
        }
        _ => Err(Unread::OtherForm),
    }
}

/// Whether a sum is at most this high.
fn is_within(sum: &Sum, limit: u32) -> bool
    ensures { result ≡ nat_le (height (tree_of sum.now)) limit }
{
    if limit == 0 {
        return false;
    }
    match sum {
        Sum::Number(_) => true,
        Sum::GlobalId => limit >= 2,
        Sum::Element(_) => limit >= 3,
        Sum::Group(inner) => is_within(inner, limit - 1),
        Sum::Operation { left, right, .. } => {
            if is_within(left, limit - 1) {
                is_within(right, limit - 1)
            } else {
                false
            }
        }
    }
}

/// An expression, whose sum is within the limit, assigned to the element of a parameter's array.
fn assigned(
    alloc: Global,
    parameters: u32,
    parameter: u32,
    value: &TypedExpr,
) -> Result<Assignment, Unread>
    ensures { Gives assigns_of result (assigned parameter (sum_from parameters (node_of value.now))) }
{
    let value = sum_from(alloc, parameters, value)?;
    if is_within(&value, MOST_HEIGHT) {
        Ok(Assignment { parameter, value })
    } else {
        Err(Unread::OtherForm)
    }
}

/// The assignment that a statement is.
fn assignment_from(alloc: Global, parameters: u32, stmt: &TypedStmt) -> Result<Assignment, Unread>
    ensures { Gives assigns_of result (assignment_from parameters (stmt_node stmt.now)) }
{
    match stmt {
        TypedStmt::SetElement {
            array,
            elem,
            place,
            op: AssignOp::Set,
            value: Some(value),
            ..
        } => {
            let parameter = own_parameter(parameters, *array, *elem, place).ok_or(
                Unread::OtherForm,
            )?;
            assigned(alloc, parameters, parameter, value)
        }
        _ => Err(Unread::OtherForm),
    }
}

/// The assignments that statements are, all of them.
fn assignments_from(
    alloc: Global,
    parameters: u32,
    body: &[TypedStmt],
) -> Result<Vec<Assignment>, Unread>
    ensures { Gives (λ all. map assigns_of all.items) result (assignments_from parameters (typed_stmts body.now)) }
{
    let mut assignments = Vec::new(alloc);
    for stmt in body {
        assignments.push(assignment_from(alloc, parameters, stmt)?)?;
    }
    Ok(assignments)
}

/// Whether a parameter takes an array of ints to which the kernel may store.
fn is_int_array(param: &Param) -> bool
    ensures { result ≡ is_int_array param.now }
{
    match param.kind {
        ParamKind::Pointer {
            space: Space::Global,
            elem: Elem::Int,
            readonly: false,
        } => true,
        _ => false,
    }
}

/// Whether a kernel may have so many parameters.
fn is_count(count: usize) -> bool
    ensures { result ≡ is_count count }
{
    0 < count && count <= MOST_PARAMETERS
}

/// Whether each parameter takes an array of ints.
fn are_int_arrays(params: &[Param]) -> bool
    ensures { result ≡ list_all (λ p. is_int_array p) params.now }
{
    params.iter().all(|param| is_int_array(param))
}

/// Whether the parameters of a kernel are as many as they may be, and arrays of ints.
fn has_int_arrays(params: &[Param]) -> bool
    ensures { result ≡ has_int_arrays params.now }
{
    if is_count(params.len()) {
        are_int_arrays(params)
    } else {
        false
    }
}

fn kernel_from(alloc: Global, function: &TypedFunction) -> Result<Kernel, Unread>
    ensures { Gives form_of result (form_from (function_node function.now)) }
{
    if !has_int_arrays(function.params.as_slice()) {
        return Err(Unread::OtherForm);
    }
    let parameters = function.params.len() as u32;
    let assignments = assignments_from(alloc, parameters, function.body.as_slice())?;
    Ok(Kernel {
        parameters,
        assignments: ListOf { items: assignments },
    })
}

/// The kernel of assignments that a resolved kernel is, or None where it is none (`specs/FirstForms.antt`): another
/// statement, type or index, a literal of type uint, or more than 16 parameters are of another form.
pub fn kernel_of(alloc: Global, function: &TypedFunction) -> Result<Option<Kernel>, Memory>
    // There is one exactly where the kernel has a form, and it is the form's.
    ensures found { IfOk result (λ found. option_map form_of found ≡ form_from (function_node function.now)) }
    // It has few parameters, its assignments are to their elements, and its sums are low.
    ensures fit { IfOk result (λ found. IfSome found (λ kernel. IsFit (form_of kernel))) }
{
    match kernel_from(alloc, function) {
        Ok(kernel) => Ok(Some(kernel)),
        Err(Unread::OtherForm) => Ok(None),
        Err(Unread::Memory) => Err(Memory),
    }
}

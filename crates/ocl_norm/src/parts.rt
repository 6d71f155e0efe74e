//! Operations of statements and expressions that no operator stands for.
ghost use Rattle.std.specs.Prelude.{◌≡◌, OnOk};
ghost use Rattle.kir.specs.Lists.{Puts};
ghost use Rattle.kir.specs.Shapes.{operand_of, ops_of};
ghost use Rattle.kir.specs.Trees.{AndOp, Call, Fit, NoOps, NumberOf, Set, VariableOf};
ghost use Rattle.kir.specs.Trees as tree;
ghost use Rattle.ocl_inline.specs.Shapes.{expr_of};
ghost use Rattle.ocl_norm.specs.Normal.{bound_ops, given_ops, load_ops, restore_ops, store_ops};
ghost use Rattle.ocl_norm.specs.Standings.{operand_at, standing};

use crate::standings::operand_in;
use kir::{Op, Operand, call_op, if_op, loop_op, put, put_set};
use ocl_ast::Gives;
use ocl_inline::trees::{Binding, FlatExpr};
use ocl_program::ArrayRef;
use std::alloc::{AllocError, Global};
use vx_base::{Elem, Pos};

/// An element of an array.
#[derive(Clone, Copy, Debug, PartialEq, Eq)]
pub struct Element {
    /// The array.
    pub array: ArrayRef,
    /// The type of its elements.
    pub elem: Elem,
    /// The place of the `[`.
    pub pos: Pos,
}

/// A value cut to a type, into a variable.
pub fn put_fit(
    out: &mut Vec<Op>,
    variable: u32,
    elem: Elem,
    value: Operand,
) -> Result<(), AllocError>
    ensures { OnOk result (Puts out.old.items out.new.items (λ c. AndOp (Fit variable elem (operand_of value)) c)) }
{
    put(
        out,
        Op::Fit {
            variable,
            elem,
            value,
        },
    )
}

/// An index is checked.
fn put_check(out: &mut Vec<Op>, element: Element, index: Operand) -> Result<(), AllocError>
    ensures { OnOk result (Puts out.old.items out.new.items (λ c. AndOp (tree.Check element.array (operand_of index) element.pos) c)) }
{
    put(
        out,
        Op::Check {
            array: element.array,
            index,
            pos: element.pos,
        },
    )
}

/// A load behind its check.
pub fn put_load(
    out: &mut Vec<Op>,
    element: Element,
    index: Operand,
    variable: u32,
) -> Result<(), AllocError>
    ensures { OnOk result (Puts out.old.items out.new.items (load_ops element.array element.elem element.pos (operand_of index) variable)) }
{
    put_check(out, element, index)?;
    put(
        out,
        Op::Load {
            variable,
            array: element.array,
            elem: element.elem,
            index,
        },
    )
}

/// A store whose index is checked already.
fn put_stored(
    out: &mut Vec<Op>,
    element: Element,
    index: Operand,
    value: Operand,
) -> Result<(), AllocError>
    ensures { OnOk result (Puts out.old.items out.new.items (λ c. AndOp (tree.Store element.array element.elem (operand_of index) (operand_of value)) c)) }
{
    put(
        out,
        Op::Store {
            array: element.array,
            elem: element.elem,
            index,
            value,
        },
    )
}

/// A store behind its check.
pub fn put_store(
    out: &mut Vec<Op>,
    element: Element,
    index: Operand,
    value: Operand,
) -> Result<(), AllocError>
    ensures { OnOk result (Puts out.old.items out.new.items (store_ops element.array element.elem element.pos (operand_of index) (operand_of value))) }
{
    put_check(out, element, index)?;
    put_stored(out, element, index, value)
}

/// A store that is checked again only where more than single operations stand between.
pub fn put_restore(
    out: &mut Vec<Op>,
    checks: bool,
    element: Element,
    index: Operand,
    value: Operand,
) -> Result<(), AllocError>
    ensures { OnOk result (Puts out.old.items out.new.items (restore_ops checks element.array element.elem element.pos (operand_of index) (operand_of value))) }
{
    if checks {
        return put_store(out, element, index, value);
    }
    put_stored(out, element, index, value)
}

/// What is done with the value of an argument.
pub fn put_bound(out: &mut Vec<Op>, binding: Binding, value: Operand) -> Result<(), AllocError>
    ensures { OnOk result (Puts out.old.items out.new.items (bound_ops binding (operand_of value))) }
{
    match binding {
        Binding::Variable(variable, elem) => put_fit(out, variable, elem, value),
        Binding::Dropped => Ok(()),
    }
}

/// A value that a function gives back.
fn put_given(out: &mut Vec<Op>, gives: Gives, value: Operand, given: u32) -> Result<(), AllocError>
    ensures { OnOk result (Puts out.old.items out.new.items (given_ops gives (operand_of value) given)) }
{
    match gives {
        Gives::Nothing => put_set(out, given, value),
        Gives::Value(elem) => put_fit(out, given, elem, value),
    }
}

/// A call whose result is 0 at first.
pub fn put_call(out: &mut Vec<Op>, given: u32, body: Vec<Op>) -> Result<(), AllocError>
    ensures { OnOk result (Puts out.old.items out.new.items (λ c. AndOp (Set given (NumberOf 0)) (AndOp (Call (ops_of body.items)) c))) }
{
    put_set(out, given, Operand::Number(0))?;
    put(out, call_op(body))
}

/// A branch.
pub fn put_if(out: &mut Vec<Op>, test: Operand, yes: Vec<Op>, no: Vec<Op>) -> Result<(), AllocError>
    ensures { OnOk result (Puts out.old.items out.new.items (λ c. AndOp (tree.If (operand_of test) (ops_of yes.items) (ops_of no.items)) c)) }
{
    put(out, if_op(test, yes, no))
}

/// A branch by the value of an expression.
pub fn put_branch(
    out: &mut Vec<Op>,
    test: &FlatExpr,
    first: u32,
    yes: Vec<Op>,
    no: Vec<Op>,
) -> Result<(), AllocError>
    ensures { OnOk result (Puts out.old.items out.new.items (λ c. AndOp (tree.If (operand_at (standing (expr_of test.now)) first) (ops_of yes.items) (ops_of no.items)) c)) }
{
    put_if(out, operand_in(test, first), yes, no)
}

/// What runs only where a variable is not 0.
pub fn put_then(
    alloc: Global,
    out: &mut Vec<Op>,
    variable: u32,
    yes: Vec<Op>,
) -> Result<(), AllocError>
    ensures { OnOk result (Puts out.old.items out.new.items (λ c. AndOp (tree.If (VariableOf variable) (ops_of yes.items) NoOps) c)) }
{
    put_if(out, Operand::Variable(variable), yes, Vec::new(alloc))
}

/// What runs only where a variable is 0.
pub fn put_else(
    alloc: Global,
    out: &mut Vec<Op>,
    variable: u32,
    no: Vec<Op>,
) -> Result<(), AllocError>
    ensures { OnOk result (Puts out.old.items out.new.items (λ c. AndOp (tree.If (VariableOf variable) NoOps (ops_of no.items)) c)) }
{
    put_if(out, Operand::Variable(variable), Vec::new(alloc), no)
}

/// A loop.
pub fn put_loop(
    out: &mut Vec<Op>,
    head: Vec<Op>,
    test: Operand,
    body: Vec<Op>,
    step: Vec<Op>,
) -> Result<(), AllocError>
    ensures { OnOk result (Puts out.old.items out.new.items (λ c. AndOp (tree.Loop (ops_of head.items) (operand_of test) (ops_of body.items) (ops_of step.items)) c)) }
{
    put(out, loop_op(head, test, body, step))
}

/// A call is left, behind a value that it gives back.
pub fn put_return(
    out: &mut Vec<Op>,
    gives: Gives,
    value: Operand,
    given: u32,
) -> Result<(), AllocError>
    ensures { OnOk result (Puts out.old.items out.new.items (λ c. given_ops gives (operand_of value) given (AndOp tree.Return c))) }
{
    put_given(out, gives, value, given)?;
    put(out, Op::Return)
}

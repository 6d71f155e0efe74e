//! Operations made of their parts.
ghost use Rattle.std.specs.Prelude.{◌≡◌};
ghost use Rattle.kir.specs.Shapes.{op_of, operand_of, ops_of};
ghost use Rattle.kir.specs.Trees as tree;

use crate::ops::{Op, Operand};

/// A branch.
pub fn if_op(test: Operand, yes: Vec<Op>, no: Vec<Op>) -> Op
    ensures { op_of result ≡ tree.If (operand_of test) (ops_of yes.items) (ops_of no.items) }
{
    Op::If { test, yes, no }
}

/// A loop.
pub fn loop_op(head: Vec<Op>, test: Operand, body: Vec<Op>, step: Vec<Op>) -> Op
    ensures { op_of result ≡ tree.Loop (ops_of head.items) (operand_of test) (ops_of body.items) (ops_of step.items) }
{
    Op::Loop {
        head,
        test,
        body,
        step,
    }
}

/// The body of a helper.
pub fn call_op(body: Vec<Op>) -> Op
    ensures { op_of result ≡ tree.Call (ops_of body.items) }
{
    Op::Call { body }
}

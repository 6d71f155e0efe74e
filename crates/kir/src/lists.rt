//! Lists of operations, as passes make them: one operation behind another.
ghost use Rattle.std.specs.Prelude.{◌≡◌, OnOk};
ghost use Rattle.kir.specs.Lists.{Puts, set_op};
ghost use Rattle.kir.specs.Shapes.{op_of, operand_of};
ghost use Rattle.kir.specs.Trees.{AndOp};

use crate::ops::{Op, Operand};
use std::alloc::AllocError;

/// One operation more behind others.
pub fn put(ops: &mut Vec<Op>, op: Op) -> Result<(), AllocError>
    ensures { OnOk result (Puts ops.old.items ops.new.items (AndOp (op_of op))) }
{
    ops.push(op)?;
    Ok(())
}

/// A value into a variable, behind other operations.
pub fn put_set(ops: &mut Vec<Op>, variable: u32, value: Operand) -> Result<(), AllocError>
    ensures { OnOk result (Puts ops.old.items ops.new.items (set_op variable (operand_of value))) }
{
    put(ops, Op::Set { variable, value })
}

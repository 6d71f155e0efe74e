//! Lists of operations, as they are made: one operation behind another.
ghost use Rattle.std.specs.Prelude.{◌∷◌, OnOk};
ghost use Rattle.kir.specs.Shapes.{operand_of};
ghost use Rattle.vcode.specs.Code.{Compute, Copy, Learn, Word};
ghost use Rattle.vcode.specs.Shapes.{Puts, vop_of};

use crate::ops::{Csr, VOp};
use kir::Operand;
use std::alloc::AllocError;
use vx_base::Alu;

/// One operation more behind others.
pub fn put(ops: &mut Vec<VOp>, op: VOp) -> Result<(), AllocError>
    ensures { OnOk result (Puts ops.old.items ops.new.items (λ c. vop_of op ∷ c)) }
{
    ops.push(op)?;
    Ok(())
}

/// A value into a register.
pub fn put_copy(ops: &mut Vec<VOp>, register: u32, value: Operand) -> Result<(), AllocError>
    ensures { OnOk result (Puts ops.old.items ops.new.items
        (λ c. Copy register (operand_of value) ∷ c)) }
{
    put(ops, VOp::Copy { register, value })
}

/// What an operation on two words gives, into a register.
pub fn put_compute(
    ops: &mut Vec<VOp>,
    register: u32,
    op: Alu,
    left: Operand,
    right: Operand,
) -> Result<(), AllocError>
    ensures { OnOk result (Puts ops.old.items ops.new.items
        (λ c. Compute register op (operand_of left) (operand_of right) ∷ c)) }
{
    put(
        ops,
        VOp::Compute {
            register,
            op,
            left,
            right,
        },
    )
}

/// A word of the launch block into a register.
pub fn put_word(ops: &mut Vec<VOp>, register: u32, word: u32) -> Result<(), AllocError>
    ensures { OnOk result (Puts ops.old.items ops.new.items (λ c. Word register word ∷ c)) }
{
    put(ops, VOp::Word { register, word })
}

/// A control register into a register.
pub fn put_learn(ops: &mut Vec<VOp>, register: u32, csr: Csr) -> Result<(), AllocError>
    ensures { OnOk result (Puts ops.old.items ops.new.items (λ c. Learn register csr ∷ c)) }
{
    put(ops, VOp::Learn { register, csr })
}

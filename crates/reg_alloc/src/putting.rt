//! Instructions put one behind another.
ghost use Rattle.std.specs.Prelude.{◌≡◌, ◌<◌, ◌∷◌, OnOk};
ghost use Rattle.kir.specs.Shapes.{operand_of};
ghost use Rattle.kir.specs.Numbered.{IsBelow};
ghost use Rattle.vx_base.specs.declared.types.Alu.TheVariants as alu;
ghost use Rattle.reg_alloc.specs.Plain.{GetSlot, PutSlot, instr_of, made, right};
ghost use Rattle.reg_alloc.specs.Blocks.{number_before, operand_before, pair_before, right_before, shift_before};
ghost use Rattle.reg_alloc.specs.Views.{Puts, PutsPlain};

use crate::numbers::{lower, upper};
use crate::rows::{FRAME, MADE, RIGHT};
use kir::Operand;
use std::alloc::AllocError;
use vx_base::Alu;
use vx_isa::Instr;

/// One instruction more behind others.
pub fn put(out: &mut Vec<Instr>, i: Instr) -> Result<(), AllocError>
    ensures { OnOk result (Puts out.old.items out.new.items (λ rest. i ∷ rest)) }
{
    out.push(i)?;
    Ok(())
}

/// A word of the frame into a register.
pub fn put_slot_read(out: &mut Vec<Instr>, rd: u32, slot: u32) -> Result<(), AllocError>
    requires { slot < 256 }
    ensures { OnOk result (PutsPlain out.old.items out.new.items (λ ws. GetSlot rd slot ∷ ws)) }
{
    put(
        out,
        Instr::Lw {
            rd,
            imm: 4 * slot,
            rs1: FRAME,
        },
    )
}

/// An instruction that makes a result, and the result into a word of the frame.
pub fn put_made(out: &mut Vec<Instr>, making: Instr, slot: u32) -> Result<(), AllocError>
    requires { slot < 256 }
    ensures { OnOk result (Puts out.old.items out.new.items
        (λ rest. making ∷ instr_of (PutSlot made slot) ∷ rest)) }
{
    put(out, making)?;
    put(
        out,
        Instr::Sw {
            rs2: MADE,
            imm: 4 * slot,
            rs1: FRAME,
        },
    )
}

/// A number in two words into a register.
pub fn put_pair(out: &mut Vec<Instr>, rd: u32, n: u32) -> Result<(), AllocError>
    ensures { OnOk result (PutsPlain out.old.items out.new.items (pair_before rd n)) }
{
    put(out, Instr::Lui { rd, imm: upper(n) })?;
    put(
        out,
        Instr::Addi {
            rd,
            rs1: rd,
            imm: lower(n),
        },
    )
}

/// A number into a register.
fn put_number(out: &mut Vec<Instr>, rd: u32, n: u32) -> Result<(), AllocError>
    ensures { OnOk result (PutsPlain out.old.items out.new.items (number_before rd n)) }
{
    if n == 0 {
        return Ok(());
    }
    if n <= 2047 {
        put(out, Instr::Addi { rd, rs1: 0, imm: n })
    } else {
        put_pair(out, rd, n)
    }
}

/// The value of an operand into a register, unless it is 0.
pub fn put_operand(out: &mut Vec<Instr>, rd: u32, a: Operand) -> Result<(), AllocError>
    requires { IsBelow 256 (operand_of a) }
    ensures { OnOk result (PutsPlain out.old.items out.new.items
        (operand_before rd (operand_of a))) }
{
    match a {
        Operand::Variable(slot) => put_slot_read(out, rd, slot),
        Operand::Number(n) => put_number(out, rd, n),
    }
}

/// A number to shift by, unless it stands in the instruction.
fn put_shift(out: &mut Vec<Instr>, n: u32) -> Result<(), AllocError>
    ensures { OnOk result (PutsPlain out.old.items out.new.items (shift_before n)) }
{
    if n < 32 {
        return Ok(());
    }
    put_number(out, RIGHT, n)
}

/// An operand to shift by.
fn put_amount(out: &mut Vec<Instr>, a: Operand) -> Result<(), AllocError>
    requires { IsBelow 256 (operand_of a) }
    ensures { OnOk result (PutsPlain out.old.items out.new.items
        (right_before alu.Sll (operand_of a))) }
{
    match a {
        Operand::Variable(slot) => put_slot_read(out, RIGHT, slot),
        Operand::Number(n) => put_shift(out, n),
    }
}

/// The second operand of an operation.
pub fn put_right(out: &mut Vec<Instr>, op: Alu, a: Operand) -> Result<(), AllocError>
    requires { IsBelow 256 (operand_of a) }
    ensures { OnOk result (PutsPlain out.old.items out.new.items
        (right_before op (operand_of a))) }
{
    match op {
        Alu::Sll | Alu::Srl | Alu::Sra => put_amount(out, a),
        Alu::Add
        | Alu::Sub
        | Alu::Slt
        | Alu::Sltu
        | Alu::Xor
        | Alu::Or
        | Alu::And
        | Alu::Mul
        | Alu::Mulh
        | Alu::Mulhsu
        | Alu::Mulhu
        | Alu::Div
        | Alu::Divu
        | Alu::Rem
        | Alu::Remu => put_operand(out, RIGHT, a),
    }
}

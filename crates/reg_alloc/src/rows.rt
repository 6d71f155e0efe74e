//! The instruction that computes, loads or stores.
ghost use Rattle.std.specs.Prelude.{◌≡◌};
ghost use Rattle.kir.specs.Shapes.{operand_of};
ghost use Rattle.kir.specs.Trees.{NumberOf};
ghost use Rattle.vx_base.specs.declared.types.Alu.TheVariants as alu;
ghost use Rattle.reg_alloc.specs.Plain.{alu_instr as alu_instr_of};
ghost use Rattle.reg_alloc.specs.Blocks.{compute_word as compute_word_of, csr_number as csr_number_of, cut_word as cut_word_of, load_word as load_word_of, number_register as number_register_of, register_of as register_in, spare_bits as spare_bits_of, store_word as store_word_of};

use kir::Operand;
use vcode::Csr;
use vx_base::{Alu, Elem};
use vx_isa::Instr;

/// The register that has the address of the launch block.
pub const BLOCK: u32 = 3;

/// The register that has the address of the lane's frame.
pub const FRAME: u32 = 4;

/// The register of the first operand.
pub const LEFT: u32 = 5;

/// The register of the second operand.
pub const RIGHT: u32 = 6;

/// The register of the result.
pub const MADE: u32 = 7;

/// The register that has a number once it stands in `rd`: x0 has 0.
fn number_register(rd: u32, n: u32) -> u32
    ensures { result ≡ number_register_of rd n }
{
    match n {
        0 => 0,
        _ => rd,
    }
}

/// The register that has the value of an operand.
pub fn register_of(rd: u32, a: Operand) -> u32
    ensures { result ≡ register_in rd (operand_of a) }
{
    match a {
        Operand::Variable(_) => rd,
        Operand::Number(n) => number_register(rd, n),
    }
}

/// An operation on two registers.
pub fn alu_instr(op: Alu, rd: u32, rs1: u32, rs2: u32) -> Instr
    ensures { result ≡ alu_instr_of op rd rs1 rs2 }
{
    match op {
        Alu::Add => Instr::Add { rd, rs1, rs2 },
        Alu::Sub => Instr::Sub { rd, rs1, rs2 },
        Alu::Sll => Instr::Sll { rd, rs1, rs2 },
        Alu::Slt => Instr::Slt { rd, rs1, rs2 },
        Alu::Sltu => Instr::Sltu { rd, rs1, rs2 },
        Alu::Xor => Instr::Xor { rd, rs1, rs2 },
        Alu::Srl => Instr::Srl { rd, rs1, rs2 },
        Alu::Sra => Instr::Sra { rd, rs1, rs2 },
        Alu::Or => Instr::Or { rd, rs1, rs2 },
        Alu::And => Instr::And { rd, rs1, rs2 },
        Alu::Mul => Instr::Mul { rd, rs1, rs2 },
        Alu::Mulh => Instr::Mulh { rd, rs1, rs2 },
        Alu::Mulhsu => Instr::Mulhsu { rd, rs1, rs2 },
        Alu::Mulhu => Instr::Mulhu { rd, rs1, rs2 },
        Alu::Div => Instr::Div { rd, rs1, rs2 },
        Alu::Divu => Instr::Divu { rd, rs1, rs2 },
        Alu::Rem => Instr::Rem { rd, rs1, rs2 },
        Alu::Remu => Instr::Remu { rd, rs1, rs2 },
    }
}

/// A shift to the left.
fn shift_left(amount: Operand, rs1: u32) -> Instr
    ensures { result ≡ compute_word_of alu.Sll (operand_of amount) rs1 }
{
    let rs2 = register_of(RIGHT, amount);
    match amount {
        Operand::Number(amount) if amount < 32 => Instr::Slli {
            rd: MADE,
            rs1,
            amount,
        },
        _ => Instr::Sll { rd: MADE, rs1, rs2 },
    }
}

/// A shift to the right that brings zeros in.
fn shift_right(amount: Operand, rs1: u32) -> Instr
    ensures { result ≡ compute_word_of alu.Srl (operand_of amount) rs1 }
{
    let rs2 = register_of(RIGHT, amount);
    match amount {
        Operand::Number(amount) if amount < 32 => Instr::Srli {
            rd: MADE,
            rs1,
            amount,
        },
        _ => Instr::Srl { rd: MADE, rs1, rs2 },
    }
}

/// A shift to the right that brings the sign in.
fn shift_signed(amount: Operand, rs1: u32) -> Instr
    ensures { result ≡ compute_word_of alu.Sra (operand_of amount) rs1 }
{
    let rs2 = register_of(RIGHT, amount);
    match amount {
        Operand::Number(amount) if amount < 32 => Instr::Srai {
            rd: MADE,
            rs1,
            amount,
        },
        _ => Instr::Sra { rd: MADE, rs1, rs2 },
    }
}

/// The instruction that computes, of the second operand and of the register of the first.
pub fn compute_instr(op: Alu, b: Operand, a: u32) -> Instr
    ensures { result ≡ compute_word_of op (operand_of b) a }
{
    match op {
        Alu::Sll => shift_left(b, a),
        Alu::Srl => shift_right(b, a),
        Alu::Sra => shift_signed(b, a),
        Alu::Add
        | Alu::Sub
        | Alu::Slt
        | Alu::Sltu
        | Alu::Xor
        | Alu::Or
        | Alu::And
        | Alu::Mul
        | Alu::Mulh
        | Alu::Mulhsu
        | Alu::Mulhu
        | Alu::Div
        | Alu::Divu
        | Alu::Rem
        | Alu::Remu => alu_instr(op, MADE, a, register_of(RIGHT, b)),
    }
}

/// How far a value is shifted left and right again, so that it is cut to a type.
pub fn spare_bits(elem: Elem) -> u32
    ensures { result ≡ spare_bits_of elem }
{
    match elem {
        Elem::Char | Elem::Uchar => 24,
        Elem::Short | Elem::Ushort => 16,
        Elem::Int | Elem::Uint => 0,
    }
}

/// The instruction that shifts right.
pub fn cut_instr(elem: Elem) -> Instr
    ensures { result ≡ cut_word_of elem }
{
    let (rd, rs1, amount) = (MADE, MADE, spare_bits(elem));
    match elem {
        Elem::Char | Elem::Short => Instr::Srai { rd, rs1, amount },
        Elem::Uchar | Elem::Ushort | Elem::Int | Elem::Uint => Instr::Srli { rd, rs1, amount },
    }
}

/// The instruction that loads an element from the address in a register.
pub fn load_instr(elem: Elem, rs1: u32) -> Instr
    ensures { result ≡ load_word_of elem rs1 }
{
    let (rd, imm) = (MADE, 0);
    match elem {
        Elem::Char => Instr::Lb { rd, imm, rs1 },
        Elem::Uchar => Instr::Lbu { rd, imm, rs1 },
        Elem::Short => Instr::Lh { rd, imm, rs1 },
        Elem::Ushort => Instr::Lhu { rd, imm, rs1 },
        Elem::Int | Elem::Uint => Instr::Lw { rd, imm, rs1 },
    }
}

/// The instruction that stores an element there, from a register.
pub fn store_instr(elem: Elem, rs1: u32, rs2: u32) -> Instr
    ensures { result ≡ store_word_of elem rs1 rs2 }
{
    let imm = 0;
    match elem {
        Elem::Char | Elem::Uchar => Instr::Sb { rs2, imm, rs1 },
        Elem::Short | Elem::Ushort => Instr::Sh { rs2, imm, rs1 },
        Elem::Int | Elem::Uint => Instr::Sw { rs2, imm, rs1 },
    }
}

/// The number of a control register.
pub fn csr_number(csr: Csr) -> u32
    ensures { result ≡ csr_number_of csr }
{
    match csr {
        Csr::LaneNumber => 0xcc0,
        Csr::WarpNumber => 0xcc1,
        Csr::CoreNumber => 0xcc2,
        Csr::MaskNow => 0xcc4,
    }
}

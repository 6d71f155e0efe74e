ghost use Rattle.std.specs.Prelude.{◌≡◌, ◌&&◌, None, MatchOption, nat_eq, if◌then◌else◌};
ghost use Rattle.vx_isa.specs.declared.instr.Instr.TheVariants.{Jalr, Slli};
ghost use Rattle.vx_isa.specs.Rows.{branches, differences, fences, funct3_field, immediates, loads, look_up, operations, products, rd_field, right_shifts, row_if, row_of, rows, rs1_field, stores, sums, systems, warps};
ghost use Rattle.vx_isa.specs.Words.{bits, Spells};
ghost use Rattle.vx_isa.specs.declared.instr.Instr as instr;

use crate::bits::bits;
use crate::fields::{
    b_imm, funct3_of, funct7_of, i_imm, j_imm, opcode_of, rd_of, rs1_of, rs2_of, s_imm, u_imm,
};
use vx_isa::Instr;

/// The instruction that a word spells, and None exactly where no instruction is spelled by it.
#[tactic(auto, using(crate::proofs::DecodeLaws::row_in_rows, crate::proofs::DecodeLaws::row_is_spelled))]
pub fn decode(w: u32) -> Option<Instr>
    ensures value { result ≡ row_of w }
    ensures row { MatchOption result ((i : instr.Instr) → ¬ Spells w i) (λ i. Spells w i) }
{
    find_row(opcode_of(w), w)
}

/// The row of a word among those of an opcode.
#[inline]
fn find_row(opcode: u32, w: u32) -> Option<Instr>
    ensures { result ≡ look_up opcode (rows w) }
{
    match opcode {
        0x37 => Some(Instr::Lui {
            rd: rd_of(w),
            imm: u_imm(w),
        }),
        0x17 => Some(Instr::Auipc {
            rd: rd_of(w),
            imm: u_imm(w),
        }),
        0x6f => Some(Instr::Jal {
            rd: rd_of(w),
            place: j_imm(w),
        }),
        0x67 => find_jalr(funct3_of(w), rd_of(w), rs1_of(w), i_imm(w)),
        0x63 => find_branch(funct3_of(w), rs1_of(w), rs2_of(w), b_imm(w)),
        0x03 => find_load(funct3_of(w), rd_of(w), rs1_of(w), i_imm(w)),
        0x23 => find_store(funct3_of(w), rs1_of(w), rs2_of(w), s_imm(w)),
        0x13 => find_immediate(
            funct3_of(w),
            funct7_of(w),
            rd_of(w),
            rs1_of(w),
            rs2_of(w),
            i_imm(w),
        ),
        0x33 => find_operation(funct7_of(w), funct3_of(w), rd_of(w), rs1_of(w), rs2_of(w)),
        0x0f => find_fence(w),
        0x73 => find_system(funct3_of(w), rd_of(w), rs1_of(w), bits(w, 31, 20)),
        0x0b => find_warp_row(funct7_of(w), funct3_of(w), rd_of(w), rs1_of(w), rs2_of(w)),
        _ => None,
    }
}

/// The row of `jalr`.
#[inline]
fn find_jalr(funct3: u32, rd: u32, rs1: u32, imm: u32) -> Option<Instr>
    ensures { result ≡ row_if (nat_eq funct3 0) (Jalr rd imm rs1) }
{
    if funct3 == 0 {
        Some(Instr::Jalr { rd, imm, rs1 })
    } else {
        None
    }
}

/// The rows of the branches.
#[inline]
fn find_branch(funct3: u32, rs1: u32, rs2: u32, place: u32) -> Option<Instr>
    ensures { result ≡ look_up funct3 (branches rs1 rs2 place) }
{
    match funct3 {
        0 => Some(Instr::Beq { rs1, rs2, place }),
        1 => Some(Instr::Bne { rs1, rs2, place }),
        4 => Some(Instr::Blt { rs1, rs2, place }),
        5 => Some(Instr::Bge { rs1, rs2, place }),
        6 => Some(Instr::Bltu { rs1, rs2, place }),
        7 => Some(Instr::Bgeu { rs1, rs2, place }),
        _ => None,
    }
}

/// The rows of the loads.
#[inline]
fn find_load(funct3: u32, rd: u32, rs1: u32, imm: u32) -> Option<Instr>
    ensures { result ≡ look_up funct3 (loads rd rs1 imm) }
{
    match funct3 {
        0 => Some(Instr::Lb { rd, imm, rs1 }),
        1 => Some(Instr::Lh { rd, imm, rs1 }),
        2 => Some(Instr::Lw { rd, imm, rs1 }),
        4 => Some(Instr::Lbu { rd, imm, rs1 }),
        5 => Some(Instr::Lhu { rd, imm, rs1 }),
        _ => None,
    }
}

/// The rows of the stores.
#[inline]
fn find_store(funct3: u32, rs1: u32, rs2: u32, imm: u32) -> Option<Instr>
    ensures { result ≡ look_up funct3 (stores rs1 rs2 imm) }
{
    match funct3 {
        0 => Some(Instr::Sb { rs2, imm, rs1 }),
        1 => Some(Instr::Sh { rs2, imm, rs1 }),
        2 => Some(Instr::Sw { rs2, imm, rs1 }),
        _ => None,
    }
}

/// The rows of arithmetic with an immediate, which is `amount` for a shift.
#[inline]
fn find_immediate(
    funct3: u32,
    funct7: u32,
    rd: u32,
    rs1: u32,
    amount: u32,
    imm: u32,
) -> Option<Instr>
    ensures { result ≡ look_up funct3 (immediates funct7 rd rs1 amount imm) }
{
    match funct3 {
        0 => Some(Instr::Addi { rd, rs1, imm }),
        1 => find_left_shift(funct7, rd, rs1, amount),
        2 => Some(Instr::Slti { rd, rs1, imm }),
        3 => Some(Instr::Sltiu { rd, rs1, imm }),
        4 => Some(Instr::Xori { rd, rs1, imm }),
        5 => find_right_shift(funct7, rd, rs1, amount),
        6 => Some(Instr::Ori { rd, rs1, imm }),
        7 => Some(Instr::Andi { rd, rs1, imm }),
        _ => None,
    }
}

/// The row of the left shift by an amount.
#[inline]
fn find_left_shift(funct7: u32, rd: u32, rs1: u32, amount: u32) -> Option<Instr>
    ensures { result ≡ row_if (nat_eq funct7 0) (Slli rd rs1 amount) }
{
    if funct7 == 0 {
        Some(Instr::Slli { rd, rs1, amount })
    } else {
        None
    }
}

/// The rows of the right shifts by an amount.
#[inline]
fn find_right_shift(funct7: u32, rd: u32, rs1: u32, amount: u32) -> Option<Instr>
    ensures { result ≡ look_up funct7 (right_shifts rd rs1 amount) }
{
    match funct7 {
        0x00 => Some(Instr::Srli { rd, rs1, amount }),
        0x20 => Some(Instr::Srai { rd, rs1, amount }),
        _ => None,
    }
}

/// The rows of operations on two registers.
#[inline]
fn find_operation(funct7: u32, funct3: u32, rd: u32, rs1: u32, rs2: u32) -> Option<Instr>
    ensures { result ≡ look_up funct7 (operations funct3 rd rs1 rs2) }
{
    match funct7 {
        0x00 => find_sum(funct3, rd, rs1, rs2),
        0x20 => find_difference(funct3, rd, rs1, rs2),
        0x01 => find_product(funct3, rd, rs1, rs2),
        _ => None,
    }
}

/// The rows of RV32I's operations on two registers, but two.
#[inline]
fn find_sum(funct3: u32, rd: u32, rs1: u32, rs2: u32) -> Option<Instr>
    ensures { result ≡ look_up funct3 (sums rd rs1 rs2) }
{
    match funct3 {
        0 => Some(Instr::Add { rd, rs1, rs2 }),
        1 => Some(Instr::Sll { rd, rs1, rs2 }),
        2 => Some(Instr::Slt { rd, rs1, rs2 }),
        3 => Some(Instr::Sltu { rd, rs1, rs2 }),
        4 => Some(Instr::Xor { rd, rs1, rs2 }),
        5 => Some(Instr::Srl { rd, rs1, rs2 }),
        6 => Some(Instr::Or { rd, rs1, rs2 }),
        7 => Some(Instr::And { rd, rs1, rs2 }),
        _ => None,
    }
}

/// The rows of the difference and of the shift that keeps the sign.
#[inline]
fn find_difference(funct3: u32, rd: u32, rs1: u32, rs2: u32) -> Option<Instr>
    ensures { result ≡ look_up funct3 (differences rd rs1 rs2) }
{
    match funct3 {
        0 => Some(Instr::Sub { rd, rs1, rs2 }),
        5 => Some(Instr::Sra { rd, rs1, rs2 }),
        _ => None,
    }
}

/// The rows of the M extension.
#[inline]
fn find_product(funct3: u32, rd: u32, rs1: u32, rs2: u32) -> Option<Instr>
    ensures { result ≡ look_up funct3 (products rd rs1 rs2) }
{
    match funct3 {
        0 => Some(Instr::Mul { rd, rs1, rs2 }),
        1 => Some(Instr::Mulh { rd, rs1, rs2 }),
        2 => Some(Instr::Mulhsu { rd, rs1, rs2 }),
        3 => Some(Instr::Mulhu { rd, rs1, rs2 }),
        4 => Some(Instr::Div { rd, rs1, rs2 }),
        5 => Some(Instr::Divu { rd, rs1, rs2 }),
        6 => Some(Instr::Rem { rd, rs1, rs2 }),
        7 => Some(Instr::Remu { rd, rs1, rs2 }),
        _ => None,
    }
}

/// The row of `fence`.
#[inline]
fn find_fence(w: u32) -> Option<Instr>
    ensures { result ≡ look_up (funct3_field w) (fences (rd_field w) (rs1_field w) (bits 31 28 w) (bits 27 24 w) (bits 23 20 w)) }
{
    let is_plain = funct3_of(w) == 0 && rd_of(w) == 0 && rs1_of(w) == 0 && bits(w, 31, 28) == 0;
    if is_plain {
        Some(Instr::Fence {
            before: bits(w, 27, 24),
            after: bits(w, 23, 20),
        })
    } else {
        None
    }
}

/// The rows of `ebreak` and `csrr`.
#[inline]
fn find_system(funct3: u32, rd: u32, rs1: u32, imm: u32) -> Option<Instr>
    ensures { result ≡ look_up funct3 (systems rd rs1 imm) }
{
    match funct3 {
        0 if rd == 0 && rs1 == 0 && imm == 1 => Some(Instr::Ebreak),
        2 if rs1 == 0 && matches!(imm, 0xcc0 | 0xcc1 | 0xcc2 | 0xcc4) => Some(Instr::Csrr {
            rd,
            csr: imm,
        }),
        _ => None,
    }
}

/// The rows of the warp instructions, which leave rd and funct7 zero.
#[inline]
fn find_warp_row(funct7: u32, funct3: u32, rd: u32, rs1: u32, rs2: u32) -> Option<Instr>
    ensures { result ≡ (if nat_eq funct7 0 && nat_eq rd 0 then look_up funct3 (warps rs1 rs2) else None) }
{
    if funct7 != 0 || rd != 0 {
        return None;
    }
    match funct3 {
        0 if rs2 == 0 => Some(Instr::Tmc { rs1 }),
        1 => Some(Instr::Wspawn { rs1, rs2 }),
        2 if rs2 == 0 => Some(Instr::Split { rs1 }),
        3 if rs1 == 0 && rs2 == 0 => Some(Instr::Join),
        4 => Some(Instr::Bar { rs1, rs2 }),
        5 => Some(Instr::Pred { rs1, rs2 }),
        _ => None,
    }
}

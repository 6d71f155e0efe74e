ghost use Rattle.std.specs.Prelude.{◌≡◌, ◌<◌, true};
ghost use Rattle.vx_isa.specs.Words.{b_word, fits_upper, i_word, j_word, r_word, s_word, u_word, word_of, Fits};

use crate::bits::{bits, join};
use vx_isa::Instr;

/// The word that spells an instruction whose operands fit (`Instr::fits`).
pub fn encode(i: Instr) -> u32
    requires { Fits i }
    ensures { result ≡ word_of i }
{
    match i {
        Instr::Lui { rd, imm } => u_word(0x37, rd, imm),
        Instr::Auipc { rd, imm } => u_word(0x17, rd, imm),
        Instr::Jal { rd, place } => j_word(0x6f, rd, place),
        Instr::Jalr { rd, imm, rs1 } => i_word(0x67, 0, rd, rs1, imm),
        Instr::Beq { rs1, rs2, place } => b_word(0x63, 0, rs1, rs2, place),
        Instr::Bne { rs1, rs2, place } => b_word(0x63, 1, rs1, rs2, place),
        Instr::Blt { rs1, rs2, place } => b_word(0x63, 4, rs1, rs2, place),
        Instr::Bge { rs1, rs2, place } => b_word(0x63, 5, rs1, rs2, place),
        Instr::Bltu { rs1, rs2, place } => b_word(0x63, 6, rs1, rs2, place),
        Instr::Bgeu { rs1, rs2, place } => b_word(0x63, 7, rs1, rs2, place),
        Instr::Lb { rd, imm, rs1 } => i_word(0x03, 0, rd, rs1, imm),
        Instr::Lh { rd, imm, rs1 } => i_word(0x03, 1, rd, rs1, imm),
        Instr::Lw { rd, imm, rs1 } => i_word(0x03, 2, rd, rs1, imm),
        Instr::Lbu { rd, imm, rs1 } => i_word(0x03, 4, rd, rs1, imm),
        Instr::Lhu { rd, imm, rs1 } => i_word(0x03, 5, rd, rs1, imm),
        Instr::Sb { rs2, imm, rs1 } => s_word(0x23, 0, rs1, rs2, imm),
        Instr::Sh { rs2, imm, rs1 } => s_word(0x23, 1, rs1, rs2, imm),
        Instr::Sw { rs2, imm, rs1 } => s_word(0x23, 2, rs1, rs2, imm),
        Instr::Addi { rd, rs1, imm } => i_word(0x13, 0, rd, rs1, imm),
        Instr::Slti { rd, rs1, imm } => i_word(0x13, 2, rd, rs1, imm),
        Instr::Sltiu { rd, rs1, imm } => i_word(0x13, 3, rd, rs1, imm),
        Instr::Xori { rd, rs1, imm } => i_word(0x13, 4, rd, rs1, imm),
        Instr::Ori { rd, rs1, imm } => i_word(0x13, 6, rd, rs1, imm),
        Instr::Andi { rd, rs1, imm } => i_word(0x13, 7, rd, rs1, imm),
        Instr::Slli { rd, rs1, amount } => r_word(0x13, 1, 0x00, rd, rs1, amount),
        Instr::Srli { rd, rs1, amount } => r_word(0x13, 5, 0x00, rd, rs1, amount),
        Instr::Srai { rd, rs1, amount } => r_word(0x13, 5, 0x20, rd, rs1, amount),
        Instr::Add { rd, rs1, rs2 } => r_word(0x33, 0, 0x00, rd, rs1, rs2),
        Instr::Sub { rd, rs1, rs2 } => r_word(0x33, 0, 0x20, rd, rs1, rs2),
        Instr::Sll { rd, rs1, rs2 } => r_word(0x33, 1, 0x00, rd, rs1, rs2),
        Instr::Slt { rd, rs1, rs2 } => r_word(0x33, 2, 0x00, rd, rs1, rs2),
        Instr::Sltu { rd, rs1, rs2 } => r_word(0x33, 3, 0x00, rd, rs1, rs2),
        Instr::Xor { rd, rs1, rs2 } => r_word(0x33, 4, 0x00, rd, rs1, rs2),
        Instr::Srl { rd, rs1, rs2 } => r_word(0x33, 5, 0x00, rd, rs1, rs2),
        Instr::Sra { rd, rs1, rs2 } => r_word(0x33, 5, 0x20, rd, rs1, rs2),
        Instr::Or { rd, rs1, rs2 } => r_word(0x33, 6, 0x00, rd, rs1, rs2),
        Instr::And { rd, rs1, rs2 } => r_word(0x33, 7, 0x00, rd, rs1, rs2),
        Instr::Mul { rd, rs1, rs2 } => r_word(0x33, 0, 0x01, rd, rs1, rs2),
        Instr::Mulh { rd, rs1, rs2 } => r_word(0x33, 1, 0x01, rd, rs1, rs2),
        Instr::Mulhsu { rd, rs1, rs2 } => r_word(0x33, 2, 0x01, rd, rs1, rs2),
        Instr::Mulhu { rd, rs1, rs2 } => r_word(0x33, 3, 0x01, rd, rs1, rs2),
        Instr::Div { rd, rs1, rs2 } => r_word(0x33, 4, 0x01, rd, rs1, rs2),
        Instr::Divu { rd, rs1, rs2 } => r_word(0x33, 5, 0x01, rd, rs1, rs2),
        Instr::Rem { rd, rs1, rs2 } => r_word(0x33, 6, 0x01, rd, rs1, rs2),
        Instr::Remu { rd, rs1, rs2 } => r_word(0x33, 7, 0x01, rd, rs1, rs2),
        Instr::Fence { before, after } => i_word(0x0f, 0, 0, 0, join(before, after, 4)),
        Instr::Ebreak => i_word(0x73, 0, 0, 0, 1),
        Instr::Csrr { rd, csr } => i_word(0x73, 2, rd, 0, csr),
        Instr::Tmc { rs1 } => r_word(0x0b, 0, 0x00, 0, rs1, 0),
        Instr::Wspawn { rs1, rs2 } => r_word(0x0b, 1, 0x00, 0, rs1, rs2),
        Instr::Split { rs1 } => r_word(0x0b, 2, 0x00, 0, rs1, 0),
        Instr::Join => r_word(0x0b, 3, 0x00, 0, 0, 0),
        Instr::Bar { rs1, rs2 } => r_word(0x0b, 4, 0x00, 0, rs1, rs2),
        Instr::Pred { rs1, rs2 } => r_word(0x0b, 5, 0x00, 0, rs1, rs2),
    }
}

/// A word of the R format, from bit 31 down.
#[inline]
fn r_word(opcode: u32, funct3: u32, funct7: u32, rd: u32, rs1: u32, rs2: u32) -> u32
    requires opcode { opcode < 128 }
    requires funct3 { funct3 < 8 }
    requires funct7 { funct7 < 128 }
    requires rd { rd < 32 }
    requires rs1 { rs1 < 32 }
    requires rs2 { rs2 < 32 }
    ensures { result ≡ r_word opcode funct3 funct7 rd rs1 rs2 }
{
    let word = join(funct7, rs2, 5);
    let word = join(word, rs1, 5);
    let word = join(word, funct3, 3);
    let word = join(word, rd, 5);
    join(word, opcode, 7)
}

/// A word of the I format: the low 12 bits of the immediate are its bits 31 to 20.
#[inline]
fn i_word(opcode: u32, funct3: u32, rd: u32, rs1: u32, imm: u32) -> u32
    requires opcode { opcode < 128 }
    requires funct3 { funct3 < 8 }
    requires rd { rd < 32 }
    requires rs1 { rs1 < 32 }
    ensures { result ≡ i_word opcode funct3 rd rs1 imm }
{
    let word = join(bits(imm, 11, 0), rs1, 5);
    let word = join(word, funct3, 3);
    let word = join(word, rd, 5);
    join(word, opcode, 7)
}

/// A word of the S format.
#[inline]
fn s_word(opcode: u32, funct3: u32, rs1: u32, rs2: u32, imm: u32) -> u32
    requires opcode { opcode < 128 }
    requires funct3 { funct3 < 8 }
    requires rs1 { rs1 < 32 }
    requires rs2 { rs2 < 32 }
    ensures { result ≡ s_word opcode funct3 rs1 rs2 imm }
{
    let word = join(bits(imm, 11, 5), rs2, 5);
    let word = join(word, rs1, 5);
    let word = join(word, funct3, 3);
    let word = join(word, bits(imm, 4, 0), 5);
    join(word, opcode, 7)
}

/// A word of the B format.
#[inline]
fn b_word(opcode: u32, funct3: u32, rs1: u32, rs2: u32, place: u32) -> u32
    requires opcode { opcode < 128 }
    requires funct3 { funct3 < 8 }
    requires rs1 { rs1 < 32 }
    requires rs2 { rs2 < 32 }
    ensures { result ≡ b_word opcode funct3 rs1 rs2 place }
{
    let word = join(bits(place, 12, 12), bits(place, 10, 5), 6);
    let word = join(word, rs2, 5);
    let word = join(word, rs1, 5);
    let word = join(word, funct3, 3);
    let word = join(word, bits(place, 4, 1), 4);
    let word = join(word, bits(place, 11, 11), 1);
    join(word, opcode, 7)
}

/// A word of the U format.
#[inline]
fn u_word(opcode: u32, rd: u32, imm: u32) -> u32
    requires opcode { opcode < 128 }
    requires fits { fits_upper rd imm ≡ true }
    ensures { result ≡ u_word opcode rd imm }
{
    join(join(imm, rd, 5), opcode, 7)
}

/// A word of the J format.
#[inline]
fn j_word(opcode: u32, rd: u32, place: u32) -> u32
    requires opcode { opcode < 128 }
    requires rd { rd < 32 }
    ensures { result ≡ j_word opcode rd place }
{
    let word = join(bits(place, 20, 20), bits(place, 10, 1), 10);
    let word = join(word, bits(place, 11, 11), 1);
    let word = join(word, bits(place, 19, 12), 8);
    let word = join(word, rd, 5);
    join(word, opcode, 7)
}

//! The fields of a word and its immediates (RISC-V unprivileged manual, "Base Instruction Formats" and "Immediate Encoding
//! Variants").
ghost use Rattle.std.specs.Prelude.{◌≡◌};
ghost use Rattle.vx_isa.specs.Rows.{b_imm, funct3_field, funct7_field, i_imm, j_imm, opcode_field, rd_field, rs1_field, rs2_field, s_imm, u_imm};

use crate::bits::{bits, extend_sign, join};

/// The opcode of a word.
#[inline]
pub(crate) fn opcode_of(w: u32) -> u32
    ensures { result ≡ opcode_field w }
{
    bits(w, 6, 0)
}

/// The field rd of a word.
#[inline]
pub(crate) fn rd_of(w: u32) -> u32
    ensures { result ≡ rd_field w }
{
    bits(w, 11, 7)
}

/// The field funct3 of a word.
#[inline]
pub(crate) fn funct3_of(w: u32) -> u32
    ensures { result ≡ funct3_field w }
{
    bits(w, 14, 12)
}

/// The field rs1 of a word.
#[inline]
pub(crate) fn rs1_of(w: u32) -> u32
    ensures { result ≡ rs1_field w }
{
    bits(w, 19, 15)
}

/// The field rs2 of a word.
#[inline]
pub(crate) fn rs2_of(w: u32) -> u32
    ensures { result ≡ rs2_field w }
{
    bits(w, 24, 20)
}

/// The field funct7 of a word.
#[inline]
pub(crate) fn funct7_of(w: u32) -> u32
    ensures { result ≡ funct7_field w }
{
    bits(w, 31, 25)
}

/// The signed immediate of a word of the I format.
#[inline]
pub(crate) fn i_imm(w: u32) -> u32
    ensures { result ≡ i_imm w }
{
    extend_sign(bits(w, 31, 20), 12)
}

/// The signed immediate of a word of the S format.
#[inline]
pub(crate) fn s_imm(w: u32) -> u32
    ensures { result ≡ s_imm w }
{
    extend_sign(join(bits(w, 31, 25), bits(w, 11, 7), 5), 12)
}

/// The distance in a word of the B format.
#[inline]
pub(crate) fn b_imm(w: u32) -> u32
    ensures { result ≡ b_imm w }
{
    let place = join(bits(w, 31, 31), bits(w, 7, 7), 1);
    let place = join(place, bits(w, 30, 25), 6);
    let place = join(place, bits(w, 11, 8), 4);
    extend_sign(join(place, 0, 1), 13)
}

/// The distance in a word of the J format.
#[inline]
pub(crate) fn j_imm(w: u32) -> u32
    ensures { result ≡ j_imm w }
{
    let place = join(bits(w, 31, 31), bits(w, 19, 12), 8);
    let place = join(place, bits(w, 20, 20), 1);
    let place = join(place, bits(w, 30, 21), 10);
    extend_sign(join(place, 0, 1), 21)
}

/// The immediate of a word of the U format.
#[inline]
pub(crate) fn u_imm(w: u32) -> u32
    ensures { result ≡ u_imm w }
{
    bits(w, 31, 12)
}

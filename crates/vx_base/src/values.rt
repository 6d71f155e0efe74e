//! Arithmetic on 32-bit words, and words cut to the type of an element.
ghost use Rattle.std.specs.Prelude.{◌≡◌, ◌^◌};
ghost use Rattle.vx_base.specs.Bytes.{bytes_of};
ghost use Rattle.vx_base.specs.Values.{alu_value_of, elem_bytes, fitted, floor_div, word_of};

use crate::types::{Alu, Elem, Size};

impl Elem {
    /// The size of an element of this type.
    pub fn size(self) -> Size
        ensures { bytes_of result ≡ elem_bytes self }
    {
        match self {
            Elem::Char | Elem::Uchar => Size::One,
            Elem::Short | Elem::Ushort => Size::Two,
            Elem::Int | Elem::Uint => Size::Four,
        }
    }
}

/// What an operation makes of two words (RISC-V unprivileged manual, chapters RV32I and "M").
pub fn alu_value(op: Alu, a: u32, b: u32) -> u32
    ensures { result ≡ alu_value_of op a b }
{
    match op {
        Alu::Add => a.wrapping_add(b),
        Alu::Sub => a.wrapping_sub(b),
        Alu::Sll => a.wrapping_shl(b),
        Alu::Slt => u32::from(a.cast_signed() < b.cast_signed()),
        Alu::Sltu => u32::from(a < b),
        Alu::Xor => a ^ b,
        Alu::Srl => a.wrapping_shr(b),
        Alu::Sra => a.cast_signed().wrapping_shr(b).cast_unsigned(),
        Alu::Or => a | b,
        Alu::And => a & b,
        Alu::Mul => a.wrapping_mul(b),
        Alu::Mulh => signed_high_word(a, b),
        Alu::Mulhsu => mixed_high_word(a, b),
        Alu::Mulhu => unsigned_high_word(a, b),
        Alu::Div => signed_quotient(a, b),
        Alu::Divu => a.checked_div(b).unwrap_or(u32::MAX),
        Alu::Rem => signed_remainder(a, b),
        Alu::Remu => a.checked_rem(b).unwrap_or(a),
    }
}

/// The high 32 bits of a product.
fn high_word(product: i64) -> u32
    ensures { result ≡ word_of (floor_div product (2 ^ 32)) }
{
    (product.cast_unsigned() >> 32) as u32
}

/// The high word of the product of two signed numbers.
fn signed_high_word(a: u32, b: u32) -> u32
    ensures { result ≡ alu_value_of Alu.Mulh a b }
{
    high_word(i64::from(a.cast_signed()) * i64::from(b.cast_signed()))
}

/// The high word of the product of a signed and an unsigned number.
fn mixed_high_word(a: u32, b: u32) -> u32
    ensures { result ≡ alu_value_of Alu.Mulhsu a b }
{
    high_word(i64::from(a.cast_signed()) * i64::from(b))
}

/// The high word of the product of two unsigned numbers.
fn unsigned_high_word(a: u32, b: u32) -> u32
    ensures { result ≡ alu_value_of Alu.Mulhu a b }
{
    ((u64::from(a) * u64::from(b)) >> 32) as u32
}

/// The signed quotient toward zero, and all ones where the divisor is 0.
fn signed_quotient(a: u32, b: u32) -> u32
    ensures { result ≡ alu_value_of Alu.Div a b }
{
    if b == 0 {
        return u32::MAX;
    }
    a.cast_signed()
        .wrapping_div(b.cast_signed())
        .cast_unsigned()
}

/// The signed remainder, with the sign of the dividend, and the dividend where the divisor is 0.
fn signed_remainder(a: u32, b: u32) -> u32
    ensures { result ≡ alu_value_of Alu.Rem a b }
{
    if b == 0 {
        return a;
    }
    a.cast_signed()
        .wrapping_rem(b.cast_signed())
        .cast_unsigned()
}

/// A word cut to the width of an element, and extended to 32 bits by its sign or by zeros.
pub fn fit(elem: Elem, v: u32) -> u32
    ensures { result ≡ fitted elem v }
{
    match elem {
        Elem::Char => extend_byte(v),
        Elem::Uchar => v & 0xff,
        Elem::Short => extend_half(v),
        Elem::Ushort => v & 0xffff,
        Elem::Int | Elem::Uint => v,
    }
}

/// The low eight bits, extended by their sign.
fn extend_byte(v: u32) -> u32
    ensures { result ≡ fitted Elem.Char v }
{
    i32::from(((v & 0xff) as u8).cast_signed()).cast_unsigned()
}

/// The low sixteen bits, extended by their sign.
fn extend_half(v: u32) -> u32
    ensures { result ≡ fitted Elem.Short v }
{
    i32::from(((v & 0xffff) as u16).cast_signed()).cast_unsigned()
}

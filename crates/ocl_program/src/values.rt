//! What operators make of their values.
ghost use Rattle.std.specs.Prelude.{◌≡◌, ◌-◌, if◌then◌else◌};
ghost use Rattle.vx_base.specs.Values.{alu_value_of};
ghost use Rattle.vx_base.specs.declared.types.Alu.TheVariants as alu;
ghost use Rattle.ocl_program.specs.Values.{binary_value as binary_value_of, by_type as by_type_of, unary_value as unary_value_of};

use ocl_ast::{BinOp, UnOp};
use vx_base::{Alu, alu_value};

/// The value of an operator on two words, whose common type is uint or int; of a shift, the left word's type (C99,
/// sections 6.5.5 to 6.5.12). Division is RISC-V's: by 0 it gives all ones, and a remainder by 0 the dividend.
pub fn binary_value(op: BinOp, unsigned: bool, a: u32, b: u32) -> u32
    ensures { result ≡ binary_value_of op unsigned a b }
{
    match op {
        BinOp::Mul => alu_value(Alu::Mul, a, b),
        BinOp::Div => alu_value(by_type(unsigned, Alu::Divu, Alu::Div), a, b),
        BinOp::Rem => alu_value(by_type(unsigned, Alu::Remu, Alu::Rem), a, b),
        BinOp::Add => alu_value(Alu::Add, a, b),
        BinOp::Sub => alu_value(Alu::Sub, a, b),
        BinOp::Shl => alu_value(Alu::Sll, a, b),
        BinOp::Shr => alu_value(by_type(unsigned, Alu::Srl, Alu::Sra), a, b),
        BinOp::Lt => less(unsigned, a, b),
        BinOp::Gt => less(unsigned, b, a),
        BinOp::Le => not_less(unsigned, b, a),
        BinOp::Ge => not_less(unsigned, a, b),
        BinOp::Eq => u32::from(a == b),
        BinOp::Ne => u32::from(a != b),
        BinOp::And => alu_value(Alu::And, a, b),
        BinOp::Xor => alu_value(Alu::Xor, a, b),
        BinOp::Or => alu_value(Alu::Or, a, b),
    }
}

/// The value of an operator on one word (C99, section 6.5.3.3).
pub fn unary_value(op: UnOp, a: u32) -> u32
    ensures { result ≡ unary_value_of op a }
{
    match op {
        UnOp::Plus => a,
        UnOp::Minus => alu_value(Alu::Sub, 0, a),
        UnOp::Not => u32::from(a == 0),
        UnOp::Flip => alu_value(Alu::Xor, a, u32::MAX),
    }
}

/// Of two operations the one for uint or the one for int.
fn by_type(unsigned: bool, for_uint: Alu, for_int: Alu) -> Alu
    ensures { result ≡ by_type_of unsigned for_uint for_int }
{
    if unsigned { for_uint } else { for_int }
}

/// 1 where one word is less than another, else 0.
fn less(unsigned: bool, a: u32, b: u32) -> u32
    ensures { result ≡ alu_value_of (by_type_of unsigned alu.Sltu alu.Slt) a b }
{
    alu_value(by_type(unsigned, Alu::Sltu, Alu::Slt), a, b)
}

/// 0 where one word is less than another, else 1.
fn not_less(unsigned: bool, a: u32, b: u32) -> u32
    ensures { result ≡ 1 - alu_value_of (by_type_of unsigned alu.Sltu alu.Slt) a b }
{
    1u32.saturating_sub(less(unsigned, a, b))
}

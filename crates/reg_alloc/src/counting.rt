//! How many words the block of each operation has.
ghost use Rattle.std.specs.Prelude.{◌≡◌, ◌≤◌};
ghost use Rattle.kir.specs.Shapes.{operand_of};
ghost use Rattle.vcode.specs.Shapes.{vop_of};
ghost use Rattle.vx_base.specs.declared.types.Alu.TheVariants as alu;
ghost use Rattle.vcode.specs.Words.{number_words as number_words_of, op_words as op_words_of, operand_words as operand_words_of, right_words as right_words_of, shift_words as shift_words_of};

use kir::Operand;
use vcode::VOp;
use vx_base::Alu;

/// The words of a number.
#[tactic(auto, using(crate::proofs::Small::small_words, crate::proofs::Small::large_words))]
fn number_words(n: u32) -> u32
    ensures words { result ≡ number_words_of n }
    ensures few { result ≤ 2 }
{
    if n == 0 {
        return 0;
    }
    if n <= 2047 { 1 } else { 2 }
}

/// The words of an operand.
fn operand_words(a: Operand) -> u32
    ensures words { result ≡ operand_words_of (operand_of a) }
    ensures few { result ≤ 2 }
{
    match a {
        Operand::Variable(_) => 1,
        Operand::Number(n) => number_words(n),
    }
}

/// The words of a number to shift by.
fn shift_words(n: u32) -> u32
    ensures words { result ≡ shift_words_of n }
    ensures few { result ≤ 2 }
{
    if n < 32 { 0 } else { number_words(n) }
}

/// The words of an operand to shift by: a small number stands in the instruction.
fn amount_words(a: Operand) -> u32
    ensures words { result ≡ right_words_of alu.Sll (operand_of a) }
    ensures few { result ≤ 2 }
{
    match a {
        Operand::Variable(_) => 1,
        Operand::Number(n) => shift_words(n),
    }
}

/// The words of the second operand of an operation.
#[tactic(auto, using(crate::proofs::Small::right_amount_words))]
fn right_words(op: Alu, a: Operand) -> u32
    ensures words { result ≡ right_words_of op (operand_of a) }
    ensures few { result ≤ 2 }
{
    match op {
        Alu::Sll | Alu::Srl | Alu::Sra => amount_words(a),
        Alu::Add
        | Alu::Sub
        | Alu::Slt
        | Alu::Sltu
        | Alu::Xor
        | Alu::Or
        | Alu::And
        | Alu::Mul
        | Alu::Mulh
        | Alu::Mulhsu
        | Alu::Mulhu
        | Alu::Div
        | Alu::Divu
        | Alu::Rem
        | Alu::Remu => operand_words(a),
    }
}

/// The words of an operation.
pub fn op_words(op: VOp) -> u32
    ensures words { result ≡ op_words_of (vop_of op) }
    ensures few { result ≤ 10 }
{
    match op {
        VOp::Fresh => 10,
        VOp::Copy { value, .. } => operand_words(value) + 1,
        VOp::Compute {
            op,
            left,
            right,
            ..
        } => operand_words(left) + right_words(op, right) + 2,
        VOp::Cut { value, .. } => operand_words(value) + 3,
        VOp::Word { .. } | VOp::Learn { .. } => 2,
        VOp::WordAt { index, .. } => operand_words(index) + 4,
        VOp::Fetch { address, .. } => operand_words(address) + 2,
        VOp::Write { address, value, .. } => operand_words(address) + operand_words(value) + 1,
        VOp::IfZero { test, .. }
        | VOp::IfNot { test, .. }
        | VOp::Pred { test, .. }
        | VOp::Leaves { test, .. } => operand_words(test) + 2,
        VOp::Split { test } => operand_words(test) + 1,
        VOp::Tmc { mask } => operand_words(mask) + 1,
        VOp::Wspawn { count, .. } => operand_words(count) + 3,
        VOp::Bar { .. } => 4,
        VOp::Goto { .. } | VOp::Again { .. } | VOp::Join | VOp::Trap { .. } => 1,
        VOp::Enter => 0,
    }
}

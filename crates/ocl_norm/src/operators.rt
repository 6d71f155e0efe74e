//! The operations that an operator or a built-in function comes to.
ghost use Rattle.std.specs.Prelude.{◌≡◌, ◌+◌, ◌<◌, ◌^◌, OnOk, suc};
ghost use Rattle.kir.specs.Lists.{Puts};
ghost use Rattle.kir.specs.Shapes.{operand_of};
ghost use Rattle.kir.specs.Trees.{AndOp, Id, NumberOf, VariableOf};
ghost use Rattle.ocl_norm.specs.Operators.{binary_ops, calculated, greatest_ops, inverted, least_ops, less_ops, magnitude_ops, one_ops, picked_ops, truth_ops, two_ops, unary_ops};
ghost use Rattle.ocl_norm.specs.Rooms.{one_room, two_room};
ghost use Rattle.vx_base.specs.declared.types.Alu.TheVariants as alu;
ghost use Rattle.ocl_program.specs.Values.{by_type as by_type_of};

use kir::{Op, Operand, put, put_set};
use ocl_ast::{BinOp, UnOp};
use ocl_program::Builtin;
use std::alloc::AllocError;
use vx_base::Alu;

/// An operation on two words.
fn put_calculated(
    out: &mut Vec<Op>,
    variable: u32,
    op: Alu,
    left: Operand,
    right: Operand,
) -> Result<(), AllocError>
    ensures { OnOk result (Puts out.old.items out.new.items (calculated variable op (operand_of left) (operand_of right))) }
{
    put(
        out,
        Op::Calculate {
            variable,
            op,
            left,
            right,
        },
    )
}

/// Of two operations the one for uint or the one for int.
fn by_type(unsigned: bool, for_uint: Alu, for_int: Alu) -> Alu
    ensures { result ≡ by_type_of unsigned for_uint for_int }
{
    if unsigned { for_uint } else { for_int }
}

/// 1 where a value is not 0, else 0.
pub fn put_truth(out: &mut Vec<Op>, value: Operand, variable: u32) -> Result<(), AllocError>
    ensures { OnOk result (Puts out.old.items out.new.items (truth_ops (operand_of value) variable)) }
{
    put_calculated(out, variable, Alu::Sltu, Operand::Number(0), value)
}

/// An operator before its operand.
pub fn put_unary(
    out: &mut Vec<Op>,
    op: UnOp,
    part: Operand,
    variable: u32,
) -> Result<(), AllocError>
    ensures { OnOk result (Puts out.old.items out.new.items (unary_ops op (operand_of part) variable)) }
{
    match op {
        UnOp::Plus => put_set(out, variable, part),
        UnOp::Minus => put_calculated(out, variable, Alu::Sub, Operand::Number(0), part),
        UnOp::Not => put_calculated(out, variable, Alu::Sltu, part, Operand::Number(1)),
        UnOp::Flip => put_calculated(out, variable, Alu::Xor, part, Operand::Number(u32::MAX)),
    }
}

/// An operation on two words by their type.
fn put_typed(
    out: &mut Vec<Op>,
    variable: u32,
    unsigned: bool,
    for_uint: Alu,
    for_int: Alu,
    left: Operand,
    right: Operand,
) -> Result<(), AllocError>
    ensures { OnOk result (Puts out.old.items out.new.items (calculated variable (by_type_of unsigned for_uint for_int) (operand_of left) (operand_of right))) }
{
    let op = by_type(unsigned, for_uint, for_int);
    put_calculated(out, variable, op, left, right)
}

/// 1 where a value is less than another, else 0.
fn put_less(
    out: &mut Vec<Op>,
    unsigned: bool,
    left: Operand,
    right: Operand,
    variable: u32,
) -> Result<(), AllocError>
    ensures { OnOk result (Puts out.old.items out.new.items (less_ops unsigned (operand_of left) (operand_of right) variable)) }
{
    put_typed(out, variable, unsigned, Alu::Sltu, Alu::Slt, left, right)
}

/// 1 in place of 0, and 0 in place of 1.
fn put_inverted(out: &mut Vec<Op>, variable: u32) -> Result<(), AllocError>
    ensures { OnOk result (Puts out.old.items out.new.items (inverted variable)) }
{
    put_calculated(
        out,
        variable,
        Alu::Xor,
        Operand::Variable(variable),
        Operand::Number(1),
    )
}

/// 1 where a value is not less than another, else 0.
fn put_not_less(
    out: &mut Vec<Op>,
    unsigned: bool,
    left: Operand,
    right: Operand,
    variable: u32,
) -> Result<(), AllocError>
    ensures { OnOk result (Puts out.old.items out.new.items (λ c. less_ops unsigned (operand_of left) (operand_of right) variable (inverted variable c))) }
{
    put_less(out, unsigned, left, right, variable)?;
    put_inverted(out, variable)
}

/// 1 where two values are the same, else 0.
fn put_equal(
    out: &mut Vec<Op>,
    left: Operand,
    right: Operand,
    variable: u32,
) -> Result<(), AllocError>
    ensures { OnOk result (Puts out.old.items out.new.items (λ c. calculated variable alu.Xor (operand_of left) (operand_of right) (calculated variable alu.Sltu (VariableOf variable) (NumberOf 1) c))) }
{
    put_calculated(out, variable, Alu::Xor, left, right)?;
    let differ = Operand::Variable(variable);
    put_calculated(out, variable, Alu::Sltu, differ, Operand::Number(1))
}

/// 1 where two values differ, else 0.
fn put_unequal(
    out: &mut Vec<Op>,
    left: Operand,
    right: Operand,
    variable: u32,
) -> Result<(), AllocError>
    ensures { OnOk result (Puts out.old.items out.new.items (λ c. calculated variable alu.Xor (operand_of left) (operand_of right) (truth_ops (VariableOf variable) variable c))) }
{
    put_calculated(out, variable, Alu::Xor, left, right)?;
    put_truth(out, Operand::Variable(variable), variable)
}

/// An operator between its operands.
pub fn put_binary(
    out: &mut Vec<Op>,
    op: BinOp,
    unsigned: bool,
    left: Operand,
    right: Operand,
    variable: u32,
) -> Result<(), AllocError>
    ensures { OnOk result (Puts out.old.items out.new.items (binary_ops op unsigned (operand_of left) (operand_of right) variable)) }
{
    match op {
        BinOp::Mul => put_calculated(out, variable, Alu::Mul, left, right),
        BinOp::Div => put_typed(out, variable, unsigned, Alu::Divu, Alu::Div, left, right),
        BinOp::Rem => put_typed(out, variable, unsigned, Alu::Remu, Alu::Rem, left, right),
        BinOp::Add => put_calculated(out, variable, Alu::Add, left, right),
        BinOp::Sub => put_calculated(out, variable, Alu::Sub, left, right),
        BinOp::Shl => put_calculated(out, variable, Alu::Sll, left, right),
        BinOp::Shr => put_typed(out, variable, unsigned, Alu::Srl, Alu::Sra, left, right),
        BinOp::Lt => put_less(out, unsigned, left, right, variable),
        BinOp::Gt => put_less(out, unsigned, right, left, variable),
        BinOp::Le => put_not_less(out, unsigned, right, left, variable),
        BinOp::Ge => put_not_less(out, unsigned, left, right, variable),
        BinOp::Eq => put_equal(out, left, right, variable),
        BinOp::Ne => put_unequal(out, left, right, variable),
        BinOp::And => put_calculated(out, variable, Alu::And, left, right),
        BinOp::Xor => put_calculated(out, variable, Alu::Xor, left, right),
        BinOp::Or => put_calculated(out, variable, Alu::Or, left, right),
    }
}

/// The bits that differ, where the variable two behind is 1, and none where it is 0.
fn put_difference(
    out: &mut Vec<Op>,
    left: Operand,
    right: Operand,
    variable: u32,
) -> Result<(), AllocError>
    requires room { variable + 2 < 2 ^ 32 }
    ensures { OnOk result (Puts out.old.items out.new.items (λ c. calculated (suc (suc variable)) alu.Sub (NumberOf 0) (VariableOf (suc (suc variable))) (calculated (suc variable) alu.Xor (operand_of left) (operand_of right) (calculated (suc variable) alu.And (VariableOf (suc variable)) (VariableOf (suc (suc variable))) c)))) }
{
    let bits = variable + 1;
    let mask = variable + 2;
    let masked = Operand::Variable(mask);
    put_calculated(out, mask, Alu::Sub, Operand::Number(0), masked)?;
    put_calculated(out, bits, Alu::Xor, left, right)?;
    put_calculated(out, bits, Alu::And, Operand::Variable(bits), masked)
}

/// Without a branch: the right value where the variable two behind is 1, and the left one where it is 0.
fn put_picked(
    out: &mut Vec<Op>,
    left: Operand,
    right: Operand,
    variable: u32,
) -> Result<(), AllocError>
    requires room { variable + 2 < 2 ^ 32 }
    ensures { OnOk result (Puts out.old.items out.new.items (picked_ops (operand_of left) (operand_of right) variable)) }
{
    put_difference(out, left, right, variable)?;
    let bits = Operand::Variable(variable + 1);
    put_calculated(out, variable, Alu::Xor, left, bits)
}

/// The less of two values.
pub fn put_least(
    out: &mut Vec<Op>,
    unsigned: bool,
    left: Operand,
    right: Operand,
    variable: u32,
) -> Result<(), AllocError>
    requires room { variable + 2 < 2 ^ 32 }
    ensures { OnOk result (Puts out.old.items out.new.items (least_ops unsigned (operand_of left) (operand_of right) variable)) }
{
    put_less(out, unsigned, right, left, variable + 2)?;
    put_picked(out, left, right, variable)
}

/// The greater of two values.
pub fn put_greatest(
    out: &mut Vec<Op>,
    unsigned: bool,
    left: Operand,
    right: Operand,
    variable: u32,
) -> Result<(), AllocError>
    requires room { variable + 2 < 2 ^ 32 }
    ensures { OnOk result (Puts out.old.items out.new.items (greatest_ops unsigned (operand_of left) (operand_of right) variable)) }
{
    put_less(out, unsigned, left, right, variable + 2)?;
    put_picked(out, left, right, variable)
}

/// The value without its sign.
fn put_magnitude(
    out: &mut Vec<Op>,
    unsigned: bool,
    value: Operand,
    variable: u32,
) -> Result<(), AllocError>
    requires room { variable + 1 < 2 ^ 32 }
    ensures { OnOk result (Puts out.old.items out.new.items (magnitude_ops unsigned (operand_of value) variable)) }
{
    if unsigned {
        return put_set(out, variable, value);
    }
    let sign = Operand::Variable(variable + 1);
    put_calculated(out, variable + 1, Alu::Sra, value, Operand::Number(31))?;
    put_calculated(out, variable, Alu::Xor, value, sign)?;
    put_calculated(out, variable, Alu::Sub, Operand::Variable(variable), sign)
}

/// What a built-in function of a dimension gives.
pub fn put_id(
    out: &mut Vec<Op>,
    which: Builtin,
    dimension: Operand,
    variable: u32,
) -> Result<(), AllocError>
    ensures { OnOk result (Puts out.old.items out.new.items (λ c. AndOp (Id variable which (operand_of dimension)) c)) }
{
    put(
        out,
        Op::Id {
            variable,
            which,
            dimension,
        },
    )
}

/// A built-in function of one argument.
pub fn put_one(
    out: &mut Vec<Op>,
    which: Builtin,
    unsigned: bool,
    value: Operand,
    variable: u32,
) -> Result<(), AllocError>
    requires room { variable + one_room which < 2 ^ 32 }
    ensures { OnOk result (Puts out.old.items out.new.items (one_ops which unsigned (operand_of value) variable)) }
{
    match which {
        Builtin::Abs => put_magnitude(out, unsigned, value, variable),
        Builtin::WorkDim
        | Builtin::GlobalId
        | Builtin::LocalId
        | Builtin::GroupId
        | Builtin::GlobalSize
        | Builtin::LocalSize
        | Builtin::NumGroups
        | Builtin::GlobalOffset
        | Builtin::Min
        | Builtin::Max
        | Builtin::Clamp
        | Builtin::MulHi => put_id(out, which, value, variable),
    }
}

/// A built-in function of two arguments.
pub fn put_two(
    out: &mut Vec<Op>,
    which: Builtin,
    unsigned: bool,
    left: Operand,
    right: Operand,
    variable: u32,
) -> Result<(), AllocError>
    requires room { variable + two_room which < 2 ^ 32 }
    ensures { OnOk result (Puts out.old.items out.new.items (two_ops which unsigned (operand_of left) (operand_of right) variable)) }
{
    match which {
        Builtin::Min => put_least(out, unsigned, left, right, variable),
        Builtin::Max => put_greatest(out, unsigned, left, right, variable),
        Builtin::WorkDim
        | Builtin::GlobalId
        | Builtin::LocalId
        | Builtin::GroupId
        | Builtin::GlobalSize
        | Builtin::LocalSize
        | Builtin::NumGroups
        | Builtin::GlobalOffset
        | Builtin::Abs
        | Builtin::Clamp
        | Builtin::MulHi => {
            put_typed(out, variable, unsigned, Alu::Mulhu, Alu::Mulh, left, right)
        }
    }
}

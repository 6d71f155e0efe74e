//! What built-in functions of a dimension give.
ghost use Rattle.std.specs.Prelude.{◌≡◌, ◌+◌, ◌<◌, ◌^◌, ◌∷◌, OnOk};
ghost use Rattle.kir.specs.Shapes.{operand_of};
ghost use Rattle.kir.specs.Trees.{NumberOf, VariableOf};
ghost use Rattle.vcode.specs.Shapes.{Puts};
ghost use Rattle.vcode.specs.Code.{Compute, WordAt};
ghost use Rattle.vx_base.specs.declared.types.Alu.TheVariants as alu;
ghost use Rattle.simt_lowering.specs.Lowered.{group_word, id_code, kept_id, size_word};
ghost use Rattle.simt_lowering.specs.Views.{HasRoom, held_in, known_in, own_in};

use crate::known::Known;
use kir::Operand;
use ocl_program::Builtin;
use std::alloc::AllocError;
use vcode::{VOp, put, put_compute, put_copy, put_word};
use vx_base::Alu;

/// The number of the first register that keeps the local ids.
const LOCAL_IDS: u32 = 2;

/// The same of the global ids.
const GLOBAL_IDS: u32 = 5;

/// What a built-in function gives, into a register.
pub fn put_id(
    out: &mut Vec<VOp>,
    known: &Known<'_>,
    register: u32,
    which: Builtin,
    dimension: Operand,
) -> Result<(), AllocError>
    requires room { HasRoom (known_in known.now) }
    ensures { OnOk result (Puts out.old.items out.new.items
        (id_code (known_in known.now) register which (operand_of dimension))) }
{
    match which {
        Builtin::WorkDim => put_word(out, register, 2),
        Builtin::GlobalId => put_kept_id(out, known, GLOBAL_IDS, register, dimension),
        Builtin::LocalId => put_kept_id(out, known, LOCAL_IDS, register, dimension),
        Builtin::GroupId => put_group_word(out, known, 3, register, dimension),
        Builtin::LocalSize => put_size_word(out, known, 6, register, dimension),
        Builtin::GlobalSize => put_size_word(out, known, 9, register, dimension),
        Builtin::NumGroups => put_size_word(out, known, 12, register, dimension),
        Builtin::GlobalOffset
        | Builtin::Min
        | Builtin::Max
        | Builtin::Clamp
        | Builtin::Abs
        | Builtin::MulHi => put_copy(out, register, Operand::Number(0)),
    }
}

/// An id of a dimension, from the three numbers that are kept of it.
fn put_kept_id(
    out: &mut Vec<VOp>,
    known: &Known<'_>,
    first: u32,
    register: u32,
    dimension: Operand,
) -> Result<(), AllocError>
    requires room { HasRoom (known_in known.now) }
    requires kept { first + 2 < 8 }
    ensures { OnOk result (Puts out.old.items out.new.items
        (kept_id (known_in known.now) first register (operand_of dimension))) }
{
    match dimension {
        Operand::Number(number) => put_named_id(out, known, first, register, number),
        Operand::Variable(variable) => {
            put_scaled_id(out, known, first, variable)?;
            put_limited_id(out, known, first, register, variable)
        }
    }
}

/// The id of a dimension that is a number.
fn put_named_id(
    out: &mut Vec<VOp>,
    known: &Known<'_>,
    first: u32,
    register: u32,
    dimension: u32,
) -> Result<(), AllocError>
    requires room { HasRoom (known_in known.now) }
    requires kept { first + 2 < 8 }
    ensures { OnOk result (Puts out.old.items out.new.items
        (kept_id (known_in known.now) first register (NumberOf dimension))) }
{
    let one = known.held(first);
    match dimension {
        0 => put_copy(out, register, one),
        1 => put_compute(out, register, Alu::Add, one, known.held(first + 1)),
        2 => put_third_id(out, known, first, register),
        _ => put_copy(out, register, Operand::Number(0)),
    }
}

/// The id of the third dimension.
fn put_third_id(
    out: &mut Vec<VOp>,
    known: &Known<'_>,
    first: u32,
    register: u32,
) -> Result<(), AllocError>
    requires room { HasRoom (known_in known.now) }
    requires kept { first + 2 < 8 }
    ensures { OnOk result (Puts out.old.items out.new.items
        (kept_id (known_in known.now) first register (NumberOf 2))) }
{
    let (one, way) = (known.held(first + 1), known.own(0));
    put_compute(out, way, Alu::Add, one, one)?;
    put_compute(out, way, Alu::Add, known.held(0), known.held(first + 2))?;
    put_compute(out, register, Alu::Add, known.held(0), known.held(first))
}

/// Of a dimension in a variable: what is kept of the second and third one, each as often as the dimension says.
fn put_scaled_id(
    out: &mut Vec<VOp>,
    known: &Known<'_>,
    first: u32,
    variable: u32,
) -> Result<(), AllocError>
    requires room { HasRoom (known_in known.now) }
    requires kept { first + 2 < 8 }
    ensures { OnOk result (Puts out.old.items out.new.items
        (λ c. Compute (own_in known.now 0) alu.Mul (VariableOf variable)
        (held_in known.now (first + 1))
        ∷ Compute (own_in known.now 1) alu.Srl (VariableOf variable) (NumberOf 1)
        ∷ Compute (own_in known.now 1) alu.Mul (held_in known.now 1) (held_in known.now (first + 2))
        ∷ c)) }
{
    let dimension = Operand::Variable(variable);
    let (one, two) = (known.own(0), known.own(1));
    put_compute(out, one, Alu::Mul, dimension, known.held(first + 1))?;
    put_compute(out, two, Alu::Srl, dimension, Operand::Number(1))?;
    put_compute(out, two, Alu::Mul, known.held(1), known.held(first + 2))
}

/// And their sum with the first one, which is 0 past the third dimension.
fn put_limited_id(
    out: &mut Vec<VOp>,
    known: &Known<'_>,
    first: u32,
    register: u32,
    variable: u32,
) -> Result<(), AllocError>
    requires room { HasRoom (known_in known.now) }
    requires kept { first + 2 < 8 }
    ensures { OnOk result (Puts out.old.items out.new.items
        (λ c. Compute (own_in known.now 0) alu.Add (held_in known.now 0) (held_in known.now 1)
        ∷ Compute (own_in known.now 0) alu.Add (held_in known.now 0) (held_in known.now first)
        ∷ Compute (own_in known.now 1) alu.Sltu (VariableOf variable) (NumberOf 3)
        ∷ Compute register alu.Mul (held_in known.now 0) (held_in known.now 1) ∷ c)) }
{
    let (one, two) = (known.held(0), known.held(1));
    put_compute(out, known.own(0), Alu::Add, one, two)?;
    put_compute(out, known.own(0), Alu::Add, one, known.held(first))?;
    put_below_three(out, known.own(1), variable)?;
    put_compute(out, register, Alu::Mul, one, two)
}

/// Whether a dimension in a variable is one of the three.
fn put_below_three(out: &mut Vec<VOp>, register: u32, variable: u32) -> Result<(), AllocError>
    ensures { OnOk result (Puts out.old.items out.new.items
        (λ c. Compute register alu.Sltu (VariableOf variable) (NumberOf 3) ∷ c)) }
{
    put_compute(
        out,
        register,
        Alu::Sltu,
        Operand::Variable(variable),
        Operand::Number(3),
    )
}

/// A word of the launch block for each dimension, and 0 past the third.
fn put_group_word(
    out: &mut Vec<VOp>,
    known: &Known<'_>,
    word: u32,
    register: u32,
    dimension: Operand,
) -> Result<(), AllocError>
    requires room { HasRoom (known_in known.now) }
    requires word { word < 16 }
    ensures { OnOk result (Puts out.old.items out.new.items
        (group_word (known_in known.now) word register (operand_of dimension))) }
{
    match dimension {
        Operand::Number(0) => put_word(out, register, word),
        Operand::Number(1) => put_word(out, register, word + 1),
        Operand::Number(2) => put_word(out, register, word + 2),
        Operand::Number(_) => put_copy(out, register, Operand::Number(0)),
        Operand::Variable(variable) => {
            put_word_at(out, known, word, variable)?;
            put_compute(out, register, Alu::Mul, known.held(1), known.held(0))
        }
    }
}

/// The same, and 1 past the third.
fn put_size_word(
    out: &mut Vec<VOp>,
    known: &Known<'_>,
    word: u32,
    register: u32,
    dimension: Operand,
) -> Result<(), AllocError>
    requires room { HasRoom (known_in known.now) }
    requires word { word < 16 }
    ensures { OnOk result (Puts out.old.items out.new.items
        (size_word (known_in known.now) word register (operand_of dimension))) }
{
    match dimension {
        Operand::Number(0) => put_word(out, register, word),
        Operand::Number(1) => put_word(out, register, word + 1),
        Operand::Number(2) => put_word(out, register, word + 2),
        Operand::Number(_) => put_copy(out, register, Operand::Number(1)),
        Operand::Variable(variable) => {
            put_word_at(out, known, word, variable)?;
            put_one_past(out, known, register)
        }
    }
}

/// Of a dimension in a variable: whether it is one of the three, and the word of it or of the first.
fn put_word_at(
    out: &mut Vec<VOp>,
    known: &Known<'_>,
    word: u32,
    variable: u32,
) -> Result<(), AllocError>
    requires room { HasRoom (known_in known.now) }
    ensures { OnOk result (Puts out.old.items out.new.items
        (λ c. Compute (own_in known.now 0) alu.Sltu (VariableOf variable) (NumberOf 3)
        ∷ Compute (own_in known.now 1) alu.Mul (VariableOf variable) (held_in known.now 0)
        ∷ WordAt (own_in known.now 1) (held_in known.now 1) word ∷ c)) }
{
    let dimension = Operand::Variable(variable);
    let (index, register) = (known.held(1), known.own(1));
    put_below_three(out, known.own(0), variable)?;
    put_compute(out, register, Alu::Mul, dimension, known.held(0))?;
    put(
        out,
        VOp::WordAt {
            register,
            index,
            word,
        },
    )
}

/// The word of the second register, or 1 where the first is 0.
fn put_one_past(out: &mut Vec<VOp>, known: &Known<'_>, register: u32) -> Result<(), AllocError>
    requires room { HasRoom (known_in known.now) }
    ensures { OnOk result (Puts out.old.items out.new.items
        (λ c. Compute (own_in known.now 1) alu.Sub (held_in known.now 1) (NumberOf 1)
        ∷ Compute (own_in known.now 1) alu.Mul (held_in known.now 1) (held_in known.now 0)
        ∷ Compute register alu.Add (held_in known.now 1) (NumberOf 1) ∷ c)) }
{
    let (one, two) = (Operand::Number(1), known.held(1));
    put_compute(out, known.own(1), Alu::Sub, two, one)?;
    put_compute(out, known.own(1), Alu::Mul, two, known.held(0))?;
    put_compute(out, register, Alu::Add, two, one)
}

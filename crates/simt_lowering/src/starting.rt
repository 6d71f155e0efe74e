//! The first operations of a kernel.
ghost use Rattle.std.specs.Prelude.{◌≡◌, ◌<◌, ◌≤◌, ◌+◌, ◌^◌, ◌∷◌, ℕ, List, IfOk, OnOk, length};
ghost use Rattle.kir.specs.Trees.{NumberOf};
ghost use Rattle.vcode.specs.Code.{Compute, Fresh, Learn, Tmc, VOp as AnyOp, Word, Wspawn};
ghost use Rattle.vcode.specs.declared.ops.Csr.TheVariants as csr;
ghost use Rattle.vcode.specs.Shapes.{Puts, onto};
ghost use Rattle.vx_base.specs.declared.types.Alu.TheVariants as alu;
ghost use Rattle.simt_lowering.specs.Lowered.{differences, global_id_code, item_lanes, local_ids_code, scalar, scalars, zeroed};
ghost use Rattle.simt_lowering.specs.Views.{HasRoom, held_in, known_in, own_in};

use crate::known::Known;
use kir::Operand;
use ocl_ast::Param;
use std::alloc::AllocError;
use vcode::{Csr, VOp, put, put_compute, put_copy, put_learn, put_word};
use vx_base::{Alu, ParamKind};

/// The place at which the other warps of the group begin.
const SPAWN_PLACE: u32 = 3;

/// Warp 0 starts the other warps of its group.
pub fn put_spawn(out: &mut Vec<VOp>, known: &Known<'_>) -> Result<(), AllocError>
    requires room { HasRoom (known_in known.now) }
    ensures { OnOk result (Puts out.old.items out.new.items
        (λ c. Fresh ∷ Word (own_in known.now 0) 0 ∷ Wspawn (held_in known.now 0) 3 ∷ Fresh ∷ c)) }
{
    let count = known.held(0);
    put(out, VOp::Fresh)?;
    put_word(out, known.own(0), 0)?;
    put(
        out,
        VOp::Wspawn {
            count,
            place: SPAWN_PLACE,
        },
    )?;
    put(out, VOp::Fresh)
}

/// The lanes that have an item go on.
pub fn put_item_lanes(out: &mut Vec<VOp>, known: &Known<'_>) -> Result<(), AllocError>
    requires room { HasRoom (known_in known.now) }
    ensures { OnOk result (Puts out.old.items out.new.items (item_lanes (known_in known.now))) }
{
    put_items_left(out, known)?;
    put_lanes_off(out, known)?;
    put_mask(out, known)
}

/// How many of the group's items are left for the warp and those behind it.
fn put_items_left(out: &mut Vec<VOp>, known: &Known<'_>) -> Result<(), AllocError>
    requires room { HasRoom (known_in known.now) }
    ensures { OnOk result (Puts out.old.items out.new.items
        (λ c. Word (own_in known.now 0) 1
        ∷ Learn (own_in known.now 1) csr.WarpNumber
        ∷ Word (own_in known.now 2) 15
        ∷ Compute (own_in known.now 1) alu.Mul (held_in known.now 1) (held_in known.now 2) ∷ c)) }
{
    let two = known.own(1);
    put_word(out, known.own(0), 1)?;
    put_learn(out, two, Csr::WarpNumber)?;
    put_word(out, known.own(2), 15)?;
    put_compute(out, two, Alu::Mul, known.held(1), known.held(2))
}

/// How many lanes of the warp have no item.
fn put_lanes_off(out: &mut Vec<VOp>, known: &Known<'_>) -> Result<(), AllocError>
    requires room { HasRoom (known_in known.now) }
    ensures { OnOk result (Puts out.old.items out.new.items
        (λ c. Compute (own_in known.now 0) alu.Sub (held_in known.now 0) (held_in known.now 1)
        ∷ Compute (own_in known.now 1) alu.Sltu (held_in known.now 0) (NumberOf 32)
        ∷ Compute (own_in known.now 0) alu.Sub (NumberOf 32) (held_in known.now 0)
        ∷ Compute (own_in known.now 0) alu.Mul (held_in known.now 0) (held_in known.now 1) ∷ c)) }
{
    let (one, two, lanes) = (known.held(0), known.held(1), Operand::Number(32));
    put_compute(out, known.own(0), Alu::Sub, one, two)?;
    put_compute(out, known.own(1), Alu::Sltu, one, lanes)?;
    put_compute(out, known.own(0), Alu::Sub, lanes, one)?;
    put_compute(out, known.own(0), Alu::Mul, one, two)
}

/// Only the other lanes go on.
fn put_mask(out: &mut Vec<VOp>, known: &Known<'_>) -> Result<(), AllocError>
    requires room { HasRoom (known_in known.now) }
    ensures { OnOk result (Puts out.old.items out.new.items
        (λ c. Compute (own_in known.now 0) alu.Srl (NumberOf 0xffffffff) (held_in known.now 0)
        ∷ Tmc (held_in known.now 0) ∷ c)) }
{
    let mask = known.held(0);
    let all = Operand::Number(u32::MAX);
    put_compute(out, known.own(0), Alu::Srl, all, mask)?;
    put(out, VOp::Tmc { mask })
}

/// The first registers become 0.
pub fn put_zeroed(out: &mut Vec<VOp>, registers: u32) -> Result<(), AllocError>
    ensures { OnOk result (Puts out.old.items out.new.items (zeroed 0 registers)) }
{
    for register in 0..registers {
        put_copy(out, register, Operand::Number(0))?;
    }
    Ok(())
}

/// The scalar parameters become the first variables.
pub fn put_scalars(out: &mut Vec<VOp>, params: &[Param]) -> Result<(), AllocError>
    requires few { length params.now ≤ 16 }
    ensures { OnOk result (Puts out.old.items out.new.items (scalars 0 0 params.now)) }
{
    let mut register = 0;
    for k in 0..params.len() {
        register = put_scalar(out, params[k].kind, k as u32, register)?;
    }
    Ok(())
}

/// A parameter that so many parameters and so many scalar ones stand before; how many scalar ones stand before the next.
fn put_scalar(
    out: &mut Vec<VOp>,
    kind: ParamKind,
    number: u32,
    register: u32,
) -> Result<u32, AllocError>
    requires few { number < 16 }
    requires fewer { register ≤ number }
    ensures puts { IfOk result (λ next. (f : ℕ → List AnyOp) →
        onto out.new.items (f next) ≡ onto out.old.items (scalar kind number register f)) }
    ensures fewer { IfOk result (λ next. next ≤ number + 1) }
{
    match kind {
        ParamKind::Scalar(_) => {
            put_word(out, register, 16 + 2 * number)?;
            Ok(register + 1)
        }
        ParamKind::Pointer { .. } => Ok(register),
    }
}

/// The local ids, from the number of the lane's item in its group.
pub fn put_local_ids(out: &mut Vec<VOp>, known: &Known<'_>) -> Result<(), AllocError>
    requires room { HasRoom (known_in known.now) }
    ensures { OnOk result (Puts out.old.items out.new.items (local_ids_code (known_in known.now))) }
{
    put_lanes_before(out, known)?;
    put_item_number(out, known)?;
    put_first_id(out, known)?;
    put_later_ids(out, known)
}

/// How many lanes stand in the warps before.
fn put_lanes_before(out: &mut Vec<VOp>, known: &Known<'_>) -> Result<(), AllocError>
    requires room { HasRoom (known_in known.now) }
    ensures { OnOk result (Puts out.old.items out.new.items
        (λ c. Learn (own_in known.now 0) csr.WarpNumber
        ∷ Word (own_in known.now 1) 15
        ∷ Compute (own_in known.now 0) alu.Mul (held_in known.now 0) (held_in known.now 1) ∷ c)) }
{
    let one = known.own(0);
    put_learn(out, one, Csr::WarpNumber)?;
    put_word(out, known.own(1), 15)?;
    put_compute(out, one, Alu::Mul, known.held(0), known.held(1))
}

/// The number of the lane's item.
fn put_item_number(out: &mut Vec<VOp>, known: &Known<'_>) -> Result<(), AllocError>
    requires room { HasRoom (known_in known.now) }
    ensures { OnOk result (Puts out.old.items out.new.items
        (λ c. Learn (own_in known.now 1) csr.LaneNumber
        ∷ Compute (own_in known.now 0) alu.Add (held_in known.now 0) (held_in known.now 1) ∷ c)) }
{
    let one = known.own(0);
    put_learn(out, known.own(1), Csr::LaneNumber)?;
    put_compute(out, one, Alu::Add, known.held(0), known.held(1))
}

/// Its id in the first dimension, and its number in the others.
fn put_first_id(out: &mut Vec<VOp>, known: &Known<'_>) -> Result<(), AllocError>
    requires room { HasRoom (known_in known.now) }
    ensures { OnOk result (Puts out.old.items out.new.items
        (λ c. Word (own_in known.now 1) 6
        ∷ Compute (own_in known.now 2) alu.Remu (held_in known.now 0) (held_in known.now 1)
        ∷ Compute (own_in known.now 0) alu.Divu (held_in known.now 0) (held_in known.now 1) ∷ c)) }
{
    let (one, two) = (known.held(0), known.held(1));
    put_word(out, known.own(1), 6)?;
    put_compute(out, known.own(2), Alu::Remu, one, two)?;
    put_compute(out, known.own(0), Alu::Divu, one, two)
}

/// Its ids in the second and third dimension.
fn put_later_ids(out: &mut Vec<VOp>, known: &Known<'_>) -> Result<(), AllocError>
    requires room { HasRoom (known_in known.now) }
    ensures { OnOk result (Puts out.old.items out.new.items
        (λ c. Word (own_in known.now 1) 7
        ∷ Compute (own_in known.now 3) alu.Remu (held_in known.now 0) (held_in known.now 1)
        ∷ Compute (own_in known.now 4) alu.Divu (held_in known.now 0) (held_in known.now 1) ∷ c)) }
{
    let (one, two) = (known.held(0), known.held(1));
    put_word(out, known.own(1), 7)?;
    put_compute(out, known.own(3), Alu::Remu, one, two)?;
    put_compute(out, known.own(4), Alu::Divu, one, two)
}

/// The global id of a dimension.
pub fn put_global_id(
    out: &mut Vec<VOp>,
    known: &Known<'_>,
    dimension: u32,
) -> Result<(), AllocError>
    requires room { HasRoom (known_in known.now) }
    requires dimension { dimension < 3 }
    ensures { OnOk result (Puts out.old.items out.new.items
        (global_id_code (known_in known.now) dimension)) }
{
    let (one, two) = (known.held(0), known.held(1));
    put_word(out, known.own(0), 3 + dimension)?;
    put_word(out, known.own(1), 6 + dimension)?;
    put_compute(out, known.own(0), Alu::Mul, one, two)?;
    put_compute(
        out,
        known.own(5 + dimension),
        Alu::Add,
        one,
        known.held(2 + dimension),
    )
}

/// Three ids become the three numbers that are kept of them.
pub fn put_differences(out: &mut Vec<VOp>, known: &Known<'_>, first: u32) -> Result<(), AllocError>
    requires room { HasRoom (known_in known.now) }
    requires kept { first + 2 < 8 }
    ensures { OnOk result (Puts out.old.items out.new.items
        (differences (known_in known.now) first)) }
{
    let (two, three) = (known.held(first + 1), known.held(first + 2));
    put_compute(out, known.own(first + 2), Alu::Sub, three, two)?;
    put_compute(out, known.own(first + 1), Alu::Sub, two, known.held(first))?;
    put_compute(out, known.own(first + 2), Alu::Sub, three, two)
}

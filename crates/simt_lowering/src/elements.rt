//! Elements of arrays: loads, stores and checks.
ghost use Rattle.std.specs.Prelude.{◌≡◌, ◌<◌, ◌^◌, ◌∷◌, OnOk};
ghost use Rattle.kir.specs.Shapes.{operand_of};
ghost use Rattle.kir.specs.Trees.{NumberOf};
ghost use Rattle.vcode.specs.Code.{Compute, Copy, Fetch, IfNot, Trap, Write};
ghost use Rattle.vcode.specs.Shapes.{Puts, vop_of};
ghost use Rattle.vx_base.specs.declared.types.Alu.TheVariants as alu;
ghost use Rattle.simt_lowering.specs.Lowered.{address, check_end, checked, counted as counted_of, shift_of, started as started_of};
ghost use Rattle.simt_lowering.specs.Views.{HasRoom, held_in, known_in, own_in};

use crate::known::Known;
use crate::warps::{past, put_join, put_split};
use kir::Operand;
use ocl_program::ArrayRef;
use std::alloc::AllocError;
use vcode::{VOp, put, put_compute};
use vx_base::{Alu, Elem, Pos};

/// By how many bits an index is shifted to be a number of bytes.
fn shift(elem: Elem) -> u32
    ensures { result ≡ shift_of elem }
{
    match elem {
        Elem::Char | Elem::Uchar => 0,
        Elem::Short | Elem::Ushort => 1,
        Elem::Int | Elem::Uint => 2,
    }
}

/// The operation that gives the address of an array, or 0 if there is no such array.
fn started(known: &Known<'_>, array: ArrayRef) -> VOp
    requires room { HasRoom (known_in known.now) }
    ensures { vop_of result ≡ started_of (known_in known.now) array }
{
    let register = known.own(0);
    match array {
        ArrayRef::Parameter(number) => match known.params.get(number as usize) {
            Some(_) => VOp::Word {
                register,
                word: 16 + 2 * number,
            },
            None => cleared(register),
        },
        ArrayRef::Declared(number) => match known.arrays.get(number as usize) {
            Some(_) => VOp::Word {
                register,
                word: 48 + number,
            },
            None => cleared(register),
        },
    }
}

/// The operation that gives the count of an array, or 0 if there is no such array.
fn counted(known: &Known<'_>, array: ArrayRef) -> VOp
    requires room { HasRoom (known_in known.now) }
    ensures { vop_of result ≡ counted_of (known_in known.now) array }
{
    let register = known.own(0);
    match array {
        ArrayRef::Parameter(number) => match known.params.get(number as usize) {
            Some(_) => VOp::Word {
                register,
                word: 17 + 2 * number,
            },
            None => cleared(register),
        },
        ArrayRef::Declared(number) => match known.arrays.get(number as usize) {
            Some(declared) => VOp::Copy {
                register,
                value: Operand::Number(declared.count),
            },
            None => cleared(register),
        },
    }
}

/// A register becomes 0.
fn cleared(register: u32) -> VOp
    ensures { vop_of result ≡ Copy register (NumberOf 0) }
{
    VOp::Copy {
        register,
        value: Operand::Number(0),
    }
}

/// The address of an element, into the first register of the lowering's own.
fn put_address(
    out: &mut Vec<VOp>,
    known: &Known<'_>,
    array: ArrayRef,
    elem: Elem,
    index: Operand,
) -> Result<(), AllocError>
    requires room { HasRoom (known_in known.now) }
    ensures { OnOk result (Puts out.old.items out.new.items
        (address (known_in known.now) array elem (operand_of index))) }
{
    put(out, started(known, array))?;
    put_compute(
        out,
        known.own(1),
        Alu::Sll,
        index,
        Operand::Number(shift(elem)),
    )?;
    put_compute(out, known.own(0), Alu::Add, known.held(0), known.held(1))
}

/// An element into a variable.
pub fn put_load(
    out: &mut Vec<VOp>,
    known: &Known<'_>,
    register: u32,
    array: ArrayRef,
    elem: Elem,
    index: Operand,
) -> Result<(), AllocError>
    requires room { HasRoom (known_in known.now) }
    ensures { OnOk result (Puts out.old.items out.new.items
        (λ c. address (known_in known.now) array elem (operand_of index)
        (Fetch register elem (held_in known.now 0) ∷ c))) }
{
    put_address(out, known, array, elem, index)?;
    put(
        out,
        VOp::Fetch {
            register,
            elem,
            address: known.held(0),
        },
    )
}

/// A value into an element.
pub fn put_store(
    out: &mut Vec<VOp>,
    known: &Known<'_>,
    array: ArrayRef,
    elem: Elem,
    index: Operand,
    value: Operand,
) -> Result<(), AllocError>
    requires room { HasRoom (known_in known.now) }
    ensures { OnOk result (Puts out.old.items out.new.items
        (λ c. address (known_in known.now) array elem (operand_of index)
        (Write elem (held_in known.now 0) (operand_of value) ∷ c))) }
{
    put_address(out, known, array, elem, index)?;
    put(
        out,
        VOp::Write {
            elem,
            address: known.held(0),
            value,
        },
    )
}

/// Whether an index is below the count of an array, into the first register of the lowering's own.
pub fn put_compared(
    out: &mut Vec<VOp>,
    known: &Known<'_>,
    array: ArrayRef,
    index: Operand,
) -> Result<(), AllocError>
    requires room { HasRoom (known_in known.now) }
    ensures { OnOk result (Puts out.old.items out.new.items
        (λ c. counted_of (known_in known.now) array
        ∷ Compute (own_in known.now 0) alu.Sltu (operand_of index) (held_in known.now 0) ∷ c)) }
{
    put(out, counted(known, array))?;
    put_compute(out, known.own(0), Alu::Sltu, index, known.held(0))
}

/// A trap from a place on, unless the first register of the lowering's own is not 0.
pub fn put_checked(
    out: &mut Vec<VOp>,
    known: &Known<'_>,
    uniform: bool,
    pos: Pos,
    place: u32,
) -> Result<(), AllocError>
    requires room { HasRoom (known_in known.now) }
    requires fits { check_end uniform place < 2 ^ 32 }
    ensures { OnOk result (Puts out.old.items out.new.items
        (checked (known_in known.now) uniform pos place)) }
{
    let test = known.held(0);
    put_split(out, uniform, test)?;
    put_trap(out, test, pos, past(uniform, place) + 2)?;
    put_join(out, uniform)
}

/// A trap, and a way round it to a place where an operand is not 0.
fn put_trap(out: &mut Vec<VOp>, test: Operand, pos: Pos, place: u32) -> Result<(), AllocError>
    ensures { OnOk result (Puts out.old.items out.new.items
        (λ c. IfNot (operand_of test) place ∷ Trap pos ∷ c)) }
{
    put(out, VOp::IfNot { test, place })?;
    put(out, VOp::Trap { pos })
}

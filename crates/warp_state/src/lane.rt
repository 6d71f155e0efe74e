ghost use Rattle.std.specs.Prelude.{◌≡◌, MatchResult};
ghost use Rattle.vx_isa.specs.Warps.{loaded, loaded_as, value_in, with_register};
ghost use Rattle.vx_isa.specs.WarpSteps.{choice_of, csr_value, field_fault, leads_to, way_fault};
ghost use Rattle.warp_state.specs.Acts.{HasActed, HasTrapped, LoadsField, RefusesField, StoresField};
ghost use Rattle.warp_state.specs.Lanes.{idle, registers_of};

use crate::memory::LaneMemory;
use vx_base::{Elem, Size, fit};
use vx_isa::{Ids, LaneEffect, MachineTrap};

/// One lane of a warp.
#[derive(Clone, Copy, Debug, PartialEq, Eq)]
pub struct Lane {
    /// The registers x0 to x31.
    pub registers: [u32; 32],
}

/// What the active lanes of a warp share while they do an instruction.
#[derive(Clone, Copy, Debug, PartialEq, Eq)]
pub struct Shared {
    /// The numbers of the warp.
    pub ids: Ids,
    /// The active lanes.
    pub mask: u32,
    /// The address of the instruction.
    pub pc: u32,
    /// The register that the instruction reads first.
    pub rs1: u32,
    /// The register that the instruction reads second.
    pub rs2: u32,
    /// What the least active lane chose.
    pub chosen: u32,
}

impl Lane {
    /// A lane whose registers are all 0.
    pub fn new() -> Lane
        ensures { result ≡ idle }
    {
        Lane { registers: [0; 32] }
    }

    /// What a register reads as. x0 reads as 0.
    #[inline]
    pub fn value(&self, register: u32) -> u32
        ensures { result ≡ value_in (registers_of self.now) register }
    {
        if register == 0 {
            return 0;
        }
        self.registers.get(register as usize).copied().unwrap_or(0)
    }

    /// Puts a value into a register. x0 is never changed.
    #[inline]
    fn set(&mut self, register: u32, value: u32)
        ensures { registers_of self.new ≡ with_register register value (registers_of self.old) }
    {
        if 0 < register && register < 32 {
            self.registers[register as usize] = value;
        }
    }
}

/// The type as which a load reads its field.
#[inline]
fn loaded_as(size: Size, signed: bool) -> Elem
    ensures { result ≡ loaded_as size signed }
{
    match (size, signed) {
        (Size::One, true) => Elem::Char,
        (Size::One, false) => Elem::Uchar,
        (Size::Two, true) => Elem::Short,
        (Size::Two, false) => Elem::Ushort,
        (Size::Four, _) => Elem::Uint,
    }
}

/// What a control register reads as in a lane.
fn csr_value(shared: &Shared, lane: u32, csr: u32) -> u32
    ensures { result ≡ csr_value shared.now.ids shared.now.mask lane csr }
{
    match csr {
        0xcc0 => lane,
        0xcc1 => shared.ids.warp,
        0xcc2 => shared.ids.core,
        _ => shared.mask,
    }
}

/// Where an effect leads from an instruction.
pub fn leads_to(pc: u32, did: LaneEffect) -> u32
    ensures { result ≡ leads_to pc did }
{
    match did {
        LaneEffect::Branch {
            taken: true,
            target,
        }
        | LaneEffect::Jump { target, .. } => target,
        _ => pc.wrapping_add(4),
    }
}

/// What the active lanes have to agree on: the outcome of a branch, the target of a jump.
pub fn choice_of(did: LaneEffect) -> u32
    ensures { result ≡ choice_of did }
{
    match did {
        LaneEffect::Branch { taken, .. } => u32::from(taken),
        LaneEffect::Jump { target, .. } => target,
        _ => 0,
    }
}

/// Whether a lane can go where its effect leads, and else why not.
fn check_way(shared: &Shared, did: LaneEffect) -> Result<(), MachineTrap>
    ensures { MatchResult result
        (λ _. way_fault shared.now.pc shared.now.chosen did ≡ None)
        (λ fault. way_fault shared.now.pc shared.now.chosen did ≡ Some fault) }
{
    if choice_of(did) != shared.chosen {
        return Err(MachineTrap::Split);
    }
    if leads_to(shared.pc, did) % 4 != 0 {
        return Err(MachineTrap::Misaligned);
    }
    Ok(())
}

/// A lane loads a field into a register.
fn load<M: LaneMemory>(
    lane: &mut Lane,
    memory: &mut M,
    rd: u32,
    address: u32,
    size: Size,
    signed: bool,
) -> Result<(), MachineTrap>
    requires { M.is_sound memory.old }
    ensures loaded { MatchResult result
        (λ _. LoadsField M.acts (M.has memory.old) rd address size signed (registers_of lane.old) memory.old (registers_of lane.new) memory.new)
        (λ fault. RefusesField (M.has memory.old) address size fault (registers_of lane.old) memory.old (registers_of lane.new) memory.new) }
    ensures same_fields { M.has memory.new ≡ M.has memory.old }
    ensures sound { M.is_sound memory.new }
{
    if address % size.bytes() != 0 {
        return Err(MachineTrap::Misaligned);
    }
    match memory.read(address, size) {
        Some(answer) => {
            lane.set(rd, fit(loaded_as(size, signed), answer));
            Ok(())
        }
        None => Err(MachineTrap::Bus),
    }
}

/// A lane stores the low bytes of a value to a field.
fn store<M: LaneMemory>(
    memory: &mut M,
    address: u32,
    size: Size,
    value: u32,
) -> Result<(), MachineTrap>
    requires { M.is_sound memory.old }
    ensures stored { MatchResult result
        (λ _. StoresField M.acts (M.has memory.old) address size value memory.old memory.new)
        (λ fault. (field_fault (M.has memory.old) address size ≡ Some fault) × (memory.new ≡ memory.old)) }
    ensures same_fields { M.has memory.new ≡ M.has memory.old }
    ensures sound { M.is_sound memory.new }
{
    if address % size.bytes() != 0 {
        return Err(MachineTrap::Misaligned);
    }
    if memory.write(address, size, value) {
        Ok(())
    } else {
        Err(MachineTrap::Bus)
    }
}

/// The lane with this number does its effect. A lane that traps leaves all as it was.
pub fn act<M: LaneMemory>(
    lane: &mut Lane,
    number: u32,
    shared: &Shared,
    did: LaneEffect,
    memory: &mut M,
) -> Result<(), MachineTrap>
    requires { M.is_sound memory.old }
    ensures acted { MatchResult result
        (λ _. HasActed M.acts (M.has memory.old) shared.now.ids shared.now.mask number shared.now.pc shared.now.chosen did (registers_of lane.old) memory.old (registers_of lane.new) memory.new)
        (λ fault. HasTrapped (M.has memory.old) shared.now.pc shared.now.chosen did fault (registers_of lane.old) memory.old (registers_of lane.new) memory.new) }
    ensures same_fields { M.has memory.new ≡ M.has memory.old }
    ensures sound { M.is_sound memory.new }
{
    match did {
        LaneEffect::Write { rd, value } => {
            lane.set(rd, value);
            Ok(())
        }
        LaneEffect::Load {
            rd,
            address,
            size,
            signed,
        } => load(lane, memory, rd, address, size, signed),
        LaneEffect::Store {
            address,
            size,
            value,
        } => store(memory, address, size, value),
        LaneEffect::Branch { .. } => check_way(shared, did),
        LaneEffect::Jump { rd, link, .. } => jump(lane, shared, did, rd, link),
        LaneEffect::Csr { rd, csr } => {
            lane.set(rd, csr_value(shared, number, csr));
            Ok(())
        }
        LaneEffect::Break => Err(MachineTrap::Break),
        LaneEffect::Warp | LaneEffect::Nothing => Ok(()),
    }
}

/// A lane jumps and leaves the link in a register.
fn jump(
    lane: &mut Lane,
    shared: &Shared,
    did: LaneEffect,
    rd: u32,
    link: u32,
) -> Result<(), MachineTrap>
    ensures { MatchResult result
        (λ _. (way_fault shared.now.pc shared.now.chosen did ≡ None) × (registers_of lane.new ≡ with_register rd link (registers_of lane.old)))
        (λ fault. (way_fault shared.now.pc shared.now.chosen did ≡ Some fault) × (registers_of lane.new ≡ registers_of lane.old)) }
{
    check_way(shared, did)?;
    lane.set(rd, link);
    Ok(())
}

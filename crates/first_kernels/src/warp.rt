ghost use Rattle.std.specs.Prelude.{◌≡◌, ◌≤◌, ◌↔◌, IsTrue, MatchResult, OnErr, length, slice_index};
ghost use Rattle.vx_base.specs.Bytes.{bytes_of};
ghost use Rattle.first_kernels.specs.FirstWarp.{EndTogether, StepAmongOthers, StepTogether, carried, extended, held, idle, loaded, place_in, set_register, stored};

use thiserror::Error;
use vx_base::{Elem, Size, fit, get_le, put_le};
use vx_isa::{Instr, LaneEffect, effect};

/// The address of the first byte of memory.
pub const MEMORY_START: u32 = 0x4000_0000;

/// The number of the lane, as `csrr` reads it.
pub const LANE_NUMBER: u32 = 0xcc0;

/// One lane of a warp.
#[derive(Clone, Copy, Debug, PartialEq, Eq)]
pub struct Lane {
    /// The registers x0 to x31. x0 is never written, so it stays 0.
    pub registers: [u32; 32],
}

/// Why a warp stops before its end.
#[derive(Clone, Copy, Debug, PartialEq, Eq, Error)]
pub enum WarpFault {
    /// A load or a store does not lie wholly inside memory.
    #[error("a load or a store does not lie wholly inside memory")]
    OutsideMemory,
    /// A lane does what straight-line code does not: it goes elsewhere, stops, acts for the whole warp, or reads a number
    /// other than its own.
    #[error("a lane does what straight-line code does not")]
    NotStraight,
    /// There is no instruction behind the last one.
    #[error("there is no instruction behind the last one")]
    NoEnd,
}

impl Lane {
    /// A lane that has done nothing yet: all registers are 0.
    pub fn new() -> Self
        ensures { result ≡ idle }
    {
        Lane { registers: [0; 32] }
    }

    /// The value in a register.
    fn value(&self, register: u32) -> u32
        ensures { result ≡ slice_index self.now.registers register }
    {
        self.registers.get(register as usize).copied().unwrap_or(0)
    }

    /// Puts a value into a register. x0 keeps 0.
    fn set(&mut self, register: u32, value: u32)
        ensures { self.new.registers ≡ set_register register value self.old.registers }
    {
        let place = register as usize;
        if place == 0 || self.registers.len() <= place {
            return;
        }
        self.registers[place] = value;
    }
}

/// The place in memory of a field at an address, and None where it does not lie wholly inside.
fn place_of(memory: &[u8], address: u32, size: Size) -> Option<usize>
    ensures { result ≡ place_in (length memory.now) address (bytes_of size) }
{
    if address < MEMORY_START {
        return None;
    }
    let place = (address - MEMORY_START) as usize;
    if place + size.bytes() as usize <= memory.len() {
        Some(place)
    } else {
        None
    }
}

/// A field extended to 32 bits by its sign or by zeros.
fn extend(value: u32, size: Size, signed: bool) -> u32
    ensures { result ≡ extended size signed value }
{
    match (size, signed) {
        (Size::One, true) => fit(Elem::Char, value),
        (Size::Two, true) => fit(Elem::Short, value),
        _ => value,
    }
}

/// Loads a field into a register. After a fault nothing has changed.
fn load(
    lane: &mut Lane,
    memory: &[u8],
    rd: u32,
    address: u32,
    size: Size,
    signed: bool,
) -> Result<(), WarpFault>
    ensures left { let place = place_in (length memory.now) address (bytes_of size) in
        MatchResult result
        (λ _. loaded rd size signed (held lane.old memory.now) place ≡ Ok (held lane.new memory.now))
        (λ fault. loaded rd size signed (held lane.old memory.now) place ≡ Err fault) }
    ensures kept { OnErr result (lane.new ≡ lane.old) }
{
    match place_of(memory, address, size) {
        Some(place) => {
            let value = extend(get_le(memory, place, size), size, signed);
            lane.set(rd, value);
            Ok(())
        }
        None => Err(WarpFault::OutsideMemory),
    }
}

/// Stores the low bytes of a value. After a fault nothing has changed.
fn store(memory: &mut [u8], address: u32, size: Size, value: u32) -> Result<(), WarpFault>
    ensures left { let place = place_in (length memory.old) address (bytes_of size) in
        MatchResult result
        (λ _. stored size value memory.old place ≡ Ok memory.new)
        (λ fault. stored size value memory.old place ≡ Err fault) }
    ensures kept { OnErr result (memory.new ≡ memory.old) }
{
    match place_of(memory, address, size) {
        Some(place) => {
            put_le(memory, place, size, value);
            Ok(())
        }
        None => Err(WarpFault::OutsideMemory),
    }
}

/// Carries out what an effect makes of a lane and of memory. After a fault both are as they were.
fn carry_out(
    number: u32,
    lane: &mut Lane,
    memory: &mut [u8],
    effect: LaneEffect,
) -> Result<(), WarpFault>
    ensures left { MatchResult result
        (λ _. carried number effect (held lane.old memory.old) ≡ Ok (held lane.new memory.new))
        (λ fault. carried number effect (held lane.old memory.old) ≡ Err fault) }
    ensures kept_lane { OnErr result (lane.new ≡ lane.old) }
    ensures kept_memory { OnErr result (memory.new ≡ memory.old) }
{
    match effect {
        LaneEffect::Write { rd, value } => {
            lane.set(rd, value);
            Ok(())
        }
        LaneEffect::Load {
            rd,
            address,
            size,
            signed,
        } => load(lane, memory, rd, address, size, signed),
        LaneEffect::Store {
            address,
            size,
            value,
        } => store(memory, address, size, value),
        LaneEffect::Csr { rd, csr } => {
            if csr != LANE_NUMBER {
                return Err(WarpFault::NotStraight);
            }
            lane.set(rd, number);
            Ok(())
        }
        LaneEffect::Nothing => Ok(()),
        LaneEffect::Branch { .. }
        | LaneEffect::Jump { .. }
        | LaneEffect::Break
        | LaneEffect::Warp => Err(WarpFault::NotStraight),
    }
}

/// One lane makes an instruction that stands at `pc`.
fn step_lane(
    i: Instr,
    pc: u32,
    number: u32,
    lane: &mut Lane,
    memory: &mut [u8],
) -> Result<(), WarpFault>
    ensures { StepAmongOthers i number lane.old memory.old result lane.new memory.new }
{
    let did = effect(i, pc, lane.value(i.rs1()), lane.value(i.rs2()));
    carry_out(number, lane, memory, did)
}

/// All lanes make an instruction that stands at `pc`, lane after lane in ascending order.
fn step(i: Instr, pc: u32, lanes: &mut [Lane], memory: &mut [u8]) -> Result<(), WarpFault>
    requires { length lanes.old ≤ 32 }
    ensures { StepTogether i lanes.old memory.old result lanes.new memory.new }
{
    for (number, lane) in lanes.iter_mut().enumerate() {
        step_lane(i, pc, number as u32, lane, memory)?;
    }
    Ok(())
}

/// Whether the instruction ends the warp: it sets the mask from x0, to no lane.
fn ends_warp(i: Instr) -> bool
    ensures { IsTrue result ↔ (i ≡ Instr.Tmc 0) }
{
    matches!(i, Instr::Tmc { rs1: 0 })
}

/// Runs straight-line code up to the instruction that ends the warp, all lanes at one instruction at a time. The code
/// stands from address 0 on.
pub fn run_code(code: &[Instr], lanes: &mut [Lane], memory: &mut [u8]) -> Result<(), WarpFault>
    requires { length lanes.old ≤ 32 }
    ensures { EndTogether code.now lanes.old memory.old result lanes.new memory.new }
{
    let mut pc: u32 = 0;
    for i in code {
        if ends_warp(*i) {
            return Ok(());
        }
        step(*i, pc, lanes, memory)?;
        pc = pc.wrapping_add(4);
    }
    Err(WarpFault::NoEnd)
}

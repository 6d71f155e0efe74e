//! The scratchpad of a core: its own bytes, which hold the launch block, the `__local` arrays and the frames of lanes.
//!
//! Contracts see a scratchpad as the list of its bytes.
#![tactic(auto)]

ghost use Rattle.std.specs.Prelude.{◌≡◌, ◌+◌, ◌≤◌, ◌<◌, ◌++◌, drop, length, replicate, IfOk, MatchBool, MatchOption};
ghost use Rattle.vx_base.specs.Bytes.{bytes_of, field_of, with_field};

use std::alloc::Global;
use std::marker::Model;
use vx_base::{Memory, Size, get_le, put_le};

/// How many bytes a scratchpad has.
pub const BYTES: u32 = 1_048_576;

/// The bytes of a scratchpad.
#[derive(Debug, Drop)]
pub struct Scratch {
    bytes: Vec<u8>,
}

impl Model for Scratch {
    ghost use Rattle.std.specs.Prelude.{◌≡◌, ℕ, List, length};

    ghost Value = { List ℕ };

    ghost view = { λ s. s.bytes.items };

    ghost invariant = { λ s. length s.bytes.items ≡ 1048576 };
}

impl Scratch {
    /// A scratchpad of zeros.
    pub fn new(alloc: Global) -> Result<Scratch, Memory>
        ensures { IfOk result (λ scratch. scratch ≡ replicate BYTES 0) }
    {
        Ok(Scratch {
            bytes: zeros(alloc, BYTES as usize)?,
        })
    }

    /// The number in the field of a size from a place on, the least significant byte first. None exactly where the field
    /// passes the end.
    pub fn read(&self, offset: u32, size: Size) -> Option<u32>
        ensures { MatchOption result (BYTES < offset + bytes_of size)
            (λ value. (offset + bytes_of size ≤ BYTES) × (value ≡ field_of self.now offset (bytes_of size))) }
    {
        if fits(offset, size) {
            Some(get_le(&self.bytes, offset as usize, size))
        } else {
            None
        }
    }

    /// Writes the low bytes of a number to the field of a size from a place on. False exactly where the field passes the
    /// end, and then nothing is changed.
    pub fn write(&mut self, offset: u32, size: Size, value: u32) -> bool
        ensures { MatchBool result
            ((offset + bytes_of size ≤ BYTES) × (self.new ≡ with_field self.old offset (bytes_of size) value))
            ((BYTES < offset + bytes_of size) × (self.new ≡ self.old)) }
    {
        if !fits(offset, size) {
            return false;
        }
        put_le(&mut self.bytes, offset as usize, size, value);
        true
    }

    /// Sets the bytes below a place to 0.
    pub fn clear_to(&mut self, end: u32)
        requires { end ≤ BYTES }
        ensures { self.new ≡ replicate end 0 ++ drop end self.old }
    {
        clear_front(&mut self.bytes, end as usize);
    }
}

fn zeros(alloc: Global, count: usize) -> Result<Vec<u8>, Memory>
    ensures items { IfOk result (λ bytes. bytes.items ≡ replicate count 0) }
    ensures len { IfOk result (λ bytes. length bytes.items ≡ count) }
{
    Ok(vec![in alloc; 0; count]?)
}

fn clear_front(bytes: &mut [u8], end: usize)
    requires { end ≤ length bytes.old }
    ensures { bytes.new ≡ replicate end 0 ++ drop end bytes.old }
{
    bytes[..end].fill(0);
}

// Whether the field of a size from a place on lies in a scratchpad.
fn fits(offset: u32, size: Size) -> bool
    ensures { MatchBool result (offset + bytes_of size ≤ BYTES) (BYTES < offset + bytes_of size) }
{
    offset <= BYTES - size.bytes()
}

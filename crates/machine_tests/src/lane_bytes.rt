//! A memory of 64 bytes, from address 0 on, for the lanes of a warp.
use vx_base::{Size, get_le, put_le};
use warp_state::LaneMemory;

/// The bytes, and how many reads were answered.
#[derive(Drop)]
pub struct Bytes {
    pub bytes: [u8; 64],
    pub reads: u8,
}

impl LaneMemory for Bytes {
    ghost use Rattle.std.specs.Prelude.{◌+◌, nat_le};
    ghost use Rattle.vx_base.specs.Bytes.{bytes_of};

    ghost acts = { λ _ _ _. Unit {0} };

    ghost has = { λ _ address size. nat_le (address + bytes_of size) 64 };

    fn read(&mut self, address: u32, size: Size) -> Option<u32> {
        let at = address as usize;
        if at + size.bytes() as usize <= 64 {
            self.reads = self.reads.saturating_add(1);
            Some(get_le(&self.bytes, at, size))
        } else {
            None
        }
    }

    fn write(&mut self, address: u32, size: Size, value: u32) -> bool {
        let at = address as usize;
        if at + size.bytes() as usize <= 64 {
            put_le(&mut self.bytes, at, size, value);
            true
        } else {
            false
        }
    }
}

/// Bytes of 0, of which none was read.
pub fn no_bytes() -> Bytes {
    Bytes {
        bytes: [0; 64],
        reads: 0,
    }
}

/// A memory that keeps the first four values that lanes write, wherever they write them. It reads as 0.
#[derive(Drop)]
pub struct Stored {
    pub values: [u32; 4],
    pub count: usize,
}

impl LaneMemory for Stored {
    ghost use Rattle.std.specs.Prelude.{true};

    ghost acts = { λ _ _ _. Unit {0} };

    ghost has = { λ _ _ _. true };

    fn read(&mut self, _address: u32, _size: Size) -> Option<u32> {
        Some(0)
    }

    fn write(&mut self, _address: u32, _size: Size, value: u32) -> bool {
        if self.count < 4 {
            self.values[self.count] = value;
            self.count += 1;
        }
        true
    }
}

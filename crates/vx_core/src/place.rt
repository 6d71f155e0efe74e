ghost use Rattle.std.specs.Prelude.{◌≡◌, ◌^◌, ◌<◌};
ghost use Rattle.vx_core.specs.Places.{is_within, place_at};

use scratchpad::BYTES;
use vx_base::Size;

/// The address of the first byte of the scratchpad.
const SCRATCH_START: u32 = 0x1000_0000;

/// The address of the first byte of the bus's words.
const GLOBAL_START: u32 = 0x4000_0000;

/// Where a field lies.
#[derive(Clone, Copy, Debug, PartialEq, Eq)]
pub enum Place {
    /// In the scratchpad, from this byte on.
    Scratchpad {
        /// The byte, from 0.
        offset: u32,
    },
    /// In the bus's words, from this byte on.
    Words {
        /// The byte, from 0.
        offset: u32,
    },
    /// Not wholly in either.
    Outside,
}

/// Where the field of a size at an address lies, with a bus of so many words.
pub fn place_of(address: u32, size: Size, words: u32) -> Place
    ensures { result ≡ place_at words address size }
{
    if is_within(address, size, SCRATCH_START, u64::from(BYTES)) {
        return Place::Scratchpad {
            offset: address.wrapping_sub(SCRATCH_START),
        };
    }
    if is_within(address, size, GLOBAL_START, 4 * u64::from(words)) {
        return Place::Words {
            offset: address.wrapping_sub(GLOBAL_START),
        };
    }
    Place::Outside
}

// Whether a field lies wholly in so many bytes from a place on.
fn is_within(address: u32, size: Size, start: u32, bytes: u64) -> bool
    requires { bytes < 2 ^ 40 }
    ensures { result ≡ is_within address size start bytes }
{
    start <= address && u64::from(address) + u64::from(size.bytes()) <= u64::from(start) + bytes
}

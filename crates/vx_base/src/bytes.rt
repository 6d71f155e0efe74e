//! Numbers in the bytes of memory, the least significant byte first.
ghost use Rattle.std.specs.Prelude.{◌≡◌, ◌+◌, ◌≤◌, length};
ghost use Rattle.vx_base.specs.Bytes.{bytes_of, field_of, with_field};

use crate::types::Size;

impl Size {
    /// How many bytes a field of this size has.
    pub fn bytes(self) -> u32
        ensures { result ≡ bytes_of self }
    {
        match self {
            Size::One => 1,
            Size::Two => 2,
            Size::Four => 4,
        }
    }
}

/// The number in the bytes from place `at` on, the least significant byte first.
pub fn get_le(bytes: &[u8], at: usize, size: Size) -> u32
    requires { at + bytes_of size ≤ length bytes.now }
    ensures { result ≡ field_of bytes.now at (bytes_of size) }
{
    match size {
        Size::One => u32::from(bytes[at]),
        Size::Two => u32::from(u16::from_le_bytes([bytes[at], bytes[at + 1]])),
        Size::Four => u32::from_le_bytes([bytes[at], bytes[at + 1], bytes[at + 2], bytes[at + 3]]),
    }
}

/// Writes the low bytes of a number from place `at` on, the least significant byte first.
pub fn put_le(bytes: &mut [u8], at: usize, size: Size, value: u32)
    requires { at + bytes_of size ≤ length bytes.old }
    ensures { bytes.new ≡ with_field bytes.old at (bytes_of size) value }
{
    let low_first = value.to_le_bytes();
    match size {
        Size::One => bytes[at] = low_first[0],
        Size::Two => bytes[at..at + 2].copy_from_slice(&low_first[..2]),
        Size::Four => bytes[at..at + 4].copy_from_slice(&low_first),
    }
}

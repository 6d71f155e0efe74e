//! Numbers in instructions.
ghost use Rattle.std.specs.Prelude.{◌≡◌, ◌≤◌};
ghost use Rattle.reg_alloc.specs.Plain.{lower as lower_of, upper as upper_of};
ghost use Rattle.reg_alloc.specs.Blocks.{address_of_word, distance as distance_of};

/// The upper twenty bits of a number, rounded.
pub fn upper(n: u32) -> u32
    ensures { result ≡ upper_of n }
{
    if n < 0xffff_f800 {
        (n + 2048) / 4096
    } else {
        0
    }
}

/// The lower twelve bits of a number, as a word with their sign.
pub fn lower(n: u32) -> u32
    ensures { result ≡ lower_of n }
{
    let bits = n % 4096;
    if bits < 2048 {
        bits
    } else {
        bits + 0xffff_f000
    }
}

/// The distance in bytes from a word of the code to another, as a word.
pub fn distance(from: u32, to: u32) -> u32
    requires from { from ≤ 65536 }
    requires to { to ≤ 65536 }
    ensures { result ≡ distance_of from to }
{
    if from <= to {
        4 * (to - from)
    } else {
        u32::MAX - (4 * (from - to) - 1)
    }
}

/// The address of a word of the code.
pub fn address(word: u32) -> u32
    requires { word ≤ 65536 }
    ensures { result ≡ address_of_word word }
{
    0x8000_0000 + 4 * word
}

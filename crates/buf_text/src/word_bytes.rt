//! One byte of a word, and words from bytes.
ghost use Rattle.std.specs.Prelude.{◌≡◌, ◌+◌, ◌*◌, ◌<◌, ◌≤◌, [], ◌∷◌, length, take};
ghost use Rattle.vx_base.specs.Bytes.{byte_of};
ghost use Rattle.buf_text.specs.Elements.{HasBytes, byte_in};

use vx_base::{Size, get_le};

/// Byte `number` of a word, the least significant first.
pub fn word_byte(word: u32, number: usize) -> u8
    requires { number < 4 }
    ensures { result ≡ byte_of word number }
{
    match number {
        0 => (word & 0xff) as u8,
        1 => ((word >> 8) & 0xff) as u8,
        2 => ((word >> 16) & 0xff) as u8,
        _ => (word >> 24) as u8,
    }
}

/// Byte `place` of some words.
pub fn byte_at(words: &[u32], place: usize) -> u8
    requires { place < 4 * length words.now }
    ensures { result ≡ byte_in words.now place }
{
    word_byte(words[place / 4], place % 4)
}

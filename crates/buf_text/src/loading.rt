//! Elements of a file, put into words.
ghost use Rattle.std.specs.Prelude.{◌≡◌, ◌≢◌, ◌+◌, ◌*◌, ◌%◌, ◌^◌, ◌<◌, ◌≤◌, [], ◌∷◌, length, MatchResult};
ghost use Rattle.vx_base.specs.Values.{elem_bytes};
ghost use Rattle.buf_text.specs.Elements.{HasBytes};

use crate::word_bytes::word_byte;
use thiserror::Error;
use vx_base::{Elem, Size, WordList, get_le};

/// Why bytes are no elements: their number is no multiple of the size of an element.
#[derive(Clone, Copy, Debug, PartialEq, Eq, Error)]
#[error("{bytes} bytes are no whole number of elements of {size} bytes")]
pub struct LengthFault {
    /// How many bytes there are.
    pub bytes: u32,
    /// How many bytes an element has.
    pub size: u32,
}

/// Puts one byte at a place of some words.
fn put_byte(words: &mut [u32], place: usize, byte: u8)
    requires { place < 4 * length words.old }
    ensures { HasBytes (byte ∷ []) place words.old words.new }
{
    let word = words[place / 4];
    let mut four = [
        word_byte(word, 0),
        word_byte(word, 1),
        word_byte(word, 2),
        word_byte(word, 3),
    ];
    four[place % 4] = byte;
    words[place / 4] = get_le(&four, 0, Size::Four);
}

/// Puts bytes at a place of some words, one after another.
fn put_each(words: &mut [u32], place: usize, bytes: &[u8])
    requires { place + length bytes.now ≤ 4 * length words.old }
    ensures { HasBytes bytes.now place words.old words.new }
{
    for number in 0..bytes.len() {
        put_byte(words, place + number, bytes[number]);
    }
}

/// Puts bytes, four at a time, into the words from one on.
fn put_words(words: &mut [u32], first: usize, bytes: &[u8])
    requires whole { length bytes.now % 4 ≡ 0 }
    requires room { 4 * first + length bytes.now ≤ 4 * length words.old }
    ensures { HasBytes bytes.now (4 * first) words.old words.new }
{
    for number in 0..bytes.len() / 4 {
        words[first + number] = get_le(bytes, 4 * number, Size::Four);
    }
}

/// Puts bytes at a place of some words.
fn put_bytes(words: &mut [u32], place: usize, bytes: &[u8])
    requires { place + length bytes.now ≤ 4 * length words.old }
    ensures { HasBytes bytes.now place words.old words.new }
{
    let before = bytes.len().min((4 - place % 4) % 4);
    let (front, behind) = bytes.split_at(before);
    put_each(words, place, front);
    if before == bytes.len() {
        return;
    }
    let (middle, back) = behind.split_at(behind.len() / 4 * 4);
    put_words(words, (place + before) / 4, middle);
    put_each(words, place + before + middle.len(), back);
}

/// Puts the elements of a file, the least significant byte of each first, at byte `at` of some words, and answers how many
/// they are.
///
/// # Errors
///
/// [`LengthFault`] exactly where the number of bytes is no multiple of the size of an element; the words are then as before.
pub fn load(bytes: &[u8], elem: Elem, at: u32, words: &mut WordList) -> Result<u32, LengthFault>
    requires few { length bytes.now < 2 ^ 32 }
    requires room { at + length bytes.now ≤ 4 * length words.old }
    ensures { MatchResult result
        (λ count. (count * elem_bytes elem ≡ length bytes.now) × HasBytes bytes.now at words.old words.new)
        (λ fault. (length bytes.now % elem_bytes elem ≢ 0) × (fault.bytes ≡ length bytes.now)
        × (fault.size ≡ elem_bytes elem) × (words.new ≡ words.old)) }
{
    let size = elem.size().bytes();
    let length = bytes.len() as u32;
    if length % size != 0 {
        return Err(LengthFault {
            bytes: length,
            size,
        });
    }
    put_bytes(words.items.as_mut_slice(), at as usize, bytes);
    Ok(length / size)
}

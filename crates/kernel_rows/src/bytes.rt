//! The bytes that work-items load and store: those of buffer 0, and of the local arrays of groups.

use item_acts::Place;
use std::alloc::{AllocError, Global};
use vx_base::{Size, get_le, put_le};

/// How many words buffer 0 has.
pub const COUNT: usize = 8;

/// How many bytes there are.
const BYTES: usize = 4096;

/// Bytes by their places.
#[derive(Drop)]
pub struct Bytes {
    bytes: [u8; BYTES],
}

/// Where a byte of buffer 0, or of a local array of one of the first seven groups, stands in the bytes.
fn address_of(place: Place) -> usize {
    match place {
        Place::Global { byte, .. } => byte as usize,
        Place::Local { group, array, byte } => {
            512 + group as usize * 512 + array as usize * 64 + byte as usize
        }
    }
}

/// Word k of buffer 0.
fn word_at(k: u32) -> Place {
    Place::Global {
        buffer: 0,
        byte: k.wrapping_mul(4),
    }
}

impl Bytes {
    /// These words in buffer 0, and zeros after them.
    pub fn of(words: [u32; COUNT]) -> Bytes {
        let mut made = Bytes { bytes: [0; BYTES] };
        let mut k = 0_u32;
        for word in words {
            made.store(word_at(k), Size::Four, word);
            k = k.saturating_add(1);
        }
        made
    }

    /// What stands at a place; 0 if it is not among the bytes.
    pub fn load(&self, place: Place, size: Size) -> u32 {
        let at = address_of(place);
        match BYTES.checked_sub(size.bytes() as usize) {
            Some(last) if at <= last => get_le(&self.bytes, at, size),
            _ => 0,
        }
    }

    /// Puts a value to a place, if it is among the bytes.
    pub fn store(&mut self, place: Place, size: Size, value: u32) {
        let at = address_of(place);
        match BYTES.checked_sub(size.bytes() as usize) {
            Some(last) if at <= last => put_le(&mut self.bytes, at, size, value),
            _ => {}
        }
    }

    /// The words of buffer 0, as numbers with a sign.
    pub fn words_text(&self, alloc: Global) -> Result<String, AllocError> {
        let mut text = String::from_str(alloc, "after")?;
        for k in 0..8_u32 {
            let word = self.load(word_at(k), Size::Four).cast_signed();
            text.push_str(format!(in alloc; " {word}")?.as_str())?;
        }
        Ok(text)
    }
}

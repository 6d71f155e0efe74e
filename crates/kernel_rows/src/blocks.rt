//! The launch block of a group, and what its addresses name: 64 words by which a kernel knows its launch and its group.
//!
//! Array `j` that a kernel declares lies 256 bytes behind array `j - 1`, and buffer 0 where the buffers begin.

ghost use Rattle.std.specs.Prelude.{◌≡◌};
ghost use Rattle.kernel_rows.specs.Around.{place_of};

use item_acts::{Bound, Place, Range};
use vx_base::{ParamKind, fit};

/// Where the launch block lies.
pub const BLOCK: u32 = 0x1000_0000;

/// Where the first `__local` array lies.
pub const ARRAYS: u32 = 0x1000_1000;

/// Where the frame of the first lane lies.
pub const FRAMES: u32 = 0x1008_0000;

/// Where buffer 0 lies.
pub const BUFFER: u32 = 0x4000_0000;

/// How many bytes the `__local` arrays lie apart.
const APART: u32 = 256;

/// How many words a launch block has.
pub const WORDS: usize = 64;

/// The words of a launch block.
pub type Block = [u32; WORDS];

/// A quotient, rounded down; 0 if there is none.
pub fn quotient(left: u32, right: u32) -> u32 {
    left.checked_div(right).unwrap_or(0)
}

/// How many items a group has.
pub fn group_size(range: Range) -> u32 {
    let [x, y, z] = range.local;
    x.saturating_mul(y).saturating_mul(z)
}

/// How many groups each dimension has.
fn group_counts(range: Range) -> [u32; 3] {
    let [x, y, z] = range.global;
    let [by, high, deep] = range.local;
    [quotient(x, by), quotient(y, high), quotient(z, deep)]
}

/// How many groups a launch has.
pub fn group_count(range: Range) -> u32 {
    let [x, y, z] = group_counts(range);
    x.saturating_mul(y).saturating_mul(z)
}

/// The ids of a group, of which the first runs fastest.
fn group_ids(range: Range, group: u32) -> [u32; 3] {
    let [x, y, _z] = group_counts(range);
    let rows = quotient(group, x);
    let plane = x.saturating_mul(y);
    [
        group.checked_rem(x).unwrap_or(0),
        rows.checked_rem(y).unwrap_or(0),
        quotient(group, plane),
    ]
}

/// Puts words into a launch block, from a number on.
fn put_words(block: &mut Block, first: usize, words: &[u32]) {
    for (place, word) in block.iter_mut().skip(first).zip(words) {
        *place = *word;
    }
}

/// The words of a parameter: the value of a scalar, or the address of an array and how many elements it has.
fn param_words(kind: ParamKind, bound: Bound) -> [u32; 2] {
    match (kind, bound) {
        (ParamKind::Scalar(elem), Bound::Value(value)) => [fit(elem, value), 0],
        (ParamKind::Pointer { .. }, Bound::Array { count, .. }) => [BUFFER, count],
        _ => [0, 0],
    }
}

/// Puts the words of the parameters into a launch block: words 16 to 47.
fn put_params(block: &mut Block, kinds: &[ParamKind], bounds: &[Bound]) {
    let mut first = 16_usize;
    for (kind, bound) in kinds.iter().zip(bounds) {
        put_words(block, first, &param_words(*kind, *bound));
        first = first.saturating_add(2);
    }
}

/// Puts the addresses of 16 declared arrays into a launch block: words 48 to 63.
fn put_arrays(block: &mut Block) {
    let mut address = ARRAYS;
    for place in block.iter_mut().skip(48) {
        *place = address;
        address = address.wrapping_add(APART);
    }
}

/// Puts the words of the launch and of the group into a launch block, for warps of so many lanes: words 0 to 15.
fn put_head(block: &mut Block, range: Range, group: u32, lanes: u32) {
    let size = group_size(range);
    let warps = quotient(size.saturating_add(lanes.saturating_sub(1)), lanes);
    put_words(block, 0, &[warps, size, range.dims]);
    put_words(block, 3, &group_ids(range, group));
    put_words(block, 6, &range.local);
    put_words(block, 9, &range.global);
    put_words(block, 12, &group_counts(range));
    put_words(block, 15, &[lanes]);
}

/// The launch block of a group, for warps of so many lanes.
pub fn block_of(
    range: Range,
    kinds: &[ParamKind],
    bounds: &[Bound],
    group: u32,
    lanes: u32,
) -> Block {
    let mut block = [0; WORDS];
    put_head(&mut block, range, group, lanes);
    put_params(&mut block, kinds, bounds);
    put_arrays(&mut block);
    block
}

/// The byte of an array that an address names in a group.
pub fn place_of(group: u32, address: u32) -> Place
    ensures { result ≡ place_of group address }
{
    if address < BUFFER {
        let behind = address.saturating_sub(ARRAYS);
        return Place::Local {
            group,
            array: behind / APART,
            byte: behind % APART,
        };
    }
    Place::Global {
        buffer: 0,
        byte: address - BUFFER,
    }
}

//! The bytes of some arrays, and numbers in them.
ghost use Rattle.std.specs.Prelude.{◌≡◌, ℕ, ◌+◌, ◌<◌, ◌≤◌, [], length, map, MatchOption, IfOk, slice_set, slice_index, slice_index_or, replicate};
ghost use Rattle.vx_base.specs.Bytes.{bytes_of, field_of, with_field};

use std::alloc::Global;
use vx_base::{ListOf, Memory, Size, Text, get_le, put_le};

/// The bytes of some arrays, a text for each.
pub type BytesList = ListOf<Text>;

/// A byte of one of the arrays, and None where there is no such byte.
pub(crate) fn byte_in(arrays: &[Text], array: u32, byte: u32) -> Option<u8>
    ensures { MatchOption result (length (slice_index_or arrays.now array []) ≤ byte)
        (λ value. (byte < length (slice_index_or arrays.now array [])) × (value ≡ slice_index (slice_index_or arrays.now array []) byte)) }
{
    let index = array as usize;
    if index >= arrays.len() {
        return None;
    }
    let bytes = arrays[index].as_slice();
    let at = byte as usize;
    if at >= bytes.len() {
        return None;
    }
    Some(bytes[at])
}

/// The number in a field of one of the arrays, the least significant byte first, and None where there is no such field.
pub(crate) fn number_in(arrays: &[Text], array: u32, byte: u32, size: Size) -> Option<u32>
    ensures { MatchOption result (length (slice_index_or arrays.now array []) < byte + bytes_of size)
        (λ v. (byte + bytes_of size ≤ length (slice_index_or arrays.now array [])) × (v ≡ field_of (slice_index_or arrays.now array []) byte (bytes_of size))) }
{
    let index = array as usize;
    if index >= arrays.len() {
        return None;
    }
    let bytes = arrays[index].as_slice();
    let at = byte as usize;
    if bytes.len() < at + size.bytes() as usize {
        return None;
    }
    Some(get_le(bytes, at, size))
}

/// Writes a number into a field of one of the arrays, the least significant byte first.
pub(crate) fn put_in(arrays: &mut BytesList, array: u32, byte: u32, size: Size, value: u32)
    requires { byte + bytes_of size ≤ length (slice_index_or arrays.old array []) }
    ensures { arrays.new ≡ slice_set arrays.old array (with_field (slice_index_or arrays.old array []) byte (bytes_of size) value) }
{
    let text = &mut arrays.items[array as usize];
    put_le(text.items.as_mut_slice(), byte as usize, size, value);
}

/// The number in a field of one of a group's arrays, and None where there is no such field.
pub(crate) fn number_in_group(
    groups: &[BytesList],
    group: u32,
    array: u32,
    byte: u32,
    size: Size,
) -> Option<u32>
    ensures { MatchOption result (length (slice_index_or (slice_index_or groups.now group []) array []) < byte + bytes_of size)
        (λ v. (byte + bytes_of size ≤ length (slice_index_or (slice_index_or groups.now group []) array []))
        × (v ≡ field_of (slice_index_or (slice_index_or groups.now group []) array []) byte (bytes_of size))) }
{
    let index = group as usize;
    if index >= groups.len() {
        return None;
    }
    number_in(groups[index].as_slice(), array, byte, size)
}

/// Writes a number into a field of one of a group's arrays.
pub(crate) fn put_in_group(
    groups: &mut ListOf<BytesList>,
    group: u32,
    array: u32,
    byte: u32,
    size: Size,
    value: u32,
)
    requires exists { group < length groups.old }
    requires fits { byte + bytes_of size ≤ length (slice_index_or (slice_index_or groups.old group []) array []) }
    ensures { groups.new ≡ slice_set groups.old group (slice_set (slice_index_or groups.old group []) array
        (with_field (slice_index_or (slice_index_or groups.old group []) array []) byte (bytes_of size) value)) }
{
    let arrays = &mut groups.items[group as usize];
    put_in(arrays, array, byte, size, value);
}

/// Arrays of these many bytes each, all of them 0.
pub(crate) fn zero_arrays(alloc: Global, sizes: &[u32]) -> Result<BytesList, Memory>
    ensures { IfOk result (λ arrays. arrays ≡ map (λ size. replicate size 0) sizes.now) }
{
    let mut arrays = Vec::new(alloc);
    for size in sizes {
        let bytes = vec![in alloc; 0u8; *size as usize];
        match bytes {
            Err(_) => return Err(Memory),
            Ok(items) => {
                if arrays.push(ListOf { items }).is_err() {
                    return Err(Memory);
                }
            }
        }
    }
    Ok(ListOf { items: arrays })
}

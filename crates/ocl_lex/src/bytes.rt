//! The classes of bytes, and parts of lists of bytes.
ghost use Rattle.std.specs.Prelude.{◌≡◌, ◌≤◌, drop, take, length, slice_index};
ghost use Rattle.std.specs.List.{prefix_len};
ghost use Rattle.ocl_lex.specs.Bytes as spec;

/// The byte at a place, and 0 behind the last.
pub fn byte_at(bytes: &[u8], place: usize) -> u8
    ensures { result ≡ slice_index bytes.now place }
{
    bytes.get(place).copied().unwrap_or(0)
}

/// The bytes from a place on, and none behind the last.
pub fn bytes_from(bytes: &[u8], place: usize) -> &[u8]
    ensures { result.now ≡ drop place bytes.now }
{
    if place < bytes.len() {
        &bytes[place..]
    } else {
        &[]
    }
}

/// The first bytes, at most this many.
#[tactic(auto, using(crate::proofs::Prefixes::take_least))]
pub fn front_of(bytes: &[u8], len: usize) -> &[u8]
    ensures { result.now ≡ take len bytes.now }
{
    &bytes[..len.min(bytes.len())]
}

/// Whether a byte is white and ends no line.
pub fn is_blank(byte: u8) -> bool
    ensures { result ≡ spec.is_blank byte }
{
    byte == b' ' || byte == b'\t' || byte == 11 || byte == 12 || byte == b'\r'
}

/// Whether a byte is one of the ten digits.
pub fn is_decimal(byte: u8) -> bool
    ensures { result ≡ spec.is_decimal byte }
{
    b'0' <= byte && byte <= b'9'
}

/// Whether a name can begin with a byte.
pub fn begins_name(byte: u8) -> bool
    ensures { result ≡ spec.begins_name byte }
{
    (b'a' <= byte && byte <= b'z') || (b'A' <= byte && byte <= b'Z') || byte == b'_'
}

fn is_in_name(byte: u8) -> bool
    ensures { result ≡ spec.is_in_name byte }
{
    begins_name(byte) || is_decimal(byte)
}

fn is_in_number(byte: u8) -> bool
    ensures { result ≡ spec.is_in_number byte }
{
    is_in_name(byte) || byte == b'.'
}

/// How many letters, digits and `_` stand at the front.
#[tactic(auto, using(crate::proofs::Prefixes::whole_prefix))]
pub fn name_len(bytes: &[u8]) -> usize
    ensures value { result ≡ prefix_len spec.is_in_name bytes.now }
    ensures within { result ≤ length bytes.now }
{
    bytes.iter().take_while(|byte| is_in_name(**byte)).count()
}

/// How many letters, digits, `_` and `.` stand at the front.
#[tactic(auto, using(crate::proofs::Prefixes::whole_prefix))]
pub fn number_len(bytes: &[u8]) -> usize
    ensures value { result ≡ prefix_len spec.is_in_number bytes.now }
    ensures within { result ≤ length bytes.now }
{
    bytes.iter().take_while(|byte| is_in_number(**byte)).count()
}

/// How many bytes the front of a text has before its first line feed.
#[tactic(auto, using(crate::proofs::Prefixes::whole_prefix))]
pub fn line_len(bytes: &[u8]) -> usize
    ensures value { result ≡ prefix_len spec.is_in_line bytes.now }
    ensures within { result ≤ length bytes.now }
{
    bytes.iter().take_while(|byte| **byte != b'\n').count()
}

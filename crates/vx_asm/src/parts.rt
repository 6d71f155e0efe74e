//! The smallest parts of a line: blanks, names, registers and numbers.
//!
//! Each function reads at the front of some bytes. It returns what it read and the bytes behind it, or how many bytes are
//! left from the first one on that no line goes on with.
ghost use Rattle.std.specs.Prelude.{◌≡◌, ◌^◌, ◌<◌, ◌≤◌, ◌⊎◌, true, drop, take, length, slice_index};
ghost use Rattle.std.specs.Char.{is_digit, digit_value};
ghost use Rattle.std.specs.List.{prefix_len};
ghost use Rattle.std.specs.Str.Parse.{digits_value};
ghost use Rattle.asm_text.specs.AsmLines as spec;
ghost use Rattle.asm_text.specs.AsmLines.{Says};

use asm_text::Number;

/// The byte at a place, and 0 behind the last.
pub fn byte_at(bytes: &[u8], place: usize) -> u8
    ensures { result ≡ slice_index bytes.now place }
{
    bytes.get(place).copied().unwrap_or(0)
}

/// The bytes from a place on, and none behind the last.
pub fn bytes_from(bytes: &[u8], place: usize) -> &[u8]
    ensures { result.now ≡ drop place bytes.now }
{
    if place < bytes.len() {
        &bytes[place..]
    } else {
        &[]
    }
}

/// The first bytes, at most this many.
#[tactic(auto, using(crate::proofs::Prefixes::take_least))]
pub fn front_of(bytes: &[u8], len: usize) -> &[u8]
    ensures { result.now ≡ take len bytes.now }
{
    &bytes[..len.min(bytes.len())]
}

fn is_blank(byte: u8) -> bool
    ensures { result ≡ spec.is_blank byte }
{
    byte == b' ' || byte == b'\t' || byte == b'\r'
}

fn is_decimal(byte: u8) -> bool
    ensures { result ≡ spec.is_decimal byte }
{
    b'0' <= byte && byte <= b'9'
}

/// Whether a name can begin with a byte.
pub fn begins_name(byte: u8) -> bool
    ensures { result ≡ spec.begins_name byte }
{
    (b'a' <= byte && byte <= b'z') || (b'A' <= byte && byte <= b'Z') || byte == b'_'
}

fn is_in_name(byte: u8) -> bool
    ensures { result ≡ spec.is_in_name byte }
{
    begins_name(byte) || is_decimal(byte)
}

/// How many blanks stand at the front.
fn blank_len(bytes: &[u8]) -> usize
    ensures { result ≡ prefix_len spec.is_blank bytes.now }
{
    bytes.iter().take_while(|byte| is_blank(**byte)).count()
}

/// The bytes behind the blanks at the front.
pub fn past_blanks(bytes: &[u8]) -> &[u8]
    ensures { result.now ≡ spec.past_blanks bytes.now }
{
    bytes_from(bytes, blank_len(bytes))
}

/// How many letters, digits and `_` stand at the front.
#[tactic(auto, using(crate::proofs::Prefixes::whole_prefix))]
pub fn name_len(bytes: &[u8]) -> usize
    ensures value { result ≡ prefix_len spec.is_in_name bytes.now }
    ensures within { result ≤ length bytes.now }
{
    bytes.iter().take_while(|byte| is_in_name(**byte)).count()
}

fn is_two_digits(first: u8, second: u8) -> bool
    requires { spec.is_decimal first ≡ true }
    ensures { result ≡ spec.is_two_digits first second }
{
    if first == b'0' || !is_decimal(second) {
        return false;
    }
    two_digits(first, second) < 32
}

fn two_digits(first: u8, second: u8) -> u32
    ensures { result ≡ spec.two_digits first second }
{
    u32::from(first.saturating_sub(b'0')) * 10 + u32::from(second.saturating_sub(b'0'))
}

#[tactic(auto, unfolding(asm_text::specs::AsmLines::register_number_at))]
fn register_number_at(bytes: &[u8]) -> Result<(u32, &[u8]), usize>
    ensures { Says result (spec.register_number_at bytes.now) }
{
    let first = byte_at(bytes, 0);
    let second = byte_at(bytes, 1);
    if !is_decimal(first) {
        return Err(bytes.len());
    }
    if is_two_digits(first, second) {
        return Ok((two_digits(first, second), bytes_from(bytes, 2)));
    }
    Ok((u32::from(first - b'0'), bytes_from(bytes, 1)))
}

/// A register.
#[tactic(auto, unfolding(asm_text::specs::AsmLines::register_at))]
pub fn register_at(bytes: &[u8]) -> Result<(u32, &[u8]), usize>
    ensures { Says result (spec.register_at bytes.now) }
{
    if byte_at(bytes, 0) != b'x' {
        return Err(bytes.len());
    }
    register_number_at(bytes_from(bytes, 1))
}

fn is_digit(byte: u8, base: u32) -> bool
    requires low { 2 ≤ base }
    requires high { base ≤ 16 }
    ensures { result ≡ is_digit byte base }
{
    char::from(byte).is_digit(base)
}

/// How many digits of a base stand at the front.
fn digit_len(bytes: &[u8], base: u32) -> usize
    requires low { 2 ≤ base }
    requires high { base ≤ 16 }
    ensures { result ≡ prefix_len (λ c. is_digit c base) bytes.now }
{
    bytes
        .iter()
        .take_while(|byte| is_digit(**byte, base))
        .count()
}

fn digit_value(byte: u8) -> u64
    ensures { result ≡ digit_value byte }
{
    match byte {
        b'0'..=b'9' => u64::from(byte - b'0'),
        b'A'..=b'Z' => u64::from(byte - b'A') + 10,
        b'a'..=b'z' => u64::from(byte - b'a') + 10,
        _ => 36,
    }
}

/// What some digits say.
fn value_of(digits: &[u8], base: u64) -> u64
    requires base { 1 ≤ base }
    requires fits { digits_value base digits.now < 2 ^ 64 }
    ensures { result ≡ digits_value base digits.now }
{
    let mut value = 0;
    for byte in digits {
        value = value * base + digit_value(*byte);
    }
    value
}

/// One to ten digits of a base.
#[tactic(auto, unfolding(asm_text::specs::AsmLines::digits_at))]
fn digits_at(bytes: &[u8], base: u32) -> Result<(u64, &[u8]), usize>
    requires { (base ≡ 10) ⊎ (base ≡ 16) }
    ensures { Says result (spec.digits_at base bytes.now) }
{
    let len = digit_len(bytes, base).min(10);
    if len == 0 {
        return Err(bytes.len());
    }
    Ok((
        value_of(&bytes[..len], u64::from(base)),
        bytes_from(bytes, len),
    ))
}

#[tactic(auto, unfolding(asm_text::specs::AsmLines::size_at))]
fn size_at(bytes: &[u8]) -> Result<(u64, &[u8]), usize>
    ensures { Says result (spec.size_at bytes.now) }
{
    if byte_at(bytes, 0) == b'0' && byte_at(bytes, 1) == b'x' {
        digits_at(bytes_from(bytes, 2), 16)
    } else {
        digits_at(bytes, 10)
    }
}

/// A number, perhaps with a `-` in front.
#[tactic(auto, unfolding(asm_text::specs::AsmLines::number_at))]
pub fn number_at(bytes: &[u8]) -> Result<(Number, &[u8]), usize>
    ensures { Says result (spec.number_at bytes.now) }
{
    if byte_at(bytes, 0) == b'-' {
        let (size, rest) = size_at(bytes_from(bytes, 1))?;
        return Ok((Number { minus: true, size }, rest));
    }
    let (size, rest) = size_at(bytes)?;
    Ok((Number { minus: false, size }, rest))
}

//! The literals.
ghost use Rattle.std.specs.Prelude.{◌≡◌, ◌≤◌};
ghost use Rattle.std.specs.Char.{is_digit, digit_value};
ghost use Rattle.std.specs.List.{list_all};
ghost use Rattle.std.specs.Str.Parse.{digits_value};
ghost use Rattle.ocl_lex.specs.Literals as spec;

use crate::bytes::{byte_at, bytes_from, front_of};

/// What a number's text says.
#[derive(Clone, Copy, Debug, PartialEq, Eq)]
pub struct Literal {
    /// The value, of 32 bits.
    pub value: u32,
    /// Whether the type is uint, where it is otherwise int.
    pub unsigned: bool,
}

fn digit_value(byte: u8) -> u64
    ensures { result ≡ digit_value byte }
{
    match byte {
        b'0'..=b'9' => u64::from(byte - b'0'),
        b'A'..=b'Z' => u64::from(byte - b'A') + 10,
        b'a'..=b'z' => u64::from(byte - b'a') + 10,
        _ => 36,
    }
}

fn are_digits(base: u64, digits: &[u8]) -> bool
    ensures { result ≡ list_all (λ c. is_digit c base) digits.now }
{
    digits.iter().all(|digit| digit_value(*digit) < base)
}

/// What digits say, where it is a word of 32 bits.
fn value_below(base: u64, digits: &[u8]) -> Option<u32>
    requires least { 1 ≤ base }
    requires most { base ≤ 16 }
    ensures { result ≡ spec.below_limit (digits_value base digits.now) }
{
    let mut value = 0;
    for digit in digits {
        value = value * base + digit_value(*digit);
        if value > u64::from(u32::MAX) {
            return None;
        }
    }
    Some(value as u32)
}

/// The value of one or more digits of a base.
#[tactic(auto, unfolding(crate::specs::Literals::value_of))]
fn value_of(base: u64, digits: &[u8]) -> Option<u32>
    requires least { 1 ≤ base }
    requires most { base ≤ 16 }
    ensures { result ≡ spec.value_of base digits.now }
{
    if digits.is_empty() {
        return None;
    }
    if are_digits(base, digits) {
        value_below(base, digits)
    } else {
        None
    }
}

fn is_hexadecimal(text: &[u8]) -> bool
    ensures { result ≡ spec.is_hexadecimal text.now }
{
    if byte_at(text, 0) != b'0' {
        return false;
    }
    let second = byte_at(text, 1);
    second == b'x' || second == b'X'
}

/// The value of a text without suffix.
#[tactic(auto, unfolding(crate::specs::Literals::unsuffixed_value))]
fn unsuffixed_value(text: &[u8]) -> Option<u32>
    ensures { result ≡ spec.unsuffixed_value text.now }
{
    if is_hexadecimal(text) {
        return value_of(16, bytes_from(text, 2));
    }
    if byte_at(text, 0) == b'0' {
        value_of(8, text)
    } else {
        value_of(10, text)
    }
}

/// Whether the last byte is `u` or `U`.
fn ends_in_u(text: &[u8]) -> bool
    ensures { result ≡ spec.ends_in_u text.now }
{
    let last = byte_at(text, text.len().saturating_sub(1));
    last == b'u' || last == b'U'
}

fn typed_literal(suffix: bool, value: u32) -> Literal
    ensures { result ≡ spec.typed_literal suffix value }
{
    Literal {
        value,
        unsigned: suffix || value >= 0x8000_0000,
    }
}

/// The literal that a number's text is.
#[tactic(auto, unfolding(crate::specs::Literals::literal_of))]
pub fn literal_of(text: &[u8]) -> Option<Literal>
    ensures { result ≡ spec.literal_of text.now }
{
    if ends_in_u(text) {
        unsuffixed_value(front_of(text, text.len().saturating_sub(1))).map(|value| typed_literal(
            true, value,
        ))
    } else {
        unsuffixed_value(text).map(|value| typed_literal(false, value))
    }
}

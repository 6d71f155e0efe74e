//! Numbers as texts.

ghost use Rattle.std.specs.Prelude.{◌≡◌, ◌≢◌, ◌↔◌, ℕ, ◌^◌, ◌<◌, Ok, length, slice_index, IsTrue, IfOk, MatchOption, MatchResult};
ghost use Rattle.std.specs.Fmt.{decimal};
ghost use Rattle.std.specs.Str.{all_ascii_digits};
ghost use Rattle.decimal_text.specs.Numerals;
ghost use Rattle.decimal_text.specs.Numerals.{decimal_value, IsDecimalFault};

use std::str;
use thiserror::Error;

/// Why a text is no number below 2^64.
#[derive(Clone, Copy, Debug, PartialEq, Eq, Error)]
pub enum DecimalFault {
    /// It has no digits, a byte that is no digit, or a zero before another digit.
    #[error("no decimal number")]
    NoNumeral,
    /// Its digits write 2^64 or more.
    #[error("a number of 2^64 or more")]
    TooLarge,
}

/// Whether a text has neither a `+` at its front nor a zero before other bytes.
fn is_plain(text: &[u8]) -> bool
    ensures { IsTrue result
        ↔ ((slice_index text.now 0 ≢ 43) × (slice_index text.now 0 ≡ 48 → length text.now ≡ 1)) }
{
    match text {
        [b'+', ..] => false,
        [b'0', _, ..] => false,
        _ => true,
    }
}

/// The number below 2^32 whose decimal digits these are, with no sign and no zero before another digit.
pub fn decimal_number(text: &[u8]) -> Option<u32>
    ensures { MatchOption result ((n : ℕ) → n < 2 ^ 32 → text.now ≢ decimal n)
        (λ n. text.now ≡ decimal n) }
{
    if !is_plain(text) {
        return None;
    }
    let Ok(digits) = str::from_utf8(text) else {
        return None;
    };
    match digits.parse::<u32>() {
        Ok(number) => Some(number),
        Err(_) => None,
    }
}

/// Whether there is a first byte, and where it is a zero it is the only one.
#[tactic(auto, using(crate::proofs::DecimalTexts::leads_short, crate::proofs::DecimalTexts::leads_long))]
fn leads_well(text: &[u8]) -> bool
    ensures { result ≡ Numerals.leads_well text.now }
{
    if text.len() < 2 {
        return text.len() == 1;
    }
    text[0] != b'0'
}

/// Whether each byte is a digit.
fn has_only_digits(text: &[u8]) -> bool
    ensures { result ≡ all_ascii_digits text.now }
{
    text.iter().all(|byte| byte.is_ascii_digit())
}

/// Whether a text is decimal digits with no sign and no zero before another digit, however many.
pub fn is_decimal(text: &[u8]) -> bool
    ensures { result ≡ Numerals.is_decimal text.now }
{
    leads_well(text) && has_only_digits(text)
}

/// The number below 2^64 whose decimal digits these are, with no sign and no zero before another digit.
///
/// # Errors
///
/// `NoNumeral` exactly where the text is no such digits, and `TooLarge` exactly where they write 2^64 or more.
pub fn read_decimal(text: &[u8]) -> Result<u64, DecimalFault>
    ensures exact { MatchResult result
        (λ n. IsTrue (Numerals.is_decimal text.now) × (n ≡ decimal_value text.now))
        (IsDecimalFault text.now) }
    ensures spelled { IfOk result (λ n. text.now ≡ decimal n) }
    ensures only { (n : ℕ) → n < 2 ^ 64 → text.now ≡ decimal n → result ≡ Ok n }
{
    if !is_decimal(text) {
        return Err(DecimalFault::NoNumeral);
    }
    let Ok(digits) = str::from_utf8(text) else {
        return Err(DecimalFault::NoNumeral);
    };
    match digits.parse::<u64>() {
        Ok(number) => Ok(number),
        Err(_) => Err(DecimalFault::TooLarge),
    }
}

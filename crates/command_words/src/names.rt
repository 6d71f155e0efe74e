//! Names, and texts cut in two.
ghost use Rattle.std.specs.Prelude.{◌≡◌, ◌<◌, Some, None, map, ◌==◌, IfOk, MatchOption};
ghost use Rattle.std.specs.List.{slice_split};
ghost use Rattle.command_words.specs.Names;
ghost use Rattle.command_words.specs.Cuts;

use std::alloc::{AllocError, Global};
use vx_base::{ListOf, Text};

/// Whether a byte may begin a name.
fn begins_name(byte: u8) -> bool
    ensures { result ≡ Names.begins_name byte }
{
    byte == b'_' || byte.is_ascii_alphabetic()
}

/// Whether a byte may stand in a name.
fn is_name_byte(byte: u8) -> bool
    ensures { result ≡ Names.is_name_byte byte }
{
    begins_name(byte) || byte.is_ascii_digit()
}

/// Whether a text is a name: a letter or `_`, and then letters, digits and `_`.
pub fn is_name(text: &[u8]) -> bool
    ensures { result ≡ Names.is_name text.now }
{
    match text {
        [] => false,
        [first, rest @ ..] => begins_name(*first) && rest.iter().all(|byte| is_name_byte(*byte)),
    }
}

/// The text before the first place of a mark, and the text behind it.
pub fn cut(text: &str, mark: char) -> Option<(&str, &str)>
    requires { mark < 128 }
    ensures { MatchOption result (Cuts.cut mark text.now ≡ None)
        (λ parts. Cuts.cut mark text.now ≡ Some (parts.0.now, parts.1.now)) }
{
    text.split_once(mark)
}

/// The text behind a minus.
pub fn behind_minus(text: &str) -> Option<&str>
    ensures { MatchOption result (Cuts.behind_minus text.now ≡ None)
        (λ rest. Cuts.behind_minus text.now ≡ Some rest.now) }
{
    text.strip_prefix('-')
}

/// The parts of a text between its commas.
pub fn comma_parts(alloc: Global, text: &str) -> Result<Vec<&str>, AllocError>
    ensures { IfOk result (λ parts. map (λ part. part.now) parts.items ≡ slice_split (λ b. b == 44) text.now) }
{
    text.split(',').collect(alloc)
}

/// The bytes of a text.
pub fn text_of(alloc: Global, text: &str) -> Result<Text, AllocError>
    ensures { IfOk result (λ bytes. bytes ≡ text.now) }
{
    let items = Vec::from_slice(alloc, text.as_bytes())?;
    Ok(ListOf { items })
}

/// The same text once more.
pub fn copy_of(alloc: Global, text: &Text) -> Result<Text, AllocError>
    ensures { IfOk result (λ bytes. bytes ≡ text.now) }
{
    let items = Vec::from_slice(alloc, text.items.as_slice())?;
    Ok(ListOf { items })
}

/// Whether two texts are one.
pub fn is_same(text: &Text, other: &Text) -> bool
    ensures { result ≡ Names.is_same text.now other.now }
{
    text.items.as_slice() == other.items.as_slice()
}

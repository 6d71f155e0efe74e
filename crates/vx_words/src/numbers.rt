//! The numbers of buffers that are named.
ghost use Rattle.std.specs.Prelude.{◌≡◌, ◌≢◌, ◌↔◌, ℕ, ◌<◌, ◌≤◌, length, map, Some, slice_get, IsTrue, MatchOption};
ghost use Rattle.vx_words.specs.Words.{AreNumbersOf, AreDistinct};
ghost use Rattle.vx_words.specs.WordForms.{Finds, IsFirstOf};

use crate::further::BAD_FORM;
use crate::run_words::BufWord;
use crate::usage::UsageFault;
use std::alloc::Global;
use vx_base::{ListOf, Text};

/// The elements of a list.
pub fn elements<T>(list: &ListOf<T>) -> &[T]
    ensures { result.now ≡ list.now }
{
    list.items.as_slice()
}

/// Whether a buffer has a name.
fn is_named(buffer: &BufWord, name: &Text) -> bool
    ensures { IsTrue result ↔ (buffer.now.name ≡ name.now) }
{
    buffer.name.items.as_slice() == name.items.as_slice()
}

/// The number of the first buffer with a name.
fn number_of(buffers: &[BufWord], name: &Text) -> Option<u32>
    requires { length buffers.now ≤ 16 }
    ensures { MatchOption result ((n : ℕ) → slice_get (map (λ b. b.name) buffers.now) n ≢ Some name.now)
        (λ n. (n < length buffers.now) × IsFirstOf (map (λ b. b.name) buffers.now) n name.now) }
{
    for (number, buffer) in buffers.iter().enumerate() {
        if is_named(buffer, name) {
            return Some(number as u32);
        }
    }
    None
}

/// Whether no two buffers have one name.
pub fn has_distinct_names(buffers: &[BufWord]) -> bool
    requires { length buffers.now ≤ 16 }
    ensures { IsTrue result ↔ AreDistinct (map (λ b. b.name) buffers.now) }
{
    for (number, buffer) in buffers.iter().enumerate() {
        if number_of(buffers, &buffer.name) != Some(number as u32) {
            return false;
        }
    }
    true
}

/// The numbers of the buffers with these names.
pub fn numbers_of(
    alloc: Global,
    buffers: &[BufWord],
    names: &[Text],
) -> Result<ListOf<u32>, UsageFault>
    requires { length buffers.now ≤ 16 }
    ensures { Finds result (λ numbers. AreNumbersOf buffers.now numbers names.now) }
{
    let mut items = Vec::new(alloc);
    for name in names {
        let Some(number) = number_of(buffers, name) else {
            return Err(BAD_FORM);
        };
        items.push(number)?;
    }
    Ok(ListOf { items })
}

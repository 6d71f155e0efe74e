//! All words behind a command, one after another.
ghost use Rattle.std.specs.Prelude.{◌≡◌, ◌+◌, [], map};
ghost use Rattle.std.specs.String.{string_bytes};
ghost use Rattle.command_words.specs.Commands;
ghost use Rattle.command_words.specs.Commands.{Answers};
ghost use Rattle.command_words.specs.Meaning;

use crate::entries::Entry;
use crate::further::entry_at;
use crate::given::first_unknown;
use crate::limits::is_within;
use crate::places::{CommandName, place_at};
use crate::repeats::is_repeated;
use crate::usage::{UsageFault, UsageKind};
use std::alloc::Global;
use vx_base::ListOf;

/// A number, kept in 32 bits.
pub fn kept(number: usize) -> u32
    ensures { result ≡ Meaning.kept number }
{
    if number < 4_294_967_295 {
        return number as u32;
    }
    4_294_967_295
}

/// What is wrong with a word behind so many others.
pub fn fault_behind(others: usize, kind: UsageKind) -> UsageFault
    ensures { result ≡ UsageFault.Usage (Meaning.kept (others + 1)) kind }
{
    if others < 4_294_967_295 {
        return UsageFault::Usage {
            word: others as u32 + 1,
            kind,
        };
    }
    UsageFault::Usage {
        word: 4_294_967_295,
        kind,
    }
}

/// A word that was read, behind those before it.
fn checked(before: &[Entry], found: Option<Entry>) -> Result<Entry, UsageFault>
    ensures { Answers result (Commands.checked before.now found) }
{
    let Some(word) = found else {
        return Err(fault_behind(before.len(), UsageKind::Form));
    };
    if !is_within(&word) {
        return Err(fault_behind(before.len(), UsageKind::Number));
    }
    if is_repeated(before, &word) {
        return Err(fault_behind(before.len(), UsageKind::Repeated));
    }
    Ok(word)
}

/// The word behind those before it.
fn next_word(
    alloc: Global,
    command: CommandName,
    before: &[Entry],
    text: &str,
) -> Result<Entry, UsageFault>
    ensures { Answers result (Commands.next_word command before.now text.now) }
{
    let place = place_at(command, before.len());
    let found = entry_at(alloc, place, text)?;
    checked(before, found)
}

/// All words behind a command.
fn words_of(
    alloc: Global,
    command: CommandName,
    texts: &[String],
) -> Result<ListOf<Entry>, UsageFault>
    ensures { Answers result (Commands.words_from command [] (map string_bytes texts.now)) }
{
    let mut items = Vec::new(alloc);
    for text in texts {
        let word = next_word(alloc, command, items.as_slice(), text.as_str())?;
        items.push(word)?;
    }
    Ok(ListOf { items })
}

/// All words behind a command, where each buffer that is named is given.
pub fn known_words(
    alloc: Global,
    command: CommandName,
    texts: &[String],
) -> Result<ListOf<Entry>, UsageFault>
    ensures { Answers result (Commands.known_words command (map string_bytes texts.now)) }
{
    let words = words_of(alloc, command, texts)?;
    if let Some(place) = first_unknown(words.items.as_slice()) {
        return Err(fault_behind(place, UsageKind::Unknown));
    }
    Ok(words)
}

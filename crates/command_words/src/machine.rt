//! Words of the machine.
ghost use Rattle.std.specs.Prelude.{◌≡◌, IfOk};
ghost use Rattle.command_words.specs.Readers;

use crate::entries::{Entry, Pick, SizeKey};
use crate::names::text_of;
use decimal_text::is_decimal;
use std::alloc::{AllocError, Global};

/// The size of this name.
fn size_named(key: &str) -> Option<SizeKey>
    ensures { result ≡ Readers.size_named key.now }
{
    if key == "cores" {
        return Some(SizeKey::Cores);
    }
    if key == "warps" {
        return Some(SizeKey::Warps);
    }
    if key == "lanes" {
        return Some(SizeKey::Lanes);
    }
    if key == "sets" {
        return Some(SizeKey::Sets);
    }
    if key == "ways" {
        return Some(SizeKey::Ways);
    }
    if key == "banks" {
        return Some(SizeKey::Banks);
    }
    if key == "turns" {
        return Some(SizeKey::Turns);
    }
    None
}

/// How warps are picked: `rr`, `old` or a seed.
fn sched_at(alloc: Global, text: &str) -> Result<Option<Entry>, AllocError>
    ensures { IfOk result (λ found. found ≡ Readers.sched_at text.now) }
{
    if text == "rr" {
        return Ok(Some(Entry::Sched(Pick::Round)));
    }
    if text == "old" {
        return Ok(Some(Entry::Sched(Pick::Oldest)));
    }
    if !is_decimal(text.as_bytes()) {
        return Ok(None);
    }
    Ok(Some(Entry::Sched(Pick::Seed(text_of(alloc, text)?))))
}

/// How lines are given up: `old` or a seed.
fn evict_at(alloc: Global, text: &str) -> Result<Option<Entry>, AllocError>
    ensures { IfOk result (λ found. found ≡ Readers.evict_at text.now) }
{
    if text == "old" {
        return Ok(Some(Entry::Evict(Pick::Oldest)));
    }
    if !is_decimal(text.as_bytes()) {
        return Ok(None);
    }
    Ok(Some(Entry::Evict(Pick::Seed(text_of(alloc, text)?))))
}

/// Whether records are printed: `yes` or `no`.
fn stats_at(text: &str) -> Option<Entry>
    ensures { result ≡ Readers.stats_at text.now }
{
    if text == "yes" {
        return Some(Entry::Stats(true));
    }
    if text == "no" {
        return Some(Entry::Stats(false));
    }
    None
}

/// A word of the machine that has no size.
fn choice_of(alloc: Global, key: &str, value: &str) -> Result<Option<Entry>, AllocError>
    ensures { IfOk result (λ found. found ≡ Readers.choice_of key.now value.now) }
{
    if key == "sched" {
        return sched_at(alloc, value);
    }
    if key == "evict" {
        return evict_at(alloc, value);
    }
    if key == "stats" {
        return Ok(stats_at(value));
    }
    Ok(None)
}

/// A word of the machine, by its key and its value.
pub fn machine_of(alloc: Global, key: &str, value: &str) -> Result<Option<Entry>, AllocError>
    ensures { IfOk result (λ found. found ≡ Readers.machine_of key.now value.now) }
{
    let Some(size) = size_named(key) else {
        return choice_of(alloc, key, value);
    };
    if !is_decimal(value.as_bytes()) {
        return Ok(None);
    }
    Ok(Some(Entry::Size(size, text_of(alloc, value)?)))
}

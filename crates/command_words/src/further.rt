//! Words with a key, one at a time: buffers, launches and names to print.
ghost use Rattle.std.specs.Prelude.{◌≡◌, IfOk};
ghost use Rattle.command_words.specs.Readers;

use crate::entries::{BufEntry, Entry, Origin};
use crate::launches::launch_at;
use crate::machine::machine_of;
use crate::names::{cut, is_name, text_of};
use crate::places::Place;
use decimal_text::is_decimal;
use std::alloc::{AllocError, Global};
use vx_base::Elem;

/// The type of this name.
fn elem_named(text: &str) -> Option<Elem>
    ensures { result ≡ Readers.elem_named text.now }
{
    if text == "char" {
        return Some(Elem::Char);
    }
    if text == "uchar" {
        return Some(Elem::Uchar);
    }
    if text == "short" {
        return Some(Elem::Short);
    }
    if text == "ushort" {
        return Some(Elem::Ushort);
    }
    if text == "int" {
        return Some(Elem::Int);
    }
    if text == "uint" {
        return Some(Elem::Uint);
    }
    None
}

/// A path, which is not empty.
fn path_at(alloc: Global, text: &str) -> Result<Option<Origin>, AllocError>
    ensures { IfOk result (λ found. found ≡ Readers.path_at text.now) }
{
    if text.is_empty() {
        return Ok(None);
    }
    Ok(Some(Origin::In(text_of(alloc, text)?)))
}

/// A path, or a count of zeros, as the word before it says.
fn origin_of(alloc: Global, way: &str, rest: &str) -> Result<Option<Origin>, AllocError>
    ensures { IfOk result (λ found. found ≡ Readers.origin_of way.now rest.now) }
{
    if way == "in" {
        return path_at(alloc, rest);
    }
    if way != "zero" {
        return Ok(None);
    }
    if !is_decimal(rest.as_bytes()) {
        return Ok(None);
    }
    Ok(Some(Origin::Zero(text_of(alloc, rest)?)))
}

/// Where the bytes of a buffer come from: `in:PATH` or `zero:COUNT`.
fn origin_at(alloc: Global, text: &str) -> Result<Option<Origin>, AllocError>
    ensures { IfOk result (λ found. found ≡ Readers.origin_at text.now) }
{
    let Some((way, rest)) = cut(text, ':') else {
        return Ok(None);
    };
    origin_of(alloc, way, rest)
}

/// A buffer, from the parts of its word.
fn buffer_of(alloc: Global, name: &str, elem: &str, rest: &str) -> Result<Option<Entry>, AllocError>
    ensures { IfOk result (λ found. found ≡ Readers.buffer_of name.now elem.now rest.now) }
{
    let Some(elem) = elem_named(elem) else {
        return Ok(None);
    };
    let Some(origin) = origin_at(alloc, rest)? else {
        return Ok(None);
    };
    if !is_name(name.as_bytes()) {
        return Ok(None);
    }
    let name = text_of(alloc, name)?;
    Ok(Some(Entry::Buf(BufEntry { name, elem, origin })))
}

/// A buffer, behind `buf=`.
fn buffer_at(alloc: Global, text: &str) -> Result<Option<Entry>, AllocError>
    ensures { IfOk result (λ found. found ≡ Readers.buffer_at text.now) }
{
    let Some((name, rest)) = cut(text, ':') else {
        return Ok(None);
    };
    let Some((elem, rest)) = cut(rest, ':') else {
        return Ok(None);
    };
    buffer_of(alloc, name, elem, rest)
}

/// The name of a buffer to print, behind `show=`.
fn show_at(alloc: Global, text: &str) -> Result<Option<Entry>, AllocError>
    ensures { IfOk result (λ found. found ≡ Readers.show_at text.now) }
{
    if !is_name(text.as_bytes()) {
        return Ok(None);
    }
    Ok(Some(Entry::Show(text_of(alloc, text)?)))
}

/// A word with a key, by its key and its value.
fn keyed_of(alloc: Global, key: &str, value: &str) -> Result<Option<Entry>, AllocError>
    ensures { IfOk result (λ found. found ≡ Readers.keyed_of key.now value.now) }
{
    if key == "buf" {
        return buffer_at(alloc, value);
    }
    if key == "do" {
        return launch_at(alloc, value);
    }
    if key == "show" {
        return show_at(alloc, value);
    }
    machine_of(alloc, key, value)
}

/// A word with a key.
fn keyed_at(alloc: Global, word: &str) -> Result<Option<Entry>, AllocError>
    ensures { IfOk result (λ found. found ≡ Readers.entry_at Place.Further word.now) }
{
    let Some((key, value)) = cut(word, '=') else {
        return Ok(None);
    };
    keyed_of(alloc, key, value)
}

/// A word with a key of the machine.
fn machine_at(alloc: Global, word: &str) -> Result<Option<Entry>, AllocError>
    ensures { IfOk result (λ found. found ≡ Readers.entry_at Place.Machine word.now) }
{
    let Some((key, value)) = cut(word, '=') else {
        return Ok(None);
    };
    machine_of(alloc, key, value)
}

/// The name of a kernel.
fn kernel_at(alloc: Global, word: &str) -> Result<Option<Entry>, AllocError>
    ensures { IfOk result (λ found. found ≡ Readers.entry_at Place.Kernel word.now) }
{
    if !is_name(word.as_bytes()) {
        return Ok(None);
    }
    Ok(Some(Entry::Kernel(text_of(alloc, word)?)))
}

/// A seed.
fn seed_at(alloc: Global, word: &str) -> Result<Option<Entry>, AllocError>
    ensures { IfOk result (λ found. found ≡ Readers.entry_at Place.Seed word.now) }
{
    if !is_decimal(word.as_bytes()) {
        return Ok(None);
    }
    Ok(Some(Entry::Seed(text_of(alloc, word)?)))
}

/// A count of statements.
fn count_at(alloc: Global, word: &str) -> Result<Option<Entry>, AllocError>
    ensures { IfOk result (λ found. found ≡ Readers.entry_at Place.Count word.now) }
{
    if !is_decimal(word.as_bytes()) {
        return Ok(None);
    }
    Ok(Some(Entry::Count(text_of(alloc, word)?)))
}

/// A word at a place, and None where it has no form that may stand there.
pub fn entry_at(alloc: Global, place: Place, word: &str) -> Result<Option<Entry>, AllocError>
    ensures { IfOk result (λ found. found ≡ Readers.entry_at place word.now) }
{
    match place {
        Place::File => Ok(Some(Entry::File(text_of(alloc, word)?))),
        Place::Kernel => kernel_at(alloc, word),
        Place::Seed => seed_at(alloc, word),
        Place::Count => count_at(alloc, word),
        Place::Further => keyed_at(alloc, word),
        Place::Machine => machine_at(alloc, word),
        Place::Nothing => Ok(None),
    }
}

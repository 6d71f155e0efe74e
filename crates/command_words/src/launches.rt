//! Launches: `ENTRY/GLOBAL/LOCAL` and `ENTRY/GLOBAL/LOCAL/ARG,ARG`.
ghost use Rattle.std.specs.Prelude.{◌≡◌, [], ◌==◌, map, IfOk};
ghost use Rattle.std.specs.List.{slice_split};
ghost use Rattle.std.specs.Option.{option_map};
ghost use Rattle.command_words.specs.Cuts;
ghost use Rattle.command_words.specs.Readers;

use crate::entries::{ArgEntry, ArgEntryList, DoEntry, Entry};
use crate::names::{behind_minus, comma_parts, cut, is_name, text_of};
use decimal_text::is_decimal;
use std::alloc::{AllocError, Global};
use vx_base::ListOf;

/// `local:COUNT`, a `__local` array.
fn local_at(alloc: Global, text: &str) -> Result<Option<ArgEntry>, AllocError>
    ensures { IfOk result (λ found. found ≡ Readers.local_at text.now) }
{
    let Some((way, count)) = cut(text, ':') else {
        return Ok(None);
    };
    if way != "local" {
        return Ok(None);
    }
    if !is_decimal(count.as_bytes()) {
        return Ok(None);
    }
    Ok(Some(ArgEntry::Local(text_of(alloc, count)?)))
}

/// A number with a `-`, or a `__local` array.
fn marked_at(alloc: Global, text: &str) -> Result<Option<ArgEntry>, AllocError>
    ensures { IfOk result (λ found. found ≡ Readers.marked_at (Cuts.behind_minus text.now) text.now) }
{
    let Some(digits) = behind_minus(text) else {
        return local_at(alloc, text);
    };
    if !is_decimal(digits.as_bytes()) {
        return Ok(None);
    }
    Ok(Some(ArgEntry::Negative(text_of(alloc, digits)?)))
}

/// An argument: a name, a number, or a `__local` array.
fn arg_at(alloc: Global, text: &str) -> Result<Option<ArgEntry>, AllocError>
    ensures { IfOk result (λ found. found ≡ Readers.arg_at text.now) }
{
    if is_name(text.as_bytes()) {
        return Ok(Some(ArgEntry::Named(text_of(alloc, text)?)));
    }
    if is_decimal(text.as_bytes()) {
        return Ok(Some(ArgEntry::Number(text_of(alloc, text)?)));
    }
    marked_at(alloc, text)
}

/// Arguments, one behind another.
fn args_of(alloc: Global, texts: &[&str]) -> Result<Option<ArgEntryList>, AllocError>
    ensures { IfOk result (λ found. found ≡ Readers.args_from [] (map (λ text. text.now) texts.now)) }
{
    let mut items = Vec::new(alloc);
    for text in texts {
        let Some(arg) = arg_at(alloc, text)? else {
            return Ok(None);
        };
        items.push(arg)?;
    }
    Ok(Some(ListOf { items }))
}

/// Arguments with commas between them.
fn args_at(alloc: Global, text: &str) -> Result<Option<ArgEntryList>, AllocError>
    ensures { IfOk result (λ found. found ≡ Readers.args_from [] (slice_split (λ b. b == 44) text.now)) }
{
    let parts = comma_parts(alloc, text)?;
    args_of(alloc, parts.as_slice())
}

/// The size of a group, and the arguments behind it, if there are any.
fn tail_at<'a>(alloc: Global, text: &'a str) -> Result<Option<(&'a str, ArgEntryList)>, AllocError>
    ensures { IfOk result (λ found. option_map (λ p. (p.0.now, p.1)) found ≡ Readers.tail_at text.now) }
{
    let Some((local, rest)) = cut(text, '/') else {
        let items = Vec::new(alloc);
        return Ok(Some((text, ListOf { items })));
    };
    let Some(args) = args_at(alloc, rest)? else {
        return Ok(None);
    };
    Ok(Some((local, args)))
}

/// A launch, from the parts of its word.
fn launch_of(
    alloc: Global,
    entry: &str,
    global: &str,
    local: &str,
    args: ArgEntryList,
) -> Result<Option<Entry>, AllocError>
    ensures { IfOk result (λ found. found ≡ Readers.launch_of entry.now global.now local.now args) }
{
    if !is_name(entry.as_bytes()) {
        return Ok(None);
    }
    if !is_decimal(global.as_bytes()) {
        return Ok(None);
    }
    if !is_decimal(local.as_bytes()) {
        return Ok(None);
    }
    let entry = text_of(alloc, entry)?;
    let global = text_of(alloc, global)?;
    let local = text_of(alloc, local)?;
    Ok(Some(Entry::Do(DoEntry {
        entry,
        global,
        local,
        args,
    })))
}

/// A launch, behind `do=`.
pub fn launch_at(alloc: Global, text: &str) -> Result<Option<Entry>, AllocError>
    ensures { IfOk result (λ found. found ≡ Readers.launch_at text.now) }
{
    let Some((entry, rest)) = cut(text, '/') else {
        return Ok(None);
    };
    let Some((global, rest)) = cut(rest, '/') else {
        return Ok(None);
    };
    let Some((local, args)) = tail_at(alloc, rest)? else {
        return Ok(None);
    };
    launch_of(alloc, entry, global, local, args)
}

ghost use Rattle.std.specs.Prelude.{◌≡◌, ◌++◌, ◌^◌, ◌<◌, length, OnOk};
ghost use Rattle.vx_run.specs.Output.{buffer_text, elements_text, head_text, int_text, rest_text, row_text};

use std::alloc::Global;
use vx_base::{Memory, Text};

// How many elements a line has.
const ROW: usize = 16;

fn push_int(alloc: Global, text: &mut Vec<u8>, word: u32) -> Result<(), Memory>
    ensures { OnOk result (text.new.items ≡ text.old.items ++ int_text word) }
{
    let number = word.cast_signed();
    let digits = format!(in alloc; "{number}")?;
    text.extend_from_slice(digits.as_bytes())?;
    Ok(())
}

fn push_row(alloc: Global, text: &mut Vec<u8>, words: &[u32]) -> Result<(), Memory>
    ensures { OnOk result (text.new.items ≡ text.old.items ++ row_text words.now) }
{
    if let Some((first, rest)) = words.split_first() {
        push_int(alloc, text, *first)?;
        push_rest(alloc, text, rest)?;
    }
    text.push(b'\n')?;
    Ok(())
}

fn push_rest(alloc: Global, text: &mut Vec<u8>, words: &[u32]) -> Result<(), Memory>
    ensures { OnOk result (text.new.items ≡ text.old.items ++ rest_text words.now) }
{
    for word in words {
        text.push(b' ')?;
        push_int(alloc, text, *word)?;
    }
    Ok(())
}

fn push_head(alloc: Global, text: &mut Vec<u8>, name: &Text, count: usize) -> Result<(), Memory>
    ensures { OnOk result (text.new.items ≡ text.old.items ++ head_text name.now count) }
{
    text.extend_from_slice(&name.items)?;
    let rest = format!(in alloc; " int {count}\n")?;
    text.extend_from_slice(rest.as_bytes())?;
    Ok(())
}

/// Appends a buffer of ints as it is printed: a line with its name, its type and how many elements it has, and then its
/// elements, 16 on a line.
pub fn push_buffer(
    alloc: Global,
    text: &mut Vec<u8>,
    name: &Text,
    words: &[u32],
) -> Result<(), Memory>
    ensures { OnOk result (text.new.items ≡ text.old.items ++ buffer_text name.now words.now) }
{
    push_head(alloc, text, name, words.len())?;
    push_lines(alloc, text, words)
}

fn push_lines(alloc: Global, text: &mut Vec<u8>, words: &[u32]) -> Result<(), Memory>
    ensures { OnOk result (text.new.items ≡ text.old.items ++ elements_text words.now) }
{
    for line in 0..words.len().div_ceil(ROW) {
        let start = ROW * line;
        let end = words.len().min(start + ROW);
        push_row(alloc, text, &words[start..end])?;
    }
    Ok(())
}

//! The buffers of a launch in one memory, and the printed buffers behind it.

ghost use Rattle.std.specs.Prelude.{◌≡◌, ◌≤◌, ◌<◌, ◌+◌, ◌*◌, ◌++◌, All, length, replicate, IfOk, OnOk};
ghost use Rattle.std.specs.List.{flat_map};
ghost use Rattle.first_kernels.specs.FirstMemory.{stride};
ghost use Rattle.vx_run.specs.Layout.{fields_from, padded, shown_text};

use crate::output::push_buffer;
use first_kernels::code::stride;
use std::alloc::Global;
use vx_base::{Memory, Size, Text, get_le};
use vx_words::BufWord;

// Appends a buffer, and zeros behind it.
fn push_padded(memory: &mut Vec<u8>, bytes: &[u8], gap: usize) -> Result<(), Memory>
    requires { gap < 64 }
    ensures { OnOk result (memory.new.items ≡ memory.old.items ++ (bytes.now ++ replicate gap 0)) }
{
    memory.extend_from_slice(bytes)?;
    let end = memory.len() + gap;
    memory.resize(end, 0)?;
    Ok(())
}

/// The buffers one after another, each padded to the next multiple of 64 bytes.
pub fn lay_out(alloc: Global, contents: &[Text], items: u32) -> Result<Vec<u8>, Memory>
    requires lengths { All (λ bytes. length bytes ≡ 4 * items) contents.now }
    requires few { items ≤ 32 }
    ensures { IfOk result (λ memory. memory.items ≡ flat_map (padded items) contents.now) }
{
    let gap = (stride(items) - 4 * items) as usize;
    let mut memory = Vec::new(alloc);
    for content in contents {
        push_padded(&mut memory, content.as_slice(), gap)?;
    }
    Ok(memory)
}

// The ints that stand one after another in the memory.
fn words_at(alloc: Global, memory: &[u8], start: usize, count: u32) -> Result<Vec<u32>, Memory>
    requires { start + 4 * count ≤ length memory.now }
    ensures { IfOk result (λ words. words.items ≡ fields_from memory.now start count) }
{
    let mut words = Vec::new(alloc);
    for k in 0..count {
        words.push(get_le(memory, start + 4 * k as usize, Size::Four))?;
    }
    Ok(words)
}

// Appends one of the buffers as it is printed.
fn push_shown(
    alloc: Global,
    text: &mut Vec<u8>,
    buffers: &[BufWord],
    items: u32,
    memory: &[u8],
    number: u32,
) -> Result<(), Memory>
    requires number { number < length buffers.now }
    requires few { items ≤ 32 }
    requires few_buffers { length buffers.now ≤ 16 }
    requires room { length memory.now ≡ length buffers.now * stride items }
    ensures { OnOk result (text.new.items ≡ text.old.items ++ shown_text buffers.now items memory.now number) }
{
    let start = number as usize * stride(items) as usize;
    let words = words_at(alloc, memory, start, items)?;
    push_buffer(alloc, text, &buffers[number as usize].name, &words)
}

/// The text of the buffers that are to be printed, in order.
pub fn print_buffers(
    alloc: Global,
    buffers: &[BufWord],
    items: u32,
    memory: &[u8],
    shows: &[u32],
) -> Result<Text, Memory>
    requires shows { All (λ b. b < length buffers.now) shows.now }
    requires few { items ≤ 32 }
    requires few_buffers { length buffers.now ≤ 16 }
    requires room { length memory.now ≡ length buffers.now * stride items }
    ensures { IfOk result (λ text. text ≡ flat_map (shown_text buffers.now items memory.now) shows.now) }
{
    let mut text = Vec::new(alloc);
    for number in shows {
        push_shown(alloc, &mut text, buffers, items, memory, *number)?;
    }
    Ok(Text { items: text })
}

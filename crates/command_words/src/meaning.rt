//! What the words ask for, word by word.
ghost use Rattle.std.specs.Prelude.{◌≡◌, ◌^◌, ◌<◌, map, IfOk};
ghost use Rattle.std.specs.List.{list_any};
ghost use Rattle.command_words.specs.Meaning;

use crate::commands::{BufFrom, BufWord, BufWordList, DoWord, DoWordList, ShowList};
use crate::entries::{ArgEntry, BufEntry, DoEntry, Entry, Origin, Pick, SizeKey};
use crate::limits::{number_upto, word_upto};
use crate::names::{copy_of, is_same};
use crate::pass::kept;
use item_acts::Range;
use launch_plans::{Arg, ArgList, Evict, Plan, Sched, Shape, usual_shape};
use std::alloc::{AllocError, Global};
use vx_base::{ListOf, Text};

/// The number of 32 bits that digits write.
pub fn word_of(digits: &Text) -> u32
    ensures { result ≡ Meaning.word_of digits.now }
{
    word_upto(digits, u32::MAX)
}

/// The number of 64 bits that digits write.
pub fn seed_of(digits: &Text) -> u64
    ensures { result ≡ Meaning.seed_of digits.now }
{
    number_upto(digits, u64::MAX)
}

/// Where the bytes of a buffer come from.
fn from_of(alloc: Global, origin: &Origin) -> Result<BufFrom, AllocError>
    ensures { IfOk result (λ from. from ≡ Meaning.from_of origin.now) }
{
    match origin {
        Origin::In(path) => Ok(BufFrom::File(copy_of(alloc, path)?)),
        Origin::Zero(digits) => Ok(BufFrom::Zero(word_of(digits))),
    }
}

/// A buffer.
fn buf_word_of(alloc: Global, buffer: &BufEntry) -> Result<BufWord, AllocError>
    ensures { IfOk result (λ b. b ≡ Meaning.buf_word_of buffer.now) }
{
    let name = copy_of(alloc, &buffer.name)?;
    let from = from_of(alloc, &buffer.origin)?;
    Ok(BufWord {
        name,
        elem: buffer.elem,
        from,
    })
}

/// The buffers, in the order of their words.
pub fn buffers_of(alloc: Global, words: &[Entry]) -> Result<BufWordList, AllocError>
    ensures { IfOk result (λ buffers. buffers ≡ Meaning.buffers_of words.now) }
{
    let mut items = Vec::new(alloc);
    for word in words {
        if let Entry::Buf(buffer) = word {
            items.push(buf_word_of(alloc, buffer)?)?;
        }
    }
    Ok(ListOf { items })
}

/// The number of the first buffer of a name, and how many there are where none has it.
fn number_from(name: &Text, buffers: &[BufWord]) -> usize
    ensures { result ≡ Meaning.number_from name.now 0 buffers.now }
{
    for (number, buffer) in buffers.iter().enumerate() {
        if is_same(name, &buffer.name) {
            return number;
        }
    }
    buffers.len()
}

/// The same, kept in 32 bits.
fn number_of(buffers: &[BufWord], name: &Text) -> u32
    ensures { result ≡ Meaning.number_of buffers.now name.now }
{
    kept(number_from(name, buffers))
}

/// An argument of a launch.
fn arg_of(buffers: &[BufWord], arg: &ArgEntry) -> Arg
    ensures { result ≡ Meaning.arg_of buffers.now arg.now }
{
    match arg {
        ArgEntry::Named(name) => Arg::Buffer(number_of(buffers, name)),
        ArgEntry::Number(digits) => Arg::Int(word_of(digits)),
        ArgEntry::Negative(digits) => Arg::Int(word_of(digits).wrapping_neg()),
        ArgEntry::Local(digits) => Arg::Local(word_of(digits)),
    }
}

/// The arguments of a launch.
fn args_of(alloc: Global, buffers: &[BufWord], args: &[ArgEntry]) -> Result<ArgList, AllocError>
    ensures { IfOk result (λ found. found ≡ map (Meaning.arg_of buffers.now) args.now) }
{
    let mut items = Vec::new(alloc);
    for arg in args {
        items.push(arg_of(buffers, arg))?;
    }
    Ok(ListOf { items })
}

/// The items of a launch.
fn range_of(launch: &DoEntry) -> Range
    ensures { result ≡ Meaning.range_of launch.now }
{
    Range {
        dims: 1,
        global: [word_of(&launch.global), 1, 1],
        local: [word_of(&launch.local), 1, 1],
    }
}

/// A launch.
fn do_word_of(alloc: Global, buffers: &[BufWord], launch: &DoEntry) -> Result<DoWord, AllocError>
    ensures { IfOk result (λ d. d ≡ Meaning.do_word_of buffers.now launch.now) }
{
    let entry = copy_of(alloc, &launch.entry)?;
    let args = args_of(alloc, buffers, launch.args.items.as_slice())?;
    let range = range_of(launch);
    Ok(DoWord {
        entry,
        plan: Plan { range, args },
    })
}

/// The launches, in the order of their words.
pub fn launches_of(
    alloc: Global,
    buffers: &[BufWord],
    words: &[Entry],
) -> Result<DoWordList, AllocError>
    ensures { IfOk result (λ launches. launches ≡ Meaning.launches_of buffers.now words.now) }
{
    let mut items = Vec::new(alloc);
    for word in words {
        if let Entry::Do(launch) = word {
            items.push(do_word_of(alloc, buffers, launch)?)?;
        }
    }
    Ok(ListOf { items })
}

/// The buffers to print, in the order of their words.
pub fn shows_of(alloc: Global, buffers: &[BufWord], words: &[Entry]) -> Result<ShowList, AllocError>
    ensures { IfOk result (λ shows. shows ≡ Meaning.shows_of buffers.now words.now) }
{
    let mut items = Vec::new(alloc);
    for word in words {
        if let Entry::Show(name) = word {
            items.push(number_of(buffers, name))?;
        }
    }
    Ok(ListOf { items })
}

/// How warps are picked.
fn sched_of(pick: &Pick) -> Sched
    ensures { result ≡ Meaning.sched_of pick.now }
{
    match pick {
        Pick::Round => Sched::Round,
        Pick::Oldest => Sched::Oldest,
        Pick::Seed(digits) => Sched::Seeded(seed_of(digits)),
    }
}

/// How lines are given up.
fn evict_of(pick: &Pick) -> Evict
    ensures { result ≡ Meaning.evict_of pick.now }
{
    match pick {
        Pick::Round | Pick::Oldest => Evict::Oldest,
        Pick::Seed(digits) => Evict::Seeded(seed_of(digits)),
    }
}

/// The machine with one size changed.
fn sized(shape: Shape, key: SizeKey, digits: &Text) -> Shape
    ensures { result ≡ Meaning.sized shape key digits.now }
{
    let mut shape = shape;
    match key {
        SizeKey::Cores => shape.cores = word_of(digits),
        SizeKey::Warps => shape.warps = word_of(digits),
        SizeKey::Lanes => shape.lanes = word_of(digits),
        SizeKey::Sets => shape.sets = word_of(digits),
        SizeKey::Ways => shape.ways = word_of(digits),
        SizeKey::Banks => shape.banks = word_of(digits),
        SizeKey::Turns => shape.turns = seed_of(digits),
    }
    shape
}

/// The machine that a word makes of one.
fn shaped_by(shape: Shape, word: &Entry) -> Shape
    ensures { result ≡ Meaning.shaped_by shape word.now }
{
    match word {
        Entry::Size(key, digits) => sized(shape, *key, digits),
        Entry::Sched(pick) => Shape {
            sched: sched_of(pick),
            ..shape
        },
        Entry::Evict(pick) => Shape {
            evict: evict_of(pick),
            ..shape
        },
        _ => shape,
    }
}

/// The machine that the words ask for.
pub fn shape_of(words: &[Entry]) -> Shape
    ensures { result ≡ Meaning.shaped Meaning.usual words.now }
{
    let mut shape = usual_shape();
    for word in words {
        shape = shaped_by(shape, word);
    }
    shape
}

/// Whether a word asks that records are printed.
fn wants_stats(word: &Entry) -> bool
    ensures { result ≡ Meaning.wants_stats word.now }
{
    match word {
        Entry::Stats(wanted) => *wanted,
        _ => false,
    }
}

/// Whether records are printed.
pub fn stats_of(words: &[Entry]) -> bool
    ensures { result ≡ Meaning.stats_of words.now }
{
    words.iter().any(|word| wants_stats(word))
}

/// Whether a word is a launch.
fn is_launch(word: &Entry) -> bool
    ensures { result ≡ Meaning.is_launch word.now }
{
    matches!(word, Entry::Do(_))
}

/// Whether there is a launch.
pub fn has_launch(words: &[Entry]) -> bool
    ensures { result ≡ list_any Meaning.is_launch words.now }
{
    words.iter().any(|word| is_launch(word))
}

//! The lists that a world holds, and what its turns do with them.
ghost use Rattle.std.specs.Prelude.{◌≡◌, ℕ, ◌+◌, ◌*◌, ◌/◌, ◌%◌, ◌<◌, ◌≤◌, List, [], ◌∷◌, ◌++◌, length, map, Option, None, Some, IfOk, MatchOption, slice_set, slice_index, slice_index_or, replicate, OnErr};
ghost use Rattle.std.specs.Result.{ForErr};
ghost use Rattle.vx_base.specs.Bytes.{bytes_of};
ghost use Rattle.item_acts.specs.declared.races.LogEntry.{LogEntry};

use crate::acts::Place;
use crate::arrays::{BytesList, number_in, number_in_group, put_in, put_in_group, zero_arrays};
use crate::races::{EntryLog, LogEntry};
use std::alloc::Global;
use vx_base::{ListOf, Memory, Pos, Size, SizeList, WordList};

/// How an item of a world stands.
#[derive(Clone, Copy, Debug, PartialEq, Eq)]
pub enum Progress {
    /// It goes on.
    Going,
    /// It has come to its end.
    Ended,
    /// It has stopped at a fault.
    Faulted(Pos),
}

/// The lists that a world holds.
#[derive(Debug, Drop)]
pub struct Held {
    /// How many items there are.
    pub items: u32,
    /// How many items a group has.
    pub local: u32,
    /// How many bytes each local array has.
    pub sizes: SizeList,
    /// The bytes of each buffer.
    pub buffers: BytesList,
    /// The bytes of each local array, for each group.
    pub arrays: ListOf<BytesList>,
    /// The answers of each item.
    pub answers: ListOf<WordList>,
    /// How each item stands.
    pub progress: ListOf<Progress>,
    /// How often each group has passed a barrier.
    pub epochs: ListOf<u64>,
    /// The loads and stores that were made.
    pub log: EntryLog,
}

/// Adds an answer to those of an item, and leaves all as it was where memory runs out.
pub(crate) fn add_answer(
    lists: &mut ListOf<WordList>,
    item: usize,
    answer: u32,
) -> Result<(), Memory>
    requires { item < length lists.old }
    ensures ok { IfOk result (λ _. lists.new ≡ slice_set lists.old item (slice_index_or lists.old item [] ++ answer ∷ [])) }
    ensures err { OnErr result (lists.new ≡ lists.old) }
{
    let own = &mut lists.items[item];
    if own.items.push(answer).is_err() {
        return Err(Memory);
    }
    Ok(())
}

/// Takes the last answer of an item away.
pub(crate) fn drop_answer(lists: &mut ListOf<WordList>, item: usize)
    requires { item < length lists.old }
    ensures same_length { length lists.new ≡ length lists.old }
    ensures dropped { (front : List ℕ) (answer : ℕ) → slice_index_or lists.old item [] ≡ front ++ answer ∷ [] → lists.new ≡ slice_set lists.old item front }
{
    let own = &mut lists.items[item];
    let _ = own.items.pop();
}

/// Adds an entry to a log, and leaves it as it was where memory runs out.
fn add_entry(log: &mut EntryLog, entry: LogEntry) -> Result<(), Memory>
    ensures ok { IfOk result (λ _. log.new ≡ log.old ++ entry ∷ []) }
    ensures err { OnErr result (log.new ≡ log.old) }
{
    if log.items.push(entry).is_err() {
        return Err(Memory);
    }
    Ok(())
}

/// Takes the last entry of a log away.
fn drop_entry(log: &mut EntryLog)
    ensures { (front : List LogEntry) (entry : LogEntry) → log.old ≡ front ++ entry ∷ [] → log.new ≡ front }
{
    let _ = log.items.pop();
}

/// No answers of so many items.
fn no_answers(alloc: Global, items: u32) -> Result<ListOf<WordList>, Memory>
    ensures { IfOk result (λ lists. lists ≡ replicate items []) }
{
    let mut lists = Vec::new(alloc);
    for _ in 0..items {
        if lists
            .push(ListOf {
                items: Vec::new(alloc),
            })
            .is_err()
        {
            return Err(Memory);
        }
    }
    Ok(ListOf { items: lists })
}

/// So many items that go on.
fn all_going(alloc: Global, items: u32) -> Result<ListOf<Progress>, Memory>
    ensures { IfOk result (λ list. list ≡ replicate items Progress.Going) }
{
    let mut list = Vec::new(alloc);
    for _ in 0..items {
        if list.push(Progress::Going).is_err() {
            return Err(Memory);
        }
    }
    Ok(ListOf { items: list })
}

/// So many groups that have passed no barrier.
fn no_passes(alloc: Global, groups: u32) -> Result<ListOf<u64>, Memory>
    ensures { IfOk result (λ list. list ≡ replicate groups 0) }
{
    let mut list = Vec::new(alloc);
    for _ in 0..groups {
        if list.push(0).is_err() {
            return Err(Memory);
        }
    }
    Ok(ListOf { items: list })
}

/// Local arrays of these many bytes for so many groups, all of them 0.
fn zero_groups(alloc: Global, sizes: &SizeList, groups: u32) -> Result<ListOf<BytesList>, Memory>
    ensures { IfOk result (λ list. list ≡ replicate groups (map (λ size. replicate size 0) sizes.now)) }
{
    let mut list = Vec::new(alloc);
    for _ in 0..groups {
        let arrays = zero_arrays(alloc, sizes.as_slice())?;
        if list.push(arrays).is_err() {
            return Err(Memory);
        }
    }
    Ok(ListOf { items: list })
}

impl Held {
    ghost use Rattle.item_acts.specs.Worlds.{opening};
    ghost use Rattle.item_acts.specs.Launches.{IsInside, field_at};
    ghost use Rattle.item_acts.specs.Worlds.{IsHeld, bytes_held, shape_of, entry_of, answered, logged, stored};

    /// The lists of a new world: these buffers, no answers, no accesses, and each local array filled with zeros.
    pub(crate) fn open(
        alloc: Global,
        items: u32,
        local: u32,
        buffers: BytesList,
        sizes: SizeList,
    ) -> Result<Held, Memory>
        requires { 0 < local }
        ensures { IfOk result (λ held. held ≡ opening items local buffers sizes) }
    {
        let groups = items / local;
        let arrays = zero_groups(alloc, &sizes, groups)?;
        let answers = no_answers(alloc, items)?;
        let progress = all_going(alloc, items)?;
        let epochs = no_passes(alloc, groups)?;
        let log = ListOf {
            items: Vec::new(alloc),
        };
        Ok(Held {
            items,
            local,
            sizes,
            buffers,
            arrays,
            answers,
            progress,
            epochs,
            log,
        })
    }

    /// The number in a field, and None where the launch has no such field.
    pub(crate) fn number_at(&self, place: Place, size: Size) -> Option<u32>
        requires { IsHeld self.now }
        ensures { MatchOption result (IsInside (shape_of self.now) place (bytes_of size) → ⊥)
            (λ v. IsInside (shape_of self.now) place (bytes_of size) × (v ≡ field_at (bytes_held self.now) place (bytes_of size))) }
    {
        match place {
            Place::Global { buffer, byte } => number_in(
                self.buffers.as_slice(),
                buffer,
                byte,
                size,
            ),
            Place::Local { group, array, byte } => number_in_group(
                self.arrays.as_slice(),
                group,
                array,
                byte,
                size,
            ),
        }
    }

    /// Writes a number into a field that the launch has.
    pub(crate) fn put_at(&mut self, place: Place, size: Size, value: u32)
        requires held { IsHeld self.old }
        requires inside { IsInside (shape_of self.old) place (bytes_of size) }
        ensures { self.new ≡ stored self.old place (bytes_of size) value }
    {
        match place {
            Place::Global { buffer, byte } => put_in(&mut self.buffers, buffer, byte, size, value),
            Place::Local { group, array, byte } => put_in_group(
                &mut self.arrays,
                group,
                array,
                byte,
                size,
                value,
            ),
        }
    }

    /// Notes an access of an item and its answer, and leaves all as it was where memory runs out.
    pub(crate) fn note(
        &mut self,
        item: u32,
        place: Place,
        size: Size,
        writes: bool,
        answer: u32,
    ) -> Result<(), Memory>
        requires held { IsHeld self.old }
        requires exists { item < self.old.items }
        ensures ok { IfOk result (λ _. self.new ≡ answered (logged self.old (entry_of self.old item place size writes)) item answer) }
        ensures err { OnErr result (self.new ≡ self.old) }
    {
        let group = item / self.local;
        let entry = LogEntry {
            item,
            group,
            epoch: self.epochs.items[group as usize],
            place,
            size,
            writes,
        };
        add_entry(&mut self.log, entry)?;
        if add_answer(&mut self.answers, item as usize, answer).is_err() {
            drop_entry(&mut self.log);
            return Err(Memory);
        }
        Ok(())
    }
}

//! Worlds: the items of a launch, the bytes that they share, and what has come of them so far.
ghost use Rattle.std.specs.Prelude.{◌≡◌, ℕ, ◌*◌, ◌%◌, ◌<◌, ◌≤◌, [], map, length, IfOk, OnErr, MatchOption, MatchBool, ◌+◌, slice_index, slice_index_or};
ghost use Rattle.std.specs.Result.{IfErr};
ghost use Rattle.item_acts.specs.declared.acts.Point.{Point};
ghost use Rattle.item_acts.specs.Launches.{start};
ghost use Rattle.item_acts.specs.Tame.{HasRace};
ghost use Rattle.item_acts.specs.Worlds.{array_in, state_of, buffer_byte, accesses_held, launch_of, HasTurned, IsRefused, IsPointOf, WaitsWithin, AllWaitWithin, HasPassed, IsRefusedPass};
ghost use Rattle.item_acts.specs.LeastRace.{IsLeastRace};
ghost use Rattle.item_acts.specs.OneResult.{IsSettled};

use crate::acts::{Action, Asked, Point};
use crate::arrays::{BytesList, byte_in};
use crate::code::ItemCode;
use crate::faults::{PassFault, TurnFault, Why};
use crate::held::{Held, Progress};
use crate::races::least_race;
use std::alloc::Global;
use std::marker::Model;
use vx_base::{Memory, SizeList};

/// The items of a launch that run some code, with the bytes that they share and all that has come of them so far.
#[derive(Drop)]
pub struct World<C> {
    code: C,
    fuel: u64,
    held: Held,
}

impl<C> Model for World<C> {
    ghost use Rattle.item_acts.specs.Worlds.{Contents, IsHeld};

    ghost Value = { Contents C };

    ghost view = { λ w. record { code = w.code; fuel = w.fuel; held = w.held } };

    ghost invariant = { λ w. IsHeld w.held };
}

/// Whether two points are the same.
fn same_point(one: &Point, other: &Point) -> bool
    ensures { MatchBool result (one.now ≡ other.now) (one.now ≡ other.now → ⊥) }
{
    if one.site != other.site {
        return false;
    }
    one.turns.as_slice() == other.turns.as_slice()
}

impl<C: ItemCode> World<C> {
    /// A world of `items` items in groups of `local`, over these buffers and over local arrays of these many bytes, which
    /// are 0 at first. An item's action is found within `fuel` small steps from the item's start.
    pub fn new(
        alloc: Global,
        code: C,
        items: u32,
        local: u32,
        fuel: u64,
        buffers: BytesList,
        locals: SizeList,
    ) -> Result<World<C>, Memory>
    where
        C: Drop,
        requires positive { 0 < local }
        requires whole { items % local ≡ 0 }
        ensures launch { IfOk result (λ world. launch_of (C.next_of world.code) world.held
            ≡ record { items = items; local = local; asks = C.next_of code; buffers = map length buffers; locals = locals }) }
        ensures items { IfOk result (λ world. world.held.items ≡ items) }
        ensures local { IfOk result (λ world. world.held.local ≡ local) }
        ensures code { IfOk result (λ world. world.code ≡ code) }
        ensures fuel { IfOk result (λ world. world.fuel ≡ fuel) }
        ensures state { IfOk result (λ world. state_of world.held ≡ start (λ buffer byte. slice_index (slice_index_or buffers buffer []) byte)) }
        ensures log { IfOk result (λ world. accesses_held world.held ≡ []) }
    {
        let held = Held::open(alloc, items, local, buffers, locals)?;
        Ok(World { code, fuel, held })
    }

    /// How an item stands.
    fn progress_of(&self, item: u32) -> Progress
        requires { item < self.now.held.items }
        ensures { result ≡ slice_index_or self.now.held.progress item Progress.Going }
    {
        self.held.progress.items[item as usize]
    }

    /// What an item asks for next within the world's small steps.
    fn asked_by(&self, alloc: Global, item: u32) -> Result<Asked, Memory>
        requires { item < self.now.held.items }
        ensures { IfOk result (λ asked. asked ≡ C.next_of self.now.code item (slice_index_or self.now.held.answers item []) self.now.fuel) }
    {
        let answers = &self.held.answers.items[item as usize];
        self.code.next(alloc, item, answers.as_slice(), self.fuel)
    }

    /// Lets an item do what it asks for, as a turn of its own. Where it makes none, the answer is the reason that holds, and
    /// then, and where memory runs out, the world is as it was.
    pub fn turn(&mut self, alloc: Global, item: u32) -> Result<(), TurnFault>
        requires { item < self.old.held.items }
        ensures done { IfOk result (λ _. HasTurned (launch_of (C.next_of self.old.code) self.old.held) self.old.held self.new.held item self.old.fuel) }
        ensures launch { launch_of (C.next_of self.new.code) self.new.held ≡ launch_of (C.next_of self.old.code) self.old.held }
        ensures items { self.new.held.items ≡ self.old.held.items }
        ensures local { self.new.held.local ≡ self.old.held.local }
        ensures code { self.new.code ≡ self.old.code }
        ensures fuel { self.new.fuel ≡ self.old.fuel }
        ensures refused { IfErr result (λ fault. IsRefused (launch_of (C.next_of self.old.code) self.old.held) (state_of self.old.held) item self.old.fuel fault) }
        ensures unchanged { OnErr result (self.new ≡ self.old) }
    {
        match self.progress_of(item) {
            Progress::Ended => return Err(TurnFault::NotReady(Why::Ended)),
            Progress::Faulted(_) => return Err(TurnFault::NotReady(Why::Faulted)),
            Progress::Going => {}
        }
        match self.asked_by(alloc, item) {
            Err(Memory) => Err(TurnFault::Memory),
            Ok(Asked::Running) => Err(TurnFault::NotReady(Why::Running)),
            Ok(Asked::Act(action)) => self.held.perform(item, action),
        }
    }

    /// The point of the barrier that an item asks to pass within the world's small steps, and None where it does not.
    fn point_of(&self, alloc: Global, item: u32) -> Result<Option<Point>, Memory>
        requires { item < self.now.held.items }
        ensures { IfOk result (λ found. IsPointOf (WaitsWithin (launch_of (C.next_of self.now.code) self.now.held) (state_of self.now.held) self.now.fuel item) found) }
    {
        match self.progress_of(item) {
            Progress::Going => {}
            Progress::Ended | Progress::Faulted(_) => return Ok(None),
        }
        match self.asked_by(alloc, item) {
            Err(Memory) => Err(Memory),
            Ok(Asked::Act(Action::Barrier(point))) => Ok(Some(point)),
            Ok(_) => Ok(None),
        }
    }

    /// Whether an item asks to pass a barrier at a point within the world's small steps.
    fn waits_at(&self, alloc: Global, item: u32, point: &Point) -> Result<bool, Memory>
        requires { item < self.now.held.items }
        ensures { IfOk result (λ waits. MatchBool waits
            (WaitsWithin (launch_of (C.next_of self.now.code) self.now.held) (state_of self.now.held) self.now.fuel item point.now)
            (WaitsWithin (launch_of (C.next_of self.now.code) self.now.held) (state_of self.now.held) self.now.fuel item point.now → ⊥)) }
    {
        match self.point_of(alloc, item) {
            Err(Memory) => Err(Memory),
            Ok(None) => Ok(false),
            Ok(Some(other)) => Ok(same_point(&other, point)),
        }
    }

    /// Whether all items of a group ask to pass a barrier at one point within the world's small steps.
    fn meets(&self, alloc: Global, group: u32) -> Result<bool, Memory>
        requires { group * self.now.held.local < self.now.held.items }
        ensures { IfOk result (λ meets. MatchBool meets
            ((point : Point) × AllWaitWithin (launch_of (C.next_of self.now.code) self.now.held) (state_of self.now.held) self.now.fuel group point)
            ((point : Point) → AllWaitWithin (launch_of (C.next_of self.now.code) self.now.held) (state_of self.now.held) self.now.fuel group point → ⊥)) }
    {
        let (first, end) = self.held.ends_of(group);
        match self.point_of(alloc, first) {
            Err(Memory) => Err(Memory),
            Ok(None) => Ok(false),
            Ok(Some(point)) => self.all_wait_at(alloc, first, end, &point),
        }
    }

    /// Whether the items from `first` on and before `end` all ask to pass a barrier at a point.
    fn all_wait_at(
        &self,
        alloc: Global,
        first: u32,
        end: u32,
        point: &Point,
    ) -> Result<bool, Memory>
        requires { end ≤ self.now.held.items }
        ensures { IfOk result (λ all. MatchBool all
            ((item : ℕ) → first ≤ item → item < end → WaitsWithin (launch_of (C.next_of self.now.code) self.now.held) (state_of self.now.held) self.now.fuel item point.now)
            ((item : ℕ) × (first ≤ item) × (item < end) × (WaitsWithin (launch_of (C.next_of self.now.code) self.now.held) (state_of self.now.held) self.now.fuel item point.now → ⊥))) }
    {
        for item in first..end {
            match self.waits_at(alloc, item, point) {
                Err(Memory) => return Err(Memory),
                Ok(true) => {}
                Ok(false) => return Ok(false),
            }
        }
        Ok(true)
    }

    /// Lets a group pass the barrier at which all of its items wait. Where they do not all wait at one point, and where
    /// memory runs out, the world is as it was.
    pub fn pass(&mut self, alloc: Global, group: u32) -> Result<(), PassFault>
        requires { group * self.old.held.local < self.old.held.items }
        ensures done { IfOk result (λ _. HasPassed (launch_of (C.next_of self.old.code) self.old.held) self.old.held self.new.held group self.old.fuel) }
        ensures launch { launch_of (C.next_of self.new.code) self.new.held ≡ launch_of (C.next_of self.old.code) self.old.held }
        ensures items { self.new.held.items ≡ self.old.held.items }
        ensures local { self.new.held.local ≡ self.old.held.local }
        ensures code { self.new.code ≡ self.old.code }
        ensures fuel { self.new.fuel ≡ self.old.fuel }
        ensures refused { IfErr result (λ fault. IsRefusedPass (launch_of (C.next_of self.old.code) self.old.held) (state_of self.old.held) self.old.fuel group fault) }
        ensures unchanged { OnErr result (self.new ≡ self.old) }
    {
        match self.meets(alloc, group) {
            Err(Memory) => return Err(PassFault::Memory),
            Ok(false) => return Err(PassFault::NotTogether),
            Ok(true) => {}
        }
        match self.held.release(group) {
            Err(Memory) => return Err(PassFault::Memory),
            Ok(()) => {}
        }
        Ok(())
    }

    /// The two places of the log whose accesses race, the earlier first: of all such pairs the one with the least first
    /// place, and then the least second. None where no accesses race.
    pub fn race(&self) -> Option<(usize, usize)>
        ensures { MatchOption result (HasRace (accesses_held self.now.held) → ⊥) (λ pair. IsLeastRace (accesses_held self.now.held) pair.0 pair.1) }
    {
        least_race(self.held.log.as_slice())
    }

    /// The launch of a world is one that the laws of tame launches speak of: more small steps never change what an item asks
    /// for, and a group has at least one item.
    pub fn laws_apply(&self)
        ensures settled { IsSettled (launch_of (C.next_of self.now.code) self.now.held) }
        ensures positive { 0 < self.now.held.local }
    {
        let _ = &self.code;
    }

    /// A byte of a buffer, and None where there is no such byte.
    pub fn byte(&self, buffer: u32, byte: u32) -> Option<u8>
        ensures { MatchOption result (length (array_in self.now.held.buffers buffer) ≤ byte)
            (λ value. (byte < length (array_in self.now.held.buffers buffer)) × (value ≡ buffer_byte (state_of self.now.held) buffer byte)) }
    {
        byte_in(self.held.buffers.as_slice(), buffer, byte)
    }
}

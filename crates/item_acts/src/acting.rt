//! What an item's action does to the lists that a world holds.
ghost use Rattle.std.specs.Prelude.{◌≡◌, ℕ, ◌<◌, List, length, IfOk, OnErr, slice_index_or};
ghost use Rattle.std.specs.Result.{ForErr, IfErr};
ghost use Rattle.item_acts.specs.declared.acts.Asked.{Asked};
ghost use Rattle.item_acts.specs.declared.acts.Action.TheVariants.{Load, Store};
ghost use Rattle.item_acts.specs.Worlds.{IsHeld, launch_of, shape_of, stood, ActsAs, IsNoTurn};

use crate::acts::{Action, Place};
use crate::faults::{TurnFault, Why};
use crate::held::{Held, Progress};
use vx_base::{Memory, Size};

impl Held {
    /// Tells an item the number in a field.
    fn load(&mut self, item: u32, place: Place, size: Size) -> Result<(), TurnFault>
        requires held { IsHeld self.old }
        requires exists { item < self.old.items }
        requires going { slice_index_or self.old.progress item Progress.Going ≡ Progress.Going }
        ensures done { IfOk result (λ _. (asks : ℕ → List ℕ → ℕ → Asked) → ActsAs (launch_of asks self.old) self.old self.new item (Load place size)) }
        ensures launch { (asks : ℕ → List ℕ → ℕ → Asked) → launch_of asks self.new ≡ launch_of asks self.old }
        ensures items { self.new.items ≡ self.old.items }
        ensures local { self.new.local ≡ self.old.local }
        ensures held { IsHeld self.new }
        ensures refused { IfErr result (λ fault. IsNoTurn (shape_of self.old) (Load place size) fault) }
        ensures kept { OnErr result (self.new ≡ self.old) }
    {
        let number = self.number_at(place, size);
        match number {
            None => Err(TurnFault::NotReady(Why::Nowhere)),
            Some(value) => match self.note(item, place, size, false, value) {
                Err(Memory) => Err(TurnFault::Memory),
                Ok(()) => Ok(()),
            },
        }
    }

    /// Puts a number into a field for an item.
    fn store(&mut self, item: u32, place: Place, size: Size, value: u32) -> Result<(), TurnFault>
        requires held { IsHeld self.old }
        requires exists { item < self.old.items }
        requires going { slice_index_or self.old.progress item Progress.Going ≡ Progress.Going }
        ensures done { IfOk result (λ _. (asks : ℕ → List ℕ → ℕ → Asked) → ActsAs (launch_of asks self.old) self.old self.new item (Store place size value)) }
        ensures launch { (asks : ℕ → List ℕ → ℕ → Asked) → launch_of asks self.new ≡ launch_of asks self.old }
        ensures items { self.new.items ≡ self.old.items }
        ensures local { self.new.local ≡ self.old.local }
        ensures held { IsHeld self.new }
        ensures refused { IfErr result (λ fault. IsNoTurn (shape_of self.old) (Store place size value) fault) }
        ensures kept { OnErr result (self.new ≡ self.old) }
    {
        let number = self.number_at(place, size);
        match number {
            None => Err(TurnFault::NotReady(Why::Nowhere)),
            Some(_) => match self.note(item, place, size, true, 0) {
                Err(Memory) => Err(TurnFault::Memory),
                Ok(()) => {
                    self.put_at(place, size, value);
                    Ok(())
                }
            },
        }
    }

    /// Sets how an item stands.
    fn stand(&mut self, item: u32, progress: Progress)
        requires { item < length self.old.progress }
        ensures { self.new ≡ stood self.old item progress }
    {
        let all = &mut self.progress;
        all.items[item as usize] = progress;
    }

    /// Does for an item what it asks for, and leaves all as it was where that is no turn or where memory runs out.
    fn act(&mut self, item: u32, action: &Action) -> Result<(), TurnFault>
        requires held { IsHeld self.old }
        requires exists { item < self.old.items }
        requires going { slice_index_or self.old.progress item Progress.Going ≡ Progress.Going }
        ensures done { IfOk result (λ _. (asks : ℕ → List ℕ → ℕ → Asked) → ActsAs (launch_of asks self.old) self.old self.new item action.now) }
        ensures launch { (asks : ℕ → List ℕ → ℕ → Asked) → launch_of asks self.new ≡ launch_of asks self.old }
        ensures items { self.new.items ≡ self.old.items }
        ensures local { self.new.local ≡ self.old.local }
        ensures held { IsHeld self.new }
        ensures refused { IfErr result (λ fault. IsNoTurn (shape_of self.old) action.now fault) }
        ensures kept { OnErr result (self.new ≡ self.old) }
    {
        match action {
            Action::Load { place, size } => self.load(item, *place, *size),
            Action::Store { place, size, value } => self.store(item, *place, *size, *value),
            Action::Barrier(_) => Err(TurnFault::NotReady(Why::Waits)),
            Action::Fault(pos) => {
                self.stand(item, Progress::Faulted(*pos));
                Ok(())
            }
            Action::End => {
                self.stand(item, Progress::Ended);
                Ok(())
            }
        }
    }

    /// Does for an item what it asks for, as `act` does.
    pub(crate) fn perform(&mut self, item: u32, action: Action) -> Result<(), TurnFault>
        requires held { IsHeld self.old }
        requires exists { item < self.old.items }
        requires going { slice_index_or self.old.progress item Progress.Going ≡ Progress.Going }
        ensures done { IfOk result (λ _. (asks : ℕ → List ℕ → ℕ → Asked) → ActsAs (launch_of asks self.old) self.old self.new item action) }
        ensures launch { (asks : ℕ → List ℕ → ℕ → Asked) → launch_of asks self.new ≡ launch_of asks self.old }
        ensures items { self.new.items ≡ self.old.items }
        ensures local { self.new.local ≡ self.old.local }
        ensures held { IsHeld self.new }
        ensures refused { IfErr result (λ fault. IsNoTurn (shape_of self.old) action fault) }
        ensures kept { OnErr result (self.new ≡ self.old) }
    {
        self.act(item, &action)
    }
}

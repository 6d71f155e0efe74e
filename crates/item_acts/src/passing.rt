//! What a group's pass of a barrier does to the lists that a world holds.
ghost use Rattle.std.specs.Prelude.{◌≡◌, ℕ, ◌+◌, ◌*◌, ◌<◌, ◌≤◌, List, [], length, IfOk, OnErr, slice_index, slice_index_or, slice_set};
ghost use Rattle.item_acts.specs.declared.acts.Asked.{Asked};
ghost use Rattle.item_acts.specs.declared.acts.Point.{Point};
ghost use Rattle.item_acts.specs.Launches.{after, Passes};
ghost use Rattle.item_acts.specs.Worlds.{IsHeld, HaveAnswered, launch_of, state_of};

use crate::held::{Held, add_answer, drop_answer};
use vx_base::{ListOf, Memory, WordList};

/// Takes the last answers of some items back.
fn take_back(lists: &mut ListOf<WordList>, first: u32, count: u32)
    requires { first + count ≤ length lists.old }
    ensures { (old : List (List ℕ)) → HaveAnswered first count old lists.old → lists.new ≡ old }
{
    for k in 0..count {
        drop_answer(lists, first as usize + k as usize);
    }
}

/// Answers 0 to some items, and leaves all as it was where memory runs out.
fn answer_all(lists: &mut ListOf<WordList>, first: u32, count: u32) -> Result<(), Memory>
    requires { first + count ≤ length lists.old }
    ensures ok { IfOk result (λ _. HaveAnswered first count lists.old lists.new) }
    ensures err { OnErr result (lists.new ≡ lists.old) }
{
    for k in 0..count {
        match add_answer(lists, first as usize + k as usize, 0) {
            Err(Memory) => {
                take_back(lists, first, k);
                return Err(Memory);
            }
            Ok(()) => {}
        }
    }
    Ok(())
}

/// How many answers an item has had.
fn count_answers(lists: &[WordList], item: usize) -> u64
    requires { item < length lists.now }
    ensures { result ≡ length (slice_index_or lists.now item []) }
{
    lists[item].len() as u64
}

/// Raises one of some counts, which is below a bound.
fn raise_count(counts: &mut ListOf<u64>, at: usize, bound: u64)
    requires exists { at < length counts.old }
    requires below { slice_index counts.old at < bound }
    ensures { counts.new ≡ slice_set counts.old at (slice_index counts.old at + 1) }
{
    let own = &mut counts.items[at];
    let room = *own < bound;
    prove!(room);
    *own += 1;
}

impl Held {
    /// The first item of a group, and the number behind its last.
    pub(crate) fn ends_of(&self, group: u32) -> (u32, u32)
        requires held { IsHeld self.now }
        requires exists { group * self.now.local < self.now.items }
        ensures first { result.0 ≡ group * self.now.local }
        ensures end { result.1 ≡ group * self.now.local + self.now.local }
    {
        let _items = self.items;
        let first = group * self.local;
        (first, first + self.local)
    }

    /// Lets a group pass a barrier: each of its items is answered 0, and the group has passed one more. Leaves all as it was
    /// where memory runs out.
    pub(crate) fn release(&mut self, group: u32) -> Result<(), Memory>
        requires held { IsHeld self.old }
        requires exists { group * self.old.local < self.old.items }
        ensures done { IfOk result (λ _. (asks : ℕ → List ℕ → ℕ → Asked) (point : Point) → state_of self.new ≡ after (launch_of asks self.old) (state_of self.old) (Passes group point)) }
        ensures log { self.new.log ≡ self.old.log }
        ensures launch { (asks : ℕ → List ℕ → ℕ → Asked) → launch_of asks self.new ≡ launch_of asks self.old }
        ensures items { self.new.items ≡ self.old.items }
        ensures local { self.new.local ≡ self.old.local }
        ensures held { IsHeld self.new }
        ensures kept { OnErr result (self.new ≡ self.old) }
    {
        let first = group * self.local;
        answer_all(&mut self.answers, first, self.local)?;
        let answers = count_answers(self.answers.as_slice(), first as usize);
        raise_count(&mut self.epochs, group as usize, answers);
        Ok(())
    }
}

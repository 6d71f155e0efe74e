use crate::acts::Asked;
use std::alloc::Global;
use vx_base::Memory;

/// Code that work-items run: what each of them asks for, by the answers that it was given.
pub trait ItemCode {
    ghost use Rattle.std.specs.Prelude.{◌≡◌, ℕ, ◌+◌, List, IfOk};
    ghost use Rattle.item_acts.specs.declared.acts.Action.{Action};
    ghost use Rattle.item_acts.specs.declared.acts.Asked.{Asked};
    ghost use Rattle.item_acts.specs.declared.acts.Asked.TheVariants.{Act};

    /// What an item asks for after these answers, within this many small steps from its start.
    ghost next_of: { Self → ℕ → List ℕ → ℕ → Asked };

    /// What `item` asks for once it has taken `answers`, if at most `fuel` small steps lead there.
    fn next(&self, alloc: Global, item: u32, answers: &[u32], fuel: u64) -> Result<Asked, Memory>
        ensures { IfOk result (λ asked. asked ≡ next_of self.now item answers.now fuel) };

    // More steps never change what is asked.
    ghost settles: { (code : Self) (item : ℕ) (answers : List ℕ) (fuel more : ℕ) (action : Action)
        → next_of code item answers fuel ≡ Act action → next_of code item answers (fuel + more) ≡ Act action };
}

//! Small steps.
use item_acts::Action;
use std::alloc::{AllocError, Global};

/// What a small step found.
#[derive(Debug, Drop)]
pub enum Found<K> {
    /// An inner step, which is made.
    Moved,
    /// An action that has an answer, and what becomes of the answer.
    Asks(Action, K),
    /// An action without an answer.
    Stops(Action),
}

/// A machine that makes small steps: a program in one launch, apart from where it stands. Contracts see where it stands as `Standing`.
pub trait SmallSteps {
    ghost use Rattle.std.specs.Prelude.{◌≡◌, ℕ, suc, ◌-◌, ◌^◌, List, IfOk, OnOk};
    ghost use Rattle.item_acts.specs.Machine.{Step};
    ghost use Rattle.step_machine.specs.Steps.{shown};
    ghost use Rattle.step_machine.specs.Turns.{BehindBelow, EachBelow};

    /// Where the machine stands.
    type State: Drop;
    /// What becomes of an answer.
    type Kept: Drop;

    ghost Standing: { Type 0 };

    ghost state_of: { Self.State → Standing };

    ghost step_of: { Self → Standing → Step Standing };

    ghost told: { Self.Kept → ℕ → Standing → Standing };

    ghost turns_of: { Standing → List ℕ };

    /// One small step: what it found, and the state behind it. No number of turns is the last of its type.
    fn step(&self, alloc: Global, state: &mut Self::State) -> Result<Found<Self::Kept>, AllocError>
        requires below { EachBelow (2 ^ 64 - 1) (turns_of (state_of state.now)) }
        ensures { IfOk result (λ found. step_of self.now (state_of state.old) ≡ shown told found (state_of state.new)) };

    /// Takes an answer.
    fn take_answer(
        &self,
        state: &mut Self::State,
        kept: Self::Kept,
        answer: u32,
    ) -> Result<(), AllocError>
        ensures { OnOk result (state_of state.new ≡ told kept answer (state_of state.old)) };

    // A step raises numbers of turns by at most one.
    ghost rises: { (machine : Self) (s : Standing) (k : ℕ) → EachBelow k (turns_of s) → BehindBelow turns_of (suc k) (step_of machine s) };
}

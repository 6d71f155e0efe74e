//! The law of one result, each part as a contract: what holds of every launch that is tame over its opening bytes, whatever
//! its items ask for. The functions themselves do nothing.
//!
//! Where a law needs it, more small steps never change what an item asks for (`IsSettled`), and a group has at least one
//! item.

ghost use Rattle.std.specs.Prelude.{◌≡◌, ℕ, ◌<◌, List};
ghost use Rattle.item_acts.specs.declared.acts.Place.TheVariants.{Global};
ghost use Rattle.item_acts.specs.Launches.{Launch, State, start, Turn, May, Allowed, run, IsComplete};
ghost use Rattle.item_acts.specs.Tame.{IsTameWithin, HasFault, LaunchLeaves};
ghost use Rattle.item_acts.specs.OneResult.{IsSettled, RunsToEnd, HaveOneResult, IsFaultFree, InBounds, StopsWithin};

/// Any two complete interleavings of a tame launch leave the same bytes of the buffers, and each item asks for the same
/// actions in both.
#[tactic(auto, using(crate::proofs::Fronts::one_result))]
pub fn one_result()
    ensures { (l : Launch) (given : ℕ → ℕ → ℕ) (n : ℕ) → IsSettled l → 0 < l.local → IsTameWithin l (start given) n
        → (turns turns' : List Turn) → RunsToEnd l (start given) turns → RunsToEnd l (start given) turns'
        → HaveOneResult l (start given) turns turns' }
{}

/// No interleaving of a tame launch is complete where some interleaving has a fault.
#[tactic(auto, using(crate::proofs::Fronts::fault_never_completes))]
pub fn fault_never_completes()
    ensures { (l : Launch) (given : ℕ → ℕ → ℕ) (n : ℕ) → IsSettled l → 0 < l.local → IsTameWithin l (start given) n
        → HasFault l (start given) → (turns : List Turn) → RunsToEnd l (start given) turns → ⊥ }
{}

/// A tame launch whose items ask only for bytes that it has never stands still: behind any turns without a fault every item
/// has ended, or some turn may come next. So, where no interleaving has a fault, the schedule by least item comes to the
/// end.
pub fn goes_on_to_the_end()
    ensures progress { (l : Launch) (given : ℕ → ℕ → ℕ) (n : ℕ) → IsSettled l → 0 < l.local → IsTameWithin l (start given) n
        → InBounds l (start given) → (turns : List Turn) → Allowed l (start given) turns → IsFaultFree turns
        → (IsComplete l (run l (start given) turns) → ⊥) → (next : Turn) × May l (run l (start given) turns) next }
    ensures schedule { (l : Launch) (given : ℕ → ℕ → ℕ) (n : ℕ) → IsSettled l → 0 < l.local → IsTameWithin l (start given) n
        → InBounds l (start given) → (HasFault l (start given) → ⊥) → (left : ℕ → ℕ → ℕ) × LaunchLeaves l given left }
{}

/// What a launch leaves is unique, and any complete interleaving of a tame launch leaves it.
pub fn leaves_one_thing()
    ensures unique { (l : Launch) (given left left' : ℕ → ℕ → ℕ) → IsSettled l → 0 < l.local
        → LaunchLeaves l given left → LaunchLeaves l given left' → (buffer byte : ℕ) → left buffer byte ≡ left' buffer byte }
    ensures complete { (l : Launch) (given : ℕ → ℕ → ℕ) (n : ℕ) → IsSettled l → 0 < l.local → IsTameWithin l (start given) n
        → (turns : List Turn) → RunsToEnd l (start given) turns
        → LaunchLeaves l given (λ buffer byte. (run l (start given) turns).bytes (Global buffer byte)) }
{}

/// An item that runs alone from a state that a tame launch reaches without a fault comes to its end, a barrier or a fault
/// behind at most n turns.
pub fn alone_stops()
    ensures { (l : Launch) (given : ℕ → ℕ → ℕ) (n : ℕ) → IsTameWithin l (start given) n → InBounds l (start given)
        → (turns : List Turn) → Allowed l (start given) turns → IsFaultFree turns
        → (item : ℕ) → item < l.items → StopsWithin l (run l (start given) turns) item n }
{}

//! Laws of lists of launches, of which each runs on what the ones before it leave, each law as a contract. The functions
//! themselves do nothing.

ghost use Rattle.std.specs.Prelude.{ℕ, List, ◌∷◌, ◌++◌};
ghost use Rattle.vx_base.specs.declared.types.Pos.{Pos};
ghost use Rattle.item_acts.specs.Launches.{Launch};
ghost use Rattle.launch_order.specs.Events.{AtFault, Stuck};
ghost use Rattle.launch_order.specs.Lists.{AreOrderly, RanThrough, LaunchesLeave, CameTo, FaultComesBehind};

/// Where orderly launches ran one after the other, each until every core was done, the buffers have what the launches leave.
pub fn launches_leave()
    ensures { (launches : List Launch) (given final : ℕ → ℕ → ℕ) → AreOrderly launches given → RanThrough launches given final
        → LaunchesLeave launches given final }
{}

/// Where a core ended at an item's fault behind some launches, this fault comes on what these launches leave.
pub fn fault_comes_behind()
    ensures { (before : List Launch) (l : Launch) (behind : List Launch) (given : ℕ → ℕ → ℕ) → AreOrderly (before ++ l ∷ behind) given
        → (item : ℕ) (pos : Pos) → CameTo before l given (AtFault item pos) → FaultComesBehind before l given item pos }
{}

/// Behind orderly launches no core of the next one ends with all of its warps waiting.
pub fn never_stuck_behind()
    ensures { (before : List Launch) (l : Launch) (behind : List Launch) (given : ℕ → ℕ → ℕ) → AreOrderly (before ++ l ∷ behind) given
        → CameTo before l given Stuck → ⊥ }
{}

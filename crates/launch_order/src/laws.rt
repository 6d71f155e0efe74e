//! Laws of one launch, each as a contract: what is true where each core's events are as `CoreEvents` says. The functions
//! themselves do nothing.

ghost use Rattle.std.specs.Prelude.{◌≡◌, ℕ, ◌<◌, Bool, ◌⊎◌, List, ◌++◌};
ghost use Rattle.vx_base.specs.declared.types.Pos.{Pos};
ghost use Rattle.item_acts.specs.Launches.{Launch, State, start, group_of};
ghost use Rattle.item_acts.specs.Tame.{LaunchLeaves};
ghost use Rattle.launch_order.specs.Events.{Event, CoreEnd, AtFault, Stuck, led};
ghost use Rattle.launch_order.specs.Cores.{CoreEvents, WarpWaits, StoodAt, LeftOut};
ghost use Rattle.launch_order.specs.Lists.{IsOrderly, IsOrderlyWithin, FaultComes, IsReached, RanToEnd};

/// Where an orderly launch ran until each core was done, the buffers have what the launch leaves.
pub fn done_leaves()
    ensures { (l : Launch) (given final : ℕ → ℕ → ℕ) → IsOrderly l given → RanToEnd l given final → LaunchLeaves l given final }
{}

/// Where a core of an orderly launch ended at an item's fault, this fault is the last turn of some interleaving, with this
/// item and this position.
pub fn fault_comes()
    ensures { (l : Launch) (given final : ℕ → ℕ → ℕ) (cores : ℕ) (events : ℕ → List Event) (ends : ℕ → CoreEnd) (n : ℕ)
        → CoreEvents l given final cores events ends → IsOrderlyWithin l given n
        → (core : ℕ) → core < cores → (item : ℕ) (pos : Pos) → ends core ≡ AtFault item pos → FaultComes l given item pos }
{}

/// No core of an orderly launch ends with all of its warps waiting.
pub fn never_stuck()
    ensures { (l : Launch) (given final : ℕ → ℕ → ℕ) (cores : ℕ) (events : ℕ → List Event) (ends : ℕ → CoreEnd) (n : ℕ)
        → CoreEvents l given final cores events ends → IsOrderlyWithin l given n
        → (core : ℕ) → core < cores → ends core ≡ Stuck → ⊥ }
{}

/// Behind each of a core's events its items stand as behind some turns without a fault, and each that goes on asks for its next
/// action within n small steps.
pub fn reached()
    ensures { (l : Launch) (given final : ℕ → ℕ → ℕ) (cores : ℕ) (events : ℕ → List Event) (ends : ℕ → CoreEnd) (n : ℕ)
        → (known : CoreEvents l given final cores events ends) → IsOrderlyWithin l given n
        → (core : ℕ) → core < cores → (before behind : List Event) → events core ≡ before ++ behind
        → IsReached l given n known.core_of core (led (start given) before) }
{}

/// Where each warp of a group waits at a point to which its other items never come, each item of the group stood at a barrier
/// or was left out.
pub fn warps_release()
    ensures { (l : Launch) (own : State) (stood : ℕ → Bool) (group : ℕ) (warp_of : ℕ → ℕ)
        → ((item : ℕ) → item < l.items → group_of l item ≡ group → WarpWaits l own stood group warp_of (warp_of item))
        → (item : ℕ) → item < l.items → group_of l item ≡ group → StoodAt l own stood item ⊎ LeftOut l own stood item }
{}

//! Laws of moves, each as a contract: what the map of addresses, the loader and the simulation of warps owe of reads and
//! writes by addresses gives what the laws of a launch ask of events. The functions themselves do nothing.

ghost use Rattle.std.specs.Prelude.{ℕ, ◌<◌, Bool, List, []};
ghost use Rattle.item_acts.specs.Launches.{Launch};
ghost use Rattle.launch_order.specs.Events.{CoreEnd};
ghost use Rattle.launch_order.specs.Cores.{CoreEvents};
ghost use Rattle.launch_order.specs.Moves.{Cell, Held, Moved, core_events, IsMap, KeepsToArrays, KeepsBytes, Along, AreHonest, KnowsSafe, GoesAlong};

/// Where each move is safe once the moves before it on its core are safe and read constant buffers honestly, all moves are safe
/// and read so, and their events are such as the laws of a launch ask.
pub fn moves_give_events()
    ensures known { (l : Launch) (holds : ℕ → Cell → Held) (address : ℕ → ℕ → ℕ) (constant : ℕ → Bool) (given final : ℕ → ℕ → ℕ) (opening : ℕ → ℕ)
        (cores : ℕ) (moves : ℕ → List Moved) (ends : ℕ → CoreEnd) (core_of : ℕ → ℕ)
        → IsMap l holds address → KeepsToArrays l constant → KeepsBytes l holds address given final opening cores moves ends core_of
        → GoesAlong (KnowsSafe l holds given core_of) l holds constant given cores moves ends core_of
        → CoreEvents l given final cores (core_events holds moves) ends }
    ensures honest { (l : Launch) (holds : ℕ → Cell → Held) (address : ℕ → ℕ → ℕ) (constant : ℕ → Bool) (given final : ℕ → ℕ → ℕ) (opening : ℕ → ℕ)
        (cores : ℕ) (moves : ℕ → List Moved) (ends : ℕ → CoreEnd) (core_of : ℕ → ℕ)
        → IsMap l holds address → KeepsToArrays l constant → KeepsBytes l holds address given final opening cores moves ends core_of
        → GoesAlong (KnowsSafe l holds given core_of) l holds constant given cores moves ends core_of
        → (core : ℕ) → core < cores → AreHonest holds constant given (moves core) }
    ensures safe { (l : Launch) (holds : ℕ → Cell → Held) (address : ℕ → ℕ → ℕ) (constant : ℕ → Bool) (given final : ℕ → ℕ → ℕ) (opening : ℕ → ℕ)
        (cores : ℕ) (moves : ℕ → List Moved) (ends : ℕ → CoreEnd) (core_of : ℕ → ℕ)
        → IsMap l holds address → KeepsToArrays l constant → KeepsBytes l holds address given final opening cores moves ends core_of
        → GoesAlong (KnowsSafe l holds given core_of) l holds constant given cores moves ends core_of
        → (core : ℕ) → core < cores → Along (KnowsSafe l holds given core_of core) [] (moves core) }
{}

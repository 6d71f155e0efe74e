//! Laws of launches, each as a contract: what small launches do, by the definitions of `specs/Launches.antt` and
//! `specs/Tame.antt`. The functions themselves do nothing.

ghost use Rattle.std.specs.Prelude.{[], ◌∷◌};
ghost use Rattle.item_acts.specs.declared.acts.Action.TheVariants.{End};
ghost use Rattle.item_acts.specs.Launches.{start, Does, Passes, run};
ghost use Rattle.item_acts.specs.Tame.{IsApart, LaunchLeaves};
ghost use Rattle.item_acts.specs.Examples.{loads, stores, barrier_at, fives, own_bytes, one_byte, both_load, barred, one_waits, seven_eight_nine, one_first, Races, RacesNot, Completes};

/// Three items that store to bytes of their own do so in any order, and leave each its number.
#[tactic(auto, using(crate::proofs::Examples::own_bytes_complete, crate::proofs::Examples::own_bytes_leave))]
pub fn own_bytes_are_stored()
    ensures in_any_order { Completes own_bytes (Does 2 (stores 2 9) ∷ Does 0 (stores 0 7) ∷ Does 2 End ∷ Does 1 (stores 1 8) ∷ Does 0 End ∷ Does 1 End ∷ []) }
    ensures left { LaunchLeaves own_bytes fives seven_eight_nine }
{}

/// Stores of two items to one byte race, in two groups and in one, and the schedule by least item leaves the later.
#[tactic(auto, using(crate::proofs::Examples::stores_race, crate::proofs::Examples::stores_race_in_group, crate::proofs::Examples::last_store_stays))]
pub fn stores_race()
    ensures apart { Races (one_byte 1) (Does 0 (stores 0 0) ∷ Does 1 (stores 0 1) ∷ []) }
    ensures left { LaunchLeaves (one_byte 1) fives one_first }
    ensures in_group { Races (one_byte 2) (Does 0 (stores 0 0) ∷ Does 1 (stores 0 1) ∷ []) }
{}

/// Stores with a barrier of their group between them do not race, nor do loads.
#[tactic(auto, using(crate::proofs::Examples::barrier_orders, crate::proofs::Examples::loads_race_not))]
pub fn barrier_orders()
    ensures barrier { RacesNot barred (Does 0 (stores 0 3) ∷ Passes 0 (barrier_at 1) ∷ Does 1 (stores 0 4) ∷ []) }
    ensures loads { RacesNot both_load (Does 0 (loads 0) ∷ Does 1 (loads 0) ∷ []) }
{}

/// An item that waits at a barrier is apart from one of its group that has ended, but not while that one goes on, nor
/// from one of another group.
#[tactic(auto, using(crate::proofs::Examples::ended_is_apart, crate::proofs::Examples::waiting_is_not_apart, crate::proofs::Examples::groups_are_not_apart))]
pub fn ended_is_apart()
    ensures ended { IsApart (one_waits 2) (run (one_waits 2) (start fives) (Does 1 (stores 0 4) ∷ Does 1 End ∷ [])) }
    ensures going { IsApart (one_waits 2) (start fives) → ⊥ }
    ensures other_group { IsApart (one_waits 1) (run (one_waits 1) (start fives) (Does 1 (stores 0 4) ∷ Does 1 End ∷ [])) → ⊥ }
{}

//! The premises of the laws are met: small launches with the events of their cores, each as a contract. The functions
//! themselves do nothing.

ghost use Rattle.item_acts.specs.Tame.{IsTame};
ghost use Rattle.item_acts.specs.Examples.{fives, one_waits};
ghost use Rattle.launch_order.specs.Cores.{CoreEvents};
ghost use Rattle.launch_order.specs.Worked.{handed, handed_events, handed_left, all_done, halted, halted_events, at_worked_fault, seven_first, stuck_events, all_stuck, four_first};

/// Two groups of two items with a barrier run on two cores, and each core is done.
#[tactic(auto, using(crate::proofs::WorkedLaunches::handed_known))]
pub fn handed_over()
    ensures { CoreEvents handed fives handed_left 2 handed_events all_done }
{}

/// An item stores a byte and stops at a fault, and so does its core.
#[tactic(auto, using(crate::proofs::WorkedLaunches::halted_known))]
pub fn halts()
    ensures { CoreEvents halted fives seven_first 1 halted_events at_worked_fault }
{}

/// Of two items of a group one waits at a barrier and the other ends: their core is stuck, and the launch is not tame.
#[tactic(auto, using(crate::proofs::WorkedLaunches::stuck_known, crate::proofs::WorkedLaunches::stuck_untame))]
pub fn stays_stuck()
    ensures known { CoreEvents (one_waits 2) fives four_first 1 stuck_events all_stuck }
    ensures untame { IsTame (one_waits 2) fives → ⊥ }
{}

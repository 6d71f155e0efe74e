//! Laws of addresses and of the launch block, each as a contract. The functions themselves do nothing.

ghost use Rattle.vx_layout.specs.Launching.{Accepted};
ghost use Rattle.vx_layout.specs.Laws.{AcceptedIsLocated, WorkedPlaces, WorkedWords, worked};

/// In an accepted launch each array, each word of the launch block and each frame has addresses of its own, in the memory;
/// the block names the arrays; and each item of a group has a lane.
pub fn accepted_is_located()
    ensures { AcceptedIsLocated }
{}

/// A small launch, worked out: it is accepted, and these are its words and places.
#[tactic(auto, using(crate::proofs::Worked::worked_accepted, crate::proofs::Worked::worked_words, crate::proofs::Worked::worked_places))]
pub fn worked_launch_stands()
    ensures accepted { Accepted worked }
    ensures words { WorkedWords }
    ensures places { WorkedPlaces }
{}

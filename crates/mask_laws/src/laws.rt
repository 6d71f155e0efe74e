//! The laws of a warp over lowered code, each as a contract. The functions themselves do nothing.
ghost use Rattle.mask_laws.specs.Accesses.{AccessesAreNamed};
ghost use Rattle.mask_laws.specs.Clean.{LanesBeginClean};
ghost use Rattle.mask_laws.specs.Constants.{LoadsAreConstant};
ghost use Rattle.mask_laws.specs.Laws.{WarpsInStep};
ghost use Rattle.mask_laws.specs.Opened.{HonestAnswersGiveHonestRuns, WarpsTakeHonestAnswers};

/// From its start a warp passes to the lanes that have an item, whatever is answered. From there on it does for each of its lanes what
/// the lane does alone, its active lanes wait at one point, it traps only at a failed check, and it ends with all its lanes.
pub fn warps_are_in_step()
    ensures { WarpsInStep }
{}

/// A lane alone reads only registers that it has written since it began: at the first place, at that at which other warps begin, and behind
/// the operation that leaves the lanes that have an item.
pub fn lanes_begin_clean()
    ensures { LanesBeginClean }
{}

/// Each access of an active lane is to a word that the launch block has, or is what the lane's item asks to load or to store next.
pub fn accesses_are_named()
    ensures { AccessesAreNamed }
{}

/// A lane alone that loads an element of a `__constant` array asks for a place of the array.
pub fn loads_are_constant()
    ensures { LoadsAreConstant }
{}

/// Where each load at a place of a `__constant` array is answered what the place held at the opening, active lanes that load an element of such an
/// array at one address in one step get one answer.
pub fn honest_answers_give_honest_runs()
    ensures { HonestAnswersGiveHonestRuns }
{}

/// All that holds of a warp in step holds behind each run whose loads at places of `__constant` arrays are answered what the places held at the
/// opening.
pub fn warps_take_honest_answers()
    ensures { WarpsTakeHonestAnswers }
{}

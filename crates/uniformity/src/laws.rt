//! Laws of uniform variables, each as a contract. The functions themselves do nothing.
ghost use Rattle.uniformity.specs.Pairs.{ClosedAgree};
ghost use Rattle.uniformity.specs.Places.{EachStands, PlacesAgree};

/// Two work-items of one group that have the same left to do, in the same turns of the loops round it, have equal values of each variable
/// of a closed set.
pub fn closed_sets_agree()
    ensures { ClosedAgree }
{}

/// The same of two work-items at the same place.
pub fn places_agree()
    ensures { PlacesAgree }
{}

/// Each work-item of a kernel without jumps stands at a place, or has nothing left to do.
pub fn each_stands()
    ensures { EachStands }
{}

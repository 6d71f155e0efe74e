//! The law of a kernel's words, as a contract. The function itself does nothing.
ghost use Rattle.image_lanes.specs.Laws.{LanesDoAsSourceAtWords};

/// In each accepted launch of a kernel, the lane of each item, alone at the words that are made of the kernel's code, asks for what the item
/// asks for in the source, and for nothing else, a barrier's turns left out.
pub fn lanes_do_as_source()
    ensures { LanesDoAsSourceAtWords }
{}

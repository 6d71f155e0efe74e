//! Where a launch lies in the memory of the machine: its buffers, the `__local` arrays of its groups, the frames of its
//! lanes, the launch block, and the code.
//!
//! Read first `specs/Addresses.antt` for the map and for what an address names, then `specs/Launching.antt` for a launch and
//! when it is accepted, and `specs/Blocks.antt` for the words of the launch block. `specs/Located.antt` has what an accepted
//! launch gives to those that cite it, and `laws` says it of every such launch.
#![tactic(auto)]

pub mod laws;

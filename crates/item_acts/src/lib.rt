//! What a work-item of a kernel asks for, and what a launch of work-items does: its turns, its interleavings, races,
//! tame launches, and the bytes that a launch leaves.
//!
//! Read first `acts` for the vocabulary, then `specs/Machine.antt` for how an item's next action is defined, and
//! `specs/Launches.antt` and `specs/Tame.antt` for launches. `tame_laws` has the law of one result, and `world` the state of
//! a launch in lists, with its turns.
#![tactic(auto)]

pub mod acting;
pub mod acts;
pub mod arrays;
pub mod code;
pub mod faults;
pub mod held;
pub mod laws;
pub mod passing;
pub mod races;
pub mod tame_laws;
pub mod world;

pub use acts::{Action, Asked, Bound, BoundList, Place, Point, Range, TurnList};
pub use arrays::BytesList;
pub use code::ItemCode;
pub use faults::{PassFault, TurnFault, Why};
pub use world::World;

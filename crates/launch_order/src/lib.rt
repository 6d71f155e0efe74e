//! What the cores of a machine did with a launch is an interleaving of its work-items.
//!
//! Definitions and laws over `item_acts` alone: no machine stands here. Read first `specs/Events.antt` for what a core does
//! and what its events lead to, then `CoreEvents` in `specs/Cores.antt` for what is known of them, and `laws` and
//! `list_laws` for what follows. `specs/Moves.antt` has the level below, reads and writes by addresses, and `move_laws` how
//! events come of it. In `proofs/`, `Merged` makes one order of the events of all cores, `Seen` says what a core knows of
//! it, `Logged` finds races, `Following` and `Released` add each event with its turn, and `Endings` has the ends;
//! `MoveBytes`, `MoveEvents` and `MoveHonesty` make events of moves.
#![tactic(auto)]

pub mod laws;
pub mod list_laws;
pub mod move_laws;
pub mod worked;

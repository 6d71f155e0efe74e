//! Groups of work-items handed out to threads, each once.
//!
//! A [`Dispenser`] has one shared word, the next ticket. Each thread draws tickets with a [`Claimer`] of its own, by one
//! atomic addition a ticket. The tickets below the group count are the groups, so a thread works until it draws one past
//! the last. [`close`] then shows that the tickets of all claimers are the numbers below the word, each once.
//!
//! Read first `specs/Tickets.antt` for what a clause says of a claimer, and `specs/Rule.antt` for the rule that each step
//! on the word keeps.
#![tactic(auto)]

pub mod claimer;
pub mod crew;
pub mod dispenser;
pub mod rule;

pub use claimer::{Claimer, ClaimerList};
pub use crew::{claimers, close, gather};
pub use dispenser::Dispenser;

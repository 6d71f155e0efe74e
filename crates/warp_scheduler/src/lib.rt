//! Which of its ready warps a core lets take the next step: a trait for the policy, and three policies.
//!
//! Read first `picker` for what a policy is, then `specs/Rules.antt` for what each of the three picks.
//!
//! - `round_robin`: each in turn ([`RoundRobin`]).
//! - `oldest_first`: the one that was picked longest ago ([`OldestFirst`]).
//! - `seeded`: drawn by a generator ([`SeededPick`]).
#![tactic(auto)]

pub mod oldest_first;
pub mod picker;
pub mod round_robin;
pub mod seeded;

pub use oldest_first::OldestFirst;
pub use picker::Picker;
pub use round_robin::RoundRobin;
pub use seeded::SeededPick;

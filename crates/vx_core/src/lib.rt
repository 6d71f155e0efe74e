//! A core: warps that take one instruction at a time, with barriers, a scratchpad and a cache of their own, on a bus that
//! cores share.
//!
//! Read first `specs/CoreSteps.antt` for what a core is and what a step makes of it, then [`Core::run_group`].
//!
//! - `job`: what a core is told of the group that it runs.
//! - `end`: how a group ends, and `ends`, which end comes when.
//! - `counts`: what a core counts.
//! - `counting_bus`: a bus of which the entries are counted.
//! - `place`: where the fields lie that lanes read and write.
//! - `memory`: what the lanes of a core read and write: the scratchpad, and the bus through the cache.
//! - `crew`: the warps of a core, and the barriers at which they wait.
//! - `core_run`: the core, and how it runs a group.
#![tactic(auto)]

pub mod core_run;
mod counting_bus;
pub mod counts;
mod crew;
pub mod end;
mod ends;
pub mod job;
mod memory;
mod place;

pub use core_run::Core;
pub use counts::CoreCounts;
pub use end::GroupEnd;
pub use job::{BlockWords, GroupJob};

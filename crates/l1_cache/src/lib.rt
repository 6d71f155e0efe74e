//! The cache between a core and its bus. It keeps no line so far: each read and each write goes to the bus.
//!
//! Read first `specs/Lines.antt` for what a cache is, and what a read and a write make on the bus.
//!
//! - `evictor`: a policy by which a full set gives up a line.
//! - `field`: the bits of a word that a field takes up.
//! - `cache`: the cache.
#![tactic(auto)]

pub mod cache;
pub mod evictor;
mod field;

pub use cache::Cache;
pub use evictor::{EvictOldest, Evictor};

//! A warp of up to 32 lanes, and its step: one instruction, which its active lanes do one after another.
//!
//! Read first `specs/Warps.antt` and `specs/WarpSteps.antt` of `vx_isa` for what a warp is and what a step makes of it, then
//! [`LaneMemory`] for what a step asks of memory, and [`Warp::step`].
//!
//! - `memory`: the memory that lanes read and write.
//! - `masks`: sets of lanes as the bits of a word.
//! - `lane`: the registers of a lane, and what its effect makes of them and of memory.
//! - `lanes`: all lanes, and what the active ones do.
//! - `fetch`: the instruction at an address.
//! - `warp`: the warp.
#![tactic(auto)]

mod fetch;
mod lane;
mod lanes;
mod masks;
pub mod memory;
pub mod warp;

pub use memory::LaneMemory;
pub use vx_isa::{Ids, MachineTrap, Step};
pub use warp::Warp;

//! The 32-bit machine words of the instructions: the word that spells an instruction ([`encode`]), and the instruction that a
//! word spells ([`decode`]).
//!
//! Read first `specs/Words.antt` and `specs/Rows.antt` of `vx_isa` for what the two functions compute, then `encoding` and
//! `decoding`. `fields` has the fields and the immediates of a word, and `bits` what both make words of.
#![tactic(auto)]

mod bits;
pub mod decoding;
pub mod encoding;
mod fields;
pub mod laws;

pub use decoding::decode;
pub use encoding::encode;

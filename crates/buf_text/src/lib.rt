//! Buffers as bytes and as text: elements of a file that are put into the words of memory, and the lines by which a buffer is
//! printed.
//!
//! Read first `specs/Elements.antt` for the bytes of words, then [`load`].
#![tactic(auto)]

pub mod lines;
pub mod loading;
pub mod word_bytes;

pub use lines::BufLines;
pub use loading::{LengthFault, load};

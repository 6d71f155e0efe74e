//! Values that every layer of the simulator speaks of: positions in a text, element types, address spaces, 32-bit
//! words with RISC-V's arithmetic, lane masks, and little-endian fields in bytes.
//!
//! Read first `types` for the vocabulary, then `specs/Values.antt` for what each operation computes.
//!
//! - `types`: the enums and structs that the other layers name, and `lists`, the lists of them that stay plain data in
//!   contracts.
//! - `values`: what an operation makes of two words ([`alu_value`]), and a word cut to an element's type ([`fit`]).
//! - `masks`: sets of up to 32 lanes as the bits of a word ([`lanes_mask`], [`least`]).
//! - `bytes`: numbers of one, two or four bytes in memory ([`get_le`], [`put_le`]), defined in `specs/Bytes.antt`.
//!
//! `proofs/` has the laws that proofs of the layers above cite: `NumberLaws` on numbers and their bytes, `FieldLaws` on
//! what a write changes and leaves, `MaskLaws` on bits, and `ValueLaws` on ranges and on words read as signed.
//! `WorkedValues` computes the definitions at the corners that the manual names.
#![tactic(auto)]

pub mod bytes;
pub mod lists;
pub mod masks;
pub mod types;
pub mod values;

pub use bytes::{get_le, put_le};
pub use lists::{KindList, ListOf, SizeList, Text, WordList};
pub use masks::{lanes_mask, least};
pub use types::{Alu, Elem, Memory, ParamKind, Pos, Size, Space};
pub use values::{alu_value, fit};

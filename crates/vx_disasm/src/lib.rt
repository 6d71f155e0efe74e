//! The disassembler: the assembly text of machine words, which the assembler turns into the same words again.
//!
//! Read first `specs/Texts.antt` for the text of a word, then `texts` for [`disassemble`].
#![tactic(auto)]

pub mod texts;

pub use texts::disassemble;

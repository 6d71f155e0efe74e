//! The assembler: words from a text of assembly, or the first reason why it is none.
//!
//! Read first the definitions, `specs/AsmLines.antt` and `specs/AsmTexts.antt` of `asm_text`; each function here names
//! the one that it meets.
//!
//! - `parts`: blanks, names, registers and numbers.
//! - `lines`: statements and whole lines.
//! - `labels`: the table of labels.
//! - `listing`: the labels and the statements of a whole text.
//! - `assembly`: the words, and [`assemble`].
#![tactic(auto)]

pub mod assembly;
mod labels;
mod lines;
mod listing;
mod parts;

pub use assembly::assemble;

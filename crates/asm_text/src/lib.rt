//! The two texts of machine words: lines of hexadecimal digits, and assembly. The assembler and the disassembler stand on this.
//!
//! - `lines`: a text cut into lines ([`cut_line`]), defined in `specs/Lines.antt`.
//! - `hexadecimal`: words as lines of eight digits ([`hex_text`]), and back ([`hex_words`]), defined in `specs/HexLines.antt`.
//! - `mnemonics`: the table of the assembly text, and `instrs`: its instructions, both defined in `specs/Mnemonics.antt`.
//! - `statements`: what a line of assembly says, and the faults of a text. `specs/AsmLines.antt` says what a line says, and
//!   `specs/AsmTexts.antt` (`assembled`) which words a text makes, or which fault it has.
#![tactic(auto)]

pub mod hexadecimal;
pub mod instrs;
pub mod lines;
pub mod mnemonics;
pub mod statements;

pub use hexadecimal::{HexFault, hex_text, hex_words, push_hex_line};
pub use lines::cut_line;
pub use mnemonics::{Field, Form, Mnemonic, Operands, Part};
pub use statements::{AsmFault, Line, Number, Span, Statement};

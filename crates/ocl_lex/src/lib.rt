//! From the bytes of a kernel file to its tokens ([`lex`]): comments, literals, macros, conditions.
//!
//! Read first `specs/Lines.antt`, which ends in `tokens_of`, the tokens of a text or its first fault. It stands on
//! `specs/Pieces.antt` (a text cut into names, numbers and punctuators), `Literals`, `Words` and `Marks` (what these are),
//! `Macros` (what a name shows that is a macro) and `Events` (the limit on tokens). `proofs/WorkedTokens.antt` computes the
//! definition on small texts. `specs/Spans.antt` says where tokens stand in their text. The other specs, `Cutting`, `Tables`,
//! `Frames`, `Telling` and `Doing`, retell the state of the code for the proof, and no contract of [`lex`] cites them.
//!
//! The code goes the same way in two passes. `pieces` makes a list of the pieces of the text; `bytes`, `marks`, `literals` and
//! `words` read one piece each. `reading` goes over the lines of that list: `context` does what directives say, with what
//! `operands` finds behind their words, and `showing` shows the tokens of all other lines, with `replacing` for macros.
#![tactic(auto)]

mod bytes;
mod conditions;
mod context;
mod directives;
mod faults;
mod lexer;
mod literals;
mod macros;
mod marks;
mod operands;
mod output;
mod parts;
mod pieces;
mod predefined;
mod reading;
mod replacing;
mod showing;
mod words;

pub use faults::LexFault;
pub use lexer::lex;
pub use ocl_tokens::{Component, LeftOut, Mark, Token, TokenKind, Tokens, Width, Word};

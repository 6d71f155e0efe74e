//! Tokens: what the lexer makes of a text, and what the parser reads.
//!
//! Read first `tokens`, then `words` for the reserved words and `marks` for the punctuators.
#![tactic(auto)]

pub mod marks;
pub mod tokens;
pub mod words;

pub use marks::Mark;
pub use tokens::{Token, TokenKind, Tokens};
pub use words::{Component, LeftOut, Width, Word};

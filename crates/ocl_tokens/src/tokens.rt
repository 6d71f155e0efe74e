use crate::marks::Mark;
use crate::words::Word;
use vx_base::{ListOf, Pos, Text};

/// What a token is.
#[derive(Debug, Drop)]
pub enum TokenKind {
    /// A name that is no reserved word, with its bytes.
    Name(Text),
    /// A reserved word.
    Word(Word),
    /// A number.
    Number {
        /// The value, of 32 bits.
        value: u32,
        /// Whether the type is uint, where it is otherwise int.
        unsigned: bool,
    },
    /// A punctuator.
    Mark(Mark),
    /// The end of the text.
    End,
}

/// A token of a text.
#[derive(Debug, Drop)]
pub struct Token {
    /// What it is.
    pub kind: TokenKind,
    /// The byte of the text where it begins, from 0. A token that a macro made has the span of the macro's use.
    pub start: u32,
    /// The byte behind its last.
    pub end: u32,
    /// The line and column where it begins.
    pub pos: Pos,
    /// Whether a macro made it.
    pub made: bool,
}

/// The tokens of a text in order.
pub type Tokens = ListOf<Token>;

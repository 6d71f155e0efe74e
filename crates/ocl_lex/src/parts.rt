//! What tokens are made of before macros are replaced.
ghost use Rattle.std.specs.Prelude.{◌≡◌, IfOk};
ghost use Rattle.ocl_lex.specs.Literals.{literal_of};
ghost use Rattle.ocl_lex.specs.Parts as spec;
ghost use Rattle.ocl_lex.specs.Pieces as pieces;

use crate::bytes::{bytes_from, front_of};
use crate::faults::LexFault;
use crate::literals::literal_of;
use crate::pieces::{Piece, PieceKind};
use crate::words::name_kind;
use ocl_tokens::{Mark, Token, TokenKind};
use std::alloc::{AllocError, Global};

/// A lexeme: what a token is made of, in a line of the text or in a macro's replacement.
#[derive(Clone, Copy, Debug, PartialEq, Eq)]
pub enum Lexeme {
    /// A name, perhaps a reserved word or a macro: the bytes of the text from `start` to `end`.
    Name {
        /// The byte of the text where it begins.
        start: u32,
        /// The byte behind its last.
        end: u32,
    },
    /// A number.
    Number {
        /// The value, of 32 bits.
        value: u32,
        /// Whether the type is uint.
        unsigned: bool,
    },
    /// A punctuator.
    Mark(Mark),
}

/// The bytes of a text from one place to another.
pub fn between(text: &[u8], start: u32, end: u32) -> &[u8]
    ensures { result.now ≡ spec.between text.now start end }
{
    front_of(
        bytes_from(text, start as usize),
        end.saturating_sub(start) as usize,
    )
}

/// The bytes of a piece.
pub fn text_of(text: &[u8], piece: Piece) -> &[u8]
    ensures { result.now ≡ pieces.text_of text.now piece }
{
    between(text, piece.start, piece.end)
}

fn number_of(text: &[u8], piece: Piece) -> Result<Lexeme, LexFault>
    ensures { result ≡ spec.number_or_bad piece.pos (literal_of (pieces.text_of text.now piece)) }
{
    match literal_of(text_of(text, piece)) {
        Some(literal) => Ok(Lexeme::Number {
            value: literal.value,
            unsigned: literal.unsigned,
        }),
        None => Err(LexFault::BadNumber(piece.pos)),
    }
}

/// What a piece adds to a line of tokens.
pub fn part_of(text: &[u8], piece: Piece) -> Result<Lexeme, LexFault>
    ensures { result ≡ spec.part_of text.now piece }
{
    match piece.kind {
        PieceKind::Name => Ok(Lexeme::Name {
            start: piece.start,
            end: piece.end,
        }),
        PieceKind::Number => number_of(text, piece),
        PieceKind::Mark(mark) => Ok(Lexeme::Mark(mark)),
        PieceKind::OpenComment => Err(LexFault::OpenComment(piece.pos)),
        PieceKind::Blank | PieceKind::Feed | PieceKind::Hash | PieceKind::Bad => {
            Err(LexFault::BadByte(piece.pos))
        }
    }
}

fn kind_of(alloc: Global, text: &[u8], part: Lexeme) -> Result<TokenKind, AllocError>
    ensures { IfOk result (λ kind. kind ≡ spec.kind_of text.now part) }
{
    match part {
        Lexeme::Name { start, end } => name_kind(alloc, between(text, start, end)),
        Lexeme::Number { value, unsigned } => Ok(TokenKind::Number { value, unsigned }),
        Lexeme::Mark(mark) => Ok(TokenKind::Mark(mark)),
    }
}

/// The token of a part at a piece, with the piece's span and position.
pub fn token_at(
    alloc: Global,
    text: &[u8],
    made: bool,
    at: Piece,
    part: Lexeme,
) -> Result<Token, AllocError>
    ensures { IfOk result (λ token. token ≡ spec.token_at text.now made at part) }
{
    let kind = kind_of(alloc, text, part)?;
    Ok(Token {
        kind,
        start: at.start,
        end: at.end,
        pos: at.pos,
        made,
    })
}

//! What stands behind the word of a directive.
ghost use Rattle.std.specs.Prelude.{◌≡◌};
ghost use Rattle.ocl_lex.specs.Doing.{NamesOne, Raises, ReadsParts};
ghost use Rattle.ocl_lex.specs.Lines as spec;

use crate::faults::LexFault;
use crate::parts::{Lexeme, part_of, text_of};
use crate::pieces::{Piece, PieceKind};
use ocl_tokens::Mark;
use std::alloc::Global;

/// Whether a kind of piece is that of names.
pub fn is_name(kind: PieceKind) -> bool
    ensures { result ≡ spec.is_name kind }
{
    matches!(kind, PieceKind::Name)
}

/// The fault of a piece that a directive has no place for.
pub fn unwanted(hash: Piece, piece: Piece) -> LexFault
    ensures { result ≡ spec.unwanted hash piece }
{
    match piece.kind {
        PieceKind::OpenComment => LexFault::OpenComment(piece.pos),
        _ => LexFault::BadDirective(hash.pos),
    }
}

/// Looks whether nothing stands behind a directive.
pub fn nothing_behind(hash: Piece, pieces: &[Piece]) -> Result<(), LexFault>
    ensures { Raises result (spec.nothing_behind hash pieces.now) }
{
    match pieces.split_first() {
        Some((piece, _rest)) => Err(unwanted(hash, *piece)),
        None => Ok(()),
    }
}

/// The name that stands alone behind a directive.
pub fn name_alone<'a>(text: &'a [u8], hash: Piece, pieces: &[Piece]) -> Result<&'a [u8], LexFault>
    ensures { NamesOne result text.now hash pieces.now }
{
    let Some((name, rest)) = pieces.split_first() else {
        return Err(LexFault::BadDirective(hash.pos));
    };
    if !is_name(name.kind) {
        return Err(unwanted(hash, *name));
    }
    match nothing_behind(hash, rest) {
        Ok(()) => Ok(text_of(text, *name)),
        Err(fault) => Err(fault),
    }
}

fn is_open_paren(kind: PieceKind) -> bool
    ensures { result ≡ spec.is_open_paren kind }
{
    matches!(kind, PieceKind::Mark(Mark::OpenParen))
}

/// Whether a `(` stands directly behind the name of a `#define`.
pub fn opens_parameters(name: Piece, pieces: &[Piece]) -> bool
    ensures { result ≡ spec.opens_parameters name pieces.now }
{
    match pieces.split_first() {
        Some((piece, _rest)) => is_open_paren(piece.kind) && piece.start == name.end,
        None => false,
    }
}

/// The parts behind the name of a `#define`.
pub fn parts_of(alloc: Global, text: &[u8], pieces: &[Piece]) -> Result<Vec<Lexeme>, LexFault>
    ensures { ReadsParts result text.now pieces.now }
{
    let mut parts = Vec::new(alloc);
    for piece in pieces {
        let part = part_of(text, *piece)?;
        parts.push(part)?;
    }
    Ok(parts)
}

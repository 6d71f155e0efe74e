//! What a line that is no directive shows.
ghost use Rattle.std.specs.Prelude.{◌∷◌, false};
ghost use Rattle.std.specs.List.{flat_map};
ghost use Rattle.ocl_lex.specs.Doing.{Raises};
ghost use Rattle.ocl_lex.specs.Events.{Use};
ghost use Rattle.ocl_lex.specs.Frames.{Opens, inner_events};
ghost use Rattle.ocl_lex.specs.Lines.{piece_events, skipped_events};
ghost use Rattle.ocl_lex.specs.Macros.{found, replaced, without};
ghost use Rattle.ocl_lex.specs.Parts.{name_of};
ghost use Rattle.ocl_lex.specs.Telling.{Tells};

use crate::faults::LexFault;
use crate::macros::Macros;
use crate::output::{Output, count_use, show_part};
use crate::parts::{Lexeme, between, part_of};
use crate::pieces::{Piece, PieceKind};
use crate::replacing::replace;
use std::alloc::Global;

/// The macro that a part uses: its name and its replacement.
fn use_of<'a>(text: &'a [u8], macros: &'a Macros, part: Lexeme) -> Option<(&'a [u8], &'a [Lexeme])>
    ensures { Opens result (name_of text.now part) (found text.now macros.now part) }
{
    let Lexeme::Name { start, end } = part else {
        return None;
    };
    let name = between(text, start, end);
    match macros.replacement_of(name) {
        Some(body) => Some((name, body)),
        None => None,
    }
}

/// Shows what a use of a macro shows.
fn show_use(
    alloc: Global,
    text: &[u8],
    macros: &Macros,
    at: Piece,
    out: &mut Output,
    name: &[u8],
    body: &[Lexeme],
) -> Result<(), LexFault>
    ensures { Tells result out.old out.new (Use at.pos ∷ inner_events text.now at (without name.now macros.now) body.now) }
{
    count_use(out, at.pos)?;
    replace(alloc, text, macros, at, out, name, body)
}

/// Shows what a part of the text shows, macros replaced.
fn show_replaced(
    alloc: Global,
    text: &[u8],
    macros: &Macros,
    at: Piece,
    out: &mut Output,
    part: Lexeme,
) -> Result<(), LexFault>
    ensures { Tells result out.old out.new (replaced text.now macros.now false at part) }
{
    match use_of(text, macros, part) {
        Some((name, body)) => show_use(alloc, text, macros, at, out, name, body),
        None => show_part(alloc, text, false, at, out, part),
    }
}

/// Shows what a piece of the text shows.
fn show_piece(
    alloc: Global,
    text: &[u8],
    macros: &Macros,
    piece: Piece,
    out: &mut Output,
) -> Result<(), LexFault>
    ensures { Tells result out.old out.new (piece_events text.now macros.now piece) }
{
    match part_of(text, piece) {
        Ok(part) => show_replaced(alloc, text, macros, piece, out, part),
        Err(fault) => Err(fault),
    }
}

/// Shows what a line shows that is read and is no directive.
pub fn show_line(
    alloc: Global,
    text: &[u8],
    macros: &Macros,
    line: &[Piece],
    out: &mut Output,
) -> Result<(), LexFault>
    ensures { Tells result out.old out.new (flat_map (piece_events text.now macros.now) line.now) }
{
    for piece in line {
        show_piece(alloc, text, macros, *piece, out)?;
    }
    Ok(())
}

/// Goes over pieces that are not read: a comment that stays open is a fault there too.
pub fn skip_pieces(pieces: &[Piece]) -> Result<(), LexFault>
    ensures { Raises result (flat_map skipped_events pieces.now) }
{
    for piece in pieces {
        if piece.kind == PieceKind::OpenComment {
            return Err(LexFault::OpenComment(piece.pos));
        }
    }
    Ok(())
}

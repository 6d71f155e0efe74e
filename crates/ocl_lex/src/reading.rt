//! The lines of a text, read one after another.
ghost use Rattle.std.specs.Prelude.{◌≡◌, ◌∷◌, ◌<◌, length, reverse, IfSome};
ghost use Rattle.std.specs.List.{position};
ghost use Rattle.ocl_lex.specs.Doing.{Does, ReadsLines, state_of};
ghost use Rattle.ocl_lex.specs.Lines as spec;
ghost use Rattle.ocl_lex.specs.Telling.{Tells};

use crate::conditions::Condition;
use crate::context::Context;
use crate::faults::LexFault;
use crate::output::{Output, show};
use crate::pieces::{Piece, PieceKind};
use crate::showing::{show_line, skip_pieces};
use ocl_tokens::Token;
use std::alloc::Global;

fn is_hash(kind: PieceKind) -> bool
    ensures { result ≡ spec.is_hash kind }
{
    matches!(kind, PieceKind::Hash)
}

fn is_line_end(kind: PieceKind) -> bool
    ensures { result ≡ spec.is_line_end kind }
{
    matches!(kind, PieceKind::Feed)
}

/// The place of the first piece that ends a line.
fn line_end(pieces: &[Piece]) -> Option<usize>
    ensures value { result ≡ position (λ p. spec.is_line_end p.kind) pieces.now }
    ensures within { IfSome result (λ at. at < length pieces.now) }
{
    pieces.iter().position(|piece| is_line_end(piece.kind))
}

/// The first line of some pieces, of which there is at least one, and the pieces behind it.
fn cut_line(pieces: &[Piece]) -> (&[Piece], &[Piece])
    requires { 0 < length pieces.now }
    ensures cut { spec.lines pieces.now ≡ result.0.now ∷ spec.lines result.1.now }
    ensures shorter { length result.1.now < length pieces.now }
{
    match line_end(pieces) {
        Some(end) => (&pieces[..end], &pieces[end + 1..]),
        None => (pieces, &[]),
    }
}

/// Reads a line that is no directive.
fn read_plain(
    alloc: Global,
    text: &[u8],
    context: &Context,
    line: &[Piece],
    out: &mut Output,
) -> Result<(), LexFault>
    ensures { Does result out.old (spec.plain_line text.now (state_of context.now) line.now) out.new (state_of context.now) }
{
    if context.is_shown() {
        show_line(alloc, text, &context.macros, line, out)
    } else {
        skip_pieces(line)
    }
}

/// Reads a line.
fn read_line(
    alloc: Global,
    text: &[u8],
    context: &mut Context,
    line: &[Piece],
    out: &mut Output,
) -> Result<(), LexFault>
    ensures { Does result out.old (spec.effect text.now (state_of context.old) line.now) out.new (state_of context.new) }
{
    let Some((first, rest)) = line.split_first() else {
        return Ok(());
    };
    if is_hash(first.kind) {
        context.directive_line(alloc, text, *first, rest)
    } else {
        read_plain(alloc, text, context, line, out)
    }
}

/// Reads the lines of a text.
pub fn read_lines(
    alloc: Global,
    text: &[u8],
    pieces: &[Piece],
    context: &mut Context,
    out: &mut Output,
) -> Result<(), LexFault>
    ensures { ReadsLines result text.now (spec.lines pieces.now) (state_of context.old) out.old (state_of context.new) out.new }
{
    let mut rest = pieces;
    while !rest.is_empty() {
        let (line, behind) = cut_line(rest);
        read_line(alloc, text, context, line, out)?;
        rest = behind;
    }
    Ok(())
}

/// Shows the token behind the last byte, where no condition stands open.
pub fn close(conditions: &[Condition], end: Token, out: &mut Output) -> Result<(), LexFault>
    ensures { Tells result out.old out.new (spec.ends end (reverse conditions.now)) }
{
    match conditions.split_last() {
        Some((innermost, _outer)) => Err(LexFault::BadDirective(innermost.pos)),
        None => show(out, end),
    }
}

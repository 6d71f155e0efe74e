//! The pieces of a text: names, numbers, punctuators, and what is none of these.
ghost use Rattle.std.specs.Prelude.{◌≡◌, ◌++◌, ◌∷◌, [], ◌≤◌, ◌<◌, ◌^◌, length, IfOk, IfSome, OnOk};
ghost use Rattle.ocl_lex.specs.Marks as marks;
ghost use Rattle.ocl_lex.specs.Cutting.{Passes};
ghost use Rattle.ocl_lex.specs.Pieces as spec;

use crate::bytes::{
    begins_name, byte_at, bytes_from, is_blank, is_decimal, line_len, name_len, number_len,
};
use crate::marks::{mark_at, spelling_of};
use ocl_tokens::Mark;
use std::alloc::{AllocError, Global};
use vx_base::Pos;

/// What a piece of a text is.
#[derive(Clone, Copy, Debug, PartialEq, Eq)]
pub enum PieceKind {
    /// A white byte that ends no line, or a comment.
    Blank,
    /// The end of a line.
    Feed,
    /// A letter or `_`, and then letters, digits and `_`.
    Name,
    /// A digit, and then letters, digits, `_` and `.`; perhaps no literal.
    Number,
    /// A punctuator.
    Mark(Mark),
    /// A `#`.
    Hash,
    /// A byte that begins none of the others.
    Bad,
    /// A `/*` without a `*/` behind it, with all that follows.
    OpenComment,
}

/// What begins at a place.
#[derive(Clone, Copy, Debug, PartialEq, Eq)]
pub struct Front {
    /// What it is.
    pub kind: PieceKind,
    /// How many bytes it has.
    pub len: usize,
}

/// A piece of a text.
#[derive(Clone, Copy, Debug, PartialEq, Eq)]
pub struct Piece {
    /// What it is.
    pub kind: PieceKind,
    /// The byte of the text where it begins, from 0.
    pub start: u32,
    /// The byte behind its last.
    pub end: u32,
    /// The line and column where it begins.
    pub pos: Pos,
}

/// A place in a text.
#[derive(Clone, Copy, Debug, PartialEq, Eq)]
pub struct Cursor {
    /// How many bytes stand before it.
    pub at: u32,
    /// Its line and column.
    pub pos: Pos,
}

/// Whether some bytes begin with `*/`.
fn closes(bytes: &[u8]) -> bool
    ensures { result ≡ spec.closes bytes.now }
{
    byte_at(bytes, 0) == b'*' && byte_at(bytes, 1) == b'/'
}

/// How many bytes there are up to the end of the first `*/`.
fn closing_len(bytes: &[u8]) -> Option<usize>
    ensures value { result ≡ spec.closing_len bytes.now }
    ensures within { IfSome result (λ n. n ≤ length bytes.now) }
    ensures least { IfSome result (λ n. 2 ≤ n) }
{
    for place in 0..bytes.len() {
        if closes(bytes_from(bytes, place)) {
            return Some(place + 2);
        }
    }
    None
}

/// The comment at the front of some bytes that begin with `//` or `/*`.
fn comment_at(bytes: &[u8]) -> Front
    ensures value { result ≡ spec.comment_at bytes.now }
    ensures within { result.len ≤ length bytes.now }
{
    if byte_at(bytes, 1) == b'/' {
        return Front {
            kind: PieceKind::Blank,
            len: line_len(bytes),
        };
    }
    match closing_len(bytes_from(bytes, 2)) {
        Some(len) => Front {
            kind: PieceKind::Blank,
            len: len + 2,
        },
        None => Front {
            kind: PieceKind::OpenComment,
            len: bytes.len(),
        },
    }
}

fn begins_comment(bytes: &[u8]) -> bool
    ensures { result ≡ spec.begins_comment bytes.now }
{
    if byte_at(bytes, 0) != b'/' {
        return false;
    }
    let second = byte_at(bytes, 1);
    second == b'/' || second == b'*'
}

/// The punctuator or bad byte at the front of some bytes.
fn mark_front(bytes: &[u8]) -> Front
    requires { 0 < length bytes.now }
    ensures value { result ≡ spec.mark_front (marks.mark_at bytes.now) }
    ensures within { result.len ≤ length bytes.now }
{
    match mark_at(bytes) {
        Some(mark) => Front {
            kind: PieceKind::Mark(mark),
            len: spelling_of(mark).len(),
        },
        None => Front {
            kind: PieceKind::Bad,
            len: 1,
        },
    }
}

/// What begins at the front of some bytes.
#[tactic(auto, unfolding(crate::specs::Pieces::begins))]
fn begins(bytes: &[u8]) -> Front
    requires { 0 < length bytes.now }
    ensures value { result ≡ spec.begins bytes.now }
    ensures within { result.len ≤ length bytes.now }
{
    let first = byte_at(bytes, 0);
    if first == b'\n' {
        return Front {
            kind: PieceKind::Feed,
            len: 1,
        };
    }
    if is_blank(first) {
        return Front {
            kind: PieceKind::Blank,
            len: 1,
        };
    }
    if begins_name(first) {
        return Front {
            kind: PieceKind::Name,
            len: name_len(bytes),
        };
    }
    if is_decimal(first) {
        return Front {
            kind: PieceKind::Number,
            len: number_len(bytes),
        };
    }
    if first == b'#' {
        return Front {
            kind: PieceKind::Hash,
            len: 1,
        };
    }
    if begins_comment(bytes) {
        comment_at(bytes)
    } else {
        mark_front(bytes)
    }
}

impl Cursor {
    /// The place where a text begins.
    pub const FIRST: Cursor = Cursor {
        at: 0,
        pos: Pos { line: 1, col: 1 },
    };

    /// The place behind a byte.
    pub fn after(self, byte: u8) -> Cursor
        requires near { spec.IsNear self }
        requires room { self.at < 2 ^ 24 }
        ensures value { result ≡ spec.after byte self }
        ensures near { spec.IsNear result }
    {
        let at = self.at + 1;
        if byte == b'\n' {
            return Cursor {
                at,
                pos: Pos {
                    line: self.pos.line + 1,
                    col: 1,
                },
            };
        }
        Cursor {
            at,
            pos: Pos {
                line: self.pos.line,
                col: self.pos.col + 1,
            },
        }
    }
}

/// Whether a kind of piece says something: all but blanks and comments do.
fn is_shown(kind: PieceKind) -> bool
    ensures { result ≡ spec.is_shown kind }
{
    !matches!(kind, PieceKind::Blank)
}

/// Adds what begins at a place to some pieces, unless it is a blank.
fn begin(pieces: &mut Vec<Piece>, place: Cursor, front: Front) -> Result<(), AllocError>
    requires at { place.at ≤ 2 ^ 24 }
    requires len { front.len ≤ 2 ^ 24 }
    ensures { OnOk result (pieces.new.items ≡ pieces.old.items ++ spec.shown_pieces (spec.piece_at place front ∷ [])) }
{
    if !is_shown(front.kind) {
        return Ok(());
    }
    pieces.push(Piece {
        kind: front.kind,
        start: place.at,
        end: place.at + front.len as u32,
        pos: place.pos,
    })?;
    Ok(())
}

/// Goes on by the first of some bytes, and answers how many of the others are covered by a piece that has begun.
fn pass(
    pieces: &mut Vec<Piece>,
    covered: usize,
    place: Cursor,
    bytes: &[u8],
) -> Result<usize, AllocError>
    requires some { 0 < length bytes.now }
    requires at { place.at ≤ 2 ^ 24 }
    requires len { length bytes.now ≤ 2 ^ 24 }
    ensures { IfOk result (λ left. Passes covered place bytes.now pieces.old.items left pieces.new.items) }
{
    if covered > 0 {
        return Ok(covered - 1);
    }
    let front = begins(bytes);
    begin(pieces, place, front)?;
    Ok(front.len.saturating_sub(1))
}

/// The pieces of a text, without blanks and comments.
pub fn pieces_of(alloc: Global, text: &[u8]) -> Result<Vec<Piece>, AllocError>
    requires { length text.now ≤ 1048576 }
    ensures { IfOk result (λ pieces. pieces.items ≡ spec.pieces_of text.now) }
{
    let mut pieces = Vec::new(alloc);
    let mut place = Cursor::FIRST;
    let mut covered = 0;
    for (at, byte) in text.iter().enumerate() {
        covered = pass(&mut pieces, covered, place, bytes_from(text, at))?;
        place = place.after(*byte);
    }
    Ok(pieces)
}

//! The tokens of a text.
ghost use Rattle.std.specs.Prelude.{◌≡◌, ◌⊎◌, ◌≤◌, Ok, Err, length, IfOk, IfErr};
ghost use Rattle.ocl_lex.specs.Lines as spec;
ghost use Rattle.ocl_lex.specs.Pieces.{first_place};
ghost use Rattle.ocl_lex.specs.Spans.{StandIn};

use crate::context::Context;
use crate::faults::LexFault;
use crate::output::Output;
use crate::pieces::{Cursor, pieces_of};
use crate::reading::{close, read_lines};
use ocl_tokens::{Token, TokenKind, Tokens};
use std::alloc::Global;

/// How many tokens and replaced macros a text has at most.
const LIMIT: u32 = 1_048_576;

/// The place behind the last byte of a text.
fn end_place(text: &[u8]) -> Cursor
    requires { length text.now ≤ 1048576 }
    ensures { result ≡ spec.place_behind first_place text.now }
{
    let mut place = Cursor::FIRST;
    for byte in text {
        place = place.after(*byte);
    }
    place
}

/// The token behind the last byte of a text.
fn end_token(text: &[u8]) -> Token
    requires { length text.now ≤ 1048576 }
    ensures { result ≡ spec.end_token text.now }
{
    let end = text.len() as u32;
    Token {
        kind: TokenKind::End,
        start: end,
        end,
        pos: end_place(text).pos,
        made: false,
    }
}

/// The tokens of a text, macros replaced, or its first fault.
///
/// The last token, and no other, is [`TokenKind::End`]. A token that no macro made is what its bytes say, and begins behind
/// the one before; a token that a macro made stands where the macro is used.
pub fn lex(alloc: Global, bytes: &[u8]) -> Result<Tokens, LexFault>
    requires { length bytes.now ≤ 1048576 }
    ensures tokens { IfOk result (λ tokens. spec.tokens_of bytes.now ≡ Ok tokens) }
    ensures spans { IfOk result (λ tokens. StandIn bytes.now tokens) }
    ensures fault { IfErr result (λ fault. (fault ≡ LexFault.Memory) ⊎ (spec.tokens_of bytes.now ≡ Err fault)) }
{
    let pieces = pieces_of(alloc, bytes)?;
    let mut context = Context::new(alloc)?;
    let mut out = Output {
        tokens: Vec::new(alloc),
        left: LIMIT,
    };
    read_lines(alloc, bytes, pieces.as_slice(), &mut context, &mut out)?;
    close(context.conditions.as_slice(), end_token(bytes), &mut out)?;
    let Output { tokens, left: _ } = out;
    Ok(Tokens { items: tokens })
}

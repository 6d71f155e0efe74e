//! The tokens of a text, as words.

ghost use Rattle.std.specs.Prelude.{◌≤◌, length};

use crate::answers::file_text;
use ocl_lex::lex;
use ocl_tokens::{LeftOut, TokenKind, Tokens, Word};
use std::alloc::{AllocError, Global};

/// A kind of token: a name and a number as it is written, with `u` behind an unsigned number, a reserved word with `:` before
/// it, and a mark by what it is called; `$` is the end.
fn push_kind(said: &mut String, alloc: Global, kind: &TokenKind) -> Result<(), AllocError> {
    match kind {
        TokenKind::Name(text) => said.push_str(str::from_utf8(text.as_slice()).unwrap_or("?"))?,
        TokenKind::Word(Word::LeftOut(LeftOut::Vector { .. })) => said.push_str("vector")?,
        TokenKind::Word(word) => said.push_str(format!(in alloc; ":{word:?}")?.as_str())?,
        TokenKind::Number { value, unsigned } => {
            let mark = if *unsigned { "u" } else { "" };
            said.push_str(format!(in alloc; "{value}{mark}")?.as_str())?;
        }
        TokenKind::Mark(mark) => said.push_str(format!(in alloc; "{mark:?}")?.as_str())?,
        TokenKind::End => return said.push_str("$"),
    }
    said.push_str(" ")
}

/// The kinds of some tokens.
fn kinds_text(alloc: Global, tokens: &Tokens) -> Result<String, AllocError> {
    let mut said = String::new(alloc);
    for token in tokens.as_slice() {
        push_kind(&mut said, alloc, &token.kind)?;
    }
    Ok(said)
}

/// The tokens of a text, or its fault.
pub fn tokens_text(alloc: Global, text: &[u8]) -> Result<String, AllocError>
    requires { length text.now ≤ 1048576 }
{
    match lex(alloc, text) {
        Ok(tokens) => kinds_text(alloc, &tokens),
        Err(_fault) => file_text(alloc, text),
    }
}

//! The tokens of a text as they come, and the limit on them.
ghost use Rattle.std.specs.Prelude.{◌≡◌, ◌+◌, ◌<◌, ◌∷◌, [], OnOk};
ghost use Rattle.ocl_lex.specs.Events.{Show, Use};
ghost use Rattle.ocl_lex.specs.Parts.{token_at};
ghost use Rattle.ocl_lex.specs.Telling.{Tells};

use crate::faults::LexFault;
use crate::parts::{Lexeme, token_at};
use crate::pieces::Piece;
use ocl_tokens::Token;
use std::alloc::Global;
use vx_base::Pos;

/// The tokens so far, and how many tokens and replaced macros there may still be.
#[derive(Debug, Drop)]
pub struct Output {
    /// The tokens so far.
    pub tokens: Vec<Token>,
    /// How many tokens and replaced macros there may still be.
    pub left: u32,
}

/// Adds a token.
#[tactic(auto, using(crate::proofs::TellingLaws::telling))]
pub fn show(out: &mut Output, token: Token) -> Result<(), LexFault>
    ensures tells { Tells result out.old out.new (Show token ∷ []) }
    ensures less { OnOk result (out.new.left < out.old.left) }
{
    if out.left == 0 {
        return Err(LexFault::TooManyTokens(token.pos));
    }
    out.tokens.push(token)?;
    out.left -= 1;
    Ok(())
}

/// Counts the replacement of a macro that is used at a place of the text.
#[tactic(auto, using(crate::proofs::TellingLaws::telling))]
pub fn count_use(out: &mut Output, pos: Pos) -> Result<(), LexFault>
    ensures tells { Tells result out.old out.new (Use pos ∷ []) }
    ensures less { OnOk result (out.new.left < out.old.left) }
{
    if out.left == 0 {
        return Err(LexFault::TooManyTokens(pos));
    }
    out.left -= 1;
    Ok(())
}

/// Adds the token of a part at a piece of the text.
pub fn show_part(
    alloc: Global,
    text: &[u8],
    made: bool,
    at: Piece,
    out: &mut Output,
    part: Lexeme,
) -> Result<(), LexFault>
    ensures tells { Tells result out.old out.new (Show (token_at text.now made at part) ∷ []) }
    ensures less { OnOk result (out.new.left < out.old.left) }
{
    let token = token_at(alloc, text, made, at, part)?;
    show(out, token)
}

//! Macros replaced: what a use of a macro shows.
ghost use Rattle.std.specs.Prelude.{◌≡◌, ◌++◌, ◌∷◌, [], ◌+◌, ◌-◌, ◌*◌, ◌<◌, true, false, length, OnOk, IfOk, IfSome};
ghost use Rattle.indexmap.specs.IndexMap.{index_map_len, set_value_at};
ghost use Rattle.ocl_lex.specs.Events.{Use};
ghost use Rattle.ocl_lex.specs.Frames.{IsInnermost, Opens, StepsOn, inner_events, is_open, pending, seen};
ghost use Rattle.ocl_lex.specs.Macros.{found, without};
ghost use Rattle.ocl_lex.specs.Parts.{name_of};
ghost use Rattle.ocl_lex.specs.Telling.{Tells, TellsInFront};

use crate::faults::LexFault;
use crate::macros::Macros;
use crate::output::{Output, count_use, show_part};
use crate::parts::{Lexeme, between};
use crate::pieces::Piece;
use indexmap::IndexMap;
use std::alloc::Global;
use vx_base::Pos;

/// The macro that a part of the innermost open replacement uses: one that is not open itself.
fn to_open<'a>(
    text: &'a [u8],
    macros: &'a Macros,
    frames: &IndexMap<&'a [u8], &'a [Lexeme]>,
    part: Lexeme,
) -> Option<(&'a [u8], &'a [Lexeme])>
    ensures opens { Opens result (name_of text.now part) (found text.now (seen macros.now frames.now.entries) part) }
    ensures closed { IfSome result (λ f. is_open f.0.now frames.now.entries ≡ false) }
{
    let Lexeme::Name { start, end } = part else {
        return None;
    };
    let name = between(text, start, end);
    if frames.contains_key(name) {
        return None;
    }
    match macros.replacement_of(name) {
        Some(body) => Some((name, body)),
        None => None,
    }
}

/// Opens the replacement of a macro that is used at a place of the text.
fn open_macro<'a>(
    pos: Pos,
    out: &mut Output,
    frames: &mut IndexMap<&'a [u8], &'a [Lexeme]>,
    name: &'a [u8],
    body: &'a [Lexeme],
) -> Result<(), LexFault>
    requires { is_open name.now frames.old.entries ≡ false }
    ensures tells { Tells result out.old out.new (Use pos ∷ []) }
    ensures pushed { OnOk result (frames.new.entries ≡ frames.old.entries ++ (name.entry, body.entry) ∷ []) }
    ensures less { OnOk result (2 * out.new.left + index_map_len frames.new < 2 * out.old.left + index_map_len frames.old) }
{
    count_use(out, pos)?;
    frames.insert(name, body)?;
    Ok(())
}

/// Shows a part of the innermost open replacement, or opens the replacement of the macro that it uses.
fn tell_part<'a>(
    alloc: Global,
    text: &'a [u8],
    macros: &'a Macros,
    at: Piece,
    out: &mut Output,
    frames: &mut IndexMap<&'a [u8], &'a [Lexeme]>,
    part: Lexeme,
) -> Result<(), LexFault>
    ensures steps { StepsOn result text.now at macros.now out.old frames.old.entries part out.new frames.new.entries }
    ensures less { OnOk result (2 * out.new.left + index_map_len frames.new < 2 * out.old.left + index_map_len frames.old) }
{
    match to_open(text, macros, frames, part) {
        Some((name, body)) => open_macro(at.pos, out, frames, name, body),
        None => show_part(alloc, text, true, at, out, part),
    }
}

/// What is left of the innermost open replacement.
fn innermost<'a>(frames: &IndexMap<&'a [u8], &'a [Lexeme]>) -> Option<&'a [Lexeme]>
    ensures { IsInnermost result frames.now.entries }
{
    match frames.last() {
        Some((_name, parts)) => Some(*parts),
        None => None,
    }
}

/// Leaves some parts of the innermost open replacement, in place of those that were left.
fn set_innermost<'a>(frames: &mut IndexMap<&'a [u8], &'a [Lexeme]>, parts: &'a [Lexeme])
    ensures entries { frames.new.entries ≡ set_value_at frames.old.entries (length frames.old.entries - 1) parts.entry }
    ensures len { index_map_len frames.new ≡ index_map_len frames.old }
{
    if let Some(left) = frames.last_mut() {
        *left = parts;
    }
}

/// Goes on by a part of the innermost open replacement, or closes it. Answers whether one stood open.
fn advance<'a>(
    alloc: Global,
    text: &'a [u8],
    macros: &'a Macros,
    at: Piece,
    out: &mut Output,
    frames: &mut IndexMap<&'a [u8], &'a [Lexeme]>,
) -> Result<bool, LexFault>
    ensures tells { TellsInFront result out.old (pending text.now at macros.now frames.old.entries) out.new (pending text.now at macros.now frames.new.entries) }
    ensures last { IfOk result (λ more. more ≡ false → frames.new.entries ≡ []) }
    ensures less { IfOk result (λ more. more ≡ true → 2 * out.new.left + index_map_len frames.new < 2 * out.old.left + index_map_len frames.old) }
{
    let Some(parts) = innermost(frames) else {
        return Ok(false);
    };
    let Some((part, rest)) = parts.split_first() else {
        let _closed = frames.pop();
        return Ok(true);
    };
    set_innermost(frames, rest);
    tell_part(alloc, text, macros, at, out, frames, *part)?;
    Ok(true)
}

/// Shows the replacement of a macro that is used at a piece of the text.
pub fn replace<'a>(
    alloc: Global,
    text: &'a [u8],
    macros: &'a Macros,
    at: Piece,
    out: &mut Output,
    name: &'a [u8],
    body: &'a [Lexeme],
) -> Result<(), LexFault>
    ensures { Tells result out.old out.new (inner_events text.now at (without name.now macros.now) body.now) }
{
    let mut frames = IndexMap::new(alloc);
    frames.insert(name, body)?;
    while advance(alloc, text, macros, at, out, &mut frames)? {}
    Ok(())
}

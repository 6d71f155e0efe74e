ghost use Rattle.std.specs.Prelude.{◌≡◌, List, IfOk};
ghost use Rattle.ocl_parser.specs.declared.states.StmtFrame.{StmtFrame};
ghost use Rattle.ocl_parser.specs.Moves.{stmt_next};
ghost use Rattle.ocl_parser.specs.StmtSteps.{qualified_word, qualified_step, typed_step, scalar_read, scalar_word, scalar_step, name_step, declared_end, declared_step, local_read, local_word, local_scalar, local_named};

use crate::moves::StmtMove;
use crate::names::ident;
use crate::scalars::{Scalar, scalar_elem, scalar_first, scalar_more};
use crate::stacks::{ExprFrames, StmtFrames};
use crate::states::{ExprFocus, Part, Purpose, StmtFocus};
use crate::trees::{Statement, Statements};
use ocl_ast::Ident;
use ocl_tokens::{Mark, TokenKind, Word};
use std::alloc::Global;
use vx_base::{Elem, Memory, Pos};

/// A declaration up to words of its type.
fn scalar_read(scalar: Option<Scalar>, part: Part, constant: bool) -> StmtMove
    ensures { (K : List StmtFrame) → stmt_next result K ≡ scalar_read scalar part constant K }
{
    match scalar {
        Some(scalar) => StmtMove::On(StmtFocus::ScalarRead(part, constant, scalar)),
        None => {
            drop(part);
            StmtMove::Refused
        }
    }
}

/// A word of a declaration before its type.
pub fn qualified_word(word: Word, part: Part, constant: bool) -> StmtMove
    ensures { (K : List StmtFrame) → stmt_next result K ≡ qualified_word word part constant K }
{
    match word {
        Word::Const => StmtMove::On(StmtFocus::QualifiersRead(part, true)),
        Word::Volatile => StmtMove::On(StmtFocus::QualifiersRead(part, constant)),
        _ => scalar_read(scalar_first(word), part, constant),
    }
}

/// A token of a declaration before its type.
pub fn qualified_step(kind: &TokenKind, part: Part, constant: bool) -> StmtMove
    ensures { (K : List StmtFrame) → stmt_next result K ≡ qualified_step kind.now part constant K }
{
    match kind {
        TokenKind::Word(word) => qualified_word(*word, part, constant),
        _ => {
            drop(part);
            StmtMove::Refused
        }
    }
}

/// A token behind a declaration's type.
pub fn typed_step(
    alloc: Global,
    kind: &TokenKind,
    pos: Pos,
    part: Part,
    elem: Elem,
    constant: bool,
) -> Result<StmtMove, Memory>
    ensures { IfOk result (λ next. (K : List StmtFrame) → stmt_next next K ≡ typed_step kind.now pos part elem constant K) }
{
    match kind {
        TokenKind::Name(text) => match ident(alloc, text, pos) {
            Ok(name) => Ok(StmtMove::On(StmtFocus::Declared(part, elem, constant, name))),
            Err(memory) => {
                drop(part);
                Err(memory)
            }
        },
        TokenKind::Word(Word::Const) => Ok(StmtMove::On(StmtFocus::TypeRead(part, elem, true))),
        TokenKind::Word(Word::Volatile) => {
            Ok(StmtMove::On(StmtFocus::TypeRead(part, elem, constant)))
        }
        _ => {
            drop(part);
            Ok(StmtMove::Refused)
        }
    }
}

/// A word behind words of a declaration's type.
fn scalar_word(word: Word, part: Part, constant: bool, scalar: Scalar) -> StmtMove
    ensures { (K : List StmtFrame) → stmt_next result K ≡ scalar_word word part constant scalar K }
{
    match word {
        Word::Const => StmtMove::On(StmtFocus::TypeRead(part, scalar_elem(scalar), true)),
        Word::Volatile => StmtMove::On(StmtFocus::TypeRead(part, scalar_elem(scalar), constant)),
        _ => scalar_read(scalar_more(scalar, word), part, constant),
    }
}

/// A token behind words of a declaration's type.
pub fn scalar_step(
    alloc: Global,
    kind: &TokenKind,
    pos: Pos,
    part: Part,
    constant: bool,
    scalar: Scalar,
) -> Result<StmtMove, Memory>
    ensures { IfOk result (λ next. (K : List StmtFrame) → stmt_next next K ≡ scalar_step kind.now pos part constant scalar K) }
{
    match kind {
        TokenKind::Name(text) => match ident(alloc, text, pos) {
            Ok(name) => {
                let elem = scalar_elem(scalar);
                Ok(StmtMove::On(StmtFocus::Declared(part, elem, constant, name)))
            }
            Err(memory) => {
                drop(part);
                Err(memory)
            }
        },
        TokenKind::Word(word) => Ok(scalar_word(*word, part, constant, scalar)),
        _ => {
            drop(part);
            Ok(StmtMove::Refused)
        }
    }
}

/// A further name of a declaration.
pub fn name_step(
    alloc: Global,
    kind: &TokenKind,
    pos: Pos,
    part: Part,
    elem: Elem,
    constant: bool,
) -> Result<StmtMove, Memory>
    ensures { IfOk result (λ next. (K : List StmtFrame) → stmt_next next K ≡ name_step kind.now pos part elem constant K) }
{
    match kind {
        TokenKind::Name(text) => match ident(alloc, text, pos) {
            Ok(name) => Ok(StmtMove::On(StmtFocus::Declared(part, elem, constant, name))),
            Err(memory) => {
                drop(part);
                Err(memory)
            }
        },
        _ => {
            drop(part);
            Ok(StmtMove::Refused)
        }
    }
}

/// A `;` or `,` behind a name of a declaration with its first value or none.
#[tactic(auto, using(crate::proofs::StartLaws::never_declared))]
pub fn declared_end(
    kind: &TokenKind,
    part: Part,
    elem: Elem,
    constant: bool,
    statement: Statement,
    frames: &mut StmtFrames,
) -> Result<StmtMove, Memory>
    ensures { IfOk result (λ next. stmt_next next frames.new ≡ declared_end kind.now part elem constant statement frames.old) }
{
    match part {
        Part::InBlock => declared_item(kind, elem, constant, statement, frames),
        Part::InFirst(done) => {
            let moved = declared_first(kind, done, elem, constant, statement)?;
            Ok(moved)
        }
        Part::InStep(..) => {
            drop(part);
            drop(statement);
            Ok(StmtMove::Refused)
        }
    }
}

/// The same in a block.
fn declared_item(
    kind: &TokenKind,
    elem: Elem,
    constant: bool,
    statement: Statement,
    frames: &mut StmtFrames,
) -> Result<StmtMove, Memory>
    ensures { IfOk result (λ next. stmt_next next frames.new ≡ declared_end kind.now Part.InBlock elem constant statement frames.old) }
{
    match kind {
        TokenKind::Mark(Mark::Semicolon) => {
            frames.push_item(statement)?;
            Ok(StmtMove::On(StmtFocus::ItemStart))
        }
        TokenKind::Mark(Mark::Comma) => {
            frames.push_item(statement)?;
            Ok(StmtMove::On(StmtFocus::NameNext(Part::InBlock, elem, constant)))
        }
        _ => {
            drop(statement);
            Ok(StmtMove::Refused)
        }
    }
}

/// The same in the first part of a `for`.
fn declared_first(
    kind: &TokenKind,
    done: Statements,
    elem: Elem,
    constant: bool,
    statement: Statement,
) -> Result<StmtMove, Memory>
    ensures { IfOk result (λ next. (K : List StmtFrame) → stmt_next next K ≡ declared_end kind.now (Part.InFirst done) elem constant statement K) }
{
    let mut done = done;
    if let Err(memory) = done.push(statement) {
        drop(done);
        return Err(memory);
    }
    match kind {
        TokenKind::Mark(Mark::Semicolon) => Ok(StmtMove::On(StmtFocus::TestStart(done))),
        TokenKind::Mark(Mark::Comma) => {
            let part = Part::InFirst(done);
            Ok(StmtMove::On(StmtFocus::NameNext(part, elem, constant)))
        }
        _ => {
            drop(done);
            Ok(StmtMove::Refused)
        }
    }
}

/// A token behind a name of a declaration.
pub fn declared_step(
    alloc: Global,
    kind: &TokenKind,
    part: Part,
    elem: Elem,
    constant: bool,
    name: Ident,
    frames: &mut StmtFrames,
) -> Result<StmtMove, Memory>
    ensures { IfOk result (λ next. stmt_next next frames.new ≡ declared_step kind.now part elem constant name frames.old) }
{
    if let TokenKind::Mark(Mark::Equal) = kind {
        let purpose = Purpose::InitOf(part, elem, constant, name);
        let inner = ExprFrames::new(alloc);
        return Ok(StmtMove::On(StmtFocus::Reading(purpose, ExprFocus::Operand, inner)));
    }
    let statement = Statement::declare(elem, constant, name, None);
    declared_end(kind, part, elem, constant, statement, frames)
}

/// A local array up to words of its type.
fn local_read(scalar: Option<Scalar>) -> StmtMove
    ensures { (K : List StmtFrame) → stmt_next result K ≡ local_read scalar K }
{
    match scalar {
        Some(scalar) => StmtMove::On(StmtFocus::LocalScalar(scalar)),
        None => StmtMove::Refused,
    }
}

/// The first word of a local array's type.
pub fn local_word(kind: &TokenKind) -> StmtMove
    ensures { (K : List StmtFrame) → stmt_next result K ≡ local_word kind.now K }
{
    match kind {
        TokenKind::Word(word) => local_read(scalar_first(*word)),
        _ => StmtMove::Refused,
    }
}

/// A token behind words of a local array's type.
pub fn local_scalar(
    alloc: Global,
    kind: &TokenKind,
    pos: Pos,
    scalar: Scalar,
) -> Result<StmtMove, Memory>
    ensures { IfOk result (λ next. (K : List StmtFrame) → stmt_next next K ≡ local_scalar kind.now pos scalar K) }
{
    match kind {
        TokenKind::Name(text) => {
            let name = ident(alloc, text, pos)?;
            Ok(StmtMove::On(StmtFocus::LocalNamed(scalar_elem(scalar), name)))
        }
        TokenKind::Word(word) => Ok(local_read(scalar_more(scalar, *word))),
        _ => Ok(StmtMove::Refused),
    }
}

/// The `[` behind a local array's name.
pub fn local_named(alloc: Global, kind: &TokenKind, elem: Elem, name: Ident) -> StmtMove
    ensures { (K : List StmtFrame) → stmt_next result K ≡ local_named kind.now elem name K }
{
    match kind {
        TokenKind::Mark(Mark::OpenBracket) => {
            let purpose = Purpose::CountOf(elem, name);
            let inner = ExprFrames::new(alloc);
            StmtMove::On(StmtFocus::Reading(purpose, ExprFocus::Operand, inner))
        }
        _ => StmtMove::Refused,
    }
}

ghost use Rattle.std.specs.Prelude.{◌≡◌, List, IfOk};
ghost use Rattle.ocl_parser.specs.declared.states.StmtFrame.{StmtFrame};
ghost use Rattle.ocl_parser.specs.Moves.{stmt_next};
ghost use Rattle.ocl_parser.specs.StmtSteps.{assign_end, assign_start, counted_start, set_target, target_mark, target_step, call_start, assign_named, counted_before, counted_named};

use crate::moves::StmtMove;
use crate::names::ident;
use crate::operators::{count_of, set_of};
use crate::stacks::{ExprFrames, StmtFrames};
use crate::states::{ExprFocus, Part, Purpose, StmtFocus, StmtFrame};
use crate::trees::{Destination, Statement, Statements, Tree};
use ocl_ast::{AssignOp, Ident};
use ocl_tokens::{Mark, TokenKind};
use std::alloc::Global;
use vx_base::{Memory, Pos};

/// The token behind an assignment.
pub fn assign_end(
    kind: &TokenKind,
    part: Part,
    statement: Statement,
    frames: &mut StmtFrames,
) -> Result<StmtMove, Memory>
    ensures { IfOk result (λ next. stmt_next next frames.new ≡ assign_end kind.now part statement frames.old) }
{
    match part {
        Part::InBlock => match kind {
            TokenKind::Mark(Mark::Semicolon) => Ok(StmtMove::On(StmtFocus::Finished(statement))),
            _ => {
                drop(statement);
                Ok(StmtMove::Refused)
            }
        },
        Part::InFirst(done) => assign_end_first(kind, done, statement),
        Part::InStep(first, test, done) => {
            assign_end_step(kind, first, test, done, statement, frames)
        }
    }
}

/// The same in the first part of a `for`.
fn assign_end_first(
    kind: &TokenKind,
    done: Statements,
    statement: Statement,
) -> Result<StmtMove, Memory>
    ensures { IfOk result (λ next. (K : List StmtFrame) → stmt_next next K ≡ assign_end kind.now (Part.InFirst done) statement K) }
{
    let mut done = done;
    if let Err(memory) = done.push(statement) {
        drop(done);
        return Err(memory);
    }
    match kind {
        TokenKind::Mark(Mark::Semicolon) => Ok(StmtMove::On(StmtFocus::TestStart(done))),
        TokenKind::Mark(Mark::Comma) => {
            Ok(StmtMove::On(StmtFocus::AssignNext(Part::InFirst(done))))
        }
        _ => {
            drop(done);
            Ok(StmtMove::Refused)
        }
    }
}

/// The same in the last part of a `for`.
fn assign_end_step(
    kind: &TokenKind,
    first: Statements,
    test: Option<Tree>,
    done: Statements,
    statement: Statement,
    frames: &mut StmtFrames,
) -> Result<StmtMove, Memory>
    ensures { IfOk result (λ next. stmt_next next frames.new ≡ assign_end kind.now (Part.InStep first test done) statement frames.old) }
{
    let mut done = done;
    if let Err(memory) = done.push(statement) {
        drop(first);
        drop(test);
        drop(done);
        return Err(memory);
    }
    match kind {
        TokenKind::Mark(Mark::CloseParen) => {
            frames.push(StmtFrame::For(first, test, done))?;
            Ok(StmtMove::On(StmtFocus::BodyStart))
        }
        TokenKind::Mark(Mark::Comma) => {
            let part = Part::InStep(first, test, done);
            Ok(StmtMove::On(StmtFocus::AssignNext(part)))
        }
        _ => {
            drop(first);
            drop(test);
            drop(done);
            Ok(StmtMove::Refused)
        }
    }
}

/// An assignment up to `++` or `--` before its target.
pub fn counted_start(op: Option<AssignOp>, pos: Pos, part: Part) -> StmtMove
    ensures { (K : List StmtFrame) → stmt_next result K ≡ counted_start op pos part K }
{
    match op {
        Some(op) => StmtMove::On(StmtFocus::CountedBefore(part, op, pos)),
        None => {
            drop(part);
            StmtMove::Refused
        }
    }
}

/// The first token of an assignment.
pub fn assign_start(
    alloc: Global,
    kind: &TokenKind,
    pos: Pos,
    part: Part,
) -> Result<StmtMove, Memory>
    ensures { IfOk result (λ next. (K : List StmtFrame) → stmt_next next K ≡ assign_start kind.now pos part K) }
{
    match kind {
        TokenKind::Name(text) => match ident(alloc, text, pos) {
            Ok(name) => Ok(StmtMove::On(StmtFocus::AssignNamed(part, name))),
            Err(memory) => {
                drop(part);
                Err(memory)
            }
        },
        TokenKind::Mark(mark) => Ok(counted_start(count_of(*mark), pos, part)),
        _ => {
            drop(part);
            Ok(StmtMove::Refused)
        }
    }
}

/// An assignment up to its operator.
fn set_target(
    alloc: Global,
    op: Option<AssignOp>,
    pos: Pos,
    part: Part,
    target: Destination,
) -> StmtMove
    ensures { (K : List StmtFrame) → stmt_next result K ≡ set_target op pos part target K }
{
    match op {
        Some(op) => {
            let purpose = Purpose::ValueOf(part, target, op, pos);
            let inner = ExprFrames::new(alloc);
            StmtMove::On(StmtFocus::Reading(purpose, ExprFocus::Operand, inner))
        }
        None => {
            drop(part);
            drop(target);
            StmtMove::Refused
        }
    }
}

/// A punctuator behind a target.
fn target_mark(
    alloc: Global,
    op: Option<AssignOp>,
    mark: Mark,
    pos: Pos,
    part: Part,
    target: Destination,
) -> StmtMove
    ensures { (K : List StmtFrame) → stmt_next result K ≡ target_mark op mark pos part target K }
{
    match op {
        Some(op) => {
            let statement = Statement::assign(target, op, None, pos);
            StmtMove::On(StmtFocus::Assigned(part, statement))
        }
        None => set_target(alloc, set_of(mark), pos, part, target),
    }
}

/// A token behind a target.
pub fn target_step(
    alloc: Global,
    kind: &TokenKind,
    pos: Pos,
    part: Part,
    target: Destination,
) -> StmtMove
    ensures { (K : List StmtFrame) → stmt_next result K ≡ target_step kind.now pos part target K }
{
    match kind {
        TokenKind::Mark(mark) => target_mark(alloc, count_of(*mark), *mark, pos, part, target),
        _ => {
            drop(part);
            drop(target);
            StmtMove::Refused
        }
    }
}

/// A call up to its `(`, where a call may stand.
fn call_start(part: Part, name: Ident) -> StmtMove
    ensures { (K : List StmtFrame) → stmt_next result K ≡ call_start part name K }
{
    match part {
        Part::InBlock => StmtMove::On(StmtFocus::CallOpen(name)),
        Part::InFirst(_) | Part::InStep(..) => {
            drop(part);
            drop(name);
            StmtMove::Refused
        }
    }
}

/// A token behind a name, where an assignment must stand or a call may.
pub fn assign_named(alloc: Global, kind: &TokenKind, pos: Pos, part: Part, name: Ident) -> StmtMove
    ensures { (K : List StmtFrame) → stmt_next result K ≡ assign_named kind.now pos part name K }
{
    match kind {
        TokenKind::Mark(Mark::OpenBracket) => {
            let purpose = Purpose::IndexOf(part, name, pos);
            let inner = ExprFrames::new(alloc);
            StmtMove::On(StmtFocus::Reading(purpose, ExprFocus::Operand, inner))
        }
        TokenKind::Mark(Mark::OpenParen) => call_start(part, name),
        _ => target_step(alloc, kind, pos, part, Destination::name(name)),
    }
}

/// The name behind `++` or `--`.
pub fn counted_before(
    alloc: Global,
    kind: &TokenKind,
    pos: Pos,
    part: Part,
    op: AssignOp,
    at: Pos,
) -> Result<StmtMove, Memory>
    ensures { IfOk result (λ next. (K : List StmtFrame) → stmt_next next K ≡ counted_before kind.now pos part op at K) }
{
    match kind {
        TokenKind::Name(text) => match ident(alloc, text, pos) {
            Ok(name) => Ok(StmtMove::On(StmtFocus::CountedNamed(part, op, at, name))),
            Err(memory) => {
                drop(part);
                Err(memory)
            }
        },
        _ => {
            drop(part);
            Ok(StmtMove::Refused)
        }
    }
}

/// A token behind `++` or `--` and a name.
pub fn counted_named(
    alloc: Global,
    kind: &TokenKind,
    pos: Pos,
    part: Part,
    op: AssignOp,
    at: Pos,
    name: Ident,
    frames: &mut StmtFrames,
) -> Result<StmtMove, Memory>
    ensures { IfOk result (λ next. stmt_next next frames.new ≡ counted_named kind.now pos part op at name frames.old) }
{
    if let TokenKind::Mark(Mark::OpenBracket) = kind {
        let purpose = Purpose::CountedIndexOf(part, op, at, name, pos);
        let inner = ExprFrames::new(alloc);
        return Ok(StmtMove::On(StmtFocus::Reading(purpose, ExprFocus::Operand, inner)));
    }
    let statement = Statement::assign(Destination::name(name), op, None, at);
    assign_end(kind, part, statement, frames)
}

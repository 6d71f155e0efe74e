ghost use Rattle.std.specs.Prelude.{◌≡◌, List, IfOk};
ghost use Rattle.ocl_parser.specs.declared.states.StmtFrame.{StmtFrame};
ghost use Rattle.ocl_parser.specs.Moves.{stmt_next};
ghost use Rattle.ocl_parser.specs.StmtSteps.{begun, begin_step, call_open, barrier_open, barrier_number, open_step, ending_step, first_start, test_start, step_start, returning_step};
ghost use Rattle.ocl_parser.specs.Starts.{is_closing, is_semicolon, first_part};

use crate::assigns::assign_start;
use crate::declares::qualified_word;
use crate::expr_steps::operand_step;
use crate::moves::{ExprMove, StmtMove};
use crate::stacks::{ExprFrames, StmtFrames};
use crate::states::{Part, Purpose, StmtFocus, StmtFrame};
use crate::trees::{Args, Statement, Statements, Tree};
use ocl_ast::Ident;
use ocl_tokens::{Mark, TokenKind};
use std::alloc::Global;
use vx_base::{Memory, Pos};

/// The first token of an expression.
fn begin_step(
    alloc: Global,
    kind: &TokenKind,
    pos: Pos,
    purpose: Purpose,
) -> Result<StmtMove, Memory>
    ensures { IfOk result (λ moved. (K : List StmtFrame) → stmt_next moved K ≡ begin_step kind.now pos purpose K) }
{
    let mut inner = ExprFrames::new(alloc);
    match operand_step(alloc, kind, pos, &mut inner) {
        Ok(ExprMove::On(focus)) => Ok(StmtMove::On(StmtFocus::Reading(purpose, focus, inner))),
        Ok(ExprMove::Ended(tree)) => {
            drop(tree);
            drop(purpose);
            drop(inner);
            Ok(StmtMove::Refused)
        }
        Ok(ExprMove::Refused) => {
            drop(purpose);
            drop(inner);
            Ok(StmtMove::Refused)
        }
        Err(memory) => {
            drop(purpose);
            drop(inner);
            Err(memory)
        }
    }
}

/// A token behind a name and `(`, where a statement stands.
#[tactic(auto, using(crate::proofs::StartLaws::call_closed, crate::proofs::StartLaws::call_goes))]
pub fn call_open(alloc: Global, kind: &TokenKind, pos: Pos, name: Ident) -> Result<StmtMove, Memory>
    ensures { IfOk result (λ moved. (K : List StmtFrame) → stmt_next moved K ≡ call_open kind.now pos name K) }
{
    if is_closing(kind) {
        let call = Statement::call(name, Args::new(alloc));
        Ok(StmtMove::On(StmtFocus::Ending(call)))
    } else {
        let moved = begin_step(alloc, kind, pos, Purpose::ArgsOf(name, Args::new(alloc)))?;
        Ok(moved)
    }
}

/// Whether a token is `)`.
fn is_closing(kind: &TokenKind) -> bool
    ensures { result ≡ is_closing kind.now }
{
    match kind {
        TokenKind::Mark(Mark::CloseParen) => true,
        _ => false,
    }
}

/// Whether a token is `;`.
fn is_semicolon(kind: &TokenKind) -> bool
    ensures { result ≡ is_semicolon kind.now }
{
    match kind {
        TokenKind::Mark(Mark::Semicolon) => true,
        _ => false,
    }
}

/// A number of a barrier.
pub fn barrier_open(kind: &TokenKind, at: Pos) -> StmtMove
    ensures { (K : List StmtFrame) → stmt_next result K ≡ barrier_open kind.now at K }
{
    match kind {
        TokenKind::Number { .. } => StmtMove::On(StmtFocus::BarrierNumber(at)),
        _ => StmtMove::Refused,
    }
}

/// A token behind a number of a barrier.
pub fn barrier_number(kind: &TokenKind, at: Pos) -> StmtMove
    ensures { (K : List StmtFrame) → stmt_next result K ≡ barrier_number kind.now at K }
{
    match kind {
        TokenKind::Mark(Mark::Bar) => StmtMove::On(StmtFocus::BarrierOpen(at)),
        TokenKind::Mark(Mark::CloseParen) => {
            StmtMove::On(StmtFocus::Ending(Statement::barrier(at)))
        }
        _ => StmtMove::Refused,
    }
}

/// A `(`, and then this.
pub fn open_step(kind: &TokenKind, next: StmtFocus) -> StmtMove
    ensures { (K : List StmtFrame) → stmt_next result K ≡ open_step kind.now next K }
{
    match kind {
        TokenKind::Mark(Mark::OpenParen) => StmtMove::On(next),
        _ => {
            drop(next);
            StmtMove::Refused
        }
    }
}

/// The `;` of a statement.
pub fn ending_step(kind: &TokenKind, statement: Statement) -> StmtMove
    ensures { (K : List StmtFrame) → stmt_next result K ≡ ending_step kind.now statement K }
{
    match kind {
        TokenKind::Mark(Mark::Semicolon) => StmtMove::On(StmtFocus::Finished(statement)),
        _ => {
            drop(statement);
            StmtMove::Refused
        }
    }
}

/// The first token of a `for`'s first part, or its `;`.
#[tactic(auto, using(crate::proofs::StartLaws::first_empty, crate::proofs::StartLaws::first_goes))]
pub fn first_start(alloc: Global, kind: &TokenKind, pos: Pos) -> Result<StmtMove, Memory>
    ensures { IfOk result (λ moved. (K : List StmtFrame) → stmt_next moved K ≡ first_start kind.now pos K) }
{
    let none = Statements::new(alloc);
    if is_semicolon(kind) {
        Ok(StmtMove::On(StmtFocus::TestStart(none)))
    } else {
        let moved = first_part(alloc, kind, pos, Part::InFirst(none))?;
        Ok(moved)
    }
}

/// The first token of a declaration or an assignment.
#[tactic(auto, using(crate::proofs::StartLaws::not_word))]
fn first_part(alloc: Global, kind: &TokenKind, pos: Pos, part: Part) -> Result<StmtMove, Memory>
    ensures { IfOk result (λ moved. (K : List StmtFrame) → stmt_next moved K ≡ first_part kind.now pos part K) }
{
    match kind {
        TokenKind::Word(word) => Ok(qualified_word(*word, part, false)),
        _ => {
            let moved = assign_start(alloc, kind, pos, part)?;
            Ok(moved)
        }
    }
}

/// The first token of a `for`'s test, or its `;`.
#[tactic(auto, using(crate::proofs::StartLaws::test_empty, crate::proofs::StartLaws::test_goes))]
pub fn test_start(
    alloc: Global,
    kind: &TokenKind,
    pos: Pos,
    first: Statements,
) -> Result<StmtMove, Memory>
    ensures { IfOk result (λ moved. (K : List StmtFrame) → stmt_next moved K ≡ test_start kind.now pos first K) }
{
    if is_semicolon(kind) {
        Ok(StmtMove::On(StmtFocus::StepStart(first, None)))
    } else {
        let moved = begin_step(alloc, kind, pos, Purpose::ForTest(first))?;
        Ok(moved)
    }
}

/// The first token of a `for`'s last part, or its `)`.
pub fn step_start(
    alloc: Global,
    kind: &TokenKind,
    pos: Pos,
    first: Statements,
    test: Option<Tree>,
    frames: &mut StmtFrames,
) -> Result<StmtMove, Memory>
    ensures { IfOk result (λ next. stmt_next next frames.new ≡ step_start kind.now pos first test frames.old) }
{
    let none = Statements::new(alloc);
    if let TokenKind::Mark(Mark::CloseParen) = kind {
        frames.push(StmtFrame::For(first, test, none))?;
        return Ok(StmtMove::On(StmtFocus::BodyStart));
    }
    assign_start(alloc, kind, pos, Part::InStep(first, test, none))
}

/// A token behind `return`.
#[tactic(auto, using(crate::proofs::StartLaws::return_empty, crate::proofs::StartLaws::return_goes))]
pub fn returning_step(
    alloc: Global,
    kind: &TokenKind,
    pos: Pos,
    at: Pos,
) -> Result<StmtMove, Memory>
    ensures { IfOk result (λ moved. (K : List StmtFrame) → stmt_next moved K ≡ returning_step kind.now pos at K) }
{
    if is_semicolon(kind) {
        let statement = Statement::return_at(None, at);
        Ok(StmtMove::On(StmtFocus::Finished(statement)))
    } else {
        let moved = begin_step(alloc, kind, pos, Purpose::ReturnOf(at))?;
        Ok(moved)
    }
}

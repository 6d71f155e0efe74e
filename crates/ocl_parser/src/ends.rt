ghost use Rattle.std.specs.Prelude.{◌≡◌, ◌∷◌, List, IfOk};
ghost use Rattle.ocl_parser.specs.declared.states.StmtFrame.{StmtFrame};
ghost use Rattle.ocl_parser.specs.Moves.{stmt_next};
ghost use Rattle.ocl_parser.specs.StmtSteps.{end_step, end_count, end_index, end_counted, end_args, close_with, end_test, reading_step};
ghost use Rattle.ocl_parser.specs.ExprSteps.{expr_step};

use crate::assigns::assign_end;
use crate::declares::declared_end;
use crate::expr_steps::expr_step;
use crate::heads::ending_step;
use crate::moves::{ExprMove, StmtMove};
use crate::stacks::{ExprFrames, StmtFrames};
use crate::states::{ExprFocus, Part, Purpose, StmtFocus, StmtFrame};
use crate::trees::{Args, Destination, Statement, Statements, Tree};
use ocl_ast::{AssignOp, Ident};
use ocl_tokens::{Mark, TokenKind};
use std::alloc::Global;
use vx_base::{Elem, Memory, Pos};

/// Goes through one token of an expression of a statement.
pub fn reading_step(
    alloc: Global,
    kind: &TokenKind,
    pos: Pos,
    purpose: Purpose,
    focus: ExprFocus,
    inner: ExprFrames,
    frames: &mut StmtFrames,
) -> Result<StmtMove, Memory>
    ensures { IfOk result (λ next. stmt_next next frames.new ≡ reading_step kind.now purpose (expr_step kind.now pos focus inner) frames.old) }
{
    let mut inner = inner;
    match expr_step(alloc, kind, pos, focus, &mut inner) {
        Ok(ExprMove::On(focus)) => Ok(StmtMove::On(StmtFocus::Reading(purpose, focus, inner))),
        Ok(ExprMove::Ended(tree)) => {
            drop(inner);
            end_step(alloc, kind, purpose, tree, frames)
        }
        Ok(ExprMove::Refused) => {
            drop(purpose);
            drop(inner);
            Ok(StmtMove::Refused)
        }
        Err(memory) => {
            drop(purpose);
            drop(inner);
            Err(memory)
        }
    }
}

/// The token behind a whole expression of a statement.
fn end_step(
    alloc: Global,
    kind: &TokenKind,
    purpose: Purpose,
    tree: Tree,
    frames: &mut StmtFrames,
) -> Result<StmtMove, Memory>
    ensures { IfOk result (λ next. stmt_next next frames.new ≡ end_step kind.now purpose tree frames.old) }
{
    match purpose {
        Purpose::InitOf(part, elem, constant, name) => {
            let statement = Statement::declare(elem, constant, name, Some(tree));
            declared_end(kind, part, elem, constant, statement, frames)
        }
        Purpose::CountOf(elem, name) => Ok(end_count(kind, elem, name, tree)),
        Purpose::IndexOf(part, name, at) => Ok(end_index(kind, part, name, at, tree)),
        Purpose::CountedIndexOf(part, op, pos, name, at) => {
            Ok(end_counted(kind, part, op, pos, name, at, tree))
        }
        Purpose::ValueOf(part, target, op, pos) => {
            let statement = Statement::assign(target, op, Some(tree), pos);
            assign_end(kind, part, statement, frames)
        }
        Purpose::ArgsOf(name, args) => end_args(alloc, kind, name, args, tree),
        Purpose::IfTest => close_into(kind, StmtFrame::Then(tree), frames),
        Purpose::WhileTest => close_into(kind, StmtFrame::While(tree), frames),
        Purpose::DoTest(body) => {
            let statement = Statement::do_loop(alloc, body, tree)?;
            Ok(close_with(kind, StmtFocus::Ending(statement)))
        }
        Purpose::ForTest(first) => Ok(end_test(kind, first, tree)),
        Purpose::ReturnOf(at) => Ok(ending_step(kind, Statement::return_at(Some(tree), at))),
    }
}

/// The `)` behind a test, and then a statement in this frame.
fn close_into(
    kind: &TokenKind,
    frame: StmtFrame,
    frames: &mut StmtFrames,
) -> Result<StmtMove, Memory>
    ensures { IfOk result (λ next. stmt_next next frames.new ≡ close_with kind.now StmtFocus.BodyStart (frame ∷ frames.old)) }
{
    match kind {
        TokenKind::Mark(Mark::CloseParen) => {
            frames.push(frame)?;
            Ok(StmtMove::On(StmtFocus::BodyStart))
        }
        _ => {
            drop(frame);
            Ok(StmtMove::Refused)
        }
    }
}

/// A `)`, and then this.
fn close_with(kind: &TokenKind, next: StmtFocus) -> StmtMove
    ensures { (K : List StmtFrame) → stmt_next result K ≡ close_with kind.now next K }
{
    match kind {
        TokenKind::Mark(Mark::CloseParen) => StmtMove::On(next),
        _ => {
            drop(next);
            StmtMove::Refused
        }
    }
}

/// The `]` behind the count of a local array.
fn end_count(kind: &TokenKind, elem: Elem, name: Ident, count: Tree) -> StmtMove
    ensures { (K : List StmtFrame) → stmt_next result K ≡ end_count kind.now elem name count K }
{
    match kind {
        TokenKind::Mark(Mark::CloseBracket) => {
            StmtMove::On(StmtFocus::Ending(Statement::local_array(elem, name, count)))
        }
        _ => {
            drop(name);
            drop(count);
            StmtMove::Refused
        }
    }
}

/// The `]` behind the index of a target.
fn end_index(kind: &TokenKind, part: Part, name: Ident, at: Pos, place: Tree) -> StmtMove
    ensures { (K : List StmtFrame) → stmt_next result K ≡ end_index kind.now part name at place K }
{
    match kind {
        TokenKind::Mark(Mark::CloseBracket) => {
            let target = Destination::index(name, place, at);
            StmtMove::On(StmtFocus::Targeted(part, target))
        }
        _ => {
            drop(part);
            drop(name);
            drop(place);
            StmtMove::Refused
        }
    }
}

/// The `]` behind the index of a target with `++` or `--` before it.
fn end_counted(
    kind: &TokenKind,
    part: Part,
    op: AssignOp,
    pos: Pos,
    name: Ident,
    at: Pos,
    place: Tree,
) -> StmtMove
    ensures { (K : List StmtFrame) → stmt_next result K ≡ end_counted kind.now part op pos name at place K }
{
    match kind {
        TokenKind::Mark(Mark::CloseBracket) => {
            let target = Destination::index(name, place, at);
            let statement = Statement::assign(target, op, None, pos);
            StmtMove::On(StmtFocus::Assigned(part, statement))
        }
        _ => {
            drop(part);
            drop(name);
            drop(place);
            StmtMove::Refused
        }
    }
}

/// A `,` or `)` behind an argument of a call that is a statement.
fn end_args(
    alloc: Global,
    kind: &TokenKind,
    name: Ident,
    args: Args,
    arg: Tree,
) -> Result<StmtMove, Memory>
    ensures { IfOk result (λ next. (K : List StmtFrame) → stmt_next next K ≡ end_args kind.now name args arg K) }
{
    let mut args = args;
    if let Err(memory) = args.push(arg) {
        drop(name);
        drop(args);
        return Err(memory);
    }
    match kind {
        TokenKind::Mark(Mark::Comma) => {
            let purpose = Purpose::ArgsOf(name, args);
            let inner = ExprFrames::new(alloc);
            Ok(StmtMove::On(StmtFocus::Reading(purpose, ExprFocus::Operand, inner)))
        }
        TokenKind::Mark(Mark::CloseParen) => {
            Ok(StmtMove::On(StmtFocus::Ending(Statement::call(name, args))))
        }
        _ => {
            drop(name);
            drop(args);
            Ok(StmtMove::Refused)
        }
    }
}

/// The `;` behind the test of a `for`.
fn end_test(kind: &TokenKind, first: Statements, test: Tree) -> StmtMove
    ensures { (K : List StmtFrame) → stmt_next result K ≡ end_test kind.now first test K }
{
    match kind {
        TokenKind::Mark(Mark::Semicolon) => StmtMove::On(StmtFocus::StepStart(first, Some(test))),
        _ => {
            drop(first);
            drop(test);
            StmtMove::Refused
        }
    }
}

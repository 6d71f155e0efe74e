ghost use Rattle.std.specs.Prelude.{◌≡◌, ◌∷◌, List, IfOk};
ghost use Rattle.ocl_parser.specs.declared.states.StmtFrame.{StmtFrame};
ghost use Rattle.ocl_parser.specs.Moves.{stmt_next};
ghost use Rattle.ocl_parser.specs.StmtSteps.{body_word, body_mark, body_step, close_block, close_items, item_scalar, item_word, item_step, finished, finished_step, placed_step, placed, completed, is_else, else_step, while_step};

use crate::assigns::counted_start;
use crate::moves::StmtMove;
use crate::names::ident;
use crate::operators::count_of;
use crate::scalars::{Scalar, scalar_first};
use crate::stacks::StmtFrames;
use crate::states::{Part, StmtFocus, StmtFrame};
use crate::trees::{Statement, Statements, Tree};
use ocl_tokens::{Mark, TokenKind, Word};
use std::alloc::Global;
use vx_base::{Memory, Pos};

/// A word at the start of a statement.
fn body_word(word: Word, pos: Pos, frames: &mut StmtFrames) -> Result<StmtMove, Memory>
    ensures { IfOk result (λ next. stmt_next next frames.new ≡ body_word word pos frames.old) }
{
    match word {
        Word::If => Ok(StmtMove::On(StmtFocus::IfWord)),
        Word::While => Ok(StmtMove::On(StmtFocus::WhileWord)),
        Word::For => Ok(StmtMove::On(StmtFocus::ForWord)),
        Word::Do => {
            frames.push(StmtFrame::Do)?;
            Ok(StmtMove::On(StmtFocus::BodyStart))
        }
        Word::Barrier => Ok(StmtMove::On(StmtFocus::BarrierWord(pos))),
        Word::Break => Ok(StmtMove::On(StmtFocus::Ending(Statement::break_at(pos)))),
        Word::Continue => Ok(StmtMove::On(StmtFocus::Ending(Statement::continue_at(pos)))),
        Word::Return => Ok(StmtMove::On(StmtFocus::Returning(pos))),
        _ => Ok(StmtMove::Refused),
    }
}

/// A punctuator at the start of a statement.
fn body_mark(
    alloc: Global,
    mark: Mark,
    pos: Pos,
    frames: &mut StmtFrames,
) -> Result<StmtMove, Memory>
    ensures { IfOk result (λ next. stmt_next next frames.new ≡ body_mark mark pos frames.old) }
{
    match mark {
        Mark::Semicolon => Ok(StmtMove::On(StmtFocus::Finished(Statement::empty()))),
        Mark::OpenBrace => {
            frames.push(StmtFrame::Block(Statements::new(alloc)))?;
            Ok(StmtMove::On(StmtFocus::ItemStart))
        }
        _ => Ok(counted_start(count_of(mark), pos, Part::InBlock)),
    }
}

/// The first token of a statement.
pub fn body_step(
    alloc: Global,
    kind: &TokenKind,
    pos: Pos,
    frames: &mut StmtFrames,
) -> Result<StmtMove, Memory>
    ensures { IfOk result (λ next. stmt_next next frames.new ≡ body_step kind.now pos frames.old) }
{
    match kind {
        TokenKind::Name(text) => {
            let name = ident(alloc, text, pos)?;
            Ok(StmtMove::On(StmtFocus::AssignNamed(Part::InBlock, name)))
        }
        TokenKind::Word(word) => body_word(*word, pos, frames),
        TokenKind::Mark(mark) => body_mark(alloc, *mark, pos, frames),
        TokenKind::Number { .. } | TokenKind::End => Ok(StmtMove::Refused),
    }
}

/// The `}` of a block.
fn close_block(frames: &mut StmtFrames) -> Result<StmtMove, Memory>
    ensures { IfOk result (λ next. stmt_next next frames.new ≡ close_block frames.old) }
{
    match frames.pop() {
        Some(frame) => Ok(close_frame(frame, frames)),
        None => Ok(StmtMove::Refused),
    }
}

/// A `}` in this frame, inside the others.
fn close_frame(frame: StmtFrame, frames: &StmtFrames) -> StmtMove
    ensures { stmt_next result frames.now ≡ close_block (frame ∷ frames.now) }
{
    match frame {
        StmtFrame::Block(items) => close_items(frames.is_empty(), items),
        _ => {
            drop(frame);
            StmtMove::Refused
        }
    }
}

/// The `}` behind the items of a block, which is a function's whole body or a statement.
fn close_items(is_whole: bool, items: Statements) -> StmtMove
    ensures { (K : List StmtFrame) → stmt_next result K ≡ close_items is_whole items K }
{
    if is_whole {
        StmtMove::Closed(items)
    } else {
        StmtMove::On(StmtFocus::Finished(Statement::block(items)))
    }
}

/// A word at the start of an item that may begin its type.
fn item_scalar(
    scalar: Option<Scalar>,
    word: Word,
    pos: Pos,
    frames: &mut StmtFrames,
) -> Result<StmtMove, Memory>
    ensures { IfOk result (λ next. stmt_next next frames.new ≡ item_scalar scalar word pos frames.old) }
{
    match scalar {
        Some(scalar) => { Ok(StmtMove::On(StmtFocus::ScalarRead(Part::InBlock, false, scalar))) }
        None => body_word(word, pos, frames),
    }
}

/// A word at the start of an item.
fn item_word(word: Word, pos: Pos, frames: &mut StmtFrames) -> Result<StmtMove, Memory>
    ensures { IfOk result (λ next. stmt_next next frames.new ≡ item_word word pos frames.old) }
{
    match word {
        Word::Const => Ok(StmtMove::On(StmtFocus::QualifiersRead(Part::InBlock, true))),
        Word::Volatile => Ok(StmtMove::On(StmtFocus::QualifiersRead(Part::InBlock, false))),
        Word::UnderscoreLocal | Word::Local => Ok(StmtMove::On(StmtFocus::LocalWord)),
        _ => item_scalar(scalar_first(word), word, pos, frames),
    }
}

/// The first token of an item of a block, or its `}`.
pub fn item_step(
    alloc: Global,
    kind: &TokenKind,
    pos: Pos,
    frames: &mut StmtFrames,
) -> Result<StmtMove, Memory>
    ensures { IfOk result (λ next. stmt_next next frames.new ≡ item_step kind.now pos frames.old) }
{
    match kind {
        TokenKind::Mark(Mark::CloseBrace) => close_block(frames),
        TokenKind::Word(word) => item_word(*word, pos, frames),
        _ => body_step(alloc, kind, pos, frames),
    }
}

/// Whether a token is `else`.
fn is_else(kind: &TokenKind) -> bool
    ensures { result ≡ is_else kind.now }
{
    match kind {
        TokenKind::Word(Word::Else) => true,
        _ => false,
    }
}

/// A token behind a whole statement.
pub fn finished_step(
    alloc: Global,
    kind: &TokenKind,
    pos: Pos,
    statement: Statement,
    frames: &mut StmtFrames,
) -> Result<StmtMove, Memory>
    ensures { IfOk result (λ next. stmt_next next frames.new ≡ finished_step kind.now pos (finished (is_else kind.now) statement frames.old)) }
{
    let whole = finish(alloc, is_else(kind), statement, frames)?;
    placed_step(alloc, kind, pos, whole, frames)
}

/// Closes the frames that a statement ends, where an `else` follows or not.
fn finish(
    alloc: Global,
    before_else: bool,
    statement: Statement,
    frames: &mut StmtFrames,
) -> Result<Statement, Memory>
    ensures { IfOk result (λ whole. placed whole frames.new ≡ finished before_else statement frames.old) }
{
    let mut statement = statement;
    while let Some(frame) = frames.pop_ended(before_else)? {
        statement = complete(alloc, frame, statement)?;
    }
    Ok(statement)
}

/// The construct with the statement in it, where nothing else closes it.
fn complete(alloc: Global, frame: StmtFrame, statement: Statement) -> Result<Statement, Memory>
    ensures { IfOk result (λ whole. whole ≡ completed frame statement) }
{
    match frame {
        StmtFrame::Then(test) => Statement::if_one(alloc, test, statement),
        StmtFrame::Else(test, one) => Statement::if_else(alloc, test, one, statement),
        StmtFrame::While(test) => Statement::while_loop(alloc, test, statement),
        StmtFrame::For(first, test, step) => {
            Statement::for_loop(alloc, first, test, step, statement)
        }
        StmtFrame::Do | StmtFrame::Block(_) => {
            drop(frame);
            Ok(statement)
        }
    }
}

/// A token behind a whole statement that the innermost frame waits for. The frames that a statement ends wait for none.
fn placed_step(
    alloc: Global,
    kind: &TokenKind,
    pos: Pos,
    statement: Statement,
    frames: &mut StmtFrames,
) -> Result<StmtMove, Memory>
    ensures { IfOk result (λ next. stmt_next next frames.new ≡ placed_step kind.now pos statement frames.old) }
{
    let innermost = frames.pop();
    match innermost {
        Some(StmtFrame::Then(test)) => else_step(is_else(kind), test, statement, frames),
        Some(StmtFrame::Do) => Ok(while_step(kind, statement)),
        Some(StmtFrame::Block(items)) => {
            let mut items = items;
            if let Err(memory) = items.push(statement) {
                drop(items);
                return Err(memory);
            }
            frames.push(StmtFrame::Block(items))?;
            item_step(alloc, kind, pos, frames)
        }
        Some(StmtFrame::Else(..)) | Some(StmtFrame::While(_)) | Some(StmtFrame::For(..)) | None => {
            drop(innermost);
            drop(statement);
            Ok(StmtMove::Refused)
        }
    }
}

/// An `else` behind the first statement of an `if`.
fn else_step(
    before_else: bool,
    test: Tree,
    one: Statement,
    frames: &mut StmtFrames,
) -> Result<StmtMove, Memory>
    ensures { IfOk result (λ next. stmt_next next frames.new ≡ else_step before_else test one frames.old) }
{
    if before_else {
        frames.push(StmtFrame::Else(test, one))?;
        Ok(StmtMove::On(StmtFocus::BodyStart))
    } else {
        drop(test);
        drop(one);
        Ok(StmtMove::Refused)
    }
}

/// The `while` behind the body of a `do`.
fn while_step(kind: &TokenKind, body: Statement) -> StmtMove
    ensures { (K : List StmtFrame) → stmt_next result K ≡ while_step kind.now body K }
{
    match kind {
        TokenKind::Word(Word::While) => StmtMove::On(StmtFocus::DoWhile(body)),
        _ => {
            drop(body);
            StmtMove::Refused
        }
    }
}

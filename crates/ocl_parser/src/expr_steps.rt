ghost use Rattle.std.specs.Prelude.{◌≡◌, List, IfOk};
ghost use Rattle.ocl_parser.specs.declared.states.ExprFrame.{ExprFrame};
ghost use Rattle.ocl_parser.specs.ExprSteps.{expr_step, operand_step, operand_mark, named_step, opened_step, opened_word, casting_step, calling_step, done_step, done_mark, close_standing, close_step, close_test, close_index, close_args, close_paren, closed_by, standing, settled, infix_level};
ghost use Rattle.ocl_parser.specs.Moves.{expr_next};

use crate::moves::ExprMove;
use crate::names::ident;
use crate::operators::{Infix, infix_level, infix_of, unary_of};
use crate::scalars::{Scalar, scalar_elem, scalar_first, scalar_more};
use crate::stacks::ExprFrames;
use crate::states::{ExprFocus, ExprFrame};
use crate::trees::{Args, Tree};
use ocl_ast::Ident;
use ocl_tokens::{Mark, TokenKind};
use std::alloc::Global;
use vx_base::{Memory, Pos};

/// Goes through one token of an expression.
pub fn expr_step(
    alloc: Global,
    kind: &TokenKind,
    pos: Pos,
    focus: ExprFocus,
    frames: &mut ExprFrames,
) -> Result<ExprMove, Memory>
    ensures { IfOk result (λ next. expr_next next frames.new ≡ expr_step kind.now pos focus frames.old) }
{
    match focus {
        ExprFocus::Operand => operand_step(alloc, kind, pos, frames),
        ExprFocus::Named(name) => named_step(alloc, kind, pos, name, frames),
        ExprFocus::Opened(at) => opened_step(alloc, kind, pos, at, frames),
        ExprFocus::Casting(scalar, at) => casting_step(kind, scalar, at, frames),
        ExprFocus::Calling(name) => calling_step(alloc, kind, pos, name, frames),
        ExprFocus::Done(tree) => done_step(alloc, kind, pos, tree, frames),
    }
}

/// The first token of an operand.
pub fn operand_step(
    alloc: Global,
    kind: &TokenKind,
    pos: Pos,
    frames: &mut ExprFrames,
) -> Result<ExprMove, Memory>
    ensures { IfOk result (λ next. expr_next next frames.new ≡ operand_step kind.now pos frames.old) }
{
    match kind {
        TokenKind::Number { value, unsigned } => {
            let number = Tree::number(*value, *unsigned, pos);
            Ok(ExprMove::On(ExprFocus::Done(number)))
        }
        TokenKind::Name(text) => {
            let name = ident(alloc, text, pos)?;
            Ok(ExprMove::On(ExprFocus::Named(name)))
        }
        TokenKind::Mark(mark) => operand_mark(*mark, pos, frames),
        TokenKind::Word(_) | TokenKind::End => Ok(ExprMove::Refused),
    }
}

/// A punctuator at the start of an operand.
fn operand_mark(mark: Mark, pos: Pos, frames: &mut ExprFrames) -> Result<ExprMove, Memory>
    ensures { IfOk result (λ next. expr_next next frames.new ≡ operand_mark mark pos frames.old) }
{
    if let Mark::OpenParen = mark {
        return Ok(ExprMove::On(ExprFocus::Opened(pos)));
    }
    match unary_of(mark) {
        Some(op) => {
            frames.push(ExprFrame::Unary(op, pos))?;
            Ok(ExprMove::On(ExprFocus::Operand))
        }
        None => Ok(ExprMove::Refused),
    }
}

/// A token behind a name.
fn named_step(
    alloc: Global,
    kind: &TokenKind,
    pos: Pos,
    name: Ident,
    frames: &mut ExprFrames,
) -> Result<ExprMove, Memory>
    ensures { IfOk result (λ next. expr_next next frames.new ≡ named_step kind.now pos name frames.old) }
{
    match kind {
        TokenKind::Mark(Mark::OpenBracket) => {
            frames.push(ExprFrame::Index(name, pos))?;
            Ok(ExprMove::On(ExprFocus::Operand))
        }
        TokenKind::Mark(Mark::OpenParen) => Ok(ExprMove::On(ExprFocus::Calling(name))),
        _ => done_step(alloc, kind, pos, Tree::name(name), frames),
    }
}

/// A token behind `(`: the type of a cast begins, or an expression in parentheses.
fn opened_step(
    alloc: Global,
    kind: &TokenKind,
    pos: Pos,
    at: Pos,
    frames: &mut ExprFrames,
) -> Result<ExprMove, Memory>
    ensures { IfOk result (λ next. expr_next next frames.new ≡ opened_step kind.now pos at frames.old) }
{
    if let TokenKind::Word(word) = kind {
        return Ok(opened_word(scalar_first(*word), at));
    }
    frames.push(ExprFrame::Paren(at))?;
    operand_step(alloc, kind, pos, frames)
}

/// A cast up to words of its type.
fn opened_word(scalar: Option<Scalar>, at: Pos) -> ExprMove
    ensures { (K : List ExprFrame) → expr_next result K ≡ opened_word scalar at K }
{
    match scalar {
        Some(scalar) => ExprMove::On(ExprFocus::Casting(scalar, at)),
        None => ExprMove::Refused,
    }
}

/// A token behind words of a cast's type.
fn casting_step(
    kind: &TokenKind,
    scalar: Scalar,
    at: Pos,
    frames: &mut ExprFrames,
) -> Result<ExprMove, Memory>
    ensures { IfOk result (λ next. expr_next next frames.new ≡ casting_step kind.now scalar at frames.old) }
{
    match kind {
        TokenKind::Word(word) => Ok(opened_word(scalar_more(scalar, *word), at)),
        TokenKind::Mark(Mark::CloseParen) => {
            frames.push(ExprFrame::Cast(scalar_elem(scalar), at))?;
            Ok(ExprMove::On(ExprFocus::Operand))
        }
        _ => Ok(ExprMove::Refused),
    }
}

/// A token behind a name and `(`.
fn calling_step(
    alloc: Global,
    kind: &TokenKind,
    pos: Pos,
    name: Ident,
    frames: &mut ExprFrames,
) -> Result<ExprMove, Memory>
    ensures { IfOk result (λ next. expr_next next frames.new ≡ calling_step kind.now pos name frames.old) }
{
    if let TokenKind::Mark(Mark::CloseParen) = kind {
        let call = Tree::call(name, Args::new(alloc));
        return Ok(ExprMove::On(ExprFocus::Done(call)));
    }
    frames.push(ExprFrame::Call(name, Args::new(alloc)))?;
    operand_step(alloc, kind, pos, frames)
}

/// A token behind a whole operand.
fn done_step(
    alloc: Global,
    kind: &TokenKind,
    pos: Pos,
    tree: Tree,
    frames: &mut ExprFrames,
) -> Result<ExprMove, Memory>
    ensures { IfOk result (λ next. expr_next next frames.new ≡ done_step kind.now pos tree frames.old) }
{
    match kind {
        TokenKind::Mark(mark) => done_mark(alloc, kind, *mark, pos, tree, frames),
        _ => {
            let whole = settle(alloc, 0, tree, frames)?;
            close_step(alloc, kind, whole, frames)
        }
    }
}

/// A punctuator behind a whole operand.
fn done_mark(
    alloc: Global,
    kind: &TokenKind,
    mark: Mark,
    pos: Pos,
    tree: Tree,
    frames: &mut ExprFrames,
) -> Result<ExprMove, Memory>
    requires { kind.now ≡ TokenKind.Mark mark }
    ensures { IfOk result (λ next. expr_next next frames.new ≡ done_mark mark pos tree frames.old) }
{
    if let Mark::Question = mark {
        let test = settle(alloc, 1, tree, frames)?;
        frames.push(ExprFrame::Test(test, pos))?;
        return Ok(ExprMove::On(ExprFocus::Operand));
    }
    match infix_of(mark) {
        Some(op) => {
            let left = settle(alloc, infix_level(op), tree, frames)?;
            frames.push(ExprFrame::Between(op, left, pos))?;
            Ok(ExprMove::On(ExprFocus::Operand))
        }
        None => {
            let whole = settle(alloc, 0, tree, frames)?;
            close_step(alloc, kind, whole, frames)
        }
    }
}

/// Closes the frames that an operator of this level ends, or at 0 a token that is none.
fn settle(alloc: Global, level: u32, tree: Tree, frames: &mut ExprFrames) -> Result<Tree, Memory>
    ensures { IfOk result (λ whole. standing whole frames.new ≡ settled level tree frames.old) }
{
    let mut tree = tree;
    while let Some(frame) = frames.pop_ended(level)? {
        tree = close(alloc, frame, tree)?;
    }
    Ok(tree)
}

/// The construct with the expression in it, where nothing else closes it.
fn close(alloc: Global, frame: ExprFrame, tree: Tree) -> Result<Tree, Memory>
    ensures { IfOk result (λ whole. whole ≡ closed_by frame tree) }
{
    match frame {
        ExprFrame::Unary(op, pos) => Tree::unary(alloc, op, tree, pos),
        ExprFrame::Cast(elem, pos) => Tree::cast(alloc, elem, tree, pos),
        ExprFrame::Between(op, left, pos) => Tree::infix(alloc, op, left, tree, pos),
        ExprFrame::Other(test, one, pos) => Tree::choose(alloc, test, one, tree, pos),
        ExprFrame::Test(..) | ExprFrame::Index(..) | ExprFrame::Call(..) | ExprFrame::Paren(..) => {
            drop(frame);
            Ok(tree)
        }
    }
}

/// A token behind all of an expression that the innermost frame waits for.
fn close_step(
    alloc: Global,
    kind: &TokenKind,
    tree: Tree,
    frames: &mut ExprFrames,
) -> Result<ExprMove, Memory>
    ensures { IfOk result (λ next. expr_next next frames.new ≡ close_step kind.now tree frames.old) }
{
    let innermost = frames.pop();
    match innermost {
        None => Ok(ExprMove::Ended(tree)),
        Some(ExprFrame::Test(test, pos)) => close_test(kind, test, tree, pos, frames),
        Some(ExprFrame::Index(array, pos)) => close_index(alloc, kind, array, tree, pos),
        Some(ExprFrame::Call(name, args)) => close_args(kind, name, args, tree, frames),
        Some(ExprFrame::Paren(pos)) => close_paren(alloc, kind, tree, pos),
        Some(ExprFrame::Unary(..))
        | Some(ExprFrame::Cast(..))
        | Some(ExprFrame::Between(..))
        | Some(ExprFrame::Other(..)) => {
            drop(innermost);
            drop(tree);
            Ok(ExprMove::Refused)
        }
    }
}

/// A `:` behind what stands between it and its `?`.
fn close_test(
    kind: &TokenKind,
    test: Tree,
    one: Tree,
    pos: Pos,
    frames: &mut ExprFrames,
) -> Result<ExprMove, Memory>
    ensures { IfOk result (λ next. expr_next next frames.new ≡ close_test kind.now test one pos frames.old) }
{
    if let TokenKind::Mark(Mark::Colon) = kind {
        frames.push(ExprFrame::Other(test, one, pos))?;
        Ok(ExprMove::On(ExprFocus::Operand))
    } else {
        drop(test);
        drop(one);
        Ok(ExprMove::Refused)
    }
}

/// A `]` behind an index.
fn close_index(
    alloc: Global,
    kind: &TokenKind,
    array: Ident,
    place: Tree,
    pos: Pos,
) -> Result<ExprMove, Memory>
    ensures { IfOk result (λ next. (K : List ExprFrame) → expr_next next K ≡ close_index kind.now array place pos K) }
{
    if let TokenKind::Mark(Mark::CloseBracket) = kind {
        let element = Tree::index(alloc, array, place, pos)?;
        Ok(ExprMove::On(ExprFocus::Done(element)))
    } else {
        drop(array);
        drop(place);
        Ok(ExprMove::Refused)
    }
}

/// A `,` or `)` behind an argument.
fn close_args(
    kind: &TokenKind,
    name: Ident,
    args: Args,
    arg: Tree,
    frames: &mut ExprFrames,
) -> Result<ExprMove, Memory>
    ensures { IfOk result (λ next. expr_next next frames.new ≡ close_args kind.now name args arg frames.old) }
{
    let mut args = args;
    if let Err(memory) = args.push(arg) {
        drop(name);
        drop(args);
        return Err(memory);
    }
    match kind {
        TokenKind::Mark(Mark::Comma) => {
            frames.push(ExprFrame::Call(name, args))?;
            Ok(ExprMove::On(ExprFocus::Operand))
        }
        TokenKind::Mark(Mark::CloseParen) => {
            let call = Tree::call(name, args);
            Ok(ExprMove::On(ExprFocus::Done(call)))
        }
        _ => {
            drop(name);
            drop(args);
            Ok(ExprMove::Refused)
        }
    }
}

/// A `)` behind an expression in parentheses.
fn close_paren(alloc: Global, kind: &TokenKind, tree: Tree, pos: Pos) -> Result<ExprMove, Memory>
    ensures { IfOk result (λ next. (K : List ExprFrame) → expr_next next K ≡ close_paren kind.now tree pos K) }
{
    if let TokenKind::Mark(Mark::CloseParen) = kind {
        let inside = Tree::paren(alloc, tree, pos)?;
        Ok(ExprMove::On(ExprFocus::Done(inside)))
    } else {
        drop(tree);
        Ok(ExprMove::Refused)
    }
}

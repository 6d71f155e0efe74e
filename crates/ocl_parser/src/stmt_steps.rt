ghost use Rattle.std.specs.Prelude.{◌≡◌, [], IfOk};
ghost use Rattle.ocl_parser.specs.Moves.{stmt_next};
ghost use Rattle.ocl_parser.specs.StmtSteps.{stmt_step};

use crate::assigns::{
    assign_end, assign_named, assign_start, counted_before, counted_named, target_step,
};
use crate::declares::{
    declared_step, local_named, local_scalar, local_word, name_step, qualified_step, scalar_step,
    typed_step,
};
use crate::ends::reading_step;
use crate::heads::{
    barrier_number, barrier_open, call_open, ending_step, first_start, open_step, returning_step,
    step_start, test_start,
};
use crate::items::{body_step, finished_step, item_step};
use crate::moves::StmtMove;
use crate::stacks::{ExprFrames, StmtFrames};
use crate::states::{ExprFocus, Purpose, StmtFocus};
use ocl_tokens::TokenKind;
use std::alloc::Global;
use vx_base::{Memory, Pos};

/// Goes through one token of a function's body.
pub fn stmt_step(
    alloc: Global,
    kind: &TokenKind,
    pos: Pos,
    focus: StmtFocus,
    frames: &mut StmtFrames,
) -> Result<StmtMove, Memory>
    ensures { IfOk result (λ next. stmt_next next frames.new ≡ stmt_step kind.now pos focus frames.old) }
{
    match focus {
        StmtFocus::ItemStart => item_step(alloc, kind, pos, frames),
        StmtFocus::BodyStart => body_step(alloc, kind, pos, frames),
        StmtFocus::Finished(statement) => finished_step(alloc, kind, pos, statement, frames),
        StmtFocus::Ending(statement) => Ok(ending_step(kind, statement)),
        StmtFocus::Reading(purpose, focus, inner) => {
            reading_step(alloc, kind, pos, purpose, focus, inner, frames)
        }
        StmtFocus::IfWord => Ok(open_step(kind, reading(alloc, Purpose::IfTest))),
        StmtFocus::WhileWord => Ok(open_step(kind, reading(alloc, Purpose::WhileTest))),
        StmtFocus::ForWord => Ok(open_step(kind, StmtFocus::FirstStart)),
        StmtFocus::DoWhile(body) => Ok(open_step(kind, reading(alloc, Purpose::DoTest(body)))),
        StmtFocus::BarrierWord(at) => Ok(open_step(kind, StmtFocus::BarrierOpen(at))),
        StmtFocus::BarrierOpen(at) => Ok(barrier_open(kind, at)),
        StmtFocus::BarrierNumber(at) => Ok(barrier_number(kind, at)),
        StmtFocus::QualifiersRead(part, constant) => Ok(qualified_step(kind, part, constant)),
        StmtFocus::ScalarRead(part, constant, scalar) => {
            scalar_step(alloc, kind, pos, part, constant, scalar)
        }
        StmtFocus::TypeRead(part, elem, constant) => {
            typed_step(alloc, kind, pos, part, elem, constant)
        }
        StmtFocus::NameNext(part, elem, constant) => {
            name_step(alloc, kind, pos, part, elem, constant)
        }
        StmtFocus::Declared(part, elem, constant, name) => {
            declared_step(alloc, kind, part, elem, constant, name, frames)
        }
        StmtFocus::LocalWord => Ok(local_word(kind)),
        StmtFocus::LocalScalar(scalar) => local_scalar(alloc, kind, pos, scalar),
        StmtFocus::LocalNamed(elem, name) => Ok(local_named(alloc, kind, elem, name)),
        StmtFocus::AssignNext(part) => assign_start(alloc, kind, pos, part),
        StmtFocus::AssignNamed(part, name) => Ok(assign_named(alloc, kind, pos, part, name)),
        StmtFocus::CountedBefore(part, op, at) => counted_before(alloc, kind, pos, part, op, at),
        StmtFocus::CountedNamed(part, op, at, name) => {
            counted_named(alloc, kind, pos, part, op, at, name, frames)
        }
        StmtFocus::Targeted(part, target) => Ok(target_step(alloc, kind, pos, part, target)),
        StmtFocus::Assigned(part, statement) => assign_end(kind, part, statement, frames),
        StmtFocus::CallOpen(name) => call_open(alloc, kind, pos, name),
        StmtFocus::FirstStart => first_start(alloc, kind, pos),
        StmtFocus::TestStart(first) => test_start(alloc, kind, pos, first),
        StmtFocus::StepStart(first, test) => step_start(alloc, kind, pos, first, test, frames),
        StmtFocus::Returning(at) => returning_step(alloc, kind, pos, at),
    }
}

/// Before an expression for this purpose.
fn reading(alloc: Global, purpose: Purpose) -> StmtFocus
    ensures { result ≡ StmtFocus.Reading purpose ExprFocus.Operand [] }
{
    let inner = ExprFrames::new(alloc);
    StmtFocus::Reading(purpose, ExprFocus::Operand, inner)
}

ghost use Rattle.std.specs.Prelude.{◌≡◌, ◌+◌, ◌∷◌, [], reverse};
ghost use Rattle.ocl_parser.specs.ExprSteps.{ends};
ghost use Rattle.ocl_parser.specs.Levels.{beside, levels_around};
ghost use Rattle.ocl_parser.specs.StmtSteps.{ends_with};

use crate::operators::infix_level;
use crate::states::{ExprFrame, StmtFrame};
use crate::trees::Statement;
use std::alloc::Global;
use std::marker::Model;
use vx_base::Memory;

/// What an expression stands in.
#[derive(Debug, Drop)]
pub struct ExprFrames {
    /// The frames, the innermost last.
    items: Vec<ExprFrame>,
}

impl Model for ExprFrames {
    ghost use Rattle.std.specs.Prelude.{List, reverse};
    ghost use Rattle.std.specs.Coded.{codes};
    ghost use Rattle.ocl_parser.specs.contracts.states.ExprFrame as e;
    ghost use Rattle.ocl_parser.specs.declared.states.ExprFrame.{ExprFrame};

    ghost Value = { List ExprFrame };

    ghost coded = { Prim.hlevel (codes, e.the_row.coded) };

    ghost view = { λ f. reverse f.items.items };
}

impl ExprFrames {
    ghost use Rattle.std.specs.Prelude.{◌≡◌, ◌∷◌, [], ℕ, ◌<◌, Bool, length, slice_get, IfOk, OnOk, OnSome, MatchOption};
    ghost use Rattle.std.specs.Option.{option_copied};
    ghost use Rattle.ocl_ast.specs.Trees.{ExprTree};
    ghost use Rattle.ocl_parser.specs.ExprSteps.{ends, settled};
    ghost use Rattle.ocl_parser.specs.Moves.{settled_on};

    /// No frames.
    pub fn new(alloc: Global) -> ExprFrames
        ensures { result ≡ [] }
    {
        ExprFrames {
            items: Vec::new(alloc),
        }
    }

    /// How many frames there are.
    pub fn len(&self) -> usize
        ensures { result ≡ length self.now }
    {
        self.items.len()
    }

    /// One frame more, around the next expression.
    #[tactic(auto, using(crate::proofs::Lists::reverse_push))]
    pub fn push(&mut self, frame: ExprFrame) -> Result<(), Memory>
        ensures { OnOk result (self.new ≡ frame ∷ self.old) }
    {
        self.items.push(frame)?;
        Ok(())
    }

    /// The innermost frame, which stays.
    #[tactic(auto, using(crate::proofs::StackLaws::last_first))]
    pub fn last(&self) -> Option<&ExprFrame>
        ensures { option_copied result ≡ slice_get self.now 0 }
    {
        self.items.last()
    }

    /// The innermost frame.
    #[tactic(auto, using(crate::proofs::Lists::reverse_push))]
    pub fn pop(&mut self) -> Option<ExprFrame>
        ensures none { MatchOption result (self.new ≡ []) (λ frame. Unit {0}) }
        ensures some { MatchOption result (self.old ≡ []) (λ frame. self.old ≡ frame ∷ self.new) }
    {
        self.items.pop()
    }

    /// The innermost frame, where an operator of this level ends it.
    pub fn pop_ended(&mut self, level: u32) -> Result<Option<ExprFrame>, Memory>
        ensures settles { IfOk result (λ popped. (e : ExprTree) → settled level e self.old ≡ settled_on level popped e self.new) }
        ensures shorter { IfOk result (λ popped. OnSome popped (length self.new < length self.old)) }
    {
        match self.pop() {
            None => Ok(None),
            Some(frame) => {
                if ends(level, &frame) {
                    Ok(Some(frame))
                } else {
                    self.push(frame)?;
                    Ok(None)
                }
            }
        }
    }
}

/// Whether an operator of this level ends the construct, or at 0 a token that is none.
fn ends(level: u32, frame: &ExprFrame) -> bool
    ensures { result ≡ ends level frame.now }
{
    match frame {
        ExprFrame::Unary(..) | ExprFrame::Cast(..) => true,
        ExprFrame::Between(op, ..) => infix_level(*op) >= level,
        ExprFrame::Other(..) => level == 0,
        ExprFrame::Test(..) | ExprFrame::Index(..) | ExprFrame::Call(..) | ExprFrame::Paren(..) =>
            false,
    }
}

/// What a statement stands in.
#[derive(Debug, Drop)]
pub struct StmtFrames {
    /// The frames, the innermost last.
    items: Vec<StmtFrame>,
    /// How many levels of statements there are around the next statement.
    levels: usize,
}

impl Model for StmtFrames {
    ghost use Rattle.std.specs.Prelude.{◌≡◌, List, reverse};
    ghost use Rattle.std.specs.Coded.{codes};
    ghost use Rattle.ocl_parser.specs.contracts.states.StmtFrame as e;
    ghost use Rattle.ocl_parser.specs.declared.states.StmtFrame.{StmtFrame};
    ghost use Rattle.ocl_parser.specs.Levels.{levels_around};

    ghost Value = { List StmtFrame };

    ghost coded = { Prim.hlevel (codes, e.the_row.coded) };

    ghost view = { λ f. reverse f.items.items };

    ghost invariant = { λ f. f.levels ≡ levels_around (reverse f.items.items) };
}

impl StmtFrames {
    ghost use Rattle.std.specs.Prelude.{◌≡◌, ◌∷◌, [], ◌<◌, length, nat_eq, IfOk, OnOk, OnSome, MatchOption};
    ghost use Rattle.ocl_ast.specs.Trees.{StmtTree};
    ghost use Rattle.ocl_parser.specs.Levels.{levels_around};
    ghost use Rattle.ocl_parser.specs.StmtSteps.{finished, and_item};
    ghost use Rattle.ocl_parser.specs.Moves.{finished_on};

    /// No frames.
    pub fn new(alloc: Global) -> StmtFrames
        ensures { result ≡ [] }
    {
        StmtFrames {
            items: Vec::new(alloc),
            levels: 0,
        }
    }

    /// Whether there are none.
    pub fn is_empty(&self) -> bool
        ensures { result ≡ nat_eq (length self.now) 0 }
    {
        self.items.len() == 0
    }

    /// How many levels of statements there are around the next statement.
    pub fn levels(&self) -> usize
        ensures { result ≡ levels_around self.now }
    {
        self.levels
    }

    /// One frame more, around the next statement.
    #[tactic(auto, using(crate::proofs::Lists::reverse_push, crate::proofs::StackLaws::levels_fit))]
    pub fn push(&mut self, frame: StmtFrame) -> Result<(), Memory>
        ensures { OnOk result (self.new ≡ frame ∷ self.old) }
    {
        let more = levels_of(&frame, &self.items);
        self.items.push(frame)?;
        self.levels += more;
        Ok(())
    }

    /// The innermost frame.
    #[tactic(auto, using(crate::proofs::Lists::reverse_push))]
    pub fn pop(&mut self) -> Option<StmtFrame>
        ensures none { MatchOption result (self.new ≡ []) (λ frame. Unit {0}) }
        ensures some { MatchOption result (self.old ≡ []) (λ frame. self.old ≡ frame ∷ self.new) }
    {
        match self.items.pop() {
            Some(frame) => {
                self.levels -= levels_of(&frame, &self.items);
                Some(frame)
            }
            None => None,
        }
    }

    /// The innermost frame, where the end of a statement in it ends it.
    pub fn pop_ended(&mut self, before_else: bool) -> Result<Option<StmtFrame>, Memory>
        ensures finishes { IfOk result (λ popped. (s : StmtTree) → finished before_else s self.old ≡ finished_on before_else popped s self.new) }
        ensures shorter { IfOk result (λ popped. OnSome popped (length self.new < length self.old)) }
    {
        match self.pop() {
            None => Ok(None),
            Some(frame) => {
                if ends_with(before_else, &frame) {
                    Ok(Some(frame))
                } else {
                    self.push(frame)?;
                    Ok(None)
                }
            }
        }
    }

    /// One item more in the innermost block.
    pub fn push_item(&mut self, item: Statement) -> Result<(), Memory>
        ensures { OnOk result (self.new ≡ and_item item self.old) }
    {
        match self.pop() {
            Some(StmtFrame::Block(items)) => {
                let mut items = items;
                match items.push(item) {
                    Ok(()) => self.push(StmtFrame::Block(items)),
                    Err(memory) => {
                        drop(items);
                        Err(memory)
                    }
                }
            }
            Some(other) => {
                drop(item);
                self.push(other)
            }
            None => {
                drop(item);
                Ok(())
            }
        }
    }
}

/// How many levels a frame adds to those around it. A block that stands in another counts.
fn levels_of(frame: &StmtFrame, around: &[StmtFrame]) -> usize
    ensures { levels_around (frame.now ∷ reverse around.now) ≡ levels_around (reverse around.now) + result }
{
    match frame {
        StmtFrame::Block(_) => levels_beside(around),
        _ => 1,
    }
}

/// How many levels a block counts itself that stands in these frames.
#[tactic(auto, using(crate::proofs::StackLaws::beside_last, crate::proofs::StackLaws::beside_none))]
fn levels_beside(around: &[StmtFrame]) -> usize
    ensures { result ≡ beside (reverse around.now) }
{
    match around.last() {
        Some(frame) => levels_within(frame),
        None => 0,
    }
}

/// How many levels a block counts itself that stands in this frame.
fn levels_within(frame: &StmtFrame) -> usize
    ensures { result ≡ beside (frame.now ∷ []) }
{
    match frame {
        StmtFrame::Block(_) => 1,
        _ => 0,
    }
}

/// Whether the end of a statement in the construct ends it, where an `else` follows or not.
fn ends_with(before_else: bool, frame: &StmtFrame) -> bool
    ensures { result ≡ ends_with before_else frame.now }
{
    match frame {
        StmtFrame::Then(_) => !before_else,
        StmtFrame::Else(..) | StmtFrame::While(_) | StmtFrame::For(..) => true,
        StmtFrame::Do | StmtFrame::Block(_) => false,
    }
}

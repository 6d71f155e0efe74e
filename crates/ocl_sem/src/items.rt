//! The work-items of a launch, and one of them.
ghost use Rattle.ocl_program.specs.Shapes.{function_node};
ghost use Rattle.std.specs.Prelude.{◌≡◌, [], IfOk, map};
ghost use Rattle.ocl_sem.specs.Items.{item_start};
ghost use Rattle.ocl_sem.specs.Launched.{IsRoomy};
ghost use Rattle.ocl_sem.specs.Views.{expr_of, stmt_of};
ghost use Rattle.task_machine.specs.Views.{state_of};

use crate::placed::{PlacedExpr, PlacedStmt};
use crate::scopes::Scope;
use crate::statements::push_stmts;
use crate::unfold::Source;
use item_acts::{Asked, Bound, BoundList, ItemCode, Range};
use item_settings::{Setting, bound_values};
use ocl_program::TypedFunction;
use std::alloc::{AllocError, Global};
use std::rc::Rc;
use step_machine::Stack;
use task_machine::State;
use vx_base::Memory;

/// All work-items of a launch of a kernel. Each array of the kernel has at most 2^32 bytes.
#[derive(Drop)]
pub struct Items<'a> {
    /// The functions of the file.
    pub program: &'a [TypedFunction],
    /// The kernel.
    pub kernel: &'a TypedFunction,
    /// The work-items.
    pub range: Range,
    /// What the kernel's parameters stand for, in order.
    pub bounds: BoundList,
    ghost room: { IsRoomy (function_node kernel.now) bounds },
}

impl<'a> Items<'a> {
    ghost use Rattle.ocl_sem.specs.Launched.{Launched, launched_asks};
    ghost use Rattle.ocl_sem.specs.LaunchViews.{launch_in};

    /// The items of a launch of a kernel, whose parameters stand for these bounds in order. Each array has at most 2^32
    /// bytes.
    pub fn of(
        program: &'a [TypedFunction],
        kernel: &'a TypedFunction,
        range: Range,
        bounds: BoundList,
    ) -> Items<'a>
        requires room { IsRoomy (function_node kernel.now) bounds }
        ensures { launch_in result ≡ record { program = map function_node program.now; kernel = function_node kernel.now; range = range; bounds = bounds } }
    {
        Items {
            program,
            kernel,
            range,
            bounds,
        }
    }

    /// What an item asks for once it has taken these answers, if at most `fuel` small steps lead there.
    fn asked(
        &self,
        alloc: Global,
        item: u32,
        answers: &[u32],
        fuel: u64,
    ) -> Result<Asked, AllocError>
        ensures { IfOk result (λ asked. asked ≡ launched_asks (launch_in self.now) item answers.now fuel) }
    {
        let source = Source {
            alloc,
            program: self.program,
        };
        let at = Setting {
            params: self.kernel.params.as_slice(),
            arrays: self.kernel.arrays.as_slice(),
            range: self.range,
            bounds: self.bounds.as_slice(),
            item,
        };
        let mut state = start(&source, self.kernel, at.bounds)?;
        state.run(alloc, &source, &at, answers, fuel)
    }
}

/// A work-item of a kernel before its first step.
fn start<'a>(
    source: &Source<'a>,
    kernel: &'a TypedFunction,
    bounds: &[Bound],
) -> Result<State<PlacedExpr<'a>, PlacedStmt<'a>>, AllocError>
    ensures fresh { IfOk result (λ state. state.turns ≡ []) }
    ensures start { IfOk result (λ state. state_of expr_of stmt_of state ≡ item_start (map function_node source.now.program.now) (function_node kernel.now) bounds.now) }
{
    let alloc = source.alloc;
    let scope = Scope {
        function: kernel,
        variables: 0,
        sites: 0,
        arrays: Vec::new(alloc),
    };
    let Ok(scope) = Rc::new(alloc, scope) else {
        return Err(AllocError);
    };
    let mut tasks = Stack::new(alloc);
    push_stmts(&mut tasks, source, &scope, kernel.body.as_slice())?;
    let values = bound_values(alloc, kernel.params.as_slice(), bounds)?;
    Ok(State::start(alloc, tasks, values))
}

impl<'a> ItemCode for Items<'a> {
    ghost use Rattle.ocl_sem.specs.Launched.{launched_asks, launched_settles};
    ghost use Rattle.ocl_sem.specs.LaunchViews.{launch_in};

    ghost next_of = { λ items. launched_asks (launch_in items) };

    fn next(&self, alloc: Global, item: u32, answers: &[u32], fuel: u64) -> Result<Asked, Memory> {
        match self.asked(alloc, item, answers, fuel) {
            Ok(asked) => Ok(asked),
            Err(_) => Err(Memory),
        }
    }

    ghost settles = { λ items. launched_settles (launch_in items) };
}

/// A work-item of a launch, with the answers that it was given.
#[derive(Drop)]
pub struct Item<'a> {
    /// The launch.
    pub items: Items<'a>,
    /// Its number.
    pub item: u32,
    /// Its answers so far.
    pub answers: Vec<u32>,
}

impl<'a> Item<'a> {
    ghost use Rattle.std.specs.Prelude.{◌≡◌, [], ◌∷◌, ◌++◌, IfOk, OnErr, OnOk};
    ghost use Rattle.ocl_sem.specs.Launched.{launched_asks};
    ghost use Rattle.ocl_sem.specs.LaunchViews.{launch_in};

    /// The start of an item of a launch, without answers.
    pub fn start(alloc: Global, items: Items<'a>, item: u32) -> Item<'a>
        ensures items { result.items ≡ items.entry }
        ensures item { result.item ≡ item }
        ensures answers { result.answers.items ≡ [] }
    {
        Item {
            items,
            item,
            answers: Vec::new(alloc),
        }
    }

    /// What the item asks for after its answers so far, and `Running` exactly where `fuel` small steps do not lead to an
    /// action.
    pub fn next(&self, alloc: Global, fuel: u64) -> Result<Asked, Memory>
        ensures { IfOk result (λ asked. asked ≡ launched_asks (launch_in self.now.items) self.now.item self.now.answers.items fuel) }
    {
        self.items
            .next(alloc, self.item, self.answers.as_slice(), fuel)
    }

    /// Appends an answer. Where memory runs out, the item is as it was.
    pub fn told(&mut self, answer: u32) -> Result<(), Memory>
        ensures items { self.new.items ≡ self.old.items }
        ensures item { self.new.item ≡ self.old.item }
        ensures told { OnOk result (self.new.answers.items ≡ self.old.answers.items ++ answer ∷ []) }
        ensures err { OnErr result (self.new.answers.items ≡ self.old.answers.items) }
    {
        match self.answers.push(answer) {
            Ok(()) => Ok(()),
            Err(_) => Err(Memory),
        }
    }
}

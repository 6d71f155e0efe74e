//! What is left to do in a kernel. Operations are borrowed from it.
ghost use Rattle.std.specs.Prelude.{◌≡◌, ◌∷◌, List, MatchOption, OnOk, [], false, true};
ghost use Rattle.kir.specs.Machine.{Task as AnyTask, head_tasks, ops_tasks, step_tasks, turn_tasks};
ghost use Rattle.kir.specs.Shapes.{ops_of};
ghost use Rattle.kir.specs.Views.{IsMarker, SkipsTo, task_of, tasks_of, turning_of};

use crate::ops::{Op, Operand};
use std::alloc::AllocError;
use step_machine::Stack;

/// A loop, from its head on.
#[derive(Clone, Copy)]
pub struct Turning<'a> {
    /// What runs before each test.
    pub head: &'a [Op],
    /// What is tested behind the head.
    pub test: Operand,
    /// The turn.
    pub body: &'a [Op],
    /// What runs behind each turn.
    pub step: &'a [Op],
}

/// A task.
#[derive(Clone, Copy)]
pub enum Task<'a> {
    /// An operation.
    Do(&'a Op),
    /// The test of a loop.
    Decide(Turning<'a>),
    /// The end of a turn of a loop.
    Again(Turning<'a>),
    /// The end of a call.
    CallEnd,
}

/// The tasks of a work-item, the next one on top.
pub type Tasks<'a> = Stack<Task<'a>>;

impl<'a> Task<'a> {
    /// Whether it is of a loop or a call, and no operation.
    pub fn is_marker(&self) -> bool
        ensures marker { result ≡ true → IsMarker (task_of self.now) }
        ensures plain { result ≡ false → (ts : List AnyTask) → SkipsTo (task_of self.now ∷ ts) ts }
    {
        match self {
            Task::Do(_) => false,
            Task::Decide(_) | Task::Again(_) | Task::CallEnd => true,
        }
    }
}

/// Operations in order, before the other tasks.
pub fn push_ops<'a>(tasks: &mut Tasks<'a>, ops: &'a [Op]) -> Result<(), AllocError>
    ensures { OnOk result (tasks_of tasks.new ≡ ops_tasks (ops_of ops.now) (tasks_of tasks.old)) }
{
    for k in (0..ops.len()).rev() {
        tasks.push(Task::Do(&ops[k]))?;
    }
    Ok(())
}

/// A loop before its test.
pub fn push_head<'a>(tasks: &mut Tasks<'a>, turning: Turning<'a>) -> Result<(), AllocError>
    ensures { OnOk result (tasks_of tasks.new ≡ head_tasks (turning_of turning.entry) (tasks_of tasks.old)) }
{
    tasks.push(Task::Decide(turning))?;
    push_ops(tasks, turning.head)
}

/// A turn of a loop.
pub fn push_turn<'a>(tasks: &mut Tasks<'a>, turning: Turning<'a>) -> Result<(), AllocError>
    ensures { OnOk result (tasks_of tasks.new ≡ turn_tasks (turning_of turning.entry) (tasks_of tasks.old)) }
{
    tasks.push(Task::Again(turning))?;
    push_ops(tasks, turning.body)
}

/// What runs behind a turn of a loop, and the next test.
pub fn push_step<'a>(tasks: &mut Tasks<'a>, turning: Turning<'a>) -> Result<(), AllocError>
    ensures { OnOk result (tasks_of tasks.new ≡ step_tasks (turning_of turning.entry) (tasks_of tasks.old)) }
{
    push_head(tasks, turning)?;
    push_ops(tasks, turning.step)
}

/// Takes the tasks down to the innermost loop or call, and gives its task, where there is one.
pub fn find_marker<'a>(tasks: &mut Tasks<'a>) -> Option<Task<'a>>
    ensures { MatchOption result ((tasks_of tasks.new ≡ []) × SkipsTo (tasks_of tasks.old) [])
        (λ found. IsMarker (task_of found) × SkipsTo (tasks_of tasks.old) (task_of found ∷ tasks_of tasks.new)) }
{
    while let Some(task) = tasks.pop() {
        if task.is_marker() {
            return Some(task);
        }
    }
    None
}

//! What is left to do.
use crate::turnings::Loop;
use ocl_ast::{BinOp, UnOp};
use ocl_program::{ArrayRef, Builtin};
use step_machine::Stack;
use vx_base::{Elem, Pos};

/// A task, over expressions V and statements T that wait as they are. Values are taken from a stack and put onto it. Numbers
/// of variables, barriers and arrays are those of the kernel.
#[derive(Debug, Drop)]
pub enum Task<V, T> {
    /// A number onto the stack of values.
    Number(u32),
    /// The value of a variable onto the stack.
    Variable(u32),
    /// An operator on the value on top.
    Unary(UnOp),
    /// An operator on the two values on top.
    Binary {
        /// The operator.
        op: BinOp,
        /// Whether it works on uint.
        unsigned: bool,
    },
    /// A conversion of the value on top.
    Fit(Elem),
    /// A built-in function of the values on top.
    Call {
        /// Which one.
        which: Builtin,
        /// Whether it works on uint.
        unsigned: bool,
    },
    /// 1 where the value on top is not 0.
    Truth,
    /// The right side of `&&`, where the value of the left asks for it.
    AndThen(V),
    /// The right side of `||`, where the value of the left asks for it.
    OrElse(V),
    /// The second or the third part of `?:`.
    Choose {
        /// The value where the test is not 0.
        one: V,
        /// The value where the test is 0.
        other: V,
    },
    /// The element at the index on top.
    Load {
        /// The array.
        array: ArrayRef,
        /// The place of the `[`.
        pos: Pos,
    },
    /// The element at the index on top, which stays for the store that follows.
    Reread {
        /// The array.
        array: ArrayRef,
        /// The place of the `[`.
        pos: Pos,
    },
    /// The value on top into the element at the index below it.
    Store {
        /// The array.
        array: ArrayRef,
        /// The place of the `[`.
        pos: Pos,
    },
    /// 0 into a variable.
    Clear(u32),
    /// The value on top into a variable.
    Assign {
        /// The variable.
        variable: u32,
        /// Its type.
        elem: Elem,
    },
    /// A value that is not used.
    Discard,
    /// A barrier.
    Wait(u32),
    /// One of two statements, by the value on top.
    Branch {
        /// What runs where the value is not 0.
        one: T,
        /// What runs where the value is 0.
        other: Option<T>,
    },
    /// This loop is entered, with its test.
    Enter(Loop<V, T>),
    /// This loop is entered, with a turn.
    EnterTurn(Loop<V, T>),
    /// A turn of this loop begins where the value on top is not 0.
    Decide(Loop<V, T>),
    /// A turn of this loop begins.
    Begin(Loop<V, T>),
    /// A turn of this loop is over.
    Again(Loop<V, T>),
    /// The body of a helper.
    Invoke(T),
    /// The end of a helper's body.
    CallEnd,
    /// `break`
    Break,
    /// `continue`
    Continue,
    /// `return`, with its value on top.
    Return,
}

/// The tasks of a work-item, the next one on top.
pub type Tasks<V, T> = Stack<Task<V, T>>;

/// What a task is for a jump that leaves it behind.
#[derive(Clone, Copy, Debug, PartialEq, Eq)]
pub enum Marker {
    /// Nothing of a loop or a call.
    Plain,
    /// The end of a turn.
    TurnEnd,
    /// The beginning of a turn, or the test before it.
    TurnStart,
    /// The end of a helper's body.
    BodyEnd,
}

impl<V, T> Task<V, T> {
    ghost use Rattle.std.specs.Prelude.{◌≡◌};
    ghost use Rattle.task_machine.specs.Tasks.{marker_of};

    /// What it is for a jump.
    pub fn marker(&self) -> Marker
        ensures { result ≡ marker_of self.now }
    {
        match self {
            Task::Again(_) => Marker::TurnEnd,
            Task::Decide(_) | Task::Begin(_) => Marker::TurnStart,
            Task::CallEnd => Marker::BodyEnd,
            Task::Number(_)
            | Task::Variable(_)
            | Task::Unary(_)
            | Task::Binary { .. }
            | Task::Fit(_)
            | Task::Call { .. }
            | Task::Truth
            | Task::AndThen(_)
            | Task::OrElse(_)
            | Task::Choose { .. }
            | Task::Load { .. }
            | Task::Reread { .. }
            | Task::Store { .. }
            | Task::Clear(_)
            | Task::Assign { .. }
            | Task::Discard
            | Task::Wait(_)
            | Task::Branch { .. }
            | Task::Enter(_)
            | Task::EnterTurn(_)
            | Task::Invoke(_)
            | Task::Break
            | Task::Continue
            | Task::Return => Marker::Plain,
        }
    }
}

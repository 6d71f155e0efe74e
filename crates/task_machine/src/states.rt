//! The state of a work-item.
ghost use Rattle.std.specs.Prelude.{◌≡◌, [], slice_index};
ghost use Rattle.task_machine.specs.Views.{plain};

use crate::tasks::Tasks;
use item_settings::Variables;
use std::alloc::Global;
use step_machine::{Stack, Turns};

/// The values of a work-item, the last one on top.
pub type Values = Stack<u32>;

/// The state of a work-item.
#[derive(Drop)]
pub struct State<V, T> {
    /// What is left to do.
    pub tasks: Tasks<V, T>,
    /// The values.
    pub values: Values,
    /// The variables, by their numbers in the kernel.
    pub variables: Variables,
    /// The numbers of turns of the loops that the item is in.
    pub turns: Turns,
}

impl<V: Drop, T: Drop> State<V, T> {
    /// A work-item before its first step: it has these tasks and these first variables, and is in no loop.
    pub fn start(alloc: Global, tasks: Tasks<V, T>, variables: Vec<u32>) -> State<V, T>
        ensures fresh { result.turns ≡ [] }
        ensures start { plain result ≡ record { tasks = tasks; values = []; variables = slice_index variables.items; turns = [] } }
    {
        State {
            tasks,
            values: Stack::new(alloc),
            variables: Variables { items: variables },
            turns: Stack::new(alloc),
        }
    }
}

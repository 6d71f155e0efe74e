//! Numbers of turns of loops.
ghost use Rattle.std.specs.Prelude.{◌≡◌, ◌∷◌, ◌-◌, ◌^◌, OnOk};
ghost use Rattle.step_machine.specs.Stacks.{under};
ghost use Rattle.step_machine.specs.Turns.{EachBelow, risen};

use crate::stack::Stack;
use std::alloc::AllocError;

/// The numbers of turns of the loops that a work-item is in, the innermost on top.
pub type Turns = Stack<u64>;

/// A loop is entered.
pub fn enter_turns(turns: &mut Turns) -> Result<(), AllocError>
    ensures { OnOk result (turns.new ≡ 0 ∷ turns.old) }
{
    turns.push(0)
}

/// The innermost loop is left.
pub fn leave_turns(turns: &mut Turns)
    ensures { turns.new ≡ under turns.old }
{
    let _left = turns.pop();
}

/// One more turn of the innermost loop is over. Its number, and those of the loops round it, are not the last of their type.
pub fn raise(turns: &mut Turns) -> Result<(), AllocError>
    requires below { EachBelow (2 ^ 64 - 1) turns.now }
    ensures { OnOk result (turns.new ≡ risen turns.old) }
{
    match turns.pop() {
        Some(turn) => turns.push(turn + 1),
        None => Ok(()),
    }
}

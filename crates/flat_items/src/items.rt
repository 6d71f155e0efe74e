//! The work-items of a launch of a flat kernel.
ghost use Rattle.std.specs.Prelude.{◌≡◌, [], IfOk};
ghost use Rattle.item_settings.specs.Views.{IsRoomy};
ghost use Rattle.ocl_inline.specs.FlatItems.{flat_start};
ghost use Rattle.ocl_inline.specs.Shapes.{kernel_of};
ghost use Rattle.flat_items.specs.Views.{flat_state};

use crate::forms::{FlatForm, FlatPart};
use crate::statements::push_stmts;
use item_acts::{Asked, Bound, BoundList, ItemCode, Range};
use item_settings::{Setting, bound_values};
use ocl_inline::{Flat, FlatExpr};
use std::alloc::{AllocError, Global};
use step_machine::Stack;
use task_machine::State;
use vx_base::Memory;

/// All work-items of a launch of a flat kernel. Each array of the kernel has at most 2^32 bytes.
#[derive(Drop)]
pub struct FlatItems<'a> {
    /// The kernel.
    pub flat: &'a Flat,
    /// The work-items.
    pub range: Range,
    /// What the kernel's parameters stand for, in order.
    pub bounds: BoundList,
    ghost room: { IsRoomy flat.now.params flat.now.arrays.items bounds },
}

impl<'a> FlatItems<'a> {
    ghost use Rattle.flat_items.specs.Launches.{launch_asks, launch_of};

    /// The items of a launch of a flat kernel, whose parameters stand for these bounds in order. Each array has at most 2^32
    /// bytes.
    pub fn of(flat: &'a Flat, range: Range, bounds: BoundList) -> FlatItems<'a>
        requires room { IsRoomy flat.now.params flat.now.arrays.items bounds }
        ensures { launch_of result ≡ record { kernel = kernel_of flat.now; range = range; bounds = bounds } }
    {
        FlatItems {
            flat,
            range,
            bounds,
        }
    }

    /// What an item asks for once it has taken these answers, if at most `fuel` small steps lead there.
    fn asked(
        &self,
        alloc: Global,
        item: u32,
        answers: &[u32],
        fuel: u64,
    ) -> Result<Asked, AllocError>
        ensures { IfOk result (λ asked. asked ≡ launch_asks (launch_of self.now) item answers.now fuel) }
    {
        let form = FlatForm {
            alloc,
            flat: self.flat,
        };
        let at = Setting {
            params: self.flat.params.as_slice(),
            arrays: self.flat.arrays.as_slice(),
            range: self.range,
            bounds: self.bounds.as_slice(),
            item,
        };
        let mut state = start(alloc, self.flat, at.bounds)?;
        state.run(alloc, &form, &at, answers, fuel)
    }
}

/// A work-item of a flat kernel before its first step.
fn start<'a>(
    alloc: Global,
    flat: &'a Flat,
    bounds: &[Bound],
) -> Result<State<&'a FlatExpr, FlatPart<'a>>, AllocError>
    ensures fresh { IfOk result (λ state. state.turns ≡ []) }
    ensures start { IfOk result (λ state. flat_state state ≡ flat_start (kernel_of flat.now) bounds.now) }
{
    let mut tasks = Stack::new(alloc);
    push_stmts(&mut tasks, alloc, flat.body.as_slice())?;
    let values = bound_values(alloc, flat.params.as_slice(), bounds)?;
    Ok(State::start(alloc, tasks, values))
}

impl<'a> ItemCode for FlatItems<'a> {
    ghost use Rattle.flat_items.specs.Launches.{launch_asks, launch_of, launch_settles};

    ghost next_of = { λ items. launch_asks (launch_of items) };

    fn next(&self, alloc: Global, item: u32, answers: &[u32], fuel: u64) -> Result<Asked, Memory> {
        match self.asked(alloc, item, answers, fuel) {
            Ok(asked) => Ok(asked),
            Err(_) => Err(Memory),
        }
    }

    ghost settles = { λ items. launch_settles (launch_of items) };
}

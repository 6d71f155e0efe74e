//! The work-items of a launch of a structured kernel.
ghost use Rattle.std.specs.Prelude.{◌≡◌, IfOk};
ghost use Rattle.kir.specs.Machine.{kir_asks};
ghost use Rattle.kir.specs.Shapes.{code_of};

use crate::ops::Kir;
use crate::states::State;
use item_acts::{Asked, Bound, BoundList, ItemCode, Range};
use item_settings::Setting;
use std::alloc::{AllocError, Global};
use vx_base::Memory;

/// What an item of a launch asks for once it has taken these answers, if at most `fuel` small steps lead there. The bounds are
/// what the kernel's parameters stand for, in order.
pub fn kir_next(
    alloc: Global,
    code: &Kir,
    range: Range,
    bounds: &BoundList,
    item: u32,
    answers: &[u32],
    fuel: u64,
) -> Result<Asked, Memory>
    ensures { IfOk result (λ asked. asked ≡ kir_asks (code_of code.now) range bounds.now item answers.now fuel) }
{
    match asked(alloc, code, range, bounds.as_slice(), item, answers, fuel) {
        Ok(asked) => Ok(asked),
        Err(_) => Err(Memory),
    }
}

/// The same, from the bounds as a slice.
fn asked(
    alloc: Global,
    code: &Kir,
    range: Range,
    bounds: &[Bound],
    item: u32,
    answers: &[u32],
    fuel: u64,
) -> Result<Asked, AllocError>
    ensures { IfOk result (λ asked. asked ≡ kir_asks (code_of code.now) range bounds.now item answers.now fuel) }
{
    let at = Setting {
        params: code.params.as_slice(),
        arrays: code.arrays.as_slice(),
        range,
        bounds,
        item,
    };
    let mut state = State::start(alloc, code, bounds)?;
    state.run(alloc, code, &at, answers, fuel)
}

/// All work-items of a launch of a structured kernel.
#[derive(Drop)]
pub struct KirItems<'a> {
    /// The kernel.
    pub code: &'a Kir,
    /// The work-items.
    pub range: Range,
    /// What the kernel's parameters stand for, in order.
    pub bounds: BoundList,
}

impl<'a> ItemCode for KirItems<'a> {
    ghost use Rattle.kir.specs.Launches.{items_ask, items_settle};

    ghost next_of = { items_ask };

    fn next(&self, alloc: Global, item: u32, answers: &[u32], fuel: u64) -> Result<Asked, Memory> {
        kir_next(
            alloc,
            self.code,
            self.range,
            &self.bounds,
            item,
            answers,
            fuel,
        )
    }

    ghost settles = { items_settle };
}

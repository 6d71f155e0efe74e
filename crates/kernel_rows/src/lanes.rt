//! The lane of each work-item alone: lowered code, over the launch block of the item's group.

use crate::blocks::{Block, block_of, group_size, place_of, quotient};
use crate::runs::Askers;
use item_acts::{Asked, Bound, Place, Range};
use std::alloc::Global;
use vcode::{Surroundings, VCode, vcode_next};
use vx_base::{Memory, ParamKind};

/// How many lanes a warp has: groups of 4 and of 8 items take warps that are not full.
const LANES: u32 = 3;

/// The lanes of the items of a launch.
#[derive(Drop)]
pub struct Lanes<'a> {
    /// The code of the kernel.
    pub code: &'a VCode,
    /// The launch.
    pub range: Range,
    /// What the parameters are.
    pub kinds: &'a [ParamKind],
    /// What the parameters stand for.
    pub bounds: &'a [Bound],
}

/// The lane of an item, and what stands around it.
#[derive(Drop)]
struct Standing {
    /// The launch block.
    block: Block,
    /// The number of its group.
    group: u32,
    /// The number of its warp in the group.
    warp: u32,
    /// Its number in the warp.
    number: u32,
}

impl Surroundings for Standing {
    ghost use Rattle.kernel_rows.specs.Around.{around_of};

    ghost around = { λ s. around_of s.block s.group s.warp s.number };

    fn word(&self, number: u64) -> u32 {
        match self.block.get(number as usize) {
            Some(word) => *word,
            None => 0,
        }
    }

    fn warp(&self) -> u32 {
        self.warp
    }

    fn number(&self) -> u32 {
        self.number % 32
    }

    fn place(&self, address: u32) -> Place {
        place_of(self.group, address)
    }
}

impl<'a> Lanes<'a> {
    /// The lane of an item, whose group has the items before it that fill groups.
    fn standing(&self, item: u32) -> Standing {
        let size = group_size(self.range);
        let group = quotient(item, size);
        let local = item.checked_rem(size).unwrap_or(0);
        Standing {
            block: block_of(self.range, self.kinds, self.bounds, group, LANES),
            group,
            warp: local / LANES,
            number: local % LANES,
        }
    }
}

impl<'a> Askers for Lanes<'a> {
    fn next(
        &self,
        alloc: Global,
        number: u32,
        answers: &[u32],
        steps: u64,
    ) -> Result<Asked, Memory> {
        let standing = self.standing(number);
        vcode_next(alloc, self.code, &standing, &[], answers, steps)
    }
}

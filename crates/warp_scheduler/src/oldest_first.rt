ghost use Rattle.std.specs.Prelude.{◌≡◌, ◌≢◌, ◌<◌, ◌++◌, ◌∷◌, [], Some, length, nat_eq, position, remove, slice_index};
ghost use Rattle.std.specs.Int.{IsBitSet, bit_at};
ghost use Rattle.warp_scheduler.specs.Rules.{below, HasAll};

use crate::picker::{Picker, is_ready};
use std::marker::Model;

const WARPS: usize = 32;

const ASCENDING: [u32; WARPS] = [
    0, 1, 2, 3, 4, 5, 6, 7, 8, 9, 10, 11, 12, 13, 14, 15, 16, 17, 18, 19, 20, 21, 22, 23, 24, 25,
    26, 27, 28, 29, 30, 31,
];

/// The ready warp that was picked longest ago; those that were never picked go first, the least before the others.
///
/// Contracts see it as the list of all warps in the order of their last picks, those never picked in front.
#[derive(Debug, Drop)]
pub struct OldestFirst {
    order: [u32; WARPS],
}

impl Model for OldestFirst {
    ghost use Rattle.std.specs.Prelude.{ℕ, List};
    ghost use Rattle.warp_scheduler.specs.Rules.{HasAll};

    ghost Value = { List ℕ };

    ghost view = { λ o. o.order };

    ghost invariant = { λ o. HasAll o.order };
}

impl OldestFirst {
    /// The policy before any pick.
    pub fn new() -> OldestFirst
        ensures { result ≡ below 32 }
    {
        OldestFirst { order: ASCENDING }
    }
}

// The place of the first ready warp.
fn first_ready(order: &[u32; WARPS], ready: u32) -> Option<usize>
    ensures { result ≡ position (λ warp. nat_eq (bit_at ready warp) 1) order.now }
{
    order.iter().position(|warp| is_ready(ready, *warp))
}

// The same, where all warps stand in the order and one is ready.
fn place_of_first(order: &[u32; WARPS], ready: u32) -> usize
    requires all { HasAll order.now }
    requires some { ready ≢ 0 }
    ensures first { position (λ warp. nat_eq (bit_at ready warp) 1) order.now ≡ Some result }
    ensures within { result < length order.now }
    ensures ready { IsBitSet ready (slice_index order.now result) }
{
    match first_ready(order, ready) {
        Some(place) => place,
        None => 0,
    }
}

// The warp at a place goes behind all others.
fn move_last(order: &mut [u32; WARPS], place: usize)
    requires all { HasAll order.old }
    requires place { place < length order.old }
    ensures last { order.new ≡ remove order.old place ++ slice_index order.old place ∷ [] }
    ensures all { HasAll order.new }
{
    order[place..].rotate_left(1);
}

impl Picker for OldestFirst {
    ghost use Rattle.std.specs.Prelude.{◌≡◌};
    ghost use Rattle.warp_scheduler.specs.Rules.{below, TakesOldest};

    ghost begins = { λ before group after. after ≡ below 32 };

    ghost picks = { TakesOldest };

    fn begin(&mut self, _group: u32) {
        self.order = ASCENDING;
    }

    fn pick(&mut self, ready: u32) -> u32 {
        let place = place_of_first(&self.order, ready);
        let warp = self.order[place];
        move_last(&mut self.order, place);
        warp
    }
}

ghost use Rattle.std.specs.Prelude.{◌≡◌, ◌≢◌, ◌<◌};
ghost use Rattle.std.specs.Int.{IsBitSet};
ghost use Rattle.warp_scheduler.specs.Rules.{PicksInTurn};

use crate::picker::Picker;
use std::marker::Model;
use vx_base::least;

/// Each ready warp in turn: the least above the last one that was picked, and where there is none the least of all.
///
/// Contracts see it as the number to look from.
#[derive(Debug, Drop)]
pub struct RoundRobin {
    from: u32,
}

impl Model for RoundRobin {
    ghost use Rattle.std.specs.Prelude.{ℕ, ◌<◌};

    ghost Value = { ℕ };

    ghost view = { λ r. r.from };

    ghost invariant = { λ r. r.from < 32 };
}

impl RoundRobin {
    /// The policy that looks from warp 0.
    pub fn new() -> RoundRobin
        ensures { result ≡ 0 }
    {
        RoundRobin { from: 0 }
    }
}

// The warp whose turn it is.
fn next_from(ready: u32, from: u32) -> u32
    requires some { ready ≢ 0 }
    requires from { from < 32 }
    ensures picks { PicksInTurn from ready result }
    ensures ready { IsBitSet ready result }
    ensures word { result < 32 }
{
    match least(ready >> from) {
        Some(steps) => from + steps,
        None => ready.trailing_zeros(),
    }
}

impl Picker for RoundRobin {
    ghost use Rattle.std.specs.Prelude.{◌≡◌};
    ghost use Rattle.warp_scheduler.specs.Rules.{TakesTurn};

    ghost begins = { λ before group after. after ≡ 0 };

    ghost picks = { TakesTurn };

    fn begin(&mut self, _group: u32) {
        self.from = 0;
    }

    fn pick(&mut self, ready: u32) -> u32 {
        let warp = next_from(ready, self.from);
        self.from = (warp + 1) % 32;
        warp
    }
}

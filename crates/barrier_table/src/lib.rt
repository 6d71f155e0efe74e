//! The barriers of a core: which warps wait at each, and when they go on.
//!
//! Contracts see the barriers as the list of the sets of warps that wait at them, by `specs/Waiting.antt`.
#![tactic(auto)]

ghost use Rattle.std.specs.Prelude.{◌≡◌, ◌<◌, replicate};
ghost use Rattle.barrier_table.specs.Waiting.{all_waiting, arrival, barriers_after};

use std::marker::Model;

/// How many barriers a core has.
pub const BARRIERS: usize = 16;

/// What becomes of the warps at a barrier where one has arrived.
#[derive(Clone, Copy, Debug, PartialEq, Eq)]
pub enum Arrived {
    /// All go on.
    Released {
        /// The warps, as bits.
        warps: u32,
    },
    /// All wait.
    Held,
}

/// The barriers of a core.
#[derive(Clone, Debug, Drop)]
pub struct Barriers {
    waiting: [u32; BARRIERS],
}

impl Model for Barriers {
    ghost use Rattle.std.specs.Prelude.{◌≡◌, ℕ, List, length};

    ghost Value = { List ℕ };

    ghost view = { λ b. b.waiting };

    ghost invariant = { λ b. length b.waiting ≡ 16 };
}

impl Barriers {
    /// Barriers at which no warp waits.
    pub fn new() -> Barriers
        ensures { result ≡ replicate BARRIERS 0 }
    {
        Barriers {
            waiting: [0; BARRIERS],
        }
    }

    /// A warp arrives at a barrier that waits for `count` warps. They go on exactly where at least so many wait there, this
    /// one among them; the barrier is then empty.
    pub fn arrive(&mut self, bar: u32, warp: u32, count: u32) -> Arrived
        requires bar { bar < 16 }
        requires warp { warp < 16 }
        ensures answer { result ≡ arrival self.old bar warp count }
        ensures after { self.new ≡ barriers_after self.old bar warp count }
    {
        let warps = self.waiting[bar as usize] | 1 << warp;
        if warps.count_ones() >= count {
            self.waiting[bar as usize] = 0;
            Arrived::Released { warps }
        } else {
            self.waiting[bar as usize] = warps;
            Arrived::Held
        }
    }

    /// The warps that wait at any barrier, as bits.
    pub fn waiting(&self) -> u32
        ensures { result ≡ all_waiting self.now }
    {
        self.waiting.iter().fold(0, |warps, set| warps | *set)
    }

    /// Lets no warp wait any more.
    pub fn clear(&mut self)
        ensures { self.new ≡ replicate BARRIERS 0 }
    {
        self.waiting = [0; BARRIERS];
    }
}

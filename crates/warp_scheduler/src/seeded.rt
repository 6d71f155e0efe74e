ghost use Rattle.std.specs.Prelude.{◌≡◌, ◌≢◌, ◌<◌, ◌≤◌};
ghost use Rattle.warp_scheduler.specs.Rules.{count_below, IsAtPlace, generator_of};

use crate::picker::{Picker, is_ready};
use rand_core::utils::NextWord;
use rand_pcg::Lcg64Xsh32;
use std::marker::Model;

/// A ready warp drawn by a generator: the generator's next word, modulo how many warps are ready, is its place among them in
/// ascending order. A new generator is made of the seed and the group where a group begins.
///
/// Contracts see it as the seed and the generator.
#[derive(Debug, Drop)]
pub struct SeededPick {
    seed: u64,
    generator: Lcg64Xsh32,
}

impl Model for SeededPick {
    ghost use Rattle.warp_scheduler.specs.Rules.{Drawing};

    ghost Value = { Drawing };

    ghost view = { λ s. record { seed = s.seed; generator = s.generator } };
}

impl SeededPick {
    /// The policy of a seed, before its first group.
    pub fn new(seed: u64) -> SeededPick
        ensures seed { result.seed ≡ seed }
    {
        SeededPick {
            seed,
            generator: Lcg64Xsh32::new(seed, 0),
        }
    }
}

// How many warps are in a set.
fn ready_count(ready: u32) -> u32
    ensures { result ≡ count_below ready 32 }
{
    let mut count = 0;
    for warp in 0..32_u32 {
        if is_ready(ready, warp) {
            count += 1;
        }
    }
    count
}

// The warp at a place among those of a set, counted upwards from 0.
fn warp_at_place(ready: u32, place: u32) -> u32
    requires { place < count_below ready 32 }
    ensures warp { IsAtPlace ready place result }
    ensures word { result < 32 }
{
    let mut left = place;
    for warp in 0..32_u32 {
        if is_ready(ready, warp) {
            if left == 0 {
                return warp;
            }
            left -= 1;
        }
    }
    0
}

impl Picker for SeededPick {
    ghost use Rattle.warp_scheduler.specs.Rules.{BeginsDrawing, DrawsWarp};

    ghost begins = { BeginsDrawing };

    ghost picks = { DrawsWarp };

    fn begin(&mut self, group: u32) {
        self.generator = Lcg64Xsh32::new(self.seed, u64::from(group));
    }

    fn pick(&mut self, ready: u32) -> u32 {
        let word: u32 = self.generator.next_word();
        warp_at_place(ready, word % ready_count(ready))
    }
}

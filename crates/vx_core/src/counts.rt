ghost use Rattle.std.specs.Prelude.{◌≡◌};
ghost use Rattle.vx_core.specs.Counting.{tally_after, diverged_in, no_tally, splits_in};

use vx_isa::Step;

/// The most banks by which a core counts its bus steps.
pub const BANKS: usize = 16;

/// What a core has counted since its launch began. A count that has reached the last value of its type stays there.
#[derive(Clone, Debug, Drop)]
pub struct CoreCounts {
    /// Instructions, one that traps among them.
    pub instructions: u64,
    /// Instructions `split` that did not trap.
    pub splits: u64,
    /// Those of them that found lanes for both sides.
    pub diverged: u64,
    /// The most entries that a divergence stack had.
    pub depth: u32,
    /// Reads that found their line in the cache.
    pub hits: u64,
    /// Reads that did not.
    pub misses: u64,
    /// Bus steps on each bank.
    pub banks: [u64; BANKS],
}

/// What a core has counted of its instructions.
#[derive(Clone, Debug, Drop)]
pub struct Tally {
    /// Instructions, one that traps among them.
    pub instructions: u64,
    /// Instructions `split` that did not trap.
    pub splits: u64,
    /// Those of them that found lanes for both sides.
    pub diverged: u64,
    /// The most entries that a divergence stack had.
    pub depth: u32,
}

impl Tally {
    /// Counts of 0.
    pub fn new() -> Tally
        ensures { result ≡ no_tally }
    {
        Tally {
            instructions: 0,
            splits: 0,
            diverged: 0,
            depth: 0,
        }
    }

    /// An instruction ended so, and left a divergence stack of so many entries.
    pub fn add(&mut self, outcome: Step, depth: u32)
        ensures { self.new ≡ tally_after outcome depth self.old }
    {
        self.instructions = self.instructions.saturating_add(1);
        self.splits = self.splits.saturating_add(splits_in(outcome));
        self.diverged = self.diverged.saturating_add(diverged_in(outcome));
        self.depth = self.depth.max(depth);
    }
}

// How many instructions `split` that did not trap ended so.
fn splits_in(outcome: Step) -> u64
    ensures { result ≡ splits_in outcome }
{
    match outcome {
        Step::Diverged | Step::Agreed => 1,
        _ => 0,
    }
}

// How many of them found lanes for both sides.
fn diverged_in(outcome: Step) -> u64
    ensures { result ≡ diverged_in outcome }
{
    match outcome {
        Step::Diverged => 1,
        _ => 0,
    }
}

ghost use Rattle.std.specs.Prelude.{◌≡◌, ◌<◌};

/// A policy by which a full set of a cache gives up a line. Contracts say which policy stands before a call and which after.
pub trait Evictor {
    ghost use Rattle.std.specs.Prelude.{ℕ};

    // The policy before, the core that begins, and the policy after.
    ghost begins: { Self → ℕ → Self → Type 0 };

    // The policy before, the set, the way that was read or filled longest ago, the number of ways, the way that is given
    // up, and the policy after.
    ghost evicts: { Self → ℕ → ℕ → ℕ → ℕ → Self → Type 0 };

    /// A core begins: the policy is as new.
    fn begin(&mut self, core: u32)
        ensures { begins self.old core self.new };

    /// The way that a full set of `ways` ways gives up, where `oldest` was read or filled longest ago.
    fn victim(&mut self, set: u32, oldest: u32, ways: u32) -> u32
        requires { oldest < ways }
        ensures evicts { evicts self.old set oldest ways result self.new }
        ensures way { result < ways };
}

/// The line that was read or filled longest ago.
#[derive(Debug, Drop)]
pub struct EvictOldest;

impl EvictOldest {
    /// The policy.
    pub fn new() -> EvictOldest {
        EvictOldest
    }
}

impl Evictor for EvictOldest {
    ghost use Rattle.std.specs.Prelude.{◌≡◌};

    ghost begins = { λ before core after. after ≡ before };

    ghost evicts = { λ before set oldest ways way after. (way ≡ oldest) × (after ≡ before) };

    fn begin(&mut self, _core: u32) {}

    fn victim(&mut self, _set: u32, oldest: u32, _ways: u32) -> u32 {
        oldest
    }
}

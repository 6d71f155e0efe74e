ghost use Rattle.std.specs.Prelude.{◌≡◌, ◌≢◌, ◌<◌, nat_eq};
ghost use Rattle.std.specs.Int.{IsBitSet, bit_at};

/// A policy by which a core picks a warp for each step. Contracts say which policy stands before a call and which after.
pub trait Picker {
    ghost use Rattle.std.specs.Prelude.{ℕ};

    // The policy before, the group that begins, and the policy after.
    ghost begins: { Self → ℕ → Self → Type 0 };

    // The policy before, the set of ready warps, the one picked, and the policy after.
    ghost picks: { Self → ℕ → ℕ → Self → Type 0 };

    /// A group begins: the policy is as new.
    fn begin(&mut self, group: u32)
        ensures { begins self.old group self.new };

    /// One of the ready warps, which are bits; there is at least one.
    fn pick(&mut self, ready: u32) -> u32
        requires { ready ≢ 0 }
        ensures picks { picks self.old ready result self.new }
        ensures ready { IsBitSet ready result }
        ensures word { result < 32 };
}

/// Whether a warp is in a set.
#[tactic(auto, using(crate::proofs::OrderLaws::no_warp))]
pub(crate) fn is_ready(ready: u32, warp: u32) -> bool
    ensures { result ≡ nat_eq (bit_at ready warp) 1 }
{
    if warp >= 32 {
        return false;
    }
    ready >> warp & 1 == 1
}

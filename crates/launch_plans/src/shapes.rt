//! The machine that a launch runs on.
ghost use Rattle.std.specs.Prelude.{◌≡◌};
ghost use Rattle.launch_plans.specs.Shapes.{IsShape};

/// Which ready warp of a core takes the next instruction.
#[derive(Clone, Copy, Debug, PartialEq, Eq)]
pub enum Sched {
    /// The next in turn.
    Round,
    /// The one that waits longest.
    Oldest,
    /// One that is drawn, from this seed.
    Seeded(u64),
}

/// Which line a full set of a cache gives up.
#[derive(Clone, Copy, Debug, PartialEq, Eq)]
pub enum Evict {
    /// The one that was read or filled longest ago.
    Oldest,
    /// One that is drawn, from this seed.
    Seeded(u64),
}

/// A machine: how many cores it has, and what each of them is.
#[derive(Clone, Copy, Debug, PartialEq, Eq)]
pub struct Shape {
    /// How many cores there are, 1 to 8.
    pub cores: u32,
    /// How many warps a core has, 1 to 16.
    pub warps: u32,
    /// How many lanes a warp has, 1 to 32.
    pub lanes: u32,
    /// How many sets a core's cache has: a power of two, 1 to 64.
    pub sets: u32,
    /// How many lines a set has, 1 to 8.
    pub ways: u32,
    /// By how many banks the steps of a core on the shared memory are counted: a power of two, 1 to 16.
    pub banks: u32,
    /// Which warp is picked.
    pub sched: Sched,
    /// Which line is given up.
    pub evict: Evict,
    /// How many instructions a group may take, 1 to 4,294,967,296.
    pub turns: u64,
}

/// The machine that runs where no word asks for another.
#[tactic(auto, using(crate::proofs::Powers::power_4, crate::proofs::Powers::power_16))]
pub fn usual_shape() -> Shape
    ensures within { IsShape result }
    ensures shape { result ≡ record { cores = 4; warps = 16; lanes = 32; sets = 16; ways = 4; banks = 4; sched = Sched.Round; evict = Evict.Oldest; turns = 16777216 } }
{
    Shape {
        cores: 4,
        warps: 16,
        lanes: 32,
        sets: 16,
        ways: 4,
        banks: 4,
        sched: Sched::Round,
        evict: Evict::Oldest,
        turns: 16_777_216,
    }
}

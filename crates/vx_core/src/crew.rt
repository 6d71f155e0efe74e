ghost use Rattle.std.specs.Prelude.{◌≡◌, ◌≢◌, ◌%◌, ◌^◌, ◌<◌, ◌≤◌, length, replicate, true};
ghost use Rattle.vx_isa.specs.WarpSteps.{code_start};
ghost use Rattle.vx_isa.specs.Warps.{has_lane, lanes_below, started};
ghost use Rattle.vx_core.specs.CoreMemory.{KeepsLoans, reach_of};
ghost use Rattle.vx_core.specs.Crews.{Opens, crew_after, ended_warps, is_running, is_spawned, ready_warps, running_warps, spawned_warps, waiting_warps, with_spawned, with_started, with_warp};
ghost use Rattle.vx_core.specs.Ends.{bar_of, lane_of};
ghost use Rattle.vx_core.specs.Places.{TakesInstruction};
ghost use Rattle.vx_core.specs.WarpLists.{warps_of};
ghost use Rattle.warp_state.specs.Lanes.{state_of};

use crate::memory::CoreMemory;
use barrier_table::Barriers;
use l1_cache::Evictor;
use memory_banks::Bus;
use std::alloc::Global;
use vx_base::Memory;
use vx_isa::{Ids, Step};
use warp_scheduler::Picker;
use warp_state::Warp;

/// The address of the first word of an image.
pub const CODE_START: u32 = 0x8000_0000;

/// The most warps that a core can have.
pub const WARPS: u32 = 16;

/// The warps of a core, by number, and the barriers at which they wait.
#[derive(Drop)]
pub struct Crew {
    warps: Vec<Warp>,
    // Those that were started since the group began, as bits.
    started: u32,
    barriers: Barriers,
    ghost sixteen: { length warps.items ≡ 16 },
}

impl Crew {
    ghost use Rattle.vx_core.specs.Cores.{crew_of};

    /// Warps of which none was started.
    pub(crate) fn new(alloc: Global) -> Result<Crew, Memory> {
        let mut warps = Vec::with_capacity(alloc, WARPS as usize)?;
        for number in 0..WARPS {
            warps.push_reserved(Warp::new());
        }
        Ok(Crew {
            warps,
            started: 0,
            barriers: Barriers::new(),
        })
    }

    /// A group begins: warp 0 alone is started, at the first word of the code, and no warp waits.
    pub fn begin(&mut self)
        ensures { Opens (crew_of self.new) }
    {
        self.restart();
    }

    // All warps have ended but warp 0, which is started at the first word of the code, and no warp waits.
    fn restart(&mut self)
        ensures warps { (crew_of self.new).warps ≡ with_started 1 code_start (λ w. started 0 0) }
        ensures begun { (crew_of self.new).begun ≡ 1 }
        ensures barriers { (crew_of self.new).barriers ≡ replicate 16 0 }
    {
        end_all(&mut self.warps);
        start_warps(&mut self.warps, 1, CODE_START);
        self.started = 1;
        self.barriers.clear();
    }

    /// The warps that have not ended, as bits.
    pub fn running_warps(&self) -> u32
        ensures { result ≡ running_warps (crew_of self.now) }
    {
        running_in(&self.warps)
    }

    /// The warps that wait at barriers, as bits.
    pub fn waiting_warps(&self) -> u32
        ensures { result ≡ waiting_warps (crew_of self.now) }
    {
        self.barriers.waiting()
    }

    /// The warps that can take a step, as bits.
    pub fn ready_warps(&self) -> u32
        ensures { result ≡ ready_warps (crew_of self.now) }
    {
        self.running_warps() & !self.barriers.waiting()
    }

    /// A ready warp, by a policy.
    pub fn pick<P: Picker>(&self, policy: &mut P) -> u32
        requires { ready_warps (crew_of self.now) ≢ 0 }
        ensures picks { P.picks policy.old (ready_warps (crew_of self.now)) result policy.new }
        ensures ready { has_lane (ready_warps (crew_of self.now)) result ≡ true }
        ensures warp { result < 16 }
        ensures active { ((crew_of self.now).warps result).mask ≢ 0 }
    {
        policy.pick(self.ready_warps())
    }

    /// The warps that were started and have ended, as bits.
    pub fn ended_warps(&self) -> u32
        ensures { result ≡ ended_warps (crew_of self.now) }
    {
        self.started & !self.running_warps()
    }

    /// How many entries a warp's divergence stack has.
    pub fn depth(&self, warp: u32) -> u32
        requires { warp < 16 }
        ensures { result ≡ length ((crew_of self.now).warps warp).stack }
    {
        self.warps[warp as usize].depth() as u32
    }

    /// A warp that has not ended takes an instruction of the code.
    pub fn step<B: Bus, E: Evictor>(
        &mut self,
        code: &[u32],
        ids: Ids,
        memory: &mut CoreMemory<'_, B, E>,
    ) -> Step
        requires warp { ids.warp < 16 }
        requires active { ((crew_of self.old).warps ids.warp).mask ≢ 0 }
        requires sound { B.is_sound memory.old.bus.now }
        requires lines { B.count memory.old.bus.now % 16 ≡ 0 }
        requires banks { (1 ≤ memory.old.banks) × (memory.old.banks ≤ 16) }
        ensures took { TakesInstruction B.acts E.evicts (B.count memory.old.bus.now) (B.number memory.old.bus.now) memory.old.banks ids code.now
            ((crew_of self.old).warps ids.warp) (reach_of memory.old) result ((crew_of self.new).warps ids.warp) (reach_of memory.new) }
        ensures crew { crew_of self.new ≡ with_warp ids.warp ((crew_of self.new).warps ids.warp) (crew_of self.old) }
        ensures lane { lane_of result ≤ 32 }
        ensures bar { bar_of result < 16 }
        ensures kept { KeepsLoans B.count B.number memory.old memory.new }
        ensures sound { B.is_sound memory.new.bus.now }
    {
        step_on(&mut self.warps[ids.warp as usize], code, ids, memory)
    }

    /// What the end of an instruction makes of the barriers and of the other warps, on a core of so many warps.
    pub fn finish(&mut self, most: u32, warp: u32, outcome: Step)
        requires warp { warp < 16 }
        requires barrier { bar_of outcome < 16 }
        ensures { crew_of self.new ≡ crew_after most warp outcome (crew_of self.old) }
    {
        match outcome {
            Step::Wait { bar, count } => {
                let _ = self.barriers.arrive(bar, warp, count);
            }
            Step::Spawn { count, pc } => self.spawn(count.min(most), pc),
            _ => {}
        }
    }

    // The warps from 1 to `count` - 1 that have ended or were not started begin at an address with lane 0 alone.
    fn spawn(&mut self, count: u32, pc: u32)
        ensures { crew_of self.new ≡ with_spawned count pc (crew_of self.old) }
    {
        let set = spawned_in(&self.warps, count);
        start_warps(&mut self.warps, set, pc);
        self.started |= set;
    }
}

// All warps have ended.
fn end_all(warps: &mut [Warp])
    ensures { warps_of warps.new ≡ (λ w. started 0 0) }
{
    for warp in warps.iter_mut() {
        warp.start(0, 0);
    }
}

// The warps of a set begin at an address with lane 0 alone.
fn start_warps(warps: &mut [Warp], set: u32, pc: u32)
    requires warps { length warps.old ≡ 16 }
    requires set { set < 2 ^ 16 }
    ensures { warps_of warps.new ≡ with_started set pc (warps_of warps.old) }
{
    for (number, warp) in warps.iter_mut().enumerate() {
        if has_warp(set, number as u32) {
            warp.start(pc, 1);
        }
    }
}

// Whether a warp is in a set.
fn has_warp(set: u32, warp: u32) -> bool
    requires { warp < 32 }
    ensures { result ≡ has_lane set warp }
{
    (set >> warp) % 2 == 1
}

// Whether a warp has not ended.
fn is_running(warps: &[Warp], warp: u32) -> bool
    requires { warp < length warps.now }
    ensures { result ≡ is_running (warps_of warps.now) warp }
{
    warps[warp as usize].mask() != 0
}

// The warps that have not ended, as bits.
fn running_in(warps: &[Warp]) -> u32
    requires { length warps.now ≡ 16 }
    ensures { result ≡ lanes_below 16 (is_running (warps_of warps.now)) }
{
    let mut set = 0;
    for warp in 0..WARPS {
        if is_running(warps, warp) {
            set |= 1 << warp;
        }
    }
    set
}

// Whether a `wspawn` with a count starts a warp.
fn is_spawned(warps: &[Warp], count: u32, warp: u32) -> bool
    requires { warp < length warps.now }
    ensures { result ≡ is_spawned count (warps_of warps.now) warp }
{
    0 < warp && warp < count && !is_running(warps, warp)
}

// The warps that a `wspawn` with a count starts, as bits.
fn spawned_in(warps: &[Warp], count: u32) -> u32
    requires { length warps.now ≡ 16 }
    ensures { result ≡ spawned_warps count (warps_of warps.now) }
{
    let mut set = 0;
    for warp in 0..WARPS {
        if is_spawned(warps, count, warp) {
            set |= 1 << warp;
        }
    }
    set
}

// A warp that has not ended takes an instruction on the memory of its core.
fn step_on<B: Bus, E: Evictor>(
    warp: &mut Warp,
    code: &[u32],
    ids: Ids,
    memory: &mut CoreMemory<'_, B, E>,
) -> Step
    requires active { warp.old.mask ≢ 0 }
    requires sound { B.is_sound memory.old.bus.now }
    requires lines { B.count memory.old.bus.now % 16 ≡ 0 }
    requires banks { (1 ≤ memory.old.banks) × (memory.old.banks ≤ 16) }
    ensures took { TakesInstruction B.acts E.evicts (B.count memory.old.bus.now) (B.number memory.old.bus.now) memory.old.banks ids code.now
        (state_of warp.old) (reach_of memory.old) result (state_of warp.new) (reach_of memory.new) }
    ensures lane { lane_of result ≤ 32 }
    ensures bar { bar_of result < 16 }
    ensures kept { KeepsLoans B.count B.number memory.old memory.new }
    ensures sound { B.is_sound memory.new.bus.now }
{
    warp.step(code, ids, memory)
}

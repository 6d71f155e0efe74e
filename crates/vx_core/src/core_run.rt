ghost use Rattle.std.specs.Prelude.{◌≡◌, ◌≢◌, ◌+◌, ◌*◌, ◌%◌, ◌^◌, ◌<◌, ◌≤◌, IfOk, None};
ghost use Rattle.vx_core.specs.Blocks.{with_zeros, with_block};
ghost use Rattle.vx_core.specs.Crews.{Opens, ready_warps, with_warp};
ghost use Rattle.vx_core.specs.Ends.{bar_of, lane_of};
ghost use Rattle.vx_core.specs.Places.{TakesInstruction};

use crate::counts::{BANKS, CoreCounts, Tally};
use crate::crew::Crew;
use crate::end::GroupEnd;
use crate::ends::end_after;
use crate::job::{BlockWords, GroupJob};
use crate::memory::CoreMemory;
use l1_cache::{Cache, Evictor};
use memory_banks::Bus;
use scratchpad::{BYTES, Scratch};
use std::alloc::Global;
use vx_base::{Memory, Size};
use vx_isa::{Ids, Image, Step};
use warp_scheduler::Picker;

/// A core.
#[derive(Drop)]
pub struct Core {
    number: u32,
    // By so many banks its bus steps are counted.
    banks: u32,
    crew: Crew,
    scratch: Scratch,
    cache: Cache,
    // The bus steps on each bank.
    steps: [u64; BANKS],
    tally: Tally,
    ghost few_banks: { (1 ≤ banks) × (banks ≤ 16) },
}

impl Core {
    ghost use Rattle.vx_core.specs.CoreSteps.{RunsGroup, StepsOnce};
    ghost use Rattle.vx_core.specs.Cores.{BeginsLaunch, IsNew, KeepsNumbers, banks_of, core_crew, core_reach, core_counts, core_state, number_of, setting_of, tally_of};

    /// The core with a number, a cache of 1 to 64 sets of 1 to 8 ways, and bus steps counted by 1 to 16 banks.
    pub fn new(alloc: Global, core: u32, sets: u32, ways: u32, banks: u32) -> Result<Core, Memory>
        requires sets { (1 ≤ sets) × (sets ≤ 64) }
        requires ways { (1 ≤ ways) × (ways ≤ 8) }
        requires banks { (1 ≤ banks) × (banks ≤ 16) }
        ensures { IfOk result (IsNew core banks sets) }
    {
        Ok(Core {
            number: core,
            banks,
            crew: Crew::new(alloc)?,
            scratch: Scratch::new(alloc)?,
            cache: Cache::new(alloc, sets, ways)?,
            steps: [0; BANKS],
            tally: Tally::new(),
        })
    }

    /// A launch begins: the cache keeps no line, the scratchpad is 0, and all counts are 0.
    pub fn begin_launch(&mut self)
        ensures { BeginsLaunch self.old self.new }
    {
        self.cache.invalidate();
        clear_below(&mut self.scratch, BYTES);
        self.steps = [0; BANKS];
        self.tally = Tally::new();
    }

    /// What the core has counted since the launch began.
    pub fn counts(&self) -> CoreCounts
        ensures { result ≡ core_counts self.now }
    {
        CoreCounts {
            instructions: self.tally.instructions,
            splits: self.tally.splits,
            diverged: self.tally.diverged,
            depth: self.tally.depth,
            hits: self.cache.hits(),
            misses: self.cache.misses(),
            banks: self.steps,
        }
    }

    /// Runs a group to its end, or until it has taken `turns` instructions. It takes no memory.
    ///
    /// A warp has at most 32 lanes, at most the 1,048,576 bytes of the scratchpad are cleared, and the numbers of all items are
    /// below 2^32. The bus has a whole number of cache lines.
    pub fn run_group<B: Bus, P: Picker, E: Evictor>(
        &mut self,
        image: &Image,
        job: &GroupJob,
        bus: &mut B,
        pick: &mut P,
        evict: &mut E,
    ) -> GroupEnd
        requires sound { B.is_sound bus.old }
        requires lines { B.count bus.old % 16 ≡ 0 }
        requires clear { job.now.clear ≤ 1048576 }
        requires lanes { job.now.lanes ≤ 32 }
        requires items { job.now.group * job.now.local + 512 < 2 ^ 32 }
        ensures runs { RunsGroup B.acts E.evicts P.begins P.picks (setting_of self.old (B.count bus.old) (B.number bus.old) image.now job.now)
            (core_state self.old bus.old evict.old pick.old) result (core_state self.new bus.new evict.new pick.new) }
        ensures same_core { KeepsNumbers self.old self.new }
        ensures sound { B.is_sound bus.new }
        ensures same_bus { (B.count bus.new ≡ B.count bus.old) × (B.number bus.new ≡ B.number bus.old) }
    {
        self.begin_group(job);
        pick.begin(job.group);
        for turn in 0..job.turns {
            if let Some(end) = self.step(image, job, bus, pick, evict) {
                return end;
            }
        }
        GroupEnd::Turns { count: job.turns }
    }

    // The scratchpad, the barriers and the warps as a group finds them.
    fn begin_group(&mut self, job: &GroupJob)
        requires clear { job.now.clear ≤ 1048576 }
        ensures crew { Opens (core_crew self.new) }
        ensures scratch { self.new.scratch ≡ with_block job.now.block (with_zeros job.now.clear self.old.scratch) }
        ensures rest { (self.new.cache ≡ self.old.cache) × (self.new.steps ≡ self.old.steps) × (self.new.tally ≡ self.old.tally) }
        ensures same_core { KeepsNumbers self.old self.new }
    {
        clear_below(&mut self.scratch, job.clear);
        write_block(&mut self.scratch, &job.block);
        self.crew.begin();
    }

    // A step: the policy picks a ready warp, which takes an instruction.
    fn step<B: Bus, P: Picker, E: Evictor>(
        &mut self,
        image: &Image,
        job: &GroupJob,
        bus: &mut B,
        pick: &mut P,
        evict: &mut E,
    ) -> Option<GroupEnd>
        requires ready { ready_warps (core_crew self.old) ≢ 0 }
        requires sound { B.is_sound bus.old }
        requires lines { B.count bus.old % 16 ≡ 0 }
        requires lanes { job.now.lanes ≤ 32 }
        requires items { job.now.group * job.now.local + 512 < 2 ^ 32 }
        ensures steps { StepsOnce B.acts E.evicts P.picks (setting_of self.old (B.count bus.old) (B.number bus.old) image.now job.now)
            (core_state self.old bus.old evict.old pick.old) result (core_state self.new bus.new evict.new pick.new) }
        ensures ready { (result ≡ None) → ready_warps (core_crew self.new) ≢ 0 }
        ensures same_core { KeepsNumbers self.old self.new }
        ensures sound { B.is_sound bus.new }
        ensures same_bus { (B.count bus.new ≡ B.count bus.old) × (B.number bus.new ≡ B.number bus.old) }
    {
        let warp = self.crew.pick(pick);
        let outcome = self.step_warp(image, job, warp, bus, evict);
        self.tally.add(outcome, self.crew.depth(warp));
        self.crew.finish(job.warps, warp, outcome);
        end_after(&self.crew, &image.sites, job, warp, outcome)
    }

    // A warp takes an instruction.
    fn step_warp<B: Bus, E: Evictor>(
        &mut self,
        image: &Image,
        job: &GroupJob,
        warp: u32,
        bus: &mut B,
        evict: &mut E,
    ) -> Step
        requires warp { warp < 16 }
        requires active { ((core_crew self.old).warps warp).mask ≢ 0 }
        requires sound { B.is_sound bus.old }
        requires lines { B.count bus.old % 16 ≡ 0 }
        ensures took { TakesInstruction B.acts E.evicts (B.count bus.old) (B.number bus.old) (banks_of self.old) (record { core = number_of self.old; warp = warp; lanes = job.now.lanes }) image.now.words
            ((core_crew self.old).warps warp) (core_reach self.old bus.old evict.old) result ((core_crew self.new).warps warp) (core_reach self.new bus.new evict.new) }
        ensures crew { core_crew self.new ≡ with_warp warp ((core_crew self.new).warps warp) (core_crew self.old) }
        ensures lane { lane_of result ≤ 32 }
        ensures bar { bar_of result < 16 }
        ensures tally { tally_of self.new ≡ tally_of self.old }
        ensures same_core { KeepsNumbers self.old self.new }
        ensures sound { B.is_sound bus.new }
        ensures same_bus { (B.count bus.new ≡ B.count bus.old) × (B.number bus.new ≡ B.number bus.old) }
    {
        let ids = Ids {
            core: self.number,
            warp,
            lanes: job.lanes,
        };
        let mut memory = CoreMemory {
            scratch: &mut self.scratch,
            cache: &mut self.cache,
            bus,
            evict,
            banks: self.banks,
            steps: &mut self.steps,
        };
        self.crew.step(image.words.as_slice(), ids, &mut memory)
    }
}

// Sets the bytes of a scratchpad below a place to 0.
#[tactic(auto, unfolding(crate::specs::Blocks::with_zeros))]
fn clear_below(scratch: &mut Scratch, end: u32)
    requires { end ≤ BYTES }
    ensures { scratch.new ≡ with_zeros end scratch.old }
{
    scratch.clear_to(end);
}

// Writes a launch block to the head of a scratchpad.
fn write_block(scratch: &mut Scratch, block: &BlockWords)
    ensures { scratch.new ≡ with_block block.now scratch.old }
{
    for (place, word) in block.iter().enumerate() {
        let _ = scratch.write(4 * place as u32, Size::Four, *word);
    }
}

ghost use Rattle.std.specs.Prelude.{◌≡◌};
ghost use Rattle.core_threads.specs.GroupRuns.{bad_end};

use crate::jobs::Jobs;
use group_dispenser::{Claimer, Dispenser};
use l1_cache::Evictor;
use memory_banks::PortBus;
use vx_core::{Core, GroupEnd};
use vx_isa::Image;
use vx_world::Gate;
use warp_scheduler::Picker;

/// A core with all that it owns while a launch runs.
#[derive(Drop)]
pub struct CoreWork<'a, P: Picker, E: Evictor> {
    /// The number of the core.
    pub number: u32,
    /// The core.
    pub core: Core,
    /// The words that all cores share, through a port of this core.
    pub bus: PortBus<'a>,
    /// By this it claims groups.
    pub claimer: Claimer,
    /// By this it picks warps.
    pub picker: P,
    /// By this its cache gives up lines.
    pub evictor: E,
    /// The groups that it has claimed, with room for all.
    pub claimed: Vec<u32>,
    /// The end of its last group, where that is a bad one.
    pub end: Option<GroupEnd>,
}

impl<P: Picker, E: Evictor> CoreWork<'_, P, E> {
    ghost use Rattle.core_threads.specs.Works.{CanRun, HasRun};

    /// Claims groups and runs them, until none is left or one has a bad end. It passes the gate after each claim of a group, and
    /// takes no memory.
    pub fn run<J: Jobs, G: Gate>(
        &mut self,
        image: &Image,
        jobs: &J,
        dispenser: &Dispenser,
        gate: &G,
    )
        requires { CanRun dispenser.now (J.groups jobs.now) self.old }
        ensures { HasRun E.evicts P.begins P.picks image.now (J.job_of jobs.now) dispenser.now
            (J.groups jobs.now) self.old self.new }
    {
        for turn in 0..jobs.count() {
            let Some(group) = self.claimer.claim(dispenser) else {
                return;
            };
            self.claimed.push_reserved(group);
            gate.pass(self.number, group);
            let job = jobs.job(group);
            let end = self.core.run_group(
                image,
                &job,
                &mut self.bus,
                &mut self.picker,
                &mut self.evictor,
            );
            self.end = bad_end(end);
            if self.end.is_some() {
                return;
            }
        }
    }
}

// The end of a group, where a core runs no other behind it.
fn bad_end(end: GroupEnd) -> Option<GroupEnd>
    ensures { result ≡ bad_end end }
{
    match end {
        GroupEnd::Finished => None,
        _ => Some(end),
    }
}

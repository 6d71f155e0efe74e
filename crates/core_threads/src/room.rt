ghost use Rattle.std.specs.Prelude.{◌≡◌, ◌+◌, ◌<◌, ◌≤◌, IfOk, [], ◌∷◌, ◌++◌, length, map};

use crate::record::CoreRecord;
use crate::work::CoreWork;
use group_dispenser::Claimer;
use l1_cache::Evictor;
use memory_banks::{Port, PortBus};
use std::alloc::Global;
use vx_base::{ListOf, Memory};
use warp_scheduler::Picker;

/// What cores give back when they have stopped. Its memory is taken before any of them starts.
#[derive(Drop)]
pub struct Room {
    /// The ports of the cores.
    pub ports: Vec<Port>,
    /// Their claimers.
    pub claimers: Vec<Claimer>,
    /// What they did.
    pub records: Vec<CoreRecord>,
}

impl Room {
    ghost use Rattle.core_threads.specs.Rooms.{HasRoom, IsEmptyRoom, Takes, TakesAll};

    /// Room for so many cores.
    pub fn new(alloc: Global, cores: usize) -> Result<Room, Memory>
        ensures { IfOk result (λ r. HasRoom cores r × IsEmptyRoom r) }
    {
        Ok(Room {
            ports: Vec::with_capacity(alloc, cores)?,
            claimers: Vec::with_capacity(alloc, cores)?,
            records: Vec::with_capacity(alloc, cores)?,
        })
    }

    // Takes what a core gives back.
    fn take<P: Picker + Drop, E: Evictor + Drop>(&mut self, work: CoreWork<'_, P, E>)
        requires { HasRoom 1 self.old }
        ensures { Takes self.old work.entry self.new }
    {
        let CoreWork {
            number: _,
            core,
            bus,
            claimer,
            picker: _,
            evictor: _,
            claimed,
            end,
        } = work;
        let PortBus { banks: _, port } = bus;
        self.ports.push_reserved(port);
        self.claimers.push_reserved(claimer);
        self.records.push_reserved(CoreRecord {
            claimed: ListOf { items: claimed },
            counts: core.counts(),
            end,
        });
    }

    /// Takes what each of some cores gives back.
    pub fn take_all<P: Picker + Drop, E: Evictor + Drop>(&mut self, works: Vec<CoreWork<'_, P, E>>)
        requires { HasRoom (length works.items) self.old }
        ensures { TakesAll works.entry.items self.old self.new }
    {
        for work in works {
            self.take(work);
        }
    }
}

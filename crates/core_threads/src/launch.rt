//! All groups of a launch on the cores of a machine.
ghost use Rattle.std.specs.Prelude.{◌≡◌, ◌%◌, ◌^◌, ◌<◌, List, IfOk, OnErr, length};
ghost use Rattle.memory_banks.specs.declared.entry.BusEntry.{BusEntry};
ghost use Rattle.core_threads.specs.Joins.{AreJoined};
ghost use Rattle.core_threads.specs.MachineRuns.{MachineRun, least_bad};
ghost use Rattle.core_threads.specs.Rooms.{HasRoom, IsEmptyRoom};
ghost use Rattle.core_threads.specs.Seats.{IsMachine, plan_of};
ghost use Rattle.core_threads.specs.Starts.{AreSeated};

use crate::jobs::Jobs;
use crate::machine::Machine;
use crate::record::{CoreRecord, RecordList};
use crate::room::Room;
use crate::seats::{Policies, seat_all};
use crate::side_by_side::run_all;
use crate::work::CoreWork;
use group_dispenser::{Claimer, Dispenser};
use l1_cache::Evictor;
use memory_banks::{Banks, Port};
use std::alloc::Global;
use std::thread::Threads;
use vx_base::{ListOf, Memory, WordList};
use vx_core::GroupEnd;
use vx_isa::Image;
use vx_world::Gate;
use warp_scheduler::Picker;

/// What the cores did in a launch.
#[derive(Debug, Drop)]
pub struct Launched {
    /// What each core did.
    pub records: RecordList,
    /// The bad end of the least core that has one.
    pub end: Option<GroupEnd>,
}

/// Lets cores that are ready run until all have stopped, and gathers what they give back. It takes no memory.
pub fn run_cores<
    R: Threads + Sync,
    J: Jobs + Sync,
    G: Gate + Sync,
    P: Picker + Send + Drop,
    E: Evictor + Send + Drop,
>(
    rt: &R,
    image: &Image,
    jobs: &J,
    gate: &G,
    machine: Machine,
    banks: &Banks,
    port: &mut Port,
    dispenser: &Dispenser,
    claimer: &mut Claimer,
    mut works: Vec<CoreWork<'_, P, E>>,
    mut room: Room,
) -> RecordList
    requires seated { AreSeated E.begins (J.groups jobs.now) machine.cores machine.banks machine.sets
        banks.now port.old dispenser.now claimer.old works.items }
    requires room { HasRoom (length works.items) room × IsEmptyRoom room }
    ensures { AreJoined E.evicts P.begins P.picks image.now (J.job_of jobs.now) banks.now dispenser.now
        (J.groups jobs.now) works.entry.items port.old claimer.old port.new claimer.new result }
{
    run_all(rt, image, jobs, dispenser, gate, works.as_mut_slice());
    room.take_all(works);
    let Room {
        ports,
        claimers,
        records,
    } = room;
    memory_banks::gather(banks, port, ListOf { items: ports });
    group_dispenser::gather(dispenser, claimer, ListOf { items: claimers });
    ListOf { items: records }
}

// The bad end of the least core that has one.
fn least_end(records: &[CoreRecord]) -> Option<GroupEnd>
    ensures { result ≡ least_bad records.now }
{
    records
        .iter()
        .find(|record| record.end.is_some())
        .map(|record| record.end)
        .unwrap_or(None)
}

/// Runs all groups of a launch on the cores of a machine, each core on a thread of its own where one can be made. The words are
/// then as the cores left them. All memory is taken before the first core starts; where there is none, the words are as before.
pub fn run_groups<
    R: Threads + Sync,
    J: Jobs + Sync,
    G: Gate + Sync,
    P: Picker + Send + Drop,
    E: Evictor + Send + Drop,
>(
    rt: &R,
    alloc: Global,
    image: &Image,
    jobs: &J,
    machine: Machine,
    policies: Vec<Policies<P, E>>,
    gate: &G,
    words: &mut WordList,
) -> Result<Launched, Memory>
    requires machine { IsMachine machine }
    requires policies { length policies.items ≡ machine.cores }
    requires words { length words.old < 2 ^ 32 }
    requires lines { length words.old % 16 ≡ 0 }
    ensures ran { IfOk result (λ r. (history : List BusEntry)
        × MachineRun E.evicts E.begins P.begins P.picks
        (plan_of image.now (J.groups jobs.now) (J.job_of jobs.now) machine) words.old r.records history words.new r.end) }
    ensures err { OnErr result (words.new ≡ words.old) }
{
    let (banks, mut port) = Banks::of_words(alloc, words)?;
    let ports = memory_banks::ports(alloc, &banks, &mut port, machine.cores)?;
    let groups = jobs.count();
    let (dispenser, mut claimer) = Dispenser::new(alloc, groups)?;
    let claimers = group_dispenser::claimers(alloc, &dispenser, &mut claimer, machine.cores)?;
    let room = Room::new(alloc, machine.cores as usize)?;
    let works = seat_all(
        alloc, machine, groups, &banks, ports, &dispenser, claimers, policies,
    )?;
    let records = run_cores(
        rt,
        image,
        jobs,
        gate,
        machine,
        &banks,
        &mut port,
        &dispenser,
        &mut claimer,
        works,
        room,
    );
    group_dispenser::close(dispenser, claimer);
    memory_banks::close(banks, port, words);
    let end = least_end(records.as_slice());
    Ok(Launched { records, end })
}

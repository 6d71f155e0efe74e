//! The cores of a machine made ready for a launch. All that they will need of memory is taken here.
ghost use Rattle.std.specs.Prelude.{◌≡◌, ◌+◌, ◌%◌, ◌<◌, ◌≤◌, ◌∷◌, IfOk, length, map};
ghost use Rattle.memory_banks.specs.Ports.{opening_of};
ghost use Rattle.group_dispenser.specs.Claimers.{groups_of};
ghost use Rattle.core_threads.specs.Joins.{port_in};
ghost use Rattle.core_threads.specs.Seats.{AreClaimersOf, ArePortsOf, IsClaimerOf, IsMachine, IsPortOf};
ghost use Rattle.core_threads.specs.Starts.{EachSeated, IsSeated};

use crate::machine::Machine;
use crate::work::CoreWork;
use group_dispenser::{Claimer, ClaimerList, Dispenser};
use l1_cache::Evictor;
use memory_banks::{Banks, Port, PortBus, PortList};
use std::alloc::Global;
use vx_base::Memory;
use vx_core::Core;
use warp_scheduler::Picker;

/// The policies of a core: by which it picks warps, and by which its cache gives up lines.
#[derive(Drop)]
pub struct Policies<P: Picker, E: Evictor> {
    /// By this it picks warps.
    pub picker: P,
    /// By this its cache gives up lines.
    pub evictor: E,
}

// Takes the first out of a list.
fn take_first<T>(items: &mut Vec<T>) -> T
    requires { 0 < length items.old.items }
    ensures { items.old.items ≡ result ∷ items.new.items }
{
    items.remove(0)
}

// A core with a number, made ready.
fn seat<'a, P: Picker + Drop, E: Evictor + Drop>(
    alloc: Global,
    machine: Machine,
    number: u32,
    groups: u32,
    banks: &'a Banks,
    port: Port,
    _dispenser: &Dispenser,
    claimer: Claimer,
    policies: Policies<P, E>,
) -> Result<CoreWork<'a, P, E>, Memory>
    requires machine { IsMachine machine }
    requires lines { length (opening_of banks.now) % 16 ≡ 0 }
    requires groups { groups_of _dispenser.now ≡ groups }
    requires port { IsPortOf banks.now number port }
    requires claimer { IsClaimerOf _dispenser.now claimer }
    ensures seated { IfOk result (IsSeated E.begins groups machine.banks machine.sets banks.now _dispenser.now number) }
    ensures port { IfOk result (λ w. port_in w ≡ port) }
{
    let Policies {
        picker,
        mut evictor,
    } = policies;
    evictor.begin(number);
    Ok(CoreWork {
        number,
        core: Core::new(alloc, number, machine.sets, machine.ways, machine.banks)?,
        bus: PortBus { banks, port },
        claimer,
        picker,
        evictor,
        claimed: Vec::with_capacity(alloc, groups as usize)?,
        end: None,
    })
}

/// The cores of a machine, made ready.
pub fn seat_all<'a, P: Picker + Drop, E: Evictor + Drop>(
    alloc: Global,
    machine: Machine,
    groups: u32,
    banks: &'a Banks,
    ports: PortList,
    dispenser: &Dispenser,
    claimers: ClaimerList,
    policies: Vec<Policies<P, E>>,
) -> Result<Vec<CoreWork<'a, P, E>>, Memory>
    requires machine { IsMachine machine }
    requires lines { length (opening_of banks.now) % 16 ≡ 0 }
    requires groups { groups_of dispenser.now ≡ groups }
    requires ports { (length ports ≡ machine.cores) × ArePortsOf banks.now ports }
    requires claimers { (length claimers ≡ machine.cores) × AreClaimersOf dispenser.now claimers }
    requires policies { length policies.items ≡ machine.cores }
    ensures count { IfOk result (λ v. length v.items ≡ machine.cores) }
    ensures each { IfOk result (λ v. EachSeated E.begins groups machine.banks machine.sets banks.now dispenser.now v.items) }
    ensures ports { IfOk result (λ v. map port_in v.items ≡ ports) }
{
    let mut works = Vec::with_capacity(alloc, machine.cores as usize)?;
    let mut ports = ports.items;
    let mut claimers = claimers.items;
    let mut policies = policies;
    for number in 0..machine.cores {
        let work = seat(
            alloc,
            machine,
            number,
            groups,
            banks,
            take_first(&mut ports),
            dispenser,
            take_first(&mut claimers),
            take_first(&mut policies),
        )?;
        works.push_reserved(work);
    }
    Ok(works)
}

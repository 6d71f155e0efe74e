ghost use Rattle.std.specs.Prelude.{◌≡◌, ◌≢◌, ◌+◌, ◌*◌, ◌^◌, ◌<◌, ◌≤◌, None, option_map};
ghost use Rattle.vx_core.specs.Ends.{end_after, end_of_break, end_of_trap, end_without_trap, lane_of, site_at};
ghost use Rattle.vx_core.specs.Crews.{ready_warps};
ghost use Rattle.vx_core.specs.Cores.{crew_of};

use crate::crew::{CODE_START, Crew};
use crate::end::GroupEnd;
use crate::job::GroupJob;
use vx_base::Pos;
use vx_isa::{MachineTrap, Site, SiteList, Step};

/// How the group ends behind an instruction of a warp, the number of instructions aside.
#[tactic(auto, using(crate::proofs::ItemLaws::lanes_below_warp))]
pub fn end_after(
    crew: &Crew,
    sites: &SiteList,
    job: &GroupJob,
    warp: u32,
    outcome: Step,
) -> Option<GroupEnd>
    requires warp { warp < 16 }
    requires lanes { job.now.lanes ≤ 32 }
    requires lane { lane_of outcome ≤ 32 }
    requires items { job.now.group * job.now.local + 512 < 2 ^ 32 }
    ensures end { result ≡ end_after sites.now job.now warp outcome (crew_of crew.now) }
    ensures ready { (result ≡ None) → ready_warps (crew_of crew.now) ≢ 0 }
{
    match outcome {
        Step::Trap { fault, lane, pc } => {
            let item = job.group * job.local + warp * job.lanes + lane;
            Some(end_of_trap(sites.as_slice(), fault, warp, pc, item))
        }
        _ => end_without_trap(crew),
    }
}

// How the group ends behind an instruction that has not trapped.
fn end_without_trap(crew: &Crew) -> Option<GroupEnd>
    ensures end { result ≡ end_without_trap (crew_of crew.now) }
    ensures ready { (result ≡ None) → ready_warps (crew_of crew.now) ≢ 0 }
{
    if crew.running_warps() == 0 {
        return Some(GroupEnd::Finished);
    }
    if crew.ready_warps() == 0 {
        return Some(GroupEnd::Stuck {
            waiting: crew.waiting_warps(),
            ended: crew.ended_warps(),
        });
    }
    None
}

// How a trap of an item ends its group.
fn end_of_trap(sites: &[Site], fault: MachineTrap, warp: u32, pc: u32, item: u32) -> GroupEnd
    ensures { result ≡ end_of_trap sites.now fault warp pc item }
{
    match fault {
        MachineTrap::Break => end_of_break(position_of(sites, pc), warp, item),
        _ => GroupEnd::Machine { fault, warp },
    }
}

// How an `ebreak` ends its group: a check has a place in the source.
fn end_of_break(pos: Option<Pos>, warp: u32, item: u32) -> GroupEnd
    ensures { result ≡ end_of_break warp item pos }
{
    match pos {
        Some(pos) => GroupEnd::Trapped { pos, item },
        None => GroupEnd::Machine {
            fault: MachineTrap::Break,
            warp,
        },
    }
}

// Where the first check stands whose `ebreak` is at an address.
fn position_of(sites: &[Site], pc: u32) -> Option<Pos>
    ensures { result ≡ option_map (λ site. site.pos) (site_at sites.now pc) }
{
    sites
        .iter()
        .find(|site| u64::from(CODE_START) + u64::from(site.pc) == u64::from(pc))
        .map(|site| site.pos)
}

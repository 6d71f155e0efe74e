ghost use Rattle.std.specs.Prelude.{◌≡◌, ◌≤◌, IfOk, length};

use core_threads::{Jobs, Launched, Machine, Policies, run_groups};
use l1_cache::EvictOldest;
use std::alloc::Global;
use std::test::Fail;
use std::thread::Threads;
use vx_base::{ListOf, WordList};
use vx_core::{GroupEnd, GroupJob};
use vx_isa::{Image, MachineTrap};
use vx_world::{Gate, HoldGate, NoGate};
use warp_scheduler::RoundRobin;

// lui x5, 0x10000; lw x6, 0(x5); slli x7, x6, 2; lui x5, 0x40000; add x5, x5, x7; addi x6, x6, 100; sw x6, 0(x5); tmc x0
const STORES: [u32; 8] = [
    0x1000_02b7,
    0x0002_a303,
    0x0023_1393,
    0x4000_02b7,
    0x0072_82b3,
    0x0643_0313,
    0x0062_a023,
    0x0000_000b,
];

// The same, but group 0 traps: lui x5, 0x10000; lw x6, 0(x5); bne x6, x0, 8; ebreak; ..
const FIRST_TRAPS: [u32; 10] = [
    0x1000_02b7,
    0x0002_a303,
    0x0003_1463,
    0x0010_0073,
    0x0023_1393,
    0x4000_02b7,
    0x0072_82b3,
    0x0643_0313,
    0x0062_a023,
    0x0000_000b,
];

// Groups of one item, each of which finds its number in the first word of its launch block.
#[derive(Drop)]
struct NumberedGroups {
    groups: u32,
    turns: u64,
    ghost few: { groups ≤ 65536 },
}

impl Jobs for NumberedGroups {
    ghost use Rattle.std.specs.Prelude.{replicate, slice_set};

    ghost groups = { λ jobs. jobs.groups };

    ghost job_of = { λ jobs group. record { warps = 1; lanes = 1; local = 1; group = group; block = slice_set (replicate 64 0) 0 group; clear = 0; turns = jobs.turns } };

    fn count(&self) -> u32 {
        self.groups
    }

    fn job(&self, group: u32) -> GroupJob {
        let mut block = [0; 64];
        block[0] = group;
        GroupJob {
            warps: 1,
            lanes: 1,
            local: 1,
            group,
            block,
            clear: 0,
            turns: self.turns,
        }
    }
}

fn image_of(alloc: Global, words: &[u32]) -> Result<Image, Fail> {
    Ok(Image {
        words: ListOf {
            items: words.to_vec(alloc)?,
        },
        slots: 0,
        sites: ListOf {
            items: Vec::new(alloc),
        },
        params: ListOf {
            items: Vec::new(alloc),
        },
        locals: ListOf {
            items: Vec::new(alloc),
        },
    })
}

fn policies_of(alloc: Global, cores: u32) -> Result<Vec<Policies<RoundRobin, EvictOldest>>, Fail>
    ensures { IfOk result (λ v. length v.items ≡ cores) }
{
    let mut policies = Vec::with_capacity(alloc, cores as usize)?;
    for made in 0..cores {
        policies.push_reserved(Policies {
            picker: RoundRobin::new(),
            evictor: EvictOldest::new(),
        });
    }
    Ok(policies)
}

// 64 words of 0.
fn words_of(alloc: Global) -> Result<WordList, Fail>
    ensures { IfOk result (λ words. length words ≡ 64) }
{
    let items = vec![in alloc; 0; 64]?;
    Ok(ListOf { items })
}

// A launch of 64 groups, with the words that it leaves.
fn run_on<R: Threads + Sync, G: Gate + Sync>(
    rt: &R,
    alloc: Global,
    code: &[u32],
    turns: u64,
    cores: u32,
    gate: &G,
) -> Result<(Launched, WordList), Fail>
    requires { (1 ≤ cores) × (cores ≤ 8) }
{
    let machine = Machine {
        cores,
        banks: 4,
        sets: 1,
        ways: 1,
    };
    let jobs = NumberedGroups { groups: 64, turns };
    let image = image_of(alloc, code)?;
    let policies = policies_of(alloc, cores)?;
    let mut words = words_of(alloc)?;
    let launched = run_groups(
        rt, alloc, &image, &jobs, machine, policies, gate, &mut words,
    )?;
    Ok((launched, words))
}

// How many groups were claimed in all.
fn claimed_in(launched: &Launched) -> usize {
    let mut count = 0usize;
    for record in launched.records.as_slice() {
        count = count.saturating_add(record.claimed.len());
    }
    count
}

// Whether each word from a place on is its number and 100.
fn are_stored(words: &[u32], from: usize) -> bool {
    for (place, word) in words.iter().enumerate() {
        if from <= place && u64::from(*word) != place as u64 + 100 {
            return false;
        }
    }
    true
}

#[test]
fn groups_leave_the_same_words_on_each_number_of_cores(rt: HostRuntime) -> Result<(), Fail> {
    for cores in [1u32, 2, 4, 8] {
        let (launched, words) = run_on(&rt, rt.alloc(), &STORES, 100, cores.clamp(1, 8), &NoGate)?;
        assert_eq!(rt; launched.end, None);
        assert_eq!(rt; launched.records.len(), cores as usize);
        assert_eq!(rt; claimed_in(&launched), 64);
        assert!(rt; are_stored(words.as_slice(), 0));
    }
    Ok(())
}

#[test]
fn two_cores_run_side_by_side(rt: HostRuntime) -> Result<(), Fail> {
    let gate = HoldGate::new(1_000_000_000);
    let (launched, words) = run_on(&rt, rt.alloc(), &STORES, 100, 2, &gate)?;
    assert!(rt; !gate.gave_up());
    assert_eq!(rt; claimed_in(&launched), 64);
    assert!(rt; are_stored(words.as_slice(), 0));
    Ok(())
}

#[test]
fn one_core_alone_does_not_pass_a_holding_gate(rt: HostRuntime) -> Result<(), Fail> {
    let gate = HoldGate::new(1_000);
    let (launched, _words) = run_on(&rt, rt.alloc(), &STORES, 100, 1, &gate)?;
    assert!(rt; gate.gave_up());
    assert_eq!(rt; launched.end, None);
    Ok(())
}

#[test]
fn a_core_that_traps_leaves_the_others_running(rt: HostRuntime) -> Result<(), Fail> {
    let (launched, words) = run_on(&rt, rt.alloc(), &FIRST_TRAPS, 100, 2, &NoGate)?;
    assert_eq!(rt;
        launched.end,
        Some(GroupEnd::Machine {
            fault: MachineTrap::Break,
            warp: 0
        })
    );
    assert_eq!(rt; claimed_in(&launched), 64);
    assert!(rt; are_stored(words.as_slice(), 1));
    Ok(())
}

#[test]
fn a_group_runs_out_of_turns(rt: HostRuntime) -> Result<(), Fail> {
    let (launched, _words) = run_on(&rt, rt.alloc(), &STORES, 3, 1, &NoGate)?;
    assert_eq!(rt; launched.end, Some(GroupEnd::Turns { count: 3 }));
    assert_eq!(rt; claimed_in(&launched), 1);
    Ok(())
}

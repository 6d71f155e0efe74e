ghost use Rattle.std.specs.Prelude.{◌≡◌, length, IfOk};

use l1_cache::EvictOldest;
use memory_banks::PlainBus;
use std::alloc::Global;
use std::test::Fail;
use vx_base::{ListOf, Pos, WordList};
use vx_core::{Core, GroupEnd, GroupJob};
use vx_isa::{Image, MachineTrap, Site};
use warp_scheduler::{OldestFirst, Picker, RoundRobin, SeededPick};

const SOME_POS: Pos = Pos { line: 3, col: 7 };

fn words_of(alloc: Global, words: &[u32]) -> Result<WordList, Fail> {
    Ok(ListOf {
        items: words.to_vec(alloc)?,
    })
}

// An image of these words, with one check, at the second of them.
fn image_of(alloc: Global, words: &[u32]) -> Result<Image, Fail> {
    let site = Site {
        pc: 4,
        pos: SOME_POS,
    };
    Ok(Image {
        words: words_of(alloc, words)?,
        slots: 0,
        sites: ListOf {
            items: [site].to_vec(alloc)?,
        },
        params: ListOf {
            items: Vec::new(alloc),
        },
        locals: ListOf {
            items: Vec::new(alloc),
        },
    })
}

fn job_of(warps: u32, turns: u64) -> GroupJob
    ensures numbers { (result.lanes ≡ 4) × (result.local ≡ 8) × (result.group ≡ 2) × (result.clear ≡ 4096) }
{
    let mut block = [0; 64];
    block[15] = 4;
    GroupJob {
        warps,
        lanes: 4,
        local: 8,
        group: 2,
        block,
        clear: 4096,
        turns,
    }
}

// A bus of 32 words of 0.
fn bus_of(alloc: Global) -> Result<PlainBus, Fail>
    ensures { IfOk result (λ bus. length bus ≡ 32) }
{
    let items = vec![in alloc; 0; 32]?;
    Ok(PlainBus::new(ListOf { items }))
}

// How a group ends by a policy, on two banks.
fn end_by<P: Picker>(
    alloc: Global,
    code: &[u32],
    warps: u32,
    turns: u64,
    policy: &mut P,
) -> Result<GroupEnd, Fail> {
    let mut core = Core::new(alloc, 0, 1, 1, 2)?;
    core.begin_launch();
    let mut bus = bus_of(alloc)?;
    Ok(core.run_group(
        &image_of(alloc, code)?,
        &job_of(warps, turns),
        &mut bus,
        policy,
        &mut EvictOldest::new(),
    ))
}

fn end_of(alloc: Global, code: &[u32], warps: u32, turns: u64) -> Result<GroupEnd, Fail> {
    end_by(alloc, code, warps, turns, &mut RoundRobin::new())
}

#[test]
fn ends_of_one_warp(rt: HostRuntime) -> Result<(), Fail> {
    let alloc = rt.alloc();
    // tmc x0
    assert_eq!(rt; end_of(alloc, &[0x0000_000b], 1, 1)?, GroupEnd::Finished);
    // j: jal x0, j
    assert_eq!(rt;
        end_of(alloc, &[0x0000_006f], 1, 5)?,
        GroupEnd::Turns { count: 5 }
    );
    // addi x5, x0, 2; bar x0, x5
    assert_eq!(rt;
        end_of(alloc, &[0x0020_0293, 0x0050_400b], 1, 9)?,
        GroupEnd::Stuck {
            waiting: 1,
            ended: 0
        }
    );
    // join
    assert_eq!(rt;
        end_of(alloc, &[0x0000_300b], 1, 9)?,
        GroupEnd::Machine {
            fault: MachineTrap::JoinEmpty,
            warp: 0
        }
    );
    Ok(())
}

// Four active lanes of one warp are not two warps: addi x6, x0, 15; tmc x6; addi x5, x0, 2; bar x0, x5; tmc x0.
#[test]
fn lanes_are_no_warps(rt: HostRuntime) -> Result<(), Fail> {
    let code = [
        0x00f0_0313,
        0x0003_000b,
        0x0020_0293,
        0x0050_400b,
        0x0000_000b,
    ];
    assert_eq!(rt;
        end_of(rt.alloc(), &code, 1, 99)?,
        GroupEnd::Stuck {
            waiting: 1,
            ended: 0
        }
    );
    Ok(())
}

// Two warps set four lanes each, meet at a barrier and end, by each policy: addi x6, x0, 2; auipc x7, 0; addi x7, x7, 12;
// wspawn x6, x7; addi x8, x0, 15; tmc x8; addi x5, x0, 2; bar x0, x5; tmc x0.
#[test]
fn two_warps_meet(rt: HostRuntime) -> Result<(), Fail> {
    let alloc = rt.alloc();
    let code = [
        0x0020_0313,
        0x0000_0397,
        0x00c3_8393,
        0x0073_100b,
        0x00f0_0413,
        0x0004_000b,
        0x0020_0293,
        0x0050_400b,
        0x0000_000b,
    ];
    assert_eq!(rt;
        end_by(alloc, &code, 2, 14, &mut RoundRobin::new())?,
        GroupEnd::Finished
    );
    assert_eq!(rt;
        end_by(alloc, &code, 2, 14, &mut OldestFirst::new())?,
        GroupEnd::Finished
    );
    assert_eq!(rt;
        end_by(alloc, &code, 2, 14, &mut SeededPick::new(1))?,
        GroupEnd::Finished
    );
    assert_eq!(rt;
        end_by(alloc, &code, 2, 13, &mut RoundRobin::new())?,
        GroupEnd::Turns { count: 13 }
    );
    // with one warp the other is not started
    assert_eq!(rt;
        end_of(alloc, &code, 1, 99)?,
        GroupEnd::Stuck {
            waiting: 1,
            ended: 0
        }
    );
    Ok(())
}

// A check fails in lane 0 of warp 0 of group 2: addi x5, x0, 1; ebreak. The same `ebreak` elsewhere is no check.
#[test]
fn names_the_check_that_fails(rt: HostRuntime) -> Result<(), Fail> {
    let alloc = rt.alloc();
    assert_eq!(rt;
        end_of(alloc, &[0x0010_0293, 0x0010_0073], 1, 9)?,
        GroupEnd::Trapped {
            pos: SOME_POS,
            item: 16
        }
    );
    assert_eq!(rt;
        end_of(alloc, &[0x0010_0073], 1, 9)?,
        GroupEnd::Machine {
            fault: MachineTrap::Break,
            warp: 0
        }
    );
    Ok(())
}

// lui x5, 0x40000; addi x6, x0, 0x5a; sw x6, 4(x5); sb x6, 66(x5); lw x7, 4(x5); sw x7, 8(x5); tmc x0
#[test]
fn counts_and_steps_on_the_bus(rt: HostRuntime) -> Result<(), Fail> {
    let alloc = rt.alloc();
    let code = [
        0x4000_02b7,
        0x05a0_0313,
        0x0062_a223,
        0x0462_8123,
        0x0042_a383,
        0x0072_a423,
        0x0000_000b,
    ];
    let mut core = Core::new(alloc, 0, 1, 1, 2)?;
    core.begin_launch();
    let mut bus = bus_of(alloc)?;
    let end = core.run_group(
        &image_of(alloc, &code)?,
        &job_of(1, 99),
        &mut bus,
        &mut RoundRobin::new(),
        &mut EvictOldest::new(),
    );
    assert_eq!(rt; end, GroupEnd::Finished);
    let counts = core.counts();
    assert_eq!(rt; counts.instructions, 7);
    assert_eq!(rt; counts.banks[0], 3);
    assert_eq!(rt; counts.banks[1], 2);
    assert_eq!(rt; counts.hits, 0);
    assert_eq!(rt; counts.splits, 0);
    let words = bus.into_words();
    assert_eq!(rt; words.items[1], 0x5a);
    assert_eq!(rt; words.items[2], 0x5a);
    assert_eq!(rt; words.items[16], 0x005a_0000);
    Ok(())
}

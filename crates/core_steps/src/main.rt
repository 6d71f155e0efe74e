//! The program `core_steps`: one core that runs a loop with a load and a store on words of its own, for measurements of its
//! speed (`bench/`). Its words are two numbers: the warps, 1 to 16, and the instructions that the core does. It prints nothing.
#![tactic(auto)]

use l1_cache::EvictOldest;
use memory_banks::PlainBus;
use std::alloc::Global;
use std::env;
use std::process::ExitCode;
use vx_base::{ListOf, Memory};
use vx_core::{Core, GroupEnd, GroupJob};
use vx_isa::Image;
use warp_scheduler::RoundRobin;

// The number that the word behind the program's name at this place spells.
fn number_at(rt: &HostRuntime, place: usize) -> Option<u32> {
    env::args(rt).ok()?.nth(place)?.parse::<u32>().ok()
}

// Warp 0 starts the others; each adds 1 to word 0 for ever.
fn image_of(alloc: Global, warps: u32) -> Result<Image, Memory> {
    let code = [
        warps << 20 | 0x0000_0313, // addi x6, x0, warps
        0x0000_0397, // auipc x7, 0
        0x00c3_8393, // addi x7, x7, 12
        0x0073_100b, // wspawn x6, x7
        0x4000_02b7, // lui x5, 0x40000
        0x0002_a403, // lw x8, 0(x5)
        0x0014_0413, // addi x8, x8, 1
        0x0082_a023, // sw x8, 0(x5)
        0xff5f_f06f, // jal x0, -12
    ];
    Ok(Image {
        words: ListOf {
            items: code.to_vec(alloc)?,
        },
        slots: 0,
        sites: ListOf {
            items: Vec::new(alloc),
        },
        params: ListOf {
            items: Vec::new(alloc),
        },
        locals: ListOf {
            items: Vec::new(alloc),
        },
    })
}

// How a group of so many warps ends that does so many instructions.
fn run(alloc: Global, warps: u32, turns: u32) -> Result<GroupEnd, Memory> {
    let mut core = Core::new(alloc, 0, 1, 1, 1)?;
    core.begin_launch();
    let job = GroupJob {
        warps,
        lanes: 1,
        local: 1,
        group: 0,
        block: [0; 64],
        clear: 4096,
        turns: u64::from(turns),
    };
    let mut bus = PlainBus::new(ListOf {
        items: vec![in alloc; 0; 16]?,
    });
    Ok(core.run_group(
        &image_of(alloc, warps)?,
        &job,
        &mut bus,
        &mut RoundRobin::new(),
        &mut EvictOldest::new(),
    ))
}

fn main(rt: HostRuntime) -> ExitCode {
    let (Some(warps), Some(turns)) = (number_at(&rt, 1), number_at(&rt, 2)) else {
        return ExitCode::from(2);
    };
    if warps < 1 || warps > 16 {
        return ExitCode::from(2);
    }
    match run(rt.alloc(), warps, turns) {
        Ok(GroupEnd::Turns { count: _ }) => ExitCode::from(0),
        _ => ExitCode::from(3),
    }
}

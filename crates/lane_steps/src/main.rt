//! The program `lane_steps`: one warp that runs a straight arithmetic loop, for measurements of its speed (`bench/`). Its words
//! are two numbers: the active lanes, 1 to 32, and the instructions that the warp does. It prints nothing.
#![tactic(auto)]

use std::env;
use std::process::ExitCode;
use vx_base::{Size, lanes_mask};
use warp_state::{Ids, LaneMemory, Warp};

// The address of the first word of the code.
const CODE_START: u32 = 0x8000_0000;

// Eight instructions, of which the last goes back to the first.
const CODE: [u32; 8] = [
    0x0012_8293, // addi x5, x5, 1
    0x0053_0333, // add x6, x6, x5
    0x0033_1393, // slli x7, x6, 3
    0x0074_4433, // xor x8, x8, x7
    0x4054_04b3, // sub x9, x8, x5
    0x0264_8533, // mul x10, x9, x6
    0x0095_35b3, // sltu x11, x10, x9
    0xfe5f_f06f, // jal x0, -28
];

// A memory without fields.
#[derive(Drop)]
struct NoMemory;

impl LaneMemory for NoMemory {
    ghost use Rattle.std.specs.Prelude.{false};

    ghost acts = { λ _ _ _. ⊥ };

    ghost has = { λ _ _ _. false };

    fn read(&mut self, _address: u32, _size: Size) -> Option<u32> {
        None
    }

    fn write(&mut self, _address: u32, _size: Size, _value: u32) -> bool {
        false
    }
}

// Lets the warp do so many instructions, or fewer where it stops.
fn run(warp: &mut Warp, lanes: u32, steps: u32) {
    let ids = Ids {
        core: 0,
        warp: 0,
        lanes,
    };
    let mut memory = NoMemory;
    for _ in 0..steps {
        if warp.mask() == 0 {
            return;
        }
        let _ = warp.step(&CODE, ids, &mut memory);
    }
}

// The number that the word behind the program's name at this place spells.
fn number_at(rt: &HostRuntime, place: usize) -> Option<u32> {
    env::args(rt).ok()?.nth(place)?.parse::<u32>().ok()
}

fn main(rt: HostRuntime) -> ExitCode {
    let (Some(lanes), Some(steps)) = (number_at(&rt, 1), number_at(&rt, 2)) else {
        return ExitCode::from(2);
    };
    if lanes < 1 || lanes > 32 {
        return ExitCode::from(2);
    }
    let mut warp = Warp::new();
    warp.start(CODE_START, lanes_mask(lanes));
    run(&mut warp, lanes, steps);
    if warp.mask() == lanes_mask(lanes) {
        ExitCode::from(0)
    } else {
        ExitCode::from(3)
    }
}

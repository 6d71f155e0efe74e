//! Steps of hand-written words. The warp has four lanes, and the memory is the 64 bytes from address 0 on.
ghost use Rattle.std.specs.Prelude.{◌≢◌};

use crate::lane_bytes::{Bytes, Stored, no_bytes};
use warp_state::{Ids, MachineTrap, Step, Warp};

const START: u32 = 0x8000_0000;

const IDS: Ids = Ids {
    core: 1,
    warp: 2,
    lanes: 4,
};

// jal x0, -4
const BACK: u32 = 0xffdf_f06f;

fn warp_of(mask: u32) -> Warp {
    let mut warp = Warp::new();
    warp.start(START, mask);
    warp
}

// Lets the warp do so many instructions, or fewer where it ends, and tells how the last one ended.
fn run(warp: &mut Warp, code: &[u32], memory: &mut Bytes, steps: u32) -> Step {
    let mut last = Step::Ended;
    for _ in 0..steps {
        if warp.mask() == 0 {
            return last;
        }
        last = warp.step(code, IDS, memory);
    }
    last
}

// Whether a step ends so.
fn is_step(step: Step, expected: Step) -> bool {
    step == expected
}

// The place of the warp's next instruction, counted from the first word. Without code the warp traps, which changes nothing.
fn place_of(warp: &mut Warp) -> u32 {
    if warp.mask() == 0 {
        return 0;
    }
    match warp.step(&[], IDS, &mut no_bytes()) {
        Step::Trap { pc, .. } => pc.wrapping_sub(START),
        _ => 0,
    }
}

// Whether the warp's next instruction, its active lanes and the entries of its stack are so.
fn is_at(warp: &mut Warp, place: u32, mask: u32, depth: usize) -> bool {
    place_of(warp) == place && warp.mask() == mask && warp.depth() == depth
}

// Leads the warp back to the first word.
fn go_back(warp: &mut Warp) {
    let steps = place_of(warp) / 4;
    let _ = run(warp, &[BACK; 16], &mut no_bytes(), steps);
}

// What a register holds in each active lane, in ascending order. A store by all of them, and a jump back, leave the warp as it was.
fn register(warp: &mut Warp, number: u32) -> [u32; 4] {
    let at = (place_of(warp) / 4 % 15) as usize;
    let mut code = [BACK; 16];
    code[at] = number << 20 | 0x0000_2023; // sw number, 0(x0)
    let mut stored = Stored {
        values: [0; 4],
        count: 0,
    };
    for _ in 0..2 {
        if warp.mask() != 0 {
            let _ = warp.step(&code, IDS, &mut stored);
        }
    }
    stored.values
}

fn trap(fault: MachineTrap, lane: u32, place: u32) -> Step {
    Step::Trap {
        fault,
        lane,
        pc: START | place,
    }
}

#[test]
fn splits_and_joins(rt: HostRuntime) {
    let code = [
        0xcc00_22f3, // csrr x5, 0xcc0
        0x0012_f293, // andi x5, x5, 1
        0x0002_a00b, // split x5
        0x0000_300b, // join
        0x0000_300b, // join
    ];
    let mut warp = warp_of(0b1111);
    for (steps, ending, mask, depth, place) in [
        (3, Step::Diverged, 0b1010, 2, 12),
        (1, Step::Next, 0b0101, 1, 12),
        (1, Step::Next, 0b1111, 0, 16),
        (1, trap(MachineTrap::JoinEmpty, 0, 16), 0b1111, 0, 16),
    ] {
        assert!(rt; is_step(run(&mut warp, &code, &mut no_bytes(), steps), ending));
        assert!(rt; is_at(&mut warp, place, mask, depth));
    }
}

// The places, the masks and the depths behind each step of `if (lane & 1) y = 10; else y = 20;`.
#[test]
fn goes_both_ways_of_a_divergent_if(rt: HostRuntime) {
    let code = [
        0xcc00_22f3, // csrr x5, 0xcc0
        0x0012_f293, // andi x5, x5, 1
        0x0002_a00b, // split x5
        0x0002_8663, // beq x5, x0, 12
        0x00a0_0313, // addi x6, x0, 10
        0x0080_006f, // jal x0, 8
        0x0140_0313, // addi x6, x0, 20
        0x0000_300b, // join
        0x0000_000b, // tmc x0
    ];
    let mut warp = warp_of(0b1111);
    for (place, mask, depth) in [
        (0x04, 0b1111, 0),
        (0x08, 0b1111, 0),
        (0x0c, 0b1010, 2),
        (0x10, 0b1010, 2),
        (0x14, 0b1010, 2),
        (0x1c, 0b1010, 2),
        (0x0c, 0b0101, 1),
        (0x18, 0b0101, 1),
        (0x1c, 0b0101, 1),
        (0x20, 0b1111, 0),
    ] {
        let _ = run(&mut warp, &code, &mut no_bytes(), 1);
        assert!(rt; is_at(&mut warp, place, mask, depth));
    }
    assert_eq!(rt; register(&mut warp, 6), [20, 10, 20, 10]);
    assert!(rt; is_step(run(&mut warp, &code, &mut no_bytes(), 1), Step::Ended));
}

#[test]
fn fills_the_stack(rt: HostRuntime) {
    let agreeing = [
        0x0000_200b, // split x0
        0xffdf_f06f, // jal x0, -4
    ];
    let diverging = [
        0xcc00_22f3, // csrr x5, 0xcc0
        0x0002_a00b, // split x5
    ];
    let mut warp = warp_of(0b1111);
    let full = MachineTrap::StackFull;
    for (code, steps, ending, place, depth) in [
        (&agreeing, 126, Step::Next, 0, 63),
        (&diverging, 2, trap(full, 0, 4), 4, 63),
        (&agreeing, 1, Step::Next, 0, 63),
        (&agreeing, 1, Step::Agreed, 4, 64),
        (&agreeing, 1, Step::Next, 0, 64),
        (&agreeing, 1, trap(full, 0, 0), 0, 64),
    ] {
        assert!(rt; is_step(run(&mut warp, code, &mut no_bytes(), steps), ending));
        assert!(rt; is_at(&mut warp, place, 0b1111, depth));
    }
}

// Lane k leaves the loop after k turns.
#[test]
fn leaves_a_loop_at_different_turns(rt: HostRuntime) {
    let code = [
        0xcc00_22f3, // csrr x5, 0xcc0
        0xcc40_2373, // csrr x6, 0xcc4
        0x0062_d00b, // pred x5, x6
        0x0002_8863, // beq x5, x0, 16
        0x0013_8393, // addi x7, x7, 1
        0xfff2_8293, // addi x5, x5, -1
        0xff1f_f06f, // jal x0, -16
        0x0000_000b, // tmc x0
    ];
    let mut warp = warp_of(0b1111);
    for (steps, ending, mask) in [
        (3, Step::Next, 0b1110),
        (5, Step::Next, 0b1100),
        (10, Step::Next, 0b1111),
    ] {
        assert!(rt; is_step(run(&mut warp, &code, &mut no_bytes(), steps), ending));
        assert_eq!(rt; warp.mask(), mask);
    }
    assert_eq!(rt; register(&mut warp, 7), [0, 1, 2, 3]);
    assert!(rt; is_step(run(&mut warp, &code, &mut no_bytes(), 2), Step::Ended));
}

#[test]
fn ends_each_kind_of_step(rt: HostRuntime) {
    let csrr = 0xcc00_22f3; // csrr x5, 0xcc0
    for (mask, second, ending) in [
        (0b1111, 0x0002_9463, trap(MachineTrap::Split, 1, 4)), // bne x5, x0, 8
        (0b1110, 0x0002_9463, Step::Next),
        (0b0001, 0x0002_8363, trap(MachineTrap::Misaligned, 0, 4)), // beq x5, x0, 6
        (0b1111, 0x0020_00ef, trap(MachineTrap::Misaligned, 0, 4)), // jal x1, 2
        (0b1111, 0x0002_80e7, trap(MachineTrap::Split, 2, 4)), // jalr x1, 0(x5)
        (0b1100, 0x0002_80e7, trap(MachineTrap::Misaligned, 2, 4)),
        (0b1111, 0x0052_a023, trap(MachineTrap::Misaligned, 1, 4)), // sw x5, 0(x5)
        (0b1100, 0x0010_0073, trap(MachineTrap::Break, 2, 4)), // ebreak
        (0b1100, 0x0000_0000, trap(MachineTrap::Illegal, 2, 4)),
        (0b1100, 0x0002_a00b, Step::Agreed), // split x5
        (0b0010, 0x0052_900b, Step::Spawn { count: 1, pc: 1 }), // wspawn x5, x5
        (0b1000, 0x0052_c00b, Step::Wait { bar: 3, count: 3 }), // bar x5, x5
        (0b1010, 0x0002_800b, Step::Next), // tmc x5
        (0b1010, 0x0000_000b, Step::Ended), // tmc x0
        (0b1010, 0x0000_500b, Step::Ended), // pred x0, x0
    ] {
        let step = run(&mut warp_of(mask), &[csrr, second], &mut no_bytes(), 2);
        assert!(rt; is_step(step, ending), "{second}");
    }
    let outside = run(&mut warp_of(0b1100), &[csrr], &mut no_bytes(), 2);
    assert!(rt; is_step(outside, trap(MachineTrap::Bus, 2, 4)));
}

// What the active lanes below the one that traps have done stands.
#[test]
fn keeps_what_lower_lanes_did(rt: HostRuntime) {
    let stores = [
        0xcc00_22f3, // csrr x5, 0xcc0
        0x0042_9393, // slli x7, x5, 4
        0x0073_a823, // sw x7, 16(x7)
    ];
    let loads = [
        0x0103_a483, // lw x9, 16(x7)
    ];
    let odd = [
        0x0070_0313, // addi x6, x0, 7
        0x0062_a023, // sw x6, 0(x5)
    ];
    let jumps = [
        0x0012_d313, // srli x6, x5, 1
        0x0013_00e7, // jalr x1, 1(x6)
    ];
    let mut warp = warp_of(0b1111);
    let mut memory = no_bytes();
    let outside = run(&mut warp, &stores, &mut memory, 3);
    assert!(rt; is_step(outside, trap(MachineTrap::Bus, 3, 8)));
    let bytes = memory.bytes;
    assert_eq!(rt; [bytes[16], bytes[32], bytes[48]], [0, 16, 32]);
    go_back(&mut warp);
    let outside = run(&mut warp, &loads, &mut memory, 1);
    assert!(rt; is_step(outside, trap(MachineTrap::Bus, 3, 0)));
    assert_eq!(rt; register(&mut warp, 9), [0, 16, 32, 0]);
    let misaligned = run(&mut warp, &odd, &mut memory, 2);
    assert!(rt; is_step(misaligned, trap(MachineTrap::Misaligned, 1, 4)));
    assert_eq!(rt; [memory.bytes[0], memory.bytes[1]], [7, 0]);
    go_back(&mut warp);
    let disagree = run(&mut warp, &jumps, &mut memory, 2);
    assert!(rt; is_step(disagree, trap(MachineTrap::Split, 2, 4)));
    assert_eq!(rt; register(&mut warp, 1), [START + 8, START + 8, 0, 0]);
}

#[test]
fn computes_in_lanes(rt: HostRuntime) {
    let code = [
        0x8000_0437, // lui x8, 0x80000
        0xfff0_0313, // addi x6, x0, -1
        0x0264_44b3, // div x9, x8, x6
        0x0264_6533, // rem x10, x8, x6
        0x0204_55b3, // divu x11, x8, x0
        0x0204_4633, // div x12, x8, x0
        0x0204_66b3, // rem x13, x8, x0
        0x0204_7733, // remu x14, x8, x0
        0x0010_0013, // addi x0, x0, 1
        0x0000_2003, // lw x0, 0(x0)
        0x0003_000b, // tmc x6
    ];
    let mut warp = warp_of(0b0100);
    let mut memory = no_bytes();
    assert!(rt; is_step(run(&mut warp, &code, &mut memory, 11), Step::Next));
    for (number, value) in [
        (0, 0),
        (6, 0xffff_ffff),
        (8, 0x8000_0000),
        (9, 0x8000_0000),
        (10, 0),
        (11, 0xffff_ffff),
        (12, 0xffff_ffff),
        (13, 0x8000_0000),
        (14, 0x8000_0000),
    ] {
        assert_eq!(rt; register(&mut warp, number), [0, 0, value, 0]);
    }
    assert_eq!(rt; memory.reads, 1);
}

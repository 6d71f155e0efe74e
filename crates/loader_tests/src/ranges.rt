//! Ranges at both sides of each limit.
use crate::launches::{Answer, ask, kernel, launch, machine};
use item_acts::Range;
use launch_loader::LaunchFault;
use std::alloc::Global;
use std::test::Fail;
use vx_base::Memory;

const fn uneven(global: u32, local: u32) -> Answer {
    Answer::Refused(LaunchFault::Divide { global, local })
}

const fn too_many_items(items: u64, most: u32) -> Answer {
    Answer::Refused(LaunchFault::GroupSize { items, most })
}

const fn too_many_groups(count: u64) -> Answer {
    Answer::Refused(LaunchFault::Groups { count })
}

/// What the check of a launch without arguments answers, on a machine whose cores have so many warps and lanes.
fn answer_on(
    alloc: Global,
    global: [u32; 3],
    local: [u32; 3],
    warps: u32,
    lanes: u32,
) -> Result<Answer, Memory> {
    let Some(shape) = machine(warps, lanes) else {
        return Ok(Answer::NotAsked);
    };
    let image = kernel(alloc, &[], &[])?;
    let range = Range {
        dims: 3,
        global,
        local,
    };
    let plan = launch(alloc, range, &[])?;
    ask(alloc, &image, &plan, &shape)
}

#[test]
fn local_sizes_divide(rt: HostRuntime) -> Result<(), Fail> {
    for (global, local, wanted) in [
        ([8, 1, 1], [4, 1, 1], Answer::Accepted),
        ([9, 1, 1], [4, 1, 1], uneven(9, 4)),
        ([7, 1, 1], [4, 1, 1], uneven(7, 4)),
        ([3, 1, 1], [4, 1, 1], uneven(3, 4)),
        ([1, 6, 1], [1, 3, 1], Answer::Accepted),
        ([1, 7, 1], [1, 3, 1], uneven(7, 3)),
        ([2, 6, 10], [2, 3, 5], Answer::Accepted),
        ([2, 6, 11], [2, 3, 5], uneven(11, 5)),
        ([3, 7, 11], [2, 3, 5], uneven(3, 2)),
        ([2, 7, 11], [2, 3, 5], uneven(7, 3)),
        // A local size that is uneven is said before a group that is too large.
        ([1025, 1, 1], [513, 1, 1], uneven(1025, 513)),
    ] {
        assert_eq!(rt; answer_on(rt.alloc(), global, local, 16, 32)?, wanted);
    }
    Ok(())
}

#[test]
fn groups_fit_a_core(rt: HostRuntime) -> Result<(), Fail> {
    for (size, warps, lanes, wanted) in [
        ([512, 1, 1], 16, 32, Answer::Accepted),
        ([513, 1, 1], 16, 32, too_many_items(513, 512)),
        ([8, 8, 8], 16, 32, Answer::Accepted),
        ([8, 8, 9], 16, 32, too_many_items(576, 512)),
        ([32, 1, 1], 4, 8, Answer::Accepted),
        ([1, 33, 1], 4, 8, too_many_items(33, 32)),
        ([1, 1, 511], 16, 31, too_many_items(511, 496)),
        ([1, 1, 1], 1, 1, Answer::Accepted),
        ([2, 1, 1], 1, 1, too_many_items(2, 1)),
        (
            [0x8000_0000, 0x8000_0000, 2],
            16,
            32,
            too_many_items(0x8000_0000_0000_0000, 512),
        ),
        (
            [0x8000_0000, 0x8000_0000, 4],
            16,
            32,
            too_many_items(0xffff_ffff_ffff_ffff, 512),
        ),
    ] {
        assert_eq!(rt; answer_on(rt.alloc(), size, size, warps, lanes)?, wanted);
    }
    Ok(())
}

#[test]
fn groups_are_few(rt: HostRuntime) -> Result<(), Fail> {
    for (global, local, wanted) in [
        ([65_536, 1, 1], [1, 1, 1], Answer::Accepted),
        ([65_537, 1, 1], [1, 1, 1], too_many_groups(65_537)),
        ([256, 256, 1], [1, 1, 1], Answer::Accepted),
        ([256, 1, 257], [1, 1, 1], too_many_groups(65_792)),
        ([131_072, 1, 1], [2, 1, 1], Answer::Accepted),
        ([131_074, 1, 1], [2, 1, 1], too_many_groups(65_537)),
        ([32, 2048, 512], [8, 8, 8], Answer::Accepted),
        (
            [0x8000_0000, 0x8000_0000, 2],
            [1, 1, 1],
            too_many_groups(0x8000_0000_0000_0000),
        ),
        (
            [0x8000_0000, 0x8000_0000, 4],
            [1, 1, 1],
            too_many_groups(0xffff_ffff_ffff_ffff),
        ),
        // A group that is too large is said before too many of them.
        ([33_620_481, 1, 1], [513, 1, 1], too_many_items(513, 512)),
    ] {
        assert_eq!(rt; answer_on(rt.alloc(), global, local, 16, 32)?, wanted);
    }
    Ok(())
}

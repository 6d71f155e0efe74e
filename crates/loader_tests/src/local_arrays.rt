//! The `__local` arrays of a group, at both sides of 262,144 bytes.
use crate::launches::{Answer, usual_answer};
use item_acts::Range;
use launch_loader::LaunchFault;
use launch_plans::Arg;
use std::alloc::Global;
use std::test::Fail;
use vx_base::{Elem, Memory, ParamKind, Space};

const fn too_many_bytes(bytes: u64) -> Answer {
    Answer::Refused(LaunchFault::LocalMemory { bytes })
}

const fn local_array(elem: Elem) -> ParamKind {
    ParamKind::Pointer {
        space: Space::Local,
        elem,
        readonly: false,
    }
}

/// What the check of a launch of so many groups answers for a kernel that takes an array of ints and an array of bytes, and
/// declares two arrays of these sizes.
fn answer_of(
    alloc: Global,
    groups: u32,
    ints: u32,
    bytes: u32,
    declared: [u32; 2],
) -> Result<Answer, Memory> {
    let kinds = [local_array(Elem::Int), local_array(Elem::Uchar)];
    let args = [Arg::Local(ints), Arg::Local(bytes)];
    let range = Range {
        dims: 3,
        global: [groups, 1, 1],
        local: [1, 1, 1],
    };
    usual_answer(alloc, &kinds, &declared, range, &args)
}

#[test]
fn bytes_of_arrays(rt: HostRuntime) -> Result<(), Fail> {
    let many = 4_294_967_295;
    for (groups, ints, bytes, declared, wanted) in [
        (1, 65_536, 0, [0, 0], Answer::Accepted),
        (1, 65_537, 0, [0, 0], too_many_bytes(262_148)),
        (1, 0, 262_144, [0, 0], Answer::Accepted),
        (1, 0, 262_145, [0, 0], too_many_bytes(262_148)),
        (1, 0, 0, [262_144, 0], Answer::Accepted),
        (1, 0, 0, [262_145, 0], too_many_bytes(262_148)),
        (1, 65_535, 4, [0, 0], Answer::Accepted),
        (1, 65_535, 5, [0, 0], too_many_bytes(262_148)),
        (1, 0, 0, [131_072, 131_072], Answer::Accepted),
        (1, 0, 0, [131_072, 131_073], too_many_bytes(262_148)),
        // Each array is rounded up to whole words by itself.
        (1, 0, 262_137, [1, 0], Answer::Accepted),
        (1, 0, 262_137, [1, 1], too_many_bytes(262_148)),
        (1, many, 0, [0, 0], too_many_bytes(17_179_869_180)),
        (1, many, many, [many, many], too_many_bytes(30_064_771_068)),
        // Too many groups are said before.
        (
            65_537,
            65_537,
            0,
            [0, 0],
            Answer::Refused(LaunchFault::Groups { count: 65_537 }),
        ),
    ] {
        assert_eq!(rt;
            answer_of(rt.alloc(), groups, ints, bytes, declared)?,
            wanted
        );
    }
    Ok(())
}

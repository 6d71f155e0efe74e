//! Arguments that parameters take, and arguments that they do not.
use crate::launches::{Answer, ONE_ITEM, usual_answer};
use item_acts::Range;
use launch_loader::LaunchFault;
use launch_plans::Arg;
use std::alloc::Global;
use std::test::Fail;
use vx_base::{Elem, Memory, ParamKind, Space};

const INT: ParamKind = ParamKind::Scalar(Elem::Int);

const fn pointer(space: Space, elem: Elem) -> ParamKind {
    ParamKind::Pointer {
        space,
        elem,
        readonly: false,
    }
}

const fn unlike(given: u32, wanted: u32) -> Answer {
    Answer::Refused(LaunchFault::Arguments { given, wanted })
}

const fn misfit(place: u32) -> Answer {
    Answer::Refused(LaunchFault::Argument { place })
}

const fn both(place: u32) -> Answer {
    Answer::Refused(LaunchFault::Both { place })
}

/// What the check of a launch answers for so many scalars and so many numbers.
fn answer_of_numbers(alloc: Global, parameters: usize, arguments: usize) -> Result<Answer, Memory> {
    if parameters > 16 || arguments > 17 {
        return Ok(Answer::NotAsked);
    }
    let kinds = [INT; 16];
    let args = [Arg::Int(0); 17];
    usual_answer(
        alloc,
        &kinds[..parameters],
        &[],
        ONE_ITEM,
        &args[..arguments],
    )
}

#[test]
fn as_many_as_parameters(rt: HostRuntime) -> Result<(), Fail> {
    for (parameters, arguments, wanted) in [
        (0, 0, Answer::Accepted),
        (0, 1, unlike(1, 0)),
        (1, 0, unlike(0, 1)),
        (1, 1, Answer::Accepted),
        (1, 2, unlike(2, 1)),
        (16, 15, unlike(15, 16)),
        (16, 16, Answer::Accepted),
        (16, 17, unlike(17, 16)),
    ] {
        assert_eq!(rt;
            answer_of_numbers(rt.alloc(), parameters, arguments)?,
            wanted
        );
    }
    Ok(())
}

/// What the check of a launch answers for one parameter: for a number, for a buffer of ints, for one of bytes, and for a
/// `__local` array.
fn answers_of_one(alloc: Global, kind: ParamKind) -> Result<[Answer; 4], Memory> {
    let number = usual_answer(alloc, &[kind], &[], ONE_ITEM, &[Arg::Int(4_294_967_295)])?;
    let ints = usual_answer(alloc, &[kind], &[], ONE_ITEM, &[Arg::Buffer(0)])?;
    let bytes = usual_answer(alloc, &[kind], &[], ONE_ITEM, &[Arg::Buffer(1)])?;
    let array = usual_answer(alloc, &[kind], &[], ONE_ITEM, &[Arg::Local(1)])?;
    Ok([number, ints, bytes, array])
}

#[test]
fn kinds_of_arguments(rt: HostRuntime) -> Result<(), Fail> {
    let taken = Answer::Accepted;
    let other = misfit(0);
    for (kind, wanted) in [
        (INT, [taken, other, other, other]),
        (ParamKind::Scalar(Elem::Char), [taken, other, other, other]),
        (
            pointer(Space::Local, Elem::Int),
            [other, other, other, taken],
        ),
        (
            pointer(Space::Constant, Elem::Int),
            [other, taken, other, other],
        ),
        (
            pointer(Space::Global, Elem::Int),
            [other, taken, other, other],
        ),
        (
            pointer(Space::Global, Elem::Uint),
            [other, other, other, other],
        ),
        (
            pointer(Space::Global, Elem::Short),
            [other, other, other, other],
        ),
        (
            pointer(Space::Global, Elem::Ushort),
            [other, other, other, other],
        ),
        (
            pointer(Space::Global, Elem::Char),
            [other, other, other, other],
        ),
        (
            pointer(Space::Global, Elem::Uchar),
            [other, other, taken, other],
        ),
    ] {
        assert_eq!(rt; answers_of_one(rt.alloc(), kind)?, wanted);
    }
    Ok(())
}

#[test]
fn the_first_that_is_not_taken(rt: HostRuntime) -> Result<(), Fail> {
    let ints = pointer(Space::Global, Elem::Int);
    let kinds = [INT, ints, ints];
    for (args, wanted) in [
        (
            [Arg::Int(7), Arg::Buffer(0), Arg::Buffer(0)],
            Answer::Accepted,
        ),
        ([Arg::Int(7), Arg::Buffer(0), Arg::Buffer(1)], misfit(2)),
        ([Arg::Int(7), Arg::Int(7), Arg::Buffer(1)], misfit(1)),
        ([Arg::Buffer(0), Arg::Int(7), Arg::Buffer(1)], misfit(0)),
    ] {
        assert_eq!(rt;
            usual_answer(rt.alloc(), &kinds, &[], ONE_ITEM, &args)?,
            wanted
        );
    }
    Ok(())
}

/// What the check of a launch answers for four arrays in these spaces: the first and the third are one buffer, and the second
/// and the fourth another.
fn answer_of_four(alloc: Global, spaces: [Space; 4]) -> Result<Answer, Memory> {
    let kinds = [
        pointer(spaces[0], Elem::Int),
        pointer(spaces[1], Elem::Uchar),
        pointer(spaces[2], Elem::Int),
        pointer(spaces[3], Elem::Uchar),
    ];
    let args = [
        Arg::Buffer(0),
        Arg::Buffer(1),
        Arg::Buffer(0),
        Arg::Buffer(1),
    ];
    usual_answer(alloc, &kinds, &[], ONE_ITEM, &args)
}

#[test]
fn buffers_in_two_spaces(rt: HostRuntime) -> Result<(), Fail> {
    let global = Space::Global;
    let constant = Space::Constant;
    for (spaces, wanted) in [
        ([global, global, global, global], Answer::Accepted),
        ([constant, constant, constant, constant], Answer::Accepted),
        ([constant, global, constant, global], Answer::Accepted),
        ([constant, global, global, global], both(2)),
        ([global, global, constant, global], both(2)),
        ([global, global, constant, constant], both(2)),
        ([global, global, global, constant], both(3)),
        ([global, constant, global, global], both(3)),
    ] {
        assert_eq!(rt; answer_of_four(rt.alloc(), spaces)?, wanted);
    }
    Ok(())
}

/// What the check of a launch answers for the first of these arguments where a `__constant` array, a `__global` array and a
/// number are wanted, and the range is uneven.
fn answer_of_first(alloc: Global, args: [Arg; 3], many: usize) -> Result<Answer, Memory> {
    let kinds = [
        pointer(Space::Constant, Elem::Int),
        pointer(Space::Global, Elem::Int),
        INT,
    ];
    let range = Range {
        dims: 3,
        global: [3, 1, 1],
        local: [2, 1, 1],
    };
    if many > 3 {
        return Ok(Answer::NotAsked);
    }
    usual_answer(alloc, &kinds, &[], range, &args[..many])
}

#[test]
fn the_first_refusal_is_said(rt: HostRuntime) -> Result<(), Fail> {
    let ints = Arg::Buffer(0);
    let number = Arg::Int(0);
    for (args, many, wanted) in [
        ([ints, ints, ints], 2, unlike(2, 3)),
        ([ints, ints, ints], 3, misfit(2)),
        ([ints, number, number], 3, misfit(1)),
        ([ints, ints, number], 3, both(1)),
    ] {
        assert_eq!(rt; answer_of_first(rt.alloc(), args, many)?, wanted);
    }
    Ok(())
}

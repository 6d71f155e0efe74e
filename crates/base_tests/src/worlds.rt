//! Turns of the items of small launches.
ghost use Rattle.std.specs.Prelude.{◌≡◌, ◌%◌, ◌<◌, [], length, IfOk};
ghost use Rattle.item_acts.specs.SmallCodes.{own_byte, first_byte, unlike, waiting};

use item_acts::{
    Action, Asked, BytesList, ItemCode, PassFault, Place, Point, TurnFault, Why, World,
};
use std::alloc::Global;
use vx_base::{ListOf, Memory, Pos, Size, SizeList};

/// Each item stores its number to a byte of its own, and ends.
#[derive(Clone, Copy)]
struct OwnByte;

impl ItemCode for OwnByte {
    ghost next_of = { λ code item answers fuel. own_byte item (length answers) };

    fn next(
        &self,
        _alloc: Global,
        item: u32,
        answers: &[u32],
        _fuel: u64,
    ) -> Result<Asked, Memory> {
        let count = answers.len();
        if count == 0 {
            return Ok(Asked::Act(Action::Store {
                place: Place::Global {
                    buffer: 0,
                    byte: item,
                },
                size: Size::One,
                value: item,
            }));
        }
        if count == 1 {
            return Ok(Asked::Act(Action::End));
        }
        Ok(Asked::Running)
    }

    ghost settles = { λ code item answers fuel more action asked. asked };
}

/// Each item stores its number to the first byte, and ends.
#[derive(Clone, Copy)]
struct FirstByte;

impl ItemCode for FirstByte {
    ghost next_of = { λ code item answers fuel. first_byte item (length answers) };

    fn next(
        &self,
        _alloc: Global,
        item: u32,
        answers: &[u32],
        _fuel: u64,
    ) -> Result<Asked, Memory> {
        let count = answers.len();
        if count == 0 {
            return Ok(Asked::Act(Action::Store {
                place: Place::Global { buffer: 0, byte: 0 },
                size: Size::One,
                value: item,
            }));
        }
        if count == 1 {
            return Ok(Asked::Act(Action::End));
        }
        Ok(Asked::Running)
    }

    ghost settles = { λ code item answers fuel more action asked. asked };
}

/// The barrier at which items wait.
fn barrier(alloc: Global) -> Action
    ensures { result ≡ Action.Barrier (record { site = 1; turns = [] }) }
{
    Action::Barrier(Point {
        site: 1,
        turns: ListOf {
            items: Vec::new(alloc),
        },
    })
}

/// Items that do not meet.
#[derive(Clone, Copy)]
struct Unlike;

impl ItemCode for Unlike {
    ghost next_of = { λ code item answers fuel. unlike item (length answers) };

    fn next(&self, alloc: Global, item: u32, answers: &[u32], _fuel: u64) -> Result<Asked, Memory> {
        if item == 0 {
            if answers.is_empty() {
                return Ok(Asked::Act(barrier(alloc)));
            }
            return Ok(Asked::Act(Action::End));
        }
        if item == 1 {
            return Ok(Asked::Act(Action::End));
        }
        if item == 2 {
            return Ok(Asked::Act(Action::Fault(Pos { line: 3, col: 4 })));
        }
        Ok(Asked::Act(Action::Load {
            place: Place::Global { buffer: 9, byte: 0 },
            size: Size::One,
        }))
    }

    ghost settles = { λ code item answers fuel more action asked. asked };
}

/// Each item stores its number to a local array, waits at a barrier, and ends.
#[derive(Clone, Copy)]
struct Waiting;

impl ItemCode for Waiting {
    ghost next_of = { λ code item answers fuel. waiting item (length answers) };

    fn next(&self, alloc: Global, item: u32, answers: &[u32], _fuel: u64) -> Result<Asked, Memory> {
        let count = answers.len();
        if count == 0 {
            return Ok(Asked::Act(Action::Store {
                place: Place::Local {
                    group: 0,
                    array: 0,
                    byte: item,
                },
                size: Size::One,
                value: item,
            }));
        }
        if count == 1 {
            return Ok(Asked::Act(barrier(alloc)));
        }
        Ok(Asked::Act(Action::End))
    }

    ghost settles = { λ code item answers fuel more action asked. asked };
}

/// A buffer of four bytes, each of them 9.
fn nines(alloc: Global) -> Result<BytesList, Memory> {
    match vec![in alloc; 9u8; 4] {
        Err(_) => Err(Memory),
        Ok(items) => {
            let mut texts = Vec::new(alloc);
            if texts.push(ListOf { items }).is_err() {
                return Err(Memory);
            }
            Ok(ListOf { items: texts })
        }
    }
}

/// A local array of two bytes.
fn two_bytes(alloc: Global) -> Result<SizeList, Memory> {
    match vec![in alloc; 2u32; 1] {
        Err(_) => Err(Memory),
        Ok(items) => Ok(ListOf { items }),
    }
}

/// A new world of this code over four bytes, each of them 9, and one local array of two bytes.
fn new_world<C: ItemCode + Drop>(
    alloc: Global,
    code: C,
    items: u32,
    local: u32,
) -> Result<World<C>, Memory>
    requires positive { 0 < local }
    requires whole { items % local ≡ 0 }
    ensures items { IfOk result (λ world. world.held.items ≡ items) }
    ensures local { IfOk result (λ world. world.held.local ≡ local) }
{
    let buffers = nines(alloc)?;
    let sizes = two_bytes(alloc)?;
    World::new(alloc, code, items, local, 0, buffers, sizes)
}

/// What the turns of two items come to, one after the other.
fn take_turns<C: ItemCode>(
    world: &mut World<C>,
    alloc: Global,
    first: u32,
    second: u32,
) -> (Result<(), TurnFault>, Result<(), TurnFault>)
    requires first { first < world.old.held.items }
    requires second { second < world.old.held.items }
    ensures items { world.new.held.items ≡ world.old.held.items }
    ensures local { world.new.held.local ≡ world.old.held.local }
{
    let one = world.turn(alloc, first);
    let other = world.turn(alloc, second);
    (one, other)
}

/// What the first two bytes are behind the turns of two items, and the race of these turns.
#[derive(Clone, Copy, Debug, PartialEq, Eq)]
struct Behind {
    bytes: (Option<u8>, Option<u8>),
    race: Option<(usize, usize)>,
}

/// What two items of this code leave that take their turns in this order.
fn two_turns<C: ItemCode + Drop>(
    alloc: Global,
    code: C,
    first: u32,
    second: u32,
) -> Result<Behind, Memory>
    requires first { first < 2 }
    requires second { second < 2 }
{
    let mut world = new_world(alloc, code, 2, 1)?;
    let _ = take_turns(&mut world, alloc, first, second);
    Ok(Behind {
        bytes: (world.byte(0, 0), world.byte(0, 1)),
        race: world.race(),
    })
}

#[test]
fn own_bytes_come_out_in_any_order(rt: HostRuntime) {
    let left = Behind {
        bytes: (Some(0), Some(1)),
        race: None,
    };
    assert_eq!(rt; two_turns(rt.alloc(), OwnByte, 0, 1), Ok(left));
    assert_eq!(rt; two_turns(rt.alloc(), OwnByte, 1, 0), Ok(left));
}

#[test]
fn stores_to_one_byte_race(rt: HostRuntime) {
    let left = Behind {
        bytes: (Some(0), Some(9)),
        race: Some((0, 1)),
    };
    assert_eq!(rt; two_turns(rt.alloc(), FirstByte, 1, 0), Ok(left));
}

/// What two items come to, then their group, and then two items again.
#[derive(Clone, Copy, Debug, PartialEq, Eq)]
struct Course {
    before: (Result<(), TurnFault>, Result<(), TurnFault>),
    pass: Result<(), PassFault>,
    behind: (Result<(), TurnFault>, Result<(), TurnFault>),
}

/// The course of four items of this code in two groups: the first group takes its turns and tries to pass, and then these two
/// items take a turn.
fn two_rounds<C: ItemCode + Drop>(
    alloc: Global,
    code: C,
    first: u32,
    second: u32,
) -> Result<Course, Memory>
    requires first { first < 4 }
    requires second { second < 4 }
{
    let mut world = new_world(alloc, code, 4, 2)?;
    let before = take_turns(&mut world, alloc, 0, 1);
    let pass = world.pass(alloc, 0);
    let behind = take_turns(&mut world, alloc, first, second);
    Ok(Course {
        before,
        pass,
        behind,
    })
}

#[test]
fn items_that_do_not_meet(rt: HostRuntime) {
    let seen = Course {
        before: (Err(TurnFault::NotReady(Why::Waits)), Ok(())),
        pass: Err(PassFault::NotTogether),
        behind: (Ok(()), Err(TurnFault::NotReady(Why::Nowhere))),
    };
    assert_eq!(rt; two_rounds(rt.alloc(), Unlike, 2, 3), Ok(seen));
}

#[test]
fn a_group_passes_together(rt: HostRuntime) {
    let seen = Course {
        before: (Ok(()), Ok(())),
        pass: Ok(()),
        behind: (Ok(()), Err(TurnFault::NotReady(Why::Ended))),
    };
    assert_eq!(rt; two_rounds(rt.alloc(), Waiting, 1, 1), Ok(seen));
}

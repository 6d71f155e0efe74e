//! The work-items of a launch, one after another up to their next barriers, until all have ended.

use crate::bytes::Bytes;
use item_acts::{Action, Asked, ItemCode};
use std::alloc::{AllocError, Global};
use vx_base::{Memory, Pos};

/// How many small steps may lead to the next action.
const STEPS: u64 = 20_000;

/// How many actions an item may ask for without a barrier between them.
const ACTIONS: u32 = 1_000;

/// How many times all items may go on to their next barriers.
const ROUNDS: u32 = 100;

/// All who ask for actions in a launch: the items of a form of a kernel, or the lanes of its code.
pub trait Askers {
    /// What the one of this number asks for once it has taken some answers, within so many small steps.
    fn next(
        &self,
        alloc: Global,
        number: u32,
        answers: &[u32],
        steps: u64,
    ) -> Result<Asked, Memory>;
}

/// The items of a form of a kernel.
#[derive(Drop)]
pub struct FormItems<'a, I> {
    /// The form.
    pub form: &'a I,
}

impl<'a, I: ItemCode> Askers for FormItems<'a, I> {
    fn next(
        &self,
        alloc: Global,
        number: u32,
        answers: &[u32],
        steps: u64,
    ) -> Result<Asked, Memory> {
        self.form.next(alloc, number, answers, steps)
    }
}

/// Why an item goes on no further alone.
#[derive(Clone, Copy)]
enum Pause {
    Waits,
    Ended,
    Fault(Pos),
    Runs,
}

/// A work-item on its way.
#[derive(Drop)]
struct Way {
    /// Its number in the launch.
    number: u32,
    /// Its answers so far.
    answers: Vec<u32>,
    /// Whether it has ended.
    over: bool,
}

/// What the items of a launch asked for, and how the launch ended.
#[derive(Drop)]
pub struct Run {
    /// Each action, in order.
    pub actions: String,
    /// Each action, in order, without the points of barriers.
    pub without_points: String,
    /// The words after it, or the fault that came, with its item.
    pub end: String,
}

/// The actions of a launch so far.
#[derive(Drop)]
struct Log {
    /// Each action, in order.
    actions: String,
    /// The same without the points of barriers.
    without_points: String,
}

impl Log {
    /// Notes what an item asks for.
    fn note(&mut self, alloc: Global, number: u32, asked: &Asked) -> Result<(), AllocError> {
        let line = format!(in alloc; "{number} {asked:?}\n")?;
        self.actions.push_str(line.as_str())?;
        match asked {
            Asked::Act(Action::Barrier(_)) => {
                let line = format!(in alloc; "{number} barrier\n")?;
                self.without_points.push_str(line.as_str())
            }
            _ => self.without_points.push_str(line.as_str()),
        }
    }

    /// A launch that ends so.
    fn run(self, end: String) -> Run {
        Run {
            actions: self.actions,
            without_points: self.without_points,
            end,
        }
    }
}

/// Lets an item make one action. None if it goes on after it.
fn act<I: Askers>(
    alloc: Global,
    items: &I,
    way: &mut Way,
    bytes: &mut Bytes,
    log: &mut Log,
) -> Result<Option<Pause>, Memory> {
    let asked = items.next(alloc, way.number, way.answers.as_slice(), STEPS)?;
    log.note(alloc, way.number, &asked)?;
    let (answer, pause) = match asked {
        Asked::Running => (0, Some(Pause::Runs)),
        Asked::Act(Action::Load { place, size }) => (bytes.load(place, size), None),
        Asked::Act(Action::Store { place, size, value }) => {
            bytes.store(place, size, value);
            (0, None)
        }
        Asked::Act(Action::Barrier(_)) => (0, Some(Pause::Waits)),
        Asked::Act(Action::Fault(pos)) => (0, Some(Pause::Fault(pos))),
        Asked::Act(Action::End) => (0, Some(Pause::Ended)),
    };
    way.answers.push(answer)?;
    Ok(pause)
}

/// Lets an item go on until it can go no further alone.
fn go<I: Askers>(
    alloc: Global,
    items: &I,
    way: &mut Way,
    bytes: &mut Bytes,
    log: &mut Log,
) -> Result<Pause, Memory> {
    for _ in 0..ACTIONS {
        if let Some(pause) = act(alloc, items, way, bytes, log)? {
            return Ok(pause);
        }
    }
    Ok(Pause::Runs)
}

/// The items of a launch before their first steps.
fn ways_of(alloc: Global, count: u32) -> Result<Vec<Way>, AllocError> {
    let mut ways = Vec::new(alloc);
    for number in 0..count {
        ways.push(Way {
            number,
            answers: Vec::new(alloc),
            over: false,
        })?;
    }
    Ok(ways)
}

/// Lets each item go on that has not ended. None if one waits at a barrier, and else how the launch ended.
fn go_all<I: Askers>(
    alloc: Global,
    items: &I,
    ways: &mut [Way],
    bytes: &mut Bytes,
    log: &mut Log,
) -> Result<Option<String>, Memory> {
    let mut waits = false;
    for way in ways.iter_mut() {
        if way.over {
            continue;
        }
        match go(alloc, items, way, bytes, log)? {
            Pause::Waits => waits = true,
            Pause::Ended => way.over = true,
            Pause::Fault(pos) => {
                let end = format!(in alloc;
                    "fault {}:{} of item {}",
                    pos.line, pos.col, way.number
                )?;
                return Ok(Some(end));
            }
            Pause::Runs => return Ok(Some(format!(in alloc; "item {} still runs", way.number)?)),
        }
    }
    if waits {
        return Ok(None);
    }
    Ok(Some(bytes.words_text(alloc)?))
}

/// Runs so many items over some words.
pub fn run_launch<I: Askers>(
    alloc: Global,
    items: &I,
    count: u32,
    mut bytes: Bytes,
) -> Result<Run, Memory> {
    let mut ways = ways_of(alloc, count)?;
    let mut log = Log {
        actions: String::new(alloc),
        without_points: String::new(alloc),
    };
    for _ in 0..ROUNDS {
        let end = go_all(alloc, items, ways.as_mut_slice(), &mut bytes, &mut log)?;
        if let Some(end) = end {
            return Ok(log.run(end));
        }
    }
    let end = String::from_str(alloc, "too many barriers")?;
    Ok(log.run(end))
}

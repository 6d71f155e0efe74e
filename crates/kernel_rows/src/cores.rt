//! The groups of a launch on a core, one after another: the words of an image in warps, with masks, barriers, a scratchpad and a bus.

ghost use Rattle.std.specs.Prelude.{◌≡◌, ◌+◌, ◌*◌, ◌<◌, ◌≤◌, ◌^◌, true};

use crate::blocks::{block_of, group_count, group_size};
use crate::bytes::{Bytes, COUNT};
use item_acts::{Bound, Range};
use l1_cache::EvictOldest;
use memory_banks::PlainBus;
use std::alloc::{AllocError, Global};
use vx_base::{ListOf, Memory};
use vx_core::{Core, GroupEnd, GroupJob};
use vx_isa::Image;
use warp_scheduler::RoundRobin;

/// How many words the bus has: those of buffer 0, and zeros up to a whole cache line.
const BUS: usize = 16;

/// How many bytes of the scratchpad are 0 when a group begins: all that the `__local` arrays take.
const CLEAR: u32 = 0x2000;

/// How many instructions a group may take.
const TURNS: u64 = 400_000;

/// How many warps a core has, and how many lanes each.
#[derive(Clone, Copy)]
pub struct CoreShape {
    /// The warps, 1 to 16.
    pub warps: u32,
    /// The lanes of a warp, 1 to 32.
    pub lanes: u32,
}

/// A launch of an image on a core.
#[derive(Drop)]
pub struct CoreLaunch<'a> {
    /// The image of the kernel.
    pub image: &'a Image,
    /// The launch.
    pub range: Range,
    /// What the parameters stand for.
    pub bounds: &'a [Bound],
    /// The core.
    pub shape: CoreShape,
}

/// Whether a core can run a group.
fn can_run(job: &GroupJob) -> bool
    ensures lanes { result ≡ true → job.now.lanes ≤ 32 }
    ensures clear { result ≡ true → job.now.clear ≤ 1048576 }
    ensures items { result ≡ true → job.now.group * job.now.local + 512 < 2 ^ 32 }
{
    if job.lanes > 32 || job.clear > 1_048_576 {
        return false;
    }
    match job.group.checked_mul(job.local) {
        Some(items) => items < 0x8000_0000,
        None => false,
    }
}

/// Runs a group over the words of the bus, and leaves the words as they are after it. None if the core cannot run it.
fn run_group(
    alloc: Global,
    core: &mut Core,
    image: &Image,
    job: &GroupJob,
    words: &mut [u32; BUS],
) -> Result<Option<GroupEnd>, AllocError> {
    if !can_run(job) {
        return Ok(None);
    }
    let items = words.to_vec(alloc)?;
    let mut bus = PlainBus::new(ListOf { items });
    let mut pick = RoundRobin::new();
    let mut evict = EvictOldest::new();
    let end = core.run_group(image, job, &mut bus, &mut pick, &mut evict);
    for (place, word) in words.iter_mut().zip(bus.into_words().as_slice()) {
        *place = *word;
    }
    Ok(Some(end))
}

/// The words of the bus before a launch.
fn bus_words(given: [u32; COUNT]) -> [u32; BUS] {
    let mut words = [0; BUS];
    for (place, word) in words.iter_mut().zip(given) {
        *place = word;
    }
    words
}

/// The words of buffer 0, among those of the bus.
fn buffer_words(words: [u32; BUS]) -> [u32; COUNT] {
    let mut buffer = [0; COUNT];
    for (place, word) in buffer.iter_mut().zip(words) {
        *place = word;
    }
    buffer
}

/// How a group ends that does not finish.
fn end_text(alloc: Global, end: GroupEnd) -> Result<String, AllocError> {
    match end {
        GroupEnd::Trapped { pos, item } => {
            format!(in alloc; "fault {}:{} of item {item}", pos.line, pos.col)
        }
        other => format!(in alloc; "{other:?}"),
    }
}

impl<'a> CoreLaunch<'a> {
    /// Whether the warps of the core have a lane for each item of a group.
    pub fn has_room(&self) -> bool {
        group_size(self.range) <= self.shape.warps.saturating_mul(self.shape.lanes)
    }

    /// What the core is told of a group.
    fn job(&self, group: u32) -> GroupJob {
        let CoreShape { warps, lanes } = self.shape;
        let kinds = self.image.params.as_slice();
        GroupJob {
            warps,
            lanes,
            local: group_size(self.range),
            group,
            block: block_of(self.range, kinds, self.bounds, group, lanes),
            clear: CLEAR,
            turns: TURNS,
        }
    }

    /// Runs all groups over the words of buffer 0: the words after them, or how the first group ends that does not finish.
    pub fn run(&self, alloc: Global, given: [u32; COUNT]) -> Result<String, Memory> {
        let mut core = Core::new(alloc, 0, 1, 1, 1)?;
        core.begin_launch();
        let mut words = bus_words(given);
        for group in 0..group_count(self.range) {
            let job = self.job(group);
            match run_group(alloc, &mut core, self.image, &job, &mut words)? {
                Some(GroupEnd::Finished) => {}
                Some(end) => return Ok(end_text(alloc, end)?),
                None => return Ok(String::from_str(alloc, "no such group")?),
            }
        }
        Ok(Bytes::of(buffer_words(words)).words_text(alloc)?)
    }
}

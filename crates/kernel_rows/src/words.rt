//! The lane of each work-item alone at the words of an image: a warp of one lane, which is told what it loads.

use crate::blocks::{
    ARRAYS, BLOCK, BUFFER, Block, FRAMES, block_of, group_size, place_of, quotient,
};
use crate::runs::Askers;
use item_acts::{Action, Asked, Bound, Point, Range, TurnList};
use std::alloc::{AllocError, Global};
use vx_base::{Memory, Pos, Size};
use vx_isa::{Image, MachineTrap, Site, Step};
use warp_state::{Ids, LaneMemory, Warp};

/// Where the code lies.
const CODE: u32 = 0x8000_0000;

/// How many instructions a small step of the source takes at most, as far as the rows go.
const INSTRUCTIONS: u64 = 16;

/// What stands in the words of a frame that no instruction has written yet.
const UNWRITTEN: u32 = 0xdead_beef;

/// What a lane alone reads and writes: the launch block, its frame, and arrays whose bytes it is told.
#[derive(Drop)]
struct Told<'a> {
    /// The launch block.
    block: Block,
    /// The number of its group.
    group: u32,
    /// The words of its frame.
    frame: Vec<u32>,
    /// Where the frame lies.
    start: u32,
    /// What it is told at each action in turn.
    answers: &'a [u32],
    /// How many actions it has made.
    made: usize,
    /// The action for which it has no answer.
    asked: Option<Action>,
}

impl<'a> Told<'a> {
    /// Whether a field lies in an array.
    fn is_array(address: u32) -> bool {
        address >= BUFFER || ARRAYS <= address && address < FRAMES
    }

    /// Makes an action: the answer to it, or 0 if there is none.
    fn act(&mut self, action: Action) -> u32 {
        let answer = self.answers.get(self.made).copied();
        self.made = self.made.saturating_add(1);
        if answer.is_none() && self.asked.is_none() {
            self.asked = Some(action);
        }
        answer.unwrap_or(0)
    }

    /// A word of the launch block or of the frame.
    fn word(&self, address: u32) -> u32 {
        let own = address.wrapping_sub(self.start) / 4;
        let shared = address.wrapping_sub(BLOCK) / 4;
        match self.frame.get(own as usize) {
            Some(word) => *word,
            None => self
                .block
                .get(shared as usize)
                .copied()
                .unwrap_or(UNWRITTEN),
        }
    }
}

/// The low bytes of a value.
fn low_bytes(size: Size, value: u32) -> u32 {
    match size {
        Size::One => value & 0xff,
        Size::Two => value & 0xffff,
        Size::Four => value,
    }
}

impl<'a> LaneMemory for Told<'a> {
    ghost use Rattle.std.specs.Prelude.{true};

    ghost acts = { λ _ _ _. Unit {0} };

    ghost has = { λ _ _ _. true };

    fn read(&mut self, address: u32, size: Size) -> Option<u32> {
        if !Told::is_array(address) {
            return Some(self.word(address));
        }
        let place = place_of(self.group, address);
        Some(self.act(Action::Load { place, size }))
    }

    fn write(&mut self, address: u32, size: Size, value: u32) -> bool {
        if Told::is_array(address) {
            let place = place_of(self.group, address);
            let value = low_bytes(size, value);
            let _ = self.act(Action::Store { place, size, value });
            return true;
        }
        let own = address.wrapping_sub(self.start) / 4;
        if let Some(word) = self.frame.get_mut(own as usize) {
            *word = value;
        }
        true
    }
}

/// The lanes of the items of a launch, at the words of an image.
#[derive(Drop)]
pub struct WordLanes<'a> {
    /// The image of the kernel.
    pub image: &'a Image,
    /// The launch.
    pub range: Range,
    /// What the parameters stand for.
    pub bounds: &'a [Bound],
}

/// Where the check at an address stands in the source.
fn check_at(sites: &[Site], pc: u32) -> Option<Pos> {
    let distance = pc.wrapping_sub(CODE);
    let site = sites.iter().find(|site| site.pc == distance)?;
    Some(site.pos)
}

impl<'a> WordLanes<'a> {
    /// What a lane of an item knows before its first instruction: each item of a group has a warp for itself.
    fn told<'b>(
        &self,
        alloc: Global,
        item: u32,
        answers: &'b [u32],
    ) -> Result<Told<'b>, AllocError> {
        let size = group_size(self.range);
        let group = quotient(item, size);
        let local = item.checked_rem(size).unwrap_or(0);
        let slots = self.image.slots;
        let kinds = self.image.params.as_slice();
        Ok(Told {
            block: block_of(self.range, kinds, self.bounds, group, 1),
            group,
            frame: vec![in alloc; UNWRITTEN; slots as usize]?,
            start: FRAMES.wrapping_add(local.wrapping_mul(slots.wrapping_mul(4))),
            answers,
            made: 0,
            asked: None,
        })
    }

    /// What a lane asks for after an instruction; None if it goes on.
    fn asked_after(&self, alloc: Global, told: &mut Told<'_>, step: Step) -> Option<Asked> {
        match step {
            Step::Next | Step::Diverged | Step::Agreed | Step::Spawn { .. } => {}
            Step::Wait { bar, .. } => {
                let turns = TurnList {
                    items: Vec::new(alloc),
                };
                let _ = told.act(Action::Barrier(Point { site: bar, turns }));
            }
            Step::Ended => return Some(Asked::Act(Action::End)),
            Step::Trap {
                fault: MachineTrap::Break,
                pc,
                ..
            } => {
                let pos = check_at(self.image.sites.as_slice(), pc)?;
                return Some(Asked::Act(Action::Fault(pos)));
            }
            Step::Trap { .. } => return Some(Asked::Running),
        }
        let action = told.asked.take()?;
        Some(Asked::Act(action))
    }
}

impl<'a> Askers for WordLanes<'a> {
    fn next(
        &self,
        alloc: Global,
        number: u32,
        answers: &[u32],
        steps: u64,
    ) -> Result<Asked, Memory> {
        let mut told = self.told(alloc, number, answers)?;
        let local = number.checked_rem(group_size(self.range)).unwrap_or(0);
        let ids = Ids {
            core: 0,
            warp: local,
            lanes: 1,
        };
        let mut warp = Warp::new();
        warp.start(CODE, 1);
        for _ in 0..steps.saturating_mul(INSTRUCTIONS) {
            if warp.mask() == 0 {
                break;
            }
            let step = warp.step(self.image.words.as_slice(), ids, &mut told);
            if let Some(asked) = self.asked_after(alloc, &mut told, step) {
                return Ok(asked);
            }
        }
        Ok(Asked::Running)
    }
}

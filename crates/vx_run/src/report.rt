ghost use Rattle.std.specs.Prelude.{◌≡◌, [], ◌∷◌, IfOk};
ghost use Rattle.vx_run.specs.Answers.{idle, made};

use std::alloc::{AllocError, Global};
use vx_base::{ListOf, Pos, Text};
use vx_cc::SourceKind;
use vx_isa::Image;
use vx_words::UsageKind;

/// Why a launch is refused.
#[derive(Clone, Copy, Debug, PartialEq, Eq)]
pub enum LaunchKind {
    /// No kernel of the file has the name.
    NoEntry,
    /// The kernel is of no form that runs so far.
    NotBuilt,
    /// The kernel takes another number of arguments.
    Arguments {
        /// How many the words give.
        given: u32,
        /// How many the kernel takes.
        wanted: u32,
    },
}

/// Why a buffer is refused.
#[derive(Clone, Copy, Debug, PartialEq, Eq)]
pub enum BufferKind {
    /// Its bytes are not those that the launch wants.
    Length {
        /// How many bytes were read, at most one more than are wanted.
        bytes: u32,
        /// How many bytes an element has.
        size: u32,
    },
}

/// How a call of the program ends.
#[derive(Debug, Drop)]
pub enum Cause {
    /// The output was written whole.
    Done,
    /// The words are refused.
    Usage {
        /// The number of the refused word, from 0.
        word: u32,
        /// Why.
        kind: UsageKind,
    },
    /// The kernel's file is refused.
    Source {
        /// The refused place.
        pos: Pos,
        /// Why.
        kind: SourceKind,
    },
    /// A launch is refused.
    Launch {
        /// The number of the launch, from 0.
        index: u32,
        /// Why.
        kind: LaunchKind,
    },
    /// A buffer is refused.
    Buffer {
        /// The number of the buffer, from 0.
        index: u32,
        /// Why.
        kind: BufferKind,
    },
    /// A work-item stopped at an index that is not within its array.
    Trap {
        /// The number of the launch.
        launch: u32,
        /// The place of the index.
        pos: Pos,
        /// The number of the work-item.
        item: u32,
    },
    /// Some warps of a core wait at barriers, and none can go on.
    Stuck {
        /// The number of the launch.
        launch: u32,
        /// The number of the core.
        core: u32,
        /// The warps that wait, as bits.
        waiting: u32,
        /// The warps that have ended, as bits.
        ended: u32,
    },
    /// A group did not end within its turns.
    Turns {
        /// The number of the launch.
        launch: u32,
        /// The number of the core.
        core: u32,
        /// The number of the group.
        group: u32,
        /// How many turns it had.
        count: u64,
    },
    /// A file could not be read.
    ReadFault {
        /// How many reads failed.
        faults: u64,
    },
    /// The output could not be written.
    WriteFault {
        /// How many writes failed.
        faults: u64,
    },
    /// Memory ran out.
    Memory,
    /// No file has the name.
    Missing {
        /// The name.
        name: Text,
    },
}

/// Images in order.
pub type ImageList = ListOf<Image>;

/// What was made and what ran in a call. The kernels that run so far do not run on the machine, so there are only images to tell of.
#[derive(Debug, Drop)]
pub struct Activity {
    /// The images that were made.
    pub images: ImageList,
}

impl Activity {
    /// Nothing was made, and nothing ran.
    pub fn idle(alloc: Global) -> Activity
        ensures { result ≡ idle }
    {
        Activity {
            images: ListOf {
                items: Vec::new(alloc),
            },
        }
    }

    /// One image was made, and nothing ran.
    pub fn made(alloc: Global, image: Image) -> Result<Activity, AllocError>
        ensures { IfOk result (λ activity. activity ≡ made image) }
    {
        let mut items = Vec::new(alloc);
        items.push(image)?;
        Ok(Activity {
            images: ListOf { items },
        })
    }
}

/// What a call of the program answers.
#[derive(Debug, Drop)]
pub struct Report {
    /// The status that the program ends with.
    pub status: u8,
    /// Why it ends so.
    pub cause: Cause,
    /// What was made, and what ran.
    pub activity: Activity,
}

//! What the words of the command line ask for.

use launch_plans::{Plan, Shape};
use vx_base::{Elem, ListOf, Text};

/// Where the bytes of a buffer come from.
#[derive(Debug, Drop)]
pub enum BufFrom {
    /// The file of this name.
    File(Text),
    /// This many elements of zero.
    Zero(u32),
}

/// A buffer.
#[derive(Debug, Drop)]
pub struct BufWord {
    /// Its name.
    pub name: Text,
    /// The type of its elements.
    pub elem: Elem,
    /// Where its bytes come from.
    pub from: BufFrom,
}

/// A launch of a kernel.
#[derive(Debug, Drop)]
pub struct DoWord {
    /// The kernel's name.
    pub entry: Text,
    /// What the launch is asked to be.
    pub plan: Plan,
}

/// Buffers, in the order of their words.
pub type BufWordList = ListOf<BufWord>;

/// Launches, in the order of their words.
pub type DoWordList = ListOf<DoWord>;

/// Numbers of buffers.
pub type ShowList = ListOf<u32>;

/// What the words of the command line ask for.
#[derive(Debug, Drop)]
pub enum Command {
    /// `run FILE ..`: launch kernels of the file, and print buffers.
    Run {
        /// The file of the kernels.
        file: Text,
        /// The buffers.
        buffers: BufWordList,
        /// The launches.
        launches: DoWordList,
        /// The buffers to print.
        shows: ShowList,
        /// The machine.
        shape: Shape,
        /// Whether the records of the launches are printed.
        stats: bool,
    },
    /// `build FILE ENTRY`: print a kernel of the file as words.
    Build {
        /// The file of the kernel.
        file: Text,
        /// The kernel's name.
        entry: Text,
    },
    /// `asm FILE`: print the words of an assembly text.
    Asm {
        /// The file of the text.
        file: Text,
    },
    /// `dis FILE`: print words as an assembly text.
    Dis {
        /// The file of the words.
        file: Text,
    },
    /// `gen SEED COUNT ..`: generate a kernel, and run it.
    Gen {
        /// The number that the kernel is drawn from.
        seed: u64,
        /// How many statements it has, 1 to 10.
        count: u32,
        /// The machine.
        shape: Shape,
        /// Whether the records of the launch are printed.
        stats: bool,
    },
}

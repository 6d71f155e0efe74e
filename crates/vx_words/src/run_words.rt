//! What the words of `run` ask for.

use vx_base::{ListOf, Text};

/// Where the bytes of a buffer come from.
#[derive(Debug, Drop)]
pub enum BufFrom {
    /// The file of this name.
    File(Text),
    /// This many elements of zero.
    Zero(u32),
}

/// A word `buf=NAME:int:..`: a buffer of ints.
#[derive(Debug, Drop)]
pub struct BufWord {
    /// The buffer's name.
    pub name: Text,
    /// Where its bytes come from.
    pub from: BufFrom,
}

/// The words of `run`.
#[derive(Debug, Drop)]
pub struct RunWords {
    /// The file of the kernel.
    pub file: Text,
    /// The buffers, in the order of their words.
    pub buffers: ListOf<BufWord>,
    /// The kernel that is launched.
    pub entry: Text,
    /// How many work-items the launch has, all in one group.
    pub items: u32,
    /// The number of the buffer that each argument names.
    pub arguments: ListOf<u32>,
    /// The number of the buffer that each `show` names.
    pub shows: ListOf<u32>,
}

//! The words behind the command, as they are written.

use vx_base::{Elem, ListOf, Text};

/// An argument of a launch.
#[derive(Debug, Drop)]
pub enum ArgEntry {
    /// The name of a buffer.
    Named(Text),
    /// The digits of a number.
    Number(Text),
    /// The digits of a number with a `-` before it.
    Negative(Text),
    /// The digits of the count of a `__local` array.
    Local(Text),
}

/// The arguments of a launch, in order.
pub type ArgEntryList = ListOf<ArgEntry>;

/// Where the bytes of a buffer come from.
#[derive(Debug, Drop)]
pub enum Origin {
    /// The file of this name.
    In(Text),
    /// The digits of a count of zeros.
    Zero(Text),
}

/// A buffer.
#[derive(Debug, Drop)]
pub struct BufEntry {
    /// Its name.
    pub name: Text,
    /// The type of its elements.
    pub elem: Elem,
    /// Where its bytes come from.
    pub origin: Origin,
}

/// A launch.
#[derive(Debug, Drop)]
pub struct DoEntry {
    /// The kernel's name.
    pub entry: Text,
    /// The digits of how many items there are.
    pub global: Text,
    /// The digits of how many items a group has.
    pub local: Text,
    /// The arguments.
    pub args: ArgEntryList,
}

/// How one of several is picked.
#[derive(Debug, Drop)]
pub enum Pick {
    /// In turn.
    Round,
    /// The oldest.
    Oldest,
    /// By draws from the seed with these digits.
    Seed(Text),
}

/// What of a machine has a size.
#[derive(Clone, Copy, Debug, PartialEq, Eq)]
pub enum SizeKey {
    /// How many cores there are.
    Cores,
    /// How many warps a core has.
    Warps,
    /// How many lanes a warp has.
    Lanes,
    /// How many sets a cache has.
    Sets,
    /// How many lines a set has.
    Ways,
    /// By how many banks steps are counted.
    Banks,
    /// How many instructions a group may take.
    Turns,
}

/// A word behind the command.
#[derive(Debug, Drop)]
pub enum Entry {
    /// The name of a file.
    File(Text),
    /// The name of a kernel.
    Kernel(Text),
    /// The digits of the seed of a generated kernel.
    Seed(Text),
    /// The digits of how many statements a generated kernel has.
    Count(Text),
    /// `buf=`: a buffer.
    Buf(BufEntry),
    /// `do=`: a launch.
    Do(DoEntry),
    /// `show=`: the name of a buffer to print.
    Show(Text),
    /// A size of the machine, with its digits.
    Size(SizeKey, Text),
    /// `sched=`: how warps are picked.
    Sched(Pick),
    /// `evict=`: how lines are given up.
    Evict(Pick),
    /// `stats=`: whether records are printed.
    Stats(bool),
}

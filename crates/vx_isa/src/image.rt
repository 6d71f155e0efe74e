use vx_base::{KindList, ListOf, Pos, SizeList, WordList};

/// The place of a check's `ebreak` in an image.
#[derive(Clone, Copy, Debug, PartialEq, Eq)]
pub struct Site {
    /// The distance in bytes of the `ebreak` from the first word.
    pub pc: u32,
    /// Where the check stands in the source.
    pub pos: Pos,
}

/// Sites in order.
pub type SiteList = ListOf<Site>;

/// A compiled kernel: machine words, and what a launch must know of them.
#[derive(Debug, Drop)]
pub struct Image {
    /// The machine words, from the first on.
    pub words: WordList,
    /// How many words a lane's frame has.
    pub slots: u32,
    /// The places of the checks.
    pub sites: SiteList,
    /// What the kernel's parameters take.
    pub params: KindList,
    /// The bytes of each declared `__local` array.
    pub locals: SizeList,
}

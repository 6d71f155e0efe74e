//! Where the buffers of a launch lie.

use vx_base::{Elem, ListOf};

/// Where a buffer lies, and what it holds.
#[derive(Clone, Copy, Debug, PartialEq, Eq)]
pub struct BufShape {
    /// The type of its elements.
    pub elem: Elem,
    /// How many there are.
    pub count: u32,
    /// Its first byte in the memory that the cores share, a multiple of 64.
    pub start: u32,
}

/// Buffers, in the order of their numbers.
pub type BufShapeList = ListOf<BufShape>;

//! The conditions that stand open at a place of a text.
use vx_base::Pos;

/// An `#ifdef` or `#ifndef` whose `#endif` has not come yet.
#[derive(Clone, Copy, Debug, PartialEq, Eq)]
pub struct Condition {
    /// The line and column of its `#`.
    pub pos: Pos,
    /// Whether its part that stands now is read: it holds, and what is round it is read.
    pub shown: bool,
    /// Whether its `#else` has come.
    pub switched: bool,
}

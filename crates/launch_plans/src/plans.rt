//! What a launch is asked to be.

use item_acts::Range;
use vx_base::ListOf;

/// What is given for a parameter of a kernel.
#[derive(Clone, Copy, Debug, PartialEq, Eq)]
pub enum Arg {
    /// The buffer with this number.
    Buffer(u32),
    /// A number.
    Int(u32),
    /// A `__local` array of so many elements.
    Local(u32),
}

/// What is given for the parameters of a kernel, in order.
pub type ArgList = ListOf<Arg>;

/// A launch of a kernel: its work-items, and what is given for its parameters.
#[derive(Debug, Drop)]
pub struct Plan {
    /// The work-items.
    pub range: Range,
    /// What is given for the parameters.
    pub args: ArgList,
}

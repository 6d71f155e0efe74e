use vx_base::{ListOf, Pos, Size};

/// The work-items of a launch, in up to three dimensions (OpenCL C 1.2, section 3.2).
///
/// A call that takes a range asks that `dims` is 1 to 3, that each local size is at least 1 and divides its global
/// size, that the sizes past `dims` are 1, and that all items together are fewer than 2^32.
#[derive(Clone, Copy, Debug, PartialEq, Eq)]
pub struct Range {
    /// How many dimensions there are.
    pub dims: u32,
    /// How many items each dimension has.
    pub global: [u32; 3],
    /// How many items of each dimension a group has.
    pub local: [u32; 3],
}

/// What a kernel's parameter stands for in one launch.
#[derive(Clone, Copy, Debug, PartialEq, Eq)]
pub enum Bound {
    /// A number.
    Value(u32),
    /// An array.
    Array {
        /// The number of the buffer, or of the local array.
        place: u32,
        /// How many elements it has.
        count: u32,
    },
}

/// The numbers of turns of the loops round a place in a kernel, the outermost first.
pub type TurnList = ListOf<u64>;

/// What the parameters of a kernel stand for, in order.
pub type BoundList = ListOf<Bound>;

/// A byte that the work-items of a launch can load or store.
#[derive(Clone, Copy, Debug, PartialEq, Eq)]
pub enum Place {
    /// A byte of a buffer.
    Global {
        /// The number of the buffer.
        buffer: u32,
        /// The byte in it, from 0.
        byte: u32,
    },
    /// A byte of a group's local array.
    Local {
        /// The number of the group.
        group: u32,
        /// The number of the array.
        array: u32,
        /// The byte in it, from 0.
        byte: u32,
    },
}

/// Where an item stands when it waits at a barrier.
#[derive(Debug, Drop)]
pub struct Point {
    /// The barrier, together with the path of helper calls that leads to it.
    pub site: u32,
    /// The number of turns that each loop round it has made.
    pub turns: TurnList,
}

/// What a work-item asks for next.
#[derive(Debug, Drop)]
pub enum Action {
    /// To be told the number in a field. The answer is its bytes, the least significant first.
    Load {
        /// The first byte of the field.
        place: Place,
        /// How many bytes it has.
        size: Size,
    },
    /// That a number be put into a field. The answer is 0.
    Store {
        /// The first byte of the field.
        place: Place,
        /// How many bytes it has.
        size: Size,
        /// The number.
        value: u32,
    },
    /// To pass a barrier together with its group. The answer is 0.
    Barrier(Point),
    /// To stop because an index is not within its array. There is no answer.
    Fault(Pos),
    /// To stop because its work is done. There is no answer.
    End,
}

/// What an item asks for after some answers.
#[derive(Debug, Drop)]
pub enum Asked {
    /// This action.
    Act(Action),
    /// Nothing yet: the item still computes.
    Running,
}

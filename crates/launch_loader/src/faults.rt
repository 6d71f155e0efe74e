//! Why a launch is refused.

use thiserror::Error;

/// Why a launch is refused, in the order in which it is asked.
#[derive(Clone, Copy, Debug, PartialEq, Eq, Error)]
pub enum LaunchFault {
    /// There are not as many arguments as parameters.
    #[error("there are {given} arguments, and the kernel has {wanted} parameters")]
    Arguments {
        /// How many arguments there are.
        given: u32,
        /// How many parameters the kernel has.
        wanted: u32,
    },
    /// The first argument that its parameter does not take: a number, a buffer with elements of another
    /// type, or a number of elements of a `__local` array, where something else is wanted.
    #[error("argument {place} is not what its parameter takes")]
    Argument {
        /// Its place, from 0.
        place: u32,
    },
    /// The first argument that names a buffer which an earlier one names in the other of `__constant`
    /// and `__global`.
    #[error("argument {place} makes a buffer both `__constant` and `__global`")]
    Both {
        /// Its place, from 0.
        place: u32,
    },
    /// A local size does not divide its global size: the sizes of the first such dimension.
    #[error("the local size {local} does not divide the global size {global}")]
    Divide {
        /// The global size.
        global: u32,
        /// The local size.
        local: u32,
    },
    /// A group has more items than a core takes.
    #[error("a group has {items} items, and a core takes {most}")]
    GroupSize {
        /// How many items it has, and 2^64 - 1 for more.
        items: u64,
        /// How many a core takes: 512, or the lanes of all its warps where these are fewer.
        most: u32,
    },
    /// There are more than 65,536 groups.
    #[error("there are {count} groups, more than 65,536")]
    Groups {
        /// How many there are, and 2^64 - 1 for more.
        count: u64,
    },
    /// The `__local` arrays of a group have more than 262,144 bytes.
    #[error("the `__local` arrays of a group have {bytes} bytes, more than 262,144")]
    LocalMemory {
        /// How many they have, each rounded up to whole words.
        bytes: u64,
    },
    /// Memory ran out.
    #[error("memory ran out")]
    Memory,
}

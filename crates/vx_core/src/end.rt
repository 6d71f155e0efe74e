use vx_base::Pos;
use vx_isa::MachineTrap;

/// How a group ends. The first that holds after an instruction ends it.
#[derive(Clone, Copy, Debug, PartialEq, Eq)]
pub enum GroupEnd {
    /// A check of the kernel has failed.
    Trapped {
        /// Where the check stands in the source.
        pos: Pos,
        /// The item that failed it.
        item: u32,
    },
    /// A warp has trapped otherwise.
    Machine {
        /// The cause.
        fault: MachineTrap,
        /// The warp.
        warp: u32,
    },
    /// All warps that were started have ended.
    Finished,
    /// Some warp waits at a barrier, and none can go on.
    Stuck {
        /// The warps that wait, as bits.
        waiting: u32,
        /// The warps that were started and have ended, as bits.
        ended: u32,
    },
    /// The group has taken as many instructions as it may.
    Turns {
        /// So many.
        count: u64,
    },
}

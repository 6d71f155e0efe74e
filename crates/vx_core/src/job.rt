/// The words of a launch block.
pub const BLOCK: usize = 64;

/// The 64 words that stand at the head of the scratchpad, by which a kernel knows its launch and its group.
pub type BlockWords = [u32; BLOCK];

/// A group that a core is to run.
#[derive(Clone, Debug, Drop)]
pub struct GroupJob {
    /// How many warps the core has, 1 to 16.
    pub warps: u32,
    /// How many lanes a warp has, 1 to 32.
    pub lanes: u32,
    /// How many items the group has.
    pub local: u32,
    /// The number of the group.
    pub group: u32,
    /// The launch block.
    pub block: BlockWords,
    /// How many bytes of the scratchpad are 0 when the group begins, the launch block aside; at most 1,048,576.
    pub clear: u32,
    /// How many instructions the group may take.
    pub turns: u64,
}

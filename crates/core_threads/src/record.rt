use vx_base::{ListOf, WordList};
use vx_core::{CoreCounts, GroupEnd};

/// What a core did in a launch.
#[derive(Debug, Drop)]
pub struct CoreRecord {
    /// The groups that it claimed, in order.
    pub claimed: WordList,
    /// What it counted.
    pub counts: CoreCounts,
    /// The end of its last group, where that is a bad one.
    pub end: Option<GroupEnd>,
}

/// What cores did, core by core.
pub type RecordList = ListOf<CoreRecord>;

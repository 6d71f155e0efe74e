use thiserror::Error;

/// Why an item makes no turn by itself.
#[derive(Clone, Copy, Debug, PartialEq, Eq, Error)]
pub enum Why {
    /// It has come to its end.
    #[error("the item has come to its end")]
    Ended,
    /// It has stopped at a fault.
    #[error("the item has stopped at a fault")]
    Faulted,
    /// It asks to pass a barrier.
    #[error("the item waits at a barrier")]
    Waits,
    /// It asks for nothing within the world's small steps.
    #[error("the item asks for nothing within its small steps")]
    Running,
    /// It asks for a place that the world does not have.
    #[error("the item asks for a place that does not exist")]
    Nowhere,
}

/// Why a turn of an item was not made.
#[derive(Clone, Copy, Debug, PartialEq, Eq, Error)]
pub enum TurnFault {
    /// The item makes no turn by itself.
    #[error(transparent)]
    NotReady(Why),
    /// Memory ran out.
    #[error("memory ran out")]
    Memory,
}

/// Why a group did not pass a barrier.
#[derive(Clone, Copy, Debug, PartialEq, Eq, Error)]
pub enum PassFault {
    /// Its items do not all ask for a barrier at one point within the world's small steps.
    #[error("the items of the group do not all wait at one barrier")]
    NotTogether,
    /// Memory ran out.
    #[error("memory ran out")]
    Memory,
}

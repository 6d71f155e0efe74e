/// What an entry of the history does with its word.
pub enum BusKind {
    /// Reads it.
    Load,
    /// Writes its operand.
    Store,
    /// Reads it, and keeps the bits of its operand.
    FetchAnd,
    /// Reads it, and sets the bits of its operand.
    FetchOr,
}

/// One step on the shared words. No value of it is made: the history exists in contracts alone.
pub struct BusEntry {
    /// The number of the port that made it.
    pub port: u32,
    /// What was done.
    pub kind: BusKind,
    /// The word's place.
    pub word: u32,
    /// What was stored, kept or set, and 0 for a load.
    pub operand: u32,
    /// The word just before, and 0 for a store.
    pub answer: u32,
}

/// A change of a disk.
#[derive(Drop)]
pub enum Change {
    /// This piece was written at that place; it may be torn.
    Wrote { at: u64, piece: Vec<u8> },

    /// All that was written is kept.
    Synced,
}

/// What a crash leaves of the writes since the last sync.
#[derive(Clone, Copy, PartialEq, Eq)]
pub enum Left {
    /// Nothing of them.
    Nothing,

    /// All of them.
    All,

    /// Bytes of this value where they wrote, and none between.
    Each(u8),
}

//! The numbers of a summary.

/// The numbers of a summary.
#[derive(Clone, Copy)]
pub(crate) struct Counts {
    /// How many updates were given.
    pub(crate) updates: u64,
    /// How many frames were sent.
    pub(crate) turns: u64,
    /// How many frames were received.
    pub(crate) heard: u64,
    /// How many bytes of them were corrected.
    pub(crate) corrected: u64,
    /// How many entries the pictures had.
    pub(crate) entries: u64,
}

//! Which of the images that a stop may leave is taken.

/// An image that a stop may leave.
#[derive(Clone, Copy, Debug, PartialEq, Eq)]
pub enum Pick {
    /// The bytes and the length as of the last sync.
    Synced,
    /// The bytes as a read gives them.
    Read,
    /// The bytes as a read gives them, but 0xA5 in each range that `write` covered since the last sync. A word that
    /// `write_word` wrote afterwards, and a byte that was cut away and grown again, stand as a read gives them.
    Torn,
}

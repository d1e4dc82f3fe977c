// How a file is opened.

/// How a file is opened, for all its openers.
#[derive(Clone, Copy, Debug, PartialEq, Eq)]
pub struct Options {
    /// The length in bytes to which the file may grow, at most 4,294,963,200.
    pub limit: u64,
    /// Whether a transaction may begin in another one.
    pub nesting: bool,
    /// Whether nobody may change the file.
    pub read_only: bool,
    /// Whether a change raises the sequence number.
    pub seqnum: bool,
}

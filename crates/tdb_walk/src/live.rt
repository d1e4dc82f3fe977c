// A live record of a chain.

use tdb_words::Rec;

/// A live record of a chain: one that is used, and not dead.
#[derive(Clone, Copy, Debug, PartialEq, Eq)]
pub struct Live {
    /// The chain in which it stands.
    pub chain: u32,

    /// The offset of the record in bytes.
    pub off: u32,

    /// The header of the record, as it was read.
    pub rec: Rec,
}

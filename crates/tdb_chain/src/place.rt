// Where a record of a chain stands.

use tdb_words::Rec;

/// Where a record of a chain stands. Offsets are in bytes.
#[derive(Clone, Copy, Debug, PartialEq, Eq)]
pub struct Place {
    /// The offset of the record.
    pub off: u32,

    /// The offset of the word that leads to it: the head of its chain, or the next word of the record before it.
    pub before: u32,

    /// The header of the record, as it was read.
    pub rec: Rec,
}

// One entry of a lock table.
use crate::kind::Kind;

/// A range of bytes that one owner holds with one kind, as it stands in the table.
#[derive(Clone, Copy, Debug, PartialEq, Eq)]
pub struct Piece {
    pub owner: u32,
    /// The first byte.
    pub start: u64,
    /// The byte past the last one; 2^63 where the range has no end.
    pub end: u64,
    pub kind: Kind,
}

// The summary of a file.

use tdb_check::Report;

/// What a file holds, in numbers. Lengths are in bytes.
#[derive(Clone, Copy, Debug, PartialEq, Eq)]
pub struct Summary {
    /// What the check of the file counts.
    pub report: Report,

    /// How many bytes all keys have.
    pub key_bytes: u64,

    /// How many bytes all values have.
    pub data_bytes: u64,

    /// The greatest `rec_len` of a free record, or 0 where there is none.
    pub largest_free: u64,
}

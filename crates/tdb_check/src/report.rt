// What a check reports of a file that it accepts.

/// Counts over an accepted file.
#[derive(Clone, Copy, Debug, PartialEq, Eq)]
pub struct Report {
    /// How many used records there are: the keys of the file.
    pub live: u64,

    /// How many dead records stand in chains.
    pub dead_records: u64,

    /// How many records the free list has.
    pub free_records: u64,

    /// How many bytes, from where the records begin on, lie in no record and not in the undo area.
    pub dead_bytes: u64,

    /// The length of the undo area with its header, in bytes, or 0 where there is none.
    pub area: u64,
}

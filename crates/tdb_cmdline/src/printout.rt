// The commands that print what a file holds.

use tdb_dump::Listing;

/// What is printed of a file.
#[derive(Clone, Copy, Debug, PartialEq, Eq)]
pub enum Printout {
    /// Its pairs, so.
    Pairs(Listing),

    /// What it holds in numbers.
    Summary,

    /// Its chains, with their records.
    Chains,

    /// Its free records.
    FreeList,
}

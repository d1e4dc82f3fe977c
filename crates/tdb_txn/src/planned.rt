//! What a commit is to bring into its file.
ghost use Rattle.std.specs.Prelude.{◌≡◌, ◌+◌, ◌%◌, ◌≤◌};
ghost use Rattle.tdb_txn.specs.EndBelow.{EndBelow};

use crate::pages::Pages;
use tdb_undo::Runs;
use tdb_words::Header;

/// The plan of a commit: where the undo area stands, and what is to be written. Offsets and lengths are in bytes.
#[derive(Drop)]
pub struct Plan {
    pub(crate) header: Header,
    pub(crate) area: u32,
    pub(crate) area_length: u32,
    pub(crate) old_length: u32,
    pub(crate) new_length: u32,
    pub(crate) file_length: u32,
    pub(crate) runs: Runs,
    pub(crate) pages: Pages,
    ghost aligned: { area % 4 ≡ 0 },
    ghost whole_header: { 24 ≤ area_length },
    ghost area_inside: { area + area_length ≤ file_length },
    ghost heads: { 48 ≤ old_length },
    ghost longer: { old_length ≤ new_length },
    ghost inside: { new_length ≤ file_length },
    ghost runs_end: { EndBelow old_length runs },
}

impl Plan {
    /// Where the gate word stands.
    pub(crate) fn gate(&self) -> u64
        ensures { result ≡ self.now.area + 20 }
    {
        self.area as u64 + 20
    }
}

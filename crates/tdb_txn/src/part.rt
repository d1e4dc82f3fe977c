//! The parts of a range of bytes that lie in one page each.
ghost use Rattle.std.specs.Prelude.{◌<◌, ◌≤◌, ◌+◌, ◌^◌};
ghost use Rattle.tdb_txn.specs.Part.{IsPart};

use crate::page::PAGE_SIZE;

/// The part of a range that lies in one page.
#[derive(Clone, Copy)]
pub(crate) struct Part {
    /// The number of the page.
    pub number: u64,

    /// Where the part begins within the page.
    pub within: usize,

    /// Where the part ends within the range.
    pub end: usize,
}

impl Part {
    /// The part that follows the first `done` bytes of the range of `len` bytes from offset `off` on.
    pub(crate) fn after(off: u64, done: usize, len: usize) -> Part
        requires more { done < len }
        requires len { len < 2 ^ 63 }
        ensures { IsPart off done len result }
    {
        let lead = (off % PAGE_SIZE as u64) as usize + done;
        let within = lead % PAGE_SIZE;
        Part {
            number: off / PAGE_SIZE as u64 + (lead / PAGE_SIZE) as u64,
            within,
            end: done + (PAGE_SIZE - within).min(len - done),
        }
    }
}

// A stop after each number of calls of a commit leaves the old value or the new one, and the new one where the commit
// was done.

use crate::files::{LIMIT, stored};
use crate::rows::Row;
use crate::txn::commits::change;
use small_file::HEADER;
use std::alloc::Global;
use tdb_disk::{Disk, FuseDisk, MemDisk, Pick};
use tdb_undo::recover;

/// The value of `a` in what a stop left of the file, once that is recovered. None where it can't be recovered, or where
/// another byte changed, but in the word at 44 and behind the file's old length.
fn value_after(mut disk: MemDisk, want: &[u8]) -> Option<u8> {
    let len = disk.len().ok()?;
    if len < 48 || len > LIMIT {
        return None;
    }
    recover(&mut disk, &HEADER).ok()?;
    let left = disk.as_slice();
    let is_same = left.get(..44) == want.get(..44)
        && left.get(48..4089) == want.get(48..4089)
        && left.get(4090..4096) == want.get(4090..4096);
    if is_same {
        left.get(4089).copied()
    } else {
        None
    }
}

/// Whether all that a stop may leave of a disk has the old value or the new one, and the new one where the commit was
/// done.
fn all_recover(alloc: Global, disk: &MemDisk, done: bool, want: &[u8]) -> Option<bool> {
    for pick in [Pick::Synced, Pick::Read, Pick::Torn] {
        let value = value_after(disk.after_stop(alloc, pick).ok()?, want)?;
        if value != b'9' && (done || value != b'1') {
            return Some(false);
        }
    }
    Some(true)
}

/// A commit that stops after each number of calls in turn, up to the one with which it is done, but at most so many.
pub(crate) struct Stops(u64);

pub(crate) static STOPS: [(&'static str, Stops); 1] = [("a commit", Stops(64))];

impl Row for Stops {
    fn holds(&self, alloc: Global) -> Option<bool> {
        for calls in 0..self.0 {
            let before = stored(alloc)?;
            let mut fuse = FuseDisk::new(stored(alloc)?, calls);
            let done = change(alloc, &mut fuse, LIMIT, 4096, 4089, b"9") == Ok(true);
            if !all_recover(alloc, &fuse.inner(), done, before.as_slice())? {
                return Some(false);
            }
            if done {
                return Some(true);
            }
        }
        Some(false)
    }
}

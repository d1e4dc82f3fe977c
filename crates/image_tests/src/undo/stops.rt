// A stop after each number of calls of a recovery, and a second one in the recovery of what the first left: the file
// always comes back.

use crate::undo::acts::{Act, act_on};
use crate::undo::files::{FILE, Image, OPEN, WHOLE, bytes_of};
use std::alloc::{AllocError, Global};
use tdb_disk::{FuseDisk, MemDisk, Pick};

static FILES: [(&'static str, &'static Image); 2] = [
    ("a recovery", &OPEN),
    ("a recovery with the header", &WHOLE),
];

/// Puts down what a stop may leave of a disk, but for what stands there as the last already.
fn push_left(alloc: Global, left: &mut Vec<MemDisk>, disk: &MemDisk) -> Result<(), AllocError> {
    for pick in [Pick::Synced, Pick::Read, Pick::Torn] {
        let stopped = disk.after_stop(alloc, pick)?;
        let is_known = match left.last() {
            Some(last) => last.as_slice() == stopped.as_slice(),
            None => false,
        };
        if !is_known {
            left.push(stopped)?;
        }
    }
    Ok(())
}

/// All that a stop after each number of calls of a recovery may leave of a file, up to the recovery's end. None where
/// it has no end.
fn stopped(alloc: Global, bytes: &[u8]) -> Result<Option<Vec<MemDisk>>, AllocError> {
    let mut left = Vec::new(alloc);
    for k in 0..64 {
        let mut fuse = FuseDisk::new(MemDisk::new(alloc, bytes)?, k);
        let answer = act_on(alloc, &mut fuse, &Act::Recover);
        push_left(alloc, &mut left, &fuse.inner())?;
        if matches!(answer, Some(Ok(_))) {
            return Ok(Some(left));
        }
    }
    Ok(None)
}

/// Whether each of these files recovers to this one, but for what stands behind it and the word at 44.
fn all_come_back(alloc: Global, files: &mut [MemDisk], want: &[u8]) -> bool {
    for disk in files {
        if !matches!(act_on(alloc, disk, &Act::Recover), Some(Ok(_))) {
            return false;
        }
        let left = disk.as_slice();
        if left.get(..44) != want.get(..44) || left.get(48..4096) != want.get(48..4096) {
            return false;
        }
    }
    true
}

/// Whether a recovery of a file comes to its end, and so does one of all that a stop may leave of it, of which a second
/// stop leaves what recovers to the file of one record.
fn stops_hold(alloc: Global, file: &Image) -> Result<bool, AllocError> {
    let want = bytes_of(alloc, &FILE)?;
    let Some(first) = stopped(alloc, &bytes_of(alloc, file)?)? else {
        return Ok(false);
    };
    for disk in &first {
        let Some(mut second) = stopped(alloc, disk.as_slice())? else {
            return Ok(false);
        };
        if !all_come_back(alloc, &mut second, &want) {
            return Ok(false);
        }
    }
    Ok(true)
}

/// The first recovery that doesn't bring the file back after each stop.
pub(crate) fn failing_stop(alloc: Global) -> Result<Option<&'static str>, AllocError> {
    for (name, file) in &FILES {
        if !stops_hold(alloc, file)? {
            return Ok(Some(*name));
        }
    }
    Ok(None)
}

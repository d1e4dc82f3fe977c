// Stops in the midst of a commit, and of openings that undo what one left.

use crate::files::{Image, OPTIONS, disk_of};
use crate::world::files::{ONE, OPEN, OPEN_WITH_HEADER};
use crate::world::worlds::{print, take_script};
use std::alloc::{AllocError, Global};
use tdb_commands::TurnReport;
use tdb_disk::{Call, Disk, FuseDisk, MemDisk, MemSink, Pick};
use tdb_log::Log;

const COMMIT: &[u8] = b"open\ndo 1 start\ndo 1 store a 9\ndo 1 commit\n";

const COMMITTED: &[u8] =
    b"1 open\n1 step\n1 step\n1 done ok\n1 done ok\n1 step\n1 step\n1 step\ngrew 4096 8192\n1 step\n1 step\n1 step\n1 step\n1 step\n1 done ok\n";

const FETCH: &[u8] = b"open\ndo 1 fetch a\n";

const OLD_VALUE: &[u8] = b"1 open\n1 step\n1 done data(1) = \"1\"\n";

const NEW_VALUE: &[u8] = b"1 open\n1 step\n1 done data(1) = \"9\"\n";

/// What is left where the disk stopped, and whether the report tells that the commit is done.
#[derive(Drop)]
struct Stopped {
    disk: MemDisk,
    committed: bool,
}

/// What the plays of a script tell over the file on a disk, and what they leave on it.
fn told<D: Disk>(alloc: Global, disk: D, script: &[u8]) -> (D, Option<MemSink>) {
    let mut logs: Vec<Box<dyn Log>> = Vec::new(alloc);
    let mut report = TurnReport::new(alloc);
    let (disk, _ended) = take_script(alloc, disk, &OPTIONS, script, &mut report, &mut logs);
    let mut text = MemSink::new(alloc);
    match print(alloc, &mut text, &report) {
        Ok(()) => (disk, Some(text)),
        Err(_) => (disk, None),
    }
}

/// Commits the value `9` over a disk that passes `k` calls.
fn commit_through(alloc: Global, k: u64) -> Result<Stopped, AllocError> {
    let (fuse, text) = told(alloc, FuseDisk::new(disk_of(alloc, &ONE)?, k), COMMIT);
    Ok(Stopped {
        disk: fuse.inner(),
        committed: match text {
            Some(text) => text.as_slice() == COMMITTED,
            None => false,
        },
    })
}

/// Whether each stop leaves a file that has the old value or the new one, and the new one where the commit was done.
fn leaves_one(alloc: Global, stopped: &Stopped) -> Result<bool, AllocError> {
    for pick in [Pick::Synced, Pick::Read, Pick::Torn] {
        let (_disk, told) = told(alloc, stopped.disk.after_stop(alloc, pick)?, FETCH);
        let Some(text) = told else {
            return Ok(false);
        };
        let text = text.as_slice();
        if text != NEW_VALUE && (stopped.committed || text != OLD_VALUE) {
            return Ok(false);
        }
    }
    Ok(true)
}

/// The number of calls before the first stop of a commit that leaves something else, or 200 where the commit isn't done
/// by as many. Each stop leaves the file with the old value or the new one, and with the new one where the report tells
/// that the commit is done, as it does of a disk that passes all calls.
pub(crate) fn failing_stop(alloc: Global) -> Result<Option<u64>, AllocError> {
    let mut committed = false;
    for k in 0..200 {
        let stopped = commit_through(alloc, k)?;
        if !leaves_one(alloc, &stopped)? {
            return Ok(Some(k));
        }
        committed = stopped.committed;
    }
    Ok(if committed { None } else { Some(200) })
}

static RECOVERIES: [(&'static str, Image); 2] = [
    ("a recovery", OPEN),
    ("a recovery with the header", OPEN_WITH_HEADER),
];

/// Whether the file on a disk is opened and has the old value then. The disk comes back.
fn has_old_value<D: Disk>(alloc: Global, disk: D) -> (D, bool) {
    let (disk, text) = told(alloc, disk, FETCH);
    let is_old = match text {
        Some(text) => text.as_slice() == OLD_VALUE,
        None => false,
    };
    (disk, is_old)
}

/// Whether one of these files has these bytes.
fn is_known(files: &[MemDisk], bytes: &[u8]) -> bool {
    for disk in files {
        if disk.as_slice() == bytes {
            return true;
        }
    }
    false
}

/// Puts down what a stop may leave of a disk, but for what stands there already.
fn push_left(alloc: Global, left: &mut Vec<MemDisk>, disk: &MemDisk) -> Result<(), AllocError> {
    for pick in [Pick::Synced, Pick::Read, Pick::Torn] {
        let stopped = disk.after_stop(alloc, pick)?;
        if !is_known(left.as_slice(), stopped.as_slice()) {
            left.push(stopped)?;
        }
    }
    Ok(())
}

/// Puts down what a stop before each call of a kind may leave of a file, up to the opening in which all are made.
/// Whether that comes, and has the old value.
fn push_stops(
    alloc: Global,
    left: &mut Vec<MemDisk>,
    bytes: &[u8],
    call: Call,
) -> Result<bool, AllocError> {
    for nth in 0..64 {
        let mut disk = MemDisk::new(alloc, bytes)?;
        disk.fail(call, nth)?;
        let (disk, is_old) = has_old_value(alloc, disk);
        push_left(alloc, left, &disk)?;
        if is_old {
            return Ok(true);
        }
    }
    Ok(false)
}

/// All that a stop before each call that changes the disk may leave of a file, up to its opening with the old value.
/// None where that doesn't come.
fn all_left(alloc: Global, bytes: &[u8]) -> Result<Option<Vec<MemDisk>>, AllocError> {
    let mut left = Vec::new(alloc);
    for call in [Call::Write, Call::WriteWord, Call::Cut, Call::Sync] {
        if !push_stops(alloc, &mut left, bytes, call)? {
            return Ok(None);
        }
    }
    Ok(Some(left))
}

/// Whether each of these files is opened and has the old value then.
fn all_come_back(alloc: Global, files: Vec<MemDisk>) -> bool {
    for disk in files {
        let (_disk, is_old) = has_old_value(alloc, disk);
        if !is_old {
            return false;
        }
    }
    true
}

/// Whether each of these files comes back, and so does all that a stop in the midst of that may leave of it.
fn stop_again(alloc: Global, files: &[MemDisk]) -> Result<bool, AllocError> {
    for disk in files {
        let Some(second) = all_left(alloc, disk.as_slice())? else {
            return Ok(false);
        };
        if !all_come_back(alloc, second) {
            return Ok(false);
        }
    }
    Ok(true)
}

/// The first opening of a file with an open gate that doesn't bring the old value back after two stops.
pub(crate) fn failing_recovery(alloc: Global) -> Result<Option<&'static str>, AllocError> {
    for (name, image) in &RECOVERIES {
        let disk = disk_of(alloc, image)?;
        let holds = match all_left(alloc, disk.as_slice())? {
            Some(first) => stop_again(alloc, &first)?,
            None => false,
        };
        if !holds {
            return Ok(Some(*name));
        }
    }
    Ok(None)
}

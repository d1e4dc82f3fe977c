// Calls that fail in acts on small files in memory: each is answered by Io.

use crate::files::disk_of;
use crate::undo::acts::{Act, act_on};
use crate::undo::files::{FILE, Image, OPEN, ROOM, bytes_of};
use std::alloc::{AllocError, Global};
use tdb_disk::Call;
use tdb_undo::UndoRefusal;

/// A file, an act on it, and how many calls of a kind that makes at least, each of which is answered where it fails.
type Fault = (&'static Image, Act, Call, u64);

static FAULTS: [(&'static str, Fault); 13] = [
    ("reads of a recovery", (&OPEN, Act::Recover, Call::Read, 7)),
    (
        "writes of a recovery",
        (&OPEN, Act::Recover, Call::Write, 3),
    ),
    (
        "words of a recovery",
        (&OPEN, Act::Recover, Call::WriteWord, 7),
    ),
    ("the cut of a recovery", (&OPEN, Act::Recover, Call::Cut, 1)),
    ("syncs of a recovery", (&OPEN, Act::Recover, Call::Sync, 6)),
    (
        "the first sync of the gate",
        (&OPEN, Act::SetGate, Call::Sync, 1),
    ),
    (
        "syncs of a first area",
        (&FILE, Act::Place(18), Call::Sync, 3),
    ),
    (
        "words of a first area",
        (&FILE, Act::Place(18), Call::WriteWord, 2),
    ),
    (
        "the growth of a first area",
        (&FILE, Act::Place(18), Call::Grow, 1),
    ),
    (
        "the read of a first area",
        (&FILE, Act::Place(18), Call::Read, 1),
    ),
    ("writes of the content", (&ROOM, Act::Fill, Call::Write, 6)),
    ("reads of the content", (&ROOM, Act::Fill, Call::Read, 4)),
    ("the sync of the content", (&ROOM, Act::Fill, Call::Sync, 1)),
];

/// Whether each of so many calls is answered where it fails.
fn fault_holds(alloc: Global, row: &Fault) -> Result<bool, AllocError> {
    let (file, act, call, count) = row;
    let bytes = bytes_of(alloc, file)?;
    for nth in 0..*count {
        let mut disk = disk_of(alloc, &bytes, Some((*call, nth)))?;
        if act_on(alloc, &mut disk, act) != Some(Err(UndoRefusal::Io)) {
            return Ok(false);
        }
    }
    Ok(true)
}

/// The first calls that aren't answered so where they fail.
pub(crate) fn failing_fault(alloc: Global) -> Result<Option<&'static str>, AllocError> {
    for (name, row) in &FAULTS {
        if !fault_holds(alloc, row)? {
            return Ok(Some(*name));
        }
    }
    Ok(None)
}

// Scripts of turns: what is printed, and what is left of the file.

use crate::images::{NEW, ONE};
use crate::runs::Failing::{Disk, Nothing};
use crate::runs::{CALLS, USAGE, answer};
use crate::tables::{Left, Table, files_of};
use std::alloc::{AllocError, Global};
use tdb_disk::{Call, MemFiles};

/// Two openers store, turn by turn.
const TWO_STORES: &str =
    "open\nopen\ngive 1 store a 1\ngive 2 store b 2\nturn 1\nturn 2\nturn 1\nturn 2\nturn 1\nturn 2\ngo 1\ngo 2\n";

const TWO_STORES_TOLD: &str =
    "1 open\n2 open\n1 step\n2 step\n1 step\n2 step\n1 step\n2 blocked 1 164\n1 step\ngrew 696 4096\n1 step\n1 done ok\n2 step\n2 step\n2 step\n2 done ok\n";

/// One opener's explicit lock is in another's way.
const LOCKS: &str =
    "open\nopen\ndo 1 lock a\ndo 2 locknb a\ndo 2 fetch a\ndo 1 unlock a\ndo 1 unlock a\ngo 2\ndo 1 lock a\nturn 2\nturn 5\n";

const LOCKS_TOLD: &str =
    "1 open\n2 open\n1 done ok\n2 done busy 1 196\n2 blocked 1 196\n1 done ok\n1 done notlocked\n2 step\n2 done data(1) = \"1\"\n1 done ok\n2 idle\n5 absent\n";

/// A file that is only read.
const READ_ONLY: &str = "open\ndo 1 store a 2\ndo 1 has a\ndo 1 close\ndo 1 check\n";

const READ_ONLY_TOLD: &str = "1 open\n1 done rdonly\n1 step\n1 done yes\n1 done ok\n1 absent\n";

/// An opener dies, but not in the middle of a command.
const DEATHS: &str = "open\ngive 1 store a 2\nturn 1\ndie 1\ngo 1\ndie 1\ndie 1\n";

const DEATHS_TOLD: &str = "1 open\n1 step\n1 occupied\n1 done ok\n1 died\n1 absent\n";

/// A commit takes turns, and another opener's turns lie between them.
pub(crate) const COMMIT: &str =
    "open\nopen\ndo 1 start\ndo 1 store a 9\ndo 2 fetch a\ngive 2 store b 2\nturn 2\ndo 1 commit\ngo 2\ndo 2 fetch a\n";

pub(crate) const COMMIT_TOLD: &str =
    "1 open\n2 open\n1 step\n1 step\n1 done ok\n1 done ok\n2 step\n2 done data(1) = \"1\"\n2 blocked 1 448\n1 step\n1 step\n1 step\ngrew 4096 8192\n1 step\n1 step\n1 step\n1 step\n1 step\n1 done ok\n2 step\n2 step\n2 step\n2 step\n2 step\n2 done ok\n2 step\n2 done data(1) = \"9\"\n";

/// A transaction within another is cancelled, which dooms that.
const DOOMED: &str =
    "open\ndo 1 start\ndo 1 store a 2\ndo 1 start\ndo 1 store b 3\ndo 1 cancel\ndo 1 commit\ndo 1 fetch a\n";

const DOOMED_TOLD: &str =
    "1 open\n1 step\n1 step\n1 done ok\n1 done ok\n1 done ok\n1 done ok\n1 done ok\n1 done doomed\n1 step\n1 done data(1) = \"1\"\n";

/// A commit that finds no room in a file that may have 4096 bytes.
const NO_ROOM: &str = "open\ndo 1 start\ndo 1 store a 9\ndo 1 commit\ndo 1 fetch a\n";

const NO_ROOM_TOLD: &str =
    "1 open\n1 step\n1 step\n1 done ok\n1 done ok\n1 step\n1 step\n1 done full 4096 4096\n1 step\n1 done data(1) = \"1\"\n";

/// A transaction within another, where there may be none.
const NO_NESTING: &str = "open\ndo 1 start\ndo 1 start\ndo 1 commit\ndo 1 commit\n";

const NO_NESTING_TOLD: &str =
    "1 open\n1 step\n1 step\n1 done ok\n1 done nesting\n1 done ok\n1 done notransaction\n";

/// The opener of a prepared transaction dies, and its gate is undone before the next turn.
pub(crate) const PREPARED: &str =
    "open\nopen\ndo 1 start\ndo 1 store a 9\ndo 1 prepare\ngive 2 fetch a\nturn 2\ndie 1\ngo 2\n";

pub(crate) const PREPARED_TOLD: &str =
    "1 open\n2 open\n1 step\n1 step\n1 done ok\n1 done ok\n1 step\n1 step\n1 step\ngrew 4096 8192\n1 step\n1 done ok\n2 blocked 1 196\n1 died\nundone 1 4096\n2 step\n2 done data(1) = \"1\"\n";

/// An opener dies in the turn of its commit before the one that shuts the gate.
const DEATH_BEFORE: &str =
    "open\nopen\ndo 1 start\ndo 1 store a 9\ngive 1 commit\nturn 1\nturn 1\nturn 1\nturn 1\nturn 1\nturn 1\nturn 1\ndie 1\ndo 2 fetch a\n";

const DEATH_BEFORE_TOLD: &str =
    "1 open\n2 open\n1 step\n1 step\n1 done ok\n1 done ok\n1 step\n1 step\n1 step\ngrew 4096 8192\n1 step\n1 step\n1 step\n1 step\n1 died\nundone 1 4096\n2 step\n2 done data(1) = \"1\"\n";

/// It dies in the turn behind that.
const DEATH_BEHIND: &str =
    "open\nopen\ndo 1 start\ndo 1 store a 9\ngive 1 commit\nturn 1\nturn 1\nturn 1\nturn 1\nturn 1\nturn 1\nturn 1\nturn 1\ndie 1\ndo 2 fetch a\n";

const DEATH_BEHIND_TOLD: &str =
    "1 open\n2 open\n1 step\n1 step\n1 done ok\n1 done ok\n1 step\n1 step\n1 step\ngrew 4096 8192\n1 step\n1 step\n1 step\n1 step\n1 step\n1 died\n2 step\n2 done data(1) = \"9\"\n";

pub(crate) static TABLES: [Table; 4] = [
    Table {
        files: &[("f.tdb", ONE)],
        in_turn: 1,
        lines: &[
            ("turns f.tdb", DOOMED, Nothing, 0, DOOMED_TOLD),
            ("turns f.tdb", PREPARED, Nothing, 0, PREPARED_TOLD),
            ("turns f.tdb", DEATH_BEFORE, Nothing, 0, DEATH_BEFORE_TOLD),
            (
                "turns --limit 4096 f.tdb",
                NO_ROOM,
                Nothing,
                0,
                NO_ROOM_TOLD,
            ),
            (
                "turns --no-nesting f.tdb",
                NO_NESTING,
                Nothing,
                0,
                NO_NESTING_TOLD,
            ),
            (
                "turns f.tdb",
                "open\ndo 1 start\n",
                Disk("f.tdb", Call::Sync, 0),
                4,
                "1 open\n1 step\n1 step\ndevice fault\n",
            ),
        ],
        left: &[("f.tdb", Left::Bytes(ONE))],
    },
    Table {
        files: &[("f.tdb", ONE)],
        in_turn: 1,
        lines: &[
            ("turns f.tdb", COMMIT, Nothing, 0, COMMIT_TOLD),
            ("turns f.tdb", DEATH_BEHIND, Nothing, 0, DEATH_BEHIND_TOLD),
        ],
        left: &[("f.tdb", Left::Other(ONE))],
    },
    Table {
        files: &[("f.tdb", NEW)],
        in_turn: 1,
        lines: &[("turns f.tdb", TWO_STORES, Nothing, 0, TWO_STORES_TOLD)],
        left: &[
            ("f.tdb", Left::Length(4096)),
            (
                "f.tdb",
                Left::Words(&[(700, 3312), (4044, 1), (4056, 0x4242_3262)]),
            ),
        ],
    },
    Table {
        files: &[("f.tdb", ONE)],
        in_turn: 1,
        lines: &[
            ("turns f.tdb", LOCKS, Nothing, 0, LOCKS_TOLD),
            (
                "turns --read-only f.tdb",
                READ_ONLY,
                Nothing,
                0,
                READ_ONLY_TOLD,
            ),
            ("turns f.tdb", DEATHS, Nothing, 0, DEATHS_TOLD),
            (
                "turns f.tdb",
                "open\ngive 1 store a 2\nturn 1",
                Nothing,
                0,
                "1 open\n1 step\n1 unfinished\n",
            ),
            (
                "turns f.tdb --seqnum",
                "open\ndo 1 delete b\ndo 1 seqnum",
                Nothing,
                0,
                "1 open\n1 step\n1 done noexist\n1 done number 0\n",
            ),
            ("turns --limit 1000 f.tdb", "", Nothing, 6, "toolong 4096\n"),
            ("turns --limit=4294963200 -- f.tdb", "", Nothing, 0, ""),
            (
                "turns g.tdb",
                "open\ndo 1 begin",
                Nothing,
                7,
                "input malformed at 5\n",
            ),
            ("turns g.tdb", "# nothing\n", Nothing, 9, "missing g.tdb\n"),
            (
                "turns f.tdb",
                "open\ndo 1 store a 22",
                Disk("f.tdb", Call::Write, 0),
                4,
                "1 open\n1 step\ndevice fault\n",
            ),
            ("turns --limit 695 f.tdb", "", Nothing, 2, USAGE),
            ("turns --limit -- f.tdb", "", Nothing, 2, USAGE),
            ("turns --seqnum f.tdb --seqnum", "", Nothing, 2, USAGE),
            ("turns --read-only", "", Nothing, 2, USAGE),
        ],
        left: &[],
    },
];

/// One opener changes the value of `a` in a transaction.
const CHANGE: &[u8] = b"open\ndo 1 start\ndo 1 store a 9\ndo 1 commit\n";

const OLD_VALUE: &[u8] = b"data(1) = \"1\"\n";

const NEW_VALUE: &[u8] = b"data(1) = \"9\"\n";

/// The status of the change in which the nth call of a kind of the disk fails, and whether the file opens with the new
/// value then, or with the old one where the device failed.
fn change_failing(alloc: Global, call: Call, nth: u64) -> Result<(u8, bool), AllocError> {
    let mut files = files_of(alloc, &[("f.tdb", ONE)])?;
    let failing = Disk("f.tdb", call, nth);
    let logs = &mut Vec::new(alloc);
    let (status, _) = answer(alloc, &mut files, "turns f.tdb", CHANGE, &failing, logs)?;
    let mut after = MemFiles::new(alloc);
    after.put("f.tdb", files.get("f.tdb").unwrap_or(&[]))?;
    let (_, shown) = answer(alloc, &mut after, "tool f.tdb show a", b"", &Nothing, logs)?;
    let shown = shown.as_slice();
    Ok((
        status,
        shown == NEW_VALUE || status == 4 && shown == OLD_VALUE,
    ))
}

/// Whether the file opens so whichever call of a kind fails, up to the first change of which none does.
fn changes_safely(alloc: Global, call: Call) -> Result<bool, AllocError> {
    for nth in 0..200 {
        let (status, is_safe) = change_failing(alloc, call, nth)?;
        if !is_safe || status == 0 {
            return Ok(is_safe);
        }
    }
    Ok(false)
}

/// The first calls of which that isn't so.
pub(crate) fn failing_call(alloc: Global) -> Result<Option<&'static str>, AllocError> {
    for (name, call) in &CALLS {
        if !changes_safely(alloc, *call)? {
            return Ok(Some(*name));
        }
    }
    Ok(None)
}

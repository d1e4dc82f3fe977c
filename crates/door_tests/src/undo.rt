// Files whose gate is open: what is printed, and what is left of them.

use crate::images::{GATE, Image, NEW_FILE, ONE, OPEN_GATE, bytes_of};
use crate::runs::Failing::{Disk, Nothing};
use crate::runs::{DUMP, answer};
use crate::tables::{Left, Table};
use small_file::{RECORD, Word};
use std::alloc::{AllocError, Global};
use tdb_disk::{Call, MemFiles};

/// The number of chains becomes 0 in the undo, and the sequence number stays.
const BAD_NUMBER: Image = Image {
    words: &[&NEW_FILE, &RECORD, &OPEN_GATE, &[(4120, 36)]],
    ..GATE
};

const BAD_NUMBER_UNDONE: Image = Image {
    words: &[&NEW_FILE, &RECORD, &[(36, 0), (48, 5)]],
    ..ONE
};

pub(crate) static TABLES: [Table; 5] = [
    Table {
        files: &[("f.tdb", GATE)],
        in_turn: 1,
        lines: &[
            ("tool f.tdb show a", "", Nothing, 0, "data(1) = \"1\"\n"),
            ("tool f.tdb insert a 2", "", Nothing, 1, "exists\n"),
            ("tool f.tdb dump", "", Nothing, 0, DUMP),
            (
                "tool f.tdb first",
                "",
                Nothing,
                0,
                "key(1) = \"a\" data(1) = \"1\"\n",
            ),
            ("tool f.tdb transaction_start", "", Nothing, 0, "ok\n"),
            (
                "tool f.tdb transaction_commit",
                "",
                Nothing,
                1,
                "notransaction\n",
            ),
            ("tool f.tdb quit", "", Nothing, 0, ""),
        ],
        left: &[("f.tdb", Left::Bytes(ONE))],
    },
    Table {
        files: &[("f.tdb", GATE)],
        in_turn: 1,
        lines: &[("dump f.tdb", "", Nothing, 3, "needs recovery\n")],
        left: &[("f.tdb", Left::Bytes(GATE))],
    },
    Table {
        files: &[("f.tdb", BAD_NUMBER)],
        in_turn: 1,
        lines: &[("tool f.tdb check", "", Nothing, 3, "corrupt Header 0\n")],
        left: &[("f.tdb", Left::Bytes(BAD_NUMBER_UNDONE))],
    },
    // An insert goes on from the undone file.
    Table {
        files: &[("f.tdb", GATE)],
        in_turn: 1,
        lines: &[("tool f.tdb insert b 2", "", Nothing, 0, "ok\n")],
        left: &[("f.tdb", Left::Checks("number 2\n"))],
    },
    // Where a call failed in the undo, the next run undoes the rest.
    Table {
        files: &[("f.tdb", GATE)],
        in_turn: 1,
        lines: &[
            (
                "tool f.tdb show a",
                "",
                Disk("f.tdb", Call::Write, 0),
                4,
                "device fault\n",
            ),
            (
                "tool f.tdb show a",
                "",
                Disk("f.tdb", Call::WriteWord, 0),
                4,
                "device fault\n",
            ),
            (
                "tool f.tdb check",
                "",
                Disk("f.tdb", Call::Sync, 0),
                4,
                "device fault\n",
            ),
        ],
        left: &[("f.tdb", Left::Checks("number 1\n"))],
    },
];

/// A word that damages the undo area of the file whose gate is open, and what is printed of it.
static DAMAGES: [(Word, &'static str); 11] = [
    ((44, 4097), "corrupt AreaBad 44\n"),
    ((44, 8176), "corrupt AreaBad 44\n"),
    ((4100, 4073), "corrupt AreaBad 4100\n"),
    ((4100, 4076), "corrupt AreaBad 4100\n"),
    ((4116, 1), "corrupt AreaBad 4116\n"),
    ((4104, 692), "corrupt UndoBad 4104\n"),
    ((4104, 4100), "corrupt UndoBad 4104\n"),
    ((4104, 8196), "corrupt UndoBad 4104\n"),
    ((4108, 4073), "corrupt UndoBad 4108\n"),
    // A length of the second entry that passes the content, and an offset of it behind the old length.
    ((4136, 0xFFFF_FFFF), "corrupt UndoBad 4132\n"),
    ((4132, 4096), "corrupt UndoBad 4132\n"),
];

/// Whether a command line refuses a file of these bytes so, and leaves it as it is.
fn is_refused(alloc: Global, words: &str, bytes: &[u8], printed: &str) -> Result<bool, AllocError> {
    let mut files = MemFiles::new(alloc);
    files.put("f.tdb", bytes)?;
    let logs = &mut Vec::new(alloc);
    let (status, text) = answer(alloc, &mut files, words, b"", &Nothing, logs)?;
    let is_kept = files.get("f.tdb") == Some(bytes);
    Ok(is_kept && status == 3 && text.as_slice() == printed.as_bytes())
}

/// The first damage that isn't refused so, or with which something is written: by a command, by a session and by turns,
/// of which the last two load a world.
pub(crate) fn failing_damage(alloc: Global) -> Result<Option<&'static str>, AllocError> {
    for (word, printed) in &DAMAGES {
        let bytes = bytes_of(alloc, &GATE, &[*word])?;
        if !is_refused(alloc, "tool f.tdb show a", &bytes, printed)?
            || !is_refused(alloc, "tool f.tdb", &bytes, printed)?
            || !is_refused(alloc, "turns f.tdb", &bytes, printed)?
        {
            return Ok(Some(*printed));
        }
    }
    Ok(None)
}

// Generated commands: the summary that is printed, and the file that is left.

use crate::images::NEW;
use crate::logs::Logged;
use crate::runs::Failing::{Disk, Files, Nothing, Output};
use crate::runs::{USAGE, answer};
use crate::tables::{Left, Table};
use std::alloc::{AllocError, Global};
use std::str::from_utf8;
use tdb_disk::{Call, MemFiles};
use tdb_log::Notice;

/// The summary of no command.
const NOTHING: &str =
    "commands 0\nok 0\ndata 0\nnoexist 0\nyes 0\nno 0\nfull 0\nmemory 0\nblocked 0\nlive 0\nlength 696\n";

/// That of the one command from the seed 1, which stores 150 bytes.
const ONE_STORE: &str =
    "commands 1\nok 1\ndata 0\nnoexist 0\nyes 0\nno 0\nfull 0\nmemory 0\nblocked 0\nlive 1\nlength 4096\n";

/// The dump of a file that has the record which the one command from the seed 1 stores.
const ONE_STORED: &str =
    "{\nkey(4) = \"k496\"\ndata(150) = \"cccccccccccccccccccccccccccccccccccccccccccccccccccccccccccccccccccccccccccccccccccccccccccccccccccccccccccccccccccccccccccccccccccccccccccccccccccccc\"\n}\n";

/// What is printed where a call of a device fails.
const FAULT: &str = "device fault\n";

pub(crate) static TABLES: [Table; 9] = [
    Table {
        files: &[],
        in_turn: 2,
        lines: &[
            ("gen 1 1 f.tdb", "", Nothing, 0, ONE_STORE),
            ("dump f.tdb", "", Nothing, 0, ONE_STORED),
        ],
        left: &[],
    },
    // A file on which no command is done is a new one, and stays where it is to be made again.
    Table {
        files: &[],
        in_turn: 2,
        lines: &[
            ("gen 0 7 g.tdb", "", Nothing, 0, NOTHING),
            ("gen 0 7 g.tdb", "", Nothing, 9, "there g.tdb\n"),
        ],
        left: &[("g.tdb", Left::Bytes(NEW))],
    },
    // Words with a reading.
    Table {
        files: &[],
        in_turn: 1,
        lines: &[
            ("gen 0 4294967295 -- -h.tdb", "", Nothing, 0, NOTHING),
            ("gen -- 0000000001 1 --", "", Nothing, 0, ONE_STORE),
            ("gen 0 -- 0 i.tdb", "", Nothing, 0, NOTHING),
            ("gen 0 0 j.tdb --", "", Nothing, 0, NOTHING),
        ],
        left: &[],
    },
    // Words without a reading.
    Table {
        files: &[],
        in_turn: 1,
        lines: &[
            ("gen", "", Nothing, 2, USAGE),
            ("gen 1 1", "", Nothing, 2, USAGE),
            ("gen 1 f.tdb", "", Nothing, 2, USAGE),
            ("gen 1000001 1 f.tdb", "", Nothing, 2, USAGE),
            ("gen 00000000001 1 f.tdb", "", Nothing, 2, USAGE),
            ("gen 1 4294967296 f.tdb", "", Nothing, 2, USAGE),
            ("gen -1 1 f.tdb", "", Nothing, 2, USAGE),
            ("gen 1 x f.tdb", "", Nothing, 2, USAGE),
            ("gen 1 1 -f.tdb", "", Nothing, 2, USAGE),
            ("gen 1 1 -f.tdb --", "", Nothing, 2, USAGE),
            ("gen 1 1 --", "", Nothing, 2, USAGE),
            ("gen 1 1 f.tdb g.tdb", "", Nothing, 2, USAGE),
            ("gen -- 1 1 f.tdb g.tdb", "", Nothing, 2, USAGE),
        ],
        left: &[("f.tdb", Left::Missing)],
    },
    // Where a call fails the file stays as that call left it.
    Table {
        files: &[],
        in_turn: 1,
        lines: &[("gen 1 1 f.tdb", "", Disk("f.tdb", Call::Grow, 0), 4, FAULT)],
        left: &[("f.tdb", Left::Length(0))],
    },
    Table {
        files: &[],
        in_turn: 1,
        lines: &[
            ("gen 1 1 f.tdb", "", Disk("f.tdb", Call::Write, 0), 4, FAULT),
            ("gen 1 1 f.tdb", "", Disk("f.tdb", Call::Sync, 0), 4, FAULT),
            ("gen 1 1 f.tdb", "", Disk("f.tdb", Call::Grow, 1), 4, FAULT),
        ],
        left: &[("f.tdb", Left::Length(696))],
    },
    Table {
        files: &[],
        in_turn: 1,
        lines: &[
            ("gen 1 1 f.tdb", "", Disk("f.tdb", Call::Write, 1), 4, FAULT),
            ("gen 1 1 f.tdb", "", Disk("f.tdb", Call::Sync, 1), 4, FAULT),
        ],
        left: &[("f.tdb", Left::Length(4096))],
    },
    Table {
        files: &[],
        in_turn: 1,
        lines: &[("gen 1 1 f.tdb", "", Files(Call::Take, 0), 4, FAULT)],
        left: &[("f.tdb", Left::Missing)],
    },
    // Where the output fails, what was done stands.
    Table {
        files: &[],
        in_turn: 1,
        lines: &[("gen 1 1 f.tdb", "", Output(0), 8, "")],
        left: &[("f.tdb", Left::Length(4096))],
    },
];

/// What stands behind a word at the front of a line of this text.
fn told_of<'a>(text: &'a str, word: &str) -> Option<&'a str> {
    for line in text.lines() {
        if let Some(number) = line.strip_prefix(word) {
            return Some(number);
        }
    }
    None
}

/// What is otherwise with ten thousand commands that are done twice.
pub(crate) fn failing_load(alloc: Global) -> Result<Option<&'static str>, AllocError> {
    let logs = &mut Vec::new(alloc);
    let mut files = MemFiles::new(alloc);
    let (one, first) = answer(alloc, &mut files, "gen 10000 1 f.tdb", b"", &Nothing, logs)?;
    let (two, other) = answer(alloc, &mut files, "gen 10000 1 g.tdb", b"", &Nothing, logs)?;
    let summary = from_utf8(&first).unwrap_or("");
    if one != 0 || two != 0 || told_of(summary, "commands ") != Some("10000") {
        return Ok(Some("a load"));
    }
    if first.as_slice() != other.as_slice() || files.get("f.tdb") != files.get("g.tdb") {
        return Ok(Some("a load twice"));
    }
    let (_, checked) = answer(alloc, &mut files, "tool f.tdb check", b"", &Nothing, logs)?;
    let number = told_of(from_utf8(&checked).unwrap_or(""), "number ");
    Ok((number.is_none() || number != told_of(summary, "live ")).then_some("a check of a load"))
}

/// How the file of one command grows.
const GROWTH: Notice = Notice::Grew {
    from: 696,
    to: 4096,
};

// The last log is told the growth of the file alone. Where it doesn't take that there is no file again.
pub(crate) static LOGGED: [(&'static str, Logged); 2] = [
    (
        "a log that is told the growth",
        Logged {
            files: &[],
            line: &[("gen 1 1 f.tdb", "", Nothing, 0, ONE_STORE)],
            stands: &[("f.tdb", Left::Length(4096))],
            logs: 1,
            failing: Some(1),
            left: 1,
            told: &[GROWTH],
        },
    ),
    (
        "a log that fails at the growth",
        Logged {
            files: &[],
            line: &[("gen 1 1 f.tdb", "", Nothing, 10, "log fault\n")],
            stands: &[("f.tdb", Left::Missing)],
            logs: 1,
            failing: Some(0),
            left: 1,
            told: &[],
        },
    ),
];

// The commands that tell what a file holds: in numbers, by its chains and by its free list.

use crate::images::{GATE, NEW, NEW_BIG, ONE, STRAY};
use crate::long::long_words;
use crate::runs::Failing::{Disk, Nothing, Output};
use crate::runs::{USAGE, answer};
use crate::tables::{Left, Table, files_of};
use std::alloc::{AllocError, Global};
use tdb_disk::Call;

/// What is told of the file of one record.
const INFO: &str =
    "size 4096\nhash default 131 little\nsequence 0\nkeys 1\ndead 0\nfree 1\ndeadbytes 0\narea 0\nkeybytes 1\ndatabytes 1\nlargestfree 3344\n";

const LIST: &str = "chain 7 1\nused 4064 1 1 8\n";

const FREE: &str = "free 696 3344\n";

pub(crate) static TABLES: [Table; 5] = [
    Table {
        files: &[("f.tdb", ONE)],
        in_turn: 1,
        lines: &[
            ("tool f.tdb info", "", Nothing, 0, INFO),
            ("tool f.tdb list", "", Nothing, 0, LIST),
            ("tool f.tdb free", "", Nothing, 0, FREE),
            ("tool --limit 4096 f.tdb info", "", Nothing, 0, INFO),
            (
                "tool --limit 4095 f.tdb list",
                "",
                Nothing,
                6,
                "toolong 4096\n",
            ),
            ("tool f.tdb info a", "", Nothing, 2, USAGE),
            ("tool f.tdb list a", "", Nothing, 2, USAGE),
            ("tool f.tdb free a", "", Nothing, 2, USAGE),
            ("tool g.tdb info", "", Nothing, 9, "missing g.tdb\n"),
            ("tool f.tdb", "info\n", Nothing, 7, "input malformed at 0\n"),
            ("tool f.tdb", "list\n", Nothing, 7, "input malformed at 0\n"),
            ("tool f.tdb", "free\n", Nothing, 7, "input malformed at 0\n"),
            (
                "tool f.tdb info",
                "",
                Disk("f.tdb", Call::Read, 4),
                4,
                "device fault\n",
            ),
            (
                "tool f.tdb list",
                "",
                Disk("f.tdb", Call::Read, 4),
                4,
                "device fault\n",
            ),
            (
                "tool f.tdb free",
                "",
                Disk("f.tdb", Call::Read, 4),
                4,
                "device fault\n",
            ),
            ("tool f.tdb info", "", Output(0), 8, ""),
            ("tool f.tdb list", "", Output(0), 8, ""),
            ("tool f.tdb free", "", Output(0), 8, ""),
        ],
        left: &[("f.tdb", Left::Bytes(ONE))],
    },
    // A new file of the other byte order, with the other hash.
    Table {
        files: &[("f.tdb", NEW_BIG)],
        in_turn: 1,
        lines: &[
            (
                "tool f.tdb info",
                "",
                Nothing,
                0,
                "size 696\nhash jenkins 131 big\nsequence 0\nkeys 0\ndead 0\nfree 0\ndeadbytes 0\narea 0\nkeybytes 0\ndatabytes 0\nlargestfree 0\n",
            ),
            ("tool f.tdb list", "", Nothing, 0, ""),
            ("tool f.tdb free", "", Nothing, 0, ""),
        ],
        left: &[("f.tdb", Left::Bytes(NEW_BIG))],
    },
    // What an unfinished change left is undone first.
    Table {
        files: &[("f.tdb", GATE)],
        in_turn: 1,
        lines: &[
            ("tool f.tdb info", "", Nothing, 0, INFO),
            ("tool f.tdb list", "", Nothing, 0, LIST),
            ("tool f.tdb free", "", Nothing, 0, FREE),
        ],
        left: &[("f.tdb", Left::Bytes(ONE))],
    },
    Table {
        files: &[("f.tdb", STRAY)],
        in_turn: 1,
        lines: &[
            ("tool f.tdb info", "", Nothing, 3, "corrupt Stray 4068\n"),
            ("tool f.tdb list", "", Nothing, 3, "corrupt Stray 4068\n"),
            ("tool f.tdb free", "", Nothing, 3, "corrupt Stray 4068\n"),
        ],
        left: &[("f.tdb", Left::Bytes(STRAY))],
    },
    // The undo area of a committed transaction.
    Table {
        files: &[("f.tdb", ONE)],
        in_turn: 2,
        lines: &[
            (
                "tool f.tdb",
                "transaction_start\nstore a 2\ntransaction_commit\n",
                Nothing,
                0,
                "ok\nok\nok\n",
            ),
            ("tool f.tdb list", "", Nothing, 0, LIST),
        ],
        left: &[],
    },
];

/// What is told of a file in which a value of 5000 bytes took the place of an empty one: the old record and what the
/// file grew by are one free record. Written anew the file is shorter.
const GROWN: &str =
    "size 12288\nhash default 131 little\nsequence 0\nkeys 1\ndead 0\nfree 1\ndeadbytes 0\narea 0\nkeybytes 1\ndatabytes 5000\nlargestfree 5288\n";

const REPACKED: &str =
    "size 8192\nhash default 131 little\nsequence 0\nkeys 1\ndead 0\nfree 1\ndeadbytes 0\narea 0\nkeybytes 1\ndatabytes 5000\nlargestfree 1192\n";

const GROWN_LIST: &str = "chain 10 1\nused 6008 1 5000 6256\n";

/// The first line over one file, in which a long value takes the place of an empty one, that goes otherwise.
pub(crate) fn failing_growth(alloc: Global) -> Result<Option<&'static str>, AllocError> {
    let store = long_words(alloc, "tool f.tdb store k ")?;
    let mut files = files_of(alloc, &[("f.tdb", NEW)])?;
    for (name, words, printed) in [
        ("an empty value", "tool f.tdb store k \"\"", "ok\n"),
        ("a long value", store.as_str(), "ok\n"),
        ("its numbers", "tool f.tdb info", GROWN),
        ("its records", "tool f.tdb list", GROWN_LIST),
        ("its free records", "tool f.tdb free", "free 696 5288\n"),
        ("a repack", "tool f.tdb repack", "ok\n"),
        ("its numbers then", "tool f.tdb info", REPACKED),
        (
            "its free records then",
            "tool f.tdb free",
            "free 696 1192\n",
        ),
    ] {
        let logs = &mut Vec::new(alloc);
        let (found, bytes) = answer(alloc, &mut files, words, b"", &Nothing, logs)?;
        if found != 0 || bytes.as_slice() != printed.as_bytes() {
            return Ok(Some(name));
        }
    }
    Ok(None)
}

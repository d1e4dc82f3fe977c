// What is printed for files of known bytes, and what failing calls give.

use crate::images::{Image, NEW, NEW_BIG, NEW_FILE, NEW_JENKINS_FILE, ONE, bytes_of};
use crate::runs::Failing::{Disk, Files, Nothing, Output};
use crate::runs::{DUMP, Line, USAGE};
use crate::tables::{Table, checks};
use small_file::Word;
use std::alloc::{AllocError, Global};
use tdb_disk::Call;
use tdb_words::{DEAD, USED};

/// Lines over a file whose one record is that of `a`, with the value `1`.
const ONE_RECORD_LINES: [Line<'static>; 26] = [
    ("tool f.tdb show a", "", Nothing, 0, "data(1) = \"1\"\n"),
    ("tool f.tdb show \\61", "", Nothing, 0, "data(1) = \"1\"\n"),
    ("tool f.tdb check", "", Nothing, 0, "number 1\n"),
    ("tool f.tdb show b", "", Nothing, 1, "noexist\n"),
    ("tool f.tdb show \"\"", "", Nothing, 1, "noexist\n"),
    ("tool f.tdb show \\6", "", Nothing, 2, USAGE),
    ("tool f.tdb shows a", "", Nothing, 2, USAGE),
    ("tool f.tdb show", "", Nothing, 2, USAGE),
    ("tool f.tdb check a", "", Nothing, 2, USAGE),
    ("tool -f.tdb show a", "", Nothing, 2, USAGE),
    ("tool g.tdb show a", "", Nothing, 9, "missing g.tdb\n"),
    ("tool g.tdb check", "", Nothing, 9, "missing g.tdb\n"),
    ("tool f.tdb create", "", Nothing, 9, "there f.tdb\n"),
    (
        "tool f.tdb show a",
        "",
        Files(Call::Take, 0),
        4,
        "device fault\n",
    ),
    (
        "tool f.tdb show a",
        "",
        Disk("f.tdb", Call::Read, 0),
        4,
        "device fault\n",
    ),
    (
        "tool f.tdb check",
        "",
        Disk("f.tdb", Call::Read, 1),
        4,
        "device fault\n",
    ),
    ("tool f.tdb show a", "", Output(0), 8, ""),
    ("dump f.tdb", "", Nothing, 0, DUMP),
    ("dump -k \\61 f.tdb", "", Nothing, 0, "1\n"),
    ("dump f.tdb -k=a", "", Nothing, 0, "1\n"),
    ("dump -k aa f.tdb", "", Nothing, 1, "noexist\n"),
    ("dump -k a -k a f.tdb", "", Nothing, 2, USAGE),
    ("dump -ka f.tdb", "", Nothing, 2, USAGE),
    ("dump -- -g.tdb", "", Nothing, 9, "missing -g.tdb\n"),
    (
        "dump f.tdb",
        "",
        Disk("f.tdb", Call::Read, 4),
        4,
        "device fault\n",
    ),
    ("dump f.tdb", "", Output(0), 8, ""),
];

/// The record of `a` behind the heads, which ends the file but for zeros.
const AT_HEADS: Image = Image {
    words: &[
        &NEW_FILE,
        &[
            (200, 696),
            (700, 8),
            (704, 1),
            (708, 1),
            (712, 0x094A_72E9),
            (716, USED),
            (720, 0x0000_3161),
            (724, 32),
        ],
    ],
    len: 1024,
    ..NEW
};

/// The same with the other byte order and Jenkins' hash.
const AT_BIG_HEADS: Image = Image {
    words: &[
        &NEW_JENKINS_FILE,
        &[
            (480, 696),
            (700, 8),
            (704, 1),
            (708, 1),
            (712, 0x58D6_8708),
            (716, USED),
            (720, 0x6131_0000),
            (724, 32),
        ],
    ],
    len: 1024,
    ..NEW_BIG
};

/// A dead record of `a` behind the heads, and behind that, in the same chain, one of `a` with the value `3`, whose
/// magic is missing.
const DEAD_RECORD: [Word; 15] = [
    (200, 696),
    (696, 728),
    (700, 8),
    (704, 1),
    (708, 1),
    (712, 0x094A_72E9),
    (716, DEAD),
    (720, 0x0000_3261),
    (724, 32),
    (732, 8),
    (736, 1),
    (740, 1),
    (744, 0x094A_72E9),
    (752, 0x0000_3361),
    (756, 32),
];

const THEN_USED: Image = Image {
    words: &[&NEW_FILE, &DEAD_RECORD, &[(748, USED)]],
    ..AT_HEADS
};

const THEN_DEAD: Image = Image {
    words: &[&NEW_FILE, &DEAD_RECORD, &[(748, DEAD)]],
    ..AT_HEADS
};

const THEN_BAD: Image = Image {
    words: &[&NEW_FILE, &DEAD_RECORD, &[(748, 7)]],
    ..AT_HEADS
};

pub(crate) static TABLES: [Table; 6] = [
    Table {
        files: &[("f.tdb", ONE)],
        in_turn: 1,
        lines: &[("tool f.tdb show a", "", Nothing, 0, "data(1) = \"1\"\n")],
        left: &[],
    },
    Table {
        files: &[("f.tdb", AT_HEADS)],
        in_turn: 1,
        lines: &ONE_RECORD_LINES,
        left: &[],
    },
    Table {
        files: &[("f.tdb", AT_BIG_HEADS)],
        in_turn: 1,
        lines: &ONE_RECORD_LINES,
        left: &[],
    },
    Table {
        files: &[("f.tdb", THEN_USED)],
        in_turn: 1,
        lines: &[
            ("tool f.tdb show a", "", Nothing, 0, "data(1) = \"3\"\n"),
            ("tool f.tdb check", "", Nothing, 0, "number 1\n"),
        ],
        left: &[],
    },
    Table {
        files: &[("f.tdb", THEN_DEAD)],
        in_turn: 1,
        lines: &[
            ("tool f.tdb show a", "", Nothing, 1, "noexist\n"),
            ("tool f.tdb check", "", Nothing, 0, "number 0\n"),
            ("dump f.tdb", "", Nothing, 0, ""),
        ],
        left: &[],
    },
    Table {
        files: &[("f.tdb", THEN_BAD)],
        in_turn: 1,
        lines: &[
            (
                "tool f.tdb show a",
                "",
                Nothing,
                3,
                "corrupt BadRecord 728\n",
            ),
            (
                "tool f.tdb insert b 1",
                "",
                Nothing,
                3,
                "corrupt BadRecord 728\n",
            ),
            ("dump f.tdb", "", Nothing, 3, "corrupt BadRecord 728\n"),
        ],
        left: &[],
    },
];

/// A file, the words that are changed in it, the length to which it is cut, and the status of a check, with what it
/// prints.
type Checked = (Image, &'static [Word], u32, u8, &'static str);

static CHECKS: [(&'static str, Checked); 21] = [
    ("the file of one record", (ONE, &[], 4096, 0, "number 1\n")),
    (
        "a record that leads to itself",
        (ONE, &[(4064, 4064)], 4096, 3, "corrupt ChainLoop 4064\n"),
    ),
    (
        "a head to no whole word",
        (ONE, &[(200, 4066)], 4096, 3, "corrupt ChainOut 200\n"),
    ),
    (
        "a free list that leads to a used record",
        (ONE, &[(168, 4064)], 4096, 3, "corrupt BadRecord 4064\n"),
    ),
    (
        "a record in another chain",
        (
            ONE,
            &[(200, 0), (204, 4064)],
            4096,
            3,
            "corrupt WrongHash 4064\n",
        ),
    ),
    (
        "another tailer",
        (ONE, &[(4092, 33)], 4096, 3, "corrupt Tailer 4064\n"),
    ),
    (
        "a free record that doesn't reach its tailer",
        (ONE, &[(700, 3348)], 4096, 3, "corrupt Tailer 696\n"),
    ),
    (
        "a value that is too long",
        (ONE, &[(4076, 8)], 4096, 3, "corrupt BadRecord 4064\n"),
    ),
    (
        "a file of no whole words",
        (ONE, &[], 4095, 3, "corrupt Short 4095\n"),
    ),
    (
        "a file that ends in its last word",
        (ONE, &[], 4092, 3, "corrupt BadRecord 4064\n"),
    ),
    (
        "a file that ends in the record's header",
        (ONE, &[], 4084, 3, "corrupt ChainOut 200\n"),
    ),
    (
        "no chains",
        (ONE, &[(36, 0)], 4096, 3, "header NoBuckets\n"),
    ),
    (
        "a head that is lost",
        (ONE, &[(200, 0)], 4096, 3, "corrupt Stray 4068\n"),
    ),
    // Of two faults the first in order is told, and of two extents that share bytes the place where the later one
    // begins.
    (
        "the first of two faults",
        (
            ONE,
            &[(200, 4066), (4060, 1)],
            4096,
            3,
            "corrupt ChainOut 200\n",
        ),
    ),
    (
        "an undo area that overlaps a record",
        (
            ONE,
            &[(44, 1000), (1004, 100)],
            4096,
            3,
            "corrupt Overlap 1000\n",
        ),
    ),
    // An undo area whose gate is open, and that says no length that the file had.
    (
        "an undo area that is open and says no length",
        (
            ONE,
            &[(44, 1000), (1004, 100), (1020, 0xF53B_C0E7)],
            4096,
            3,
            "corrupt UndoBad 1008\n",
        ),
    ),
    ("a new file", (NEW, &[], 696, 0, "number 0\n")),
    (
        "no food hash",
        (NEW, &[(52, 0), (56, 0)], 696, 0, "number 0\n"),
    ),
    (
        "another version",
        (NEW, &[(32, 0)], 696, 3, "header Version\n"),
    ),
    (
        "a mutex area",
        (
            NEW,
            &[(40, 0x0BAD_1A52), (60, 1)],
            696,
            3,
            "header Mutexes\n",
        ),
    ),
    (
        "a file that is cut",
        (NEW, &[], 100, 3, "corrupt Short 100\n"),
    ),
];

/// The first check that doesn't answer so.
pub(crate) fn failing_check(alloc: Global) -> Result<Option<&'static str>, AllocError> {
    for (name, (base, words, len, status, printed)) in &CHECKS {
        let bytes = bytes_of(alloc, &Image { len: *len, ..*base }, words)?;
        if !checks(alloc, &bytes, *status, printed)? {
            return Ok(Some(*name));
        }
    }
    Ok(None)
}

// Inserts and restores: what is printed, and what is left of the files.

use crate::images::{Image, NEW, NEW_BIG, NEW_JENKINS_FILE, ONE};
use crate::runs::Failing::{Disk, Nothing, Output};
use crate::runs::{DUMP, Line, USAGE};
use crate::tables::{Left, Table};
use small_file::RECORD;
use tdb_disk::Call;

/// Lines over a new file `f.tdb`, to which they add the record of `a` with the value `1`.
const INSERTS: [Line<'static>; 19] = [
    ("tool f.tdb check", "", Nothing, 0, "number 0\n"),
    ("tool f.tdb insert a 1", "", Nothing, 0, "ok\n"),
    ("tool f.tdb insert a 2", "", Nothing, 1, "exists\n"),
    ("tool f.tdb show a", "", Nothing, 0, "data(1) = \"1\"\n"),
    ("tool f.tdb insert a 1 2", "", Nothing, 2, USAGE),
    ("tool f.tdb insert a \\6", "", Nothing, 2, USAGE),
    ("tool g.tdb insert a 1", "", Nothing, 9, "missing g.tdb\n"),
    ("tool f.tdb check", "", Nothing, 0, "number 1\n"),
    ("tool g.tdb create 7 jenkins big", "", Nothing, 0, "ok\n"),
    ("tool g.tdb insert a 1", "", Nothing, 0, "ok\n"),
    ("tool g.tdb check", "", Nothing, 0, "number 1\n"),
    ("tool g.tdb store a 22", "", Nothing, 0, "ok\n"),
    ("tool g.tdb show a", "", Nothing, 0, "data(2) = \"22\"\n"),
    ("tool g.tdb store b 3", "", Nothing, 0, "ok\n"),
    (
        "tool g.tdb store b 0123456789abcdef",
        "",
        Nothing,
        0,
        "ok\n",
    ),
    (
        "tool g.tdb show b",
        "",
        Nothing,
        0,
        "data(16) = \"0123456789abcdef\"\n",
    ),
    ("tool g.tdb show a", "", Nothing, 0, "data(2) = \"22\"\n"),
    ("tool g.tdb check", "", Nothing, 0, "number 2\n"),
    ("tool g.tdb create", "", Nothing, 9, "there g.tdb\n"),
];

/// The file of one record with the other byte order and Jenkins' hash, by which the record is filed in another chain.
const BIG_INSERTED: Image = Image {
    words: &[
        &NEW_JENKINS_FILE,
        &RECORD,
        &[
            (200, 0),
            (480, 4064),
            (4080, 0x58D6_8708),
            (4088, 0x6131_4242),
        ],
    ],
    len: 4096,
    ..NEW_BIG
};

/// The dump of a record with bytes that are escaped.
const ESCAPED: &str = "{\nkey(5) = \"\\00\\22\\5C\\7F\\FF\"\ndata(1) = \"\\FF\"\n}\n";

/// A text of two pairs, and how a dump has them: the chain of `a` comes before that of `b`.
const LATER_FIRST: &str =
    "{\nkey(1) = \"b\"\ndata(1) = \"2\"\n}\n{\nkey(1) = \"a\"\ndata(1) = \"1\"\n}\n";

const BY_CHAINS: &str =
    "{\nkey(1) = \"a\"\ndata(1) = \"1\"\n}\n{\nkey(1) = \"b\"\ndata(1) = \"2\"\n}\n";

/// A text in which a key comes twice.
const TWICE: &str =
    "{\nkey(1) = \"a\"\ndata(1) = \"1\"\n}\n{\nkey(1) = \"a\"\ndata(1) = \"1\"\n}\n";

pub(crate) static TABLES: [Table; 9] = [
    Table {
        files: &[("f.tdb", NEW)],
        in_turn: 19,
        lines: &INSERTS,
        left: &[("f.tdb", Left::Bytes(ONE))],
    },
    Table {
        files: &[("f.tdb", NEW_BIG)],
        in_turn: 19,
        lines: &INSERTS,
        left: &[("f.tdb", Left::Bytes(BIG_INSERTED))],
    },
    Table {
        files: &[("f.tdb", NEW)],
        in_turn: 1,
        lines: &[(
            "tool f.tdb insert a 1",
            "",
            Disk("f.tdb", Call::Grow, 0),
            4,
            "device fault\n",
        )],
        left: &[("f.tdb", Left::Length(696))],
    },
    Table {
        files: &[("f.tdb", NEW)],
        in_turn: 1,
        lines: &[
            (
                "tool f.tdb insert a 1",
                "",
                Disk("f.tdb", Call::Write, 0),
                4,
                "device fault\n",
            ),
            (
                "tool f.tdb insert a 1",
                "",
                Disk("f.tdb", Call::WriteWord, 0),
                4,
                "device fault\n",
            ),
            (
                "tool f.tdb insert a 1",
                "",
                Disk("f.tdb", Call::Sync, 0),
                4,
                "device fault\n",
            ),
        ],
        left: &[("f.tdb", Left::Length(4096))],
    },
    // Where the output fails, what was done stands.
    Table {
        files: &[("f.tdb", NEW)],
        in_turn: 1,
        lines: &[("tool f.tdb insert a 1", "", Output(0), 8, "")],
        left: &[("f.tdb", Left::Length(4096))],
    },
    Table {
        files: &[("f.tdb", NEW)],
        in_turn: 1,
        lines: &[("tool g.tdb create 1", "", Output(0), 8, "")],
        left: &[("g.tdb", Left::Length(176))],
    },
    Table {
        files: &[],
        in_turn: 9,
        lines: &[
            ("restore f.tdb", DUMP, Nothing, 0, ""),
            ("dump f.tdb", "", Nothing, 0, DUMP),
            ("restore f.tdb", DUMP, Nothing, 9, "there f.tdb\n"),
            (
                "restore --limit 696 h.tdb",
                DUMP,
                Nothing,
                6,
                "full 696 32\n",
            ),
            ("dump h.tdb", "", Nothing, 9, "missing h.tdb\n"),
            ("restore --limit=728 h.tdb", DUMP, Nothing, 0, ""),
            ("dump h.tdb", "", Nothing, 0, DUMP),
            ("restore --limit 695 i.tdb", DUMP, Nothing, 2, USAGE),
            ("restore --read-only i.tdb", DUMP, Nothing, 2, USAGE),
        ],
        left: &[],
    },
    // Bytes that are escaped come back from a dump.
    Table {
        files: &[("f.tdb", NEW)],
        in_turn: 5,
        lines: &[
            (
                "tool f.tdb store \\00\\22\\5C\\7F\\FF \\FF",
                "",
                Nothing,
                0,
                "ok\n",
            ),
            ("dump f.tdb", "", Nothing, 0, ESCAPED),
            ("restore g.tdb", ESCAPED, Nothing, 0, ""),
            ("dump g.tdb", "", Nothing, 0, ESCAPED),
            (
                "restore h.tdb",
                "{\nkey(1) = \"\\0",
                Nothing,
                7,
                "input malformed at 14\n",
            ),
        ],
        left: &[("h.tdb", Left::Missing)],
    },
    Table {
        files: &[],
        in_turn: 4,
        lines: &[
            ("restore r.tdb", LATER_FIRST, Nothing, 0, ""),
            ("dump r.tdb", "", Nothing, 0, BY_CHAINS),
            ("restore r.tdb", DUMP, Nothing, 9, "there r.tdb\n"),
            (
                "restore s.tdb",
                TWICE,
                Nothing,
                7,
                "input malformed at 31\n",
            ),
        ],
        left: &[
            ("r.tdb", Left::Checks("number 2\n")),
            ("s.tdb", Left::Missing),
        ],
    },
];

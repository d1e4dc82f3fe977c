// Files that are written anew, over the forms in memory: their bytes, and what failing calls leave.

use crate::images::{GATE, Image, NEW, NEW_FILE, ONE, STRAY};
use crate::runs::Failing::{Disk, Files, Nothing, Output};
use crate::runs::USAGE;
use crate::tables::{Left, Table};
use small_file::RECORD;
use tdb_disk::Call;

/// The file of one record, with a sequence number.
const NUMBERED: Image = Image {
    words: &[&NEW_FILE, &RECORD, &[(48, 5)]],
    ..ONE
};

/// A file that another run left.
const UNFINISHED: Image = Image {
    front: "of another run",
    words: &[],
    len: 14,
    ..ONE
};

const FAULT: &str = "device fault\n";

const DUMP: &str = "{\nkey(1) = \"a\"\ndata(1) = \"1\"\n}\n";

pub(crate) static TABLES: [Table; 9] = [
    // A file as the program makes it comes out the same, with its sequence number. What stood at the name of the new
    // one is gone.
    Table {
        files: &[("f.tdb", NUMBERED), ("f.tdb.tmp", UNFINISHED)],
        in_turn: 8,
        lines: &[
            ("tool f.tdb repack", "", Nothing, 0, "ok\n"),
            (
                "tool f.tdb list",
                "",
                Nothing,
                0,
                "chain 7 1\nused 4064 1 1 8\n",
            ),
            ("tool f.tdb free", "", Nothing, 0, "free 696 3344\n"),
            ("tool f.tdb create", "", Nothing, 9, "there f.tdb\n"),
            (
                "tool f.tdb",
                "repack\n",
                Nothing,
                7,
                "input malformed at 0\n",
            ),
            ("tool f.tdb repack a", "", Nothing, 2, USAGE),
            ("tool g.tdb repack", "", Nothing, 9, "missing g.tdb\n"),
            (
                "tool --limit 4095 f.tdb repack",
                "",
                Nothing,
                6,
                "toolong 4096\n",
            ),
        ],
        left: &[
            ("f.tdb", Left::Bytes(NUMBERED)),
            ("f.tdb.tmp", Left::Missing),
            ("g.tdb", Left::Missing),
            ("g.tdb.tmp", Left::Missing),
        ],
    },
    // What an unfinished change left is undone first. Without the undo area the file is shorter.
    Table {
        files: &[("f.tdb", GATE)],
        in_turn: 1,
        lines: &[("tool f.tdb repack", "", Nothing, 0, "ok\n")],
        left: &[("f.tdb", Left::Bytes(ONE)), ("f.tdb.tmp", Left::Missing)],
    },
    Table {
        files: &[("f.tdb", STRAY), ("f.tdb.tmp", UNFINISHED)],
        in_turn: 1,
        lines: &[("tool f.tdb repack", "", Nothing, 3, "corrupt Stray 4068\n")],
        left: &[
            ("f.tdb", Left::Bytes(STRAY)),
            ("f.tdb.tmp", Left::Bytes(UNFINISHED)),
        ],
    },
    // Where the output fails behind all, the file is the new one.
    Table {
        files: &[("f.tdb", GATE)],
        in_turn: 1,
        lines: &[("tool f.tdb repack", "", Output(0), 8, "")],
        left: &[("f.tdb", Left::Bytes(ONE)), ("f.tdb.tmp", Left::Missing)],
    },
    // Whichever call fails, the file stays as it was.
    Table {
        files: &[("f.tdb", ONE)],
        in_turn: 1,
        lines: &[
            ("tool f.tdb repack", "", Files(Call::Take, 0), 4, FAULT),
            ("tool f.tdb repack", "", Files(Call::Take, 1), 4, FAULT),
            ("tool f.tdb repack", "", Files(Call::Remove, 0), 4, FAULT),
            ("tool f.tdb repack", "", Files(Call::Rename, 0), 4, FAULT),
            (
                "tool f.tdb repack",
                "",
                Disk("f.tdb", Call::Len, 0),
                4,
                FAULT,
            ),
            (
                "tool f.tdb repack",
                "",
                Disk("f.tdb", Call::Read, 0),
                4,
                FAULT,
            ),
            (
                "tool f.tdb repack",
                "",
                Disk("f.tdb", Call::Read, 130),
                4,
                FAULT,
            ),
            (
                "tool f.tdb repack",
                "",
                Disk("f.tdb.tmp", Call::Grow, 0),
                4,
                FAULT,
            ),
            (
                "tool f.tdb repack",
                "",
                Disk("f.tdb.tmp", Call::Write, 0),
                4,
                FAULT,
            ),
            (
                "tool f.tdb repack",
                "",
                Disk("f.tdb.tmp", Call::WriteWord, 0),
                4,
                FAULT,
            ),
            (
                "tool f.tdb repack",
                "",
                Disk("f.tdb.tmp", Call::Sync, 1),
                4,
                FAULT,
            ),
        ],
        left: &[("f.tdb", Left::Bytes(ONE))],
    },
    // A new file of other chains, another hash and the other byte order has the same pairs.
    Table {
        files: &[("f.tdb", NUMBERED), ("h.tdb", UNFINISHED)],
        in_turn: 8,
        lines: &[
            ("convert f.tdb g.tdb 7 jenkins big", "", Nothing, 0, "ok\n"),
            ("dump g.tdb", "", Nothing, 0, DUMP),
            (
                "tool g.tdb info",
                "",
                Nothing,
                0,
                "size 4096\nhash jenkins 7 big\nsequence 5\nkeys 1\ndead 0\nfree 1\ndeadbytes 0\narea 0\nkeybytes 1\ndatabytes 1\nlargestfree 3840\n",
            ),
            ("convert --prefix b f.tdb i.tdb", "", Nothing, 0, "ok\n"),
            ("dump i.tdb", "", Nothing, 0, ""),
            ("convert f.tdb h.tdb", "", Nothing, 9, "there h.tdb\n"),
            ("convert j.tdb k.tdb", "", Nothing, 9, "missing j.tdb\n"),
            (
                "convert --limit 4095 f.tdb k.tdb",
                "",
                Nothing,
                6,
                "toolong 4096\n",
            ),
        ],
        left: &[
            ("f.tdb", Left::Bytes(NUMBERED)),
            ("h.tdb", Left::Bytes(UNFINISHED)),
            ("k.tdb", Left::Missing),
        ],
    },
    Table {
        files: &[("f.tdb", ONE), ("n.tdb", NEW)],
        in_turn: 1,
        lines: &[
            ("convert f.tdb f.tdb", "", Nothing, 2, USAGE),
            ("convert f.tdb", "", Nothing, 2, USAGE),
            ("convert f.tdb g.tdb 0", "", Nothing, 2, USAGE),
            ("convert f.tdb g.tdb 7 sha", "", Nothing, 2, USAGE),
            ("convert --prefix \\ f.tdb g.tdb", "", Nothing, 2, USAGE),
            (
                "convert --limit 696 n.tdb g.tdb 132",
                "",
                Nothing,
                6,
                "toolong 700\n",
            ),
            (
                "convert --limit 4096 f.tdb g.tdb 974",
                "",
                Nothing,
                6,
                "full 4068 32\n",
            ),
            ("convert f.tdb g.tdb", "", Output(0), 8, ""),
        ],
        left: &[
            ("f.tdb", Left::Bytes(ONE)),
            ("n.tdb", Left::Bytes(NEW)),
            ("g.tdb", Left::Missing),
        ],
    },
    // Whichever call fails, the file stays as it was.
    Table {
        files: &[("f.tdb", ONE)],
        in_turn: 1,
        lines: &[
            ("convert f.tdb g.tdb", "", Files(Call::Take, 0), 4, FAULT),
            ("convert f.tdb g.tdb", "", Files(Call::Take, 1), 4, FAULT),
            (
                "convert f.tdb g.tdb",
                "",
                Disk("f.tdb", Call::Len, 0),
                4,
                FAULT,
            ),
            (
                "convert f.tdb g.tdb",
                "",
                Disk("f.tdb", Call::Read, 0),
                4,
                FAULT,
            ),
            (
                "convert f.tdb g.tdb",
                "",
                Disk("f.tdb", Call::Read, 130),
                4,
                FAULT,
            ),
            (
                "convert f.tdb g.tdb",
                "",
                Disk("g.tdb", Call::Grow, 0),
                4,
                FAULT,
            ),
            (
                "convert f.tdb g.tdb",
                "",
                Disk("g.tdb", Call::Grow, 1),
                4,
                FAULT,
            ),
            (
                "convert f.tdb g.tdb",
                "",
                Disk("g.tdb", Call::Write, 0),
                4,
                FAULT,
            ),
            (
                "convert f.tdb g.tdb",
                "",
                Disk("g.tdb", Call::WriteWord, 0),
                4,
                FAULT,
            ),
            (
                "convert f.tdb g.tdb",
                "",
                Disk("g.tdb", Call::Sync, 0),
                4,
                FAULT,
            ),
            (
                "convert f.tdb g.tdb",
                "",
                Disk("g.tdb", Call::Sync, 1),
                4,
                FAULT,
            ),
            (
                "convert --limit 4096 f.tdb g.tdb 974",
                "",
                Files(Call::Remove, 0),
                4,
                FAULT,
            ),
        ],
        left: &[("f.tdb", Left::Bytes(ONE))],
    },
    // A file whose gate is open is not undone.
    Table {
        files: &[("f.tdb", GATE)],
        in_turn: 1,
        lines: &[("convert f.tdb g.tdb", "", Nothing, 3, "needs recovery\n")],
        left: &[("f.tdb", Left::Bytes(GATE)), ("g.tdb", Left::Missing)],
    },
];

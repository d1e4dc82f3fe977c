// A key of a file that is moved into another one, over the forms in memory: what both hold then, what is refused, and
// what failing calls leave.

use crate::images::{GATE, NEW, ONE, STRAY};
use crate::runs::Failing::{Disk, Files, Nothing, Output};
use crate::runs::{DUMP, USAGE};
use crate::tables::{Left, Table};
use tdb_disk::Call;

const MOVE: &str = "tool f.tdb move a g.tdb";

const FAULT: &str = "device fault\n";

pub(crate) static TABLES: [Table; 10] = [
    // The other file gets the key, and the first has lost it.
    Table {
        files: &[("f.tdb", ONE), ("g.tdb", NEW)],
        in_turn: 6,
        lines: &[
            (MOVE, "", Nothing, 0, "ok\n"),
            ("dump f.tdb", "", Nothing, 0, ""),
            ("dump g.tdb", "", Nothing, 0, DUMP),
            (MOVE, "", Nothing, 1, "noexist\n"),
            ("tool g.tdb move a f.tdb", "", Nothing, 0, "ok\n"),
            ("tool f.tdb show a", "", Nothing, 0, "data(1) = \"1\"\n"),
        ],
        left: &[],
    },
    // An open gate of either is no bar.
    Table {
        files: &[("f.tdb", GATE), ("g.tdb", GATE)],
        in_turn: 3,
        lines: &[
            (MOVE, "", Nothing, 0, "ok\n"),
            ("tool f.tdb check", "", Nothing, 0, "number 0\n"),
            ("dump g.tdb", "", Nothing, 0, DUMP),
        ],
        left: &[],
    },
    // The value takes the place of the one that the key has there, and all other keys stay.
    Table {
        files: &[("f.tdb", ONE), ("g.tdb", NEW)],
        in_turn: 10,
        lines: &[
            ("tool f.tdb store b 2", "", Nothing, 0, "ok\n"),
            ("tool g.tdb store a 9", "", Nothing, 0, "ok\n"),
            ("tool g.tdb store c 3", "", Nothing, 0, "ok\n"),
            (MOVE, "", Nothing, 0, "ok\n"),
            ("tool f.tdb show a", "", Nothing, 1, "noexist\n"),
            ("tool f.tdb show b", "", Nothing, 0, "data(1) = \"2\"\n"),
            ("tool f.tdb check", "", Nothing, 0, "number 1\n"),
            ("tool g.tdb show a", "", Nothing, 0, "data(1) = \"1\"\n"),
            ("tool g.tdb show c", "", Nothing, 0, "data(1) = \"3\"\n"),
            ("tool g.tdb check", "", Nothing, 0, "number 2\n"),
        ],
        left: &[],
    },
    // A transaction needs room for what it undoes. Without it, or without the key, both files stay.
    Table {
        files: &[("f.tdb", ONE), ("g.tdb", NEW)],
        in_turn: 1,
        lines: &[
            (
                "tool --limit 4096 f.tdb move a g.tdb",
                "",
                Nothing,
                6,
                "full 4096 4096\n",
            ),
            ("tool f.tdb move b g.tdb", "", Nothing, 1, "noexist\n"),
        ],
        left: &[("f.tdb", Left::Bytes(ONE)), ("g.tdb", Left::Bytes(NEW))],
    },
    Table {
        files: &[("f.tdb", ONE), ("g.tdb", ONE), ("s.tdb", STRAY)],
        in_turn: 1,
        lines: &[
            ("tool f.tdb move a f.tdb", "", Nothing, 2, USAGE),
            ("tool f.tdb move a", "", Nothing, 2, USAGE),
            ("tool f.tdb move a g.tdb 1", "", Nothing, 2, USAGE),
            ("tool f.tdb move \\ g.tdb", "", Nothing, 2, USAGE),
            ("tool f.tdb move a h.tdb", "", Nothing, 9, "missing h.tdb\n"),
            ("tool h.tdb move a g.tdb", "", Nothing, 9, "missing h.tdb\n"),
            (
                "tool --limit 4095 f.tdb move a g.tdb",
                "",
                Nothing,
                6,
                "toolong 4096\n",
            ),
            (
                "tool f.tdb move a s.tdb",
                "",
                Nothing,
                3,
                "corrupt Stray 4068\n",
            ),
            (
                "tool s.tdb move a g.tdb",
                "",
                Nothing,
                3,
                "corrupt Stray 4068\n",
            ),
            (
                "tool f.tdb",
                "move a g.tdb\n",
                Nothing,
                7,
                "input malformed at 0\n",
            ),
        ],
        left: &[
            ("f.tdb", Left::Bytes(ONE)),
            ("g.tdb", Left::Bytes(ONE)),
            ("s.tdb", Left::Bytes(STRAY)),
            ("h.tdb", Left::Missing),
        ],
    },
    // Where a call fails before a commit writes, both files stay as they were.
    Table {
        files: &[("f.tdb", ONE), ("g.tdb", NEW)],
        in_turn: 1,
        lines: &[
            (MOVE, "", Files(Call::Take, 0), 4, FAULT),
            (MOVE, "", Files(Call::Take, 1), 4, FAULT),
            (MOVE, "", Disk("f.tdb", Call::Len, 0), 4, FAULT),
            (MOVE, "", Disk("f.tdb", Call::Read, 0), 4, FAULT),
            (MOVE, "", Disk("f.tdb", Call::Sync, 0), 4, FAULT),
            (MOVE, "", Disk("g.tdb", Call::Len, 0), 4, FAULT),
            (MOVE, "", Disk("g.tdb", Call::Read, 0), 4, FAULT),
            (MOVE, "", Disk("g.tdb", Call::Sync, 0), 4, FAULT),
        ],
        left: &[("f.tdb", Left::Bytes(ONE)), ("g.tdb", Left::Bytes(NEW))],
    },
    // Where one fails while the files are prepared, the key is still in the first.
    Table {
        files: &[("f.tdb", ONE), ("g.tdb", NEW)],
        in_turn: 1,
        lines: &[
            (MOVE, "", Disk("g.tdb", Call::Grow, 0), 4, FAULT),
            (MOVE, "", Disk("f.tdb", Call::Grow, 0), 4, FAULT),
            (MOVE, "", Disk("g.tdb", Call::Sync, 1), 4, FAULT),
            (MOVE, "", Disk("f.tdb", Call::Sync, 1), 4, FAULT),
            (MOVE, "", Disk("g.tdb", Call::Sync, 5), 4, FAULT),
            (MOVE, "", Disk("f.tdb", Call::Sync, 5), 4, FAULT),
        ],
        left: &[
            ("f.tdb", Left::Checks("number 1\n")),
            ("g.tdb", Left::Checks("number 0\n")),
        ],
    },
    // So it is where the commit of the other fails, which comes first; and where its own fails the other has the key.
    Table {
        files: &[("f.tdb", ONE), ("g.tdb", NEW)],
        in_turn: 1,
        lines: &[(MOVE, "", Disk("g.tdb", Call::Sync, 6), 4, FAULT)],
        left: &[("f.tdb", Left::Checks("number 1\n"))],
    },
    Table {
        files: &[("f.tdb", ONE), ("g.tdb", NEW)],
        in_turn: 1,
        lines: &[(MOVE, "", Disk("f.tdb", Call::Sync, 6), 4, FAULT)],
        left: &[("g.tdb", Left::Checks("number 1\n"))],
    },
    // Where the output fails behind all, the key is moved.
    Table {
        files: &[("f.tdb", ONE), ("g.tdb", NEW)],
        in_turn: 1,
        lines: &[(MOVE, "", Output(0), 8, "")],
        left: &[
            ("f.tdb", Left::Checks("number 0\n")),
            ("g.tdb", Left::Checks("number 1\n")),
        ],
    },
];

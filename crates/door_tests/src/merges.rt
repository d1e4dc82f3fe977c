// Pairs of a file that are stored into another one, over the forms in memory: what the other file holds then, what is
// refused, and what failing calls leave.

use crate::images::{GATE, NEW, ONE, STRAY};
use crate::runs::Failing::{Disk, Files, Nothing, Output};
use crate::runs::USAGE;
use crate::tables::{Left, Table};
use tdb_disk::Call;

const FAULT: &str = "device fault\n";

pub(crate) static TABLES: [Table; 7] = [
    // A key that both have gets the new value; a key that the prefix leaves out doesn't come.
    Table {
        files: &[("f.tdb", ONE), ("g.tdb", NEW)],
        in_turn: 8,
        lines: &[
            ("tool f.tdb store b 2", "", Nothing, 0, "ok\n"),
            ("tool g.tdb store a 9", "", Nothing, 0, "ok\n"),
            ("tool g.tdb store c 3", "", Nothing, 0, "ok\n"),
            (
                "convert --into --prefix a f.tdb g.tdb",
                "",
                Nothing,
                0,
                "ok\n",
            ),
            ("tool g.tdb show a", "", Nothing, 0, "data(1) = \"1\"\n"),
            ("tool g.tdb show b", "", Nothing, 1, "noexist\n"),
            ("tool g.tdb show c", "", Nothing, 0, "data(1) = \"3\"\n"),
            ("tool g.tdb check", "", Nothing, 0, "number 2\n"),
        ],
        left: &[],
    },
    // Without a prefix all come, into a file without a pair too, and an open gate of that is no bar.
    Table {
        files: &[("f.tdb", ONE), ("g.tdb", NEW), ("h.tdb", GATE)],
        in_turn: 4,
        lines: &[
            ("convert --into f.tdb g.tdb", "", Nothing, 0, "ok\n"),
            ("tool g.tdb show a", "", Nothing, 0, "data(1) = \"1\"\n"),
            ("convert --into f.tdb h.tdb", "", Nothing, 0, "ok\n"),
            ("tool h.tdb check", "", Nothing, 0, "number 1\n"),
        ],
        left: &[("f.tdb", Left::Bytes(ONE))],
    },
    // A transaction needs room for what it undoes, and without it nothing is stored.
    Table {
        files: &[("f.tdb", ONE), ("g.tdb", ONE)],
        in_turn: 2,
        lines: &[
            ("tool f.tdb store a 7", "", Nothing, 0, "ok\n"),
            (
                "convert --limit 4096 --into f.tdb g.tdb",
                "",
                Nothing,
                6,
                "full 4096 4096\n",
            ),
        ],
        left: &[("g.tdb", Left::Bytes(ONE))],
    },
    Table {
        files: &[
            ("f.tdb", ONE),
            ("g.tdb", ONE),
            ("s.tdb", STRAY),
            ("t.tdb", GATE),
        ],
        in_turn: 1,
        lines: &[
            ("convert --into f.tdb f.tdb", "", Nothing, 2, USAGE),
            ("convert --into f.tdb", "", Nothing, 2, USAGE),
            ("convert --into f.tdb g.tdb 7", "", Nothing, 2, USAGE),
            (
                "convert --into f.tdb g.tdb 7 jenkins big",
                "",
                Nothing,
                2,
                USAGE,
            ),
            (
                "convert --into --prefix \\ f.tdb g.tdb",
                "",
                Nothing,
                2,
                USAGE,
            ),
            (
                "convert --into f.tdb h.tdb",
                "",
                Nothing,
                9,
                "missing h.tdb\n",
            ),
            (
                "convert --into h.tdb g.tdb",
                "",
                Nothing,
                9,
                "missing h.tdb\n",
            ),
            (
                "convert --limit 4095 --into f.tdb g.tdb",
                "",
                Nothing,
                6,
                "toolong 4096\n",
            ),
            (
                "convert --into f.tdb s.tdb",
                "",
                Nothing,
                3,
                "corrupt Stray 4068\n",
            ),
            (
                "convert --into s.tdb g.tdb",
                "",
                Nothing,
                3,
                "corrupt Stray 4068\n",
            ),
            (
                "convert --into t.tdb g.tdb",
                "",
                Nothing,
                3,
                "needs recovery\n",
            ),
        ],
        left: &[
            ("f.tdb", Left::Bytes(ONE)),
            ("g.tdb", Left::Bytes(ONE)),
            ("s.tdb", Left::Bytes(STRAY)),
            ("t.tdb", Left::Bytes(GATE)),
            ("h.tdb", Left::Missing),
        ],
    },
    // Where a call fails before the commit writes, the other file stays as it was.
    Table {
        files: &[("f.tdb", ONE), ("g.tdb", NEW)],
        in_turn: 1,
        lines: &[
            (
                "convert --into f.tdb g.tdb",
                "",
                Files(Call::Take, 0),
                4,
                FAULT,
            ),
            (
                "convert --into f.tdb g.tdb",
                "",
                Files(Call::Take, 1),
                4,
                FAULT,
            ),
            (
                "convert --into f.tdb g.tdb",
                "",
                Disk("f.tdb", Call::Len, 0),
                4,
                FAULT,
            ),
            (
                "convert --into f.tdb g.tdb",
                "",
                Disk("f.tdb", Call::Read, 0),
                4,
                FAULT,
            ),
            (
                "convert --into f.tdb g.tdb",
                "",
                Disk("g.tdb", Call::Len, 0),
                4,
                FAULT,
            ),
            (
                "convert --into f.tdb g.tdb",
                "",
                Disk("g.tdb", Call::Read, 0),
                4,
                FAULT,
            ),
        ],
        left: &[("f.tdb", Left::Bytes(ONE)), ("g.tdb", Left::Bytes(NEW))],
    },
    // In the commit it may be left in the midst, which the next opening undoes or finishes.
    Table {
        files: &[("f.tdb", ONE), ("g.tdb", NEW)],
        in_turn: 1,
        lines: &[
            (
                "convert --into f.tdb g.tdb",
                "",
                Disk("g.tdb", Call::Grow, 0),
                4,
                FAULT,
            ),
            (
                "convert --into f.tdb g.tdb",
                "",
                Disk("g.tdb", Call::Sync, 0),
                4,
                FAULT,
            ),
        ],
        left: &[("f.tdb", Left::Bytes(ONE))],
    },
    // Where the output fails behind all, the pairs are stored.
    Table {
        files: &[("f.tdb", ONE), ("g.tdb", NEW)],
        in_turn: 2,
        lines: &[
            ("convert --into f.tdb g.tdb", "", Output(0), 8, ""),
            ("tool g.tdb show a", "", Nothing, 0, "data(1) = \"1\"\n"),
        ],
        left: &[("f.tdb", Left::Bytes(ONE))],
    },
];

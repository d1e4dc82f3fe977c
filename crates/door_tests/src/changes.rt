// Stores, deletes, erases and the words of transactions: what is printed, and what is left of the file.

use crate::images::{Image, NEW, NEW_FILE, ONE};
use crate::runs::Failing::{Disk, Nothing, Output};
use crate::runs::USAGE;
use crate::tables::{Left, Table};
use small_file::RECORD;
use tdb_disk::Call;

/// The file of one record, whose value is `2`.
const STORED: Image = Image {
    words: &[&NEW_FILE, &RECORD, &[(4088, 0x4242_3261)]],
    ..ONE
};

/// What a file without a key has behind its heads, whose record went to the free list: one free record up to the end.
/// Between its header and its tailer nothing was written.
const FREED: Image = Image {
    words: &[&NEW_FILE, &RECORD, &[(200, 0), (700, 3376), (4092, 3400)]],
    ..ONE
};

pub(crate) static TABLES: [Table; 8] = [
    Table {
        files: &[("f.tdb", ONE)],
        in_turn: 1,
        lines: &[
            ("tool f.tdb store a 2", "", Nothing, 0, "ok\n"),
            ("tool f.tdb storehex 61 32", "", Nothing, 0, "ok\n"),
        ],
        left: &[("f.tdb", Left::Bytes(STORED))],
    },
    Table {
        files: &[("f.tdb", NEW)],
        in_turn: 1,
        lines: &[
            ("tool f.tdb store a 1", "", Nothing, 0, "ok\n"),
            ("tool f.tdb storehex 61 31", "", Nothing, 0, "ok\n"),
        ],
        left: &[("f.tdb", Left::Bytes(ONE))],
    },
    // The empty key is filed in chain 31, by its hash.
    Table {
        files: &[("f.tdb", NEW)],
        in_turn: 2,
        lines: &[
            ("tool f.tdb store \"\" x", "", Nothing, 0, "ok\n"),
            ("tool f.tdb show \"\"", "", Nothing, 0, "data(1) = \"x\"\n"),
        ],
        left: &[("f.tdb", Left::Words(&[(296, 4064), (4080, 12345)]))],
    },
    Table {
        files: &[("f.tdb", STORED)],
        in_turn: 1,
        lines: &[("tool f.tdb check", "", Nothing, 0, "number 1\n")],
        left: &[],
    },
    Table {
        files: &[("f.tdb", ONE)],
        in_turn: 1,
        lines: &[
            ("tool f.tdb delete a", "", Nothing, 0, "ok\n"),
            ("tool f.tdb delete \\61", "", Nothing, 0, "ok\n"),
            ("tool f.tdb erase", "", Nothing, 0, "ok\n"),
        ],
        left: &[("f.tdb", Left::Bytes(FREED))],
    },
    Table {
        files: &[("f.tdb", FREED)],
        in_turn: 1,
        lines: &[("tool f.tdb check", "", Nothing, 0, "number 0\n")],
        left: &[],
    },
    Table {
        files: &[("f.tdb", ONE)],
        in_turn: 1,
        lines: &[
            ("tool f.tdb check", "", Nothing, 0, "number 1\n"),
            ("tool f.tdb store a", "", Nothing, 2, USAGE),
            ("tool f.tdb storehex 6 31", "", Nothing, 2, USAGE),
            ("tool f.tdb storehex 61 3g", "", Nothing, 2, USAGE),
            ("tool f.tdb storehex \\61 31", "", Nothing, 2, USAGE),
            ("tool f.tdb storehex 61", "", Nothing, 2, USAGE),
            ("tool f.tdb storehex 61 31 31", "", Nothing, 2, USAGE),
            (
                "tool g.tdb storehex 61 31",
                "",
                Nothing,
                9,
                "missing g.tdb\n",
            ),
            ("tool f.tdb quit", "", Nothing, 0, ""),
            ("tool f.tdb quit", "", Output(0), 0, ""),
            ("tool f.tdb quit a", "", Nothing, 2, USAGE),
            ("tool g.tdb quit", "", Nothing, 9, "missing g.tdb\n"),
            (
                "tool f.tdb quit",
                "",
                Disk("f.tdb", Call::Read, 0),
                4,
                "device fault\n",
            ),
            ("tool f.tdb delete b", "", Nothing, 1, "noexist\n"),
            ("tool f.tdb delete", "", Nothing, 2, USAGE),
            ("tool f.tdb delete a b", "", Nothing, 2, USAGE),
            ("tool g.tdb delete a", "", Nothing, 9, "missing g.tdb\n"),
            ("tool f.tdb erase a", "", Nothing, 2, USAGE),
            ("tool f.tdb transaction_start", "", Nothing, 0, "ok\n"),
            (
                "tool f.tdb transaction_commit",
                "",
                Nothing,
                1,
                "notransaction\n",
            ),
            (
                "tool f.tdb transaction_cancel",
                "",
                Nothing,
                1,
                "notransaction\n",
            ),
            ("tool f.tdb transaction_start a", "", Nothing, 2, USAGE),
            ("tool f.tdb transaction_commit a", "", Nothing, 2, USAGE),
            ("tool f.tdb transaction_cancel a", "", Nothing, 2, USAGE),
            (
                "tool g.tdb transaction_start",
                "",
                Nothing,
                9,
                "missing g.tdb\n",
            ),
        ],
        left: &[("f.tdb", Left::Bytes(ONE))],
    },
    Table {
        files: &[("f.tdb", ONE)],
        in_turn: 1,
        lines: &[
            (
                "tool f.tdb store a 2",
                "",
                Disk("f.tdb", Call::Write, 0),
                4,
                "device fault\n",
            ),
            (
                "tool f.tdb store a 2",
                "",
                Disk("f.tdb", Call::Sync, 0),
                4,
                "device fault\n",
            ),
            (
                "tool f.tdb store b 1",
                "",
                Disk("f.tdb", Call::WriteWord, 0),
                4,
                "device fault\n",
            ),
            (
                "tool f.tdb delete a",
                "",
                Disk("f.tdb", Call::WriteWord, 0),
                4,
                "device fault\n",
            ),
            (
                "tool f.tdb delete a",
                "",
                Disk("f.tdb", Call::WriteWord, 1),
                4,
                "device fault\n",
            ),
            (
                "tool f.tdb delete a",
                "",
                Disk("f.tdb", Call::Sync, 0),
                4,
                "device fault\n",
            ),
            (
                "tool f.tdb erase",
                "",
                Disk("f.tdb", Call::Write, 0),
                4,
                "device fault\n",
            ),
            (
                "tool f.tdb erase",
                "",
                Disk("f.tdb", Call::Sync, 0),
                4,
                "device fault\n",
            ),
        ],
        left: &[("f.tdb", Left::Length(4096))],
    },
];

// What can still be read of damaged files, which stay as they are.

use crate::images::{GATE, Image, NEW_FILE, ONE, STRAY};
use crate::runs::Failing::{Disk, Files, Nothing, Output};
use crate::runs::{DUMP, USAGE};
use crate::tables::{Left, Table};
use small_file::RECORD;
use tdb_disk::Call;

/// The dump of a file of one record, whose key is `a` and whose value is `9`.
const NINE: &str = "{\nkey(1) = \"a\"\ndata(1) = \"9\"\n}\n";

/// The record's tailer says another length.
const BAD_TAILER: Image = Image {
    words: &[&NEW_FILE, &RECORD, &[(4092, 33)]],
    ..ONE
};

/// The header has no version.
const NO_VERSION: Image = Image {
    words: &[&NEW_FILE, &RECORD, &[(32, 0)]],
    ..ONE
};

/// The file ends in its header.
const CUT: Image = Image { len: 164, ..ONE };

/// It ends in the heads of its chains.
const CUT_HEADS: Image = Image { len: 170, ..ONE };

pub(crate) static TABLES: [Table; 7] = [
    Table {
        files: &[("f.tdb", ONE)],
        in_turn: 1,
        lines: &[
            ("dump -e f.tdb", "", Nothing, 0, DUMP),
            ("dump f.tdb -e", "", Nothing, 0, DUMP),
            ("dump -e g.tdb", "", Nothing, 9, "missing g.tdb\n"),
            ("dump -- -e", "", Nothing, 9, "missing -e\n"),
            ("dump -e -k a f.tdb", "", Nothing, 2, USAGE),
            ("dump -k=a -e f.tdb", "", Nothing, 2, USAGE),
            ("dump -e -e f.tdb", "", Nothing, 2, USAGE),
            ("dump -e=1 f.tdb", "", Nothing, 2, USAGE),
            ("dump -ek a f.tdb", "", Nothing, 2, USAGE),
            ("dump -e", "", Nothing, 2, USAGE),
            ("dump -e f.tdb f.tdb", "", Nothing, 2, USAGE),
            (
                "dump -e f.tdb",
                "",
                Files(Call::Take, 0),
                4,
                "device fault\n",
            ),
            (
                "dump -e f.tdb",
                "",
                Disk("f.tdb", Call::Read, 0),
                4,
                "device fault\n",
            ),
            (
                "dump -e f.tdb",
                "",
                Disk("f.tdb", Call::Read, 1),
                4,
                "device fault\n",
            ),
            ("dump -e f.tdb", "", Output(0), 8, ""),
        ],
        left: &[("f.tdb", Left::Bytes(ONE))],
    },
    // A record that stands in no list.
    Table {
        files: &[("f.tdb", STRAY)],
        in_turn: 1,
        lines: &[
            ("dump -e f.tdb", "", Nothing, 0, DUMP),
            ("dump f.tdb", "", Nothing, 3, "corrupt Stray 4068\n"),
        ],
        left: &[("f.tdb", Left::Bytes(STRAY))],
    },
    // The gate isn't looked at.
    Table {
        files: &[("f.tdb", GATE)],
        in_turn: 1,
        lines: &[("dump -e f.tdb", "", Nothing, 0, NINE)],
        left: &[("f.tdb", Left::Bytes(GATE))],
    },
    Table {
        files: &[("f.tdb", BAD_TAILER)],
        in_turn: 1,
        lines: &[("dump -e f.tdb", "", Nothing, 0, "")],
        left: &[("f.tdb", Left::Bytes(BAD_TAILER))],
    },
    Table {
        files: &[("f.tdb", NO_VERSION)],
        in_turn: 1,
        lines: &[("dump -e f.tdb", "", Nothing, 3, "header Version\n")],
        left: &[("f.tdb", Left::Bytes(NO_VERSION))],
    },
    Table {
        files: &[("f.tdb", CUT)],
        in_turn: 1,
        lines: &[("dump -e f.tdb", "", Nothing, 3, "corrupt Short 164\n")],
        left: &[("f.tdb", Left::Bytes(CUT))],
    },
    Table {
        files: &[("f.tdb", CUT_HEADS)],
        in_turn: 1,
        lines: &[
            ("dump -e f.tdb", "", Nothing, 0, ""),
            ("dump f.tdb", "", Nothing, 3, "corrupt Short 170\n"),
        ],
        left: &[("f.tdb", Left::Bytes(CUT_HEADS))],
    },
];

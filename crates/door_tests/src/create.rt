// New files over the forms in memory, and the command lines that ask for them.

use crate::images::{Image, NEW, NEW_FILE, NEW_JENKINS_FILE, ONE_BIG_CHAIN};
use crate::runs::Failing::{Files, Nothing};
use crate::runs::USAGE;
use crate::tables::{Left, Table};
use tdb_disk::Call;

/// A new file of one chain.
const ONE_CHAIN: Image = Image {
    words: &[&NEW_FILE, &[(36, 1)]],
    len: 176,
    ..NEW
};

/// A new file of the most chains, with the other byte order and Jenkins' hash.
const MOST_CHAINS: Image = Image {
    words: &[&NEW_JENKINS_FILE, &[(36, 1_048_576)]],
    len: 172 + 4 * 1_048_576,
    ..ONE_BIG_CHAIN
};

pub(crate) static TABLES: [Table; 7] = [
    Table {
        files: &[],
        in_turn: 1,
        lines: &[
            ("tool f.tdb create", "", Nothing, 0, "ok\n"),
            ("tool f.tdb create 0000000131", "", Nothing, 0, "ok\n"),
            (
                "tool f.tdb create 131 default little",
                "",
                Nothing,
                0,
                "ok\n",
            ),
        ],
        left: &[("f.tdb", Left::Bytes(NEW))],
    },
    Table {
        files: &[],
        in_turn: 1,
        lines: &[("tool f.tdb create 1", "", Nothing, 0, "ok\n")],
        left: &[("f.tdb", Left::Bytes(ONE_CHAIN))],
    },
    Table {
        files: &[],
        in_turn: 1,
        lines: &[("tool f.tdb create 1 jenkins big", "", Nothing, 0, "ok\n")],
        left: &[("f.tdb", Left::Bytes(ONE_BIG_CHAIN))],
    },
    Table {
        files: &[],
        in_turn: 1,
        lines: &[(
            "tool f.tdb create 1048576 jenkins big",
            "",
            Nothing,
            0,
            "ok\n",
        )],
        left: &[("f.tdb", Left::Bytes(MOST_CHAINS))],
    },
    Table {
        files: &[],
        in_turn: 1,
        lines: &[
            ("tool f.tdb create 0", "", Nothing, 2, USAGE),
            ("tool f.tdb create 1048577", "", Nothing, 2, USAGE),
            ("tool f.tdb create 00000000131", "", Nothing, 2, USAGE),
            ("tool f.tdb create 1x", "", Nothing, 2, USAGE),
            ("tool f.tdb create +1", "", Nothing, 2, USAGE),
            ("tool f.tdb create 131 md5", "", Nothing, 2, USAGE),
            (
                "tool f.tdb create 131 jenkins middle",
                "",
                Nothing,
                2,
                USAGE,
            ),
            ("tool f.tdb create 131 jenkins big 1", "", Nothing, 2, USAGE),
            ("tool -f.tdb create", "", Nothing, 2, USAGE),
        ],
        left: &[("f.tdb", Left::Missing)],
    },
    Table {
        files: &[("f.tdb", NEW)],
        in_turn: 1,
        lines: &[("tool f.tdb create 7", "", Nothing, 9, "there f.tdb\n")],
        left: &[("f.tdb", Left::Bytes(NEW))],
    },
    Table {
        files: &[],
        in_turn: 1,
        lines: &[(
            "tool f.tdb create",
            "",
            Files(Call::Take, 0),
            4,
            "device fault\n",
        )],
        left: &[("f.tdb", Left::Missing)],
    },
];

// The commands that print the pairs of a file, its keys or its first pair.

use crate::images::{ONE, STRAY};
use crate::runs::Failing::{Disk, Nothing, Output};
use crate::runs::{DUMP, USAGE};
use crate::tables::{Left, Table};
use tdb_disk::Call;

/// Three pairs in the order of their chains, which are 7, 31 and 70.
const THREE: &str =
    "{\nkey(1) = \"a\"\ndata(1) = \"1\"\n}\n{\nkey(0) = \"\"\ndata(1) = \"\\AB\"\n}\n{\nkey(1) = \"b\"\ndata(1) = \"2\"\n}\n";

pub(crate) static TABLES: [Table; 6] = [
    // A record as services keep them: its key ends in a zero byte.
    Table {
        files: &[],
        in_turn: 10,
        lines: &[
            ("tool s.tdb create", "", Nothing, 0, "ok\n"),
            ("tool s.tdb keys", "", Nothing, 0, ""),
            (
                "tool s.tdb store INFO/version\\00 \\02\\00\\00\\00",
                "",
                Nothing,
                0,
                "ok\n",
            ),
            (
                "tool s.tdb keys",
                "",
                Nothing,
                0,
                "key(13) = \"INFO/version\\00\"\n",
            ),
            (
                "tool s.tdb hexkeys",
                "",
                Nothing,
                0,
                "key(13) = 494E464F2F76657273696F6E00\n",
            ),
            (
                "tool s.tdb first",
                "",
                Nothing,
                0,
                "key(13) = \"INFO/version\\00\" data(4) = \"\\02\\00\\00\\00\"\n",
            ),
            ("tool s.tdb next", "", Nothing, 0, "end\n"),
            ("tool s.tdb erase", "", Nothing, 0, "ok\n"),
            ("tool s.tdb first", "", Nothing, 0, "end\n"),
            ("tool s.tdb hexkeys", "", Nothing, 0, ""),
        ],
        left: &[],
    },
    Table {
        files: &[],
        in_turn: 11,
        lines: &[
            ("tool f.tdb create", "", Nothing, 0, "ok\n"),
            ("tool f.tdb insert b 2", "", Nothing, 0, "ok\n"),
            (
                "tool f.tdb first",
                "",
                Nothing,
                0,
                "key(1) = \"b\" data(1) = \"2\"\n",
            ),
            ("tool f.tdb insert \"\" \\AB", "", Nothing, 0, "ok\n"),
            ("tool f.tdb insert a 1", "", Nothing, 0, "ok\n"),
            (
                "tool f.tdb first",
                "",
                Nothing,
                0,
                "key(1) = \"a\" data(1) = \"1\"\n",
            ),
            ("tool f.tdb next", "", Nothing, 0, "end\n"),
            (
                "tool f.tdb keys",
                "",
                Nothing,
                0,
                "key(1) = \"a\"\nkey(0) = \"\"\nkey(1) = \"b\"\n",
            ),
            (
                "tool f.tdb hexkeys",
                "",
                Nothing,
                0,
                "key(1) = 61\nkey(0) = \nkey(1) = 62\n",
            ),
            ("tool f.tdb dump", "", Nothing, 0, THREE),
            ("dump f.tdb", "", Nothing, 0, THREE),
        ],
        left: &[],
    },
    Table {
        files: &[("f.tdb", ONE)],
        in_turn: 1,
        lines: &[
            ("tool f.tdb dump", "", Nothing, 0, DUMP),
            ("tool f.tdb dump a", "", Nothing, 2, USAGE),
            ("tool f.tdb keys a", "", Nothing, 2, USAGE),
            ("tool f.tdb hexkeys a", "", Nothing, 2, USAGE),
            ("tool f.tdb first a", "", Nothing, 2, USAGE),
            ("tool f.tdb next a", "", Nothing, 2, USAGE),
            ("tool g.tdb keys", "", Nothing, 9, "missing g.tdb\n"),
            ("tool g.tdb next", "", Nothing, 9, "missing g.tdb\n"),
            (
                "tool f.tdb keys",
                "",
                Disk("f.tdb", Call::Read, 0),
                4,
                "device fault\n",
            ),
            (
                "tool f.tdb hexkeys",
                "",
                Disk("f.tdb", Call::Read, 4),
                4,
                "device fault\n",
            ),
            (
                "tool f.tdb first",
                "",
                Disk("f.tdb", Call::Read, 4),
                4,
                "device fault\n",
            ),
        ],
        left: &[("f.tdb", Left::Bytes(ONE))],
    },
    // Words of pairs of digits of either case, and empty ones.
    Table {
        files: &[],
        in_turn: 7,
        lines: &[
            ("tool f.tdb create", "", Nothing, 0, "ok\n"),
            ("tool f.tdb storehex aB FfFF00", "", Nothing, 0, "ok\n"),
            (
                "tool f.tdb show \\AB",
                "",
                Nothing,
                0,
                "data(3) = \"\\FF\\FF\\00\"\n",
            ),
            ("tool f.tdb storehex AB \"\"", "", Nothing, 0, "ok\n"),
            ("tool f.tdb show \\ab", "", Nothing, 0, "data(0) = \"\"\n"),
            ("tool f.tdb storehex  31", "", Nothing, 0, "ok\n"),
            ("tool f.tdb show \"\"", "", Nothing, 0, "data(1) = \"1\"\n"),
        ],
        left: &[("f.tdb", Left::Checks("number 2\n"))],
    },
    Table {
        files: &[("f.tdb", STRAY)],
        in_turn: 1,
        lines: &[
            ("tool f.tdb keys", "", Nothing, 3, "corrupt Stray 4068\n"),
            ("tool f.tdb first", "", Nothing, 3, "corrupt Stray 4068\n"),
            ("tool f.tdb quit", "", Nothing, 3, "corrupt Stray 4068\n"),
        ],
        left: &[("f.tdb", Left::Bytes(STRAY))],
    },
    Table {
        files: &[("f.tdb", ONE)],
        in_turn: 1,
        lines: &[
            ("tool f.tdb dump", "", Output(0), 8, ""),
            ("tool f.tdb keys", "", Output(0), 8, ""),
            ("tool f.tdb hexkeys", "", Output(0), 8, ""),
            ("tool f.tdb first", "", Output(0), 8, ""),
            ("tool f.tdb next", "", Output(0), 8, ""),
        ],
        left: &[("f.tdb", Left::Bytes(ONE))],
    },
];

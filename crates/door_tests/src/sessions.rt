// Sessions: what is printed, and what is left of the file.

use crate::images::{NEW, ONE};
use crate::runs::Failing::{Disk, Input, Nothing, Output};
use crate::runs::USAGE;
use crate::tables::{Left, Table};
use tdb_disk::Call;

/// A store and a look, and then a line that is no command.
const STORED: &str = "store a 1\nshow a\nfrob\n";

const STORED_TOLD: &str = "ok\ndata(1) = \"1\"\ninput malformed at 17\n";

/// Each command once.
const ALL: &str =
    " insert\tb \\0A\ninsert b 2\nshow b\n\nstorehex 62 00fF\nshow b\ncheck\ndelete b\ndelete b\nerase\ncheck\nquit\nfrob";

const ALL_TOLD: &str =
    "ok\nexists\ndata(1) = \"\\0A\"\nok\ndata(2) = \"\\00\\FF\"\nnumber 2\nok\nnoexist\nok\nnumber 0\n";

/// Each command that moves a cursor or prints.
const WALK: &str = "first\nnext\ndump\nkeys\nhexkeys\nnext\n";

const WALK_TOLD: &str =
    "key(1) = \"a\" data(1) = \"1\"\nend\n{\nkey(1) = \"a\"\ndata(1) = \"1\"\n}\nkey(1) = \"a\"\nkey(1) = 61\nend\n";

pub(crate) static TABLES: [Table; 4] = [
    Table {
        files: &[("f.tdb", ONE)],
        in_turn: 1,
        lines: &[
            ("tool f.tdb", "", Nothing, 0, ""),
            ("tool f.tdb", ALL, Nothing, 0, ALL_TOLD),
            ("tool -- f.tdb", "show a", Nothing, 0, "data(1) = \"1\"\n"),
            ("tool f.tdb", "frob", Nothing, 7, "input malformed at 0\n"),
            (
                "tool f.tdb",
                "\nshow a\nshow \\6\n",
                Nothing,
                7,
                "data(1) = \"1\"\ninput malformed at 8\n",
            ),
            (
                "tool --limit 4096 f.tdb",
                "delete a\nshow a\n",
                Nothing,
                0,
                "ok\nnoexist\n",
            ),
            ("tool f.tdb", WALK, Nothing, 0, WALK_TOLD),
            ("tool --limit=4095 f.tdb", "", Nothing, 6, "toolong 4096\n"),
            ("tool g.tdb", "frob", Nothing, 9, "missing g.tdb\n"),
            (
                "tool f.tdb",
                "show a\nstore a 2\nshow a\n",
                Disk("f.tdb", Call::Write, 0),
                4,
                "data(1) = \"1\"\ndevice fault\n",
            ),
            ("tool --limit 695 f.tdb", "", Nothing, 2, USAGE),
            ("tool --limit f.tdb", "", Nothing, 2, USAGE),
            ("tool --read-only f.tdb", "", Nothing, 2, USAGE),
            ("tool f.tdb g.tdb", "", Nothing, 2, USAGE),
            ("tool", "", Nothing, 2, USAGE),
        ],
        left: &[],
    },
    Table {
        files: &[("f.tdb", NEW)],
        in_turn: 1,
        lines: &[("tool f.tdb", STORED, Nothing, 7, STORED_TOLD)],
        left: &[("f.tdb", Left::Bytes(ONE))],
    },
    Table {
        files: &[("f.tdb", NEW)],
        in_turn: 1,
        lines: &[
            (
                "tool --limit 727 f.tdb",
                "store a 1\ncheck",
                Nothing,
                0,
                "full 696 32\nnumber 0\n",
            ),
            ("tool f.tdb", "quit\nstore a 1\n", Nothing, 0, ""),
            ("tool f.tdb", "store a 1\n", Input(0), 8, "input fault\n"),
        ],
        left: &[("f.tdb", Left::Bytes(NEW))],
    },
    // What was done before a read or a write that fails stands, and nothing is done after it.
    Table {
        files: &[("f.tdb", NEW)],
        in_turn: 1,
        lines: &[
            (
                "tool f.tdb",
                "store a 1\nsho",
                Input(1),
                8,
                "ok\ninput fault\n",
            ),
            (
                "tool f.tdb",
                "store a 1\nshow a\nstore a 2\n",
                Output(1),
                8,
                "ok\n",
            ),
            (
                "tool f.tdb",
                "store a 1\nshow a\nstore a 2\n",
                Output(0),
                8,
                "",
            ),
            (
                "tool f.tdb",
                "store a 1\ndump\nstore a 2\n",
                Output(1),
                8,
                "ok\n",
            ),
        ],
        left: &[("f.tdb", Left::Bytes(ONE))],
    },
];

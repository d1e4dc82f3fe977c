// How long a file may be by `--limit`, for one command of `tool`.

use crate::images::{NEW, ONE};
use crate::runs::Failing::Nothing;
use crate::runs::USAGE;
use crate::tables::{Left, Table};

pub(crate) static TABLES: [Table; 4] = [
    Table {
        files: &[("f.tdb", ONE)],
        in_turn: 1,
        lines: &[(
            "tool f.tdb --limit 4096 show a",
            "",
            Nothing,
            0,
            "data(1) = \"1\"\n",
        )],
        left: &[],
    },
    Table {
        files: &[("f.tdb", ONE)],
        in_turn: 1,
        lines: &[
            (
                "tool --limit=4095 f.tdb show a",
                "",
                Nothing,
                6,
                "toolong 4096\n",
            ),
            (
                "tool --limit 4095 f.tdb erase",
                "",
                Nothing,
                6,
                "toolong 4096\n",
            ),
            (
                "tool --limit 4095 f.tdb quit",
                "",
                Nothing,
                6,
                "toolong 4096\n",
            ),
            (
                "tool --limit 4095 f.tdb first",
                "",
                Nothing,
                6,
                "toolong 4096\n",
            ),
            (
                "tool --limit 4095 f.tdb dump",
                "",
                Nothing,
                6,
                "toolong 4096\n",
            ),
            (
                "tool f.tdb keys --limit 4095",
                "",
                Nothing,
                6,
                "toolong 4096\n",
            ),
            (
                "tool f.tdb --limit=4095 hexkeys",
                "",
                Nothing,
                6,
                "toolong 4096\n",
            ),
        ],
        left: &[("f.tdb", Left::Bytes(ONE))],
    },
    Table {
        files: &[("f.tdb", NEW)],
        in_turn: 1,
        lines: &[
            (
                "tool f.tdb store a 1 --limit 727",
                "",
                Nothing,
                6,
                "full 696 32\n",
            ),
            (
                "tool f.tdb storehex 61 31 --limit 727",
                "",
                Nothing,
                6,
                "full 696 32\n",
            ),
            (
                "tool --limit 727 f.tdb insert a 1",
                "",
                Nothing,
                6,
                "full 696 32\n",
            ),
            ("tool --limit 695 f.tdb show a", "", Nothing, 2, USAGE),
            (
                "tool --limit 1003 g.tdb create 208",
                "",
                Nothing,
                6,
                "toolong 1004\n",
            ),
            (
                "tool --limit 1003 f.tdb create 208",
                "",
                Nothing,
                9,
                "there f.tdb\n",
            ),
        ],
        left: &[("f.tdb", Left::Bytes(NEW))],
    },
    Table {
        files: &[("f.tdb", NEW)],
        in_turn: 1,
        lines: &[
            ("tool --limit 728 f.tdb insert a 1", "", Nothing, 0, "ok\n"),
            ("tool --limit 1004 g.tdb create 208", "", Nothing, 0, "ok\n"),
        ],
        left: &[],
    },
];

// Which words of a command line are options, their values and positions.

use crate::images::ONE;
use crate::runs::Failing::Nothing;
use crate::runs::{DUMP, USAGE};
use crate::tables::{Left, Table};

pub(crate) static TABLES: [Table; 2] = [
    // Lines whose options have a reading, over a file of one record.
    Table {
        files: &[("f.tdb", ONE)],
        in_turn: 1,
        lines: &[
            ("tool f.tdb -- show -x", "", Nothing, 1, "noexist\n"),
            ("tool f.tdb show -- -x", "", Nothing, 1, "noexist\n"),
            ("tool -- f.tdb show a", "", Nothing, 0, "data(1) = \"1\"\n"),
            ("tool f.tdb show -", "", Nothing, 1, "noexist\n"),
            ("tool f.tdb --limit 4095", "", Nothing, 6, "toolong 4096\n"),
            ("dump f.tdb --", "", Nothing, 0, DUMP),
            ("dump f.tdb -k a", "", Nothing, 0, "1\n"),
            ("dump -k=a -- f.tdb", "", Nothing, 0, "1\n"),
            ("dump -k a=b f.tdb", "", Nothing, 1, "noexist\n"),
            ("dump -k=a=b f.tdb", "", Nothing, 1, "noexist\n"),
            ("dump -k - f.tdb", "", Nothing, 1, "noexist\n"),
            ("dump -- --", "", Nothing, 9, "missing --\n"),
            ("dump -", "", Nothing, 9, "missing -\n"),
            ("backup f.tdb -s .a", "", Nothing, 0, ""),
            ("turns f.tdb --limit 1000", "", Nothing, 6, "toolong 4096\n"),
        ],
        left: &[],
    },
    // Lines with a word that has no reading.
    Table {
        files: &[("f.tdb", ONE)],
        in_turn: 1,
        lines: &[
            // An option that comes twice.
            (
                "tool --limit 4096 f.tdb --limit=4096",
                "",
                Nothing,
                2,
                USAGE,
            ),
            (
                "restore --limit 4096 --limit 4096 g.tdb",
                "",
                Nothing,
                2,
                USAGE,
            ),
            ("backup -s .a -s=.b f.tdb", "", Nothing, 2, USAGE),
            ("turns --read-only --read-only f.tdb", "", Nothing, 2, USAGE),
            // Nothing behind `=`.
            ("tool --limit= f.tdb", "", Nothing, 2, USAGE),
            ("dump -k= f.tdb", "", Nothing, 2, USAGE),
            ("backup -s= f.tdb", "", Nothing, 2, USAGE),
            // Two short options in one word, and a value behind a letter.
            ("backup -vs .a f.tdb", "", Nothing, 2, USAGE),
            ("backup -s.a f.tdb", "", Nothing, 2, USAGE),
            ("dump -ka f.tdb", "", Nothing, 2, USAGE),
            // An option that takes a value without one.
            ("dump f.tdb -k", "", Nothing, 2, USAGE),
            ("dump -k -k f.tdb", "", Nothing, 2, USAGE),
            ("dump -k -- f.tdb", "", Nothing, 2, USAGE),
            ("backup -s -a f.tdb", "", Nothing, 2, USAGE),
            ("tool f.tdb --limit", "", Nothing, 2, USAGE),
            // A value for an option that takes none.
            ("turns --no-nesting=1 f.tdb", "", Nothing, 2, USAGE),
            // No option of the command.
            ("dump --limit 4096 f.tdb", "", Nothing, 2, USAGE),
            ("dump --=a f.tdb", "", Nothing, 2, USAGE),
            ("tool --limi 4096 f.tdb", "", Nothing, 2, USAGE),
            ("tool f.tdb store a -1", "", Nothing, 2, USAGE),
            ("tool f.tdb show -x", "", Nothing, 2, USAGE),
            ("gen -1 2 g.tdb", "", Nothing, 2, USAGE),
            // Too many positions, and too few.
            ("dump f.tdb f.tdb", "", Nothing, 2, USAGE),
            ("turns -- f.tdb --limit 4096", "", Nothing, 2, USAGE),
            ("dump -k a", "", Nothing, 2, USAGE),
        ],
        left: &[("f.tdb", Left::Bytes(ONE))],
    },
];

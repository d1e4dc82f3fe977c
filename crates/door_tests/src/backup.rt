// Backups over the forms in memory: the bytes of a copy, what failing calls leave, and the words that ask for one.

use crate::images::{Image, ONE};
use crate::runs::Failing::{Disk, Files, Nothing};
use crate::runs::USAGE;
use crate::tables::{Left, Table};
use tdb_disk::Call;

/// A file that another run left.
const UNFINISHED: Image = Image {
    front: "of another run",
    words: &[],
    len: 14,
    ..ONE
};

/// An older copy.
const OLDER: Image = Image {
    front: "an older one",
    words: &[],
    len: 12,
    ..ONE
};

const FAULT: &str = "device fault\n";

pub(crate) static TABLES: [Table; 4] = [
    Table {
        files: &[
            ("f.tdb", ONE),
            ("g.tdb", ONE),
            ("f.tdb.bak.tmp", UNFINISHED),
        ],
        in_turn: 6,
        lines: &[
            ("backup f.tdb", "", Nothing, 0, ""),
            ("backup -- f.tdb.bak", "", Nothing, 0, ""),
            ("backup -s .old f.tdb g.tdb", "", Nothing, 0, ""),
            ("backup f.tdb -s=.new -- g.tdb", "", Nothing, 0, ""),
            ("backup h.tdb", "", Nothing, 9, "missing h.tdb\n"),
            ("backup -s -- f.tdb", "", Nothing, 2, USAGE),
        ],
        left: &[
            ("f.tdb", Left::Bytes(ONE)),
            ("g.tdb", Left::Bytes(ONE)),
            ("f.tdb.bak", Left::Bytes(ONE)),
            ("f.tdb.bak.bak", Left::Bytes(ONE)),
            ("f.tdb.old", Left::Bytes(ONE)),
            ("g.tdb.old", Left::Bytes(ONE)),
            ("f.tdb.new", Left::Bytes(ONE)),
            ("g.tdb.new", Left::Bytes(ONE)),
            ("f.tdb.bak.tmp", Left::Missing),
            ("g.tdb.bak", Left::Missing),
            ("h.tdb.bak", Left::Missing),
            ("h.tdb.bak.tmp", Left::Missing),
        ],
    },
    // The files are copied in their order, up to the first that can't be.
    Table {
        files: &[("f.tdb", ONE), ("g.tdb", ONE)],
        in_turn: 1,
        lines: &[(
            "backup f.tdb h.tdb g.tdb",
            "",
            Nothing,
            9,
            "missing h.tdb\n",
        )],
        left: &[
            ("f.tdb.bak", Left::Bytes(ONE)),
            ("g.tdb.bak", Left::Missing),
        ],
    },
    Table {
        files: &[("f.tdb", ONE)],
        in_turn: 1,
        lines: &[
            ("backup", "", Nothing, 2, USAGE),
            ("backup -x f.tdb", "", Nothing, 2, USAGE),
            ("backup f.tdb f.tdb", "", Nothing, 2, USAGE),
            ("backup f.tdb f.tdb.bak", "", Nothing, 2, USAGE),
            ("backup f.tdb.bak.tmp f.tdb", "", Nothing, 2, USAGE),
            ("backup -s f.tdb", "", Nothing, 2, USAGE),
            ("backup f.tdb -s", "", Nothing, 2, USAGE),
            ("backup -s= f.tdb", "", Nothing, 2, USAGE),
            ("backup -s -x f.tdb", "", Nothing, 2, USAGE),
            ("backup -s .a -s=.b f.tdb", "", Nothing, 2, USAGE),
        ],
        left: &[("f.tdb.bak", Left::Missing)],
    },
    // Whichever call fails, the file and its old copy stay as they were.
    Table {
        files: &[("f.tdb", ONE), ("f.tdb.bak", OLDER)],
        in_turn: 1,
        lines: &[
            ("backup f.tdb", "", Files(Call::Take, 0), 4, FAULT),
            ("backup f.tdb", "", Files(Call::Take, 1), 4, FAULT),
            ("backup f.tdb", "", Files(Call::Remove, 0), 4, FAULT),
            ("backup f.tdb", "", Files(Call::Rename, 0), 4, FAULT),
            ("backup f.tdb", "", Disk("f.tdb", Call::Len, 0), 4, FAULT),
            ("backup f.tdb", "", Disk("f.tdb", Call::Read, 0), 4, FAULT),
            ("backup f.tdb", "", Disk("f.tdb", Call::Read, 130), 4, FAULT),
            (
                "backup f.tdb",
                "",
                Disk("f.tdb.bak.tmp", Call::Grow, 0),
                4,
                FAULT,
            ),
            (
                "backup f.tdb",
                "",
                Disk("f.tdb.bak.tmp", Call::Grow, 1),
                4,
                FAULT,
            ),
            (
                "backup f.tdb",
                "",
                Disk("f.tdb.bak.tmp", Call::Write, 0),
                4,
                FAULT,
            ),
            (
                "backup f.tdb",
                "",
                Disk("f.tdb.bak.tmp", Call::Sync, 0),
                4,
                FAULT,
            ),
            (
                "backup f.tdb",
                "",
                Disk("f.tdb.bak.tmp", Call::Sync, 1),
                4,
                FAULT,
            ),
        ],
        left: &[
            ("f.tdb", Left::Bytes(ONE)),
            ("f.tdb.bak", Left::Bytes(OLDER)),
        ],
    },
];

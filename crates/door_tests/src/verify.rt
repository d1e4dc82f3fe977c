// Verifications over the forms in memory: what is printed, what is restored, and what failing calls leave.

use crate::images::{Image, NEW_FILE, ONE, STRAY};
use crate::runs::Failing::{Disk, Files, Nothing, Output};
use crate::runs::USAGE;
use crate::tables::{Left, Table};
use small_file::RECORD;
use tdb_disk::Call;

const COUNTED: &str = "f.tdb : 1 records\n";

const RESTORED: &str = "restoring f.tdb\nf.tdb : 1 records\n";

/// What is printed where a call fails before the file is restored, and where one fails in that.
const FAULT: &str = "device fault\n";

const RESTORE_FAULT: &str = "restoring f.tdb\ndevice fault\n";

/// The file of one record with another version in its header.
const OTHER_VERSION: Image = Image {
    words: &[&NEW_FILE, &RECORD, &[(32, 0)]],
    ..ONE
};

/// The front of its header.
const SHORT: Image = Image { len: 100, ..ONE };

pub(crate) static TABLES: [Table; 13] = [
    // A backup and a verification behind it.
    Table {
        files: &[("f.tdb", ONE)],
        in_turn: 2,
        lines: &[
            ("backup f.tdb", "", Nothing, 0, ""),
            ("backup -v f.tdb", "", Nothing, 0, COUNTED),
        ],
        left: &[
            ("f.tdb", Left::Bytes(ONE)),
            ("f.tdb.bak", Left::Bytes(ONE)),
            ("f.tdb.tmp", Left::Missing),
        ],
    },
    Table {
        files: &[("f.tdb", ONE)],
        in_turn: 1,
        lines: &[("backup -v f.tdb", "", Nothing, 0, COUNTED)],
        left: &[
            ("f.tdb", Left::Bytes(ONE)),
            ("f.tdb.bak", Left::Missing),
            ("f.tdb.tmp", Left::Missing),
        ],
    },
    // The file is restored from the copy.
    Table {
        files: &[("f.tdb", STRAY), ("f.tdb.bak", ONE)],
        in_turn: 1,
        lines: &[("backup -v f.tdb", "", Nothing, 0, RESTORED)],
        left: &[
            ("f.tdb", Left::Bytes(ONE)),
            ("f.tdb.bak", Left::Bytes(ONE)),
            ("f.tdb.tmp", Left::Missing),
        ],
    },
    Table {
        files: &[("f.tdb", OTHER_VERSION), ("f.tdb.bak", ONE)],
        in_turn: 1,
        lines: &[("backup -v f.tdb", "", Nothing, 0, RESTORED)],
        left: &[
            ("f.tdb", Left::Bytes(ONE)),
            ("f.tdb.bak", Left::Bytes(ONE)),
            ("f.tdb.tmp", Left::Missing),
        ],
    },
    Table {
        files: &[("f.tdb", SHORT), ("f.tdb.bak", ONE)],
        in_turn: 1,
        lines: &[("backup -v f.tdb", "", Nothing, 0, RESTORED)],
        left: &[
            ("f.tdb", Left::Bytes(ONE)),
            ("f.tdb.bak", Left::Bytes(ONE)),
            ("f.tdb.tmp", Left::Missing),
        ],
    },
    Table {
        files: &[("f.tdb", STRAY)],
        in_turn: 1,
        lines: &[(
            "backup -v f.tdb",
            "",
            Nothing,
            9,
            "restoring f.tdb\nmissing f.tdb.bak\n",
        )],
        left: &[
            ("f.tdb", Left::Bytes(STRAY)),
            ("f.tdb.bak", Left::Missing),
            ("f.tdb.tmp", Left::Missing),
        ],
    },
    Table {
        files: &[("f.tdb", STRAY), ("f.tdb.bak", OTHER_VERSION)],
        in_turn: 1,
        lines: &[(
            "backup -v f.tdb",
            "",
            Nothing,
            3,
            "restoring f.tdb\nheader Version\n",
        )],
        left: &[
            ("f.tdb", Left::Bytes(STRAY)),
            ("f.tdb.bak", Left::Bytes(OTHER_VERSION)),
            ("f.tdb.tmp", Left::Missing),
        ],
    },
    Table {
        files: &[("f.tdb.bak", ONE)],
        in_turn: 1,
        lines: &[("backup -v f.tdb", "", Nothing, 9, "missing f.tdb\n")],
        left: &[
            ("f.tdb", Left::Missing),
            ("f.tdb.bak", Left::Bytes(ONE)),
            ("f.tdb.tmp", Left::Missing),
        ],
    },
    // The files are verified in their order, up to the first that can't be; each has its own copy.
    Table {
        files: &[("f.tdb", STRAY), ("f.tdb.bak", ONE), ("g.tdb", ONE)],
        in_turn: 1,
        lines: &[
            (
                "backup -v f.tdb g.tdb",
                "",
                Nothing,
                0,
                "restoring f.tdb\nf.tdb : 1 records\ng.tdb : 1 records\n",
            ),
            (
                "backup g.tdb -v -- f.tdb",
                "",
                Nothing,
                0,
                "g.tdb : 1 records\nrestoring f.tdb\nf.tdb : 1 records\n",
            ),
            (
                "backup -s .bak -v f.tdb h.tdb g.tdb",
                "",
                Nothing,
                9,
                "restoring f.tdb\nf.tdb : 1 records\nmissing h.tdb\n",
            ),
            (
                "backup -v -s=.old g.tdb f.tdb",
                "",
                Nothing,
                9,
                "g.tdb : 1 records\nrestoring f.tdb\nmissing f.tdb.old\n",
            ),
        ],
        left: &[("g.tdb", Left::Bytes(ONE))],
    },
    Table {
        files: &[("f.tdb", ONE)],
        in_turn: 1,
        lines: &[
            ("backup -v", "", Nothing, 2, USAGE),
            ("backup -v -v f.tdb", "", Nothing, 2, USAGE),
            ("backup -v=1 f.tdb", "", Nothing, 2, USAGE),
            ("backup -v= f.tdb", "", Nothing, 2, USAGE),
            ("backup -vs .old f.tdb", "", Nothing, 2, USAGE),
            ("backup -s -v f.tdb", "", Nothing, 2, USAGE),
            ("backup -v -s .tmp f.tdb", "", Nothing, 2, USAGE),
            ("backup -v f.tdb f.tdb", "", Nothing, 2, USAGE),
            ("backup -v f.tdb f.tdb.tmp", "", Nothing, 2, USAGE),
            ("backup -v f.tdb.bak f.tdb", "", Nothing, 2, USAGE),
        ],
        left: &[],
    },
    // Where a line isn't written nothing is done behind it.
    Table {
        files: &[("f.tdb", STRAY), ("f.tdb.bak", ONE)],
        in_turn: 1,
        lines: &[("backup -v f.tdb g.tdb", "", Output(0), 8, "")],
        left: &[("f.tdb", Left::Bytes(STRAY)), ("f.tdb.tmp", Left::Missing)],
    },
    Table {
        files: &[("f.tdb", STRAY), ("f.tdb.bak", ONE)],
        in_turn: 1,
        lines: &[(
            "backup -v f.tdb g.tdb",
            "",
            Output(1),
            8,
            "restoring f.tdb\n",
        )],
        left: &[("f.tdb", Left::Bytes(ONE)), ("f.tdb.tmp", Left::Missing)],
    },
    // Whichever call fails, the file and its copy stay as they were.
    Table {
        files: &[("f.tdb", STRAY), ("f.tdb.bak", ONE)],
        in_turn: 1,
        lines: &[
            ("backup -v f.tdb", "", Files(Call::Take, 0), 4, FAULT),
            (
                "backup -v f.tdb",
                "",
                Disk("f.tdb", Call::Read, 0),
                4,
                FAULT,
            ),
            (
                "backup -v f.tdb",
                "",
                Files(Call::Take, 1),
                4,
                RESTORE_FAULT,
            ),
            (
                "backup -v f.tdb",
                "",
                Files(Call::Take, 2),
                4,
                RESTORE_FAULT,
            ),
            (
                "backup -v f.tdb",
                "",
                Files(Call::Remove, 0),
                4,
                RESTORE_FAULT,
            ),
            (
                "backup -v f.tdb",
                "",
                Files(Call::Rename, 0),
                4,
                RESTORE_FAULT,
            ),
            (
                "backup -v f.tdb",
                "",
                Disk("f.tdb.bak", Call::Read, 0),
                4,
                RESTORE_FAULT,
            ),
            (
                "backup -v f.tdb",
                "",
                Disk("f.tdb.tmp", Call::Sync, 1),
                4,
                RESTORE_FAULT,
            ),
        ],
        left: &[
            ("f.tdb", Left::Bytes(STRAY)),
            ("f.tdb.bak", Left::Bytes(ONE)),
        ],
    },
];

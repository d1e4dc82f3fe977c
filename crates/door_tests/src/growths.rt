// What logs are told of the growths of a file that is restored or copied.

use crate::images::{NEW, ONE, STRAY};
use crate::logs::{FIRST_GROWTH, LOST_KEY, Logged, NOTHING_YET, ONE_KEY};
use crate::runs::DUMP;
use crate::runs::Failing::Nothing;
use crate::tables::Left;
use tdb_log::Notice;

/// The dumps of two and of three pairs, whose records take 32 bytes each, and of one with a line behind it that is
/// none.
const TWO: &str = "{\nkey(1) = \"a\"\ndata(1) = \"1\"\n}\n{\nkey(1) = \"b\"\ndata(1) = \"2\"\n}\n";

const THREE: &str =
    "{\nkey(1) = \"a\"\ndata(1) = \"1\"\n}\n{\nkey(1) = \"b\"\ndata(1) = \"2\"\n}\n{\nkey(1) = \"c\"\ndata(1) = \"3\"\n}\n";

const BROKEN: &str = "{\nkey(1) = \"a\"\ndata(1) = \"1\"\n}\nkey\n";

/// A new file that may have 760 bytes grows by what each of two records needs, since whole pages pass that.
const BY_ONE: Notice = Notice::Grew { from: 696, to: 728 };

const BY_ANOTHER: Notice = Notice::Grew { from: 728, to: 760 };

const TWO_KEYS: Notice = Notice::Checked {
    live: 2,
    dead_bytes: 0,
};

pub(crate) static LOGGED: [(&'static str, Logged); 16] = [
    (
        "a restore of a pair",
        Logged {
            files: &[],
            line: &[("restore f.tdb", DUMP, Nothing, 0, "")],
            stands: &[("f.tdb", Left::Length(4096))],
            logs: 1,
            failing: None,
            left: 1,
            told: &[FIRST_GROWTH],
        },
    ),
    (
        "a restore of two pairs that grows the file twice",
        Logged {
            files: &[],
            line: &[("restore --limit 760 f.tdb", TWO, Nothing, 0, "")],
            stands: &[("f.tdb", Left::Length(760))],
            logs: 1,
            failing: None,
            left: 1,
            told: &[BY_ONE, BY_ANOTHER],
        },
    ),
    (
        "the same pairs that are inserted in a session",
        Logged {
            files: &[("f.tdb", NEW)],
            line: &[(
                "tool --limit 760 f.tdb",
                "insert a 1\ninsert b 2\n",
                Nothing,
                0,
                "ok\nok\n",
            )],
            stands: &[("f.tdb", Left::Length(760))],
            logs: 1,
            failing: None,
            left: 1,
            told: &[NOTHING_YET, BY_ONE, BY_ANOTHER],
        },
    ),
    (
        "a restore without room for the third pair",
        Logged {
            files: &[],
            line: &[(
                "restore --limit 760 f.tdb",
                THREE,
                Nothing,
                6,
                "full 760 32\n",
            )],
            stands: &[("f.tdb", Left::Missing)],
            logs: 1,
            failing: None,
            left: 1,
            told: &[BY_ONE, BY_ANOTHER],
        },
    ),
    (
        "a restore of a text that is broken behind a pair",
        Logged {
            files: &[],
            line: &[(
                "restore f.tdb",
                BROKEN,
                Nothing,
                7,
                "input malformed at 31\n",
            )],
            stands: &[("f.tdb", Left::Missing)],
            logs: 1,
            failing: None,
            left: 1,
            told: &[FIRST_GROWTH],
        },
    ),
    (
        "a log that fails at the first growth of a restore",
        Logged {
            files: &[],
            line: &[("restore --limit 760 f.tdb", TWO, Nothing, 10, "log fault\n")],
            stands: &[("f.tdb", Left::Missing)],
            logs: 1,
            failing: Some(0),
            left: 1,
            told: &[],
        },
    ),
    (
        "a log that fails at the second growth of a restore",
        Logged {
            files: &[],
            line: &[("restore --limit 760 f.tdb", TWO, Nothing, 10, "log fault\n")],
            stands: &[("f.tdb", Left::Missing)],
            logs: 1,
            failing: Some(1),
            left: 1,
            told: &[BY_ONE],
        },
    ),
    (
        "two logs, of which the first is told nothing of a restore",
        Logged {
            files: &[],
            line: &[("restore f.tdb", DUMP, Nothing, 0, "")],
            stands: &[("f.tdb", Left::Length(4096))],
            logs: 2,
            failing: None,
            left: 2,
            told: &[],
        },
    ),
    (
        "a backup of two files",
        Logged {
            files: &[("f.tdb", ONE), ("g.tdb", ONE)],
            line: &[("backup f.tdb g.tdb", "", Nothing, 0, "")],
            stands: &[
                ("f.tdb.bak", Left::Bytes(ONE)),
                ("g.tdb.bak", Left::Bytes(ONE)),
            ],
            logs: 1,
            failing: None,
            left: 1,
            told: &[ONE_KEY, FIRST_GROWTH, ONE_KEY, FIRST_GROWTH],
        },
    ),
    (
        "a session of two inserts, and a backup of its file, which grows as that did",
        Logged {
            files: &[("f.tdb", NEW)],
            line: &[
                (
                    "tool f.tdb",
                    "insert a 1\ninsert b 2\n",
                    Nothing,
                    0,
                    "ok\nok\n",
                ),
                ("backup f.tdb", "", Nothing, 0, ""),
            ],
            stands: &[("f.tdb.bak", Left::Length(4096))],
            logs: 1,
            failing: None,
            left: 1,
            told: &[NOTHING_YET, FIRST_GROWTH, TWO_KEYS, FIRST_GROWTH],
        },
    ),
    (
        "a log that fails at the growth of the first copy",
        Logged {
            files: &[("f.tdb", ONE), ("g.tdb", ONE)],
            line: &[("backup f.tdb g.tdb", "", Nothing, 10, "log fault\n")],
            stands: &[
                ("f.tdb.bak", Left::Missing),
                ("f.tdb.bak.tmp", Left::Missing),
                ("g.tdb.bak", Left::Missing),
            ],
            logs: 1,
            failing: Some(1),
            left: 1,
            told: &[ONE_KEY],
        },
    ),
    (
        "a log that fails at the growth of the second copy",
        Logged {
            files: &[("f.tdb", ONE), ("g.tdb", ONE)],
            line: &[("backup f.tdb g.tdb", "", Nothing, 10, "log fault\n")],
            stands: &[
                ("f.tdb.bak", Left::Bytes(ONE)),
                ("g.tdb.bak", Left::Missing),
                ("g.tdb.bak.tmp", Left::Missing),
            ],
            logs: 1,
            failing: Some(3),
            left: 1,
            told: &[ONE_KEY, FIRST_GROWTH, ONE_KEY],
        },
    ),
    (
        "a file that is restored from its copy",
        Logged {
            files: &[("f.tdb", STRAY), ("f.tdb.bak", ONE)],
            line: &[(
                "backup -v f.tdb",
                "",
                Nothing,
                0,
                "restoring f.tdb\nf.tdb : 1 records\n",
            )],
            stands: &[("f.tdb", Left::Bytes(ONE))],
            logs: 1,
            failing: None,
            left: 1,
            told: &[LOST_KEY, ONE_KEY, FIRST_GROWTH],
        },
    ),
    (
        "a log that fails at the growth of a file that is restored so",
        Logged {
            files: &[("f.tdb", STRAY), ("f.tdb.bak", ONE)],
            line: &[(
                "backup -v f.tdb",
                "",
                Nothing,
                10,
                "restoring f.tdb\nlog fault\n",
            )],
            stands: &[
                ("f.tdb", Left::Bytes(STRAY)),
                ("f.tdb.bak", Left::Bytes(ONE)),
                ("f.tdb.tmp", Left::Missing),
            ],
            logs: 1,
            failing: Some(2),
            left: 1,
            told: &[LOST_KEY, ONE_KEY],
        },
    ),
    // The new file of a conversion, and that of a repacking, tell no growth.
    (
        "a conversion",
        Logged {
            files: &[("f.tdb", ONE)],
            line: &[("convert f.tdb g.tdb", "", Nothing, 0, "ok\n")],
            stands: &[("g.tdb", Left::Length(4096))],
            logs: 1,
            failing: Some(1),
            left: 1,
            told: &[ONE_KEY],
        },
    ),
    (
        "a repacking",
        Logged {
            files: &[("f.tdb", ONE)],
            line: &[("tool f.tdb repack", "", Nothing, 0, "ok\n")],
            stands: &[("f.tdb", Left::Length(4096))],
            logs: 1,
            failing: Some(1),
            left: 1,
            told: &[ONE_KEY],
        },
    ),
];

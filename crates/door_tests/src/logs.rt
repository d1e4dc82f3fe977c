// What logs are told of a run, and logs that fail.

use crate::images::{GATE, NEW, ONE, STRAY};
use crate::runs::Failing::Nothing;
use crate::runs::{DUMP, Line};
use crate::tables::{File, Left, failing_part};
use crate::turns::{COMMIT, COMMIT_TOLD, PREPARED, PREPARED_TOLD};
use std::alloc::{AllocError, Global};
use tdb_log::{Log, MemLog, Notice};
use tdb_words::What;

/// A line over files and logs, and what it leaves. How many logs there are, the notice that is the first to fail in
/// each of them, how many are left, and what the first of those was told.
pub(crate) struct Logged {
    pub(crate) files: &'static [File],
    pub(crate) line: &'static [Line<'static>],
    pub(crate) stands: &'static [(&'static str, Left)],
    pub(crate) logs: u32,
    pub(crate) failing: Option<u64>,
    pub(crate) left: usize,
    pub(crate) told: &'static [Notice],
}

pub(crate) const NOTHING_YET: Notice = Notice::Checked {
    live: 0,
    dead_bytes: 0,
};

pub(crate) const ONE_KEY: Notice = Notice::Checked {
    live: 1,
    dead_bytes: 0,
};

pub(crate) const LOST_KEY: Notice = Notice::Refused {
    what: What::Stray,
    at: 4068,
};

pub(crate) const FIRST_GROWTH: Notice = Notice::Grew {
    from: 696,
    to: 4096,
};

const AREA_GROWTH: Notice = Notice::Grew {
    from: 4096,
    to: 8192,
};

/// A store behind which the last log is dropped, and the one before it twice.
const DROPPED: &str = "open\nsetlog\ndo 1 store a 1\nsetlog\nsetlog\n";

const DROPPED_TOLD: &str =
    "1 open\nlog 1\n1 step\n1 step\n1 step\n1 step\ngrew 696 4096\n1 step\n1 done ok\nlog 0\nlog 0\n";

/// The same without the last two lines of the script.
const KEPT: &str = "open\nsetlog\ndo 1 store a 1\n";

const KEPT_TOLD: &str =
    "1 open\nlog 1\n1 step\n1 step\n1 step\n1 step\ngrew 696 4096\n1 step\n1 done ok\n";

pub(crate) static LOGGED: [(&'static str, Logged); 18] = [
    (
        "a store that grows the file",
        Logged {
            files: &[("f.tdb", NEW)],
            line: &[("tool f.tdb store a 1", "", Nothing, 0, "ok\n")],
            stands: &[],
            logs: 1,
            failing: None,
            left: 1,
            told: &[NOTHING_YET, FIRST_GROWTH],
        },
    ),
    (
        "a check of a lost key",
        Logged {
            files: &[("f.tdb", STRAY)],
            line: &[("tool f.tdb check", "", Nothing, 3, "corrupt Stray 4068\n")],
            stands: &[],
            logs: 1,
            failing: None,
            left: 1,
            told: &[LOST_KEY],
        },
    ),
    (
        "a recovery",
        Logged {
            files: &[("f.tdb", GATE)],
            line: &[("tool f.tdb show a", "", Nothing, 0, "data(1) = \"1\"\n")],
            stands: &[],
            logs: 1,
            failing: None,
            left: 1,
            told: &[Notice::Recovered { bytes: 5 }, ONE_KEY],
        },
    ),
    (
        "a quit behind a recovery",
        Logged {
            files: &[("f.tdb", GATE)],
            line: &[("tool f.tdb quit", "", Nothing, 0, "")],
            stands: &[],
            logs: 1,
            failing: None,
            left: 1,
            told: &[Notice::Recovered { bytes: 5 }, ONE_KEY],
        },
    ),
    (
        "a dump of a file that needs recovery",
        Logged {
            files: &[("f.tdb", GATE)],
            line: &[("dump f.tdb", "", Nothing, 3, "needs recovery\n")],
            stands: &[],
            logs: 1,
            failing: None,
            left: 1,
            told: &[],
        },
    ),
    (
        "a rescue, which tells nothing",
        Logged {
            files: &[("f.tdb", STRAY)],
            line: &[("dump -e f.tdb", "", Nothing, 0, DUMP)],
            stands: &[],
            logs: 1,
            failing: Some(0),
            left: 1,
            told: &[],
        },
    ),
    (
        "a dump",
        Logged {
            files: &[("f.tdb", ONE)],
            line: &[("dump f.tdb", "", Nothing, 0, DUMP)],
            stands: &[],
            logs: 1,
            failing: None,
            left: 1,
            told: &[ONE_KEY],
        },
    ),
    (
        "a backup",
        Logged {
            files: &[("f.tdb", ONE)],
            line: &[("backup f.tdb", "", Nothing, 0, "")],
            stands: &[],
            logs: 1,
            failing: None,
            left: 1,
            told: &[ONE_KEY, FIRST_GROWTH],
        },
    ),
    (
        "a session that grows the file",
        Logged {
            files: &[("f.tdb", NEW)],
            line: &[("tool f.tdb", "store a 1\n", Nothing, 0, "ok\n")],
            stands: &[],
            logs: 1,
            failing: None,
            left: 1,
            told: &[NOTHING_YET, FIRST_GROWTH],
        },
    ),
    (
        "a commit that places an undo area",
        Logged {
            files: &[("f.tdb", ONE)],
            line: &[("turns f.tdb", COMMIT, Nothing, 0, COMMIT_TOLD)],
            stands: &[],
            logs: 1,
            failing: None,
            left: 1,
            told: &[ONE_KEY, AREA_GROWTH],
        },
    ),
    (
        "a death with a prepared transaction",
        Logged {
            files: &[("f.tdb", ONE)],
            line: &[("turns f.tdb", PREPARED, Nothing, 0, PREPARED_TOLD)],
            stands: &[],
            logs: 1,
            failing: None,
            left: 1,
            told: &[
                ONE_KEY,
                AREA_GROWTH,
                Notice::Died { opener: 1 },
                Notice::Recovered { bytes: 1 },
            ],
        },
    ),
    (
        "two logs that are dropped",
        Logged {
            files: &[("f.tdb", NEW)],
            line: &[("turns f.tdb", DROPPED, Nothing, 0, DROPPED_TOLD)],
            stands: &[],
            logs: 2,
            failing: None,
            left: 0,
            told: &[],
        },
    ),
    (
        "one of two logs that is dropped",
        Logged {
            files: &[("f.tdb", NEW)],
            line: &[("turns f.tdb", KEPT, Nothing, 0, KEPT_TOLD)],
            stands: &[],
            logs: 2,
            failing: None,
            left: 1,
            told: &[FIRST_GROWTH],
        },
    ),
    // A log that fails ends the run with its own line, behind what was done up to then.
    (
        "a log that fails at the opening",
        Logged {
            files: &[("f.tdb", ONE)],
            line: &[("tool f.tdb show a", "", Nothing, 10, "log fault\n")],
            stands: &[],
            logs: 1,
            failing: Some(0),
            left: 1,
            told: &[],
        },
    ),
    (
        "a log that fails at the opening for a backup",
        Logged {
            files: &[("f.tdb", ONE)],
            line: &[("backup f.tdb", "", Nothing, 10, "log fault\n")],
            stands: &[],
            logs: 1,
            failing: Some(0),
            left: 1,
            told: &[],
        },
    ),
    (
        "a log that fails at the growth",
        Logged {
            files: &[("f.tdb", NEW)],
            line: &[("tool f.tdb store a 1", "", Nothing, 10, "log fault\n")],
            stands: &[],
            logs: 1,
            failing: Some(1),
            left: 1,
            told: &[NOTHING_YET],
        },
    ),
    (
        "a log that fails at the growth in a session",
        Logged {
            files: &[("f.tdb", NEW)],
            line: &[(
                "tool f.tdb",
                "store a 1\nshow a\n",
                Nothing,
                10,
                "ok\nlog fault\n",
            )],
            stands: &[],
            logs: 1,
            failing: Some(1),
            left: 1,
            told: &[NOTHING_YET],
        },
    ),
    (
        "a log that fails at a death",
        Logged {
            files: &[("f.tdb", ONE)],
            line: &[(
                "turns f.tdb",
                "open\ndie 1\nopen\n",
                Nothing,
                10,
                "1 open\n1 died\nlog fault\n",
            )],
            stands: &[],
            logs: 1,
            failing: Some(1),
            left: 1,
            told: &[ONE_KEY],
        },
    ),
];

/// So many logs in memory, in each of which the notice with this number is the first to fail, if one is named.
fn logs_of(
    alloc: Global,
    count: u32,
    failing: Option<u64>,
) -> Result<Vec<Box<dyn Log>>, AllocError> {
    let mut logs: Vec<Box<dyn Log>> = Vec::new(alloc);
    for _ in 0..count {
        let mut log = MemLog::new(alloc);
        if let Some(nth) = failing {
            log.fail(nth)?;
        }
        logs.push(Box::new(alloc, log)?)?;
    }
    Ok(logs)
}

/// Whether so many logs are left, and the first of them was told just these notices.
fn were_told(logs: &[Box<dyn Log>], left: usize, notices: &[Notice]) -> bool {
    let Some(log) = logs.first() else {
        return left == 0 && notices.is_empty();
    };
    for (at, notice) in notices.iter().enumerate() {
        if log.told(at as u64) != Some(*notice) {
            return false;
        }
    }
    logs.len() == left && log.told(notices.len() as u64).is_none()
}

/// The first row of a table whose line doesn't hold, or leaves and tells the logs something else.
pub(crate) fn failing_row(
    alloc: Global,
    table: &[(&'static str, Logged)],
) -> Result<Option<&'static str>, AllocError> {
    for (name, row) in table {
        let mut logs = logs_of(alloc, row.logs, row.failing)?;
        let failure = failing_part(alloc, row.files, row.line, row.stands, &mut logs)?;
        if failure.is_some() || !were_told(&logs, row.left, row.told) {
            return Ok(Some(*name));
        }
    }
    Ok(None)
}

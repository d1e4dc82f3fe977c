//! Tests of logs and their lines, over the public calls of `tdb_log`: the lines of notices, each log's refusals, and a
//! list of logs, of which the last is told.

use crate::rows::{Row, failing};
use tdb_disk::{Call, MemSink};
use tdb_log::{CountLog, Log, LogRefusal, Logs, MemLog, Notice, SinkLog};
use tdb_words::What;

const GREW: Notice = Notice::Grew {
    from: 696,
    to: 4096,
};

const CHECKED: Notice = Notice::Checked {
    live: 0,
    dead_bytes: 0,
};

const REFUSED: Notice = Notice::Refused {
    what: What::ChainLoop,
    at: 4_294_967_295,
};

const DIED: Notice = Notice::Died { opener: 1 };

const FAILED: Result<(), LogRefusal> = Err(LogRefusal::Failed);

/// A log, and what is seen of it beside what it tells.
enum Form {
    /// In memory. It fails at its second notice.
    Memory,
    /// It has counted so many.
    Count(u64),
    /// It has written these lines to a sink, whose sixth write fails.
    Lines(&'static [u8]),
}

/// What a log is told, and what it answers. The notices that it tells then, and no more.
struct Kept {
    form: Form,
    notes: &'static [(Notice, Result<(), LogRefusal>)],
    told: &'static [Notice],
}

static KEPT: [(&'static str, Kept); 3] = [
    (
        "a log in memory",
        Kept {
            form: Form::Memory,
            notes: &[(CHECKED, Ok(())), (GREW, FAILED), (GREW, Ok(()))],
            told: &[CHECKED, GREW],
        },
    ),
    (
        "a log that counts",
        Kept {
            form: Form::Count(2),
            notes: &[(GREW, Ok(())), (CHECKED, Ok(()))],
            told: &[],
        },
    ),
    (
        "a log over a sink",
        Kept {
            form: Form::Lines(
                b"recovered 13\nchecked 0 0\nrefused ChainLoop 4294967295\ngrew 696 4096\ndied 2\ngrew 696 4096\n",
            ),
            notes: &[
                (Notice::Recovered { bytes: 13 }, Ok(())),
                (CHECKED, Ok(())),
                (REFUSED, Ok(())),
                (GREW, Ok(())),
                (Notice::Died { opener: 2 }, Ok(())),
                (GREW, FAILED),
                (GREW, Ok(())),
            ],
            told: &[],
        },
    ),
];

impl Kept {
    /// Whether a log answers so.
    fn is_noted<L: Log>(&self, log: &mut L) -> bool {
        for (notice, answer) in self.notes {
            if log.note(notice) != *answer {
                return false;
            }
        }
        true
    }

    /// Whether a log tells so.
    fn is_told<L: Log>(&self, log: &L) -> bool {
        for (number, notice) in self.told.iter().enumerate() {
            if log.told(number as u64) != Some(*notice) {
                return false;
            }
        }
        log.told(self.told.len() as u64) == None
    }
}

impl Row for Kept {
    fn holds(&self, rt: HostRuntime) -> Option<bool> {
        Some(match &self.form {
            Form::Memory => {
                let mut log = MemLog::new(rt.alloc());
                log.fail(1).ok()?;
                self.is_noted(&mut log) && self.is_told(&log)
            }
            Form::Count(count) => {
                let mut log = CountLog::new();
                self.is_noted(&mut log) && self.is_told(&log) && log.count() == *count
            }
            Form::Lines(lines) => {
                let mut sink = MemSink::new(rt.alloc());
                sink.fail(Call::Write, 5).ok()?;
                let mut log = SinkLog::new(sink);
                self.is_noted(&mut log) && self.is_told(&log) && log.sink.as_slice() == *lines
            }
        })
    }
}

/// What is done with a list of logs in memory.
enum Turn {
    /// One more is put to its end, which fails at its second notice.
    Push,
    /// It is told that an opener died, and answers so.
    Note(Result<(), LogRefusal>),
    /// The last is dropped, and so many are left.
    Drop(usize),
    /// The first one tells this.
    First(Option<Notice>),
}

struct Turns(&'static [Turn]);

static TURNS: [(&'static str, Turns); 1] = [(
    "the last is told, and once it is dropped the one before it",
    Turns(&[
        Turn::Note(Ok(())),
        Turn::Drop(0),
        Turn::Push,
        Turn::Push,
        Turn::Note(Ok(())),
        Turn::Note(FAILED),
        Turn::Drop(1),
        Turn::First(None),
        Turn::Note(Ok(())),
        Turn::First(Some(DIED)),
    ]),
)];

impl Row for Turns {
    fn holds(&self, rt: HostRuntime) -> Option<bool> {
        let mut logs: Vec<Box<dyn Log>> = Vec::new(rt.alloc());
        for turn in self.0 {
            let is_so = match turn {
                Turn::Push => {
                    let mut log = MemLog::new(rt.alloc());
                    log.fail(1).ok()?;
                    logs.push(Box::new(rt.alloc(), log).ok()?).is_ok()
                }
                Turn::Note(answer) => logs.note(&DIED) == *answer,
                Turn::Drop(left) => logs.drop_last() == *left,
                Turn::First(told) => match logs.first() {
                    Some(log) => log.told(0) == *told,
                    None => false,
                },
            };
            if !is_so {
                return Some(false);
            }
        }
        Some(true)
    }
}

#[test]
fn logs_are_told(rt: HostRuntime) {
    assert_eq!(rt; failing(rt, &KEPT), None);
    assert_eq!(rt; failing(rt, &TURNS), None);
}

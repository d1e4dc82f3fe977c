// Takes of files, and what a user is told where a file isn't taken.

use crate::edits::take_and_give;
use crate::files::folder::{FOLDER, Left, Lock, gets_lock, has_all, is_told, lay, open_other};
use crate::files::takes::Answer::{Failed, Missing, Taken, There};
use crate::rows::Row;
use std::os::unix::fs::symlink;
use std::{fs, io};
use tdb_disk::{Take, TakeRefusal};
use tdb_files::{DirFiles, Manner};

/// A file that may only be read.
const KEPT: &str = "tdb_files_test/kept";

/// A file that has its first name beside it.
const DOUBLE: &str = "tdb_files_test/double";

/// The file that others have a lock on.
const SHARED: &str = "tdb_files_test/shared";

/// A file that is made, and its name until it is whole.
const MADE: &str = "tdb_files_test/made";

const PART: &str = "tdb_files_test/made.tdb-new";

/// What a take answers. Where a call failed, also what a user is told.
pub(crate) enum Answer {
    Taken,
    Missing,
    There,
    Failed(&'static str),
}

/// How other programs are dealt with where no other run is waited for.
pub(crate) fn at_once() -> Manner {
    Manner {
        seconds: 0,
        ..Manner::new()
    }
}

/// Whether files that refused nothing else before gave this answer. Where a call failed, a user is told of its fault.
pub(crate) fn is_answer(
    rt: HostRuntime,
    files: &DirFiles,
    refusal: Option<TakeRefusal>,
    want: &Answer,
) -> bool {
    let (want, text) = match want {
        Taken => (None, ""),
        Missing => (Some(TakeRefusal::Missing), ""),
        There => (Some(TakeRefusal::There), ""),
        Failed(text) => (Some(TakeRefusal::Failed), *text),
    };
    refusal == want && is_told(rt, files.last_fault(), text)
}

/// A file that is laid before, if one is, which another run has open, and its lock on it. The name that is taken, how,
/// and each answer. What is left then.
pub(crate) struct Takes {
    laid: Option<&'static str>,
    lock: Option<Lock>,
    name: &'static str,
    answers: &'static [(Take, Answer)],
    left: &'static [Left],
}

/// Nothing is laid before.
const TAKEN: Takes = Takes {
    laid: None,
    lock: None,
    name: "",
    answers: &[],
    left: &[],
};

/// Each name is taken after those before.
pub(crate) static TAKES: [(&'static str, Takes); 16] = [
    (
        "the working folder",
        Takes {
            name: ".",
            answers: &[
                (Take::Existing, Failed(".: is not a regular file")),
                (Take::ReadOnly, Failed(".: is not a regular file")),
                (Take::New, There),
            ],
            ..TAKEN
        },
    ),
    (
        "a folder",
        Takes {
            name: FOLDER,
            answers: &[
                (
                    Take::Existing,
                    Failed("tdb_files_test: is not a regular file"),
                ),
                (
                    Take::ReadOnly,
                    Failed("tdb_files_test: is not a regular file"),
                ),
                (Take::New, There),
            ],
            ..TAKEN
        },
    ),
    (
        "a name in a folder that isn't there",
        Takes {
            name: "tdb_files_test/none/a",
            answers: &[
                (Take::Existing, Missing),
                (Take::ReadOnly, Missing),
                (
                    Take::New,
                    Failed("tdb_files_test/none/a: No such file or directory"),
                ),
            ],
            ..TAKEN
        },
    ),
    (
        "a name below a file",
        Takes {
            name: "tdb_files_test/kept/a",
            answers: &[
                (Take::Existing, Missing),
                (Take::ReadOnly, Missing),
                (Take::New, Failed("tdb_files_test/kept/a: Not a directory")),
            ],
            ..TAKEN
        },
    ),
    (
        "a link to nowhere",
        Takes {
            name: "tdb_files_test/link",
            answers: &[
                (Take::Existing, Missing),
                (Take::ReadOnly, Missing),
                (Take::New, There),
            ],
            ..TAKEN
        },
    ),
    (
        "a name that is free",
        Takes {
            name: "tdb_files_test/new",
            answers: &[
                (Take::Existing, Missing),
                (Take::ReadOnly, Missing),
                (Take::New, Taken),
            ],
            ..TAKEN
        },
    ),
    (
        "the file that was made there",
        Takes {
            name: "tdb_files_test/new",
            answers: &[
                (Take::Existing, Taken),
                (Take::ReadOnly, Taken),
                (Take::New, There),
            ],
            ..TAKEN
        },
    ),
    (
        "a file that may only be read",
        Takes {
            name: KEPT,
            answers: &[
                (Take::Existing, Taken),
                (Take::ReadOnly, Taken),
                (Take::New, There),
            ],
            ..TAKEN
        },
    ),
    (
        "another file at the name of its part, which stays",
        Takes {
            name: "tdb_files_test/kept.tdb-new",
            answers: &[
                (Take::Existing, Taken),
                (Take::ReadOnly, Taken),
                (Take::New, There),
            ],
            ..TAKEN
        },
    ),
    (
        "a file with its first name beside it, which a run left that was killed",
        Takes {
            name: DOUBLE,
            answers: &[
                (Take::Existing, Taken),
                (Take::ReadOnly, Taken),
                (Take::New, There),
            ],
            ..TAKEN
        },
    ),
    (
        "its first name, which was removed",
        Takes {
            name: "tdb_files_test/double.tdb-new",
            answers: &[
                (Take::Existing, Missing),
                (Take::ReadOnly, Missing),
                (Take::New, Taken),
            ],
            ..TAKEN
        },
    ),
    (
        "to be read beside a reader",
        Takes {
            laid: Some(SHARED),
            lock: Some(Lock::Shared),
            name: SHARED,
            answers: &[(Take::ReadOnly, Taken)],
            left: &[],
        },
    ),
    (
        "to be changed beside a reader",
        Takes {
            laid: Some(SHARED),
            lock: Some(Lock::Shared),
            name: SHARED,
            answers: &[(
                Take::Existing,
                Failed("tdb_files_test/shared: another program uses the file"),
            )],
            left: &[],
        },
    ),
    (
        "to be changed beside nobody",
        Takes {
            laid: Some(SHARED),
            lock: None,
            name: SHARED,
            answers: &[(Take::Existing, Taken)],
            left: &[],
        },
    ),
    (
        "the part of a run that goes on",
        Takes {
            laid: Some(PART),
            lock: Some(Lock::Exclusive),
            name: MADE,
            answers: &[(
                Take::New,
                Failed("tdb_files_test/made: another program uses the file"),
            )],
            left: &[(PART, Some(b"one")), (MADE, None)],
        },
    ),
    (
        "the part of a run that was killed",
        Takes {
            laid: Some(PART),
            lock: None,
            name: MADE,
            answers: &[(Take::New, Taken)],
            left: &[(PART, None), (MADE, Some(b""))],
        },
    ),
];

/// Lays what is there before the names are taken.
pub(crate) fn lay_names(rt: HostRuntime) -> io::Result<()> {
    lay(rt, KEPT, b"kept", 0o444)?;
    lay(rt, "tdb_files_test/kept.tdb-new", b"part", 0o600)?;
    lay(rt, DOUBLE, b"double", 0o600)?;
    fs::hard_link(&rt, DOUBLE, "tdb_files_test/double.tdb-new")?;
    symlink(&rt, "nowhere", "tdb_files_test/link")
}

impl Row for Takes {
    // No other run is waited for.
    fn holds(&self, rt: HostRuntime) -> Option<bool> {
        let other = match self.laid {
            Some(name) => {
                lay(rt, name, b"one", 0o600).ok()?;
                Some(open_other(rt, name).ok()?)
            }
            None => None,
        };
        let mut is_so = match (&other, &self.lock) {
            (Some(other), Some(lock)) => gets_lock(other, lock),
            _ => true,
        };
        for (how, want) in self.answers {
            let mut files = DirFiles::new(rt).with_manner(at_once());
            let refusal = take_and_give(&mut files, rt.alloc(), self.name, *how);
            is_so = is_so && is_answer(rt, &files, refusal, want);
        }
        Some(is_so && has_all(rt, self.left))
    }
}

// Calls of a real disk, and what other programs do with the file meanwhile: which calls are done, and what the system
// has then.

use crate::edits::{Edit, is_done};
use crate::files::folder::{Left, Lock, gets_lock, has_all, is_told, lay, mode_of, open_other};
use crate::rows::Row;
use std::time::Duration;
use std::{fs, io, thread};
use tdb_disk::{Disk, Files, Take};
use tdb_files::DirFiles;

const FILE: &str = "tdb_files_test/disk";

/// The name of the file while it is new.
const PART: &str = "tdb_files_test/disk.tdb-new";

/// Another name in the folder.
const OTHER: &str = "tdb_files_test/other";

/// More writes than are each noted.
const BURST: u32 = 200;

/// What is done while the file is taken.
enum Step {
    /// A call, whether it is done, and what the system has in the file then.
    Call(Edit, bool, Option<&'static [u8]>),
    /// A lock that another run asks for, and whether it gets it.
    Lock(Lock, bool),
    /// What another program does, once the clock of the file system has gone on.
    Other(Change),
    /// Many writes of the same bytes at the beginning, of which not each is noted.
    Burst,
}

/// What another program does with the file.
enum Change {
    Nothing,
    Read,
    Write,
    Cut,
    Link,
    Replace,
    MoveAway,
    Remove,
}

/// What is laid as the file before, if anything is, how it is taken, the name that the system has it by then, its
/// permissions, and what is done. What is left once it is given back, and what a user is told of the last fault, where
/// that is looked at.
pub(crate) struct Case {
    laid: Option<&'static [u8]>,
    how: Take,
    path: &'static str,
    mode: u32,
    steps: &'static [Step],
    left: &'static [Left],
    told: Option<&'static str>,
}

/// Each case finds the file as the one before left it, where none is laid.
pub(crate) static CASES: [(&'static str, Case); 3] = [
    // A growth and a cut reach the file at once. What is written does at the next sync, or once the file is given back.
    (
        "a new file",
        Case {
            laid: None,
            how: Take::New,
            path: PART,
            mode: 0o600,
            steps: &[
                Step::Call(Edit::Grow(12), true, Some(&[0; 12])),
                Step::Call(Edit::Write(2, b"bytes"), true, Some(&[0; 12])),
                Step::Call(Edit::Word(8, *b"word"), true, Some(&[0; 12])),
                Step::Call(Edit::Cut(8), true, Some(&[0; 8])),
                Step::Call(Edit::Sync, true, Some(b"\0\0bytes\0")),
                Step::Call(Edit::Write(0, b"my"), true, Some(b"\0\0bytes\0")),
                Step::Call(Edit::Len(8), true, Some(b"\0\0bytes\0")),
                Step::Call(Edit::Read(0, b"mybytes\0"), true, Some(b"\0\0bytes\0")),
            ],
            left: &[(FILE, Some(b"mybytes\0")), (PART, None)],
            told: None,
        },
    ),
    (
        "a file that is only read",
        Case {
            laid: None,
            how: Take::ReadOnly,
            path: FILE,
            mode: 0o600,
            steps: &[
                Step::Call(Edit::Grow(16), false, Some(b"mybytes\0")),
                Step::Call(Edit::Len(8), true, Some(b"mybytes\0")),
                Step::Call(Edit::Read(0, b"mybytes\0"), true, Some(b"mybytes\0")),
            ],
            left: &[(FILE, Some(b"mybytes\0")), (PART, None)],
            told: None,
        },
    ),
    (
        "a file that may only be read",
        Case {
            laid: Some(b"12345678"),
            how: Take::Existing,
            path: FILE,
            mode: 0o444,
            steps: &[
                Step::Call(Edit::Write(0, b"a"), false, Some(b"12345678")),
                Step::Call(Edit::Word(0, *b"word"), false, Some(b"12345678")),
                Step::Call(Edit::Grow(16), false, Some(b"12345678")),
                Step::Call(Edit::Cut(4), false, Some(b"12345678")),
                Step::Call(Edit::Len(8), true, Some(b"12345678")),
                Step::Call(Edit::Read(0, b"12345678"), true, Some(b"12345678")),
            ],
            left: &[(FILE, Some(b"12345678")), (PART, None)],
            told: None,
        },
    ),
];

/// A write, after which another program does something, or nothing; then this run writes again.
const BESIDE: Case = Case {
    laid: Some(b"12345678"),
    how: Take::Existing,
    path: FILE,
    mode: 0o600,
    steps: &[],
    left: &[],
    told: Some("tdb_files_test/disk: the file was changed by another program"),
};

const FIRST: Step = Step::Call(Edit::Write(0, b"first"), true, Some(b"first678"));

/// What the other program does, and whether the file is changed by this run then. After a write that isn't done there
/// is nothing of it in the file, and no call changes it any more.
pub(crate) static BENEATH: [(&'static str, Case); 10] = [
    (
        "nothing",
        Case {
            steps: &[
                FIRST,
                Step::Other(Change::Nothing),
                Step::Call(Edit::Write(3, b"?"), true, Some(b"fir?t678")),
                Step::Call(Edit::Sync, true, Some(b"fir?t678")),
            ],
            left: &[(FILE, Some(b"fir?t678"))],
            told: Some(""),
            ..BESIDE
        },
    ),
    (
        "a read",
        Case {
            steps: &[
                FIRST,
                Step::Other(Change::Read),
                Step::Call(Edit::Write(3, b"?"), true, Some(b"fir?t678")),
                Step::Call(Edit::Sync, true, Some(b"fir?t678")),
            ],
            left: &[(FILE, Some(b"fir?t678"))],
            told: Some(""),
            ..BESIDE
        },
    ),
    (
        "a write of as many bytes",
        Case {
            steps: &[
                FIRST,
                Step::Other(Change::Write),
                Step::Call(Edit::Write(3, b"?"), false, Some(b"87654321")),
                Step::Call(Edit::Sync, false, Some(b"87654321")),
            ],
            left: &[(FILE, Some(b"87654321"))],
            ..BESIDE
        },
    ),
    (
        "nothing, behind many writes",
        Case {
            steps: &[
                Step::Burst,
                Step::Other(Change::Nothing),
                Step::Call(Edit::Write(3, b"?"), true, Some(b"fir?t678")),
                Step::Call(Edit::Sync, true, Some(b"fir?t678")),
            ],
            left: &[(FILE, Some(b"fir?t678"))],
            told: Some(""),
            ..BESIDE
        },
    ),
    (
        "a write of as many bytes, behind many writes",
        Case {
            steps: &[
                Step::Burst,
                Step::Other(Change::Write),
                Step::Call(Edit::Write(3, b"?"), false, Some(b"87654321")),
                Step::Call(Edit::Sync, false, Some(b"87654321")),
            ],
            left: &[(FILE, Some(b"87654321"))],
            ..BESIDE
        },
    ),
    (
        "a cut",
        Case {
            steps: &[
                FIRST,
                Step::Other(Change::Cut),
                Step::Call(Edit::Write(3, b"?"), false, Some(b"firs")),
                Step::Call(Edit::Sync, false, Some(b"firs")),
            ],
            left: &[(FILE, Some(b"firs"))],
            ..BESIDE
        },
    ),
    (
        "another name",
        Case {
            steps: &[
                FIRST,
                Step::Other(Change::Link),
                Step::Call(Edit::Write(3, b"?"), false, Some(b"first678")),
                Step::Call(Edit::Sync, false, Some(b"first678")),
            ],
            left: &[(FILE, Some(b"first678")), (OTHER, Some(b"first678"))],
            ..BESIDE
        },
    ),
    (
        "another file at the name",
        Case {
            steps: &[
                FIRST,
                Step::Other(Change::Replace),
                Step::Call(Edit::Write(3, b"?"), false, Some(b"12345678")),
                Step::Call(Edit::Sync, false, Some(b"12345678")),
            ],
            left: &[(FILE, Some(b"12345678")), (OTHER, None)],
            ..BESIDE
        },
    ),
    (
        "another name, and another file at its own",
        Case {
            steps: &[
                FIRST,
                Step::Other(Change::MoveAway),
                Step::Call(Edit::Write(3, b"?"), false, Some(b"12345678")),
                Step::Call(Edit::Sync, false, Some(b"12345678")),
            ],
            left: &[(FILE, Some(b"12345678")), (OTHER, Some(b"first678"))],
            ..BESIDE
        },
    ),
    (
        "no file at the name",
        Case {
            steps: &[
                FIRST,
                Step::Other(Change::Remove),
                Step::Call(Edit::Write(3, b"?"), false, None),
                Step::Call(Edit::Sync, false, None),
            ],
            left: &[(FILE, None)],
            ..BESIDE
        },
    ),
];

/// Locks that another run asks for while the file is taken.
pub(crate) static LOCKED: [(&'static str, Case); 3] = [
    (
        "to read what may be changed",
        Case {
            steps: &[Step::Lock(Lock::Shared, false)],
            told: None,
            ..BESIDE
        },
    ),
    (
        "to read what is read",
        Case {
            how: Take::ReadOnly,
            steps: &[Step::Lock(Lock::Shared, true)],
            told: None,
            ..BESIDE
        },
    ),
    (
        "to change what is read",
        Case {
            how: Take::ReadOnly,
            steps: &[Step::Lock(Lock::Exclusive, false)],
            told: None,
            ..BESIDE
        },
    ),
];

/// What the other program does, once the clock of the file system has gone on.
fn make_change(rt: HostRuntime, change: &Change) -> io::Result<()> {
    thread::sleep(&rt, Duration::from_millis(30));
    match change {
        Change::Nothing => Ok(()),
        Change::Read => fs::read(&rt, FILE).map(drop),
        Change::Write => fs::write(&rt, FILE, b"87654321"),
        Change::Cut => open_other(rt, FILE)?.set_len(4),
        Change::Link => fs::hard_link(&rt, FILE, OTHER),
        Change::Replace => {
            lay(rt, OTHER, b"12345678", 0o600)?;
            fs::rename(&rt, OTHER, FILE)
        }
        Change::MoveAway => {
            fs::rename(&rt, FILE, OTHER)?;
            lay(rt, FILE, b"12345678", 0o600)
        }
        Change::Remove => fs::remove_file(&rt, FILE),
    }
}

/// Whether a call is done so many times, one after the other.
fn is_often_done<D: Disk>(disk: &mut D, edit: &Edit) -> bool {
    for _ in 0..BURST {
        if is_done(disk, edit) != Some(true) {
            return false;
        }
    }
    true
}

impl Case {
    /// Whether a step goes so.
    fn goes<D: Disk>(&self, rt: HostRuntime, disk: &mut D, step: &Step) -> bool {
        match step {
            Step::Call(edit, done, kept) => {
                is_done(disk, edit) == Some(*done) && has_all(rt, &[(self.path, *kept)])
            }
            Step::Lock(lock, given) => match open_other(rt, FILE) {
                Ok(other) => gets_lock(&other, lock) == *given,
                Err(_) => false,
            },
            Step::Other(change) => make_change(rt, change).is_ok(),
            Step::Burst => is_often_done(disk, &Edit::Write(0, b"first")),
        }
    }
}

impl Row for Case {
    // Root may write what may only be read all the same, and takes it as one that is only read. Nobody else may lay a
    // file over one that may only be read, so that is removed before.
    fn holds(&self, rt: HostRuntime) -> Option<bool> {
        let _ = fs::remove_file(&rt, OTHER);
        if let Some(content) = self.laid {
            let _ = fs::remove_file(&rt, FILE);
            lay(rt, FILE, content, self.mode).ok()?;
        }
        let how = match open_other(rt, FILE) {
            Ok(_) if self.mode == 0o444 => Take::ReadOnly,
            _ => self.how,
        };
        let mut files = DirFiles::new(rt);
        let mut disk = files.take(rt.alloc(), FILE, how).ok()?;
        let mut is_so = matches!(mode_of(rt, self.path), Ok(mode) if mode == self.mode);
        for step in self.steps {
            is_so = is_so && self.goes(rt, &mut disk, step);
        }
        files.give(FILE, disk);
        let is_told = match self.told {
            Some(text) => is_told(rt, files.last_fault(), text),
            None => true,
        };
        Some(is_so && is_told && has_all(rt, self.left))
    }
}

// Commits over a small file in memory, turn by turn: the locks, the syncs and the length after each.
ghost use Rattle.std.specs.Prelude.{IfSome};
ghost use Rattle.tdb_disk.specs.MemDisk.{memory_size};
ghost use Rattle.tdb_txn_turns.specs.Committings.{CommitFits};

use crate::files::{LIMIT, changed, is_stored, stored};
use crate::rows::Row;
use crate::told::letters;
use crate::turns::{BYTES, start_locks};
use std::alloc::Global;
use tdb_disk::MemDisk;
use tdb_locks::{Kind, Len, Locks};
use tdb_space::Io;
use tdb_txn_turns::{CommitTurn, Committing};

/// What a turn led to: a word, with who is in the way and of which byte; then what opener 1 holds, how many syncs were
/// made, and how long the file is.
#[derive(Clone, Copy, PartialEq, Eq)]
struct Seen {
    word: &'static str,
    owner: u32,
    byte: u64,
    held: [u8; 7],
    syncs: u64,
    len: usize,
}

/// A row that tells nothing.
const NONE: Seen = Seen {
    word: "",
    owner: 0,
    byte: 0,
    held: [0; 7],
    syncs: 0,
    len: 0,
};

/// Takes a turn of a Commit of opener 1.
fn take_turn(
    commit: Committing,
    disk: &mut MemDisk,
    locks: &mut Locks,
    limit: u64,
) -> (Seen, Option<Committing>)
    requires { CommitFits commit (memory_size disk.old) limit }
    ensures { IfSome result.1 (λ next. CommitFits next (memory_size disk.new) limit) }
{
    let (word, owner, byte, next) = match commit.step(disk, locks, 1, limit) {
        Ok(turn) => match turn {
            CommitTurn::Step(next) => ("step", 0, 0, Some(next)),
            CommitTurn::Blocked { owner, byte, again } => ("blocked", owner, byte, Some(again)),
            CommitTurn::Full { len: _, need } => ("full", 0, need, None),
            CommitTurn::Memory => ("memory", 0, 0, None),
            CommitTurn::Done => ("done", 0, 0, None),
        },
        Err(Io) => ("io", 0, 0, None),
    };
    let row = Seen {
        word,
        owner,
        byte,
        held: letters(locks, 1, BYTES),
        syncs: disk.syncs(),
        len: disk.as_slice().len(),
    };
    (row, next)
}

/// Takes turns of a Commit of opener 1 up to its end, or nine of them.
fn run(commit: Committing, disk: &mut MemDisk, locks: &mut Locks, limit: u64) -> [Seen; 9]
    requires { CommitFits commit (memory_size disk.old) limit }
{
    let mut rows = [NONE; 9];
    let mut left = Some(commit);
    for i in 0..9 {
        let Some(commit) = left else {
            return rows;
        };
        let (row, next) = take_turn(commit, disk, locks, limit);
        rows[i] = row;
        left = next;
    }
    if let Some(commit) = left {
        commit.end();
    }
    rows
}

/// A row of a turn that is blocked, on the file that a Start has synced.
const BLOCKED: Seen = Seen {
    word: "blocked",
    owner: 2,
    byte: 0,
    held: *b"-w--www",
    syncs: 1,
    len: 4096,
};

/// A row of a step on that file.
const STEP: Seen = Seen {
    word: "step",
    owner: 0,
    ..BLOCKED
};

/// A row of a step with the opening lock, on a file that has got an undo area.
const LONGER: Seen = Seen {
    held: *b"ww--www",
    len: 8192,
    ..STEP
};

/// A row of a commit that has written all of its changes.
const DONE: Seen = Seen {
    word: "done",
    held: *b"-------",
    syncs: 8,
    ..LONGER
};

/// A row of a commit that ends with nothing written.
const UNCHANGED: Seen = Seen {
    word: "done",
    held: *b"-------",
    ..STEP
};

/// What a commit leaves of the file: another value, the file as it was, or what isn't looked at.
enum Leaves {
    Value(u8),
    File,
    Any,
}

/// A commit of a transaction that makes the record's value another byte, where `told` says whether a command of it
/// changed anything, and `numbered` whether its changes count in the sequence number. The byte that opener 2 reads then
/// and afterwards, if any, and how long the file may be. What some of the turns lead to, and what is left of the file.
pub(crate) struct Case {
    value: u8,
    told: bool,
    numbered: bool,
    read: Option<u32>,
    limit: u64,
    turns: &'static [(usize, Seen)],
    leaves: Leaves,
}

/// The nine turns of a commit that places a first undo area.
const WHOLE: Case = Case {
    value: b'9',
    told: true,
    numbered: false,
    read: None,
    limit: LIMIT,
    turns: &[
        (0, STEP),
        (
            1,
            Seen {
                held: *b"ww--www",
                ..STEP
            },
        ),
        (2, Seen { syncs: 4, ..LONGER }),
        (3, Seen { syncs: 5, ..LONGER }),
        (4, Seen { syncs: 6, ..LONGER }),
        (5, Seen { syncs: 6, ..LONGER }),
        (6, Seen { syncs: 7, ..LONGER }),
        (7, Seen { syncs: 8, ..LONGER }),
        (8, DONE),
    ],
    leaves: Leaves::Value(b'9'),
};

/// A commit of which the file isn't looked at.
const READ: Case = Case {
    leaves: Leaves::Any,
    ..WHOLE
};

pub(crate) static CASES: [(&'static str, Case); 11] = [
    ("a first undo area", WHOLE),
    // The second turn takes the lock byte of the sequence number too, and every lock is let go at the end.
    (
        "changes that count",
        Case {
            turns: &[
                (0, STEP),
                (
                    1,
                    Seen {
                        held: *b"www-www",
                        ..STEP
                    },
                ),
                (8, DONE),
            ],
            numbered: true,
            ..READ
        },
    ),
    // In the way of the first turn is who reads a chain or a record.
    (
        "who reads a chain",
        Case {
            read: Some(448),
            turns: &[(
                0,
                Seen {
                    byte: 448,
                    held: *b"-w--rrr",
                    ..BLOCKED
                },
            )],
            ..READ
        },
    ),
    (
        "who reads a record",
        Case {
            read: Some(4064),
            turns: &[(
                0,
                Seen {
                    byte: 4064,
                    held: *b"-w--rrr",
                    ..BLOCKED
                },
            )],
            ..READ
        },
    ),
    // In that of the second is who opens the file, or reads the sequence number where that counts, and then nothing of
    // the opening lock is held.
    (
        "who opens the file",
        Case {
            read: Some(0),
            turns: &[(1, BLOCKED)],
            ..READ
        },
    ),
    (
        "who opens the file, where changes count",
        Case {
            read: Some(0),
            turns: &[(1, BLOCKED)],
            numbered: true,
            ..READ
        },
    ),
    (
        "who reads the sequence number",
        Case {
            read: Some(48),
            turns: &[(
                1,
                Seen {
                    byte: 48,
                    ..BLOCKED
                },
            )],
            numbered: true,
            ..READ
        },
    ),
    (
        "who reads the sequence number, where no change counts",
        Case {
            read: Some(48),
            turns: &[(
                1,
                Seen {
                    held: *b"ww--www",
                    ..STEP
                },
            )],
            ..READ
        },
    ),
    // A commit is done at its first turn where no command changed anything, and at its third where the file has all of
    // it. It is full there where the undo area has no room.
    (
        "no change",
        Case {
            told: false,
            turns: &[(0, UNCHANGED), (1, NONE)],
            leaves: Leaves::File,
            ..WHOLE
        },
    ),
    (
        "a value that the file has",
        Case {
            value: b'1',
            turns: &[(2, UNCHANGED), (3, NONE)],
            leaves: Leaves::File,
            ..WHOLE
        },
    ),
    (
        "no room for the undo area",
        Case {
            limit: 8191,
            turns: &[
                (
                    2,
                    Seen {
                        word: "full",
                        byte: 4096,
                        ..UNCHANGED
                    },
                ),
                (3, NONE),
            ],
            leaves: Leaves::File,
            ..WHOLE
        },
    ),
];

impl Row for Case {
    fn holds(&self, alloc: Global) -> Option<bool> {
        let mut disk = stored(alloc)?;
        let mut locks = start_locks(alloc)?;
        if let Some(byte) = self.read {
            let byte = u64::from(byte);
            locks.try_lock(2, byte, Len::Bytes(1), Kind::Read).ok()?;
        }
        let txn = changed(alloc, &mut disk, self.limit, 4096, 4089, &[self.value])?;
        let commit = Committing::new(txn, self.told, self.numbered);
        let rows = run(commit, &mut disk, &mut locks, self.limit);
        for (turn, want) in self.turns {
            if rows.get(*turn) != Some(want) {
                return Some(false);
            }
        }
        let is_left = match &self.leaves {
            Leaves::Value(value) => disk.as_slice().get(4089) == Some(value),
            Leaves::File => is_stored(alloc, &disk)?,
            Leaves::Any => true,
        };
        Some(is_left && letters(&locks, 2, BYTES).contains(&b'r') == self.read.is_some())
    }
}

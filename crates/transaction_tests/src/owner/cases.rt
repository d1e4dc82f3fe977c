// Commands of an opener, and what is told of each turn.

use crate::files::{file_of, stored};
use crate::owner::plays::{Commands, FileState, Moment, Word, play};
use crate::owner::states::{
    CANCELED, FILLS_AREA, FREE, IS_DONE, IS_DOOMED, LETS_GO, OPENS_GATE, PLACES_AREA, SHUTS_GATE,
    SMALL, SYNCS, TAKES_NUMBER, TAKES_OPENING, TAKES_RECORDS, WRITES,
};
use crate::rows::Row;
use crate::told::Told;
use small_file::{RECORD, Word as FileWord};
use std::alloc::Global;
use tdb_locks::Kind;
use tdb_txn_owner::Wants;
use tdb_words::Order;

/// Commands, whether an opener is left, and the words of the small file that have changed then, where it is looked at.
/// Behind these there may be an undo area.
pub(crate) struct Case {
    commands: Commands,
    left: bool,
    after: Option<&'static [FileWord]>,
}

/// Commands whose changes don't count, up to their ends.
const PLAIN: Commands = Commands {
    numbered: false,
    words: &[],
    most: 9,
    from: 0,
    moments: &[],
};

const NUMBERED: Commands = Commands {
    numbered: true,
    ..PLAIN
};

pub(crate) static CASES: [(&'static str, Case); 22] = [
    // A Start takes the byte of transactions, then all records for reading, and then syncs. It leaves a transaction.
    (
        "a start",
        Case {
            commands: Commands {
                words: &[],
                from: 0,
                moments: &[
                    Moment {
                        wants: Wants::Transaction,
                        file: FileState { syncs: 0, ..SMALL },
                        ..FREE
                    },
                    Moment {
                        wants: Wants::Records(Kind::Read),
                        file: FileState { syncs: 0, ..SMALL },
                        ..FREE
                    },
                    IS_DONE,
                ],
                ..PLAIN
            },
            left: true,
            after: Some(&[]),
        },
    ),
    // A command inside the transaction is one turn, and the file stays, though the transaction has another value.
    (
        "a command inside the transaction",
        Case {
            commands: Commands {
                words: &[Word::Store(b'2'), Word::Fetch],
                from: 3,
                moments: &[
                    IS_DONE,
                    Moment {
                        told: Told::Value(b"2"),
                        ..FREE
                    },
                ],
                ..PLAIN
            },
            left: true,
            after: Some(&[]),
        },
    ),
    // The nine turns of a commit, with which the transaction is over. The sequence number is higher where changes raise
    // it.
    (
        "a commit",
        Case {
            commands: Commands {
                words: &[Word::Store(b'2'), Word::Commit],
                from: 4,
                moments: &[
                    TAKES_RECORDS,
                    TAKES_OPENING,
                    PLACES_AREA,
                    FILLS_AREA,
                    OPENS_GATE,
                    WRITES,
                    SYNCS,
                    SHUTS_GATE,
                    LETS_GO,
                ],
                ..PLAIN
            },
            left: false,
            after: Some(&[(44, 4096), (4088, 0x4242_3261)]),
        },
    ),
    (
        "a commit that raises the sequence number",
        Case {
            commands: Commands {
                words: &[Word::Store(b'2'), Word::Commit],
                from: 4,
                moments: &[
                    TAKES_RECORDS,
                    TAKES_NUMBER,
                    PLACES_AREA,
                    FILLS_AREA,
                    OPENS_GATE,
                    WRITES,
                    SYNCS,
                    SHUTS_GATE,
                    LETS_GO,
                ],
                ..NUMBERED
            },
            left: false,
            after: Some(&[(44, 4096), (48, 1), (4088, 0x4242_3261)]),
        },
    ),
    // A commit is done with its third turn where the file has all of it, and the file stays.
    (
        "a commit of what the file has",
        Case {
            commands: Commands {
                words: &[Word::Store(b'1'), Word::Commit],
                from: 4,
                moments: &[TAKES_RECORDS, TAKES_OPENING, IS_DONE],
                ..PLAIN
            },
            left: false,
            after: Some(&[]),
        },
    ),
    // A Prepare opens the gate with its fifth turn. A command that doesn't end the transaction is refused, and it
    // stays.
    (
        "a prepare, and a fetch then",
        Case {
            commands: Commands {
                words: &[Word::Store(b'2'), Word::Prepare, Word::Fetch],
                from: 4,
                moments: &[
                    TAKES_RECORDS,
                    TAKES_OPENING,
                    PLACES_AREA,
                    FILLS_AREA,
                    Moment {
                        told: Told::Done,
                        ..OPENS_GATE
                    },
                    Moment {
                        told: Told::InTransaction,
                        ..OPENS_GATE
                    },
                ],
                ..PLAIN
            },
            left: true,
            after: None,
        },
    ),
    // A Commit of the prepared transaction is four turns, and leaves the new value.
    (
        "a commit of a prepared transaction",
        Case {
            commands: Commands {
                words: &[Word::Store(b'2'), Word::Prepare, Word::Fetch, Word::Commit],
                from: 10,
                moments: &[WRITES, SYNCS, SHUTS_GATE, LETS_GO],
                ..PLAIN
            },
            left: false,
            after: None,
        },
    ),
    // A Cancel, a Close and another Prepare end it with one turn, which shuts the gate and syncs.
    (
        "a cancel of a prepared one",
        Case {
            commands: Commands {
                words: &[Word::Store(b'2'), Word::Prepare, Word::Cancel],
                from: 9,
                moments: &[Moment {
                    told: Told::Done,
                    file: CANCELED,
                    ..FREE
                }],
                ..PLAIN
            },
            left: false,
            after: None,
        },
    ),
    (
        "a close of a prepared one",
        Case {
            commands: Commands {
                words: &[Word::Store(b'2'), Word::Prepare, Word::Close],
                from: 9,
                moments: &[Moment {
                    told: Told::Done,
                    file: CANCELED,
                    ..FREE
                }],
                ..PLAIN
            },
            left: false,
            after: None,
        },
    ),
    (
        "another prepare of a prepared one",
        Case {
            commands: Commands {
                words: &[Word::Store(b'2'), Word::Prepare, Word::Prepare],
                from: 9,
                moments: &[Moment {
                    told: Told::InTransaction,
                    file: CANCELED,
                    ..FREE
                }],
                ..PLAIN
            },
            left: false,
            after: None,
        },
    ),
    // The last command is one turn, with which the transaction is over, and the file is as it was: a Cancel and a
    // Close, a Commit after a transaction within it was cancelled, and one without a change, prepared or not.
    (
        "a cancel",
        Case {
            commands: Commands {
                words: &[Word::Store(b'2'), Word::Cancel],
                from: 4,
                moments: &[IS_DONE],
                ..PLAIN
            },
            left: false,
            after: Some(&[]),
        },
    ),
    (
        "a close",
        Case {
            commands: Commands {
                words: &[Word::Store(b'2'), Word::Close],
                from: 4,
                moments: &[IS_DONE],
                ..PLAIN
            },
            left: false,
            after: Some(&[]),
        },
    ),
    (
        "a commit after a cancel within",
        Case {
            commands: Commands {
                words: &[Word::Store(b'2'), Word::Start, Word::Cancel, Word::Commit],
                from: 6,
                moments: &[IS_DOOMED],
                ..PLAIN
            },
            left: false,
            after: Some(&[]),
        },
    ),
    (
        "a prepare after a cancel within",
        Case {
            commands: Commands {
                words: &[Word::Store(b'2'), Word::Start, Word::Cancel, Word::Prepare],
                from: 6,
                moments: &[IS_DOOMED],
                ..PLAIN
            },
            left: false,
            after: Some(&[]),
        },
    ),
    (
        "a commit without a change",
        Case {
            commands: Commands {
                words: &[Word::Fetch, Word::Commit],
                from: 4,
                moments: &[IS_DONE],
                ..PLAIN
            },
            left: false,
            after: Some(&[]),
        },
    ),
    (
        "a commit without a change that was prepared",
        Case {
            commands: Commands {
                words: &[Word::Prepare, Word::Commit],
                from: 4,
                moments: &[IS_DONE],
                ..PLAIN
            },
            left: false,
            after: Some(&[]),
        },
    ),
    // The cursor shows the record with the value of the transaction, and then the end. What a transaction within
    // another one stored is there after its Commit, and after its Cancel too, which only keeps the outer one from being
    // committed.
    (
        "a cursor",
        Case {
            commands: Commands {
                words: &[Word::First],
                from: 3,
                moments: &[Moment {
                    told: Told::Pair(b"a", b"1"),
                    ..FREE
                }],
                ..PLAIN
            },
            left: true,
            after: Some(&[]),
        },
    ),
    (
        "a cursor on a value of the transaction",
        Case {
            commands: Commands {
                words: &[Word::Store(b'2'), Word::First],
                from: 4,
                moments: &[Moment {
                    told: Told::Pair(b"a", b"2"),
                    ..FREE
                }],
                ..PLAIN
            },
            left: true,
            after: Some(&[]),
        },
    ),
    (
        "the end of a cursor",
        Case {
            commands: Commands {
                words: &[Word::First, Word::Next],
                from: 4,
                moments: &[Moment {
                    told: Told::End,
                    ..FREE
                }],
                ..PLAIN
            },
            left: true,
            after: Some(&[]),
        },
    ),
    (
        "a commit within",
        Case {
            commands: Commands {
                words: &[Word::Start, Word::Store(b'2'), Word::Commit],
                from: 5,
                moments: &[IS_DONE],
                ..PLAIN
            },
            left: true,
            after: Some(&[]),
        },
    ),
    (
        "a fetch after a commit within",
        Case {
            commands: Commands {
                words: &[Word::Start, Word::Store(b'2'), Word::Commit, Word::Fetch],
                from: 6,
                moments: &[Moment {
                    told: Told::Value(b"2"),
                    ..FREE
                }],
                ..PLAIN
            },
            left: true,
            after: Some(&[]),
        },
    ),
    (
        "a fetch after a cancel within",
        Case {
            commands: Commands {
                words: &[Word::Start, Word::Store(b'2'), Word::Cancel, Word::Fetch],
                from: 6,
                moments: &[Moment {
                    told: Told::Value(b"2"),
                    ..FREE
                }],
                ..PLAIN
            },
            left: true,
            after: Some(&[]),
        },
    ),
];

impl Row for Case {
    fn holds(&self, alloc: Global) -> Option<bool> {
        let mut disk = stored(alloc)?;
        let (course, left) = play(alloc, &mut disk, &self.commands)?;
        let is_left = left.is_some();
        if let Some(holder) = left {
            holder.end();
        }
        let mut is_so = course.is_so && is_left == self.left;
        if let Some(words) = self.after {
            let want = file_of(alloc, Order::Little, 131, 4096, &RECORD, words)?;
            is_so = is_so && disk.as_slice().get(..4096) == want.get(..4096);
        }
        let seen = course.count.checked_sub(self.commands.from);
        Some(is_so && seen == Some(self.commands.moments.len()))
    }
}

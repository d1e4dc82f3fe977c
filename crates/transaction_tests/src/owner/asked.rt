// What an opener tells of itself between two turns, and what its command is told where memory is wanting for a lock.

ghost use Rattle.std.specs.Prelude.{◌≡◌};
ghost use Rattle.tdb_disk.specs.MemDisk.{memory_size};

use crate::files::{is_stored, stored};
use crate::owner::plays::{Commands, Word, command, play};
use crate::rows::Row;
use std::alloc::Global;
use tdb_disk::MemDisk;
use tdb_locks::{Kind, Reply, Turn};
use tdb_txn_owner::{TxnOwner, Wants};

/// An opener after so many turns of the last of these commands, where changes raise the sequence number or not: its
/// command that isn't done, whether that is a Close, how it holds all records, and whether it holds the bytes of
/// opening, of transactions, of the sequence number, and of a record.
pub(crate) struct Asked {
    numbered: bool,
    words: &'static [Word],
    turns: u32,
    command: Option<Word>,
    closes: bool,
    records: Option<Kind>,
    holds: [bool; 4],
}

/// A Start before its first turn.
const START: Asked = Asked {
    numbered: true,
    words: &[],
    turns: 0,
    command: Some(Word::Start),
    closes: false,
    records: None,
    holds: NOTHING,
};

const NOTHING: [bool; 4] = [false, false, false, false];

const TRANSACTION: [bool; 4] = [false, true, false, false];

const RECORDS: [bool; 4] = [false, true, false, true];

const UNCOUNTED: [bool; 4] = [true, true, false, true];

const ALL: [bool; 4] = [true, true, true, true];

const FETCH: [Word; 2] = [Word::Store(b'2'), Word::Fetch];

const COMMIT: [Word; 2] = [Word::Store(b'2'), Word::Commit];

const PREPARE: [Word; 2] = [Word::Store(b'2'), Word::Prepare];

const CLOSE: [Word; 2] = [Word::Store(b'2'), Word::Close];

pub(crate) static ASKED: [(&'static str, Asked); 16] = [
    // A Start takes the byte of transactions with its first turn, and all records for reading with its second. With its
    // third it is done.
    ("a start", START),
    (
        "a start after one turn",
        Asked {
            turns: 1,
            holds: TRANSACTION,
            ..START
        },
    ),
    (
        "a start after two turns",
        Asked {
            turns: 2,
            records: Some(Kind::Read),
            holds: RECORDS,
            ..START
        },
    ),
    (
        "a start that is done",
        Asked {
            turns: 3,
            command: None,
            records: Some(Kind::Read),
            holds: RECORDS,
            ..START
        },
    ),
    // A Commit and a Prepare take all records for writing with their first turn, and with their second the bytes of
    // opening and of the sequence number. What they hold they keep up to the end of a Commit.
    (
        "a fetch",
        Asked {
            words: &FETCH,
            command: Some(Word::Fetch),
            records: Some(Kind::Read),
            holds: RECORDS,
            ..START
        },
    ),
    (
        "a commit",
        Asked {
            words: &COMMIT,
            command: Some(Word::Commit),
            records: Some(Kind::Read),
            holds: RECORDS,
            ..START
        },
    ),
    (
        "a commit after one turn",
        Asked {
            words: &COMMIT,
            turns: 1,
            command: Some(Word::Commit),
            records: Some(Kind::Write),
            holds: RECORDS,
            ..START
        },
    ),
    (
        "a commit after two turns",
        Asked {
            words: &COMMIT,
            turns: 2,
            command: Some(Word::Commit),
            records: Some(Kind::Write),
            holds: ALL,
            ..START
        },
    ),
    (
        "a commit after five turns",
        Asked {
            words: &COMMIT,
            turns: 5,
            command: Some(Word::Commit),
            records: Some(Kind::Write),
            holds: ALL,
            ..START
        },
    ),
    (
        "a commit after eight turns",
        Asked {
            words: &COMMIT,
            turns: 8,
            command: Some(Word::Commit),
            records: Some(Kind::Write),
            holds: ALL,
            ..START
        },
    ),
    (
        "a prepare",
        Asked {
            words: &PREPARE,
            command: Some(Word::Prepare),
            records: Some(Kind::Read),
            holds: RECORDS,
            ..START
        },
    ),
    (
        "a prepare after one turn",
        Asked {
            words: &PREPARE,
            turns: 1,
            command: Some(Word::Prepare),
            records: Some(Kind::Write),
            holds: RECORDS,
            ..START
        },
    ),
    (
        "a prepare after four turns",
        Asked {
            words: &PREPARE,
            turns: 4,
            command: Some(Word::Prepare),
            records: Some(Kind::Write),
            holds: ALL,
            ..START
        },
    ),
    // A Prepare that is done holds what it took, and a Close is told.
    (
        "a prepare that is done",
        Asked {
            words: &PREPARE,
            turns: 5,
            command: None,
            records: Some(Kind::Write),
            holds: ALL,
            ..START
        },
    ),
    (
        "one whose changes don't count",
        Asked {
            numbered: false,
            words: &PREPARE,
            turns: 5,
            command: None,
            records: Some(Kind::Write),
            holds: UNCOUNTED,
            ..START
        },
    ),
    (
        "a close",
        Asked {
            words: &CLOSE,
            command: Some(Word::Close),
            closes: true,
            records: Some(Kind::Read),
            holds: RECORDS,
            ..START
        },
    ),
];

/// The opener that is left after so many turns of the last of these commands. None where memory is wanting, or where
/// none is left.
fn left_after(
    alloc: Global,
    disk: &mut MemDisk,
    numbered: bool,
    words: &'static [Word],
    turns: u32,
) -> Option<TxnOwner>
    requires { memory_size disk.old ≡ 4096 }
{
    let commands = Commands {
        numbered,
        words,
        most: turns,
        from: usize::MAX,
        moments: &[],
    };
    let (_course, left) = play(alloc, disk, &commands)?;
    left
}

impl Row for Asked {
    fn holds(&self, alloc: Global) -> Option<bool> {
        let holder = left_after(
            alloc,
            &mut stored(alloc)?,
            self.numbered,
            self.words,
            self.turns,
        )?;
        let told = if holder.is_idle() {
            None
        } else {
            holder.told(alloc).ok()
        };
        let want = match &self.command {
            Some(word) => command(alloc, word),
            None => None,
        };
        let holds = [
            holder.holds(0),
            holder.holds(8),
            holder.holds(48),
            holder.holds(4064),
        ];
        let is_so = holder.owner() == 1
            && holder.is_idle() == self.command.is_none()
            && holder.closes() == self.closes
            && holder.records() == self.records;
        holder.end();
        Some(is_so && told == want && holds == self.holds)
    }
}

/// An opener after so many turns of the last of these commands, where changes raise the sequence number, and what its
/// next turn wants. Where memory is wanting for that, its command ends so, and nothing is written.
pub(crate) struct Starved(&'static [Word], u32, Wants);

pub(crate) static STARVED: [(&'static str, Starved); 7] = [
    (
        "a start for the byte of transactions",
        Starved(&[], 0, Wants::Transaction),
    ),
    (
        "a start for all records",
        Starved(&[], 1, Wants::Records(Kind::Read)),
    ),
    (
        "a start that wants nothing",
        Starved(&[], 2, Wants::Nothing),
    ),
    (
        "a commit for all records",
        Starved(&COMMIT, 0, Wants::Records(Kind::Write)),
    ),
    (
        "a commit for the byte of opening",
        Starved(&COMMIT, 1, Wants::Opening { numbered: true }),
    ),
    (
        "a prepare for all records",
        Starved(&PREPARE, 0, Wants::Records(Kind::Write)),
    ),
    (
        "a prepare for the byte of opening",
        Starved(&PREPARE, 1, Wants::Opening { numbered: true }),
    ),
];

impl Row for Starved {
    fn holds(&self, alloc: Global) -> Option<bool> {
        let mut disk = stored(alloc)?;
        let holder = left_after(alloc, &mut disk, true, self.0, self.1)?;
        let wants = holder.wants();
        let is_told = match wants {
            Wants::Nothing => {
                holder.end();
                true
            }
            _ => {
                let told = holder.starve();
                matches!(&told, Turn::Done(Reply::Memory))
            }
        };
        Some(wants == self.2 && is_told && is_stored(alloc, &disk)?)
    }
}

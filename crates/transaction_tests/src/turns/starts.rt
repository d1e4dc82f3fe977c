// Starts over a small file in memory: the locks after each turn, what is in their way, and a sync that fails.

use crate::files::file_of;
use crate::rows::Row;
use crate::told::letters;
use crate::turns::BYTES;
use small_file::HEADER;
use std::alloc::Global;
use tdb_disk::{Call, MemDisk};
use tdb_locks::{Kind, Len, Locks};
use tdb_txn_turns::{StartTurn, Starting};
use tdb_words::Order;

/// A word for what a turn led to, with who is in the way and of which byte, or how deep the transaction is and how long
/// its file; and what opener 1 holds then.
type Told = ((&'static str, u32, u64), [u8; 7]);

/// A turn of opener 1: who loses all locks before it, whether a sync fails in it, what it leads to, and how many syncs
/// were made then.
struct Turn {
    lost: Option<u32>,
    start: Starting,
    fails: bool,
    told: Told,
    syncs: u64,
}

/// The first turn where nothing is in its way: it holds byte 8 for writing.
const BEGUN: Turn = Turn {
    lost: None,
    start: Starting::Begun,
    fails: false,
    told: (("step", 0, 0), *b"-w-----"),
    syncs: 0,
};

/// The second one, where opener 1 holds byte 8: it holds all records for reading too.
const CLAIMED: Turn = Turn {
    start: Starting::Claimed,
    told: (("step", 0, 0), *b"-w--rrr"),
    ..BEGUN
};

/// The third one: it syncs, and leaves a transaction on the file as it is.
const READING: Turn = Turn {
    start: Starting::Reading,
    told: (("done", 0, 696), *b"-w--rrr"),
    syncs: 1,
    ..BEGUN
};

/// Whether opener 1 holds all records for reading, the bytes that others hold, and the turns that are taken then.
pub(crate) struct Start {
    reads: bool,
    others: &'static [(u32, u32, Kind)],
    turns: &'static [Turn],
}

pub(crate) static STARTS: [(&'static str, Start); 4] = [
    (
        "a start",
        Start {
            reads: false,
            others: &[],
            turns: &[BEGUN, CLAIMED, READING],
        },
    ),
    // A turn that is blocked changes nothing, and is taken again.
    (
        "another transaction, and its end",
        Start {
            reads: false,
            others: &[(2, 8, Kind::Write)],
            turns: &[
                Turn {
                    told: (("blocked", 2, 8), *b"-------"),
                    ..BEGUN
                },
                Turn {
                    lost: Some(2),
                    ..BEGUN
                },
            ],
        },
    ),
    // In the way of the second turn is who writes a chain or a record, first the least byte, but nobody who reads one.
    (
        "who writes a chain or a record",
        Start {
            reads: false,
            others: &[
                (2, 4064, Kind::Write),
                (3, 448, Kind::Write),
                (4, 168, Kind::Read),
            ],
            turns: &[
                Turn {
                    told: (("blocked", 3, 448), *b"-------"),
                    ..CLAIMED
                },
                Turn {
                    lost: Some(3),
                    told: (("blocked", 2, 4064), *b"-------"),
                    ..CLAIMED
                },
                Turn {
                    lost: Some(2),
                    told: (("step", 0, 0), *b"----rrr"),
                    ..CLAIMED
                },
            ],
        },
    ),
    // Where the sync fails there is no transaction, and the locks stay.
    (
        "a sync that fails",
        Start {
            reads: true,
            others: &[],
            turns: &[Turn {
                fails: true,
                told: (("io", 0, 0), *b"----rrr"),
                syncs: 0,
                ..READING
            }],
        },
    ),
];

impl Turn {
    /// What the turn leads to. None where memory is wanting.
    fn take(&self, alloc: Global, disk: &mut MemDisk, locks: &mut Locks) -> Option<Told> {
        if let Some(owner) = self.lost {
            locks.drop_owner(owner);
        }
        if self.fails {
            disk.fail(Call::Sync, 0).ok()?;
        }
        let word = match self.start.step(alloc, disk, &HEADER, locks, 1) {
            Ok(StartTurn::Step(_)) => ("step", 0, 0),
            Ok(StartTurn::Blocked { owner, byte }) => ("blocked", owner, byte),
            Ok(StartTurn::Memory) => return None,
            Ok(StartTurn::Done(txn)) => ("done", txn.depth(), txn.length()),
            Err(_) => ("io", 0, 0),
        };
        Some((word, letters(locks, 1, BYTES)))
    }
}

impl Row for Start {
    fn holds(&self, alloc: Global) -> Option<bool> {
        let mut locks = Locks::new(alloc);
        if self.reads {
            locks.try_lock(1, 168, Len::ToEnd, Kind::Read).ok()?;
        }
        for (owner, byte, kind) in self.others {
            let byte = u64::from(*byte);
            locks.try_lock(*owner, byte, Len::Bytes(1), *kind).ok()?;
        }
        let image = file_of(alloc, Order::Little, 131, 696, &[], &[])?;
        let mut disk = MemDisk::new(alloc, &image).ok()?;
        for turn in self.turns {
            let told = turn.take(alloc, &mut disk, &mut locks)?;
            if told != turn.told || disk.syncs() != turn.syncs {
                return Some(false);
            }
        }
        Some(true)
    }
}

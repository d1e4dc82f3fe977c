// Moves through a small big-endian file of 131 chains in memory, and a purge in it.

use crate::files::file_of;
use crate::rows::Row;
use small_file::Word;
use std::alloc::Global;
use tdb_disk::{Call, MemDisk};
use tdb_locks::{Held, Kind, Len, Locks};
use tdb_space::Direct;
use tdb_walk::{Live, Standing, WalkRefusal, Way, move_on, purge_dead};
use tdb_words::{DEAD, FREE, HashKind, Header, Order, USED};

const HEADER: Header = Header {
    order: Order::Big,
    hash: HashKind::Old,
    hash_size: 131,
    recovery_start: 0,
    sequence: 0,
};

/// The stock library's hashes of the keys "a" and "b", and of the empty key: chains 7, 70 and 31.
const HASH_OF_A: u32 = 0x094A_72E9;

const HASH_OF_B: u32 = 0x4B10_C154;

const HASH_OF_EMPTY: u32 = 12345;

/// The heads of chains 7, 31 and 70. Chain 7 has a dead record of "a" and one that is used, the others have one record
/// each.
const WORDS: [Word; 31] = [
    (200, 696),
    (296, 760),
    (452, 792),
    (696, 728),
    (700, 8),
    (704, 1),
    (708, 1),
    (712, HASH_OF_A),
    (716, DEAD),
    (720, 0x6130_4242),
    (724, 32),
    (728, 0),
    (732, 8),
    (736, 1),
    (740, 1),
    (744, HASH_OF_A),
    (748, USED),
    (752, 0x6131_4242),
    (756, 32),
    (764, 8),
    (772, 2),
    (776, HASH_OF_EMPTY),
    (780, USED),
    (784, 0x7879_4242),
    (788, 32),
    (796, 8),
    (800, 1),
    (808, HASH_OF_B),
    (812, USED),
    (816, 0x6242_4242),
    (820, 32),
];

/// The file, with other words at some places.
pub(crate) fn small(alloc: Global, words: &[Word]) -> Option<MemDisk> {
    MemDisk::new(alloc, &file_of(alloc, Order::Big, 131, 824, &WORDS, words)?).ok()
}

/// The chain and the offset of the record that a move of opener 1 comes to, or the chain, the opener and the byte that
/// block it.
fn moved(
    alloc: Global,
    disk: &mut MemDisk,
    locks: &mut Locks,
    place: Standing,
) -> Result<(u32, u32, u64), WalkRefusal> {
    let own = Held::new(alloc);
    let mut s = Direct::new(disk, &HEADER);
    match move_on(&mut s, locks, 1, &own, place)? {
        Way::Met(Live { chain, off, .. }) => Ok((chain, off, 0)),
        Way::Blocked { chain, owner, byte } => Ok((chain, owner, byte)),
        Way::End => Ok((131, 0, 0)),
    }
}

/// Whether opener 2 holds the bytes of chains 30 and 31 for writing, and that of chain 7 for reading; which read fails
/// first, if any does. From where opener 1 moves on, and where that leads.
pub(crate) struct Move {
    locked: bool,
    fails: Option<u64>,
    place: Standing,
    want: (u32, u32, u64),
}

const BEFORE_ALL: Move = Move {
    locked: false,
    fails: None,
    place: Standing::Before(0),
    want: (7, 728, 0),
};

pub(crate) static MOVES: [(&'static str, Move); 14] = [
    ("before all chains", BEFORE_ALL),
    (
        "on a dead record",
        Move {
            place: Standing::On(7, 696),
            ..BEFORE_ALL
        },
    ),
    (
        "on the last record of chain 7",
        Move {
            place: Standing::On(7, 728),
            want: (31, 760, 0),
            ..BEFORE_ALL
        },
    ),
    (
        "on the record of chain 31",
        Move {
            place: Standing::On(31, 760),
            want: (70, 792, 0),
            ..BEFORE_ALL
        },
    ),
    (
        "before chain 70",
        Move {
            place: Standing::Before(70),
            want: (70, 792, 0),
            ..BEFORE_ALL
        },
    ),
    (
        "on the last record",
        Move {
            place: Standing::On(70, 792),
            want: (131, 0, 0),
            ..BEFORE_ALL
        },
    ),
    (
        "past the last chain",
        Move {
            place: Standing::Past,
            want: (131, 0, 0),
            ..BEFORE_ALL
        },
    ),
    (
        "to a chain that another one reads",
        Move {
            locked: true,
            place: Standing::Before(0),
            want: (7, 728, 0),
            ..BEFORE_ALL
        },
    ),
    (
        "from there to one that it writes",
        Move {
            locked: true,
            place: Standing::On(7, 728),
            want: (31, 2, 292),
            ..BEFORE_ALL
        },
    ),
    (
        "before a chain that it writes",
        Move {
            locked: true,
            place: Standing::Before(31),
            want: (31, 2, 292),
            ..BEFORE_ALL
        },
    ),
    (
        "past the chains that it writes",
        Move {
            locked: true,
            place: Standing::Before(32),
            want: (70, 792, 0),
            ..BEFORE_ALL
        },
    ),
    // The heads are read at once, and then two records.
    (
        "a read of the heads that fails",
        Move {
            fails: Some(0),
            ..BEFORE_ALL
        },
    ),
    (
        "one of the dead record",
        Move {
            fails: Some(1),
            ..BEFORE_ALL
        },
    ),
    (
        "one of the used record",
        Move {
            fails: Some(2),
            ..BEFORE_ALL
        },
    ),
];

impl Row for Move {
    // A move takes and leaves no lock. A read that fails ends it, and it is made anew.
    fn holds(&self, alloc: Global) -> Option<bool> {
        let mut locks = Locks::new(alloc);
        let mut pieces = 0;
        if self.locked {
            locks.try_lock(2, 288, Len::Bytes(5), Kind::Write).ok()?;
            locks.try_lock(2, 196, Len::Bytes(1), Kind::Read).ok()?;
            pieces = 2;
        }
        let mut disk = small(alloc, &[])?;
        if let Some(nth) = self.fails {
            disk.fail(Call::Read, nth).ok()?;
            let told = moved(alloc, &mut disk, &mut locks, self.place);
            if told != Err(WalkRefusal::Io) || locks.piece_count() != pieces {
                return Some(false);
            }
        }
        let told = moved(alloc, &mut disk, &mut locks, self.place);
        Some(told == Ok(self.want) && locks.piece_count() == pieces)
    }
}

/// The words that purges change: the head of chain 7 leads past the dead record, which is the only free one then.
const PURGED: [Word; 7] = [
    (200, 728),
    (168, 696),
    (696, 0),
    (704, 0),
    (708, 0),
    (712, 0),
    (716, FREE),
];

/// Purges of records in chains, one after the other, of which a call fails, or none.
pub(crate) struct Purge(Option<(Call, u64)>, &'static [(u32, u32)]);

const DEAD_ONE: &[(u32, u32)] = &[(7, 696)];

// The word before the record and the head of the free list are written as words, and the free record's header and
// tailer besides.
pub(crate) static PURGES: [(&'static str, Purge); 6] = [
    (
        "a dead record",
        Purge(None, &[(7, 728), (31, 696), (7, 696)]),
    ),
    (
        "a read of the chain",
        Purge(Some((Call::Read, 1)), DEAD_ONE),
    ),
    (
        "the word before the record",
        Purge(Some((Call::WriteWord, 0)), DEAD_ONE),
    ),
    ("the first write", Purge(Some((Call::Write, 0)), DEAD_ONE)),
    ("the second write", Purge(Some((Call::Write, 1)), DEAD_ONE)),
    (
        "the head of the free list",
        Purge(Some((Call::WriteWord, 1)), DEAD_ONE),
    ),
];

impl Row for Purge {
    // A call that fails ends the purge. Where no dead record of the chain stands, nothing is changed.
    fn holds(&self, alloc: Global) -> Option<bool> {
        let mut disk = small(alloc, &[])?;
        let mut want = Ok(());
        if let Some((call, nth)) = self.0 {
            disk.fail(call, nth).ok()?;
            want = Err(WalkRefusal::Io);
        }
        let mut s = Direct::new(&mut disk, &HEADER);
        for (chain, off) in self.1 {
            if purge_dead(&mut s, *chain, *off) != want {
                return Some(false);
            }
        }
        Some(want.is_err() || disk.as_slice() == small(alloc, &PURGED)?.as_slice())
    }
}

// A cursor over a file in memory in which another opener has killed its record, and walks through a small one.

use crate::cursors::moves::small;
use crate::files::{file_of, put_words, stored};
use crate::openers::{Act, Kinds, Openers, Turns};
use crate::rows::Row;
use crate::told::{Told, is_told};
use small_file::{RECORD, Word};
use std::alloc::Global;
use tdb_disk::{Call, MemDisk};
use tdb_space::Io;
use tdb_walk::{Goal, Walk};
use tdb_words::{DEAD, FREE, Order, USED};

/// The stock library's hash of the key "a", which is filed in chain 7.
const HASH: u32 = 0x094A_72E9;

/// It was deleted while a cursor stood on it, and the value "2" was stored at 4032.
const KILLED: [Word; 12] = [
    (200, 4032),
    (700, 3312),
    (4028, 3336),
    (4032, 4064),
    (4036, 8),
    (4040, 1),
    (4044, 1),
    (4048, HASH),
    (4052, USED),
    (4056, 0x4242_3261),
    (4060, 32),
    (4084, DEAD),
];

/// The words that a purge changes: the next word of the record at 4032, the head of the free list, and the header of
/// the free record.
const PURGED: [Word; 7] = [
    (4032, 0),
    (168, 4064),
    (4064, 696),
    (4072, 0),
    (4076, 0),
    (4080, 0),
    (4084, FREE),
];

/// What is held after each turn of a command that purges, and of a Next that doesn't.
const PURGING: [Kinds; 3] = [*b"w-r-", *b"wwr-", *b"----"];

const READING: [Kinds; 2] = [*b"r-r-", *b"----"];

/// The file in which the record is dead, and was purged then or not.
fn killed(alloc: Global, is_purged: bool) -> Option<MemDisk> {
    let mut image = file_of(alloc, Order::Little, 131, 4096, &RECORD, &KILLED)?;
    if is_purged {
        put_words(&mut image, Order::Little, &PURGED);
    }
    MemDisk::new(alloc, &image).ok()
}

/// The next command of opener 1, whose cursor has come to the record before that was killed.
fn leave_killed(
    alloc: Global,
    openers: &mut Openers,
    disk: &mut MemDisk,
    walk: &mut Walk,
    act: Act,
) -> Option<Turns> {
    openers.take_turns(&mut stored(alloc)?, 1, walk, Act::Walk(Goal::First), 8)?;
    openers.take_turns(disk, 1, walk, act, 8)
}

/// A command of an opener whose cursor stands on the dead record, where another one may stand on it too, and the file
/// may be opened for reading alone. What is replied, what is held after each turn, whether the record is purged, and
/// where the cursor stands then, or 0.
pub(crate) struct Leave {
    goal: Goal,
    stood: bool,
    read_only: bool,
    reply: Told,
    kinds: &'static [Kinds],
    purges: bool,
    spot: u32,
}

/// Next, with its locks, finds no record behind the dead one, and purges it.
const NEXT: Leave = Leave {
    goal: Goal::Next,
    stood: false,
    read_only: false,
    reply: Told::End,
    kinds: &PURGING,
    purges: true,
    spot: 0,
};

pub(crate) static LEAVES: [(&'static str, Leave); 5] = [
    ("next", NEXT),
    (
        "leave",
        Leave {
            goal: Goal::Leave,
            reply: Told::Done,
            ..NEXT
        },
    ),
    (
        "first, which begins anew",
        Leave {
            goal: Goal::First,
            reply: Told::Pair(b"a", b"2"),
            spot: 4032,
            ..NEXT
        },
    ),
    (
        "next from a record on which another cursor stands",
        Leave {
            stood: true,
            kinds: &READING,
            purges: false,
            ..NEXT
        },
    ),
    (
        "next in a file opened for reading alone",
        Leave {
            read_only: true,
            kinds: &READING,
            purges: false,
            ..NEXT
        },
    ),
];

impl Row for Leave {
    fn holds(&self, alloc: Global) -> Option<bool> {
        let mut openers = Openers::new(alloc, Order::Little, 131)?;
        openers.read_only = self.read_only;
        if self.stood {
            openers.spots.set(1, 4064);
        }
        let mut disk = killed(alloc, false)?;
        let mut walk = Walk::new();
        let act = Act::Walk(self.goal);
        let turns = leave_killed(alloc, &mut openers, &mut disk, &mut walk, act)?;
        Some(
            turns.count == self.kinds.len()
                && turns.hold(self.kinds, turns.count)
                && is_told(&self.reply, &turns.end)
                && disk.as_slice() == killed(alloc, self.purges)?.as_slice()
                && walk.spot() == self.spot,
        )
    }
}

/// Calls of a Next that purges: how many of them are made in its first turn, and how many in all. The others are made
/// in its third turn.
pub(crate) struct Fault(Call, u64, u64);

pub(crate) static FAULTS: [(&'static str, Fault); 3] = [
    ("reads", Fault(Call::Read, 1, 9)),
    ("words", Fault(Call::WriteWord, 0, 2)),
    ("writes", Fault(Call::Write, 0, 2)),
];

impl Row for Fault {
    // Each of the calls ends the Next in its turn where it fails, and the cursor stands where it stood.
    fn holds(&self, alloc: Global) -> Option<bool> {
        for nth in 0..self.2 {
            let mut openers = Openers::new(alloc, Order::Little, 131)?;
            let mut disk = killed(alloc, false)?;
            disk.fail(self.0, nth).ok()?;
            let mut walk = Walk::new();
            let act = Act::Walk(Goal::Next);
            let turns = leave_killed(alloc, &mut openers, &mut disk, &mut walk, act)?;
            let count = if nth < self.1 { 1 } else { 3 };
            if turns.end != Err(Io) || walk.spot() != 4064 || turns.count != count {
                return Some(false);
            }
        }
        Some(true)
    }
}

/// Goals of a cursor in a file of three records: whether another process has written over the key "b" before each, the
/// record on which the cursor stands after it, or 0, and how many pieces of locks are held then.
pub(crate) struct Walks(&'static [(Goal, bool, u32, u32)]);

pub(crate) static WALKS: [(&'static str, Walks); 2] = [
    // A cursor holds the byte of its record alone, and nothing past the end and after a leave, from where First begins
    // anew.
    (
        "three records",
        Walks(&[
            (Goal::First, false, 728, 1),
            (Goal::First, false, 728, 1),
            (Goal::Next, false, 760, 1),
            (Goal::Next, false, 792, 1),
            (Goal::Next, false, 0, 0),
            (Goal::First, false, 728, 1),
            (Goal::Leave, false, 0, 0),
            (Goal::First, false, 728, 1),
        ]),
    ),
    // The key that is written is "c", which the stock library files in chain 2: the walk ends there.
    (
        "a key of another chain",
        Walks(&[
            (Goal::First, false, 728, 1),
            (Goal::Next, false, 760, 1),
            (Goal::Next, true, 0, 0),
        ]),
    ),
];

impl Row for Walks {
    fn holds(&self, alloc: Global) -> Option<bool> {
        let mut disk = small(alloc, &[])?;
        let mut written = small(alloc, &[(816, 0x6342_4242)])?;
        let mut openers = Openers::new(alloc, Order::Big, 131)?;
        let mut walk = Walk::new();
        for (goal, writes, spot, pieces) in self.0 {
            let now = if *writes { &mut written } else { &mut disk };
            openers.take_turns(now, 1, &mut walk, Act::Walk(*goal), 8)?;
            if walk.spot() != *spot || openers.locks.piece_count() != *pieces {
                return Some(false);
            }
        }
        Some(true)
    }
}

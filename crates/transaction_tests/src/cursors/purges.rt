// Calls that fail while an opener leaves a dead record, which is purged with that.

use crate::cursors::pairs::{FETCH_NEW, STORE_ANEW, steps_hold};
use crate::files::stored;
use crate::openers::{Act, BYTES, Kinds, Openers};
use crate::rows::Row;
use crate::told::{Told, is_told, letters};
use std::alloc::Global;
use tdb_disk::{Call, MemDisk};
use tdb_walk::{Goal, Walk};
use tdb_words::Order;

/// How many turns a command takes by which opener 1 leaves its dead record, and what the last of them tells; and where
/// a call fails in it, what the opener holds then.
struct Leaving {
    count: usize,
    told: Told,
    kinds: Option<Kinds>,
}

/// A call fails in the first turn, where the dead record is read, or in the third one, which purges it.
static READING: Leaving = Leaving {
    count: 1,
    told: Told::Io,
    kinds: Some(*b"--r-"),
};

static PURGING: Leaving = Leaving {
    count: 3,
    told: Told::Io,
    kinds: Some(*b"wwr-"),
};

/// No call fails in a First, which shows the new record, or in a close.
const SHOWING: Leaving = Leaving {
    count: 3,
    told: Told::Pair(b"a", b"2"),
    kinds: None,
};

const CLOSING: Leaving = Leaving {
    told: Told::Done,
    ..SHOWING
};

/// Whether opener 1 leaves its dead record in these turns, where the call of a kind with a number is to fail. Where one
/// fails in them, the cursor and its entry stand where they stood, and the file gives the new value for the key.
fn leaves(alloc: Global, act: Act, call: Call, nth: u64, want: &Leaving) -> Option<bool> {
    let mut disk = stored(alloc)?;
    let mut openers = Openers::new(alloc, Order::Little, 131)?;
    let (mut walk, mut other) = (Walk::new(), Walk::new());
    if !steps_hold(&mut disk, &mut openers, &mut walk, &mut other, &STORE_ANEW)? {
        return Some(false);
    }
    let mut disk = MemDisk::new(alloc, disk.as_slice()).ok()?;
    disk.fail(call, nth).ok()?;
    let turns = openers.take_turns(&mut disk, 1, &mut walk, act, 8)?;
    let is_so = turns.count == want.count && is_told(&want.told, &turns.end);
    let Some(kinds) = want.kinds else {
        return Some(is_so);
    };
    let stands = turns.live && walk.spot() == 4064 && openers.spots.has(4064);
    let keeps = letters(&openers.locks, 1, BYTES) == kinds;
    let shows = match &walk.shown {
        Some(key) => key.as_slice() == b"a".as_slice(),
        None => false,
    };
    let mut others = Openers::new(alloc, Order::Little, 131)?;
    let (mut walk, mut other) = (Walk::new(), Walk::new());
    let mut disk = MemDisk::new(alloc, disk.as_slice()).ok()?;
    let gives = steps_hold(&mut disk, &mut others, &mut walk, &mut other, &FETCH_NEW)?;
    Some(is_so && stands && keeps && shows && gives)
}

/// The number of the first call of a kind, from a number on, that doesn't fail in these turns. At most 64.
fn end_of(alloc: Global, act: Act, call: Call, from: u64, want: &Leaving) -> Option<u64> {
    for nth in from..64 {
        if !leaves(alloc, act, call, nth, want)? {
            return Some(nth);
        }
    }
    Some(64)
}

/// A command, the turns of it in which nothing fails, a kind of call, and whether such a call reads the dead record.
pub(crate) struct Purged(Act, Leaving, Call, bool);

const FIRST: Act = Act::Walk(Goal::First);

pub(crate) static PURGED: [(&'static str, Purged); 6] = [
    ("reads of a first", Purged(FIRST, SHOWING, Call::Read, true)),
    (
        "words of a first",
        Purged(FIRST, SHOWING, Call::WriteWord, false),
    ),
    (
        "writes of a first",
        Purged(FIRST, SHOWING, Call::Write, false),
    ),
    (
        "reads of a close",
        Purged(Act::Close, CLOSING, Call::Read, true),
    ),
    (
        "words of a close",
        Purged(Act::Close, CLOSING, Call::WriteWord, false),
    ),
    (
        "writes of a close",
        Purged(Act::Close, CLOSING, Call::Write, false),
    ),
];

impl Row for Purged {
    // The calls, each in turn, fail first where the dead record is read, where such a call does that, then where it is
    // purged, and then no more.
    fn holds(&self, alloc: Global) -> Option<bool> {
        let read = end_of(alloc, self.0, self.2, 0, &READING)?;
        let purged = end_of(alloc, self.0, self.2, read, &PURGING)?;
        let ends = leaves(alloc, self.0, self.2, purged, &self.1)?;
        Some(ends && (read > 0) == self.3 && purged > read)
    }
}

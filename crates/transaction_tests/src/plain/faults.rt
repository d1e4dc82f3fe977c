// The locks after each turn of a plain command, and what a failing call leaves.

use crate::files::file_of;
use crate::openers::{Act, Kinds, Openers, Turns, Word};
use crate::rows::Row;
use crate::told::{Told, is_told};
use std::alloc::Global;
use tdb_disk::{Call, MemDisk};
use tdb_locks::{Reply, Turn};
use tdb_space::Io;
use tdb_steps::Flag;
use tdb_walk::Walk;
use tdb_words::Order;

/// What the file gives for "a" once a call has failed: the value before the command, the one that it leaves, none, or
/// something else.
#[derive(Clone, Copy, PartialEq, Eq)]
pub(crate) enum Gives {
    Old,
    New,
    Nothing,
    Part,
}

/// A command on "a", on whose record a cursor may stand, and what a fetch of "a" is told before it and after it. What
/// its opener holds after each of the turns, and the turns in which a call of the disk may fail, with what the file
/// gives then.
pub(crate) struct Case {
    act: Act,
    stood: bool,
    old: Told,
    new: Told,
    kinds: &'static [Kinds],
    faults: &'static [(usize, Gives)],
}

const LOOKED: [Kinds; 2] = [*b"r---", *b"----"];

const IN_PLACE: [Kinds; 2] = [*b"w---", *b"----"];

const CHANGED: [Kinds; 6] = [*b"w---", *b"w---", *b"ww--", *b"ww--", *b"ww--", *b"----"];

const REPLACED: [Kinds; 7] = [
    *b"w---", *b"w---", *b"ww--", *b"ww--", *b"ww--", *b"ww--", *b"----",
];

const WIPED: [Kinds; 4] = [*b"w-ww", *b"wwww", *b"wwww", *b"----"];

const LOOKING: [(usize, Gives); 1] = [(2, Gives::Old)];

// The value is written before its length.
const UPDATING: [(usize, Gives); 3] = [(2, Gives::Old), (2, Gives::Part), (2, Gives::New)];

const AT_ONCE: [(usize, Gives); 2] = [(2, Gives::Old), (2, Gives::New)];

const ADDING: [(usize, Gives); 4] = [
    (2, Gives::Old),
    (4, Gives::Old),
    (5, Gives::Old),
    (6, Gives::New),
];

// The old record is taken out before the new one is linked.
const REPLACING: [(usize, Gives); 6] = [
    (2, Gives::Old),
    (4, Gives::Old),
    (5, Gives::Old),
    (5, Gives::Nothing),
    (6, Gives::New),
    (7, Gives::New),
];

// The old record is marked dead before the new one is linked.
const MARKING: [(usize, Gives); 5] = [
    (2, Gives::Old),
    (4, Gives::Old),
    (5, Gives::Old),
    (5, Gives::Nothing),
    (6, Gives::New),
];

const DELETING: [(usize, Gives); 4] = [
    (2, Gives::Old),
    (4, Gives::Old),
    (5, Gives::New),
    (6, Gives::New),
];

const WIPING: [(usize, Gives); 3] = [(3, Gives::Old), (3, Gives::New), (4, Gives::New)];

const ONE: Told = Told::Value(b"1");

const OTHER: Told = Told::Value(b"23");

const LONGER: Told = Told::Value(b"long");

const BOTH: Told = Told::Value(b"12");

const JOINED: Told = Told::Value(b"1long");

pub(crate) static CASES: [(&'static str, Case); 17] = [
    (
        "fetch",
        Case {
            act: Act::Plain(Word::Fetch, b"a", b""),
            stood: false,
            old: ONE,
            new: ONE,
            kinds: &LOOKED,
            faults: &LOOKING,
        },
    ),
    (
        "has of no key",
        Case {
            act: Act::Plain(Word::Has, b"a", b""),
            stood: false,
            old: Told::Missing,
            new: Told::Missing,
            kinds: &LOOKED,
            faults: &LOOKING,
        },
    ),
    (
        "store",
        Case {
            act: Act::Plain(Word::Store(Flag::Replace), b"a", b"1"),
            stood: false,
            old: Told::Missing,
            new: ONE,
            kinds: &CHANGED,
            faults: &ADDING,
        },
    ),
    (
        "store of one byte over one",
        Case {
            act: Act::Plain(Word::Store(Flag::Replace), b"a", b"23"),
            stood: false,
            old: ONE,
            new: OTHER,
            kinds: &IN_PLACE,
            faults: &UPDATING,
        },
    ),
    (
        "longer store",
        Case {
            act: Act::Plain(Word::Store(Flag::Replace), b"a", b"long"),
            stood: false,
            old: ONE,
            new: LONGER,
            kinds: &REPLACED,
            faults: &REPLACING,
        },
    ),
    (
        "longer store under a cursor",
        Case {
            act: Act::Plain(Word::Store(Flag::Replace), b"a", b"long"),
            stood: true,
            old: ONE,
            new: LONGER,
            kinds: &CHANGED,
            faults: &MARKING,
        },
    ),
    (
        "insert",
        Case {
            act: Act::Plain(Word::Store(Flag::Insert), b"a", b"1"),
            stood: false,
            old: Told::Missing,
            new: ONE,
            kinds: &CHANGED,
            faults: &ADDING,
        },
    ),
    (
        "insert over a value",
        Case {
            act: Act::Plain(Word::Store(Flag::Insert), b"a", b"2"),
            stood: false,
            old: ONE,
            new: ONE,
            kinds: &IN_PLACE,
            faults: &LOOKING,
        },
    ),
    (
        "longer modify",
        Case {
            act: Act::Plain(Word::Store(Flag::Modify), b"a", b"long"),
            stood: false,
            old: ONE,
            new: LONGER,
            kinds: &REPLACED,
            faults: &REPLACING,
        },
    ),
    (
        "modify of no key",
        Case {
            act: Act::Plain(Word::Store(Flag::Modify), b"a", b"2"),
            stood: false,
            old: Told::Missing,
            new: Told::Missing,
            kinds: &IN_PLACE,
            faults: &LOOKING,
        },
    ),
    (
        "append to no key",
        Case {
            act: Act::Plain(Word::Append, b"a", b"1"),
            stood: false,
            old: Told::Missing,
            new: ONE,
            kinds: &CHANGED,
            faults: &ADDING,
        },
    ),
    (
        "append",
        Case {
            act: Act::Plain(Word::Append, b"a", b"2"),
            stood: false,
            old: ONE,
            new: BOTH,
            kinds: &IN_PLACE,
            faults: &AT_ONCE,
        },
    ),
    (
        "longer append",
        Case {
            act: Act::Plain(Word::Append, b"a", b"long"),
            stood: false,
            old: ONE,
            new: JOINED,
            kinds: &REPLACED,
            faults: &REPLACING,
        },
    ),
    (
        "delete",
        Case {
            act: Act::Plain(Word::Delete, b"a", b""),
            stood: false,
            old: ONE,
            new: Told::Missing,
            kinds: &CHANGED,
            faults: &DELETING,
        },
    ),
    (
        "delete under a cursor",
        Case {
            act: Act::Plain(Word::Delete, b"a", b""),
            stood: true,
            old: ONE,
            new: Told::Missing,
            kinds: &IN_PLACE,
            faults: &AT_ONCE,
        },
    ),
    (
        "delete of no key",
        Case {
            act: Act::Plain(Word::Delete, b"a", b""),
            stood: false,
            old: Told::Missing,
            new: Told::Missing,
            kinds: &IN_PLACE,
            faults: &LOOKING,
        },
    ),
    (
        "wipe",
        Case {
            act: Act::Plain(Word::Wipe, b"a", b""),
            stood: false,
            old: ONE,
            new: Told::Missing,
            kinds: &WIPED,
            faults: &WIPING,
        },
    ),
];

/// Does a command of opener 1 on a big-endian file, where a cursor may stand on its first record.
fn run(alloc: Global, disk: &mut MemDisk, act: Act, stood: bool, counts: bool) -> Option<Turns> {
    let mut openers = Openers::new(alloc, Order::Big, 131)?;
    openers.counts = counts;
    if stood {
        openers.spots.set(1, 4064);
    }
    openers.take_turns(disk, 1, &mut Walk::new(), act, 8)
}

/// Marks one of the faults as seen. False where it is none of them.
fn mark(faults: &[(usize, Gives)], seen: &mut [bool; 6], fault: (usize, Gives)) -> bool {
    for i in 0..faults.len().min(6) {
        if faults[i] == fault {
            seen[i] = true;
            return true;
        }
    }
    false
}

impl Case {
    /// The file before the command.
    fn before(&self, alloc: Global) -> Option<MemDisk> {
        let image = file_of(alloc, Order::Big, 131, 696, &[], &[])?;
        let mut disk = MemDisk::new(alloc, &image).ok()?;
        if let Told::Value(old) = &self.old {
            let store = Act::Plain(Word::Store(Flag::Replace), b"a", *old);
            run(alloc, &mut disk, store, false, false)?;
        }
        MemDisk::new(alloc, disk.as_slice()).ok()
    }

    /// What the file gives.
    fn given(&self, alloc: Global, disk: &mut MemDisk) -> Option<Gives> {
        let fetch = Act::Plain(Word::Fetch, b"a", b"");
        let end = run(alloc, disk, fetch, false, false)?.end;
        Some(if is_told(&self.old, &end) {
            Gives::Old
        } else if is_told(&self.new, &end) {
            Gives::New
        } else if matches!(&end, Ok(Turn::Done(Reply::KeyMissing))) {
            Gives::Nothing
        } else {
            Gives::Part
        })
    }

    /// Runs the command with each call of this kind failing in turn, and marks the faults that are seen. False where
    /// one isn't among those of the command, or the locks aren't those of the turn before.
    fn fail_each(&self, alloc: Global, call: Call, seen: &mut [bool; 6]) -> Option<bool> {
        for nth in 0..64 {
            let mut disk = self.before(alloc)?;
            disk.fail(call, nth).ok()?;
            let turns = run(alloc, &mut disk, self.act, self.stood, true)?;
            if turns.end != Err(Io) {
                return Some(true);
            }
            let last = turns.count.saturating_sub(1);
            let keeps = last > 0
                && turns.hold(self.kinds, last)
                && turns.kinds.get(last) == turns.kinds.get(last - 1);
            let gives = self.given(alloc, &mut disk)?;
            if !keeps || !mark(self.faults, seen, (turns.count, gives)) {
                return Some(false);
            }
        }
        Some(false)
    }
}

impl Row for Case {
    // Its locks are these, and calls that fail leave what they may.
    fn holds(&self, alloc: Global) -> Option<bool> {
        let turns = run(alloc, &mut self.before(alloc)?, self.act, self.stood, true)?;
        let mut is_so = turns.count == self.kinds.len() && turns.hold(self.kinds, turns.count);
        let mut seen = [false; 6];
        for call in [
            Call::Len,
            Call::Read,
            Call::Write,
            Call::WriteWord,
            Call::Grow,
        ] {
            is_so = is_so && self.fail_each(alloc, call, &mut seen)?;
        }
        let mut wanted = [false; 6];
        for i in 0..self.faults.len().min(6) {
            wanted[i] = true;
        }
        Some(is_so && seen == wanted)
    }
}

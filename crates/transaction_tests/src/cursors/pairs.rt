// Rows of what two openers do over a small file in memory, turn by turn: cursors, and plain commands beside them.

use crate::files::file_of;
use crate::openers::{Act, Openers, Word};
use crate::rows::Row;
use crate::told::{Told, is_told};
use small_file::{RECORD, Word as FileWord};
use std::alloc::Global;
use tdb_disk::{Call, MemDisk};
use tdb_steps::Flag;
use tdb_walk::{Goal, Walk};
use tdb_words::{DEAD, FREE, Order, USED};

const REPLACE: Word = Word::Store(Flag::Replace);

/// Whether the second opener does something, or the first; what it does, how many turns that takes, of which all but
/// the last are steps, and what the last one tells; whether a cursor stands on the record at 4064 then, and how many
/// bytes the turns read, where that is known.
pub(crate) struct Step {
    second: bool,
    act: Act,
    turns: usize,
    told: Told,
    stands: bool,
    reads: Option<u64>,
}

/// A file of so many chains and of this length, with words behind its header, of which a call fails. What openers do in
/// turn, whether no lock is left, and the words that have changed then, where they are looked at.
pub(crate) struct Pair {
    chains: u32,
    len: usize,
    words: &'static [FileWord],
    failing: Option<(Call, u64)>,
    steps: &'static [Step],
    is_bare: bool,
    left: Option<&'static [FileWord]>,
}

/// A command of the first opener's cursor over the record at 4064, that shows it.
const FIRST: Step = Step {
    second: false,
    act: Act::Walk(Goal::First),
    turns: 1,
    told: Told::Pair(b"a", b"1"),
    stands: true,
    reads: None,
};

/// Opener 2 deletes the key "a", and stores it anew. The dead record stays under the cursor of opener 1.
const DELETE: Step = Step {
    second: true,
    act: Act::Plain(Word::Delete, b"a", b""),
    turns: 2,
    told: Told::Done,
    ..FIRST
};

const STORE: Step = Step {
    second: true,
    act: Act::Plain(REPLACE, b"a", b"2"),
    turns: 6,
    told: Told::Done,
    ..FIRST
};

/// The new record, and the free list: what was purged, and the record from which the new one was cut.
const PURGED: [FileWord; 19] = [
    (168, 4064),
    (200, 4032),
    (700, 3312),
    (4028, 3336),
    (4032, 0),
    (4036, 8),
    (4040, 1),
    (4044, 1),
    (4048, 0x094A_72E9),
    (4052, USED),
    (4056, 0x4242_3261),
    (4060, 32),
    (4064, 696),
    (4068, 8),
    (4072, 0),
    (4076, 0),
    (4080, 0),
    (4084, FREE),
    (4092, 32),
];

/// One free record is left, in which the purged one can be seen still.
const EMPTIED: [FileWord; 4] = [(200, 0), (700, 3376), (4084, DEAD), (4092, 3400)];

const WIPED: [FileWord; 3] = [(200, 0), (700, 3376), (4092, 3400)];

/// A file with the one key "a".
const SMALL: Pair = Pair {
    chains: 131,
    len: 4096,
    words: &RECORD,
    failing: None,
    steps: &[],
    is_bare: true,
    left: None,
};

/// A First through 3000 empty chains.
const MANY: Pair = Pair {
    chains: 3000,
    len: 12_172,
    words: &[],
    is_bare: false,
    ..SMALL
};

/// It fails at a read.
const FAILED_FIRST: Step = Step {
    turns: 1,
    told: Told::Io,
    stands: false,
    ..FIRST
};

/// Opener 1 comes to the key "a". Opener 2 deletes it, and stores it anew.
pub(crate) static STORE_ANEW: [Step; 3] = [FIRST, DELETE, STORE];

/// An opener is told the new value.
pub(crate) static FETCH_NEW: [Step; 1] = [FETCH];

const FETCH: Step = Step {
    act: Act::Plain(Word::Fetch, b"a", b""),
    turns: 2,
    told: Told::Value(b"2"),
    stands: false,
    ..FIRST
};

pub(crate) static PAIRS: [(&'static str, Pair); 10] = [
    // The cursor comes to the record, and past it; then its Next is told the end at once.
    (
        "a walk to its end, and past it",
        Pair {
            steps: &[
                Step {
                    second: true,
                    ..FIRST
                },
                Step {
                    second: true,
                    act: Act::Walk(Goal::Next),
                    turns: 1,
                    told: Told::Step,
                    ..FIRST
                },
                Step {
                    second: true,
                    act: Act::Walk(Goal::Next),
                    turns: 1,
                    told: Told::End,
                    stands: false,
                    reads: None,
                },
                Step {
                    second: true,
                    act: Act::Walk(Goal::Next),
                    turns: 1,
                    told: Told::End,
                    stands: false,
                    reads: None,
                },
            ],
            ..SMALL
        },
    ),
    // An opener closes while its cursor stands on the record.
    (
        "a close on the record",
        Pair {
            steps: &[
                Step {
                    second: true,
                    ..FIRST
                },
                Step {
                    second: true,
                    act: Act::Close,
                    turns: 1,
                    told: Told::Done,
                    stands: false,
                    reads: None,
                },
            ],
            ..SMALL
        },
    ),
    // Opener 1 goes on from the record that was deleted under its cursor: the new one stands in front of it, so its
    // walk is at its end.
    (
        "a record that is deleted under a cursor and stored anew",
        Pair {
            steps: &[
                FIRST,
                DELETE,
                STORE,
                Step {
                    act: Act::Walk(Goal::Next),
                    turns: 3,
                    told: Told::End,
                    stands: false,
                    ..FIRST
                },
                FETCH,
            ],
            left: Some(&PURGED),
            ..SMALL
        },
    ),
    // Opener 2 stands on the record too: it is purged as the second one leaves it, by its end.
    (
        "a deleted record under two cursors",
        Pair {
            steps: &[
                FIRST,
                Step {
                    second: true,
                    ..FIRST
                },
                Step {
                    act: Act::Plain(Word::Delete, b"a", b""),
                    turns: 2,
                    told: Told::Done,
                    ..FIRST
                },
                Step {
                    act: Act::Walk(Goal::Next),
                    turns: 2,
                    told: Told::End,
                    ..FIRST
                },
                Step {
                    second: true,
                    act: Act::Close,
                    turns: 3,
                    told: Told::Done,
                    stands: false,
                    reads: None,
                },
            ],
            left: Some(&EMPTIED),
            ..SMALL
        },
    ),
    // A walk that ends by an EndWalk, and a wipe behind it.
    (
        "an ended walk, and a wipe",
        Pair {
            steps: &[
                Step {
                    act: Act::Walk(Goal::Next),
                    turns: 1,
                    told: Told::End,
                    stands: false,
                    ..FIRST
                },
                FIRST,
                Step {
                    act: Act::Walk(Goal::Leave),
                    turns: 1,
                    told: Told::Done,
                    stands: false,
                    ..FIRST
                },
                Step {
                    act: Act::Plain(Word::Wipe, b"", b""),
                    turns: 4,
                    told: Told::Done,
                    stands: false,
                    ..FIRST
                },
                Step {
                    turns: 1,
                    told: Told::End,
                    stands: false,
                    ..FIRST
                },
            ],
            left: Some(&WIPED),
            ..SMALL
        },
    ),
    // Three keys in the chains 7, 31 and 70 of 131. The first that was stored stands at 4064. Each command reads the
    // heads from the next chain on at once; the header of a record that it comes to, its key and its value; and before
    // a Next moves, the header of the record on which it stands, once in each turn.
    (
        "three keys, and what is read",
        Pair {
            len: 696,
            words: &[],
            steps: &[
                Step {
                    act: Act::Plain(REPLACE, b"b", b"2"),
                    turns: 6,
                    told: Told::Done,
                    stands: false,
                    ..DELETE
                },
                Step {
                    act: Act::Plain(REPLACE, b"", b"x"),
                    stands: false,
                    ..STORE
                },
                Step {
                    act: Act::Plain(REPLACE, b"a", b"1"),
                    stands: false,
                    ..STORE
                },
                Step {
                    stands: false,
                    reads: Some(4 * 131 + 24 + 2),
                    ..FIRST
                },
                Step {
                    act: Act::Walk(Goal::Next),
                    turns: 2,
                    told: Told::Pair(b"", b"x"),
                    stands: false,
                    reads: Some(24 + 24 + 4 * (131 - 8) + 24 + 1),
                    ..FIRST
                },
                Step {
                    act: Act::Walk(Goal::Next),
                    turns: 2,
                    told: Told::Pair(b"b", b"2"),
                    reads: Some(24 + 24 + 4 * (131 - 32) + 24 + 2),
                    ..FIRST
                },
                Step {
                    act: Act::Walk(Goal::Next),
                    turns: 2,
                    told: Told::End,
                    stands: false,
                    reads: Some(24 + 24 + 4 * (131 - 71)),
                    ..FIRST
                },
            ],
            ..SMALL
        },
    ),
    // The heads are read in blocks of 1024: three reads.
    (
        "the first read of heads fails",
        Pair {
            failing: Some((Call::Read, 0)),
            steps: &[FAILED_FIRST],
            ..MANY
        },
    ),
    (
        "the second read of heads fails",
        Pair {
            failing: Some((Call::Read, 1)),
            steps: &[FAILED_FIRST],
            ..MANY
        },
    ),
    (
        "the third read of heads fails",
        Pair {
            failing: Some((Call::Read, 2)),
            steps: &[FAILED_FIRST],
            ..MANY
        },
    ),
    (
        "three reads of heads",
        Pair {
            failing: Some((Call::Read, 3)),
            steps: &[Step {
                turns: 1,
                told: Told::End,
                stands: false,
                reads: Some(4 * 3000),
                ..FIRST
            }],
            ..MANY
        },
    ),
];

/// Whether steps go as they say, in turn.
pub(crate) fn steps_hold(
    disk: &mut MemDisk,
    openers: &mut Openers,
    first: &mut Walk,
    second: &mut Walk,
    steps: &[Step],
) -> Option<bool> {
    for step in steps {
        let before = disk.bytes_read();
        let turns = if step.second {
            openers.take_turns(disk, 2, second, step.act, step.turns)?
        } else {
            openers.take_turns(disk, 1, first, step.act, step.turns)?
        };
        let read = disk.bytes_read().saturating_sub(before);
        let is_so = turns.count == step.turns
            && is_told(&step.told, &turns.end)
            && turns.live != matches!(step.act, Act::Close)
            && openers.spots.has(4064) == step.stands
            && step.reads.unwrap_or(read) == read;
        if !is_so {
            return Some(false);
        }
    }
    Some(true)
}

impl Row for Pair {
    fn holds(&self, alloc: Global) -> Option<bool> {
        let image = file_of(alloc, Order::Little, self.chains, self.len, self.words, &[])?;
        let mut disk = MemDisk::new(alloc, &image).ok()?;
        if let Some((call, nth)) = self.failing {
            disk.fail(call, nth).ok()?;
        }
        let mut openers = Openers::new(alloc, Order::Little, self.chains)?;
        let (mut first, mut second) = (Walk::new(), Walk::new());
        let mut is_so = steps_hold(&mut disk, &mut openers, &mut first, &mut second, self.steps)?;
        if let Some(left) = self.left {
            let want = file_of(
                alloc,
                Order::Little,
                self.chains,
                self.len,
                self.words,
                left,
            )?;
            is_so = is_so && disk.as_slice() == want.as_slice();
        }
        Some(is_so && (!self.is_bare || openers.locks.piece_count() == 0))
    }
}

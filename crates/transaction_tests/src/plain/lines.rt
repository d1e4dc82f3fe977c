// Plain commands in a row, and the bytes of small files that they leave.

use crate::files::{file_of, put, put_words};
use crate::openers::{Act, MOST, Openers, Word};
use crate::rows::Row;
use crate::told::{Told, is_told};
use std::alloc::Global;
use tdb_disk::MemDisk;
use tdb_steps::Flag;
use tdb_walk::Walk;
use tdb_words::{FREE, Order, USED};

const LONG: [u8; 5000] = [b'x'; 5000];

const PADDING: [u8; 1251] = [b'B'; 1251];

const REPLACE: Word = Word::Store(Flag::Replace);

const INSERT: Word = Word::Store(Flag::Insert);

/// What a command makes of a file: its least length then, words, and bytes.
struct Leaves {
    len: usize,
    words: &'static [&'static [(usize, u32)]],
    bytes: &'static [(usize, &'static [u8])],
}

/// A command on the file that the line before it left: its key and its value, what it has to reply, and what it
/// leaves.
type Line = (Word, &'static [u8], &'static [u8], Told, Leaves);

/// Lines from a new file on with this sequence number, whether their changes count, and how long the file may be.
pub(crate) struct Lines {
    number: u32,
    counts: bool,
    limit: u64,
    lines: &'static [Line],
}

/// Nothing changes.
const SAME: Leaves = Leaves {
    len: 0,
    words: &[],
    bytes: &[],
};

/// A file that has grown for its first record, of 32 bytes.
const FIRST: [(usize, u32); 9] = [
    (168, 696),
    (696, 0),
    (700, 3344),
    (716, FREE),
    (4060, 3368),
    (4064, 0),
    (4068, 8),
    (4084, USED),
    (4092, 32),
];

const STORED: Leaves = Leaves {
    len: 4096,
    words: &[
        &FIRST,
        &[(200, 4064), (4072, 1), (4076, 1), (4080, 0x094A_72E9)],
    ],
    bytes: &[(4088, b"a1BB")],
};

const DELETED: Leaves = Leaves {
    len: 4096,
    words: &[&[(200, 0), (700, 3376), (4092, 3400)]],
    bytes: &[],
};

const STORED_AT_NO_BYTES: Leaves = Leaves {
    len: 4096,
    words: &[&FIRST, &[(296, 4064), (4072, 0), (4076, 1), (4080, 12_345)]],
    bytes: &[(4088, b"xBBB")],
};

const STORED_NO_BYTES: Leaves = Leaves {
    len: 4096,
    words: &[
        &FIRST,
        &[(212, 4064), (4072, 1), (4076, 0), (4080, 0x9B09_8317)],
    ],
    bytes: &[(4088, b"kBBB")],
};

/// The record of a long value at the end of the file, and one free record in front of it, in which the record before it
/// and the free record behind that have become one with another.
const GROWN: Leaves = Leaves {
    len: 12_288,
    words: &[
        &[(168, 696), (212, 6008), (696, 0), (700, 5288), (6004, 5312)],
        &[
            (6008, 0),
            (6012, 6256),
            (6016, 1),
            (6020, 5000),
            (6024, 0x9B09_8317),
        ],
        &[(6028, USED), (12_284, 6280)],
        &[(4096, 696), (4100, 1888), (4116, FREE)],
    ],
    bytes: &[(6032, b"k"), (6033, &LONG), (11_033, &PADDING)],
};

const STORED_AND_COUNTED: Leaves = Leaves {
    len: 4096,
    words: &[
        &FIRST,
        &[
            (48, 0),
            (200, 4064),
            (4072, 1),
            (4076, 1),
            (4080, 0x094A_72E9),
        ],
    ],
    bytes: &[(4088, b"a1BB")],
};

const APPENDED: Leaves = Leaves {
    len: 4096,
    words: &[&[(48, 1), (4076, 2)]],
    bytes: &[(4088, b"a12B")],
};

const DELETED_AND_COUNTED: Leaves = Leaves {
    len: 4096,
    words: &[&[(48, 2), (200, 0), (700, 3376), (4092, 3400)]],
    bytes: &[],
};

/// Lines whose changes don't count, in a file that may get long.
const PLAIN: Lines = Lines {
    number: 0,
    counts: false,
    limit: MOST,
    lines: &[],
};

pub(crate) static LINES: [(&'static str, Lines); 6] = [
    (
        "a store, an insert over it, and two deletes",
        Lines {
            lines: &[
                (REPLACE, b"a", b"1", Told::Done, STORED),
                (INSERT, b"a", b"2", Told::There, SAME),
                (Word::Delete, b"a", b"", Told::Done, DELETED),
                (Word::Delete, b"a", b"", Told::Missing, SAME),
            ],
            ..PLAIN
        },
    ),
    (
        "a store at no bytes, and a fetch of them",
        Lines {
            lines: &[
                (REPLACE, b"", b"x", Told::Done, STORED_AT_NO_BYTES),
                (Word::Fetch, b"", b"", Told::Value(b"x"), SAME),
            ],
            ..PLAIN
        },
    ),
    (
        "a store of no bytes, and a long one over it",
        Lines {
            lines: &[
                (REPLACE, b"k", b"", Told::Done, STORED_NO_BYTES),
                (REPLACE, b"k", &LONG, Told::Done, GROWN),
            ],
            ..PLAIN
        },
    ),
    (
        "an append of no bytes, and a long one to them",
        Lines {
            lines: &[
                (Word::Append, b"k", b"", Told::Done, STORED_NO_BYTES),
                (Word::Append, b"k", &LONG, Told::Done, GROWN),
            ],
            ..PLAIN
        },
    ),
    // Changes that count, from the greatest number on.
    (
        "counted changes, and an insert that isn't",
        Lines {
            number: u32::MAX,
            counts: true,
            lines: &[
                (Word::Append, b"a", b"1", Told::Done, STORED_AND_COUNTED),
                (Word::Append, b"a", b"2", Told::Done, APPENDED),
                (INSERT, b"a", b"3", Told::There, SAME),
                (Word::Delete, b"a", b"", Told::Done, DELETED_AND_COUNTED),
            ],
            ..PLAIN
        },
    ),
    // A long value where the file may not grow so far.
    (
        "a full file",
        Lines {
            limit: 4096,
            lines: &[
                (REPLACE, b"a", &LONG, Told::Full(696, 6280), SAME),
                (Word::Append, b"a", &LONG, Told::Full(696, 6280), SAME),
            ],
            ..PLAIN
        },
    ),
];

/// What a line makes of the file. None where memory is wanting.
fn change(want: &mut Vec<u8>, order: Order, leaves: &Leaves) -> Option<()> {
    want.resize(want.len().max(leaves.len.min(99_999)), 0).ok()?;
    for words in leaves.words {
        put_words(want, order, words);
    }
    for (at, bytes) in leaves.bytes {
        put(want, *at, bytes);
    }
    Some(())
}

impl Lines {
    /// Whether each line replies what it has to, and leaves these bytes of a file of this byte order.
    fn hold_in(&self, alloc: Global, order: Order) -> Option<bool> {
        let mut want = file_of(alloc, order, 131, 696, &[(48, self.number)], &[])?;
        let mut disk = MemDisk::new(alloc, &want).ok()?;
        let mut openers = Openers::new(alloc, order, 131)?;
        openers.allow(self.counts, self.limit);
        let mut walk = Walk::new();
        for (word, key, value, told, leaves) in self.lines {
            change(&mut want, order, leaves)?;
            let act = Act::Plain(*word, *key, *value);
            let turns = openers.take_turns(&mut disk, 1, &mut walk, act, 8)?;
            if !is_told(told, &turns.end) || disk.as_slice() != want.as_slice() {
                return Some(false);
            }
        }
        Some(true)
    }
}

impl Row for Lines {
    fn holds(&self, alloc: Global) -> Option<bool> {
        Some(self.hold_in(alloc, Order::Little)? && self.hold_in(alloc, Order::Big)?)
    }
}

//! The plain program over the bytes of two small files, in both byte orders.

use crate::files::file_of;
use small_file::{HEADER, RECORD, Word};
use std::alloc::{AllocError, Global};
use tdb_space::{chain_offsets, pairs_in_order, rec_len_for, record_at};
use tdb_words::{DEAD, FREE, Header, Order, USED};

/// An offset in the file of one record, and the next, the length and those of the key and the value of the record that
/// stands there, if one does.
type Found = (u32, Option<(u32, u32, u32, u32)>);

static FOUND: [(&'static str, Found); 6] = [
    ("the free record", (696, Some((0, 3344, 0, 0)))),
    ("the used record", (4064, Some((0, 8, 1, 1)))),
    ("a place within it", (4068, None)),
    ("the start", (0, None)),
    ("the end", (4096, None)),
    ("a place behind the end", (u32::MAX, None)),
];

/// The first record of that file that isn't found so.
pub(crate) fn failing_record(alloc: Global) -> Result<Option<&'static str>, AllocError> {
    let image = file_of(alloc, 4096, 0, Order::Little, &RECORD, &[])?;
    for (name, (at, want)) in &FOUND {
        let found = match record_at(&image, &HEADER, *at) {
            Some(rec) => Some((rec.next, rec.rec_len, rec.key_len, rec.data_len)),
            None => None,
        };
        if found != *want {
            return Ok(Some(*name));
        }
    }
    Ok(None)
}

/// Offsets of heads in that file, and whether a chain of the used record alone begins there, or none.
static HEADS: [(&'static str, u16, bool); 2] = [
    ("the chain of the record", 200, true),
    ("the free list, which is no chain", 168, false),
];

/// The first head of which that isn't so.
pub(crate) fn failing_head(alloc: Global) -> Result<Option<&'static str>, AllocError> {
    let image = file_of(alloc, 4096, 0, Order::Little, &RECORD, &[])?;
    for (name, head, want) in &HEADS {
        if *head as usize + 4 > image.len() {
            return Ok(Some(*name));
        }
        let holds = match chain_offsets(alloc, &image, &HEADER, *head as usize)? {
            Some(offs) => *want && offs.as_slice() == [4064].as_slice(),
            None => !*want,
        };
        if !holds {
            return Ok(Some(*name));
        }
    }
    Ok(None)
}

/// A big-endian file of one chain with a used record, a dead one and another used one.
const WORDS: [Word; 22] = [
    (172, 176),
    (176, 208),
    (180, 8),
    (184, 1),
    (188, 1),
    (196, USED),
    (200, 0x6131_4242),
    (204, 32),
    (208, 240),
    (212, 8),
    (216, 1),
    (220, 1),
    (228, DEAD),
    (232, 0x6339_4242),
    (236, 32),
    (240, 0),
    (244, 8),
    (248, 1),
    (252, 1),
    (260, USED),
    (264, 0x6232_4242),
    (268, 32),
];

/// A pair of a key and its value.
type Pair = (&'static [u8], &'static [u8]);

/// A file of this header and this length, its words, those that are changed, and its pairs, if its chains are sound.
struct Pairs {
    header: Header,
    len: usize,
    words: &'static [Word],
    changed: &'static [Word],
    want: Option<&'static [Pair]>,
}

/// The big-endian file with a fault.
const FAULTY: Pairs = Pairs {
    header: Header {
        order: Order::Big,
        hash_size: 1,
        ..HEADER
    },
    len: 272,
    words: &WORDS,
    changed: &[],
    want: None,
};

static PAIRS: [(&'static str, Pairs); 9] = [
    (
        "the file of one record",
        Pairs {
            header: HEADER,
            len: 4096,
            words: &RECORD,
            want: Some(&[(b"a", b"1")]),
            ..FAULTY
        },
    ),
    (
        "the file as it is",
        Pairs {
            want: Some(&[(b"a", b"1"), (b"b", b"2")]),
            ..FAULTY
        },
    ),
    (
        "an empty chain",
        Pairs {
            changed: &[(172, 0)],
            want: Some(&[]),
            ..FAULTY
        },
    ),
    (
        "a head to the last record",
        Pairs {
            changed: &[(172, 240)],
            want: Some(&[(b"b", b"2")]),
            ..FAULTY
        },
    ),
    (
        "a chain that leads back",
        Pairs {
            changed: &[(240, 176)],
            ..FAULTY
        },
    ),
    (
        "a value that is too long",
        Pairs {
            changed: &[(252, 4)],
            ..FAULTY
        },
    ),
    (
        "another tailer",
        Pairs {
            changed: &[(236, 31)],
            ..FAULTY
        },
    ),
    (
        "a free record in a chain",
        Pairs {
            changed: &[(228, FREE)],
            ..FAULTY
        },
    ),
    (
        "a record that passes the end",
        Pairs {
            changed: &[(244, 12)],
            ..FAULTY
        },
    ),
];

fn are_equal(left: &[u8], right: &[u8]) -> bool {
    left == right
}

/// Whether a file has these pairs.
fn pairs_hold(alloc: Global, row: &Pairs) -> Result<bool, AllocError> {
    let order = row.header.order;
    let image = file_of(alloc, row.len, 0, order, row.words, row.changed)?;
    if (image.len() as u64) < 168 + 4 * (u64::from(row.header.hash_size) + 1) {
        return Ok(false);
    }
    let Some(pairs) = pairs_in_order(alloc, &image, &row.header)? else {
        return Ok(row.want.is_none());
    };
    let Some(want) = row.want else {
        return Ok(false);
    };
    for (pair, (key, value)) in pairs.iter().zip(want) {
        if !are_equal(pair.key, key) || !are_equal(pair.value, value) {
            return Ok(false);
        }
    }
    Ok(pairs.len() == want.len())
}

/// The first file that has other pairs.
pub(crate) fn failing_pairs(alloc: Global) -> Result<Option<&'static str>, AllocError> {
    for (name, row) in &PAIRS {
        if !pairs_hold(alloc, row)? {
            return Ok(Some(*name));
        }
    }
    Ok(None)
}

/// The lengths of a key and a value, and the room for them, in whole words and with a tailer.
static ROOMS: [(&'static str, u16, u16, u64); 5] = [
    ("nothing", 0, 0, 4),
    ("a key", 1, 0, 8),
    ("whole words", 3, 5, 16),
    ("a word more", 8, 9, 28),
    ("long ones", 100, 300, 504),
];

/// The first key and value that have another room.
pub(crate) fn failing_room() -> Option<&'static str> {
    for (name, key_len, value_len, want) in &ROOMS {
        if rec_len_for(u64::from(*key_len), u64::from(*value_len)) != *want {
            return Some(*name);
        }
    }
    None
}

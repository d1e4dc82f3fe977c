// The parts of the check over small files in memory.

use crate::check::answers::{Part, part_says};
use crate::check::files::{Fault, HEADER, Word, extents_of};
use crate::files::file_of;
use std::alloc::{AllocError, Global};
use tdb_check::{ListKind, first_overlap};
use tdb_disk::Call;
use tdb_words::What::{AreaBad, BadRecord, FreeLoop, FreeOut, Stray, Tailer, UndoBad, WrongHash};
use tdb_words::{DEAD, FREE, GATE_OPEN, GATE_SHUT, Order, USED, hash_old};

/// The offsets of extents with the lengths of their records, and where two of them overlap first.
type Overlap = (&'static [(u32, u32)], Option<u32>);

static OVERLAPS: [(&'static str, Overlap); 4] = [
    ("extents apart", (&[(176, 8), (304, 8), (208, 8)], None)),
    (
        "extents that touch, and two that share bytes",
        (&[(176, 8), (240, 8), (208, 12)], Some(240)),
    ),
    (
        "one that reaches over both others",
        (&[(300, 8), (176, 200), (296, 8)], Some(296)),
    ),
    ("one twice", (&[(176, 8), (208, 8), (208, 8)], Some(208))),
];

/// The first extents whose overlap isn't found so.
pub(crate) fn failing_overlap(alloc: Global) -> Result<Option<&'static str>, AllocError> {
    for (name, (places, want)) in &OVERLAPS {
        if first_overlap(&extents_of(alloc, places)?) != *want {
            return Ok(Some(*name));
        }
    }
    Ok(None)
}

/// A file of this length with these words, and others over them, and else full of one byte; the call that fails, a part
/// of the check, what that answers, and the offsets of the records that it finds, where they are looked at.
struct Row {
    len: usize,
    fill: u8,
    words: &'static [Word],
    changed: &'static [Word],
    failing: Option<(Call, u64)>,
    part: Part,
    want: Result<u64, Fault>,
    offsets: Option<&'static [u32]>,
}

/// An undo area at 176: the word at 44, and the length and the gate word of the area.
const AREA: Row = Row {
    len: 208,
    fill: b'k',
    words: &[(44, 176), (180, 8), (196, GATE_SHUT)],
    changed: &[],
    failing: None,
    part: Part::Area,
    want: Ok(0),
    offsets: None,
};

/// A free list of two records.
const FREE_LIST: Row = Row {
    len: 240,
    words: &[
        (168, 176),
        (176, 208),
        (180, 8),
        (196, FREE),
        (204, 32),
        (208, 0),
        (212, 8),
        (228, FREE),
        (236, 32),
    ],
    part: Part::FreeList,
    ..AREA
};

/// Gaps before, between and behind two extents.
const GAPS: Row = Row {
    len: 300,
    fill: 0,
    words: &[],
    part: Part::Gaps(&[(240, 8), (180, 12)]),
    want: Ok(56),
    ..AREA
};

static ROWS: [(&'static str, Row); 26] = [
    (
        "no area",
        Row {
            changed: &[(44, 0)],
            offsets: Some(&[]),
            ..AREA
        },
    ),
    (
        "an area",
        Row {
            offsets: Some(&[176]),
            ..AREA
        },
    ),
    (
        "no whole word",
        Row {
            changed: &[(44, 177)],
            want: Err((AreaBad, 44)),
            ..AREA
        },
    ),
    (
        "in front of the data",
        Row {
            changed: &[(44, 172)],
            want: Err((AreaBad, 44)),
            ..AREA
        },
    ),
    (
        "too near the end",
        Row {
            changed: &[(44, 188)],
            want: Err((AreaBad, 44)),
            ..AREA
        },
    ),
    (
        "past the end",
        Row {
            changed: &[(180, 12)],
            want: Err((AreaBad, 180)),
            ..AREA
        },
    ),
    (
        "a length of no whole words",
        Row {
            changed: &[(180, 6)],
            want: Err((AreaBad, 180)),
            ..AREA
        },
    ),
    (
        "the magic of a free record",
        Row {
            changed: &[(196, FREE)],
            want: Err((AreaBad, 196)),
            ..AREA
        },
    ),
    (
        "an open gate",
        Row {
            changed: &[(196, GATE_OPEN)],
            want: Err((UndoBad, 196)),
            ..AREA
        },
    ),
    (
        "two records",
        Row {
            offsets: Some(&[176, 208]),
            ..FREE_LIST
        },
    ),
    (
        "back to the first",
        Row {
            changed: &[(208, 176)],
            want: Err((FreeLoop, 208)),
            ..FREE_LIST
        },
    ),
    (
        "to itself",
        Row {
            changed: &[(208, 208)],
            want: Err((FreeLoop, 208)),
            ..FREE_LIST
        },
    ),
    (
        "to a place in front of the data",
        Row {
            changed: &[(208, 172)],
            want: Err((FreeOut, 208)),
            ..FREE_LIST
        },
    ),
    (
        "a used record",
        Row {
            changed: &[(228, USED)],
            want: Err((BadRecord, 208)),
            ..FREE_LIST
        },
    ),
    (
        "no gap",
        Row {
            len: 176,
            part: Part::Gaps(&[]),
            want: Ok(0),
            ..GAPS
        },
    ),
    (
        "padding at the ends of gaps",
        Row {
            changed: &[(176, 0x4200_0000), (228, 0x4200_0000)],
            ..GAPS
        },
    ),
    (
        "other bytes in extents",
        Row {
            changed: &[(180, 7), (268, 0x0700_0000)],
            ..GAPS
        },
    ),
    (
        "the last byte",
        Row {
            changed: &[(296, 0x4100_0000), (232, 0x42)],
            want: Err((Stray, 299)),
            ..GAPS
        },
    ),
    (
        "the last byte, and one in front of both",
        Row {
            changed: &[(296, 0x0100_0000), (176, 0x0100_0000)],
            want: Err((Stray, 179)),
            ..GAPS
        },
    ),
    (
        "the first byte",
        Row {
            changed: &[(176, 0x0100_0043)],
            want: Err((Stray, 176)),
            ..GAPS
        },
    ),
    (
        "a byte between both",
        Row {
            changed: &[(236, 0x0100_0000), (240, 1)],
            want: Err((Stray, 239)),
            ..GAPS
        },
    ),
    (
        "the last byte of a long gap",
        Row {
            len: 10_000,
            changed: &[(9_996, 0x0900_0000)],
            want: Err((Stray, 9_999)),
            ..GAPS
        },
    ),
    (
        "a byte in a long gap",
        Row {
            len: 10_000,
            changed: &[(9_996, 0x4200_0000), (4_300, 9)],
            want: Err((Stray, 4_300)),
            ..GAPS
        },
    ),
    (
        "a long gap",
        Row {
            len: 10_000,
            changed: &[(9_996, 0x4200_0000)],
            want: Ok(9_756),
            ..GAPS
        },
    ),
    (
        "one read of a gap that is no longer than a block",
        Row {
            len: 4_300,
            failing: Some((Call::Read, 1)),
            part: Part::Gaps(&[(176, 8)]),
            want: Ok(4_092),
            ..GAPS
        },
    ),
    (
        "no read where an extent is all",
        Row {
            len: 4_300,
            failing: Some((Call::Read, 0)),
            part: Part::Gaps(&[(176, 4_100)]),
            want: Ok(0),
            ..GAPS
        },
    ),
];

/// The first part of the check that doesn't say that.
pub(crate) fn failing_part(alloc: Global) -> Result<Option<&'static str>, AllocError> {
    for (name, row) in &ROWS {
        let bytes = file_of(
            alloc,
            row.len,
            row.fill,
            Order::Little,
            row.words,
            row.changed,
        )?;
        if !part_says(
            alloc,
            &HEADER,
            &bytes,
            row.failing,
            &row.part,
            row.want,
            row.offsets,
        )? {
            return Ok(Some(*name));
        }
    }
    Ok(None)
}

/// A record of no value at 176: its magic, by how much it is longer than its key, what is changed of the key's hash,
/// and by how much the word behind it is more than the key's length. The list in which it stands, and the next of that,
/// or its fault there.
type Record = (u32, u16, u32, u16, Part, Result<u64, Fault>);

const IN_CHAIN: Part = Part::Record(ListKind::Chain(0));

const IN_FREE_LIST: Part = Part::Record(ListKind::Free);

const BAD_RECORD: Result<u64, Fault> = Err((BadRecord, 176));

const WRONG_HASH: Result<u64, Fault> = Err((WrongHash, 176));

static RECORDS: [(&'static str, Record); 9] = [
    ("used", (USED, 4, 0, 28, IN_CHAIN, Ok(0))),
    (
        "used in the free list",
        (USED, 4, 0, 28, IN_FREE_LIST, BAD_RECORD),
    ),
    ("dead, with another hash", (DEAD, 4, 1, 28, IN_CHAIN, Ok(0))),
    (
        "free, with another hash",
        (FREE, 4, 1, 28, IN_FREE_LIST, Ok(0)),
    ),
    ("past the end", (USED, 8, 0, 28, IN_CHAIN, BAD_RECORD)),
    (
        "with no room for a tailer",
        (USED, 0, 0, 28, IN_CHAIN, BAD_RECORD),
    ),
    (
        "another tailer and another hash",
        (USED, 4, 1, 4, IN_CHAIN, Err((Tailer, 176))),
    ),
    ("another hash", (USED, 4, 1, 28, IN_CHAIN, WRONG_HASH)),
    (
        "another chain",
        (USED, 4, 0, 28, Part::Record(ListKind::Chain(1)), WRONG_HASH),
    ),
];

/// The file of a record that has a key of this length.
fn file_of_record(alloc: Global, row: &Record, key_len: u16) -> Result<Vec<u8>, AllocError> {
    let (magic, longer, changed, behind, _, _) = row;
    let key = vec![in alloc; b'k'; key_len as usize]?;
    let len = u32::from(key_len);
    let end = 200 + key_len as usize;
    let words = [
        (176, 0),
        (180, len + u32::from(*longer)),
        (184, len),
        (188, 0),
        (192, hash_old(&key) ^ *changed),
        (196, *magic),
        (end, len + u32::from(*behind)),
    ];
    file_of(alloc, end + 4, b'k', Order::Little, &words, &[])
}

/// The first record that isn't read so with a key of this length.
pub(crate) fn failing_record(
    alloc: Global,
    key_len: u16,
) -> Result<Option<&'static str>, AllocError> {
    for (name, row) in &RECORDS {
        let bytes = file_of_record(alloc, row, key_len)?;
        if !part_says(alloc, &HEADER, &bytes, None, &row.4, row.5, None)? {
            return Ok(Some(*name));
        }
    }
    Ok(None)
}

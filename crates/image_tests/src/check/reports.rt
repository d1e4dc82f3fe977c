// The check of whole files in memory: what it counts, and its first fault.

use crate::check::files::{Fault, HEADER, Word, check_says, file_of};
use std::alloc::{AllocError, Global};
use tdb_check::Report;
use tdb_words::What::{
    AreaBad, ChainOut, FreeOut, Header as BadHeader, Overlap, Short, Stray, UndoBad,
};
use tdb_words::{DEAD, FREE, GATE_OPEN, GATE_SHUT, HashKind, Header, Order, USED};

/// A file of this header and this length, with these words, and others over them: what a check of it says, and how many
/// reads it makes, where they are counted.
struct Checked {
    header: Header,
    len: usize,
    words: &'static [Word],
    changed: &'static [Word],
    want: Result<Report, Fault>,
    reads: Option<u64>,
}

/// One chain of a used record at 176 and a dead one at 208, a free record at 240, and an undo area at 280 behind 8
/// bytes of padding; 8 bytes of 0 stand at the end.
const WORDS: [Word; 20] = [
    (44, 280),
    (168, 240),
    (172, 176),
    (176, 208),
    (180, 8),
    (184, 1),
    (192, 0x9B09_8317),
    (196, USED),
    (200, b'k' as u32),
    (204, 32),
    (212, 8),
    (228, DEAD),
    (236, 32),
    (244, 8),
    (260, FREE),
    (268, 32),
    (272, 0x4242_4242),
    (276, 0x4242_4242),
    (284, 8),
    (300, GATE_SHUT),
];

pub(crate) const NOTHING: Report = Report {
    live: 0,
    dead_records: 0,
    free_records: 0,
    dead_bytes: 0,
    area: 0,
};

/// A new file. The front, the area's word, and the heads of the free list and of the chain are read.
const NEW: Checked = Checked {
    header: HEADER,
    len: 176,
    words: &[],
    changed: &[],
    want: Ok(NOTHING),
    reads: Some(4),
};

/// The file with a record of each kind. The front, the area's word and header are read, a piece of the file up to a
/// gap, and then the chain's head and two records, the free list's head and record, and two gaps.
const FULL: Checked = Checked {
    len: 320,
    words: &WORDS,
    want: Ok(Report {
        live: 1,
        dead_records: 1,
        free_records: 1,
        dead_bytes: 16,
        area: 32,
    }),
    reads: Some(11),
    ..NEW
};

// Of several faults the first is told.
static CHECKED: [(&'static str, Checked); 16] = [
    ("a new file of one chain", NEW),
    (
        "a new file of 131 chains",
        Checked {
            header: Header {
                order: Order::Big,
                hash: HashKind::Jenkins,
                hash_size: 131,
                recovery_start: 0,
                sequence: 0,
            },
            len: 696,
            reads: None,
            ..NEW
        },
    ),
    ("a record of each kind", FULL),
    (
        "stray bytes at the end and in the padding",
        Checked {
            changed: &[(312, 7), (316, 7), (272, 0x42)],
            want: Err((Stray, 312)),
            reads: None,
            ..FULL
        },
    ),
    (
        "a chain's head that is lost",
        Checked {
            changed: &[(172, 0), (312, 7), (272, 0x42)],
            want: Err((Stray, 176)),
            reads: None,
            ..FULL
        },
    ),
    (
        "an overlap",
        Checked {
            changed: &[(244, 28), (288, 52), (312, 7)],
            want: Err((Overlap, 280)),
            reads: None,
            ..FULL
        },
    ),
    (
        "a free list that leads in front of the data",
        Checked {
            changed: &[(168, 172), (288, 52), (312, 7)],
            want: Err((FreeOut, 168)),
            reads: None,
            ..FULL
        },
    ),
    (
        "a chain that leads in front of the data",
        Checked {
            changed: &[(172, 100), (168, 172), (312, 7)],
            want: Err((ChainOut, 172)),
            reads: None,
            ..FULL
        },
    ),
    (
        "an undo area with the magic of a free record",
        Checked {
            changed: &[(300, FREE), (172, 100), (168, 172)],
            want: Err((AreaBad, 300)),
            reads: None,
            ..FULL
        },
    ),
    (
        "an undo area in front of the data",
        Checked {
            len: 208,
            changed: &[(180, 8), (44, 172), (196, GATE_OPEN)],
            want: Err((AreaBad, 44)),
            reads: None,
            ..NEW
        },
    ),
    (
        "an open gate",
        Checked {
            len: 208,
            changed: &[(180, 8), (44, 176), (196, GATE_OPEN)],
            want: Err((UndoBad, 196)),
            reads: None,
            ..NEW
        },
    ),
    (
        "no bytes",
        Checked {
            len: 0,
            want: Err((Short, 0)),
            reads: None,
            ..NEW
        },
    ),
    (
        "a part of a header",
        Checked {
            len: 167,
            want: Err((Short, 167)),
            reads: None,
            ..NEW
        },
    ),
    (
        "another header",
        Checked {
            len: 168,
            changed: &[(0, 0x2042_4458)],
            want: Err((BadHeader, 0)),
            reads: None,
            ..NEW
        },
    ),
    (
        "no chain",
        Checked {
            len: 172,
            want: Err((Short, 172)),
            reads: None,
            ..NEW
        },
    ),
    (
        "half a word behind the heads",
        Checked {
            len: 178,
            want: Err((Short, 178)),
            reads: None,
            ..NEW
        },
    ),
];

/// The first file of which a check doesn't say that.
pub(crate) fn failing_check(alloc: Global) -> Result<Option<&'static str>, AllocError> {
    for (name, row) in &CHECKED {
        let bytes = file_of(alloc, &row.header, row.len, row.words, row.changed)?;
        if !check_says(alloc, &row.header, &bytes, row.want, row.reads)? {
            return Ok(Some(*name));
        }
    }
    Ok(None)
}

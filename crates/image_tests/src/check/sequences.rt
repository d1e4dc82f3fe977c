// The check of files whose records stand one after the other: those that are read once from the front, and those whose
// lists are walked along besides.

use crate::check::chains::{Link, file, header_of, push_links};
use crate::check::files::{Fault, Word, check_says};
use crate::check::long_chains::{LIKE_KEYS, links_of};
use crate::check::reports::NOTHING;
use crate::files::put_words;
use std::alloc::{AllocError, Global};
use tdb_check::Report;
use tdb_words::What::{BadRecord, Stray, Tailer, TwiceKey, WrongHash};
use tdb_words::{DEAD, FREE, Order, Rec, USED, rec_bytes};

/// The heads of a file's chains, the records of 32 bytes behind them, and words that are changed then. What a check
/// says, and how many reads it makes where it accepts the file: five where it reads the file once from its front, which
/// are the header, the word of the undo area, all records, and the heads of the free list and of the chains.
struct Sequence {
    heads: &'static [u32],
    links: &'static [Link],
    changed: &'static [Word],
    want: Result<Report, Fault>,
    reads: Option<u64>,
}

const THREE: Report = Report { live: 3, ..NOTHING };

/// Three records, each of which leads to the next one.
const FORWARD: Sequence = Sequence {
    heads: &[176],
    links: &[
        (208, *b"apah", USED),
        (240, *b"cccc", USED),
        (0, *b"bbbb", USED),
    ],
    changed: &[],
    want: Ok(THREE),
    reads: Some(5),
};

// A walk reads the header, the undo area's word and the front of the file too, and then the chains' heads, each record,
// and the free list's head.
static SEQUENCES: [(&'static str, Sequence); 12] = [
    ("each leads to the next", FORWARD),
    (
        "each leads to the one before",
        Sequence {
            heads: &[240],
            links: &[
                (0, *b"apah", USED),
                (176, *b"cccc", USED),
                (208, *b"bbbb", USED),
            ],
            ..FORWARD
        },
    ),
    (
        "a run of one behind a run of two",
        Sequence {
            heads: &[240],
            links: &[
                (208, *b"apah", USED),
                (0, *b"cccc", USED),
                (176, *b"bbbb", USED),
            ],
            ..FORWARD
        },
    ),
    (
        "two keys of one Jenkins hash",
        Sequence {
            links: &[
                (208, *b"apah", USED),
                (240, *b"cccc", USED),
                (0, *b"zapu", USED),
            ],
            reads: Some(7),
            ..FORWARD
        },
    ),
    (
        "a free record at the end",
        Sequence {
            links: &[
                (208, *b"apah", USED),
                (0, *b"cccc", USED),
                (0, *b"bbbb", FREE),
            ],
            changed: &[(168, 240)],
            want: Ok(Report {
                live: 2,
                free_records: 1,
                ..NOTHING
            }),
            ..FORWARD
        },
    ),
    (
        "the last in the midst",
        Sequence {
            links: &[
                (240, *b"apah", USED),
                (0, *b"cccc", USED),
                (208, *b"bbbb", USED),
            ],
            ..FORWARD
        },
    ),
    (
        "a dead record",
        Sequence {
            links: &[
                (208, *b"apah", USED),
                (240, *b"cccc", DEAD),
                (0, *b"bbbb", USED),
            ],
            want: Ok(Report {
                live: 2,
                dead_records: 1,
                ..NOTHING
            }),
            ..FORWARD
        },
    ),
    (
        "a key that comes twice",
        Sequence {
            links: &[
                (208, *b"apah", USED),
                (240, *b"cccc", USED),
                (0, *b"apah", USED),
            ],
            want: Err((TwiceKey, 240)),
            reads: None,
            ..FORWARD
        },
    ),
    (
        "a wrong tailer",
        Sequence {
            changed: &[(236, 28)],
            want: Err((Tailer, 208)),
            reads: None,
            ..FORWARD
        },
    ),
    (
        "a chain that ends before its last record",
        Sequence {
            changed: &[(208, 0)],
            want: Err((Stray, 244)),
            reads: None,
            ..FORWARD
        },
    ),
    (
        "a free list that leads into the chain",
        Sequence {
            changed: &[(168, 240)],
            want: Err((BadRecord, 240)),
            reads: None,
            ..FORWARD
        },
    ),
    (
        "a key in another chain",
        Sequence {
            heads: &[0, 180],
            links: &[(0, *b"apah", USED)],
            want: Err((WrongHash, 180)),
            reads: None,
            ..FORWARD
        },
    ),
];

/// The first file of which a check doesn't say that.
pub(crate) fn failing_sequence(alloc: Global) -> Result<Option<&'static str>, AllocError> {
    for (name, row) in &SEQUENCES {
        let mut bytes = file(alloc, row.heads, row.links)?;
        put_words(&mut bytes, Order::Little, row.changed);
        if !check_says(alloc, &header_of(row.heads), &bytes, row.want, row.reads)? {
            return Ok(Some(*name));
        }
    }
    Ok(None)
}

/// Puts a free record with this many bytes behind its header at the end of a file.
fn push_free(bytes: &mut Vec<u8>, rec_len: u32) -> Result<(), AllocError> {
    let r = Rec {
        next: 0,
        rec_len,
        key_len: 0,
        data_len: 0,
        full_hash: 0,
        magic: FREE,
    };
    bytes.extend_from_slice(&rec_bytes(&r, Order::Little))?;
    let end = bytes.len().saturating_add(rec_len as usize);
    bytes.resize(end, 0)?;
    put_words(
        bytes,
        Order::Little,
        &[(end.saturating_sub(4), rec_len.saturating_add(24))],
    );
    Ok(())
}

/// A used record, a free one, and a used one that leads to the first; how long the free one is behind its header, and
/// how many reads a check makes: two of the records where their front and the free one's tailer aren't within 128 KiB.
static LONG_RECORDS: [(&'static str, u32, u64); 2] = [
    ("a free record of 100,000 bytes", 100_000, 5),
    ("a free record of 200,000 bytes", 200_000, 6),
];

/// The first file with a long free record that a check doesn't accept by so many reads.
pub(crate) fn failing_long_record(alloc: Global) -> Result<Option<&'static str>, AllocError> {
    for (name, rec_len, reads) in &LONG_RECORDS {
        let heads = [rec_len.saturating_add(232)];
        let mut bytes = file(alloc, &heads, &[(0, *b"apah", USED)])?;
        push_free(&mut bytes, *rec_len)?;
        push_links(&mut bytes, &[(176, *b"cccc", USED)])?;
        put_words(&mut bytes, Order::Little, &[(168, 208)]);
        let want = Ok(Report {
            live: 2,
            free_records: 1,
            ..NOTHING
        });
        if !check_says(alloc, &header_of(&heads), &bytes, want, Some(*reads))? {
            return Ok(Some(*name));
        }
    }
    Ok(None)
}

/// How many keys of one Jenkins hash a chain has. Where more than eight have one, the chain is walked along besides.
static LIKE: [(&'static str, usize, u64); 2] = [
    ("eight keys of one Jenkins hash", 7, 8),
    ("nine keys of one Jenkins hash", 8, 9),
];

/// The first file with keys of one Jenkins hash that a check doesn't accept.
pub(crate) fn failing_like_keys(alloc: Global) -> Result<Option<&'static str>, AllocError> {
    for (name, last, live) in &LIKE {
        let bytes = file(alloc, &[176], &links_of(alloc, &LIKE_KEYS, *last, *last)?)?;
        let want = Ok(Report {
            live: *live,
            ..NOTHING
        });
        if !check_says(alloc, &header_of(&[176]), &bytes, want, None)? {
            return Ok(Some(*name));
        }
    }
    Ok(None)
}

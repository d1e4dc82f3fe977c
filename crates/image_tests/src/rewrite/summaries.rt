// Summaries of files in memory, and the lines of their records.

use crate::check::files::{HEADER as ONE_CHAIN, file_of};
use crate::files::disk_of;
use small_file::{HEADER, RECORD, Word};
use std::alloc::{AllocError, Global};
use tdb_check::Report;
use tdb_disk::{Call, MemDisk};
use tdb_rewrite::{LinesRefusal, Spot, Summary, SummaryRefusal, chain_lines, summary};
use tdb_space::Direct;
use tdb_words::{DEAD, FREE, GATE_SHUT, Header, Order, USED, What};

/// A file of this header and this length, with these words, and others over them: its summary, and all its lines.
struct Case {
    header: Header,
    len: usize,
    words: &'static [Word],
    changed: &'static [Word],
    want: Result<Summary, SummaryRefusal>,
    lines: &'static [Spot],
}

/// Of the file of one record.
const SMALL: Summary = Summary {
    report: Report {
        live: 1,
        dead_records: 0,
        free_records: 1,
        dead_bytes: 0,
        area: 0,
    },
    key_bytes: 1,
    data_bytes: 1,
    largest_free: 3344,
};

const SMALL_LINES: [Spot; 2] = [
    Spot::Chain { chain: 7, count: 1 },
    Spot::Used {
        off: 4064,
        key_len: 1,
        data_len: 1,
        rec_len: 8,
    },
];

/// One chain of a used record at 176, of the key `k` and the value `vw`, and a dead one at 208; free records at 240 and
/// 320; and an undo area at 280 behind 8 bytes of padding. 8 bytes of 0 stand behind it.
pub(crate) const EACH_KIND: [Word; 25] = [
    (44, 280),
    (168, 240),
    (172, 176),
    (176, 208),
    (180, 8),
    (184, 1),
    (188, 2),
    (192, 0x9B09_8317),
    (196, USED),
    (200, 0x4277_766B),
    (204, 32),
    (212, 8),
    (228, DEAD),
    (236, 32),
    (240, 320),
    (244, 8),
    (260, FREE),
    (268, 32),
    (272, 0x4242_4242),
    (276, 0x4242_4242),
    (284, 8),
    (300, GATE_SHUT),
    (324, 16),
    (340, FREE),
    (356, 40),
];

static CASES: [(&'static str, Case); 5] = [
    (
        "a new file",
        Case {
            header: ONE_CHAIN,
            len: 176,
            words: &[],
            changed: &[],
            want: Ok(Summary {
                report: Report {
                    live: 0,
                    dead_records: 0,
                    free_records: 0,
                    dead_bytes: 0,
                    area: 0,
                },
                key_bytes: 0,
                data_bytes: 0,
                largest_free: 0,
            }),
            lines: &[],
        },
    ),
    (
        "a file of one record",
        Case {
            header: HEADER,
            len: 4096,
            words: &RECORD,
            changed: &[],
            want: Ok(SMALL),
            lines: &SMALL_LINES,
        },
    ),
    (
        "a file of one record in the other byte order",
        Case {
            header: Header {
                order: Order::Big,
                ..HEADER
            },
            len: 4096,
            words: &RECORD,
            changed: &[(4088, 0x6131_4242)],
            want: Ok(SMALL),
            lines: &SMALL_LINES,
        },
    ),
    (
        "a record of each kind and an undo area",
        Case {
            header: ONE_CHAIN,
            len: 360,
            words: &EACH_KIND,
            changed: &[],
            want: Ok(Summary {
                report: Report {
                    live: 1,
                    dead_records: 1,
                    free_records: 2,
                    dead_bytes: 16,
                    area: 32,
                },
                key_bytes: 1,
                data_bytes: 2,
                largest_free: 16,
            }),
            lines: &[
                Spot::Chain { chain: 0, count: 2 },
                Spot::Used {
                    off: 176,
                    key_len: 1,
                    data_len: 2,
                    rec_len: 8,
                },
                Spot::Dead {
                    off: 208,
                    rec_len: 8,
                },
            ],
        },
    ),
    (
        "a file that isn't accepted",
        Case {
            header: ONE_CHAIN,
            len: 180,
            words: &[],
            changed: &[(176, 7)],
            want: Err(SummaryRefusal::Corrupt {
                what: What::Stray,
                at: 176,
            }),
            lines: &[],
        },
    ),
];

/// The lines of all chains of a file.
fn all_lines(
    alloc: Global,
    disk: &mut MemDisk,
    header: &Header,
) -> Result<Vec<Spot>, LinesRefusal> {
    let mut lines = Vec::new(alloc);
    for chain in 0..header.hash_size {
        let shown = chain_lines(alloc, &mut Direct::new(disk, header), chain)?;
        lines.extend_from_slice(shown.as_slice())?;
    }
    Ok(lines)
}

/// The summary of a file in which this read fails, if one is named, and the lines of one in which it does.
fn told(
    alloc: Global,
    case: &Case,
    failing: Option<(Call, u64)>,
) -> Result<
    (
        Result<Summary, SummaryRefusal>,
        Result<Vec<Spot>, LinesRefusal>,
    ),
    AllocError,
> {
    let bytes = file_of(alloc, &case.header, case.len, case.words, case.changed)?;
    let mut disk = disk_of(alloc, &bytes, failing)?;
    let summed = summary(alloc, &mut Direct::new(&mut disk, &case.header));
    let mut disk = disk_of(alloc, &bytes, failing)?;
    Ok((summed, all_lines(alloc, &mut disk, &case.header)))
}

/// The first file of which they are others.
pub(super) fn failing_file(alloc: Global) -> Result<Option<&'static str>, AllocError> {
    for (name, case) in &CASES {
        let (summed, lines) = told(alloc, case, None)?;
        if summed != case.want || lines.as_deref() != Ok(case.lines) {
            return Ok(Some(*name));
        }
    }
    Ok(None)
}

/// Whether a summary and the lines end as a fault of the disk where one read fails, and go on to their end where there
/// is no such read.
fn faults_hold(alloc: Global, case: &Case) -> Result<bool, AllocError> {
    for nth in 0..300u64 {
        match told(alloc, case, Some((Call::Read, nth)))? {
            (Ok(_), Ok(_)) => return Ok(true),
            (Ok(_) | Err(SummaryRefusal::Io), Ok(_) | Err(LinesRefusal::Io)) => {}
            _ => return Ok(false),
        }
    }
    Ok(false)
}

/// The first file with a read that fails and isn't told.
pub(super) fn failing_fault(alloc: Global) -> Result<Option<&'static str>, AllocError> {
    for (name, case) in &CASES {
        if case.want.is_ok() && !faults_hold(alloc, case)? {
            return Ok(Some(*name));
        }
    }
    Ok(None)
}

// How far a give goes along a free list of several records.

use crate::files::file_of;
use crate::free::files::{Place, Step, answer, has_list};
use small_file::Word;
use std::alloc::{AllocError, Global};
use tdb_disk::MemDisk;
use tdb_words::{FREE, HashKind, Header, Order};

const HEADER: Header = Header {
    order: Order::Little,
    hash: HashKind::Old,
    hash_size: 131,
    recovery_start: 0,
    sequence: 0,
};

/// A free record from 696 to 3872, and the tailers of seven records of 8 bytes, which stand one behind the other from
/// there to 4096.
const WORDS: [Word; 11] = [
    (168, 696),
    (700, 3152),
    (716, FREE),
    (3868, 3176),
    (3900, 32),
    (3932, 32),
    (3964, 32),
    (3996, 32),
    (4028, 32),
    (4060, 32),
    (4092, 32),
];

/// The offsets of records of 8 bytes that are given to the free list, and of the one that is given then; how many bytes
/// this reads, and the records of the list that it leaves.
type Walk = (&'static [u32], u32, u64, &'static [Place]);

// What is read beside the hand is the magic behind, the tailer, and the magic in front, 12 bytes. A walk reads the head
// of the list, 4 bytes of each record in front of the last that it seeks, and 24 bytes of each that leaves the list.
// Then the head is read again.
static WALKS: [(&'static str, Walk); 7] = [
    (
        "no free record beside",
        (&[3904], 4000, 12 + 4, &[(4000, 8), (3904, 8), (696, 3152)]),
    ),
    (
        "the first one in front",
        (
            &[3904, 3968, 4032],
            4064,
            8 + 4 + 24 + 4,
            &[(4032, 40), (3968, 8), (3904, 8), (696, 3152)],
        ),
    ),
    (
        "the third one in front",
        (
            &[4032, 3968, 3904],
            4064,
            8 + 4 + 2 * 4 + 24 + 4,
            &[(4032, 40), (3904, 8), (3968, 8), (696, 3152)],
        ),
    ),
    (
        "the second one behind",
        (
            &[4032, 3904],
            4000,
            12 + 4 + 4 + 24 + 4,
            &[(4000, 40), (3904, 8), (696, 3152)],
        ),
    ),
    (
        "the first two",
        (
            &[4032, 3968, 3904],
            3936,
            12 + 4 + 4 + 2 * 24 + 4,
            &[(3904, 72), (4032, 8), (696, 3152)],
        ),
    ),
    (
        "the third one behind and the second in front",
        (
            &[4032, 3968, 3904],
            4000,
            12 + 4 + 2 * 4 + 2 * 24 + 4,
            &[(3968, 72), (3904, 8), (696, 3152)],
        ),
    ),
    (
        "the first one behind and the last in front",
        (
            &[4032, 3968, 3904],
            3872,
            12 + 4 + 3 * 4 + 2 * 24 + 4,
            &[(696, 3216), (3968, 8), (4032, 8)],
        ),
    ),
];

/// Whether a give goes so.
fn walk_holds(alloc: Global, row: &Walk) -> Result<bool, AllocError> {
    let (given, hand, read, left) = *row;
    let mut disk = MemDisk::new(alloc, &file_of(alloc, 4096, 0, Order::Little, &WORDS, &[])?)?;
    for off in given {
        if answer(&mut disk, &HEADER, &Step::Give((*off, 8))) != Some(Ok(None)) {
            return Ok(false);
        }
    }
    let before = disk.bytes_read();
    if answer(&mut disk, &HEADER, &Step::Give((hand, 8))) != Some(Ok(None))
        || disk.bytes_read().checked_sub(before) != Some(read)
    {
        return Ok(false);
    }
    Ok(has_list(alloc, &mut disk, &HEADER, left) == Ok(true))
}

/// The first give that doesn't go so.
pub(crate) fn failing_walk(alloc: Global) -> Result<Option<&'static str>, AllocError> {
    for (name, row) in &WALKS {
        if !walk_holds(alloc, row)? {
            return Ok(Some(*name));
        }
    }
    Ok(None)
}

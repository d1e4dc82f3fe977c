// Gives to the free list of a small file in memory.

use crate::files::{file_of, put_words};
use crate::free::files::{File, Step, answer};
use small_file::{HEADER, Word};
use std::alloc::{AllocError, Global};
use tdb_disk::MemDisk;
use tdb_words::{FREE, Header, Order, USED};

/// A free list of three records: the one at 240, the one at 304, and the one at 176. Between 208 and 240 a record was
/// taken out, and one of a chain stands from 272 to 304.
const WORDS: [Word; 13] = [
    (168, 240),
    (176, 0),
    (180, 8),
    (196, FREE),
    (204, 32),
    (240, 304),
    (244, 8),
    (260, FREE),
    (268, 32),
    (304, 176),
    (308, 12),
    (324, FREE),
    (336, 36),
];

/// The file with this list.
pub(crate) const LIST: File = File {
    header: Header {
        hash_size: 1,
        ..HEADER
    },
    len: 340,
    fill: 0x42,
    words: &WORDS,
    later: &[],
};

/// The header of a free record that was written, and its tailer.
fn written(off: u32, next: u32, rec_len: u16) -> [Word; 8] {
    let at = off as usize;
    [
        (168, off),
        (at, next),
        (at + 4, rec_len as u32),
        (at + 8, 0),
        (at + 12, 0),
        (at + 16, 0),
        (at + 20, FREE),
        (at + 20 + rec_len as usize, rec_len as u32 + 24),
    ]
}

/// A file with these words, and the offset and the length of a hand that is given to its free list. The offset, the
/// next and the length of the free record that is written, if one is, another word that changes, and how many bytes are
/// read, where they are counted.
struct Give {
    words: &'static [Word],
    hand: (u32, u32),
    record: Option<(u32, u32, u16)>,
    link: Option<Word>,
    read: Option<u64>,
}

/// A hand that has a free record on both sides.
const BETWEEN: Give = Give {
    words: &[],
    hand: (208, 8),
    record: Some((176, 304, 72)),
    link: Some((304, 0)),
    read: None,
};

/// A hand that has none beside it. What is read is the magic behind, the tailer, the magic in front, and the head of
/// the list.
const ALONE: Give = Give {
    words: &[(168, 176), (324, USED), (260, USED)],
    hand: (272, 8),
    record: Some((272, 176, 8)),
    link: None,
    read: Some(16),
};

static GIVES: [(&'static str, Give); 12] = [
    ("free records on both sides", BETWEEN),
    (
        "a list without the record behind",
        Give {
            words: &[(168, 304)],
            record: Some((176, 304, 40)),
            ..BETWEEN
        },
    ),
    (
        "a list without the record in front",
        Give {
            words: &[(304, 0)],
            record: Some((208, 304, 40)),
            link: None,
            ..BETWEEN
        },
    ),
    (
        "behind the only record of the list",
        Give {
            words: &[(240, 0)],
            hand: (272, 8),
            record: Some((240, 0, 40)),
            link: None,
            ..BETWEEN
        },
    ),
    (
        "an empty list",
        Give {
            words: &[(168, 0)],
            record: Some((208, 0, 8)),
            link: None,
            ..BETWEEN
        },
    ),
    ("a used record in front", ALONE),
    (
        "a tailer that leads in front of the data",
        Give {
            words: &[(168, 176), (324, USED), (268, 272)],
            ..ALONE
        },
    ),
    (
        "a tailer of no whole words",
        Give {
            words: &[(168, 176), (324, USED), (268, 273)],
            read: Some(12),
            ..ALONE
        },
    ),
    (
        "a tailer that is too short for a record",
        Give {
            words: &[(168, 176), (324, USED), (268, 27)],
            read: Some(12),
            ..ALONE
        },
    ),
    (
        "the end of the file behind",
        Give {
            words: &[(168, 176), (324, USED), (300, 0)],
            hand: (304, 12),
            record: Some((304, 176, 12)),
            read: Some(8),
            ..ALONE
        },
    ),
    (
        "a hand that passes the end of the file",
        Give {
            hand: (208, 112),
            record: None,
            link: None,
            ..BETWEEN
        },
    ),
    (
        "a hand in front of the data",
        Give {
            hand: (172, 8),
            record: None,
            link: None,
            ..BETWEEN
        },
    ),
];

/// The first give that doesn't go so.
pub(crate) fn failing_give(alloc: Global) -> Result<Option<&'static str>, AllocError> {
    for (name, row) in &GIVES {
        let mut image = file_of(alloc, 340, 0x42, Order::Little, &WORDS, row.words)?;
        let mut disk = MemDisk::new(alloc, &image)?;
        let answer = answer(&mut disk, &LIST.header, &Step::Give(row.hand));
        if let Some(link) = row.link {
            put_words(&mut image, Order::Little, &[link]);
        }
        if let Some((off, next, rec_len)) = row.record {
            put_words(&mut image, Order::Little, &written(off, next, rec_len));
        }
        let is_read = match row.read {
            Some(count) => disk.bytes_read() == count,
            None => true,
        };
        if answer != Some(Ok(None)) || disk.as_slice() != image.as_slice() || !is_read {
            return Ok(Some(*name));
        }
    }
    Ok(None)
}

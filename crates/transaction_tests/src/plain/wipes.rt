// Wipes of small files in memory.

use crate::files::put_words;
use crate::rows::Row;
use small_file::Word;
use std::alloc::Global;
use tdb_disk::MemDisk;
use tdb_space::Direct;
use tdb_steps::wipe;
use tdb_words::{FREE, HashKind, Header, Order, USED};

/// The length of a file of three chains, the records of these, and the place of its undo area, or 0; and the words that
/// a wipe leaves besides the heads, where it changes the file.
pub(crate) struct Wiped {
    len: u16,
    records: [u16; 3],
    area: u16,
    words: Option<&'static [Word]>,
}

const HEADS: [Word; 3] = [(172, 0), (176, 0), (180, 0)];

/// No undo area, one between the records, and one behind 24 bytes of padding.
const WHOLE: [Word; 8] = [
    (168, 184),
    (184, 0),
    (188, 72),
    (192, 0),
    (196, 0),
    (200, 0),
    (204, FREE),
    (276, 96),
];

const AROUND: [Word; 15] = [
    (168, 184),
    (184, 284),
    (188, 40),
    (192, 0),
    (196, 0),
    (200, 0),
    (204, FREE),
    (244, 64),
    (284, 0),
    (288, 8),
    (292, 0),
    (296, 0),
    (300, 0),
    (304, FREE),
    (312, 32),
];

const BEHIND: [Word; 14] = [
    (168, 244),
    (184, 0),
    (188, 0),
    (192, 0),
    (196, 0),
    (200, 0),
    (204, 0),
    (244, 0),
    (248, 72),
    (252, 0),
    (256, 0),
    (260, 0),
    (264, FREE),
    (336, 96),
];

pub(crate) static WIPES: [(&'static str, Wiped); 8] = [
    (
        "no undo area",
        Wiped {
            len: 280,
            records: [184, 216, 248],
            area: 0,
            words: Some(&WHOLE),
        },
    ),
    (
        "an area between",
        Wiped {
            len: 316,
            records: [184, 216, 284],
            area: 248,
            words: Some(&AROUND),
        },
    ),
    (
        "an area behind padding",
        Wiped {
            len: 340,
            records: [244, 276, 308],
            area: 208,
            words: Some(&BEHIND),
        },
    ),
    // What is no file stays.
    (
        "no whole words",
        Wiped {
            len: 281,
            records: [184, 184, 184],
            area: 0,
            words: None,
        },
    ),
    (
        "in front of the data",
        Wiped {
            len: 180,
            records: [184, 184, 184],
            area: 0,
            words: None,
        },
    ),
    (
        "a header that passes the end",
        Wiped {
            len: 280,
            records: [184, 184, 184],
            area: 260,
            words: None,
        },
    ),
    (
        "an area that passes the end",
        Wiped {
            len: 280,
            records: [184, 184, 184],
            area: 248,
            words: None,
        },
    ),
    (
        "an area in front of the data",
        Wiped {
            len: 280,
            records: [184, 184, 184],
            area: 180,
            words: None,
        },
    ),
];

impl Wiped {
    /// The file: each record is used and of 32 bytes. The word at 44 leads to an undo area with 12 bytes of content, or
    /// to none.
    fn file(&self, alloc: Global, order: Order) -> Option<Vec<u8>> {
        let mut image = vec![in alloc; 0x42u8; self.len as usize].ok()?;
        for i in 0..3 {
            let at = self.records[i] as usize;
            put_words(
                &mut image,
                order,
                &[
                    (172 + 4 * i, at as u32),
                    (at, 0),
                    (at + 4, 8),
                    (at + 8, 1),
                    (at + 12, 1),
                    (at + 16, 0x094A_72E9),
                    (at + 20, USED),
                    (at + 24, 0x6131_4242),
                    (at + 28, 32),
                ],
            );
        }
        let at = self.area as usize;
        put_words(&mut image, order, &[(44, at as u32), (168, 0)]);
        if at != 0 {
            put_words(&mut image, order, &[(at + 4, 12), (at + 20, 0)]);
        }
        Some(image)
    }
}

impl Row for Wiped {
    // A wipe of the file of either byte order leaves these words.
    fn holds(&self, alloc: Global) -> Option<bool> {
        for order in [Order::Little, Order::Big] {
            let header = Header {
                order,
                hash: HashKind::Old,
                hash_size: 3,
                recovery_start: 0,
                sequence: 0,
            };
            let mut want = self.file(alloc, order)?;
            let mut disk = MemDisk::new(alloc, &want).ok()?;
            let is_done = wipe(&mut Direct::new(&mut disk, &header)).is_ok();
            if let Some(words) = self.words {
                put_words(&mut want, order, &HEADS);
                put_words(&mut want, order, words);
            }
            if !is_done || disk.as_slice() != want.as_slice() {
                return Some(false);
            }
        }
        Some(true)
    }
}

// Takes from small files in memory: one with three free records, and new ones, which have none and grow.

use crate::files::file_of;
use crate::free::files::{File, MOST, Place, Step, answer, bytes_of, has_list};
use small_file::{HEADER, Word};
use std::alloc::{AllocError, Global};
use tdb_disk::MemDisk;
use tdb_free::FreeRefusal;
use tdb_words::{FREE, Header, Order};

/// A file with a free list of records at 176, 208 and 308, with 8, 76 and 40 bytes behind their headers.
pub(crate) const THREE: File = File {
    header: Header {
        order: Order::Big,
        hash_size: 1,
        ..HEADER
    },
    len: 372,
    fill: 0,
    words: &[
        (168, 176),
        (176, 208),
        (180, 8),
        (196, FREE),
        (204, 32),
        (208, 308),
        (212, 76),
        (228, FREE),
        (304, 100),
        (308, 0),
        (312, 40),
        (328, FREE),
        (368, 64),
    ],
    later: &[],
};

/// A new file of 131 chains, whose lists are all empty. What stands in front of their heads isn't read.
pub(crate) const NEW: File = File {
    header: HEADER,
    len: 696,
    fill: 0,
    words: &[],
    later: &[],
};

/// A take from a file, what it answers, the free list that is left, where it is looked at, how long the file is then,
/// and the words of the file then, with zeros elsewhere, where they are looked at.
struct Take {
    file: File,
    step: Step,
    want: Result<Option<Place>, FreeRefusal>,
    list: Option<&'static [Place]>,
    after: usize,
    words: Option<&'static [Word]>,
}

/// A take of 40 bytes from the list, where none is found.
const FIT: Take = Take {
    file: THREE,
    step: Step::TakeFit(40),
    want: Ok(None),
    list: None,
    after: 372,
    words: None,
};

/// A new file grows to a whole page. The record is the end of what the file gained, and the rest of that is free.
const PAGE: Take = Take {
    file: NEW,
    step: Step::Take(8, MOST),
    want: Ok(Some((4064, 8))),
    list: None,
    after: 4096,
    words: Some(&[
        (168, 696),
        (700, 3344),
        (716, FREE),
        (4060, 3368),
        (4092, 3400),
    ]),
};

/// It grows by just the need of 32 bytes.
const NEED: Take = Take {
    step: Step::Take(8, 728),
    want: Ok(Some((696, 8))),
    after: 728,
    words: None,
    ..PAGE
};

static TAKES: [(&'static str, Take); 14] = [
    (
        "the first record as it is",
        Take {
            step: Step::TakeFit(8),
            want: Ok(Some((176, 8))),
            list: Some(&[(208, 76), (308, 40)]),
            ..FIT
        },
    ),
    (
        "the end of the second one",
        Take {
            want: Ok(Some((244, 40))),
            list: Some(&[(176, 8), (208, 12), (308, 40)]),
            ..FIT
        },
    ),
    (
        "the second one as it is, too short to be parted",
        Take {
            step: Step::TakeFit(44),
            want: Ok(Some((208, 76))),
            list: Some(&[(176, 8), (308, 40)]),
            ..FIT
        },
    ),
    (
        "none that is long enough",
        Take {
            step: Step::TakeFit(80),
            list: Some(&[(176, 8), (208, 76), (308, 40)]),
            ..FIT
        },
    ),
    // What is no record ends the list.
    (
        "a next in front of the data",
        Take {
            file: File {
                later: &[(176, 100)],
                ..THREE
            },
            ..FIT
        },
    ),
    (
        "a next to no whole word",
        Take {
            file: File {
                later: &[(176, 210)],
                ..THREE
            },
            ..FIT
        },
    ),
    (
        "a next that leads back",
        Take {
            file: File {
                later: &[(176, 176)],
                ..THREE
            },
            ..FIT
        },
    ),
    (
        "a record that passes the end of the file",
        Take {
            file: File {
                later: &[(212, 76000)],
                ..THREE
            },
            ..FIT
        },
    ),
    ("a whole page", PAGE),
    (
        "a whole page up to the limit",
        Take {
            step: Step::Take(8, 4096),
            ..PAGE
        },
    ),
    (
        "just the need where no page is left",
        Take {
            step: Step::Take(8, 4095),
            ..NEED
        },
    ),
    ("just the need up to the limit", NEED),
    (
        "full one byte below",
        Take {
            step: Step::Take(8, 727),
            want: Err(FreeRefusal::Full { len: 696, need: 32 }),
            after: 696,
            words: Some(&[]),
            ..PAGE
        },
    ),
    // A quarter as much again is more than what is needed.
    (
        "a long file by a quarter",
        Take {
            file: File { len: 40960, ..NEW },
            want: Ok(Some((53216, 8))),
            after: 53248,
            words: None,
            ..PAGE
        },
    ),
];

/// The first take that doesn't go so.
pub(crate) fn failing_take(alloc: Global) -> Result<Option<&'static str>, AllocError> {
    for (name, row) in &TAKES {
        let header = &row.file.header;
        let mut disk = MemDisk::new(alloc, &bytes_of(alloc, &row.file)?)?;
        let is_taken = answer(&mut disk, header, &row.step) == Some(row.want);
        let is_left = match row.words {
            Some(words) => {
                let want = file_of(alloc, row.after, 0, Order::Little, words, &[])?;
                disk.as_slice() == want.as_slice()
            }
            None => disk.as_slice().len() == row.after,
        };
        let is_listed = match row.list {
            Some(list) => has_list(alloc, &mut disk, header, list) == Ok(true),
            None => true,
        };
        if !is_taken || !is_left || !is_listed {
            return Ok(Some(*name));
        }
    }
    Ok(None)
}

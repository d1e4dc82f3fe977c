// Files that are written anew in memory.

use crate::check::files::{HEADER as ONE_CHAIN, file_of};
use crate::rewrite::summaries::EACH_KIND;
use small_file::{HEADER, RECORD, Word};
use std::alloc::{AllocError, Global};
use tdb_backup::CopyRefusal;
use tdb_disk::MemDisk;
use tdb_rewrite::rewrite;
use tdb_space::Direct;
use tdb_words::Header;

/// A file of this header and this length, with these words, from which the keys with a prefix are written into a new
/// file of a header, within a limit: the answer, and the new file's length and words.
struct Case {
    from: Header,
    len: usize,
    words: &'static [Word],
    to: Header,
    bare: usize,
    prefix: &'static [u8],
    limit: u64,
    want: Result<(), CopyRefusal>,
    new_len: usize,
    new_words: &'static [Word],
}

const SMALL: Case = Case {
    from: HEADER,
    len: 4096,
    words: &RECORD,
    to: HEADER,
    bare: 696,
    prefix: b"",
    limit: 4_294_963_200,
    want: Ok(()),
    new_len: 4096,
    new_words: &RECORD,
};

static CASES: [(&'static str, Case); 5] = [
    ("the file of one record is as it was", SMALL),
    (
        "a prefix that is the key",
        Case {
            prefix: b"a",
            ..SMALL
        },
    ),
    (
        "no key has the prefix",
        Case {
            prefix: b"ab",
            new_len: 696,
            new_words: &[],
            ..SMALL
        },
    ),
    // The key `k` and the value `vw` of a file with a dead record, two free ones and an undo area.
    (
        "one pair alone",
        Case {
            from: ONE_CHAIN,
            len: 360,
            words: &EACH_KIND,
            to: ONE_CHAIN,
            bare: 176,
            limit: 208,
            new_len: 208,
            new_words: &[
                (172, 176),
                (180, 8),
                (184, 1),
                (188, 2),
                (192, 0x9B09_8317),
                (196, 0x2601_1999),
                (200, 0x4277_766B),
                (204, 32),
            ],
            ..SMALL
        },
    ),
    (
        "no room",
        Case {
            from: ONE_CHAIN,
            len: 360,
            words: &EACH_KIND,
            limit: 700,
            want: Err(CopyRefusal::Full { len: 696, need: 32 }),
            new_len: 696,
            new_words: &[],
            ..SMALL
        },
    ),
];

/// Whether a file is written anew so.
fn case_holds(alloc: Global, case: &Case) -> Result<bool, AllocError> {
    if case.to.hash_size == 0 || case.limit > 4_294_963_200 {
        return Ok(false);
    }
    let read = file_of(alloc, &case.from, case.len, case.words, &[])?;
    let mut from = MemDisk::new(alloc, &read)?;
    let mut to = MemDisk::new(alloc, &file_of(alloc, &case.to, case.bare, &[], &[])?)?;
    let answer = rewrite(
        alloc,
        &mut Direct::new(&mut from, &case.from),
        &mut Direct::new(&mut to, &case.to),
        case.prefix,
        case.limit,
    );
    let want = file_of(alloc, &case.to, case.new_len, case.new_words, &[])?;
    Ok(
        answer == case.want
            && to.as_slice() == want.as_slice()
            && from.as_slice() == read.as_slice(),
    )
}

/// The first file that is written otherwise.
pub(super) fn failing_rewrite(alloc: Global) -> Result<Option<&'static str>, AllocError> {
    for (name, case) in &CASES {
        if !case_holds(alloc, case)? {
            return Ok(Some(*name));
        }
    }
    Ok(None)
}

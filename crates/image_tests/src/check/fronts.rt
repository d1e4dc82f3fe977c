// The fronts of small files in memory, by themselves and through a view.

use crate::check::files::{Fault, HEADER, Word, file_of, refusal};
use crate::files::disk_of;
use std::alloc::{AllocError, Global};
use tdb_check::{FrontRefusal, check_front, read_front};
use tdb_disk::{Call, MemDisk};
use tdb_space::Direct;
use tdb_words::What::{Header as BadHeader, Short};
use tdb_words::{Header, HeaderFault};

/// The length of a file, whether it has a header, the call that fails, and what its front is read as.
type Front = (
    usize,
    bool,
    Option<(Call, u64)>,
    Result<Header, FrontRefusal>,
);

static FRONTS: [(&'static str, Front); 7] = [
    ("a new file", (176, true, None, Ok(HEADER))),
    (
        "no bytes",
        (0, true, None, Err(FrontRefusal::Short { len: 0 })),
    ),
    (
        "a part of a header",
        (167, true, None, Err(FrontRefusal::Short { len: 167 })),
    ),
    (
        "no chain",
        (172, true, None, Err(FrontRefusal::Short { len: 172 })),
    ),
    (
        "a part of a head",
        (174, true, None, Err(FrontRefusal::Short { len: 174 })),
    ),
    (
        "zeros",
        (
            200,
            false,
            None,
            Err(FrontRefusal::Header {
                fault: HeaderFault::NotTdb,
            }),
        ),
    ),
    (
        "a read that fails",
        (176, true, Some((Call::Read, 0)), Err(FrontRefusal::Io)),
    ),
];

/// The first front that isn't read so.
pub(crate) fn failing_front(alloc: Global) -> Result<Option<&'static str>, AllocError> {
    for (name, (len, has_header, failing, want)) in &FRONTS {
        let bytes = if *has_header {
            file_of(alloc, &HEADER, *len, &[], &[])?
        } else {
            vec![in alloc; 0u8; *len]?
        };
        if read_front(&mut disk_of(alloc, &bytes, *failing)?) != *want {
            return Ok(Some(*name));
        }
    }
    Ok(None)
}

/// The length of a file, words over its own, and where its heads end, or the fault of its front.
type ViewFront = (usize, &'static [Word], Result<u64, Fault>);

static VIEW_FRONTS: [(&'static str, ViewFront); 6] = [
    ("no bytes", (0, &[], Err((Short, 0)))),
    ("a part of a header", (167, &[], Err((Short, 167)))),
    (
        "another header",
        (168, &[(0, 0x2042_4458)], Err((BadHeader, 0))),
    ),
    ("no chain", (172, &[], Err((Short, 172)))),
    (
        "half a word behind the heads",
        (178, &[], Err((Short, 178))),
    ),
    ("a new file", (176, &[], Ok(176))),
];

/// The first front that isn't judged so through a view.
pub(crate) fn failing_view_front(alloc: Global) -> Result<Option<&'static str>, AllocError> {
    for (name, (len, words, want)) in &VIEW_FRONTS {
        let mut disk = MemDisk::new(alloc, &file_of(alloc, &HEADER, *len, words, &[])?)?;
        if check_front(&mut Direct::new(&mut disk, &HEADER)) != want.map_err(refusal) {
            return Ok(Some(*name));
        }
    }
    Ok(None)
}

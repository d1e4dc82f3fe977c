//! Tests of a disk with a cache of its blocks and of a disk that is written behind, over the public calls of
//! `tdb_cache`.

use crate::edits::{Edit, failing_disk, is_done};
use crate::rows::{Row, failing};
use tdb_cache::{Cached, WriteBehind};
use tdb_disk::{Call, Disk, MemDisk};

/// Calls of a disk with a cache over an empty one, of which these are to fail, and whether each is done. How many
/// blocks are kept then, or how many bytes of the disk within were read.
struct Cachings {
    fails: &'static [(Call, u64)],
    edits: &'static [(Edit, bool)],
    kept: Option<usize>,
    reads: Option<u64>,
}

static CACHINGS: [(&'static str, Cachings); 2] = [
    // Reads at the border of two blocks and at the end of the file, each after a change there.
    (
        "what the disk within shows",
        Cachings {
            fails: &[],
            edits: &[
                (Edit::Grow(131_172), true),
                (Edit::Write(65_532, b"11112222"), true),
                (Edit::Read(65_532, b"11112222"), true),
                (Edit::Write(65_534, b"word"), true),
                (Edit::Read(65_532, b"11word22"), true),
                (Edit::Word(131_168, *b"WORD"), true),
                (Edit::Read(131_164, b"\0\0\0\0WORD"), true),
                (Edit::Grow(196_608), true),
                (Edit::Read(131_168, b"WORD\0\0\0\0"), true),
                (Edit::Cut(65_538), true),
                (Edit::Grow(131_072), true),
                (Edit::Read(65_532, b"11word\0\0"), true),
            ],
            kept: Some(2),
            reads: None,
        },
    ),
    // Nothing is written, and after each fault the block is read anew.
    (
        "a write, a word and a sync that fail",
        Cachings {
            fails: &[(Call::Write, 0), (Call::WriteWord, 0), (Call::Sync, 0)],
            edits: &[
                (Edit::Grow(65_536), true),
                (Edit::Write(96, b"word"), false),
                (Edit::Read(96, b"\0\0\0\0\0\0\0\0"), true),
                (Edit::Word(96, *b"WORD"), false),
                (Edit::Read(96, b"\0\0\0\0\0\0\0\0"), true),
                (Edit::Sync, false),
                (Edit::Read(96, b"\0\0\0\0\0\0\0\0"), true),
            ],
            kept: None,
            reads: Some(3 * 65_536),
        },
    ),
];

impl Row for Cachings {
    fn holds(&self, rt: HostRuntime) -> Option<bool> {
        let mut disk = Cached::new(rt.alloc(), failing_disk(rt.alloc(), b"", self.fails)?);
        for (edit, done) in self.edits {
            if is_done(&mut disk, edit)? != *done {
                return Some(false);
            }
        }
        let kept = self.kept.unwrap_or(disk.kept()) == disk.kept() && disk.starved() == 0;
        let read = disk.into_inner().bytes_read();
        Some(kept && self.reads.unwrap_or(read) == read)
    }
}

/// Reads of a file of two blocks: from where on, how many bytes, how many blocks are kept then, and how many bytes of
/// the disk within were read.
struct LongReads(&'static [(usize, usize, usize, u64)]);

// A read of a block's length keeps nothing.
static LONG_READS: [(&'static str, LongReads); 1] = [(
    "a short read between long ones",
    LongReads(&[
        (8, 65_536, 0, 65_536),
        (65_528, 8, 1, 131_072),
        (0, 65_536, 1, 131_072),
        (65_536, 65_536, 1, 196_608),
        (8, 65_536, 1, 262_144),
    ]),
)];

impl Row for LongReads {
    fn holds(&self, rt: HostRuntime) -> Option<bool> {
        let mut buf = vec![in rt.alloc(); 0; 65_536].ok()?;
        let mut disk = Cached::new(rt.alloc(), MemDisk::new(rt.alloc(), b"").ok()?);
        let mut is_so = is_done(&mut disk, &Edit::Grow(131_072)) == Some(true)
            && is_done(&mut disk, &Edit::Write(65_528, b"1111222233334444")) == Some(true);
        for (at, len, kept, reads) in self.0 {
            let all = disk.inner().as_slice().len();
            if *len > buf.len() || *at > all || all - *at < *len {
                return None;
            }
            is_so = is_so
                && disk.read(*at as u64, &mut buf[..*len]).is_ok()
                && buf[..*len] == disk.inner().as_slice()[*at..*at + *len]
                && disk.kept() == *kept
                && disk.inner().bytes_read() == *reads;
        }
        Some(is_so)
    }
}

/// Calls of a disk that is written behind, over an empty one, of which these are to fail: whether each is done, and
/// with what the disk within begins then, where that is looked at. What is left once it is given back, where that is.
struct Behinds {
    through: bool,
    fails: &'static [(Call, u64)],
    edits: &'static [(Edit, bool, &'static [u8])],
    left: &'static [u8],
}

/// The first eight bytes that are written.
const EIGHT: (Edit, bool, &'static [u8]) = (Edit::Write(0, b"12345678"), true, b"");

static BEHINDS: [(&'static str, Behinds); 4] = [
    (
        "syncs",
        Behinds {
            through: false,
            fails: &[],
            edits: &[
                (Edit::Grow(16), true, b""),
                EIGHT,
                (Edit::Word(4, *b"word"), true, b""),
                (Edit::Read(0, b"1234word"), true, &[0; 8]),
                (Edit::Sync, true, b"1234word"),
                (Edit::Read(0, b"1234word"), true, b"1234word"),
                (Edit::Write(2, b"ab"), true, b""),
                (Edit::Cut(3), true, b""),
                (Edit::Grow(8), true, b""),
                (Edit::Read(0, b"12a\0\0\0\0\0"), true, b"123\0\0\0\0\0"),
                (Edit::Sync, true, b""),
                (Edit::Read(0, b"12a\0\0\0\0\0"), true, b"12a\0\0\0\0\0"),
            ],
            left: b"12a\0\0\0\0\0",
        },
    ),
    // A fault loses nothing.
    (
        "a sync, a growth and a cut that fail",
        Behinds {
            through: false,
            fails: &[(Call::Write, 0), (Call::Grow, 1), (Call::Cut, 0)],
            edits: &[
                (Edit::Grow(8), true, b""),
                EIGHT,
                (Edit::Sync, false, b""),
                (Edit::Read(0, b"12345678"), true, &[0; 8]),
                (Edit::Grow(16), false, b""),
                (Edit::Sync, true, b""),
                (Edit::Read(0, b"12345678"), true, b"12345678"),
                (Edit::Write(4, b"word"), true, b""),
                (Edit::Grow(16), true, b""),
                (Edit::Cut(8), false, b""),
                (Edit::Read(0, b"1234word"), true, b"12345678"),
            ],
            left: b"1234word\0\0\0\0\0\0\0\0",
        },
    ),
    // What is written to a long file is gathered in blocks.
    (
        "a file that gets long",
        Behinds {
            through: false,
            fails: &[],
            edits: &[
                (Edit::Grow(8), true, b""),
                EIGHT,
                (Edit::Read(0, b"12345678"), true, &[0; 8]),
                (Edit::Grow(1_048_577), true, b""),
                (Edit::Read(0, b"12345678"), true, b"12345678"),
                (Edit::Write(4, b"word"), true, b""),
                (Edit::Read(0, b"1234word"), true, b"12345678"),
                (Edit::Sync, true, b""),
                (Edit::Read(0, b"1234word"), true, b"1234word"),
            ],
            left: b"",
        },
    ),
    (
        "a file that is long from the first",
        Behinds {
            through: true,
            fails: &[],
            edits: &[
                (Edit::Grow(8), true, b""),
                EIGHT,
                (Edit::Read(0, b"12345678"), true, b"12345678"),
                (Edit::Grow(1_048_577), true, b""),
                (Edit::Read(0, b"12345678"), true, b"12345678"),
                (Edit::Write(4, b"word"), true, b""),
                (Edit::Read(0, b"1234word"), true, b"1234word"),
                (Edit::Sync, true, b""),
                (Edit::Read(0, b"1234word"), true, b"1234word"),
            ],
            left: b"",
        },
    ),
];

impl Row for Behinds {
    fn holds(&self, rt: HostRuntime) -> Option<bool> {
        let mut inner = failing_disk(rt.alloc(), b"", self.fails)?;
        if inner.len() != Ok(0) {
            return None;
        }
        let mut disk = if self.through {
            WriteBehind::through(inner)
        } else {
            WriteBehind::of_empty(rt.alloc(), inner)
        };
        for (edit, done, within) in self.edits {
            let is_so = is_done(&mut disk, edit)? == *done;
            if !is_so || !disk.inner().as_slice().starts_with(within) {
                return Some(false);
            }
        }
        let left = disk.finish();
        Some(self.left.is_empty() || left.as_slice() == self.left)
    }
}

#[test]
fn caches_show_what_the_disk_has(rt: HostRuntime) {
    for (table, failing) in [
        ("a cache", failing(rt, &CACHINGS)),
        ("long reads", failing(rt, &LONG_READS)),
        ("writes behind", failing(rt, &BEHINDS)),
    ] {
        assert_eq!(rt; failing, None, "{table}");
    }
}

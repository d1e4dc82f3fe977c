//! Tests of the forms in memory, over the public calls of `tdb_disk`: calls that fail where they are told to, and what
//! a stop leaves.

use crate::edits::{Edit, failing_disk, is_done, removes, renames, take_and_give};
use crate::rows::{Row, failing};
use std::alloc::Global;
use tdb_disk::example::publish;
use tdb_disk::{
    Call, Files, FuseDisk, MemDisk, MemFiles, MemSink, MemSource, Pick, Sink, Source, Take,
    TakeRefusal,
};

/// A disk, its calls that are to fail, the calls that are made, and whether each is done. What a stop leaves then, by
/// picks; or how many syncs were made, and how many bytes were read.
struct Edited {
    bytes: &'static [u8],
    fails: &'static [(Call, u64)],
    edits: &'static [(Edit, bool)],
    left: &'static [(Pick, &'static [u8])],
    counts: Option<(u64, u64)>,
}

/// A disk of eight bytes of which no call fails.
const EIGHT: Edited = Edited {
    bytes: b"01234567",
    fails: &[],
    edits: &[],
    left: &[],
    counts: None,
};

/// A disk of sixteen bytes. Each edit asks for the length first, so that of the second round is the eighth such call.
const FAILING: Edited = Edited {
    bytes: b"0123456789abcdef",
    fails: &[
        (Call::Len, 0),
        (Call::Read, 1),
        (Call::Write, 0),
        (Call::WriteWord, 1),
        (Call::Grow, 0),
        (Call::Cut, 1),
        (Call::Sync, 0),
        (Call::Sync, 1),
    ],
    edits: &[
        (Edit::Len(16), false),
        (Edit::Read(0, b"0123"), true),
        (Edit::Write(2, b"word"), false),
        (Edit::Word(4, *b"WORD"), true),
        (Edit::Grow(16), false),
        (Edit::Cut(16), true),
        (Edit::Sync, false),
        (Edit::Len(16), true),
        (Edit::Read(0, b"0123"), false),
        (Edit::Write(2, b"word"), true),
        (Edit::Word(4, *b"WORD"), false),
        (Edit::Grow(16), true),
        (Edit::Cut(16), false),
        (Edit::Sync, false),
        (Edit::Len(16), true),
        (Edit::Read(0, b"01wo"), true),
        (Edit::Write(2, b"word"), true),
        (Edit::Word(4, *b"WORD"), true),
        (Edit::Grow(16), true),
        (Edit::Cut(16), true),
        (Edit::Sync, true),
    ],
    left: &[],
    counts: Some((1, 8)),
};

static EDITED: [(&'static str, Edited); 4] = [
    ("calls that fail", FAILING),
    (
        "a write and a word over each other",
        Edited {
            edits: &[
                (Edit::Write(1, b"abcd"), true),
                (Edit::Word(0, *b"WORD"), true),
                (Edit::Write(6, b"ef"), true),
            ],
            left: &[
                (Pick::Synced, b"01234567"),
                (Pick::Read, b"WORDd5ef"),
                (Pick::Torn, b"WORD\xa55\xa5\xa5"),
            ],
            ..EIGHT
        },
    ),
    (
        "the same and a sync",
        Edited {
            edits: &[
                (Edit::Write(1, b"abcd"), true),
                (Edit::Word(0, *b"WORD"), true),
                (Edit::Write(6, b"ef"), true),
                (Edit::Sync, true),
            ],
            left: &[
                (Pick::Synced, b"WORDd5ef"),
                (Pick::Read, b"WORDd5ef"),
                (Pick::Torn, b"WORDd5ef"),
            ],
            ..EIGHT
        },
    ),
    // A write that is cut away, a growth over its place, and a write into what has grown.
    (
        "a cut and a growth",
        Edited {
            edits: &[
                (Edit::Write(4, b"abcd"), true),
                (Edit::Cut(4), true),
                (Edit::Grow(12), true),
                (Edit::Write(8, b"ef"), true),
            ],
            left: &[
                (Pick::Synced, b"01234567"),
                (Pick::Read, b"0123\0\0\0\0ef\0\0"),
                (Pick::Torn, b"0123\0\0\0\0\xa5\xa5\0\0"),
            ],
            ..EIGHT
        },
    ),
];

impl Row for Edited {
    fn holds(&self, rt: HostRuntime) -> Option<bool> {
        let mut disk = failing_disk(rt.alloc(), self.bytes, self.fails)?;
        for (edit, done) in self.edits {
            if is_done(&mut disk, edit)? != *done {
                return Some(false);
            }
        }
        for (pick, image) in self.left {
            if disk.after_stop(rt.alloc(), *pick).ok()?.as_slice() != *image {
                return Some(false);
            }
        }
        let counts = (disk.syncs(), disk.bytes_read());
        Some(disk.starved() == 0 && self.counts.unwrap_or(counts) == counts)
    }
}

/// A publication over a disk that passes so many calls.
struct Publication(u64);

static PUBLICATIONS: [(&'static str, Publication); 6] = [
    ("no call", Publication(0)),
    ("one call", Publication(1)),
    ("two calls", Publication(2)),
    ("three calls", Publication(3)),
    ("four calls", Publication(4)),
    ("five calls", Publication(5)),
];

impl Row for Publication {
    // It is torn by no stop, and is done by five.
    fn holds(&self, rt: HostRuntime) -> Option<bool> {
        let alloc = rt.alloc();
        let mut fuse = FuseDisk::new(MemDisk::new(alloc, &[0; 12]).ok()?, self.0);
        let done = publish(&mut fuse, *b"name", *b"text").is_ok();
        let disk = fuse.inner();
        for pick in [Pick::Synced, Pick::Read, Pick::Torn] {
            let left = disk.after_stop(alloc, pick).ok()?;
            let both = left.as_slice() == b"\x01\0\0\0nametext".as_slice();
            if !both && (done || !left.as_slice().starts_with(&[0; 4])) {
                return Some(false);
            }
        }
        Some(done == (self.0 == 5))
    }
}

/// Whether a name has these bytes.
fn has(files: &MemFiles, name: &str, wanted: &[u8]) -> bool {
    match files.get(name) {
        Some(bytes) => bytes == wanted,
        None => false,
    }
}

/// Takes a file of three bytes, and writes over the first. Whether the last sync left it as it was, and the files keep
/// what was given back.
fn write_first(alloc: Global) -> Option<bool> {
    let mut files = MemFiles::new(alloc);
    files.put("a", b"one").ok()?;
    files.fail_disk("a", Call::Write, 1).ok()?;
    let there = take_and_give(&mut files, alloc, "a", Take::New) == Some(TakeRefusal::There);
    let Ok(mut disk) = files.take(alloc, "a", Take::Existing) else {
        return None;
    };
    let written = is_done(&mut disk, &Edit::Write(0, b"O")) == Some(true);
    let left = disk.after_stop(alloc, Pick::Synced);
    files.give("a", disk);
    let is_left = left.ok()?.as_slice() == b"one".as_slice();
    Some(there && written && is_left && has(&files, "a", b"One"))
}

/// Whether takes of files of which the first and the third one fail are answered so.
fn takes(alloc: Global) -> Option<bool> {
    let mut files = MemFiles::new(alloc);
    files.fail(Call::Take, 0).ok()?;
    files.fail(Call::Take, 2).ok()?;
    let missing = take_and_give(&mut files, alloc, "a", Take::Existing);
    let made = take_and_give(&mut files, alloc, "a", Take::New);
    let failed = take_and_give(&mut files, alloc, "a", Take::ReadOnly);
    let taken = take_and_give(&mut files, alloc, "a", Take::ReadOnly);
    let is_refused = missing == Some(TakeRefusal::Missing) && failed == Some(TakeRefusal::Failed);
    Some(is_refused && made == None && taken == None)
}

/// Whether renames and removals of which some fail are done so.
fn renames_and_removes(alloc: Global) -> Option<bool> {
    let mut files = MemFiles::new(alloc);
    files.put("a", b"one").ok()?;
    files.fail(Call::Rename, 1).ok()?;
    files.fail(Call::Remove, 0).ok()?;
    let renamed = renames(&mut files, "a", "b") && !renames(&mut files, "b", "a");
    let kept = !removes(&mut files, "b") && has(&files, "b", b"one");
    let removed = removes(&mut files, "b") && files.get("b").is_none();
    Some(renamed && kept && removed && files.starved() == 0)
}

/// A call of a source of `abcde`, of which three bytes are read at a time, or of a sink. The second call of either
/// fails.
enum Transfer {
    /// How many bytes are read, and the three bytes then; None where the call fails.
    Read(Option<(usize, [u8; 3])>),
    /// These bytes are written, and whether that is done.
    Write(&'static [u8], bool),
}

/// Calls of a source and a sink, and what is written then.
struct Transfers(&'static [Transfer], &'static [u8]);

static TRANSFERS: [(&'static str, Transfers); 2] = [
    (
        "reads",
        Transfers(
            &[
                Transfer::Read(Some((3, *b"abc"))),
                Transfer::Read(None),
                Transfer::Read(Some((2, *b"dec"))),
            ],
            b"",
        ),
    ),
    (
        "writes",
        Transfers(
            &[
                Transfer::Write(b"ab", true),
                Transfer::Write(b"cd", false),
                Transfer::Write(b"ef", true),
            ],
            b"abef",
        ),
    ),
];

impl Row for Transfers {
    fn holds(&self, rt: HostRuntime) -> Option<bool> {
        let mut source = MemSource::new(rt.alloc(), b"abcde").ok()?;
        let mut sink = MemSink::new(rt.alloc());
        source.fail(Call::Read, 1).ok()?;
        sink.fail(Call::Write, 1).ok()?;
        let mut buf = [0; 3];
        for transfer in self.0 {
            let is_so = match transfer {
                Transfer::Read(want) => match source.read(&mut buf) {
                    Ok(count) => *want == Some((count, buf)),
                    Err(_) => want.is_none(),
                },
                Transfer::Write(bytes, done) => sink.write(bytes).is_ok() == *done,
            };
            if !is_so {
                return Some(false);
            }
        }
        Some(sink.as_slice() == self.1)
    }
}

#[test]
fn forms_in_memory_fail_and_stop_as_told(rt: HostRuntime) {
    for (table, failing) in [
        ("disks", failing(rt, &EDITED)),
        ("publications", failing(rt, &PUBLICATIONS)),
        ("streams", failing(rt, &TRANSFERS)),
    ] {
        assert_eq!(rt; failing, None, "{table}");
    }
    assert_eq!(rt; write_first(rt.alloc()), Some(true));
    assert_eq!(rt; takes(rt.alloc()), Some(true));
    assert_eq!(rt; renames_and_removes(rt.alloc()), Some(true));
}

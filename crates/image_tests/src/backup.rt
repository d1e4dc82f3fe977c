//! Tests of dumps, restores and copies, over the public calls of `tdb_backup`: files in memory that are built from
//! pairs, and their dumps.

use crate::files::disk_of;
use crate::rows::first_false;
use small_file::HEADER;
use std::alloc::{AllocError, Global};
use tdb_backup::{
    DumpRefusal, InsertRefusal, RestoreRefusal, copy_pairs, insert_new, restore_pairs, write_pairs,
};
use tdb_disk::{Call, MemDisk, MemSink, MemSource};
use tdb_dump::{Listing, push_pair};
use tdb_log::Log;
use tdb_space::Direct;

// How long a file may be where nothing else is said.
const MOST: u64 = 4294963200;

// The dump of three pairs: the key "a" is in chain 7, "b" in chain 70.
const TEXT: &[u8] =
    b"{\nkey(1) = \"a\"\ndata(1) = \"1\"\n}\n{\nkey(0) = \"\"\ndata(5) = \"\\00\\22\\5C\\7F\\FF\"\n}\n{\nkey(1) = \"b\"\ndata(1) = \"2\"\n}\n";

// The dump of one pair.
const ONE: &[u8] = b"{\nkey(1) = \"a\"\ndata(1) = \"1\"\n}\n";

// A file whose lists are all empty. What stands in front of their heads isn't read.
fn empty_file(alloc: Global) -> Result<MemDisk, AllocError> {
    MemDisk::new(alloc, &vec![in alloc; 0u8; 696]?)
}

fn dump(alloc: Global, disk: &mut MemDisk, out: &mut MemSink) -> Result<(), DumpRefusal> {
    write_pairs(alloc, &mut Direct::new(disk, &HEADER), Listing::Pairs, out)
}

/// Whether a file's dump is this text.
fn has_dump(alloc: Global, disk: &mut MemDisk, text: &[u8]) -> bool {
    let mut out = MemSink::new(alloc);
    dump(alloc, disk, &mut out) == Ok(()) && out.as_slice() == text
}

/// A pair that is added to a new file, or else to the one before: its key of at most eight bytes, and its value, which
/// is made longer by so many bytes up to 5000. How long the file may be, how the addition ends, and the dump of the
/// file then, where it is looked at.
struct Added {
    is_new: bool,
    key: &'static [u8],
    value: &'static [u8],
    more: u16,
    limit: u64,
    want: Result<(), InsertRefusal>,
    held: Option<&'static [u8]>,
}

/// The pair of `a`.
const A: Added = Added {
    is_new: false,
    key: b"a",
    value: b"1",
    more: 0,
    limit: MOST,
    want: Ok(()),
    held: None,
};

static ADDED: [(&'static str, Added); 5] = [
    (
        "the key b",
        Added {
            is_new: true,
            key: b"b",
            value: b"2",
            ..A
        },
    ),
    ("the key a", A),
    (
        "the empty key",
        Added {
            key: b"",
            value: b"\x00\"\\\x7f\xff",
            held: Some(TEXT),
            ..A
        },
    ),
    (
        "a pair within the limit",
        Added {
            is_new: true,
            limit: 4096,
            ..A
        },
    ),
    // A value of 5000 bytes needs 6280, and 4096 are the most: the pair before it stays as it is.
    (
        "a pair past it",
        Added {
            key: b"b",
            value: b"",
            more: 5000,
            limit: 4096,
            want: Err(InsertRefusal::Full {
                len: 4096,
                need: 6280,
            }),
            held: Some(ONE),
            ..A
        },
    ),
];

/// The first pair of which that isn't so.
fn failing_add(alloc: Global) -> Result<Option<&'static str>, AllocError> {
    let mut disk = empty_file(alloc)?;
    for (name, row) in &ADDED {
        if row.is_new {
            disk = empty_file(alloc)?;
        }
        let mut value = row.value.to_vec(alloc)?;
        value.resize(row.value.len().max(row.more as usize), b'x')?;
        if row.key.len() > 8 || value.len() > 5000 {
            return Ok(Some(*name));
        }
        let mut s = Direct::new(&mut disk, &HEADER);
        let ended = insert_new(&mut s, row.key, &value, row.limit.min(MOST));
        let is_held = match row.held {
            Some(text) => has_dump(alloc, &mut disk, text),
            None => true,
        };
        if ended != row.want || !is_held {
            return Ok(Some(*name));
        }
    }
    Ok(None)
}

/// How a restore of a text ends.
fn restore(
    alloc: Global,
    input: &mut MemSource,
    disk: &mut MemDisk,
    limit: u64,
) -> Result<(), RestoreRefusal> {
    let mut s = Direct::new(disk, &HEADER);
    let logs: &mut Vec<Box<dyn Log>> = &mut Vec::new(alloc);
    restore_pairs(alloc, input, &mut s, limit.min(MOST), logs)
}

/// What is otherwise where a file of several pairs is copied.
fn failing_copy(alloc: Global) -> Result<Option<&'static str>, AllocError> {
    let mut disk = empty_file(alloc)?;
    let restored = restore(alloc, &mut MemSource::new(alloc, TEXT)?, &mut disk, MOST);
    let mut copy = empty_file(alloc)?;
    let logs: &mut Vec<Box<dyn Log>> = &mut Vec::new(alloc);
    let copied = copy_pairs(
        alloc,
        &mut Direct::new(&mut disk, &HEADER),
        &mut Direct::new(&mut copy, &HEADER),
        MOST,
        logs,
    );
    Ok(first_false(&[
        ("a file of several pairs", restored == Ok(())),
        ("a copy", copied == Ok(())),
        ("the dump of the file", has_dump(alloc, &mut disk, TEXT)),
        ("the dump of the copy", has_dump(alloc, &mut copy, TEXT)),
    ]))
}

/// Reads of a dump. A value of 5000 bytes isn't read at once, and the heads of eight chains are read first.
static READS: [(&'static str, u64); 4] = [
    ("the first heads", 0),
    ("the heads of the next chains", 8),
    ("a read of the record", 9),
    ("the last read", 132),
];

/// The first read that isn't told as such where it fails, or with which a write isn't.
fn failing_read(alloc: Global) -> Result<Option<&'static str>, AllocError> {
    let mut text = Vec::new(alloc);
    push_pair(&mut text, b"a", &vec![in alloc; b'x'; 5000]?)?;
    let mut built = empty_file(alloc)?;
    if restore(alloc, &mut MemSource::new(alloc, &text)?, &mut built, MOST) != Ok(()) {
        return Ok(Some("a file with a long value"));
    }
    for (name, nth) in &READS {
        let mut disk = disk_of(alloc, built.as_slice(), Some((Call::Read, *nth)))?;
        let mut out = MemSink::new(alloc);
        let first = dump(alloc, &mut disk, &mut out);
        let is_empty = out.as_slice().is_empty();
        out.fail(Call::Write, 0)?;
        let second = dump(alloc, &mut disk, &mut out);
        if first != Err(DumpRefusal::Io) || !is_empty || second != Err(DumpRefusal::Failed) {
            return Ok(Some(*name));
        }
    }
    Ok(None)
}

/// What fails in a restore: nothing, the nth read of the source, or the first call of a kind of the disk.
enum Failing {
    Nothing,
    Input(u64),
    Disk(Call),
}

/// The dump of what is restored: the whole text, this one, or one that isn't looked at.
enum Held {
    All,
    Text(&'static [u8]),
    Any,
}

/// A text, with the dump of a pair of `b` behind it whose value has so many bytes, if it has any. How long the file may
/// be, what fails in a restore of the text, how that ends, and what is restored.
struct Restored {
    text: &'static [u8],
    long: usize,
    limit: u64,
    failing: Failing,
    want: Result<(), RestoreRefusal>,
    held: Held,
}

/// Several pairs.
const WHOLE: Restored = Restored {
    text: TEXT,
    long: 0,
    limit: MOST,
    failing: Failing::Nothing,
    want: Ok(()),
    held: Held::All,
};

static RESTORED: [(&'static str, Restored); 13] = [
    (
        "no pairs",
        Restored {
            text: b"",
            held: Held::Text(b""),
            ..WHOLE
        },
    ),
    ("several pairs", WHOLE),
    (
        "a length that begins with 0",
        Restored {
            text: b"{\nkey(01) = ",
            want: Err(RestoreRefusal::Malformed { at: 7 }),
            held: Held::Text(b""),
            ..WHOLE
        },
    ),
    (
        "a key longer than its length",
        Restored {
            text: b"{\nkey(1) = \"ab\"",
            want: Err(RestoreRefusal::Malformed { at: 13 }),
            held: Held::Text(b""),
            ..WHOLE
        },
    ),
    (
        "a length past 32 bits",
        Restored {
            text: b"{\nkey(4294967296) = ",
            want: Err(RestoreRefusal::Malformed { at: 15 }),
            held: Held::Text(b""),
            ..WHOLE
        },
    ),
    (
        "a brace twice",
        Restored {
            text: b"{\nkey(1) = \"a\"\ndata(1) = \"1\"\n}\n{\n",
            want: Err(RestoreRefusal::Malformed { at: 33 }),
            held: Held::Text(ONE),
            ..WHOLE
        },
    ),
    (
        "a key twice",
        Restored {
            text: b"{\nkey(1) = \"a\"\ndata(1) = \"1\"\n}\n{\nkey(1) = \"\\61\"\ndata(0) = \"\"\n}\n",
            want: Err(RestoreRefusal::Malformed { at: 31 }),
            held: Held::Text(ONE),
            ..WHOLE
        },
    ),
    // A value of 70000 bytes doesn't end in the first piece. Its record needs 87532 bytes with its header.
    (
        "a long value",
        Restored {
            text: ONE,
            long: 70000,
            ..WHOLE
        },
    ),
    (
        "a long value past the limit",
        Restored {
            text: ONE,
            long: 70000,
            limit: 4096,
            want: Err(RestoreRefusal::Full {
                len: 4096,
                need: 87532,
            }),
            held: Held::Any,
            ..WHOLE
        },
    ),
    (
        "the first read of the source",
        Restored {
            failing: Failing::Input(0),
            want: Err(RestoreRefusal::Input),
            held: Held::Text(b""),
            ..WHOLE
        },
    ),
    (
        "the second read of the source",
        Restored {
            failing: Failing::Input(1),
            want: Err(RestoreRefusal::Input),
            ..WHOLE
        },
    ),
    (
        "the first growth of the disk",
        Restored {
            failing: Failing::Disk(Call::Grow),
            want: Err(RestoreRefusal::Io),
            held: Held::Any,
            ..WHOLE
        },
    ),
    (
        "the first write of the disk",
        Restored {
            failing: Failing::Disk(Call::Write),
            want: Err(RestoreRefusal::Io),
            held: Held::Any,
            ..WHOLE
        },
    ),
];

/// Whether a restore of a row's text ends so. Where nothing is restored, the file stays as it was.
fn restore_holds(alloc: Global, row: &Restored) -> Result<bool, AllocError> {
    let mut text = row.text.to_vec(alloc)?;
    if row.long > 0 {
        push_pair(&mut text, b"b", &vec![in alloc; b'x'; row.long]?)?;
    }
    let mut disk = empty_file(alloc)?;
    let mut input = MemSource::new(alloc, &text)?;
    match &row.failing {
        Failing::Nothing => {}
        Failing::Input(nth) => input.fail(Call::Read, *nth)?,
        Failing::Disk(call) => disk.fail(*call, 0)?,
    }
    let ended = restore(alloc, &mut input, &mut disk, row.limit);
    let is_held = match row.held {
        Held::All => has_dump(alloc, &mut disk, &text),
        Held::Text(held) if held.is_empty() => { disk.as_slice() == empty_file(alloc)?.as_slice() }
        Held::Text(held) => has_dump(alloc, &mut disk, held),
        Held::Any => true,
    };
    Ok(ended == row.want && is_held)
}

/// The first text of which a restore ends otherwise.
fn failing_restore(alloc: Global) -> Result<Option<&'static str>, AllocError> {
    for (name, row) in &RESTORED {
        if !restore_holds(alloc, row)? {
            return Ok(Some(*name));
        }
    }
    Ok(None)
}

#[test]
fn pairs_are_dumped_and_restored(rt: HostRuntime) {
    let alloc = rt.alloc();
    for (table, failing) in [
        ("pairs that are added", failing_add(alloc)),
        ("a copy", failing_copy(alloc)),
        ("reads of a dump", failing_read(alloc)),
        ("texts", failing_restore(alloc)),
    ] {
        assert_eq!(rt; failing, Ok(None), "{table}");
    }
}

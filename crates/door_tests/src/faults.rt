// Command lines over a file of two chains, of whose disk each call fails in turn: which bytes are others then.

use crate::images::{Image, NEW, NEW_FILE, bytes_of};
use crate::runs::Failing::Disk;
use crate::runs::{CALLS, answer};
use small_file::Word;
use std::alloc::{AllocError, Global};
use tdb_disk::{Call, MemFiles};
use tdb_words::{FREE, USED};

/// Behind the header: the heads of the free list and of two chains, a free record, the long record of `g`, and those of
/// `f`, `e`, a free one, `c`, a free one, and `a`. Chain 0 has `f`, chain 1 has `g`, `e`, `c` and `a`. So the stock
/// library leaves the file after stores of `a` to `g` and deletes of `b` and `d`.
const RECORDS: [Word; 60] = [
    (168, 3968),
    (172, 3904),
    (176, 312),
    (184, 108),
    (200, FREE),
    (308, 132),
    (312, 3936),
    (316, 3568),
    (320, 1),
    (324, 2850),
    (328, 0x93F0_496B),
    (332, USED),
    (336, 103),
    (3900, 3592),
    (3908, 8),
    (3912, 1),
    (3916, 1),
    (3920, 0x5229_FB00),
    (3924, USED),
    (3928, 0x3166),
    (3932, 32),
    (3936, 4000),
    (3940, 8),
    (3944, 1),
    (3948, 1),
    (3952, 0x1063_AC95),
    (3956, USED),
    (3960, 0x3165),
    (3964, 32),
    (3968, 4032),
    (3972, 8),
    (3976, 1),
    (3980, 1),
    (3984, 0xCE9D_5E2A),
    (3988, FREE),
    (3992, 0x3164),
    (3996, 32),
    (4000, 4064),
    (4004, 8),
    (4008, 1),
    (4012, 1),
    (4016, 0x8CD7_0FBF),
    (4020, USED),
    (4024, 0x3163),
    (4028, 32),
    (4032, 180),
    (4036, 8),
    (4040, 1),
    (4044, 1),
    (4048, 0x4B10_C154),
    (4052, FREE),
    (4056, 0x3162),
    (4060, 32),
    (4068, 8),
    (4072, 1),
    (4076, 1),
    (4080, 0x094A_72E9),
    (4084, USED),
    (4088, 0x3161),
    (4092, 32),
];

/// The number of chains and a sequence number; and behind the records an undo area whose gate is shut, and which still
/// holds what a commit kept in it.
const AREA: [Word; 11] = [
    (36, 2),
    (44, 4096),
    (48, 5),
    (4100, 72),
    (4104, 4096),
    (4108, 25),
    (4120, 48),
    (4124, 4),
    (4132, 4089),
    (4136, 1),
    (4140, 0x0010_0031),
];

const TWO_CHAINS: Image = Image {
    words: &[&NEW_FILE, &RECORDS, &AREA],
    len: 4192,
    ..NEW
};

/// Some places of the file, in order and apart: where each begins and where it ends.
type Places = &'static [(usize, usize)];

/// A command line, its input, its status where nothing fails, and the places of the file where bytes may be others.
type Row = (&'static str, &'static str, u8, Places);

/// What an update of `a` in its place writes: the length of its value and the value.
const UPDATED: Places = &[(4076, 4080), (4089, 4092)];

/// The head of the free list and that of chain 0, and the first free record, which is used whole.
const INSERTED: Places = &[(168, 176), (3968, 4000)];

/// The record that is made where the file grows from 4192 to 8192 bytes, and the free one in front of it, are new.
const GROWN: Places = &[(168, 176), (4192, 8192)];

/// A new record in front of the chain. The old one leaves the chain behind the record of `g`, and becomes one with the
/// free record behind it.
const REPLACED: Places = &[
    (168, 172),
    (176, 180),
    (184, 188),
    (268, 316),
    (3936, 3960),
    (3996, 4000),
];

/// The record of `c` becomes one with the free records in front of it and behind it.
const MERGED: Places = &[(168, 172), (3936, 3940), (3968, 3992), (4060, 4064)];

/// The record of `f` becomes the first free one.
const FREED: Places = &[(168, 176), (3904, 3928)];

/// All heads, and one free record up to the undo area.
const WIPED: Places = &[(168, 204), (4092, 4096)];

/// The value of `a`, and the undo area but for its length.
const COMMITTED: Places = &[(4089, 4090), (4104, 4192)];

/// What a delete of `c` changes but for the head of the free list, and the undo area but for its length.
const MOVED: Places = &[(3936, 3940), (3968, 3992), (4060, 4064), (4104, 4192)];

/// A new undo area behind the old one, which becomes free, and what a new record for `e` changes.
const COMMITTED_ANEW: Places = &[
    (44, 48),
    (168, 172),
    (176, 180),
    (184, 188),
    (268, 316),
    (3936, 3960),
    (3996, 4000),
    (4096, 8288),
];

static ROWS: [Row; 58] = [
    ("tool f.tdb store a 123", "", 0, UPDATED),
    ("tool f.tdb storehex 61 32", "", 0, &[(4089, 4090)]),
    ("tool f.tdb insert h 1", "", 0, INSERTED),
    ("tool f.tdb storehex 68 31", "", 0, INSERTED),
    // The head of the chain, the length of the free record that is cut, its new tailer, and behind it the new record.
    (
        "tool f.tdb store h 123456789",
        "",
        0,
        &[(172, 176), (184, 188), (268, 312)],
    ),
    // The free record in front of too little is used whole, and the one that led to it leads on.
    (
        "tool f.tdb store h 123456789012345678901234567890123456789012345678901234567890123",
        "",
        0,
        &[(172, 176), (180, 312), (4032, 4036)],
    ),
    (
        "tool f.tdb insert h 123456789012345678901234567890123456789012345678901234567890123456789012345678901234567",
        "",
        0,
        GROWN,
    ),
    ("tool f.tdb store e 123456789", "", 0, REPLACED),
    ("tool f.tdb insert a 2", "", 1, &[]),
    ("tool f.tdb delete c", "", 0, MERGED),
    ("tool f.tdb delete f", "", 0, FREED),
    // It becomes one with the free record in front of it, to which the first free one led.
    (
        "tool f.tdb delete a",
        "",
        0,
        &[
            (168, 172),
            (3968, 3972),
            (4000, 4004),
            (4032, 4056),
            (4092, 4096),
        ],
    ),
    ("tool f.tdb delete h", "", 1, &[]),
    ("tool f.tdb erase", "", 0, WIPED),
    ("tool f.tdb move c h.tdb", "", 0, MOVED),
    ("tool f.tdb show a", "", 0, &[]),
    ("tool f.tdb check", "", 0, &[]),
    ("tool f.tdb first", "", 0, &[]),
    ("tool f.tdb next", "", 0, &[]),
    ("tool f.tdb dump", "", 0, &[]),
    ("tool f.tdb keys", "", 0, &[]),
    ("tool f.tdb hexkeys", "", 0, &[]),
    ("tool f.tdb quit", "", 0, &[]),
    ("tool f.tdb transaction_start", "", 0, &[]),
    ("tool f.tdb transaction_commit", "", 1, &[]),
    ("tool f.tdb transaction_cancel", "", 1, &[]),
    ("tool f.tdb info", "", 0, &[]),
    ("tool f.tdb list", "", 0, &[]),
    ("tool f.tdb free", "", 0, &[]),
    ("dump f.tdb", "", 0, &[]),
    ("dump -k a f.tdb", "", 0, &[]),
    ("dump -e f.tdb", "", 0, &[]),
    ("backup f.tdb", "", 0, &[]),
    ("backup -v f.tdb", "", 0, &[]),
    ("convert f.tdb g.tdb", "", 0, &[]),
    ("convert --into f.tdb h.tdb", "", 0, &[]),
    // Each value is there already.
    ("convert --into h.tdb f.tdb", "", 0, &[]),
    ("mend f.tdb g.tdb", "", 0, &[]),
    ("tool f.tdb", "store a 123\n", 0, UPDATED),
    ("tool f.tdb", "insert h 1\n", 0, INSERTED),
    (
        "tool f.tdb",
        "store h 123456789012345678901234567890123456789012345678901234567890123456789012345678901234567\n",
        0,
        GROWN,
    ),
    (
        "tool f.tdb",
        "storehex 65 313233343536373839\n",
        0,
        REPLACED,
    ),
    ("tool f.tdb", "delete c\n", 0, MERGED),
    ("tool f.tdb", "erase\n", 0, WIPED),
    (
        "tool f.tdb",
        "show a\nfirst\nnext\nnext\ndump\nkeys\nhexkeys\ncheck\ninsert a 2\ndelete h\nquit\n",
        0,
        &[],
    ),
    (
        "tool f.tdb",
        "transaction_start\nstore a 9\ntransaction_commit\n",
        0,
        COMMITTED,
    ),
    (
        "tool f.tdb",
        "transaction_start\nstore e 123456789\ntransaction_commit\n",
        0,
        COMMITTED_ANEW,
    ),
    (
        "tool f.tdb",
        "transaction_start\nerase\ntransaction_cancel\n",
        0,
        &[],
    ),
    ("turns f.tdb", "open\ndo 1 append a 2\n", 0, UPDATED),
    ("turns f.tdb", "open\ndo 1 modify a 2\n", 0, &[(4089, 4090)]),
    (
        "turns --seqnum f.tdb",
        "open\ndo 1 store a 123\n",
        0,
        &[(48, 52), (4076, 4080), (4089, 4092)],
    ),
    ("turns f.tdb", "open\ndo 1 insert h 1\n", 0, INSERTED),
    ("turns f.tdb", "open\ndo 1 store e 123456789\n", 0, REPLACED),
    ("turns f.tdb", "open\ndo 1 delete c\n", 0, MERGED),
    ("turns f.tdb", "open\ndo 1 wipe\n", 0, WIPED),
    // A cursor stands on the record while it is deleted, and takes it out when it goes on.
    (
        "turns f.tdb",
        "open\nopen\ndo 1 first\ndo 2 delete f\ndo 1 next\n",
        0,
        FREED,
    ),
    (
        "turns --seqnum f.tdb",
        "open\ndo 1 start\ndo 1 store a 9\ndo 1 commit\n",
        0,
        &[(48, 52), (4089, 4090), (4104, 4192)],
    ),
    (
        "turns --read-only f.tdb",
        "open\ndo 1 fetch a\ndo 1 check\ndo 1 store a 9\ndo 1 close\n",
        0,
        &[],
    ),
];

/// Whether bytes are others at these places alone. There may be more of them, but not fewer.
fn differ_only(bytes: &[u8], before: &[u8], places: Places) -> bool {
    let mut end = 0;
    for (from, to) in places {
        if bytes.get(end..*from) != before.get(end..*from) {
            return false;
        }
        end = *to;
    }
    let left = bytes.get(end..).unwrap_or(&[]);
    bytes.len() >= before.len() && left == before.get(end..).unwrap_or(&[])
}

/// The status of a row's command over the file of these bytes where the nth call of a kind fails, and whether it leaves
/// the file so. There is another file of these bytes.
fn command_failing(
    alloc: Global,
    row: &Row,
    before: &[u8],
    call: Call,
    nth: u64,
) -> Result<(u8, bool), AllocError> {
    let (words, text, _, places) = row;
    let mut files = MemFiles::new(alloc);
    files.put("f.tdb", before)?;
    files.put("h.tdb", before)?;
    let failing = Disk("f.tdb", call, nth);
    let logs = &mut Vec::new(alloc);
    let (status, _) = answer(alloc, &mut files, words, text.as_bytes(), &failing, logs)?;
    let bytes = files.get("f.tdb").unwrap_or(&[]);
    Ok((status, differ_only(bytes, before, *places)))
}

/// Whether a row's command leaves the file so, whichever call of a kind fails, up to the first run in which none does.
/// Each command reads.
fn kind_holds(alloc: Global, row: &Row, before: &[u8], call: Call) -> Result<bool, AllocError> {
    for nth in 0..1000 {
        let (status, is_so) = command_failing(alloc, row, before, call, nth)?;
        if !is_so || status != 4 {
            return Ok(is_so && status == row.2 && (nth > 0 || call != Call::Read));
        }
    }
    Ok(false)
}

/// The first kind of calls with which a row's command leaves other bytes.
fn failing_kind(
    alloc: Global,
    row: &Row,
    before: &[u8],
) -> Result<Option<&'static str>, AllocError> {
    for (kind, call) in &CALLS {
        if !kind_holds(alloc, row, before, *call)? {
            return Ok(Some(*kind));
        }
    }
    Ok(None)
}

/// The first command that leaves other bytes, its input, and the kind of calls of which one fails then.
pub(crate) fn failing_row(
    alloc: Global,
) -> Result<Option<(&'static str, &'static str, &'static str)>, AllocError> {
    let before = bytes_of(alloc, &TWO_CHAINS, &[])?;
    for row in &ROWS {
        if let Some(kind) = failing_kind(alloc, row, &before)? {
            return Ok(Some((row.0, row.1, kind)));
        }
    }
    Ok(None)
}

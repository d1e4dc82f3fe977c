//! Tests of rescues, over the public call of `tdb_rescue`: damaged files in memory, and what can still be read of them.

use crate::files::{disk_of, file_of};
use small_file::{HEADER, RECORD, Word};
use std::alloc::{AllocError, Global};
use tdb_disk::{Call, MemSink};
use tdb_rescue::{RescueRefusal, rescue};
use tdb_space::Direct;
use tdb_words::{FREE, GATE_OPEN, HashKind, Header, Order, USED};

// The dump of the pair of the small file.
const ONE: &[u8] = b"{\nkey(1) = \"a\"\ndata(1) = \"1\"\n}\n";

// The same where the value is another one.
const NINE: &[u8] = b"{\nkey(1) = \"a\"\ndata(1) = \"9\"\n}\n";

// The hash of the key `b`.
const HASH_OF_B: u32 = 0x4B10_C154;

// A record at 800 with the key `b` and a value of 35 bytes, in which a whole record stands at 828: it has the key `c`
// and the value `3`.
const NESTED: [Word; 14] = [
    (804, 40),
    (808, 1),
    (812, 35),
    (816, HASH_OF_B),
    (820, USED),
    (824, 0x7878_7862),
    (832, 8),
    (836, 1),
    (840, 1),
    (844, 0x8CD7_0FBF),
    (848, USED),
    (852, 0x4242_3363),
    (856, 32),
    (860, 64),
];

const NESTED_TEXT: &[u8] =
    b"{\nkey(1) = \"b\"\ndata(35) = \"xxx\\00\\00\\00\\00\\08\\00\\00\\00\\01\\00\\00\\00\\01\\00\\00\\00\\BF\\0F\\\x447\\8C\\99\\19\\01&c3BB \\00\\00\\00\"\n}\n{\nkey(1) = \"c\"\ndata(1) = \"3\"\n}\n{\nkey(1) = \"a\"\ndata(1) = \"1\"\n}\n";

// A value of 65,536 bytes, which with its key passes what is read at once, and behind it the pair of the small file.
const LONG: [Word; 14] = [
    (804, 65_544),
    (808, 1),
    (812, 65_536),
    (816, HASH_OF_B),
    (820, USED),
    (824, 0x7878_7862),
    (66_364, 65_568),
    (66_404, 8),
    (66_408, 1),
    (66_412, 1),
    (66_416, 0x094A_72E9),
    (66_420, USED),
    (66_424, 0x4242_3161),
    (66_428, 32),
];

/// What is written: this text, or so many bytes.
enum Written {
    Text(&'static [u8]),
    Bytes(usize),
}

/// A file of this length and byte order with words, of which the later ones overwrite the earlier ones, and else full
/// of one byte. The header by which it is read, the call of the file and of the output that fails, what a rescue
/// answers, and what it writes.
struct Rescue {
    len: usize,
    fill: u8,
    order: Order,
    words: &'static [Word],
    changes: &'static [Word],
    header: Header,
    failing: Option<(Call, u64)>,
    want: Result<u64, RescueRefusal>,
    written: Written,
}

/// The small file, of which nothing can be read.
const NONE: Rescue = Rescue {
    len: 4096,
    fill: 0,
    order: Order::Little,
    words: &RECORD,
    changes: &[],
    header: HEADER,
    failing: None,
    want: Ok(0),
    written: Written::Text(b""),
};

/// The pair of the small file can be read.
const READ: Rescue = Rescue {
    want: Ok(1),
    written: Written::Text(ONE),
    ..NONE
};

/// The small file in the other byte order, with Jenkins' hash.
const OTHER: Rescue = Rescue {
    order: Order::Big,
    changes: &[(4080, 0x58D6_8708), (4088, 0x6131_4242)],
    ..NONE
};

/// The file with a long value in which a call fails. The first read is that of the front, the second that of the long
/// record's tailer, the third that of its pair, and the fourth that of what follows.
const FAULT: Rescue = Rescue {
    len: 70_000,
    fill: b'x',
    words: &LONG,
    failing: Some((Call::Read, 0)),
    want: Err(RescueRefusal::Io),
    written: Written::Bytes(0),
    ..NONE
};

static RESCUES: [(&'static str, Rescue); 15] = [
    (
        "a chain that is cut",
        Rescue {
            changes: &[(200, 0)],
            ..READ
        },
    ),
    (
        "a tailer that is wrong",
        Rescue {
            changes: &[(4092, 33)],
            ..NONE
        },
    ),
    (
        "the hash of another key",
        Rescue {
            changes: &[(4080, HASH_OF_B)],
            ..NONE
        },
    ),
    (
        "a free record",
        Rescue {
            changes: &[(4084, FREE)],
            ..NONE
        },
    ),
    (
        "a key of one byte too many",
        Rescue {
            changes: &[(4072, 4)],
            ..NONE
        },
    ),
    (
        "an undo area whose gate is open",
        Rescue {
            changes: &[(44, 696), (716, GATE_OPEN), (4088, 0x4242_3961)],
            written: Written::Text(NINE),
            ..READ
        },
    ),
    (
        "a record inside another",
        Rescue {
            changes: &NESTED,
            want: Ok(3),
            written: Written::Text(NESTED_TEXT),
            ..READ
        },
    ),
    (
        "the other form",
        Rescue {
            header: Header {
                order: Order::Big,
                hash: HashKind::Jenkins,
                ..HEADER
            },
            want: Ok(1),
            written: Written::Text(ONE),
            ..OTHER
        },
    ),
    ("the usual form", OTHER),
    (
        "no call",
        Rescue {
            failing: Some((Call::Read, 9)),
            want: Ok(2),
            written: Written::Bytes(65_601),
            ..FAULT
        },
    ),
    ("the first read", FAULT),
    (
        "the third read",
        Rescue {
            failing: Some((Call::Read, 2)),
            ..FAULT
        },
    ),
    (
        "a read behind a long pair",
        Rescue {
            failing: Some((Call::Read, 3)),
            written: Written::Bytes(65_570),
            ..FAULT
        },
    ),
    (
        "the first write",
        Rescue {
            failing: Some((Call::Write, 0)),
            want: Err(RescueRefusal::OutFailed),
            ..FAULT
        },
    ),
    (
        "the last write",
        Rescue {
            failing: Some((Call::Write, 1)),
            want: Err(RescueRefusal::OutFailed),
            written: Written::Bytes(65_570),
            ..FAULT
        },
    ),
];

/// The first file of which a rescue answers or writes something else, or which it doesn't leave as it is.
fn failing_rescue(alloc: Global) -> Result<Option<&'static str>, AllocError> {
    for (name, row) in &RESCUES {
        let bytes = file_of(alloc, row.len, row.fill, row.order, row.words, row.changes)?;
        let mut disk = disk_of(alloc, &bytes, row.failing)?;
        let mut out = MemSink::new(alloc);
        if let Some((call, nth)) = row.failing {
            out.fail(call, nth)?;
        }
        let answer = rescue(alloc, &mut Direct::new(&mut disk, &row.header), &mut out);
        let is_written = match row.written {
            Written::Text(text) => out.as_slice() == text,
            Written::Bytes(count) => out.as_slice().len() == count,
        };
        if answer != row.want || !is_written || disk.as_slice() != bytes.as_slice() {
            return Ok(Some(*name));
        }
    }
    Ok(None)
}

#[test]
fn pairs_are_rescued(rt: HostRuntime) {
    assert_eq!(rt; failing_rescue(rt.alloc()), Ok(None));
}

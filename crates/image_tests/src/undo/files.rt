// Small files in memory: sound ones, and ones with an undo area.

use crate::files::{put, put_words};
use small_file::{RECORD, Word};
use std::alloc::{AllocError, Global};
use tdb_words::{GATE_OPEN, GATE_SHUT, HashKind, Order, header_bytes};

/// The file with one record, made longer by zeros to `len` bytes, with other words and then other bytes at some places.
/// At `header_at`, if that is an offset, its first 44 bytes stand once more.
#[derive(Drop)]
pub(crate) struct Image {
    pub(crate) len: usize,
    pub(crate) words: &'static [Word],
    pub(crate) later: &'static [Word],
    pub(crate) bytes: &'static [(usize, &'static [u8])],
    pub(crate) header_at: Option<usize>,
}

/// The file with one record.
pub(crate) const FILE: Image = Image {
    len: 4096,
    words: &[],
    later: &[],
    bytes: &[],
    header_at: None,
};

/// That file with an undo area behind it that keeps nothing, and has room for 4072 bytes.
pub(crate) const ROOM: Image = Image {
    len: 8192,
    words: &[(44, 4096), (4100, 4072)],
    ..FILE
};

/// An undo area behind that file, but for its gate: one entry keeps the sequence number, one the value.
const AREA: [Word; 9] = [
    (44, 4096),
    (4100, 4072),
    (4104, 4096),
    (4108, 25),
    (4120, 48),
    (4124, 4),
    (4132, 4089),
    (4136, 1),
    (4141, 4096),
];

/// That file with this undo area, whose gate is open: the sequence number and the value are others.
pub(crate) const OPEN: Image = Image {
    len: 8192,
    words: &AREA,
    later: &[(48, 5), (4116, GATE_OPEN)],
    bytes: &[(4089, b"9"), (4140, b"1")],
    ..FILE
};

/// The file with this undo area before its gate is opened and something else is written.
pub(crate) const FILLED: Image = Image {
    later: &[(48, 0), (4116, GATE_SHUT)],
    bytes: &[(4089, b"1"), (4140, b"1")],
    ..OPEN
};

/// The file with an open gate where a further entry in front of the two keeps the header as it is.
pub(crate) const WHOLE: Image = Image {
    words: &[
        (44, 4096),
        (48, 5),
        (4100, 4072),
        (4104, 4096),
        (4108, 77),
        (4116, GATE_OPEN),
    ],
    later: &[
        (4124, 44),
        (4172, 48),
        (4176, 4),
        (4184, 4089),
        (4188, 1),
        (4193, 4096),
    ],
    bytes: &[(4089, b"9"), (4192, b"1")],
    header_at: Some(4128),
    ..OPEN
};

/// The bytes of a file.
pub(crate) fn bytes_of(alloc: Global, image: &Image) -> Result<Vec<u8>, AllocError> {
    let header = header_bytes(131, Order::Little, HashKind::Old);
    let mut bytes = vec![in alloc; 0u8; image.len]?;
    put(&mut bytes, 0, &header);
    put_words(&mut bytes, Order::Little, &RECORD);
    put_words(&mut bytes, Order::Little, image.words);
    put_words(&mut bytes, Order::Little, image.later);
    for (at, what) in image.bytes {
        put(&mut bytes, *at, what);
    }
    if let Some(at) = image.header_at {
        put(&mut bytes, at, &header[..44]);
    }
    Ok(bytes)
}

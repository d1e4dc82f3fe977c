// Files of known bytes, as the stock library makes them.

use crate::files::Image;
use small_file::{HEADER, RECORD, Word};
use tdb_disk::MemDisk;
use tdb_words::{GATE_OPEN, Header, Order, word_bytes};

/// The file of one record.
pub(crate) const ONE: Image = Image {
    header: HEADER,
    len: 4096,
    words: &[&RECORD],
};

/// The same with the last of all sequence numbers.
pub(crate) const LAST_NUMBER: Image = Image {
    header: Header {
        sequence: 0xFFFF_FFFF,
        ..HEADER
    },
    ..ONE
};

/// The value `9` and the sequence number 5 in the file of one record, and behind it the undo area that keeps what was
/// before, with its gate open.
const UNDO: [Word; 12] = [
    (44, 4096),
    (48, 5),
    (4088, 0x4242_3961),
    (4100, 4072),
    (4104, 4096),
    (4108, 25),
    (4116, GATE_OPEN),
    (4120, 48),
    (4124, 4),
    (4132, 4089),
    (4136, 1),
    (4140, 0x0010_0031),
];

/// The same with a further entry in front of the two, which keeps the front of the header as it is.
const UNDO_WITH_HEADER: [Word; 18] = [
    (44, 4096),
    (48, 5),
    (4088, 0x4242_3961),
    (4100, 4072),
    (4104, 4096),
    (4108, 77),
    (4116, GATE_OPEN),
    (4124, 44),
    (4128, 0x2042_4454),
    (4132, 0x656C_6966),
    (4136, 10),
    (4160, 0x2601_196D),
    (4164, 131),
    (4172, 48),
    (4176, 4),
    (4184, 4089),
    (4188, 1),
    (4192, 0x0010_0031),
];

/// Files with an undo area whose gate is open, of each of which the file of one record is what it was before.
pub(crate) const OPEN: Image = Image {
    len: 8192,
    words: &[&RECORD, &UNDO],
    ..ONE
};

pub(crate) const OPEN_WITH_HEADER: Image = Image {
    words: &[&RECORD, &UNDO_WITH_HEADER],
    ..OPEN
};

/// Whether these words stand in the file on a disk.
pub(crate) fn has_words(disk: &MemDisk, words: &[Word]) -> bool {
    for (at, word) in words {
        match disk.as_slice().get(*at..) {
            Some(rest) if rest.starts_with(&word_bytes(*word, Order::Little)) => {}
            _ => return false,
        }
    }
    true
}

// A file of 131 chains and 4,096 bytes after `store a 1`, as the stock library writes it.

use tdb_words::{FREE, HashKind, Header, Order, USED};

/// A word of a file: its offset, and the number there.
pub type Word = (usize, u32);

/// The header of the file.
pub const HEADER: Header = Header {
    order: Order::Little,
    hash: HashKind::Old,
    hash_size: 131,
    recovery_start: 0,
    sequence: 0,
};

/// The words behind the header that aren't 0: a free record at 696, and behind it, at 4064, that of the key `a`, which
/// is filed in chain 7, with the value `1` at 4089.
pub const RECORD: [Word; 12] = [
    (168, 696),
    (200, 4064),
    (700, 3344),
    (716, FREE),
    (4060, 3368),
    (4068, 8),
    (4072, 1),
    (4076, 1),
    (4080, 0x094A_72E9),
    (4084, USED),
    (4088, 0x4242_3161),
    (4092, 32),
];

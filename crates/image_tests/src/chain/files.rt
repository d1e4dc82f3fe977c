//! A chain of three records in a small file.

ghost use Rattle.std.specs.Prelude.{◌≡◌};

use crate::files::{put, put_words};
use small_file::Word;
use std::alloc::{AllocError, Global};
use tdb_words::{DEAD, HashKind, Header, Order, USED};

// The stock library's hashes of the keys "a" and "b", and of the empty key.
pub(crate) const HASH_OF_A: u32 = 0x094A_72E9;

pub(crate) const HASH_OF_B: u32 = 0x4B10_C154;

const HASH_OF_EMPTY: u32 = 12345;

// A chain of a dead record of "a", the record of the empty key with the value "xy", and that of "a" with the value "1";
// behind them 40 bytes that are in no list.
const WORDS: [Word; 22] = [
    (172, 176),
    (176, 208),
    (180, 8),
    (184, 1),
    (188, 1),
    (192, HASH_OF_A),
    (196, DEAD),
    (204, 32),
    (208, 240),
    (212, 8),
    (216, 0),
    (220, 2),
    (224, HASH_OF_EMPTY),
    (228, USED),
    (236, 32),
    (240, 0),
    (244, 8),
    (248, 1),
    (252, 1),
    (256, HASH_OF_A),
    (260, USED),
    (268, 32),
];

/// Four bytes of a file, and their offset.
pub(crate) type Content = (usize, [u8; 4]);

// What the three records hold.
const CONTENTS: [Content; 3] = [(200, *b"a0BB"), (232, *b"xyBB"), (264, *b"a1BB")];

/// Words and contents over those of the file, and how many bytes of padding stand from 300 on.
pub(crate) struct Changed {
    pub(crate) words: &'static [Word],
    pub(crate) contents: &'static [Content],
    pub(crate) padding: usize,
}

/// The file as it is.
pub(crate) const NOTHING: Changed = Changed {
    words: &[],
    contents: &[],
    padding: 0,
};

// Puts contents into a file.
fn put_contents(bytes: &mut [u8], contents: &[Content]) {
    for (at, content) in contents {
        put(bytes, *at, content);
    }
}

// The file in so many bytes, and changed so.
pub(crate) fn image_of(
    alloc: Global,
    len: usize,
    order: Order,
    changed: &Changed,
) -> Result<Vec<u8>, AllocError> {
    let mut image = vec![in alloc; 0u8; len]?;
    put_words(&mut image, order, &WORDS);
    put_contents(&mut image, &CONTENTS);
    put_words(&mut image, order, changed.words);
    put_contents(&mut image, changed.contents);
    for byte in image.iter_mut().skip(300).take(changed.padding) {
        *byte = 0x42;
    }
    Ok(image)
}

pub(crate) fn header(order: Order) -> Header
    ensures { result.hash_size ≡ 1 }
{
    Header {
        order,
        hash: HashKind::Old,
        hash_size: 1,
        recovery_start: 0,
        sequence: 0,
    }
}

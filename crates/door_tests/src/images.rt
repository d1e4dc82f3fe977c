// Files of known bytes, as the stock library makes them.

use small_file::{RECORD, Word};
use std::alloc::{AllocError, Global};
use tdb_words::{Order, word_bytes};

/// The bytes of a file: a text at its front, words of a byte order at their offsets, of which the later ones overwrite
/// the earlier ones, and zeros elsewhere, up to a length.
#[derive(Clone, Copy)]
pub(crate) struct Image {
    pub(crate) front: &'static str,
    pub(crate) order: Order,
    pub(crate) words: &'static [&'static [Word]],
    pub(crate) len: u32,
}

/// Writes words into bytes, those that find place there.
fn put_words(bytes: &mut [u8], order: Order, words: &[Word]) {
    for (at, word) in words {
        if *at <= bytes.len() && bytes.len() - *at >= 4 {
            bytes[*at..*at + 4].copy_from_slice(&word_bytes(*word, order));
        }
    }
}

/// The bytes of an image in which words were changed.
pub(crate) fn bytes_of(
    alloc: Global,
    image: &Image,
    changes: &[Word],
) -> Result<Vec<u8>, AllocError> {
    let len = image.len as usize;
    let mut bytes = image.front.as_bytes().to_vec(alloc)?;
    bytes.resize(len + 4, 0)?;
    for words in image.words {
        put_words(&mut bytes, image.order, words);
    }
    put_words(&mut bytes, image.order, changes);
    bytes.truncate(len);
    Ok(bytes)
}

/// Whether there are these little-endian words in some bytes.
pub(crate) fn has_words(alloc: Global, bytes: &[u8], words: &[Word]) -> Result<bool, AllocError> {
    let mut changed = bytes.to_vec(alloc)?;
    put_words(&mut changed, Order::Little, words);
    Ok(changed.as_slice() == bytes)
}

/// The header of a new file of 131 chains, as the stock tool makes it.
pub(crate) const NEW_FILE: [Word; 4] = [
    (32, 0x2601_196D),
    (36, 131),
    (52, 0xF67D_9F0D),
    (56, 0x3AFE_F920),
];

/// The same with Jenkins' hash, as the stock library makes it.
pub(crate) const NEW_JENKINS_FILE: [Word; 5] = [
    (32, 0x2601_196D),
    (36, 131),
    (40, 0x0BAD_1A51),
    (52, 0xD7B6_94E5),
    (56, 0x123C_1283),
];

/// A new file.
pub(crate) const NEW: Image = Image {
    front: "TDB file\n",
    order: Order::Little,
    words: &[&NEW_FILE],
    len: 696,
};

/// A new file of the other byte order, with Jenkins' hash.
pub(crate) const NEW_BIG: Image = Image {
    order: Order::Big,
    words: &[&NEW_JENKINS_FILE],
    ..NEW
};

/// The same of one chain.
pub(crate) const ONE_BIG_CHAIN: Image = Image {
    words: &[&NEW_JENKINS_FILE, &[(36, 1)]],
    len: 176,
    ..NEW_BIG
};

/// The file of the record of `a`, whose value is `1`.
pub(crate) const ONE: Image = Image {
    words: &[&NEW_FILE, &RECORD],
    len: 4096,
    ..NEW
};

/// The same, whose chain's head is lost: the record stands in no list.
pub(crate) const STRAY: Image = Image {
    words: &[&NEW_FILE, &RECORD, &[(200, 0)]],
    ..ONE
};

/// The word that says where the undo area is, the sequence number, the header of the area, and behind that two
/// entries and the length of the file without the area. An entry is an offset, a length, and the old bytes from there
/// on. The value of `a` is `9`.
pub(crate) const OPEN_GATE: [Word; 12] = [
    (4088, 0x4242_3961),
    (44, 4096),
    (48, 5),
    (4100, 4072),
    (4104, 4096),
    (4108, 25),
    (4116, 0xF53B_C0E7),
    (4120, 48),
    (4124, 4),
    (4132, 4089),
    (4136, 1),
    (4140, 0x0010_0031),
];

/// The file of one record after its value became `9` and its sequence number 5, with an undo area that keeps what was
/// before, and whose gate is open.
pub(crate) const GATE: Image = Image {
    words: &[&NEW_FILE, &RECORD, &OPEN_GATE],
    len: 8192,
    ..NEW
};

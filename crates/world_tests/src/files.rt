//! Small files in memory.

use small_file::{HEADER, Word};
use std::alloc::{AllocError, Global};
use tdb_commands::Options;
use tdb_disk::MemDisk;
use tdb_words::{Header, Order, header_bytes, word_bytes};

/// How a file is opened where nothing else is said.
pub(crate) const OPTIONS: Options = Options {
    limit: 4_294_963_200,
    nesting: true,
    read_only: false,
    seqnum: false,
};

/// A file: its header, with its sequence number, its length in bytes, and the words behind its header that aren't 0, of
/// which the later ones overwrite the earlier ones.
pub(crate) struct Image {
    pub(crate) header: Header,
    pub(crate) len: usize,
    pub(crate) words: &'static [&'static [Word]],
}

/// A new file.
pub(crate) const NEW: Image = Image {
    header: HEADER,
    len: 696,
    words: &[],
};

/// Puts some bytes at an offset, where there is room for them.
fn put(bytes: &mut [u8], at: usize, what: &[u8]) {
    if at <= bytes.len() && bytes.len() - at >= what.len() {
        bytes[at..at + what.len()].copy_from_slice(what);
    }
}

/// Puts words of a byte order at their offsets.
fn put_words(bytes: &mut [u8], order: Order, words: &[Word]) {
    for (at, word) in words {
        put(bytes, *at, &word_bytes(*word, order));
    }
}

/// A disk with a file.
pub(crate) fn disk_of(alloc: Global, image: &Image) -> Result<MemDisk, AllocError> {
    let header = &image.header;
    let front = header_bytes(header.hash_size.max(1), header.order, header.hash);
    let mut bytes = vec![in alloc; 0u8; image.len]?;
    put(&mut bytes, 0, &front);
    put(&mut bytes, 48, &word_bytes(header.sequence, header.order));
    for words in image.words {
        put_words(&mut bytes, header.order, *words);
    }
    MemDisk::new(alloc, &bytes)
}

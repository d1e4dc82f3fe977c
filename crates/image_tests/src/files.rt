//! Small files in memory: words and bytes at their offsets.

use small_file::Word;
use std::alloc::{AllocError, Global};
use tdb_disk::{Call, MemDisk};
use tdb_words::{Order, word_bytes};

/// Puts some bytes at an offset, where there is room for them.
pub(crate) fn put(bytes: &mut [u8], at: usize, what: &[u8]) {
    if at <= bytes.len() && bytes.len() - at >= what.len() {
        bytes[at..at + what.len()].copy_from_slice(what);
    }
}

/// Puts words at their offsets, those for which there is room.
pub(crate) fn put_words(bytes: &mut [u8], order: Order, words: &[Word]) {
    for (at, word) in words {
        put(bytes, *at, &word_bytes(*word, order));
    }
}

/// A file of this length with words, of which the later ones overwrite the earlier ones, and else full of one byte.
pub(crate) fn file_of(
    alloc: Global,
    len: usize,
    fill: u8,
    order: Order,
    words: &[Word],
    later: &[Word],
) -> Result<Vec<u8>, AllocError> {
    let mut bytes = vec![in alloc; fill; len]?;
    put_words(&mut bytes, order, words);
    put_words(&mut bytes, order, later);
    Ok(bytes)
}

/// A disk with these bytes, of which the call of this kind and number fails, if one is named.
pub(crate) fn disk_of(
    alloc: Global,
    bytes: &[u8],
    failing: Option<(Call, u64)>,
) -> Result<MemDisk, AllocError> {
    let mut disk = MemDisk::new(alloc, bytes)?;
    if let Some((call, nth)) = failing {
        disk.fail(call, nth)?;
    }
    Ok(disk)
}

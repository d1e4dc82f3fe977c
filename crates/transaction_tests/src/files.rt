// Small files in memory, and how a transaction begins on them.

ghost use Rattle.std.specs.Prelude.{◌≡◌, IsTrue, IfSome, length};
ghost use Rattle.tdb_disk.specs.MemDisk.{memory_size};
ghost use Rattle.tdb_txn_turns.specs.Prepares.{MayPlan};

use small_file::{HEADER, RECORD, Word};
use std::alloc::Global;
use tdb_disk::{Disk, MemDisk};
use tdb_space::Space;
use tdb_txn::{OverlayOn, Txn};
use tdb_words::{HashKind, Order, header_bytes, word_bytes};

/// The greatest length of a file whose transaction is committed, where no other is told.
pub(crate) const LIMIT: u64 = 1 << 20;

/// Writes bytes into a file, where they find place there.
pub(crate) fn put(image: &mut [u8], at: usize, bytes: &[u8]) {
    if at <= image.len() && image.len() - at >= bytes.len() {
        image[at..at + bytes.len()].copy_from_slice(bytes);
    }
}

/// Writes words into a file, each at its offset.
pub(crate) fn put_words(image: &mut [u8], order: Order, words: &[Word]) {
    for (at, word) in words {
        put(image, *at, &word_bytes(*word, order));
    }
}

/// A file of so many chains and of this length, with these words behind its header, of which the later ones overwrite
/// the earlier ones.
pub(crate) fn file_of(
    alloc: Global,
    order: Order,
    chains: u32,
    len: usize,
    words: &[Word],
    later: &[Word],
) -> Option<Vec<u8>>
    ensures { IfSome result (λ file. length file.items ≡ len) }
{
    let mut image = vec![in alloc; 0u8; len].ok()?;
    put(
        &mut image,
        0,
        &header_bytes(chains.max(1), order, HashKind::Old),
    );
    put_words(&mut image, order, words);
    put_words(&mut image, order, later);
    Some(image)
}

/// The small file with its one record: the key `a`, whose value `1` is at 4089.
pub(crate) fn stored(alloc: Global) -> Option<MemDisk>
    ensures { IfSome result (λ disk. memory_size disk ≡ 4096) }
{
    let image = file_of(alloc, Order::Little, 131, 4096, &RECORD, &[])?;
    MemDisk::new(alloc, &image).ok()
}

/// Whether a disk has still the bytes of that file.
pub(crate) fn is_stored(alloc: Global, disk: &MemDisk) -> Option<bool> {
    Some(disk.as_slice() == stored(alloc)?.as_slice())
}

/// Whether the file is so long.
pub(crate) fn is_long<D: Disk>(d: &mut D, len: u64) -> bool
    ensures { IsTrue result → D.size d.new ≡ len }
{
    match d.len() {
        Ok(now) => now == len,
        Err(_) => false,
    }
}

/// A transaction that writes bytes at an offset of a file of `len` bytes, where it may be planned on a file that may
/// get `limit` bytes.
pub(crate) fn changed<D: Disk>(
    alloc: Global,
    d: &mut D,
    limit: u64,
    len: u64,
    at: u64,
    bytes: &[u8],
) -> Option<Txn>
    ensures { IfSome result (λ txn. MayPlan txn (D.size d.new) limit) }
{
    let count = bytes.len() as u64;
    if len < 48 || at > len || len - at < count || limit >= 1 << 32 || !is_long(d, len) {
        return None;
    }
    let mut txn = Txn::start(alloc, d, &HEADER).ok()?;
    let mut view = OverlayOn::new(&mut txn, d);
    view.ready(1, count).ok()?;
    view.write(at, bytes).ok()?;
    let size = txn.length();
    let whole = txn.depth() == 0 && !txn.doomed();
    let fits = size % 4 == 0 && size <= limit && txn.length_at_start() == len;
    if whole && fits && is_long(d, len) {
        Some(txn)
    } else {
        None
    }
}

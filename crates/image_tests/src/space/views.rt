//! The view that is the disk itself, over a disk in memory.

use crate::files::disk_of;
use crate::rows::first_false;
use small_file::HEADER;
use std::alloc::{AllocError, Global};
use tdb_disk::{Call, MemDisk};
use tdb_space::{Direct, Io, Space, key_equals, read_rec};
use tdb_words::{HashKind, Header, Order, Rec, USED};

const BIG: Header = Header {
    order: Order::Big,
    hash_size: 1,
    ..HEADER
};

// The header of a record in big order, as it stands on a disk.
const RECORD: [u8; 24] = [
    0, 0, 0, 0, 0, 0, 0, 8, 0, 0, 0, 1, 0, 0, 0, 1, 0x09, 0x4A, 0x72, 0xE9, 0x26, 0x01, 0x19, 0x99,
];

/// The record that it says, where it leads to 256.
const REC: Rec = Rec {
    next: 256,
    rec_len: 8,
    key_len: 1,
    data_len: 1,
    full_hash: 0x094A_72E9,
    magic: USED,
};

/// The header of the record at an offset. None where the view has none of its bytes.
fn rec_at(s: &mut Direct<MemDisk>, at: u16) -> Result<Option<Rec>, Io> {
    let len = s.len()?;
    if u64::from(at) + 24 > len {
        return Ok(None);
    }
    Ok(Some(read_rec(s, u64::from(at))?))
}

/// Whether a key of at most 5000 bytes stands at an offset. None where the view ends before.
fn stands_at(s: &mut Direct<MemDisk>, at: u16, key: &[u8]) -> Result<Option<bool>, Io> {
    let len = s.len()?;
    if key.len() > 5000 || u64::from(at) + 5000 > len {
        return Ok(None);
    }
    Ok(Some(key_equals(s, u64::from(at), key)?))
}

/// Writes a record at 176 of a view of 6000 bytes, and the byte at 5899, and lets it grow by 4 bytes. Whether that
/// was made ready.
fn change(s: &mut Direct<MemDisk>) -> Result<bool, Io> {
    if s.len()? != 6000 {
        return Ok(false);
    }
    let ready = s.ready(3, 100).is_ok();
    s.write(5899, &[1])?;
    s.write(176, &RECORD)?;
    s.write_word(176, [0, 0, 1, 0])?;
    s.grow(6004)?;
    Ok(ready)
}

/// What is otherwise where a view of a disk of 6000 equal bytes reads and writes it.
pub(crate) fn failing_view(alloc: Global) -> Result<Option<&'static str>, AllocError> {
    let key = vec![in alloc; 0x5Au8; 5000]?;
    let mut disk = MemDisk::new(alloc, &vec![in alloc; 0x5Au8; 6000]?)?;
    let mut s = Direct::new(&mut disk, &BIG);
    Ok(first_false(&[
        (
            "changes for which there is room",
            change(&mut s) == Ok(true),
        ),
        (
            "equal bytes",
            stands_at(&mut s, 200, &key) == Ok(Some(true)),
        ),
        (
            "another last byte",
            stands_at(&mut s, 900, &key) == Ok(Some(false)),
        ),
        (
            "the bytes in front of it",
            stands_at(&mut s, 899, &key) == Ok(Some(true)),
        ),
        (
            "the header of a record",
            rec_at(&mut s, 176) == Ok(Some(REC)),
        ),
        ("the new length", s.len() == Ok(6004)),
        ("the byte order", s.order() == Order::Big),
        ("the hash", s.hash() == HashKind::Old),
        ("the number of chains", s.hash_size() == 1),
    ]))
}

/// What is otherwise where the first read of a disk fails.
pub(crate) fn failing_fault(alloc: Global) -> Result<Option<&'static str>, AllocError> {
    let mut disk = disk_of(alloc, &RECORD, Some((Call::Read, 0)))?;
    let mut s = Direct::new(&mut disk, &BIG);
    let first = rec_at(&mut s, 0);
    let second = rec_at(&mut s, 0);
    Ok(first_false(&[
        ("the read that fails", first == Err(Io)),
        ("the one behind it", matches!(second, Ok(Some(_)))),
    ]))
}

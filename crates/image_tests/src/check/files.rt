// Small files in memory, and what a whole check of them says.

ghost use Rattle.std.specs.Prelude.{IfOk};
ghost use Rattle.std.specs.List.Sorted.{IsNonDecreasingBy};
ghost use Rattle.tdb_check.specs.Extent.{off_of};

use crate::files::{disk_of, put_words};
use std::alloc::{AllocError, Global};
use tdb_check::{CheckRefusal, Extent, Report, check, sort_extents};
use tdb_disk::Call;
use tdb_space::Direct;
use tdb_words::{HashKind, Header, Order, What, header_bytes};

/// A word of a file: its offset, and the number there.
pub(crate) type Word = (usize, u32);

/// A fault that a check tells, and its place.
pub(crate) type Fault = (What, u64);

pub(crate) const HEADER: Header = Header {
    order: Order::Little,
    hash: HashKind::Old,
    hash_size: 1,
    recovery_start: 0,
    sequence: 0,
};

/// A file of this length with this header, and with words, of which the later ones overwrite the earlier ones.
pub(crate) fn file_of(
    alloc: Global,
    h: &Header,
    len: usize,
    words: &[Word],
    later: &[Word],
) -> Result<Vec<u8>, AllocError> {
    let mut bytes = header_bytes(h.hash_size.max(1), h.order, h.hash).to_vec(alloc)?;
    bytes.resize(len, 0)?;
    put_words(&mut bytes, h.order, words);
    put_words(&mut bytes, h.order, later);
    Ok(bytes)
}

/// The refusal that tells a fault.
pub(crate) fn refusal(fault: Fault) -> CheckRefusal {
    let (what, at) = fault;
    CheckRefusal::Corrupt { what, at }
}

/// The extents at these offsets with records of these lengths, in their order.
pub(crate) fn extents_of(alloc: Global, places: &[(u32, u32)]) -> Result<Vec<Extent>, AllocError>
    ensures { IfOk result (λ extents. IsNonDecreasingBy off_of extents.items) }
{
    let mut extents = Vec::new(alloc);
    for (off, rec_len) in places {
        extents.push(Extent {
            off: *off,
            rec_len: *rec_len,
        })?;
    }
    sort_extents(&mut extents);
    Ok(extents)
}

/// What a check of a file says, of which the read with this number fails, if one is named.
fn checked(
    alloc: Global,
    header: &Header,
    bytes: &[u8],
    failing: Option<(Call, u64)>,
) -> Result<Result<Report, CheckRefusal>, AllocError> {
    let mut disk = disk_of(alloc, bytes, failing)?;
    Ok(check(alloc, &mut Direct::new(&mut disk, header)))
}

/// How many reads a check of a file makes, where each that fails ends it as a fault of the disk; and else 30, as where
/// there are so many.
fn reads_that_fail(alloc: Global, header: &Header, bytes: &[u8]) -> Result<u64, AllocError> {
    for nth in 0..30 {
        match checked(alloc, header, bytes, Some((Call::Read, nth)))? {
            Ok(_) => return Ok(nth),
            Err(CheckRefusal::Io) => {}
            Err(_) => return Ok(30),
        }
    }
    Ok(30)
}

/// Whether a check of a file says this, and makes so many reads, where they are counted.
pub(crate) fn check_says(
    alloc: Global,
    header: &Header,
    bytes: &[u8],
    want: Result<Report, Fault>,
    reads: Option<u64>,
) -> Result<bool, AllocError> {
    if checked(alloc, header, bytes, None)? != want.map_err(refusal) {
        return Ok(false);
    }
    Ok(match reads {
        Some(count) => reads_that_fail(alloc, header, bytes)? == count,
        None => true,
    })
}

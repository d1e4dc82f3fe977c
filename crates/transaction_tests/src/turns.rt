//! Tests of the turns that begin and end transactions, and of commands inside one, over the public calls of
//! `tdb_txn_turns`.

pub(crate) mod commits;
pub(crate) mod counts;
pub(crate) mod inside;
pub(crate) mod starts;

use std::alloc::Global;
use tdb_locks::{Kind, Len, Locks};

/// The locks of a transaction of opener 1.
pub(crate) fn start_locks(alloc: Global) -> Option<Locks> {
    let mut locks = Locks::new(alloc);
    locks.try_lock(1, 8, Len::Bytes(1), Kind::Write).ok()?;
    locks.try_lock(1, 168, Len::ToEnd, Kind::Read).ok()?;
    Some(locks)
}

/// The bytes of the opening lock, of the lock of transactions, of the sequence number, of the free list, of two chains,
/// and of a record.
pub(crate) const BYTES: [u64; 7] = [0, 8, 48, 164, 168, 448, 4064];

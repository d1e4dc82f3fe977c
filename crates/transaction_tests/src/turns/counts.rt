// Locks inside a transaction, which are only counted.

use crate::rows::Row;
use std::alloc::Global;
use tdb_locks::{Held, Kind, Reply};
use tdb_txn_turns::{count_all, count_chain, uncount_all, uncount_chain};

/// Locks of a chain and of all records that are counted.
pub(crate) struct Counts(u32);

pub(crate) static COUNTS: [(&'static str, Counts); 1] = [("a chain and all records", Counts(7))];

impl Row for Counts {
    // They are let go as often as they were taken, and no more often. All records are locked as they were first.
    fn holds(&self, alloc: Global) -> Option<bool> {
        let mut held = Held::new(alloc);
        let no_chain = uncount_chain(&mut held, self.0) == Reply::NotLocked;
        let once = count_chain(&mut held, self.0) == Reply::Ok;
        let twice = count_chain(&mut held, self.0) == Reply::Ok;
        let less = uncount_chain(&mut held, self.0) == Reply::Ok;
        let not_all = uncount_all(&mut held) == Reply::NotLocked;
        let all = count_all(&mut held, Kind::Read) == Reply::Ok;
        let more = count_all(&mut held, Kind::Write) == Reply::Ok;
        let counts = (held.chain_count(self.0), held.all(), held.total());
        let chain = no_chain && once && twice && less;
        Some(chain && not_all && all && more && counts == (1, Some((Kind::Read, 2)), 3))
    }
}

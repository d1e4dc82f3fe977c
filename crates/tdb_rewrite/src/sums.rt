// How many bytes the keys and the values of a file have.

ghost use Rattle.std.specs.Prelude.{◌≡◌, ◌+◌, ◌<◌, ◌≤◌, ◌==◌, if◌then◌else◌, List, [], IsTrue, OnOk};
ghost use Rattle.tdb_disk.specs.Count.{HasCause};
ghost use Rattle.tdb_words.specs.declared.record.TheConstants.{USED};
ghost use Rattle.tdb_space.specs.Frame.{Looked};
ghost use Rattle.tdb_space.specs.Extents.{HandPair};
ghost use Rattle.tdb_space.specs.Accepted.{AcceptWith};
ghost use Rattle.tdb_rewrite.specs.Sums.{added, Sums, pairs_below};

use crate::walk::ListWalk;
use tdb_space::{Io, Space, chain_head};
use tdb_words::{Rec, USED};

/// How many bytes keys and values have in all. A sum that doesn't fit in 64 bits stays at the greatest number.
#[derive(Clone, Copy)]
pub struct PairBytes {
    /// How many bytes the keys have.
    pub keys: u64,

    /// How many bytes the values have.
    pub values: u64,
}

impl PairBytes {
    /// Of no pair.
    pub fn none() -> PairBytes
        ensures { Sums [] result }
    {
        PairBytes { keys: 0, values: 0 }
    }

    /// Adds what a record holds with this header: a used one holds a pair.
    fn add(&mut self, rec: &Rec)
        ensures keys { self.new.keys ≡ (if rec.now.magic == USED then added self.old.keys rec.now.key_len else self.old.keys) }
        ensures values { self.new.values ≡ (if rec.now.magic == USED then added self.old.values rec.now.data_len else self.old.values) }
    {
        if rec.magic == USED {
            self.keys = self.keys.saturating_add(rec.key_len as u64);
            self.values = self.values.saturating_add(rec.data_len as u64);
        }
    }

    /// Adds the pairs of one chain of a file of `len` bytes.
    pub fn add_chain<S: Space>(&mut self, s: &mut S, len: u64, chain: u32) -> Result<(), Io>
        requires length { len ≡ S.size s.old }
        ensures added { OnOk result (IsTrue S.tells → chain < (S.form s.old).chains → (hands : List HandPair) → AcceptWith (S.form s.old) (S.image s.old) hands
            → Sums (pairs_below (S.form s.old) (S.image s.old) chain) self.old → Sums (pairs_below (S.form s.old) (S.image s.old) (chain + 1)) self.new) }
        ensures looked { Looked S.Space s.old s.new }
        ensures cause { HasCause (S.faults s.old) (S.faults s.new) result }
        ensures bytes_read { S.bytes_read s.old ≤ S.bytes_read s.new }
    {
        let mut walk = ListWalk::from_head(s, len, chain_head(chain))?;
        while let Some(found) = walk.next(s, len)? {
            self.add(&found.rec);
        }
        Ok(())
    }
}

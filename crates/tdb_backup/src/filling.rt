// A pair is added to a file that doesn't have its key.

ghost use Rattle.std.specs.Prelude.{◌≡◌, ◌⊎◌, ◌+◌, ◌^◌, ◌<◌, ◌≤◌, [], None, Some, length, IsTrue, IfErr, OnOk};
ghost use Rattle.tdb_disk.specs.Count.{HasCauseOf, RoseUpTo};
ghost use Rattle.tdb_space.specs.Frame.{Wrote};
ghost use Rattle.tdb_space.specs.Spare.{without_bound};
ghost use Rattle.tdb_space.specs.NewRecord.{rec_len_for};
ghost use Rattle.tdb_space.specs.Pairs.{map_of};
ghost use Rattle.tdb_space.specs.Accepted.{AcceptWith};
ghost use Rattle.tdb_free.specs.Growth.{grown_length};
ghost use Rattle.tdb_backup.specs.Filling.{Added, Filled, PutFirst, InsertCause};
ghost use Rattle.tdb_backup.specs.Reads.{insert_reads};
ghost use Rattle.tdb_backup.specs.declared.refusal.InsertRefusal.TheVariants.{Io, Memory};

use crate::refusal::InsertRefusal;
use tdb_chain::link;
use tdb_free::take;
use tdb_space::{Space, rec_len_for};

/// Adds a key and its value to a file that doesn't have the key, which may be up to `limit` bytes long. The caller
/// knows that the key isn't there: the chain isn't looked through, so each pair of a file that is built takes the same
/// time.
///
/// The record is taken from the free list, or from what the file grows by, and put in front of its chain. Room for all
/// writes is made first: `Memory` where that is wanting, as it never is over a disk, and then nothing is changed.
/// `Full` where no free record is long enough and the file would be longer than `limit`; nothing is changed then. `Io`
/// where the disk failed: then the file may hold a part of the record.
pub fn insert_new<S: Space>(
    s: &mut S,
    key: &[u8],
    value: &[u8],
    limit: u64,
) -> Result<(), InsertRefusal>
    requires key { length key.now < 2 ^ 32 }
    requires value { length value.now < 2 ^ 32 }
    requires chains { 0 < (S.form s.old).chains }
    requires limit { limit ≤ 4294963200 }
    ensures added { OnOk result (IsTrue S.tells → S.size s.old < 2 ^ 32 → AcceptWith (S.form s.old) (S.image s.old) []
        → map_of (S.form s.old) (S.image s.old) key.now ≡ None → Added (S.form s.old) (S.image s.old) (S.image s.new) key.now value.now) }
    ensures first { OnOk result (IsTrue S.tells → S.size s.old < 2 ^ 32 → AcceptWith (S.form s.old) (S.image s.old) []
        → map_of (S.form s.old) (S.image s.old) key.now ≡ None → PutFirst (S.form s.old) (S.image s.old) (S.image s.new) key.now value.now) }
    ensures filled { OnOk result (IsTrue S.tells → S.size s.old < 2 ^ 32 → AcceptWith (S.form s.old) (S.image s.old) []
        → map_of (S.form s.old) (S.image s.old) key.now ≡ None
        → Filled (S.form s.old) (S.image s.old) (S.image s.new) (rec_len_for (length key.now) (length value.now)) limit) }
    ensures refused { IfErr result (λ e. IsTrue S.tells → S.size s.old < 2 ^ 32 → AcceptWith (S.form s.old) (S.image s.old) []
        → InsertCause (S.form s.old) (S.image s.old) (S.image s.new) (rec_len_for (length key.now) (length value.now)) limit e) }
    ensures starves { IfErr result (λ e. e ≡ Memory → S.spare s.old ≡ without_bound → ⊥) }
    ensures size { (S.size s.new ≡ S.size s.old)
        ⊎ (grown_length (S.size s.old) (24 + rec_len_for (length key.now) (length value.now)) limit ≡ Some (S.size s.new)) }
    ensures wrote { Wrote S.Space s.old s.new }
    ensures cause { HasCauseOf Io (S.faults s.old) (S.faults s.new) result }
    ensures bytes_read { S.bytes_read s.old ≤ S.bytes_read s.new }
    ensures reads { IsTrue S.tells → S.size s.old < 2 ^ 32 → AcceptWith (S.form s.old) (S.image s.old) []
        → RoseUpTo (insert_reads (S.form s.old) (S.image s.old) (rec_len_for (length key.now) (length value.now))) (S.bytes_read s.old) (S.bytes_read s.new) }
{
    let rec_len = rec_len_for(key.len() as u64, value.len() as u64);
    s.ready((24 + rec_len / 4096) as u32, 256 + rec_len)?;
    let hand = take(s, rec_len, limit)?;
    if let Some(old) = link(s, hand, key, value, None)? {
        old.end();
    }
    Ok(())
}

// A pair is added to a file, and the last log is told where the file grew by it.

ghost use Rattle.std.specs.Prelude.{◌≡◌, ◌⊎◌, ◌+◌, ◌^◌, ◌<◌, ◌≤◌, [], None, Some, length, IsTrue, IfErr, OnOk};
ghost use Rattle.tdb_disk.specs.Count.{HasCauseOf};
ghost use Rattle.tdb_space.specs.Frame.{Wrote};
ghost use Rattle.tdb_space.specs.NewRecord.{rec_len_for};
ghost use Rattle.tdb_space.specs.Pairs.{map_of};
ghost use Rattle.tdb_space.specs.Accepted.{AcceptWith};
ghost use Rattle.tdb_free.specs.Growth.{grown_length};
ghost use Rattle.tdb_backup.specs.Filling.{AddCause, Inserted};
ghost use Rattle.tdb_backup.specs.Growths.{AddHeard};
ghost use Rattle.tdb_backup.specs.declared.refusal.AddRefusal.TheVariants.{Insert};
ghost use Rattle.tdb_backup.specs.declared.refusal.InsertRefusal.TheVariants.{Io};

use crate::filling::insert_new;
use crate::refusal::AddRefusal;
use tdb_log::{Logs, tell_growth};
use tdb_space::Space;

/// Adds a key and its value as `insert_new` does, and tells the last log from which length to which the file grew by
/// that, if it did. Where the log refuses it the pair stays added.
pub(crate) fn insert_and_tell<S: Space, L: Logs>(
    s: &mut S,
    key: &[u8],
    value: &[u8],
    limit: u64,
    logs: &mut L,
) -> Result<(), AddRefusal>
    requires key { length key.now < 2 ^ 32 }
    requires value { length value.now < 2 ^ 32 }
    requires chains { 0 < (S.form s.old).chains }
    requires limit { limit ≤ 4294963200 }
    ensures inserted { OnOk result (IsTrue S.tells → S.size s.old < 2 ^ 32 → AcceptWith (S.form s.old) (S.image s.old) []
        → map_of (S.form s.old) (S.image s.old) key.now ≡ None → Inserted (S.form s.old) (S.image s.old) (S.image s.new) key.now value.now limit) }
    ensures refused { IfErr result (λ e. IsTrue S.tells → S.size s.old < 2 ^ 32 → AcceptWith (S.form s.old) (S.image s.old) []
        → map_of (S.form s.old) (S.image s.old) key.now ≡ None → AddCause (S.form s.old) (S.image s.old) (S.image s.new) key.now value.now limit e) }
    ensures heard { AddHeard (S.size s.old) (S.size s.new) (L.logs logs.old) (L.logs logs.new) result }
    ensures size { (S.size s.new ≡ S.size s.old)
        ⊎ (grown_length (S.size s.old) (24 + rec_len_for (length key.now) (length value.now)) limit ≡ Some (S.size s.new)) }
    ensures wrote { Wrote S.Space s.old s.new }
    ensures cause { HasCauseOf (Insert Io) (S.faults s.old) (S.faults s.new) result }
{
    let from = s.len()?;
    insert_new(s, key, value, limit)?;
    let to = s.len()?;
    tell_growth(from, to, logs)?;
    Ok(())
}

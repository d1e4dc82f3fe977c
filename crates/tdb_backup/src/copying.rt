// All pairs of a file are added to another one.

ghost use Rattle.std.specs.Prelude.{◌≡◌, ◌^◌, ◌<◌, ◌≤◌, max, [], ℕ, List, IsTrue, IfErr, OnOk};
ghost use Rattle.tdb_disk.specs.Count.{HasCauseOf, RoseUpTo};
ghost use Rattle.tdb_space.specs.Frame.{Looked, Wrote};
ghost use Rattle.tdb_space.specs.Pairs.{order_of};
ghost use Rattle.tdb_space.specs.Extents.{HandPair};
ghost use Rattle.tdb_space.specs.Accepted.{AcceptWith};
ghost use Rattle.tdb_log.specs.Logs.{ToldAll};
ghost use Rattle.tdb_backup.specs.Building.{HoldsPairs, BackupRefused};
ghost use Rattle.tdb_backup.specs.Growths.{CopyHeard, growths_of};
ghost use Rattle.tdb_backup.specs.Reads.{pairs_reads};
ghost use Rattle.tdb_backup.specs.declared.refusal.BackupRefusal.TheVariants.{Copy};
ghost use Rattle.tdb_backup.specs.declared.refusal.CopyRefusal.TheVariants.{Read, Write};

use crate::refusal::BackupRefusal;
use crate::telling::insert_and_tell;
use crate::traversal::Traversal;
use std::alloc::Global;
use tdb_log::Logs;
use tdb_space::Space;

/// Adds all pairs of a file to a file without pairs, which may be up to `limit` bytes long and then has the same map.
/// The order of the hash chains may be another. The last log is told each growth of that file, right behind the pair by
/// which it grew.
///
/// It holds one pair, and looks no key up: time is linear in the length of the file. After a refusal the new file holds
/// the pairs up to the one that was refused, unless it was the new file's disk that failed; where the log refused a
/// growth, the pair by which the file grew is among them.
pub fn copy_pairs<S: Space, T: Space, L: Logs>(
    alloc: Global,
    from: &mut S,
    to: &mut T,
    limit: u64,
    logs: &mut L,
) -> Result<(), BackupRefusal>
    requires chains { 0 < (T.form to.old).chains }
    requires limit { limit ≤ 4294963200 }
    ensures copied { OnOk result (IsTrue S.tells → IsTrue T.tells → T.size to.old < 2 ^ 32
        → (hands : List HandPair) → AcceptWith (S.form from.old) (S.image from.old) hands → (first : List ℕ) → HoldsPairs limit first (T.form to.old) (T.image to.old) []
        → HoldsPairs limit first (T.form to.old) (T.image to.new) (order_of (S.form from.old) (S.image from.old))) }
    ensures refused { IfErr result (λ e. IsTrue S.tells → IsTrue T.tells → T.size to.old < 2 ^ 32
        → (hands : List HandPair) → AcceptWith (S.form from.old) (S.image from.old) hands → (first : List ℕ) → HoldsPairs limit first (T.form to.old) (T.image to.old) []
        → BackupRefused first (T.form to.old) (T.image to.new) (order_of (S.form from.old) (S.image from.old)) limit e) }
    ensures told { OnOk result (IsTrue S.tells → IsTrue T.tells → T.size to.old < 2 ^ 32
        → (hands : List HandPair) → AcceptWith (S.form from.old) (S.image from.old) hands → (first : List ℕ) → HoldsPairs limit first (T.form to.old) (T.image to.old) []
        → ToldAll (growths_of limit (T.form to.old) first (order_of (S.form from.old) (S.image from.old))) (L.logs logs.old) (L.logs logs.new)) }
    ensures heard { IfErr result (λ e. IsTrue S.tells → IsTrue T.tells → T.size to.old < 2 ^ 32
        → (hands : List HandPair) → AcceptWith (S.form from.old) (S.image from.old) hands → (first : List ℕ) → HoldsPairs limit first (T.form to.old) (T.image to.old) []
        → CopyHeard limit (T.form to.old) first (order_of (S.form from.old) (S.image from.old)) (L.logs logs.old) (L.logs logs.new) e) }
    ensures within { T.size to.new ≤ max (T.size to.old) limit }
    ensures looked { Looked S.Space from.old from.new }
    ensures wrote { Wrote T.Space to.old to.new }
    ensures reads { IsTrue S.tells → RoseUpTo (pairs_reads (S.form from.old) (S.image from.old)) (S.bytes_read from.old) (S.bytes_read from.new) }
    ensures read_cause { HasCauseOf (Copy Read) (S.faults from.old) (S.faults from.new) result }
    ensures write_cause { HasCauseOf (Copy Write) (T.faults to.old) (T.faults to.new) result }
{
    let mut traversal = Traversal::new(alloc);
    while traversal.advance(from)? {
        insert_and_tell(to, traversal.key(), traversal.value(), limit, logs)?;
    }
    Ok(())
}

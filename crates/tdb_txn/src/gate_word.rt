//! The word that opens or shuts the gate of an undo area.
ghost use Rattle.std.specs.Prelude.{◌≡◌, ◌+◌, ◌%◌, ◌≤◌, ◌⊎◌, IsTrue, OnOk};
ghost use Rattle.tdb_disk.specs.Count.{HasCause, RoseBy, RoseUpTo};
ghost use Rattle.tdb_disk.specs.History.{seen};
ghost use Rattle.tdb_disk.specs.Image.{overlay};
ghost use Rattle.tdb_disk.specs.Stop.{LeavesOnly, Quiet};

use tdb_disk::{Disk, DiskFault};

/// Writes a word by itself, and syncs. A stop leaves the file with the word or without it.
pub(crate) fn set_word<D: Disk>(d: &mut D, at: u64, w: [u8; 4]) -> Result<(), DiskFault>
    requires aligned { at % 4 ≡ 0 }
    requires within { at + 4 ≤ D.size d.old }
    ensures stops { IsTrue D.tells → Quiet (D.history d.old)
        → LeavesOnly (D.history d.old) (D.history d.new) (λ c. (c ≡ seen (D.history d.old)) ⊎ (c ≡ overlay (seen (D.history d.old)) at w)) }
    ensures set { OnOk result (IsTrue D.tells → seen (D.history d.new) ≡ overlay (seen (D.history d.old)) at w) }
    ensures quiet { OnOk result (IsTrue D.tells → Quiet (D.history d.new)) }
    ensures size { D.size d.new ≡ D.size d.old }
    ensures cause { HasCause (D.faults d.old) (D.faults d.new) result }
    ensures syncs { OnOk result (RoseBy 1 (D.syncs d.old) (D.syncs d.new)) }
    ensures at_most { RoseUpTo 1 (D.syncs d.old) (D.syncs d.new) }
    ensures bytes_read { D.bytes_read d.new ≡ D.bytes_read d.old }
{
    d.write_word(at, w)?;
    d.sync()
}

//! An example of a change over several calls, and of the clause that says what a stop at any moment of it leaves.
ghost use Rattle.std.specs.Prelude.{◌≡◌, ◌≤◌, ◌++◌, IsTrue, OnOk, Some, None};
ghost use Rattle.tdb_disk.specs.Count.{HasCause};
ghost use Rattle.tdb_disk.specs.History.{seen};
ghost use Rattle.tdb_disk.specs.Published.{published, NothingOr};
ghost use Rattle.tdb_disk.specs.ShortHistories.{ShortHistories};
ghost use Rattle.tdb_disk.specs.Stop.{LeavesOnly, Quiet};

use crate::disk::{Disk, DiskFault};

/// Writes a name and a value into a file that publishes nothing, and then publishes both at once. A stop at any moment,
/// whatever the answer, leaves a file that publishes nothing or both.
pub fn publish<D: Disk>(d: &mut D, name: [u8; 4], value: [u8; 4]) -> Result<(), DiskFault>
    requires room { 12 ≤ D.size d.old }
    requires quiet { IsTrue D.tells → Quiet (D.history d.old) }
    requires nothing { IsTrue D.tells → published (seen (D.history d.old)) ≡ None }
    ensures stops { IsTrue D.tells → LeavesOnly (D.history d.old) (D.history d.new) (NothingOr (name ++ value)) }
    ensures both { OnOk result (IsTrue D.tells → published (seen (D.history d.new)) ≡ Some (name ++ value)) }
    ensures quiet { OnOk result (IsTrue D.tells → Quiet (D.history d.new)) }
    ensures cause { HasCause (D.faults d.old) (D.faults d.new) result }
{
    d.write(4, &name)?;
    d.write(8, &value)?;
    d.sync()?;
    d.write_word(0, [1, 0, 0, 0])?;
    d.sync()?;
    Ok(())
}

/// Says of short histories what a stop may leave of them and what it may not. It does nothing.
pub fn short_histories()
    ensures { ShortHistories }
{}

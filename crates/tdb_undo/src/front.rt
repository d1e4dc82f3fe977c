// The first bytes of the file are written back by themselves, and only those that become others.

ghost use Rattle.std.specs.Prelude.{◌≡◌, ◌+◌, ◌<◌, ◌≤◌, ℕ, IsTrue, OnOk, slice_index};
ghost use Rattle.tdb_disk.specs.Count.{HasCause};
ghost use Rattle.tdb_disk.specs.History.{seen};
ghost use Rattle.tdb_disk.specs.Stop.{LeavesOnly};
ghost use Rattle.tdb_undo.specs.Torn.{TornIn, Put};
ghost use Rattle.tdb_undo.specs.Front.{differs};

use crate::area::RECOVERY_START;
use crate::testing::FRONT_LEN;
use tdb_disk::Disk;
use tdb_space::Io;

/// Whether a byte becomes another. The offset of the undo area stays as it is.
fn becomes_another(i: usize, before: &[u8; FRONT_LEN], after: &[u8; FRONT_LEN]) -> bool
    requires { i < 64 }
    ensures { result ≡ differs before.now after.now i }
{
    let recovery_start = RECOVERY_START as usize;
    (i < recovery_start || i >= recovery_start + 4) && before[i] != after[i]
}

/// Writes those of the first bytes of a file that become others, each by itself. The offset of the undo area stays as
/// it is.
pub(crate) fn write_front<D: Disk>(
    d: &mut D,
    before: &[u8; FRONT_LEN],
    after: &[u8; FRONT_LEN],
) -> Result<(), Io>
    requires { 64 ≤ D.size d.old }
    ensures stops { IsTrue D.tells → LeavesOnly (D.history d.old) (D.history d.new) (TornIn (differs before.now after.now) (D.history d.old)) }
    ensures put { OnOk result (IsTrue D.tells → Put (differs before.now after.now) (slice_index after.now) (seen (D.history d.old)) (seen (D.history d.new))) }
    ensures size { D.size d.new ≡ D.size d.old }
    ensures cause { HasCause (D.faults d.old) (D.faults d.new) result }
    ensures syncs { D.syncs d.new ≡ D.syncs d.old }
    ensures bytes_read { D.bytes_read d.new ≡ D.bytes_read d.old }
{
    for i in 0..FRONT_LEN {
        if becomes_another(i, before, after) {
            d.write(i as u64, &after[i..i + 1])?;
        }
    }
    Ok(())
}

// All that the undo area keeps is written back.

ghost use Rattle.std.specs.Prelude.{◌≡◌, ◌+◌, ◌%◌, ◌^◌, ◌<◌, ◌≤◌, IsTrue, IfErr, OnOk, length};
ghost use Rattle.tdb_disk.specs.Count.{HasCauseOf, RoseUpTo};
ghost use Rattle.tdb_disk.specs.History.{seen};
ghost use Rattle.tdb_disk.specs.Stop.{LeavesOnly, Quiet};
ghost use Rattle.tdb_space.specs.Form.{form_in, SameHeader};
ghost use Rattle.tdb_space.specs.Opening.{Undoable, restored};
ghost use Rattle.tdb_space.specs.Undoing.{UndoneAlike, Written};
ghost use Rattle.tdb_undo.specs.Refusal.{IsIo};
ghost use Rattle.tdb_undo.specs.Recovery.{ReadFrom};
ghost use Rattle.tdb_undo.specs.Reads.{entries_reads};

use crate::area::Area;
use crate::front::write_front;
use crate::refusal::UndoRefusal;
use crate::testing::FRONT_LEN;
use crate::writing::write_entries;
use tdb_disk::Disk;
use tdb_words::Header;

/// Writes back all that the undo area keeps, which was tested. `before` has the first bytes of the file, and `after`
/// what they become.
pub(crate) fn give_all<D: Disk>(
    d: &mut D,
    h: &Header,
    area: &Area,
    before: &[u8; FRONT_LEN],
    after: &[u8; FRONT_LEN],
) -> Result<(), UndoRefusal>
    requires front { 64 ≤ D.size d.old }
    requires room { area.now.at + 24 + area.now.header.rec_len ≤ D.size d.old }
    requires content { area.now.header.data_len ≤ area.now.header.rec_len }
    requires old_length { area.now.header.key_len ≤ D.size d.old }
    requires short { D.size d.old < 2 ^ 63 }
    ensures stops { IsTrue D.tells → let a = seen (D.history d.old) in Quiet (D.history d.old) → length a % 4 ≡ 0 → Undoable (form_in h.now) a → SameHeader a (restored (form_in h.now) a)
        → ReadFrom (form_in h.now) a area.now before.now after.now → LeavesOnly (D.history d.old) (D.history d.new) (UndoneAlike (form_in h.now) a) }
    ensures written { OnOk result (IsTrue D.tells → let a = seen (D.history d.old) in Undoable (form_in h.now) a
        → ReadFrom (form_in h.now) a area.now before.now after.now → Written (form_in h.now) a (seen (D.history d.new))) }
    ensures refusal { IfErr result (λ e. IsTrue D.tells → let a = seen (D.history d.old) in Undoable (form_in h.now) a
        → ReadFrom (form_in h.now) a area.now before.now after.now → IsIo e) }
    ensures size { D.size d.new ≡ D.size d.old }
    ensures cause { HasCauseOf UndoRefusal.Io (D.faults d.old) (D.faults d.new) result }
    ensures syncs { D.syncs d.new ≡ D.syncs d.old }
    ensures bytes_read { RoseUpTo (entries_reads area.now.header.data_len) (D.bytes_read d.old) (D.bytes_read d.new) }
{
    write_entries(d, h.order, area)?;
    write_front(d, before, after)?;
    Ok(())
}

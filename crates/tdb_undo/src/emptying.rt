// An undo area whose gate is shut is emptied, and one behind the end of the restored file is dropped.

ghost use Rattle.std.specs.Prelude.{◌≡◌, ◌+◌, ◌*◌, ◌%◌, ◌^◌, ◌<◌, ◌≤◌, ℕ, List, IsTrue, OnOk, length};
ghost use Rattle.tdb_disk.specs.Count.{HasCause, RoseBy};
ghost use Rattle.tdb_disk.specs.History.{seen};
ghost use Rattle.tdb_disk.specs.Stop.{LeavesOnly, Quiet};
ghost use Rattle.tdb_space.specs.Form.{form_in};
ghost use Rattle.tdb_space.specs.Opening.{lies_in};
ghost use Rattle.tdb_space.specs.Undoing.{TailOf};
ghost use Rattle.tdb_space.specs.RecoverySteps.{Behind, TailAt, Emptied};
ghost use Rattle.tdb_undo.specs.Torn.{TornIn, Put};
ghost use Rattle.tdb_undo.specs.Recovery.{HeaderTouched, ZeroAt};

use crate::area::{Area, HEADER_LEN, RECOVERY_START};
use crate::pieces::zero_bytes;
use tdb_disk::Disk;
use tdb_space::Io;
use tdb_words::{Header, Order};

/// How many words of the header stand in front of the gate word.
const WORDS_BEFORE_GATE: u64 = 5;

/// Sets the words of the undo area's header to 0, each by itself and but for the gate word, and syncs.
pub(crate) fn blank_header<D: Disk>(d: &mut D, order: Order, at: u32) -> Result<(), Io>
    requires aligned { at % 4 ≡ 0 }
    requires within { at + 24 ≤ D.size d.old }
    ensures stops { IsTrue D.tells → Quiet (D.history d.old) → LeavesOnly (D.history d.old) (D.history d.new) (HeaderTouched order at (seen (D.history d.old))) }
    ensures put { OnOk result (IsTrue D.tells → Put (lies_in at 20) (λ _. 0) (seen (D.history d.old)) (seen (D.history d.new))) }
    ensures quiet { OnOk result (IsTrue D.tells → Quiet (D.history d.new)) }
    ensures size { D.size d.new ≡ D.size d.old }
    ensures cause { HasCause (D.faults d.old) (D.faults d.new) result }
    ensures syncs { OnOk result (RoseBy 1 (D.syncs d.old) (D.syncs d.new)) }
    ensures bytes_read { D.bytes_read d.new ≡ D.bytes_read d.old }
{
    for k in 0..WORDS_BEFORE_GATE {
        d.write_word(at as u64 + 4 * k, [0; 4])?;
    }
    d.sync()?;
    Ok(())
}

/// Makes the content of an undo area whose gate is shut zero, and syncs.
pub(crate) fn zero_content<D: Disk>(d: &mut D, area: &Area) -> Result<(), Io>
    requires { area.now.at + 24 + area.now.header.rec_len ≤ D.size d.old }
    ensures stops { IsTrue D.tells → LeavesOnly (D.history d.old) (D.history d.new) (TornIn (lies_in (area.now.at + 24) area.now.header.rec_len) (D.history d.old)) }
    ensures put { OnOk result (IsTrue D.tells → Put (lies_in (area.now.at + 24) area.now.header.rec_len) (λ _. 0) (seen (D.history d.old)) (seen (D.history d.new))) }
    ensures quiet { OnOk result (IsTrue D.tells → Quiet (D.history d.new)) }
    ensures size { D.size d.new ≡ D.size d.old }
    ensures cause { HasCause (D.faults d.old) (D.faults d.new) result }
    ensures syncs { OnOk result (RoseBy 1 (D.syncs d.old) (D.syncs d.new)) }
    ensures bytes_read { D.bytes_read d.new ≡ D.bytes_read d.old }
{
    zero_bytes(d, area.at as u64 + HEADER_LEN, area.header.rec_len as u64)?;
    d.sync()?;
    Ok(())
}

/// Empties an undo area that stands behind the restored file and whose gate is shut: its content, and then its header.
pub(crate) fn empty_area<D: Disk>(d: &mut D, h: &Header, area: &Area) -> Result<(), Io>
    requires aligned { area.now.at % 4 ≡ 0 }
    requires room { area.now.at + 24 + area.now.header.rec_len ≤ D.size d.old }
    ensures stops { IsTrue D.tells → Quiet (D.history d.old) → (r : List ℕ) → Behind (form_in h.now) r area.now.at (area.now.at + 24 + area.now.header.rec_len)
        → TailAt (form_in h.now) r area.now.at (area.now.at + 24 + area.now.header.rec_len) (seen (D.history d.old)) → LeavesOnly (D.history d.old) (D.history d.new) (TailOf (form_in h.now) r) }
    ensures emptied { OnOk result (IsTrue D.tells → (r : List ℕ) → Behind (form_in h.now) r area.now.at (area.now.at + 24 + area.now.header.rec_len)
        → TailAt (form_in h.now) r area.now.at (area.now.at + 24 + area.now.header.rec_len) (seen (D.history d.old))
        → Emptied (form_in h.now) r area.now.at (area.now.at + 24 + area.now.header.rec_len) (seen (D.history d.new)) × ZeroAt area.now.at 24 (seen (D.history d.new))) }
    ensures quiet { OnOk result (IsTrue D.tells → Quiet (D.history d.new)) }
    ensures size { D.size d.new ≡ D.size d.old }
    ensures cause { HasCause (D.faults d.old) (D.faults d.new) result }
    ensures syncs { OnOk result (RoseBy 2 (D.syncs d.old) (D.syncs d.new)) }
    ensures bytes_read { D.bytes_read d.new ≡ D.bytes_read d.old }
{
    zero_content(d, area)?;
    blank_header(d, h.order, area.at)?;
    Ok(())
}

/// Drops an emptied undo area that stands behind the restored file: the word that leads to it, and then what stands
/// behind that file.
pub(crate) fn drop_area<D: Disk>(d: &mut D, h: &Header, area: &Area) -> Result<(), Io>
    requires head { 48 ≤ D.size d.old }
    requires old_length { area.now.header.key_len ≤ D.size d.old }
    ensures stops { IsTrue D.tells → Quiet (D.history d.old) → (r : List ℕ) → length r ≡ area.now.header.key_len → length r % 4 ≡ 0
        → Behind (form_in h.now) r area.now.at (area.now.at + 24 + area.now.header.rec_len) → Emptied (form_in h.now) r area.now.at (area.now.at + 24 + area.now.header.rec_len) (seen (D.history d.old))
        → ZeroAt area.now.at 24 (seen (D.history d.old)) → LeavesOnly (D.history d.old) (D.history d.new) (TailOf (form_in h.now) r) }
    ensures restored { OnOk result (IsTrue D.tells → (r : List ℕ) → length r ≡ area.now.header.key_len → ZeroAt 44 4 r
        → Behind (form_in h.now) r area.now.at (area.now.at + 24 + area.now.header.rec_len) → Emptied (form_in h.now) r area.now.at (area.now.at + 24 + area.now.header.rec_len) (seen (D.history d.old))
        → ZeroAt area.now.at 24 (seen (D.history d.old)) → seen (D.history d.new) ≡ r) }
    ensures quiet { OnOk result (IsTrue D.tells → Quiet (D.history d.new)) }
    ensures cause { HasCause (D.faults d.old) (D.faults d.new) result }
    ensures syncs { OnOk result (RoseBy 2 (D.syncs d.old) (D.syncs d.new)) }
    ensures bytes_read { D.bytes_read d.new ≡ D.bytes_read d.old }
{
    d.write_word(RECOVERY_START, [0; 4])?;
    d.sync()?;
    d.cut(area.header.key_len as u64)?;
    d.sync()?;
    Ok(())
}

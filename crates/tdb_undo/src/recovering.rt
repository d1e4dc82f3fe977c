// Recovery: what the undo area keeps is tested, written back, and the gate is shut.

ghost use Rattle.std.specs.Prelude.{◌≡◌, ◌≢◌, ◌+◌, ◌*◌, ◌%◌, ◌^◌, ◌<◌, ◌≤◌, ◌⊎◌, false, IsTrue, IfOk, IfErr, OnOk, None, Some, length, if◌then◌else◌};
ghost use Rattle.tdb_disk.specs.Count.{HasCauseOf, RoseBy, RoseUpTo};
ghost use Rattle.tdb_disk.specs.History.{seen};
ghost use Rattle.tdb_disk.specs.Stop.{LeavesOnly, Quiet};
ghost use Rattle.tdb_space.specs.Form.{form_in, form_of, SameHeader};
ghost use Rattle.tdb_space.specs.Accepted.{Shut};
ghost use Rattle.tdb_space.specs.Opening.{entries, undo_fault, Undoable, is_open, restored, Opens, Mild};
ghost use Rattle.tdb_space.specs.OpeningFault.{opening_fault};
ghost use Rattle.tdb_space.specs.Undoing.{old_size, Reopens};
ghost use Rattle.tdb_undo.specs.Refusal.{Names, IsIo};
ghost use Rattle.tdb_undo.specs.Area.{place_fault, IsAreaOf, Stands};
ghost use Rattle.tdb_undo.specs.Entries.{lengths};
ghost use Rattle.tdb_undo.specs.Recovery.{ReadFrom, Undoing, recovery_syncs};
ghost use Rattle.tdb_words.specs.declared.record.TheConstants.{GATE_OPEN as OPEN};
ghost use Rattle.tdb_undo.specs.Reads.{entries_reads, recovery_reads};

use crate::area::{Area, read_area};
use crate::giving::give_all;
use crate::refusal::UndoRefusal;
use crate::testing::{FRONT_LEN, test_entries};
use crate::undoing::{undo_behind, undo_below};
use tdb_disk::Disk;
use tdb_words::{GATE_OPEN, Header};

/// Whether the gate of a file's undo area is open, so that the file has to be recovered before it is read. `UndoBad`
/// with `AreaBad` where the area can't stand where the header says, its length doesn't fit, or its gate word is neither
/// open nor shut. It reads 28 bytes.
pub fn needs_recovery<D: Disk>(d: &mut D, h: &Header) -> Result<bool, UndoRefusal>
    requires heads { 48 ≤ D.size d.old }
    ensures gate { IfOk result (λ is_it. IsTrue D.tells → let a = seen (D.history d.old) in (place_fault (form_in h.now) a ≡ None) × (is_it ≡ is_open (form_in h.now) a)) }
    ensures bad { IfErr result (λ e. IsTrue D.tells → Names e (λ fault. place_fault (form_in h.now) (seen (D.history d.old)) ≡ Some fault)) }
    ensures still { D.history d.new ≡ D.history d.old }
    ensures size { D.size d.new ≡ D.size d.old }
    ensures cause { HasCauseOf UndoRefusal.Io (D.faults d.old) (D.faults d.new) result }
    ensures syncs { D.syncs d.new ≡ D.syncs d.old }
    ensures bytes_read { RoseUpTo 28 (D.bytes_read d.old) (D.bytes_read d.new) }
{
    match read_area(d, h)? {
        Some(area) => Ok(area.header.magic == GATE_OPEN),
        None => Ok(false),
    }
}

/// Writes back what was tested, and takes the further steps of the undo, each with a sync at its end: three where the
/// undo area stands below the old length, and else six.
fn write_back<D: Disk>(
    d: &mut D,
    h: &Header,
    area: &Area,
    len: u64,
    before: &[u8; FRONT_LEN],
    after: &[u8; FRONT_LEN],
) -> Result<(), UndoRefusal>
    requires length { len ≡ D.size d.old }
    requires short { len < 2 ^ 63 }
    requires aligned { area.now.at % 4 ≡ 0 }
    requires above { 172 ≤ area.now.at }
    requires room { area.now.at + 24 + area.now.header.rec_len ≤ len }
    requires content { area.now.header.data_len ≤ area.now.header.rec_len }
    requires old_length { area.now.header.key_len ≤ len }
    requires apart { area.now.at < area.now.header.key_len → area.now.at + 24 + area.now.header.rec_len ≤ area.now.header.key_len }
    ensures stops { IsTrue D.tells → let a = seen (D.history d.old) in Quiet (D.history d.old) → length a % 4 ≡ 0 → Undoable (form_in h.now) a → SameHeader a (restored (form_in h.now) a)
        → old_size (form_in h.now) a % 4 ≡ 0 → ReadFrom (form_in h.now) a area.now before.now after.now → LeavesOnly (D.history d.old) (D.history d.new) (Undoing (form_in h.now) a) }
    ensures restored { OnOk result (IsTrue D.tells → let a = seen (D.history d.old) in length a % 4 ≡ 0 → Undoable (form_in h.now) a
        → ReadFrom (form_in h.now) a area.now before.now after.now → seen (D.history d.new) ≡ restored (form_in h.now) a) }
    ensures refusal { IfErr result (λ e. IsTrue D.tells → let a = seen (D.history d.old) in Undoable (form_in h.now) a → ReadFrom (form_in h.now) a area.now before.now after.now → IsIo e) }
    ensures quiet { OnOk result (IsTrue D.tells → Quiet (D.history d.new)) }
    ensures cause { HasCauseOf UndoRefusal.Io (D.faults d.old) (D.faults d.new) result }
    ensures syncs { OnOk result (((area.now.at < area.now.header.key_len) × RoseBy 3 (D.syncs d.old) (D.syncs d.new)) ⊎ ((area.now.header.key_len ≤ area.now.at) × RoseBy 6 (D.syncs d.old) (D.syncs d.new))) }
    ensures bytes_read { RoseUpTo (entries_reads area.now.header.data_len) (D.bytes_read d.old) (D.bytes_read d.new) }
{
    give_all(d, h, area, before, after)?;
    if area.at < area.header.key_len {
        undo_below(d, h, area)?;
        return Ok(());
    }
    undo_behind(d, h, area, len)?;
    Ok(())
}

/// Undoes what an undo area keeps whose gate is open, after all of it was tested.
fn undo<D: Disk>(d: &mut D, h: &Header, area: &Area) -> Result<u64, UndoRefusal>
    requires stands { Stands (form_in h.now) (D.size d.old) area.now }
    requires open_gate { area.now.header.magic ≡ OPEN }
    requires short { D.size d.old < 2 ^ 63 }
    ensures stops { IsTrue D.tells → let a = seen (D.history d.old) in Quiet (D.history d.old) → length a % 4 ≡ 0 → Undoable (form_in h.now) a → SameHeader a (restored (form_in h.now) a)
        → old_size (form_in h.now) a % 4 ≡ 0 → IsAreaOf h.now.order a area.now → LeavesOnly (D.history d.old) (D.history d.new) (Undoing (form_in h.now) a) }
    ensures restored { OnOk result (IsTrue D.tells → let a = seen (D.history d.old) in length a % 4 ≡ 0 → IsAreaOf h.now.order a area.now
        → Undoable (form_in h.now) a × (seen (D.history d.new) ≡ restored (form_in h.now) a)) }
    ensures sum { IfOk result (λ n. IsTrue D.tells → IsAreaOf h.now.order (seen (D.history d.old)) area.now → n ≡ lengths (entries (form_in h.now) (seen (D.history d.old)))) }
    ensures bad { IfErr result (λ e. IsTrue D.tells → let a = seen (D.history d.old) in IsAreaOf h.now.order a area.now
        → Names e (λ fault. (undo_fault (form_in h.now) a ≡ Some fault) × (D.history d.new ≡ D.history d.old))) }
    ensures quiet { OnOk result (IsTrue D.tells → Quiet (D.history d.new)) }
    ensures cause { HasCauseOf UndoRefusal.Io (D.faults d.old) (D.faults d.new) result }
    ensures syncs { OnOk result (((area.now.at < area.now.header.key_len) × RoseBy 3 (D.syncs d.old) (D.syncs d.new)) ⊎ ((area.now.header.key_len ≤ area.now.at) × RoseBy 6 (D.syncs d.old) (D.syncs d.new))) }
    ensures bytes_read { RoseUpTo (64 + 2 * entries_reads area.now.header.data_len) (D.bytes_read d.old) (D.bytes_read d.new) }
{
    let len = d.len()?;
    if let Some((what, at)) = area.content_fault(len, h.hash_size) {
        return Err(UndoRefusal::UndoBad { what, at });
    }
    let mut before = [0u8; FRONT_LEN];
    d.read(0, &mut before)?;
    let mut after = before;
    let total = test_entries(d, h.order, area, &mut after)?;
    write_back(d, h, area, len, &before, &after)?;
    Ok(total)
}

/// Recovers a file: where the gate of its undo area is open, the file is made again what it was before the changes
/// whose old bytes the area keeps, and the gate is shut. The answer is how many old bytes the entries keep in all, and
/// 0 where there is nothing to undo.
///
/// `UndoBad` tells the first fault that the opening of the undo area meets; nothing is written then, nor where the gate
/// isn't open, whatever the answer is. All is tested before anything is written. It takes time linear in what the area
/// keeps, goes through that twice, and takes no memory. After an undo three syncs were made where the area stands below
/// the file's old length, and else six: so bytes are told only where an undo was made, whatever the file tells.
pub fn recover<D: Disk>(d: &mut D, h: &Header) -> Result<u64, UndoRefusal>
    requires heads { 48 ≤ D.size d.old }
    requires short { D.size d.old < 2 ^ 63 }
    ensures stops { IsTrue D.tells → let a = seen (D.history d.old) in Quiet (D.history d.old) → Opens a → Shut (form_of a) a ⊎ Mild a → form_of a ≡ form_in h.now
        → LeavesOnly (D.history d.old) (D.history d.new) (Reopens (restored (form_in h.now) a)) }
    ensures restored { OnOk result (IsTrue D.tells → length (seen (D.history d.old)) % 4 ≡ 0 → seen (D.history d.new) ≡ restored (form_in h.now) (seen (D.history d.old))) }
    ensures sound { OnOk result (IsTrue D.tells → length (seen (D.history d.old)) % 4 ≡ 0 → opening_fault (form_in h.now) (seen (D.history d.old)) ≡ None) }
    ensures sum { IfOk result (λ n. IsTrue D.tells → let a = seen (D.history d.old) in n ≡ (if is_open (form_in h.now) a then lengths (entries (form_in h.now) a) else 0)) }
    ensures bad { IfErr result (λ e. IsTrue D.tells → Names e (λ fault. (opening_fault (form_in h.now) (seen (D.history d.old)) ≡ Some fault) × (D.history d.new ≡ D.history d.old))) }
    ensures quiet { OnOk result (IsTrue D.tells → Quiet (D.history d.old) → Quiet (D.history d.new)) }
    ensures still { IsTrue D.tells → is_open (form_in h.now) (seen (D.history d.old)) ≡ false → D.history d.new ≡ D.history d.old }
    ensures cause { HasCauseOf UndoRefusal.Io (D.faults d.old) (D.faults d.new) result }
    ensures syncs { OnOk result (IsTrue D.tells → RoseBy (recovery_syncs (form_in h.now) (seen (D.history d.old))) (D.syncs d.old) (D.syncs d.new)) }
    ensures at_most { OnOk result (RoseUpTo 6 (D.syncs d.old) (D.syncs d.new)) }
    ensures made { IfOk result (λ n. n ≢ 0 → RoseBy 3 (D.syncs d.old) (D.syncs d.new) ⊎ RoseBy 6 (D.syncs d.old) (D.syncs d.new)) }
    ensures reads { IsTrue D.tells → RoseUpTo (recovery_reads (form_in h.now) (seen (D.history d.old))) (D.bytes_read d.old) (D.bytes_read d.new) }
{
    let Some(area) = read_area(d, h)? else {
        return Ok(0);
    };
    if area.header.magic != GATE_OPEN {
        return Ok(0);
    }
    undo(d, h, &area)
}

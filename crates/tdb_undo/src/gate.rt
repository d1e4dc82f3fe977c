// The gate of the undo area is opened and shut.

ghost use Rattle.std.specs.Prelude.{◌≡◌, ◌⊎◌, ◌≤◌, IsTrue, OnOk};
ghost use Rattle.tdb_disk.specs.Count.{HasCause, RoseBy, RoseUpTo};
ghost use Rattle.tdb_disk.specs.History.{seen};
ghost use Rattle.tdb_disk.specs.Stop.{LeavesOnly, Quiet};
ghost use Rattle.tdb_space.specs.Form.{form_in, form_of};
ghost use Rattle.tdb_space.specs.Accepted.{Accept};
ghost use Rattle.tdb_space.specs.Opening.{Undoable};
ghost use Rattle.tdb_space.specs.Undoing.{Reopens};
ghost use Rattle.tdb_space.specs.Gate.{with_gate_word, gate_opened, gate_shut, IsReadyToOpen};
ghost use Rattle.tdb_undo.specs.Gate.{HasGate};

use crate::area::{GATE, RECOVERY_START};
use tdb_disk::Disk;
use tdb_space::{Io, header_stands};
use tdb_words::{GATE_OPEN, GATE_SHUT, Header, word_at, word_bytes};

/// Writes the gate word of the undo area by itself, and syncs. Where the word at 44 leads to no place where an area can
/// stand, nothing is written.
fn set_gate<D: Disk>(d: &mut D, h: &Header, gate: u32) -> Result<(), Io>
    requires heads { 48 ≤ D.size d.old }
    ensures stops { IsTrue D.tells → let a = seen (D.history d.old) in Quiet (D.history d.old) → HasGate (form_in h.now) a
        → LeavesOnly (D.history d.old) (D.history d.new) (λ c. (c ≡ a) ⊎ (c ≡ with_gate_word gate (form_in h.now) a)) }
    ensures set { OnOk result (IsTrue D.tells → let a = seen (D.history d.old) in HasGate (form_in h.now) a → seen (D.history d.new) ≡ with_gate_word gate (form_in h.now) a) }
    ensures quiet { OnOk result (IsTrue D.tells → HasGate (form_in h.now) (seen (D.history d.old)) → Quiet (D.history d.new)) }
    ensures size { D.size d.new ≡ D.size d.old }
    ensures cause { HasCause (D.faults d.old) (D.faults d.new) result }
    ensures syncs { OnOk result (IsTrue D.tells → HasGate (form_in h.now) (seen (D.history d.old)) → RoseBy 1 (D.syncs d.old) (D.syncs d.new)) }
    ensures at_most { RoseUpTo 1 (D.syncs d.old) (D.syncs d.new) }
    ensures bytes_read { RoseUpTo 4 (D.bytes_read d.old) (D.bytes_read d.new) }
{
    let len = d.len()?;
    let mut word = [0u8; 4];
    d.read(RECOVERY_START, &mut word)?;
    let at = word_at(&word, h.order);
    if !header_stands(at, len, h.hash_size) {
        return Ok(());
    }
    d.write_word(at as u64 + GATE, word_bytes(gate, h.order))?;
    d.sync()?;
    Ok(())
}

/// Opens the gate of the undo area, which is shut and whose content was filled: from here on the file is read as it was
/// before the changes to come. It reads four bytes, writes one word and syncs once. A stop leaves the gate shut or
/// open, and the file opens to the same map either way. Where the file has no undo area, nothing is written.
pub fn open_gate<D: Disk>(d: &mut D, h: &Header) -> Result<(), Io>
    requires heads { 48 ≤ D.size d.old }
    ensures stops { IsTrue D.tells → let a = seen (D.history d.old) in Quiet (D.history d.old) → Accept a → form_of a ≡ form_in h.now → IsReadyToOpen (form_in h.now) a
        → LeavesOnly (D.history d.old) (D.history d.new) (Reopens a) }
    ensures open { OnOk result (IsTrue D.tells → let a = seen (D.history d.old) in Accept a → form_of a ≡ form_in h.now → IsReadyToOpen (form_in h.now) a
        → (seen (D.history d.new) ≡ gate_opened (form_in h.now) a) × Quiet (D.history d.new) × RoseBy 1 (D.syncs d.old) (D.syncs d.new)) }
    ensures size { D.size d.new ≡ D.size d.old }
    ensures cause { HasCause (D.faults d.old) (D.faults d.new) result }
    ensures at_most { RoseUpTo 1 (D.syncs d.old) (D.syncs d.new) }
    ensures bytes_read { RoseUpTo 4 (D.bytes_read d.old) (D.bytes_read d.new) }
{
    set_gate(d, h, GATE_OPEN)?;
    Ok(())
}

/// Shuts the gate of the undo area, which is open: from here on the file is read as it is. It reads four bytes, writes
/// one word and syncs once. A stop leaves the file as it was or with its gate shut, and no other one.
pub fn shut_gate<D: Disk>(d: &mut D, h: &Header) -> Result<(), Io>
    requires heads { 48 ≤ D.size d.old }
    ensures stops { IsTrue D.tells → let a = seen (D.history d.old) in Quiet (D.history d.old) → Undoable (form_in h.now) a
        → LeavesOnly (D.history d.old) (D.history d.new) (λ c. (c ≡ a) ⊎ (c ≡ gate_shut (form_in h.now) a)) }
    ensures shut { OnOk result (IsTrue D.tells → let a = seen (D.history d.old) in Undoable (form_in h.now) a
        → (seen (D.history d.new) ≡ gate_shut (form_in h.now) a) × Quiet (D.history d.new) × RoseBy 1 (D.syncs d.old) (D.syncs d.new)) }
    ensures size { D.size d.new ≡ D.size d.old }
    ensures cause { HasCause (D.faults d.old) (D.faults d.new) result }
    ensures at_most { RoseUpTo 1 (D.syncs d.old) (D.syncs d.new) }
    ensures bytes_read { RoseUpTo 4 (D.bytes_read d.old) (D.bytes_read d.new) }
{
    set_gate(d, h, GATE_SHUT)?;
    Ok(())
}

// The steps of an undo after all was written, each with a sync at its end.

ghost use Rattle.std.specs.Prelude.{◌≡◌, ◌+◌, ◌%◌, ◌^◌, ◌<◌, ◌≤◌, ℕ, List, IsTrue, OnOk, length};
ghost use Rattle.tdb_disk.specs.Count.{HasCause, RoseBy};
ghost use Rattle.tdb_disk.specs.History.{seen};
ghost use Rattle.tdb_disk.specs.Stop.{LeavesOnly, Quiet};
ghost use Rattle.tdb_space.specs.Form.{form_in};
ghost use Rattle.tdb_space.specs.Opening.{Undoable, restored};
ghost use Rattle.tdb_space.specs.Undoing.{old_size, Written};
ghost use Rattle.tdb_undo.specs.Area.{IsAreaOf};
ghost use Rattle.tdb_undo.specs.Torn.{TornIn, Put};
ghost use Rattle.tdb_undo.specs.Recovery.{AllAlike, Undoing, ShutBehind, is_past};

use crate::area::{Area, GATE};
use crate::emptying::{drop_area, empty_area};
use crate::pieces::zero_bytes;
use tdb_disk::Disk;
use tdb_space::Io;
use tdb_words::{GATE_SHUT, Header, word_bytes};

/// Makes the bytes from the old length on zero, outside the undo area, which stands there or behind.
fn blank_past<D: Disk>(d: &mut D, area: &Area, len: u64) -> Result<(), Io>
    requires length { len ≡ D.size d.old }
    requires behind { area.now.header.key_len ≤ area.now.at }
    requires room { area.now.at + 24 + area.now.header.rec_len ≤ len }
    ensures stops { IsTrue D.tells → LeavesOnly (D.history d.old) (D.history d.new) (TornIn (is_past area.now len) (D.history d.old)) }
    ensures put { OnOk result (IsTrue D.tells → Put (is_past area.now len) (λ _. 0) (seen (D.history d.old)) (seen (D.history d.new))) }
    ensures size { D.size d.new ≡ D.size d.old }
    ensures cause { HasCause (D.faults d.old) (D.faults d.new) result }
    ensures syncs { D.syncs d.new ≡ D.syncs d.old }
    ensures bytes_read { D.bytes_read d.new ≡ D.bytes_read d.old }
{
    let old = area.header.key_len as u64;
    zero_bytes(d, old, area.at as u64 - old)?;
    zero_bytes(d, area.end(), len - area.end())?;
    Ok(())
}

/// Ends the undo where the undo area stands below the old length, and all was written: syncs, cuts the file, and shuts
/// the gate.
pub(crate) fn undo_below<D: Disk>(d: &mut D, h: &Header, area: &Area) -> Result<(), Io>
    requires aligned { area.now.at % 4 ≡ 0 }
    requires below { area.now.at + 24 + area.now.header.rec_len ≤ area.now.header.key_len }
    requires old_length { area.now.header.key_len ≤ D.size d.old }
    ensures stops { IsTrue D.tells → (a : List ℕ) → Undoable (form_in h.now) a → IsAreaOf h.now.order a area.now → old_size (form_in h.now) a % 4 ≡ 0
        → AllAlike (form_in h.now) a (D.history d.old) → Written (form_in h.now) a (seen (D.history d.old)) → LeavesOnly (D.history d.old) (D.history d.new) (Undoing (form_in h.now) a) }
    ensures restored { OnOk result (IsTrue D.tells → (a : List ℕ) → Undoable (form_in h.now) a → IsAreaOf h.now.order a area.now → Written (form_in h.now) a (seen (D.history d.old))
        → seen (D.history d.new) ≡ restored (form_in h.now) a) }
    ensures quiet { OnOk result (IsTrue D.tells → Quiet (D.history d.new)) }
    ensures cause { HasCause (D.faults d.old) (D.faults d.new) result }
    ensures syncs { OnOk result (RoseBy 3 (D.syncs d.old) (D.syncs d.new)) }
    ensures bytes_read { D.bytes_read d.new ≡ D.bytes_read d.old }
{
    d.sync()?;
    d.cut(area.header.key_len as u64)?;
    d.sync()?;
    d.write_word(area.at as u64 + GATE, word_bytes(GATE_SHUT, h.order))?;
    d.sync()?;
    Ok(())
}

/// Shuts the gate where the undo area stands at the old length or behind it, and all was written: what stands there
/// outside the area becomes zero before.
fn shut_behind<D: Disk>(d: &mut D, h: &Header, area: &Area, len: u64) -> Result<(), Io>
    requires length { len ≡ D.size d.old }
    requires aligned { area.now.at % 4 ≡ 0 }
    requires behind { area.now.header.key_len ≤ area.now.at }
    requires room { area.now.at + 24 + area.now.header.rec_len ≤ len }
    ensures stops { IsTrue D.tells → (a : List ℕ) → length a ≡ len → length a % 4 ≡ 0 → Undoable (form_in h.now) a → IsAreaOf h.now.order a area.now
        → AllAlike (form_in h.now) a (D.history d.old) → Written (form_in h.now) a (seen (D.history d.old)) → LeavesOnly (D.history d.old) (D.history d.new) (Undoing (form_in h.now) a) }
    ensures shut { OnOk result (IsTrue D.tells → (a : List ℕ) → length a ≡ len → length a % 4 ≡ 0 → Undoable (form_in h.now) a → IsAreaOf h.now.order a area.now → Written (form_in h.now) a (seen (D.history d.old))
        → ShutBehind (form_in h.now) a area.now (seen (D.history d.new))) }
    ensures quiet { OnOk result (IsTrue D.tells → Quiet (D.history d.new)) }
    ensures size { D.size d.new ≡ D.size d.old }
    ensures cause { HasCause (D.faults d.old) (D.faults d.new) result }
    ensures syncs { OnOk result (RoseBy 2 (D.syncs d.old) (D.syncs d.new)) }
    ensures bytes_read { D.bytes_read d.new ≡ D.bytes_read d.old }
{
    blank_past(d, area, len)?;
    d.sync()?;
    d.write_word(area.at as u64 + GATE, word_bytes(GATE_SHUT, h.order))?;
    d.sync()?;
    Ok(())
}

/// Ends the undo where the undo area stands at the old length or behind it, and all was written: shuts the gate,
/// empties the area, and drops it.
pub(crate) fn undo_behind<D: Disk>(d: &mut D, h: &Header, area: &Area, len: u64) -> Result<(), Io>
    requires length { len ≡ D.size d.old }
    requires head { 48 ≤ len }
    requires aligned { area.now.at % 4 ≡ 0 }
    requires behind { area.now.header.key_len ≤ area.now.at }
    requires room { area.now.at + 24 + area.now.header.rec_len ≤ len }
    ensures stops { IsTrue D.tells → (a : List ℕ) → length a ≡ len → length a % 4 ≡ 0 → Undoable (form_in h.now) a → IsAreaOf h.now.order a area.now → old_size (form_in h.now) a % 4 ≡ 0
        → AllAlike (form_in h.now) a (D.history d.old) → Written (form_in h.now) a (seen (D.history d.old)) → LeavesOnly (D.history d.old) (D.history d.new) (Undoing (form_in h.now) a) }
    ensures restored { OnOk result (IsTrue D.tells → (a : List ℕ) → length a ≡ len → length a % 4 ≡ 0 → Undoable (form_in h.now) a → IsAreaOf h.now.order a area.now
        → Written (form_in h.now) a (seen (D.history d.old)) → seen (D.history d.new) ≡ restored (form_in h.now) a) }
    ensures quiet { OnOk result (IsTrue D.tells → Quiet (D.history d.new)) }
    ensures cause { HasCause (D.faults d.old) (D.faults d.new) result }
    ensures syncs { OnOk result (RoseBy 6 (D.syncs d.old) (D.syncs d.new)) }
    ensures bytes_read { D.bytes_read d.new ≡ D.bytes_read d.old }
{
    shut_behind(d, h, area, len)?;
    empty_area(d, h, area)?;
    drop_area(d, h, area)?;
    Ok(())
}

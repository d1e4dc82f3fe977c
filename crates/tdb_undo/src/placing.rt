// A new undo area is placed behind the end of the file.

ghost use Rattle.std.specs.Prelude.{◌≡◌, ◌+◌, ◌%◌, ◌^◌, ◌<◌, ◌≤◌, ◌⊎◌, IsTrue, OnOk, length};
ghost use Rattle.tdb_disk.specs.Count.{HasCause, RoseBy, RoseUpTo};
ghost use Rattle.tdb_disk.specs.History.{seen};
ghost use Rattle.tdb_disk.specs.Stop.{LeavesOnly, Quiet};
ghost use Rattle.tdb_space.specs.Form.{form_in, form_of};
ghost use Rattle.tdb_space.specs.Accepted.{Accept};
ghost use Rattle.tdb_space.specs.Undoing.{Reopens};
ghost use Rattle.tdb_undo.specs.Placing.{Placing, IsSet, IsCleared, IsPlaced, clearing_syncs};

use crate::area::{HEADER_LEN, RECOVERY_START, read_area};
use crate::emptying::{blank_header, zero_content};
use crate::refusal::UndoRefusal;
use tdb_disk::Disk;
use tdb_space::Io;
use tdb_words::{Header, Order, word_bytes};

/// Makes the file longer by an undo area at `at` with room for `capacity` bytes, and leads to it: each of the three
/// steps ends with one sync.
fn place_area<D: Disk>(d: &mut D, order: Order, at: u32, capacity: u32) -> Result<(), Io>
    requires heads { 48 ≤ D.size d.old }
    requires aligned { at % 4 ≡ 0 }
    requires len_aligned { capacity % 4 ≡ 0 }
    requires behind { D.size d.old ≤ at }
    requires short { at + 24 + capacity < 2 ^ 32 }
    ensures stops { IsTrue D.tells → Quiet (D.history d.old) → length (seen (D.history d.old)) % 4 ≡ 0
        → LeavesOnly (D.history d.old) (D.history d.new) (Placing order (seen (D.history d.old)) at) }
    ensures set { OnOk result (IsTrue D.tells → length (seen (D.history d.old)) % 4 ≡ 0
        → Placing order (seen (D.history d.old)) at (seen (D.history d.new)) × IsSet order (seen (D.history d.new)) at capacity) }
    ensures quiet { OnOk result (IsTrue D.tells → Quiet (D.history d.new)) }
    ensures size { OnOk result (D.size d.new ≡ at + 24 + capacity) }
    ensures cause { HasCause (D.faults d.old) (D.faults d.new) result }
    ensures syncs { OnOk result (RoseBy 3 (D.syncs d.old) (D.syncs d.new)) }
    ensures bytes_read { D.bytes_read d.new ≡ D.bytes_read d.old }
{
    d.grow(at as u64 + HEADER_LEN + capacity as u64)?;
    d.sync()?;
    d.write_word(RECOVERY_START, word_bytes(at, order))?;
    d.sync()?;
    d.write_word(at as u64 + 4, word_bytes(capacity, order))?;
    d.sync()?;
    Ok(())
}

/// Makes the content of the undo area zero, and then its header, where the file has one; each of the two steps ends
/// with one sync. Where the area has a fault, nothing is written.
fn clear_area<D: Disk>(d: &mut D, h: &Header) -> Result<(), Io>
    requires heads { 48 ≤ D.size d.old }
    ensures stops { IsTrue D.tells → let a = seen (D.history d.old) in Quiet (D.history d.old) → Accept a → form_of a ≡ form_in h.now
        → LeavesOnly (D.history d.old) (D.history d.new) (Reopens a) }
    ensures cleared { OnOk result (IsTrue D.tells → let a = seen (D.history d.old) in Accept a → form_of a ≡ form_in h.now → IsCleared (form_in h.now) a (seen (D.history d.new))) }
    ensures quiet { OnOk result (IsTrue D.tells → Quiet (D.history d.old) → Quiet (D.history d.new)) }
    ensures size { D.size d.new ≡ D.size d.old }
    ensures cause { HasCause (D.faults d.old) (D.faults d.new) result }
    ensures syncs { OnOk result ((D.syncs d.new ≡ D.syncs d.old) ⊎ RoseBy 2 (D.syncs d.old) (D.syncs d.new)) }
    ensures as_often { OnOk result (IsTrue D.tells → let a = seen (D.history d.old) in Accept a → form_of a ≡ form_in h.now → RoseBy (clearing_syncs h.now.order a) (D.syncs d.old) (D.syncs d.new)) }
    ensures bytes_read { RoseUpTo 28 (D.bytes_read d.old) (D.bytes_read d.new) }
{
    match read_area(d, h) {
        Ok(Some(area)) => {
            zero_content(d, &area)?;
            blank_header(d, h.order, area.at)?;
            Ok(())
        }
        Ok(None) => Ok(()),
        Err(UndoRefusal::UndoBad { what: _, at: _ }) => Ok(()),
        Err(UndoRefusal::Io) => Err(Io),
    }
}

/// Replaces the undo area of an accepted file: makes the old one zero, where there is one, and places a new one at
/// `at`, at the end of the file or behind it, with room for `capacity` bytes. The file ends with the new area then.
/// Offsets and lengths are in bytes.
///
/// A stop leaves a file that opens to the same map, also where the call fails. It takes three syncs, and two more where
/// there was an area, and time linear in the content of the old one. It reads 28 bytes at most.
pub fn ensure<D: Disk>(d: &mut D, h: &Header, capacity: u32, at: u64) -> Result<(), Io>
    requires heads { 48 ≤ D.size d.old }
    requires aligned { at % 4 ≡ 0 }
    requires len_aligned { capacity % 4 ≡ 0 }
    requires behind { D.size d.old ≤ at }
    requires short { at + 24 + capacity < 2 ^ 32 }
    ensures stops { IsTrue D.tells → let a = seen (D.history d.old) in Quiet (D.history d.old) → Accept a → form_of a ≡ form_in h.now
        → LeavesOnly (D.history d.old) (D.history d.new) (Reopens a) }
    ensures placed { OnOk result (IsTrue D.tells → let a = seen (D.history d.old) in Accept a → form_of a ≡ form_in h.now → IsPlaced (form_in h.now) a (seen (D.history d.new)) at capacity) }
    ensures quiet { OnOk result (IsTrue D.tells → Quiet (D.history d.new)) }
    ensures size { OnOk result (D.size d.new ≡ at + 24 + capacity) }
    ensures cause { HasCause (D.faults d.old) (D.faults d.new) result }
    ensures syncs { OnOk result (RoseBy 3 (D.syncs d.old) (D.syncs d.new) ⊎ RoseBy 5 (D.syncs d.old) (D.syncs d.new)) }
    ensures as_often { OnOk result (IsTrue D.tells → let a = seen (D.history d.old) in Accept a → form_of a ≡ form_in h.now → RoseBy (clearing_syncs h.now.order a + 3) (D.syncs d.old) (D.syncs d.new)) }
    ensures bytes_read { RoseUpTo 28 (D.bytes_read d.old) (D.bytes_read d.new) }
{
    clear_area(d, h)?;
    place_area(d, h.order, at as u32, capacity)?;
    Ok(())
}

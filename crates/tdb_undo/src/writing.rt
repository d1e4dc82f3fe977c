// What the undo area keeps is written back, but for the first bytes of the file.

ghost use Rattle.std.specs.Prelude.{◌≡◌, ◌+◌, ◌-◌, ◌^◌, ◌<◌, ◌≤◌, ◌⊎◌, ℕ, IsTrue, IfErr, OnOk, None, slice_index};
ghost use Rattle.tdb_disk.specs.Count.{HasCause, HasCauseOf, RoseUpTo};
ghost use Rattle.tdb_disk.specs.History.{seen};
ghost use Rattle.tdb_disk.specs.Stop.{LeavesOnly};
ghost use Rattle.tdb_space.specs.Opening.{entry_fault, lies_in};
ghost use Rattle.tdb_undo.specs.Refusal.{IsIo};
ghost use Rattle.tdb_undo.specs.Torn.{TornIn, Put};
ghost use Rattle.tdb_undo.specs.Entries.{entries_in, entries_stop, is_given, is_written, Given};
ghost use Rattle.tdb_undo.specs.Reads.{entries_reads};

use crate::area::{Area, HEADER_LEN};
use crate::pieces::{BLOCK, copy_bytes};
use crate::refusal::UndoRefusal;
use crate::testing::FRONT_LEN;
use crate::window::{ENTRY_LEN, Window};
use tdb_disk::Disk;
use tdb_space::Io;
use tdb_words::{Order, What};

/// Writes back what an entry keeps of the bytes from one offset up to another. Its old bytes, the first of them for
/// `off`, stand at `source`.
fn give_piece<D: Disk>(
    d: &mut D,
    source: u64,
    off: u64,
    from: u64,
    to: u64,
    block: &mut [u8; BLOCK],
) -> Result<(), Io>
    requires above { off ≤ from }
    requires source_within { source + (to - off) ≤ D.size d.old }
    requires target_within { to ≤ D.size d.old }
    requires apart { from < to → (source + (to - off) ≤ from) ⊎ (to ≤ source) }
    requires short { D.size d.old < 2 ^ 63 }
    ensures stops { IsTrue D.tells → LeavesOnly (D.history d.old) (D.history d.new) (TornIn (lies_in from (to - from)) (D.history d.old)) }
    ensures put { OnOk result (IsTrue D.tells → Put (lies_in from (to - from)) (λ i. slice_index (seen (D.history d.old)) (source + (i - off))) (seen (D.history d.old)) (seen (D.history d.new))) }
    ensures size { D.size d.new ≡ D.size d.old }
    ensures cause { HasCause (D.faults d.old) (D.faults d.new) result }
    ensures syncs { D.syncs d.new ≡ D.syncs d.old }
    ensures bytes_read { RoseUpTo (to - from) (D.bytes_read d.old) (D.bytes_read d.new) }
{
    if to <= from {
        return Ok(());
    }
    copy_bytes(d, source + (from - off), from, to - from, block)
}

/// Writes back what an entry keeps: its old bytes stand at `source`, within the undo area. Left out are the first bytes
/// of the file and the undo area itself.
fn give_entry<D: Disk>(
    d: &mut D,
    area: &Area,
    source: u64,
    off: u32,
    len: u32,
    block: &mut [u8; BLOCK],
) -> Result<(), Io>
    requires area { area.now.at + 24 + area.now.header.rec_len ≤ D.size d.old }
    requires above { area.now.at ≤ source }
    requires within { source + len ≤ area.now.at + 24 + area.now.header.rec_len }
    requires target { off + len ≤ D.size d.old }
    requires short { D.size d.old < 2 ^ 63 }
    ensures stops { IsTrue D.tells → LeavesOnly (D.history d.old) (D.history d.new) (TornIn (is_given area.now off len) (D.history d.old)) }
    ensures put { OnOk result (IsTrue D.tells → Put (is_given area.now off len) (λ i. slice_index (seen (D.history d.old)) (source + (i - off))) (seen (D.history d.old)) (seen (D.history d.new))) }
    ensures size { D.size d.new ≡ D.size d.old }
    ensures cause { HasCause (D.faults d.old) (D.faults d.new) result }
    ensures syncs { D.syncs d.new ≡ D.syncs d.old }
    ensures bytes_read { RoseUpTo len (D.bytes_read d.old) (D.bytes_read d.new) }
{
    let off = off as u64;
    let to = off + len as u64;
    let from = off.max(FRONT_LEN as u64);
    let behind = from.max(area.end());
    give_piece(d, source, off, from, to.min(area.at as u64), block)?;
    give_piece(d, source, off, behind, to, block)?;
    Ok(())
}

/// Writes back what the entries of the undo area keep, one after the other, but for the first bytes of the file and the
/// undo area itself. The entries were tested. One that has a fault all the same, since the bytes of the file have
/// become others, is refused, and so are those behind it.
pub(crate) fn write_entries<D: Disk>(
    d: &mut D,
    order: Order,
    area: &Area,
) -> Result<(), UndoRefusal>
    requires room { area.now.at + 24 + area.now.header.rec_len ≤ D.size d.old }
    requires content { area.now.header.data_len ≤ area.now.header.rec_len }
    requires old_length { area.now.header.key_len ≤ D.size d.old }
    requires short { D.size d.old < 2 ^ 63 }
    ensures stops { IsTrue D.tells → entry_fault (entries_stop area.now) area.now.header.key_len (entries_in order (seen (D.history d.old)) area.now) ≡ None
        → LeavesOnly (D.history d.old) (D.history d.new) (TornIn (is_written area.now (entries_in order (seen (D.history d.old)) area.now)) (D.history d.old)) }
    ensures given { OnOk result (IsTrue D.tells → entry_fault (entries_stop area.now) area.now.header.key_len (entries_in order (seen (D.history d.old)) area.now) ≡ None
        → Given area.now (entries_in order (seen (D.history d.old)) area.now) (seen (D.history d.old)) (seen (D.history d.new))) }
    ensures refusal { IfErr result (λ e. IsTrue D.tells → entry_fault (entries_stop area.now) area.now.header.key_len (entries_in order (seen (D.history d.old)) area.now) ≡ None → IsIo e) }
    ensures size { D.size d.new ≡ D.size d.old }
    ensures cause { HasCauseOf UndoRefusal.Io (D.faults d.old) (D.faults d.new) result }
    ensures syncs { D.syncs d.new ≡ D.syncs d.old }
    ensures bytes_read { RoseUpTo (entries_reads area.now.header.data_len) (D.bytes_read d.old) (D.bytes_read d.new) }
{
    let mut place = area.at as u64 + HEADER_LEN;
    let end = place + area.header.data_len as u64;
    let mut window = Window::new();
    let mut block = [0u8; BLOCK];
    while place + ENTRY_LEN < end {
        let (off, len) = window.entry_words(d, order, place, end)?;
        let next = place + ENTRY_LEN + len as u64;
        if area.is_bad_entry(next, off, len) {
            return Err(UndoRefusal::UndoBad {
                what: What::UndoBad,
                at: place,
            });
        }
        give_entry(d, area, place + ENTRY_LEN, off, len, &mut block)?;
        place = next;
    }
    Ok(())
}

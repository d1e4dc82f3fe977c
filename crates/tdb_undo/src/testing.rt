// The test of what the undo area keeps, before anything of it is written.

ghost use Rattle.std.specs.Prelude.{◌≡◌, ◌+◌, ◌<◌, ◌≤◌, ℕ, IsTrue, IfOk, IfErr, OnOk, None, Some, slice_index, take, drop};
ghost use Rattle.tdb_disk.specs.Count.{HasCause, HasCauseOf, RoseUpTo};
ghost use Rattle.tdb_disk.specs.History.{seen};
ghost use Rattle.tdb_space.specs.Opening.{Entry, entry_fault, last_covering, given_back};
ghost use Rattle.tdb_undo.specs.Refusal.{Names};
ghost use Rattle.tdb_undo.specs.Entries.{entries_in, entries_stop, lengths, one_back};
ghost use Rattle.tdb_undo.specs.Reads.{entries_reads};

use crate::area::{Area, HEADER_LEN};
use crate::refusal::UndoRefusal;
use crate::window::{ENTRY_LEN, Window};
use tdb_disk::Disk;
use tdb_space::Io;
use tdb_words::{Order, What};

/// How many bytes of the file are looked at one by one, before they are written.
pub(crate) const FRONT_LEN: usize = 64;

/// Puts into the first bytes of a file what an entry keeps of them. Its old bytes stand at `at`.
fn take_front<D: Disk>(
    d: &mut D,
    at: u64,
    off: u32,
    len: u32,
    front: &mut [u8; FRONT_LEN],
) -> Result<(), Io>
    requires within { at + len ≤ D.size d.old }
    ensures front { OnOk result (IsTrue D.tells → (e : Entry) → e.off ≡ off → e.len ≡ len → e.olds ≡ take len (drop at (seen (D.history d.old)))
        → (i : ℕ) → i < 64 → slice_index front.new i ≡ one_back e i (slice_index front.old i)) }
    ensures still { D.history d.new ≡ D.history d.old }
    ensures size { D.size d.new ≡ D.size d.old }
    ensures cause { HasCause (D.faults d.old) (D.faults d.new) result }
    ensures syncs { D.syncs d.new ≡ D.syncs d.old }
    ensures bytes_read { RoseUpTo len (D.bytes_read d.old) (D.bytes_read d.new) }
{
    let from = off as usize;
    if from >= FRONT_LEN {
        return Ok(());
    }
    let to = (from + len as usize).min(FRONT_LEN);
    d.read(at, &mut front[from..to])?;
    Ok(())
}

/// Tests each entry of the undo area: it lies within the content, and what it covers within the old length of the file.
/// It answers how many old bytes they keep in all, and puts into `front`, which has the first bytes of the file, what
/// the entries keep of these. Nothing is written.
pub(crate) fn test_entries<D: Disk>(
    d: &mut D,
    order: Order,
    area: &Area,
    front: &mut [u8; FRONT_LEN],
) -> Result<u64, UndoRefusal>
    requires room { area.now.at + 24 + area.now.header.rec_len ≤ D.size d.old }
    requires content { area.now.header.data_len ≤ area.now.header.rec_len }
    ensures sound { IfOk result (λ n. IsTrue D.tells
        → (entry_fault (entries_stop area.now) area.now.header.key_len (entries_in order (seen (D.history d.old)) area.now) ≡ None) × (n ≡ lengths (entries_in order (seen (D.history d.old)) area.now))) }
    ensures front { OnOk result (IsTrue D.tells → (i : ℕ) → i < 64
        → slice_index front.new i ≡ given_back (last_covering (entries_in order (seen (D.history d.old)) area.now) i) i (slice_index front.old i)) }
    ensures bad { IfErr result (λ e. IsTrue D.tells
        → Names e (λ fault. entry_fault (entries_stop area.now) area.now.header.key_len (entries_in order (seen (D.history d.old)) area.now) ≡ Some fault)) }
    ensures still { D.history d.new ≡ D.history d.old }
    ensures size { D.size d.new ≡ D.size d.old }
    ensures cause { HasCauseOf UndoRefusal.Io (D.faults d.old) (D.faults d.new) result }
    ensures syncs { D.syncs d.new ≡ D.syncs d.old }
    ensures bytes_read { RoseUpTo (entries_reads area.now.header.data_len) (D.bytes_read d.old) (D.bytes_read d.new) }
{
    let start = area.at as u64 + HEADER_LEN;
    let end = start + area.header.data_len as u64;
    let mut place = start;
    let mut total = 0u64;
    let mut window = Window::new();
    while place + ENTRY_LEN < end {
        let (off, len) = window.entry_words(d, order, place, end)?;
        let next = place + ENTRY_LEN + len as u64;
        if area.is_bad_entry(next, off, len) {
            return Err(UndoRefusal::UndoBad {
                what: What::UndoBad,
                at: place,
            });
        }
        take_front(d, place + ENTRY_LEN, off, len, front)?;
        total += len as u64;
        place = next;
    }
    Ok(total)
}

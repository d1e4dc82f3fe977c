// The content of the undo area: what the file has in the runs that are to be written.

ghost use Rattle.std.specs.Prelude.{◌≡◌, ◌+◌, ◌^◌, ◌<◌, ◌≤◌, ◌⊎◌, ℕ, List, IsTrue, IfOk, IfSome, OnOk, MatchBool};
ghost use Rattle.tdb_disk.specs.Count.{HasCause, RoseBy, RoseUpTo};
ghost use Rattle.tdb_disk.specs.History.{seen};
ghost use Rattle.tdb_disk.specs.Stop.{LeavesOnly, Quiet};
ghost use Rattle.tdb_words.specs.Word.{word};
ghost use Rattle.tdb_space.specs.Form.{form_in, form_of};
ghost use Rattle.tdb_space.specs.Accepted.{Accept};
ghost use Rattle.tdb_space.specs.Opening.{lies_in};
ghost use Rattle.tdb_space.specs.Undoing.{area_at, Reopens};
ghost use Rattle.tdb_undo.specs.Area.{area_of};
ghost use Rattle.tdb_undo.specs.Torn.{TornIn};
ghost use Rattle.tdb_undo.specs.Growth.{GrewAtMost};
ghost use Rattle.tdb_undo.specs.Content.{EntryPut, HasRoom, RunsFit, AllPut, is_content, IsFilled};
ghost use Rattle.tdb_undo.specs.Reads.{run_bytes};

use crate::area::{Area, HEADER_LEN, OLD_LEN, read_area};
use crate::pieces::{BLOCK, copy_bytes};
use crate::refusal::UndoRefusal;
use crate::runs::Runs;
use crate::window::ENTRY_LEN;
use tdb_disk::Disk;
use tdb_space::Io;
use tdb_words::{Header, Order, word_bytes};

/// Two words, one behind the other.
#[tactic(auto, unfolding(tdb_words::specs::Word::word))]
fn two_words(first: u32, second: u32, order: Order) -> [u8; 8]
    ensures first { word order result 0 ≡ first }
    ensures second { word order result 4 ≡ second }
{
    let a = word_bytes(first, order);
    let b = word_bytes(second, order);
    [a[0], a[1], a[2], a[3], b[0], b[1], b[2], b[3]]
}

/// Writes an entry at a place: an offset, a length, and the bytes that the file has there, which lie beside the entry.
fn put_entry<D: Disk>(
    d: &mut D,
    order: Order,
    place: u64,
    run: (u32, u32),
    block: &mut [u8; BLOCK],
) -> Result<(), Io>
    requires source { run.0 + run.1 ≤ D.size d.old }
    requires target { place + 8 + run.1 ≤ D.size d.old }
    requires apart { (run.0 + run.1 ≤ place) ⊎ (place + 8 + run.1 ≤ run.0) }
    requires short { D.size d.old < 2 ^ 63 }
    ensures stops { IsTrue D.tells → LeavesOnly (D.history d.old) (D.history d.new) (TornIn (lies_in place (8 + run.1)) (D.history d.old)) }
    ensures put { OnOk result (IsTrue D.tells → EntryPut order place run (seen (D.history d.old)) (seen (D.history d.new))) }
    ensures size { D.size d.new ≡ D.size d.old }
    ensures cause { HasCause (D.faults d.old) (D.faults d.new) result }
    ensures syncs { D.syncs d.new ≡ D.syncs d.old }
    ensures bytes_read { RoseUpTo run.1 (D.bytes_read d.old) (D.bytes_read d.new) }
{
    let (off, len) = run;
    let words = two_words(off, len, order);
    d.write(place, &words)?;
    copy_bytes(d, off as u64, place + ENTRY_LEN, len as u64, block)
}

/// Whether an entry that ends at `next` leaves room in the area for the last word, and its run lies within a file of
/// `len` bytes, beside the area.
fn has_room(area: &Area, len: u64, next: u64, run: (u32, u32)) -> bool
    requires { next < 2 ^ 63 }
    ensures { MatchBool result (HasRoom area.now len next run) (HasRoom area.now len next run → ⊥) }
{
    let from = run.0 as u64;
    let to = from + run.1 as u64;
    next + 4 <= area.end() && to <= len && (to <= area.at as u64 || area.end() <= from)
}

/// Writes an entry for each run, one after the other, and answers where they end. None where an entry hasn't room: then
/// those before it were written.
fn put_runs<D: Disk>(
    d: &mut D,
    order: Order,
    area: &Area,
    len: u64,
    runs: &Runs,
) -> Result<Option<u64>, Io>
    requires length { len ≡ D.size d.old }
    requires short { len < 2 ^ 62 }
    requires room { area.now.at + 24 + area.now.header.rec_len ≤ len }
    ensures stops { IsTrue D.tells → LeavesOnly (D.history d.old) (D.history d.new) (TornIn (lies_in (area.now.at + 24) area.now.header.rec_len) (D.history d.old)) }
    ensures filled { IfOk result (λ end. IsTrue D.tells → RunsFit area.now len runs.now → AllPut order area.now runs.now (seen (D.history d.old)) (seen (D.history d.new)) end) }
    ensures within { IfOk result (λ end. IfSome end (λ place. (area.now.at + 24 ≤ place) × (place + 4 ≤ area.now.at + 24 + area.now.header.rec_len))) }
    ensures size { D.size d.new ≡ D.size d.old }
    ensures cause { HasCause (D.faults d.old) (D.faults d.new) result }
    ensures syncs { D.syncs d.new ≡ D.syncs d.old }
    ensures bytes_read { RoseUpTo (run_bytes runs.now) (D.bytes_read d.old) (D.bytes_read d.new) }
{
    let mut block = [0u8; BLOCK];
    let mut place = area.at as u64 + HEADER_LEN;
    if area.end() < place + 4 {
        return Ok(None);
    }
    for i in 0..runs.len() {
        let Some(run) = runs.get(i) else {
            return Ok(None);
        };
        let next = place + ENTRY_LEN + run.1 as u64;
        if !has_room(area, len, next, run) {
            return Ok(None);
        }
        put_entry(d, order, place, run, &mut block)?;
        place = next;
    }
    Ok(Some(place))
}

/// Fills the content of the undo area, and the words of its header that say how long the file was and how long the
/// content is; all of it ends with one sync.
fn fill_area<D: Disk>(
    d: &mut D,
    order: Order,
    area: &Area,
    len: u64,
    old_len: u32,
    runs: &Runs,
) -> Result<(), Io>
    requires length { len ≡ D.size d.old }
    requires short { len < 2 ^ 62 }
    requires room { area.now.at + 24 + area.now.header.rec_len ≤ len }
    ensures stops { IsTrue D.tells → LeavesOnly (D.history d.old) (D.history d.new) (TornIn (is_content area.now) (D.history d.old)) }
    ensures filled { OnOk result (IsTrue D.tells → 24 + area.now.header.rec_len < 2 ^ 32 → RunsFit area.now len runs.now
        → IsFilled order area.now old_len runs.now (seen (D.history d.old)) (seen (D.history d.new)) × Quiet (D.history d.new) × RoseBy 1 (D.syncs d.old) (D.syncs d.new)) }
    ensures size { D.size d.new ≡ D.size d.old }
    ensures cause { HasCause (D.faults d.old) (D.faults d.new) result }
    ensures syncs { RoseUpTo 1 (D.syncs d.old) (D.syncs d.new) }
    ensures bytes_read { RoseUpTo (run_bytes runs.now) (D.bytes_read d.old) (D.bytes_read d.new) }
{
    let Some(place) = put_runs(d, order, area, len, runs)? else {
        return Ok(());
    };
    let start = area.at as u64 + HEADER_LEN;
    let extent = HEADER_LEN + area.header.rec_len as u64;
    if extent > u32::MAX as u64 {
        return Ok(());
    }
    d.write(place, &word_bytes(extent as u32, order))?;
    let lens = two_words(old_len, (place + 4 - start) as u32, order);
    d.write(area.at as u64 + OLD_LEN, &lens)?;
    d.sync()?;
    Ok(())
}

/// Fills the undo area of an accepted file, whose gate is shut: the content gets an entry for each run, in their order,
/// with the bytes that the file has there, and the header says that the file was `old_len` bytes long. All of it ends
/// with one sync. It takes time linear in the content, and no memory. It reads 28 bytes at most, and the runs once.
///
/// The disk is quiet, or its file has grown since then to a multiple of 4, with no further sync and no other change. A
/// stop then leaves a file that opens to the same map, also where the call fails. The runs lie beside the area, and
/// their content fits into it; where one doesn't, or there is no area, what stands behind it isn't written.
pub fn put_content<D: Disk>(d: &mut D, h: &Header, old_len: u32, runs: &Runs) -> Result<(), Io>
    requires heads { 48 ≤ D.size d.old }
    requires short { D.size d.old < 2 ^ 32 }
    ensures stops { IsTrue D.tells → (a : List ℕ) → GrewAtMost a (D.history d.old) → Accept a → form_of a ≡ form_in h.now
        → LeavesOnly (D.history d.old) (D.history d.new) (Reopens a) }
    ensures filled { OnOk result (IsTrue D.tells → let a = seen (D.history d.old) in Accept a → form_of a ≡ form_in h.now → (area_at (form_in h.now) a ≡ 0 → ⊥)
        → RunsFit (area_of h.now.order a) (D.size d.old) runs.now → IsFilled h.now.order (area_of h.now.order a) old_len runs.now a (seen (D.history d.new)) × Quiet (D.history d.new) × RoseBy 1 (D.syncs d.old) (D.syncs d.new)) }
    ensures size { D.size d.new ≡ D.size d.old }
    ensures cause { HasCause (D.faults d.old) (D.faults d.new) result }
    ensures syncs { RoseUpTo 1 (D.syncs d.old) (D.syncs d.new) }
    ensures bytes_read { RoseUpTo (28 + run_bytes runs.now) (D.bytes_read d.old) (D.bytes_read d.new) }
{
    let len = d.len()?;
    match read_area(d, h) {
        Ok(Some(area)) => fill_area(d, h.order, &area, len, old_len, runs),
        Ok(None) => Ok(()),
        Err(UndoRefusal::UndoBad { what: _, at: _ }) => Ok(()),
        Err(UndoRefusal::Io) => Err(Io),
    }
}

//! The undo area that a file has.
ghost use Rattle.std.specs.Prelude.{◌≡◌, ◌+◌, ◌%◌, ◌<◌, ◌≤◌, ◌^◌, ◌⊎◌, ℕ, IsTrue, IfOk};
ghost use Rattle.tdb_disk.specs.Count.{HasCause, RoseUpTo};
ghost use Rattle.tdb_disk.specs.History.{seen};
ghost use Rattle.tdb_words.specs.Word.{word};
ghost use Rattle.tdb_space.specs.Accepted.{AreaOk};
ghost use Rattle.tdb_space.specs.Form.{Form};
ghost use Rattle.tdb_txn.specs.AreaExtent.{IsAreaExtent, CanHold};

use crate::area_room::AREA_HEADER;
use tdb_disk::{Disk, DiskFault};
use tdb_words::{Order, word_at};

/// Where the word stands that leads to the undo area.
pub(crate) const AREA_WORD: u64 = 44;

/// The word at an offset of the file.
fn read_word<D: Disk>(d: &mut D, off: u64, order: Order) -> Result<u32, DiskFault>
    requires { off + 4 ≤ D.size d.old }
    ensures word { IfOk result (λ w. IsTrue D.tells → w ≡ word order (seen (D.history d.old)) off) }
    ensures size { D.size d.new ≡ D.size d.old }
    ensures history { D.history d.new ≡ D.history d.old }
    ensures cause { HasCause (D.faults d.old) (D.faults d.new) result }
    ensures syncs { D.syncs d.new ≡ D.syncs d.old }
    ensures bytes_read { RoseUpTo 4 (D.bytes_read d.old) (D.bytes_read d.new) }
{
    let mut bytes = [0; 4];
    d.read(off, &mut bytes)?;
    Ok(word_at(&bytes, order))
}

/// The extent of the undo area of an accepted file of `len` bytes: its offset, and its length with its header. Both are
/// 0 where the file has none. It reads 8 bytes at most.
pub(crate) fn find_area<D: Disk>(d: &mut D, order: Order, len: u64) -> Result<(u32, u32), DiskFault>
    requires heads { 48 ≤ len }
    requires sized { D.size d.old ≡ len }
    requires short { len < 2 ^ 32 }
    ensures found { IfOk result (λ extent. IsTrue D.tells → (f : Form) → f.order ≡ order → AreaOk f (seen (D.history d.old)) → IsAreaExtent order (seen (D.history d.old)) extent) }
    ensures place { IfOk result (λ extent. (extent ≡ (0, 0)) ⊎ CanHold len extent) }
    ensures size { D.size d.new ≡ D.size d.old }
    ensures history { D.history d.new ≡ D.history d.old }
    ensures cause { HasCause (D.faults d.old) (D.faults d.new) result }
    ensures syncs { D.syncs d.new ≡ D.syncs d.old }
    ensures bytes_read { RoseUpTo 8 (D.bytes_read d.old) (D.bytes_read d.new) }
{
    let at = read_word(d, AREA_WORD, order)?;
    let start = at as u64 + AREA_HEADER as u64;
    if at == 0 || at % 4 != 0 || len < start {
        return Ok((0, 0));
    }
    let capacity = read_word(d, at as u64 + 4, order)?;
    if capacity % 4 != 0 || len < start + capacity as u64 {
        return Ok((0, 0));
    }
    Ok((at, AREA_HEADER + capacity))
}

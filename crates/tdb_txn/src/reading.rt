//! Reading a file as a transaction has it.
ghost use Rattle.std.specs.Prelude.{◌≡◌, ℕ, ◌+◌, ◌*◌, ◌<◌, ◌≤◌, IsTrue, OnOk, length, take, drop, slice_index};
ghost use Rattle.tdb_disk.specs.Count.{HasCause, RoseUpTo};
ghost use Rattle.tdb_disk.specs.History.{seen};
ghost use Rattle.tdb_txn.specs.Pages.{page_size};

use crate::page::PAGE_SIZE;
use crate::part::Part;
use crate::txn::Txn;
use tdb_disk::{Disk, DiskFault};

/// Fills `buf` with the bytes of a file of this length from offset `at` on, and with zeros past its end.
pub(crate) fn read_file<D: Disk>(
    d: &mut D,
    file_length: u64,
    at: u64,
    buf: &mut [u8],
) -> Result<(), DiskFault>
    requires { D.size d.old ≡ file_length }
    ensures bytes { OnOk result (IsTrue D.tells → (k : ℕ) → k < length buf.old → slice_index buf.new k ≡ slice_index (seen (D.history d.old)) (at + k)) }
    ensures zeros { OnOk result ((k : ℕ) → file_length ≤ at + k → slice_index buf.new k ≡ 0) }
    ensures size { D.size d.new ≡ D.size d.old }
    ensures history { D.history d.new ≡ D.history d.old }
    ensures cause { HasCause (D.faults d.old) (D.faults d.new) result }
    ensures syncs { D.syncs d.new ≡ D.syncs d.old }
    ensures bytes_read { RoseUpTo (length buf.old) (D.bytes_read d.old) (D.bytes_read d.new) }
{
    let front = file_length.saturating_sub(at).min(buf.len() as u64) as usize;
    buf[front..].fill(0);
    if front == 0 {
        return Ok(());
    }
    d.read(at, &mut buf[..front])
}

impl Txn {
    ghost use Rattle.tdb_txn.specs.Txn.{txn_start, txn_size, txn_image};

    /// Fills `buf` with the bytes from offset `off` on.
    pub(crate) fn read<D: Disk>(&self, d: &mut D, off: u64, buf: &mut [u8]) -> Result<(), DiskFault>
        requires sized { D.size d.old ≡ txn_start self.now }
        requires inside { off + length buf.old ≤ txn_size self.now }
        ensures bytes { OnOk result (IsTrue D.tells → buf.new ≡ take (length buf.old) (drop off (txn_image self.now (seen (D.history d.old))))) }
        ensures size { D.size d.new ≡ D.size d.old }
        ensures history { D.history d.new ≡ D.history d.old }
        ensures cause { HasCause (D.faults d.old) (D.faults d.new) result }
        ensures syncs { D.syncs d.new ≡ D.syncs d.old }
        ensures bytes_read { RoseUpTo (length buf.old) (D.bytes_read d.old) (D.bytes_read d.new) }
    {
        let mut done = 0;
        while done < buf.len() {
            let part = Part::after(off, done, buf.len());
            self.read_part(d, part.number, part.within, &mut buf[done..part.end])?;
            done = part.end;
        }
        Ok(())
    }

    /// Fills `buf` with bytes that lie in one page.
    fn read_part<D: Disk>(
        &self,
        d: &mut D,
        number: u64,
        within: usize,
        buf: &mut [u8],
    ) -> Result<(), DiskFault>
        requires sized { D.size d.old ≡ txn_start self.now }
        requires one_page { within + length buf.old ≤ page_size }
        requires inside { number * page_size + within + length buf.old ≤ txn_size self.now }
        ensures bytes { OnOk result (IsTrue D.tells → buf.new ≡ take (length buf.old) (drop (number * page_size + within) (txn_image self.now (seen (D.history d.old))))) }
        ensures size { D.size d.new ≡ D.size d.old }
        ensures history { D.history d.new ≡ D.history d.old }
        ensures cause { HasCause (D.faults d.old) (D.faults d.new) result }
        ensures syncs { D.syncs d.new ≡ D.syncs d.old }
        ensures bytes_read { RoseUpTo (length buf.old) (D.bytes_read d.old) (D.bytes_read d.new) }
    {
        if self.pages.copy_out(number, within, buf) {
            return Ok(());
        }
        read_file(
            d,
            self.start,
            number * PAGE_SIZE as u64 + within as u64,
            buf,
        )
    }
}

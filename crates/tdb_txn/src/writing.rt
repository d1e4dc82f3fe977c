//! Writing into the pages of a transaction.
ghost use Rattle.std.specs.Prelude.{◌≡◌, ℕ, ◌+◌, ◌-◌, ◌*◌, ◌/◌, ◌%◌, ◌<◌, ◌≤◌, ◌⊎◌, IsTrue, OnOk, MatchResult, length};
ghost use Rattle.tdb_disk.specs.Count.{HasCause, RoseUpTo};
ghost use Rattle.tdb_disk.specs.History.{seen};
ghost use Rattle.tdb_disk.specs.Image.{overlay};
ghost use Rattle.tdb_disk.specs.Stop.{Torn};
ghost use Rattle.tdb_space.specs.Spare.{RoomFor, spent};
ghost use Rattle.tdb_txn.specs.Pages.{page_size, AddsMet, HasPage};

use crate::page::PAGE_SIZE;
use crate::part::Part;
use crate::reading::read_file;
use crate::txn::Txn;
use tdb_disk::{Disk, DiskFault};

impl Txn {
    ghost use Rattle.tdb_txn.specs.Txn.{txn_pages, txn_start, txn_size, txn_image, txn_spare, txn_left, OnlyPages};

    /// Writes `bytes` at offset `off`. After a fault the first of them may be written.
    pub(crate) fn write<D: Disk>(
        &mut self,
        d: &mut D,
        off: u64,
        bytes: &[u8],
    ) -> Result<(), DiskFault>
        requires sized { D.size d.old ≡ txn_start self.old }
        requires inside { off + length bytes.now ≤ txn_size self.old }
        requires room { RoomFor (txn_spare self.old) (length bytes.now) }
        ensures image { IsTrue D.tells → MatchResult result (λ _. txn_image self.new (seen (D.history d.old)) ≡ overlay (txn_image self.old (seen (D.history d.old))) off bytes.now)
            (λ _. Torn off (length bytes.now) (txn_image self.old (seen (D.history d.old))) (txn_image self.new (seen (D.history d.old)))) }
        ensures pages { OnOk result (AddsMet off (length bytes.now) (txn_pages self.old) (txn_pages self.new)) }
        ensures only { OnlyPages self.old self.new }
        ensures spare { txn_spare self.new ≡ spent (txn_spare self.old) (length bytes.now) }
        ensures size { D.size d.new ≡ D.size d.old }
        ensures history { D.history d.new ≡ D.history d.old }
        ensures cause { HasCause (D.faults d.old) (D.faults d.new) result }
        ensures syncs { D.syncs d.new ≡ D.syncs d.old }
        ensures bytes_read { RoseUpTo (length bytes.now + 8192) (D.bytes_read d.old) (D.bytes_read d.new) }
    {
        self.writes -= 1;
        self.bytes -= bytes.len() as u64;
        let mut done = 0;
        while done < bytes.len() {
            let part = Part::after(off, done, bytes.len());
            self.load(d, part.number)?;
            self.pages
                .patch(part.number, part.within, &bytes[done..part.end]);
            done = part.end;
        }
        Ok(())
    }

    /// Writes the four bytes of an aligned word. After a fault the word is as it was.
    pub(crate) fn write_word<D: Disk>(
        &mut self,
        d: &mut D,
        off: u64,
        w: [u8; 4],
    ) -> Result<(), DiskFault>
        requires aligned { off % 4 ≡ 0 }
        requires sized { D.size d.old ≡ txn_start self.old }
        requires inside { off + 4 ≤ txn_size self.old }
        requires room { RoomFor (txn_spare self.old) 4 }
        ensures image { IsTrue D.tells → MatchResult result (λ _. txn_image self.new (seen (D.history d.old)) ≡ overlay (txn_image self.old (seen (D.history d.old))) off w)
            (λ _. txn_image self.new (seen (D.history d.old)) ≡ txn_image self.old (seen (D.history d.old))) }
        ensures pages { OnOk result (AddsMet off 4 (txn_pages self.old) (txn_pages self.new)) }
        ensures only { OnlyPages self.old self.new }
        ensures spare { txn_spare self.new ≡ spent (txn_spare self.old) 4 }
        ensures size { D.size d.new ≡ D.size d.old }
        ensures history { D.history d.new ≡ D.history d.old }
        ensures cause { HasCause (D.faults d.old) (D.faults d.new) result }
        ensures syncs { D.syncs d.new ≡ D.syncs d.old }
        ensures bytes_read { RoseUpTo (4 + 8192) (D.bytes_read d.old) (D.bytes_read d.new) }
    {
        self.writes -= 1;
        self.bytes -= 4;
        let number = off / PAGE_SIZE as u64;
        self.load(d, number)?;
        self.pages
            .patch(number, (off % PAGE_SIZE as u64) as usize, &w);
        Ok(())
    }

    /// Adds a page as the file has it, where it isn't there yet. It changes no byte, and takes no memory.
    pub(crate) fn load<D: Disk>(&mut self, d: &mut D, number: u64) -> Result<(), DiskFault>
        requires sized { D.size d.old ≡ txn_start self.old }
        requires inside { number * page_size < txn_size self.old }
        requires room { 2 * self.old.writes + self.old.bytes / page_size + 1 ≤ txn_left self.old }
        ensures image { IsTrue D.tells → txn_image self.new (seen (D.history d.old)) ≡ txn_image self.old (seen (D.history d.old)) }
        ensures there { OnOk result (HasPage (txn_pages self.new) number) }
        ensures kept { (other : ℕ) → HasPage (txn_pages self.old) other → HasPage (txn_pages self.new) other }
        ensures only_it { (other : ℕ) → HasPage (txn_pages self.new) other → HasPage (txn_pages self.old) other ⊎ (other ≡ number) }
        ensures only { OnlyPages self.old self.new }
        ensures spare { txn_spare self.new ≡ txn_spare self.old }
        ensures left { txn_left self.old ≤ txn_left self.new + 1 }
        ensures size { D.size d.new ≡ D.size d.old }
        ensures history { D.history d.new ≡ D.history d.old }
        ensures cause { HasCause (D.faults d.old) (D.faults d.new) result }
        ensures syncs { D.syncs d.new ≡ D.syncs d.old }
        ensures bytes_read { RoseUpTo page_size (D.bytes_read d.old) (D.bytes_read d.new) }
    {
        if self.pages.has(number) {
            return Ok(());
        }
        let mut page = self.pages.from_stock();
        page.number = number;
        read_file(d, self.start, number * PAGE_SIZE as u64, &mut page.bytes)?;
        self.pages.add(page);
        Ok(())
    }
}

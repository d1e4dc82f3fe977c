// What is read and written of a mended file: its pages lie over the file, which is never written.

ghost use Rattle.std.specs.Prelude.{◌≡◌, ◌+◌, ◌%◌, ◌≤◌, ◌⊎◌, IsTrue, IfErr, OnOk, MatchResult, length, take, drop};
ghost use Rattle.tdb_disk.specs.Count.{HasCause, HasCauseOf, RoseUpTo};
ghost use Rattle.tdb_disk.specs.History.{seen};
ghost use Rattle.tdb_disk.specs.Image.{overlay};
ghost use Rattle.tdb_disk.specs.Stop.{Torn};
ghost use Rattle.tdb_space.specs.DiskState.{disk_state};
ghost use Rattle.tdb_space.specs.Spare.{RoomFor, spent, SpentUpTo};
ghost use Rattle.tdb_check.specs.Seen.{Names};
ghost use Rattle.tdb_check.specs.declared.refusal.CheckRefusal.TheVariants.{Io as DiskFailed};
ghost use Rattle.tdb_mend.specs.View.{file_length, mended_length, mended_view, mended_spare, SameBounds, SameFile};

use crate::file::MendedFile;
use tdb_check::CheckRefusal;
use tdb_disk::Disk;
use tdb_space::{Io, Space};
use tdb_txn::OverlayOn;

impl MendedFile {
    /// Fills `buf` with the bytes that it is read as, from offset `off` on.
    pub(crate) fn read<D: Disk>(&mut self, d: &mut D, off: u64, buf: &mut [u8]) -> Result<(), Io>
        requires sized { D.size d.old ≡ file_length self.old }
        requires within { off + length buf.old ≤ mended_length self.old }
        ensures bytes { OnOk result (IsTrue D.tells → buf.new ≡ take (length buf.old) (drop off (mended_view self.old (seen (D.history d.old))))) }
        ensures same { SameFile (seen (D.history d.old)) self.old self.new }
        ensures spare { mended_spare self.new ≡ mended_spare self.old }
        ensures disk { disk_state (D.history d.new) (D.size d.new) (D.syncs d.new) ≡ disk_state (D.history d.old) (D.size d.old) (D.syncs d.old) }
        ensures cause { HasCause (D.faults d.old) (D.faults d.new) result }
        ensures bytes_read { RoseUpTo (length buf.old) (D.bytes_read d.old) (D.bytes_read d.new) }
    {
        let at = self.start + off;
        if self.pages.pages() == 0 {
            d.read(at, buf)?;
            return Ok(());
        }
        let mut pages = OverlayOn::new(&mut self.pages, d);
        pages.read(at, buf)
    }

    /// Writes `bytes` at offset `off` over what it is read as.
    pub(crate) fn write<D: Disk>(&mut self, d: &mut D, off: u64, bytes: &[u8]) -> Result<(), Io>
        requires sized { D.size d.old ≡ file_length self.old }
        requires within { off + length bytes.now ≤ mended_length self.old }
        requires room { RoomFor (mended_spare self.old) (length bytes.now) }
        ensures image { IsTrue D.tells → let base = seen (D.history d.old) in MatchResult result (λ _. mended_view self.new base ≡ overlay (mended_view self.old base) off bytes.now)
            (λ _. Torn off (length bytes.now) (mended_view self.old base) (mended_view self.new base)) }
        ensures spare { MatchResult result (λ _. mended_spare self.new ≡ spent (mended_spare self.old) (length bytes.now))
            (λ _. SpentUpTo (mended_spare self.old) (length bytes.now) (mended_spare self.new)) }
        ensures bounds { SameBounds self.old self.new }
        ensures disk { disk_state (D.history d.new) (D.size d.new) (D.syncs d.new) ≡ disk_state (D.history d.old) (D.size d.old) (D.syncs d.old) }
        ensures cause { HasCause (D.faults d.old) (D.faults d.new) result }
        ensures bytes_read { RoseUpTo (length bytes.now + 8192) (D.bytes_read d.old) (D.bytes_read d.new) }
    {
        let mut pages = OverlayOn::new(&mut self.pages, d);
        pages.write(self.start + off, bytes)
    }

    /// Writes the four bytes of an aligned word over what it is read as.
    pub(crate) fn write_word<D: Disk>(
        &mut self,
        d: &mut D,
        off: u64,
        word: [u8; 4],
    ) -> Result<(), Io>
        requires sized { D.size d.old ≡ file_length self.old }
        requires aligned { off % 4 ≡ 0 }
        requires within { off + 4 ≤ mended_length self.old }
        requires room { RoomFor (mended_spare self.old) 4 }
        ensures image { IsTrue D.tells → let base = seen (D.history d.old) in MatchResult result (λ _. mended_view self.new base ≡ overlay (mended_view self.old base) off word)
            (λ _. (mended_view self.new base ≡ mended_view self.old base) ⊎ (mended_view self.new base ≡ overlay (mended_view self.old base) off word)) }
        ensures spare { MatchResult result (λ _. mended_spare self.new ≡ spent (mended_spare self.old) 4)
            (λ _. SpentUpTo (mended_spare self.old) 4 (mended_spare self.new)) }
        ensures bounds { SameBounds self.old self.new }
        ensures disk { disk_state (D.history d.new) (D.size d.new) (D.syncs d.new) ≡ disk_state (D.history d.old) (D.size d.old) (D.syncs d.old) }
        ensures cause { HasCause (D.faults d.old) (D.faults d.new) result }
        ensures bytes_read { RoseUpTo (4 + 8192) (D.bytes_read d.old) (D.bytes_read d.new) }
    {
        let mut pages = OverlayOn::new(&mut self.pages, d);
        pages.write_word(self.start + off, word)
    }

    /// Writes `bytes` at offset `off` over what it is read as. It makes room for them first.
    pub(crate) fn put<D: Disk>(
        &mut self,
        d: &mut D,
        off: u64,
        bytes: &[u8],
    ) -> Result<(), CheckRefusal>
        requires sized { D.size d.old ≡ file_length self.old }
        requires within { off + length bytes.now ≤ mended_length self.old }
        ensures set { OnOk result (IsTrue D.tells → let base = seen (D.history d.old) in mended_view self.new base ≡ overlay (mended_view self.old base) off bytes.now) }
        ensures refusal { IfErr result (λ e. Names e (λ _. ⊥)) }
        ensures bounds { SameBounds self.old self.new }
        ensures disk { disk_state (D.history d.new) (D.size d.new) (D.syncs d.new) ≡ disk_state (D.history d.old) (D.size d.old) (D.syncs d.old) }
        ensures cause { HasCauseOf DiskFailed (D.faults d.old) (D.faults d.new) result }
    {
        let mut pages = OverlayOn::new(&mut self.pages, d);
        pages.ready(1, bytes.len() as u64)?;
        pages.write(self.start + off, bytes)?;
        Ok(())
    }
}

//! The undo area is given up in a transaction's image.
ghost use Rattle.std.specs.Prelude.{◌≡◌, ◌+◌, ◌/◌, ◌<◌, ◌≤◌, ◌^◌, ◌⊎◌, ℕ, List, [], IsTrue, IfErr, OnOk, length};
ghost use Rattle.tdb_disk.specs.Count.{HasCause, HasCauseOf};
ghost use Rattle.tdb_disk.specs.History.{seen};
ghost use Rattle.tdb_space.specs.Accepted.{AcceptWith};
ghost use Rattle.tdb_space.specs.Form.{form_of};
ghost use Rattle.tdb_space.specs.Frame.{Wrote};
ghost use Rattle.tdb_space.specs.Spare.{RoomFor, RoomForAll, spent};
ghost use Rattle.tdb_txn.specs.AreaExtent.{CanHold};
ghost use Rattle.tdb_txn.specs.Committing.{MayCommit, HasAreaIn};
ghost use Rattle.tdb_txn.specs.Found.{Blanked};
ghost use Rattle.tdb_txn.specs.GivenUp.{AreaGivenUp};
ghost use Rattle.tdb_txn.specs.Pages.{page_size, HasPage, Meets};

use crate::area_found::AREA_WORD;
use crate::area_room::AREA_HEADER;
use crate::overlay_on::OverlayOn;
use crate::page::PAGE_SIZE;
use crate::refusal::TxnRefusal;
use crate::txn::Txn;
use tdb_disk::{Disk, DiskFault};
use tdb_free::give;
use tdb_space::{Hand, Io, Space};

/// How many bytes the shortest record has.
const LEAST_RECORD: u32 = 28;

/// Drops an undo area, of which all bytes are zero: no word leads to it any more, and it goes to the free list, where
/// it is long enough for a record.
fn drop_area<S: Space>(s: &mut S, area: (u32, u32)) -> Result<(), Io>
    requires heads { 48 ≤ S.size s.old }
    requires place { CanHold (S.size s.old) area }
    requires room { RoomForAll (S.spare s.old) 6 44 }
    ensures given_up { OnOk result (IsTrue S.tells → S.size s.old < 2 ^ 32 → (a : List ℕ) → AcceptWith (S.form s.old) a [] → HasAreaIn (S.form s.old).order a area
        → length a ≡ S.size s.old → Blanked area a (S.image s.old) → AreaGivenUp (S.form s.old) a (S.image s.new) area) }
    ensures size { S.size s.new ≡ S.size s.old }
    ensures wrote { Wrote S.Space s.old s.new }
    ensures cause { HasCause (S.faults s.old) (S.faults s.new) result }
{
    s.write_word(AREA_WORD, [0; 4])?;
    if area.1 < LEAST_RECORD {
        return Ok(());
    }
    match give(s, Hand::new(area.0, area.1 - AREA_HEADER)) {
        Ok(()) => Ok(()),
        Err(_) => Err(Io),
    }
}

impl Txn {
    ghost use Rattle.tdb_txn.specs.Txn.{txn_pages, txn_start, txn_size, txn_form, txn_image, txn_spare, OnlyPages};

    /// Writes some zeros at an offset, 4096 at most.
    fn write_zeros<D: Disk>(&mut self, d: &mut D, off: u64, count: usize) -> Result<(), DiskFault>
        requires sized { D.size d.old ≡ txn_start self.old }
        requires inside { off + count ≤ txn_size self.old }
        requires most { count ≤ page_size }
        requires room { RoomFor (txn_spare self.old) count }
        ensures blanked { OnOk result (IsTrue D.tells → Blanked (off, count) (txn_image self.old (seen (D.history d.old))) (txn_image self.new (seen (D.history d.old)))) }
        ensures only { OnlyPages self.old self.new }
        ensures spare { txn_spare self.new ≡ spent (txn_spare self.old) count }
        ensures size { D.size d.new ≡ D.size d.old }
        ensures history { D.history d.new ≡ D.history d.old }
        ensures cause { HasCause (D.faults d.old) (D.faults d.new) result }
        ensures syncs { D.syncs d.new ≡ D.syncs d.old }
    {
        let zeros = [0; PAGE_SIZE];
        self.write(d, off, &zeros[..count])?;
        Ok(())
    }

    /// Makes the bytes of an extent zero.
    fn blank<D: Disk>(&mut self, d: &mut D, extent: (u32, u32)) -> Result<(), DiskFault>
        requires sized { D.size d.old ≡ txn_start self.old }
        requires inside { extent.0 + extent.1 ≤ txn_size self.old }
        requires room { RoomForAll (txn_spare self.old) ((extent.1 + 4095) / 4096) extent.1 }
        ensures blanked { OnOk result (IsTrue D.tells → Blanked extent (txn_image self.old (seen (D.history d.old))) (txn_image self.new (seen (D.history d.old)))) }
        ensures only { OnlyPages self.old self.new }
        ensures size { D.size d.new ≡ D.size d.old }
        ensures history { D.history d.new ≡ D.history d.old }
        ensures cause { HasCause (D.faults d.old) (D.faults d.new) result }
        ensures syncs { D.syncs d.new ≡ D.syncs d.old }
    {
        let mut done: u32 = 0;
        while done < extent.1 {
            let count = (extent.1 - done).min(PAGE_SIZE as u32);
            self.write_zeros(d, extent.0 as u64 + done as u64, count as usize)?;
            done += count;
        }
        Ok(())
    }

    /// Drops its undo area, of which all bytes are zero.
    fn drop_in_image<D: Disk>(&mut self, d: &mut D, area: (u32, u32)) -> Result<(), Io>
        requires sized { D.size d.old ≡ txn_start self.old }
        requires heads { 48 ≤ txn_size self.old }
        requires place { CanHold (txn_size self.old) area }
        requires room { RoomForAll (txn_spare self.old) 6 44 }
        ensures given_up { OnOk result (IsTrue D.tells → txn_size self.old < 2 ^ 32 → (a : List ℕ) → AcceptWith (txn_form self.old) a []
            → HasAreaIn (txn_form self.old).order a area → length a ≡ txn_size self.old → Blanked area a (txn_image self.old (seen (D.history d.old)))
            → AreaGivenUp (txn_form self.old) a (txn_image self.new (seen (D.history d.old))) area) }
        ensures only { OnlyPages self.old self.new }
        ensures size { D.size d.new ≡ D.size d.old }
        ensures history { D.history d.new ≡ D.history d.old }
        ensures cause { HasCause (D.faults d.old) (D.faults d.new) result }
        ensures syncs { D.syncs d.new ≡ D.syncs d.old }
    {
        let mut view = OverlayOn::new(self, d);
        drop_area(&mut view, area)?;
        Ok(())
    }

    /// Adds the pages that an extent meets, where they aren't there yet. It changes no byte.
    fn hold<D: Disk>(&mut self, d: &mut D, extent: (u32, u32)) -> Result<(), TxnRefusal>
        requires sized { D.size d.old ≡ txn_start self.old }
        requires inside { extent.0 + extent.1 ≤ txn_size self.old }
        ensures image { IsTrue D.tells → txn_image self.new (seen (D.history d.old)) ≡ txn_image self.old (seen (D.history d.old)) }
        ensures pages { OnOk result ((number : ℕ) → Meets extent.0 extent.1 number → HasPage (txn_pages self.new) number) }
        ensures only { OnlyPages self.old self.new }
        ensures size { D.size d.new ≡ D.size d.old }
        ensures history { D.history d.new ≡ D.history d.old }
        ensures cause { HasCauseOf TxnRefusal.Io (D.faults d.old) (D.faults d.new) result }
        ensures refusal { IfErr result (λ refusal. (refusal ≡ TxnRefusal.Io) ⊎ (refusal ≡ TxnRefusal.Memory)) }
        ensures syncs { D.syncs d.new ≡ D.syncs d.old }
    {
        let page = PAGE_SIZE as u64;
        let first = extent.0 as u64 / page;
        let end = (extent.0 as u64 + extent.1 as u64 + page - 1) / page;
        for number in first..end {
            self.ready(1, 0)?;
            self.writes -= 1;
            self.load(d, number)?;
        }
        Ok(())
    }

    /// Gives up the undo area that the file has in an extent: its bytes become zero, and where they are enough for a
    /// record, that goes to the free list. All pages of the extent are there then. Nothing is written to the file.
    pub(crate) fn give_up<D: Disk>(&mut self, d: &mut D, area: (u32, u32)) -> Result<(), TxnRefusal>
        requires sized { D.size d.old ≡ txn_start self.old }
        requires heads { 48 ≤ txn_start self.old }
        requires short { txn_size self.old < 2 ^ 32 }
        requires place { CanHold (txn_start self.old) area }
        ensures given_up { OnOk result (IsTrue D.tells → let r = seen (D.history d.old) in MayCommit self.old r → HasAreaIn (form_of r).order r area
            → AreaGivenUp (form_of r) (txn_image self.old r) (txn_image self.new r) area) }
        ensures pages { OnOk result ((number : ℕ) → Meets area.0 area.1 number → HasPage (txn_pages self.new) number) }
        ensures only { OnOk result (OnlyPages self.old self.new) }
        ensures size { D.size d.new ≡ D.size d.old }
        ensures history { D.history d.new ≡ D.history d.old }
        ensures cause { HasCauseOf TxnRefusal.Io (D.faults d.old) (D.faults d.new) result }
        ensures refusal { IfErr result (λ refusal. (refusal ≡ TxnRefusal.Io) ⊎ (refusal ≡ TxnRefusal.Memory)) }
        ensures syncs { D.syncs d.new ≡ D.syncs d.old }
    {
        self.ready(area.1 / PAGE_SIZE as u32 + 1, area.1 as u64)?;
        self.blank(d, area)?;
        self.ready(6, 44)?;
        self.drop_in_image(d, area)?;
        self.hold(d, area)?;
        Ok(())
    }
}

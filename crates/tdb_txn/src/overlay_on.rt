//! The view of a file as a transaction has it.
ghost use Rattle.std.specs.Prelude.{◌≡◌, ◌+◌, ◌%◌, ◌≤◌, ◌⊎◌, [], ◌∷◌, ◌++◌, false, IsTrue, IfOk, OnOk, OnErr, MatchResult, length, take, drop};
ghost use Rattle.tdb_disk.specs.Count.{HasCause, RoseUpTo};
ghost use Rattle.tdb_disk.specs.History.{seen};
ghost use Rattle.tdb_disk.specs.Image.{overlay, padded};
ghost use Rattle.tdb_disk.specs.Stop.{Torn};
ghost use Rattle.tdb_space.specs.DiskState.{disk_state};
ghost use Rattle.tdb_space.specs.Spare.{RoomFor, RoomUpTo, spent, SpentUpTo, IsReady};
ghost use Rattle.tdb_txn.specs.Pages.{AddsMet, byte_over, length_filled};
ghost use Rattle.tdb_txn.specs.Txn.{txn_pages, txn_start, txn_size, txn_image, txn_spare, txn_form, txn_level, SameView};

use crate::txn::Txn;
use std::alloc::AllocError;
use tdb_disk::Disk;
use tdb_space::{Io, Space};
use tdb_words::{HashKind, Order};

/// A file with what a transaction wrote over it. Its writes reach no disk.
#[derive(Drop)]
pub struct OverlayOn<'a, D: Disk> {
    /// The transaction.
    pub txn: &'a mut Txn,

    /// The disk of the file, which has the length that it had at Start.
    pub disk: &'a mut D,
    ghost sized: { D.size disk.now ≡ txn_start txn.now },
}

impl<'a, D: Disk> OverlayOn<'a, D> {
    /// The view of a transaction over its file.
    pub fn new(t: &'a mut Txn, d: &'a mut D) -> OverlayOn<'a, D>
        requires { D.size d.old ≡ txn_start t.old }
        ensures txn { result.txn.now ≡ t.old }
        ensures disk { result.disk.now ≡ d.old }
        ensures same_txn { result.txn.ghost_name ≡ t.entry.ghost_name }
        ensures same_disk { result.disk.ghost_name ≡ d.entry.ghost_name }
    {
        OverlayOn { txn: t, disk: d }
    }
}

impl<'a, D: Disk> Space for OverlayOn<'a, D> {
    ghost tells = { D.tells };

    ghost image = { λ s. txn_image s.txn.now (seen (D.history s.disk.now)) };

    ghost form = { λ s. txn_form s.txn.now };

    ghost size = { λ s. txn_size s.txn.now };

    ghost faults = { λ s. D.faults s.disk.now };

    ghost bytes_read = { λ s. D.bytes_read s.disk.now };

    ghost spare = { λ s. txn_spare s.txn.now };

    ghost writes_through = { false };

    ghost disk = { λ s. disk_state (D.history s.disk.now) (D.size s.disk.now) (D.syncs s.disk.now) };

    ghost under = { λ s. s.txn.ghost_name ∷ s.disk.ghost_name ∷ txn_level s.txn.now };

    fn len(&mut self) -> Result<u64, Io> {
        Ok(self.txn.size)
    }

    fn order(&self) -> Order {
        self.txn.header.order
    }

    fn hash(&self) -> HashKind {
        self.txn.header.hash
    }

    fn hash_size(&self) -> u32 {
        self.txn.header.hash_size
    }

    fn read(&mut self, off: u64, buf: &mut [u8]) -> Result<(), Io>
        requires { off + length buf.old ≤ txn_size self.old.txn.now }
        ensures bytes { OnOk result (IsTrue D.tells → buf.new ≡ take (length buf.old) (drop off (txn_image self.old.txn.now (seen (D.history self.old.disk.now))))) }
        ensures size { txn_size self.new.txn.now ≡ txn_size self.old.txn.now }
        ensures image { txn_image self.new.txn.now (seen (D.history self.new.disk.now)) ≡ txn_image self.old.txn.now (seen (D.history self.old.disk.now)) }
        ensures form { txn_form self.new.txn.now ≡ txn_form self.old.txn.now }
        ensures cause { HasCause (D.faults self.old.disk.now) (D.faults self.new.disk.now) result }
        ensures bytes_read { RoseUpTo (length buf.old) (D.bytes_read self.old.disk.now) (D.bytes_read self.new.disk.now) }
        ensures spare { txn_spare self.new.txn.now ≡ txn_spare self.old.txn.now }
        ensures disk { disk_state (D.history self.new.disk.now) (D.size self.new.disk.now) (D.syncs self.new.disk.now)
            ≡ disk_state (D.history self.old.disk.now) (D.size self.old.disk.now) (D.syncs self.old.disk.now) }
        ensures under { self.new.txn.ghost_name ∷ self.new.disk.ghost_name ∷ txn_level self.new.txn.now
            ≡ self.old.txn.ghost_name ∷ self.old.disk.ghost_name ∷ txn_level self.old.txn.now }
        ensures pages { txn_pages self.new.txn.now ≡ txn_pages self.old.txn.now }
    {
        Ok(self.txn.read(self.disk, off, buf)?)
    }

    fn write(&mut self, off: u64, bytes: &[u8]) -> Result<(), Io>
        requires within { off + length bytes.now ≤ txn_size self.old.txn.now }
        requires room { RoomFor (txn_spare self.old.txn.now) (length bytes.now) }
        ensures image { IsTrue D.tells → MatchResult result
            (λ _. txn_image self.new.txn.now (seen (D.history self.new.disk.now)) ≡ overlay (txn_image self.old.txn.now (seen (D.history self.old.disk.now))) off bytes.now)
            (λ _. Torn off (length bytes.now) (txn_image self.old.txn.now (seen (D.history self.old.disk.now))) (txn_image self.new.txn.now (seen (D.history self.new.disk.now)))) }
        ensures size { txn_size self.new.txn.now ≡ txn_size self.old.txn.now }
        ensures form { txn_form self.new.txn.now ≡ txn_form self.old.txn.now }
        ensures cause { HasCause (D.faults self.old.disk.now) (D.faults self.new.disk.now) result }
        ensures bytes_read { RoseUpTo (length bytes.now + 8192) (D.bytes_read self.old.disk.now) (D.bytes_read self.new.disk.now) }
        ensures spare { MatchResult result (λ _. txn_spare self.new.txn.now ≡ spent (txn_spare self.old.txn.now) (length bytes.now))
            (λ _. SpentUpTo (txn_spare self.old.txn.now) (length bytes.now) (txn_spare self.new.txn.now)) }
        ensures disk { false ≡ false → disk_state (D.history self.new.disk.now) (D.size self.new.disk.now) (D.syncs self.new.disk.now)
            ≡ disk_state (D.history self.old.disk.now) (D.size self.old.disk.now) (D.syncs self.old.disk.now) }
        ensures under { self.new.txn.ghost_name ∷ self.new.disk.ghost_name ∷ txn_level self.new.txn.now
            ≡ self.old.txn.ghost_name ∷ self.old.disk.ghost_name ∷ txn_level self.old.txn.now }
        ensures pages { OnOk result (AddsMet off (length bytes.now) (txn_pages self.old.txn.now) (txn_pages self.new.txn.now)) }
    {
        Ok(self.txn.write(self.disk, off, bytes)?)
    }

    fn write_word(&mut self, off: u64, w: [u8; 4]) -> Result<(), Io>
        requires aligned { off % 4 ≡ 0 }
        requires within { off + 4 ≤ txn_size self.old.txn.now }
        requires room { RoomFor (txn_spare self.old.txn.now) 4 }
        ensures image { IsTrue D.tells → MatchResult result
            (λ _. txn_image self.new.txn.now (seen (D.history self.new.disk.now)) ≡ overlay (txn_image self.old.txn.now (seen (D.history self.old.disk.now))) off w)
            (λ _. (txn_image self.new.txn.now (seen (D.history self.new.disk.now)) ≡ txn_image self.old.txn.now (seen (D.history self.old.disk.now)))
            ⊎ (txn_image self.new.txn.now (seen (D.history self.new.disk.now)) ≡ overlay (txn_image self.old.txn.now (seen (D.history self.old.disk.now))) off w)) }
        ensures size { txn_size self.new.txn.now ≡ txn_size self.old.txn.now }
        ensures form { txn_form self.new.txn.now ≡ txn_form self.old.txn.now }
        ensures cause { HasCause (D.faults self.old.disk.now) (D.faults self.new.disk.now) result }
        ensures bytes_read { RoseUpTo (4 + 8192) (D.bytes_read self.old.disk.now) (D.bytes_read self.new.disk.now) }
        ensures spare { MatchResult result (λ _. txn_spare self.new.txn.now ≡ spent (txn_spare self.old.txn.now) 4)
            (λ _. SpentUpTo (txn_spare self.old.txn.now) 4 (txn_spare self.new.txn.now)) }
        ensures disk { false ≡ false → disk_state (D.history self.new.disk.now) (D.size self.new.disk.now) (D.syncs self.new.disk.now)
            ≡ disk_state (D.history self.old.disk.now) (D.size self.old.disk.now) (D.syncs self.old.disk.now) }
        ensures under { self.new.txn.ghost_name ∷ self.new.disk.ghost_name ∷ txn_level self.new.txn.now
            ≡ self.old.txn.ghost_name ∷ self.old.disk.ghost_name ∷ txn_level self.old.txn.now }
        ensures pages { OnOk result (AddsMet off 4 (txn_pages self.old.txn.now) (txn_pages self.new.txn.now)) }
    {
        Ok(self.txn.write_word(self.disk, off, w)?)
    }

    fn grow(&mut self, to: u64) -> Result<(), Io>
        requires longer { txn_size self.old.txn.now ≤ to }
        requires room { RoomUpTo (txn_spare self.old.txn.now) to }
        ensures image { IsTrue D.tells → MatchResult result
            (λ _. txn_image self.new.txn.now (seen (D.history self.new.disk.now)) ≡ padded (txn_image self.old.txn.now (seen (D.history self.old.disk.now))) to)
            (λ _. (txn_image self.new.txn.now (seen (D.history self.new.disk.now)) ≡ txn_image self.old.txn.now (seen (D.history self.old.disk.now)))
            ⊎ (txn_image self.new.txn.now (seen (D.history self.new.disk.now)) ≡ padded (txn_image self.old.txn.now (seen (D.history self.old.disk.now))) to)) }
        ensures size { (txn_size self.new.txn.now ≡ txn_size self.old.txn.now) ⊎ (txn_size self.new.txn.now ≡ to) }
        ensures grown { OnOk result (txn_size self.new.txn.now ≡ to) }
        ensures form { txn_form self.new.txn.now ≡ txn_form self.old.txn.now }
        ensures cause { HasCause (D.faults self.old.disk.now) (D.faults self.new.disk.now) result }
        ensures bytes_read { D.bytes_read self.new.disk.now ≡ D.bytes_read self.old.disk.now }
        ensures spare { txn_spare self.new.txn.now ≡ txn_spare self.old.txn.now }
        ensures disk { false ≡ false → disk_state (D.history self.new.disk.now) (D.size self.new.disk.now) (D.syncs self.new.disk.now)
            ≡ disk_state (D.history self.old.disk.now) (D.size self.old.disk.now) (D.syncs self.old.disk.now) }
        ensures under { self.new.txn.ghost_name ∷ self.new.disk.ghost_name ∷ txn_level self.new.txn.now
            ≡ self.old.txn.ghost_name ∷ self.old.disk.ghost_name ∷ txn_level self.old.txn.now }
        ensures pages { txn_pages self.new.txn.now ≡ txn_pages self.old.txn.now }
    {
        self.txn.grow(to);
        Ok(())
    }

    fn ready(&mut self, writes: u32, bytes: u64) -> Result<(), AllocError> {
        self.txn.ready(writes, bytes)
    }

    ghost told_size = { λ s _. length_filled (byte_over (txn_pages s.txn.now) (seen (D.history s.disk.now))) (txn_size s.txn.now) };
}

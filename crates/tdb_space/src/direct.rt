// The view that is the disk itself.

ghost use Rattle.std.specs.Prelude.{◌≡◌, [], ◌∷◌, true, IsOk, OnOk, OnErr};
ghost use Rattle.tdb_disk.specs.History.{seen};
ghost use Rattle.tdb_space.specs.DiskState.{disk_state};
ghost use Rattle.tdb_space.specs.Form.{form_in};
ghost use Rattle.tdb_space.specs.Spare.{without_bound, IsReady};

use crate::io::Io;
use crate::space::Space;
use std::alloc::AllocError;
use tdb_disk::Disk;
use tdb_words::{HashKind, Header, Order};

/// The bytes of a disk. What is written goes to the disk at once, and no call takes memory of its own.
#[derive(Drop)]
pub struct Direct<'a, D: Disk> {
    /// The disk that is read and written.
    pub disk: &'a mut D,

    /// What the header of the file says.
    pub header: Header,
}

impl<'a, D: Disk> Direct<'a, D> {
    /// A view of this disk, whose file has this header.
    pub fn new(d: &'a mut D, h: &Header) -> Direct<'a, D>
        ensures disk { result.disk.now ≡ d.old }
        ensures same_reference { result.disk.ghost_name ≡ d.entry.ghost_name }
        ensures header { result.header ≡ h.now }
    {
        Direct {
            disk: d,
            header: *h,
        }
    }
}

impl<'a, D: Disk> Space for Direct<'a, D> {
    ghost tells = { D.tells };

    ghost image = { λ s. seen (D.history s.disk.now) };

    ghost form = { λ s. form_in s.header };

    ghost size = { λ s. D.size s.disk.now };

    ghost faults = { λ s. D.faults s.disk.now };

    ghost bytes_read = { λ s. D.bytes_read s.disk.now };

    ghost spare = { λ _. without_bound };

    ghost writes_through = { true };

    ghost disk = { λ s. disk_state (D.history s.disk.now) (D.size s.disk.now) (D.syncs s.disk.now) };

    ghost under = { λ s. s.disk.ghost_name ∷ [] };

    fn len(&mut self) -> Result<u64, Io> {
        Ok(self.disk.len()?)
    }

    fn order(&self) -> Order {
        self.header.order
    }

    fn hash(&self) -> HashKind {
        self.header.hash
    }

    fn hash_size(&self) -> u32 {
        self.header.hash_size
    }

    fn read(&mut self, off: u64, buf: &mut [u8]) -> Result<(), Io> {
        Ok(self.disk.read(off, buf)?)
    }

    fn write(&mut self, off: u64, bytes: &[u8]) -> Result<(), Io> {
        Ok(self.disk.write(off, bytes)?)
    }

    fn write_word(&mut self, off: u64, w: [u8; 4]) -> Result<(), Io> {
        Ok(self.disk.write_word(off, w)?)
    }

    fn grow(&mut self, to: u64) -> Result<(), Io> {
        Ok(self.disk.grow(to)?)
    }

    fn ready(&mut self, writes: u32, bytes: u64) -> Result<(), AllocError>
        ensures always { IsOk result }
        ensures room { OnOk result (IsReady without_bound (D.size self.old.disk.now) writes bytes) }
        ensures unbounded { without_bound ≡ without_bound → IsOk result }
        ensures size { D.size self.new.disk.now ≡ D.size self.old.disk.now }
        ensures image { seen (D.history self.new.disk.now) ≡ seen (D.history self.old.disk.now) }
        ensures form { form_in self.new.header ≡ form_in self.old.header }
        ensures faults { D.faults self.new.disk.now ≡ D.faults self.old.disk.now }
        ensures bytes_read { D.bytes_read self.new.disk.now ≡ D.bytes_read self.old.disk.now }
        ensures kept { OnErr result (without_bound ≡ without_bound) }
        ensures disk { disk_state (D.history self.new.disk.now) (D.size self.new.disk.now) (D.syncs self.new.disk.now)
            ≡ disk_state (D.history self.old.disk.now) (D.size self.old.disk.now) (D.syncs self.old.disk.now) }
        ensures under { self.new.disk.ghost_name ∷ [] ≡ self.old.disk.ghost_name ∷ [] }
    {
        Ok(())
    }

    ghost told_size = { λ s told. D.told_size s.disk.now told };
}

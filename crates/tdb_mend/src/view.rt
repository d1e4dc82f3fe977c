// What a mended file tells of itself, and the view of it.

ghost use Rattle.std.specs.Prelude.{◌≡◌, [], ◌∷◌, false};
ghost use Rattle.tdb_disk.specs.History.{seen};
ghost use Rattle.tdb_space.specs.DiskState.{disk_state};
ghost use Rattle.tdb_mend.specs.View.{file_length, mended_length, mended_start, mended_view, mended_header, mended_form, mended_bytes, mended_spare, view_length};

use crate::copy_on_write::CopyOnWrite;
use crate::file::MendedFile;
use std::alloc::AllocError;
use tdb_check::CheckRefusal;
use tdb_disk::Disk;
use tdb_space::{Io, Space};
use tdb_words::{HashKind, Header, Order};

impl MendedFile {
    /// What the header says that is so read. An undo may have given back another than that of the file.
    pub fn header(&self) -> Header
        ensures { result ≡ mended_header self.now }
    {
        self.header
    }

    /// How many bytes were changed to read it: those that the undo changes, and those that are stray. 0 where nothing
    /// had to be mended.
    pub fn bytes_changed(&self) -> u64
        ensures { result ≡ mended_bytes self.now }
    {
        self.changed
    }
}

/// The view of a mended file over the file that it was read of. What is written to it goes into the pages in memory,
/// and the file stays as it is. It can't be made longer.
#[derive(Drop)]
pub struct MendedView<'a, D: Disk> {
    /// What the file is read as.
    pub file: &'a mut MendedFile,

    /// The disk of the file, which has the length that it had.
    pub disk: &'a mut D,
    ghost sized: { D.size disk.now ≡ file_length file.now },
}

impl<'a, D: Disk> MendedView<'a, D> {
    /// The view of a mended file over its disk.
    pub fn new(file: &'a mut MendedFile, d: &'a mut D) -> MendedView<'a, D>
        requires { D.size d.old ≡ file_length file.old }
        ensures file { result.file.now ≡ file.old }
        ensures disk { result.disk.now ≡ d.old }
        ensures same_file { result.file.ghost_name ≡ file.entry.ghost_name }
        ensures same_disk { result.disk.ghost_name ≡ d.entry.ghost_name }
    {
        MendedView { file, disk: d }
    }
}

impl<'a, D: Disk> Space for MendedView<'a, D> {
    ghost tells = { D.tells };

    ghost image = { λ s. mended_view s.file.now (seen (D.history s.disk.now)) };

    ghost form = { λ s. mended_form s.file.now };

    ghost size = { λ s. mended_length s.file.now };

    ghost faults = { λ s. D.faults s.disk.now };

    ghost bytes_read = { λ s. D.bytes_read s.disk.now };

    ghost spare = { λ s. mended_spare s.file.now };

    ghost writes_through = { false };

    ghost disk = { λ s. disk_state (D.history s.disk.now) (D.size s.disk.now) (D.syncs s.disk.now) };

    ghost under = { λ s. s.file.ghost_name ∷ s.disk.ghost_name ∷ mended_start s.file.now ∷ [] };

    fn len(&mut self) -> Result<u64, Io> {
        Ok(self.file.len)
    }

    fn order(&self) -> Order {
        self.file.header.order
    }

    fn hash(&self) -> HashKind {
        self.file.header.hash
    }

    fn hash_size(&self) -> u32 {
        self.file.header.hash_size
    }

    fn read(&mut self, off: u64, buf: &mut [u8]) -> Result<(), Io> {
        self.file.read(self.disk, off, buf)
    }

    fn write(&mut self, off: u64, bytes: &[u8]) -> Result<(), Io> {
        self.file.write(self.disk, off, bytes)
    }

    fn write_word(&mut self, off: u64, w: [u8; 4]) -> Result<(), Io> {
        self.file.write_word(self.disk, off, w)
    }

    fn grow(&mut self, _to: u64) -> Result<(), Io> {
        Ok(())
    }

    fn ready(&mut self, _writes: u32, _bytes: u64) -> Result<(), AllocError> {
        Err(AllocError)
    }

    ghost told_size = { λ s _. view_length s.file.now (seen (D.history s.disk.now)) };
}

impl<'a, D: Disk> CopyOnWrite for MendedView<'a, D> {
    fn put(&mut self, off: u64, bytes: &[u8]) -> Result<(), CheckRefusal> {
        self.file.put(self.disk, off, bytes)
    }
}

// A new file.

ghost use Rattle.std.specs.Prelude.{◌≡◌, ◌<◌, ◌+◌, ◌*◌, IsTrue, OnOk, OnErr};
ghost use Rattle.tdb_disk.specs.Count.{HasCause};
ghost use Rattle.tdb_disk.specs.History.{seen};
ghost use Rattle.tdb_open.specs.Creating.{new_length, new_file_header, IsMade, MadeInPart};

use tdb_disk::{Disk, DiskFault};
use tdb_words::{HashKind, Header, Order, header_bytes};

/// The length of a header, in bytes.
const HEADER_LEN: u64 = 168;

/// What a new file is made with.
#[derive(Clone, Copy, Debug, PartialEq, Eq)]
pub struct NewForm {
    /// The number of chains.
    pub size: u32,
    pub hash: HashKind,
    pub order: Order,
}

impl NewForm {
    /// How many bytes the new file has: 172, and 4 for each chain.
    pub fn file_len(self) -> u64
        ensures { result ≡ new_length self }
    {
        HEADER_LEN + 4 * (u64::from(self.size) + 1)
    }

    /// What the header of the new file says.
    pub fn header(self) -> Header
        ensures { result ≡ new_file_header self }
    {
        Header {
            order: self.order,
            hash: self.hash,
            hash_size: self.size,
            recovery_start: 0,
            sequence: 0,
        }
    }
}

/// Makes an empty disk a new file of 172 bytes and 4 for each chain: one call each to grow, to write the header and
/// to sync. The heads of the free list and of the chains are the zeros that growing puts there.
pub fn make<D: Disk>(disk: &mut D, form: NewForm) -> Result<(), DiskFault>
    requires empty { D.size disk.old ≡ 0 }
    requires some { 0 < form.size }
    ensures made { OnOk result (IsTrue D.tells → IsMade form.size form.order form.hash (D.history disk.new)) }
    ensures in_part { OnErr result (IsTrue D.tells → MadeInPart form.size (seen (D.history disk.new))) }
    ensures length { OnOk result (D.size disk.new ≡ 172 + 4 * form.size) }
    ensures cause { HasCause (D.faults disk.old) (D.faults disk.new) result }
{
    disk.grow(form.file_len())?;
    disk.write(0, &header_bytes(form.size, form.order, form.hash))?;
    disk.sync()
}

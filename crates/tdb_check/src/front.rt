// The front of a file: whether it has a header, and a length that fits the header.

ghost use Rattle.std.specs.Prelude.{◌≡◌, ◌+◌, ◌*◌, ◌%◌, ◌<◌, ◌≤◌, IsTrue, IfOk, IfErr, None};
ghost use Rattle.tdb_disk.specs.Count.{HasCauseOf, RoseUpTo};
ghost use Rattle.tdb_disk.specs.History.{seen};
ghost use Rattle.tdb_words.specs.Header.{header_at};
ghost use Rattle.tdb_space.specs.Form.{form_in, data_start};
ghost use Rattle.tdb_space.specs.FirstFault.{front_fault};
ghost use Rattle.tdb_check.specs.Front.{is_short_length, Refuses};
ghost use Rattle.tdb_check.specs.declared.front.FrontRefusal.TheVariants.{Io};

use tdb_disk::{Disk, DiskFault};
use tdb_words::{Header, HeaderFault, header_of};
use thiserror::Error;

/// Why the front of a file is refused.
#[derive(Clone, Copy, Debug, PartialEq, Eq, Error)]
pub enum FrontRefusal {
    /// The file, of `len` bytes, ends within its header or the heads of its chains, or its length is no multiple of 4.
    #[error("corrupt Short {len}")]
    Short { len: u64 },

    /// The header has a fault.
    #[error("header {fault}")]
    Header { fault: HeaderFault },

    /// The disk failed.
    #[error("the disk failed")]
    Io,
}

impl From<DiskFault> for FrontRefusal {
    ghost use Rattle.std.specs.Prelude.{◌≡◌};
    ghost use Rattle.tdb_check.specs.declared.front.FrontRefusal.TheVariants.{Io};

    ghost from_gives = { λ _ e. e ≡ Io };

    fn from(_fault: DiskFault) -> Self {
        FrontRefusal::Io
    }
}

/// The offset at which the records begin in a file of so many chains, behind the head of the free list and those of the
/// chains.
pub(crate) fn records_start(chains: u32) -> u64
    ensures { result ≡ 168 + 4 * (chains + 1) }
{
    168 + 4 * (chains as u64 + 1)
}

/// Whether a file of `len` bytes and of so many chains ends within a word, or before its records begin.
pub(crate) fn is_short(len: u64, chains: u32) -> bool
    ensures { result ≡ is_short_length chains len }
{
    len % 4 != 0 || len < records_start(chains)
}

/// What the header of a file says, or what is wrong with its front: the first of too few bytes for a header, a fault of
/// the header, and a length that is no multiple of 4 or ends before the records begin. It reads 168 bytes and writes
/// nothing.
pub fn read_front<D: Disk>(d: &mut D) -> Result<Header, FrontRefusal>
    ensures sound { IfOk result (λ h. IsTrue D.tells → (front_fault (seen (D.history d.old)) ≡ None) × (h ≡ header_at (seen (D.history d.old)))) }
    ensures chains { IfOk result (λ h. 0 < h.hash_size) }
    ensures sized { IfOk result (λ h. D.size d.old % 4 ≡ 0) }
    ensures long { IfOk result (λ h. data_start (form_in h) ≤ D.size d.old) }
    ensures refused { IfErr result (λ e. IsTrue D.tells → Refuses (seen (D.history d.old)) e) }
    ensures size { D.size d.new ≡ D.size d.old }
    ensures history { D.history d.new ≡ D.history d.old }
    ensures cause { HasCauseOf Io (D.faults d.old) (D.faults d.new) result }
    ensures syncs { D.syncs d.new ≡ D.syncs d.old }
    ensures bytes_read { RoseUpTo 168 (D.bytes_read d.old) (D.bytes_read d.new) }
{
    let len = d.len()?;
    if len < 168 {
        return Err(FrontRefusal::Short { len });
    }
    let mut bytes = [0u8; 168];
    d.read(0, &mut bytes)?;
    let header = match header_of(&bytes) {
        Ok(header) => header,
        Err(fault) => return Err(FrontRefusal::Header { fault }),
    };
    if is_short(len, header.hash_size) {
        return Err(FrontRefusal::Short { len });
    }
    Ok(header)
}

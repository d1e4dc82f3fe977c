// Runs of bytes that are copied or made zero, a block at a time.

ghost use Rattle.std.specs.Prelude.{◌≡◌, ◌+◌, ◌-◌, ◌^◌, ◌<◌, ◌≤◌, ◌⊎◌, IsTrue, OnOk, slice_index};
ghost use Rattle.tdb_disk.specs.Count.{HasCause, RoseUpTo};
ghost use Rattle.tdb_disk.specs.History.{seen};
ghost use Rattle.tdb_disk.specs.Stop.{LeavesOnly};
ghost use Rattle.tdb_space.specs.Opening.{lies_in};
ghost use Rattle.tdb_undo.specs.Torn.{TornIn, Put};

use tdb_disk::Disk;
use tdb_space::Io;

/// How many bytes are read or written at once.
pub(crate) const BLOCK: usize = 4096;

/// Copies `count` bytes from one offset to another; the two ranges share no byte. A block serves for the copy.
pub(crate) fn copy_bytes<D: Disk>(
    d: &mut D,
    from: u64,
    to: u64,
    count: u64,
    block: &mut [u8; BLOCK],
) -> Result<(), Io>
    requires source { from + count ≤ D.size d.old }
    requires target { to + count ≤ D.size d.old }
    requires apart { (from + count ≤ to) ⊎ (to + count ≤ from) }
    requires short { from + count < 2 ^ 64 }
    requires short_target { to + count < 2 ^ 64 }
    ensures stops { IsTrue D.tells → LeavesOnly (D.history d.old) (D.history d.new) (TornIn (lies_in to count) (D.history d.old)) }
    ensures put { OnOk result (IsTrue D.tells → Put (lies_in to count) (λ i. slice_index (seen (D.history d.old)) (from + (i - to))) (seen (D.history d.old)) (seen (D.history d.new))) }
    ensures size { D.size d.new ≡ D.size d.old }
    ensures cause { HasCause (D.faults d.old) (D.faults d.new) result }
    ensures syncs { D.syncs d.new ≡ D.syncs d.old }
    ensures bytes_read { RoseUpTo count (D.bytes_read d.old) (D.bytes_read d.new) }
{
    let mut done = 0;
    while done < count {
        let size = (count - done).min(BLOCK as u64);
        let piece = &mut block[..size as usize];
        d.read(from + done, piece)?;
        d.write(to + done, piece)?;
        done += size;
    }
    Ok(())
}

/// Makes `count` bytes from an offset on zero.
pub(crate) fn zero_bytes<D: Disk>(d: &mut D, from: u64, count: u64) -> Result<(), Io>
    requires within { from + count ≤ D.size d.old }
    requires short { from + count < 2 ^ 64 }
    ensures stops { IsTrue D.tells → LeavesOnly (D.history d.old) (D.history d.new) (TornIn (lies_in from count) (D.history d.old)) }
    ensures put { OnOk result (IsTrue D.tells → Put (lies_in from count) (λ _. 0) (seen (D.history d.old)) (seen (D.history d.new))) }
    ensures size { D.size d.new ≡ D.size d.old }
    ensures cause { HasCause (D.faults d.old) (D.faults d.new) result }
    ensures syncs { D.syncs d.new ≡ D.syncs d.old }
    ensures bytes_read { D.bytes_read d.new ≡ D.bytes_read d.old }
{
    let zeros = [0u8; BLOCK];
    let mut done = 0;
    while done < count {
        let size = (count - done).min(BLOCK as u64);
        d.write(from + done, &zeros[..size as usize])?;
        done += size;
    }
    Ok(())
}

//! A disk: one file of bytes that is read and written at offsets, and what a stop of the machine may leave of it.
ghost use Rattle.std.specs.Prelude.{◌≡◌, ◌+◌, ◌%◌, ◌≤◌, ◌⊎◌, ℕ, Bool, IsTrue, length, take, drop, IfOk, OnOk, MatchResult};
ghost use Rattle.tdb_disk.specs.Count.{HasCause, RoseBy, RoseUpTo};
ghost use Rattle.tdb_disk.specs.History.{History, wrote, wrote_word, grew, cut, synced, called, seen, Tried, TriedOver};

use thiserror::Error;

/// A call of a disk that failed.
#[derive(Clone, Copy, Debug, PartialEq, Eq, Error)]
#[error("disk fault")]
pub struct DiskFault;

/// One file of bytes. Offsets and lengths are in bytes.
///
/// A call that fails raises the count of faults. Where the calls are told, a failed call that changes the disk has
/// done nothing or what a stop inside it may leave.
pub trait Disk {
    /// Whether a contract sees the content and the calls. A real file tells neither.
    ghost tells: { Bool };

    /// The bytes at first and the calls since that changed the disk. It says something of the disk only where `tells`.
    ghost history: { Self → History };

    /// The length in bytes.
    ghost size: { Self → ℕ };

    /// How many calls have failed.
    ghost faults: { Self → ℕ };

    /// How many syncs have answered Ok.
    ghost syncs: { Self → ℕ };

    /// How many bytes were read.
    ghost bytes_read: { Self → ℕ };

    /// The length in bytes.
    fn len(&mut self) -> Result<u64, DiskFault>
        ensures length { IfOk result (λ n. n ≡ size self.old) }
        ensures size { size self.new ≡ size self.old }
        ensures history { history self.new ≡ history self.old }
        ensures cause { HasCause (faults self.old) (faults self.new) result }
        ensures syncs { syncs self.new ≡ syncs self.old }
        ensures bytes_read { bytes_read self.new ≡ bytes_read self.old };

    /// Fills `buf` with the bytes from offset `off` on.
    fn read(&mut self, off: u64, buf: &mut [u8]) -> Result<(), DiskFault>
        requires { off + length buf.old ≤ size self.old }
        ensures bytes { OnOk result (IsTrue tells → buf.new ≡ take (length buf.old) (drop off (seen (history self.old)))) }
        ensures size { size self.new ≡ size self.old }
        ensures history { history self.new ≡ history self.old }
        ensures cause { HasCause (faults self.old) (faults self.new) result }
        ensures syncs { syncs self.new ≡ syncs self.old }
        ensures bytes_read { RoseUpTo (length buf.old) (bytes_read self.old) (bytes_read self.new) }
        ensures all_read { OnOk result (RoseBy (length buf.old) (bytes_read self.old) (bytes_read self.new)) };

    /// Writes `bytes` at offset `off`, over what is there. Until the next sync a stop may leave any bytes in the range.
    fn write(&mut self, off: u64, bytes: &[u8]) -> Result<(), DiskFault>
        requires { off + length bytes.now ≤ size self.old }
        ensures tried { TriedOver off (length bytes.now) (history self.old) (history self.new) }
        ensures done { OnOk result (IsTrue tells → history self.new ≡ called (history self.old) (wrote off bytes.now)) }
        ensures size { size self.new ≡ size self.old }
        ensures cause { HasCause (faults self.old) (faults self.new) result }
        ensures syncs { syncs self.new ≡ syncs self.old }
        ensures bytes_read { bytes_read self.new ≡ bytes_read self.old };

    /// Writes the four bytes of an aligned word, which a stop leaves old or new as a whole.
    fn write_word(&mut self, off: u64, w: [u8; 4]) -> Result<(), DiskFault>
        requires aligned { off % 4 ≡ 0 }
        requires within { off + 4 ≤ size self.old }
        ensures tried { Tried (wrote_word off w) (history self.old) (history self.new) }
        ensures done { OnOk result (IsTrue tells → history self.new ≡ called (history self.old) (wrote_word off w)) }
        ensures size { size self.new ≡ size self.old }
        ensures cause { HasCause (faults self.old) (faults self.new) result }
        ensures syncs { syncs self.new ≡ syncs self.old }
        ensures bytes_read { bytes_read self.new ≡ bytes_read self.old };

    /// Makes the file longer. The new bytes are zero.
    fn grow(&mut self, to: u64) -> Result<(), DiskFault>
        requires { size self.old ≤ to }
        ensures tried { Tried (grew to) (history self.old) (history self.new) }
        ensures done { OnOk result (IsTrue tells → history self.new ≡ called (history self.old) (grew to)) }
        ensures size { (size self.new ≡ size self.old) ⊎ (size self.new ≡ to) }
        ensures grown { OnOk result (size self.new ≡ to) }
        ensures cause { HasCause (faults self.old) (faults self.new) result }
        ensures syncs { syncs self.new ≡ syncs self.old }
        ensures bytes_read { bytes_read self.new ≡ bytes_read self.old };

    /// Makes the file shorter. The bytes past `to` are gone.
    fn cut(&mut self, to: u64) -> Result<(), DiskFault>
        requires { to ≤ size self.old }
        ensures tried { Tried (cut to) (history self.old) (history self.new) }
        ensures done { OnOk result (IsTrue tells → history self.new ≡ called (history self.old) (cut to)) }
        ensures size { (size self.new ≡ size self.old) ⊎ (size self.new ≡ to) }
        ensures shortened { OnOk result (size self.new ≡ to) }
        ensures cause { HasCause (faults self.old) (faults self.new) result }
        ensures syncs { syncs self.new ≡ syncs self.old }
        ensures bytes_read { bytes_read self.new ≡ bytes_read self.old };

    /// Makes all that was written last: a stop afterwards leaves what a read gives.
    fn sync(&mut self) -> Result<(), DiskFault>
        ensures tried { Tried synced (history self.old) (history self.new) }
        ensures done { OnOk result (IsTrue tells → history self.new ≡ called (history self.old) synced) }
        ensures size { size self.new ≡ size self.old }
        ensures cause { HasCause (faults self.old) (faults self.new) result }
        ensures syncs { MatchResult result (λ _. RoseBy 1 (syncs self.old) (syncs self.new)) (λ _. syncs self.new ≡ syncs self.old) }
        ensures bytes_read { bytes_read self.new ≡ bytes_read self.old };

    /// Where the content is told, its length is the file's.
    ghost told_size: { (d : Self) → IsTrue tells → length (seen (history d)) ≡ size d };
}

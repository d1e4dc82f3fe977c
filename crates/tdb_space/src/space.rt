// A view of the bytes of one file.

ghost use Rattle.std.specs.Prelude.{◌≡◌, ◌+◌, ◌%◌, ◌≤◌, ◌⊎◌, ℕ, Bool, List, IsTrue, false, length, take, drop, IsOk, IfOk, OnOk, OnErr, MatchResult};
ghost use Rattle.tdb_disk.specs.Count.{HasCause, RoseUpTo};
ghost use Rattle.tdb_disk.specs.Image.{overlay, padded};
ghost use Rattle.tdb_disk.specs.Stop.{Torn};
ghost use Rattle.tdb_space.specs.DiskState.{DiskState};
ghost use Rattle.tdb_space.specs.Form.{Form};
ghost use Rattle.tdb_space.specs.Spare.{Spare, without_bound, RoomFor, RoomUpTo, spent, SpentUpTo, IsReady};

use crate::io::Io;
use std::alloc::AllocError;
use tdb_words::{HashKind, Order};

/// A view of the bytes of one file with a known header. Offsets and lengths are in bytes.
///
/// A call answers `Io` only where the disk under it failed, which raises the count of faults. A write and a growth take
/// no memory; `ready` makes room for them first.
pub trait Space {
    /// Whether a contract sees the bytes. Over a real file it doesn't.
    ghost tells: { Bool };

    /// The bytes as a read gives them. They are those of the view only where `tells`.
    ghost image: { Self → List ℕ };

    /// What the header states: byte order, hash and number of chains. It stays the same.
    ghost form: { Self → Form };

    /// The length in bytes.
    ghost size: { Self → ℕ };

    /// How many calls of the disk under it have failed.
    ghost faults: { Self → ℕ };

    /// How many bytes were read of that disk.
    ghost bytes_read: { Self → ℕ };

    /// What may still be written and grown by without asking for memory.
    ghost spare: { Self → Spare };

    /// Whether a write reaches the disk under it.
    ghost writes_through: { Bool };

    /// What the disk under it has come to.
    ghost disk: { Self → DiskState };

    /// Which references it holds, by the names that proofs give them. They stay the same.
    ghost under: { Self → List ℕ };

    /// The length in bytes.
    fn len(&mut self) -> Result<u64, Io>
        ensures length { IfOk result (λ n. n ≡ size self.old) }
        ensures size { size self.new ≡ size self.old }
        ensures image { image self.new ≡ image self.old }
        ensures form { form self.new ≡ form self.old }
        ensures cause { HasCause (faults self.old) (faults self.new) result }
        ensures bytes_read { bytes_read self.new ≡ bytes_read self.old }
        ensures spare { spare self.new ≡ spare self.old }
        ensures disk { disk self.new ≡ disk self.old }
        ensures under { under self.new ≡ under self.old };

    /// The byte order of the words.
    fn order(&self) -> Order
        ensures { result ≡ (form self.now).order };

    /// The hash of keys.
    fn hash(&self) -> HashKind
        ensures { result ≡ (form self.now).hash };

    /// The number of chains.
    fn hash_size(&self) -> u32
        ensures { result ≡ (form self.now).chains };

    /// Fills `buf` with the bytes from offset `off` on.
    fn read(&mut self, off: u64, buf: &mut [u8]) -> Result<(), Io>
        requires { off + length buf.old ≤ size self.old }
        ensures bytes { OnOk result (IsTrue tells → buf.new ≡ take (length buf.old) (drop off (image self.old))) }
        ensures size { size self.new ≡ size self.old }
        ensures image { image self.new ≡ image self.old }
        ensures form { form self.new ≡ form self.old }
        ensures cause { HasCause (faults self.old) (faults self.new) result }
        ensures bytes_read { RoseUpTo (length buf.old) (bytes_read self.old) (bytes_read self.new) }
        ensures spare { spare self.new ≡ spare self.old }
        ensures disk { disk self.new ≡ disk self.old }
        ensures under { under self.new ≡ under self.old };

    /// Writes `bytes` at offset `off`, over what is there. After a fault other bytes may stand in the range.
    fn write(&mut self, off: u64, bytes: &[u8]) -> Result<(), Io>
        requires within { off + length bytes.now ≤ size self.old }
        requires room { RoomFor (spare self.old) (length bytes.now) }
        ensures image { IsTrue tells → MatchResult result (λ _. image self.new ≡ overlay (image self.old) off bytes.now)
            (λ _. Torn off (length bytes.now) (image self.old) (image self.new)) }
        ensures size { size self.new ≡ size self.old }
        ensures form { form self.new ≡ form self.old }
        ensures cause { HasCause (faults self.old) (faults self.new) result }
        ensures bytes_read { RoseUpTo (length bytes.now + 8192) (bytes_read self.old) (bytes_read self.new) }
        ensures spare { MatchResult result (λ _. spare self.new ≡ spent (spare self.old) (length bytes.now))
            (λ _. SpentUpTo (spare self.old) (length bytes.now) (spare self.new)) }
        ensures disk { writes_through ≡ false → disk self.new ≡ disk self.old }
        ensures under { under self.new ≡ under self.old };

    /// Writes the four bytes of an aligned word. After a fault the word is old or new as a whole.
    fn write_word(&mut self, off: u64, w: [u8; 4]) -> Result<(), Io>
        requires aligned { off % 4 ≡ 0 }
        requires within { off + 4 ≤ size self.old }
        requires room { RoomFor (spare self.old) 4 }
        ensures image { IsTrue tells → MatchResult result (λ _. image self.new ≡ overlay (image self.old) off w)
            (λ _. (image self.new ≡ image self.old) ⊎ (image self.new ≡ overlay (image self.old) off w)) }
        ensures size { size self.new ≡ size self.old }
        ensures form { form self.new ≡ form self.old }
        ensures cause { HasCause (faults self.old) (faults self.new) result }
        ensures bytes_read { RoseUpTo (4 + 8192) (bytes_read self.old) (bytes_read self.new) }
        ensures spare { MatchResult result (λ _. spare self.new ≡ spent (spare self.old) 4) (λ _. SpentUpTo (spare self.old) 4 (spare self.new)) }
        ensures disk { writes_through ≡ false → disk self.new ≡ disk self.old }
        ensures under { under self.new ≡ under self.old };

    /// Makes the file longer. The new bytes are zero.
    fn grow(&mut self, to: u64) -> Result<(), Io>
        requires longer { size self.old ≤ to }
        requires room { RoomUpTo (spare self.old) to }
        ensures image { IsTrue tells → MatchResult result (λ _. image self.new ≡ padded (image self.old) to)
            (λ _. (image self.new ≡ image self.old) ⊎ (image self.new ≡ padded (image self.old) to)) }
        ensures size { (size self.new ≡ size self.old) ⊎ (size self.new ≡ to) }
        ensures grown { OnOk result (size self.new ≡ to) }
        ensures form { form self.new ≡ form self.old }
        ensures cause { HasCause (faults self.old) (faults self.new) result }
        ensures bytes_read { bytes_read self.new ≡ bytes_read self.old }
        ensures spare { spare self.new ≡ spare self.old }
        ensures disk { writes_through ≡ false → disk self.new ≡ disk self.old }
        ensures under { under self.new ≡ under self.old };

    /// Makes room: afterwards so many writes of so many bytes in all take no memory, nor do growths by up to a quarter
    /// of the length, these bytes and 4096 more. It changes no byte. Fails only for want of memory, and never where
    /// what is spare has no bound, as over a disk.
    fn ready(&mut self, writes: u32, bytes: u64) -> Result<(), AllocError>
        ensures room { OnOk result (IsReady (spare self.new) (size self.old) writes bytes) }
        ensures unbounded { spare self.old ≡ without_bound → IsOk result }
        ensures size { size self.new ≡ size self.old }
        ensures image { image self.new ≡ image self.old }
        ensures form { form self.new ≡ form self.old }
        ensures faults { faults self.new ≡ faults self.old }
        ensures bytes_read { bytes_read self.new ≡ bytes_read self.old }
        ensures kept { OnErr result (spare self.new ≡ spare self.old) }
        ensures disk { disk self.new ≡ disk self.old }
        ensures under { under self.new ≡ under self.old };

    /// Where the bytes are told, there are as many as the length says.
    ghost told_size: { (s : Self) → IsTrue tells → length (image s) ≡ size s };
}

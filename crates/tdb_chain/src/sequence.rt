// The sequence number of a file, by which a reader may see that something changed.

ghost use Rattle.std.specs.Prelude.{◌≡◌, ◌+◌, ◌≤◌, ℕ, List, IsTrue, OnOk};
ghost use Rattle.tdb_disk.specs.Count.{HasCause, RoseUpTo};
ghost use Rattle.tdb_words.specs.Word.{word};
ghost use Rattle.tdb_space.specs.Frame.{Wrote};
ghost use Rattle.tdb_space.specs.Extents.{HandPair};
ghost use Rattle.tdb_space.specs.Accepted.{AcceptWith};
ghost use Rattle.tdb_space.specs.Spare.{RoomForAll};
ghost use Rattle.tdb_space.specs.SpareLeft.{LeavesRoom};
ghost use Rattle.tdb_chain.specs.Changed.{OldOrWord};
ghost use Rattle.tdb_chain.specs.Raised.{next_number, OnlySequence};
ghost use Rattle.tdb_chain.specs.Reads.{write_reads};

use tdb_space::{Io, Space, read_word};
use tdb_words::word_bytes;

/// The offset in bytes of the sequence number, a word of the file's header.
const SEQUENCE: u64 = 48;

/// Raises the sequence number by one; behind the greatest number of 32 bits comes 0. Nothing else changes.
///
/// It reads and writes one word, where the file reaches so far. `Io` where the disk failed: then the number is the old
/// or the new one.
pub fn raise_seq<S: Space>(s: &mut S) -> Result<(), Io>
    requires room { RoomForAll (S.spare s.old) 1 4 }
    ensures raised { OnOk result (IsTrue S.tells → 52 ≤ S.size s.old
        → word (S.form s.old).order (S.image s.new) 48 ≡ next_number (word (S.form s.old).order (S.image s.old) 48)) }
    ensures kept { IsTrue S.tells → (hands : List HandPair) → AcceptWith (S.form s.old) (S.image s.old) hands
        → OnlySequence (S.form s.old) (S.image s.old) (S.image s.new) hands }
    ensures written { IsTrue S.tells → OldOrWord (S.form s.old).order (S.image s.old) 48 (next_number (word (S.form s.old).order (S.image s.old) 48)) (S.image s.new) }
    ensures size { S.size s.new ≡ S.size s.old }
    ensures wrote { Wrote S.Space s.old s.new }
    ensures cause { HasCause (S.faults s.old) (S.faults s.new) result }
    ensures bytes_read { RoseUpTo (4 + write_reads 1 4) (S.bytes_read s.old) (S.bytes_read s.new) }
    ensures spare { LeavesRoom 1 4 (S.spare s.old) (S.spare s.new) }
{
    if s.len()? < SEQUENCE + 4 {
        return Ok(());
    }
    let number = read_word(s, SEQUENCE)?;
    s.write_word(SEQUENCE, word_bytes(number.wrapping_add(1), s.order()))?;
    Ok(())
}

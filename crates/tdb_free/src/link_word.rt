// The words of the free list that lead to records: its head, and the first word of each free record.

ghost use Rattle.std.specs.Prelude.{◌≡◌, ◌+◌, ◌%◌, ◌≤◌, ◌⊎◌, IsTrue, OnOk, OnErr};
ghost use Rattle.tdb_disk.specs.Count.{HasCause, RoseUpTo};
ghost use Rattle.tdb_disk.specs.Image.{overlay};
ghost use Rattle.tdb_words.specs.Word.{bytes_of_word};
ghost use Rattle.tdb_space.specs.Frame.{Wrote};
ghost use Rattle.tdb_space.specs.Spare.{RoomFor};
ghost use Rattle.tdb_space.specs.SpareLeft.{LeavesRoom};
ghost use Rattle.tdb_free.specs.Reads.{write_reads};

use tdb_space::{Io, Space};
use tdb_words::word_bytes;

/// Writes the aligned word at an offset. After a fault it is old or new as a whole.
pub(crate) fn write_link<S: Space>(s: &mut S, off: u32, to: u32) -> Result<(), Io>
    requires aligned { off % 4 ≡ 0 }
    requires within { off + 4 ≤ S.size s.old }
    requires room { RoomFor (S.spare s.old) 4 }
    ensures image { OnOk result (IsTrue S.tells → S.image s.new ≡ overlay (S.image s.old) off (bytes_of_word (S.form s.old).order to)) }
    ensures stopped { OnErr result (IsTrue S.tells → (S.image s.new ≡ S.image s.old) ⊎ (S.image s.new ≡ overlay (S.image s.old) off (bytes_of_word (S.form s.old).order to))) }
    ensures size { S.size s.new ≡ S.size s.old }
    ensures wrote { Wrote S.Space s.old s.new }
    ensures cause { HasCause (S.faults s.old) (S.faults s.new) result }
    ensures bytes_read { RoseUpTo (write_reads 1 4) (S.bytes_read s.old) (S.bytes_read s.new) }
    ensures spare { LeavesRoom 1 4 (S.spare s.old) (S.spare s.new) }
{
    s.write_word(off as u64, word_bytes(to, s.order()))
}

// Where the free list begins.

ghost use Rattle.std.specs.Prelude.{◌≡◌, ◌+◌, ◌*◌, ◌≤◌, IsTrue, Some, List, ℕ, IfOk, IfSome, MatchBool};
ghost use Rattle.tdb_disk.specs.Count.{HasCause, RoseUpTo};
ghost use Rattle.tdb_words.specs.Word.{word};
ghost use Rattle.tdb_space.specs.Frame.{Looked};
ghost use Rattle.tdb_space.specs.Form.{free_head};
ghost use Rattle.tdb_space.specs.Chain.{Free};

use tdb_space::{FREE_HEAD, Io, Space, read_word};

/// The offset of the first free record, in a file of `len` bytes, or 0 where there is none. It reads 4 bytes.
pub(crate) fn first_free<S: Space>(s: &mut S, len: u64) -> Result<u32, Io>
    requires length { len ≡ S.size s.old }
    ensures leads { IfOk result (λ at. IsTrue S.tells → (offs : List ℕ)
        → Free (S.form s.old) (S.image s.old) (word (S.form s.old).order (S.image s.old) free_head) offs → Free (S.form s.old) (S.image s.old) at offs) }
    ensures looked { Looked S.Space s.old s.new }
    ensures cause { HasCause (S.faults s.old) (S.faults s.new) result }
    ensures bytes_read { RoseUpTo 4 (S.bytes_read s.old) (S.bytes_read s.new) }
{
    if len < 172 {
        return Ok(0);
    }
    read_word(s, FREE_HEAD as u64)
}

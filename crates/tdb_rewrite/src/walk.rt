// The walk along one list of records: a chain, or the free list.

ghost use Rattle.std.specs.Prelude.{◌≡◌, ◌+◌, ◌*◌, ◌^◌, ◌<◌, ◌≤◌, List, ℕ, IsTrue, IsSome, IfSome, IfOk};
ghost use Rattle.tdb_disk.specs.Count.{HasCause};
ghost use Rattle.tdb_words.specs.Word.{word};
ghost use Rattle.tdb_space.specs.Frame.{Looked};
ghost use Rattle.tdb_rewrite.specs.Places.{HasHeader};
ghost use Rattle.tdb_rewrite.specs.Walk.{IsWholeList, Ahead, Gives};

use tdb_space::{Io, Space, read_listed, read_word};
use tdb_words::Rec;

/// A record of a list.
#[derive(Clone, Copy)]
pub struct Listed {
    /// The offset of the record in bytes.
    pub off: u32,

    /// Its header.
    pub rec: Rec,
}

/// A walk along a list of records, of which it reads the headers alone.
#[derive(Drop)]
pub struct ListWalk {
    /// The offset of the next record, or 0 at the end.
    at: u32,

    /// How many records may still be read.
    left: u64,
}

impl ListWalk {
    /// A walk from the word at `head` on, in a file of `len` bytes.
    pub fn from_head<S: Space>(s: &mut S, len: u64, head: u64) -> Result<ListWalk, Io>
        requires length { len ≡ S.size s.old }
        requires small { head + 4 < 2 ^ 64 }
        ensures ahead { IfOk result (λ walk. IsTrue S.tells → head + 4 ≤ S.size s.old → (offs : List ℕ)
            → IsWholeList (S.form s.old) (S.image s.old) (word (S.form s.old).order (S.image s.old) head) offs
            → Ahead (S.form s.old) (S.image s.old) offs walk) }
        ensures counted { IfOk result (λ walk. 4 * walk.left ≤ len) }
        ensures looked { Looked S.Space s.old s.new }
        ensures cause { HasCause (S.faults s.old) (S.faults s.new) result }
        ensures bytes_read { S.bytes_read s.old ≤ S.bytes_read s.new }
    {
        if len < head + 4 {
            return Ok(ListWalk { at: 0, left: 0 });
        }
        let at = read_word(s, head)?;
        Ok(ListWalk { at, left: len / 4 })
    }

    /// The next record, if there is one.
    ///
    /// Where the file's bytes aren't those of an accepted one, a word that leads to no place where a record can stand
    /// ends the list as a 0 does, and so do as many records as the file has words.
    pub fn next<S: Space>(&mut self, s: &mut S, len: u64) -> Result<Option<Listed>, Io>
        requires length { len ≡ S.size s.old }
        ensures gives { IfOk result (λ found. IsTrue S.tells → (offs : List ℕ) → Ahead (S.form s.old) (S.image s.old) offs self.old
            → Gives (S.form s.old) (S.image s.old) offs found self.new) }
        ensures header { IfOk result (λ found. IsTrue S.tells → IfSome found (λ x. HasHeader (S.form s.old) (S.image s.old) x)) }
        ensures fewer { IfOk result (λ found. IsSome found → self.new.left < self.old.left) }
        ensures looked { Looked S.Space s.old s.new }
        ensures cause { HasCause (S.faults s.old) (S.faults s.new) result }
        ensures bytes_read { S.bytes_read s.old ≤ S.bytes_read s.new }
    {
        if self.left == 0 {
            return Ok(None);
        }
        let Some(rec) = read_listed(s, len, self.at)? else {
            return Ok(None);
        };
        let off = self.at;
        self.at = rec.next;
        self.left -= 1;
        Ok(Some(Listed { off, rec }))
    }
}

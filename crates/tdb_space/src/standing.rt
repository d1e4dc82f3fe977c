// Where a record can stand, and the header of a record of a list.

ghost use Rattle.std.specs.Prelude.{◌≡◌, ◌+◌, ◌*◌, ◌≤◌, IsTrue, Some, IfOk, IfSome, MatchBool};
ghost use Rattle.tdb_disk.specs.Count.{HasCause, RoseUpTo};
ghost use Rattle.tdb_words.specs.Record.{rec_at};
ghost use Rattle.tdb_space.specs.Frame.{Looked};
ghost use Rattle.tdb_space.specs.Record.{Whole};
ghost use Rattle.tdb_space.specs.Standing.{HeaderStands, ContentStands, Stands};

use crate::io::Io;
use crate::layout::data_start;
use crate::reads::read_rec;
use crate::space::Space;
use tdb_words::Rec;

/// Whether the header of a record can stand at an offset of a file of this length and of so many chains.
pub fn header_stands(at: u32, len: u64, chains: u32) -> bool
    ensures { MatchBool result (HeaderStands chains len at) (HeaderStands chains len at → ⊥) }
{
    at % 4 == 0 && data_start(chains) <= at as u64 && at as u64 + 24 <= len
}

/// Whether so many bytes can follow the header of the record at an offset of a file of this length.
pub fn content_stands(rec_len: u32, at: u32, len: u64) -> bool
    ensures { MatchBool result (ContentStands rec_len at len) (ContentStands rec_len at len → ⊥) }
{
    rec_len % 4 == 0 && 4 <= rec_len && at as u64 + 24 + rec_len as u64 <= len
}

/// The header of the record of a list at an offset of a file of `len` bytes, or nothing where none can stand there: one
/// step along a list. A list ends there as it does at a 0: the offset or the length isn't a whole number of words, the
/// record stands in front of the data, has no room for its tailer, or passes the end of the file. It reads at most 24
/// bytes.
pub fn read_listed<S: Space>(s: &mut S, len: u64, at: u32) -> Result<Option<Rec>, Io>
    requires length { len ≡ S.size s.old }
    ensures there { IfOk result (λ found. IsTrue S.tells → Whole (S.form s.old) (S.image s.old) at
        → found ≡ Some (rec_at (S.form s.old).order (S.image s.old) at)) }
    ensures header { IfOk result (λ found. IsTrue S.tells → IfSome found (λ r. r ≡ rec_at (S.form s.old).order (S.image s.old) at)) }
    ensures stands { IfOk result (λ found. IfSome found (λ r. Stands (S.form s.old) (S.size s.old) at r.rec_len)) }
    ensures looked { Looked S.Space s.old s.new }
    ensures cause { HasCause (S.faults s.old) (S.faults s.new) result }
    ensures bytes_read { RoseUpTo 24 (S.bytes_read s.old) (S.bytes_read s.new) }
{
    if !header_stands(at, len, s.hash_size()) {
        return Ok(None);
    }
    let rec = read_rec(s, at as u64)?;
    if !content_stands(rec.rec_len, at, len) {
        return Ok(None);
    }
    Ok(Some(rec))
}

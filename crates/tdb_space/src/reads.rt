// What is read of a view: a word, the header of a record, and whether a key stands at an offset.

ghost use Rattle.std.specs.Prelude.{◌≡◌, ◌+◌, ◌≤◌, ◌<◌, ◌^◌, IsTrue, length, take, drop, IfOk, OnOk, MatchBool};
ghost use Rattle.tdb_disk.specs.Count.{HasCause, RoseUpTo};
ghost use Rattle.tdb_words.specs.Record.{rec_at};
ghost use Rattle.tdb_words.specs.Word.{word};
ghost use Rattle.tdb_space.specs.Frame.{Looked};

use crate::io::Io;
use crate::space::Space;
use tdb_words::{Order, Rec, rec_of, word_at};

/// The word at an offset. It reads 4 bytes.
pub fn read_word<S: Space>(s: &mut S, off: u64) -> Result<u32, Io>
    requires { off + 4 ≤ S.size s.old }
    ensures value { IfOk result (λ w. IsTrue S.tells → w ≡ word (S.form s.old).order (S.image s.old) off) }
    ensures looked { Looked S.Space s.old s.new }
    ensures cause { HasCause (S.faults s.old) (S.faults s.new) result }
    ensures bytes_read { RoseUpTo 4 (S.bytes_read s.old) (S.bytes_read s.new) }
{
    let mut bytes = [0u8; 4];
    s.read(off, &mut bytes)?;
    Ok(word_at(&bytes, s.order()))
}

/// The header of the record at an offset. It reads 24 bytes, at once.
pub fn read_rec<S: Space>(s: &mut S, off: u64) -> Result<Rec, Io>
    requires { off + 24 ≤ S.size s.old }
    ensures header { IfOk result (λ r. IsTrue S.tells → r ≡ rec_at (S.form s.old).order (S.image s.old) off) }
    ensures looked { Looked S.Space s.old s.new }
    ensures cause { HasCause (S.faults s.old) (S.faults s.new) result }
    ensures bytes_read { RoseUpTo 24 (S.bytes_read s.old) (S.bytes_read s.new) }
{
    let mut bytes = [0u8; 24];
    s.read(off, &mut bytes)?;
    Ok(rec_of(&bytes, s.order()))
}

/// The header with which the bytes of a record begin.
pub fn rec_in(bytes: &[u8], order: Order) -> Rec
    requires { 24 ≤ length bytes.now }
    ensures { result ≡ rec_at order bytes.now 0 }
{
    let mut header = [0u8; 24];
    header.copy_from_slice(&bytes[..24]);
    rec_of(&header, order)
}

/// How many bytes are read at once.
const PIECE: usize = 4096;

/// Whether these bytes stand at an offset, at most `PIECE` of them.
fn piece_equals<S: Space>(
    s: &mut S,
    off: u64,
    piece: &[u8],
    buf: &mut [u8; 4096],
) -> Result<bool, Io>
    requires within { off + length piece.now ≤ S.size s.old }
    requires short { length piece.now ≤ 4096 }
    ensures equal { IfOk result (λ same. IsTrue S.tells
        → MatchBool same (take (length piece.now) (drop off (S.image s.old)) ≡ piece.now) (take (length piece.now) (drop off (S.image s.old)) ≡ piece.now → ⊥)) }
    ensures looked { Looked S.Space s.old s.new }
    ensures cause { HasCause (S.faults s.old) (S.faults s.new) result }
    ensures bytes_read { RoseUpTo (length piece.now) (S.bytes_read s.old) (S.bytes_read s.new) }
{
    let read = &mut buf[..piece.len()];
    s.read(off, read)?;
    Ok(*read == *piece)
}

/// Whether a key stands at an offset. It reads no more than the key's length, in pieces of 4096 bytes, and stops at the
/// first piece that differs.
pub fn key_equals<S: Space>(s: &mut S, off: u64, key: &[u8]) -> Result<bool, Io>
    requires within { off + length key.now ≤ S.size s.old }
    requires small { off + length key.now < 2 ^ 64 }
    ensures equal { IfOk result (λ same. IsTrue S.tells
        → MatchBool same (take (length key.now) (drop off (S.image s.old)) ≡ key.now) (take (length key.now) (drop off (S.image s.old)) ≡ key.now → ⊥)) }
    ensures looked { Looked S.Space s.old s.new }
    ensures cause { HasCause (S.faults s.old) (S.faults s.new) result }
    ensures bytes_read { RoseUpTo (length key.now) (S.bytes_read s.old) (S.bytes_read s.new) }
{
    let mut buf = [0u8; PIECE];
    let mut done = 0;
    while done < key.len() {
        let count = PIECE.min(key.len() - done);
        if !piece_equals(s, off + done as u64, &key[done..done + count], &mut buf)? {
            return Ok(false);
        }
        done += count;
    }
    Ok(true)
}

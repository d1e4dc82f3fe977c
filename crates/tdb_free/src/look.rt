// What a few words tell of the records beside a place: whether one looks free, and where one starts.

ghost use Rattle.std.specs.Prelude.{◌≡◌, ◌≤◌, ℕ, IsTrue, IfOk, IfSome, MatchBool, MatchOption};
ghost use Rattle.tdb_disk.specs.Count.{HasCause, RoseUpTo};
ghost use Rattle.tdb_space.specs.Frame.{Looked};
ghost use Rattle.tdb_free.specs.Look.{LooksFree, StartsByTailer, EndsFree};

use tdb_space::{Io, Space, read_word};
use tdb_words::FREE;

/// Whether the header at an offset fits into the file and has the magic of a free record. `len` is the length of the
/// file. It reads 4 bytes at most.
pub(crate) fn looks_free<S: Space>(s: &mut S, len: u64, at: u64) -> Result<bool, Io>
    requires length { len ≡ S.size s.old }
    ensures free { IfOk result (λ free. IsTrue S.tells
        → MatchBool free (LooksFree (S.form s.old).order (S.image s.old) at) (LooksFree (S.form s.old).order (S.image s.old) at → ⊥)) }
    ensures looked { Looked S.Space s.old s.new }
    ensures cause { HasCause (S.faults s.old) (S.faults s.new) result }
    ensures bytes_read { RoseUpTo 4 (S.bytes_read s.old) (S.bytes_read s.new) }
{
    if len < 24 || len - 24 < at {
        return Ok(false);
    }
    Ok(read_word(s, at + 20)? == FREE)
}

/// Where a record that ends at an offset starts, by the tailer there, if that is the length of a record. `len` is the
/// length of the file. It reads 4 bytes at most.
pub(crate) fn start_by_tailer<S: Space>(s: &mut S, len: u64, at: u32) -> Result<Option<u32>, Io>
    requires length { len ≡ S.size s.old }
    ensures start { IfOk result (λ start. IsTrue S.tells
        → MatchOption start ((x : ℕ) → StartsByTailer (S.form s.old).order (S.image s.old) at x → ⊥) (λ x. StartsByTailer (S.form s.old).order (S.image s.old) at x)) }
    ensures looked { Looked S.Space s.old s.new }
    ensures cause { HasCause (S.faults s.old) (S.faults s.new) result }
    ensures bytes_read { RoseUpTo 4 (S.bytes_read s.old) (S.bytes_read s.new) }
{
    if at < 28 || len < at as u64 {
        return Ok(None);
    }
    let tailer = read_word(s, at as u64 - 4)?;
    if tailer < 28 || at < tailer {
        return Ok(None);
    }
    Ok(Some(at - tailer))
}

/// The offset itself where a record that looks free starts there. `len` is the length of the file. It reads 4 bytes at
/// most.
pub(crate) fn free_start<S: Space>(s: &mut S, len: u64, at: u64) -> Result<Option<u64>, Io>
    requires length { len ≡ S.size s.old }
    ensures same { IfOk result (λ start. IfSome start (λ x. x ≡ at)) }
    ensures start { IfOk result (λ start. IsTrue S.tells
        → MatchOption start (LooksFree (S.form s.old).order (S.image s.old) at → ⊥) (λ _. LooksFree (S.form s.old).order (S.image s.old) at)) }
    ensures looked { Looked S.Space s.old s.new }
    ensures cause { HasCause (S.faults s.old) (S.faults s.new) result }
    ensures bytes_read { RoseUpTo 4 (S.bytes_read s.old) (S.bytes_read s.new) }
{
    if looks_free(s, len, at)? {
        return Ok(Some(at));
    }
    Ok(None)
}

/// Where a record that looks free starts, by the tailer in front of an offset, if one does. `len` is the length of the
/// file. It reads 8 bytes at most: the tailer, and the magic of a record that is so long.
pub(crate) fn free_start_before<S: Space>(s: &mut S, len: u64, at: u32) -> Result<Option<u64>, Io>
    requires length { len ≡ S.size s.old }
    ensures start { IfOk result (λ start. IsTrue S.tells
        → MatchOption start (EndsFree (S.form s.old).order (S.image s.old) at → ⊥) (λ x. StartsByTailer (S.form s.old).order (S.image s.old) at x × LooksFree (S.form s.old).order (S.image s.old) x)) }
    ensures looked { Looked S.Space s.old s.new }
    ensures cause { HasCause (S.faults s.old) (S.faults s.new) result }
    ensures bytes_read { RoseUpTo 8 (S.bytes_read s.old) (S.bytes_read s.new) }
{
    match start_by_tailer(s, len, at)? {
        Some(start) => free_start(s, len, start as u64),
        None => Ok(None),
    }
}

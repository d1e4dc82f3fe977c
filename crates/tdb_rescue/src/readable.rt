// Whether a pair can be read at a place.

ghost use Rattle.std.specs.Prelude.{◌≡◌, ◌+◌, ◌≤◌, ◌<◌, ◌^◌, true, false, IsTrue, IfOk, IfSome, MatchOption};
ghost use Rattle.tdb_disk.specs.Count.{HasCause};
ghost use Rattle.tdb_words.specs.Record.{rec_at};
ghost use Rattle.tdb_space.specs.Frame.{Looked};
ghost use Rattle.tdb_rescue.specs.Window.{Shows, Holds};
ghost use Rattle.tdb_rescue.specs.Rescued.{has_room, has_tailer, is_readable};

use crate::key_hash::key_hash;
use crate::window::Window;
use tdb_space::{Io, Space};
use tdb_words::{Rec, USED, word_at};

/// Whether the lengths in the header at an offset of a file of `len` bytes fit.
fn has_room(rec: &Rec, at: u64, len: u64) -> bool
    requires { at + 24 ≤ len }
    ensures { result ≡ has_room rec.now at len }
{
    let rec_len = rec.rec_len as u64;
    rec_len % 4 == 0
        && rec_len <= len - at - 24
        && rec.key_len as u64 + rec.data_len as u64 + 4 <= rec_len
}

/// Whether the last word of the record at an offset is the length of the whole of it.
fn has_tailer<S: Space>(s: &mut S, window: &Window, at: u64, rec_len: u32) -> Result<bool, Io>
    requires within { at + 24 + rec_len ≤ S.size s.old }
    requires small { at + 24 + rec_len < 2 ^ 64 }
    ensures same { IfOk result (λ same. IsTrue S.tells → Shows (S.image s.old) window.now
        → same ≡ has_tailer (S.form s.old).order (S.image s.old) at rec_len) }
    ensures looked { Looked S.Space s.old s.new }
    ensures cause { HasCause (S.faults s.old) (S.faults s.new) result }
    ensures bytes_read { S.bytes_read s.old ≤ S.bytes_read s.new }
{
    let mut tailer = [0u8; 4];
    window.read(s, at + 20 + rec_len as u64, &mut tailer)?;
    Ok(word_at(&tailer, s.order()) as u64 == 24 + rec_len as u64)
}

/// The header of the record at an offset of a file of `len` bytes, where a pair can be read there. Its key is hashed
/// last, where all else fits.
pub(crate) fn readable_at<S: Space>(
    s: &mut S,
    window: &Window,
    len: u64,
    at: u64,
) -> Result<Option<Rec>, Io>
    requires length { len ≡ S.size s.old }
    requires within { at + 24 ≤ len }
    requires held { Holds window.now at 24 }
    ensures readable { IfOk result (λ found. IsTrue S.tells → Shows (S.image s.old) window.now → MatchOption found
        (is_readable (S.form s.old) (S.image s.old) at ≡ false)
        (λ rec. (is_readable (S.form s.old) (S.image s.old) at ≡ true) × (rec ≡ rec_at (S.form s.old).order (S.image s.old) at))) }
    ensures within { IfOk result (λ found. IfSome found (λ rec. at + 24 + rec.key_len + rec.data_len ≤ len)) }
    ensures looked { Looked S.Space s.old s.new }
    ensures cause { HasCause (S.faults s.old) (S.faults s.new) result }
    ensures bytes_read { S.bytes_read s.old ≤ S.bytes_read s.new }
{
    if window.magic(at, s.order()) != USED {
        return Ok(None);
    }
    let rec = window.header(at, s.order());
    if !has_room(&rec, at, len) {
        return Ok(None);
    }
    if !has_tailer(s, window, at, rec.rec_len)? {
        return Ok(None);
    }
    if key_hash(s, window, at + 24, rec.key_len)? != rec.full_hash {
        return Ok(None);
    }
    Ok(Some(rec))
}

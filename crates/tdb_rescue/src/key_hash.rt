// The hash of a key that stands in a file.

ghost use Rattle.std.specs.Prelude.{◌≡◌, ◌+◌, ◌≤◌, ◌<◌, ◌^◌, IsTrue, IfOk, length, take, drop};
ghost use Rattle.tdb_disk.specs.Count.{HasCause};
ghost use Rattle.tdb_words.specs.Hash.{h_of};
ghost use Rattle.tdb_space.specs.Frame.{Looked};
ghost use Rattle.tdb_rescue.specs.Window.{Shows};

use crate::window::Window;
use tdb_space::{Io, Space};
use tdb_words::HashRun;

/// How many bytes of a key are hashed at once.
const PIECE: usize = 4096;

/// The hash of the key that stands at an offset, which goes over it in pieces and holds one of them.
pub(crate) fn key_hash<S: Space>(
    s: &mut S,
    window: &Window,
    off: u64,
    key_len: u32,
) -> Result<u32, Io>
    requires within { off + key_len ≤ S.size s.old }
    requires small { off + key_len < 2 ^ 64 }
    ensures value { IfOk result (λ hash. IsTrue S.tells → Shows (S.image s.old) window.now
        → hash ≡ h_of (S.form s.old).hash (take key_len (drop off (S.image s.old)))) }
    ensures looked { Looked S.Space s.old s.new }
    ensures cause { HasCause (S.faults s.old) (S.faults s.new) result }
    ensures bytes_read { S.bytes_read s.old ≤ S.bytes_read s.new }
{
    let mut buf = [0u8; PIECE];
    let mut run = HashRun::new(s.hash(), key_len);
    let mut done = 0;
    while done < key_len as usize {
        let count = PIECE.min(key_len as usize - done);
        let piece = &mut buf[..count];
        window.read(s, off + done as u64, piece)?;
        run.feed(piece);
        done += count;
    }
    Ok(run.end())
}

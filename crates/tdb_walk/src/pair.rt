// The key and the value of a live record.

ghost use Rattle.std.specs.Prelude.{◌≡◌, ◌+◌, ◌≤◌, ◌<◌, ◌^◌, ◌==◌, IsTrue, IfOk, List, ℕ, length, take, drop};
ghost use Rattle.tdb_disk.specs.Count.{HasCauseOf, RoseUpTo};
ghost use Rattle.tdb_words.specs.Record.{rec_at};
ghost use Rattle.tdb_space.specs.Frame.{Looked};
ghost use Rattle.tdb_space.specs.Record.{key_at, data_at};
ghost use Rattle.tdb_space.specs.Pairs.{home};
ghost use Rattle.tdb_locks.specs.declared.turn.Reply.TheVariants.{Pair};
ghost use Rattle.tdb_walk.specs.NextLive.{IsWithin};
ghost use Rattle.tdb_walk.specs.declared.refusal.WalkRefusal.TheVariants.{Io};

use crate::live::Live;
use crate::refusal::WalkRefusal;
use std::alloc::Global;
use tdb_locks::Reply;
use tdb_space::Space;
use tdb_words::{Bytes, chain_of, hash_of};

/// So many bytes of a file from an offset on, read at once into memory of their length.
fn bytes_at<S: Space>(alloc: Global, s: &mut S, off: u64, count: u32) -> Result<Bytes, WalkRefusal>
    requires within { off + count ≤ S.size s.old }
    ensures bytes { IfOk result (λ bytes. IsTrue S.tells → bytes ≡ take count (drop off (S.image s.old))) }
    ensures as_long { IfOk result (λ bytes. length bytes ≡ count) }
    ensures looked { Looked S.Space s.old s.new }
    ensures cause { HasCauseOf Io (S.faults s.old) (S.faults s.new) result }
    ensures bytes_read { RoseUpTo count (S.bytes_read s.old) (S.bytes_read s.new) }
{
    let mut bytes = vec![in alloc; 0u8; count as usize]?;
    s.read(off, bytes.as_mut_slice())?;
    Ok(Bytes::from(bytes))
}

/// The reply to a move that has come to a live record: its key and its value, each read at once. `Memory` where that is
/// wanting, and `Io` where the disk failed.
pub fn pair_at<S: Space>(alloc: Global, s: &mut S, live: &Live) -> Result<Reply, WalkRefusal>
    requires within { IsWithin (S.form s.old) (S.size s.old) live.now }
    ensures pair { IfOk result (λ reply. IsTrue S.tells → live.now.rec ≡ rec_at (S.form s.old).order (S.image s.old) live.now.off
        → reply ≡ Pair (key_at (S.form s.old).order (S.image s.old) live.now.off) (data_at (S.form s.old).order (S.image s.old) live.now.off)) }
    ensures shape { IfOk result (λ reply. (key : List ℕ) × (value : List ℕ) × (reply ≡ Pair key value) × (length key ≡ live.now.rec.key_len)) }
    ensures looked { Looked S.Space s.old s.new }
    ensures cause { HasCauseOf Io (S.faults s.old) (S.faults s.new) result }
    ensures bytes_read { RoseUpTo (live.now.rec.key_len + live.now.rec.data_len) (S.bytes_read s.old) (S.bytes_read s.new) }
{
    let off = live.off as u64 + 24;
    let key = bytes_at(alloc, s, off, live.rec.key_len)?;
    let value = bytes_at(alloc, s, off + live.rec.key_len as u64, live.rec.data_len)?;
    Ok(Reply::Pair(key, value))
}

/// The pair of a live record as the reply to a move, and its key once more.
pub(crate) fn pair_and_key<S: Space>(
    alloc: Global,
    s: &mut S,
    live: &Live,
) -> Result<(Reply, Bytes), WalkRefusal>
    requires within { IsWithin (S.form s.old) (S.size s.old) live.now }
    ensures pair { IfOk result (λ made. IsTrue S.tells → live.now.rec ≡ rec_at (S.form s.old).order (S.image s.old) live.now.off
        → made.0 ≡ Pair (key_at (S.form s.old).order (S.image s.old) live.now.off) (data_at (S.form s.old).order (S.image s.old) live.now.off)) }
    ensures key { IfOk result (λ made. (value : List ℕ) × (made.0 ≡ Pair made.1 value)) }
    ensures as_long { IfOk result (λ made. length made.1 ≡ live.now.rec.key_len) }
    ensures looked { Looked S.Space s.old s.new }
    ensures cause { HasCauseOf Io (S.faults s.old) (S.faults s.new) result }
    ensures bytes_read { S.bytes_read s.old ≤ S.bytes_read s.new }
{
    let reply = pair_at(alloc, s, live)?;
    let Reply::Pair(key, _) = &reply else {
        unreachable!();
    };
    let shown = Bytes::copy(alloc, key.as_slice())?;
    Ok((reply, shown))
}

/// Whether a key is filed in this chain. It takes a pass over the key.
pub(crate) fn is_filed<S: Space>(s: &S, chain: u32, key: &Bytes) -> bool
    requires short { length key.now < 2 ^ 32 }
    requires below { chain < (S.form s.now).chains }
    ensures { result ≡ (home (S.form s.now) key.now == chain) }
{
    chain_of(hash_of(s.hash(), key.as_slice()), s.hash_size()) == chain
}

// The turn of a command that only looks.

ghost use Rattle.std.specs.Prelude.{◌≡◌, ◌<◌, ◌≤◌, ◌^◌, ◌⊎◌, ℕ, List, IsTrue, length, IfOk, ◌+◌};
ghost use Rattle.tdb_disk.specs.Count.{HasCause, RoseUpTo};
ghost use Rattle.tdb_space.specs.Frame.{Looked};
ghost use Rattle.tdb_space.specs.Extents.{HandPair};
ghost use Rattle.tdb_space.specs.Accepted.{AcceptWith};
ghost use Rattle.tdb_space.specs.Pairs.{map_of};
ghost use Rattle.tdb_locks.specs.declared.turn.Reply.TheVariants as Reply;
ghost use Rattle.tdb_steps.specs.Asked.{fetched, is_there};
ghost use Rattle.tdb_steps.specs.Order.{IsYesOrNo, NotFull};
ghost use Rattle.tdb_chain.specs.Reads.{find_reads};
ghost use Rattle.tdb_steps.specs.Reads.{value_length};

use std::alloc::Global;
use tdb_chain::{ValueRefusal, find, value};
use tdb_locks::Reply;
use tdb_space::{Io, Space};

/// The value of a key. The reply is `Value`, `KeyMissing`, or `Memory` where memory for the value is wanting.
///
/// It reads the chain up to the key's record, and then the value at once.
pub(crate) fn fetch<S: Space>(alloc: Global, s: &mut S, key: &[u8]) -> Result<Reply, Io>
    requires short { length key.now < 2 ^ 32 }
    requires chains { 0 < (S.form s.old).chains }
    ensures told { IfOk result (λ reply. IsTrue S.tells → (hands : List HandPair) → AcceptWith (S.form s.old) (S.image s.old) hands
        → (reply ≡ Reply.Memory) ⊎ (reply ≡ fetched (map_of (S.form s.old) (S.image s.old) key.now))) }
    ensures order { IfOk result NotFull }
    ensures looked { Looked S.Space s.old s.new }
    ensures cause { HasCause (S.faults s.old) (S.faults s.new) result }
    ensures bytes_read { S.bytes_read s.old ≤ S.bytes_read s.new }
    ensures reads { IsTrue S.tells → (hands : List HandPair) → AcceptWith (S.form s.old) (S.image s.old) hands → RoseUpTo (find_reads (S.form s.old) (S.image s.old) key.now + value_length (S.form s.old) (S.image s.old) key.now) (S.bytes_read s.old) (S.bytes_read s.new) }
{
    let Some(place) = find(s, key)? else {
        return Ok(Reply::KeyMissing);
    };
    match value(alloc, s, &place) {
        Ok(bytes) => Ok(Reply::Value(bytes)),
        Err(ValueRefusal::Memory) => Ok(Reply::Memory),
        Err(ValueRefusal::Io) => Err(Io),
    }
}

/// Whether a key is there: `Yes` or `No`. It reads the chain up to the key's record.
pub(crate) fn has<S: Space>(s: &mut S, key: &[u8]) -> Result<Reply, Io>
    requires short { length key.now < 2 ^ 32 }
    requires chains { 0 < (S.form s.old).chains }
    ensures told { IfOk result (λ reply. IsTrue S.tells → (hands : List HandPair) → AcceptWith (S.form s.old) (S.image s.old) hands
        → reply ≡ is_there (map_of (S.form s.old) (S.image s.old) key.now)) }
    ensures says { IfOk result IsYesOrNo }
    ensures order { IfOk result NotFull }
    ensures looked { Looked S.Space s.old s.new }
    ensures cause { HasCause (S.faults s.old) (S.faults s.new) result }
    ensures bytes_read { S.bytes_read s.old ≤ S.bytes_read s.new }
    ensures reads { IsTrue S.tells → RoseUpTo (find_reads (S.form s.old) (S.image s.old) key.now) (S.bytes_read s.old) (S.bytes_read s.new) }
{
    match find(s, key)? {
        Some(_place) => Ok(Reply::Yes),
        None => Ok(Reply::No),
    }
}

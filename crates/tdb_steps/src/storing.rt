// The turns of a store.

ghost use Rattle.std.specs.Prelude.{◌≤◌, ◌<◌, ◌+◌, ◌^◌, IsTrue, IfOk, OnErr, length, List, None};
ghost use Rattle.tdb_disk.specs.Count.{HasCause};
ghost use Rattle.tdb_space.specs.Frame.{Looked, Wrote};
ghost use Rattle.tdb_space.specs.Extents.{HandPair};
ghost use Rattle.tdb_space.specs.Accepted.{AcceptWith};
ghost use Rattle.tdb_space.specs.NewRecord.{rec_len_for};
ghost use Rattle.tdb_steps.specs.Asked.{stores};
ghost use Rattle.tdb_steps.specs.Stages.{OfStore, Leads, IsIdle, CanCount};
ghost use Rattle.tdb_steps.specs.Turns.{Makes, Stops, StoresRightly};
ghost use Rattle.tdb_steps.specs.Order.{StoreOrder};
ghost use Rattle.tdb_steps.specs.Memory.{StarvesBounded};
ghost use Rattle.tdb_steps.specs.Reads.{TurnReads, costs_of};
ghost use Rattle.tdb_steps.specs.declared.plain.Plain.TheVariants.{Store};

use crate::flag::Flag;
use crate::giving::give_back;
use crate::linking::link_new;
use crate::looking::look_to_store;
use crate::stage::{Next, Stage};
use crate::taking::take_new;
use tdb_locks::{Reply, Spots};
use tdb_space::{Io, Space};

/// A turn of a store, in a file that may grow to `limit` bytes. The reply is `Ok`, `KeyThere` or `KeyMissing` as the
/// flag says, `Full` where no free record is long enough and the file can't grow, or `Memory` where that is wanting
/// before the first write, as it never is over a disk.
///
/// The first turn stands for the lock of the key's chain, the third for that of the free list, and the last lets go of
/// both: these make no call on the file. The second looks the key up; where the value fits into the record that is
/// there, it is written at once, and the command ends. The fourth takes a record from the free list. The fifth links it
/// with the new value, and takes the old record out, or marks it as dead where a cursor stands on it. The sixth, where
/// an old record was taken out, gives that back. `Io` where the disk failed: then the command is given up, with the
/// record that it held.
pub fn store_turn<S: Space>(
    stage: Stage,
    s: &mut S,
    key: &[u8],
    value: &[u8],
    flag: Flag,
    stood_on: &Spots,
    limit: u64,
) -> Result<Next, Io>
    requires key { length key.now < 2 ^ 32 }
    requires value { length value.now < 2 ^ 33 }
    requires chains { 0 < (S.form s.old).chains }
    requires limit { limit ≤ 4294963200 }
    requires stage { OfStore (length key.now + length value.now) stage (S.size s.old) (S.spare s.old) }
    ensures made { IfOk result (λ next. IsTrue S.tells → S.size s.old < 2 ^ 32 → Makes (S.form s.old) (S.image s.old) (S.image s.new) key.now (stores flag value.now) stage next) }
    ensures rightly { IfOk result (λ next. IsTrue S.tells → S.size s.old < 2 ^ 32
        → StoresRightly (S.form s.old) (S.image s.old) (S.image s.new) key.now (length value.now) (rec_len_for (length key.now) (length value.now)) limit stood_on.now stage next) }
    ensures order { IfOk result (StoreOrder stage) }
    ensures starves { IfOk result (StarvesBounded (S.spare s.old)) }
    ensures room { IfOk result (CanCount (S.spare s.new)) }
    ensures leads { IfOk result (Leads (λ then. OfStore (length key.now + length value.now) then (S.size s.new) (S.spare s.new))) }
    ensures stopped { OnErr result (IsTrue S.tells → S.size s.old < 2 ^ 32 → Stops (S.form s.old) (S.image s.old) (S.image s.new) key.now stage) }
    ensures idle { IsIdle stage → Looked S.Space s.old s.new }
    ensures longer { S.size s.old ≤ S.size s.new }
    ensures within { S.size s.old ≤ limit → S.size s.new ≤ limit }
    ensures wrote { Wrote S.Space s.old s.new }
    ensures cause { HasCause (S.faults s.old) (S.faults s.new) result }
    ensures bytes_read { S.bytes_read s.old ≤ S.bytes_read s.new }
    ensures reads { IsTrue S.tells → S.size s.old < 2 ^ 32 → (hands : List HandPair) → AcceptWith (S.form s.old) (S.image s.old) hands
        → TurnReads (costs_of (S.form s.old) (S.image s.old) (Store key.now value.now flag) None) 0 stage (S.bytes_read s.old) (S.bytes_read s.new) }
{
    match stage {
        Stage::Begun => Ok(Next::Step(Stage::Chained)),
        Stage::Chained => look_to_store(s, key, value, flag),
        Stage::Looked(found) => Ok(Next::Step(Stage::Listed(found))),
        Stage::Listed(found) => take_new(s, key.len(), value.len(), found, limit),
        Stage::Taken(found, hand) => link_new(s, key, value, found, hand, stood_on),
        Stage::Changed(hand) => give_back(s, hand),
        Stage::Wiping(_) => unreachable!(),
        Stage::Ending => Ok(Next::Done(Reply::Ok)),
    }
}

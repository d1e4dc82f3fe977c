// The turns of a delete.

ghost use Rattle.std.specs.Prelude.{◌≡◌, ◌≤◌, ◌<◌, ◌^◌, IsTrue, IfOk, OnErr, length, List, None};
ghost use Rattle.tdb_disk.specs.Count.{HasCause};
ghost use Rattle.tdb_space.specs.Frame.{Looked, Wrote};
ghost use Rattle.tdb_space.specs.Extents.{HandPair};
ghost use Rattle.tdb_space.specs.Accepted.{AcceptWith};
ghost use Rattle.tdb_steps.specs.Asked.{deletes};
ghost use Rattle.tdb_steps.specs.Stages.{OfDelete, Leads, IsIdle, CanCount};
ghost use Rattle.tdb_steps.specs.Turns.{Makes, Stops, DeletesRightly};
ghost use Rattle.tdb_steps.specs.Order.{DeleteOrder};
ghost use Rattle.tdb_steps.specs.Memory.{StarvesBounded};
ghost use Rattle.tdb_steps.specs.Reads.{TurnReads, costs_of};
ghost use Rattle.tdb_steps.specs.declared.plain.Plain.TheVariants.{Delete};

use crate::giving::give_back;
use crate::looking::look_to_delete;
use crate::stage::{Next, Stage};
use crate::unlinking::unlink_found;
use tdb_locks::{Reply, Spots};
use tdb_space::{Io, Space};

/// A turn of a delete. The reply is `Ok`, `KeyMissing`, or `Memory` where that is wanting before the first write, as
/// it never is over a disk.
///
/// The first turn stands for the lock of the key's chain, the third for that of the free list, and the last lets go of
/// both: these make no call on the file. The second looks the key up, and marks its record as dead where a cursor
/// stands on it: that ends the command. The fourth takes the record out of its chain, and the fifth gives it to the
/// free list. `Io` where the disk failed: then the command is given up, with the record that it held.
pub fn delete_turn<S: Space>(
    stage: Stage,
    s: &mut S,
    key: &[u8],
    stood_on: &Spots,
) -> Result<Next, Io>
    requires key { length key.now < 2 ^ 32 }
    requires chains { 0 < (S.form s.old).chains }
    requires stage { OfDelete stage (S.size s.old) (S.spare s.old) }
    ensures made { IfOk result (λ next. IsTrue S.tells → S.size s.old < 2 ^ 32 → Makes (S.form s.old) (S.image s.old) (S.image s.new) key.now deletes stage next) }
    ensures rightly { IfOk result (λ next. IsTrue S.tells → S.size s.old < 2 ^ 32 → DeletesRightly (S.form s.old) (S.image s.old) (S.image s.new) key.now stood_on.now stage next) }
    ensures order { IfOk result (DeleteOrder stage) }
    ensures starves { IfOk result (StarvesBounded (S.spare s.old)) }
    ensures room { IfOk result (CanCount (S.spare s.new)) }
    ensures leads { IfOk result (Leads (λ then. OfDelete then (S.size s.new) (S.spare s.new))) }
    ensures stopped { OnErr result (IsTrue S.tells → S.size s.old < 2 ^ 32 → Stops (S.form s.old) (S.image s.old) (S.image s.new) key.now stage) }
    ensures idle { IsIdle stage → Looked S.Space s.old s.new }
    ensures size { S.size s.new ≡ S.size s.old }
    ensures wrote { Wrote S.Space s.old s.new }
    ensures cause { HasCause (S.faults s.old) (S.faults s.new) result }
    ensures bytes_read { S.bytes_read s.old ≤ S.bytes_read s.new }
    ensures reads { IsTrue S.tells → S.size s.old < 2 ^ 32 → (hands : List HandPair) → AcceptWith (S.form s.old) (S.image s.old) hands
        → TurnReads (costs_of (S.form s.old) (S.image s.old) (Delete key.now) None) 0 stage (S.bytes_read s.old) (S.bytes_read s.new) }
{
    match stage {
        Stage::Begun => Ok(Next::Step(Stage::Chained)),
        Stage::Chained => look_to_delete(s, key, stood_on),
        Stage::Looked(found) => Ok(Next::Step(Stage::Listed(found))),
        Stage::Listed(found) => match found {
            Some(place) => unlink_found(s, place),
            None => unreachable!(),
        },
        Stage::Taken(_found, hand) => {
            hand.end();
            unreachable!()
        }
        Stage::Changed(hand) => give_back(s, hand),
        Stage::Wiping(_) => unreachable!(),
        Stage::Ending => Ok(Next::Done(Reply::Ok)),
    }
}

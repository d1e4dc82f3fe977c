// The turn that takes a record from the free list for the value of a key.

ghost use Rattle.std.specs.Prelude.{◌≡◌, ◌≤◌, ◌<◌, ◌+◌, ◌^◌, ℕ, List, [], IsTrue, IfOk, IfSome, OnErr};
ghost use Rattle.tdb_disk.specs.Count.{HasCause, RoseUpTo};
ghost use Rattle.tdb_space.specs.Frame.{Wrote};
ghost use Rattle.tdb_space.specs.Chain.{free_of};
ghost use Rattle.tdb_space.specs.Extents.{HandPair};
ghost use Rattle.tdb_space.specs.Accepted.{AcceptWith};
ghost use Rattle.tdb_space.specs.NewRecord.{rec_len_for};
ghost use Rattle.tdb_chain.specs.Place.{StandsWithin};
ghost use Rattle.tdb_free.specs.FreeList.{free_pairs};
ghost use Rattle.tdb_free.specs.Reads.{take_reads};
ghost use Rattle.tdb_steps.specs.Asked.{Asked};
ghost use Rattle.tdb_steps.specs.Stages.{OfStore, Leads};
ghost use Rattle.tdb_steps.specs.Turns.{Makes, TurnStopped, TakesRightly};
ghost use Rattle.tdb_steps.specs.Order.{TakesOn};
ghost use Rattle.tdb_steps.specs.Memory.{StarvesBounded};
ghost use Rattle.tdb_steps.specs.declared.stage.Stage.TheVariants as Stage;

use crate::stage::{Next, Stage};
use tdb_chain::Place;
use tdb_free::{FreeRefusal, take};
use tdb_locks::Reply;
use tdb_space::{Io, Space, rec_len_for};

/// Takes a record for a key and a value of these lengths from the free list, where the file may grow up to a limit.
///
/// Before, it makes room for all that the command still has to write; the reply is `Memory` where that is wanting, as
/// it never is over a disk, and then nothing is written. The reply is `Full` where no free record is long enough and
/// the file can't grow.
pub(crate) fn take_new<S: Space>(
    s: &mut S,
    key_len: usize,
    value_len: usize,
    found: Option<Place>,
    limit: u64,
) -> Result<Next, Io>
    requires key { key_len < 2 ^ 32 }
    requires value { value_len < 2 ^ 33 }
    requires limit { limit ≤ 4294963200 }
    requires within { IfSome found (λ place. StandsWithin place (S.size s.old)) }
    ensures made { IfOk result (λ next. IsTrue S.tells → S.size s.old < 2 ^ 32 → (key : List ℕ) (asked : Asked)
        → Makes (S.form s.old) (S.image s.old) (S.image s.new) key asked (Stage.Listed found) next) }
    ensures rightly { IfOk result (λ next. IsTrue S.tells → S.size s.old < 2 ^ 32
        → TakesRightly (S.form s.old) (S.image s.old) (S.image s.new) (rec_len_for key_len value_len) limit found next) }
    ensures order { IfOk result TakesOn }
    ensures starves { IfOk result (StarvesBounded (S.spare s.old)) }
    ensures leads { IfOk result (Leads (λ stage. OfStore (key_len + value_len) stage (S.size s.new) (S.spare s.new))) }
    ensures stopped { OnErr result (IsTrue S.tells → S.size s.old < 2 ^ 32 → (key : List ℕ) (others : List HandPair) → AcceptWith (S.form s.old) (S.image s.old) others
        → TurnStopped (S.form s.old) (S.image s.old) (S.image s.new) key []) }
    ensures longer { S.size s.old ≤ S.size s.new }
    ensures within { S.size s.old ≤ limit → S.size s.new ≤ limit }
    ensures wrote { Wrote S.Space s.old s.new }
    ensures cause { HasCause (S.faults s.old) (S.faults s.new) result }
    ensures bytes_read { S.bytes_read s.old ≤ S.bytes_read s.new }
    ensures reads { IsTrue S.tells → S.size s.old < 2 ^ 32 → (hands : List HandPair) → AcceptWith (S.form s.old) (S.image s.old) hands
        → RoseUpTo (take_reads (rec_len_for key_len value_len) (free_pairs (S.form s.old) (S.image s.old) (free_of (S.form s.old) (S.image s.old)))) (S.bytes_read s.old) (S.bytes_read s.new) }
{
    let rec_len = rec_len_for(key_len as u64, value_len as u64);
    let writes = (24 + rec_len / 4096) as u32;
    let Ok(()) = s.ready(writes, 256 + rec_len) else {
        return Ok(Next::Done(Reply::Memory));
    };
    match take(s, rec_len, limit) {
        Ok(hand) => Ok(Next::Step(Stage::Taken(found, hand))),
        Err(FreeRefusal::Full { len, need }) => Ok(Next::Done(Reply::Full { len, need })),
        Err(FreeRefusal::Io) => Err(Io),
    }
}

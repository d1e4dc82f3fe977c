// The turns of a command that only looks.

ghost use Rattle.std.specs.Prelude.{◌≡◌, ◌≤◌, ◌<◌, ◌^◌, IsTrue, IfOk, length, List, None};
ghost use Rattle.tdb_disk.specs.Count.{HasCause};
ghost use Rattle.tdb_space.specs.Frame.{Looked};
ghost use Rattle.tdb_steps.specs.Asked.{fetches, asks};
ghost use Rattle.tdb_steps.specs.Stages.{OfLook, Leads};
ghost use Rattle.tdb_steps.specs.Turns.{Makes, LooksRightly};
ghost use Rattle.tdb_steps.specs.Order.{AnswersHas, LookOrder};
ghost use Rattle.tdb_space.specs.Extents.{HandPair};
ghost use Rattle.tdb_space.specs.Accepted.{AcceptWith};
ghost use Rattle.tdb_steps.specs.Reads.{TurnReads, costs_of};
ghost use Rattle.tdb_steps.specs.declared.plain.Plain.TheVariants.{Fetch, Has};

use crate::look::{fetch, has};
use crate::stage::{Next, Stage};
use std::alloc::Global;
use tdb_space::{Io, Space};

/// A turn of a fetch: the first stands for the lock of the key's chain, and makes no call on the file; the second
/// looks, and ends.
pub fn fetch_turn<S: Space>(alloc: Global, stage: Stage, s: &mut S, key: &[u8]) -> Result<Next, Io>
    requires key { length key.now < 2 ^ 32 }
    requires chains { 0 < (S.form s.old).chains }
    requires stage { OfLook stage }
    ensures made { IfOk result (λ next. IsTrue S.tells → Makes (S.form s.old) (S.image s.old) (S.image s.new) key.now fetches stage next) }
    ensures rightly { IfOk result (LooksRightly stage) }
    ensures order { IfOk result (LookOrder stage) }
    ensures leads { IfOk result (Leads OfLook) }
    ensures looked { Looked S.Space s.old s.new }
    ensures cause { HasCause (S.faults s.old) (S.faults s.new) result }
    ensures bytes_read { S.bytes_read s.old ≤ S.bytes_read s.new }
    ensures reads { IsTrue S.tells → S.size s.old < 2 ^ 32 → (hands : List HandPair) → AcceptWith (S.form s.old) (S.image s.old) hands
        → TurnReads (costs_of (S.form s.old) (S.image s.old) (Fetch key.now) None) 0 stage (S.bytes_read s.old) (S.bytes_read s.new) }
{
    match stage {
        Stage::Begun => Ok(Next::Step(Stage::Chained)),
        Stage::Chained => Ok(Next::Done(fetch(alloc, s, key)?)),
        Stage::Looked(_) | Stage::Listed(_) | Stage::Wiping(_) | Stage::Ending => unreachable!(),
        Stage::Taken(_, hand) | Stage::Changed(hand) => {
            hand.end();
            unreachable!()
        }
    }
}

/// A turn of the question whether a key is there: as those of a fetch, but that no value is read and no memory taken.
/// So it ends with `Yes` or `No`, whatever the bytes of the file are.
pub fn has_turn<S: Space>(stage: Stage, s: &mut S, key: &[u8]) -> Result<Next, Io>
    requires key { length key.now < 2 ^ 32 }
    requires chains { 0 < (S.form s.old).chains }
    requires stage { OfLook stage }
    ensures made { IfOk result (λ next. IsTrue S.tells → Makes (S.form s.old) (S.image s.old) (S.image s.new) key.now asks stage next) }
    ensures rightly { IfOk result (LooksRightly stage) }
    ensures says { IfOk result AnswersHas }
    ensures order { IfOk result (LookOrder stage) }
    ensures leads { IfOk result (Leads OfLook) }
    ensures looked { Looked S.Space s.old s.new }
    ensures cause { HasCause (S.faults s.old) (S.faults s.new) result }
    ensures bytes_read { S.bytes_read s.old ≤ S.bytes_read s.new }
    ensures reads { IsTrue S.tells → S.size s.old < 2 ^ 32 → (hands : List HandPair) → AcceptWith (S.form s.old) (S.image s.old) hands
        → TurnReads (costs_of (S.form s.old) (S.image s.old) (Has key.now) None) 0 stage (S.bytes_read s.old) (S.bytes_read s.new) }
{
    match stage {
        Stage::Begun => Ok(Next::Step(Stage::Chained)),
        Stage::Chained => Ok(Next::Done(has(s, key)?)),
        Stage::Looked(_) | Stage::Listed(_) | Stage::Wiping(_) | Stage::Ending => unreachable!(),
        Stage::Taken(_, hand) | Stage::Changed(hand) => {
            hand.end();
            unreachable!()
        }
    }
}

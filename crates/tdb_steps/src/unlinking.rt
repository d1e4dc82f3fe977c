// The turn of a delete that takes the record of a key out of its chain.

ghost use Rattle.std.specs.Prelude.{◌≡◌, ◌≤◌, ◌⊎◌, ℕ, List, [], IsTrue, IfOk, OnErr, Some};
ghost use Rattle.tdb_disk.specs.Count.{HasCause, RoseUpTo};
ghost use Rattle.tdb_space.specs.Frame.{Wrote};
ghost use Rattle.tdb_space.specs.Extents.{HandPair};
ghost use Rattle.tdb_space.specs.Accepted.{AcceptWith};
ghost use Rattle.tdb_chain.specs.Place.{StandsWithin, HoldsKey};
ghost use Rattle.tdb_chain.specs.Changed.{hand_at};
ghost use Rattle.tdb_chain.specs.Reads.{write_reads};
ghost use Rattle.tdb_locks.specs.declared.turn.Reply.TheVariants as Reply;
ghost use Rattle.tdb_steps.specs.Asked.{deletes};
ghost use Rattle.tdb_steps.specs.Stages.{OfDelete, Leads};
ghost use Rattle.tdb_steps.specs.Turns.{Makes, TurnStopped};
ghost use Rattle.tdb_steps.specs.Memory.{StarvesBounded};
ghost use Rattle.tdb_steps.specs.declared.stage.Stage.TheVariants as Stage;
ghost use Rattle.tdb_steps.specs.declared.stage.Next.TheVariants as Next;

use crate::stage::{Next, Stage};
use tdb_chain::{Place, unlink};
use tdb_locks::Reply;
use tdb_space::{Io, Space};

/// Takes the record that was found out of its chain. It has to be given back then.
///
/// Before, it makes room for that too; the reply is `Memory` where that is wanting, as it never is over a disk, and
/// then nothing is written.
pub(crate) fn unlink_found<S: Space>(s: &mut S, place: Place) -> Result<Next, Io>
    requires within { StandsWithin place (S.size s.old) }
    ensures made { IfOk result (λ next. IsTrue S.tells → (key : List ℕ)
        → Makes (S.form s.old) (S.image s.old) (S.image s.new) key deletes (Stage.Listed (Some place)) next) }
    ensures starves { IfOk result (StarvesBounded (S.spare s.old)) }
    ensures changed { IfOk result (λ next. (next ≡ Next.Done Reply.Memory) ⊎ (next ≡ Next.Step (Stage.Changed (hand_at place)))) }
    ensures leads { IfOk result (Leads (λ stage. OfDelete stage (S.size s.new) (S.spare s.new))) }
    ensures stopped { OnErr result (IsTrue S.tells → (key : List ℕ) (others : List HandPair) → AcceptWith (S.form s.old) (S.image s.old) others → HoldsKey (S.form s.old) (S.image s.old) key place
        → TurnStopped (S.form s.old) (S.image s.old) (S.image s.new) key []) }
    ensures size { S.size s.new ≡ S.size s.old }
    ensures wrote { Wrote S.Space s.old s.new }
    ensures cause { HasCause (S.faults s.old) (S.faults s.new) result }
    ensures bytes_read { RoseUpTo (write_reads 1 4) (S.bytes_read s.old) (S.bytes_read s.new) }
{
    let Ok(()) = s.ready(7, 48) else {
        return Ok(Next::Done(Reply::Memory));
    };
    let hand = unlink(s, place)?;
    Ok(Next::Step(Stage::Changed(hand)))
}

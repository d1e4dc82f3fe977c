// The turn that gives the old record of a key to the free list.

ghost use Rattle.std.specs.Prelude.{◌≡◌, ◌≤◌, ◌<◌, ◌^◌, ℕ, List, [], ◌∷◌, IsTrue, IfOk, OnOk, OnErr, length};
ghost use Rattle.tdb_disk.specs.Count.{HasCause, RoseUpTo};
ghost use Rattle.tdb_space.specs.Frame.{Wrote};
ghost use Rattle.tdb_space.specs.Chain.{free_of};
ghost use Rattle.tdb_space.specs.Extents.{HandPair};
ghost use Rattle.tdb_space.specs.Accepted.{AcceptWith};
ghost use Rattle.tdb_space.specs.Spare.{RoomForAll};
ghost use Rattle.tdb_free.specs.Reads.{give_reads};
ghost use Rattle.tdb_steps.specs.Asked.{Asked};
ghost use Rattle.tdb_steps.specs.Turns.{Makes, TurnStopped, GivesRightly};
ghost use Rattle.tdb_steps.specs.declared.stage.Stage.TheVariants as Stage;
ghost use Rattle.tdb_steps.specs.declared.stage.Next.TheVariants as Next;

use crate::stage::{Next, Stage};
use tdb_free::give;
use tdb_space::{Hand, Io, Space};

/// Gives the old record back. The command has at most the sequence number to write then.
pub(crate) fn give_back<S: Space>(s: &mut S, hand: Hand) -> Result<Next, Io>
    requires room { RoomForAll (S.spare s.old) 6 44 }
    ensures made { IfOk result (λ next. IsTrue S.tells → S.size s.old < 2 ^ 32 → (key : List ℕ) (asked : Asked)
        → Makes (S.form s.old) (S.image s.old) (S.image s.new) key asked (Stage.Changed hand) next) }
    ensures rightly { IfOk result (λ next. IsTrue S.tells → S.size s.old < 2 ^ 32 → GivesRightly (S.form s.old) (S.image s.old) (S.image s.new) hand next) }
    ensures room { OnOk result (RoomForAll (S.spare s.new) 1 4) }
    ensures ending { IfOk result (λ next. next ≡ Next.Step Stage.Ending) }
    ensures stopped { OnErr result (IsTrue S.tells → S.size s.old < 2 ^ 32 → (key : List ℕ) (others : List HandPair) → AcceptWith (S.form s.old) (S.image s.old) (hand ∷ others)
        → TurnStopped (S.form s.old) (S.image s.old) (S.image s.new) key (hand ∷ [])) }
    ensures size { S.size s.new ≡ S.size s.old }
    ensures wrote { Wrote S.Space s.old s.new }
    ensures cause { HasCause (S.faults s.old) (S.faults s.new) result }
    ensures bytes_read { S.bytes_read s.old ≤ S.bytes_read s.new }
    ensures reads { IsTrue S.tells → (hands : List HandPair) → AcceptWith (S.form s.old) (S.image s.old) hands
        → RoseUpTo (give_reads (length (free_of (S.form s.old) (S.image s.old)))) (S.bytes_read s.old) (S.bytes_read s.new) }
{
    match give(s, hand) {
        Ok(()) => Ok(Next::Step(Stage::Ending)),
        Err(_fault) => Err(Io),
    }
}

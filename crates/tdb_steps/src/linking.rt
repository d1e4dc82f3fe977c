// The turn of a store that links the new record and takes the old one out.

ghost use Rattle.std.specs.Prelude.{◌≡◌, ◌≤◌, ◌<◌, ◌+◌, ◌/◌, ◌^◌, ℕ, List, [], ◌∷◌, IsTrue, IfOk, IfSome, OnErr, Some, length};
ghost use Rattle.tdb_disk.specs.Count.{HasCause, RoseUpTo};
ghost use Rattle.tdb_space.specs.Frame.{Wrote};
ghost use Rattle.tdb_space.specs.Spare.{RoomForAll};
ghost use Rattle.tdb_space.specs.Extents.{HandPair};
ghost use Rattle.tdb_space.specs.Accepted.{AcceptWith};
ghost use Rattle.tdb_chain.specs.Place.{StandsWithin, HoldsKey, IsFound};
ghost use Rattle.tdb_steps.specs.Asked.{stores};
ghost use Rattle.tdb_steps.specs.Stages.{CanLink, OfStore, Leads};
ghost use Rattle.tdb_steps.specs.Turns.{Makes, TurnStopped, LinkedOver, LinksRightly};
ghost use Rattle.tdb_steps.specs.Order.{LinksOn};
ghost use Rattle.tdb_steps.specs.declared.flag.Flag.{Flag};
ghost use Rattle.tdb_steps.specs.declared.stage.Stage.TheVariants as Stage;
ghost use Rattle.tdb_steps.specs.declared.stage.Next.TheVariants as Next;
ghost use Rattle.tdb_chain.specs.Reads.{write_reads};
ghost use Rattle.tdb_steps.specs.Reads.{link_reads};

use crate::stage::{Next, Stage};
use tdb_chain::{Place, link, mark_dead};
use tdb_locks::Spots;
use tdb_space::{Hand, Io, Space};

/// Links the new record, and takes the old one out where there is one. That has to be given back then.
fn link_over<S: Space>(
    s: &mut S,
    key: &[u8],
    value: &[u8],
    over: Option<Place>,
    hand: Hand,
) -> Result<Next, Io>
    requires chains { 0 < (S.form s.old).chains }
    requires within { IfSome over (λ place. StandsWithin place (S.size s.old)) }
    requires fits { length key.now + length value.now + 4 ≤ hand.1 }
    requires room { RoomForAll (S.spare s.old) (12 + hand.1 / 4096) (76 + hand.1) }
    ensures made { IfOk result (λ next. IsTrue S.tells → S.size s.old < 2 ^ 32 → (flag : Flag)
        → Makes (S.form s.old) (S.image s.old) (S.image s.new) key.now (stores flag value.now) (Stage.Taken over hand) next) }
    ensures rightly { IfOk result (λ next. IsTrue S.tells → S.size s.old < 2 ^ 32
        → LinkedOver (S.form s.old) (S.image s.old) hand over next) }
    ensures order { IfOk result LinksOn }
    ensures leads { IfOk result (Leads (λ stage. OfStore (length key.now + length value.now) stage (S.size s.new) (S.spare s.new))) }
    ensures stopped { OnErr result (IsTrue S.tells → S.size s.old < 2 ^ 32 → (others : List HandPair) → AcceptWith (S.form s.old) (S.image s.old) (hand ∷ others)
        → IsFound (S.form s.old) (S.image s.old) key.now over → TurnStopped (S.form s.old) (S.image s.old) (S.image s.new) key.now (hand ∷ [])) }
    ensures size { S.size s.new ≡ S.size s.old }
    ensures wrote { Wrote S.Space s.old s.new }
    ensures cause { HasCause (S.faults s.old) (S.faults s.new) result }
    ensures bytes_read { RoseUpTo (4 + write_reads (6 + hand.1 / 4096) (32 + hand.1)) (S.bytes_read s.old) (S.bytes_read s.new) }
{
    match link(s, hand, key, value, over)? {
        Some(old) => Ok(Next::Step(Stage::Changed(old))),
        None => Ok(Next::Step(Stage::Ending)),
    }
}

/// Marks the old record as dead, and links the new one. Nothing has to be given back.
fn link_beside<S: Space>(
    s: &mut S,
    key: &[u8],
    value: &[u8],
    old: Place,
    hand: Hand,
) -> Result<Next, Io>
    requires chains { 0 < (S.form s.old).chains }
    requires can { CanLink (Some old) hand (S.size s.old) (length key.now + length value.now) (S.spare s.old) }
    ensures made { IfOk result (λ next. IsTrue S.tells → S.size s.old < 2 ^ 32 → (flag : Flag)
        → Makes (S.form s.old) (S.image s.old) (S.image s.new) key.now (stores flag value.now) (Stage.Taken (Some old) hand) next) }
    ensures ending { IfOk result (λ next. IsTrue S.tells → S.size s.old < 2 ^ 32 → (key : List ℕ) (others : List HandPair) → AcceptWith (S.form s.old) (S.image s.old) (hand ∷ others)
        → HoldsKey (S.form s.old) (S.image s.old) key old → next ≡ Next.Step Stage.Ending) }
    ensures order { IfOk result LinksOn }
    ensures leads { IfOk result (Leads (λ stage. OfStore (length key.now + length value.now) stage (S.size s.new) (S.spare s.new))) }
    ensures stopped { OnErr result (IsTrue S.tells → S.size s.old < 2 ^ 32 → (others : List HandPair) → AcceptWith (S.form s.old) (S.image s.old) (hand ∷ others)
        → HoldsKey (S.form s.old) (S.image s.old) key.now old → TurnStopped (S.form s.old) (S.image s.old) (S.image s.new) key.now (hand ∷ [])) }
    ensures size { S.size s.new ≡ S.size s.old }
    ensures wrote { Wrote S.Space s.old s.new }
    ensures cause { HasCause (S.faults s.old) (S.faults s.new) result }
    ensures bytes_read { RoseUpTo (link_reads hand) (S.bytes_read s.old) (S.bytes_read s.new) }
{
    if let Err(fault) = mark_dead(s, &old) {
        hand.end();
        return Err(fault);
    }
    link_over(s, key, value, None, hand)
}

/// Links the new record. Where no cursor stands on the old one, that is taken out, and has to be given back; else it is
/// marked as dead.
pub(crate) fn link_new<S: Space>(
    s: &mut S,
    key: &[u8],
    value: &[u8],
    found: Option<Place>,
    hand: Hand,
    stood_on: &Spots,
) -> Result<Next, Io>
    requires chains { 0 < (S.form s.old).chains }
    requires can { CanLink found hand (S.size s.old) (length key.now + length value.now) (S.spare s.old) }
    ensures made { IfOk result (λ next. IsTrue S.tells → S.size s.old < 2 ^ 32 → (flag : Flag)
        → Makes (S.form s.old) (S.image s.old) (S.image s.new) key.now (stores flag value.now) (Stage.Taken found hand) next) }
    ensures rightly { IfOk result (λ next. IsTrue S.tells → S.size s.old < 2 ^ 32 → LinksRightly (S.form s.old) (S.image s.old) hand stood_on.now found next) }
    ensures order { IfOk result LinksOn }
    ensures leads { IfOk result (Leads (λ stage. OfStore (length key.now + length value.now) stage (S.size s.new) (S.spare s.new))) }
    ensures stopped { OnErr result (IsTrue S.tells → S.size s.old < 2 ^ 32 → (others : List HandPair) → AcceptWith (S.form s.old) (S.image s.old) (hand ∷ others)
        → IsFound (S.form s.old) (S.image s.old) key.now found → TurnStopped (S.form s.old) (S.image s.old) (S.image s.new) key.now (hand ∷ [])) }
    ensures size { S.size s.new ≡ S.size s.old }
    ensures wrote { Wrote S.Space s.old s.new }
    ensures cause { HasCause (S.faults s.old) (S.faults s.new) result }
    ensures bytes_read { RoseUpTo (link_reads hand) (S.bytes_read s.old) (S.bytes_read s.new) }
{
    match found {
        Some(old) => {
            if stood_on.has(old.off) {
                link_beside(s, key, value, old, hand)
            } else {
                link_over(s, key, value, found, hand)
            }
        }
        None => link_over(s, key, value, found, hand),
    }
}

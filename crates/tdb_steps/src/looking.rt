// The turns of changing commands that look a key up.

ghost use Rattle.std.specs.Prelude.{◌≡◌, ◌≤◌, ◌<◌, ◌+◌, ◌++◌, ◌^◌, ℕ, List, [], IsTrue, IfOk, IfSome, OnErr, Some, length};
ghost use Rattle.tdb_disk.specs.Count.{HasCause, RoseUpTo};
ghost use Rattle.tdb_space.specs.Frame.{Wrote};
ghost use Rattle.tdb_space.specs.Extents.{HandPair};
ghost use Rattle.tdb_space.specs.Accepted.{AcceptWith};
ghost use Rattle.tdb_chain.specs.Place.{StandsWithin, HoldsKey};
ghost use Rattle.tdb_steps.specs.Asked.{stores, deletes};
ghost use Rattle.tdb_steps.specs.Stages.{IsKnown, OfStore, OfDelete, Leads, IsEnd, CanCount};
ghost use Rattle.tdb_steps.specs.Turns.{Makes, TurnMade, TurnStopped, UpdatesRightly, MarksRightly, Finds};
ghost use Rattle.tdb_steps.specs.Order.{LooksOn};
ghost use Rattle.tdb_steps.specs.Memory.{StarvesBounded};
ghost use Rattle.tdb_steps.specs.declared.flag.Flag.{Flag};
ghost use Rattle.tdb_steps.specs.declared.stage.Stage.TheVariants as Stage;
ghost use Rattle.tdb_chain.specs.Reads.{find_reads, write_reads};

use crate::flag::Flag;
use crate::stage::{Next, Stage};
use tdb_chain::{Place, find, mark_dead, update_in_place};
use tdb_locks::{Reply, Spots};
use tdb_space::{Io, Space};

/// Updates the record that was found where it stands, where the value fits; else the command goes on.
pub(crate) fn update_found<S: Space>(s: &mut S, place: Place, value: &[u8]) -> Result<Next, Io>
    requires value { length value.now < 2 ^ 33 }
    requires within { StandsWithin place (S.size s.old) }
    ensures made { IfOk result (λ next. IsTrue S.tells → (key : List ℕ) (flag : Flag) (others : List HandPair) → AcceptWith (S.form s.old) (S.image s.old) others
        → IsKnown (S.form s.old) (S.image s.old) key (stores flag value.now) (Some place)
        → TurnMade (S.form s.old) (S.image s.old) (S.image s.new) key (stores flag value.now) Stage.Chained next others) }
    ensures rightly { IfOk result (UpdatesRightly (S.image s.old) (S.image s.new) (length value.now) (Some place)) }
    ensures order { IfOk result LooksOn }
    ensures starves { IfOk result (StarvesBounded (S.spare s.old)) }
    ensures room { IfOk result (CanCount (S.spare s.new)) }
    ensures leads { (n : ℕ) → IfOk result (Leads (λ stage. OfStore n stage (S.size s.new) (S.spare s.new))) }
    ensures stopped { OnErr result (IsTrue S.tells → (key : List ℕ) (others : List HandPair) → AcceptWith (S.form s.old) (S.image s.old) others → HoldsKey (S.form s.old) (S.image s.old) key place
        → TurnStopped (S.form s.old) (S.image s.old) (S.image s.new) key []) }
    ensures size { S.size s.new ≡ S.size s.old }
    ensures wrote { Wrote S.Space s.old s.new }
    ensures cause { HasCause (S.faults s.old) (S.faults s.new) result }
    ensures bytes_read { RoseUpTo (write_reads 2 (4 + length value.now)) (S.bytes_read s.old) (S.bytes_read s.new) }
{
    let need = place.rec.key_len as u64 + value.len() as u64 + 4;
    if need > place.rec.rec_len as u64 {
        return Ok(Next::Step(Stage::Looked(Some(place))));
    }
    let Ok(()) = s.ready(3, 8 + value.len() as u64) else {
        return Ok(Next::Done(Reply::Memory));
    };
    update_in_place(s, &place, value)?;
    Ok(Next::Done(Reply::Ok))
}

/// Marks the record that was found as dead.
fn mark_found<S: Space>(s: &mut S, place: Place) -> Result<Next, Io>
    requires within { StandsWithin place (S.size s.old) }
    ensures made { IfOk result (λ next. IsTrue S.tells → (key : List ℕ) (others : List HandPair) → AcceptWith (S.form s.old) (S.image s.old) others
        → IsKnown (S.form s.old) (S.image s.old) key deletes (Some place)
        → TurnMade (S.form s.old) (S.image s.old) (S.image s.new) key deletes Stage.Chained next others) }
    ensures done { IfOk result IsEnd }
    ensures order { IfOk result LooksOn }
    ensures starves { IfOk result (StarvesBounded (S.spare s.old)) }
    ensures room { IfOk result (CanCount (S.spare s.new)) }
    ensures stopped { OnErr result (IsTrue S.tells → (key : List ℕ) (others : List HandPair) → AcceptWith (S.form s.old) (S.image s.old) others → HoldsKey (S.form s.old) (S.image s.old) key place
        → TurnStopped (S.form s.old) (S.image s.old) (S.image s.new) key []) }
    ensures size { S.size s.new ≡ S.size s.old }
    ensures wrote { Wrote S.Space s.old s.new }
    ensures cause { HasCause (S.faults s.old) (S.faults s.new) result }
    ensures bytes_read { RoseUpTo (write_reads 1 4) (S.bytes_read s.old) (S.bytes_read s.new) }
{
    let Ok(()) = s.ready(2, 8) else {
        return Ok(Next::Done(Reply::Memory));
    };
    mark_dead(s, &place)?;
    Ok(Next::Done(Reply::Ok))
}

/// Looks up the key of a store. The reply is `KeyThere` or `KeyMissing` where its flag refuses the key. Where the value
/// fits into the record that is there, it is written at once.
pub(crate) fn look_to_store<S: Space>(
    s: &mut S,
    key: &[u8],
    value: &[u8],
    flag: Flag,
) -> Result<Next, Io>
    requires key { length key.now < 2 ^ 32 }
    requires value { length value.now < 2 ^ 33 }
    requires chains { 0 < (S.form s.old).chains }
    ensures made { IfOk result (λ next. IsTrue S.tells → Makes (S.form s.old) (S.image s.old) (S.image s.new) key.now (stores flag value.now) Stage.Chained next) }
    ensures rightly { IfOk result (λ next. IsTrue S.tells → Finds (S.form s.old) (S.image s.old) key.now (λ place. UpdatesRightly (S.image s.old) (S.image s.new) (length value.now) place next)) }
    ensures order { IfOk result LooksOn }
    ensures starves { IfOk result (StarvesBounded (S.spare s.old)) }
    ensures room { IfOk result (CanCount (S.spare s.new)) }
    ensures leads { (n : ℕ) → IfOk result (Leads (λ stage. OfStore n stage (S.size s.new) (S.spare s.new))) }
    ensures stopped { OnErr result (IsTrue S.tells → (others : List HandPair) → AcceptWith (S.form s.old) (S.image s.old) others → TurnStopped (S.form s.old) (S.image s.old) (S.image s.new) key.now []) }
    ensures size { S.size s.new ≡ S.size s.old }
    ensures wrote { Wrote S.Space s.old s.new }
    ensures cause { HasCause (S.faults s.old) (S.faults s.new) result }
    ensures bytes_read { S.bytes_read s.old ≤ S.bytes_read s.new }
    ensures reads { IsTrue S.tells → RoseUpTo (find_reads (S.form s.old) (S.image s.old) key.now + write_reads 2 (4 + length value.now)) (S.bytes_read s.old) (S.bytes_read s.new) }
{
    let Some(place) = find(s, key)? else {
        if flag == Flag::Modify {
            return Ok(Next::Done(Reply::KeyMissing));
        }
        return Ok(Next::Step(Stage::Looked(None)));
    };
    if flag == Flag::Insert {
        return Ok(Next::Done(Reply::KeyThere));
    }
    update_found(s, place, value)
}

/// Looks up the key of a delete. The reply is `KeyMissing` where it isn't there. Where a cursor stands on its record,
/// that is marked as dead at once.
pub(crate) fn look_to_delete<S: Space>(s: &mut S, key: &[u8], stood_on: &Spots) -> Result<Next, Io>
    requires key { length key.now < 2 ^ 32 }
    requires chains { 0 < (S.form s.old).chains }
    ensures made { IfOk result (λ next. IsTrue S.tells → Makes (S.form s.old) (S.image s.old) (S.image s.new) key.now deletes Stage.Chained next) }
    ensures rightly { IfOk result (λ next. IsTrue S.tells → Finds (S.form s.old) (S.image s.old) key.now (λ place. MarksRightly stood_on.now place next)) }
    ensures order { IfOk result LooksOn }
    ensures starves { IfOk result (StarvesBounded (S.spare s.old)) }
    ensures room { IfOk result (CanCount (S.spare s.new)) }
    ensures leads { IfOk result (Leads (λ stage. OfDelete stage (S.size s.new) (S.spare s.new))) }
    ensures stopped { OnErr result (IsTrue S.tells → (others : List HandPair) → AcceptWith (S.form s.old) (S.image s.old) others → TurnStopped (S.form s.old) (S.image s.old) (S.image s.new) key.now []) }
    ensures size { S.size s.new ≡ S.size s.old }
    ensures wrote { Wrote S.Space s.old s.new }
    ensures cause { HasCause (S.faults s.old) (S.faults s.new) result }
    ensures bytes_read { S.bytes_read s.old ≤ S.bytes_read s.new }
    ensures reads { IsTrue S.tells → RoseUpTo (find_reads (S.form s.old) (S.image s.old) key.now + write_reads 1 4) (S.bytes_read s.old) (S.bytes_read s.new) }
{
    let Some(place) = find(s, key)? else {
        return Ok(Next::Done(Reply::KeyMissing));
    };
    if stood_on.has(place.off) {
        return mark_found(s, place);
    }
    Ok(Next::Step(Stage::Looked(Some(place))))
}

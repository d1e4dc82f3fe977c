// The turn of an append that looks its key up.

ghost use Rattle.std.specs.Prelude.{◌≡◌, ◌≤◌, ◌<◌, ◌+◌, ◌^◌, ◌⊎◌, ℕ, List, [], IsTrue, IfOk, IfSome, OnErr, Some, length, unwrap_or};
ghost use Rattle.tdb_disk.specs.Count.{HasCause, RoseUpTo};
ghost use Rattle.tdb_space.specs.Frame.{Wrote, Looked};
ghost use Rattle.tdb_space.specs.Extents.{HandPair};
ghost use Rattle.tdb_space.specs.Accepted.{AcceptWith};
ghost use Rattle.tdb_space.specs.Pairs.{map_of};
ghost use Rattle.tdb_words.specs.declared.record.TheConstants.{USED};
ghost use Rattle.tdb_chain.specs.Place.{StandsWithin, HoldsKey};
ghost use Rattle.tdb_steps.specs.Asked.{appends, joined};
ghost use Rattle.tdb_steps.specs.Stages.{OfStore, Leads, CanCount};
ghost use Rattle.tdb_steps.specs.Turns.{Makes, TurnMade, TurnStopped, UpdatesRightly, Finds};
ghost use Rattle.tdb_steps.specs.Order.{LooksOn};
ghost use Rattle.tdb_steps.specs.declared.stage.Stage.TheVariants as Stage;
ghost use Rattle.tdb_steps.specs.declared.stage.Next.TheVariants as Next;
ghost use Rattle.tdb_locks.specs.declared.turn.Reply.TheVariants as Reply;
ghost use Rattle.tdb_steps.specs.Reads.{look_reads};
ghost use Rattle.tdb_steps.specs.declared.plain.Plain.TheVariants.{Append};

use crate::looking::update_found;
use crate::stage::{Next, Stage};
use std::alloc::Global;
use tdb_chain::{Place, ValueRefusal, find, value};
use tdb_locks::Reply;
use tdb_space::{Io, Space};
use tdb_words::Bytes;

/// The value of the record that was found with more bytes behind it, or none where memory for it is wanting.
fn joined_value<S: Space>(
    alloc: Global,
    s: &mut S,
    place: &Place,
    more: &[u8],
) -> Result<Option<Bytes>, Io>
    requires within { StandsWithin place.now (S.size s.old) }
    requires used { place.now.rec.magic ≡ USED }
    ensures joined { IfOk result (λ made. IfSome made (λ bytes. IsTrue S.tells → (key : List ℕ) → HoldsKey (S.form s.old) (S.image s.old) key place.now
        → bytes ≡ joined (map_of (S.form s.old) (S.image s.old) key) more.now)) }
    ensures as_long { IfOk result (λ made. IfSome made (λ bytes. length bytes ≡ place.now.rec.data_len + length more.now)) }
    ensures looked { Looked S.Space s.old s.new }
    ensures cause { HasCause (S.faults s.old) (S.faults s.new) result }
    ensures bytes_read { RoseUpTo (place.now.rec.data_len) (S.bytes_read s.old) (S.bytes_read s.new) }
{
    let mut bytes = match value(alloc, s, place) {
        Ok(bytes) => bytes,
        Err(ValueRefusal::Memory) => return Ok(None),
        Err(ValueRefusal::Io) => return Err(Io),
    };
    match bytes.push_all(more) {
        Ok(()) => Ok(Some(bytes)),
        Err(_wanting) => Ok(None),
    }
}

/// Looks up the key of an append, and puts the bytes that it has in front of those to be appended. Where all of them
/// fit into the record that is there, they are written at once, and the command ends.
///
/// Where the command goes on, its other turns are those of a store with the flag `Replace`, of the joined bytes, or of
/// those to be appended where no bytes were joined. The reply is `Memory` where that is wanting.
pub fn look_to_append<S: Space>(
    alloc: Global,
    s: &mut S,
    key: &[u8],
    more: &[u8],
    whole: &mut Option<Bytes>,
) -> Result<Next, Io>
    requires key { length key.now < 2 ^ 32 }
    requires more { length more.now < 2 ^ 32 }
    requires chains { 0 < (S.form s.old).chains }
    ensures made { IfOk result (λ next. IsTrue S.tells → Makes (S.form s.old) (S.image s.old) (S.image s.new) key.now (appends more.now) Stage.Chained next) }
    ensures joined { IfOk result (λ next. IsTrue S.tells → (hands : List HandPair) → AcceptWith (S.form s.old) (S.image s.old) hands
        → (next ≡ Next.Done Reply.Memory) ⊎ (unwrap_or whole.new more.now ≡ joined (map_of (S.form s.old) (S.image s.old) key.now) more.now)) }
    ensures rightly { IfOk result (λ next. IsTrue S.tells → Finds (S.form s.old) (S.image s.old) key.now (λ place. UpdatesRightly (S.image s.old) (S.image s.new) (length (unwrap_or whole.new more.now)) place next)) }
    ensures order { IfOk result LooksOn }
    ensures room { IfOk result (CanCount (S.spare s.new)) }
    ensures short { length (unwrap_or whole.new more.now) < 2 ^ 33 }
    ensures leads { (n : ℕ) → IfOk result (Leads (λ stage. OfStore n stage (S.size s.new) (S.spare s.new))) }
    ensures stopped { OnErr result (IsTrue S.tells → (others : List HandPair) → AcceptWith (S.form s.old) (S.image s.old) others → TurnStopped (S.form s.old) (S.image s.old) (S.image s.new) key.now []) }
    ensures size { S.size s.new ≡ S.size s.old }
    ensures wrote { Wrote S.Space s.old s.new }
    ensures cause { HasCause (S.faults s.old) (S.faults s.new) result }
    ensures bytes_read { S.bytes_read s.old ≤ S.bytes_read s.new }
    ensures reads { IsTrue S.tells → (hands : List HandPair) → AcceptWith (S.form s.old) (S.image s.old) hands → RoseUpTo (look_reads (S.form s.old) (S.image s.old) (Append key.now more.now)) (S.bytes_read s.old) (S.bytes_read s.new) }
{
    *whole = None;
    let Some(place) = find(s, key)? else {
        return Ok(Next::Step(Stage::Looked(None)));
    };
    let Some(bytes) = joined_value(alloc, s, &place, more)? else {
        return Ok(Next::Done(Reply::Memory));
    };
    let next = update_found(s, place, bytes.as_slice())?;
    *whole = Some(bytes);
    Ok(next)
}

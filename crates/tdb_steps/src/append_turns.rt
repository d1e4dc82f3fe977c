// The turns of an append.

ghost use Rattle.std.specs.Prelude.{◌≡◌, ◌≤◌, ◌<◌, ◌+◌, ◌^◌, IsTrue, IfOk, OnErr, length, unwrap_or, List, ℕ, None};
ghost use Rattle.tdb_disk.specs.Count.{HasCause};
ghost use Rattle.tdb_space.specs.Frame.{Looked, Wrote};
ghost use Rattle.tdb_space.specs.NewRecord.{rec_len_for};
ghost use Rattle.tdb_steps.specs.Asked.{stores};
ghost use Rattle.tdb_steps.specs.Stages.{OfStore, Leads, IsIdle, CanCount};
ghost use Rattle.tdb_steps.specs.Turns.{Makes, Stops, AppendMakes, StoresRightly, AppendsRightly};
ghost use Rattle.tdb_steps.specs.Order.{StoreOrder};
ghost use Rattle.tdb_steps.specs.Memory.{StarvesBounded, StarvesRightly};
ghost use Rattle.tdb_steps.specs.declared.flag.Flag.TheVariants as Flags;
ghost use Rattle.tdb_steps.specs.declared.stage.Stage.TheVariants as Stage;
ghost use Rattle.tdb_steps.specs.Reads.{TurnReads, costs_of};
ghost use Rattle.tdb_steps.specs.declared.plain.Plain.TheVariants.{Append, Store};
ghost use Rattle.tdb_space.specs.Extents.{HandPair};
ghost use Rattle.tdb_space.specs.Accepted.{AcceptWith};

use crate::appending::look_to_append;
use crate::flag::Flag;
use crate::stage::{Next, Stage};
use crate::storing::store_turn;
use std::alloc::Global;
use tdb_locks::Spots;
use tdb_space::{Io, Space};
use tdb_words::Bytes;

/// A turn of a store of the joined bytes, or of those to be appended where none were joined.
fn store_joined<S: Space>(
    stage: Stage,
    s: &mut S,
    key: &[u8],
    more: &[u8],
    whole: &Option<Bytes>,
    stood_on: &Spots,
    limit: u64,
) -> Result<Next, Io>
    requires key { length key.now < 2 ^ 32 }
    requires whole { length (unwrap_or whole.now more.now) < 2 ^ 33 }
    requires chains { 0 < (S.form s.old).chains }
    requires limit { limit ≤ 4294963200 }
    requires stage { OfStore (length key.now + length (unwrap_or whole.now more.now)) stage (S.size s.old) (S.spare s.old) }
    ensures made { IfOk result (λ next. IsTrue S.tells → S.size s.old < 2 ^ 32
        → Makes (S.form s.old) (S.image s.old) (S.image s.new) key.now (stores Flags.Replace (unwrap_or whole.now more.now)) stage next) }
    ensures rightly { IfOk result (λ next. IsTrue S.tells → S.size s.old < 2 ^ 32
        → StoresRightly (S.form s.old) (S.image s.old) (S.image s.new) key.now (length (unwrap_or whole.now more.now)) (rec_len_for (length key.now) (length (unwrap_or whole.now more.now))) limit stood_on.now stage next) }
    ensures order { IfOk result (StoreOrder stage) }
    ensures starves { IfOk result (StarvesBounded (S.spare s.old)) }
    ensures room { IfOk result (CanCount (S.spare s.new)) }
    ensures leads { IfOk result (Leads (λ then. OfStore (length key.now + length (unwrap_or whole.now more.now)) then (S.size s.new) (S.spare s.new))) }
    ensures stopped { OnErr result (IsTrue S.tells → S.size s.old < 2 ^ 32 → Stops (S.form s.old) (S.image s.old) (S.image s.new) key.now stage) }
    ensures idle { IsIdle stage → Looked S.Space s.old s.new }
    ensures longer { S.size s.old ≤ S.size s.new }
    ensures within { S.size s.old ≤ limit → S.size s.new ≤ limit }
    ensures wrote { Wrote S.Space s.old s.new }
    ensures cause { HasCause (S.faults s.old) (S.faults s.new) result }
    ensures bytes_read { S.bytes_read s.old ≤ S.bytes_read s.new }
    ensures reads { IsTrue S.tells → S.size s.old < 2 ^ 32 → (hands : List HandPair) → AcceptWith (S.form s.old) (S.image s.old) hands
        → TurnReads (costs_of (S.form s.old) (S.image s.old) (Store key.now (unwrap_or whole.now more.now) Flags.Replace) None) 0 stage (S.bytes_read s.old) (S.bytes_read s.new) }
{
    match whole {
        Some(bytes) => store_turn(
            stage,
            s,
            key,
            bytes.as_slice(),
            Flag::Replace,
            stood_on,
            limit,
        ),
        None => store_turn(stage, s, key, more, Flag::Replace, stood_on, limit),
    }
}

/// A turn of an append, in a file that may grow to `limit` bytes. `whole` has the bytes that its look has joined: it is
/// set by the second turn, and has to be the same in those after it. The reply is `Ok`, `Full` where no free record is
/// long enough and the file can't grow, or `Memory` where that is wanting before the first write; over a disk only the
/// second turn wants it.
///
/// The second turn is that of `look_to_append`; all others are those of a store of the joined bytes, or of those to be
/// appended where the key wasn't there, with the flag `Replace`. `Io` where the disk failed: then the command is given
/// up, with the record that it held.
pub fn append_turn<S: Space>(
    alloc: Global,
    stage: Stage,
    s: &mut S,
    key: &[u8],
    more: &[u8],
    whole: &mut Option<Bytes>,
    stood_on: &Spots,
    limit: u64,
) -> Result<Next, Io>
    requires key { length key.now < 2 ^ 32 }
    requires more { length more.now < 2 ^ 32 }
    requires whole { length (unwrap_or whole.old more.now) < 2 ^ 33 }
    requires chains { 0 < (S.form s.old).chains }
    requires limit { limit ≤ 4294963200 }
    requires stage { OfStore (length key.now + length (unwrap_or whole.old more.now)) stage (S.size s.old) (S.spare s.old) }
    ensures made { IfOk result (λ next. IsTrue S.tells → S.size s.old < 2 ^ 32
        → AppendMakes (S.form s.old) (S.image s.old) (S.image s.new) key.now more.now whole.old whole.new stage next) }
    ensures rightly { IfOk result (λ next. IsTrue S.tells → S.size s.old < 2 ^ 32
        → AppendsRightly (S.form s.old) (S.image s.old) (S.image s.new) key.now more.now whole.old limit stood_on.now stage next) }
    ensures order { IfOk result (StoreOrder stage) }
    ensures starves { IfOk result (StarvesRightly (S.spare s.old) (Append key.now more.now) stage) }
    ensures room { IfOk result (CanCount (S.spare s.new)) }
    ensures leads { IfOk result (Leads (λ then. OfStore (length key.now + length (unwrap_or whole.new more.now)) then (S.size s.new) (S.spare s.new))) }
    ensures short { length (unwrap_or whole.new more.now) < 2 ^ 33 }
    ensures keeps { (stage ≡ Stage.Chained → ⊥) → whole.new ≡ whole.old }
    ensures stopped { OnErr result (IsTrue S.tells → S.size s.old < 2 ^ 32 → Stops (S.form s.old) (S.image s.old) (S.image s.new) key.now stage) }
    ensures idle { IsIdle stage → Looked S.Space s.old s.new }
    ensures longer { S.size s.old ≤ S.size s.new }
    ensures within { S.size s.old ≤ limit → S.size s.new ≤ limit }
    ensures wrote { Wrote S.Space s.old s.new }
    ensures cause { HasCause (S.faults s.old) (S.faults s.new) result }
    ensures bytes_read { S.bytes_read s.old ≤ S.bytes_read s.new }
    ensures reads { IsTrue S.tells → S.size s.old < 2 ^ 32 → (hands : List HandPair) → AcceptWith (S.form s.old) (S.image s.old) hands
        → TurnReads (costs_of (S.form s.old) (S.image s.old) (Append key.now more.now) whole.old) 0 stage (S.bytes_read s.old) (S.bytes_read s.new) }
{
    match stage {
        Stage::Chained => look_to_append(alloc, s, key, more, whole),
        other => store_joined(other, s, key, more, whole, stood_on, limit),
    }
}

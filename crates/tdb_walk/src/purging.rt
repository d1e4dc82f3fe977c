// A dead record is taken out of its chain, and given to the free list.

ghost use Rattle.std.specs.Prelude.{◌≡◌, ◌≤◌, ◌<◌, ◌^◌, IsTrue, List, ℕ, Option, None, IfOk, IfErr, IfSome, OnOk, OnErr, MatchBool};
ghost use Rattle.tdb_disk.specs.Count.{HasCause, HasCauseOf};
ghost use Rattle.tdb_words.specs.declared.record.TheConstants.{USED};
ghost use Rattle.tdb_space.specs.Frame.{Looked, Wrote};
ghost use Rattle.tdb_space.specs.Spare.{without_bound};
ghost use Rattle.tdb_space.specs.Record.{Whole, magic_of};
ghost use Rattle.tdb_space.specs.Form.{data_start};
ghost use Rattle.tdb_space.specs.Extents.{HandPair};
ghost use Rattle.tdb_space.specs.Accepted.{AcceptWith};
ghost use Rattle.tdb_chain.specs.Place.{StandsWithin};
ghost use Rattle.tdb_walk.specs.Purging.{IsDeadIn, FindsPlace, IsPlaceIn, IsPurged, PurgeStopped, IsDeadRecord, IsPrepared, CanPurge, PurgesOf, PurgeBroken, Readied};
ghost use Rattle.tdb_walk.specs.declared.purging.DeadRecord.{DeadRecord};
ghost use Rattle.tdb_walk.specs.declared.refusal.WalkRefusal.TheVariants.{Io, Memory};

use crate::refusal::WalkRefusal;
use tdb_chain::{Place, purge};
use tdb_free::give;
use tdb_space::{Io as SpaceIo, Space, chain_head, data_start, read_listed, read_word};
use tdb_words::USED;

/// A dead record of a chain.
#[derive(Clone, Copy)]
pub struct DeadRecord {
    /// The chain in which it stands.
    pub chain: u32,

    /// The offset of the record in bytes.
    pub off: u32,
}

/// The place of the dead record of a chain at an offset. Where there is none, or the file's bytes aren't those of an
/// accepted file, it answers a place that can be used in a file of this length, or none.
fn dead_place<S: Space>(s: &mut S, len: u64, chain: u32, off: u32) -> Result<Option<Place>, SpaceIo>
    requires length { len ≡ S.size s.old }
    requires heads { data_start (S.form s.old) ≤ len }
    requires below { chain < (S.form s.old).chains }
    ensures found { IfOk result (λ found. IsTrue S.tells → (hands : List HandPair) → AcceptWith (S.form s.old) (S.image s.old) hands
        → IsDeadIn (S.form s.old) (S.image s.old) chain off → FindsPlace (S.form s.old) (S.image s.old) chain off found) }
    ensures within { IfOk result (λ found. IfSome found (λ p. StandsWithin p (S.size s.old))) }
    ensures dead { IfOk result (λ found. IfSome found (λ p. p.rec.magic ≡ USED → ⊥)) }
    ensures looked { Looked S.Space s.old s.new }
    ensures cause { HasCause (S.faults s.old) (S.faults s.new) result }
    ensures bytes_read { S.bytes_read s.old ≤ S.bytes_read s.new }
{
    let mut before = chain_head(chain);
    let mut at = read_word(s, before)?;
    for _turn in 0..len / 4 {
        let Some(rec) = read_listed(s, len, at)? else {
            return Ok(None);
        };
        if at == off {
            if rec.magic == USED {
                return Ok(None);
            }
            return Ok(Some(Place {
                off,
                before: before as u32,
                rec,
            }));
        }
        before = at as u64;
        at = rec.next;
    }
    Ok(None)
}

/// Whether the record of a chain at an offset is dead. It reads at most 24 bytes.
pub(crate) fn is_dead<S: Space>(s: &mut S, off: u32) -> Result<bool, SpaceIo>
    ensures dead { IfOk result (λ dead. IsTrue S.tells → Whole (S.form s.old) (S.image s.old) off
        → MatchBool dead (magic_of (S.form s.old).order (S.image s.old) off ≡ USED → ⊥) (magic_of (S.form s.old).order (S.image s.old) off ≡ USED)) }
    ensures looked { Looked S.Space s.old s.new }
    ensures cause { HasCause (S.faults s.old) (S.faults s.new) result }
    ensures bytes_read { S.bytes_read s.old ≤ S.bytes_read s.new }
{
    let len = s.len()?;
    match read_listed(s, len, off)? {
        Some(rec) => Ok(rec.magic != USED),
        None => Ok(false),
    }
}

/// Finds the place of a dead record, if there is one to purge, and makes room for the writes of its purge: afterwards
/// that takes no memory. It goes along the chain up to the record.
pub(crate) fn prepare_purge<S: Space>(
    s: &mut S,
    dead: Option<DeadRecord>,
) -> Result<Option<Place>, WalkRefusal>
    ensures found { IfOk result (λ found. IsTrue S.tells → (hands : List HandPair) → AcceptWith (S.form s.old) (S.image s.old) hands
        → IsDeadRecord (S.form s.old) (S.image s.old) dead → IsPrepared (S.form s.old) (S.image s.old) dead found) }
    ensures can { IfOk result (λ found. IfSome found (CanPurge (S.size s.new) (S.spare s.new))) }
    ensures none { IfOk result (λ found. dead ≡ None → found ≡ None) }
    ensures idle { dead ≡ None → Looked S.Space s.old s.new }
    ensures readied { Readied S.Space s.old s.new }
    ensures asked { OnErr result (dead ≡ None → ⊥) }
    ensures starves { IfErr result (λ e. e ≡ Memory → S.spare s.old ≡ without_bound → ⊥) }
    ensures cause { HasCauseOf Io (S.faults s.old) (S.faults s.new) result }
    ensures bytes_read { S.bytes_read s.old ≤ S.bytes_read s.new }
{
    let Some(DeadRecord { chain, off }) = dead else {
        return Ok(None);
    };
    let len = s.len()?;
    let chains = s.hash_size();
    if len < data_start(chains) || chain >= chains {
        return Ok(None);
    }
    let Some(place) = dead_place(s, len, chain, off)? else {
        return Ok(None);
    };
    match s.ready(6, 44) {
        Ok(()) => Ok(Some(place)),
        Err(_fault) => Err(WalkRefusal::Memory),
    }
}

/// Takes the record of a place out of its chain, and gives it to the free list. It takes no memory.
fn purge_at<S: Space>(s: &mut S, place: Place) -> Result<(), SpaceIo>
    requires can { CanPurge (S.size s.old) (S.spare s.old) place }
    ensures purged { OnOk result (IsTrue S.tells → S.size s.old < 2 ^ 32 → (hands : List HandPair) → AcceptWith (S.form s.old) (S.image s.old) hands
        → (chain off : ℕ) → chain < (S.form s.old).chains → IsPlaceIn (S.form s.old) (S.image s.old) chain off place → IsPurged (S.form s.old) (S.image s.old) (S.image s.new) chain off hands) }
    ensures stopped { OnErr result (IsTrue S.tells → S.size s.old < 2 ^ 32 → (hands : List HandPair) → AcceptWith (S.form s.old) (S.image s.old) hands
        → (chain off : ℕ) → chain < (S.form s.old).chains → IsPlaceIn (S.form s.old) (S.image s.old) chain off place → PurgeStopped (S.form s.old) (S.image s.old) (S.image s.new) chain hands) }
    ensures size { S.size s.new ≡ S.size s.old }
    ensures wrote { Wrote S.Space s.old s.new }
    ensures cause { HasCause (S.faults s.old) (S.faults s.new) result }
    ensures bytes_read { S.bytes_read s.old ≤ S.bytes_read s.new }
{
    let hand = purge(s, place)?;
    match give(s, hand) {
        Ok(()) => Ok(()),
        Err(_fault) => Err(SpaceIo),
    }
}

/// Purges the record of a place that was prepared, if there is one. It goes along the free list, and takes no memory.
pub(crate) fn purge_prepared<S: Space>(s: &mut S, place: Option<Place>) -> Result<(), SpaceIo>
    requires can { IfSome place (CanPurge (S.size s.old) (S.spare s.old)) }
    ensures purged { OnOk result (IsTrue S.tells → S.size s.old < 2 ^ 32 → (hands : List HandPair) → AcceptWith (S.form s.old) (S.image s.old) hands
        → (dead : Option DeadRecord) → IsPrepared (S.form s.old) (S.image s.old) dead place → PurgesOf (S.form s.old) (S.image s.old) (S.image s.new) dead hands) }
    ensures stopped { OnErr result (IsTrue S.tells → S.size s.old < 2 ^ 32 → (hands : List HandPair) → AcceptWith (S.form s.old) (S.image s.old) hands
        → (dead : Option DeadRecord) → IsPrepared (S.form s.old) (S.image s.old) dead place → PurgeBroken (S.form s.old) (S.image s.old) (S.image s.new) dead hands) }
    ensures idle { place ≡ None → Looked S.Space s.old s.new }
    ensures asked { OnErr result (place ≡ None → ⊥) }
    ensures size { S.size s.new ≡ S.size s.old }
    ensures wrote { Wrote S.Space s.old s.new }
    ensures cause { HasCause (S.faults s.old) (S.faults s.new) result }
    ensures bytes_read { S.bytes_read s.old ≤ S.bytes_read s.new }
{
    match place {
        Some(place) => purge_at(s, place),
        None => Ok(()),
    }
}

/// Takes the dead record of a chain at an offset out of the chain, and gives it to the free list.
///
/// It goes along the chain up to the record, and along the free list. Room for all writes is made first: with `Memory`,
/// which never comes over a disk, nothing was written. `Io` where the disk failed: then the record may be in its chain,
/// in no list, or in the free list, and each byte of the header, of the undo area and of other chains is as it was.
/// Where no dead record of the chain stands there, nothing is written.
pub fn purge_dead<S: Space>(s: &mut S, chain: u32, off: u32) -> Result<(), WalkRefusal>
    ensures purged { OnOk result (IsTrue S.tells → S.size s.old < 2 ^ 32 → (hands : List HandPair) → AcceptWith (S.form s.old) (S.image s.old) hands
        → chain < (S.form s.old).chains → IsDeadIn (S.form s.old) (S.image s.old) chain off → IsPurged (S.form s.old) (S.image s.old) (S.image s.new) chain off hands) }
    ensures stopped { OnErr result (IsTrue S.tells → S.size s.old < 2 ^ 32 → (hands : List HandPair) → AcceptWith (S.form s.old) (S.image s.old) hands
        → chain < (S.form s.old).chains → IsDeadIn (S.form s.old) (S.image s.old) chain off → PurgeStopped (S.form s.old) (S.image s.old) (S.image s.new) chain hands) }
    ensures memory { IfErr result (λ e. e ≡ Memory → S.image s.new ≡ S.image s.old) }
    ensures starves { IfErr result (λ e. e ≡ Memory → S.spare s.old ≡ without_bound → ⊥) }
    ensures size { S.size s.new ≡ S.size s.old }
    ensures wrote { Wrote S.Space s.old s.new }
    ensures cause { HasCauseOf Io (S.faults s.old) (S.faults s.new) result }
    ensures bytes_read { S.bytes_read s.old ≤ S.bytes_read s.new }
{
    let place = prepare_purge(s, Some(DeadRecord { chain, off }))?;
    purge_prepared(s, place)?;
    Ok(())
}

// A value is stored for a key.

ghost use Rattle.std.specs.Prelude.{◌≡◌, ◌≢◌, ◌≤◌, ◌<◌, ◌^◌, ◌+◌, ◌⊎◌, [], Some, true, length, IsTrue, IfOk, IfErr, IfSome, OnOk, OnErr, is_some};
ghost use Rattle.tdb_disk.specs.Count.{HasCauseOf};
ghost use Rattle.tdb_space.specs.Frame.{Looked, Wrote};
ghost use Rattle.tdb_space.specs.Accepted.{AcceptWith};
ghost use Rattle.tdb_space.specs.NewRecord.{rec_len_for as len_for};
ghost use Rattle.tdb_space.specs.Spare.{without_bound};
ghost use Rattle.tdb_chain.specs.Place.{StandsWithin, IsFound};
ghost use Rattle.tdb_edit.specs.Edited.{KeyChanged, OnlyKeyChanges};
ghost use Rattle.tdb_edit.specs.Stored.{has_room as room_in, FoundNoRoom, FullRightly};
ghost use Rattle.tdb_edit.specs.declared.refusal.StoreRefusal.TheVariants.{Io as IoIs};
ghost use Rattle.tdb_free.specs.FreeList.{first_fit};
ghost use Rattle.tdb_free.specs.Growth.{grown_length};
ghost use Rattle.tdb_free.specs.declared.list_refusal.ListRefusal.TheVariants.{Io as ListIo};

use crate::refusal::StoreRefusal;
use std::alloc::Global;
use tdb_chain::{Place, find, link, update_in_place};
use tdb_free::{FreeRecs, ListRefusal, give, list, take};
use tdb_space::{Space, rec_len_for};

/// The length of a record's header, in bytes.
const HEADER_LEN: u64 = 24;

/// Whether one of the free records has so many bytes behind its header.
fn one_fits(records: &FreeRecs, rec_len: u64) -> bool
    ensures { result ≡ is_some (first_fit records.now rec_len) }
{
    for i in 0..records.len() {
        let Some((_, len)) = records.get(i) else {
            return false;
        };
        if rec_len <= u64::from(len) {
            return true;
        }
    }
    false
}

/// Whether a file has room for a record of so many bytes behind its header. It looks through the free list only where
/// the file may not grow by so much.
fn has_room<S: Space>(
    alloc: Global,
    s: &mut S,
    rec_len: u64,
    limit: u64,
) -> Result<bool, ListRefusal>
    requires short { rec_len < 2 ^ 36 }
    requires limit { limit ≤ 4294963200 }
    ensures room { IfOk result (λ room. IsTrue S.tells → AcceptWith (S.form s.old) (S.image s.old) [] → room ≡ room_in (S.form s.old) (S.image s.old) rec_len limit) }
    ensures looked { Looked S.Space s.old s.new }
    ensures cause { HasCauseOf ListIo (S.faults s.old) (S.faults s.new) result }
    ensures bytes_read { S.bytes_read s.old ≤ S.bytes_read s.new }
{
    let len = s.len()?;
    if len.saturating_add(HEADER_LEN + rec_len) <= limit {
        return Ok(true);
    }
    let records = list(alloc, s)?;
    Ok(one_fits(&records, rec_len))
}

/// Whether a value has room in the record of a place, behind the key.
fn fits(place: &Place, value: &[u8]) -> bool
    ensures { result ≡ true → place.now.rec.key_len + length value.now + 4 ≤ place.now.rec.rec_len }
{
    let room = u64::from(place.rec.key_len).saturating_add(value.len() as u64);
    room.saturating_add(4) <= u64::from(place.rec.rec_len)
}

/// Stores a key with its value in a new record, in place of the old one where there is one. `over` is what `find`
/// answers for the key.
fn put<S: Space>(
    s: &mut S,
    key: &[u8],
    value: &[u8],
    over: Option<Place>,
    limit: u64,
) -> Result<(), StoreRefusal>
    requires key { length key.now < 2 ^ 32 }
    requires value { length value.now < 2 ^ 32 }
    requires chains { 0 < (S.form s.old).chains }
    requires limit { limit ≤ 4294963200 }
    requires spare { (view : S) → S.spare view ≡ without_bound }
    requires within { IfSome over (λ p. StandsWithin p (S.size s.old)) }
    ensures put { OnOk result (IsTrue S.tells → S.size s.old < 2 ^ 32 → AcceptWith (S.form s.old) (S.image s.old) [] → IsFound (S.form s.old) (S.image s.old) key.now over
        → KeyChanged (S.form s.old) (S.image s.old) (S.image s.new) key.now (Some value.now)) }
    ensures full { IfErr result (λ e. IsTrue S.tells → S.size s.old < 2 ^ 32 → AcceptWith (S.form s.old) (S.image s.old) []
        → FoundNoRoom (S.form s.old) (S.image s.old) (len_for (length key.now) (length value.now)) limit e) }
    ensures broken { OnErr result (IsTrue S.tells → S.size s.old < 2 ^ 32 → AcceptWith (S.form s.old) (S.image s.old) [] → IsFound (S.form s.old) (S.image s.old) key.now over
        → OnlyKeyChanges (S.form s.old) (S.image s.old) (S.image s.new) key.now) }
    ensures wrote { Wrote S.Space s.old s.new }
    ensures size { (S.size s.new ≡ S.size s.old) ⊎ (grown_length (S.size s.old) (24 + len_for (length key.now) (length value.now)) limit ≡ Some (S.size s.new)) }
    ensures cause { HasCauseOf IoIs (S.faults s.old) (S.faults s.new) result }
    ensures bytes_read { S.bytes_read s.old ≤ S.bytes_read s.new }
{
    let hand = take(s, rec_len_for(key.len() as u64, value.len() as u64), limit)?;
    if let Some(old) = link(s, hand, key, value, over)? {
        give(s, old)?;
    }
    Ok(())
}

/// Stores a key with its value, in place of the value that the key has, if it has one: in its record, if the value has
/// room there, and else in a new one.
fn set<S: Space>(s: &mut S, key: &[u8], value: &[u8], limit: u64) -> Result<(), StoreRefusal>
    requires key { length key.now < 2 ^ 32 }
    requires value { length value.now < 2 ^ 32 }
    requires chains { 0 < (S.form s.old).chains }
    requires limit { limit ≤ 4294963200 }
    requires spare { (view : S) → S.spare view ≡ without_bound }
    ensures set { OnOk result (IsTrue S.tells → S.size s.old < 2 ^ 32 → AcceptWith (S.form s.old) (S.image s.old) []
        → KeyChanged (S.form s.old) (S.image s.old) (S.image s.new) key.now (Some value.now)) }
    ensures full { IfErr result (λ e. IsTrue S.tells → S.size s.old < 2 ^ 32 → AcceptWith (S.form s.old) (S.image s.old) []
        → FoundNoRoom (S.form s.old) (S.image s.old) (len_for (length key.now) (length value.now)) limit e) }
    ensures broken { OnErr result (IsTrue S.tells → S.size s.old < 2 ^ 32 → AcceptWith (S.form s.old) (S.image s.old) []
        → OnlyKeyChanges (S.form s.old) (S.image s.old) (S.image s.new) key.now) }
    ensures wrote { Wrote S.Space s.old s.new }
    ensures size { (S.size s.new ≡ S.size s.old) ⊎ (grown_length (S.size s.old) (24 + len_for (length key.now) (length value.now)) limit ≡ Some (S.size s.new)) }
    ensures cause { HasCauseOf IoIs (S.faults s.old) (S.faults s.new) result }
    ensures bytes_read { S.bytes_read s.old ≤ S.bytes_read s.new }
{
    let Some(place) = find(s, key)? else {
        return put(s, key, value, None, limit);
    };
    if !fits(&place, value) {
        return put(s, key, value, Some(place), limit);
    }
    update_in_place(s, &place, value)?;
    Ok(())
}

/// Stores a key with its value in a file that may be up to `limit` bytes long, in place of the value that the key has,
/// if it has one. The record of the key is changed where it stands, if the value has room there; else a new one is
/// made, and the old one goes to the free list.
///
/// `Full` where no free record is long enough for a new record and the file may not grow by one, also where the value
/// has room where it stands; then nothing was written, and so where memory is wanting. `Io` where the disk failed: then
/// the value may be written in part, and records may stand in no list. The file isn't shorter then, and at most the
/// key's chain has changed, the free list, their heads, and bytes that no record holds.
///
/// The file grows only where a new record is made and no free record is long enough: once, to the greater of its length
/// with the record and its length with a quarter as much again, in whole pages of 4096 bytes, or by the record alone
/// where that would pass the limit.
///
/// Cost: a look-up of the key; and where a new record is made, one pass along the free list to take it, two more where
/// the file grows, and one to give the old record back, if there is one. Near the limit there is one pass before all
/// that, which takes 8 bytes of memory for each free record.
pub fn store<S: Space>(
    alloc: Global,
    s: &mut S,
    key: &[u8],
    value: &[u8],
    limit: u64,
) -> Result<(), StoreRefusal>
    requires key { length key.now < 2 ^ 32 }
    requires value { length value.now < 2 ^ 32 }
    requires chains { 0 < (S.form s.old).chains }
    requires limit { limit ≤ 4294963200 }
    requires spare { (view : S) → S.spare view ≡ without_bound }
    ensures stored { OnOk result (IsTrue S.tells → S.size s.old < 2 ^ 32 → AcceptWith (S.form s.old) (S.image s.old) []
        → KeyChanged (S.form s.old) (S.image s.old) (S.image s.new) key.now (Some value.now)) }
    ensures room { OnOk result (IsTrue S.tells → AcceptWith (S.form s.old) (S.image s.old) []
        → room_in (S.form s.old) (S.image s.old) (len_for (length key.now) (length value.now)) limit ≡ true) }
    ensures full { IfErr result (λ e. IsTrue S.tells → S.size s.old < 2 ^ 32 → AcceptWith (S.form s.old) (S.image s.old) []
        → FullRightly (S.form s.old) (S.image s.old) (len_for (length key.now) (length value.now)) limit e) }
    ensures kept { IfErr result (λ e. IsTrue S.tells → S.size s.old < 2 ^ 32 → AcceptWith (S.form s.old) (S.image s.old) [] → e ≢ IoIs → Looked S.Space s.old s.new) }
    ensures broken { OnErr result (IsTrue S.tells → S.size s.old < 2 ^ 32 → AcceptWith (S.form s.old) (S.image s.old) []
        → OnlyKeyChanges (S.form s.old) (S.image s.old) (S.image s.new) key.now) }
    ensures wrote { Wrote S.Space s.old s.new }
    ensures size { (S.size s.new ≡ S.size s.old) ⊎ (grown_length (S.size s.old) (24 + len_for (length key.now) (length value.now)) limit ≡ Some (S.size s.new)) }
    ensures cause { HasCauseOf IoIs (S.faults s.old) (S.faults s.new) result }
    ensures bytes_read { S.bytes_read s.old ≤ S.bytes_read s.new }
{
    let rec_len = rec_len_for(key.len() as u64, value.len() as u64);
    if !has_room(alloc, s, rec_len, limit)? {
        let len = s.len()?;
        return Err(StoreRefusal::Full {
            len,
            need: HEADER_LEN + rec_len,
        });
    }
    set(s, key, value, limit)
}

// A record is put in front of its chain.

ghost use Rattle.std.specs.Prelude.{◌≡◌, ◌+◌, ◌/◌, ◌≤◌, ◌<◌, ◌^◌, ◌⊎◌, ◌++◌, ℕ, List, [], ◌∷◌, Some, length, slice_index, IsTrue, IfOk, IfSome, OnOk, OnErr};
ghost use Rattle.tdb_disk.specs.Count.{HasCause, RoseUpTo};
ghost use Rattle.tdb_words.specs.declared.record.TheConstants.{PADDING};
ghost use Rattle.tdb_words.specs.Hash.{h_of};
ghost use Rattle.tdb_space.specs.Frame.{Wrote};
ghost use Rattle.tdb_space.specs.Form.{chain_head};
ghost use Rattle.tdb_space.specs.Chain.{chain_of};
ghost use Rattle.tdb_space.specs.Pairs.{home};
ghost use Rattle.tdb_space.specs.Extents.{HandPair, HandOk};
ghost use Rattle.tdb_space.specs.Accepted.{AcceptWith};
ghost use Rattle.tdb_space.specs.Exchange.{InHands, PutInFront};
ghost use Rattle.tdb_space.specs.Spare.{RoomForAll};
ghost use Rattle.tdb_space.specs.SpareLeft.{LeavesRoom};
ghost use Rattle.tdb_space.specs.Stays.{OnlyIn};
ghost use Rattle.tdb_chain.specs.Place.{StandsWithin, IsFound};
ghost use Rattle.tdb_chain.specs.Changed.{KeySet, IsPadded, with_hand, without_place, hands_back, word_before};
ghost use Rattle.tdb_chain.specs.Stopped.{LinkStopped};
ghost use Rattle.tdb_chain.specs.Reads.{write_reads};

use crate::place::Place;
use crate::record_writing::{put_word, write_record};
use crate::removal::lead_past_old;
use tdb_space::{Hand, Io, Space, chain_head, read_word};
use tdb_words::{Rec, USED, chain_of, hash_of};

/// Writes a used record with this key and this value, and lets the head of its chain, which led to what it leads to,
/// lead to it.
fn put_in_front<S: Space>(
    s: &mut S,
    at: u32,
    rec_len: u32,
    hash: u32,
    key: &[u8],
    value: &[u8],
) -> Result<(), Io>
    requires chains { 0 < (S.form s.old).chains }
    requires hash { hash ≡ h_of (S.form s.old).hash key.now }
    requires fits { length key.now + length value.now + 4 ≤ rec_len }
    requires short { 24 + rec_len < 2 ^ 32 }
    requires within { at + 24 + rec_len ≤ S.size s.old }
    requires head { chain_head (home (S.form s.old) key.now) + 4 ≤ S.size s.old }
    requires room { RoomForAll (S.spare s.old) (5 + rec_len / 4096) (28 + rec_len) }
    ensures put { OnOk result (IsTrue S.tells → S.size s.old < 2 ^ 32 → HandOk (S.form s.old) (S.image s.old) (at, rec_len)
        → PutInFront (S.form s.old) (S.image s.old) (S.image s.new) (at, rec_len) key.now value.now) }
    ensures padded { OnOk result (IsTrue S.tells → S.size s.old < 2 ^ 32 → HandOk (S.form s.old) (S.image s.old) (at, rec_len)
        → IsPadded (S.image s.new) (at, rec_len) (length key.now + length value.now)) }
    ensures stopped { OnErr result (IsTrue S.tells → S.size s.old < 2 ^ 32 → HandOk (S.form s.old) (S.image s.old) (at, rec_len)
        → InHands (S.form s.old) (S.image s.old) (S.image s.new) ((at, rec_len) ∷ [])
        ⊎ PutInFront (S.form s.old) (S.image s.old) (S.image s.new) (at, rec_len) key.now value.now) }
    ensures written { IsTrue S.tells → OnlyIn ((chain_head (home (S.form s.old) key.now), 4) ∷ (at, 24 + rec_len) ∷ []) (S.image s.old) (S.image s.new) }
    ensures size { S.size s.new ≡ S.size s.old }
    ensures wrote { Wrote S.Space s.old s.new }
    ensures cause { HasCause (S.faults s.old) (S.faults s.new) result }
    ensures bytes_read { RoseUpTo (4 + write_reads (5 + rec_len / 4096) (28 + rec_len)) (S.bytes_read s.old) (S.bytes_read s.new) }
    ensures spare { LeavesRoom (5 + rec_len / 4096) (28 + rec_len) (S.spare s.old) (S.spare s.new) }
{
    let head = chain_head(chain_of(hash, s.hash_size()));
    let rec = Rec {
        next: read_word(s, head)?,
        rec_len,
        key_len: key.len() as u32,
        data_len: value.len() as u32,
        full_hash: hash,
        magic: USED,
    };
    write_record(s, at as u64, &rec, key, value)?;
    put_word(s, head, at)?;
    Ok(())
}

/// Puts a record with this key and this value in front of the key's chain, in place of the key's old record where there
/// is one, and answers the old record as a hand. The map has this value at the key then, and stays at all others. What
/// is left of the hand behind the value is padding. `over` is what `find` answers for the key.
///
/// The old record is taken out first, by one word; nothing is written into it. The record is written at once where it
/// has at most 4096 bytes, and at last the head of the chain. `Io` where the disk failed: then the hand and the old
/// record's place are given up, and other bytes than those of the hand, the head and the word that led to the old
/// record are as they were. The chain has the records that it had, or those without the old one, or the new one in
/// front of these: its head never leads to a part of a record.
pub fn link<S: Space>(
    s: &mut S,
    h: Hand,
    key: &[u8],
    value: &[u8],
    over: Option<Place>,
) -> Result<Option<Hand>, Io>
    requires fits { length key.now + length value.now + 4 ≤ h.1 }
    requires chains { 0 < (S.form s.old).chains }
    requires within { IfSome over (λ p. StandsWithin p (S.size s.old)) }
    requires room { RoomForAll (S.spare s.old) (6 + h.1 / 4096) (32 + h.1) }
    ensures set { IfOk result (λ out. IsTrue S.tells → S.size s.old < 2 ^ 32 → (hands : List HandPair) → AcceptWith (S.form s.old) (S.image s.old) (h ∷ hands)
        → IsFound (S.form s.old) (S.image s.old) key.now over
        → KeySet (S.form s.old) (S.image s.old) (S.image s.new) key.now (Some value.now)
        (h.0 ∷ without_place over (chain_of (S.form s.old) (S.image s.old) (home (S.form s.old) key.now))) (h ∷ []) (h ∷ hands) (with_hand out hands)) }
    ensures back { IfOk result (λ out. IsTrue S.tells → S.size s.old < 2 ^ 32 → (hands : List HandPair) → AcceptWith (S.form s.old) (S.image s.old) (h ∷ hands)
        → out ≡ hands_back over) }
    ensures padded { OnOk result (IsTrue S.tells → S.size s.old < 2 ^ 32 → (hands : List HandPair) → AcceptWith (S.form s.old) (S.image s.old) (h ∷ hands)
        → IsPadded (S.image s.new) h (length key.now + length value.now)) }
    ensures stopped { OnErr result (IsTrue S.tells → S.size s.old < 2 ^ 32 → (hands : List HandPair) → AcceptWith (S.form s.old) (S.image s.old) (h ∷ hands)
        → IsFound (S.form s.old) (S.image s.old) key.now over
        → LinkStopped (S.form s.old) (S.image s.old) (S.image s.new) key.now value.now over h hands) }
    ensures written { IsTrue S.tells
        → OnlyIn ((chain_head (home (S.form s.old) key.now), 4) ∷ (h.0, 24 + h.1) ∷ word_before over) (S.image s.old) (S.image s.new) }
    ensures size { S.size s.new ≡ S.size s.old }
    ensures wrote { Wrote S.Space s.old s.new }
    ensures cause { HasCause (S.faults s.old) (S.faults s.new) result }
    ensures bytes_read { RoseUpTo (4 + write_reads (6 + h.1 / 4096) (32 + h.1)) (S.bytes_read s.old) (S.bytes_read s.new) }
    ensures spare { LeavesRoom (6 + h.1 / 4096) (32 + h.1) (S.spare s.old) (S.spare s.new) }
{
    let at = h.off();
    let rec_len = h.rec_len();
    h.end();
    let len = s.len()?;
    let hash = hash_of(s.hash(), key);
    let end = at as u64 + 24 + rec_len as u64;
    if end > len || end > u32::MAX as u64 || chain_head(chain_of(hash, s.hash_size())) + 4 > len {
        return Ok(None);
    }
    lead_past_old(s, over)?;
    put_in_front(s, at, rec_len, hash, key, value)?;
    match over {
        Some(place) => Ok(Some(Hand::new(place.off, place.rec.rec_len))),
        None => Ok(None),
    }
}

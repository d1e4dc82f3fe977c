// The record of a key is changed where it stands.

ghost use Rattle.std.specs.Prelude.{◌≡◌, ◌⊎◌, ◌+◌, ◌≤◌, ◌<◌, ◌^◌, ℕ, List, [], ◌∷◌, None, Some, length, IsTrue, OnOk, OnErr};
ghost use Rattle.tdb_disk.specs.Count.{HasCause, RoseUpTo};
ghost use Rattle.tdb_words.specs.declared.record.TheConstants.{DEAD};
ghost use Rattle.tdb_space.specs.Frame.{Wrote};
ghost use Rattle.tdb_space.specs.Record.{data_at};
ghost use Rattle.tdb_space.specs.Chain.{chain_of};
ghost use Rattle.tdb_space.specs.Pairs.{home};
ghost use Rattle.tdb_space.specs.Extents.{HandPair};
ghost use Rattle.tdb_space.specs.Accepted.{AcceptWith};
ghost use Rattle.tdb_space.specs.Spare.{RoomForAll};
ghost use Rattle.tdb_space.specs.SpareLeft.{LeavesRoom};
ghost use Rattle.tdb_space.specs.Stays.{OnlyIn};
ghost use Rattle.tdb_chain.specs.Place.{StandsWithin, HoldsKey};
ghost use Rattle.tdb_chain.specs.Changed.{KeySet, OldOrWord};
ghost use Rattle.tdb_chain.specs.Stopped.{UpdateStopped};
ghost use Rattle.tdb_chain.specs.Reads.{write_reads};

use crate::place::Place;
use tdb_space::{Io, Space};
use tdb_words::{DEAD, word_bytes};

/// Marks the used record of a key as dead, where it stands in its chain. The map loses the key, and no other.
///
/// It writes the word of the record's magic. `Io` where the disk failed: then the file is as it was, or as the call
/// makes it.
pub fn mark_dead<S: Space>(s: &mut S, p: &Place) -> Result<(), Io>
    requires within { StandsWithin p.now (S.size s.old) }
    requires room { RoomForAll (S.spare s.old) 1 4 }
    ensures set { OnOk result (IsTrue S.tells → (hands : List HandPair) (key : List ℕ) → AcceptWith (S.form s.old) (S.image s.old) hands
        → HoldsKey (S.form s.old) (S.image s.old) key p.now
        → KeySet (S.form s.old) (S.image s.old) (S.image s.new) key None (chain_of (S.form s.old) (S.image s.old) (home (S.form s.old) key)) [] hands hands) }
    ensures stopped { OnErr result (IsTrue S.tells → (hands : List HandPair) (key : List ℕ) → AcceptWith (S.form s.old) (S.image s.old) hands
        → HoldsKey (S.form s.old) (S.image s.old) key p.now
        → (S.image s.new ≡ S.image s.old)
        ⊎ KeySet (S.form s.old) (S.image s.old) (S.image s.new) key None (chain_of (S.form s.old) (S.image s.old) (home (S.form s.old) key)) [] hands hands) }
    ensures written { IsTrue S.tells → OldOrWord (S.form s.old).order (S.image s.old) (p.now.off + 20) DEAD (S.image s.new) }
    ensures size { S.size s.new ≡ S.size s.old }
    ensures wrote { Wrote S.Space s.old s.new }
    ensures cause { HasCause (S.faults s.old) (S.faults s.new) result }
    ensures bytes_read { RoseUpTo (write_reads 1 4) (S.bytes_read s.old) (S.bytes_read s.new) }
    ensures spare { LeavesRoom 1 4 (S.spare s.old) (S.spare s.new) }
{
    s.write_word(p.off as u64 + 20, word_bytes(DEAD, s.order()))?;
    Ok(())
}

/// Gives the used record of a key another value, where it stands. The map has this value at the key then, and stays at
/// all others.
///
/// It writes the value behind the key, and then the word of its length; what else follows the key stays as it is. `Io`
/// where the disk failed: then the value may be written in part, and its length is the old one; or it is written whole,
/// and its length is the old or the new one. So the map has some value at the key, and stays at all others.
pub fn update_in_place<S: Space>(s: &mut S, p: &Place, value: &[u8]) -> Result<(), Io>
    requires within { StandsWithin p.now (S.size s.old) }
    requires short { length value.now < 2 ^ 32 }
    requires fits { p.now.rec.key_len + length value.now + 4 ≤ p.now.rec.rec_len }
    requires room { RoomForAll (S.spare s.old) 2 (4 + length value.now) }
    ensures set { OnOk result (IsTrue S.tells → (hands : List HandPair) (key : List ℕ) → AcceptWith (S.form s.old) (S.image s.old) hands
        → HoldsKey (S.form s.old) (S.image s.old) key p.now
        → KeySet (S.form s.old) (S.image s.old) (S.image s.new) key (Some value.now) (chain_of (S.form s.old) (S.image s.old) (home (S.form s.old) key)) [] hands hands) }
    ensures stopped { OnErr result (IsTrue S.tells → UpdateStopped (S.form s.old).order (S.image s.old) (S.image s.new) p.now value.now) }
    ensures stopped_kept { OnErr result (IsTrue S.tells → (hands : List HandPair) (key : List ℕ) → AcceptWith (S.form s.old) (S.image s.old) hands
        → HoldsKey (S.form s.old) (S.image s.old) key p.now
        → KeySet (S.form s.old) (S.image s.old) (S.image s.new) key (Some (data_at (S.form s.old).order (S.image s.new) p.now.off)) (chain_of (S.form s.old) (S.image s.old) (home (S.form s.old) key)) [] hands hands) }
    ensures written { IsTrue S.tells
        → OnlyIn ((p.now.off + 12, 4) ∷ (p.now.off + 24 + p.now.rec.key_len, length value.now) ∷ []) (S.image s.old) (S.image s.new) }
    ensures size { S.size s.new ≡ S.size s.old }
    ensures wrote { Wrote S.Space s.old s.new }
    ensures cause { HasCause (S.faults s.old) (S.faults s.new) result }
    ensures bytes_read { RoseUpTo (write_reads 2 (4 + length value.now)) (S.bytes_read s.old) (S.bytes_read s.new) }
    ensures spare { LeavesRoom 2 (4 + length value.now) (S.spare s.old) (S.spare s.new) }
{
    let off = p.off as u64;
    s.write(off + 24 + p.rec.key_len as u64, value)?;
    s.write_word(off + 12, word_bytes(value.len() as u32, s.order()))?;
    Ok(())
}

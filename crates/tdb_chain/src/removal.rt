// A record is taken out of its chain.

ghost use Rattle.std.specs.Prelude.{◌≡◌, ◌⊎◌, ◌≤◌, ℕ, List, [], ◌∷◌, None, IsTrue, IfOk, IfSome, OnOk, OnErr};
ghost use Rattle.tdb_disk.specs.Count.{HasCause, RoseUpTo};
ghost use Rattle.tdb_disk.specs.Image.{overlay};
ghost use Rattle.tdb_words.specs.Word.{bytes_of_word};
ghost use Rattle.tdb_words.specs.declared.record.TheConstants.{USED};
ghost use Rattle.tdb_space.specs.Frame.{Wrote};
ghost use Rattle.tdb_space.specs.Record.{key_at};
ghost use Rattle.tdb_space.specs.Chain.{chain_of, without};
ghost use Rattle.tdb_space.specs.Pairs.{home};
ghost use Rattle.tdb_space.specs.Extents.{HandPair};
ghost use Rattle.tdb_space.specs.Accepted.{AcceptWith};
ghost use Rattle.tdb_space.specs.Spare.{RoomForAll};
ghost use Rattle.tdb_space.specs.SpareLeft.{LeavesRoom};
ghost use Rattle.tdb_space.specs.Stays.{OnlyIn};
ghost use Rattle.tdb_chain.specs.Place.{StandsWithin, IsPlace};
ghost use Rattle.tdb_chain.specs.Changed.{KeySet, Purged, OldOrWord, TookOut, hand_at, word_before};
ghost use Rattle.tdb_chain.specs.Reads.{write_reads};

use crate::place::Place;
use tdb_space::{Hand, Io, Space};
use tdb_words::word_bytes;

/// Lets the word that leads to the record of a place lead past it.
fn lead_past<S: Space>(s: &mut S, p: &Place) -> Result<(), Io>
    requires within { StandsWithin p.now (S.size s.old) }
    requires room { RoomForAll (S.spare s.old) 1 4 }
    ensures past { OnOk result (IsTrue S.tells → S.image s.new ≡ overlay (S.image s.old) p.now.before (bytes_of_word (S.form s.old).order p.now.rec.next)) }
    ensures written { IsTrue S.tells → OldOrWord (S.form s.old).order (S.image s.old) p.now.before p.now.rec.next (S.image s.new) }
    ensures size { S.size s.new ≡ S.size s.old }
    ensures wrote { Wrote S.Space s.old s.new }
    ensures cause { HasCause (S.faults s.old) (S.faults s.new) result }
    ensures bytes_read { RoseUpTo (write_reads 1 4) (S.bytes_read s.old) (S.bytes_read s.new) }
    ensures spare { LeavesRoom 1 4 (S.spare s.old) (S.spare s.new) }
{
    s.write_word(p.before as u64, word_bytes(p.rec.next, s.order()))
}

/// Lets the word that leads to the record of a place lead past it, if there is one.
pub(crate) fn lead_past_old<S: Space>(s: &mut S, old: Option<Place>) -> Result<(), Io>
    requires within { IfSome old (λ p. StandsWithin p (S.size s.old)) }
    requires room { RoomForAll (S.spare s.old) 1 4 }
    ensures took { OnOk result (IsTrue S.tells → TookOut (S.form s.old) (S.image s.old) (S.image s.new) old) }
    ensures stopped { OnErr result (IsTrue S.tells → (S.image s.new ≡ S.image s.old) ⊎ TookOut (S.form s.old) (S.image s.old) (S.image s.new) old) }
    ensures written { IsTrue S.tells → OnlyIn (word_before old) (S.image s.old) (S.image s.new) }
    ensures size { S.size s.new ≡ S.size s.old }
    ensures wrote { Wrote S.Space s.old s.new }
    ensures cause { HasCause (S.faults s.old) (S.faults s.new) result }
    ensures bytes_read { RoseUpTo (write_reads 1 4) (S.bytes_read s.old) (S.bytes_read s.new) }
    ensures spare { LeavesRoom 1 4 (S.spare s.old) (S.spare s.new) }
{
    match old {
        Some(place) => {
            lead_past(s, &place)?;
            Ok(())
        }
        None => Ok(()),
    }
}

/// Takes the used record of a place out of its chain, and answers it as a hand. The map loses its key, and no other.
///
/// It writes the word that led to the record, and nothing into the record. `Io` where the disk failed: then the file is
/// as it was, or as the call makes it.
pub fn unlink<S: Space>(s: &mut S, p: Place) -> Result<Hand, Io>
    requires within { StandsWithin p (S.size s.old) }
    requires room { RoomForAll (S.spare s.old) 1 4 }
    ensures removed { IfOk result (λ h. IsTrue S.tells → (hands : List HandPair) → AcceptWith (S.form s.old) (S.image s.old) hands
        → IsPlace (S.form s.old) (S.image s.old) p → p.rec.magic ≡ USED
        → KeySet (S.form s.old) (S.image s.old) (S.image s.new) (key_at (S.form s.old).order (S.image s.old) p.off) None
        (without p.off (chain_of (S.form s.old) (S.image s.old) (home (S.form s.old) (key_at (S.form s.old).order (S.image s.old) p.off)))) [] hands (h ∷ hands)) }
    ensures stopped { OnErr result (IsTrue S.tells → (hands : List HandPair) → AcceptWith (S.form s.old) (S.image s.old) hands
        → IsPlace (S.form s.old) (S.image s.old) p → p.rec.magic ≡ USED
        → (S.image s.new ≡ S.image s.old) ⊎ KeySet (S.form s.old) (S.image s.old) (S.image s.new) (key_at (S.form s.old).order (S.image s.old) p.off) None
        (without p.off (chain_of (S.form s.old) (S.image s.old) (home (S.form s.old) (key_at (S.form s.old).order (S.image s.old) p.off)))) [] hands (hand_at p ∷ hands)) }
    ensures hand { IfOk result (λ h. h ≡ hand_at p) }
    ensures written { IsTrue S.tells → OldOrWord (S.form s.old).order (S.image s.old) p.before p.rec.next (S.image s.new) }
    ensures size { S.size s.new ≡ S.size s.old }
    ensures wrote { Wrote S.Space s.old s.new }
    ensures cause { HasCause (S.faults s.old) (S.faults s.new) result }
    ensures bytes_read { RoseUpTo (write_reads 1 4) (S.bytes_read s.old) (S.bytes_read s.new) }
    ensures spare { LeavesRoom 1 4 (S.spare s.old) (S.spare s.new) }
{
    lead_past(s, &p)?;
    Ok(Hand::new(p.off, p.rec.rec_len))
}

/// Takes the dead record of a place out of its chain, and answers it as a hand. The map stays as it is.
///
/// It writes the word that led to the record, and nothing into the record. `Io` where the disk failed: then the file is
/// as it was, or as the call makes it.
pub fn purge<S: Space>(s: &mut S, p: Place) -> Result<Hand, Io>
    requires within { StandsWithin p (S.size s.old) }
    requires dead { p.rec.magic ≡ USED → ⊥ }
    requires room { RoomForAll (S.spare s.old) 1 4 }
    ensures purged { IfOk result (λ h. IsTrue S.tells → (hands : List HandPair) → AcceptWith (S.form s.old) (S.image s.old) hands
        → (at : IsPlace (S.form s.old) (S.image s.old) p)
        → Purged (S.form s.old) (S.image s.old) (S.image s.new) at.chain (without p.off (chain_of (S.form s.old) (S.image s.old) at.chain)) hands (h ∷ hands)) }
    ensures stopped { OnErr result (IsTrue S.tells → (hands : List HandPair) → AcceptWith (S.form s.old) (S.image s.old) hands
        → (at : IsPlace (S.form s.old) (S.image s.old) p)
        → (S.image s.new ≡ S.image s.old)
        ⊎ Purged (S.form s.old) (S.image s.old) (S.image s.new) at.chain (without p.off (chain_of (S.form s.old) (S.image s.old) at.chain)) hands (hand_at p ∷ hands)) }
    ensures hand { IfOk result (λ h. h ≡ hand_at p) }
    ensures written { IsTrue S.tells → OldOrWord (S.form s.old).order (S.image s.old) p.before p.rec.next (S.image s.new) }
    ensures size { S.size s.new ≡ S.size s.old }
    ensures wrote { Wrote S.Space s.old s.new }
    ensures cause { HasCause (S.faults s.old) (S.faults s.new) result }
    ensures bytes_read { RoseUpTo (write_reads 1 4) (S.bytes_read s.old) (S.bytes_read s.new) }
    ensures spare { LeavesRoom 1 4 (S.spare s.old) (S.spare s.new) }
{
    lead_past(s, &p)?;
    Ok(Hand::new(p.off, p.rec.rec_len))
}

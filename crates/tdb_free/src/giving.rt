// Giving a hand to the free list.

ghost use Rattle.std.specs.Prelude.{◌≡◌, ◌⊎◌, ◌∷◌, ◌+◌, ◌^◌, ◌<◌, ◌≤◌, IsTrue, IfErr, OnOk, OnErr, List, [], ℕ, false};
ghost use Rattle.tdb_disk.specs.Count.{HasCause, RoseUpTo};
ghost use Rattle.tdb_words.specs.Word.{word};
ghost use Rattle.tdb_space.specs.Frame.{Wrote};
ghost use Rattle.tdb_space.specs.Form.{data_start, free_head};
ghost use Rattle.tdb_space.specs.Chain.{Free};
ghost use Rattle.tdb_space.specs.Spare.{RoomForAll};
ghost use Rattle.tdb_space.specs.Extents.{HandPair, HandOk};
ghost use Rattle.tdb_space.specs.Accepted.{AcceptWith};
ghost use Rattle.tdb_space.specs.Exchange.{InHands};
ghost use Rattle.tdb_space.specs.SpareLeft.{LeavesRoom};
ghost use Rattle.tdb_free.specs.FreeList.{CanBeGiven, Given, GivenBack, MadeFirst, end_of};
ghost use Rattle.tdb_free.specs.GiveStopped.{GiveStopped, StillAccepted};
ghost use Rattle.tdb_free.specs.OnlyList.{OnlyListChanges};
ghost use Rattle.tdb_free.specs.Stretch.{pair};
ghost use Rattle.tdb_free.specs.Walk.{FreeBesideUpTo};
ghost use Rattle.tdb_free.specs.Reads.{give_reads, write_reads};
ghost use Rattle.tdb_free.specs.declared.refusal.FreeRefusal.{FreeRefusal};
ghost use Rattle.tdb_free.specs.declared.refusal.FreeRefusal.TheVariants.{Io};

use crate::link_word::write_link;
use crate::neighbours::find_neighbours;
use crate::refusal::FreeRefusal;
use crate::removal::take_out;
use crate::stretch::Stretch;
use tdb_space::{FREE_HEAD, Hand, Io as SpaceIo, Space, data_start, read_word};
use tdb_words::{FREE, Rec, rec_bytes, word_bytes};

/// Makes a stretch the first record of the free list. It writes the stretch's header and tailer, and the head of the
/// list.
fn put_first<S: Space>(s: &mut S, free: &Stretch) -> Result<(), SpaceIo>
    requires behind { data_start (S.form s.old) ≤ free.now.off }
    requires within { end_of (pair free.now) ≤ S.size s.old }
    requires short { end_of (pair free.now) < 2 ^ 32 }
    requires least { 4 ≤ free.now.rec_len }
    requires room { RoomForAll (S.spare s.old) 3 32 }
    ensures put { OnOk result (IsTrue S.tells → HandOk (S.form s.old) (S.image s.old) (pair free.now)
        → MadeFirst (S.form s.old) (S.image s.old) (S.image s.new) (pair free.now)) }
    ensures stopped { OnErr result (IsTrue S.tells → HandOk (S.form s.old) (S.image s.old) (pair free.now)
        → InHands (S.form s.old) (S.image s.old) (S.image s.new) (pair free.now ∷ []) ⊎ MadeFirst (S.form s.old) (S.image s.old) (S.image s.new) (pair free.now)) }
    ensures size { S.size s.new ≡ S.size s.old }
    ensures wrote { Wrote S.Space s.old s.new }
    ensures cause { HasCause (S.faults s.old) (S.faults s.new) result }
    ensures bytes_read { RoseUpTo (4 + write_reads 3 32) (S.bytes_read s.old) (S.bytes_read s.new) }
    ensures spare { LeavesRoom 3 32 (S.spare s.old) (S.spare s.new) }
{
    let order = s.order();
    let rec = Rec {
        next: read_word(s, FREE_HEAD as u64)?,
        rec_len: free.rec_len,
        key_len: 0,
        data_len: 0,
        full_hash: 0,
        magic: FREE,
    };
    s.write(free.off as u64, &rec_bytes(&rec, order))?;
    let tailer = word_bytes(24 + free.rec_len, order);
    s.write(free.off as u64 + 20 + free.rec_len as u64, &tailer)?;
    write_link(s, FREE_HEAD, free.off)
}

/// Gives a stretch of the file to the free list, with the free records before and behind it as one. `len` is the length
/// of the file.
fn give_stretch<S: Space>(s: &mut S, len: u64, free: Stretch) -> Result<(), SpaceIo>
    requires length { len ≡ S.size s.old }
    requires small { len < 2 ^ 32 }
    requires behind { data_start (S.form s.old) ≤ free.off }
    requires within { end_of (pair free) ≤ len }
    requires least { 4 ≤ free.rec_len }
    requires room { RoomForAll (S.spare s.old) 5 40 }
    ensures given { OnOk result (IsTrue S.tells → (offs : List ℕ) → CanBeGiven (S.form s.old) (S.image s.old) offs (pair free)
        → Given (S.form s.old) (S.image s.old) (S.image s.new) offs (pair free)) }
    ensures stopped { OnErr result (IsTrue S.tells → (offs : List ℕ) → CanBeGiven (S.form s.old) (S.image s.old) offs (pair free)
        → GiveStopped (S.form s.old) (S.image s.old) (S.image s.new) offs (pair free)) }
    ensures size { S.size s.new ≡ S.size s.old }
    ensures wrote { Wrote S.Space s.old s.new }
    ensures cause { HasCause (S.faults s.old) (S.faults s.new) result }
    ensures bytes_read { S.bytes_read s.old ≤ S.bytes_read s.new }
    ensures walked { IsTrue S.tells → (offs : List ℕ)
        → Free (S.form s.old) (S.image s.old) (word (S.form s.old).order (S.image s.old) free_head) offs
        → (most : ℕ) → FreeBesideUpTo (S.form s.old) (S.image s.old) offs (pair free) most → RoseUpTo (give_reads most) (S.bytes_read s.old) (S.bytes_read s.new) }
    ensures spare { LeavesRoom 5 40 (S.spare s.old) (S.spare s.new) }
{
    let beside = find_neighbours(s, len, &free)?;
    take_out(s, beside.next)?;
    let previous = beside.previous_then();
    take_out(s, previous)?;
    put_first(s, &free.with_next(beside.next).with_previous(previous))
}

/// Gives a hand to the free list. The free record that starts where the hand ends and the one that ends where it starts
/// become one record with it, which is the first of the list.
///
/// It looks beside the hand, and reads 12 bytes at most for it. Only where something there has the magic of a free
/// record, it goes along the list once, up to the last that does, or to the end where one of them isn't in the list: it
/// reads the head of the list, 4 bytes of each record in front of that one, and 24 bytes of each that is found. It
/// writes four words at most besides the new record's header: its tailer, the head of the list, and the words that led
/// to the two neighbours. It answers `Io` where the disk failed. Where the file doesn't hold the hand, or is longer
/// than the words of a file can say, nothing is written.
pub fn give<S: Space>(s: &mut S, h: Hand) -> Result<(), FreeRefusal>
    requires room { RoomForAll (S.spare s.old) 5 40 }
    ensures given { OnOk result (IsTrue S.tells → (offs : List ℕ) → CanBeGiven (S.form s.old) (S.image s.old) offs h
        → Given (S.form s.old) (S.image s.old) (S.image s.new) offs h) }
    ensures kept { OnOk result (IsTrue S.tells → S.size s.old < 2 ^ 32 → (hands : List HandPair) → AcceptWith (S.form s.old) (S.image s.old) (h ∷ hands)
        → GivenBack (S.form s.old) (S.image s.old) (S.image s.new) h hands) }
    ensures stopped { OnErr result (IsTrue S.tells → (offs : List ℕ) → CanBeGiven (S.form s.old) (S.image s.old) offs h
        → GiveStopped (S.form s.old) (S.image s.old) (S.image s.new) offs h) }
    ensures stopped_kept { OnErr result (IsTrue S.tells → S.size s.old < 2 ^ 32 → (hands : List HandPair) → AcceptWith (S.form s.old) (S.image s.old) (h ∷ hands)
        → StillAccepted (S.form s.old) (S.image s.old) (S.image s.new) hands) }
    ensures only { IsTrue S.tells → (offs : List ℕ) → CanBeGiven (S.form s.old) (S.image s.old) offs h
        → OnlyListChanges (S.form s.old) (S.image s.old) (S.image s.new) offs (h ∷ []) }
    ensures left_out { (h.0 < data_start (S.form s.old)) ⊎ (S.size s.old < end_of h) ⊎ (2 ^ 32 ≤ S.size s.old) → S.image s.new ≡ S.image s.old }
    ensures refusal { IfErr result (λ e. e ≡ Io) }
    ensures size { S.size s.new ≡ S.size s.old }
    ensures wrote { Wrote S.Space s.old s.new }
    ensures cause { HasCause (S.faults s.old) (S.faults s.new) result }
    ensures bytes_read { S.bytes_read s.old ≤ S.bytes_read s.new }
    ensures walked { IsTrue S.tells → (offs : List ℕ)
        → Free (S.form s.old) (S.image s.old) (word (S.form s.old).order (S.image s.old) free_head) offs
        → (most : ℕ) → FreeBesideUpTo (S.form s.old) (S.image s.old) offs h most → RoseUpTo (give_reads most) (S.bytes_read s.old) (S.bytes_read s.new) }
    ensures spare { LeavesRoom 5 40 (S.spare s.old) (S.spare s.new) }
{
    let free = Stretch {
        off: h.off(),
        rec_len: h.rec_len(),
    };
    h.end();
    let len = s.len()?;
    if (free.off as u64) < data_start(s.hash_size()) || len < free.end() || len > u32::MAX as u64 {
        return Ok(());
    }
    Ok(give_stretch(s, len, free)?)
}

// Taking a record from the free list.

ghost use Rattle.std.specs.Prelude.{◌≡◌, ◌⊎◌, ◌+◌, ◌-◌, ◌%◌, ◌^◌, ◌<◌, ◌≤◌, IsTrue, List, [], ◌∷◌, ℕ, length, Some, IfOk, OnOk, OnErr, IfSome, false};
ghost use Rattle.tdb_disk.specs.Count.{HasCause, RoseUpTo};
ghost use Rattle.tdb_words.specs.Word.{word};
ghost use Rattle.tdb_space.specs.Frame.{Wrote};
ghost use Rattle.tdb_space.specs.Form.{free_head};
ghost use Rattle.tdb_space.specs.Chain.{Free};
ghost use Rattle.tdb_space.specs.Extents.{HandPair};
ghost use Rattle.tdb_space.specs.Accepted.{AcceptWith};
ghost use Rattle.tdb_space.specs.Stays.{OnlyIn};
ghost use Rattle.tdb_space.specs.Spare.{RoomForAll};
ghost use Rattle.tdb_space.specs.SpareLeft.{LeavesRoom};
ghost use Rattle.tdb_free.specs.FreeList.{ListedOnce, is_long_enough, free_pairs};
ghost use Rattle.tdb_space.specs.Standing.{Stands};
ghost use Rattle.tdb_free.specs.Search.{IsFirst, SpotWithin};
ghost use Rattle.tdb_free.specs.Removal.{LeftOut};
ghost use Rattle.tdb_free.specs.OnlyList.{OnlyListChanges};
ghost use Rattle.tdb_free.specs.TakenFrom.{TakenFrom, TakenKept, IsTaken};
ghost use Rattle.tdb_free.specs.Shortened.{Shortened};
ghost use Rattle.tdb_free.specs.Reads.{search_reads, write_reads};

use crate::removal::take_out;
use crate::search::{Spot, find_fit};
use tdb_space::{Hand, Io, Space};
use tdb_words::{FREE, Rec, rec_bytes, word_bytes};

/// How many bytes of a record's extent are left at least where it is cut.
const LEAST_LEFT: u32 = 36;

/// Takes a record out of the list, whole: the word that led to it leads past it.
fn take_whole<S: Space>(s: &mut S, spot: &Spot) -> Result<Hand, Io>
    requires within { SpotWithin spot.now (S.form s.old) (S.size s.old) }
    requires room { RoomForAll (S.spare s.old) 1 4 }
    ensures hand { IfOk result (λ h. h ≡ (spot.now.off, spot.now.rec_len)) }
    ensures past { OnOk result (IsTrue S.tells → LeftOut (S.form s.old) (S.image s.old) (S.image s.new) (Some spot.now)) }
    ensures stopped { OnErr result (IsTrue S.tells → (S.image s.new ≡ S.image s.old) ⊎ LeftOut (S.form s.old) (S.image s.old) (S.image s.new) (Some spot.now)) }
    ensures size { S.size s.new ≡ S.size s.old }
    ensures wrote { Wrote S.Space s.old s.new }
    ensures cause { HasCause (S.faults s.old) (S.faults s.new) result }
    ensures bytes_read { RoseUpTo (write_reads 1 4) (S.bytes_read s.old) (S.bytes_read s.new) }
    ensures spare { LeavesRoom 1 4 (S.spare s.old) (S.spare s.new) }
{
    take_out(s, Some(*spot))?;
    Ok(Hand::new(spot.off, spot.rec_len))
}

/// Makes a record shorter. It writes the header's words behind the first one, those of what it held as 0, and a tailer
/// at the new end.
fn shorten<S: Space>(s: &mut S, spot: &Spot, rec_len: u32) -> Result<(), Io>
    requires stands { Stands (S.form s.old) (S.size s.old) spot.now.off spot.now.rec_len }
    requires whole_words { rec_len % 4 ≡ 0 }
    requires least { 4 ≤ rec_len }
    requires shorter { rec_len + 24 ≤ spot.now.rec_len }
    requires room { RoomForAll (S.spare s.old) 2 24 }
    ensures shortened { OnOk result (IsTrue S.tells → Shortened (S.form s.old) (S.image s.old) (S.image s.new) spot.now.off rec_len) }
    ensures stopped { OnErr result (IsTrue S.tells → OnlyIn ((spot.now.off + 4, 20 + spot.now.rec_len) ∷ []) (S.image s.old) (S.image s.new)) }
    ensures size { S.size s.new ≡ S.size s.old }
    ensures wrote { Wrote S.Space s.old s.new }
    ensures cause { HasCause (S.faults s.old) (S.faults s.new) result }
    ensures bytes_read { RoseUpTo (write_reads 2 24) (S.bytes_read s.old) (S.bytes_read s.new) }
    ensures spare { LeavesRoom 2 24 (S.spare s.old) (S.spare s.new) }
{
    let order = s.order();
    let rec = Rec {
        next: spot.next,
        rec_len,
        key_len: 0,
        data_len: 0,
        full_hash: 0,
        magic: FREE,
    };
    s.write(spot.off as u64 + 4, &rec_bytes(&rec, order)[4..])?;
    s.write(
        spot.off as u64 + 20 + rec_len as u64,
        &word_bytes(24 + rec_len, order),
    )?;
    Ok(())
}

/// Takes the end of a record, with so many bytes behind its header. The front stays in its place in the list.
fn take_end<S: Space>(s: &mut S, spot: &Spot, rec_len: u32) -> Result<Hand, Io>
    requires stands { Stands (S.form s.old) (S.size s.old) spot.now.off spot.now.rec_len }
    requires short { spot.now.off + 24 + spot.now.rec_len < 2 ^ 32 }
    requires whole_words { rec_len % 4 ≡ 0 }
    requires least { 4 ≤ rec_len }
    requires left { rec_len + 36 ≤ spot.now.rec_len }
    requires room { RoomForAll (S.spare s.old) 2 24 }
    ensures hand { IfOk result (λ h. h ≡ (spot.now.off + spot.now.rec_len - rec_len, rec_len)) }
    ensures shortened { OnOk result (IsTrue S.tells → Shortened (S.form s.old) (S.image s.old) (S.image s.new) spot.now.off (spot.now.rec_len - (24 + rec_len))) }
    ensures stopped { OnErr result (IsTrue S.tells → OnlyIn ((spot.now.off + 4, 20 + spot.now.rec_len) ∷ []) (S.image s.old) (S.image s.new)) }
    ensures size { S.size s.new ≡ S.size s.old }
    ensures wrote { Wrote S.Space s.old s.new }
    ensures cause { HasCause (S.faults s.old) (S.faults s.new) result }
    ensures bytes_read { RoseUpTo (write_reads 2 24) (S.bytes_read s.old) (S.bytes_read s.new) }
    ensures spare { LeavesRoom 2 24 (S.spare s.old) (S.spare s.new) }
{
    shorten(s, spot, spot.rec_len - (24 + rec_len))?;
    Ok(Hand::new(spot.off + (spot.rec_len - rec_len), rec_len))
}

/// Takes the end of a record where at least 36 bytes of its extent are left then, and else the whole of it.
fn take_from<S: Space>(s: &mut S, spot: &Spot, rec_len: u32) -> Result<Hand, Io>
    requires within { SpotWithin spot.now (S.form s.old) (S.size s.old) }
    requires short { spot.now.off + 24 + spot.now.rec_len < 2 ^ 32 }
    requires whole_words { rec_len % 4 ≡ 0 }
    requires least { 4 ≤ rec_len }
    requires long { rec_len ≤ spot.now.rec_len }
    requires room { RoomForAll (S.spare s.old) 2 24 }
    ensures taken { IfOk result (λ h. IsTrue S.tells → (offs : List ℕ) → ListedOnce (S.form s.old) (S.image s.old) offs
        → IsFirst (S.form s.old) (S.image s.old) offs (is_long_enough rec_len) spot.now
        → TakenFrom (S.form s.old) (S.image s.old) (S.image s.new) offs rec_len h) }
    ensures stopped { OnErr result (IsTrue S.tells → (offs : List ℕ) → ListedOnce (S.form s.old) (S.image s.old) offs
        → IsFirst (S.form s.old) (S.image s.old) offs (is_long_enough rec_len) spot.now
        → OnlyListChanges (S.form s.old) (S.image s.old) (S.image s.new) offs []) }
    ensures stands { IfOk result (λ h. Stands (S.form s.old) (S.size s.old) h.0 h.1) }
    ensures long { IfOk result (λ h. rec_len ≤ h.1) }
    ensures no_longer { IfOk result (λ h. h.1 < rec_len + 36) }
    ensures size { S.size s.new ≡ S.size s.old }
    ensures wrote { Wrote S.Space s.old s.new }
    ensures cause { HasCause (S.faults s.old) (S.faults s.new) result }
    ensures bytes_read { RoseUpTo (write_reads 2 24) (S.bytes_read s.old) (S.bytes_read s.new) }
    ensures spare { LeavesRoom 2 24 (S.spare s.old) (S.spare s.new) }
{
    if spot.rec_len - rec_len < LEAST_LEFT {
        take_whole(s, spot)
    } else {
        take_end(s, spot, rec_len)
    }
}

/// Takes a record with at least so many bytes behind its header from the free list, if it has one: the first that is
/// long enough. Where 36 bytes or more of its extent would be left, these stay a free record in its place in the list,
/// and its end is taken; else the whole of it is. Nothing is written into what is taken.
///
/// It reads the head of the list, and 24 bytes of each record up to the one that is taken from. It writes one word, or
/// the header and the tailer of what stays. `Io` where the disk failed. Where a record ends past the offsets that words
/// can say, nothing is taken from it or those behind it.
pub fn take_fit<S: Space>(s: &mut S, rec_len: u64) -> Result<Option<Hand>, Io>
    requires whole_words { rec_len % 4 ≡ 0 }
    requires least { 4 ≤ rec_len }
    requires room { RoomForAll (S.spare s.old) 2 24 }
    ensures taken { IfOk result (λ taken. IsTrue S.tells → (offs : List ℕ) → ListedOnce (S.form s.old) (S.image s.old) offs
        → length (S.image s.old) < 2 ^ 32 → IsTaken (S.form s.old) (S.image s.old) (S.image s.new) offs rec_len taken) }
    ensures kept { IfOk result (λ taken. IfSome taken (λ h. IsTrue S.tells → (hands : List HandPair) → AcceptWith (S.form s.old) (S.image s.old) hands
        → length (S.image s.old) < 2 ^ 32 → TakenKept (S.form s.old) (S.image s.old) (S.image s.new) rec_len hands h)) }
    ensures only { IsTrue S.tells → (offs : List ℕ) → ListedOnce (S.form s.old) (S.image s.old) offs
        → OnlyListChanges (S.form s.old) (S.image s.old) (S.image s.new) offs [] }
    ensures stands { IfOk result (λ taken. IfSome taken (λ h. Stands (S.form s.old) (S.size s.old) h.0 h.1)) }
    ensures long { IfOk result (λ taken. IfSome taken (λ h. rec_len ≤ h.1)) }
    ensures no_longer { IfOk result (λ taken. IfSome taken (λ h. h.1 < rec_len + 36)) }
    ensures size { S.size s.new ≡ S.size s.old }
    ensures wrote { Wrote S.Space s.old s.new }
    ensures cause { HasCause (S.faults s.old) (S.faults s.new) result }
    ensures bytes_read { S.bytes_read s.old ≤ S.bytes_read s.new }
    ensures reads { IsTrue S.tells → (offs : List ℕ)
        → Free (S.form s.old) (S.image s.old) (word (S.form s.old).order (S.image s.old) free_head) offs
        → RoseUpTo (search_reads rec_len (free_pairs (S.form s.old) (S.image s.old) offs) + write_reads 2 24) (S.bytes_read s.old) (S.bytes_read s.new) }
    ensures spare { LeavesRoom 2 24 (S.spare s.old) (S.spare s.new) }
{
    let len = s.len()?;
    let Some(spot) = find_fit(s, len, rec_len)? else {
        return Ok(None);
    };
    if spot.end() > u32::MAX as u64 {
        return Ok(None);
    }
    Ok(Some(take_from(s, &spot, rec_len as u32)?))
}

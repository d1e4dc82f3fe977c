// Taking a record from the free list, or from what the file grows by.

ghost use Rattle.std.specs.Prelude.{◌≡◌, ◌⊎◌, ◌+◌, ◌-◌, ◌*◌, ◌/◌, ◌%◌, ◌^◌, ◌<◌, ◌≤◌, IsTrue, IfOk, IfErr, IfSome, OnOk, List, [], ◌∷◌, ℕ, Some, false, length};
ghost use Rattle.tdb_disk.specs.Count.{HasCause, HasCauseOf, RoseUpTo};
ghost use Rattle.tdb_disk.specs.Image.{padded};
ghost use Rattle.tdb_space.specs.Frame.{Wrote};
ghost use Rattle.tdb_space.specs.Extents.{HandPair};
ghost use Rattle.tdb_space.specs.Accepted.{AcceptWith};
ghost use Rattle.tdb_space.specs.Stays.{ChainsStay};
ghost use Rattle.tdb_space.specs.Spare.{RoomForAll, RoomUpTo};
ghost use Rattle.tdb_space.specs.SpareLeft.{LeavesRoom};
ghost use Rattle.tdb_free.specs.FreeList.{Given, free_pairs};
ghost use Rattle.tdb_space.specs.Standing.{Stands};
ghost use Rattle.tdb_free.specs.OnlyList.{OnlyListChanges};
ghost use Rattle.tdb_free.specs.Growth.{grown_length, grown_hand, CanBeTaken, TakenBy, RefusedRightly, SaysLengths};
ghost use Rattle.tdb_free.specs.Reads.{give_reads, take_reads};
ghost use Rattle.tdb_free.specs.declared.refusal.FreeRefusal.{FreeRefusal};
ghost use Rattle.tdb_free.specs.declared.refusal.FreeRefusal.TheVariants.{Io};

use crate::giving::give;
use crate::refusal::FreeRefusal;
use crate::taking::take_fit;
use tdb_space::{Hand, Space};

/// A file grows to a multiple of so many bytes.
const PAGE: u64 = 4096;

/// The length to which a file of `len` bytes grows for `need` bytes more, if the limit lets it.
fn grown_length(len: u64, need: u64, limit: u64) -> Option<u64>
    requires short { need < 2 ^ 40 }
    requires limit { limit ≤ 4294963200 }
    ensures { result ≡ grown_length len need limit }
{
    if len > limit {
        return None;
    }
    let least = len + need;
    let usual = least.max(len + len / 4).div_ceil(PAGE) * PAGE;
    if usual <= limit {
        Some(usual)
    } else if least <= limit {
        Some(least)
    } else {
        None
    }
}

/// Makes a file of `len` bytes longer, and gives what it gains to the free list as one record.
fn grow_by<S: Space>(s: &mut S, len: u64, to: u64) -> Result<(), FreeRefusal>
    requires length { len ≡ S.size s.old }
    requires aligned { len % 4 ≡ 0 }
    requires aligned_to { to % 4 ≡ 0 }
    requires least { len + 28 ≤ to }
    requires short { to < 2 ^ 32 }
    requires room { RoomForAll (S.spare s.old) 5 40 }
    requires reach { RoomUpTo (S.spare s.old) to }
    ensures given { OnOk result (IsTrue S.tells → (offs : List ℕ) → CanBeTaken (S.form s.old) (S.image s.old) offs
        → Given (S.form s.old) (padded (S.image s.old) to) (S.image s.new) offs (grown_hand len to)) }
    ensures only { IsTrue S.tells → (offs : List ℕ) → CanBeTaken (S.form s.old) (S.image s.old) offs
        → OnlyListChanges (S.form s.old) (S.image s.old) (S.image s.new) offs [] }
    ensures refusal { IfErr result (λ e. e ≡ Io) }
    ensures size { (S.size s.new ≡ S.size s.old) ⊎ (S.size s.new ≡ to) }
    ensures grown { OnOk result (S.size s.new ≡ to) }
    ensures wrote { Wrote S.Space s.old s.new }
    ensures cause { HasCause (S.faults s.old) (S.faults s.new) result }
    ensures bytes_read { S.bytes_read s.old ≤ S.bytes_read s.new }
    ensures reads { IsTrue S.tells → (offs : List ℕ) → CanBeTaken (S.form s.old) (S.image s.old) offs → RoseUpTo (give_reads (length offs)) (S.bytes_read s.old) (S.bytes_read s.new) }
    ensures spare { LeavesRoom 5 40 (S.spare s.old) (S.spare s.new) }
{
    s.grow(to)?;
    give(s, Hand::new(len as u32, (to - len - 24) as u32))
}

/// Takes a record with at least so many bytes behind its header: from the free list, or where none is long enough after
/// the file has grown.
///
/// The file grows by the record and its header, or by a quarter where that is more, to a multiple of 4096 bytes; where
/// that is more than `limit` bytes, by the record and its header alone. What it gains goes into the free list as one
/// record, and the record is taken from there. It goes along the list once for each take, and at most once to give.
/// `Full` where no free record is long enough and the file would be longer than `limit`; `Io` where the disk failed.
pub fn take<S: Space>(s: &mut S, rec_len: u64, limit: u64) -> Result<Hand, FreeRefusal>
    requires whole_words { rec_len % 4 ≡ 0 }
    requires least { 4 ≤ rec_len }
    requires short { rec_len < 2 ^ 36 }
    requires limit { limit ≤ 4294963200 }
    requires room { RoomForAll (S.spare s.old) 16 256 }
    requires reach { RoomUpTo (S.spare s.old) (S.size s.old + S.size s.old / 4 + 24 + rec_len + 4096) }
    ensures taken { IfOk result (λ h. IsTrue S.tells → (offs : List ℕ) → CanBeTaken (S.form s.old) (S.image s.old) offs
        → TakenBy (S.form s.old) (S.image s.old) (S.image s.new) offs rec_len limit h) }
    ensures kept { IfOk result (λ h. IsTrue S.tells → S.size s.old < 2 ^ 32 → (hands : List HandPair) → AcceptWith (S.form s.old) (S.image s.old) hands
        → ChainsStay (S.form s.old) (S.image s.old) (S.image s.new) (h ∷ hands)) }
    ensures full { IfErr result (λ e. IsTrue S.tells → (offs : List ℕ) → CanBeTaken (S.form s.old) (S.image s.old) offs
        → RefusedRightly (S.form s.old) (S.image s.old) (S.image s.new) offs rec_len limit e) }
    ensures only { IsTrue S.tells → (offs : List ℕ) → CanBeTaken (S.form s.old) (S.image s.old) offs
        → OnlyListChanges (S.form s.old) (S.image s.old) (S.image s.new) offs [] }
    ensures lengths { IfErr result (λ e. SaysLengths (S.size s.old) rec_len e) }
    ensures stands { IfOk result (λ h. Stands (S.form s.old) (S.size s.new) h.0 h.1) }
    ensures long { IfOk result (λ h. rec_len ≤ h.1) }
    ensures no_longer { IfOk result (λ h. h.1 < rec_len + 36) }
    ensures size { (S.size s.new ≡ S.size s.old) ⊎ (grown_length (S.size s.old) (24 + rec_len) limit ≡ Some (S.size s.new)) }
    ensures wrote { Wrote S.Space s.old s.new }
    ensures cause { HasCauseOf Io (S.faults s.old) (S.faults s.new) result }
    ensures bytes_read { S.bytes_read s.old ≤ S.bytes_read s.new }
    ensures reads { IsTrue S.tells → (offs : List ℕ) → CanBeTaken (S.form s.old) (S.image s.old) offs → RoseUpTo (take_reads rec_len (free_pairs (S.form s.old) (S.image s.old) offs)) (S.bytes_read s.old) (S.bytes_read s.new) }
    ensures spare { LeavesRoom 9 88 (S.spare s.old) (S.spare s.new) }
{
    if let Some(hand) = take_fit(s, rec_len)? {
        return Ok(hand);
    }
    let len = s.len()?;
    let need = 24 + rec_len;
    if len % 4 != 0 {
        return Err(FreeRefusal::Full { len, need });
    }
    let Some(to) = grown_length(len, need, limit) else {
        return Err(FreeRefusal::Full { len, need });
    };
    grow_by(s, len, to)?;
    match take_fit(s, rec_len)? {
        Some(hand) => Ok(hand),
        None => Err(FreeRefusal::Full { len, need }),
    }
}

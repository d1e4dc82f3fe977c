// The bytes that lie in no extent.

ghost use Rattle.std.specs.Prelude.{◌≡◌, ◌-◌, ◌≤◌, IsTrue, length, OnOk, IfOk, IfErr, position};
ghost use Rattle.std.specs.List.Sorted.{IsNonDecreasingBy};
ghost use Rattle.tdb_disk.specs.Count.{HasCauseOf, RoseUpTo};
ghost use Rattle.tdb_words.specs.declared.what.What.TheVariants.{Stray as IsStray};
ghost use Rattle.tdb_space.specs.Form.{data_start};
ghost use Rattle.tdb_check.specs.Seen.{Names};
ghost use Rattle.tdb_check.specs.Extent.{extents_seen, off_of};
ghost use Rattle.tdb_check.specs.Stray.{is_content, NoContent, FirstContent, NoStrayAmong, FirstStrayAmong, held_by_none};
ghost use Rattle.tdb_space.specs.Frame.{Looked};
ghost use Rattle.tdb_check.specs.declared.refusal.CheckRefusal.TheVariants.{Io};

use crate::extent::Extent;
use crate::front::records_start;
use crate::refusal::CheckRefusal;
use tdb_space::Space;
use tdb_words::{PADDING, What};

/// How many bytes are read at once: as many as a disk that keeps blocks reads past them, so that long stretches of such
/// bytes aren't kept.
const BLOCK: usize = 65536;

/// Where the first byte stands that is neither 0 nor padding.
fn first_content(bytes: &[u8]) -> Option<usize>
    ensures { result ≡ position is_content bytes.now }
{
    bytes.iter().position(|byte| *byte != 0 && *byte != PADDING)
}

/// Whether each byte from one offset up to another is 0 or padding; the least that isn't is stray. A block serves for
/// the reads.
fn scan_gap<S: Space>(
    s: &mut S,
    from: u64,
    to: u64,
    block: &mut [u8; 65536],
) -> Result<(), CheckRefusal>
    requires within { to ≤ S.size s.old }
    ensures clean { OnOk result (IsTrue S.tells → NoContent (S.image s.old) from to) }
    ensures found { IfErr result (λ e. IsTrue S.tells → Names e (λ fault. (fault.0 ≡ IsStray) × FirstContent (S.image s.old) from to fault.1)) }
    ensures bytes_read { RoseUpTo (to - from) (S.bytes_read s.old) (S.bytes_read s.new) }
    ensures looked { Looked S.Space s.old s.new }
    ensures cause { HasCauseOf Io (S.faults s.old) (S.faults s.new) result }
{
    let mut at = from;
    while at < to {
        let count = (to - at).min(BLOCK as u64) as usize;
        let piece = &mut block[..count];
        s.read(at, piece)?;
        if let Some(place) = first_content(piece) {
            return Err(CheckRefusal::Corrupt {
                what: What::Stray,
                at: at + place as u64,
            });
        }
        at += count as u64;
    }
    Ok(())
}

/// Looks through the bytes from where the records begin up to the end of the file, of `len` bytes, that lie in none of
/// these extents: how many they are, or the least of them that is neither 0 nor padding. The extents stand in the order
/// of their offsets. Where they leave no gap, nothing is read, and a short gap costs one read.
pub fn scan<S: Space>(s: &mut S, len: u64, extents: &[Extent]) -> Result<u64, CheckRefusal>
    requires length { len ≡ S.size s.old }
    requires heads { data_start (S.form s.old) ≤ len }
    requires ordered { IsNonDecreasingBy off_of extents.now }
    ensures clean { IfOk result (λ n. IsTrue S.tells → length (S.image s.old) ≡ len
        → NoStrayAmong (extents_seen extents.now) (data_start (S.form s.old)) (S.image s.old) × (n ≡ held_by_none (extents_seen extents.now) (data_start (S.form s.old)) (S.image s.old))) }
    ensures found { IfErr result (λ e. IsTrue S.tells → length (S.image s.old) ≡ len
        → Names e (λ fault. (fault.0 ≡ IsStray) × FirstStrayAmong (extents_seen extents.now) (data_start (S.form s.old)) (S.image s.old) fault.1)) }
    ensures bytes_read { RoseUpTo len (S.bytes_read s.old) (S.bytes_read s.new) }
    ensures looked { Looked S.Space s.old s.new }
    ensures cause { HasCauseOf Io (S.faults s.old) (S.faults s.new) result }
{
    let mut block = [0u8; BLOCK];
    let mut from = records_start(s.hash_size());
    let mut dead = 0u64;
    for e in extents {
        let to = (e.off as u64).min(len);
        scan_gap(s, from, to, &mut block)?;
        dead += to.saturating_sub(from);
        from = from.max(e.end().min(len));
    }
    scan_gap(s, from, len, &mut block)?;
    Ok(dead + (len - from))
}

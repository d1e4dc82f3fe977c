// The search of the free list for a record that is long enough.

ghost use Rattle.std.specs.Prelude.{◌≡◌, ◌+◌, ◌*◌, ◌≤◌, IsTrue, IfOk, IfSome, List, ℕ};
ghost use Rattle.tdb_disk.specs.Count.{HasCause, RoseUpTo};
ghost use Rattle.tdb_words.specs.Word.{word};
ghost use Rattle.tdb_space.specs.Frame.{Looked};
ghost use Rattle.tdb_space.specs.Form.{free_head};
ghost use Rattle.tdb_space.specs.Chain.{Free};
ghost use Rattle.tdb_free.specs.FreeList.{is_long_enough, end_of, free_pairs};
ghost use Rattle.tdb_free.specs.Search.{IsSpot, SpotWithin, once_left, spot_pair};
ghost use Rattle.tdb_free.specs.Reads.{search_reads};

use crate::record::first_free;
use tdb_space::{FREE_HEAD, Io, Space, read_listed};

/// A free record, and the word that leads to it.
#[derive(Clone, Copy, Debug, PartialEq, Eq)]
pub(crate) struct Spot {
    /// The offset of the record.
    pub off: u32,

    /// The offset of the word that leads to it: the head of the list, or the first word of the record before it.
    pub before: u32,

    /// The offset of the record behind it in the list, or 0.
    pub next: u32,

    /// How many bytes follow the record's header.
    pub rec_len: u32,
}

impl Spot {
    /// The place behind the record's last byte.
    pub(crate) fn end(&self) -> u64
        ensures { result ≡ end_of (spot_pair self.now) }
    {
        self.off as u64 + 24 + self.rec_len as u64
    }

    /// The record as it stands in the list once another one has left it.
    pub(crate) fn once_left(self, other: &Spot) -> Spot
        ensures { result ≡ once_left self other.now }
    {
        Spot {
            off: self.off,
            before: if self.before == other.off {
                other.before
            } else {
                self.before
            },
            next: if other.before == self.off {
                other.next
            } else {
                self.next
            },
            rec_len: self.rec_len,
        }
    }
}

/// The first record of the free list with at least so many bytes behind its header, if there is one. `len` is the
/// length of the file.
///
/// It reads the head of the list, and 24 bytes of each record up to that one. Where the file's bytes aren't those of a
/// free list, a word that leads to no place where a record can stand ends the list as a 0 does, and so do as many
/// records as the file has words.
pub(crate) fn find_fit<S: Space>(s: &mut S, len: u64, rec_len: u64) -> Result<Option<Spot>, Io>
    requires length { len ≡ S.size s.old }
    ensures found { IfOk result (λ found. IsTrue S.tells → (offs : List ℕ)
        → Free (S.form s.old) (S.image s.old) (word (S.form s.old).order (S.image s.old) free_head) offs
        → IsSpot (S.form s.old) (S.image s.old) offs (is_long_enough rec_len) found) }
    ensures within { IfOk result (λ found. IfSome found (λ p. SpotWithin p (S.form s.old) (S.size s.old))) }
    ensures long { IfOk result (λ found. IfSome found (λ p. rec_len ≤ p.rec_len)) }
    ensures looked { Looked S.Space s.old s.new }
    ensures cause { HasCause (S.faults s.old) (S.faults s.new) result }
    ensures bytes_read { S.bytes_read s.old ≤ S.bytes_read s.new }
    ensures reads { IsTrue S.tells → (offs : List ℕ)
        → Free (S.form s.old) (S.image s.old) (word (S.form s.old).order (S.image s.old) free_head) offs
        → RoseUpTo (search_reads rec_len (free_pairs (S.form s.old) (S.image s.old) offs)) (S.bytes_read s.old) (S.bytes_read s.new) }
{
    let mut before = FREE_HEAD;
    let mut at = first_free(s, len)?;
    for _turn in 0..len / 4 {
        let Some(rec) = read_listed(s, len, at)? else {
            return Ok(None);
        };
        if rec_len <= rec.rec_len as u64 {
            return Ok(Some(Spot {
                off: at,
                before,
                next: rec.next,
                rec_len: rec.rec_len,
            }));
        }
        before = at;
        at = rec.next;
    }
    Ok(None)
}

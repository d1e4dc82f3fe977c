// The walk along the free list to the records that are sought, each by its offset.

ghost use Rattle.std.specs.Prelude.{◌≡◌, ◌+◌, ◌*◌, ◌≤◌, ◌&&◌, IsTrue, IfOk, IfSome, List, Option, Some, ℕ, is_some, is_none};
ghost use Rattle.tdb_disk.specs.Count.{HasCause, RoseUpTo};
ghost use Rattle.tdb_words.specs.Word.{word};
ghost use Rattle.tdb_space.specs.Frame.{Looked};
ghost use Rattle.tdb_space.specs.Form.{free_head};
ghost use Rattle.tdb_space.specs.Chain.{Free};
ghost use Rattle.tdb_free.specs.Search.{SpotWithin};
ghost use Rattle.tdb_free.specs.Walk.{IsLed, IsFound, IsUpTo, LinkWithin, known_at, link_of};

use crate::record::first_free;
use crate::search::Spot;
use tdb_space::{FREE_HEAD, Io, Space, header_stands, read_listed, read_word};

/// A word of the free list, and where it leads.
#[derive(Clone, Copy, Debug, PartialEq, Eq)]
pub(crate) struct Link {
    /// The offset of the word: the head of the list, or the first word of a record.
    pub before: u32,

    /// What the word says: the offset of a record of the list, or 0 at the end.
    pub at: u32,
}

/// What is known of a record that is sought, if one is, once the walk has come to this link.
fn known_at(sought: Option<u64>, known: Option<Link>, here: Link) -> Option<Link>
    ensures { result ≡ known_at sought known here }
{
    match known {
        Some(link) => Some(link),
        None => match sought {
            Some(off) if off == here.at as u64 => Some(here),
            _ => None,
        },
    }
}

/// Whether a record is sought, and the link to it isn't known.
fn is_open(sought: Option<u64>, known: Option<Link>) -> bool
    ensures { result ≡ (is_some sought && is_none known) }
{
    sought.is_some() && known.is_none()
}

/// The links of the free list to the records at two offsets, of those that are sought and that are in the list. `len`
/// is the length of the file.
///
/// It reads the head of the list, and 4 bytes of each record in front of the last one that is sought, or of each where
/// one of them isn't in the list. Where the file's bytes aren't those of a free list, a word that leads to no place
/// where a header can stand ends the list as a 0 does, and so do as many records as the file has words.
#[tactic(auto, using(crate::proofs::Walked::seen_start, crate::proofs::Walked::seen_end, crate::proofs::Walked::seen_all, crate::proofs::Walked::seen_more, crate::proofs::Walked::seen_met, crate::proofs::Walked::seen_far, crate::proofs::Walked::within_more))]
pub(crate) fn find_links<S: Space>(
    s: &mut S,
    len: u64,
    first: Option<u64>,
    second: Option<u64>,
) -> Result<(Option<Link>, Option<Link>), Io>
    requires length { len ≡ S.size s.old }
    ensures first { IfOk result (λ links. IsTrue S.tells → (offs : List ℕ)
        → Free (S.form s.old) (S.image s.old) (word (S.form s.old).order (S.image s.old) free_head) offs
        → IsLed (S.form s.old) (S.image s.old) offs first links.0) }
    ensures second { IfOk result (λ links. IsTrue S.tells → (offs : List ℕ)
        → Free (S.form s.old) (S.image s.old) (word (S.form s.old).order (S.image s.old) free_head) offs
        → IsLed (S.form s.old) (S.image s.old) offs second links.1) }
    ensures first_within { IfOk result (λ links. IfSome links.0 (λ k. LinkWithin (S.size s.old) first k)) }
    ensures second_within { IfOk result (λ links. IfSome links.1 (λ k. LinkWithin (S.size s.old) second k)) }
    ensures looked { Looked S.Space s.old s.new }
    ensures cause { HasCause (S.faults s.old) (S.faults s.new) result }
    ensures bytes_read { S.bytes_read s.old ≤ S.bytes_read s.new }
    ensures walked { IsTrue S.tells → (offs : List ℕ)
        → Free (S.form s.old) (S.image s.old) (word (S.form s.old).order (S.image s.old) free_head) offs
        → (most : ℕ) → IsUpTo (S.form s.old) (S.image s.old) offs first most → IsUpTo (S.form s.old) (S.image s.old) offs second most
        → RoseUpTo (4 + 4 * most) (S.bytes_read s.old) (S.bytes_read s.new) }
{
    let mut to_first = None;
    let mut to_second = None;
    let mut here = Link {
        before: FREE_HEAD,
        at: first_free(s, len)?,
    };
    for _turn in 0..len / 4 {
        if !header_stands(here.at, len, s.hash_size()) {
            return Ok((to_first, to_second));
        }
        to_first = known_at(first, to_first, here);
        to_second = known_at(second, to_second, here);
        if !is_open(first, to_first) && !is_open(second, to_second) {
            return Ok((to_first, to_second));
        }
        here = Link {
            before: here.at,
            at: read_word(s, here.at as u64)?,
        };
    }
    Ok((to_first, to_second))
}

/// The record to which a link leads, if there is a link and a record can stand there. `len` is the length of the file.
/// It reads 24 bytes at most.
pub(crate) fn read_spot<S: Space>(
    s: &mut S,
    len: u64,
    link: Option<Link>,
) -> Result<Option<Spot>, Io>
    requires length { len ≡ S.size s.old }
    requires within { IfSome link (λ k. (sought : Option ℕ) × LinkWithin (S.size s.old) sought k) }
    ensures found { IfOk result (λ found. IsTrue S.tells → (offs : List ℕ)
        → Free (S.form s.old) (S.image s.old) (word (S.form s.old).order (S.image s.old) free_head) offs
        → (sought : Option ℕ) → IsLed (S.form s.old) (S.image s.old) offs sought link → IsFound (S.form s.old) (S.image s.old) offs sought found) }
    ensures within { IfOk result (λ found. IfSome found (λ p. SpotWithin p (S.form s.old) (S.size s.old))) }
    ensures led { IfOk result (λ found. IfSome found (λ p. link ≡ Some (link_of p))) }
    ensures looked { Looked S.Space s.old s.new }
    ensures cause { HasCause (S.faults s.old) (S.faults s.new) result }
    ensures bytes_read { RoseUpTo 24 (S.bytes_read s.old) (S.bytes_read s.new) }
{
    let Some(here) = link else {
        return Ok(None);
    };
    let Some(rec) = read_listed(s, len, here.at)? else {
        return Ok(None);
    };
    Ok(Some(Spot {
        off: here.at,
        before: here.before,
        next: rec.next,
        rec_len: rec.rec_len,
    }))
}

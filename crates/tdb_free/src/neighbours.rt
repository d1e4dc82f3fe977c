// The free records beside a stretch of the file.

ghost use Rattle.std.specs.Prelude.{◌≡◌, ◌+◌, ◌*◌, ◌≤◌, IsTrue, IfOk, IfSome, OnOk, List, ℕ};
ghost use Rattle.tdb_disk.specs.Count.{HasCause, RoseUpTo};
ghost use Rattle.tdb_words.specs.Word.{word};
ghost use Rattle.tdb_space.specs.Frame.{Looked};
ghost use Rattle.tdb_space.specs.Form.{free_head};
ghost use Rattle.tdb_space.specs.Chain.{Free};
ghost use Rattle.tdb_free.specs.Look.{FreeBeside};
ghost use Rattle.tdb_free.specs.Search.{Beside, BesideWithin, previous_then, that_ends};
ghost use Rattle.tdb_free.specs.Stretch.{pair};
ghost use Rattle.tdb_free.specs.Walk.{FreeBesideUpTo};

use crate::look::{free_start, free_start_before};
use crate::search::Spot;
use crate::stretch::Stretch;
use crate::walk::{find_links, read_spot};
use tdb_space::{Io, Space};

/// The free records beside a stretch of the file.
#[derive(Clone, Copy, Debug, PartialEq, Eq)]
pub(crate) struct Neighbours {
    /// The first of the list that starts where the stretch ends.
    pub next: Option<Spot>,

    /// The first of the list that ends where the stretch starts.
    pub previous: Option<Spot>,
}

impl Neighbours {
    /// The one before the stretch, as it stands in the list once the next one has left it.
    pub(crate) fn previous_then(&self) -> Option<Spot>
        ensures { result ≡ previous_then self.now.next self.now.previous }
    {
        match (self.next, self.previous) {
            (Some(next), Some(previous)) => Some(previous.once_left(&next)),
            (_, previous) => previous,
        }
    }
}

/// The record, if one was found and it ends at an offset.
fn that_ends(found: Option<Spot>, at: u32) -> Option<Spot>
    ensures { result ≡ that_ends found at }
{
    match found {
        Some(spot) if spot.end() == at as u64 => Some(spot),
        _ => None,
    }
}

/// The free records beside a stretch. `len` is the length of the file.
///
/// It looks at what is beside the stretch, and reads 12 bytes at most for it. Only where something there looks free, it
/// goes along the list once, up to the last that does, or to the end where one of them isn't in the list: it reads the
/// list's head, 4 bytes of each record in front of that one, and 24 bytes of each that is found.
pub(crate) fn find_neighbours<S: Space>(
    s: &mut S,
    len: u64,
    free: &Stretch,
) -> Result<Neighbours, Io>
    requires length { len ≡ S.size s.old }
    ensures found { IfOk result (λ found. IsTrue S.tells → (offs : List ℕ)
        → Free (S.form s.old) (S.image s.old) (word (S.form s.old).order (S.image s.old) free_head) offs
        → Beside (S.form s.old) (S.image s.old) offs (pair free.now) found) }
    ensures within { IfOk result (λ found. BesideWithin (S.form s.old) (S.size s.old) (pair free.now) found) }
    ensures looked { Looked S.Space s.old s.new }
    ensures cause { HasCause (S.faults s.old) (S.faults s.new) result }
    ensures bytes_read { S.bytes_read s.old ≤ S.bytes_read s.new }
    ensures walked { IsTrue S.tells → (offs : List ℕ)
        → Free (S.form s.old) (S.image s.old) (word (S.form s.old).order (S.image s.old) free_head) offs
        → (most : ℕ) → FreeBesideUpTo (S.form s.old) (S.image s.old) offs (pair free.now) most
        → RoseUpTo (64 + 4 * most) (S.bytes_read s.old) (S.bytes_read s.new) }
    ensures unwalked { OnOk result (IsTrue S.tells → (FreeBeside (S.form s.old).order (S.image s.old) (pair free.now) → ⊥)
        → RoseUpTo 12 (S.bytes_read s.old) (S.bytes_read s.new)) }
{
    let behind = free_start(s, len, free.end())?;
    let before = free_start_before(s, len, free.off)?;
    if behind.is_none() && before.is_none() {
        return Ok(Neighbours {
            next: None,
            previous: None,
        });
    }
    let links = find_links(s, len, behind, before)?;
    let next = read_spot(s, len, links.0)?;
    let previous = read_spot(s, len, links.1)?;
    Ok(Neighbours {
        next,
        previous: that_ends(previous, free.off),
    })
}

// The walk along the free list.

ghost use Rattle.std.specs.Prelude.{◌≡◌, ◌+◌, sum_by, ◌<◌, ◌≤◌, IsTrue, length, OnOk, IfErr};
ghost use Rattle.tdb_disk.specs.Count.{HasCauseOf, RoseUpTo};
ghost use Rattle.tdb_space.specs.Form.{data_start, free_head};
ghost use Rattle.tdb_space.specs.Chain.{free_of};
ghost use Rattle.tdb_space.specs.FirstFault.{FirstInList, free_list};
ghost use Rattle.tdb_check.specs.Seen.{Names};
ghost use Rattle.tdb_check.specs.Followed.{FollowedTo};
ghost use Rattle.tdb_check.specs.Reads.{record_reads};
ghost use Rattle.tdb_space.specs.Frame.{Looked};
ghost use Rattle.tdb_check.specs.declared.refusal.CheckRefusal.TheVariants.{Io};

use crate::area::can_stand;
use crate::extent::{Extent, put};
use crate::list_kind::ListKind;
use crate::record::read_record;
use crate::refusal::CheckRefusal;
use crate::trail::Trail;
use std::alloc::Global;
use tdb_space::Space;
use tdb_words::{What, word_at};

/// Follows the free list to its end, and puts the extents of its records behind those that are there; or answers what
/// is first wrong with it.
pub fn follow_free_list<S: Space>(
    alloc: Global,
    s: &mut S,
    len: u64,
    extents: &mut Vec<Extent>,
) -> Result<(), CheckRefusal>
    requires length { len ≡ S.size s.old }
    requires heads { data_start (S.form s.old) ≤ len }
    requires chains { 0 < (S.form s.old).chains }
    ensures sound { OnOk result (IsTrue S.tells → length (S.image s.old) ≡ len → FollowedTo (S.form s.old) free_list (S.image s.old) free_head extents.old.items extents.new.items) }
    ensures bad { IfErr result (λ e. IsTrue S.tells → length (S.image s.old) ≡ len → Names e (FirstInList (S.form s.old) free_list (S.image s.old) free_head)) }
    ensures looked { Looked S.Space s.old s.new }
    ensures cause { HasCauseOf Io (S.faults s.old) (S.faults s.new) result }
    ensures bytes_read { IsTrue S.tells → length (S.image s.old) ≡ len → RoseUpTo (4 + sum_by (record_reads (S.form s.old) (S.image s.old)) (free_of (S.form s.old) (S.image s.old))) (S.bytes_read s.old) (S.bytes_read s.new) }
{
    let mut word = [0u8; 4];
    s.read(168, &mut word)?;
    let mut at = word_at(&word, s.order());
    let mut place = 168u64;
    let mut met = Trail::new(alloc);
    for _turn in 0..len {
        if at == 0 {
            return Ok(());
        }
        if !can_stand(at, len, s.hash_size()) {
            return Err(CheckRefusal::Corrupt {
                what: What::FreeOut,
                at: place,
            });
        }
        if met.contains(at) {
            return Err(CheckRefusal::Corrupt {
                what: What::FreeLoop,
                at: place,
            });
        }
        let r = match read_record(s, len, ListKind::Free, at) {
            Ok(found) => found.header,
            Err(e) => return Err(e),
        };
        met.note(at)?;
        put(
            extents,
            Extent {
                off: at,
                rec_len: r.rec_len,
            },
        )?;
        place = at as u64;
        at = r.next;
    }
    Err(CheckRefusal::Corrupt {
        what: What::FreeLoop,
        at: place,
    })
}

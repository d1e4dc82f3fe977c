// The list of the free records of a file.

ghost use Rattle.std.specs.Prelude.{◌≡◌, ◌≤◌, IsTrue, List, ℕ, IfOk};
ghost use Rattle.tdb_disk.specs.Count.{HasCauseOf};
ghost use Rattle.tdb_words.specs.Word.{word};
ghost use Rattle.tdb_space.specs.Frame.{Looked};
ghost use Rattle.tdb_space.specs.Form.{free_head};
ghost use Rattle.tdb_space.specs.Chain.{Free};
ghost use Rattle.tdb_free.specs.FreeList.{free_pairs};
ghost use Rattle.tdb_free.specs.declared.list_refusal.ListRefusal.TheVariants.{Io};

use crate::free_recs::FreeRecs;
use crate::list_refusal::ListRefusal;
use crate::record::first_free;
use std::alloc::Global;
use tdb_space::{Space, read_listed};

/// The free records of a file from the head of the free list on. `Memory` where that is wanting, and `Io` where the
/// disk failed.
///
/// It reads the head of the list and 24 bytes of each record. Where the file's bytes aren't those of a free list, a
/// word that leads to no place where a record can stand ends the list as a 0 does, and so do as many records as the
/// file has words.
pub fn list<S: Space>(alloc: Global, s: &mut S) -> Result<FreeRecs, ListRefusal>
    ensures listed { IfOk result (λ records. IsTrue S.tells → (offs : List ℕ)
        → Free (S.form s.old) (S.image s.old) (word (S.form s.old).order (S.image s.old) free_head) offs
        → records ≡ free_pairs (S.form s.old) (S.image s.old) offs) }
    ensures looked { Looked S.Space s.old s.new }
    ensures cause { HasCauseOf Io (S.faults s.old) (S.faults s.new) result }
    ensures bytes_read { S.bytes_read s.old ≤ S.bytes_read s.new }
{
    let len = s.len()?;
    let mut records = FreeRecs::new(alloc);
    let mut at = first_free(s, len)?;
    for _turn in 0..len / 4 {
        let Some(rec) = read_listed(s, len, at)? else {
            return Ok(records);
        };
        records.push((at, rec.rec_len))?;
        at = rec.next;
    }
    Ok(records)
}

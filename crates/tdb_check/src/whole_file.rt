// The check of a whole file.

ghost use Rattle.std.specs.Prelude.{◌≡◌, ◌<◌, ◌≤◌, IsTrue, IfOk, IfErr, IfSome, OnOk, length};
ghost use Rattle.tdb_disk.specs.Count.{HasCauseOf, RoseUpTo};
ghost use Rattle.tdb_space.specs.Form.{form_of, data_start};
ghost use Rattle.tdb_space.specs.Extents.{area};
ghost use Rattle.tdb_space.specs.Accepted.{Accept};
ghost use Rattle.tdb_space.specs.FirstFault.{HeadsSound, IsFirstFault};
ghost use Rattle.tdb_check.specs.Area.{area_seen};
ghost use Rattle.tdb_check.specs.Seen.{Names};
ghost use Rattle.tdb_check.specs.Report.{IsFormOf, Counted};
ghost use Rattle.tdb_check.specs.Reads.{sequence_reads, check_reads};
ghost use Rattle.tdb_space.specs.Frame.{Looked};
ghost use Rattle.tdb_check.specs.declared.refusal.CheckRefusal.TheVariants.{Io};

use crate::area::{area_len, put_area, read_area};
use crate::in_sequence::check_in_sequence;
use crate::judge::judge_extents;
use crate::lists::follow_lists;
use crate::refusal::CheckRefusal;
use crate::report::Report;
use crate::view_front::check_front;
use std::alloc::Global;
use tdb_space::Space;

/// Checks a file: it answers what it counted where the file is accepted, and else the file's first fault and its place.
/// The condition on told bytes is that the view has the form that the file's header states.
///
/// The faults come in this order: the front, the undo area, chain 0 and the next chains, the free list, the least byte
/// that is held twice, and the least byte outside all records and the undo area that is neither 0 nor padding.
///
/// The file is first read once from its front, in pieces of 128 KiB, as long as records and the undo area leave no gap,
/// and each record tells the list that it is in. Where that holds to the end, the lists have just these records, and no
/// two keys are the same, all is known. Else the lists are walked along.
///
/// It takes time n log n in the number n of records. In a walk a record costs one read where its header, key and tailer
/// stand within 128 bytes; bytes that belong to no record are read in blocks of 65,536. Keys are read again only where
/// two of a chain, or in the first pass two of the file, have one Jenkins hash, whatever the file's own hash is. The
/// first pass keeps 12 bytes a record, 12 more a used one, 4 for each 1,024 bytes of the file, and at its end 4 a
/// chain, and forgets them before a walk. That keeps 8 bytes a record, and somewhat more for each record of the list
/// that it follows, whatever its keys are. It changes nothing.
///
/// Of a file that it accepts it reads at most 15 times its length from the front; and in a walk 200 bytes, 4 a chain,
/// 132 a record, each used key 16 times, the length of the file once, and both keys of each two of one chain that have
/// one length and one first word of their digests. Where a key comes twice it may look through the keys of a chain 65
/// times to find the first that does.
///
/// It ends whatever the bytes are, also where they change while it reads; then the answer tells what stood at each
/// place when that was read. `Io` says that the disk failed, and `Memory` that an allocation did.
pub fn check<S: Space>(alloc: Global, s: &mut S) -> Result<Report, CheckRefusal>
    ensures accepted { IfOk result (λ r. IsTrue S.tells → IsFormOf (S.form s.old) (S.image s.old) → Accept (S.image s.old) × Counted (S.image s.old) r) }
    ensures first_fault { IfErr result (λ e. IsTrue S.tells → IsFormOf (S.form s.old) (S.image s.old) → Names e (IsFirstFault (S.image s.old))) }
    ensures looked { Looked S.Space s.old s.new }
    ensures cause { HasCauseOf Io (S.faults s.old) (S.faults s.new) result }
    ensures bytes_read { OnOk result (IsTrue S.tells → RoseUpTo (check_reads 1 (S.form s.old) (S.image s.old)) (S.bytes_read s.old) (S.bytes_read s.new)) }
    ensures bytes_in_all { IsTrue S.tells → RoseUpTo (check_reads 65 (S.form s.old) (S.image s.old)) (S.bytes_read s.old) (S.bytes_read s.new) }
{
    let len = check_front(s)?;
    let area = read_area(s, len)?;
    if let Some(report) = check_in_sequence(alloc, s, len, area)? {
        return Ok(report);
    }
    let mut lists = follow_lists(alloc, s, len)?;
    put_area(&mut lists.extents, area)?;
    let dead_bytes = judge_extents(s, len, &mut lists.extents)?;
    Ok(Report {
        live: lists.live,
        dead_records: lists.dead,
        free_records: lists.free,
        dead_bytes,
        area: area_len(area),
    })
}

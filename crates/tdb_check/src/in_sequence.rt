// The check of a file whose records stand one after the other, in the order in which they stand.

ghost use Rattle.std.specs.Prelude.{◌≡◌, ℕ, ◌+◌, ◌-◌, ◌*◌, ◌%◌, ◌<◌, ◌≤◌, [], None, IsTrue, length, IfOk, IfErr, IfSome};
ghost use Rattle.tdb_disk.specs.Count.{HasCauseOf, RoseUpTo};
ghost use Rattle.tdb_space.specs.Form.{form_of, data_start};
ghost use Rattle.tdb_space.specs.Extents.{once, times, area};
ghost use Rattle.tdb_space.specs.Accepted.{Accept};
ghost use Rattle.tdb_space.specs.FirstFault.{HeadsSound};
ghost use Rattle.tdb_check.specs.Area.{area_seen};
ghost use Rattle.tdb_check.specs.Seen.{Names};
ghost use Rattle.tdb_check.specs.Report.{Counted};
ghost use Rattle.tdb_check.specs.Reads.{sequence_reads};
ghost use Rattle.tdb_check.specs.Keys.{KeptIn};
ghost use Rattle.tdb_check.specs.Links.{PutDown, GatheredTo, count_of};
ghost use Rattle.tdb_space.specs.Frame.{Looked};
ghost use Rattle.tdb_check.specs.declared.refusal.CheckRefusal.TheVariants.{Io};

use crate::all_links::AllLinks;
use crate::area::area_len;
use crate::extent::Extent;
use crate::front::records_start;
use crate::keys::Keys;
use crate::next_record::next_record;
use crate::refusal::CheckRefusal;
use crate::report::Report;
use crate::window::Window;
use std::alloc::Global;
use tdb_space::Space;

/// How many bytes of a file are held at once, where it has that many.
const ROOM: u64 = 131_072;

/// How many bytes of a file there are for each record that has room from the start.
const BYTES_A_RECORD: u64 = 64;

/// How many records have room from the start at most.
const MOST_AT_ONCE: u64 = 1_048_576;

/// The offset as that of a record, where one can stand from there to the end of a file of `len` bytes.
fn place_in(at: u64, len: u64) -> Option<u32>
    ensures { IfSome result (λ place. (place ≡ at) × (at + 24 ≤ len) × (place % 4 ≡ 0)) }
{
    if len.saturating_sub(at) < 24 || at % 4 != 0 {
        return None;
    }
    u32::try_from(at).ok()
}

/// The offset behind the undo area where that begins at this offset, which is then passed; else the offset itself.
fn pass_area(undo: &mut Option<Extent>, at: u64) -> u64
    ensures passed { (i : ℕ) → times (area_seen undo.old) i ≡ once (at, result - at) i + times (area_seen undo.new) i }
    ensures forward { at ≤ result }
{
    match *undo {
        Some(e) if e.off as u64 == at => {
            *undo = None;
            e.end()
        }
        _ => at,
    }
}

/// Goes through all records of a file of `len` bytes in the order in which they stand, and past this undo area, puts
/// each into its list, and notes its key. False where they leave a gap, or one is bad or is filed elsewhere.
fn gather<S: Space>(
    alloc: Global,
    s: &mut S,
    len: u64,
    undo: Option<Extent>,
    lists: &mut AllLinks,
    keys: &mut Keys,
) -> Result<bool, CheckRefusal>
    requires length { len ≡ S.size s.old }
    requires heads { data_start (S.form s.old) ≤ len }
    requires chains { 0 < (S.form s.old).chains }
    requires none { count_of lists.old ≡ 0 }
    ensures gathered { IfOk result (λ all. IsTrue all → IsTrue S.tells → length (S.image s.old) ≡ len
        → PutDown (S.form s.old) (S.image s.old) [] lists.old → KeptIn (S.form s.old) (S.image s.old) [] keys.old
        → GatheredTo (S.form s.old) (S.image s.old) undo None lists.new keys.new len) }
    ensures no_fault { IfErr result (λ e. Names e (λ _. ⊥)) }
    ensures looked { Looked S.Space s.old s.new }
    ensures cause { HasCauseOf Io (S.faults s.old) (S.faults s.new) result }
    ensures bytes_read { RoseUpTo (len - data_start (S.form s.old)) (S.bytes_read s.old) (S.bytes_read s.new) }
{
    let start = records_start(s.hash_size());
    let mut window = Window::new(alloc, start, len.min(ROOM) as usize)?;
    let mut left = undo;
    let mut at = pass_area(&mut left, start);
    while at < len {
        let Some(place) = place_in(at, len) else {
            return Ok(false);
        };
        let Some(member) = next_record(s, len, &mut window, place)? else {
            return Ok(false);
        };
        let header = &member.found.header;
        lists.put(member.list, place, header)?;
        keys.note(place, &member.found)?;
        at = pass_area(&mut left, at + 24 + header.rec_len as u64);
    }
    if at != len {
        return Ok(false);
    }
    Ok(left.is_none())
}

/// The report of a file of `len` bytes with this undo area, where its records and the area stand one after the other,
/// from the heads to the end, each record in the list that its header tells, and no two keys are the same. None of any
/// other file, and of one where more than eight keys have one Jenkins hash.
pub(crate) fn check_in_sequence<S: Space>(
    alloc: Global,
    s: &mut S,
    len: u64,
    undo: Option<Extent>,
) -> Result<Option<Report>, CheckRefusal>
    requires length { len ≡ S.size s.old }
    requires heads { data_start (S.form s.old) ≤ len }
    requires chains { 0 < (S.form s.old).chains }
    ensures accepted { IfOk result (λ found. IfSome found (λ r. IsTrue S.tells → length (S.image s.old) ≡ len → S.form s.old ≡ form_of (S.image s.old) → HeadsSound (S.image s.old)
        → area_seen undo ≡ area (S.form s.old).order (S.image s.old) → Accept (S.image s.old) × Counted (S.image s.old) r)) }
    ensures no_fault { IfErr result (λ e. IsTrue S.tells → length (S.image s.old) ≡ len → Names e (λ _. ⊥)) }
    ensures looked { Looked S.Space s.old s.new }
    ensures cause { HasCauseOf Io (S.faults s.old) (S.faults s.new) result }
    ensures bytes_read { IsTrue S.tells → length (S.image s.old) ≡ len → RoseUpTo (sequence_reads (S.image s.old)) (S.bytes_read s.old) (S.bytes_read s.new) }
{
    let room = (len / BYTES_A_RECORD).min(MOST_AT_ONCE) as usize;
    let mut lists = AllLinks::with_room(alloc, room)?;
    let mut keys = Keys::with_room(alloc, room)?;
    if !gather(alloc, s, len, undo, &mut lists, &mut keys)? {
        return Ok(None);
    }
    let report = Report {
        live: lists.live,
        dead_records: lists.dead,
        free_records: lists.free_records,
        dead_bytes: 0,
        area: area_len(undo),
    };
    if !lists.are_lists(alloc, s)? {
        return Ok(None);
    }
    keys.keep_alike(alloc)?;
    if !keys.differ(s, len)? {
        return Ok(None);
    }
    Ok(Some(report))
}

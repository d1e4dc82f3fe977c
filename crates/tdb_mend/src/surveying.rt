// What a damaged file is read as is checked, but for its stray bytes.

ghost use Rattle.std.specs.Prelude.{◌≡◌, ◌++◌, ◌<◌, ◌≤◌, IsTrue, IfOk, IfErr, OnOk, length};
ghost use Rattle.tdb_disk.specs.Count.{HasCauseOf};
ghost use Rattle.tdb_words.specs.declared.what.What.TheVariants.{Overlap as IsOverlap};
ghost use Rattle.tdb_space.specs.Form.{data_start};
ghost use Rattle.tdb_space.specs.Frame.{Looked};
ghost use Rattle.tdb_check.specs.Area.{area_seen};
ghost use Rattle.tdb_check.specs.Extent.{extents_seen};
ghost use Rattle.tdb_check.specs.Lists.{FirstInLists};
ghost use Rattle.tdb_check.specs.Report.{IsFormOf};
ghost use Rattle.tdb_check.specs.Seen.{Names};
ghost use Rattle.tdb_check.specs.Stray.{FirstOverlapAmong, NoOverlapAmong};
ghost use Rattle.tdb_check.specs.declared.refusal.CheckRefusal.TheVariants.{Io};
ghost use Rattle.tdb_mend.specs.Counting.{ListsShown, strays_among};
ghost use Rattle.tdb_mend.specs.Mended.{IsFirstButStrays, IsSoundButStrays, strays};

use crate::counting::count_strays;
use std::alloc::{AllocError, Global};
use tdb_check::{
    CheckRefusal, Extent, check_front, first_overlap, follow_chains, follow_free_list, read_area,
    sort_extents,
};
use tdb_space::Space;
use tdb_words::What;

/// Puts the extent of the undo area at the end, where there is one.
fn put_area(extents: &mut Vec<Extent>, area: Option<Extent>) -> Result<(), AllocError>
    ensures { OnOk result (extents_seen extents.new.items ≡ extents_seen extents.old.items ++ area_seen area) }
{
    if let Some(extent) = area {
        extents.push(extent)?;
    }
    Ok(())
}

/// Follows the chains and then the free list of a file of `len` bytes, and answers the extents of their records; or
/// what is first wrong with one of them.
fn follow_records<S: Space>(alloc: Global, s: &mut S, len: u64) -> Result<Vec<Extent>, CheckRefusal>
    requires length { len ≡ S.size s.old }
    requires heads { data_start (S.form s.old) ≤ len }
    requires chains { 0 < (S.form s.old).chains }
    ensures sound { IfOk result (λ extents. IsTrue S.tells → length (S.image s.old) ≡ len → ListsShown (S.form s.old) (S.image s.old) extents.items) }
    ensures bad { IfErr result (λ e. IsTrue S.tells → length (S.image s.old) ≡ len → Names e (FirstInLists (S.form s.old) (S.image s.old))) }
    ensures looked { Looked S.Space s.old s.new }
    ensures cause { HasCauseOf Io (S.faults s.old) (S.faults s.new) result }
{
    let mut extents = Vec::new(alloc);
    follow_chains(alloc, s, len, &mut extents)?;
    follow_free_list(alloc, s, len, &mut extents)?;
    Ok(extents)
}

/// How many stray bytes a file of `len` bytes has beside these extents; or the least byte that two of them share. It
/// puts them into the order of their offsets.
fn strays_beside<S: Space>(
    s: &mut S,
    len: u64,
    extents: &mut Vec<Extent>,
) -> Result<u64, CheckRefusal>
    requires length { len ≡ S.size s.old }
    requires heads { data_start (S.form s.old) ≤ len }
    ensures apart { OnOk result (NoOverlapAmong (extents_seen extents.old.items)) }
    ensures count { IfOk result (λ n. IsTrue S.tells → n ≡ strays_among (extents_seen extents.old.items) (data_start (S.form s.old)) (S.image s.old)) }
    ensures bad { IfErr result (λ e. Names e (λ fault. (fault.0 ≡ IsOverlap) × FirstOverlapAmong (extents_seen extents.old.items) fault.1)) }
    ensures most { IfOk result (λ n. n ≤ len) }
    ensures looked { Looked S.Space s.old s.new }
    ensures cause { HasCauseOf Io (S.faults s.old) (S.faults s.new) result }
{
    sort_extents(extents);
    if let Some(at) = first_overlap(extents) {
        return Err(CheckRefusal::Corrupt {
            what: What::Overlap,
            at: at as u64,
        });
    }
    let strays = count_strays(s, len, extents)?;
    Ok(strays)
}

/// Checks a view as `check` does, but for stray bytes, and answers how many of these it has. The condition on told
/// bytes is that the view has the form that its header states.
pub(crate) fn survey<S: Space>(alloc: Global, s: &mut S) -> Result<u64, CheckRefusal>
    ensures sound { IfOk result (λ n. IsTrue S.tells → IsFormOf (S.form s.old) (S.image s.old)
        → IsSoundButStrays (S.image s.old) × (n ≡ strays (S.image s.old))) }
    ensures first_fault { IfErr result (λ e. IsTrue S.tells → IsFormOf (S.form s.old) (S.image s.old)
        → Names e (IsFirstButStrays (S.image s.old))) }
    ensures most { IfOk result (λ n. n ≤ S.size s.old) }
    ensures looked { Looked S.Space s.old s.new }
    ensures cause { HasCauseOf Io (S.faults s.old) (S.faults s.new) result }
{
    let len = check_front(s)?;
    let area = read_area(s, len)?;
    let mut extents = follow_records(alloc, s, len)?;
    put_area(&mut extents, area)?;
    let strays = strays_beside(s, len, &mut extents)?;
    Ok(strays)
}

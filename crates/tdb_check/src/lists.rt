// The walks along all lists of a file.

ghost use Rattle.std.specs.Prelude.{◌≡◌, ◌<◌, ◌≤◌, IsTrue, length, IfOk, IfErr, OnOk};
ghost use Rattle.tdb_disk.specs.Count.{HasCauseOf, RoseUpTo};
ghost use Rattle.tdb_space.specs.Form.{data_start};
ghost use Rattle.tdb_check.specs.Seen.{Names};
ghost use Rattle.tdb_check.specs.Lists.{ListsFollowed, FirstInLists};
ghost use Rattle.tdb_check.specs.Reads.{lists_reads};
ghost use Rattle.tdb_space.specs.Frame.{Looked};
ghost use Rattle.tdb_check.specs.declared.refusal.CheckRefusal.TheVariants.{Io};

use crate::chains::follow_chains;
use crate::extent::Extent;
use crate::free_list::follow_free_list;
use crate::refusal::CheckRefusal;
use std::alloc::Global;
use tdb_space::Space;

/// What the lists of a file hold.
#[derive(Drop)]
pub(crate) struct Listed {
    /// The extents of the records of all chains, and behind them of those of the free list.
    pub extents: Vec<Extent>,

    /// How many used records there are.
    pub live: u64,

    /// How many dead records stand in chains.
    pub dead: u64,

    /// How many records the free list has.
    pub free: u64,
}

/// Follows the chains and then the free list of a file of `len` bytes; or answers what is first wrong with one of them.
pub(crate) fn follow_lists<S: Space>(
    alloc: Global,
    s: &mut S,
    len: u64,
) -> Result<Listed, CheckRefusal>
    requires length { len ≡ S.size s.old }
    requires heads { data_start (S.form s.old) ≤ len }
    requires chains { 0 < (S.form s.old).chains }
    ensures sound { IfOk result (λ l. IsTrue S.tells → length (S.image s.old) ≡ len → ListsFollowed (S.form s.old) (S.image s.old) l) }
    ensures bad { IfErr result (λ e. IsTrue S.tells → length (S.image s.old) ≡ len → Names e (FirstInLists (S.form s.old) (S.image s.old))) }
    ensures looked { Looked S.Space s.old s.new }
    ensures cause { HasCauseOf Io (S.faults s.old) (S.faults s.new) result }
    ensures bytes_read { OnOk result (IsTrue S.tells → length (S.image s.old) ≡ len → RoseUpTo (lists_reads 1 (S.form s.old) (S.image s.old)) (S.bytes_read s.old) (S.bytes_read s.new)) }
    ensures bytes_in_all { IsTrue S.tells → length (S.image s.old) ≡ len → RoseUpTo (lists_reads 65 (S.form s.old) (S.image s.old)) (S.bytes_read s.old) (S.bytes_read s.new) }
{
    let mut extents = Vec::new(alloc);
    let live = follow_chains(alloc, s, len, &mut extents)?;
    let chained = extents.len() as u64;
    follow_free_list(alloc, s, len, &mut extents)?;
    let listed = extents.len() as u64;
    Ok(Listed {
        extents,
        live,
        dead: chained.saturating_sub(live),
        free: listed.saturating_sub(chained),
    })
}

// Explicit locks are taken and let go.

ghost use Rattle.std.specs.Prelude.{◌≡◌, ◌↔◌, ◌-◌, ◌^◌, ◌<◌, ◌≤◌, [], None, Some, IsTrue, OnOk, OnErr, IfErr, MatchOption};
ghost use Rattle.tdb_locks.specs.HeldLocks.{AreCounts, Raises, Lowers, SetsAll, count_of, count_of_all, total_of};
ghost use Rattle.tdb_locks.specs.LockTable.{held as held_by};
ghost use Rattle.tdb_steps.specs.LockRows.{IsLetGo, StandsAlone};
ghost use Rattle.tdb_openers.specs.Locked.{chain_row, all_row, IsTaken, IsInTheWay, SameHeld, more_of, less_of};

use tdb_locks::{Held, Kind, LockRefusal, Locks};
use tdb_steps::{LockRow, Region, covers, let_go_of, take_lock};

/// How many times an opener can hold chains and all records explicitly: the count of its locks has room for a cursor.
const MOST_HELD: u64 = u64::MAX - 1;

/// Whether nothing more can be held explicitly.
fn is_full(held: &Held) -> bool
    ensures { IsTrue result ↔ 2 ^ 64 - 2 ≤ total_of held.now }
{
    held.total() >= MOST_HELD
}

/// The lock of a chain for writing.
fn row_of_chain(chain: u32) -> LockRow
    ensures { result ≡ chain_row chain }
{
    LockRow {
        turn: 0,
        region: Region::Chain(chain),
        kind: Kind::Write,
    }
}

/// The lock of all records.
pub(crate) fn row_of_all(kind: Kind) -> LockRow
    ensures { result ≡ all_row kind }
{
    LockRow {
        turn: 0,
        region: Region::AllRecords,
        kind,
    }
}

/// Holds a chain once more, and locks it for writing unless the explicit locks cover it.
///
/// `Conflict` is the first one. `Memory` where that is wanting, or where the count of the chain or that of all explicit
/// locks is at its greatest. After both all is as it was.
pub(crate) fn hold_chain(
    locks: &mut Locks,
    owner: u32,
    held: &mut Held,
    chain: u32,
) -> Result<(), LockRefusal>
    requires counts { AreCounts held.old.chains }
    requires few { total_of held.old < 2 ^ 64 - 1 }
    ensures taken { OnOk result (IsTaken held.old owner locks.old locks.new (chain_row chain)) }
    ensures raised { OnOk result (Raises held.old held.new chain) }
    ensures room { OnOk result (count_of held.old chain < 2 ^ 32 - 1) }
    ensures refused { IfErr result (IsInTheWay locks.old owner (chain_row chain)) }
    ensures err { OnErr result (locks.new ≡ locks.old) }
    ensures same { OnErr result (SameHeld held.old held.new) }
    ensures counts { AreCounts held.new.chains }
    ensures few { total_of held.new < 2 ^ 64 - 1 }
{
    let row = row_of_chain(chain);
    if held.chain_count(chain) == u32::MAX {
        return Err(LockRefusal::Memory);
    }
    if is_full(held) {
        return Err(LockRefusal::Memory);
    }
    let covered = covers(held, row);
    held.raise_chain(chain)?;
    if covered {
        return Ok(());
    }
    if let Err(refusal) = locks.try_lock(owner, row.region.start(), row.region.len(), row.kind) {
        held.lower_chain(chain);
        return Err(refusal);
    }
    Ok(())
}

/// Holds a chain once less, and lets go of it with the last time, unless all records are held for writing. It takes no
/// memory.
pub(crate) fn release_chain(locks: &mut Locks, owner: u32, held: &mut Held, chain: u32)
    requires some { 0 < count_of held.old chain }
    requires alone { StandsAlone (record held.old { chains = [] }) owner locks.old (chain_row chain) }
    ensures lowered { Lowers held.old held.new chain }
    ensures let_go { IsLetGo held.new owner locks.old locks.new (chain_row chain) }
    ensures counts { AreCounts held.new.chains }
{
    held.lower_chain(chain);
    let_go_of(locks, owner, held, row_of_chain(chain));
}

/// The lock of all records once more, if its count isn't at its greatest.
fn more(all: Option<(Kind, u32)>, kind: Kind) -> Option<(Kind, u32)>
    ensures { MatchOption result (2 ^ 32 - 1 ≡ count_of_all all) (λ now. now ≡ more_of all kind) }
{
    match all {
        None => Some((kind, 1)),
        Some((first, count)) => Some((first, count.checked_add(1)?)),
    }
}

/// Holds all records once more, and locks them unless the explicit locks cover them. The kind is that of the first
/// time.
///
/// `Conflict` is the first one. `Memory` where that is wanting, or where this count or that of all explicit locks is at
/// its greatest. After both all is as it was.
pub(crate) fn hold_all(
    locks: &mut Locks,
    owner: u32,
    held: &mut Held,
    kind: Kind,
) -> Result<(), LockRefusal>
    requires few { total_of held.old < 2 ^ 64 - 1 }
    ensures taken { OnOk result (IsTaken held.old owner locks.old locks.new (all_row kind)) }
    ensures set { OnOk result (SetsAll held.old held.new (Some (more_of held.old.all kind))) }
    ensures refused { IfErr result (IsInTheWay locks.old owner (all_row kind)) }
    ensures err { OnErr result (locks.new ≡ locks.old) }
    ensures same { OnErr result (held.new ≡ held.old) }
    ensures few { total_of held.new < 2 ^ 64 - 1 }
{
    if is_full(held) {
        return Err(LockRefusal::Memory);
    }
    let Some(now) = more(held.all(), kind) else {
        return Err(LockRefusal::Memory);
    };
    take_lock(locks, owner, held, row_of_all(kind))?;
    held.set_all(Some(now));
    Ok(())
}

/// The lock of all records once less.
fn less(all: Option<(Kind, u32)>) -> Option<(Kind, u32)>
    ensures { result ≡ less_of all }
{
    match all {
        Some((kind, count)) if count > 1 => Some((kind, count - 1)),
        _ => None,
    }
}

/// Holds all records once less, and lets go of them with the last time. It takes no memory.
pub(crate) fn release_all(locks: &mut Locks, owner: u32, held: &mut Held)
    requires alone { held_by locks.old owner 167 ≡ None }
    ensures set { SetsAll held.old held.new (less_of held.old.all) }
    ensures let_go { IsLetGo held.new owner locks.old locks.new (all_row Kind.Read) }
{
    let now = less(held.all());
    held.set_all(now);
    let_go_of(locks, owner, held, row_of_all(Kind::Read));
}

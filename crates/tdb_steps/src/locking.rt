// The locks of a command's row are taken, and let go.

ghost use Rattle.std.specs.Prelude.{◌≡◌, true, false, Some, None, IfErr, IsOk, OnErr, OnOk};
ghost use Rattle.tdb_locks.specs.LockTable.{ChangesRange, IsFree};
ghost use Rattle.tdb_locks.specs.Refusal.{IsRefusal};
ghost use Rattle.tdb_steps.specs.LockRows.{start_of, end_of, covers_all, is_covered, StandsAlone, IsLetGo, AreLetGo, AllStandAlone};

use crate::rows::{LockRow, Region, Rows};
use tdb_locks::{Held, Kind, LockRefusal, Locks};

/// Whether the explicit lock of all records is there, and of enough strength for this kind.
fn all_cover(held: &Held, kind: Kind) -> bool
    ensures { result ≡ covers_all held.now.all kind }
{
    match held.all() {
        Some((Kind::Write, _)) => true,
        Some((Kind::Read, _)) => kind == Kind::Read,
        None => false,
    }
}

/// Whether the opener's explicit locks cover a lock of a row with enough strength.
pub fn covers(held: &Held, row: LockRow) -> bool
    ensures { result ≡ is_covered held.now row }
{
    match row.region {
        Region::Chain(chain) => held.chain_count(chain) > 0 || all_cover(held, row.kind),
        Region::FreeList => false,
        Region::AllRecords => all_cover(held, row.kind),
    }
}

/// Takes a lock of a row, unless the opener's explicit locks cover it.
pub fn take_lock(
    locks: &mut Locks,
    owner: u32,
    held: &Held,
    row: LockRow,
) -> Result<(), LockRefusal>
    ensures covered { is_covered held.now row ≡ true → IsOk result × (locks.new ≡ locks.old) }
    ensures taken { is_covered held.now row ≡ false
        → OnOk result (ChangesRange locks.old locks.new owner (start_of row.region) (end_of row.region) (Some row.kind) × IsFree locks.old owner (start_of row.region) (end_of row.region) row.kind) }
    ensures refused { IfErr result (λ e. IsRefusal locks.old owner (start_of row.region) (end_of row.region) row.kind e) }
    ensures err { OnErr result ((is_covered held.now row ≡ false) × (locks.new ≡ locks.old)) }
{
    if covers(held, row) {
        return Ok(());
    }
    locks.try_lock(owner, row.region.start(), row.region.len(), row.kind)
}

/// Lets go of a lock of a row, whether it was taken or not, unless the opener's explicit locks cover it. It takes no
/// memory.
pub fn let_go_of(locks: &mut Locks, owner: u32, held: &Held, row: LockRow)
    requires alone { StandsAlone held.now owner locks.old row }
    ensures { IsLetGo held.now owner locks.old locks.new row }
{
    if covers(held, row) {
        return;
    }
    match locks.unlock(owner, row.region.start(), row.region.len()) {
        Ok(()) => {}
        Err(_) => unreachable!(),
    }
}

/// Lets go of the locks of a command. It takes no memory.
pub fn let_go(locks: &mut Locks, owner: u32, held: &Held, rows: &Rows)
    requires alone { AllStandAlone held.now owner locks.old rows.now }
    ensures { AreLetGo held.now owner locks.old locks.new rows.now }
{
    let_go_of(locks, owner, held, rows.first);
    if let Some(row) = rows.second {
        let_go_of(locks, owner, held, row);
    }
}

//! A commit whose undo area is there, with room for its content.
ghost use Rattle.std.specs.Prelude.{◌≡◌, ℕ, List, IsTrue, IfOk, OnOk};
ghost use Rattle.tdb_disk.specs.Count.{HasCause};
ghost use Rattle.tdb_disk.specs.History.{seen};
ghost use Rattle.tdb_disk.specs.Stop.{LeavesOnly, Quiet};
ghost use Rattle.tdb_space.specs.Undoing.{Reopens};
ghost use Rattle.tdb_txn.specs.CommitStates.{planned_plan};
ghost use Rattle.tdb_txn.specs.Planned.{IsPlannedOn};
ghost use Rattle.tdb_txn.specs.Planning.{KeepsArea};

use crate::planned::Plan;
use crate::states::Planned;
use tdb_disk::Disk;
use tdb_space::Io;

/// Makes the file as long as the transaction has it; its undo area stays. A stop leaves a file that opens to the map
/// before the commit.
pub(crate) fn keep_area<D: Disk>(d: &mut D, plan: Plan) -> Result<Planned, Io>
    requires sized { D.size d.old ≡ plan.old_length }
    requires file { plan.file_length ≡ plan.new_length }
    ensures stops { IsTrue D.tells → (b : List ℕ) → Quiet (D.history d.old) → KeepsArea plan (seen (D.history d.old)) b
        → LeavesOnly (D.history d.old) (D.history d.new) (Reopens (seen (D.history d.old))) }
    ensures planned { IfOk result (λ next. IsTrue D.tells → (b : List ℕ) → Quiet (D.history d.old) → KeepsArea plan (seen (D.history d.old)) b
        → IsPlannedOn (planned_plan next) (D.history d.new) (seen (D.history d.old)) b) }
    ensures plan { IfOk result (λ next. planned_plan next ≡ plan) }
    ensures size { OnOk result (D.size d.new ≡ plan.file_length) }
    ensures cause { HasCause (D.faults d.old) (D.faults d.new) result }
    ensures syncs { D.syncs d.new ≡ D.syncs d.old }
    ensures bytes_read { D.bytes_read d.new ≡ D.bytes_read d.old }
{
    d.grow(plan.new_length as u64)?;
    Ok(Planned { plan })
}

//! A commit that gets a new undo area.
ghost use Rattle.std.specs.Prelude.{◌≡◌, ◌+◌, ◌%◌, ◌⊎◌, ℕ, List, IsTrue, IfOk, OnOk};
ghost use Rattle.tdb_disk.specs.Count.{HasCause, RoseBy, RoseUpTo};
ghost use Rattle.tdb_disk.specs.History.{seen};
ghost use Rattle.tdb_disk.specs.Stop.{LeavesOnly, Quiet};
ghost use Rattle.tdb_space.specs.Undoing.{Reopens};
ghost use Rattle.tdb_undo.specs.Placing.{clearing_syncs};
ghost use Rattle.tdb_txn.specs.CommitStates.{planned_plan};
ghost use Rattle.tdb_txn.specs.Planned.{IsPlannedOn};
ghost use Rattle.tdb_txn.specs.Planning.{PlacesArea};

use crate::area_room::AREA_HEADER;
use crate::planned::Plan;
use crate::states::Planned;
use tdb_disk::Disk;
use tdb_space::Io;
use tdb_undo::ensure;

/// Places the new undo area of a plan behind the file, and makes the old one zero, where there is one. A stop leaves a
/// file that opens to the map before the commit. It takes three syncs, and two more where there was an area.
pub(crate) fn place_area<D: Disk>(d: &mut D, plan: Plan) -> Result<Planned, Io>
    requires sized { D.size d.old ≡ plan.old_length }
    requires behind { plan.area ≡ plan.new_length }
    requires words { plan.area_length % 4 ≡ 0 }
    requires file { plan.file_length ≡ plan.area + plan.area_length }
    ensures stops { IsTrue D.tells → (x b : List ℕ) → Quiet (D.history d.old) → PlacesArea plan (seen (D.history d.old)) x b
        → LeavesOnly (D.history d.old) (D.history d.new) (Reopens (seen (D.history d.old))) }
    ensures planned { IfOk result (λ next. IsTrue D.tells → (x b : List ℕ) → Quiet (D.history d.old) → PlacesArea plan (seen (D.history d.old)) x b
        → IsPlannedOn (planned_plan next) (D.history d.new) (seen (D.history d.old)) b) }
    ensures plan { IfOk result (λ next. planned_plan next ≡ plan) }
    ensures size { OnOk result (D.size d.new ≡ plan.file_length) }
    ensures cause { HasCause (D.faults d.old) (D.faults d.new) result }
    ensures syncs { OnOk result (RoseBy 3 (D.syncs d.old) (D.syncs d.new) ⊎ RoseBy 5 (D.syncs d.old) (D.syncs d.new)) }
    ensures as_often { OnOk result (IsTrue D.tells → (x b : List ℕ) → let r = seen (D.history d.old) in PlacesArea plan r x b → RoseBy (clearing_syncs plan.header.order r + 3) (D.syncs d.old) (D.syncs d.new)) }
    ensures bytes_read { RoseUpTo 28 (D.bytes_read d.old) (D.bytes_read d.new) }
{
    ensure(
        d,
        &plan.header,
        plan.area_length - AREA_HEADER,
        plan.area as u64,
    )?;
    Ok(Planned { plan })
}

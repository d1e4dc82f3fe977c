//! The undo area of a planned commit is filled.
ghost use Rattle.std.specs.Prelude.{◌≡◌, ◌+◌, ℕ, List, IsTrue, IfOk};
ghost use Rattle.tdb_disk.specs.Count.{HasCause, RoseBy, RoseUpTo};
ghost use Rattle.tdb_disk.specs.Stop.{LeavesOnly};
ghost use Rattle.tdb_space.specs.Undoing.{Reopens};
ghost use Rattle.tdb_undo.specs.Reads.{run_bytes};

use crate::states::{Filled, Planned};
use tdb_disk::Disk;
use tdb_space::Io;
use tdb_undo::put_content;

impl Planned {
    ghost use Rattle.tdb_txn.specs.Planned.{IsPlannedOn};
    ghost use Rattle.tdb_txn.specs.Filling.{IsFilledFrom};
    ghost use Rattle.tdb_txn.specs.CommitStates.{planned_plan, filled_plan, plan_length};

    /// Keeps what the file has in the runs, in its undo area, and syncs. A stop leaves a file that opens to the map
    /// before the plan. It takes time linear in the content, and no memory.
    pub fn fill<D: Disk>(self, d: &mut D) -> Result<Filled, Io>
        requires { D.size d.old ≡ plan_length (planned_plan self) }
        ensures stops { IsTrue D.tells → (r b : List ℕ) → IsPlannedOn (planned_plan self) (D.history d.old) r b → LeavesOnly (D.history d.old) (D.history d.new) (Reopens r) }
        ensures filled { IfOk result (λ next. IsTrue D.tells → (r b : List ℕ) → IsPlannedOn (planned_plan self) (D.history d.old) r b
            → IsFilledFrom (filled_plan next) (D.history d.new) r b × RoseBy 1 (D.syncs d.old) (D.syncs d.new)) }
        ensures plan { IfOk result (λ next. filled_plan next ≡ planned_plan self) }
        ensures size { D.size d.new ≡ D.size d.old }
        ensures cause { HasCause (D.faults d.old) (D.faults d.new) result }
        ensures at_most { RoseUpTo 1 (D.syncs d.old) (D.syncs d.new) }
        ensures bytes_read { RoseUpTo (28 + run_bytes (planned_plan self).runs) (D.bytes_read d.old) (D.bytes_read d.new) }
    {
        let Planned { plan } = self;
        put_content(d, &plan.header, plan.old_length, &plan.runs)?;
        Ok(Filled { plan })
    }
}

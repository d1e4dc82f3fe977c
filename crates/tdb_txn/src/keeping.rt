//! A transaction becomes the plan of its commit.
ghost use Rattle.std.specs.Prelude.{◌≡◌, ◌+◌, ◌%◌, ◌<◌, ◌≤◌, ◌^◌, ◌⊎◌, ℕ, List, IsTrue, IfOk, OnOk};
ghost use Rattle.tdb_disk.specs.Count.{HasCause, RoseBy, RoseUpTo};
ghost use Rattle.tdb_disk.specs.History.{seen};
ghost use Rattle.tdb_disk.specs.Stop.{LeavesOnly, Quiet};
ghost use Rattle.tdb_space.specs.Planned.{content_length};
ghost use Rattle.tdb_space.specs.Form.{form_of};
ghost use Rattle.tdb_space.specs.Undoing.{Reopens};
ghost use Rattle.tdb_undo.specs.Placing.{clearing_syncs};
ghost use Rattle.tdb_txn.specs.AreaExtent.{CanHold};
ghost use Rattle.tdb_txn.specs.CommitStates.{planned_plan, plan_length};
ghost use Rattle.tdb_txn.specs.EndBelow.{EndBelow};
ghost use Rattle.tdb_txn.specs.Planned.{IsPlannedOn};

use crate::area_kept::keep_area;
use crate::area_placed::place_area;
use crate::planned::Plan;
use crate::states::Planned;
use crate::txn::Txn;
use tdb_disk::Disk;
use tdb_space::Io;
use tdb_undo::Runs;

impl Txn {
    ghost use Rattle.tdb_txn.specs.Committing.{MayKeep, MayPlace};
    ghost use Rattle.tdb_txn.specs.Txn.{txn_start, txn_size, txn_image};

    /// Plans its commit into the undo area that the file has in an extent, with room for the content of these runs, and
    /// makes the file as long as the transaction has it. It gives back the pages that were made ready and aren't used.
    /// A stop leaves a file that opens to the map before the commit.
    pub(crate) fn keep<D: Disk>(
        self,
        d: &mut D,
        area: (u32, u32),
        runs: Runs,
    ) -> Result<Planned, Io>
        requires sized { D.size d.old ≡ txn_start self }
        requires heads { 48 ≤ txn_start self }
        requires short { txn_size self < 2 ^ 32 }
        requires place { CanHold (txn_start self) area }
        requires ends { EndBelow (txn_start self) runs }
        ensures stops { IsTrue D.tells → let r = seen (D.history d.old) in Quiet (D.history d.old) → MayKeep self r area runs
            → LeavesOnly (D.history d.old) (D.history d.new) (Reopens r) }
        ensures planned { IfOk result (λ next. IsTrue D.tells → let r = seen (D.history d.old) in Quiet (D.history d.old) → MayKeep self r area runs
            → IsPlannedOn (planned_plan next) (D.history d.new) r (txn_image self r)) }
        ensures runs { IfOk result (λ next. (planned_plan next).runs ≡ runs) }
        ensures size { IfOk result (λ next. D.size d.new ≡ plan_length (planned_plan next)) }
        ensures file { IfOk result (λ next. plan_length (planned_plan next) ≡ txn_size self) }
        ensures cause { HasCause (D.faults d.old) (D.faults d.new) result }
        ensures syncs { D.syncs d.new ≡ D.syncs d.old }
        ensures bytes_read { D.bytes_read d.new ≡ D.bytes_read d.old }
    {
        let mut pages = self.pages;
        pages.shrink_to_fit();
        let plan = Plan {
            header: self.header,
            area: area.0,
            area_length: area.1,
            old_length: self.start as u32,
            new_length: self.size as u32,
            file_length: self.size as u32,
            runs,
            pages,
        };
        Ok(keep_area(d, plan)?)
    }

    /// Plans its commit into a new undo area of `length` bytes, with its header, behind what the transaction has of the
    /// file, places that area, and makes the old one zero, where there is one. It gives back the pages that were made
    /// ready and aren't used. A stop leaves a file that opens to the map before the commit. It takes three syncs, and
    /// two more where the file has an undo area.
    pub(crate) fn place<D: Disk>(self, d: &mut D, length: u32, runs: Runs) -> Result<Planned, Io>
        requires sized { D.size d.old ≡ txn_start self }
        requires heads { 48 ≤ txn_start self }
        requires words { txn_size self % 4 ≡ 0 }
        requires area_words { length % 4 ≡ 0 }
        requires fits { 24 + content_length runs ≤ length }
        requires short { txn_size self + length < 2 ^ 32 }
        requires ends { EndBelow (txn_start self) runs }
        ensures stops { IsTrue D.tells → let r = seen (D.history d.old) in Quiet (D.history d.old) → (x : List ℕ) → MayPlace self r x runs
            → LeavesOnly (D.history d.old) (D.history d.new) (Reopens r) }
        ensures planned { IfOk result (λ next. IsTrue D.tells → let r = seen (D.history d.old) in Quiet (D.history d.old) → (x : List ℕ) → MayPlace self r x runs
            → IsPlannedOn (planned_plan next) (D.history d.new) r (txn_image self r)) }
        ensures runs { IfOk result (λ next. (planned_plan next).runs ≡ runs) }
        ensures length { IfOk result (λ next. (planned_plan next).area_length ≡ length) }
        ensures size { IfOk result (λ next. D.size d.new ≡ plan_length (planned_plan next)) }
        ensures file { IfOk result (λ next. plan_length (planned_plan next) ≡ txn_size self + length) }
        ensures cause { HasCause (D.faults d.old) (D.faults d.new) result }
        ensures syncs { OnOk result (RoseBy 3 (D.syncs d.old) (D.syncs d.new) ⊎ RoseBy 5 (D.syncs d.old) (D.syncs d.new)) }
        ensures as_often { OnOk result (IsTrue D.tells → let r = seen (D.history d.old) in (x : List ℕ) → MayPlace self r x runs → RoseBy (clearing_syncs (form_of r).order r + 3) (D.syncs d.old) (D.syncs d.new)) }
        ensures bytes_read { RoseUpTo 28 (D.bytes_read d.old) (D.bytes_read d.new) }
    {
        let mut pages = self.pages;
        pages.shrink_to_fit();
        let area = self.size as u32;
        let plan = Plan {
            header: self.header,
            area,
            area_length: length,
            old_length: self.start as u32,
            new_length: area,
            file_length: area + length,
            runs,
            pages,
        };
        Ok(place_area(d, plan)?)
    }
}

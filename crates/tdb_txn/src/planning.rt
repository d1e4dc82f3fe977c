//! The plan of a commit.
ghost use Rattle.std.specs.Prelude.{◌≡◌, ◌≢◌, ◌+◌, ◌%◌, ◌<◌, ◌≤◌, ◌^◌, ◌⊎◌, ℕ, List, false, IsTrue, IfOk, IfErr, OnOk, length};
ghost use Rattle.tdb_disk.specs.Count.{HasCauseOf, RoseBy, RoseUpTo};
ghost use Rattle.tdb_disk.specs.History.{seen};
ghost use Rattle.tdb_disk.specs.Stop.{LeavesOnly, Quiet};
ghost use Rattle.tdb_space.specs.Form.{form_of};
ghost use Rattle.tdb_space.specs.Planned.{content_length};
ghost use Rattle.tdb_space.specs.Undoing.{Reopens};
ghost use Rattle.tdb_txn.specs.AreaExtent.{CanHold};
ghost use Rattle.tdb_txn.specs.AreaRoom.{new_area_length};
ghost use Rattle.tdb_txn.specs.CommitStates.{planned_plan, plan_length};
ghost use Rattle.tdb_txn.specs.EndBelow.{EndBelow};
ghost use Rattle.tdb_undo.specs.Placing.{clearing_syncs};
ghost use Rattle.tdb_txn.specs.Planned.{IsPlannedOn};

use crate::area_found::find_area;
use crate::area_room::{AREA_HEADER, area_len_of, content_len};
use crate::comparing::{Comparison, find_runs};
use crate::refusal::TxnRefusal;
use crate::states::Planned;
use crate::txn::Txn;
use tdb_disk::Disk;
use tdb_undo::Runs;

/// What a transaction leaves to be committed.
pub enum ToCommit {
    /// Nothing: the file has all of it.
    Nothing,

    /// The plan of its commit.
    Ready(Planned),
}

impl Txn {
    ghost use Rattle.tdb_txn.specs.Answered.{AnsweredRightly, LeftFor, AreaReplaced, PlanSyncs, ReplaceRefused, PlaceRefused};
    ghost use Rattle.tdb_txn.specs.Committing.{MayCommit, MayPlace, HasAreaIn};
    ghost use Rattle.tdb_txn.specs.Reads.{NeedsNoOther, plan_reads};
    ghost use Rattle.tdb_txn.specs.Txn.{txn_pages, txn_start, txn_size, txn_image, txn_depth, txn_doomed};

    /// Plans its commit into a new undo area behind what the transaction has of the file, and places that area. The
    /// file may get `limit` bytes. `Full` comes before any call that changes the file, and no memory is taken.
    fn place_new<D: Disk>(self, d: &mut D, limit: u64, runs: Runs) -> Result<Planned, TxnRefusal>
        requires sized { D.size d.old ≡ txn_start self }
        requires heads { 48 ≤ txn_start self }
        requires words { txn_size self % 4 ≡ 0 }
        requires within { txn_size self ≤ limit }
        requires short { limit < 2 ^ 32 }
        requires ends { EndBelow (txn_start self) runs }
        ensures stops { IsTrue D.tells → let r = seen (D.history d.old) in Quiet (D.history d.old) → (x : List ℕ) → MayPlace self r x runs
            → LeavesOnly (D.history d.old) (D.history d.new) (Reopens r) }
        ensures planned { IfOk result (λ next. IsTrue D.tells → let r = seen (D.history d.old) in Quiet (D.history d.old) → (x : List ℕ) → MayPlace self r x runs
            → IsPlannedOn (planned_plan next) (D.history d.new) r (txn_image self r)) }
        ensures runs { IfOk result (λ next. (planned_plan next).runs ≡ runs) }
        ensures length { IfOk result (λ next. (planned_plan next).area_length ≡ new_area_length (content_length runs)) }
        ensures room { IfOk result (λ next. txn_size self + (planned_plan next).area_length ≤ limit) }
        ensures refusal { IfErr result (PlaceRefused (txn_size self) limit runs) }
        ensures still { IfErr result (λ refusal. refusal ≢ TxnRefusal.Io → D.history d.new ≡ D.history d.old) }
        ensures still_long { IfErr result (λ refusal. refusal ≢ TxnRefusal.Io → D.size d.new ≡ D.size d.old) }
        ensures size { IfOk result (λ next. D.size d.new ≡ plan_length (planned_plan next)) }
        ensures file { IfOk result (λ next. (txn_start self ≤ plan_length (planned_plan next)) × (plan_length (planned_plan next) ≤ limit)) }
        ensures cause { HasCauseOf TxnRefusal.Io (D.faults d.old) (D.faults d.new) result }
        ensures syncs { OnOk result (RoseBy 3 (D.syncs d.old) (D.syncs d.new) ⊎ RoseBy 5 (D.syncs d.old) (D.syncs d.new)) }
        ensures as_often { OnOk result (IsTrue D.tells → let r = seen (D.history d.old) in (x : List ℕ) → MayPlace self r x runs → RoseBy (clearing_syncs (form_of r).order r + 3) (D.syncs d.old) (D.syncs d.new)) }
        ensures bytes_read { RoseUpTo 28 (D.bytes_read d.old) (D.bytes_read d.new) }
    {
        let need = area_len_of(&runs);
        if limit - self.size < need {
            return Err(TxnRefusal::Full {
                len: self.size,
                need,
            });
        }
        Ok(self.place(d, need as u32, runs)?)
    }

    /// Plans its commit into a new undo area in place of the one that the file has in an extent, which is given up.
    /// `Full` and `Memory` come before any call that changes the file.
    fn replace<D: Disk>(
        mut self,
        d: &mut D,
        limit: u64,
        area: (u32, u32),
    ) -> Result<Planned, TxnRefusal>
        requires sized { D.size d.old ≡ txn_start self }
        requires heads { 48 ≤ txn_start self }
        requires words { txn_size self % 4 ≡ 0 }
        requires within { txn_size self ≤ limit }
        requires short { limit < 2 ^ 32 }
        requires place { CanHold (txn_start self) area }
        ensures stops { IsTrue D.tells → let r = seen (D.history d.old) in Quiet (D.history d.old) → MayCommit self r → HasAreaIn (form_of r).order r area
            → LeavesOnly (D.history d.old) (D.history d.new) (Reopens r) }
        ensures planned { IfOk result (λ next. IsTrue D.tells → let r = seen (D.history d.old) in Quiet (D.history d.old) → MayCommit self r → HasAreaIn (form_of r).order r area
            → (x : List ℕ) × (b : List ℕ) × AreaReplaced self r area x b (planned_plan next).runs × IsPlannedOn (planned_plan next) (D.history d.new) r b) }
        ensures length { IfOk result (λ next. (planned_plan next).area_length ≡ new_area_length (content_length (planned_plan next).runs)) }
        ensures room { IfOk result (λ next. txn_size self + (planned_plan next).area_length ≤ limit) }
        ensures refusal { IfErr result (λ refusal. IsTrue D.tells → let r = seen (D.history d.old) in MayCommit self r → HasAreaIn (form_of r).order r area
            → ReplaceRefused self limit r area refusal) }
        ensures still { IfErr result (λ refusal. refusal ≢ TxnRefusal.Io → D.history d.new ≡ D.history d.old) }
        ensures still_long { IfErr result (λ refusal. refusal ≢ TxnRefusal.Io → D.size d.new ≡ D.size d.old) }
        ensures size { IfOk result (λ next. D.size d.new ≡ plan_length (planned_plan next)) }
        ensures file { IfOk result (λ next. (txn_start self ≤ plan_length (planned_plan next)) × (plan_length (planned_plan next) ≤ limit)) }
        ensures cause { HasCauseOf TxnRefusal.Io (D.faults d.old) (D.faults d.new) result }
        ensures syncs { OnOk result (RoseBy 3 (D.syncs d.old) (D.syncs d.new) ⊎ RoseBy 5 (D.syncs d.old) (D.syncs d.new)) }
        ensures as_often { OnOk result (IsTrue D.tells → let r = seen (D.history d.old) in MayCommit self r → HasAreaIn (form_of r).order r area → RoseBy 5 (D.syncs d.old) (D.syncs d.new)) }
    {
        self.give_up(d, area)?;
        let comparison = Comparison {
            old_length: self.start as u32,
            skip: (0, 0),
            hole: area,
        };
        let runs = find_runs(self.alloc, d, &self.pages, &comparison)?;
        self.place_new(d, limit, runs)
    }

    /// Plans its commit: compares it with the file, and sees to the undo area, which is kept where it has room for what
    /// the commit writes over, and else is a new one behind the transaction's end, in place of the old one. The file
    /// may get `limit` bytes.
    ///
    /// `Nothing` comes just where no byte changes, outside the undo area and the word that leads to it, and the length
    /// doesn't; `Full` just where a new undo area is wanted and with it the file would pass the limit. `Memory` comes
    /// only where something changes; where the file has no undo area yet, only if the new one has room, so `Full` never
    /// waits for memory there. With all three nothing is changed. A stop leaves a file that opens to the map before the
    /// commit. It takes no sync where the area is kept, three where a first one is placed, five where the file has
    /// another one. It reads the file where the transaction has pages, and takes time linear in these and in the length
    /// of an undo area that is replaced.
    pub fn plan<D: Disk>(self, d: &mut D, limit: u64) -> Result<ToCommit, TxnRefusal>
        requires depth { txn_depth self ≡ 0 }
        requires whole { txn_doomed self ≡ false }
        requires sized { D.size d.old ≡ txn_start self }
        requires heads { 48 ≤ txn_start self }
        requires words { txn_size self % 4 ≡ 0 }
        requires within { txn_size self ≤ limit }
        requires short { limit < 2 ^ 32 }
        ensures stops { IsTrue D.tells → let r = seen (D.history d.old) in Quiet (D.history d.old) → MayCommit self r
            → LeavesOnly (D.history d.old) (D.history d.new) (Reopens r) }
        ensures answered { IsTrue D.tells → let r = seen (D.history d.old) in Quiet (D.history d.old) → MayCommit self r
            → AnsweredRightly self limit r (D.history d.new) result }
        ensures left { LeftFor (D.history d.old) (D.size d.old) (D.history d.new) (D.size d.new) result }
        ensures length { OnOk result ((D.size d.old ≤ D.size d.new) × (D.size d.new ≤ limit)) }
        ensures cause { HasCauseOf TxnRefusal.Io (D.faults d.old) (D.faults d.new) result }
        ensures syncs { OnOk result ((D.syncs d.new ≡ D.syncs d.old) ⊎ RoseBy 3 (D.syncs d.old) (D.syncs d.new) ⊎ RoseBy 5 (D.syncs d.old) (D.syncs d.new)) }
        ensures idle { IfOk result (λ left. left ≡ ToCommit.Nothing → D.syncs d.new ≡ D.syncs d.old) }
        ensures as_often { IsTrue D.tells → let r = seen (D.history d.old) in MayCommit self r → PlanSyncs self r (D.syncs d.old) (D.syncs d.new) result }
        ensures reads { IsTrue D.tells → let r = seen (D.history d.old) in MayCommit self r → NeedsNoOther self r → RoseUpTo (plan_reads (length (txn_pages self))) (D.bytes_read d.old) (D.bytes_read d.new) }
    {
        let area = find_area(d, self.header.order, self.start)?;
        let runs = self.changes(d, area, limit)?;
        if runs.len() == 0 && self.size == self.start {
            return Ok(ToCommit::Nothing);
        }
        let planned = if area.1 == 0 {
            self.place_new(d, limit, runs)?
        } else if content_len(&runs) <= (area.1 - AREA_HEADER) as u64 {
            self.keep(d, area, runs)?
        } else {
            self.replace(d, limit, area)?
        };
        Ok(ToCommit::Ready(planned))
    }
}

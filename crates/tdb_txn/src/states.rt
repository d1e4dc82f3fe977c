//! The states of a commit from its plan on. Each is spent by its call or given up, and none can be dropped.
ghost use Rattle.std.specs.Prelude.{◌≡◌, ◌⊎◌, ℕ, List, IsTrue, IfOk, OnOk};
ghost use Rattle.tdb_disk.specs.Count.{HasCause, RoseBy, RoseUpTo};
ghost use Rattle.tdb_disk.specs.Stop.{LeavesOnly};
ghost use Rattle.tdb_space.specs.Undoing.{Reopens};

use crate::applying::{write_range, write_runs};
use crate::gate_word::set_word;
use crate::planned::Plan;
use tdb_disk::Disk;
use tdb_space::Io;
use tdb_words::{GATE_OPEN, GATE_SHUT, word_bytes};

/// The undo area is there, and isn't filled yet.
pub struct Planned {
    pub(crate) plan: Plan,
}

/// The undo area keeps what the commit will write over, and its gate is shut.
pub struct Filled {
    pub(crate) plan: Plan,
}

/// The gate is open: the file is read as it was, whatever is written.
pub struct Prepared {
    pub(crate) plan: Plan,
}

/// All is written, but a stop may still tear it.
pub struct Applied {
    pub(crate) plan: Plan,
}

/// All is written for good; the gate is still open.
pub struct Settled {
    pub(crate) plan: Plan,
}

impl Planned {
    /// Gives the commit up, with no call on the disk.
    pub fn end(self) {
        let Planned { plan: _ } = self;
    }
}

impl Filled {
    ghost use Rattle.tdb_txn.specs.Commit.{IsFilled, IsPrepared};
    ghost use Rattle.tdb_txn.specs.CommitStates.{filled_plan, prepared_plan, plan_length};

    /// Opens the gate, and syncs. A stop leaves a file that opens to the map before the commit.
    pub fn open_gate<D: Disk>(self, d: &mut D) -> Result<Prepared, Io>
        requires { D.size d.old ≡ plan_length (filled_plan self) }
        ensures stops { IsTrue D.tells → (a b : List ℕ) → IsFilled (filled_plan self) (D.history d.old) a b → LeavesOnly (D.history d.old) (D.history d.new) (Reopens a) }
        ensures prepared { IfOk result (λ next. IsTrue D.tells → (a b : List ℕ) → IsFilled (filled_plan self) (D.history d.old) a b → IsPrepared (prepared_plan next) (D.history d.new) a b) }
        ensures plan { IfOk result (λ next. prepared_plan next ≡ filled_plan self) }
        ensures size { D.size d.new ≡ D.size d.old }
        ensures cause { HasCause (D.faults d.old) (D.faults d.new) result }
        ensures syncs { OnOk result (RoseBy 1 (D.syncs d.old) (D.syncs d.new)) }
        ensures at_most { RoseUpTo 1 (D.syncs d.old) (D.syncs d.new) }
        ensures bytes_read { D.bytes_read d.new ≡ D.bytes_read d.old }
    {
        let Filled { plan } = self;
        set_word(d, plan.gate(), word_bytes(GATE_OPEN, plan.header.order))?;
        Ok(Prepared { plan })
    }

    /// Gives the commit up, with no call on the disk.
    pub fn end(self) {
        let Filled { plan: _ } = self;
    }
}

impl Prepared {
    ghost use Rattle.tdb_txn.specs.Commit.{IsPrepared, IsApplied, IsUndone};
    ghost use Rattle.tdb_txn.specs.CommitStates.{prepared_plan, applied_plan, plan_length};

    /// Writes what the transaction changed. A stop leaves a file that opens to the map before the commit.
    pub fn apply<D: Disk>(self, d: &mut D) -> Result<Applied, Io>
        requires { D.size d.old ≡ plan_length (prepared_plan self) }
        ensures stops { IsTrue D.tells → (a b : List ℕ) → IsPrepared (prepared_plan self) (D.history d.old) a b → LeavesOnly (D.history d.old) (D.history d.new) (Reopens a) }
        ensures applied { IfOk result (λ next. IsTrue D.tells → (a b : List ℕ) → IsPrepared (prepared_plan self) (D.history d.old) a b → IsApplied (applied_plan next) (D.history d.new) a b) }
        ensures plan { IfOk result (λ next. applied_plan next ≡ prepared_plan self) }
        ensures size { D.size d.new ≡ D.size d.old }
        ensures cause { HasCause (D.faults d.old) (D.faults d.new) result }
        ensures syncs { D.syncs d.new ≡ D.syncs d.old }
        ensures bytes_read { D.bytes_read d.new ≡ D.bytes_read d.old }
    {
        let Prepared { plan } = self;
        write_runs(d, &plan.pages, &plan.runs, plan.old_length)?;
        write_range(
            d,
            &plan.pages,
            plan.old_length as u64,
            plan.new_length as u64,
        )?;
        Ok(Applied { plan })
    }

    /// Shuts the gate with nothing written, and syncs: the commit is given up. A stop leaves a file that opens to the
    /// map before it.
    pub fn undo<D: Disk>(self, d: &mut D) -> Result<(), Io>
        requires { D.size d.old ≡ plan_length (prepared_plan self) }
        ensures stops { IsTrue D.tells → (a b : List ℕ) → IsPrepared (prepared_plan self) (D.history d.old) a b → LeavesOnly (D.history d.old) (D.history d.new) (Reopens a) }
        ensures undone { OnOk result (IsTrue D.tells → (a b : List ℕ) → IsPrepared (prepared_plan self) (D.history d.old) a b → IsUndone (D.history d.new) a) }
        ensures size { D.size d.new ≡ D.size d.old }
        ensures cause { HasCause (D.faults d.old) (D.faults d.new) result }
        ensures syncs { OnOk result (RoseBy 1 (D.syncs d.old) (D.syncs d.new)) }
        ensures at_most { RoseUpTo 1 (D.syncs d.old) (D.syncs d.new) }
        ensures bytes_read { D.bytes_read d.new ≡ D.bytes_read d.old }
    {
        let Prepared { plan } = self;
        let shut = word_bytes(GATE_SHUT, plan.header.order);
        set_word(d, plan.gate(), shut)?;
        Ok(())
    }

    /// Gives the commit up, with no call on the disk: the gate stays open.
    pub fn end(self) {
        let Prepared { plan: _ } = self;
    }
}

impl Applied {
    ghost use Rattle.tdb_txn.specs.Commit.{IsApplied, IsSettled};
    ghost use Rattle.tdb_txn.specs.CommitStates.{applied_plan, settled_plan};

    /// Makes what was written last, by a sync. A stop leaves a file that opens to the map before the commit.
    pub fn settle<D: Disk>(self, d: &mut D) -> Result<Settled, Io>
        ensures stops { IsTrue D.tells → (a b : List ℕ) → IsApplied (applied_plan self) (D.history d.old) a b → LeavesOnly (D.history d.old) (D.history d.new) (Reopens a) }
        ensures settled { IfOk result (λ next. IsTrue D.tells → (a b : List ℕ) → IsApplied (applied_plan self) (D.history d.old) a b → IsSettled (settled_plan next) (D.history d.new) a b) }
        ensures plan { IfOk result (λ next. settled_plan next ≡ applied_plan self) }
        ensures size { D.size d.new ≡ D.size d.old }
        ensures cause { HasCause (D.faults d.old) (D.faults d.new) result }
        ensures syncs { OnOk result (RoseBy 1 (D.syncs d.old) (D.syncs d.new)) }
        ensures at_most { RoseUpTo 1 (D.syncs d.old) (D.syncs d.new) }
        ensures bytes_read { D.bytes_read d.new ≡ D.bytes_read d.old }
    {
        let Applied { plan } = self;
        d.sync()?;
        Ok(Settled { plan })
    }

    /// Gives the commit up, with no call on the disk: the gate stays open.
    pub fn end(self) {
        let Applied { plan: _ } = self;
    }
}

impl Settled {
    ghost use Rattle.tdb_txn.specs.Commit.{IsSettled, IsFinished};
    ghost use Rattle.tdb_txn.specs.CommitStates.{settled_plan, plan_length};

    /// Shuts the gate, and syncs: the commit is done. A stop leaves a file that opens to the map before the commit or
    /// to that after it.
    pub fn finish<D: Disk>(self, d: &mut D) -> Result<(), Io>
        requires { D.size d.old ≡ plan_length (settled_plan self) }
        ensures stops { IsTrue D.tells → (a b : List ℕ) → IsSettled (settled_plan self) (D.history d.old) a b → LeavesOnly (D.history d.old) (D.history d.new) (λ c. Reopens a c ⊎ Reopens b c) }
        ensures done { OnOk result (IsTrue D.tells → (a b : List ℕ) → IsSettled (settled_plan self) (D.history d.old) a b → IsFinished (settled_plan self) (D.history d.new) a b) }
        ensures size { D.size d.new ≡ D.size d.old }
        ensures cause { HasCause (D.faults d.old) (D.faults d.new) result }
        ensures syncs { OnOk result (RoseBy 1 (D.syncs d.old) (D.syncs d.new)) }
        ensures at_most { RoseUpTo 1 (D.syncs d.old) (D.syncs d.new) }
        ensures bytes_read { D.bytes_read d.new ≡ D.bytes_read d.old }
    {
        let Settled { plan } = self;
        set_word(d, plan.gate(), word_bytes(GATE_SHUT, plan.header.order))?;
        Ok(())
    }

    /// Gives the commit up, with no call on the disk: the gate stays open.
    pub fn end(self) {
        let Settled { plan: _ } = self;
    }
}

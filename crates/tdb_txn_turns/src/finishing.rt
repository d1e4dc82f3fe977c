//! The turns of a commit from its open gate on.
ghost use Rattle.std.specs.Prelude.{◌≡◌, List, ℕ, false, IsTrue, IfOk, OnOk, OnErr};
ghost use Rattle.tdb_disk.specs.Count.{HasCause, RoseUpTo};
ghost use Rattle.tdb_disk.specs.Stop.{LeavesOnly};
ghost use Rattle.tdb_space.specs.Undoing.{Reopens};
ghost use Rattle.tdb_law.specs.Rows.{Lock};
ghost use Rattle.tdb_law.specs.Held.{locked_next};
ghost use Rattle.tdb_steps.specs.Holdings.{table_of};
ghost use Rattle.tdb_txn.specs.Commit.{IsPrepared};
ghost use Rattle.tdb_txn.specs.CommitStates.{prepared_plan, plan_length};
ghost use Rattle.tdb_txn_turns.specs.Commits.{Carries, RestsAt};
ghost use Rattle.tdb_txn_turns.specs.Holding.{HoldsRow, OthersHold, RowTurned};
ghost use Rattle.tdb_txn_turns.specs.Finishes.{finish_turn, FinishFits, KnowsFinish, MayLeave, FinishLeads, FinishMade, FinishLeaves, FinishSyncs};

use tdb_disk::Disk;
use tdb_locks::Locks;
use tdb_space::Io;
use tdb_txn::{Applied, Prepared, Settled};

/// How far a commit is whose gate was opened. It can't be dropped.
pub enum Finishing {
    /// The gate is open, and nothing is written.
    Open(Prepared),

    /// All is written, but a stop may still tear it.
    Applied(Applied),

    /// All is written for good.
    Settled(Settled),

    /// The gate is shut.
    Shut,
}

/// What a turn of it led to.
pub enum FinishTurn {
    Step(Finishing),

    /// The commit is done, and the opener holds nothing.
    Done,
}

impl Finishing {
    /// Gives it up, with no call on the disk.
    pub fn end(self) {
        match self {
            Finishing::Open(state) => state.end(),
            Finishing::Applied(state) => state.end(),
            Finishing::Settled(state) => state.end(),
            Finishing::Shut => {}
        }
    }

    /// Takes one turn of a commit from its open gate on, of the opener with the number `owner` in the lock table.
    ///
    /// The turns write, sync, shut the gate, and let go of all that the opener holds. They take no lock, and no memory.
    /// A stop leaves a file that opens to the map before, up to the turn that shuts the gate, and from that turn on to
    /// the map after. `Io` where the disk failed: then the commit is given up, and the opener keeps its locks.
    ///
    /// Cost: a state of a commit, or a pass over the lock table.
    pub fn step<D: Disk>(self, d: &mut D, locks: &mut Locks, owner: u32) -> Result<FinishTurn, Io>
        requires fits { FinishFits self (D.size d.old) }
        ensures locks { IfOk result (λ turn. (row : List Lock) (kept : ℕ → ℕ) (n : ℕ) → HoldsRow row kept owner n locks.old → ((b : ℕ) → locked_next row n b ≡ 0)
            → RowTurned false row kept owner n locks.old locks.new (finish_turn turn)) }
        ensures leads { IfOk result (FinishLeads self) }
        ensures stops { IsTrue D.tells → (r b : List ℕ) → KnowsFinish self (D.history d.old) r b → LeavesOnly (D.history d.old) (D.history d.new) (MayLeave self r b) }
        ensures made { IfOk result (λ turn. IsTrue D.tells → (r b : List ℕ) → KnowsFinish self (D.history d.old) r b → FinishMade r b (D.history d.old) (D.history d.new) turn) }
        ensures leaves { IfOk result (FinishLeaves (D.size d.new)) }
        ensures err { OnErr result (locks.new ≡ locks.old) }
        ensures size { D.size d.new ≡ D.size d.old }
        ensures cause { HasCause (D.faults d.old) (D.faults d.new) result }
        ensures syncs { OnOk result (FinishSyncs self (D.syncs d.old) (D.syncs d.new)) }
        ensures at_most { RoseUpTo 1 (D.syncs d.old) (D.syncs d.new) }
    {
        match self {
            Finishing::Open(state) => Ok(FinishTurn::Step(Finishing::Applied(state.apply(d)?))),
            Finishing::Applied(state) => Ok(FinishTurn::Step(Finishing::Settled(state.settle(d)?))),
            Finishing::Settled(state) => {
                state.finish(d)?;
                Ok(FinishTurn::Step(Finishing::Shut))
            }
            Finishing::Shut => {
                locks.drop_owner(owner);
                Ok(FinishTurn::Done)
            }
        }
    }
}

/// Ends a prepared transaction without a commit, in one turn: the gate is shut with nothing written, the file is
/// synced, and the opener lets go of all that it holds. A stop leaves a file that opens to the map before. `Io` where
/// the disk failed: then the opener keeps its locks.
pub fn undo_prepared<D: Disk>(
    prepared: Prepared,
    d: &mut D,
    locks: &mut Locks,
    owner: u32,
) -> Result<(), Io>
    requires fits { D.size d.old ≡ plan_length (prepared_plan prepared) }
    ensures gone { OnOk result ((b : ℕ) → table_of locks.new owner b ≡ 0) }
    ensures others { OthersHold owner locks.old locks.new }
    ensures stops { IsTrue D.tells → (r b : List ℕ) → Carries (IsPrepared (prepared_plan prepared)) (D.history d.old) r b → LeavesOnly (D.history d.old) (D.history d.new) (Reopens r) }
    ensures undone { OnOk result (IsTrue D.tells → (r b : List ℕ) → Carries (IsPrepared (prepared_plan prepared)) (D.history d.old) r b → RestsAt (D.history d.new) r) }
    ensures err { OnErr result (locks.new ≡ locks.old) }
    ensures size { D.size d.new ≡ D.size d.old }
    ensures cause { HasCause (D.faults d.old) (D.faults d.new) result }
    ensures syncs { RoseUpTo 1 (D.syncs d.old) (D.syncs d.new) }
{
    prepared.undo(d)?;
    locks.drop_owner(owner);
    Ok(())
}

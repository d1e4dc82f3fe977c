//! The turns of an outer Commit.
ghost use Rattle.std.specs.Prelude.{◌≡◌, List, ℕ, Bool, true, false, IsTrue, IfOk, OnOk, OnErr};
ghost use Rattle.tdb_disk.specs.Count.{HasCause};
ghost use Rattle.tdb_disk.specs.Stop.{LeavesOnly};
ghost use Rattle.tdb_locks.specs.declared.piece.Piece.{Piece};
ghost use Rattle.tdb_law.specs.Rows.{Lock};
ghost use Rattle.tdb_law.specs.Held.{locked_next};
ghost use Rattle.tdb_txn_turns.specs.Committings.{commit_after, commit_steps, commit_row, commit_turn, IsNumbered, IsOpened, CommitFits, KnowsCommit, CommitMayLeave, CommitLeads, CommitMade, CommitLeaves, CommitSyncs};
ghost use Rattle.tdb_txn_turns.specs.Room.{CommitFull};
ghost use Rattle.tdb_txn_turns.specs.PlanSyncs.{CommitPlans};
ghost use Rattle.tdb_txn_turns.specs.declared.committing.Committing.TheVariants as Committing;
ghost use Rattle.tdb_txn_turns.specs.Holding.{HoldsRow, RowTurned};
ghost use Rattle.tdb_txn_turns.specs.Prepares.{begun_with, prepare_turn, start_held, KeepsWithin};

use crate::finishing::{FinishTurn, Finishing};
use crate::preparing::{PrepareTurn, Preparing};
use tdb_disk::Disk;
use tdb_locks::Locks;
use tdb_space::Io;
use tdb_txn::Txn;

/// How far an outer Commit is. It can't be dropped.
pub enum Committing {
    /// Up to the turn that opens the gate.
    Preparing(Preparing),

    /// From the open gate on.
    Finishing(Finishing),
}

/// What a turn of a Commit led to.
pub enum CommitTurn {
    Step(Committing),

    /// Another opener holds this byte. Nothing was done, and the next turn tries again.
    Blocked {
        owner: u32,
        byte: u64,
        again: Committing,
    },

    /// The file of `len` bytes may not grow by the `need` bytes of an undo area. The opener holds nothing.
    Full {
        len: u64,
        need: u64,
    },

    /// There was no memory. The opener holds nothing.
    Memory,

    /// The commit is done, and the opener holds nothing.
    Done,
}

/// What a turn of a Prepare makes of a Commit. One that finds nothing to commit lets go of all that the opener holds.
fn go_on(turn: PrepareTurn, locks: &mut Locks, owner: u32) -> CommitTurn
    ensures locks { (row : List Lock) (kept : ℕ → ℕ) (n : ℕ) (ps : List Piece) → RowTurned true row kept owner n ps locks.old (prepare_turn turn) → (IsOpened turn → (b : ℕ) → locked_next row n b ≡ 0)
        → RowTurned false row kept owner n ps locks.new (commit_turn result) }
    ensures result { result ≡ commit_after turn }
{
    match turn {
        PrepareTurn::Step(next) => CommitTurn::Step(Committing::Preparing(next)),
        PrepareTurn::Blocked { owner, byte, again } => CommitTurn::Blocked {
            owner,
            byte,
            again: Committing::Preparing(again),
        },
        PrepareTurn::Nothing => {
            locks.drop_owner(owner);
            CommitTurn::Done
        }
        PrepareTurn::Full { len, need } => CommitTurn::Full { len, need },
        PrepareTurn::Memory => CommitTurn::Memory,
        PrepareTurn::Done(state) => CommitTurn::Step(Committing::Finishing(Finishing::Open(state))),
    }
}

impl Committing {
    /// A Commit of an outer transaction, before its first turn: `changed` tells whether a command of it changed
    /// anything, and `numbered` whether its changes raise the sequence number.
    pub fn new(txn: Txn, changed: bool, numbered: bool) -> Committing
        ensures { result ≡ Committing.Preparing (begun_with txn changed numbered) }
    {
        Committing::Preparing(Preparing::new(txn, changed, numbered))
    }

    /// Gives it up, with no call on the disk.
    pub fn end(self) {
        match self {
            Committing::Preparing(preparing) => preparing.end(),
            Committing::Finishing(finishing) => finishing.end(),
        }
    }

    /// Takes one turn of an outer Commit of the opener with the number `owner` in the lock table, in a file that may
    /// get `limit` bytes.
    ///
    /// The first five are those of a Prepare; then it writes, syncs, shuts the gate, and lets go of all that the opener
    /// holds. `Blocked` by the first conflict: then nothing changes. Where nothing is to be committed, the first turn
    /// or the third ends it. `Memory` comes up to the third turn, and `Full` at the third alone, as in a Prepare; both
    /// before the file is changed. With every reply the opener holds nothing any more. A stop leaves a file that opens
    /// to the map before, up to the turn that shuts the gate, and from that turn on to the map after. `Io` where the
    /// disk failed: then the commit is given up, and the opener keeps its locks.
    ///
    /// Cost: a pass over the lock table, or a state of a commit.
    pub fn step<D: Disk>(
        self,
        d: &mut D,
        locks: &mut Locks,
        owner: u32,
        limit: u64,
    ) -> Result<CommitTurn, Io>
        requires fits { CommitFits self (D.size d.old) limit }
        ensures locks { IfOk result (λ turn. (numbered : Bool) → IsNumbered self numbered → HoldsRow (commit_row self numbered) start_held owner (commit_steps self) locks.old
            → RowTurned false (commit_row self numbered) start_held owner (commit_steps self) locks.old locks.new (commit_turn turn)) }
        ensures leads { IfOk result (CommitLeads self) }
        ensures stops { IsTrue D.tells → (r b : List ℕ) → KnowsCommit self (D.history d.old) r b → LeavesOnly (D.history d.old) (D.history d.new) (CommitMayLeave self r b) }
        ensures made { IfOk result (λ turn. IsTrue D.tells → (r b : List ℕ) → KnowsCommit self (D.history d.old) r b
            → CommitMade r b (D.history d.old) (D.history d.new) self turn) }
        ensures full { IfOk result (λ turn. IsTrue D.tells → (r b : List ℕ) → KnowsCommit self (D.history d.old) r b → CommitFull self limit r (commit_turn turn)) }
        ensures leaves { IfOk result (CommitLeaves limit (D.size d.old) (D.size d.new)) }
        ensures length { OnOk result (KeepsWithin limit (D.size d.old) (D.size d.new)) }
        ensures err { OnErr result (locks.new ≡ locks.old) }
        ensures cause { HasCause (D.faults d.old) (D.faults d.new) result }
        ensures syncs { IfOk result (CommitSyncs self (D.syncs d.old) (D.syncs d.new)) }
        ensures plans { IfOk result (λ turn. IsTrue D.tells → (r b : List ℕ) → KnowsCommit self (D.history d.old) r b → CommitPlans self r (D.syncs d.old) (D.syncs d.new) turn) }
    {
        match self {
            Committing::Preparing(preparing) => {
                let turn = preparing.step(d, locks, owner, limit)?;
                Ok(go_on(turn, locks, owner))
            }
            Committing::Finishing(finishing) => match finishing.step(d, locks, owner)? {
                FinishTurn::Step(next) => Ok(CommitTurn::Step(Committing::Finishing(next))),
                FinishTurn::Done => Ok(CommitTurn::Done),
            },
        }
    }
}

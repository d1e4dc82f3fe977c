//! The turns of an outer Prepare.
ghost use Rattle.std.specs.Prelude.{◌≡◌, List, ℕ, true, IsTrue, IfOk, OnOk, OnErr};
ghost use Rattle.tdb_disk.specs.Count.{HasCause};
ghost use Rattle.tdb_disk.specs.History.{History};
ghost use Rattle.tdb_disk.specs.Stop.{LeavesOnly};
ghost use Rattle.tdb_space.specs.Undoing.{Reopens};
ghost use Rattle.tdb_law.specs.Rows.{commit_locks};
ghost use Rattle.tdb_txn_turns.specs.Holding.{HoldsRow, RowTurned};
ghost use Rattle.tdb_txn_turns.specs.Prepares.{at_stage, begun_with, prepare_steps, prepare_row, prepare_turn, start_held, MayPlan, StageFits, KeepsWithin, IsReady, KnowsStage, PrepareLeads, PrepareMade, PrepareLeaves, PrepareSyncs};
ghost use Rattle.tdb_txn_turns.specs.Room.{FullAsPlanned, PrepareFull};
ghost use Rattle.tdb_txn_turns.specs.PlanSyncs.{PreparePlans};
ghost use Rattle.tdb_txn_turns.specs.declared.preparing.PrepareStage.TheVariants as PrepareStage;

use crate::taking::{ALL_RECORDS, Attempt, take, take_opening};
use tdb_disk::Disk;
use tdb_locks::{Kind, Len, Locks};
use tdb_space::Io;
use tdb_txn::{Filled, Planned, Prepared, ToCommit, Txn, TxnRefusal};

/// How far a Prepare is, with what its transaction has become.
pub enum PrepareStage {
    /// No command of the transaction changed anything, and it is no longer needed.
    Unchanged,
    Begun(Txn),

    /// All records are held for writing.
    Records(Txn),

    /// The opening lock is held for writing too.
    Locked(Txn),

    /// The undo area is there.
    Planned(Planned),

    /// The undo area is filled.
    Filled(Filled),
}

/// An outer Prepare, or the first five turns of an outer Commit. It can't be dropped.
pub struct Preparing {
    /// Whether the changes of the transaction raise the sequence number.
    pub numbered: bool,
    pub stage: PrepareStage,
}

/// What a turn of a Prepare led to.
pub enum PrepareTurn {
    Step(Preparing),

    /// Another opener holds this byte. Nothing was done, and the next turn tries again.
    Blocked {
        owner: u32,
        byte: u64,
        again: Preparing,
    },

    /// Nothing is to be committed, and the gate stays shut. The opener keeps the locks that it has by then.
    Nothing,

    /// The file of `len` bytes may not grow by the `need` bytes of an undo area. The opener holds nothing.
    Full {
        len: u64,
        need: u64,
    },

    /// There was no memory. The opener holds nothing.
    Memory,

    /// The gate is open. The opener keeps its locks.
    Done(Prepared),
}

/// The first turn takes all records for writing.
fn records_turn(txn: Txn, numbered: bool, locks: &mut Locks, owner: u32) -> PrepareTurn
    ensures locks { HoldsRow (commit_locks numbered) start_held owner 0 locks.old
        → RowTurned true (commit_locks numbered) start_held owner 0 locks.old locks.new (prepare_turn result) }
    ensures leads { PrepareLeads (at_stage numbered (PrepareStage.Begun txn)) result }
    ensures made { (r b : List ℕ) (h : History) → KnowsStage (PrepareStage.Begun txn) h r b → PrepareMade r b h h (at_stage numbered (PrepareStage.Begun txn)) result }
    ensures leaves { (size limit : ℕ) → MayPlan txn size limit → PrepareLeaves limit size size result }
{
    match take(locks, owner, ALL_RECORDS, Len::ToEnd, Kind::Write) {
        Attempt::Taken => PrepareTurn::Step(Preparing {
            numbered,
            stage: PrepareStage::Records(txn),
        }),
        Attempt::Blocked { owner, byte } => PrepareTurn::Blocked {
            owner,
            byte,
            again: Preparing {
                numbered,
                stage: PrepareStage::Begun(txn),
            },
        },
        Attempt::Starved => PrepareTurn::Memory,
    }
}

/// The second takes the opening lock for writing, and the sequence number where the changes raise that.
fn opening_turn(txn: Txn, numbered: bool, locks: &mut Locks, owner: u32) -> PrepareTurn
    ensures locks { HoldsRow (commit_locks numbered) start_held owner 1 locks.old
        → RowTurned true (commit_locks numbered) start_held owner 1 locks.old locks.new (prepare_turn result) }
    ensures leads { PrepareLeads (at_stage numbered (PrepareStage.Records txn)) result }
    ensures made { (r b : List ℕ) (h : History) → KnowsStage (PrepareStage.Records txn) h r b → PrepareMade r b h h (at_stage numbered (PrepareStage.Records txn)) result }
    ensures leaves { (size limit : ℕ) → MayPlan txn size limit → PrepareLeaves limit size size result }
{
    match take_opening(locks, owner, numbered) {
        Attempt::Taken => PrepareTurn::Step(Preparing {
            numbered,
            stage: PrepareStage::Locked(txn),
        }),
        Attempt::Blocked { owner, byte } => PrepareTurn::Blocked {
            owner,
            byte,
            again: Preparing {
                numbered,
                stage: PrepareStage::Records(txn),
            },
        },
        Attempt::Starved => PrepareTurn::Memory,
    }
}

/// The third plans the commit. Where there is no room, or no memory, the opener lets go of all that it holds.
fn plan_turn<D: Disk>(
    txn: Txn,
    numbered: bool,
    d: &mut D,
    locks: &mut Locks,
    owner: u32,
    limit: u64,
) -> Result<PrepareTurn, Io>
    requires fits { MayPlan txn (D.size d.old) limit }
    ensures locks { IfOk result (λ turn. HoldsRow (commit_locks numbered) start_held owner 2 locks.old
        → RowTurned true (commit_locks numbered) start_held owner 2 locks.old locks.new (prepare_turn turn)) }
    ensures leads { IfOk result (PrepareLeads (at_stage numbered (PrepareStage.Locked txn))) }
    ensures stops { IsTrue D.tells → (r b : List ℕ) → IsReady txn (D.history d.old) r b → LeavesOnly (D.history d.old) (D.history d.new) (Reopens r) }
    ensures made { IfOk result (λ turn. IsTrue D.tells → (r b : List ℕ) → IsReady txn (D.history d.old) r b
        → PrepareMade r b (D.history d.old) (D.history d.new) (at_stage numbered (PrepareStage.Locked txn)) turn) }
    ensures full { IfOk result (λ turn. IsTrue D.tells → (r b : List ℕ) → IsReady txn (D.history d.old) r b → FullAsPlanned txn limit r (prepare_turn turn)) }
    ensures leaves { IfOk result (PrepareLeaves limit (D.size d.old) (D.size d.new)) }
    ensures length { OnOk result (KeepsWithin limit (D.size d.old) (D.size d.new)) }
    ensures err { OnErr result (locks.new ≡ locks.old) }
    ensures cause { HasCause (D.faults d.old) (D.faults d.new) result }
    ensures syncs { IfOk result (PrepareSyncs (PrepareStage.Locked txn) (D.syncs d.old) (D.syncs d.new)) }
    ensures plans { IfOk result (λ turn. IsTrue D.tells → (r b : List ℕ) → IsReady txn (D.history d.old) r b → PreparePlans (PrepareStage.Locked txn) r (D.syncs d.old) (D.syncs d.new) turn) }
{
    match txn.plan(d, limit) {
        Ok(ToCommit::Nothing) => Ok(PrepareTurn::Nothing),
        Ok(ToCommit::Ready(state)) => Ok(PrepareTurn::Step(Preparing {
            numbered,
            stage: PrepareStage::Planned(state),
        })),
        Err(TxnRefusal::Full { len, need }) => {
            locks.drop_owner(owner);
            Ok(PrepareTurn::Full { len, need })
        }
        Err(TxnRefusal::Memory) => {
            locks.drop_owner(owner);
            Ok(PrepareTurn::Memory)
        }
        Err(TxnRefusal::Io) => Err(Io),
    }
}

impl Preparing {
    /// A Prepare of an outer transaction, before its first turn: `changed` tells whether a command of it changed
    /// anything, and `numbered` whether its changes raise the sequence number.
    pub fn new(txn: Txn, changed: bool, numbered: bool) -> Preparing
        ensures { result ≡ begun_with txn changed numbered }
    {
        Preparing {
            numbered,
            stage: if changed {
                PrepareStage::Begun(txn)
            } else {
                PrepareStage::Unchanged
            },
        }
    }

    /// Gives it up, with no call on the disk.
    pub fn end(self) {
        let Preparing { numbered: _, stage } = self;
        match stage {
            PrepareStage::Unchanged
            | PrepareStage::Begun(_)
            | PrepareStage::Records(_)
            | PrepareStage::Locked(_) => {}
            PrepareStage::Planned(state) => state.end(),
            PrepareStage::Filled(state) => state.end(),
        }
    }

    /// Takes one turn of an outer Prepare of the opener with the number `owner` in the lock table, in a file that may
    /// get `limit` bytes.
    ///
    /// The turns take all records for writing; the opening lock, and the sequence number with it where the changes
    /// raise that; see to the undo area; fill it; and open its gate. `Blocked` by the first conflict: then nothing
    /// changes. Where nothing is to be committed, the first turn or the third ends it so. `Memory` comes up to the
    /// third turn, of a lock only where no other opener's is in its way; `Full` at the third alone, only where a new
    /// undo area is wanted and with it the file would pass the limit, with the length of the transaction's image and
    /// that of the area. There it comes where the file has no undo area yet; and where none of those fits that may be
    /// wanted, unless memory is wanting. Both come before the file is changed, and then the opener holds nothing. A
    /// stop at any moment leaves a file that opens to the map before. `Io` where the disk failed: then the commit is
    /// given up, and the opener keeps its locks.
    ///
    /// Cost: a pass over the lock table, or a state of a commit.
    pub fn step<D: Disk>(
        self,
        d: &mut D,
        locks: &mut Locks,
        owner: u32,
        limit: u64,
    ) -> Result<PrepareTurn, Io>
        requires fits { StageFits self.stage (D.size d.old) limit }
        ensures locks { IfOk result (λ turn. HoldsRow (prepare_row self) start_held owner (prepare_steps self) locks.old
            → RowTurned true (prepare_row self) start_held owner (prepare_steps self) locks.old locks.new (prepare_turn turn)) }
        ensures leads { IfOk result (PrepareLeads self) }
        ensures stops { IsTrue D.tells → (r b : List ℕ) → KnowsStage self.stage (D.history d.old) r b → LeavesOnly (D.history d.old) (D.history d.new) (Reopens r) }
        ensures made { IfOk result (λ turn. IsTrue D.tells → (r b : List ℕ) → KnowsStage self.stage (D.history d.old) r b
            → PrepareMade r b (D.history d.old) (D.history d.new) self turn) }
        ensures full { IfOk result (λ turn. IsTrue D.tells → (r b : List ℕ) → KnowsStage self.stage (D.history d.old) r b → PrepareFull self.stage limit r (prepare_turn turn)) }
        ensures leaves { IfOk result (PrepareLeaves limit (D.size d.old) (D.size d.new)) }
        ensures length { OnOk result (KeepsWithin limit (D.size d.old) (D.size d.new)) }
        ensures err { OnErr result (locks.new ≡ locks.old) }
        ensures cause { HasCause (D.faults d.old) (D.faults d.new) result }
        ensures syncs { IfOk result (PrepareSyncs self.stage (D.syncs d.old) (D.syncs d.new)) }
        ensures plans { IfOk result (λ turn. IsTrue D.tells → (r b : List ℕ) → KnowsStage self.stage (D.history d.old) r b → PreparePlans self.stage r (D.syncs d.old) (D.syncs d.new) turn) }
    {
        let Preparing { numbered, stage } = self;
        match stage {
            PrepareStage::Unchanged => Ok(PrepareTurn::Nothing),
            PrepareStage::Begun(txn) => Ok(records_turn(txn, numbered, locks, owner)),
            PrepareStage::Records(txn) => Ok(opening_turn(txn, numbered, locks, owner)),
            PrepareStage::Locked(txn) => plan_turn(txn, numbered, d, locks, owner, limit),
            PrepareStage::Planned(state) => Ok(PrepareTurn::Step(Preparing {
                numbered,
                stage: PrepareStage::Filled(state.fill(d)?),
            })),
            PrepareStage::Filled(state) => Ok(PrepareTurn::Done(state.open_gate(d)?)),
        }
    }
}

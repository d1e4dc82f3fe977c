//! The turns of an outer Prepare.
ghost use Rattle.std.specs.Prelude.{◌≡◌, ℕ, Bool, List, IsTrue, IfOk, OnOk, Some};
ghost use Rattle.tdb_disk.specs.Count.{HasCause};
ghost use Rattle.tdb_disk.specs.Stop.{LeavesOnly};
ghost use Rattle.tdb_words.specs.declared.header.Header.{Header};
ghost use Rattle.tdb_space.specs.Form.{Form};
ghost use Rattle.tdb_space.specs.Undoing.{Reopens};
ghost use Rattle.tdb_law.specs.Openers.{Task};
ghost use Rattle.tdb_law.specs.OneAside.Sides.{Past, Side};
ghost use Rattle.tdb_txn_turns.specs.Prepares.{KeepsWithin, KnowsStage, StageFits};
ghost use Rattle.tdb_txn_turns.specs.Room.{PrepareFull};
ghost use Rattle.tdb_commands.specs.InLaw.{law_turn};
ghost use Rattle.tdb_commands.specs.declared.options.Options.{Options};
ghost use Rattle.tdb_txn_owner.specs.declared.stage.Stage.TheVariants as Stage;
ghost use Rattle.tdb_txn_owner.specs.Stages.{stage_task, Known, IsFitLeft, IsSide, KnowsFile};
ghost use Rattle.tdb_txn_owner.specs.Turned.{MayTurn, StageTurned};
ghost use Rattle.tdb_txn_owner.specs.Wents.{has_changed, prepare_went};
ghost use Rattle.tdb_txn_owner.specs.Wanting.{RecordsGo, StepGoesOn};
ghost use Rattle.tdb_txn_owner.specs.Syncs.{HolderPlans, HolderSyncs};

use crate::stage::{PreparedTxn, Stage, Went};
use tdb_disk::Disk;
use tdb_locks::{Locks, Reply, Turn};
use tdb_space::Io;
use tdb_txn_turns::{PrepareStage, PrepareTurn, Preparing};

/// Whether a command of its transaction changed anything.
fn has_change(stage: &PrepareStage) -> bool
    ensures { result ≡ has_changed stage.now }
{
    !matches!(stage, PrepareStage::Unchanged)
}

/// What a turn of a Prepare leaves of its opener, where something was changed in its transaction, or nothing.
fn prepare_left(turn: PrepareTurn, changed: bool) -> Went
    ensures { result ≡ prepare_went changed turn }
{
    match turn {
        PrepareTurn::Step(next) => Went::on(Turn::Step, Stage::Preparing(next)),
        PrepareTurn::Blocked { owner, byte, again } => {
            Went::on(Turn::Blocked { owner, byte }, Stage::Preparing(again))
        }
        PrepareTurn::Nothing => Went::on(
            Turn::Done(Reply::Ok),
            Stage::Prepared {
                left: PreparedTxn::Nothing { changed },
                command: None,
            },
        ),
        PrepareTurn::Full { len, need } => Went::over(Reply::Full { len, need }),
        PrepareTurn::Memory => Went::over(Reply::Memory),
        PrepareTurn::Done(state) => Went::on(
            Turn::Done(Reply::Ok),
            Stage::Prepared {
                left: PreparedTxn::Opened(state),
                command: None,
            },
        ),
    }
}

/// Takes one turn of an outer Prepare, of the opener with the number `owner` in its own lock table, in a file that may
/// get `limit` bytes. `Io` where the disk failed: then the transaction is given up.
pub(crate) fn prepare_turn<D: Disk>(
    preparing: Preparing,
    d: &mut D,
    locks: &mut Locks,
    owner: u32,
    limit: u64,
) -> Result<Went, Io>
    requires fits { StageFits preparing.stage (D.size d.old) limit }
    ensures turned { IfOk result (λ went. IsTrue D.tells → (f : Form) (o : Options) (table : ℕ → ℕ → ℕ) (k : Known) (past : Past) (s : Side) (t : Task) → let stage = Stage.Preparing preparing in
        IsSide f o owner locks.old stage k past s → KnowsFile f stage (D.history d.old) k → stage_task stage ≡ Some t → MayTurn f table s t
        → StageTurned f o table owner locks.new stage went.stage (D.history d.old) (D.history d.new) k past s t (law_turn went.turn)) }
    ensures full { IfOk result (λ went. IsTrue D.tells → (r b : List ℕ) → KnowsStage preparing.stage (D.history d.old) r b → PrepareFull preparing.stage limit r (law_turn went.turn)) }
    ensures fits { IfOk result (λ went. (h : Header) → IsFitLeft went.stage h limit (D.size d.new)) }
    ensures length { OnOk result (KeepsWithin limit (D.size d.old) (D.size d.new)) }
    ensures records { IfOk result (λ went. RecordsGo (Stage.Preparing preparing) went.turn went.stage) }
    ensures goes_on { IfOk result (λ went. StepGoesOn went.turn went.stage) }
    ensures stops { IsTrue D.tells → (r b : List ℕ) → KnowsStage preparing.stage (D.history d.old) r b → LeavesOnly (D.history d.old) (D.history d.new) (Reopens r) }
    ensures syncs { IfOk result (λ went. HolderSyncs (Stage.Preparing preparing) went.turn (D.syncs d.old) (D.syncs d.new)) }
    ensures plans { IfOk result (λ went. IsTrue D.tells → (r b : List ℕ) → KnowsStage preparing.stage (D.history d.old) r b → HolderPlans (Stage.Preparing preparing) r went.turn (D.syncs d.old) (D.syncs d.new)) }
    ensures cause { HasCause (D.faults d.old) (D.faults d.new) result }
{
    let changed = has_change(&preparing.stage);
    let turn = preparing.step(d, locks, owner, limit)?;
    Ok(prepare_left(turn, changed))
}

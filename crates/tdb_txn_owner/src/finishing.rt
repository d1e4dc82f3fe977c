//! The turns of a Commit of a prepared transaction.
ghost use Rattle.std.specs.Prelude.{◌≡◌, ℕ, List, IsTrue, IfOk, Some};
ghost use Rattle.tdb_disk.specs.Count.{HasCause};
ghost use Rattle.tdb_disk.specs.Stop.{LeavesOnly};
ghost use Rattle.tdb_words.specs.declared.header.Header.{Header};
ghost use Rattle.tdb_space.specs.Form.{Form};
ghost use Rattle.tdb_law.specs.Openers.{Task};
ghost use Rattle.tdb_law.specs.OneAside.Sides.{Past, Side};
ghost use Rattle.tdb_txn_turns.specs.Finishes.{FinishFits, KnowsFinish, MayLeave};
ghost use Rattle.tdb_commands.specs.InLaw.{law_turn};
ghost use Rattle.tdb_commands.specs.declared.options.Options.{Options};
ghost use Rattle.tdb_txn_owner.specs.declared.stage.Stage.TheVariants as Stage;
ghost use Rattle.tdb_txn_owner.specs.Stages.{stage_task, Known, IsFitLeft, IsSide, KnowsFile};
ghost use Rattle.tdb_txn_owner.specs.Turned.{MayTurn, StageTurned};
ghost use Rattle.tdb_txn_owner.specs.Wents.{finish_went};
ghost use Rattle.tdb_txn_owner.specs.Wanting.{RecordsGo, StepGoesOn};
ghost use Rattle.tdb_txn_owner.specs.Syncs.{HolderSyncs};

use crate::stage::{Stage, Went};
use tdb_disk::Disk;
use tdb_locks::{Locks, Reply, Turn};
use tdb_space::Io;
use tdb_txn_turns::{FinishTurn, Finishing};

/// What a turn of a Commit whose gate was open leaves of its opener.
fn finish_left(turn: FinishTurn) -> Went
    ensures { result ≡ finish_went turn }
{
    match turn {
        FinishTurn::Step(next) => Went::on(Turn::Step, Stage::Finishing(next)),
        FinishTurn::Done => Went::over(Reply::Ok),
    }
}

/// Takes one turn of a Commit of a prepared transaction whose gate was opened, of the opener with the number `owner` in
/// its own lock table. It takes no memory. `Io` where the disk failed: then the commit is given up.
pub(crate) fn finish_turn<D: Disk>(
    finishing: Finishing,
    d: &mut D,
    locks: &mut Locks,
    owner: u32,
) -> Result<Went, Io>
    requires fits { FinishFits finishing (D.size d.old) }
    ensures turned { IfOk result (λ went. IsTrue D.tells → (f : Form) (o : Options) (table : ℕ → ℕ → ℕ) (k : Known) (past : Past) (s : Side) (t : Task) → let stage = Stage.Finishing finishing in
        IsSide f o owner locks.old stage k past s → KnowsFile f stage (D.history d.old) k → stage_task stage ≡ Some t → MayTurn f table s t
        → StageTurned f o table owner locks.new stage went.stage (D.history d.old) (D.history d.new) k past s t (law_turn went.turn)) }
    ensures fits { IfOk result (λ went. (h : Header) (limit : ℕ) → IsFitLeft went.stage h limit (D.size d.new)) }
    ensures records { IfOk result (λ went. RecordsGo (Stage.Finishing finishing) went.turn went.stage) }
    ensures goes_on { IfOk result (λ went. StepGoesOn went.turn went.stage) }
    ensures stops { IsTrue D.tells → (r b : List ℕ) → KnowsFinish finishing (D.history d.old) r b → LeavesOnly (D.history d.old) (D.history d.new) (MayLeave finishing r b) }
    ensures size { D.size d.new ≡ D.size d.old }
    ensures syncs { IfOk result (λ went. HolderSyncs (Stage.Finishing finishing) went.turn (D.syncs d.old) (D.syncs d.new)) }
    ensures cause { HasCause (D.faults d.old) (D.faults d.new) result }
{
    let turn = finishing.step(d, locks, owner)?;
    Ok(finish_left(turn))
}

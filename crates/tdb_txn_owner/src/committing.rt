//! The turns of an outer Commit.
ghost use Rattle.std.specs.Prelude.{◌≡◌, ◌<◌, ◌≤◌, ◌^◌, ℕ, List, IsTrue, IfOk, OnOk, Some};
ghost use Rattle.tdb_disk.specs.Count.{HasCause};
ghost use Rattle.tdb_disk.specs.Stop.{LeavesOnly};
ghost use Rattle.tdb_space.specs.Form.{Form};
ghost use Rattle.tdb_law.specs.Openers.{Task};
ghost use Rattle.tdb_law.specs.OneAside.Sides.{Past, Side};
ghost use Rattle.tdb_txn_turns.specs.Committings.{commit_steps, CommitFits, CommitMayLeave, KnowsCommit};
ghost use Rattle.tdb_txn_turns.specs.Prepares.{KeepsWithin};
ghost use Rattle.tdb_txn_turns.specs.Room.{CommitFull};
ghost use Rattle.tdb_commands.specs.InLaw.{law_turn};
ghost use Rattle.tdb_txn_owner.specs.Wents.{commit_went};
ghost use Rattle.tdb_words.specs.declared.header.Header.{Header};
ghost use Rattle.tdb_commands.specs.declared.options.Options.{Options};
ghost use Rattle.tdb_txn_owner.specs.declared.stage.Stage.TheVariants as Stage;
ghost use Rattle.tdb_txn_owner.specs.Stages.{stage_task, Known, IsFitLeft, IsSide, KnowsFile};
ghost use Rattle.tdb_txn_owner.specs.Turned.{MayTurn, StageTurned};
ghost use Rattle.tdb_txn_owner.specs.Wanting.{RecordsGo, StepGoesOn};
ghost use Rattle.tdb_txn_owner.specs.Syncs.{HolderPlans, HolderSyncs};

use crate::stage::{Stage, Went};
use tdb_disk::Disk;
use tdb_locks::{Locks, Reply, Turn};
use tdb_space::Io;
use tdb_txn_turns::{CommitTurn, Committing};

/// What a turn of a Commit leaves of its opener.
fn commit_left(turn: CommitTurn) -> Went
    ensures { result ≡ commit_went turn }
{
    match turn {
        CommitTurn::Step(next) => Went::on(Turn::Step, Stage::Committing(next)),
        CommitTurn::Blocked { owner, byte, again } => {
            Went::on(Turn::Blocked { owner, byte }, Stage::Committing(again))
        }
        CommitTurn::Full { len, need } => Went::over(Reply::Full { len, need }),
        CommitTurn::Memory => Went::over(Reply::Memory),
        CommitTurn::Done => Went::over(Reply::Ok),
    }
}

/// Takes one turn of an outer Commit, of the opener with the number `owner` in its own lock table, in a file that may
/// get `limit` bytes. `Io` where the disk failed: then the commit is given up.
pub(crate) fn commit_turn<D: Disk>(
    commit: Committing,
    d: &mut D,
    locks: &mut Locks,
    owner: u32,
    limit: u64,
) -> Result<Went, Io>
    requires fits { CommitFits commit (D.size d.old) limit }
    ensures turned { IfOk result (λ went. IsTrue D.tells → (f : Form) (o : Options) (table : ℕ → ℕ → ℕ) (k : Known) (past : Past) (s : Side) (t : Task) → let stage = Stage.Committing commit in
        IsSide f o owner locks.old stage k past s → KnowsFile f stage (D.history d.old) k → stage_task stage ≡ Some t → MayTurn f table s t
        → StageTurned f o table owner locks.new stage went.stage (D.history d.old) (D.history d.new) k past s t (law_turn went.turn)) }
    ensures full { IfOk result (λ went. IsTrue D.tells → (r b : List ℕ) → KnowsCommit commit (D.history d.old) r b → CommitFull commit limit r (law_turn went.turn)) }
    ensures fits { IfOk result (λ went. (h : Header) → IsFitLeft went.stage h limit (D.size d.new)) }
    ensures length { OnOk result (KeepsWithin limit (D.size d.old) (D.size d.new)) }
    ensures records { IfOk result (λ went. RecordsGo (Stage.Committing commit) went.turn went.stage) }
    ensures goes_on { IfOk result (λ went. StepGoesOn went.turn went.stage) }
    ensures stops { IsTrue D.tells → (r b : List ℕ) → KnowsCommit commit (D.history d.old) r b → LeavesOnly (D.history d.old) (D.history d.new) (CommitMayLeave commit r b) }
    ensures syncs { IfOk result (λ went. HolderSyncs (Stage.Committing commit) went.turn (D.syncs d.old) (D.syncs d.new)) }
    ensures plans { IfOk result (λ went. IsTrue D.tells → (r b : List ℕ) → KnowsCommit commit (D.history d.old) r b → HolderPlans (Stage.Committing commit) r went.turn (D.syncs d.old) (D.syncs d.new)) }
    ensures cause { HasCause (D.faults d.old) (D.faults d.new) result }
{
    let turn = commit.step(d, locks, owner, limit)?;
    Ok(commit_left(turn))
}

//! The turns of an outer Start.
ghost use Rattle.std.specs.Prelude.{◌≡◌, ◌≤◌, ℕ, IsTrue, IfOk, Some};
ghost use Rattle.tdb_disk.specs.Count.{HasCause};
ghost use Rattle.tdb_disk.specs.Stop.{LeavesOnly, Leaves};
ghost use Rattle.tdb_space.specs.Form.{form_in};
ghost use Rattle.tdb_law.specs.Openers.{Task};
ghost use Rattle.tdb_law.specs.OneAside.Sides.{Past, Side};
ghost use Rattle.tdb_commands.specs.InLaw.{law_turn};
ghost use Rattle.tdb_txn_owner.specs.declared.stage.Stage.TheVariants as Stage;
ghost use Rattle.tdb_txn_owner.specs.Stages.{stage_task, Known, IsFitLeft, IsSide, KnowsFile};
ghost use Rattle.tdb_txn_owner.specs.Turned.{BeginsOn, MayTurn, StageTurned};
ghost use Rattle.tdb_txn_owner.specs.Wents.{StartWent};
ghost use Rattle.tdb_txn_owner.specs.Wanting.{RecordsGo, StepGoesOn};
ghost use Rattle.tdb_txn_owner.specs.Syncs.{HolderSyncs};

use crate::open_txn::OpenTxn;
use crate::stage::{Stage, Went};
use std::alloc::Global;
use tdb_commands::Options;
use tdb_disk::Disk;
use tdb_locks::{Locks, Reply, Turn};
use tdb_space::Io;
use tdb_txn_turns::{OwnTxn, StartTurn, Starting};
use tdb_words::Header;

/// What a turn of a Start leaves of its opener, where changes raise the sequence number or not.
fn start_left(turn: StartTurn, starting: Starting, alloc: Global, numbered: bool) -> Went
    ensures { StartWent numbered starting turn result }
{
    match turn {
        StartTurn::Step(next) => Went::on(Turn::Step, Stage::Starting(next)),
        StartTurn::Blocked { owner, byte } => {
            Went::on(Turn::Blocked { owner, byte }, Stage::Starting(starting))
        }
        StartTurn::Memory => Went::over(Reply::Memory),
        StartTurn::Done(txn) => Went::on(
            Turn::Done(Reply::Ok),
            Stage::Open {
                txn: OpenTxn::new(alloc, OwnTxn::new(txn, numbered)),
                command: None,
            },
        ),
    }
}

/// Takes one turn of an outer Start, of the opener with the number `owner` in its own lock table, on a file with this
/// header. `Io` where the disk failed: then the Start is given up.
pub(crate) fn start_turn<D: Disk>(
    starting: Starting,
    alloc: Global,
    d: &mut D,
    header: &Header,
    options: &Options,
    locks: &mut Locks,
    owner: u32,
) -> Result<Went, Io>
    requires within { D.size d.old ≤ options.now.limit }
    ensures turned { IfOk result (λ went. IsTrue D.tells → (table : ℕ → ℕ → ℕ) (k : Known) (past : Past) (s : Side) (t : Task) → let stage = Stage.Starting starting in let f = form_in header.now in
        IsSide f options.now owner locks.old stage k past s → KnowsFile f stage (D.history d.old) k → BeginsOn f stage k.file → stage_task stage ≡ Some t → MayTurn f table s t
        → StageTurned f options.now table owner locks.new stage went.stage (D.history d.old) (D.history d.new) k past s t (law_turn went.turn)) }
    ensures fits { IfOk result (λ went. IsFitLeft went.stage header.now options.now.limit (D.size d.new)) }
    ensures records { IfOk result (λ went. RecordsGo (Stage.Starting starting) went.turn went.stage) }
    ensures goes_on { IfOk result (λ went. StepGoesOn went.turn went.stage) }
    ensures stops { LeavesOnly (D.history d.old) (D.history d.new) (Leaves (D.history d.old)) }
    ensures size { D.size d.new ≡ D.size d.old }
    ensures syncs { IfOk result (λ went. HolderSyncs (Stage.Starting starting) went.turn (D.syncs d.old) (D.syncs d.new)) }
    ensures cause { HasCause (D.faults d.old) (D.faults d.new) result }
{
    let turn = starting.step(alloc, d, header, locks, owner)?;
    Ok(start_left(turn, starting, alloc, options.seqnum))
}

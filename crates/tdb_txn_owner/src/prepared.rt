//! The turns of an opener whose transaction is prepared.
ghost use Rattle.std.specs.Prelude.{◌≡◌, ◌<◌, List, ℕ, Bool, Some, false, IsTrue, IfOk, OnOk};
ghost use Rattle.tdb_disk.specs.Count.{HasCause};
ghost use Rattle.tdb_disk.specs.Stop.{LeavesOnly};
ghost use Rattle.tdb_space.specs.Form.{Form, form_in};
ghost use Rattle.tdb_space.specs.Undoing.{Reopens};
ghost use Rattle.tdb_words.specs.declared.header.Header.{Header};
ghost use Rattle.tdb_law.specs.Openers.{Task};
ghost use Rattle.tdb_steps.specs.Holdings.{table_of};
ghost use Rattle.tdb_law.specs.OneAside.Sides.{Past, Side};
ghost use Rattle.tdb_txn_turns.specs.Commits.{RestsAt};
ghost use Rattle.tdb_txn_turns.specs.Holding.{OthersHold};
ghost use Rattle.tdb_commands.specs.InLaw.{law_turn};
ghost use Rattle.tdb_commands.specs.declared.command.Command.TheVariants as Given;
ghost use Rattle.tdb_commands.specs.declared.options.Options.{Options};
ghost use Rattle.tdb_txn_owner.specs.declared.stage.Stage.TheVariants as Stage;
ghost use Rattle.tdb_commands.specs.Short.{IsShortCommand};
ghost use Rattle.tdb_txn_owner.specs.Prepared.{IsRefused};
ghost use Rattle.tdb_txn_owner.specs.Refusing.{passes_prepared};
ghost use Rattle.tdb_txn_owner.specs.Stages.{stage_task, Known, IsFit, IsFitLeft, IsSide, KnowsFile, KnowsPrepared, PreparedFits};
ghost use Rattle.tdb_txn_owner.specs.Turned.{MayTurn, StageTurned};
ghost use Rattle.tdb_txn_owner.specs.Wanting.{RecordsGo, StepGoesOn};
ghost use Rattle.tdb_txn_owner.specs.Wents.{is_over};
ghost use Rattle.tdb_txn_owner.specs.Syncs.{EndSyncs, HolderSyncs};

use crate::finishing::finish_turn;
use crate::refusing::Level;
use crate::stage::{PreparedTxn, Stage, Went};
use std::alloc::Global;
use tdb_commands::{Command, Options};
use tdb_disk::Disk;
use tdb_locks::{Held, Locks, Reply, Turn};
use tdb_space::Io;
use tdb_txn_turns::{Finishing, undo_prepared};
use tdb_words::Header;

/// A prepared transaction as a refusal sees it. It has no explicit locks, and what it doesn't take is told the same
/// with a cursor and without one.
const PREPARED: Level = Level {
    prepared: true,
    nested: false,
    doomed: false,
    walks: false,
};

/// Ends the transaction without a commit, and its command with this reply.
fn end_with<D: Disk>(
    left: PreparedTxn,
    d: &mut D,
    locks: &mut Locks,
    owner: u32,
    reply: Reply,
) -> Result<Went, Io>
    requires fits { PreparedFits left (D.size d.old) }
    ensures over { IfOk result (λ went. went ≡ is_over reply) }
    ensures gone { OnOk result ((b : ℕ) → table_of locks.new owner b ≡ 0) }
    ensures others { OthersHold owner locks.old locks.new }
    ensures undone { OnOk result (IsTrue D.tells → (r b : List ℕ) → KnowsPrepared left (D.history d.old) r b → RestsAt (D.history d.new) r) }
    ensures stops { IsTrue D.tells → (r b : List ℕ) → KnowsPrepared left (D.history d.old) r b → LeavesOnly (D.history d.old) (D.history d.new) (Reopens r) }
    ensures still { (changed : Bool) → left ≡ PreparedTxn.Nothing changed → D.history d.new ≡ D.history d.old }
    ensures size { D.size d.new ≡ D.size d.old }
    ensures syncs { OnOk result (EndSyncs left (D.syncs d.old) (D.syncs d.new)) }
    ensures cause { HasCause (D.faults d.old) (D.faults d.new) result }
{
    match left {
        PreparedTxn::Opened(state) => {
            undo_prepared(state, d, locks, owner)?;
            Ok(Went::over(reply))
        }
        PreparedTxn::Nothing { changed: _ } => {
            locks.drop_owner(owner);
            Ok(Went::over(reply))
        }
    }
}

/// The first turn of a Commit: it writes, where the gate is open, and else the Commit is done.
fn commit_prepared<D: Disk>(
    left: PreparedTxn,
    d: &mut D,
    locks: &mut Locks,
    owner: u32,
) -> Result<Went, Io>
    requires fits { PreparedFits left (D.size d.old) }
    ensures turned { IfOk result (λ went. IsTrue D.tells → (f : Form) (o : Options) (table : ℕ → ℕ → ℕ) (k : Known) (past : Past) (s : Side) (t : Task) → let stage = Stage.Prepared left (Some Given.Commit) in
        IsSide f o owner locks.old stage k past s → KnowsFile f stage (D.history d.old) k → stage_task stage ≡ Some t → MayTurn f table s t
        → StageTurned f o table owner locks.new stage went.stage (D.history d.old) (D.history d.new) k past s t (law_turn went.turn)) }
    ensures fits { IfOk result (λ went. (h : Header) (limit : ℕ) → IsFitLeft went.stage h limit (D.size d.new)) }
    ensures records { IfOk result (λ went. RecordsGo (Stage.Prepared left (Some Given.Commit)) went.turn went.stage) }
    ensures goes_on { IfOk result (λ went. StepGoesOn went.turn went.stage) }
    ensures stops { IsTrue D.tells → (r b : List ℕ) → KnowsPrepared left (D.history d.old) r b → LeavesOnly (D.history d.old) (D.history d.new) (Reopens r) }
    ensures size { D.size d.new ≡ D.size d.old }
    ensures syncs { IfOk result (λ went. HolderSyncs (Stage.Prepared left (Some Given.Commit)) went.turn (D.syncs d.old) (D.syncs d.new)) }
    ensures cause { HasCause (D.faults d.old) (D.faults d.new) result }
{
    match left {
        PreparedTxn::Opened(state) => finish_turn(Finishing::Open(state), d, locks, owner),
        PreparedTxn::Nothing { changed: _ } => {
            locks.drop_owner(owner);
            Ok(Went::over(Reply::Ok))
        }
    }
}

/// Refuses a command that doesn't end the transaction, which stays as it is. It takes no memory.
fn refused(
    left: PreparedTxn,
    command: &Command,
    alloc: Global,
    header: &Header,
    options: &Options,
) -> Went
    requires other { passes_prepared command.now ≡ false }
    requires short { IsShortCommand command.now }
    requires chains { 0 < header.now.hash_size }
    ensures { IsRefused options.now left command.now result }
{
    let nothing = Held::new(alloc);
    match PREPARED.refusal(options, &nothing, command, header) {
        Some(reply) => Went::on(
            Turn::Done(reply),
            Stage::Prepared {
                left,
                command: None,
            },
        ),
        None => unreachable!(),
    }
}

/// Takes one turn of a command that was given where the transaction is prepared, of the opener with the number `owner`
/// in its own lock table, on a file with this header. A Commit goes on with what was prepared; a Cancel, a Close and
/// another Prepare end the transaction without a commit, with a sync where its gate is open; and any other command is
/// refused, and leaves it as it is. It takes no memory. `Io` where the disk failed: then the transaction is given up.
pub(crate) fn prepared_turn<D: Disk>(
    left: PreparedTxn,
    command: Command,
    alloc: Global,
    d: &mut D,
    header: &Header,
    options: &Options,
    locks: &mut Locks,
    owner: u32,
) -> Result<Went, Io>
    requires chains { 0 < header.now.hash_size }
    requires fits { IsFit (Stage.Prepared left (Some command)) header.now options.now.limit (D.size d.old) }
    ensures turned { IfOk result (λ went. IsTrue D.tells → (table : ℕ → ℕ → ℕ) (k : Known) (past : Past) (s : Side) (t : Task) → let stage = Stage.Prepared left (Some command) in let f = form_in header.now in
        IsSide f options.now owner locks.old stage k past s → KnowsFile f stage (D.history d.old) k → stage_task stage ≡ Some t → MayTurn f table s t
        → StageTurned f options.now table owner locks.new stage went.stage (D.history d.old) (D.history d.new) k past s t (law_turn went.turn)) }
    ensures fits { IfOk result (λ went. IsFitLeft went.stage header.now options.now.limit (D.size d.new)) }
    ensures records { IfOk result (λ went. RecordsGo (Stage.Prepared left (Some command)) went.turn went.stage) }
    ensures goes_on { IfOk result (λ went. StepGoesOn went.turn went.stage) }
    ensures stops { IsTrue D.tells → (r b : List ℕ) → KnowsPrepared left (D.history d.old) r b → LeavesOnly (D.history d.old) (D.history d.new) (Reopens r) }
    ensures size { D.size d.new ≡ D.size d.old }
    ensures syncs { IfOk result (λ went. HolderSyncs (Stage.Prepared left (Some command)) went.turn (D.syncs d.old) (D.syncs d.new)) }
    ensures cause { HasCause (D.faults d.old) (D.faults d.new) result }
{
    match command {
        Command::Commit => commit_prepared(left, d, locks, owner),
        Command::Cancel | Command::Close => end_with(left, d, locks, owner, Reply::Ok),
        Command::Prepare => end_with(left, d, locks, owner, Reply::InTransaction),
        command => Ok(refused(left, &command, alloc, header, options)),
    }
}

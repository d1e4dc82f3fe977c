//! The opener aside as one value: its lock table, and how far it is.
ghost use Rattle.std.specs.Prelude.{◌≡◌, ◌≢◌, ◌≤◌, ◌<◌, ◌↔◌, ℕ, [], true, false, is_none, None, Some, IsTrue, IfOk, IfSome, MatchBool, OnOk};
ghost use Rattle.tdb_disk.specs.Count.{HasCause};
ghost use Rattle.tdb_disk.specs.History.{History};
ghost use Rattle.tdb_disk.specs.Stop.{LeavesOnly};
ghost use Rattle.tdb_words.specs.declared.header.Header.{Header};
ghost use Rattle.tdb_space.specs.Form.{Form, form_in};
ghost use Rattle.tdb_locks.specs.declared.turn.Reply.TheVariants as Reply;
ghost use Rattle.tdb_locks.specs.declared.turn.Turn.TheVariants as Turn;
ghost use Rattle.tdb_law.specs.Lines.{leaves_open, MayDie};
ghost use Rattle.tdb_law.specs.Openers.{Task};
ghost use Rattle.tdb_steps.specs.Holdings.{table_of};
ghost use Rattle.tdb_law.specs.OneAside.Own.{side_wants};
ghost use Rattle.tdb_law.specs.OneAside.Sides.{Past, Side};
ghost use Rattle.tdb_txn_turns.specs.Prepares.{KeepsWithin};
ghost use Rattle.tdb_txn_turns.specs.declared.starting.Starting.TheVariants as Starting;
ghost use Rattle.tdb_commands.specs.InLaw.{law_command, law_turn};
ghost use Rattle.tdb_commands.specs.declared.options.Options.{Options};
ghost use Rattle.tdb_txn_owner.specs.declared.stage.Stage.{Stage};
ghost use Rattle.tdb_txn_owner.specs.declared.stage.Stage.TheVariants as Stage;
ghost use Rattle.tdb_txn_owner.specs.declared.wanting.Wants.TheVariants as Wants;
ghost use Rattle.tdb_txn_owner.specs.ButRoom.{stage_left, HolderButRoom};
ghost use Rattle.tdb_txn_owner.specs.Ends.{task_of, IsBlocked};
ghost use Rattle.tdb_commands.specs.Short.{IsShortCommand};
ghost use Rattle.tdb_txn_owner.specs.Holders.{is_idle, left_stage, stage_depth, stage_gate, with_command, HolderTurned, StageMayLeave};
ghost use Rattle.tdb_txn_owner.specs.Stages.{is_closing, stage_records, stage_task, Known, IsFit, IsFitLeft, IsSide, KnowsFile, MayBeGiven};
ghost use Rattle.tdb_txn_owner.specs.Turned.{BeginsOn, MayTurn, StageTurned};
ghost use Rattle.tdb_txn_owner.specs.Room.{StageFull};
ghost use Rattle.tdb_txn_owner.specs.Syncs.{HolderPlans, HolderSyncs};
ghost use Rattle.tdb_txn_owner.specs.Wanting.{records_at, stage_wants, wanted_by, RecordsGo, StepGoesOn};

use crate::committing::commit_turn;
use crate::finishing::finish_turn;
use crate::inside::open_turn;
use crate::prepared::prepared_turn;
use crate::preparing::prepare_turn;
use crate::stage::{Stage, Went};
use crate::starting::start_turn;
use crate::wanting::Wants;
use std::alloc::{AllocError, Global};
use std::marker::Model;
use tdb_commands::{Command, Options};
use tdb_disk::Disk;
use tdb_locks::{Kind, Locks, Reply, Turn};
use tdb_space::Io;
use tdb_txn_turns::Starting;
use tdb_words::Header;

/// An opener in a Start, or with a transaction, and a lock table of its own. It can't be dropped, since it may have an
/// open gate.
pub struct TxnOwner {
    owner: u32,
    locks: Locks,
    stage: Stage,
}

impl Model for TxnOwner {
    ghost use Rattle.std.specs.Coded.{codes};
    ghost use Rattle.tdb_txn_owner.specs.contracts.stage.Stage as e;
    ghost use Rattle.tdb_txn_owner.specs.Holders.{HolderState};

    ghost Value = { HolderState };

    ghost coded = { Prim.hlevel (codes, e.the_row.coded) };

    ghost view = { λ h. record { owner = h.owner; locks = h.locks; stage = h.stage } };
}

/// What a turn led to, and the opener after it; none where it has no transaction any more.
pub struct Moved {
    pub turn: Turn,
    pub holder: Option<TxnOwner>,
}

impl Stage {
    /// Whether the opener's command is done.
    fn is_idle(&self) -> bool
        ensures { result ≡ is_idle self.now }
    {
        match self {
            Stage::Open { command, .. } | Stage::Prepared { command, .. } => command.is_none(),
            Stage::Starting(_) | Stage::Committing(_) | Stage::Preparing(_) | Stage::Finishing(_) =>
                false,
        }
    }

    /// How many transactions are open within the one that takes commands.
    fn depth(&self) -> u32
        ensures { result ≡ stage_depth self.now }
    {
        match self {
            Stage::Open { txn, .. } => txn.own.txn.depth(),
            Stage::Starting(_)
            | Stage::Committing(_)
            | Stage::Preparing(_)
            | Stage::Prepared { .. }
            | Stage::Finishing(_) => 0,
        }
    }

    /// Gives the opener a command.
    fn give(&mut self, command: Command)
        requires { is_idle self.old ≡ true }
        ensures { self.new ≡ with_command self.old command }
    {
        match self {
            Stage::Open { command: given, .. } => *given = Some(command),
            Stage::Prepared { command: given, .. } => *given = Some(command),
            _ => unreachable!(),
        }
    }
}

/// The command of an opener that isn't idle.
fn given(command: Option<Command>) -> Command
    requires { is_none command ≡ false }
    ensures { command ≡ Some result }
{
    match command {
        Some(command) => command,
        None => unreachable!(),
    }
}

/// Takes one turn of the opener at this stage, in its own lock table.
fn stage_turn<D: Disk>(
    stage: Stage,
    alloc: Global,
    d: &mut D,
    header: &Header,
    options: &Options,
    locks: &mut Locks,
    owner: u32,
) -> Result<Went, Io>
    requires chains { 0 < header.now.hash_size }
    requires limit { options.now.limit ≤ 4294963200 }
    requires fits { IsFit stage header.now options.now.limit (D.size d.old) }
    requires busy { is_idle stage ≡ false }
    ensures turned { IfOk result (λ went. IsTrue D.tells → (table : ℕ → ℕ → ℕ) (k : Known) (past : Past) (s : Side) (t : Task) → let f = form_in header.now in
        IsSide f options.now owner locks.old stage k past s → KnowsFile f stage (D.history d.old) k → BeginsOn f stage k.file → stage_task stage ≡ Some t → MayTurn f table s t
        → StageTurned f options.now table owner locks.new stage went.stage (D.history d.old) (D.history d.new) k past s t (law_turn went.turn)) }
    ensures full { IfOk result (λ went. IsTrue D.tells → (table : ℕ → ℕ → ℕ) (k : Known) (past : Past) (s : Side) (t : Task) → let f = form_in header.now in
        IsSide f options.now owner locks.old stage k past s → KnowsFile f stage (D.history d.old) k → BeginsOn f stage k.file → stage_task stage ≡ Some t → MayTurn f table s t
        → StageFull f options.now.limit stage k s.own (law_turn went.turn)) }
    ensures fits { IfOk result (λ went. IsFitLeft went.stage header.now options.now.limit (D.size d.new)) }
    ensures length { OnOk result (KeepsWithin options.now.limit (D.size d.old) (D.size d.new)) }
    ensures records { IfOk result (λ went. RecordsGo stage went.turn went.stage) }
    ensures goes_on { IfOk result (λ went. StepGoesOn went.turn went.stage) }
    ensures stops { IsTrue D.tells → (f : Form) (k : Known) → KnowsFile f stage (D.history d.old) k → LeavesOnly (D.history d.old) (D.history d.new) (StageMayLeave stage (D.history d.old) k) }
    ensures syncs { IfOk result (λ went. HolderSyncs stage went.turn (D.syncs d.old) (D.syncs d.new)) }
    ensures plans { IfOk result (λ went. IsTrue D.tells → (f : Form) (k : Known) → KnowsFile f stage (D.history d.old) k → HolderPlans stage k.file went.turn (D.syncs d.old) (D.syncs d.new)) }
    ensures cause { IsTrue D.tells → (f : Form) (k : Known) → KnowsFile f stage (D.history d.old) k → HasCause (D.faults d.old) (D.faults d.new) result }
    ensures done { OnOk result (D.faults d.new ≡ D.faults d.old) }
    ensures rises { D.faults d.old ≤ D.faults d.new }
{
    match stage {
        Stage::Starting(starting) => {
            start_turn(starting, alloc, d, header, options, locks, owner)
        }
        Stage::Open { txn, command } => {
            let command = given(command);
            open_turn(txn, command, alloc, d, header, options, locks, owner)
        }
        Stage::Committing(commit) => commit_turn(commit, d, locks, owner, options.limit),
        Stage::Preparing(preparing) => prepare_turn(preparing, d, locks, owner, options.limit),
        Stage::Prepared { left, command } => {
            let command = given(command);
            prepared_turn(left, command, alloc, d, header, options, locks, owner)
        }
        Stage::Finishing(finishing) => finish_turn(finishing, d, locks, owner),
    }
}

/// The opener after a turn.
fn after_turn(went: Went, owner: u32, locks: Locks) -> Moved
    ensures turn { result.turn ≡ went.turn }
    ensures stage { left_stage result.holder ≡ went.stage }
    ensures holder { IfSome result.holder (λ h. (h.owner ≡ owner) × (h.locks ≡ locks)) }
{
    let Went { turn, stage } = went;
    match stage {
        None => Moved { turn, holder: None },
        Some(stage) => Moved {
            turn,
            holder: Some(TxnOwner {
                owner,
                locks,
                stage,
            }),
        },
    }
}

impl TxnOwner {
    /// An opener with this number in a Start that has had no turn. It takes no memory.
    pub fn start(alloc: Global, owner: u32) -> TxnOwner
        ensures { result ≡ record { owner = owner; locks = []; stage = Stage.Starting Starting.Begun } }
    {
        TxnOwner {
            owner,
            locks: Locks::new(alloc),
            stage: Stage::Starting(Starting::Begun),
        }
    }

    /// Its number.
    pub fn owner(&self) -> u32
        ensures { result ≡ self.now.owner }
    {
        self.owner
    }

    /// Whether its command is done.
    pub fn is_idle(&self) -> bool
        ensures stage { result ≡ is_idle self.now.stage }
        ensures task { result ≡ true → stage_task self.now.stage ≡ None }
        ensures busy { result ≡ false → (t : Task) × (stage_task self.now.stage ≡ Some t) }
    {
        self.stage.is_idle()
    }

    /// Whether its command is a Close.
    pub fn closes(&self) -> bool
        ensures { result ≡ is_closing self.now.stage }
    {
        matches!(
            &self.stage,
            Stage::Open {
                command: Some(Command::Close),
                ..
            } | Stage::Prepared {
                command: Some(Command::Close),
                ..
            }
        )
    }

    /// Whether it may die now: it has no command, or a Commit or a Prepare.
    pub fn may_die(&self) -> bool
        ensures { MatchBool result (MayDie (stage_task self.now.stage)) (MayDie (stage_task self.now.stage) → ⊥) }
    {
        self.stage.may_die()
    }

    /// Whether it would leave an open gate if it died now: its Prepare opened it, or its Commit did and hasn't shut it
    /// yet.
    pub fn leaves_gate(&self) -> bool
        ensures stage { result ≡ stage_gate self.now.stage }
        ensures law { (f : Form) (o : Options) (k : Known) (past : Past) (s : Side)
            → IsSide f o self.now.owner self.now.locks self.now.stage k past s → leaves_open f s.own s.task ≡ result }
    {
        self.stage.leaves_gate()
    }

    /// Whether the command may be given: a Start finds room in the count of the transactions within another.
    pub fn may_be_given(&self, command: &Command) -> bool
        ensures { IsTrue result ↔ MayBeGiven command.now (stage_depth self.now.stage) }
    {
        match command {
            Command::Start => self.stage.depth() < u32::MAX,
            _ => true,
        }
    }

    /// Gives it a command, which has had no turn.
    pub fn assign(&mut self, command: Command)
        requires idle { is_idle self.old.stage ≡ true }
        requires short { IsShortCommand command }
        requires may { MayBeGiven command (stage_depth self.old.stage) }
        ensures given { self.new ≡ record self.old { stage = with_command self.old.stage command } }
        ensures busy { is_idle self.new.stage ≡ false }
        ensures side { (f : Form) (o : Options) (k : Known) (past : Past) (s : Side) → IsSide f o self.old.owner self.old.locks self.old.stage k past s
            → IsSide f o self.new.owner self.new.locks self.new.stage k past (record s { task = Some (task_of (law_command command) 0) }) }
        ensures file { (f : Form) (h : History) (k : Known) → KnowsFile f self.old.stage h k → KnowsFile f self.new.stage h k }
        ensures fits { (h : Header) (limit size : ℕ) → IsFit self.old.stage h limit size → IsFit self.new.stage h limit size }
    {
        self.stage.give(command);
    }

    /// Its command as a report tells it, at the cost of the key's and the value's length.
    pub fn told(&self, alloc: Global) -> Result<Command, AllocError>
        requires { is_idle self.now.stage ≡ false }
        ensures { IfOk result (λ command. (t : Task) → stage_task self.now.stage ≡ Some t → law_command command ≡ t.command) }
    {
        match &self.stage {
            Stage::Starting(_) => Ok(Command::Start),
            Stage::Open {
                command: Some(command),
                ..
            }
            | Stage::Prepared {
                command: Some(command),
                ..
            } => command.copy(alloc),
            Stage::Committing(_) | Stage::Finishing(_) => Ok(Command::Commit),
            Stage::Preparing(_) => Ok(Command::Prepare),
            Stage::Open { .. } | Stage::Prepared { .. } => unreachable!(),
        }
    }

    /// Gives back the memory that was made ready for the next commands of its transaction. Nothing else changes. The
    /// next command makes room anew, by an allocation for each page.
    pub fn shrink_to_fit(&mut self)
        ensures room { HolderButRoom self.old self.new }
        ensures left { stage_left self.new.stage ≡ 0 }
    {
        self.stage.shrink_to_fit();
    }

    /// Gives it up, with no call on the disk.
    pub fn end(self) {
        let TxnOwner {
            owner: _,
            locks: _,
            stage,
        } = self;
        stage.end();
    }

    /// What its next turn wants of the lock bytes that it doesn't hold yet.
    pub fn wants(&self) -> Wants
        ensures stage { result ≡ stage_wants self.now.stage }
        ensures law { (f : Form) (o : Options) (k : Known) (past : Past) (s : Side) (t : Task)
            → IsSide f o self.now.owner self.now.locks self.now.stage k past s → stage_task self.now.stage ≡ Some t → (b : ℕ) → side_wants f s t b ≡ wanted_by result b }
    {
        self.stage.wants()
    }

    /// How it holds all records, where it does.
    pub fn records(&self) -> Option<Kind>
        ensures stage { result ≡ stage_records self.now.stage }
        ensures law { (f : Form) (o : Options) (k : Known) (past : Past) (s : Side)
            → IsSide f o self.now.owner self.now.locks self.now.stage k past s → (b : ℕ) → 49 ≤ b → s.table b ≡ records_at result b }
    {
        self.stage.records()
    }

    /// Whether it holds the byte. Cost: a binary search in its own lock table.
    pub fn holds(&self, byte: u64) -> bool
        ensures table { IsTrue result ↔ (0 < table_of self.now.locks self.now.owner byte) }
        ensures law { (f : Form) (o : Options) (k : Known) (past : Past) (s : Side)
            → IsSide f o self.now.owner self.now.locks self.now.stage k past s → IsTrue result ↔ (0 < s.table byte) }
    {
        self.locks.kind_of(self.owner, byte).is_some()
    }

    /// Ends its command, and the transaction or the Start with it, where memory was wanting for a lock among those of
    /// the others. No call is made on a disk.
    pub fn starve(self) -> Turn
        requires { stage_wants self.stage ≢ Wants.Nothing }
        ensures turn { result ≡ Turn.Done Reply.Memory }
        ensures turned { (f : Form) (o : Options) (table : ℕ → ℕ → ℕ) (h : History) (k : Known) (past : Past) (s : Side) (t : Task)
            → IsSide f o self.owner self.locks self.stage k past s → KnowsFile f self.stage h k → stage_task self.stage ≡ Some t → MayTurn f table s t
            → HolderTurned f o table self None h h k past s t (law_turn result) }
    {
        self.end();
        Turn::Done(Reply::Memory)
    }

    /// Takes one turn of its command on a file with this header. `Io` where the disk failed: then it is given up.
    ///
    /// `Full` comes only where there is no room up to the limit, and there it comes unless memory is wanting. Inside
    /// the transaction it is that of the transaction's image for what a command stores: the record of the key isn't
    /// updated in place, no free record is long enough, and a new one, of `need` bytes with its header, behind the
    /// `len` bytes of the image passes the limit. At the third turn of a Commit or a Prepare it is that of the file for
    /// a new undo area of `need` bytes, behind the `len` bytes of the image, where one is wanted; for the first one of
    /// a file it comes whether memory is wanting or not; if the file has one to be replaced, it is sure only where none
    /// fits of those that may be wanted then. No other turn ends with `Full`.
    pub fn turn<D: Disk>(
        self,
        alloc: Global,
        d: &mut D,
        header: &Header,
        options: &Options,
    ) -> Result<Moved, Io>
        requires chains { 0 < header.now.hash_size }
        requires limit { options.now.limit ≤ 4294963200 }
        requires fits { IsFit self.stage header.now options.now.limit (D.size d.old) }
        requires busy { is_idle self.stage ≡ false }
        ensures turned { IfOk result (λ moved. IsTrue D.tells → (table : ℕ → ℕ → ℕ) (k : Known) (past : Past) (s : Side) (t : Task) → let f = form_in header.now in
            IsSide f options.now self.owner self.locks self.stage k past s → KnowsFile f self.stage (D.history d.old) k → BeginsOn f self.stage k.file → stage_task self.stage ≡ Some t → MayTurn f table s t
            → HolderTurned f options.now table self moved.holder (D.history d.old) (D.history d.new) k past s t (law_turn moved.turn)) }
        ensures blocked { IfOk result (λ moved. IsTrue D.tells → (k : Known) (past : Past) (s : Side) → let f = form_in header.now in
            IsSide f options.now self.owner self.locks self.stage k past s → KnowsFile f self.stage (D.history d.old) k → BeginsOn f self.stage k.file → IsBlocked (law_turn moved.turn) → ⊥) }
        ensures full { IfOk result (λ moved. IsTrue D.tells → (k : Known) (past : Past) (s : Side) → let f = form_in header.now in
            IsSide f options.now self.owner self.locks self.stage k past s → KnowsFile f self.stage (D.history d.old) k → BeginsOn f self.stage k.file
            → StageFull f options.now.limit self.stage k s.own (law_turn moved.turn)) }
        ensures fits { IfOk result (λ moved. IsFitLeft (left_stage moved.holder) header.now options.now.limit (D.size d.new)) }
        ensures length { OnOk result (KeepsWithin options.now.limit (D.size d.old) (D.size d.new)) }
        ensures owner { IfOk result (λ moved. IfSome moved.holder (λ h. h.owner ≡ self.owner)) }
        ensures records { IfOk result (λ moved. RecordsGo self.stage moved.turn (left_stage moved.holder)) }
        ensures goes_on { IfOk result (λ moved. StepGoesOn moved.turn (left_stage moved.holder)) }
        ensures stops { IsTrue D.tells → (f : Form) (k : Known) → KnowsFile f self.stage (D.history d.old) k → LeavesOnly (D.history d.old) (D.history d.new) (StageMayLeave self.stage (D.history d.old) k) }
        ensures syncs { IfOk result (λ moved. HolderSyncs self.stage moved.turn (D.syncs d.old) (D.syncs d.new)) }
        ensures plans { IfOk result (λ moved. IsTrue D.tells → (f : Form) (k : Known) → KnowsFile f self.stage (D.history d.old) k → HolderPlans self.stage k.file moved.turn (D.syncs d.old) (D.syncs d.new)) }
        ensures cause { IsTrue D.tells → (f : Form) (k : Known) → KnowsFile f self.stage (D.history d.old) k → HasCause (D.faults d.old) (D.faults d.new) result }
        ensures done { OnOk result (D.faults d.new ≡ D.faults d.old) }
        ensures rises { D.faults d.old ≤ D.faults d.new }
    {
        let TxnOwner {
            owner,
            mut locks,
            stage,
        } = self;
        let went = stage_turn(stage, alloc, d, header, options, &mut locks, owner)?;
        Ok(after_turn(went, owner, locks))
    }
}

//! A turn of an opener inside its transaction, with a command that has had none.
ghost use Rattle.std.specs.Prelude.{◌≡◌, ◌≢◌, ◌≤◌, ◌<◌, ◌^◌, ℕ, List, length, false, IsTrue, IfOk, OnOk, Some};
ghost use Rattle.tdb_disk.specs.Count.{HasCause};
ghost use Rattle.tdb_disk.specs.History.{History, seen};
ghost use Rattle.tdb_disk.specs.Stop.{LeavesOnly};
ghost use Rattle.tdb_space.specs.Form.{Form, form_in};
ghost use Rattle.tdb_space.specs.Undoing.{Reopens};
ghost use Rattle.tdb_locks.specs.declared.piece.Piece.{Piece};
ghost use Rattle.tdb_steps.specs.Holdings.{table_of};
ghost use Rattle.tdb_txn.specs.Committing.{MayCommit};
ghost use Rattle.tdb_txn.specs.Txn.{txn_depth, txn_doomed, txn_size, txn_start};
ghost use Rattle.tdb_txn_turns.specs.Prepares.{begun_with, KeepsWithin, KnowsStage, MayPlan};
ghost use Rattle.tdb_txn_turns.specs.declared.committing.Committing.TheVariants as Committing;
ghost use Rattle.tdb_commands.specs.InLaw.{law_turn};
ghost use Rattle.tdb_commands.specs.declared.command.Command.TheVariants as Command;
ghost use Rattle.tdb_txn_owner.specs.declared.stage.Stage.TheVariants as Stage;
ghost use Rattle.tdb_txn_owner.specs.Given.{IsInside};
ghost use Rattle.tdb_txn_owner.specs.Stages.{Known, CommandFits, IsFit, IsFitLeft, KnowsFile};
ghost use Rattle.tdb_txn_owner.specs.Open.{OpenFits};
ghost use Rattle.tdb_txn_owner.specs.Room.{GrantedFull};
ghost use Rattle.tdb_txn_owner.specs.Wanting.{RecordsGo, StepGoesOn};
ghost use Rattle.tdb_txn_owner.specs.Wents.{TurnsFrom};
ghost use Rattle.tdb_txn_owner.specs.Syncs.{HolderSyncs};

use crate::committing::commit_turn;
use crate::open_txn::OpenTxn;
use crate::preparing::prepare_turn;
use crate::stage::{Stage, Went};
use std::alloc::Global;
use tdb_commands::{Command, Options};
use tdb_disk::Disk;
use tdb_locks::{Locks, Reply, Turn};
use tdb_space::Io;
use tdb_txn::Txn;
use tdb_txn_turns::{Committing, OwnTxn, Preparing};
use tdb_words::Header;

/// How many bytes in front of a file no commit writes: of its header, up to the sequence number.
const HEADS: u64 = 48;

/// Whether the length of a transaction is one that can be planned. It is where it began on an accepted file; of a disk
/// whose bytes aren't told this isn't known.
fn may_plan(txn: &Txn) -> bool
    ensures plan { IsTrue result → (size limit : ℕ) → txn_depth txn.now ≡ 0 → txn_doomed txn.now ≡ false → size ≡ txn_start txn.now → txn_size txn.now ≤ limit → limit < 2 ^ 32 → MayPlan txn.now size limit }
    ensures always { (r : List ℕ) → length r ≡ txn_start txn.now → MayCommit txn.now r → IsTrue result }
{
    txn.length_at_start() >= HEADS && txn.length() % 4 == 0
}

impl OpenTxn {
    /// Ends the outer transaction without a commit: its opener lets go of all that it holds, and counts no lock any
    /// more. No call is made on the disk.
    fn end(self, alloc: Global, locks: &mut Locks, owner: u32)
        requires outer { txn_depth self.own.txn ≡ 0 }
        ensures gone { (b : ℕ) → table_of locks.new owner b ≡ 0 }
        ensures others { (p b : ℕ) → p ≢ owner → table_of locks.new p b ≡ table_of locks.old p b }
    {
        let OpenTxn {
            own,
            mut held,
            walk: _,
        } = self;
        own.cancel(alloc, locks, owner, &mut held);
    }

    /// Ends the opener, with its transaction and its cursor. No call is made on the disk.
    fn close(self, alloc: Global, locks: &mut Locks, owner: u32)
        ensures gone { (b : ℕ) → table_of locks.new owner b ≡ 0 }
        ensures others { (p b : ℕ) → p ≢ owner → table_of locks.new p b ≡ table_of locks.old p b }
    {
        let OpenTxn {
            own,
            mut held,
            mut walk,
        } = self;
        let mut live = true;
        own.close(alloc, locks, owner, &mut live, &mut held, &mut walk);
    }
}

/// Takes the turn of a Close.
fn close_turn(txn: OpenTxn, alloc: Global, locks: &mut Locks, owner: u32) -> Went
    ensures turned { (f : Form) (o : Options) (h : History) → TurnsFrom f o owner locks.old locks.new (Stage.Open txn (Some Command.Close)) result h h }
    ensures fits { (h : Header) (limit size : ℕ) → IsFitLeft result.stage h limit size }
    ensures records { RecordsGo (Stage.Open txn (Some Command.Close)) result.turn result.stage }
    ensures goes_on { StepGoesOn result.turn result.stage }
{
    txn.close(alloc, locks, owner);
    Went::over(Reply::Ok)
}

/// Takes the turn of an outer Cancel.
fn cancel_turn(txn: OpenTxn, alloc: Global, locks: &mut Locks, owner: u32) -> Went
    requires outer { txn_depth txn.own.txn ≡ 0 }
    ensures turned { (f : Form) (o : Options) (h : History) → TurnsFrom f o owner locks.old locks.new (Stage.Open txn (Some Command.Cancel)) result h h }
    ensures fits { (h : Header) (limit size : ℕ) → IsFitLeft result.stage h limit size }
    ensures records { RecordsGo (Stage.Open txn (Some Command.Cancel)) result.turn result.stage }
    ensures goes_on { StepGoesOn result.turn result.stage }
{
    txn.end(alloc, locks, owner);
    Went::over(Reply::Ok)
}

/// Takes the first turn of an outer Commit that isn't refused. `Io` where the disk failed.
fn commit_first<D: Disk>(
    own: OwnTxn,
    d: &mut D,
    locks: &mut Locks,
    owner: u32,
    limit: u64,
) -> Result<Went, Io>
    requires outer { txn_depth own.txn ≡ 0 }
    requires whole { txn_doomed own.txn ≡ false }
    requires sized { D.size d.old ≡ txn_start own.txn }
    requires within { txn_size own.txn ≤ limit }
    requires limit { limit ≤ 4294963200 }
    ensures turned { IfOk result (λ went. IsTrue D.tells → (f : Form) (o : Options) → let stage = Stage.Committing (Committing.Preparing (begun_with own.txn own.changed own.numbered)) in
        TurnsFrom f o owner locks.old locks.new stage went (D.history d.old) (D.history d.new)) }
    ensures fits { IfOk result (λ went. (h : Header) → IsFitLeft went.stage h limit (D.size d.new)) }
    ensures length { OnOk result (KeepsWithin limit (D.size d.old) (D.size d.new)) }
    ensures records { IfOk result (λ went. RecordsGo (Stage.Committing (Committing.Preparing (begun_with own.txn own.changed own.numbered))) went.turn went.stage) }
    ensures goes_on { IfOk result (λ went. StepGoesOn went.turn went.stage) }
    ensures stops { IsTrue D.tells → (r b : List ℕ) → KnowsStage (begun_with own.txn own.changed own.numbered).stage (D.history d.old) r b → LeavesOnly (D.history d.old) (D.history d.new) (Reopens r) }
    ensures syncs { IfOk result (λ went. HolderSyncs (Stage.Committing (Committing.Preparing (begun_with own.txn own.changed own.numbered))) went.turn (D.syncs d.old) (D.syncs d.new)) }
    ensures cause { IsTrue D.tells → MayCommit own.txn (seen (D.history d.old)) → HasCause (D.faults d.old) (D.faults d.new) result }
    ensures done { OnOk result (D.faults d.new ≡ D.faults d.old) }
    ensures rises { D.faults d.old ≤ D.faults d.new }
{
    let OwnTxn {
        txn,
        changed,
        numbered,
    } = own;
    if !may_plan(&txn) {
        return Err(Io);
    }
    commit_turn(
        Committing::new(txn, changed, numbered),
        d,
        locks,
        owner,
        limit,
    )
}

/// Takes the first turn of an outer Prepare that isn't refused. `Io` where the disk failed.
fn prepare_first<D: Disk>(
    own: OwnTxn,
    d: &mut D,
    locks: &mut Locks,
    owner: u32,
    limit: u64,
) -> Result<Went, Io>
    requires outer { txn_depth own.txn ≡ 0 }
    requires whole { txn_doomed own.txn ≡ false }
    requires sized { D.size d.old ≡ txn_start own.txn }
    requires within { txn_size own.txn ≤ limit }
    requires limit { limit ≤ 4294963200 }
    ensures turned { IfOk result (λ went. IsTrue D.tells → (f : Form) (o : Options) → let stage = Stage.Preparing (begun_with own.txn own.changed own.numbered) in
        TurnsFrom f o owner locks.old locks.new stage went (D.history d.old) (D.history d.new)) }
    ensures fits { IfOk result (λ went. (h : Header) → IsFitLeft went.stage h limit (D.size d.new)) }
    ensures length { OnOk result (KeepsWithin limit (D.size d.old) (D.size d.new)) }
    ensures records { IfOk result (λ went. RecordsGo (Stage.Preparing (begun_with own.txn own.changed own.numbered)) went.turn went.stage) }
    ensures goes_on { IfOk result (λ went. StepGoesOn went.turn went.stage) }
    ensures stops { IsTrue D.tells → (r b : List ℕ) → KnowsStage (begun_with own.txn own.changed own.numbered).stage (D.history d.old) r b → LeavesOnly (D.history d.old) (D.history d.new) (Reopens r) }
    ensures syncs { IfOk result (λ went. HolderSyncs (Stage.Preparing (begun_with own.txn own.changed own.numbered)) went.turn (D.syncs d.old) (D.syncs d.new)) }
    ensures cause { IsTrue D.tells → MayCommit own.txn (seen (D.history d.old)) → HasCause (D.faults d.old) (D.faults d.new) result }
    ensures done { OnOk result (D.faults d.new ≡ D.faults d.old) }
    ensures rises { D.faults d.old ≤ D.faults d.new }
{
    let OwnTxn {
        txn,
        changed,
        numbered,
    } = own;
    if !may_plan(&txn) {
        return Err(Io);
    }
    prepare_turn(
        Preparing::new(txn, changed, numbered),
        d,
        locks,
        owner,
        limit,
    )
}

/// Takes the first turn of an outer Commit. One that is refused ends the transaction.
fn commit_outer<D: Disk>(
    txn: OpenTxn,
    alloc: Global,
    d: &mut D,
    locks: &mut Locks,
    owner: u32,
    limit: u64,
) -> Result<Went, Io>
    requires outer { txn_depth txn.own.txn ≡ 0 }
    requires sized { D.size d.old ≡ txn_start txn.own.txn }
    requires within { txn_size txn.own.txn ≤ limit }
    requires limit { limit ≤ 4294963200 }
    ensures turned { IfOk result (λ went. IsTrue D.tells → (f : Form) (o : Options) → TurnsFrom f o owner locks.old locks.new (Stage.Open txn (Some Command.Commit)) went (D.history d.old) (D.history d.new)) }
    ensures fits { IfOk result (λ went. (h : Header) → IsFitLeft went.stage h limit (D.size d.new)) }
    ensures length { OnOk result (KeepsWithin limit (D.size d.old) (D.size d.new)) }
    ensures records { IfOk result (λ went. RecordsGo (Stage.Open txn (Some Command.Commit)) went.turn went.stage) }
    ensures goes_on { IfOk result (λ went. StepGoesOn went.turn went.stage) }
    ensures stops { IsTrue D.tells → (f : Form) (k : Known) → KnowsFile f (Stage.Open txn (Some Command.Commit)) (D.history d.old) k → LeavesOnly (D.history d.old) (D.history d.new) (Reopens k.file) }
    ensures syncs { IfOk result (λ went. HolderSyncs (Stage.Open txn (Some Command.Commit)) went.turn (D.syncs d.old) (D.syncs d.new)) }
    ensures cause { IsTrue D.tells → MayCommit txn.own.txn (seen (D.history d.old)) → HasCause (D.faults d.old) (D.faults d.new) result }
    ensures done { OnOk result (D.faults d.new ≡ D.faults d.old) }
    ensures rises { D.faults d.old ≤ D.faults d.new }
{
    if let Some(reply) = txn.end_refusal() {
        txn.end(alloc, locks, owner);
        return Ok(Went::over(reply));
    }
    let OpenTxn {
        own,
        held: _,
        walk: _,
    } = txn;
    commit_first(own, d, locks, owner, limit)
}

/// Takes the first turn of an outer Prepare. One that is refused ends the transaction.
fn prepare_outer<D: Disk>(
    txn: OpenTxn,
    alloc: Global,
    d: &mut D,
    locks: &mut Locks,
    owner: u32,
    limit: u64,
) -> Result<Went, Io>
    requires outer { txn_depth txn.own.txn ≡ 0 }
    requires sized { D.size d.old ≡ txn_start txn.own.txn }
    requires within { txn_size txn.own.txn ≤ limit }
    requires limit { limit ≤ 4294963200 }
    ensures turned { IfOk result (λ went. IsTrue D.tells → (f : Form) (o : Options) → TurnsFrom f o owner locks.old locks.new (Stage.Open txn (Some Command.Prepare)) went (D.history d.old) (D.history d.new)) }
    ensures fits { IfOk result (λ went. (h : Header) → IsFitLeft went.stage h limit (D.size d.new)) }
    ensures length { OnOk result (KeepsWithin limit (D.size d.old) (D.size d.new)) }
    ensures records { IfOk result (λ went. RecordsGo (Stage.Open txn (Some Command.Prepare)) went.turn went.stage) }
    ensures goes_on { IfOk result (λ went. StepGoesOn went.turn went.stage) }
    ensures stops { IsTrue D.tells → (f : Form) (k : Known) → KnowsFile f (Stage.Open txn (Some Command.Prepare)) (D.history d.old) k → LeavesOnly (D.history d.old) (D.history d.new) (Reopens k.file) }
    ensures syncs { IfOk result (λ went. HolderSyncs (Stage.Open txn (Some Command.Prepare)) went.turn (D.syncs d.old) (D.syncs d.new)) }
    ensures cause { IsTrue D.tells → MayCommit txn.own.txn (seen (D.history d.old)) → HasCause (D.faults d.old) (D.faults d.new) result }
    ensures done { OnOk result (D.faults d.new ≡ D.faults d.old) }
    ensures rises { D.faults d.old ≤ D.faults d.new }
{
    if let Some(reply) = txn.end_refusal() {
        txn.end(alloc, locks, owner);
        return Ok(Went::over(reply));
    }
    let OpenTxn {
        own,
        held: _,
        walk: _,
    } = txn;
    prepare_first(own, d, locks, owner, limit)
}

/// Takes the turn of a command that leaves the transaction open. Nothing is written to the disk, and no lock is taken.
fn stay_turn<D: Disk>(
    mut txn: OpenTxn,
    command: Command,
    alloc: Global,
    d: &mut D,
    header: &Header,
    options: &Options,
) -> Result<Went, Io>
    requires inside { IsInside command (txn_depth txn.own.txn) }
    requires fits { IsFit (Stage.Open txn (Some command)) header.now options.now.limit (D.size d.old) }
    requires chains { 0 < header.now.hash_size }
    requires limit { options.now.limit ≤ 4294963200 }
    ensures turned { IfOk result (λ went. IsTrue D.tells → (owner : ℕ) (ps : List Piece) → TurnsFrom (form_in header.now) options.now owner ps ps (Stage.Open txn (Some command)) went (D.history d.old) (D.history d.new)) }
    ensures full { IfOk result (λ went. IsTrue D.tells → GrantedFull options.now txn (seen (D.history d.old)) command (law_turn went.turn)) }
    ensures fits { IfOk result (λ went. IsFitLeft went.stage header.now options.now.limit (D.size d.new)) }
    ensures records { IfOk result (λ went. RecordsGo (Stage.Open txn (Some command)) went.turn went.stage) }
    ensures goes_on { IfOk result (λ went. StepGoesOn went.turn went.stage) }
    ensures history { D.history d.new ≡ D.history d.old }
    ensures size { D.size d.new ≡ D.size d.old }
    ensures syncs { IfOk result (λ went. HolderSyncs (Stage.Open txn (Some command)) went.turn (D.syncs d.old) (D.syncs d.new)) }
    ensures cause { IsTrue D.tells → MayCommit txn.own.txn (seen (D.history d.old)) → HasCause (D.faults d.old) (D.faults d.new) result }
    ensures done { OnOk result (D.faults d.new ≡ D.faults d.old) }
    ensures rises { D.faults d.old ≤ D.faults d.new }
{
    let reply = txn.turn(alloc, d, header, options, command)?;
    Ok(Went::on(Turn::Done(reply), Stage::Open { txn, command: None }))
}

/// Takes the turn of a command in the outer transaction.
fn outer_turn<D: Disk>(
    txn: OpenTxn,
    command: Command,
    alloc: Global,
    d: &mut D,
    header: &Header,
    options: &Options,
    locks: &mut Locks,
    owner: u32,
) -> Result<Went, Io>
    requires outer { txn_depth txn.own.txn ≡ 0 }
    requires fits { IsFit (Stage.Open txn (Some command)) header.now options.now.limit (D.size d.old) }
    requires chains { 0 < header.now.hash_size }
    requires limit { options.now.limit ≤ 4294963200 }
    ensures turned { IfOk result (λ went. IsTrue D.tells → TurnsFrom (form_in header.now) options.now owner locks.old locks.new (Stage.Open txn (Some command)) went (D.history d.old) (D.history d.new)) }
    ensures full { IfOk result (λ went. IsTrue D.tells → GrantedFull options.now txn (seen (D.history d.old)) command (law_turn went.turn)) }
    ensures fits { IfOk result (λ went. IsFitLeft went.stage header.now options.now.limit (D.size d.new)) }
    ensures length { OnOk result (KeepsWithin options.now.limit (D.size d.old) (D.size d.new)) }
    ensures records { IfOk result (λ went. RecordsGo (Stage.Open txn (Some command)) went.turn went.stage) }
    ensures goes_on { IfOk result (λ went. StepGoesOn went.turn went.stage) }
    ensures stops { IsTrue D.tells → (k : Known) → KnowsFile (form_in header.now) (Stage.Open txn (Some command)) (D.history d.old) k → LeavesOnly (D.history d.old) (D.history d.new) (Reopens k.file) }
    ensures syncs { IfOk result (λ went. HolderSyncs (Stage.Open txn (Some command)) went.turn (D.syncs d.old) (D.syncs d.new)) }
    ensures cause { IsTrue D.tells → MayCommit txn.own.txn (seen (D.history d.old)) → HasCause (D.faults d.old) (D.faults d.new) result }
    ensures done { OnOk result (D.faults d.new ≡ D.faults d.old) }
    ensures rises { D.faults d.old ≤ D.faults d.new }
{
    match command {
        Command::Close => Ok(close_turn(txn, alloc, locks, owner)),
        Command::Cancel => Ok(cancel_turn(txn, alloc, locks, owner)),
        Command::Commit => commit_outer(txn, alloc, d, locks, owner, options.limit),
        Command::Prepare => prepare_outer(txn, alloc, d, locks, owner, options.limit),
        command => stay_turn(txn, command, alloc, d, header, options),
    }
}

/// Takes the turn of a command in a transaction within the outer one.
fn inner_turn<D: Disk>(
    txn: OpenTxn,
    command: Command,
    alloc: Global,
    d: &mut D,
    header: &Header,
    options: &Options,
    locks: &mut Locks,
    owner: u32,
) -> Result<Went, Io>
    requires inner { 0 < txn_depth txn.own.txn }
    requires fits { IsFit (Stage.Open txn (Some command)) header.now options.now.limit (D.size d.old) }
    requires chains { 0 < header.now.hash_size }
    requires limit { options.now.limit ≤ 4294963200 }
    ensures turned { IfOk result (λ went. IsTrue D.tells → TurnsFrom (form_in header.now) options.now owner locks.old locks.new (Stage.Open txn (Some command)) went (D.history d.old) (D.history d.new)) }
    ensures full { IfOk result (λ went. IsTrue D.tells → GrantedFull options.now txn (seen (D.history d.old)) command (law_turn went.turn)) }
    ensures fits { IfOk result (λ went. IsFitLeft went.stage header.now options.now.limit (D.size d.new)) }
    ensures length { OnOk result (KeepsWithin options.now.limit (D.size d.old) (D.size d.new)) }
    ensures records { IfOk result (λ went. RecordsGo (Stage.Open txn (Some command)) went.turn went.stage) }
    ensures goes_on { IfOk result (λ went. StepGoesOn went.turn went.stage) }
    ensures stops { IsTrue D.tells → (k : Known) → KnowsFile (form_in header.now) (Stage.Open txn (Some command)) (D.history d.old) k → LeavesOnly (D.history d.old) (D.history d.new) (Reopens k.file) }
    ensures syncs { IfOk result (λ went. HolderSyncs (Stage.Open txn (Some command)) went.turn (D.syncs d.old) (D.syncs d.new)) }
    ensures cause { IsTrue D.tells → MayCommit txn.own.txn (seen (D.history d.old)) → HasCause (D.faults d.old) (D.faults d.new) result }
    ensures done { OnOk result (D.faults d.new ≡ D.faults d.old) }
    ensures rises { D.faults d.old ≤ D.faults d.new }
{
    match command {
        Command::Close => Ok(close_turn(txn, alloc, locks, owner)),
        command => stay_turn(txn, command, alloc, d, header, options),
    }
}

/// Takes one turn of an opener inside its transaction that has this command, which has had none, in a file with this
/// header that may grow to `options.limit` bytes. `owner` is the opener's number in its own lock table. With a Close,
/// an outer Cancel, and an outer Commit or Prepare that is refused, the transaction is over. `Io` where the disk
/// failed: then the transaction is given up.
pub(crate) fn open_turn<D: Disk>(
    txn: OpenTxn,
    command: Command,
    alloc: Global,
    d: &mut D,
    header: &Header,
    options: &Options,
    locks: &mut Locks,
    owner: u32,
) -> Result<Went, Io>
    requires fits { IsFit (Stage.Open txn (Some command)) header.now options.now.limit (D.size d.old) }
    requires chains { 0 < header.now.hash_size }
    requires limit { options.now.limit ≤ 4294963200 }
    ensures turned { IfOk result (λ went. IsTrue D.tells → TurnsFrom (form_in header.now) options.now owner locks.old locks.new (Stage.Open txn (Some command)) went (D.history d.old) (D.history d.new)) }
    ensures full { IfOk result (λ went. IsTrue D.tells → GrantedFull options.now txn (seen (D.history d.old)) command (law_turn went.turn)) }
    ensures fits { IfOk result (λ went. IsFitLeft went.stage header.now options.now.limit (D.size d.new)) }
    ensures length { OnOk result (KeepsWithin options.now.limit (D.size d.old) (D.size d.new)) }
    ensures records { IfOk result (λ went. RecordsGo (Stage.Open txn (Some command)) went.turn went.stage) }
    ensures goes_on { IfOk result (λ went. StepGoesOn went.turn went.stage) }
    ensures stops { IsTrue D.tells → (k : Known) → KnowsFile (form_in header.now) (Stage.Open txn (Some command)) (D.history d.old) k → LeavesOnly (D.history d.old) (D.history d.new) (Reopens k.file) }
    ensures syncs { IfOk result (λ went. HolderSyncs (Stage.Open txn (Some command)) went.turn (D.syncs d.old) (D.syncs d.new)) }
    ensures cause { IsTrue D.tells → MayCommit txn.own.txn (seen (D.history d.old)) → HasCause (D.faults d.old) (D.faults d.new) result }
    ensures done { OnOk result (D.faults d.new ≡ D.faults d.old) }
    ensures rises { D.faults d.old ≤ D.faults d.new }
{
    if txn.own.txn.depth() > 0 {
        inner_turn(txn, command, alloc, d, header, options, locks, owner)
    } else {
        outer_turn(txn, command, alloc, d, header, options, locks, owner)
    }
}

//! The commands of an opener inside its transaction that leave it open. Each is done in one turn.
ghost use Rattle.std.specs.Prelude.{◌≡◌, ◌≤◌, ◌<◌, ◌-◌, ◌^◌, ◌↔◌, List, ℕ, None, false, nat_lt, is_some, IsTrue, IfOk, OnOk};
ghost use Rattle.std.specs.Option.{option_map};
ghost use Rattle.std.proofs.Props.{props};
ghost use Rattle.tdb_disk.specs.Count.{HasCause};
ghost use Rattle.tdb_disk.specs.History.{seen};
ghost use Rattle.tdb_space.specs.Form.{Form, form_in};
ghost use Rattle.tdb_space.specs.Pairs.{home};
ghost use Rattle.tdb_locks.specs.HeldLocks.{nothing_held, total_of, AreCounts};
ghost use Rattle.tdb_law.specs.Commands.Command.{OnMap, OnLocks, OnGroup, OnWalk, Seqnum};
ghost use Rattle.tdb_law.specs.Commands.{GroupCommand};
ghost use Rattle.tdb_law.specs.Commands.Turn.{Ends};
ghost use Rattle.tdb_law.specs.Commands.GroupCommand.{Start, Commit, Cancel};
ghost use Rattle.tdb_law.specs.Commands.MapCommand.{Check};
ghost use Rattle.tdb_law.specs.Commands.LockCommand.{ChainLock, ChainLockNb};
ghost use Rattle.tdb_law.specs.Openers.{Own};
ghost use Rattle.tdb_law.specs.Refusals.{refusal, says};
ghost use Rattle.tdb_txn_turns.specs.Laws as Laws;
ghost use Rattle.tdb_steps.specs.Machines.{IsShort};
ghost use Rattle.tdb_steps.specs.PlainCommands.{command_of};
ghost use Rattle.tdb_steps.specs.Room.{FullExactly};
ghost use Rattle.tdb_txn.specs.Committing.{MayCommit};
ghost use Rattle.tdb_txn.specs.Txn.{txn_depth, txn_doomed, SameView};
ghost use Rattle.tdb_walk.specs.Cursors.{rested};
ghost use Rattle.tdb_walk.specs.declared.standing.Standing.TheVariants.{Past};
ghost use Rattle.tdb_txn_turns.specs.InsideTxn.Counted.{lock_all_of};
ghost use Rattle.tdb_txn_turns.specs.InsideTxn.OwnTxns.{form_of, image_of};
ghost use Rattle.tdb_txn_turns.specs.InsideTxn.Walks.{command_for, IsEntered, RestsInside};
ghost use Rattle.tdb_commands.specs.InLaw.{law_command, law_reply};
ghost use Rattle.tdb_txn_owner.specs.Given.{IsInside, IsLocking, IsMapped, IsPlainInside};
ghost use Rattle.tdb_commands.specs.declared.options.Options.{Options};
ghost use Rattle.tdb_commands.specs.Short.{IsShortCommand};

use crate::refusing::{Level, chain_in};
use std::alloc::{AllocError, Global};
use tdb_commands::{Command, Options};
use tdb_disk::Disk;
use tdb_locks::{Held, Kind, Reply, Spots};
use tdb_space::Io;
use tdb_steps::Plain;
use tdb_txn_turns::{OwnTxn, count_all, count_chain, uncount_all, uncount_chain};
use tdb_walk::{Goal, Walk};
use tdb_words::Header;

/// How many locks can be counted: their number has room for a cursor.
const MOST_HELD: u64 = u64::MAX - 1;

/// A transaction that is open, the locks that its opener has taken explicitly in it, which are only counted, and the
/// opener's cursor, which walks through the transaction's image.
#[derive(Drop)]
pub struct OpenTxn {
    pub(crate) own: OwnTxn,
    pub(crate) held: Held,
    pub(crate) walk: Walk,
    ghost counts: { AreCounts held.chains } by { Prim.hlevel props },
    ghost few: { total_of held < 2 ^ 64 - 1 },
}

/// A command on the map, as its machine is asked for it.
fn plain_of(command: Command) -> Plain
    requires mapped { IsMapped command }
    requires short { IsShortCommand command }
    ensures same { OnMap (command_of result) ≡ law_command command }
    ensures short { IsShort result }
{
    match command {
        Command::Fetch { key } => Plain::Fetch { key },
        Command::Has { key } => Plain::Has { key },
        Command::Store { key, value, flag } => Plain::Store { key, value, flag },
        Command::Append { key, value } => Plain::Append { key, value },
        Command::Delete { key } => Plain::Delete { key },
        Command::Wipe => Plain::Wipe,
        _ => unreachable!(),
    }
}

impl OpenTxn {
    ghost use Rattle.tdb_txn_owner.specs.Open.{GoesOn, HasOpen, OpenFits};
    ghost use Rattle.tdb_txn_owner.specs.Room.{FullInside, GrantedFull};

    /// A transaction that has just begun: nothing is counted in it, and its opener has no cursor. It takes no memory.
    pub(crate) fn new(alloc: Global, own: OwnTxn) -> OpenTxn
        ensures own { result.own ≡ own }
        ensures held { result.held ≡ nothing_held }
        ensures cursor { result.walk.cursor ≡ rested Past }
        ensures shown { result.walk.shown ≡ None }
    {
        OpenTxn {
            own,
            held: Held::new(alloc),
            walk: Walk::new(),
        }
    }

    /// At which level the transaction is.
    fn level(&self) -> Level
        ensures prepared { result.prepared ≡ false }
        ensures nested { result.nested ≡ nat_lt 0 (txn_depth self.now.own.txn) }
        ensures doomed { result.doomed ≡ txn_doomed self.now.own.txn }
        ensures walks { result.walks ≡ is_some self.now.walk.shown }
    {
        Level {
            prepared: false,
            nested: self.own.txn.depth() > 0,
            doomed: self.own.txn.doomed(),
            walks: self.walk.shown.is_some(),
        }
    }

    /// The reply with which the opener's own state refuses a command, if it does.
    pub(crate) fn refusal(
        &self,
        options: &Options,
        command: &Command,
        header: &Header,
    ) -> Option<Reply>
        requires chains { 0 < header.now.hash_size }
        requires short { IsShortCommand command.now }
        ensures { (base : List ℕ) (x : Own) → HasOpen options.now self.now base x
            → option_map law_reply result ≡ option_map (says x) (refusal (form_in header.now) (law_command command.now) x) }
    {
        self.level().refusal(options, &self.held, command, header)
    }

    /// The reply with which the opener's own state refuses the end of the outer transaction by a Commit or a Prepare,
    /// if it does.
    pub(crate) fn end_refusal(&self) -> Option<Reply>
        requires { txn_depth self.now.own.txn ≡ 0 }
        ensures told { (f : Form) (o : Options) (base : List ℕ) (x : Own) (g : GroupCommand) → Laws.Ends g → HasOpen o self.now base x
            → option_map law_reply result ≡ option_map (says x) (refusal f (OnGroup g) x) }
        ensures whole { result ≡ None → txn_doomed self.now.own.txn ≡ false }
        ensures unlocked { result ≡ None → nat_lt 0 (total_of self.now.held) ≡ false }
    {
        self.level().commit_refusal(&self.held)
    }

    /// Whether no more locks can be counted.
    fn is_full(&self) -> bool
        ensures { IsTrue result ↔ (2 ^ 64 - 2 ≤ total_of self.now.held) }
    {
        self.held.total() >= MOST_HELD
    }

    /// Counts a lock of a chain once more. `Memory` where that is wanting, or where the count can't rise.
    fn count_chain(&mut self, chain: u32) -> Reply
        ensures own { self.new.own ≡ self.old.own }
        ensures walk { self.new.walk ≡ self.old.walk }
        ensures turned { (o : Options) (base key : List ℕ) (x : Own) → home (form_of self.old.own) key ≡ chain → HasOpen o self.old base x → GoesOn o self.old self.new base x (OnLocks (ChainLock key)) (law_reply result) }
        ensures at_once { (o : Options) (base key : List ℕ) (x : Own) → home (form_of self.old.own) key ≡ chain → HasOpen o self.old base x → GoesOn o self.old self.new base x (OnLocks (ChainLockNb key)) (law_reply result) }
    {
        if self.is_full() {
            return Reply::Memory;
        }
        count_chain(&mut self.held, chain)
    }

    /// Counts a lock of all records once more. `Memory` where the count can't rise.
    fn count_all(&mut self, kind: Kind) -> Reply
        ensures own { self.new.own ≡ self.old.own }
        ensures walk { self.new.walk ≡ self.old.walk }
        ensures turned { (o : Options) (base : List ℕ) (x : Own) → HasOpen o self.old base x → GoesOn o self.old self.new base x (OnLocks (lock_all_of kind)) (law_reply result) }
    {
        if self.is_full() {
            return Reply::Memory;
        }
        count_all(&mut self.held, kind)
    }

    /// Takes the turn of a command on explicit locks. Cost: a hash of its key, and a look-up among the chains that are
    /// held.
    fn count(&mut self, command: &Command, header: &Header) -> Reply
        requires locking { IsLocking command.now }
        requires header { form_in header.now ≡ form_of self.old.own }
        requires chains { 0 < header.now.hash_size }
        requires short { IsShortCommand command.now }
        ensures own { self.new.own ≡ self.old.own }
        ensures walk { self.new.walk ≡ self.old.walk }
        ensures turned { (o : Options) (base : List ℕ) (x : Own) → HasOpen o self.old base x → GoesOn o self.old self.new base x (law_command command.now) (law_reply result) }
    {
        match command {
            Command::ChainLock { key } | Command::ChainLockNb { key } => {
                self.count_chain(chain_in(header, key))
            }
            Command::ChainUnlock { key } => uncount_chain(&mut self.held, chain_in(header, key)),
            Command::LockAll => self.count_all(Kind::Write),
            Command::LockAllRead => self.count_all(Kind::Read),
            Command::UnlockAll => uncount_all(&mut self.held),
            _ => unreachable!(),
        }
    }

    /// The record on which the cursor stands, if it stands on one.
    fn stood_on(&self, alloc: Global) -> Result<Spots, AllocError>
        ensures { IfOk result (λ spots. IsEntered spots self.now.walk.cursor.place) }
    {
        let mut spots = Spots::new(alloc);
        if let Some(off) = self.walk.cursor.spot() {
            spots.push(off)?;
        }
        Ok(spots)
    }

    /// Takes the turn of a command on the map. `Memory` also where that is wanting for the record of the cursor.
    fn run<D: Disk>(
        &mut self,
        alloc: Global,
        d: &mut D,
        header: &Header,
        limit: u64,
        command: Plain,
    ) -> Result<Reply, Io>
        requires short { IsShort command }
        requires chains { 0 < header.now.hash_size }
        requires limit { limit ≤ 4294963200 }
        requires fits { OpenFits self.old header.now limit (D.size d.old) }
        ensures turned { IfOk result (λ reply. IsTrue D.tells → (o : Options) (x : Own) → let base = seen (D.history d.old) in HasOpen o self.old base x → RestsInside self.old.own base self.old.walk → MayCommit self.old.own.txn base
            → refusal (form_of self.old.own) (OnMap (command_of command)) x ≡ None → GoesOn o self.old self.new base x (OnMap (command_of command)) (law_reply reply)) }
        ensures full { IfOk result (λ reply. IsTrue D.tells → let base = seen (D.history d.old) in MayCommit self.old.own.txn base
            → FullExactly (form_of self.old.own) (image_of self.old.own base) limit (OnMap (command_of command)) (Ends (law_reply reply))) }
        ensures commits { OnOk result (IsTrue D.tells → let base = seen (D.history d.old) in MayCommit self.old.own.txn base → MayCommit self.new.own.txn base) }
        ensures numbered { self.new.own.numbered ≡ self.old.own.numbered }
        ensures fits { OpenFits self.new header.now limit (D.size d.new) }
        ensures history { D.history d.new ≡ D.history d.old }
        ensures size { D.size d.new ≡ D.size d.old }
        ensures syncs { D.syncs d.new ≡ D.syncs d.old }
        ensures cause { HasCause (D.faults d.old) (D.faults d.new) result }
    {
        match self.stood_on(alloc) {
            Ok(spots) => self.own.run(alloc, d, header, command, &spots, limit),
            Err(AllocError) => Ok(Reply::Memory),
        }
    }

    /// Takes the turn of a check.
    fn check<D: Disk>(
        &mut self,
        alloc: Global,
        d: &mut D,
        header: &Header,
        limit: u64,
    ) -> Result<Reply, Io>
        requires fits { OpenFits self.old header.now limit (D.size d.old) }
        ensures turned { IfOk result (λ reply. IsTrue D.tells → (o : Options) (x : Own) → let base = seen (D.history d.old) in HasOpen o self.old base x → MayCommit self.old.own.txn base
            → refusal (form_of self.old.own) (OnMap Check) x ≡ None → GoesOn o self.old self.new base x (OnMap Check) (law_reply reply)) }
        ensures commits { OnOk result (IsTrue D.tells → let base = seen (D.history d.old) in MayCommit self.old.own.txn base → MayCommit self.new.own.txn base) }
        ensures numbered { self.new.own.numbered ≡ self.old.own.numbered }
        ensures fits { OpenFits self.new header.now limit (D.size d.new) }
        ensures history { D.history d.new ≡ D.history d.old }
        ensures size { D.size d.new ≡ D.size d.old }
        ensures syncs { D.syncs d.new ≡ D.syncs d.old }
        ensures cause { IsTrue D.tells → MayCommit self.old.own.txn (seen (D.history d.old)) → HasCause (D.faults d.old) (D.faults d.new) result }
        ensures done { OnOk result (D.faults d.new ≡ D.faults d.old) }
        ensures rises { D.faults d.old ≤ D.faults d.new }
    {
        self.own.check(alloc, d)
    }

    /// Takes the turn that tells the sequence number.
    fn sequence<D: Disk>(&mut self, d: &mut D, header: &Header, limit: u64) -> Result<Reply, Io>
        requires fits { OpenFits self.old header.now limit (D.size d.old) }
        ensures turned { IfOk result (λ reply. IsTrue D.tells → (o : Options) (x : Own) → let base = seen (D.history d.old) in HasOpen o self.old base x → MayCommit self.old.own.txn base
            → refusal (form_of self.old.own) Seqnum x ≡ None → GoesOn o self.old self.new base x Seqnum (law_reply reply)) }
        ensures commits { OnOk result (IsTrue D.tells → let base = seen (D.history d.old) in MayCommit self.old.own.txn base → MayCommit self.new.own.txn base) }
        ensures numbered { self.new.own.numbered ≡ self.old.own.numbered }
        ensures fits { OpenFits self.new header.now limit (D.size d.new) }
        ensures history { D.history d.new ≡ D.history d.old }
        ensures size { D.size d.new ≡ D.size d.old }
        ensures syncs { D.syncs d.new ≡ D.syncs d.old }
        ensures cause { HasCause (D.faults d.old) (D.faults d.new) result }
    {
        self.own.sequence(d, header)
    }

    /// Takes the turn of a First, a Next or an EndWalk, of the cursor over the transaction's image.
    fn ask<D: Disk>(
        &mut self,
        alloc: Global,
        d: &mut D,
        header: &Header,
        limit: u64,
        goal: Goal,
    ) -> Result<Reply, Io>
        requires limit { limit ≤ 4294963200 }
        requires fits { OpenFits self.old header.now limit (D.size d.old) }
        ensures turned { IfOk result (λ reply. IsTrue D.tells → (o : Options) (x : Own) → let base = seen (D.history d.old) in HasOpen o self.old base x → RestsInside self.old.own base self.old.walk
            → GoesOn o self.old self.new base x (OnWalk (command_for goal)) (law_reply reply)) }
        ensures commits { OnOk result (IsTrue D.tells → let base = seen (D.history d.old) in RestsInside self.old.own base self.old.walk → MayCommit self.old.own.txn base → MayCommit self.new.own.txn base) }
        ensures numbered { self.new.own.numbered ≡ self.old.own.numbered }
        ensures fits { OpenFits self.new header.now limit (D.size d.new) }
        ensures history { D.history d.new ≡ D.history d.old }
        ensures size { D.size d.new ≡ D.size d.old }
        ensures syncs { D.syncs d.new ≡ D.syncs d.old }
        ensures cause { HasCause (D.faults d.old) (D.faults d.new) result }
    {
        self.own.walk(alloc, d, &mut self.walk, goal)
    }

    /// An inner Start.
    fn start_inner(&mut self) -> Reply
        requires { txn_depth self.old.own.txn < 2 ^ 32 - 1 }
        ensures turned { (o : Options) (base : List ℕ) (x : Own) → HasOpen o self.old base x → refusal (form_of self.old.own) (OnGroup Start) x ≡ None → GoesOn o self.old self.new base x (OnGroup Start) (law_reply result) }
        ensures view { SameView self.old.own.txn self.new.own.txn }
        ensures numbered { self.new.own.numbered ≡ self.old.own.numbered }
    {
        self.own.start_inner();
        Reply::Ok
    }

    /// An inner Commit.
    fn commit_inner(&mut self) -> Reply
        requires { 0 < txn_depth self.old.own.txn }
        ensures turned { (o : Options) (base : List ℕ) (x : Own) → HasOpen o self.old base x → GoesOn o self.old self.new base x (OnGroup Commit) (law_reply result) }
        ensures view { SameView self.old.own.txn self.new.own.txn }
        ensures numbered { self.new.own.numbered ≡ self.old.own.numbered }
    {
        self.own.commit_inner()
    }

    /// An inner Cancel.
    fn cancel_inner(&mut self) -> Reply
        requires { 0 < txn_depth self.old.own.txn }
        ensures turned { (o : Options) (base : List ℕ) (x : Own) → HasOpen o self.old base x → GoesOn o self.old self.new base x (OnGroup Cancel) (law_reply result) }
        ensures view { SameView self.old.own.txn self.new.own.txn }
        ensures numbered { self.new.own.numbered ≡ self.old.own.numbered }
    {
        self.own.cancel_inner();
        Reply::Ok
    }

    /// Takes the turn of a command that isn't refused, and is no Commit or Prepare.
    fn granted_turn<D: Disk>(
        &mut self,
        alloc: Global,
        d: &mut D,
        header: &Header,
        limit: u64,
        command: Command,
    ) -> Result<Reply, Io>
        requires inside { IsPlainInside command (txn_depth self.old.own.txn) }
        requires short { IsShortCommand command }
        requires chains { 0 < header.now.hash_size }
        requires limit { limit ≤ 4294963200 }
        requires fits { OpenFits self.old header.now limit (D.size d.old) }
        ensures turned { IfOk result (λ reply. IsTrue D.tells → (o : Options) (x : Own) → let base = seen (D.history d.old) in HasOpen o self.old base x → RestsInside self.old.own base self.old.walk → MayCommit self.old.own.txn base
            → refusal (form_of self.old.own) (law_command command) x ≡ None → GoesOn o self.old self.new base x (law_command command) (law_reply reply)) }
        ensures full { IfOk result (λ reply. IsTrue D.tells → FullInside self.old (seen (D.history d.old)) limit command (Ends (law_reply reply))) }
        ensures commits { OnOk result (IsTrue D.tells → let base = seen (D.history d.old) in RestsInside self.old.own base self.old.walk → MayCommit self.old.own.txn base → MayCommit self.new.own.txn base) }
        ensures numbered { self.new.own.numbered ≡ self.old.own.numbered }
        ensures fits { OpenFits self.new header.now limit (D.size d.new) }
        ensures history { D.history d.new ≡ D.history d.old }
        ensures size { D.size d.new ≡ D.size d.old }
        ensures syncs { D.syncs d.new ≡ D.syncs d.old }
        ensures cause { IsTrue D.tells → MayCommit self.old.own.txn (seen (D.history d.old)) → HasCause (D.faults d.old) (D.faults d.new) result }
        ensures done { OnOk result (D.faults d.new ≡ D.faults d.old) }
        ensures rises { D.faults d.old ≤ D.faults d.new }
    {
        match command {
            Command::Check => self.check(alloc, d, header, limit),
            Command::Seqnum => self.sequence(d, header, limit),
            Command::ChainLock { .. }
            | Command::ChainLockNb { .. }
            | Command::ChainUnlock { .. }
            | Command::LockAll
            | Command::LockAllRead
            | Command::UnlockAll => Ok(self.count(&command, header)),
            Command::Start => Ok(self.start_inner()),
            Command::Cancel => Ok(self.cancel_inner()),
            Command::First => self.ask(alloc, d, header, limit, Goal::First),
            Command::Next => self.ask(alloc, d, header, limit, Goal::Next),
            Command::EndWalk => self.ask(alloc, d, header, limit, Goal::Leave),
            Command::Commit | Command::Prepare | Command::Close => unreachable!(),
            command => self.run(alloc, d, header, limit, plain_of(command)),
        }
    }

    /// Takes the turn of a command that leaves the transaction open, in a file with this header that may grow to
    /// `options.limit` bytes. Nothing is written to the disk, and no lock is taken. `Io` only where the disk failed.
    pub(crate) fn turn<D: Disk>(
        &mut self,
        alloc: Global,
        d: &mut D,
        header: &Header,
        options: &Options,
        command: Command,
    ) -> Result<Reply, Io>
        requires inside { IsInside command (txn_depth self.old.own.txn) }
        requires short { IsShortCommand command }
        requires chains { 0 < header.now.hash_size }
        requires limit { options.now.limit ≤ 4294963200 }
        requires fits { OpenFits self.old header.now options.now.limit (D.size d.old) }
        ensures turned { IfOk result (λ reply. IsTrue D.tells → (x : Own) → let base = seen (D.history d.old) in HasOpen options.now self.old base x → RestsInside self.old.own base self.old.walk → MayCommit self.old.own.txn base
            → GoesOn options.now self.old self.new base x (law_command command) (law_reply reply)) }
        ensures full { IfOk result (λ reply. IsTrue D.tells → GrantedFull options.now self.old (seen (D.history d.old)) command (Ends (law_reply reply))) }
        ensures commits { OnOk result (IsTrue D.tells → let base = seen (D.history d.old) in RestsInside self.old.own base self.old.walk → MayCommit self.old.own.txn base → MayCommit self.new.own.txn base) }
        ensures numbered { self.new.own.numbered ≡ self.old.own.numbered }
        ensures fits { OpenFits self.new header.now options.now.limit (D.size d.new) }
        ensures history { D.history d.new ≡ D.history d.old }
        ensures size { D.size d.new ≡ D.size d.old }
        ensures syncs { D.syncs d.new ≡ D.syncs d.old }
        ensures cause { IsTrue D.tells → MayCommit self.old.own.txn (seen (D.history d.old)) → HasCause (D.faults d.old) (D.faults d.new) result }
        ensures done { OnOk result (D.faults d.new ≡ D.faults d.old) }
        ensures rises { D.faults d.old ≤ D.faults d.new }
    {
        match command {
            Command::Commit => Ok(self.commit_inner()),
            Command::Prepare => Ok(Reply::Ok),
            command => match self.refusal(options, &command, header) {
                Some(reply) => Ok(reply),
                None => self.granted_turn(alloc, d, header, options.limit, command),
            },
        }
    }
}

// A plain command that is done turn by turn, with its locks.

ghost use Rattle.std.specs.Prelude.{◌≡◌, ◌≤◌, ◌<◌, ◌++◌, ◌^◌, ℕ, List, false, IsTrue, IfOk, OnErr};
ghost use Rattle.tdb_disk.specs.Count.{HasCause};
ghost use Rattle.tdb_space.specs.Form.{form_in};
ghost use Rattle.tdb_space.specs.Pairs.{home};
ghost use Rattle.tdb_space.specs.Frame.{Looked, Wrote};
ghost use Rattle.tdb_space.specs.Spare.{without_bound};
ghost use Rattle.tdb_space.specs.Extents.{HandPair};
ghost use Rattle.tdb_space.specs.Accepted.{AcceptWith};
ghost use Rattle.tdb_law.specs.Commands.Command.{OnMap};
ghost use Rattle.tdb_law.specs.MapCommands.{map_changes};
ghost use Rattle.tdb_steps.specs.Stages.{hands_in, MayBeOut, IsIdle};
ghost use Rattle.tdb_steps.specs.Order.{IsAfter};
ghost use Rattle.tdb_steps.specs.Memory.{TakesValue, StarvesOutside};
ghost use Rattle.tdb_steps.specs.PlainCommands.{key_of, command_of, turn_of};
ghost use Rattle.tdb_steps.specs.LockRows.{rows_of, row_at, locks_in, AllStandAlone, AreLetGo};
ghost use Rattle.tdb_steps.specs.Holdings.{HoldsBefore, LocksTurned};
ghost use Rattle.tdb_steps.specs.Machines.{begun, IsShort, Fits, is_counted, IsQuiet, DoingKnows, MachineTurned, MachineStopped, MapRow, Leaves};
ghost use Rattle.tdb_steps.specs.LockTurns.{LockLed, ActLed, ActRightly};
ghost use Rattle.tdb_steps.specs.Reads.{TurnReads, costs_of, number_reads};

use crate::acting::act;
use crate::counting::count;
use crate::locking::{let_go, take_lock};
use crate::plain::Plain;
use crate::rows::{LockRow, Rows};
use crate::stage::{Next, Stage, WipeStage};
use std::alloc::Global;
use std::marker::Model;
use std::mem;
use tdb_locks::{Held, LockRefusal, Locks, Reply, Spots, Turn};
use tdb_space::{Io, Space};
use tdb_words::{Bytes, Header, chain_of, hash_of};

/// A plain command that is done turn by turn.
///
/// It can't be dropped, since it may hold a record that is in no list: it is done to its end, or given up.
pub struct Machine {
    command: Plain,
    chain: u32,
    /// Whether the change that the command makes raises the sequence number.
    seqnum: bool,
    stage: Stage,
    /// The bytes that an append has joined.
    whole: Option<Bytes>,
}

impl Model for Machine {
    ghost use Rattle.tdb_steps.specs.Machines.{Doing};

    ghost Value = { Doing };

    ghost view = { λ m. record { command = m.command; chain = m.chain; seqnum = m.seqnum; stage = m.stage; whole = m.whole } };
}

impl Machine {
    /// The machine of a command on a file with this header, before its first turn. Where `seqnum` is set, a change that
    /// the command makes raises the sequence number. It takes no memory.
    pub fn new(command: Plain, h: &Header, seqnum: bool) -> Machine
        requires short { IsShort command }
        requires chains { 0 < h.now.hash_size }
        ensures { result ≡ begun command (home (form_in h.now) (key_of command)) seqnum }
    {
        let chain = chain_of(hash_of(h.hash, command.key()), h.hash_size);
        Machine {
            command,
            chain,
            seqnum,
            stage: Stage::Begun,
            whole: None,
        }
    }

    /// Gives the command up, with the record that it may hold. It takes no memory and makes no call on a disk.
    pub fn end(self) {
        let Machine {
            command: _,
            chain: _,
            seqnum: _,
            stage,
            whole: _,
        } = self;
        stage.end();
    }

    /// The locks of the command, as data.
    pub fn rows(&self) -> Rows
        ensures { result ≡ rows_of self.now.command self.now.chain }
    {
        Rows::of(&self.command, self.chain)
    }

    /// The lock of the row that the next turn takes, if it takes one.
    pub fn wanted(&self, rows: &Rows) -> Option<LockRow>
        ensures { result ≡ row_at rows.now self.now.stage }
    {
        match &self.stage {
            Stage::Begun => Some(rows.first),
            Stage::Looked(_) | Stage::Wiping(WipeStage::Records) => rows.second,
            Stage::Chained
            | Stage::Listed(_)
            | Stage::Taken(_, _)
            | Stage::Changed(_)
            | Stage::Wiping(WipeStage::FreeList)
            | Stage::Ending => None,
        }
    }

    /// A turn that takes a lock of the row. A lock that the explicit ones cover isn't taken, and its turn is a step all
    /// the same.
    ///
    /// `Blocked` by the first conflict: then nothing changes, and the next turn tries the same again. `Memory` where
    /// that is wanting: then all locks of the command are let go, for which no memory is asked, and the machine is
    /// before its first turn.
    pub fn lock_turn(
        &mut self,
        locks: &mut Locks,
        owner: u32,
        held: &Held,
        rows: &Rows,
        row: LockRow,
    ) -> Turn
        requires alone { AllStandAlone held.now owner locks.old rows.now }
        ensures led { LockLed held.now owner locks.old locks.new rows.now row self.old self.new result }
    {
        match take_lock(locks, owner, held, row) {
            Ok(()) => {
                let stage = mem::replace(&mut self.stage, Stage::Begun);
                mem::replace(&mut self.stage, stage.locked(&self.command)).end();
                Turn::Step
            }
            Err(LockRefusal::Conflict { owner, byte, .. }) => Turn::Blocked { owner, byte },
            Err(LockRefusal::Memory) => {
                let_go(locks, owner, held, rows);
                self.whole = None;
                mem::replace(&mut self.stage, Stage::Begun).end();
                Turn::Done(Reply::Memory)
            }
        }
    }

    /// Whether the reply to the command raises the sequence number.
    fn counts(&self, reply: &Reply) -> bool
        ensures { result ≡ is_counted self.now reply.now }
    {
        match reply {
            Reply::Ok => self.command.changes() && self.seqnum,
            _ => false,
        }
    }

    /// A turn that takes no lock, in a file that may grow to `limit` bytes, where cursors stand on the records at
    /// `stood_on`.
    ///
    /// It is a step, or the reply: then the locks are still held, and the machine is before its first turn. `Full` is
    /// the reply of a store and of an append exactly where no free record is long enough and the file can't grow so
    /// far, and it says how long the file is and how many bytes were needed. `Memory` where that is wanting, before the
    /// first write: over a disk only at the look of a fetch and of an append, for the value. With `Ok` the sequence
    /// number is raised where the machine counts: the room for that was made before the first write. `Io` where the
    /// disk failed: then the command has given up the record that it held, and where only the number was left to raise,
    /// the change is made.
    pub fn act_turn<S: Space>(
        &mut self,
        alloc: Global,
        s: &mut S,
        stood_on: &Spots,
        limit: u64,
    ) -> Result<Turn, Io>
        requires chains { 0 < (S.form s.old).chains }
        requires limit { limit ≤ 4294963200 }
        requires fits { Fits self.old (S.size s.old) (S.spare s.old) }
        ensures led { IfOk result (λ turn. ActLed self.old self.new turn) }
        ensures starves { IfOk result (λ turn. turn ≡ Turn.Done Reply.Memory → S.spare s.old ≡ without_bound → TakesValue self.old.command self.old.stage) }
        ensures made { IfOk result (λ turn. IsTrue S.tells → S.size s.old < 2 ^ 32 → (n : ℕ) (others : List HandPair) → IsAfter self.old.command self.old.stage n
            → MayBeOut self.old.stage others → AcceptWith (S.form s.old) (S.image s.old) (hands_in self.old.stage ++ others) → DoingKnows (S.form s.old) (S.image s.old) self.old
            → MachineTurned (S.form s.old) (S.image s.old) (S.image s.new) self.old self.new n (turn_of turn) others) }
        ensures rightly { IfOk result (λ turn. IsTrue S.tells → S.size s.old < 2 ^ 32 → (IsIdle self.old.stage → ⊥)
            → ActRightly (S.form s.old) (S.image s.old) (S.image s.new) self.old self.new limit stood_on.now turn) }
        ensures row { IfOk result (λ turn. (n : ℕ) → IsAfter self.old.command self.old.stage n → MapRow (command_of self.old.command) n (turn_of turn)) }
        ensures leaves { IfOk result (λ turn. (n : ℕ) → IsAfter self.old.command self.old.stage n → Leaves self.old self.new n (turn_of turn)) }
        ensures fits { IfOk result (λ turn. Fits self.new (S.size s.new) (S.spare s.new)) }
        ensures given_up { OnErr result (self.new ≡ begun self.old.command self.old.chain self.old.seqnum) }
        ensures stopped { OnErr result (IsTrue S.tells → S.size s.old < 2 ^ 32 → (n : ℕ) (others : List HandPair) → IsAfter self.old.command self.old.stage n
            → MayBeOut self.old.stage others → AcceptWith (S.form s.old) (S.image s.old) (hands_in self.old.stage ++ others) → DoingKnows (S.form s.old) (S.image s.old) self.old
            → MachineStopped (S.form s.old) (S.image s.old) (S.image s.new) self.old n others) }
        ensures idle { IsQuiet self.old → Looked S.Space s.old s.new }
        ensures looked { map_changes (command_of self.old.command) ≡ false → Looked S.Space s.old s.new }
        ensures longer { S.size s.old ≤ S.size s.new }
        ensures within { S.size s.old ≤ limit → S.size s.new ≤ limit }
        ensures wrote { Wrote S.Space s.old s.new }
        ensures cause { HasCause (S.faults s.old) (S.faults s.new) result }
        ensures bytes_read { S.bytes_read s.old ≤ S.bytes_read s.new }
        ensures reads { IsTrue S.tells → S.size s.old < 2 ^ 32 → (hands : List HandPair) → AcceptWith (S.form s.old) (S.image s.old) hands
            → TurnReads (costs_of (S.form s.old) (S.image s.old) self.old.command self.old.whole) number_reads self.old.stage (S.bytes_read s.old) (S.bytes_read s.new) }
    {
        let stage = mem::replace(&mut self.stage, Stage::Begun);
        let mut whole = self.whole.take();
        match act(alloc, s, &self.command, &mut whole, stage, stood_on, limit)? {
            Next::Step(next) => {
                self.whole = whole;
                mem::replace(&mut self.stage, next).end();
                Ok(Turn::Step)
            }
            Next::Done(reply) => {
                count(s, self.counts(&reply))?;
                Ok(Turn::Done(reply))
            }
        }
    }

    /// Lets go of the locks of the command, taken or not, but for those that the explicit ones cover. It takes no
    /// memory.
    pub fn let_go(&self, locks: &mut Locks, owner: u32, held: &Held)
        requires alone { AllStandAlone held.now owner locks.old (rows_of self.now.command self.now.chain) }
        ensures { AreLetGo held.now owner locks.old locks.new (rows_of self.now.command self.now.chain) }
    {
        let_go(locks, owner, held, &self.rows());
    }

    /// Takes one turn of the command, in a file that may grow to `limit` bytes. `owner` is the number of its opener in
    /// the lock table, `held` are the locks that it has taken explicitly, and cursors stand on the records at
    /// `stood_on`.
    ///
    /// A turn takes a lock of the command's row, or looks or changes the file. `Blocked` where another opener's lock
    /// conflicts: nothing changes then, and the next turn tries the same again. A lock that the explicit ones cover is
    /// neither taken nor let go, and its turn is a step all the same. With its reply the command lets go of what it
    /// took, for which it asks for no memory. The reply is `Memory` where that is wanting, before any change: over a
    /// disk only where the turn takes a lock, or the value that a fetch tells or an append joins. It is `Full` exactly
    /// where no free record is long enough for the value and the file can't grow up to the limit. With the reply `Ok`
    /// the sequence number is raised, where the machine counts its change; no lock is taken for that. `Io` where the
    /// disk failed: then the command has given up the record that it held, and it keeps its locks. After a reply or
    /// `Io` the machine is before its first turn.
    ///
    /// A wipe is on no key: once all records are locked it may change any chain. Where it has both its locks, no hand
    /// of another command may be out.
    ///
    /// Cost: a pass over the lock table where a lock is taken; else the chain of the key, the free list, or the writes,
    /// once each.
    pub fn step<S: Space>(
        &mut self,
        alloc: Global,
        s: &mut S,
        locks: &mut Locks,
        owner: u32,
        held: &Held,
        stood_on: &Spots,
        limit: u64,
    ) -> Result<Turn, Io>
        requires chains { 0 < (S.form s.old).chains }
        requires limit { limit ≤ 4294963200 }
        requires fits { Fits self.old (S.size s.old) (S.spare s.old) }
        requires alone { AllStandAlone held.now owner locks.old (rows_of self.old.command self.old.chain) }
        ensures made { IfOk result (λ turn. IsTrue S.tells → S.size s.old < 2 ^ 32 → (n : ℕ) (others : List HandPair) → IsAfter self.old.command self.old.stage n
            → MayBeOut self.old.stage others → AcceptWith (S.form s.old) (S.image s.old) (hands_in self.old.stage ++ others) → DoingKnows (S.form s.old) (S.image s.old) self.old
            → MachineTurned (S.form s.old) (S.image s.old) (S.image s.new) self.old self.new n (turn_of turn) others) }
        ensures rightly { IfOk result (λ turn. IsTrue S.tells → S.size s.old < 2 ^ 32 → (IsIdle self.old.stage → ⊥)
            → ActRightly (S.form s.old) (S.image s.old) (S.image s.new) self.old self.new limit stood_on.now turn) }
        ensures row { IfOk result (λ turn. (n : ℕ) → IsAfter self.old.command self.old.stage n → MapRow (command_of self.old.command) n (turn_of turn)) }
        ensures leaves { IfOk result (λ turn. (n : ℕ) → IsAfter self.old.command self.old.stage n → Leaves self.old self.new n (turn_of turn)) }
        ensures starves { IfOk result (λ turn. S.spare s.old ≡ without_bound → (n : ℕ) → IsAfter self.old.command self.old.stage n
            → StarvesOutside (S.form s.old) (record { command = OnMap (command_of self.old.command); steps = n }) (turn_of turn)) }
        ensures locks { IfOk result (λ turn. (n : ℕ) (kept : ℕ → ℕ) → IsAfter self.old.command self.old.stage n
            → HoldsBefore held.now kept owner n locks.old (rows_of self.old.command self.old.chain)
            → LocksTurned (locks_in (rows_of self.old.command self.old.chain)) kept owner n locks.old locks.new (turn_of turn)) }
        ensures fits { IfOk result (λ turn. Fits self.new (S.size s.new) (S.spare s.new)) }
        ensures stopped { OnErr result (IsTrue S.tells → S.size s.old < 2 ^ 32 → (n : ℕ) (others : List HandPair) → IsAfter self.old.command self.old.stage n
            → MayBeOut self.old.stage others → AcceptWith (S.form s.old) (S.image s.old) (hands_in self.old.stage ++ others) → DoingKnows (S.form s.old) (S.image s.old) self.old
            → MachineStopped (S.form s.old) (S.image s.old) (S.image s.new) self.old n others) }
        ensures idle { IsQuiet self.old → Looked S.Space s.old s.new }
        ensures looked { map_changes (command_of self.old.command) ≡ false → Looked S.Space s.old s.new }
        ensures err { OnErr result (locks.new ≡ locks.old) }
        ensures given_up { OnErr result (self.new ≡ begun self.old.command self.old.chain self.old.seqnum) }
        ensures longer { S.size s.old ≤ S.size s.new }
        ensures within { S.size s.old ≤ limit → S.size s.new ≤ limit }
        ensures wrote { Wrote S.Space s.old s.new }
        ensures cause { HasCause (S.faults s.old) (S.faults s.new) result }
        ensures bytes_read { S.bytes_read s.old ≤ S.bytes_read s.new }
        ensures reads { IsTrue S.tells → S.size s.old < 2 ^ 32 → (hands : List HandPair) → AcceptWith (S.form s.old) (S.image s.old) hands
            → TurnReads (costs_of (S.form s.old) (S.image s.old) self.old.command self.old.whole) number_reads self.old.stage (S.bytes_read s.old) (S.bytes_read s.new) }
    {
        let rows = self.rows();
        if let Some(row) = self.wanted(&rows) {
            return Ok(self.lock_turn(locks, owner, held, &rows, row));
        }
        let turn = self.act_turn(alloc, s, stood_on, limit)?;
        if let Turn::Done(_) = &turn {
            self.let_go(locks, owner, held);
        }
        Ok(turn)
    }
}

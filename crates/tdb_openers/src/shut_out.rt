// Turns of openers while another one holds all records for writing, so that nobody else may look at a record. Moves of
// cursors, which look at the heads of the chains, are apart.

ghost use Rattle.std.specs.Prelude.{◌≡◌, ◌≢◌, ◌<◌, ℕ, List, length, IfNone, IfSome, MatchBool, None, Some, slice_get};
ghost use Rattle.tdb_space.specs.Form.{form_in};
ghost use Rattle.tdb_law.specs.Commands.Command.{Seqnum};
ghost use Rattle.tdb_law.specs.Commands.Turn.{Ends};
ghost use Rattle.tdb_law.specs.Commands.Reply.{Number};
ghost use Rattle.tdb_law.specs.Effects.{IsFree};
ghost use Rattle.tdb_law.specs.Turned.{want};
ghost use Rattle.tdb_law.specs.OneAside.Sides.{Past, Side, beside};
ghost use Rattle.tdb_law.specs.OneAside.Turns.{without_task};
ghost use Rattle.tdb_commands.specs.InLaw.{law_opener, law_turn};
ghost use Rattle.tdb_steps.specs.LockRows.{start_of};
ghost use Rattle.tdb_openers.specs.declared.job.Job.TheVariants as Jobs;
ghost use Rattle.tdb_openers.specs.declared.job.Locking.{Locking as LockingIs};
ghost use Rattle.tdb_openers.specs.declared.job.Task.{Task};
ghost use Rattle.tdb_openers.specs.declared.opener.Opener.{Opener};
ghost use Rattle.tdb_openers.specs.Given.{IsShortLocking};
ghost use Rattle.tdb_openers.specs.Openers.{command_in};
ghost use Rattle.tdb_openers.specs.ShutOut.{HoldsAll, ShutsOut, IsTurnBeside, LockingMeets, WalkMeets, JobMeets, MayMeet, IsMove, after_job, opener_after};
ghost use Rattle.tdb_openers.specs.Worlds.{state_in, law_of_task, Stands, BytesStand, IsBusy};

use crate::ending::refused_turn;
use crate::job::{Job, Locking, Task, Walking};
use crate::locking::chain_in;
use crate::opener::Opener;
use crate::openers::Openers;
use std::alloc::Global;
use std::mem;
use tdb_locks::{Held, Reply, Turn};
use tdb_steps::Region;
use tdb_words::Header;

/// The turn of a command that waits for a region of the records, all of which `holder` holds.
pub(crate) fn waits_for(region: Region, holder: u32) -> Turn
    ensures { result ≡ Turn.Blocked holder (start_of region) }
{
    Turn::Blocked {
        owner: holder,
        byte: region.start(),
    }
}

impl Locking {
    /// The turn of a lock while `holder` holds all records for writing.
    fn turn_shut_out(&self, header: &Header, holder: u32) -> Turn
        requires chains { 0 < header.now.hash_size }
        requires short { IsShortLocking self.now }
        requires locks { MayMeet (Jobs.Locking self.now) }
        ensures { LockingMeets (form_in header.now) self.now holder result }
    {
        match self {
            Locking::Chain { key } => waits_for(Region::Chain(chain_in(header, key)), holder),
            Locking::ChainNb { key } => Turn::Done(Reply::Busy {
                owner: holder,
                byte: Region::Chain(chain_in(header, key)).start(),
            }),
            Locking::All | Locking::AllRead => waits_for(Region::AllRecords, holder),
            Locking::Unchain { .. } | Locking::UnlockAll => unreachable!(),
        }
    }
}

impl Walking {
    /// The turn of a command by which a cursor that stands on no record ends, while another opener holds all records
    /// for writing.
    fn turn_shut_out(self) -> Turn
        requires ends { MayMeet (Jobs.Walk self) }
        ensures { WalkMeets self result }
    {
        match self {
            Walking::First | Walking::Next => unreachable!(),
            Walking::EndWalk | Walking::Close => Turn::Done(Reply::Ok),
        }
    }
}

impl Job {
    /// The turn of a job while `holder` holds all records for writing. Only a refused command is done by it, which has
    /// given its reply away then.
    fn turn_shut_out(&mut self, header: &Header, holder: u32) -> Turn
        requires chains { 0 < header.now.hash_size }
        requires short { (locking : LockingIs) → self.old ≡ Jobs.Locking locking → IsShortLocking locking }
        requires meets { MayMeet self.old }
        ensures meets { JobMeets (form_in header.now) self.old holder result }
        ensures waits { (owner byte : ℕ) → result ≡ Turn.Blocked owner byte → self.new ≡ self.old }
        ensures left { (x : Opener) → after_job self.new x ≡ after_job self.old x }
    {
        match self {
            Job::Refused { command: _, reply } => refused_turn(mem::replace(reply, Reply::Memory)),
            Job::Plain(plain) => waits_for(plain.rows().first.region, holder),
            Job::Check(_) => waits_for(Region::AllRecords, holder),
            Job::Locking(locking) => locking.turn_shut_out(header, holder),
            Job::Seqnum => unreachable!(),
            Job::Walk(walking) => walking.turn_shut_out(),
        }
    }
}

impl Opener {
    /// What the end of a job leaves of its opener: after a Close the opener isn't live, and holds nothing.
    fn end_job(&mut self, alloc: Global, job: &Job)
        requires idle { self.old.task ≡ None }
        ensures { self.new ≡ after_job job.now self.old }
    {
        if let Job::Walk(Walking::Close) = job {
            self.live = false;
            self.held = Held::new(alloc);
        }
    }

    /// Takes a turn of the opener's command while `holder` holds all records for writing. Blocked, the opener is as it
    /// was; else its command is done, and by a Close it has ended. It takes no memory.
    pub(crate) fn turn_shut_out(&mut self, alloc: Global, header: &Header, holder: u32) -> Turn
        requires busy { (t : Task) × (self.old.task ≡ Some t) }
        requires chains { 0 < header.now.hash_size }
        requires short { (t : Task) (locking : LockingIs) → self.old.task ≡ Some t → t.job ≡ Jobs.Locking locking → IsShortLocking locking }
        requires meets { (t : Task) → self.old.task ≡ Some t → MayMeet t.job }
        ensures meets { (t : Task) → self.old.task ≡ Some t → JobMeets (form_in header.now) t.job holder result }
        ensures after { (t : Task) → self.old.task ≡ Some t → self.new ≡ opener_after result t.job self.old }
    {
        let Some(mut now) = self.task.take() else {
            unreachable!();
        };
        let turn = now.job.turn_shut_out(header, holder);
        match &turn {
            Turn::Blocked { .. } => self.task = Some(now),
            Turn::Step | Turn::Done(_) => self.end_job(alloc, &now.job),
        }
        turn
    }
}

impl Openers {
    /// Whether the command of the opener with this number asks for the sequence number.
    fn asks_number(&self, who: u32) -> bool
        ensures { (x : Opener) (t : Task) → IsBusy self.now who x t → MatchBool result (t.job ≡ Jobs.Seqnum) (t.job ≢ Jobs.Seqnum) }
    {
        matches!(
            self.opener(who),
            Some(Opener {
                task: Some(Task {
                    job: Job::Seqnum,
                    ..
                }),
                ..
            })
        )
    }

    /// Takes one turn of the opener's command, which isn't a First or a Next that moves a cursor, while the opener
    /// `holder`, which is aside with its transaction, holds all records for writing: such a command doesn't read the
    /// file then, so no call is made on it. None where the command asks for the sequence number, which is the caller's
    /// to read: then nothing has changed.
    ///
    /// A command that wants records is blocked by `holder` at the first byte that it wants: that of its chain, or 168,
    /// the first of all chains, where it locks all records. A chain lock that doesn't wait is told that it is busy
    /// there. A refused command is told so, and an EndWalk or a Close is done at once, since no cursor stands on a
    /// record. It takes no memory.
    ///
    /// Cost: for a lock of a chain a hash of its key.
    pub fn turn_shut_out(&mut self, who: u32, holder: u32) -> Option<Turn>
        requires busy { (x : Opener) × (t : Task) × IsBusy self.old who x t }
        requires still { (x : Opener) (t : Task) → IsBusy self.old who x t → IsMove t.job → ⊥ }
        requires other { holder ≢ who }
        requires stands { (img : List ℕ) × (size : ℕ) × Stands self.old img size }
        requires shut { HoldsAll self.old holder }
        ensures turned { IfSome result (λ turn. (img : List ℕ) (past : Past) (s : Side) (x : Opener) (t : Task) → IsBusy self.old who x t → ShutsOut self.old img past s holder
            → IsTurnBeside self.old self.new img past s (law_opener who) (law_of_task t) (law_turn turn)) }
        ensures asks { IfNone result ((x : Opener) (t : Task) → IsBusy self.old who x t → law_of_task t ≡ record { command = Seqnum; steps = 0 }) }
        ensures step { IfSome result (λ turn. turn ≡ Turn.Step → ⊥) }
        ensures same { IfNone result (self.new ≡ self.old) }
        ensures joined { length self.new.openers ≡ length self.old.openers }
        ensures others { (o : ℕ) → o ≢ law_opener who → slice_get self.new.openers o ≡ slice_get self.old.openers o }
        ensures stands { (img : List ℕ) (size : ℕ) → Stands self.old img size → Stands self.new img size }
        ensures bytes { (img : List ℕ) → BytesStand self.old img → BytesStand self.new img }
        ensures header { self.new.header ≡ self.old.header }
        ensures options { self.new.options ≡ self.old.options }
    {
        if self.asks_number(who) {
            return None;
        }
        Some(self.meet(who, holder))
    }

    /// Ends the command of an opener that asks for the sequence number, which the caller has read. Beside an opener
    /// that holds all records for writing, and doesn't stand in the way of the number, it is the turn that tells the
    /// number.
    pub fn end_seqnum(&mut self, who: u32)
        requires asks { (x : Opener) × (t : Task) × IsBusy self.old who x t × (command_in t.job ≡ Seqnum) }
        requires stands { (img : List ℕ) × (size : ℕ) × Stands self.old img size }
        ensures ended { (img : List ℕ) → state_in self.new img ≡ without_task (state_in self.old img) (law_opener who) }
        ensures turned { (holder : ℕ) (img : List ℕ) (past : Past) (s : Side) (x : Opener) (t : Task) → IsBusy self.old who x t → holder ≢ who → ShutsOut self.old img past s holder
            → let whole = beside (state_in self.old img) past s in IsFree whole.table (law_opener who) (want (form_in self.old.header) whole (law_opener who) (law_of_task t))
            → IsTurnBeside self.old self.new img past s (law_opener who) (law_of_task t) (Ends (Number whole.number)) }
        ensures joined { length self.new.openers ≡ length self.old.openers }
        ensures others { (o : ℕ) → o ≢ law_opener who → slice_get self.new.openers o ≡ slice_get self.old.openers o }
        ensures stands { (img : List ℕ) (size : ℕ) → Stands self.old img size → Stands self.new img size }
        ensures bytes { (img : List ℕ) → BytesStand self.old img → BytesStand self.new img }
        ensures header { self.new.header ≡ self.old.header }
        ensures options { self.new.options ≡ self.old.options }
    {
        self.drop_task(who);
    }
}

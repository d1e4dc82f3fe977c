// One turn of an opener.

ghost use Rattle.std.specs.Prelude.{◌≡◌, ◌≤◌, ◌<◌, ◌^◌, ◌+◌, ◌-◌, ℕ, List, None, Some, IsTrue, IfOk, OnOk, OnErr};
ghost use Rattle.tdb_disk.specs.Count.{HasCause};
ghost use Rattle.tdb_space.specs.Form.{form_in};
ghost use Rattle.tdb_space.specs.Extents.{HandPair};
ghost use Rattle.tdb_space.specs.Frame.{Wrote};
ghost use Rattle.tdb_space.specs.Spare.{without_bound};
ghost use Rattle.tdb_law.specs.World.{HasFewChains};
ghost use Rattle.tdb_law.specs.Openers.{View};
ghost use Rattle.tdb_steps.specs.Memory.{StarvesOutside};
ghost use Rattle.tdb_steps.specs.Room.{FullOutside};
ghost use Rattle.tdb_walk.specs.Cursors.{At};
ghost use Rattle.tdb_commands.specs.InLaw.{law_turn};
ghost use Rattle.tdb_openers.specs.declared.job.Task.{Task};
ghost use Rattle.tdb_openers.specs.Given.{IsWellHeld};
ghost use Rattle.tdb_openers.specs.Openers.{AtRest, own_of, own_with, rest_of, command_in, walk_in, walk_of, law_task};
ghost use Rattle.tdb_openers.specs.Turning.{OpenerHolds, TurnsLocks, TurnsFile, ImageBefore, TurnsImage, resting};
ghost use Rattle.tdb_openers.specs.Calm.{IsCalm, IsSparing};
ghost use Rattle.tdb_openers.specs.Cursors.{is_stood, CursorsBeside, LeavesCursors};
ghost use Rattle.tdb_openers.specs.Jobs.{IsPlain, JobIsReady, JobTurned, JobFiled, task_after};
ghost use Rattle.tdb_openers.specs.Laws.{MayStand};
ghost use Rattle.tdb_openers.specs.Stopped.{JobStopped};
ghost use Rattle.tdb_openers.specs.Worlds.{law_of_task};

use crate::checking::check_turn;
use crate::ending::refused_turn;
use crate::job::{Job, Task};
use crate::locking::locking_turn;
use crate::numbering::seqnum_turn;
use crate::opener::Opener;
use std::alloc::Global;
use std::mem;
use tdb_commands::Options;
use tdb_locks::{Held, Locks, Reply, Spots, Turn};
use tdb_space::{Io, Space};
use tdb_words::Header;

impl Job {
    /// Takes one turn of a job that is on no cursor, of an opener with this number in the lock table, which has taken
    /// the locks `held` explicitly. Its cursor rests, and the cursors of all openers stand on the records at `spots`.
    fn turn<S: Space>(
        &mut self,
        alloc: Global,
        s: &mut S,
        locks: &mut Locks,
        owner: u32,
        live: bool,
        held: &mut Held,
        spots: &Spots,
        options: &Options,
        header: &Header,
    ) -> Result<Turn, Io>
        requires beside { walk_in self.old ≡ None }
        requires few { HasFewChains (S.form s.old) }
        requires form { S.form s.old ≡ form_in header.now }
        requires limit { options.now.limit ≤ 4294963200 }
        requires within { S.size s.old ≤ options.now.limit }
        requires spare { S.spare s.old ≡ without_bound }
        requires well { IsWellHeld held.old }
        requires ready { (rest : AtRest) × (n : ℕ) × (who : ℕ) × JobIsReady (S.form s.old) (own_with options.now live held.old rest) (resting rest) self.old n who owner (S.size s.old) locks.old }
        ensures turned { IfOk result (λ turn. (rest : AtRest) (n who : ℕ) → JobIsReady (S.form s.old) (own_with options.now live held.old rest) (resting rest) self.old n who owner (S.size s.old) locks.old
            → JobTurned (S.form s.old) (own_with options.now live held.old rest) (own_with options.now live held.new rest) (resting rest) self.old self.new n who (S.size s.new)
            locks.old locks.new (law_turn turn)) }
        ensures file { IfOk result (λ turn. IsTrue S.tells → (rest : AtRest) (v : View) (n who : ℕ) (others : List HandPair)
            → JobIsReady (S.form s.old) (own_with options.now live held.old rest) (resting rest) self.old n who owner (S.size s.old) locks.old
            → ImageBefore (S.form s.old) self.old (S.image s.old) others
            → JobFiled (S.form s.old) (own_with options.now live held.old rest) (own_with options.now live held.new rest) (resting rest) v self.old self.new n who locks.old
            (S.image s.old) (S.image s.new) others spots.now (law_turn turn)) }
        ensures full { IfOk result (λ turn. IsTrue S.tells → (rest : AtRest) (n who : ℕ) (others : List HandPair)
            → JobIsReady (S.form s.old) (own_with options.now live held.old rest) (resting rest) self.old n who owner (S.size s.old) locks.old
            → ImageBefore (S.form s.old) self.old (S.image s.old) others → IsPlain self.old
            → FullOutside (S.form s.old) (S.image s.old) options.now.limit (record { command = command_in self.old; steps = n }) (law_turn turn)) }
        ensures starves { IfOk result (λ turn. (rest : AtRest) (n who : ℕ)
            → JobIsReady (S.form s.old) (own_with options.now live held.old rest) (resting rest) self.old n who owner (S.size s.old) locks.old
            → StarvesOutside (S.form s.old) (record { command = command_in self.old; steps = n }) (law_turn turn)) }
        ensures stopped { OnErr result (IsTrue S.tells → (cursor : At) (rest : AtRest) (n who : ℕ) (others : List HandPair)
            → JobIsReady (S.form s.old) (own_with options.now live held.old rest) (resting rest) self.old n who owner (S.size s.old) locks.old
            → ImageBefore (S.form s.old) self.old (S.image s.old) others → JobStopped (S.form s.old) (S.image s.old) (S.image s.new) cursor self.old n others) }
        ensures calm { (rest : AtRest) (n who : ℕ) → JobIsReady (S.form s.old) (own_with options.now live held.old rest) (resting rest) self.old n who owner (S.size s.old) locks.old
            → IsCalm S.Space s.old s.new locks.old who }
        ensures spared { (rest : AtRest) (n who : ℕ) → JobIsReady (S.form s.old) (own_with options.now live held.old rest) (resting rest) self.old n who owner (S.size s.old) locks.old
            → IsSparing S.Space s.old s.new (S.form s.old) (own_with options.now live held.old rest) (record { command = command_in self.old; steps = n }) }
        ensures beside { walk_in self.new ≡ None }
        ensures well { IsWellHeld held.new }
        ensures longer { S.size s.old ≤ S.size s.new }
        ensures within { S.size s.new ≤ options.now.limit }
        ensures wrote { Wrote S.Space s.old s.new }
        ensures cause { IsTrue S.tells → (rest : AtRest) (n who : ℕ) (others : List HandPair)
            → JobIsReady (S.form s.old) (own_with options.now live held.old rest) (resting rest) self.old n who owner (S.size s.old) locks.old
            → ImageBefore (S.form s.old) self.old (S.image s.old) others → HasCause (S.faults s.old) (S.faults s.new) result }
        ensures rises { S.faults s.old ≤ S.faults s.new }
        ensures done { OnOk result (S.faults s.new ≡ S.faults s.old) }
    {
        match self {
            Job::Refused { command: _, reply } => {
                Ok(refused_turn(mem::replace(reply, Reply::Memory)))
            }
            Job::Plain(plain) => { plain.turn(alloc, s, locks, owner, held, spots, options.limit) }
            Job::Check(checking) => check_turn(alloc, s, locks, owner, held, checking),
            Job::Locking(locking) => Ok(locking_turn(locks, owner, held, header, locking)),
            Job::Seqnum => seqnum_turn(s, locks, owner),
            Job::Walk(_) => unreachable!(),
        }
    }
}

impl Task {
    /// What is left of the task after a turn of its job: it has had a step more, or is the same, or it is at its end,
    /// as after a fault of the disk.
    pub(crate) fn after(mut self, turn: &Result<Turn, Io>) -> Option<Task>
        requires few { self.steps < 2 ^ 32 - 1 }
        ensures left { IfOk turn.now (λ turn. result ≡ task_after self.job self.steps (law_turn turn)) }
        ensures none { OnErr turn.now (result ≡ None) }
    {
        match turn {
            Ok(Turn::Step) => {
                self.steps += 1;
                Some(self)
            }
            Ok(Turn::Blocked { .. }) => Some(self),
            Ok(Turn::Done(_)) | Err(_) => None,
        }
    }
}

impl Opener {
    /// Takes one turn of the opener's command, which is on no cursor. `owner` is its number in the lock table. After a
    /// step the command has one more behind it, blocked it is as it was, and at its end the opener has none; so it has
    /// after `Io`, where the command is given up. Its cursor rests and stays; the cursors of all openers stand on the
    /// records at `spots`.
    pub(crate) fn turn<S: Space>(
        &mut self,
        alloc: Global,
        s: &mut S,
        locks: &mut Locks,
        owner: u32,
        spots: &Spots,
        options: &Options,
        header: &Header,
    ) -> Result<Turn, Io>
        requires busy { (t : Task) × (self.old.task ≡ Some t) }
        requires beside { walk_of self.old.task ≡ None }
        requires stands { MayStand (S.form s.old) options.now (S.size s.old) self.old }
        requires holds { (t : Task) → self.old.task ≡ Some t → (who : ℕ) × (owner ≡ who + 1) × OpenerHolds (S.form s.old) (own_of options.now self.old) (resting (rest_of self.old.walk)) (command_in t.job) t.steps who locks.old }
        requires few { HasFewChains (S.form s.old) }
        requires form { S.form s.old ≡ form_in header.now }
        requires limit { options.now.limit ≤ 4294963200 }
        requires within { S.size s.old ≤ options.now.limit }
        requires spare { S.spare s.old ≡ without_bound }
        ensures locks { IfOk result (λ turn. (t : Task) (who : ℕ) → self.old.task ≡ Some t → owner ≡ who + 1
            → TurnsLocks (S.form s.old) (own_of options.now self.old) (own_of options.now self.new) (resting (rest_of self.new.walk)) (command_in t.job) t.steps (law_task self.new.task) who locks.old locks.new (law_turn turn)) }
        ensures file { IfOk result (λ turn. IsTrue S.tells → (v : View) (t : Task) (who : ℕ) (others : List HandPair) → self.old.task ≡ Some t → owner ≡ who + 1 → ImageBefore (S.form s.old) t.job (S.image s.old) others
            → TurnsFile (S.form s.old) (own_of options.now self.old) (own_of options.now self.new) (resting (rest_of self.old.walk)) v (command_in t.job) t.steps who locks.old (S.image s.old) (S.image s.new) (law_turn turn)
            × TurnsImage (S.form s.old) t self.new.task (S.image s.old) (S.image s.new) others
            × (CursorsBeside (S.form s.old) (S.image s.old) (is_stood spots.now) t
            → LeavesCursors (S.form s.old) (own_of options.now self.old) t self.new.task (law_turn turn) (S.image s.old) (S.image s.new) (is_stood spots.now))) }
        ensures stands { OnOk result (MayStand (S.form s.old) options.now (S.size s.new) self.new) }
        ensures full { IfOk result (λ turn. IsTrue S.tells → (t : Task) (who : ℕ) (others : List HandPair) → self.old.task ≡ Some t → owner ≡ who + 1 → ImageBefore (S.form s.old) t.job (S.image s.old) others
            → IsPlain t.job → FullOutside (S.form s.old) (S.image s.old) options.now.limit (law_of_task t) (law_turn turn)) }
        ensures starves { IfOk result (λ turn. (t : Task) → self.old.task ≡ Some t → StarvesOutside (S.form s.old) (law_of_task t) (law_turn turn)) }
        ensures stopped { OnErr result (IsTrue S.tells → (t : Task) (who : ℕ) (others : List HandPair) → self.old.task ≡ Some t → owner ≡ who + 1 → ImageBefore (S.form s.old) t.job (S.image s.old) others
            → JobStopped (S.form s.old) (S.image s.old) (S.image s.new) self.old.walk.cursor t.job t.steps others) }
        ensures calm { (who : ℕ) → owner ≡ who + 1 → IsCalm S.Space s.old s.new locks.old who }
        ensures spared { (t : Task) → self.old.task ≡ Some t → IsSparing S.Space s.old s.new (S.form s.old) (own_of options.now self.old) (law_of_task t) }
        ensures walk { self.new.walk ≡ self.old.walk }
        ensures idle { OnErr result (self.new.task ≡ None) }
        ensures within { S.size s.new ≤ options.now.limit }
        ensures longer { S.size s.old ≤ S.size s.new }
        ensures wrote { Wrote S.Space s.old s.new }
        ensures cause { IsTrue S.tells → (t : Task) (who : ℕ) (others : List HandPair) → self.old.task ≡ Some t → owner ≡ who + 1 → ImageBefore (S.form s.old) t.job (S.image s.old) others
            → HasCause (S.faults s.old) (S.faults s.new) result }
        ensures rises { S.faults s.old ≤ S.faults s.new }
        ensures done { OnOk result (S.faults s.new ≡ S.faults s.old) }
    {
        let Opener {
            live,
            held,
            task,
            walk: _,
        } = self;
        let Some(mut now) = task.take() else {
            unreachable!();
        };
        let turn = now.job.turn(alloc, s, locks, owner, *live, held, spots, options, header);
        *task = now.after(&turn);
        turn
    }
}

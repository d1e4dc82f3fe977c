// One turn of a command on an opener's cursor.

ghost use Rattle.std.specs.Prelude.{◌≡◌, ◌≤◌, ◌<◌, ◌-◌, ◌^◌, None, Some, length, set, IsTrue, IfOk, OnErr};
ghost use Rattle.std.specs.Option.{option_map};
ghost use Rattle.tdb_disk.specs.Count.{HasCause};
ghost use Rattle.tdb_space.specs.Frame.{Looked, Wrote};
ghost use Rattle.tdb_walk.specs.ByteLocks.{HoldsWords};
ghost use Rattle.tdb_walk.specs.Cursors.{StepStops, dead_of};
ghost use Rattle.tdb_walk.specs.InLaw.{goal_of};
ghost use Rattle.tdb_walk.specs.Spots.{LacksCursor, spot_number};
ghost use Rattle.tdb_openers.specs.declared.job.Task.{Task};
ghost use Rattle.tdb_openers.specs.Openers.{walk_command, walk_of};
ghost use Rattle.tdb_openers.specs.Walked.{WalkStepped, WalkTurned};

use crate::job::{Job, Task, Walking};
use crate::opener::Opener;
use std::alloc::Global;
use tdb_locks::{Held, Locks, Spots, Turn};
use tdb_space::{Io, Space};
use tdb_walk::{Walk, close_turn};

impl Walking {
    /// Takes one turn of the command, of an opener with these locks and this cursor. The opener's own entry in `spots`
    /// is that of its number in the lock table, `owner`, less 1.
    fn turn<S: Space>(
        self,
        alloc: Global,
        s: &mut S,
        locks: &mut Locks,
        owner: u32,
        live: &mut bool,
        held: &mut Held,
        walk: &mut Walk,
        spots: &mut Spots,
        read_only: bool,
    ) -> Result<Turn, Io>
        requires named { 0 < owner }
        requires there { owner - 1 < length spots.old }
        requires words { HoldsWords held.old owner locks.old }
        requires asked { LacksCursor (goal_of (walk_command self)) walk.old.shown → ⊥ }
        ensures turned { IfOk result (WalkStepped S.tells (S.form s.old) (S.image s.old) (S.image s.new) (S.size s.old) locks.old locks.new owner (set spots.old (owner - 1) 0) (walk_command self) read_only
            (record { live = live.old; held = held.old; walk = walk.old }) (record { live = live.new; held = held.new; walk = walk.new })) }
        ensures spots { spots.new ≡ set spots.old (owner - 1) (spot_number walk.new.cursor.place) }
        ensures stopped { OnErr result (IsTrue S.tells → S.size s.old < 2 ^ 32 → StepStops (S.form s.old) (S.image s.old) (S.image s.new) walk.old.cursor) }
        ensures idle { dead_of walk.old.cursor.place walk.old.cursor.stage ≡ None → Looked S.Space s.old s.new }
        ensures size { S.size s.new ≡ S.size s.old }
        ensures wrote { Wrote S.Space s.old s.new }
        ensures cause { HasCause (S.faults s.old) (S.faults s.new) result }
    {
        match self {
            Walking::First | Walking::Next | Walking::EndWalk => {
                walk.turn(alloc, s, locks, owner, held, spots, self.goal(), read_only)
            }
            Walking::Close => {
                close_turn(alloc, s, locks, owner, live, held, walk, spots, read_only)
            }
        }
    }
}

impl Opener {
    /// What the opener's command asks of its cursor, if it is on that.
    pub(crate) fn walking(&self) -> Option<Walking>
        ensures { option_map walk_command result ≡ walk_of self.now.task }
    {
        match &self.task {
            Some(
                Task {
                    job: Job::Walk(walking),
                    ..
                },
            ) => Some(*walking),
            _ => None,
        }
    }

    /// Takes one turn of the opener's command, which asks this of its cursor. `owner` is its number in the lock table,
    /// and its own entry in `spots` is the one at that number less 1; it is that of its cursor's new place then. After
    /// a step the command has one more behind it, blocked it is as it was, and at its end the opener has none; so it
    /// has after `Io`, where the command is given up.
    pub(crate) fn walk_turn<S: Space>(
        &mut self,
        alloc: Global,
        s: &mut S,
        locks: &mut Locks,
        owner: u32,
        spots: &mut Spots,
        walking: Walking,
        read_only: bool,
    ) -> Result<Turn, Io>
        requires busy { (t : Task) × (self.old.task ≡ Some t) × (t.steps ≤ 2) }
        requires named { 0 < owner }
        requires there { owner - 1 < length spots.old }
        requires words { HoldsWords self.old.held owner locks.old }
        requires asked { LacksCursor (goal_of (walk_command walking)) self.old.walk.shown → ⊥ }
        ensures turned { IfOk result (λ turn. (t : Task) → self.old.task ≡ Some t
            → WalkTurned S.tells (S.form s.old) (S.image s.old) (S.image s.new) (S.size s.old) locks.old locks.new owner (set spots.old (owner - 1) 0) (walk_command walking) read_only t self.old self.new turn) }
        ensures spots { spots.new ≡ set spots.old (owner - 1) (spot_number self.new.walk.cursor.place) }
        ensures stopped { OnErr result (IsTrue S.tells → S.size s.old < 2 ^ 32 → StepStops (S.form s.old) (S.image s.old) (S.image s.new) self.old.walk.cursor) }
        ensures idle { dead_of self.old.walk.cursor.place self.old.walk.cursor.stage ≡ None → Looked S.Space s.old s.new }
        ensures size { S.size s.new ≡ S.size s.old }
        ensures wrote { Wrote S.Space s.old s.new }
        ensures cause { HasCause (S.faults s.old) (S.faults s.new) result }
    {
        let Opener {
            live,
            held,
            task,
            walk,
        } = self;
        let Some(now) = task.take() else {
            unreachable!();
        };
        let turn = walking.turn(alloc, s, locks, owner, live, held, walk, spots, read_only);
        *task = now.after(&turn);
        turn
    }
}

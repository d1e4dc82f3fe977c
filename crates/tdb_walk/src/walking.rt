// The turns of commands on a cursor.

ghost use Rattle.std.specs.Prelude.{◌≡◌, ◌<◌, ◌-◌, ◌^◌, length, set, Ok, None, true, false, IsTrue, IfOk, OnErr};
ghost use Rattle.tdb_disk.specs.Count.{HasCause};
ghost use Rattle.tdb_space.specs.Frame.{Looked, Wrote};
ghost use Rattle.tdb_walk.specs.Way.{SameOthers};
ghost use Rattle.tdb_walk.specs.ByteLocks.{HoldsWords};
ghost use Rattle.tdb_locks.specs.HeldLocks.{nothing_held};
ghost use Rattle.tdb_walk.specs.declared.standing.Standing.TheVariants.{Past};
ghost use Rattle.tdb_walk.specs.Cursors.{StepStops, dead_of, rested};
ghost use Rattle.tdb_walk.specs.Again.{cursor_after};
ghost use Rattle.tdb_locks.specs.declared.turn.Reply.TheVariants.{End};
ghost use Rattle.tdb_locks.specs.declared.turn.Turn.TheVariants.{Done};
ghost use Rattle.tdb_walk.specs.Spots.{spot_number, is_last, IsLeft, LacksCursor, Stepped};

use crate::Goal;
use crate::walk::Walk;
use std::alloc::Global;
use tdb_locks::{Held, Locks, Reply, Spots, Turn};
use tdb_space::{Io, Space};

impl Walk {
    /// Takes one turn of what the cursor is asked for, as `step` does. The opener's own entry in `spots` is the one at
    /// its number in the lock table less 1: other cursors stand on the other entries, and it is the cursor's new record
    /// then.
    fn step_among<S: Space>(
        &mut self,
        alloc: Global,
        s: &mut S,
        locks: &mut Locks,
        owner: u32,
        held: &Held,
        spots: &mut Spots,
        goal: Goal,
        read_only: bool,
    ) -> Result<Turn, Io>
        requires named { 0 < owner }
        requires there { owner - 1 < length spots.old }
        requires words { HoldsWords held.now owner locks.old }
        ensures words { HoldsWords held.now owner locks.new }
        ensures stepped { IfOk result (Stepped S.tells (S.form s.old) (S.image s.old) (S.image s.new) (S.size s.old) locks.old locks.new owner held.now (set spots.old (owner - 1) 0) goal read_only self.old.cursor self.new.cursor) }
        ensures shown { IfOk result (λ turn. self.new.shown ≡ cursor_after turn self.new.cursor.place self.old.shown) }
        ensures spots { spots.new ≡ set spots.old (owner - 1) (spot_number self.new.cursor.place) }
        ensures others { SameOthers owner locks.old locks.new }
        ensures stands { OnErr result (self.new ≡ self.old) }
        ensures stopped { OnErr result (IsTrue S.tells → S.size s.old < 2 ^ 32 → StepStops (S.form s.old) (S.image s.old) (S.image s.new) self.old.cursor) }
        ensures idle { dead_of self.old.cursor.place self.old.cursor.stage ≡ None → Looked S.Space s.old s.new }
        ensures size { S.size s.new ≡ S.size s.old }
        ensures wrote { Wrote S.Space s.old s.new }
        ensures cause { HasCause (S.faults s.old) (S.faults s.new) result }
    {
        let own = owner as usize - 1;
        spots.set(own, 0);
        let turn = self.step(alloc, s, locks, owner, held, spots, goal, read_only);
        spots.set(own, self.spot());
        turn
    }

    /// Takes one turn of a First, a Next or an EndWalk, as `step_among` does. A Next without a cursor is told the end
    /// at once, and changes nothing.
    pub fn turn<S: Space>(
        &mut self,
        alloc: Global,
        s: &mut S,
        locks: &mut Locks,
        owner: u32,
        held: &Held,
        spots: &mut Spots,
        goal: Goal,
        read_only: bool,
    ) -> Result<Turn, Io>
        requires named { 0 < owner }
        requires there { owner - 1 < length spots.old }
        requires words { HoldsWords held.now owner locks.old }
        ensures words { HoldsWords held.now owner locks.new }
        ensures told { LacksCursor goal self.old.shown → result ≡ Ok (Done End) }
        ensures same { LacksCursor goal self.old.shown → (self.new ≡ self.old) × (locks.new ≡ locks.old) × (spots.new ≡ spots.old) × Looked S.Space s.old s.new }
        ensures stepped { (LacksCursor goal self.old.shown → ⊥)
            → IfOk result (Stepped S.tells (S.form s.old) (S.image s.old) (S.image s.new) (S.size s.old) locks.old locks.new owner held.now (set spots.old (owner - 1) 0) goal read_only self.old.cursor self.new.cursor) }
        ensures shown { (LacksCursor goal self.old.shown → ⊥) → IfOk result (λ turn. self.new.shown ≡ cursor_after turn self.new.cursor.place self.old.shown) }
        ensures spots { (LacksCursor goal self.old.shown → ⊥) → spots.new ≡ set spots.old (owner - 1) (spot_number self.new.cursor.place) }
        ensures others { SameOthers owner locks.old locks.new }
        ensures stands { OnErr result (self.new ≡ self.old) }
        ensures stopped { OnErr result (IsTrue S.tells → S.size s.old < 2 ^ 32 → StepStops (S.form s.old) (S.image s.old) (S.image s.new) self.old.cursor) }
        ensures idle { dead_of self.old.cursor.place self.old.cursor.stage ≡ None → Looked S.Space s.old s.new }
        ensures size { S.size s.new ≡ S.size s.old }
        ensures wrote { Wrote S.Space s.old s.new }
        ensures cause { HasCause (S.faults s.old) (S.faults s.new) result }
    {
        if goal == Goal::Next && self.shown.is_none() {
            return Ok(Turn::Done(Reply::End));
        }
        self.step_among(alloc, s, locks, owner, held, spots, goal, read_only)
    }
}

/// Takes one turn of the end of an opener, whose cursor leaves its record first. With the last one the opener lets go
/// of all that it holds, and isn't live any more; so it is where memory was wanting for a purge or for one of its
/// locks.
pub fn close_turn<S: Space>(
    alloc: Global,
    s: &mut S,
    locks: &mut Locks,
    owner: u32,
    live: &mut bool,
    held: &mut Held,
    walk: &mut Walk,
    spots: &mut Spots,
    read_only: bool,
) -> Result<Turn, Io>
    requires named { 0 < owner }
    requires there { owner - 1 < length spots.old }
    requires words { HoldsWords held.old owner locks.old }
    ensures goes_on { IfOk result (λ turn. is_last turn ≡ false → (live.new ≡ live.old) × (held.new ≡ held.old) × HoldsWords held.new owner locks.new × (walk.new.shown ≡ cursor_after turn walk.new.cursor.place walk.old.shown)
        × Stepped S.tells (S.form s.old) (S.image s.old) (S.image s.new) (S.size s.old) locks.old locks.new owner held.old (set spots.old (owner - 1) 0) Goal.Leave read_only walk.old.cursor walk.new.cursor turn) }
    ensures ends { IfOk result (λ turn. is_last turn ≡ true → (live.new ≡ false) × (held.new ≡ nothing_held) × (walk.new.cursor ≡ rested Past) × (walk.new.shown ≡ None)
        × IsLeft (λ mid later. Stepped S.tells (S.form s.old) (S.image s.old) (S.image s.new) (S.size s.old) locks.old mid owner held.old (set spots.old (owner - 1) 0) Goal.Leave read_only walk.old.cursor later turn) owner locks.new) }
    ensures spots { spots.new ≡ set spots.old (owner - 1) (spot_number walk.new.cursor.place) }
    ensures others { SameOthers owner locks.old locks.new }
    ensures stands { OnErr result ((walk.new ≡ walk.old) × (live.new ≡ live.old) × (held.new ≡ held.old)) }
    ensures stopped { OnErr result (IsTrue S.tells → S.size s.old < 2 ^ 32 → StepStops (S.form s.old) (S.image s.old) (S.image s.new) walk.old.cursor) }
    ensures idle { dead_of walk.old.cursor.place walk.old.cursor.stage ≡ None → Looked S.Space s.old s.new }
    ensures size { S.size s.new ≡ S.size s.old }
    ensures wrote { Wrote S.Space s.old s.new }
    ensures cause { HasCause (S.faults s.old) (S.faults s.new) result }
{
    let turn = walk.step_among(alloc, s, locks, owner, held, spots, Goal::Leave, read_only)?;
    if let Turn::Done(_) = &turn {
        locks.drop_owner(owner);
        *walk = Walk::new();
        spots.set(owner as usize - 1, walk.spot());
        *live = false;
        *held = Held::new(alloc);
    }
    Ok(turn)
}

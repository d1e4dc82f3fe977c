// The cursor of an opener, and one turn of it.

ghost use Rattle.std.specs.Prelude.{◌≡◌, ◌≤◌, ◌<◌, ◌^◌, [], ℕ, List, Some, None, IsTrue, IfOk, OnErr, unwrap_or};
ghost use Rattle.tdb_disk.specs.Count.{HasCause};
ghost use Rattle.tdb_space.specs.Extents.{HandPair};
ghost use Rattle.tdb_space.specs.Frame.{Looked, Wrote};
ghost use Rattle.tdb_space.specs.Accepted.{AcceptWith};
ghost use Rattle.tdb_walk.specs.Way.{SameOthers, SameLocks};
ghost use Rattle.tdb_walk.specs.ByteLocks.{HoldsWords};
ghost use Rattle.tdb_walk.specs.Cursors.{IsPlaced, Knows, StepTaken, StepMade, StepStops, dead_of, rested, spot_of};
ghost use Rattle.tdb_walk.specs.Again.{cursor_after, shown_there};
ghost use Rattle.tdb_walk.specs.declared.standing.Standing.TheVariants.{Past};
ghost use Rattle.tdb_locks.specs.declared.turn.Reply.{Reply as ReplyIs};
ghost use Rattle.tdb_walk.specs.Spots.{spot_number};

use crate::{Cursor, Goal};
use std::alloc::Global;
use tdb_locks::{Held, Locks, Reply, Spots, Turn};
use tdb_space::{Io, Space};
use tdb_words::Bytes;

/// The cursor of an opener, which is past the last chain where the opener has none.
#[derive(Drop)]
pub struct Walk {
    pub cursor: Cursor,
    /// The key of the pair that it has shown last, until it ends.
    pub shown: Option<Bytes>,
}

impl Walk {
    /// No cursor. It takes no memory.
    pub fn new() -> Walk
        ensures cursor { result.cursor ≡ rested Past }
        ensures shown { result.shown ≡ None }
    {
        Walk {
            cursor: Cursor::past(),
            shown: None,
        }
    }

    /// The offset of the record on which the cursor stands, and 0 where it stands on none.
    pub fn spot(&self) -> u32
        ensures offset { result ≡ spot_number self.now.cursor.place }
        ensures placed { IsPlaced self.now.cursor.place }
    {
        self.cursor.spot().unwrap_or(0)
    }

    /// Keeps the key of a reply that shows a pair, and none once the cursor has ended.
    fn keep(&mut self, reply: &Reply, key: Bytes)
        requires key { (k : List ℕ) (v : List ℕ) → reply.now ≡ ReplyIs.Pair k v → key ≡ k }
        ensures cursor { self.new.cursor ≡ self.old.cursor }
        ensures shown { self.new.shown ≡ shown_there self.old.cursor.place reply.now self.old.shown }
    {
        match (self.cursor.spot(), reply) {
            (None, _) => self.shown = None,
            (Some(_), Reply::Pair(_, _)) => self.shown = Some(key),
            (Some(_), _) => {}
        }
    }

    /// Takes one turn of what the cursor is asked for, as its step does, where other cursors stand on the records at
    /// `stood_on`, and keeps the key of the pair that it shows.
    pub fn step<S: Space>(
        &mut self,
        alloc: Global,
        s: &mut S,
        locks: &mut Locks,
        owner: u32,
        held: &Held,
        stood_on: &Spots,
        goal: Goal,
        read_only: bool,
    ) -> Result<Turn, Io>
        requires words { HoldsWords held.now owner locks.old }
        ensures words { HoldsWords held.now owner locks.new }
        ensures taken { IfOk result (StepTaken (IsTrue S.tells) (S.form s.old) (S.image s.old) locks.old locks.new owner held.now stood_on.now goal read_only self.old.cursor self.new.cursor) }
        ensures made { IfOk result (λ turn. IsTrue S.tells → S.size s.old < 2 ^ 32 → (hands : List HandPair) → AcceptWith (S.form s.old) (S.image s.old) hands
            → Knows (S.form s.old) (S.image s.old) self.old.cursor.place self.old.cursor.stage → StepMade (S.form s.old) (S.image s.old) (S.image s.new) hands self.old.cursor self.new.cursor turn) }
        ensures knows { IfOk result (λ turn. IsTrue S.tells → S.size s.old < 2 ^ 32 → (hands : List HandPair) → AcceptWith (S.form s.old) (S.image s.old) hands
            → Knows (S.form s.old) (S.image s.old) self.old.cursor.place self.old.cursor.stage → Knows (S.form s.old) (S.image s.new) self.new.cursor.place self.new.cursor.stage) }
        ensures shown { IfOk result (λ turn. self.new.shown ≡ cursor_after turn self.new.cursor.place self.old.shown) }
        ensures others { SameOthers owner locks.old locks.new }
        ensures stands { OnErr result (self.new ≡ self.old) }
        ensures stopped { OnErr result (IsTrue S.tells → S.size s.old < 2 ^ 32 → StepStops (S.form s.old) (S.image s.old) (S.image s.new) self.old.cursor) }
        ensures idle { dead_of self.old.cursor.place self.old.cursor.stage ≡ None → Looked S.Space s.old s.new }
        ensures size { S.size s.new ≡ S.size s.old }
        ensures wrote { Wrote S.Space s.old s.new }
        ensures cause { HasCause (S.faults s.old) (S.faults s.new) result }
    {
        let mut key = Bytes::new(alloc);
        let turn = self.cursor.step(
            alloc, s, locks, owner, held, stood_on, goal, read_only, &mut key,
        )?;
        if let Turn::Done(reply) = &turn {
            self.keep(reply, key);
        }
        Ok(turn)
    }
}

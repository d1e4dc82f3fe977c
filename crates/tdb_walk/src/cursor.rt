// A cursor, turn by turn.

ghost use Rattle.std.specs.Prelude.{◌≡◌, ◌≤◌, ◌%◌, ◌<◌, ◌^◌, IsTrue, true, false, List, ℕ, None, IfOk, OnErr, MatchBool};
ghost use Rattle.tdb_disk.specs.Count.{HasCause};
ghost use Rattle.tdb_words.specs.Record.{rec_at};
ghost use Rattle.tdb_space.specs.Form.{Form};
ghost use Rattle.tdb_space.specs.Frame.{Looked, Wrote};
ghost use Rattle.tdb_space.specs.Extents.{HandPair};
ghost use Rattle.tdb_space.specs.Record.{key_at};
ghost use Rattle.tdb_space.specs.Pairs.{home};
ghost use Rattle.tdb_space.specs.Accepted.{AcceptWith};
ghost use Rattle.tdb_locks.specs.LockTable.{held};
ghost use Rattle.tdb_walk.specs.NextLive.{StandsIn, IsWithin};
ghost use Rattle.tdb_walk.specs.Way.{SameOthers, SameLocks};
ghost use Rattle.tdb_walk.specs.ByteLocks.{HoldsWords, only_reads};
ghost use Rattle.tdb_walk.specs.Cursors.{rested, IsPlaced, spot_of, dead_of, HasToPurge, Knows, let_go, held_moved, held_locked, LockLed, LeaveLed, Came, WentTo, MoveLed, StepTaken, StepMade, StepStops, shown_after};
ghost use Rattle.tdb_walk.specs.Passing.{enters};
ghost use Rattle.tdb_locks.specs.declared.turn.Reply.TheVariants.{Memory};
ghost use Rattle.tdb_locks.specs.declared.turn.Turn.TheVariants.{Done};
ghost use Rattle.tdb_walk.specs.declared.standing.Standing.TheVariants.{Before, Past};

use crate::live::Live;
use crate::locking::{let_go_byte, may_read_all, only_reads, take_byte};
use crate::looking::{lock_byte, may_read};
use crate::pair::{is_filed, pair_and_key};
use crate::purging::{DeadRecord, is_dead, prepare_purge, purge_prepared};
use crate::refusal::WalkRefusal;
use crate::stage::{Act, FREE_BYTE, Goal, Stage, StepLock};
use crate::standing::Standing;
use crate::way::{Way, move_on};
use std::alloc::Global;
use std::marker::Model;
use tdb_locks::{Held, Kind, LockRefusal, Locks, Reply, Spots, Turn};
use tdb_space::{Io, Space};
use tdb_words::Bytes;

/// A cursor on a file: where it stands, and how far it is with the turns of a command.
#[derive(Drop)]
pub struct Cursor {
    place: Standing,
    stage: Stage,
}

impl Model for Cursor {
    ghost use Rattle.tdb_walk.specs.Cursors.{At, IsPlaced};

    ghost Value = { At };

    ghost view = { λ c. record { place = c.place; stage = c.stage } };

    ghost invariant = { λ c. IsPlaced c.place };
}

impl Cursor {
    /// A cursor before the first chain. It holds nothing and takes no memory.
    pub fn new() -> Cursor
        ensures { result ≡ rested (Before 0) }
    {
        Cursor {
            place: Standing::Before(0),
            stage: Stage::Rested,
        }
    }

    /// A cursor past the last chain, as one that has ended. It holds nothing and takes no memory.
    pub fn past() -> Cursor
        ensures { result ≡ rested Past }
    {
        Cursor {
            place: Standing::Past,
            stage: Stage::Rested,
        }
    }

    /// A cursor before a chain. It holds nothing and takes no memory.
    pub(crate) fn before(chain: u32) -> Cursor
        ensures { result ≡ rested (Before chain) }
    {
        Cursor {
            place: Standing::Before(chain),
            stage: Stage::Rested,
        }
    }

    /// The number of the chain that it enters next, where it stands on no record.
    pub(crate) fn enters(&self) -> u32
        ensures { result ≡ enters self.now.place }
    {
        match self.place {
            Standing::Before(chain) => chain,
            Standing::On(..) | Standing::Past => 0,
        }
    }

    /// The offset of the record on which it stands, if it stands on one: a multiple of 4.
    pub fn spot(&self) -> Option<u32>
        ensures offset { result ≡ spot_of self.now.place }
        ensures placed { IsPlaced self.now.place }
    {
        match self.place {
            Standing::On(_, off) => Some(off),
            Standing::Before(_) | Standing::Past => None,
        }
    }

    /// The dead record that it purges at its next turn: the one on which it stands, once its chain and the free list
    /// are locked.
    fn dead(&self) -> Option<DeadRecord>
        ensures { result ≡ dead_of self.now.place self.now.stage }
    {
        match (self.place, self.stage) {
            (Standing::On(chain, off), Stage::Freeing) => Some(DeadRecord { chain, off }),
            _ => None,
        }
    }

    /// Whether it has to purge the record on which it stands, where no lock of a command is taken yet: the record is
    /// dead, no other cursor stands on it, and the opener may change its chain.
    fn has_to_purge<S: Space>(
        &self,
        s: &mut S,
        own: &Held,
        stood_on: &Spots,
        read_only: bool,
    ) -> Result<bool, Io>
        ensures writes { IfOk result (λ due. due ≡ true → only_reads own.now ≡ false) }
        ensures decided { IfOk result (λ due. IsTrue S.tells → (hands : List HandPair) → AcceptWith (S.form s.old) (S.image s.old) hands → Knows (S.form s.old) (S.image s.old) self.now.place self.now.stage
            → MatchBool due (HasToPurge (S.form s.old) (S.image s.old) own.now stood_on.now read_only self.now.place self.now.stage)
            (HasToPurge (S.form s.old) (S.image s.old) own.now stood_on.now read_only self.now.place self.now.stage → ⊥)) }
        ensures looked { Looked S.Space s.old s.new }
        ensures cause { HasCause (S.faults s.old) (S.faults s.new) result }
        ensures bytes_read { S.bytes_read s.old ≤ S.bytes_read s.new }
    {
        match (self.place, self.stage) {
            (Standing::On(_, off), Stage::Rested) => {
                if read_only || only_reads(own) || stood_on.has(off) {
                    return Ok(false);
                }
                is_dead(s, off)
            }
            _ => Ok(false),
        }
    }

    /// Leaves for a place: lets go of what it holds, but for the byte of its record where it stands on that again. It
    /// takes no memory.
    fn leave(&mut self, locks: &mut Locks, owner: u32, own: &Held, place: Standing)
        requires placed { IsPlaced place }
        requires words { HoldsWords own.now owner locks.old }
        ensures stands { self.new ≡ rested place }
        ensures words { HoldsWords own.now owner locks.new }
        ensures locks { (o b : ℕ) → held locks.new o b ≡ let_go own.now owner self.old.place self.old.stage place (held locks.old) o b }
    {
        if let Standing::On(chain, off) = self.place {
            let kept = may_read_all(own) || place.is_on(off);
            let_go_byte(locks, owner, kept, u64::from(off));
            match self.stage {
                Stage::Rested => {}
                Stage::Reading | Stage::Writing => {
                    let_go_byte(locks, owner, may_read(own, chain), lock_byte(chain));
                }
                Stage::Freeing => {
                    let_go_byte(locks, owner, may_read(own, chain), lock_byte(chain));
                    let_go_byte(locks, owner, false, FREE_BYTE);
                }
            }
        }
        self.place = place;
        self.stage = Stage::Rested;
    }

    /// A turn that takes a lock. Where memory is wanting for it the cursor leaves for the place `spared`.
    fn lock_turn(
        &mut self,
        locks: &mut Locks,
        owner: u32,
        own: &Held,
        lock: StepLock,
        spared: Standing,
    ) -> Turn
        requires placed { IsPlaced spared }
        requires words { HoldsWords own.now owner locks.old }
        ensures words { HoldsWords own.now owner locks.new }
        ensures led { LockLed locks.old owner own.now lock spared self.old self.new result }
        ensures locks { (o b : ℕ) → held locks.new o b ≡ held_locked own.now owner self.old self.new.place lock result (held locks.old) o b }
    {
        let covered = lock.is_covered(own);
        match take_byte(locks, owner, covered, lock.byte(), lock.kind()) {
            Ok(()) => {
                self.stage = lock.stage();
                Turn::Step
            }
            Err(LockRefusal::Conflict { owner, byte, .. }) => Turn::Blocked { owner, byte },
            Err(LockRefusal::Memory) => {
                self.leave(locks, owner, own, spared);
                Turn::Done(Reply::Memory)
            }
        }
    }

    /// Leaves where it stands for a place, and purges the dead record there, if that is due: the turn is then as told.
    /// Where memory is wanting for the purge it leaves for the place `spared`.
    fn depart<S: Space>(
        &mut self,
        s: &mut S,
        locks: &mut Locks,
        owner: u32,
        own: &Held,
        place: Standing,
        spared: Standing,
        told: Turn,
    ) -> Result<Turn, Io>
        requires placed { IsPlaced place }
        requires placed_spared { IsPlaced spared }
        requires spares { told ≡ Done Memory → ⊥ }
        requires words { HoldsWords own.now owner locks.old }
        ensures words { HoldsWords own.now owner locks.new }
        ensures led { IfOk result (LeaveLed (dead_of self.old.place self.old.stage) place spared told self.new) }
        ensures made { IfOk result (λ turn. IsTrue S.tells → S.size s.old < 2 ^ 32 → (hands : List HandPair) → AcceptWith (S.form s.old) (S.image s.old) hands
            → Knows (S.form s.old) (S.image s.old) self.old.place self.old.stage → StepMade (S.form s.old) (S.image s.old) (S.image s.new) hands self.old self.new turn) }
        ensures locks { IfOk result (λ turn. (o b : ℕ) → held locks.new o b ≡ let_go own.now owner self.old.place self.old.stage self.new.place (held locks.old) o b) }
        ensures stands { OnErr result (self.new ≡ self.old) }
        ensures kept { OnErr result (locks.new ≡ locks.old) }
        ensures stopped { OnErr result (IsTrue S.tells → S.size s.old < 2 ^ 32 → StepStops (S.form s.old) (S.image s.old) (S.image s.new) self.old) }
        ensures idle { dead_of self.old.place self.old.stage ≡ None → Looked S.Space s.old s.new }
        ensures size { S.size s.new ≡ S.size s.old }
        ensures wrote { Wrote S.Space s.old s.new }
        ensures cause { HasCause (S.faults s.old) (S.faults s.new) result }
        ensures bytes_read { S.bytes_read s.old ≤ S.bytes_read s.new }
    {
        match prepare_purge(s, self.dead()) {
            Ok(dead) => {
                purge_prepared(s, dead)?;
                self.leave(locks, owner, own, place);
                Ok(told)
            }
            Err(WalkRefusal::Memory) => {
                self.leave(locks, owner, own, spared);
                Ok(Turn::Done(Reply::Memory))
            }
            Err(WalkRefusal::Io) => Err(Io),
        }
    }

    /// Ends for want of memory. It takes none.
    fn give_up(&mut self, locks: &mut Locks, owner: u32, own: &Held) -> Turn
        requires words { HoldsWords own.now owner locks.old }
        ensures stands { self.new ≡ rested Past }
        ensures says { result ≡ Done Memory }
        ensures words { HoldsWords own.now owner locks.new }
        ensures locks { (o b : ℕ) → held locks.new o b ≡ let_go own.now owner self.old.place self.old.stage Past (held locks.old) o b }
    {
        self.leave(locks, owner, own, Standing::Past);
        Turn::Done(Reply::Memory)
    }

    /// Comes to a record: reads its pair, takes its byte for reading, purges the dead record that it leaves, if that is
    /// due, and lets go of what it held. `shown` is the pair's key then. Memory for all of it is taken before the
    /// purge. Where the key is filed in another chain than that of the record, which it isn't in an accepted file, the
    /// cursor ends instead. That takes a pass over the key.
    fn come_to<S: Space>(
        &mut self,
        alloc: Global,
        s: &mut S,
        locks: &mut Locks,
        owner: u32,
        own: &Held,
        live: Live,
        shown: &mut Bytes,
    ) -> Result<Turn, Io>
        requires within { IsWithin (S.form s.old) (S.size s.old) live }
        requires words { HoldsWords own.now owner locks.old }
        ensures words { HoldsWords own.now owner locks.new }
        ensures came { IfOk result (λ turn. IsTrue S.tells → live.rec ≡ rec_at (S.form s.old).order (S.image s.old) live.off
            → home (S.form s.old) (key_at (S.form s.old).order (S.image s.old) live.off) ≡ live.chain
            → Came (S.form s.old) (S.image s.old) locks.old owner own.now live self.old self.new turn) }
        ensures went { IfOk result (WentTo (S.form s.old) locks.old owner own.now self.old self.new) }
        ensures made { IfOk result (λ turn. IsTrue S.tells → S.size s.old < 2 ^ 32 → (hands : List HandPair) → AcceptWith (S.form s.old) (S.image s.old) hands
            → Knows (S.form s.old) (S.image s.old) self.old.place self.old.stage → StepMade (S.form s.old) (S.image s.old) (S.image s.new) hands self.old self.new turn) }
        ensures locks { IfOk result (λ turn. (o b : ℕ) → held locks.new o b ≡ held_moved own.now owner self.old self.new.place turn (held locks.old) o b) }
        ensures others { SameOthers owner locks.old locks.new }
        ensures shown { IfOk result (λ turn. shown.new ≡ shown_after shown.old turn) }
        ensures unshown { OnErr result (shown.new ≡ shown.old) }
        ensures stands { OnErr result (self.new ≡ self.old) }
        ensures kept { OnErr result (dead_of self.old.place self.old.stage ≡ None → locks.new ≡ locks.old) }
        ensures stopped { OnErr result (IsTrue S.tells → S.size s.old < 2 ^ 32 → StepStops (S.form s.old) (S.image s.old) (S.image s.new) self.old) }
        ensures idle { dead_of self.old.place self.old.stage ≡ None → Looked S.Space s.old s.new }
        ensures size { S.size s.new ≡ S.size s.old }
        ensures wrote { Wrote S.Space s.old s.new }
        ensures cause { HasCause (S.faults s.old) (S.faults s.new) result }
        ensures bytes_read { S.bytes_read s.old ≤ S.bytes_read s.new }
    {
        let (reply, key) = match pair_and_key(alloc, s, &live) {
            Ok(pair) => pair,
            Err(WalkRefusal::Io) => return Err(Io),
            Err(WalkRefusal::Memory) => return Ok(self.give_up(locks, owner, own)),
        };
        if !is_filed(s, live.chain, &key) {
            let told = Turn::Done(Reply::End);
            return self.depart(s, locks, owner, own, Standing::Past, Standing::Past, told);
        }
        let dead = match prepare_purge(s, self.dead()) {
            Ok(dead) => dead,
            Err(WalkRefusal::Io) => return Err(Io),
            Err(WalkRefusal::Memory) => return Ok(self.give_up(locks, owner, own)),
        };
        let byte = u64::from(live.off);
        match take_byte(locks, owner, may_read_all(own), byte, Kind::Read) {
            Ok(()) => {
                purge_prepared(s, dead)?;
                self.leave(locks, owner, own, Standing::On(live.chain, live.off));
                *shown = key;
                Ok(Turn::Done(reply))
            }
            Err(LockRefusal::Conflict { owner, byte, .. }) => Ok(Turn::Blocked { owner, byte }),
            Err(LockRefusal::Memory) => Ok(self.give_up(locks, owner, own)),
        }
    }

    /// Moves on from a place, and leaves where it stands.
    fn move_turn<S: Space>(
        &mut self,
        alloc: Global,
        s: &mut S,
        locks: &mut Locks,
        owner: u32,
        own: &Held,
        from: Standing,
        shown: &mut Bytes,
    ) -> Result<Turn, Io>
        requires words { HoldsWords own.now owner locks.old }
        ensures words { HoldsWords own.now owner locks.new }
        ensures moved { IfOk result (λ turn. IsTrue S.tells → (hands : List HandPair) → AcceptWith (S.form s.old) (S.image s.old) hands
            → StandsIn (S.form s.old) (S.image s.old) from → MoveLed (S.form s.old) (S.image s.old) locks.old owner own.now from self.old self.new turn) }
        ensures went { IfOk result (WentTo (S.form s.old) locks.old owner own.now self.old self.new) }
        ensures made { IfOk result (λ turn. IsTrue S.tells → S.size s.old < 2 ^ 32 → (hands : List HandPair) → AcceptWith (S.form s.old) (S.image s.old) hands
            → Knows (S.form s.old) (S.image s.old) self.old.place self.old.stage → StepMade (S.form s.old) (S.image s.old) (S.image s.new) hands self.old self.new turn) }
        ensures locks { IfOk result (λ turn. (o b : ℕ) → held locks.new o b ≡ held_moved own.now owner self.old self.new.place turn (held locks.old) o b) }
        ensures others { SameOthers owner locks.old locks.new }
        ensures shown { IfOk result (λ turn. shown.new ≡ shown_after shown.old turn) }
        ensures unshown { OnErr result (shown.new ≡ shown.old) }
        ensures stands { OnErr result (self.new ≡ self.old) }
        ensures kept { OnErr result (dead_of self.old.place self.old.stage ≡ None → SameLocks locks.old locks.new) }
        ensures stopped { OnErr result (IsTrue S.tells → S.size s.old < 2 ^ 32 → StepStops (S.form s.old) (S.image s.old) (S.image s.new) self.old) }
        ensures idle { dead_of self.old.place self.old.stage ≡ None → Looked S.Space s.old s.new }
        ensures size { S.size s.new ≡ S.size s.old }
        ensures wrote { Wrote S.Space s.old s.new }
        ensures cause { HasCause (S.faults s.old) (S.faults s.new) result }
        ensures bytes_read { S.bytes_read s.old ≤ S.bytes_read s.new }
    {
        match move_on(s, locks, owner, own, from) {
            Ok(Way::Met(live)) => self.come_to(alloc, s, locks, owner, own, live, shown),
            Ok(
                Way::Blocked {
                    chain,
                    owner: other,
                    byte,
                },
            ) => {
                let told = Turn::Blocked { owner: other, byte };
                self.depart(
                    s,
                    locks,
                    owner,
                    own,
                    Standing::Before(chain),
                    Standing::Past,
                    told,
                )
            }
            Ok(Way::End) => {
                let told = Turn::Done(Reply::End);
                self.depart(s, locks, owner, own, Standing::Past, Standing::Past, told)
            }
            Err(WalkRefusal::Memory) => Ok(self.give_up(locks, owner, own)),
            Err(WalkRefusal::Io) => Err(Io),
        }
    }

    /// Does the next turn of what it is asked for. It is asked for the same until the turn is `Done`. `owner` is the
    /// number of its opener in the lock table, `own` are the locks that this has taken explicitly, and other cursors
    /// stand on the records at `stood_on`. `shown` is the key of the pair that was shown last: a turn that shows one
    /// replaces it.
    ///
    /// First and Next end with the pair of the next live record, on which the cursor stands then, or with `End` where
    /// none is left, and Leave with `Ok`. A record whose key is filed in another chain, which no accepted file has,
    /// ends the walk too: so a cursor stands on a record of the chain of the key that it has shown, whatever the bytes
    /// of the file are. A cursor that leaves a dead record purges it, unless another one stands on it, or the opener
    /// may not change the chain: since the file is `read_only`, or since it holds all records for reading alone (under
    /// which no record can have died). This is decided where no lock of the command is taken yet; then two turns lock
    /// the chain and the free list for writing, and the third one purges the record, with the move if there is one.
    /// Else Next locks the chain for reading and then moves, and First and Leave need one turn. A lock that the
    /// explicit ones cover isn't taken, and its turn is a step all the same.
    ///
    /// A turn is `Blocked` where another opener holds what it wants: the lock of a record, of its chain or of the free
    /// list, and then nothing changes; or the lock of a chain on its way, and then the dead record is purged, and the
    /// cursor stands before that chain and holds nothing. `Memory` where that is wanting, and nothing was written: then
    /// First and Next have ended the cursor, which holds nothing, and a leave leaves it on its record, of which it
    /// holds the byte alone. `Io` where the disk failed: then the cursor stands where it stood, and in a turn that
    /// purges the record may be in its chain, in no list, or in the free list, and the opener may hold the byte of the
    /// next live record.
    ///
    /// The cost is that of `move_on`, of reading one pair with a pass over its key, and of a purge that of
    /// `purge_dead`; where it stands on a record 24 bytes more.
    pub fn step<S: Space>(
        &mut self,
        alloc: Global,
        s: &mut S,
        locks: &mut Locks,
        owner: u32,
        own: &Held,
        stood_on: &Spots,
        goal: Goal,
        read_only: bool,
        shown: &mut Bytes,
    ) -> Result<Turn, Io>
        requires words { HoldsWords own.now owner locks.old }
        ensures words { HoldsWords own.now owner locks.new }
        ensures taken { IfOk result (StepTaken (IsTrue S.tells) (S.form s.old) (S.image s.old) locks.old locks.new owner own.now stood_on.now goal read_only self.old self.new) }
        ensures made { IfOk result (λ turn. IsTrue S.tells → S.size s.old < 2 ^ 32 → (hands : List HandPair) → AcceptWith (S.form s.old) (S.image s.old) hands
            → Knows (S.form s.old) (S.image s.old) self.old.place self.old.stage → StepMade (S.form s.old) (S.image s.old) (S.image s.new) hands self.old self.new turn) }
        ensures knows { IfOk result (λ turn. IsTrue S.tells → S.size s.old < 2 ^ 32 → (hands : List HandPair) → AcceptWith (S.form s.old) (S.image s.old) hands
            → Knows (S.form s.old) (S.image s.old) self.old.place self.old.stage → Knows (S.form s.old) (S.image s.new) self.new.place self.new.stage) }
        ensures others { SameOthers owner locks.old locks.new }
        ensures shown { IfOk result (λ turn. shown.new ≡ shown_after shown.old turn) }
        ensures unshown { OnErr result (shown.new ≡ shown.old) }
        ensures stands { OnErr result (self.new ≡ self.old) }
        ensures kept { OnErr result (dead_of self.old.place self.old.stage ≡ None → SameLocks locks.old locks.new) }
        ensures stopped { OnErr result (IsTrue S.tells → S.size s.old < 2 ^ 32 → StepStops (S.form s.old) (S.image s.old) (S.image s.new) self.old) }
        ensures idle { dead_of self.old.place self.old.stage ≡ None → Looked S.Space s.old s.new }
        ensures size { S.size s.new ≡ S.size s.old }
        ensures wrote { Wrote S.Space s.old s.new }
        ensures cause { HasCause (S.faults s.old) (S.faults s.new) result }
        ensures bytes_read { S.bytes_read s.old ≤ S.bytes_read s.new }
    {
        let due = self.has_to_purge(s, own, stood_on, read_only)?;
        let spared = goal.spared(self.place);
        match Act::of(goal, self.place, self.stage, due) {
            Act::Lock(lock) => Ok(self.lock_turn(locks, owner, own, lock, spared)),
            Act::Move(from) => self.move_turn(alloc, s, locks, owner, own, from, shown),
            Act::End => {
                let told = Turn::Done(Reply::Ok);
                self.depart(s, locks, owner, own, Standing::Past, spared, told)
            }
        }
    }
}

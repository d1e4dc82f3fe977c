// What a cursor is asked for, how far it is with that, and what its next turn does.

ghost use Rattle.std.specs.Prelude.{◌≡◌, ◌+◌, ◌<◌, ◌^◌};
ghost use Rattle.tdb_walk.specs.Cursors.{act_of, byte_of, kind_of, covers, stage_of, last_of, spared_of};

use crate::looking::{lock_byte, may_read};
use crate::standing::Standing;
use tdb_locks::{Held, Kind};

/// The lock byte of the free list.
pub(crate) const FREE_BYTE: u64 = 164;

/// What a cursor is asked for.
#[derive(Clone, Copy, Debug, PartialEq, Eq)]
pub enum Goal {
    /// The first live record of the file.
    First,

    /// The live record behind the one on which it stands.
    Next,

    /// To leave the record on which it stands, and to end.
    Leave,
}

impl Goal {
    /// Where a cursor that stands at a place stands after a command for which memory was wanting: First and Next end
    /// it, and a leave leaves it there.
    pub(crate) fn spared(self, place: Standing) -> Standing
        ensures { result ≡ spared_of self place }
    {
        match self {
            Goal::First | Goal::Next => Standing::Past,
            Goal::Leave => place,
        }
    }
}

/// How far a cursor is with the turns of a command.
#[derive(Clone, Copy)]
pub enum Stage {
    /// No lock of a command is taken.
    Rested,

    /// The chain of its record is locked for reading, and the move comes next.
    Reading,

    /// The chain of its dead record is locked for writing, and the lock of the free list comes next.
    Writing,

    /// The chain of its dead record and the free list are locked for writing, and the purge comes next.
    Freeing,
}

/// A lock that a turn takes.
#[derive(Clone, Copy)]
pub enum StepLock {
    /// Of this chain, for reading.
    ReadChain(u32),

    /// Of this chain, for writing.
    WriteChain(u32),

    /// Of the free list, for writing.
    FreeList,
}

impl StepLock {
    /// Its lock byte.
    pub(crate) fn byte(self) -> u64
        ensures byte { result ≡ byte_of self }
        ensures range { result + 1 < 2 ^ 63 }
    {
        match self {
            StepLock::ReadChain(chain) | StepLock::WriteChain(chain) => lock_byte(chain),
            StepLock::FreeList => FREE_BYTE,
        }
    }

    /// Whether it is for reading or for writing.
    pub(crate) fn kind(self) -> Kind
        ensures { result ≡ kind_of self }
    {
        match self {
            StepLock::ReadChain(_) => Kind::Read,
            StepLock::WriteChain(_) | StepLock::FreeList => Kind::Write,
        }
    }

    /// Whether the opener's explicit locks cover it. Those of chains are for writing; one of all records for reading
    /// alone leaves nothing to be purged.
    pub(crate) fn is_covered(self, own: &Held) -> bool
        ensures { result ≡ covers own.now self }
    {
        match self {
            StepLock::ReadChain(chain) | StepLock::WriteChain(chain) => may_read(own, chain),
            StepLock::FreeList => false,
        }
    }

    /// How far a command is once it is taken.
    pub(crate) fn stage(self) -> Stage
        ensures { result ≡ stage_of self }
    {
        match self {
            StepLock::ReadChain(_) => Stage::Reading,
            StepLock::WriteChain(_) => Stage::Writing,
            StepLock::FreeList => Stage::Freeing,
        }
    }
}

/// What the next turn of a command does. Where the chain and the free list are locked, the dead record is purged with
/// the last turn.
#[derive(Clone, Copy)]
pub enum Act {
    /// It takes a lock.
    Lock(StepLock),

    /// It moves on from this place.
    Move(Standing),

    /// It leaves the record on which the cursor stands, and ends.
    End,
}

impl Act {
    /// What the next turn does, where it is told whether the cursor has to purge the record on which it stands.
    pub(crate) fn of(goal: Goal, place: Standing, stage: Stage, due: bool) -> Act
        ensures { result ≡ act_of goal place stage due }
    {
        match (place, stage) {
            (Standing::On(chain, _), Stage::Rested) if due => Act::Lock(StepLock::WriteChain(
                chain,
            )),
            (Standing::On(_, _), Stage::Writing) => Act::Lock(StepLock::FreeList),
            (Standing::On(chain, _), Stage::Rested) if goal == Goal::Next => {
                Act::Lock(StepLock::ReadChain(chain))
            }
            _ => Act::last(goal, place),
        }
    }

    /// What the last turn does.
    fn last(goal: Goal, place: Standing) -> Act
        ensures { result ≡ last_of goal place }
    {
        match (goal, place) {
            (Goal::Leave, _) => Act::End,
            (Goal::Next, _) | (Goal::First, Standing::Before(_)) => Act::Move(place),
            (Goal::First, _) => Act::Move(Standing::Before(0)),
        }
    }
}

// An unfinished command.

ghost use Rattle.std.specs.Prelude.{◌≡◌, IfOk};
ghost use Rattle.tdb_law.specs.Commands.Command.{OnLocks, OnWalk};
ghost use Rattle.tdb_commands.specs.InLaw.{law_command};
ghost use Rattle.tdb_walk.specs.InLaw.{goal_of};
ghost use Rattle.tdb_openers.specs.Openers.{command_in, locking_command, walk_command};

use crate::told::PlainJob;
use std::alloc::{AllocError, Global};
use tdb_commands::Command;
use tdb_locks::Reply;
use tdb_walk::Goal;
use tdb_words::Bytes;

/// A command on the opener's explicit locks, with the key whose chain it is on.
#[derive(Drop)]
pub(crate) enum Locking {
    /// Locks the chain for writing, and waits where another opener's lock is in the way.
    Chain { key: Bytes },
    /// Locks the chain for writing, or is told that it is busy.
    ChainNb { key: Bytes },
    /// Lets go of the chain.
    Unchain { key: Bytes },
    /// Locks all records for writing.
    All,
    /// Locks all records for reading.
    AllRead,
    /// Lets go of all records.
    UnlockAll,
}

impl Locking {
    /// The command as a report tells it, at the cost of the key's length.
    fn told(&self, alloc: Global) -> Result<Command, AllocError>
        ensures { IfOk result (λ command. law_command command ≡ OnLocks (locking_command self.now)) }
    {
        Ok(match self {
            Locking::Chain { key } => Command::ChainLock {
                key: Bytes::copy(alloc, key.as_slice())?,
            },
            Locking::ChainNb { key } => Command::ChainLockNb {
                key: Bytes::copy(alloc, key.as_slice())?,
            },
            Locking::Unchain { key } => Command::ChainUnlock {
                key: Bytes::copy(alloc, key.as_slice())?,
            },
            Locking::All => Command::LockAll,
            Locking::AllRead => Command::LockAllRead,
            Locking::UnlockAll => Command::UnlockAll,
        })
    }
}

/// What a check has locked.
#[derive(Clone, Copy)]
pub(crate) enum Checking {
    /// Nothing.
    Begun,
    /// All records.
    Records,
    /// All records and the free list.
    FreeList,
    /// The same, and this is the number of keys.
    Counted(u64),
}

/// A command on the opener's cursor.
#[derive(Clone, Copy)]
pub(crate) enum Walking {
    /// Begins a walk, with the move to the first pair.
    First,
    /// Moves to the next pair.
    Next,
    /// Ends the walk.
    EndWalk,
    /// Ends the opener, and its walk before.
    Close,
}

impl Walking {
    /// The command as a report tells it.
    fn told(self) -> Command
        ensures { law_command result ≡ OnWalk (walk_command self) }
    {
        match self {
            Walking::First => Command::First,
            Walking::Next => Command::Next,
            Walking::EndWalk => Command::EndWalk,
            Walking::Close => Command::Close,
        }
    }

    /// What the cursor is asked for.
    pub(crate) fn goal(self) -> Goal
        ensures { result ≡ goal_of (walk_command self) }
    {
        match self {
            Walking::First => Goal::First,
            Walking::Next => Goal::Next,
            Walking::EndWalk | Walking::Close => Goal::Leave,
        }
    }
}

/// What an unfinished command is done by.
pub(crate) enum Job {
    /// The opener's own state refuses it, or it is a Next without a cursor: its first turn replies so.
    Refused { command: Command, reply: Reply },
    /// A command on the map.
    Plain(PlainJob),
    /// The number of keys, by a check of the whole file.
    Check(Checking),
    /// A command on explicit locks.
    Locking(Locking),
    /// The sequence number.
    Seqnum,
    /// A command on the cursor.
    Walk(Walking),
}

/// An unfinished command, and how many steps it has had.
pub(crate) struct Task {
    pub(crate) steps: u32,
    pub(crate) job: Job,
}

impl Job {
    /// The command as a report tells it, at the cost of the key's and the value's length.
    pub(crate) fn told(&self, alloc: Global) -> Result<Command, AllocError>
        ensures { IfOk result (λ command. law_command command ≡ command_in self.now) }
    {
        match self {
            Job::Refused { command, .. } => command.copy(alloc),
            Job::Plain(plain) => plain.told(alloc),
            Job::Check(_) => Ok(Command::Check),
            Job::Locking(locking) => locking.told(alloc),
            Job::Seqnum => Ok(Command::Seqnum),
            Job::Walk(walking) => Ok(walking.told()),
        }
    }

    /// Gives the command up, with the record that it may hold. It takes no memory and makes no call on a disk.
    pub(crate) fn end(self) {
        match self {
            Job::Refused {
                command: _,
                reply: _,
            } => {}
            Job::Plain(plain) => plain.end(),
            Job::Check(_) | Job::Seqnum | Job::Walk(_) => {}
            Job::Locking(_) => {}
        }
    }
}

impl Drop for Task {
    fn drop(self) {
        let Task { steps: _, job } = self;
        job.end();
    }
}

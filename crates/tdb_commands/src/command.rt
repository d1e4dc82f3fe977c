// What an opener may ask for.

ghost use Rattle.std.specs.Prelude.{◌≡◌, IfOk};

use std::alloc::{AllocError, Global};
use tdb_steps::Flag;
use tdb_words::Bytes;

/// What an opener may ask for.
#[derive(Debug, Drop, PartialEq, Eq)]
pub enum Command {
    /// The value of the key.
    Fetch {
        key: Bytes,
    },
    /// Whether the key is there.
    Has {
        key: Bytes,
    },
    /// To store the value under the key, where the flag takes the key.
    Store {
        key: Bytes,
        value: Bytes,
        flag: Flag,
    },
    /// To put the value behind the one that the key has, or to store it where the key isn't there.
    Append {
        key: Bytes,
        value: Bytes,
    },
    /// To take the key out.
    Delete {
        key: Bytes,
    },
    /// To take every key out.
    Wipe,
    /// To lock the chain of the key for writing, and to wait where another opener's lock is in the way.
    ChainLock {
        key: Bytes,
    },
    /// To lock the chain of the key for writing, or to be told that it is busy.
    ChainLockNb {
        key: Bytes,
    },
    /// To let go of the chain of the key.
    ChainUnlock {
        key: Bytes,
    },
    /// To lock all records for writing.
    LockAll,
    /// To lock all records for reading.
    LockAllRead,
    /// To let go of all records.
    UnlockAll,
    /// To begin a transaction.
    Start,
    /// To end the transaction with what was done in it.
    Commit,
    /// To make the transaction ready, so that its commit finds room.
    Prepare,
    /// To end the transaction without what was done in it.
    Cancel,
    /// To put the cursor on the first record.
    First,
    /// To move the cursor on to the next record.
    Next,
    /// To take the cursor away.
    EndWalk,
    /// The number of keys.
    Check,
    /// The sequence number of the file.
    Seqnum,
    /// To end the opener.
    Close,
}

/// A copy of a key or a value.
fn copied(alloc: Global, bytes: &Bytes) -> Result<Bytes, AllocError>
    ensures { IfOk result (λ copy. copy ≡ bytes.now) }
{
    Bytes::copy(alloc, bytes.as_slice())
}

impl Command {
    /// A copy, at the cost of the key's and the value's length.
    pub fn copy(&self, alloc: Global) -> Result<Self, AllocError>
        ensures { IfOk result (λ command. command ≡ self.now) }
    {
        Ok(match self {
            Command::Fetch { key } => Command::Fetch {
                key: copied(alloc, key)?,
            },
            Command::Has { key } => Command::Has {
                key: copied(alloc, key)?,
            },
            Command::Store { key, value, flag } => Command::Store {
                key: copied(alloc, key)?,
                value: copied(alloc, value)?,
                flag: *flag,
            },
            Command::Append { key, value } => Command::Append {
                key: copied(alloc, key)?,
                value: copied(alloc, value)?,
            },
            Command::Delete { key } => Command::Delete {
                key: copied(alloc, key)?,
            },
            Command::ChainLock { key } => Command::ChainLock {
                key: copied(alloc, key)?,
            },
            Command::ChainLockNb { key } => Command::ChainLockNb {
                key: copied(alloc, key)?,
            },
            Command::ChainUnlock { key } => Command::ChainUnlock {
                key: copied(alloc, key)?,
            },
            Command::Wipe => Command::Wipe,
            Command::LockAll => Command::LockAll,
            Command::LockAllRead => Command::LockAllRead,
            Command::UnlockAll => Command::UnlockAll,
            Command::Start => Command::Start,
            Command::Commit => Command::Commit,
            Command::Prepare => Command::Prepare,
            Command::Cancel => Command::Cancel,
            Command::First => Command::First,
            Command::Next => Command::Next,
            Command::EndWalk => Command::EndWalk,
            Command::Check => Command::Check,
            Command::Seqnum => Command::Seqnum,
            Command::Close => Command::Close,
        })
    }
}

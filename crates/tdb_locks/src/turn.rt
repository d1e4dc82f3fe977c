// What one turn of an opener's command leads to, and what the command replies in the end.
use tdb_words::Bytes;

/// What one turn of a command led to.
#[derive(Debug, Drop, PartialEq, Eq)]
pub enum Turn {
    /// The command did a step and has more to do.
    Step,
    /// The step wants a range in which `owner`, another opener, holds `byte`. Nothing was done, and
    /// the next turn tries again.
    Blocked { owner: u32, byte: u64 },
    /// The command is done.
    Done(Reply),
}

/// What a command replies.
#[derive(Debug, Drop, PartialEq, Eq)]
pub enum Reply {
    /// The command did what it says.
    Ok,
    /// The value of the key that was asked for.
    Value(Bytes),
    /// The key and the value of the record that a walk has reached.
    Pair(Bytes, Bytes),
    /// A walk is past the last record.
    End,
    /// The key isn't there.
    KeyMissing,
    /// The key to be inserted is there already.
    KeyThere,
    /// Another opener holds this byte of the chain's lock.
    Busy { owner: u32, byte: u64 },
    /// The file was opened for reading alone.
    ReadOnly,
    /// The command ends a transaction, and there is none.
    NoTransaction,
    /// The transaction is prepared: only a commit, a cancel or a close may follow.
    InTransaction,
    /// A transaction was begun in another one, which isn't allowed.
    Nesting,
    /// A transaction in this one was cancelled, so this one can't be committed.
    Doomed,
    /// The opener's own locks stand in the way, so many as `count`.
    HeldLocks { count: u64 },
    /// The lock to be let go isn't held.
    NotLocked,
    /// No free record is long enough, and the file of `len` bytes may not grow by `need`.
    Full { len: u64, need: u64 },
    /// Memory is wanting.
    Memory,
    Yes,
    No,
    Number(u64),
}

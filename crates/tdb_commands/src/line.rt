// What a report tells.

use crate::command::Command;
use tdb_locks::Turn;

/// A line of a report. An opener is named by the number that its join gave, from 1 on.
#[derive(Debug, Drop, PartialEq, Eq)]
pub enum Line {
    /// A new opener has this number.
    Joined {
        who: u32,
    },
    /// None could join, since `owner` holds the lock of those that open.
    JoinBlocked {
        owner: u32,
    },
    /// None could join, since as many have as may.
    JoinMany,
    /// None could join for want of memory.
    JoinMemory,
    /// The opener took a turn of a command, which led to this.
    Took {
        who: u32,
        command: Command,
        turn: Turn,
    },
    /// In the turn before, the file grew. Both are lengths in bytes.
    Grew {
        from: u64,
        to: u64,
    },
    /// The opener isn't live.
    Absent {
        who: u32,
    },
    /// The opener has no command.
    Idle {
        who: u32,
    },
    /// The opener has a command already, or may not die in its midst.
    Occupied {
        who: u32,
    },
    /// So many logs are left.
    LogsLeft {
        count: u64,
    },
    /// The opener has a command that isn't done at the end.
    Unfinished {
        who: u32,
    },
    /// The opener died.
    Died {
        who: u32,
    },
    /// The gate that an opener left open was undone: how many bytes were put back, and the file's length afterwards.
    Undone {
        bytes: u64,
        to: u64,
    },
}

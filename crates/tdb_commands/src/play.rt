// What may be played.

use crate::command::Command;

/// What may be played in a world. An opener is named by the number that its join gave, from 1 on.
#[derive(Debug, Drop, PartialEq, Eq)]
pub enum Play {
    /// A new opener joins.
    Join,
    /// The opener is given a command, and takes no turn.
    Give { who: u32, command: Command },
    /// The opener is given a command, and takes turns up to the first that isn't a step.
    Do { who: u32, command: Command },
    /// The opener takes one turn of its command.
    Turn { who: u32 },
    /// The opener takes turns up to the first that isn't a step.
    Go { who: u32 },
    /// The log that was told last is dropped.
    SetLog,
    /// The opener ends without a word, as a process that is killed.
    Die { who: u32 },
}

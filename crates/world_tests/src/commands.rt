//! Copies of commands, and lists of plays and of lines, over the public calls of `tdb_commands`.

use crate::rows::first_false;
use std::alloc::{AllocError, Global};
use tdb_commands::{Command, Line, Play, Plays, TurnReport};
use tdb_steps::Flag;
use tdb_words::Bytes;

/// What is otherwise in copies of commands, in a list of plays, and in a report for two lines.
pub(crate) fn failing_copy(alloc: Global) -> Result<Option<&'static str>, AllocError> {
    let command = Command::Store {
        key: Bytes::copy(alloc, b"a")?,
        value: Bytes::copy(alloc, b"1")?,
        flag: Flag::Modify,
    };
    let copy = command.copy(alloc)?;
    let prepare = Command::Prepare.copy(alloc)?;
    let mut plays = Plays::new(alloc);
    plays.push(Play::Join)?;
    let is_first = plays.get(0) == Some(&Play::Join);
    plays.clear();
    let mut report = TurnReport::new(alloc);
    report.reserve(2)?;
    report.push(Line::Absent { who: 5 })?;
    report.clear();
    Ok(first_false(&[
        ("a store", copy == command),
        ("a prepare", prepare == Command::Prepare),
        ("a play", is_first),
        ("no play", plays.is_empty()),
        ("no line", report.is_empty()),
    ]))
}

// Plays in a world over a file, and the text of their report.

ghost use Rattle.std.specs.Prelude.{IsTrue};
ghost use Rattle.tdb_world.specs.Courses.Playable.{ArePlayable, IsPlayable};
ghost use Rattle.tdb_commands.specs.Short.{IsShortCommand};

use std::alloc::Global;
use tdb_commands::{Command, Options, Play, TurnReport};
use tdb_disk::{Disk, MemSink};
use tdb_dump::WriteRefusal;
use tdb_log::{Log, LogRefusal, Logs};
use tdb_script::{read_script, write_line};
use tdb_world::{RunFault, World};

/// How long a file may be in bytes.
const LONGEST_FILE: u64 = 4_294_963_200;

/// Whether the key and the value of a command have less than 100 bytes.
fn is_short(command: &Command) -> bool
    ensures { IsTrue result → IsShortCommand command.now }
{
    match command {
        Command::Fetch { key }
        | Command::Has { key }
        | Command::Delete { key }
        | Command::ChainLock { key }
        | Command::ChainLockNb { key }
        | Command::ChainUnlock { key } => key.len() < 100,
        Command::Store { key, value, .. } | Command::Append { key, value } => {
            key.len() < 100 && value.len() < 100
        }
        _ => true,
    }
}

/// Whether a play may be taken, by a short command if by one.
fn is_playable(play: &Play) -> bool
    ensures { IsTrue result → IsPlayable play.now }
{
    match play {
        Play::Join | Play::SetLog => true,
        Play::Give { who, command } | Play::Do { who, command } => *who >= 1 && is_short(command),
        Play::Turn { who } | Play::Go { who } | Play::Die { who } => *who >= 1,
    }
}

/// Whether plays may be taken.
fn are_playable(plays: &[Play]) -> bool
    ensures { IsTrue result → ArePlayable plays.now }
{
    for play in plays {
        if !is_playable(play) {
            return false;
        }
    }
    true
}

/// Takes the plays of a script over the file on a disk, whose opening the logs aren't told, and gives the disk back.
/// `Memory` where it is no script of short plays, and `Io` where the file isn't opened.
pub(crate) fn take_script<D: Disk, L: Logs>(
    alloc: Global,
    disk: D,
    options: &Options,
    script: &[u8],
    report: &mut TurnReport,
    logs: &mut L,
) -> (D, Result<Result<(), LogRefusal>, RunFault>) {
    let Ok(plays) = read_script(alloc, script) else {
        return (disk, Err(RunFault::Memory));
    };
    if options.limit > LONGEST_FILE || !are_playable(plays.as_slice()) {
        return (disk, Err(RunFault::Memory));
    }
    let mut none: Vec<Box<dyn Log>> = Vec::new(alloc);
    match World::load(alloc, disk, options, &mut none) {
        Ok((mut world, _)) => {
            let answer = world.run(plays.as_slice(), report, logs);
            (world.close(), answer)
        }
        Err((disk, _)) => (disk, Err(RunFault::Io)),
    }
}

/// Prints the lines of a report.
pub(crate) fn print(
    alloc: Global,
    out: &mut MemSink,
    report: &TurnReport,
) -> Result<(), WriteRefusal> {
    for i in 0..report.len() {
        if let Some(line) = report.get(i) {
            write_line(alloc, out, line)?;
        }
    }
    Ok(())
}

//! Plays, and the report of them.
ghost use Rattle.std.specs.Prelude.{◌≡◌, ◌≤◌, ◌++◌, ℕ, List, IsTrue, false};
ghost use Rattle.tdb_disk.specs.History.{seen};
ghost use Rattle.tdb_law.specs.Plays.{Gives, Course};
ghost use Rattle.tdb_law.specs.Plays.{Play as LawPlay};
ghost use Rattle.tdb_commands.specs.InLaw.{law_opener, law_command, law_play, law_plays};
ghost use Rattle.tdb_commands.specs.Short.{IsShortCommand};
ghost use Rattle.tdb_openers.specs.Played.{Begun, ComesTo, PlaysLast};
ghost use Rattle.tdb_world.specs.Whole.{form_at, WorldFits};
ghost use Rattle.tdb_world.specs.Courses.Led.{moment, Led};
ghost use Rattle.tdb_world.specs.Courses.Hearing.{HeardLed, RunsAsTold, drops_log};
ghost use Rattle.tdb_world.specs.Courses.Stops.{StopsLed};
ghost use Rattle.tdb_world.specs.Courses.Playable.{IsPlayable, ArePlayable};
ghost use Rattle.tdb_world.specs.Courses.Told.{PlayLed};

use crate::OpenerStanding;
use crate::all_openers::AllOpeners;
use crate::course::advancing::{go_on, play_go, play_turn};
use crate::course::dying::play_die;
use crate::course::hearing::{drop_log, tell_logs};
use crate::course::starting::{give_copy, play_give, play_join};
use tdb_commands::{Command, Line, Play, TurnReport};
use tdb_disk::Disk;
use tdb_log::{LogRefusal, Logs};
use tdb_openers::{RunFault, tell};

/// An opener is given a command and takes turns of it up to the first that isn't a step, or the report says why not.
fn play_do<D: Disk>(
    world: &mut AllOpeners,
    d: &mut D,
    who: u32,
    command: &Command,
    report: &mut TurnReport,
) -> Result<(), RunFault>
    requires named { 1 ≤ who }
    requires fits { WorldFits world.old (seen (D.history d.old)) (D.size d.old) }
    requires short { IsShortCommand command.now }
    ensures led { PlayLed D.tells (moment world.old (D.history d.old) (D.size d.old) (D.faults d.old) report.old.lines)
        (moment world.new (D.history d.new) (D.size d.new) (D.faults d.new) report.new.lines) result (LawPlay.Do (law_opener who) (law_command command.now)) }
    ensures stops { StopsLed D.tells (moment world.old (D.history d.old) (D.size d.old) (D.faults d.old) report.old.lines)
        (moment world.new (D.history d.new) (D.size d.new) (D.faults d.new) report.new.lines) result }
{
    match world.standing(who) {
        OpenerStanding::Absent => tell(report, Line::Absent { who }),
        OpenerStanding::Busy => tell(report, Line::Occupied { who }),
        OpenerStanding::Idle => match give_copy(world, who, command) {
            Ok(()) => go_on(world, d, who, report),
            Err(fault) => Err(fault),
        },
    }
}

/// Takes one play that drops no log, and adds what it gives to the report.
fn take_play<D: Disk>(
    world: &mut AllOpeners,
    d: &mut D,
    play: &Play,
    report: &mut TurnReport,
) -> Result<(), RunFault>
    requires fits { WorldFits world.old (seen (D.history d.old)) (D.size d.old) }
    requires playable { IsPlayable play.now }
    requires stays { drops_log play.now ≡ false }
    ensures led { PlayLed D.tells (moment world.old (D.history d.old) (D.size d.old) (D.faults d.old) report.old.lines)
        (moment world.new (D.history d.new) (D.size d.new) (D.faults d.new) report.new.lines) result (law_play play.now) }
    ensures stops { StopsLed D.tells (moment world.old (D.history d.old) (D.size d.old) (D.faults d.old) report.old.lines)
        (moment world.new (D.history d.new) (D.size d.new) (D.faults d.new) report.new.lines) result }
{
    match play {
        Play::Join => play_join(world, report),
        Play::Give { who, command } => play_give(world, *who, command, report),
        Play::Do { who, command } => play_do(world, d, *who, command, report),
        Play::Turn { who } => play_turn(world, d, *who, report),
        Play::Go { who } => play_go(world, d, *who, report),
        Play::Die { who } => play_die(world, *who, report),
        Play::SetLog => unreachable!(),
    }
}

/// Takes one play, adds what it gives to the report, and tells the last log what became of the file: the growth of each
/// turn, the death of an opener, and the undo of a gate. A log that refuses doesn't undo the play.
///
/// In a stale world the open gate is undone before a turn. Room for a line, and for the copy of a command, is made
/// before anything is done: so after `Memory` all that was done has its lines. After `Io` the world may not be used any
/// more.
///
/// Cost: that of its turns, of which there are nine at most, and of the copies of the command, one for each turn.
pub(crate) fn play<D: Disk, L: Logs>(
    world: &mut AllOpeners,
    d: &mut D,
    play: &Play,
    report: &mut TurnReport,
    logs: &mut L,
) -> Result<Result<(), LogRefusal>, RunFault>
    requires fits { WorldFits world.old (seen (D.history d.old)) (D.size d.old) }
    requires playable { IsPlayable play.now }
    ensures led { PlayLed D.tells (moment world.old (D.history d.old) (D.size d.old) (D.faults d.old) report.old.lines)
        (moment world.new (D.history d.new) (D.size d.new) (D.faults d.new) report.new.lines) result (law_play play.now) }
    ensures stops { StopsLed D.tells (moment world.old (D.history d.old) (D.size d.old) (D.faults d.old) report.old.lines)
        (moment world.new (D.history d.new) (D.size d.new) (D.faults d.new) report.new.lines) result }
    ensures heard { HeardLed D.tells (moment world.old (D.history d.old) (D.size d.old) (D.faults d.old) report.old.lines)
        (moment world.new (D.history d.new) (D.size d.new) (D.faults d.new) report.new.lines) (L.logs logs.old) (L.logs logs.new) result }
{
    if let Play::SetLog = play {
        drop_log(report, logs)?;
        return Ok(Ok(()));
    }
    let from = report.len();
    let taken = take_play(world, d, play, report);
    let told = tell_logs(report, from, logs);
    taken?;
    Ok(told)
}

/// Takes plays in their order, adds what they give to the report, and tells the logs, up to the first play that finds
/// no memory, at which the disk fails, or of which a log refuses a notice; `play` says more.
///
/// Cost: that of its turns, of which a play has nine at most, and of the copies of the commands, one for each turn.
pub(crate) fn run<D: Disk, L: Logs>(
    world: &mut AllOpeners,
    d: &mut D,
    plays: &[Play],
    report: &mut TurnReport,
    logs: &mut L,
) -> Result<Result<(), LogRefusal>, RunFault>
    requires fits { WorldFits world.old (seen (D.history d.old)) (D.size d.old) }
    requires playable { ArePlayable plays.now }
    ensures led { Led D.tells (moment world.old (D.history d.old) (D.size d.old) (D.faults d.old) report.old.lines)
        (moment world.new (D.history d.new) (D.size d.new) (D.faults d.new) report.new.lines) result
        (λ state told. RunsAsTold told (Course (form_at world.old) state (law_plays plays.now)) (ComesTo (form_at world.old) state (law_plays plays.now)))
        (λ state. ComesTo (form_at world.old) state (law_plays plays.now))
        (λ state. ComesTo (form_at world.old) state (law_plays plays.now)) }
    ensures stops { StopsLed D.tells (moment world.old (D.history d.old) (D.size d.old) (D.faults d.old) report.old.lines)
        (moment world.new (D.history d.new) (D.size d.new) (D.faults d.new) report.new.lines) result }
    ensures heard { HeardLed D.tells (moment world.old (D.history d.old) (D.size d.old) (D.faults d.old) report.old.lines)
        (moment world.new (D.history d.new) (D.size d.new) (D.faults d.new) report.new.lines) (L.logs logs.old) (L.logs logs.new) result }
{
    for next in plays {
        match play(world, d, next, report, logs)? {
            Ok(()) => {}
            Err(refusal) => return Ok(Err(refusal)),
        }
    }
    Ok(Ok(()))
}

//! Turns that openers take.
ghost use Rattle.std.specs.Prelude.{◌≡◌, ◌≤◌, ℕ};
ghost use Rattle.tdb_disk.specs.History.{seen};
ghost use Rattle.tdb_law.specs.Plays.{Goes, most_turns};
ghost use Rattle.tdb_law.specs.Plays.{Play as LawPlay};
ghost use Rattle.tdb_commands.specs.InLaw.{law_opener};
ghost use Rattle.tdb_openers.specs.Played.{GoesSome};
ghost use Rattle.tdb_world.specs.Whole.{form_at, WorldFits};
ghost use Rattle.tdb_world.specs.Steps.{HasCommand};
ghost use Rattle.tdb_world.specs.Courses.Led.{moment, Led};
ghost use Rattle.tdb_world.specs.Courses.Stops.{StopsLed};
ghost use Rattle.tdb_world.specs.Courses.Turns.{GoesOrClears};
ghost use Rattle.tdb_world.specs.Courses.Told.{PlayLed};

use crate::OpenerStanding;
use crate::all_openers::AllOpeners;
use crate::course::turning::told_turn;
use tdb_commands::{Line, TurnReport};
use tdb_disk::Disk;
use tdb_openers::{MOST_TURNS, RunFault, tell};

/// Takes turns of an opener's command up to the first that isn't a step, and tells them.
pub(crate) fn go_on<D: Disk>(
    world: &mut AllOpeners,
    d: &mut D,
    who: u32,
    report: &mut TurnReport,
) -> Result<(), RunFault>
    requires named { 1 ≤ who }
    requires busy { HasCommand world.old who }
    requires fits { WorldFits world.old (seen (D.history d.old)) (D.size d.old) }
    ensures led { Led D.tells (moment world.old (D.history d.old) (D.size d.old) (D.faults d.old) report.old.lines)
        (moment world.new (D.history d.new) (D.size d.new) (D.faults d.new) report.new.lines) result
        (λ state _. Goes (form_at world.old) most_turns state (law_opener who))
        (λ state. GoesSome (form_at world.old) state (law_opener who))
        (λ state. GoesOrClears (form_at world.old) state (law_opener who)) }
    ensures stops { StopsLed D.tells (moment world.old (D.history d.old) (D.size d.old) (D.faults d.old) report.old.lines)
        (moment world.new (D.history d.new) (D.size d.new) (D.faults d.new) report.new.lines) result }
{
    for _taken in 0..MOST_TURNS {
        if !told_turn(world, d, who, report)? {
            return Ok(());
        }
    }
    Ok(())
}

/// An opener takes a turn of its command, or the report says why not.
pub(crate) fn play_turn<D: Disk>(
    world: &mut AllOpeners,
    d: &mut D,
    who: u32,
    report: &mut TurnReport,
) -> Result<(), RunFault>
    requires named { 1 ≤ who }
    requires fits { WorldFits world.old (seen (D.history d.old)) (D.size d.old) }
    ensures led { PlayLed D.tells (moment world.old (D.history d.old) (D.size d.old) (D.faults d.old) report.old.lines)
        (moment world.new (D.history d.new) (D.size d.new) (D.faults d.new) report.new.lines) result (LawPlay.TakeTurn (law_opener who)) }
    ensures stops { StopsLed D.tells (moment world.old (D.history d.old) (D.size d.old) (D.faults d.old) report.old.lines)
        (moment world.new (D.history d.new) (D.size d.new) (D.faults d.new) report.new.lines) result }
{
    match world.standing(who) {
        OpenerStanding::Absent => tell(report, Line::Absent { who }),
        OpenerStanding::Idle => tell(report, Line::Idle { who }),
        OpenerStanding::Busy => match told_turn(world, d, who, report) {
            Ok(_) => Ok(()),
            Err(fault) => Err(fault),
        },
    }
}

/// An opener takes turns of its command up to the first that isn't a step, or the report says why not.
pub(crate) fn play_go<D: Disk>(
    world: &mut AllOpeners,
    d: &mut D,
    who: u32,
    report: &mut TurnReport,
) -> Result<(), RunFault>
    requires named { 1 ≤ who }
    requires fits { WorldFits world.old (seen (D.history d.old)) (D.size d.old) }
    ensures led { PlayLed D.tells (moment world.old (D.history d.old) (D.size d.old) (D.faults d.old) report.old.lines)
        (moment world.new (D.history d.new) (D.size d.new) (D.faults d.new) report.new.lines) result (LawPlay.Go (law_opener who)) }
    ensures stops { StopsLed D.tells (moment world.old (D.history d.old) (D.size d.old) (D.faults d.old) report.old.lines)
        (moment world.new (D.history d.new) (D.size d.new) (D.faults d.new) report.new.lines) result }
{
    match world.standing(who) {
        OpenerStanding::Absent => tell(report, Line::Absent { who }),
        OpenerStanding::Idle => tell(report, Line::Idle { who }),
        OpenerStanding::Busy => go_on(world, d, who, report),
    }
}

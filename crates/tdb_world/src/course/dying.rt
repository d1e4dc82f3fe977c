//! Openers that die, and what is told of it.
ghost use Rattle.std.specs.Prelude.{◌≤◌, ℕ, List};
ghost use Rattle.tdb_law.specs.Plays.{Play as LawPlay};
ghost use Rattle.tdb_commands.specs.InLaw.{law_opener};
ghost use Rattle.tdb_world.specs.Whole.{WorldFits};
ghost use Rattle.tdb_world.specs.Courses.Told.{PlayLedInAny};

use crate::OpenerStanding;
use crate::all_openers::AllOpeners;
use tdb_commands::{Line, TurnReport};
use tdb_openers::{RunFault, put_line, tell};

/// An opener dies, or the report says why it doesn't.
pub(crate) fn play_die(
    world: &mut AllOpeners,
    who: u32,
    report: &mut TurnReport,
) -> Result<(), RunFault>
    requires named { 1 ≤ who }
    requires fits { (img : List ℕ) × (size : ℕ) × WorldFits world.old img size }
    ensures led { PlayLedInAny world.old report.old.lines world.new report.new.lines result (LawPlay.Die (law_opener who)) }
{
    if world.may_die(who) {
        report.reserve(1)?;
        world.die(who);
        put_line(report, Line::Died { who });
        return Ok(());
    }
    match world.standing(who) {
        OpenerStanding::Absent => tell(report, Line::Absent { who }),
        OpenerStanding::Idle | OpenerStanding::Busy => tell(report, Line::Occupied { who }),
    }
}

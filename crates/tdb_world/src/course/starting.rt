//! Openers who join or are given a command, and what is told of it.
ghost use Rattle.std.specs.Prelude.{◌≡◌, ◌≤◌, ◌∷◌, [], ℕ, List, IfErr, OnOk, OnErr};
ghost use Rattle.tdb_law.specs.Plays.{Play as LawPlay};
ghost use Rattle.tdb_commands.specs.InLaw.{law_opener, law_command};
ghost use Rattle.tdb_commands.specs.Short.{IsShortCommand};
ghost use Rattle.tdb_world.specs.Whole.{WorldFits};
ghost use Rattle.tdb_world.specs.Steps.{HasNoCommand};
ghost use Rattle.tdb_world.specs.Courses.Led.{Lengths};
ghost use Rattle.tdb_world.specs.Courses.Told.{Gifted, GivesLine, PlayLedInAny};

use crate::all_openers::AllOpeners;
use crate::{JoinRefusal, OpenerStanding};
use tdb_commands::{Command, Line, TurnReport};
use tdb_openers::{RunFault, put_line, tell};

/// The line of a join: a new opener, or why there is none.
fn join_line(world: &mut AllOpeners) -> Line
    requires { (img : List ℕ) × (size : ℕ) × WorldFits world.old img size }
    ensures gives { GivesLine world.old world.new LawPlay.Join result }
    ensures header { world.new.openers.header ≡ world.old.openers.header }
    ensures options { world.new.openers.options ≡ world.old.openers.options }
    ensures fits { (img : List ℕ) (size : ℕ) → WorldFits world.old img size → WorldFits world.new img size }
    ensures short { (size : ℕ) → Lengths size (result ∷ []) size }
{
    match world.join() {
        Ok(who) => Line::Joined { who },
        Err(JoinRefusal::Blocked { owner }) => Line::JoinBlocked { owner },
        Err(JoinRefusal::Many { .. }) => Line::JoinMany,
        Err(JoinRefusal::Memory) => Line::JoinMemory,
    }
}

/// A new opener joins, or the report says why none does.
pub(crate) fn play_join(world: &mut AllOpeners, report: &mut TurnReport) -> Result<(), RunFault>
    requires { (img : List ℕ) × (size : ℕ) × WorldFits world.old img size }
    ensures led { PlayLedInAny world.old report.old.lines world.new report.new.lines result LawPlay.Join }
{
    report.reserve(1)?;
    put_line(report, join_line(world));
    Ok(())
}

/// Gives this command to an opener that may be given one. `Memory` where there is none for the copy of which a report
/// tells, or where a transaction would begin within too many others: then nothing changes.
pub(crate) fn give(world: &mut AllOpeners, who: u32, command: Command) -> Result<(), RunFault>
    requires named { 1 ≤ who }
    requires free { HasNoCommand world.old who }
    requires fits { (img : List ℕ) × (size : ℕ) × WorldFits world.old img size }
    requires short { IsShortCommand command }
    ensures gifted { OnOk result (Gifted world.old who (law_command command) world.new) }
    ensures err { OnErr result (world.new ≡ world.old) }
    ensures memory { IfErr result (λ e. e ≡ RunFault.Memory) }
{
    let told = command.copy(world.alloc())?;
    world.assign(who, command, told)?;
    Ok(())
}

/// Gives a copy of a command to an opener, as `give` says.
pub(crate) fn give_copy(world: &mut AllOpeners, who: u32, command: &Command) -> Result<(), RunFault>
    requires named { 1 ≤ who }
    requires free { HasNoCommand world.old who }
    requires fits { (img : List ℕ) × (size : ℕ) × WorldFits world.old img size }
    requires short { IsShortCommand command.now }
    ensures gifted { OnOk result (Gifted world.old who (law_command command.now) world.new) }
    ensures err { OnErr result (world.new ≡ world.old) }
    ensures memory { IfErr result (λ e. e ≡ RunFault.Memory) }
{
    let given = command.copy(world.alloc())?;
    give(world, who, given)
}

/// An opener is given a command, or the report says why not.
pub(crate) fn play_give(
    world: &mut AllOpeners,
    who: u32,
    command: &Command,
    report: &mut TurnReport,
) -> Result<(), RunFault>
    requires named { 1 ≤ who }
    requires fits { (img : List ℕ) × (size : ℕ) × WorldFits world.old img size }
    requires short { IsShortCommand command.now }
    ensures led { PlayLedInAny world.old report.old.lines world.new report.new.lines result (LawPlay.Give (law_opener who) (law_command command.now)) }
{
    match world.standing(who) {
        OpenerStanding::Absent => tell(report, Line::Absent { who }),
        OpenerStanding::Busy => tell(report, Line::Occupied { who }),
        OpenerStanding::Idle => give_copy(world, who, command),
    }
}

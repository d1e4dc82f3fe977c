//! One turn of an opener, and what is told of it.
ghost use Rattle.std.specs.Prelude.{◌≡◌, ◌≤◌, ◌+◌, ℕ, List, Some, true, false, IsTrue, IfOk, OnOk, OnErr};
ghost use Rattle.tdb_disk.specs.Count.{HasCause, HasCauseOf};
ghost use Rattle.tdb_disk.specs.History.{History, seen};
ghost use Rattle.tdb_disk.specs.Stop.{LeavesOnly};
ghost use Rattle.tdb_law.specs.Commands.{Command as LawCommand};
ghost use Rattle.tdb_law.specs.Openers.{Task};
ghost use Rattle.tdb_law.specs.Plays.{Clears};
ghost use Rattle.tdb_law.specs.World.{State};
ghost use Rattle.tdb_commands.specs.InLaw.{law_opener, law_command};
ghost use Rattle.tdb_openers.specs.Played.{Nothing, TakesLast, TakesOne};
ghost use Rattle.tdb_world.specs.Whole.{form_at, WorldFits};
ghost use Rattle.tdb_world.specs.States.{IsStateOf};
ghost use Rattle.tdb_world.specs.Steps.{HasCommand, HasThis};
ghost use Rattle.tdb_world.specs.Stops.{IsChanging, IsSafe, OpensToState, TurnMayLeave};
ghost use Rattle.tdb_world.specs.Courses.Led.{moment, Led};
ghost use Rattle.tdb_world.specs.Courses.Stops.{StopsLed, ToldWhereTaken};
ghost use Rattle.tdb_world.specs.Courses.Turns.{IsToldOf, Never, TakesOrClears};

use crate::Undone;
use crate::all_openers::AllOpeners;
use tdb_commands::{Command, Line, TurnReport};
use tdb_disk::Disk;
use tdb_openers::{RunFault, put_line, tell_growth, was_step};
use tdb_space::Io;

/// The length of the file.
pub(crate) fn length_of<D: Disk>(d: &mut D) -> Result<u64, Io>
    ensures length { IfOk result (λ n. n ≡ D.size d.old) }
    ensures size { D.size d.new ≡ D.size d.old }
    ensures history { D.history d.new ≡ D.history d.old }
    ensures cause { HasCause (D.faults d.old) (D.faults d.new) result }
{
    let length = d.len()?;
    Ok(length)
}

/// All that a turn needs before it is taken: room for its lines, the copy of its command, and the length of the file.
fn before_turn<D: Disk>(
    world: &AllOpeners,
    d: &mut D,
    who: u32,
    report: &mut TurnReport,
) -> Result<(Command, u64), RunFault>
    requires busy { HasCommand world.now who }
    requires fits { (img : List ℕ) × (size : ℕ) × WorldFits world.now img size }
    ensures has { IfOk result (λ made. HasThis world.now who (law_command made.0)) }
    ensures command { IfOk result (λ made. (h : History) (state : State) (t : Task) → IsStateOf world.now h state → state.task (law_opener who) ≡ Some t → law_command made.0 ≡ t.command) }
    ensures length { IfOk result (λ made. made.1 ≡ D.size d.old) }
    ensures room { OnOk result (3 ≤ report.new.room) }
    ensures lines { report.new.lines ≡ report.old.lines }
    ensures size { D.size d.new ≡ D.size d.old }
    ensures history { D.history d.new ≡ D.history d.old }
    ensures cause { HasCauseOf RunFault.Io (D.faults d.old) (D.faults d.new) result }
{
    let command = world.told(who)?;
    report.reserve(3)?;
    let from = length_of(d)?;
    Ok((command, from))
}

/// Undoes the gate that a dead opener left open, where one stands open, and tells it. The length of the file then.
fn clear_gate<D: Disk>(
    world: &mut AllOpeners,
    d: &mut D,
    from: u64,
    report: &mut TurnReport,
) -> Result<u64, RunFault>
    requires length { from ≡ D.size d.old }
    requires room { 1 ≤ report.old.room }
    requires fits { WorldFits world.old (seen (D.history d.old)) (D.size d.old) }
    ensures led { Led D.tells (moment world.old (D.history d.old) (D.size d.old) (D.faults d.old) report.old.lines)
        (moment world.new (D.history d.new) (D.size d.new) (D.faults d.new) report.new.lines) result
        (λ state _. Clears (form_at world.old) state)
        Never
        Nothing }
    ensures stops { IsTrue D.tells → (state : State) → let f = form_at world.old in IsStateOf world.old (D.history d.old) state → IsSafe f (D.history d.old)
        → LeavesOnly (D.history d.old) (D.history d.new) (OpensToState f state) }
    ensures safe { OnOk result (IsTrue D.tells → (state : State) → let f = form_at world.old in IsStateOf world.old (D.history d.old) state → IsSafe f (D.history d.old) → IsSafe f (D.history d.new)) }
    ensures length { IfOk result (λ n. n ≡ D.size d.new) }
    ensures room { OnOk result (report.old.room ≤ report.new.room + 1) }
    ensures fresh { OnOk result (world.new.stale ≡ false) }
    ensures busy { OnOk result ((who : ℕ) → HasCommand world.old who → HasCommand world.new who) }
    ensures has { OnOk result ((who : ℕ) (command : LawCommand) → HasThis world.old who command → HasThis world.new who command) }
{
    if !world.is_stale() {
        return Ok(from);
    }
    let undone = world.undo_stale(d)?;
    let Undone { bytes, to } = undone;
    put_line(report, Line::Undone { bytes, to });
    Ok(to)
}

/// Takes one turn of an opener's command in a world that isn't stale, and tells it, with a copy of the command that was
/// made before. Whether it was a step.
fn take_turn<D: Disk>(
    world: &mut AllOpeners,
    d: &mut D,
    who: u32,
    command: Command,
    from: u64,
    report: &mut TurnReport,
) -> Result<bool, RunFault>
    requires named { 1 ≤ who }
    requires busy { HasCommand world.old who }
    requires has { HasThis world.old who (law_command command) }
    requires fresh { world.old.stale ≡ false }
    requires length { from ≡ D.size d.old }
    requires room { 2 ≤ report.old.room }
    requires fits { WorldFits world.old (seen (D.history d.old)) (D.size d.old) }
    ensures led { Led D.tells (moment world.old (D.history d.old) (D.size d.old) (D.faults d.old) report.old.lines)
        (moment world.new (D.history d.new) (D.size d.new) (D.faults d.new) report.new.lines) result
        (λ state more lines new. IsToldOf state (law_opener who) (law_command command) → TakesOne (form_at world.old) state (law_opener who) more lines new)
        Never
        (λ state lines new. IsToldOf state (law_opener who) (law_command command) → TakesLast (form_at world.old) state (law_opener who) lines new) }
    ensures stops { IsTrue D.tells → (state : State) → let f = form_at world.old in IsStateOf world.old (D.history d.old) state → IsSafe f (D.history d.old) → (IsChanging f state (law_opener who) → ⊥)
        → LeavesOnly (D.history d.old) (D.history d.new) (TurnMayLeave f state (law_opener who)) }
    ensures safe { OnOk result (IsTrue D.tells → (state : State) → let f = form_at world.old in IsStateOf world.old (D.history d.old) state → IsSafe f (D.history d.old)
        → (IsChanging f state (law_opener who) → ⊥) → IsSafe f (D.history d.new)) }
    ensures told { OnErr result (IsTrue D.tells → (state : State) → let f = form_at world.old in IsStateOf world.old (D.history d.old) state → IsSafe f (D.history d.old)
        → (IsChanging f state (law_opener who) → ⊥) → ToldWhereTaken f state (law_opener who) (law_command command) (D.history d.new) report.old.lines report.new.lines) }
    ensures busy { IfOk result (λ more. more ≡ true → HasCommand world.new who) }
{
    let turn = world.turn(d, who)?;
    let more = was_step(&turn);
    put_line(report, Line::Took { who, command, turn });
    let to = length_of(d)?;
    tell_growth(report, from, to);
    Ok(more)
}

/// Takes one turn of an opener's command, and tells it. In a stale world the open gate is undone before. Whether the
/// turn was a step.
pub(crate) fn told_turn<D: Disk>(
    world: &mut AllOpeners,
    d: &mut D,
    who: u32,
    report: &mut TurnReport,
) -> Result<bool, RunFault>
    requires named { 1 ≤ who }
    requires busy { HasCommand world.old who }
    requires fits { WorldFits world.old (seen (D.history d.old)) (D.size d.old) }
    ensures led { Led D.tells (moment world.old (D.history d.old) (D.size d.old) (D.faults d.old) report.old.lines)
        (moment world.new (D.history d.new) (D.size d.new) (D.faults d.new) report.new.lines) result
        (λ state. TakesOne (form_at world.old) state (law_opener who))
        Nothing
        (λ state. TakesOrClears (form_at world.old) state (law_opener who)) }
    ensures stops { StopsLed D.tells (moment world.old (D.history d.old) (D.size d.old) (D.faults d.old) report.old.lines)
        (moment world.new (D.history d.new) (D.size d.new) (D.faults d.new) report.new.lines) result }
    ensures busy { IfOk result (λ more. more ≡ true → HasCommand world.new who) }
{
    let (command, length) = before_turn(world, d, who, report)?;
    let from = clear_gate(world, d, length, report)?;
    take_turn(world, d, who, command, from, report)
}

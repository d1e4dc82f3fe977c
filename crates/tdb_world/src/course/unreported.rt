//! A turn, and a gift, of which no report tells.
ghost use Rattle.std.specs.Prelude.{◌≡◌, ◌≤◌, ◌++◌, [], ℕ, List, IsTrue, OnOk, OnErr, IfErr, false};
ghost use Rattle.tdb_disk.specs.History.{seen};
ghost use Rattle.tdb_disk.specs.Stop.{LeavesOnly};
ghost use Rattle.tdb_law.specs.Commands.{Command as LawCommand};
ghost use Rattle.tdb_law.specs.Plays.{Clears, Play as LawPlay};
ghost use Rattle.tdb_law.specs.World.{State};
ghost use Rattle.tdb_commands.specs.InLaw.{law_opener, law_command};
ghost use Rattle.tdb_commands.specs.declared.command.Command.{Command};
ghost use Rattle.tdb_commands.specs.declared.line.Line.{Line};
ghost use Rattle.tdb_commands.specs.Short.{IsShortCommand};
ghost use Rattle.tdb_openers.specs.Played.{growth, is_step, Nothing, TakesLast, TakesOne};
ghost use Rattle.tdb_world.specs.Whole.{form_at, WorldFits};
ghost use Rattle.tdb_world.specs.States.{IsStateOf};
ghost use Rattle.tdb_world.specs.Steps.{HasCommand, HasThis};
ghost use Rattle.tdb_world.specs.Stops.{IsChanging, IsSafe, OpensToState, TurnMayLeave};
ghost use Rattle.tdb_world.specs.Courses.Hearing.{HeardBy};
ghost use Rattle.tdb_world.specs.Courses.Led.{moment, Led};
ghost use Rattle.tdb_world.specs.Courses.Told.{PlayLedInAny};
ghost use Rattle.tdb_world.specs.Courses.Turns.{IsToldOf, Never};
ghost use Rattle.tdb_world.specs.Courses.Unreported.{gift_lines, turn_lines, undo_lines, Unreported};

use crate::all_openers::AllOpeners;
use crate::course::starting::give;
use crate::course::turning::length_of;
use crate::{OpenerStanding, Undone};
use tdb_commands::Command;
use tdb_disk::Disk;
use tdb_locks::Turn;
use tdb_log::{LogRefusal, Logs, Notice};
use tdb_openers::RunFault;

/// A turn, and the length of the file in bytes before it and after it.
#[derive(Drop)]
struct MeasuredTurn {
    turn: Turn,
    from: u64,
    to: u64,
}

/// Undoes the gate that a dead opener left open, where one stands open.
fn undo_gate<D: Disk>(world: &mut AllOpeners, d: &mut D) -> Result<Option<Undone>, RunFault>
    requires fits { WorldFits world.old (seen (D.history d.old)) (D.size d.old) }
    ensures led { Led D.tells (moment world.old (D.history d.old) (D.size d.old) (D.faults d.old) [])
        (moment world.new (D.history d.new) (D.size d.new) (D.faults d.new) (undo_lines result)) result
        (λ state _. Clears (form_at world.old) state)
        Never
        Nothing }
    ensures stops { IsTrue D.tells → (state : State) → let f = form_at world.old in IsStateOf world.old (D.history d.old) state → IsSafe f (D.history d.old)
        → LeavesOnly (D.history d.old) (D.history d.new) (OpensToState f state) }
    ensures safe { OnOk result (IsTrue D.tells → (state : State) → let f = form_at world.old in IsStateOf world.old (D.history d.old) state → IsSafe f (D.history d.old) → IsSafe f (D.history d.new)) }
    ensures fresh { OnOk result (world.new.stale ≡ false) }
    ensures busy { OnOk result ((who : ℕ) → HasCommand world.old who → HasCommand world.new who) }
    ensures has { OnOk result ((who : ℕ) (command : LawCommand) → HasThis world.old who command → HasThis world.new who command) }
    ensures fault { IfErr result (λ fault. fault ≡ RunFault.Io) }
{
    if !world.is_stale() {
        return Ok(None);
    }
    let undone = world.undo_stale(d)?;
    Ok(Some(undone))
}

/// Takes one turn of an opener's command in a world that isn't stale, and looks at the file's length before and after.
fn measured_turn<D: Disk>(
    world: &mut AllOpeners,
    d: &mut D,
    who: u32,
) -> Result<MeasuredTurn, RunFault>
    requires named { 1 ≤ who }
    requires busy { HasCommand world.old who }
    requires fresh { world.old.stale ≡ false }
    requires fits { WorldFits world.old (seen (D.history d.old)) (D.size d.old) }
    ensures led { (command : Command) (front : List Line) → HasThis world.old who (law_command command) → Led D.tells (moment world.old (D.history d.old) (D.size d.old) (D.faults d.old) front)
        (moment world.new (D.history d.new) (D.size d.new) (D.faults d.new) (front ++ turn_lines who command result)) result
        (λ state measured lines new. IsToldOf state (law_opener who) (law_command command) → TakesOne (form_at world.old) state (law_opener who) (is_step measured.turn) lines new)
        Never
        (λ state lines new. IsToldOf state (law_opener who) (law_command command) → TakesLast (form_at world.old) state (law_opener who) lines new) }
    ensures stops { IsTrue D.tells → (state : State) → let f = form_at world.old in IsStateOf world.old (D.history d.old) state → IsSafe f (D.history d.old) → (IsChanging f state (law_opener who) → ⊥)
        → LeavesOnly (D.history d.old) (D.history d.new) (TurnMayLeave f state (law_opener who)) }
    ensures safe { OnOk result (IsTrue D.tells → (state : State) → let f = form_at world.old in IsStateOf world.old (D.history d.old) state → IsSafe f (D.history d.old)
        → (IsChanging f state (law_opener who) → ⊥) → IsSafe f (D.history d.new)) }
    ensures fault { IfErr result (λ fault. fault ≡ RunFault.Io) }
{
    let from = length_of(d)?;
    let turn = world.turn(d, who)?;
    let to = length_of(d)?;
    Ok(MeasuredTurn { turn, from, to })
}

/// Tells the last log that a gate was undone, where one was.
fn note_undone<L: Logs>(undone: Option<Undone>, logs: &mut L) -> Result<(), LogRefusal>
    ensures heard { HeardBy (L.logs logs.old) (undo_lines (Ok undone)) (L.logs logs.new) (Ok result) }
{
    match undone {
        Some(Undone { bytes, .. }) => logs.note(&Notice::Recovered { bytes }),
        None => Ok(()),
    }
}

/// Tells the last log that the file grew, where it did.
fn note_growth<L: Logs>(from: u64, to: u64, logs: &mut L) -> Result<(), LogRefusal>
    ensures heard { HeardBy (L.logs logs.old) (growth from to) (L.logs logs.new) (Ok result) }
{
    if from < to {
        logs.note(&Notice::Grew { from, to })
    } else {
        Ok(())
    }
}

/// An opener takes a turn of the command that it has, with the answer of `turn_unreported`.
fn busy_turn<D: Disk, L: Logs>(
    world: &mut AllOpeners,
    d: &mut D,
    who: u32,
    logs: &mut L,
) -> Result<Result<Option<Turn>, LogRefusal>, RunFault>
    requires named { 1 ≤ who }
    requires busy { HasCommand world.old who }
    requires fits { WorldFits world.old (seen (D.history d.old)) (D.size d.old) }
    ensures led { Unreported D.tells (moment world.old (D.history d.old) (D.size d.old) (D.faults d.old) [])
        (moment world.new (D.history d.new) (D.size d.new) (D.faults d.new) []) (L.logs logs.old) (L.logs logs.new) who result }
    ensures fault { IfErr result (λ fault. fault ≡ RunFault.Io) }
{
    let undone = undo_gate(world, d)?;
    let told = note_undone(undone, logs);
    let MeasuredTurn { turn, from, to } = measured_turn(world, d, who)?;
    if let Err(refusal) = told {
        return Ok(Err(refusal));
    }
    match note_growth(from, to, logs) {
        Ok(()) => Ok(Ok(Some(turn))),
        Err(refusal) => Ok(Err(refusal)),
    }
}

/// An opener takes a turn of its command, where it has one, and nothing is put into a report. In a stale world the open
/// gate is undone before. The last log is told what becomes of the file, as `play` tells it; a log that refuses doesn't
/// undo the turn. The turn, or `None` where the opener has no command or isn't live. `Memory`
/// never comes, and after `Io` the world may not be used any more.
///
/// Cost: that of the turn, of two looks at the file's length, and of the undo where one is made. It copies nothing.
pub(crate) fn turn_unreported<D: Disk, L: Logs>(
    world: &mut AllOpeners,
    d: &mut D,
    who: u32,
    logs: &mut L,
) -> Result<Result<Option<Turn>, LogRefusal>, RunFault>
    requires named { 1 ≤ who }
    requires fits { WorldFits world.old (seen (D.history d.old)) (D.size d.old) }
    ensures led { Unreported D.tells (moment world.old (D.history d.old) (D.size d.old) (D.faults d.old) [])
        (moment world.new (D.history d.new) (D.size d.new) (D.faults d.new) []) (L.logs logs.old) (L.logs logs.new) who result }
    ensures fault { IfErr result (λ fault. fault ≡ RunFault.Io) }
{
    match world.standing(who) {
        OpenerStanding::Absent | OpenerStanding::Idle => Ok(Ok(None)),
        OpenerStanding::Busy => busy_turn(world, d, who, logs),
    }
}

/// Gives this command to an opener, where it is live and has none, and nothing is put into a report. Of a gift no log
/// is told. How the opener stood: it has the command where it was idle, and else nothing has changed.
///
/// `Memory` where there is none for a copy of the command, or where a transaction would begin within too many others:
/// then nothing has changed. `Io` never comes.
///
/// Cost: one copy of the command, a hash of its key, and a look-up among the chains that the opener holds.
pub(crate) fn give_unreported(
    world: &mut AllOpeners,
    who: u32,
    command: Command,
) -> Result<OpenerStanding, RunFault>
    requires named { 1 ≤ who }
    requires fits { (img : List ℕ) × (size : ℕ) × WorldFits world.old img size }
    requires short { IsShortCommand command }
    ensures led { PlayLedInAny world.old [] world.new (gift_lines who result) result (LawPlay.Give (law_opener who) (law_command command)) }
    ensures fits { (img : List ℕ) (size : ℕ) → WorldFits world.old img size → WorldFits world.new img size }
    ensures err { OnErr result (world.new ≡ world.old) }
    ensures fault { IfErr result (λ fault. fault ≡ RunFault.Memory) }
{
    let standing = world.standing(who);
    if let OpenerStanding::Idle = standing {
        give(world, who, command)?;
    }
    Ok(standing)
}

// The lines of a report.

ghost use Rattle.std.specs.Prelude.{◌≡◌, ◌≤◌, ◌+◌, ◌++◌, ◌∷◌, [], ◌<◌, ◌-◌, OnOk, OnErr, IfErr};
ghost use Rattle.tdb_commands.specs.declared.line.Line.{Line};
ghost use Rattle.tdb_openers.specs.Played.{growth, is_step};

use crate::fault::RunFault;
use tdb_commands::{Line, TurnReport};
use tdb_locks::Turn;

/// Puts a line behind the others, for which there is room.
pub fn put_line(report: &mut TurnReport, line: Line)
    requires { 1 ≤ report.old.room }
    ensures lines { report.new.lines ≡ report.old.lines ++ line ∷ [] }
    ensures room { report.old.room ≤ report.new.room + 1 }
{
    match report.push(line) {
        Ok(()) => {}
        Err(_) => unreachable!(),
    }
}

/// Puts a line behind the others, or finds no memory for it.
pub fn tell(report: &mut TurnReport, line: Line) -> Result<(), RunFault>
    ensures told { OnOk result (report.new.lines ≡ report.old.lines ++ line ∷ []) }
    ensures err { OnErr result (report.new.lines ≡ report.old.lines) }
    ensures memory { IfErr result (λ e. e ≡ RunFault.Memory) }
{
    report.push(line)?;
    Ok(())
}

/// Tells that the file grew, where it did.
pub fn tell_growth(report: &mut TurnReport, from: u64, to: u64)
    requires { 1 ≤ report.old.room }
    ensures { report.new.lines ≡ report.old.lines ++ growth from to }
{
    if from < to {
        put_line(report, Line::Grew { from, to });
    }
}

/// Whether a turn was a step.
pub fn was_step(turn: &Turn) -> bool
    ensures { result ≡ is_step turn.now }
{
    match turn {
        Turn::Step => true,
        Turn::Blocked { .. } | Turn::Done(_) => false,
    }
}

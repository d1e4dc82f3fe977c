//! What a report tells at its end.
ghost use Rattle.std.specs.Prelude.{◌≡◌, ◌≤◌, ◌++◌, ℕ, List, IsTrue, OnOk, OnErr, false};
ghost use Rattle.tdb_commands.specs.declared.line.Line.{Line};
ghost use Rattle.tdb_world.specs.Whole.{WorldFits};
ghost use Rattle.tdb_world.specs.Steps.{HasCommand};
ghost use Rattle.tdb_world.specs.Courses.Unfinished.{IsEnd};

use crate::OpenerStanding;
use crate::all_openers::AllOpeners;
use std::alloc::AllocError;
use tdb_commands::{Line, TurnReport};

/// Whether the opener with this number has a command that isn't done.
fn is_busy(world: &AllOpeners, who: u32) -> bool
    requires named { 1 ≤ who }
    requires fits { (img : List ℕ) × (size : ℕ) × WorldFits world.now img size }
    ensures yes { IsTrue result → HasCommand world.now who }
    ensures no { result ≡ false → HasCommand world.now who → ⊥ }
{
    match world.standing(who) {
        OpenerStanding::Busy => true,
        OpenerStanding::Absent | OpenerStanding::Idle => false,
    }
}

/// Tells, in the order of their numbers, which openers have a command that isn't done. Where memory was wanting the
/// first of these lines were added.
pub(crate) fn finish_report(world: &AllOpeners, report: &mut TurnReport) -> Result<(), AllocError>
    requires fits { (img : List ℕ) × (size : ℕ) × WorldFits world.now img size }
    ensures ok { OnOk result ((lines : List Line) × (report.new.lines ≡ report.old.lines ++ lines) × IsEnd world.now lines) }
    ensures err { OnErr result ((told : List Line) × (left : List Line) × (report.new.lines ≡ report.old.lines ++ told) × IsEnd world.now (told ++ left)) }
{
    for place in 0..world.joined() {
        let who = place + 1;
        if is_busy(world, who) {
            report.push(Line::Unfinished { who })?;
        }
    }
    Ok(())
}

// The commands of the one opener of a file.

ghost use Rattle.std.specs.Prelude.{◌≡◌, IfErr, IfOk, IsTrue, None, Some, false, true};
ghost use Rattle.tdb_commands.specs.InLaw.{law_command};
ghost use Rattle.tdb_commands.specs.Short.{IsShortCommand};
ghost use Rattle.tdb_law.specs.Commands.{Command as LawCommand};
ghost use Rattle.tdb_world.specs.Steps.{HasCommand};
ghost use Rattle.tdb_group.specs.Turns.{Did, Given, NotGiven, Ran, new_task};
ghost use Rattle.tdb_group.specs.declared.stop.FileStop.TheVariants as StopIs;

use crate::stop::FileStop;
use tdb_commands::Command;
use tdb_disk::Disk;
use tdb_locks::{Reply, Turn};
use tdb_world::World;

/// The number of the opener.
pub(crate) const OPENER: u32 = 1;

/// No command has more turns that aren't blocked.
const MOST_TURNS: u32 = 9;

/// Gives the opener a command, of which `told` is a copy, and tells whether it has it now. It hasn't where a
/// transaction would begin within too many others.
fn give<D: Disk>(world: &mut World<D>, command: Command, told: Command) -> bool
    requires unspent { world.old.spent ≡ false }
    requires short { IsShortCommand command }
    requires same { told ≡ command }
    ensures given { IsTrue result → Given D.tells (law_command command) world.old world.new }
    ensures not_given { result ≡ false → NotGiven D.tells (law_command command) world.old world.new }
{
    world.stands();
    if !world.is_idle(OPENER) {
        return false;
    }
    match world.assign(OPENER, command, told) {
        Ok(()) => !world.is_stale(),
        Err(_) => false,
    }
}

/// Takes the turns of the command that the opener has. Its reply; `None` comes only over a disk that doesn't tell its
/// bytes.
fn take_turns<D: Disk>(world: &mut World<D>) -> Result<Option<Reply>, FileStop>
    requires busy { HasCommand world.old.world 1 }
    requires fresh { world.old.world.stale ≡ false }
    requires unspent { world.old.spent ≡ false }
    ensures ran { Ran world.old world.new result }
    ensures did { (c : LawCommand) → Did D.tells c (Some (new_task c)) world.old world.new result }
    ensures fault { IfErr result (λ e. (e ≡ StopIs.Io) × (world.new.spent ≡ true)) }
{
    for _taken in 0..MOST_TURNS {
        match world.turn(OPENER)? {
            Turn::Step => {}
            Turn::Blocked { .. } => return Ok(None),
            Turn::Done(reply) => return Ok(Some(reply)),
        }
    }
    Ok(None)
}

/// The opener does a command, of which `told` is a copy. Its reply; `None` where it wasn't given.
pub(crate) fn do_command<D: Disk>(
    world: &mut World<D>,
    command: Command,
    told: Command,
) -> Result<Option<Reply>, FileStop>
    requires unspent { world.old.spent ≡ false }
    requires short { IsShortCommand command }
    requires same { told ≡ command }
    ensures ran { Ran world.old world.new result }
    ensures did { Did D.tells (law_command command) None world.old world.new result }
    ensures fault { IfErr result (λ e. (e ≡ StopIs.Io) × (world.new.spent ≡ true)) }
{
    if !give(world, command, told) {
        return Ok(None);
    }
    take_turns(world)
}

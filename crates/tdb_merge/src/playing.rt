// What the one opener of a merge does in its world.

ghost use Rattle.std.specs.Prelude.{◌≡◌, ◌≢◌, IfErr, false};
ghost use Rattle.tdb_law.specs.Openers.{Map};
ghost use Rattle.tdb_commands.specs.InLaw.{law_command};
ghost use Rattle.tdb_commands.specs.Short.{IsShortCommand};
ghost use Rattle.tdb_commands.specs.declared.command.Command.{Command as Asked};
ghost use Rattle.tdb_commands.specs.declared.play.Play.TheVariants.{Do};
ghost use Rattle.tdb_world.specs.Courses.Playable.{IsPlayable};
ghost use Rattle.tdb_merge.specs.Parts.{Does, Led, Outside, Phase, Ran};
ghost use Rattle.tdb_merge.specs.declared.fault.MergeFault.TheVariants as FaultIs;

use crate::ending::ending_of;
use crate::fault::MergeFault;
use std::alloc::Global;
use tdb_commands::{Command, Play, TurnReport};
use tdb_disk::Disk;
use tdb_log::Logs;
use tdb_world::World;

/// The number of the opener.
const OPENER: u32 = 1;

/// The opener joins.
pub(crate) fn join<D: Disk>(world: &mut World<D>) -> Result<(), MergeFault>
    requires unspent { world.old.spent ≡ false }
    ensures ran { Ran world.old world.new result }
    ensures led { (m : Map) (n : Map) → Led D.tells m n Outside m Outside world.old world.new result }
    ensures fault { IfErr result (λ e. e ≢ FaultIs.Read) }
{
    match world.join() {
        Ok(_) => Ok(()),
        Err(_) => Err(MergeFault::Memory),
    }
}

/// The play by which it does a command.
fn doing(command: Command) -> Play
    ensures { result ≡ Do 1 command }
{
    let who = OPENER;
    Play::Do { who, command }
}

/// Takes a play by which the opener does a command, and tells the logs what became of the file. A refusal of a log
/// comes before the ending of the command.
fn take_play<D: Disk, L: Logs>(
    alloc: Global,
    world: &mut World<D>,
    play: Play,
    logs: &mut L,
) -> Result<(), MergeFault>
    requires unspent { world.old.spent ≡ false }
    requires playable { IsPlayable play }
    ensures ran { Ran world.old world.new result }
    ensures led { (command : Asked) → play ≡ Do 1 command → (m : Map) (n : Map) (from : Phase) (end : Map) (to : Phase)
        → Does m n from end to (law_command command) → Led D.tells m n from end to world.old world.new result }
    ensures fault { IfErr result (λ e. e ≢ FaultIs.Read) }
{
    let mut report = TurnReport::new(alloc);
    let heard = world.play(&play, &mut report, logs)?;
    heard?;
    ending_of(&report)
}

/// The opener does a command, and the logs are told what became of the file.
pub(crate) fn do_command<D: Disk, L: Logs>(
    alloc: Global,
    world: &mut World<D>,
    command: Command,
    logs: &mut L,
) -> Result<(), MergeFault>
    requires unspent { world.old.spent ≡ false }
    requires short { IsShortCommand command }
    ensures ran { Ran world.old world.new result }
    ensures led { (m : Map) (n : Map) (from : Phase) (end : Map) (to : Phase) → Does m n from end to (law_command command) → Led D.tells m n from end to world.old world.new result }
    ensures fault { IfErr result (λ e. e ≢ FaultIs.Read) }
{
    take_play(alloc, world, doing(command), logs)
}

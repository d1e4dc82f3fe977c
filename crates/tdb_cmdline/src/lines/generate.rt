// What gen does: how many commands it generates, and the number that they are made of.

ghost use Rattle.std.specs.Prelude.{◌≡◌};
ghost use Rattle.tdb_cmdline.specs.Lines.Generate.{generate_of};

use crate::ask::Task;
use crate::words::{commands_of, seed_of};

/// So many commands of that seed, where the two words are numbers.
pub(crate) fn task_of(commands: &str, seed: &str) -> Option<Task>
    ensures { result ≡ generate_of commands.now seed.now }
{
    let commands = commands_of(commands)?;
    let seed = seed_of(seed)?;
    Some(Task::Generate { commands, seed })
}

// One file of a group: a world in whose transaction commands are done.

ghost use Rattle.std.specs.Prelude.{◌≡◌, ◌⊎◌, IfErr, false, true};
ghost use Rattle.tdb_commands.specs.InLaw.{law_command};
ghost use Rattle.tdb_commands.specs.Short.{IsShortCommand};
ghost use Rattle.tdb_group.specs.Commands.{IsOnKey};
ghost use Rattle.tdb_group.specs.Faults.{prepare_answer, was_done};
ghost use Rattle.tdb_group.specs.Files.{Applied, Cancelled, Finished, HeardGrowth, Prepared, Started};
ghost use Rattle.tdb_group.specs.Turns.{Ran};
ghost use Rattle.tdb_group.specs.declared.stop.FileStop.TheVariants as StopIs;

use crate::stop::FileStop;
use crate::turns::do_command;
use std::alloc::Global;
use tdb_commands::Command;
use tdb_disk::Disk;
use tdb_locks::Reply;
use tdb_log::{LogRefusal, Logs, tell_growth};
use tdb_world::World;

/// Whether a command was done.
fn was_done(reply: &Option<Reply>) -> bool
    ensures { result ≡ was_done reply.now }
{
    matches!(reply, Some(Reply::Ok))
}

/// The one opener of a world joins and begins a transaction.
pub(crate) fn start<D: Disk>(world: &mut World<D>) -> Result<(), FileStop>
    requires unspent { world.old.spent ≡ false }
    ensures ran { Ran world.old world.new result }
    ensures started { Started D.tells world.old world.new result }
    ensures fault { IfErr result (λ e. ((e ≡ StopIs.Io) × (world.new.spent ≡ true)) ⊎ (e ≡ StopIs.Memory)) }
{
    let Ok(_) = world.join() else {
        return Err(FileStop::Memory);
    };
    let reply = do_command(world, Command::Start, Command::Start)?;
    if was_done(&reply) {
        return Ok(());
    }
    Err(FileStop::Memory)
}

/// Does a command in the transaction.
fn do_on_key<D: Disk>(
    alloc: Global,
    world: &mut World<D>,
    command: Command,
) -> Result<Reply, FileStop>
    requires unspent { world.old.spent ≡ false }
    requires on_key { IsOnKey command }
    requires short { IsShortCommand command }
    ensures ran { Ran world.old world.new result }
    ensures applied { Applied D.tells (law_command command) world.old world.new result }
    ensures fault { IfErr result (λ e. e ≡ StopIs.Io) }
{
    let Ok(told) = command.copy(alloc) else {
        return Ok(Reply::Memory);
    };
    match do_command(world, command, told)? {
        Some(reply) => Ok(reply),
        None => Ok(Reply::Memory),
    }
}

/// Does a command in the transaction, and gives back the memory that was made ready for it and isn't used: the file
/// rests beside others.
pub(crate) fn apply<D: Disk>(
    alloc: Global,
    world: &mut World<D>,
    command: Command,
) -> Result<Reply, FileStop>
    requires unspent { world.old.spent ≡ false }
    requires on_key { IsOnKey command }
    requires short { IsShortCommand command }
    ensures ran { Ran world.old world.new result }
    ensures applied { Applied D.tells (law_command command) world.old world.new result }
    ensures fault { IfErr result (λ e. e ≡ StopIs.Io) }
{
    let answer = do_on_key(alloc, world, command);
    world.shrink_to_fit();
    answer
}

/// What a Prepare comes to, by its reply and by what the last log answered. Only where there is no room does the
/// reply come before a refusal of the log.
fn prepare_answer(reply: Option<Reply>, heard: Result<(), LogRefusal>) -> Result<(), FileStop>
    ensures { result ≡ prepare_answer reply heard }
{
    if let Some(Reply::Full { len, need }) = reply {
        return Err(FileStop::Refused(Reply::Full { len, need }));
    }
    heard?;
    if was_done(&reply) {
        return Ok(());
    }
    Err(FileStop::Memory)
}

/// Prepares the transaction, and tells the last log how the file grew.
pub(crate) fn prepare<D: Disk, L: Logs>(world: &mut World<D>, logs: &mut L) -> Result<(), FileStop>
    requires unspent { world.old.spent ≡ false }
    ensures ran { Ran world.old world.new result }
    ensures prepared { Prepared D.tells world.old world.new result }
    ensures heard { HeardGrowth world.old.size world.new.size (L.logs logs.old) (L.logs logs.new) result }
{
    let from = world.length()?;
    let reply = do_command(world, Command::Prepare, Command::Prepare)?;
    let to = world.length()?;
    prepare_answer(reply, tell_growth(from, to, logs))
}

/// Commits the transaction, which is prepared.
pub(crate) fn finish<D: Disk>(world: &mut World<D>) -> Result<(), FileStop>
    requires unspent { world.old.spent ≡ false }
    ensures ran { Ran world.old world.new result }
    ensures finished { Finished D.tells world.old world.new result }
    ensures fault { IfErr result (λ e. e ≡ StopIs.Io) }
{
    let reply = do_command(world, Command::Commit, Command::Commit)?;
    if was_done(&reply) {
        return Ok(());
    }
    Err(FileStop::Io)
}

/// Cancels the transaction, where there is one.
pub(crate) fn cancel<D: Disk>(world: &mut World<D>) -> Result<(), FileStop>
    requires unspent { world.old.spent ≡ false }
    ensures ran { Ran world.old world.new result }
    ensures cancelled { Cancelled D.tells world.old world.new result }
    ensures fault { IfErr result (λ e. e ≡ StopIs.Io) }
{
    let reply = do_command(world, Command::Cancel, Command::Cancel)?;
    if reply.is_none() {
        return Err(FileStop::Io);
    }
    Ok(())
}

// The command that does what the lines of the input order over a file, and prints the replies.

ghost use Rattle.std.specs.Prelude.{◌≡◌, ◌≤◌, ◌&&◌, ℕ, List, false, IsTrue};
ghost use Rattle.tdb_disk.specs.Count.{HasCause};
ghost use Rattle.tdb_disk.specs.Names.{SameBut};
ghost use Rattle.tdb_cmdline.specs.declared.ask.Task.TheVariants.{Session};
ghost use Rattle.tdb_answer.specs.declared.ending.Ending.TheVariants.{Usage};
ghost use Rattle.tdb_answer.specs.Commands.Restore.{HeardBy};
ghost use Rattle.tdb_answer.specs.Commands.Session.{session_options, session_told, SessionText, SessionFile, SessionHeld, SessionHeard, StaysThere};
ghost use Rattle.tdb_answer.specs.Ending.{CountedIf};
ghost use Rattle.tdb_answer.specs.Input.{input_by};
ghost use Rattle.tdb_answer.specs.Looks.{ending_of, Began};
ghost use Rattle.tdb_answer.specs.Reads.{AskCause};
ghost use Rattle.tdb_disk.specs.declared.files.Take.TheVariants as Way;

use crate::ending::{Ending, Reply, Unprinted};
use std::alloc::Global;
use tdb_disk::{Disk, Files, Sink, Source, Take};
use tdb_log::Logs;
use tdb_openers::Options;
use tdb_tool::{SessionEnd, SessionFault, run_session};
use tdb_world::World;

/// How a file is opened for a session that may make it so long.
pub(crate) fn options_within(limit: u64) -> Options
    ensures { result ≡ session_options limit }
{
    Options {
        limit,
        nesting: true,
        read_only: false,
        seqnum: false,
    }
}

/// How a run ends whose session answered so.
fn told(answer: Result<SessionEnd, SessionFault>) -> Result<Ending, Unprinted>
    ensures { result ≡ session_told answer }
{
    match answer {
        Ok(SessionEnd::Ended) => Ok(Ending::Replied(Reply::Played)),
        Ok(SessionEnd::Malformed { at }) => Ok(Ending::Malformed { at }),
        Err(SessionFault::Input) => Ok(Ending::InputFault),
        Err(SessionFault::Output) => Err(Unprinted::Report),
        Err(SessionFault::Device) => Ok(Ending::DeviceFault),
        Err(SessionFault::Log) => Ok(Ending::LogFault),
        Err(SessionFault::Memory) => Ok(Ending::NoMemory),
    }
}

/// Opens the file on a disk, does what the lines of the input order over it, and gives the disk back.
fn session_on_disk<D: Disk, S: Source, K: Sink, L: Logs>(
    alloc: Global,
    limit: u64,
    disk: D,
    input: &mut S,
    output: &mut K,
    logs: &mut L,
) -> (D, Result<Ending, Unprinted>)
    requires limit { limit ≤ 4294963200 }
    ensures served { IsTrue D.tells → SessionFile limit (input_by S.tells (S.left input.old) (S.faults input.old) (S.faults input.new)) (D.history disk) (D.history result.0) K.tells (K.written output.old) (K.written output.new) (L.logs logs.old) (L.logs logs.new) result.1 }
    ensures counted { CountedIf D.tells (D.faults disk) (D.faults result.0) (ending_of result.1) }
    ensures cause { HasCause (K.faults output.old) (K.faults output.new) result.1 }
    ensures asked { ending_of result.1 ≡ Usage → ⊥ }
    ensures heard { HeardBy (S.faults input.old) (S.faults input.new) (ending_of result.1) }
{
    let options = options_within(limit);
    let (world, _) = match World::load(alloc, disk, &options, logs) {
        Ok(loaded) => loaded,
        Err((disk, halt)) => return (disk, Ok(Ending::from(halt))),
    };
    let (disk, answer) = run_session(alloc, world, input, output, logs);
    (disk, told(answer))
}

/// Does what the lines of the input order over the file of this name, which may become `limit` bytes long, and prints
/// each reply as soon as it is made. The input is read while the orders are done, so those before a line that is none,
/// or before a read that fails, are done and their replies printed. The last log is told of the opening, and while an
/// order is done what becomes of the file; where a log fails, the reply of that order is printed, and no other is done.
pub(crate) fn session_on_file<F: Files, S: Source, K: Sink, L: Logs>(
    alloc: Global,
    name: &str,
    limit: u64,
    files: &mut F,
    input: &mut S,
    output: &mut K,
    logs: &mut L,
) -> Result<Ending, Unprinted>
    requires limit { limit ≤ 4294963200 }
    requires free { (other : List ℕ) → F.is_taken files.old other ≡ false }
    requires take { F.may_take name.now Way.Existing }
    ensures cause { IsTrue F.D.tells → AskCause (input_by S.tells (S.left input.old) (S.faults input.old) (S.faults input.new)) (Session limit) name.now (F.held files.old name.now) (F.faults files.old) (F.faults files.new) (ending_of result) }
    ensures left { IsTrue F.D.tells → StaysThere (F.held files.old name.now) (F.held files.new name.now) }
    ensures others { SameBut name.now (F.held files.old) (F.held files.new) }
    ensures given_back { (other : List ℕ) → F.is_taken files.new other ≡ false }
    ensures counted { CountedIf F.D.tells (F.faults files.old) (F.faults files.new) (ending_of result) }
    ensures began { IsTrue (K.tells && F.D.tells) → Began (SessionText limit (F.held files.old name.now)) (K.written output.old) (K.written output.new) result }
    ensures served { IsTrue F.D.tells → SessionHeld limit (input_by S.tells (S.left input.old) (S.faults input.old) (S.faults input.new)) (F.held files.old name.now) (F.held files.new name.now) K.tells (K.written output.old) (K.written output.new) (L.logs logs.old) (L.logs logs.new) result }
    ensures logged { IsTrue F.D.tells → SessionHeard limit (F.held files.old name.now) (ending_of result) (L.logs logs.old) (L.logs logs.new) }
    ensures output_cause { HasCause (K.faults output.old) (K.faults output.new) result }
    ensures asked { ending_of result ≡ Usage → ⊥ }
    ensures heard { HeardBy (S.faults input.old) (S.faults input.new) (ending_of result) }
{
    match files.take(alloc, name, Take::Existing) {
        Ok(disk) => {
            let (disk, served) = session_on_disk(alloc, limit, disk, input, output, logs);
            files.give(name, disk);
            served
        }
        Err(refusal) => Ok(Ending::untaken(alloc, name, refusal)),
    }
}

// The command that takes the plays of a script over a file, and prints their report.

ghost use Rattle.std.specs.Prelude.{◌≡◌, ◌≤◌, ◌&&◌, ℕ, List, Ok, OnErr, false, IsTrue, if◌then◌else◌};
ghost use Rattle.tdb_disk.specs.Count.{HasCause, Rose};
ghost use Rattle.tdb_disk.specs.History.{seen};
ghost use Rattle.tdb_disk.specs.Names.{SameBut};
ghost use Rattle.tdb_space.specs.Form.{form_of};
ghost use Rattle.tdb_world.specs.Courses.Playable.{ArePlayable};
ghost use Rattle.tdb_cmdline.specs.declared.ask.Task.TheVariants.{Turns};
ghost use Rattle.tdb_answer.specs.declared.ending.Ending.TheVariants.{Replied, Usage};
ghost use Rattle.tdb_answer.specs.declared.ending.Reply.TheVariants.{Played};
ghost use Rattle.tdb_answer.specs.Commands.Restore.{HeardBy, of_input};
ghost use Rattle.tdb_answer.specs.Commands.Turns as T;
ghost use Rattle.tdb_answer.specs.Ending.{CountedIf};
ghost use Rattle.tdb_answer.specs.Input.{input_by};
ghost use Rattle.tdb_answer.specs.Looks.{ending_of, Began};
ghost use Rattle.tdb_open.specs.Loading.{OpensToTurn};
ghost use Rattle.tdb_open.specs.Opening.{opened_bytes};
ghost use Rattle.tdb_answer.specs.Output.{output_by};
ghost use Rattle.tdb_answer.specs.Playing.{end_told, PlayedFile, PlayedAll, PlaysCause};
ghost use Rattle.tdb_answer.specs.Reads.{AskCause};
ghost use Rattle.tdb_answer.specs.Stops.{SaysAllLines, StopsHeld, StopsOfTurns, StopsScripted};
ghost use Rattle.tdb_disk.specs.declared.files.Take.TheVariants as Way;

use crate::ending::{Ending, Reply, Unprinted};
use crate::playing::play_all;
use crate::scripts::plays_on;
use std::alloc::Global;
use tdb_commands::Play;
use tdb_disk::{Disk, Files, Sink, Source, Take};
use tdb_log::Logs;
use tdb_open::Fault;
use tdb_openers::Options;
use tdb_world::World;

/// How a run ends whose plays ended so.
fn told(played: Result<Result<(), Fault>, Unprinted>) -> Result<Ending, Unprinted>
    ensures { result ≡ end_told played }
{
    match played {
        Ok(Ok(())) => Ok(Ending::Replied(Reply::Played)),
        Ok(Err(Fault::Device)) => Ok(Ending::DeviceFault),
        Ok(Err(Fault::Memory)) => Ok(Ending::NoMemory),
        Ok(Err(Fault::Log)) => Ok(Ending::LogFault),
        Err(unprinted) => Err(unprinted),
    }
}

/// Opens the file on a disk, takes plays over it, tells them, and gives the disk back.
fn play_on_disk<D: Disk, K: Sink, L: Logs>(
    alloc: Global,
    options: &Options,
    plays: &[Play],
    disk: D,
    output: &mut K,
    logs: &mut L,
) -> (D, Result<Ending, Unprinted>)
    requires limit { options.now.limit ≤ 4294963200 }
    requires playable { ArePlayable plays.now }
    ensures played { IsTrue D.tells → PlayedFile options.now (D.history disk) (D.history result.0) plays.now K.tells (K.written output.old) (K.written output.new) (L.logs logs.old) (L.logs logs.new) result.1 }
    ensures stops { IsTrue D.tells → OpensToTurn options.now (seen (D.history disk))
        → StopsOfTurns (form_of (opened_bytes (seen (D.history disk)))) options.now plays.now (D.history disk) (D.history result.0) K.tells (SaysAllLines result.1) (OnErr result.1 ⊥) (Rose (D.faults disk) (D.faults result.0) → ⊥) (K.written output.old) (K.written output.new) }
    ensures counted { CountedIf D.tells (D.faults disk) (D.faults result.0) (ending_of result.1) }
    ensures cause { HasCause (K.faults output.old) (K.faults output.new) result.1 }
    ensures asked { ending_of result.1 ≡ Usage → ⊥ }
    ensures unread { of_input (ending_of result.1) ≡ false }
{
    let (world, _) = match World::load(alloc, disk, options, logs) {
        Ok(loaded) => loaded,
        Err((disk, halt)) => return (disk, Ok(Ending::from(halt))),
    };
    let (disk, played) = play_all(alloc, world, plays, output, logs);
    (disk, told(played))
}

/// Takes plays over the file of this name, and tells them.
fn play_on_file<F: Files, K: Sink, L: Logs>(
    alloc: Global,
    name: &str,
    options: &Options,
    plays: &[Play],
    files: &mut F,
    output: &mut K,
    logs: &mut L,
) -> Result<Ending, Unprinted>
    requires limit { options.now.limit ≤ 4294963200 }
    requires playable { ArePlayable plays.now }
    requires free { (other : List ℕ) → F.is_taken files.old other ≡ false }
    requires take { F.may_take name.now (if options.now.read_only then Way.ReadOnly else Way.Existing) }
    ensures cause { IsTrue F.D.tells → PlaysCause options.now name.now (F.held files.old name.now) (F.faults files.old) (F.faults files.new) (ending_of result) }
    ensures left { IsTrue F.D.tells → T.TurnsLeave options.now (F.held files.old name.now) (ending_of result) (F.held files.new name.now) }
    ensures stops { IsTrue F.D.tells → StopsHeld options.now plays.now (F.held files.old name.now) (F.held files.new name.now) K.tells (SaysAllLines result) (OnErr result ⊥) (Rose (F.faults files.old) (F.faults files.new) → ⊥) (K.written output.old) (K.written output.new) }
    ensures others { SameBut name.now (F.held files.old) (F.held files.new) }
    ensures given_back { (other : List ℕ) → F.is_taken files.new other ≡ false }
    ensures counted { CountedIf F.D.tells (F.faults files.old) (F.faults files.new) (ending_of result) }
    ensures began { IsTrue (K.tells && F.D.tells) → Began (T.TurnsText options.now (F.held files.old name.now)) (K.written output.old) (K.written output.new) result }
    ensures whole { IsTrue F.D.tells → result ≡ Ok (Replied Played) → PlayedAll options.now plays.now (F.held files.old name.now) (F.held files.new name.now) K.tells (K.written output.old) (K.written output.new) (L.logs logs.old) (L.logs logs.new) }
    ensures logged { IsTrue F.D.tells → T.TurnsHeard options.now (F.held files.old name.now) (ending_of result) (L.logs logs.old) (L.logs logs.new) }
    ensures output_cause { HasCause (K.faults output.old) (K.faults output.new) result }
    ensures asked { ending_of result ≡ Usage → ⊥ }
    ensures unread { of_input (ending_of result) ≡ false }
{
    let how = if options.read_only {
        Take::ReadOnly
    } else {
        Take::Existing
    };
    match files.take(alloc, name, how) {
        Ok(disk) => {
            let (disk, played) = play_on_disk(alloc, options, plays, disk, output, logs);
            files.give(name, disk);
            played
        }
        Err(refusal) => Ok(Ending::untaken(alloc, name, refusal)),
    }
}

/// Takes the plays of the script on the input over the file of this name, and tells them. The script is read whole
/// before the file is taken. The logs are told what the opening finds, and then what the plays do to the file.
pub(crate) fn turns_on_file<F: Files, S: Source, K: Sink, L: Logs>(
    alloc: Global,
    name: &str,
    options: &Options,
    files: &mut F,
    input: &mut S,
    output: &mut K,
    logs: &mut L,
) -> Result<Ending, Unprinted>
    requires limit { options.now.limit ≤ 4294963200 }
    requires free { (other : List ℕ) → F.is_taken files.old other ≡ false }
    requires take { F.may_take name.now (if options.now.read_only then Way.ReadOnly else Way.Existing) }
    ensures cause { IsTrue F.D.tells → AskCause (input_by S.tells (S.left input.old) (S.faults input.old) (S.faults input.new)) (Turns options.now) name.now (F.held files.old name.now) (F.faults files.old) (F.faults files.new) (ending_of result) }
    ensures left { IsTrue F.D.tells → T.TurnsLeave options.now (F.held files.old name.now) (ending_of result) (F.held files.new name.now) }
    ensures stops { IsTrue F.D.tells → StopsScripted (input_by S.tells (S.left input.old) (S.faults input.old) (S.faults input.new)) options.now (F.held files.old name.now) (F.held files.new name.now) K.tells (SaysAllLines result) (OnErr result ⊥) (Rose (F.faults files.old) (F.faults files.new) → ⊥) (K.written output.old) (K.written output.new) }
    ensures others { SameBut name.now (F.held files.old) (F.held files.new) }
    ensures given_back { (other : List ℕ) → F.is_taken files.new other ≡ false }
    ensures counted { CountedIf F.D.tells (F.faults files.old) (F.faults files.new) (ending_of result) }
    ensures began { IsTrue (K.tells && F.D.tells) → Began (T.TurnsText options.now (F.held files.old name.now)) (K.written output.old) (K.written output.new) result }
    ensures played { IsTrue F.D.tells → result ≡ Ok (Replied Played) → T.AllPlayed options.now (input_by S.tells (S.left input.old) (S.faults input.old) (S.faults input.new))
        (output_by K.tells (K.written output.old) (K.written output.new) (K.faults output.old) (K.faults output.new)) (L.logs logs.old) (L.logs logs.new) (F.held files.old name.now) (F.held files.new name.now) }
    ensures logged { IsTrue F.D.tells → T.TurnsHeard options.now (F.held files.old name.now) (ending_of result) (L.logs logs.old) (L.logs logs.new) }
    ensures output_cause { HasCause (K.faults output.old) (K.faults output.new) result }
    ensures asked { ending_of result ≡ Usage → ⊥ }
    ensures heard { HeardBy (S.faults input.old) (S.faults input.new) (ending_of result) }
{
    match plays_on(alloc, input) {
        Ok(plays) => play_on_file(alloc, name, options, plays.as_slice(), files, output, logs),
        Err(fault) => Ok(Ending::from(fault)),
    }
}

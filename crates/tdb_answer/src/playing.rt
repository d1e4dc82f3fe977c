// Plays that are taken over a file, and told line by line; logs are told what becomes of the file.

ghost use Rattle.std.specs.Prelude.{◌≡◌, ◌≤◌, ◌++◌, [], Ok, IsTrue, IsErrOf, OnOk, OnErr, false};
ghost use Rattle.tdb_disk.specs.Count.{HasCause, HasCauseOf, Rose};
ghost use Rattle.tdb_disk.specs.History.{seen};
ghost use Rattle.tdb_law.specs.World.{State};
ghost use Rattle.tdb_space.specs.Accepted.{AcceptWith};
ghost use Rattle.tdb_backup.specs.Dump.{WroteFront};
ghost use Rattle.tdb_dump.specs.declared.writer.WriteRefusal.TheVariants.{Failed};
ghost use Rattle.tdb_script.specs.Text.{report_text};
ghost use Rattle.tdb_world.specs.Whole.{form_at, options_at};
ghost use Rattle.tdb_world.specs.Courses.Playable.{ArePlayable};
ghost use Rattle.tdb_world.specs.Courses.Scene.{scene};
ghost use Rattle.tdb_answer.specs.Playing.{UnlessBroken, OnBroken, IsUnbroken, PlayedOver, Ran, EndTold, WroteLines, end_of};
ghost use Rattle.tdb_world.specs.Loaded.{IsJustLoaded};
ghost use Rattle.tdb_answer.specs.Stops.{StopsOfTurns, StopsOver, StopsTold, TellsAllLines};

use crate::ending::Unprinted;
use std::alloc::Global;
use tdb_commands::{Play, TurnReport};
use tdb_disk::{Disk, Sink};
use tdb_dump::WriteRefusal;
use tdb_log::{LogRefusal, Logs};
use tdb_open::Fault;
use tdb_script::write_line;
use tdb_world::{RunFault, World};

/// Writes the lines of a report, each in one call. Where the output fails a front of their text was written, and where
/// memory is wanting a front of the lines.
fn tell<K: Sink>(alloc: Global, report: &TurnReport, output: &mut K) -> Result<(), WriteRefusal>
    ensures whole { OnOk result (IsTrue K.tells → K.written output.new ≡ K.written output.old ++ report_text report.now.lines) }
    ensures front { OnErr result (IsTrue K.tells → WroteFront (K.written output.old) (report_text report.now.lines) (K.written output.new)) }
    ensures memory { IsErrOf result WriteRefusal.Memory → IsTrue K.tells → WroteLines report.now.lines (K.written output.old) (K.written output.new) }
    ensures cause { HasCauseOf Failed (K.faults output.old) (K.faults output.new) result }
{
    for i in 0..report.len() {
        let Some(line) = report.get(i) else {
            unreachable!();
        };
        write_line(alloc, output, line)?;
    }
    Ok(())
}

/// How plays end, by how they were taken and how they were told. A failed call of the disk or of the output counts
/// first, and then want of memory, so that all lines are told where a log failed.
fn ended(
    played: Result<Result<(), LogRefusal>, RunFault>,
    told: Result<(), WriteRefusal>,
) -> Result<Result<(), Fault>, Unprinted>
    ensures { result ≡ end_of played told }
{
    match (played, told) {
        (Err(RunFault::Io), Err(WriteRefusal::Failed)) => Err(Unprinted::Fault),
        (Err(RunFault::Io), _) => Ok(Err(Fault::Device)),
        (_, Err(WriteRefusal::Failed)) => Err(Unprinted::Report),
        (Err(RunFault::Memory), _) => Ok(Err(Fault::Memory)),
        (_, Err(WriteRefusal::Memory)) => Ok(Err(Fault::Memory)),
        (Ok(Err(refusal)), Ok(())) => Ok(Err(Fault::from(refusal))),
        (Ok(Ok(())), Ok(())) => Ok(Ok(())),
    }
}

/// Takes plays, and tells them. The lines of the play whose notice a log refused are told too.
fn play_some<D: Disk, K: Sink, L: Logs>(
    alloc: Global,
    world: &mut World<D>,
    plays: &[Play],
    output: &mut K,
    logs: &mut L,
) -> Result<Result<(), Fault>, Unprinted>
    requires unspent { world.old.spent ≡ false }
    requires playable { ArePlayable plays.now }
    ensures ran { Ran D.tells K.tells (scene world.old (K.written output.old) (L.logs logs.old))
        (scene world.new (K.written output.new) (L.logs logs.new)) plays.now result }
    ensures stops { StopsTold D.tells K.tells (scene world.old (K.written output.old) (L.logs logs.old))
        (scene world.new (K.written output.new) (L.logs logs.new)) plays.now result }
    ensures cause { HasCause (K.faults output.old) (K.faults output.new) result }
{
    let mut report = TurnReport::new(alloc);
    let played = world.run(plays, &mut report, logs);
    let told = tell(alloc, &report, output);
    ended(played, told)
}

/// Takes plays one after the other, and tells each as it is taken.
fn play_each<D: Disk, K: Sink, L: Logs>(
    alloc: Global,
    world: &mut World<D>,
    plays: &[Play],
    output: &mut K,
    logs: &mut L,
) -> Result<Result<(), Fault>, Unprinted>
    requires unspent { world.old.spent ≡ false }
    requires playable { ArePlayable plays.now }
    ensures ran { Ran D.tells K.tells (scene world.old (K.written output.old) (L.logs logs.old))
        (scene world.new (K.written output.new) (L.logs logs.new)) plays.now result }
    ensures stops { StopsTold D.tells K.tells (scene world.old (K.written output.old) (L.logs logs.old))
        (scene world.new (K.written output.new) (L.logs logs.new)) plays.now result }
    ensures cause { HasCause (K.faults output.old) (K.faults output.new) result }
{
    for i in 0..plays.len() {
        match play_some(alloc, world, &plays[i..i + 1], output, logs)? {
            Ok(()) => {}
            Err(fault) => return Ok(Err(fault)),
        }
    }
    Ok(Ok(()))
}

/// Tells which openers have an unfinished command.
fn tell_unfinished<D: Disk, K: Sink>(
    alloc: Global,
    world: &World<D>,
    output: &mut K,
) -> Result<Result<(), Fault>, Unprinted>
    requires unspent { world.now.spent ≡ false }
    ensures told { EndTold world.now.world K.tells (K.written output.old) (K.written output.new) result }
    ensures unbroken { IsUnbroken result }
    ensures cause { HasCause (K.faults output.old) (K.faults output.new) result }
{
    let mut report = TurnReport::new(alloc);
    let Ok(()) = world.finish_report(&mut report) else {
        return Ok(Err(Fault::Memory));
    };
    let told = tell(alloc, &report, output);
    ended(Ok(Ok(())), told)
}

/// Takes all plays in a world, and tells them and the commands that are unfinished then.
fn play_in<D: Disk, K: Sink, L: Logs>(
    alloc: Global,
    world: &mut World<D>,
    plays: &[Play],
    output: &mut K,
    logs: &mut L,
) -> Result<Result<(), Fault>, Unprinted>
    requires unspent { world.old.spent ≡ false }
    requires playable { ArePlayable plays.now }
    ensures played { IsTrue D.tells → (state : State) → IsJustLoaded world.old.world world.old.history state
        → PlayedOver (form_at world.old.world) (options_at world.old.world) (seen world.old.history) plays.now (seen world.new.history) K.tells (K.written output.old) (K.written output.new) (L.logs logs.old) (L.logs logs.new) result }
    ensures rises { world.old.faults ≤ world.new.faults }
    ensures quiet { UnlessBroken result (world.new.faults ≡ world.old.faults) }
    ensures rose { IsTrue D.tells → (state : State) → IsJustLoaded world.old.world world.old.history state → OnBroken result (Rose world.old.faults world.new.faults) }
    ensures stops { StopsOver world.old.world D.tells K.tells plays.now result (Rose world.old.faults world.new.faults → ⊥) world.old.history world.new.history world.old.size world.new.size (K.written output.old) (K.written output.new) }
    ensures cause { HasCause (K.faults output.old) (K.faults output.new) result }
{
    match play_each(alloc, world, plays, output, logs)? {
        Ok(()) => {
            world.stands();
            tell_unfinished(alloc, world, output)
        }
        Err(fault) => Ok(Err(fault)),
    }
}

/// Takes all plays in a world over an opened file, and tells them and the commands that are unfinished then; then the
/// world is given up, and the disk comes back. The logs are told what the plays do to the file, and nothing of the
/// unfinished commands.
pub(crate) fn play_all<D: Disk, K: Sink, L: Logs>(
    alloc: Global,
    mut world: World<D>,
    plays: &[Play],
    output: &mut K,
    logs: &mut L,
) -> (D, Result<Result<(), Fault>, Unprinted>)
    requires unspent { world.spent ≡ false }
    requires accepted { IsTrue D.tells → AcceptWith (form_at world.world) (seen world.history) [] }
    requires playable { ArePlayable plays.now }
    ensures played { IsTrue D.tells → (state : State) → IsJustLoaded world.world world.history state
        → PlayedOver (form_at world.world) (options_at world.world) (seen world.history) plays.now (seen (D.history result.0)) K.tells (K.written output.old) (K.written output.new) (L.logs logs.old) (L.logs logs.new) result.1 }
    ensures rises { world.faults ≤ D.faults result.0 }
    ensures quiet { UnlessBroken result.1 (D.faults result.0 ≡ world.faults) }
    ensures rose { IsTrue D.tells → (state : State) → IsJustLoaded world.world world.history state → OnBroken result.1 (Rose world.faults (D.faults result.0)) }
    ensures stops { IsTrue D.tells → (state : State) → IsJustLoaded world.world world.history state
        → StopsOfTurns (form_at world.world) (options_at world.world) plays.now world.history (D.history result.0) K.tells (TellsAllLines result.1) (OnErr result.1 ⊥) (Rose world.faults (D.faults result.0) → ⊥) (K.written output.old) (K.written output.new) }
    ensures cause { HasCause (K.faults output.old) (K.faults output.new) result.1 }
{
    world.stands();
    let played = play_in(alloc, &mut world, plays, output, logs);
    (world.close(), played)
}

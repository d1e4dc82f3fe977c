// A session from its beginning to its end.

ghost use Rattle.std.specs.Prelude.{◌≡◌, ◌≤◌, [], IsTrue, false};
ghost use Rattle.tdb_disk.specs.Count.{HasCauseOf, Rose};
ghost use Rattle.tdb_disk.specs.History.{seen};
ghost use Rattle.tdb_space.specs.Accepted.{AcceptWith};
ghost use Rattle.tdb_law.specs.World.{State};
ghost use Rattle.tdb_world.specs.Whole.{form_at, options_at};
ghost use Rattle.tdb_world.specs.Loaded.{IsJustLoaded};
ghost use Rattle.tdb_tool.specs.declared.fault.SessionFault.TheVariants as FaultIs;
ghost use Rattle.tdb_world.specs.Courses.Scene.{scene};
ghost use Rattle.tdb_tool.specs.Serving.{fault_of, UnlessBroken, OnBroken, ServedAll};
ghost use Rattle.tdb_tool.specs.Whole.{SessionLed, SessionRan};

use crate::fault::{SessionEnd, SessionFault};
use crate::serving::serve;
use crate::taking::{OPENER, doing, take_silently};
use std::alloc::Global;
use tdb_commands::{Command, Play};
use tdb_disk::{Disk, Sink, Source};
use tdb_log::Logs;
use tdb_world::World;

/// An opener joins, and does what the lines of the input order.
fn join_and_serve<D: Disk, I: Source, K: Sink, L: Logs>(
    alloc: Global,
    world: &mut World<D>,
    input: &mut I,
    output: &mut K,
    logs: &mut L,
) -> Result<SessionEnd, SessionFault>
    requires unspent { world.old.spent ≡ false }
    ensures served { ServedAll D.tells I.tells K.tells (scene world.old (K.written output.old) (L.logs logs.old))
        (scene world.new (K.written output.new) (L.logs logs.new)) (I.left input.old) result }
    ensures input_cause { HasCauseOf FaultIs.Input (I.faults input.old) (I.faults input.new) result }
    ensures cause { HasCauseOf FaultIs.Output (K.faults output.old) (K.faults output.new) result }
{
    take_silently(alloc, world, Play::Join, logs)?;
    if !world.is_idle(OPENER) {
        return Err(SessionFault::Memory);
    }
    serve(alloc, world, input, output, logs)
}

/// An opener joins, does what the lines of the input order, and closes.
fn serve_and_close<D: Disk, I: Source, K: Sink, L: Logs>(
    alloc: Global,
    world: &mut World<D>,
    input: &mut I,
    output: &mut K,
    logs: &mut L,
) -> Result<SessionEnd, SessionFault>
    requires unspent { world.old.spent ≡ false }
    ensures led { SessionLed D.tells I.tells K.tells (scene world.old (K.written output.old) (L.logs logs.old))
        (scene world.new (K.written output.new) (L.logs logs.new)) (I.left input.old) result }
    ensures input_cause { HasCauseOf FaultIs.Input (I.faults input.old) (I.faults input.new) result }
    ensures cause { HasCauseOf FaultIs.Output (K.faults output.old) (K.faults output.new) result }
{
    let end = join_and_serve(alloc, world, input, output, logs)?;
    take_silently(alloc, world, doing(Command::Close), logs)?;
    if world.is_live(OPENER) {
        return Err(SessionFault::Memory);
    }
    Ok(end)
}

/// Does what the lines of the input order, in a world over an opened file, by one opener that joins first and closes at
/// the end; then the world is given up, and the disk comes back. The last log is told what each command did to the
/// file. Then its reply and a newline are printed; but of a list each pair or key, in pieces of less than 64 KiB or of
/// one pair, the last of them at the end of the list.
///
/// The input is read in pieces, and no further than the next order's line as long as that is at hand. A session ends
/// where the input does, at `quit`, or before a line that is no order, ends beyond `LONGEST_SESSION` bytes, or is
/// longer than `LONGEST_LINE`. A transaction that is open then isn't committed.
///
/// `Input` where a read failed, with all orders up to there done; `Output` where a write failed, which no command
/// follows; `Device` where the disk did, and then no more of a list is printed; `Log` where a log failed, with the
/// reply printed of the command whose notice it didn't take; `Memory` where that was wanting, for the close too. Then
/// the opener isn't closed, but by a close whose notice a log refused.
///
/// Cost: that of the commands, and one pass over the text; memory for a piece of the input, the line at hand, of a list
/// one pair and up to 64 KiB of text, and the pages of the file that a transaction changes.
pub fn run_session<D: Disk, I: Source, K: Sink, L: Logs>(
    alloc: Global,
    mut world: World<D>,
    input: &mut I,
    output: &mut K,
    logs: &mut L,
) -> (D, Result<SessionEnd, SessionFault>)
    requires unspent { world.spent ≡ false }
    requires accepted { IsTrue D.tells → AcceptWith (form_at world.world) (seen world.history) [] }
    ensures session { IsTrue D.tells → (state : State) → IsJustLoaded world.world world.history state
        → SessionRan (form_at world.world) (options_at world.world) world.history (D.history result.0) I.tells (I.left input.old) K.tells (K.written output.old) (K.written output.new) (L.logs logs.old) (L.logs logs.new) result.1 }
    ensures rises { world.faults ≤ D.faults result.0 }
    ensures quiet { UnlessBroken (fault_of result.1) (D.faults result.0 ≡ world.faults) }
    ensures rose { IsTrue D.tells → (state : State) → IsJustLoaded world.world world.history state → OnBroken (fault_of result.1) (Rose world.faults (D.faults result.0)) }
    ensures input_cause { HasCauseOf FaultIs.Input (I.faults input.old) (I.faults input.new) result.1 }
    ensures cause { HasCauseOf FaultIs.Output (K.faults output.old) (K.faults output.new) result.1 }
{
    world.stands();
    let answer = serve_and_close(alloc, &mut world, input, output, logs);
    (world.close(), answer)
}

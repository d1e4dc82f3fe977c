// Orders that are done as they are asked for.

ghost use Rattle.std.specs.Prelude.{◌≡◌, false};
ghost use Rattle.tdb_disk.specs.Count.{HasCauseOf};
ghost use Rattle.tdb_tool.specs.declared.fault.SessionFault.TheVariants as FaultIs;
ghost use Rattle.tdb_tool.specs.Lines.{lines_left};
ghost use Rattle.tdb_world.specs.Courses.Scene.{scene};
ghost use Rattle.tdb_tool.specs.Serving.{ServedNext, Served};

use crate::asking::{Asked, next_asked};
use crate::fault::{SessionEnd, SessionFault};
use crate::reader::LineReader;
use crate::taking::take_order;
use std::alloc::Global;
use tdb_disk::{Disk, Sink, Source};
use tdb_log::Logs;
use tdb_world::World;

/// Does what the next line asks for. Answers how the session ends, where it does.
fn serve_next<D: Disk, I: Source, K: Sink, L: Logs>(
    alloc: Global,
    world: &mut World<D>,
    reader: &mut LineReader,
    input: &mut I,
    output: &mut K,
    logs: &mut L,
) -> Result<Option<SessionEnd>, SessionFault>
    requires unspent { world.old.spent ≡ false }
    ensures next { ServedNext D.tells I.tells K.tells (scene world.old (K.written output.old) (L.logs logs.old))
        (scene world.new (K.written output.new) (L.logs logs.new))
        reader.old.at (lines_left reader.old (I.left input.old)) reader.new.at (lines_left reader.new (I.left input.new)) result }
    ensures input_cause { HasCauseOf FaultIs.Input (I.faults input.old) (I.faults input.new) result }
    ensures cause { HasCauseOf FaultIs.Output (K.faults output.old) (K.faults output.new) result }
{
    match next_asked(alloc, reader, input)? {
        Asked::Nothing => Ok(None),
        Asked::End(end) => Ok(Some(end)),
        Asked::Order(order) => {
            take_order(alloc, world, order, output, logs)?;
            Ok(None)
        }
    }
}

/// Does what the lines of the input order, up to the end of the session, and prints each reply when it is made.
pub(crate) fn serve<D: Disk, I: Source, K: Sink, L: Logs>(
    alloc: Global,
    world: &mut World<D>,
    input: &mut I,
    output: &mut K,
    logs: &mut L,
) -> Result<SessionEnd, SessionFault>
    requires unspent { world.old.spent ≡ false }
    ensures served { Served D.tells I.tells K.tells (scene world.old (K.written output.old) (L.logs logs.old))
        (scene world.new (K.written output.new) (L.logs logs.new)) (I.left input.old) result }
    ensures input_cause { HasCauseOf FaultIs.Input (I.faults input.old) (I.faults input.new) result }
    ensures cause { HasCauseOf FaultIs.Output (K.faults output.old) (K.faults output.new) result }
{
    let mut reader = LineReader::new(alloc)?;
    loop {
        if let Some(end) = serve_next(alloc, world, &mut reader, input, output, logs)? {
            return Ok(end);
        }
    }
}

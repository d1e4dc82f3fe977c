// What the next line of a session asks for.

ghost use Rattle.std.specs.Prelude.{◌≡◌, ◌⊎◌, IfOk, IfErr};
ghost use Rattle.tdb_disk.specs.Count.{HasCauseOf};
ghost use Rattle.tdb_tool.specs.declared.fault.SessionFault.TheVariants as FaultIs;
ghost use Rattle.tdb_tool.specs.Asking.{Fits};
ghost use Rattle.tdb_tool.specs.Asked.{LineIs, NextIs};
ghost use Rattle.tdb_tool.specs.Lines.{NeedsNoMore, lines_left};

use crate::fault::{SessionEnd, SessionFault};
use crate::lines::LineFault;
use crate::order::{Order, read_order};
use crate::reader::LineReader;
use std::alloc::{AllocError, Global};
use tdb_disk::Source;
use tdb_script::first_word;

/// What a line asks for.
#[derive(Drop)]
pub(crate) enum Asked {
    /// Nothing: it has no words.
    Nothing,
    /// What it orders, which isn't to quit.
    Order(Order),
    /// The end of the session.
    End(SessionEnd),
}

/// What a line asks for that begins at this place.
fn asked_by(alloc: Global, line: &[u8], at: u64) -> Result<Asked, AllocError>
    requires fits { Fits at line.now }
    ensures { IfOk result (λ asked. LineIs at line.now asked) }
{
    if first_word(line).is_none() {
        return Ok(Asked::Nothing);
    }
    Ok(match read_order(alloc, line)? {
        Some(Order::Quit) => Asked::End(SessionEnd::Ended),
        Some(order) => Asked::Order(order),
        None => Asked::End(SessionEnd::Malformed { at }),
    })
}

/// Reads the next line, and tells what it asks for. Nothing is read while a whole line is at hand.
pub(crate) fn next_asked<S: Source>(
    alloc: Global,
    reader: &mut LineReader,
    input: &mut S,
) -> Result<Asked, SessionFault>
    ensures is { IfOk result (λ asked. NextIs S.tells reader.old.at (lines_left reader.old (S.left input.old)) asked reader.new.at (lines_left reader.new (S.left input.new))) }
    ensures no_sooner { NeedsNoMore reader.old → input.new ≡ input.old }
    ensures fault { IfErr result (λ e. (e ≡ FaultIs.Input) ⊎ (e ≡ FaultIs.Memory)) }
    ensures cause { HasCauseOf FaultIs.Input (S.faults input.old) (S.faults input.new) result }
{
    let at = reader.at;
    match reader.next_line(input) {
        Ok(Some(line)) => Ok(asked_by(alloc, line.as_slice(), at)?),
        Ok(None) => Ok(Asked::End(SessionEnd::Ended)),
        Err(LineFault::TooLong) => Ok(Asked::End(SessionEnd::Malformed { at })),
        Err(LineFault::Input) => Err(SessionFault::Input),
        Err(LineFault::Memory) => Err(SessionFault::Memory),
    }
}

// How a command ended, by the report of its play.

ghost use Rattle.std.specs.Prelude.{◌≡◌};
ghost use Rattle.tdb_merge.specs.Endings.{ending_of, line_ending, reply_ending};

use crate::fault::MergeFault;
use tdb_commands::{Line, TurnReport};
use tdb_locks::{Reply, Turn};

/// How a command ended that replied this: it is done, or there was no room or no memory. No other reply comes of the
/// commands of a merge.
fn reply_ending(reply: &Reply) -> Result<(), MergeFault>
    ensures { result ≡ reply_ending reply.now }
{
    match reply {
        Reply::Ok => Ok(()),
        Reply::Full { len, need } => Err(MergeFault::Full {
            len: *len,
            need: *need,
        }),
        Reply::Memory => Err(MergeFault::Starved),
        _ => Err(MergeFault::Memory),
    }
}

/// How a command ended, where this line tells it.
fn line_ending(line: &Line) -> Option<Result<(), MergeFault>>
    ensures { result ≡ line_ending line.now }
{
    match line {
        Line::Took {
            turn: Turn::Done(reply),
            ..
        } => Some(reply_ending(reply)),
        _ => None,
    }
}

/// How the command of a report ended, by the first line that tells it; `Memory` where none does.
pub(crate) fn ending_of(report: &TurnReport) -> Result<(), MergeFault>
    ensures { result ≡ ending_of report.now.lines }
{
    for i in 0..report.len() {
        let Some(line) = report.get(i) else {
            unreachable!();
        };
        if let Some(ending) = line_ending(line) {
            return ending;
        }
    }
    Err(MergeFault::Memory)
}

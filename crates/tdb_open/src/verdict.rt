// What the last log is told of the answer of an opening.

ghost use Rattle.std.specs.Prelude.{OnOk, IfErr};
ghost use Rattle.tdb_log.specs.Logs.{ToldAll, ToldUpTo};
ghost use Rattle.tdb_open.specs.Notices.{verdict};

use crate::halt::{Halt, Refusal};
use crate::opening::Opened;
use tdb_log::{LogRefusal, Logs, Notice};

/// Tells the last log what an opening found: what the check counted of a file that is opened, or the fault for which a
/// file is refused, where that has a place. Of another answer there is nothing to tell.
pub(crate) fn tell_verdict<L: Logs>(
    logs: &mut L,
    answer: &Result<Opened, Halt>,
) -> Result<(), LogRefusal>
    ensures told { OnOk result (ToldAll (verdict answer.now) (L.logs logs.old) (L.logs logs.new)) }
    ensures refused { IfErr result (λ refusal. ToldUpTo refusal (verdict answer.now) (L.logs logs.old) (L.logs logs.new)) }
{
    match *answer {
        Ok(opened) => logs.note(&Notice::Checked {
            live: opened.report.live,
            dead_bytes: opened.report.dead_bytes,
        }),
        Err(
            Halt::Refused {
                refusal: Refusal::Corrupt { what, at },
            },
        ) => logs.note(&Notice::Refused { what, at }),
        Err(_) => Ok(()),
    }
}

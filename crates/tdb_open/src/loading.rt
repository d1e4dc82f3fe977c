// The file on a disk is opened as those want it who use it: to be changed or to be read alone, and not longer than they
// let it be.

ghost use Rattle.std.specs.Prelude.{◌≡◌, ◌≤◌, length, IsTrue, IfOk};
ghost use Rattle.tdb_disk.specs.Count.{HasCauseOf};
ghost use Rattle.tdb_disk.specs.History.{seen};
ghost use Rattle.tdb_open.specs.declared.halt.Halt.TheVariants.{Device};
ghost use Rattle.tdb_open.specs.Opening.{IsCheckedOn, OpensSafely};
ghost use Rattle.tdb_open.specs.Loading.{OpenedToTurn, OpeningHeardBy, TurnOpeningHeard};

use crate::halt::{Halt, Refusal};
use crate::opening::Opened;
use std::alloc::Global;
use tdb_commands::Options;
use tdb_disk::Disk;
use tdb_log::Logs;

/// Opens the file on a disk, which isn't too long, to read it alone or not. The last log is told what the opening
/// finds.
fn open_as_asked<D: Disk, L: Logs>(
    alloc: Global,
    options: &Options,
    disk: &mut D,
    logs: &mut L,
) -> Result<Opened, Halt>
    ensures opened { IsTrue D.tells → length (seen (D.history disk.old)) ≤ options.now.limit → OpenedToTurn options.now (D.history disk.old) (D.history disk.new) result }
    ensures checked { IfOk result (λ o. IsTrue D.tells → IsCheckedOn (seen (D.history disk.new)) o) }
    ensures heard { IsTrue D.tells → length (seen (D.history disk.old)) ≤ options.now.limit → OpeningHeardBy options.now.read_only (seen (D.history disk.old)) (L.logs logs.old) (L.logs logs.new) result }
    ensures length { IfOk result (λ o. o.len ≡ D.size disk.new) }
    ensures stops { IsTrue D.tells → OpensSafely (D.history disk.old) (D.history disk.new) }
    ensures cause { HasCauseOf Device (D.faults disk.old) (D.faults disk.new) result }
{
    if options.read_only {
        return Opened::open_to_read(alloc, disk, logs);
    }
    Opened::open(alloc, disk, logs)
}

/// Opens the file on a disk for openers with these options. Where it is to be read alone, or nothing has to be undone,
/// it changes nothing. What an undo gives is no longer than the file was, so that is tested for a file that doesn't
/// tell what it holds. The last log is told what the opening finds, but nothing of a file that is too long.
///
/// `Refused` where the file isn't opened: it is longer than the limit or than `LONGEST_FILE`, it has a fault, or it is
/// to be read alone and would have to be undone first; `Device` where a call of the disk failed; `Log` where a log
/// failed; `Memory` where that was wanting for the check or for a log.
///
/// Cost: one pass over the file, and the memory of the check and of the log.
pub fn open_to_turn<D: Disk, L: Logs>(
    alloc: Global,
    options: &Options,
    disk: &mut D,
    logs: &mut L,
) -> Result<Opened, Halt>
    ensures opened { IsTrue D.tells → OpenedToTurn options.now (D.history disk.old) (D.history disk.new) result }
    ensures checked { IfOk result (λ o. IsTrue D.tells → IsCheckedOn (seen (D.history disk.new)) o) }
    ensures heard { IsTrue D.tells → TurnOpeningHeard options.now (seen (D.history disk.old)) (L.logs logs.old) (L.logs logs.new) result }
    ensures length { IfOk result (λ o. o.len ≡ D.size disk.new) }
    ensures stops { IsTrue D.tells → OpensSafely (D.history disk.old) (D.history disk.new) }
    ensures short { IfOk result (λ o. o.len ≤ options.now.limit) }
    ensures cause { HasCauseOf Device (D.faults disk.old) (D.faults disk.new) result }
{
    let len = disk.len()?;
    if len > options.limit {
        return Err(Halt::Refused {
            refusal: Refusal::TooLong { len },
        });
    }
    let opened = open_as_asked(alloc, options, disk, logs)?;
    if opened.len > options.limit {
        return Err(Halt::Refused {
            refusal: Refusal::TooLong { len: opened.len },
        });
    }
    Ok(opened)
}

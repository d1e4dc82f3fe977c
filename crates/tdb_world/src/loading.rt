// A world over the file on a disk: the file is opened as its openers want it, and a world is made over what it holds.

ghost use Rattle.std.specs.Prelude.{◌≡◌, ◌≤◌, [], None, length, false, IsTrue, IfOk};
ghost use Rattle.tdb_disk.specs.Count.{HasCauseOf};
ghost use Rattle.tdb_disk.specs.History.{seen};
ghost use Rattle.tdb_space.specs.Accepted.{AcceptWith};
ghost use Rattle.tdb_space.specs.Form.{form_of};
ghost use Rattle.tdb_law.specs.World.{State};
ghost use Rattle.tdb_open.specs.declared.halt.Halt.TheVariants.{Device};
ghost use Rattle.tdb_open.specs.Opening.{IsCheckedOn, OpensSafely};
ghost use Rattle.tdb_open.specs.Loading.{OpenedToTurn, TurnOpeningHeard, opened_of};
ghost use Rattle.tdb_world.specs.Whole.{form_at, WorldFits};
ghost use Rattle.tdb_world.specs.Loaded.{IsJustLoaded};

use crate::all_openers::AllOpeners;
use std::alloc::Global;
use tdb_commands::Options;
use tdb_disk::Disk;
use tdb_log::Logs;
use tdb_open::{Halt, Opened, open_to_turn};

/// Opens the file on a disk for openers with these options, and makes a world over it in which nobody has joined. It
/// tests the length against the options' limit, undoes an unfinished change where the file isn't to be read alone, and
/// checks the whole file. The last log is told what the opening finds, but nothing of a file that is too long.
///
/// `Refused` where the file isn't opened: it is longer than the limit or than `LONGEST_FILE`, it has a fault, or it is
/// to be read alone and would have to be undone first; `Device` where a call of the disk failed; `Log` where a log
/// failed; `Memory` where that was wanting for the check or for a log.
///
/// Cost: one pass over the file. The memory that it takes is that of the check and of the log; the world takes none.
pub(crate) fn load<D: Disk, L: Logs>(
    alloc: Global,
    disk: &mut D,
    options: &Options,
    logs: &mut L,
) -> Result<(AllOpeners, Opened), Halt>
    requires limit { options.now.limit ≤ 4294963200 }
    ensures opened { IsTrue D.tells → OpenedToTurn options.now (D.history disk.old) (D.history disk.new) (opened_of result) }
    ensures checked { IfOk result (λ x. IsTrue D.tells → IsCheckedOn (seen (D.history disk.new)) x.1) }
    ensures heard { IsTrue D.tells → TurnOpeningHeard options.now (seen (D.history disk.old)) (L.logs logs.old) (L.logs logs.new) (opened_of result) }
    ensures length { IfOk result (λ x. x.1.len ≡ D.size disk.new) }
    ensures stops { IsTrue D.tells → OpensSafely (D.history disk.old) (D.history disk.new) }
    ensures short { IfOk result (λ x. x.1.len ≤ options.now.limit) }
    ensures cause { HasCauseOf Device (D.faults disk.old) (D.faults disk.new) result }
    ensures header { IfOk result (λ x. x.0.openers.header ≡ x.1.header) }
    ensures options { IfOk result (λ x. x.0.openers.options ≡ options.now) }
    ensures form { IfOk result (λ x. IsTrue D.tells → form_at x.0 ≡ form_of (seen (D.history disk.new))) }
    ensures accepted { IfOk result (λ x. IsTrue D.tells → AcceptWith (form_at x.0) (seen (D.history disk.new)) []) }
    ensures nobody { IfOk result (λ x. x.0.openers.openers ≡ []) }
    ensures aside { IfOk result (λ x. x.0.aside ≡ None) }
    ensures fresh { IfOk result (λ x. x.0.stale ≡ false) }
    ensures fits { IfOk result (λ x. WorldFits x.0 (seen (D.history disk.new)) (D.size disk.new)) }
    ensures state { IfOk result (λ x. IsTrue D.tells → (state : State) × IsJustLoaded x.0 (D.history disk.new) state) }
{
    let opened = open_to_turn(alloc, options, disk, logs)?;
    let world = AllOpeners::new(alloc, &opened.header, options);
    Ok((world, opened))
}

// The command that takes all keys out of a file.

ghost use Rattle.std.specs.Prelude.{◌^◌, ◌<◌, ℕ, length, IsTrue, OnOk, OnErr};
ghost use Rattle.tdb_disk.specs.Count.{HasCause, HasCauseOf};
ghost use Rattle.tdb_disk.specs.History.{seen};
ghost use Rattle.tdb_space.specs.Form.{form_of};
ghost use Rattle.tdb_steps.specs.Wiped.{Wiped};
ghost use Rattle.tdb_cmdline.specs.declared.act.Verb.TheVariants.{Erase};
ghost use Rattle.tdb_open.specs.declared.halt.Fault.TheVariants.{Device};
ghost use Rattle.tdb_answer.specs.Acts.{Acted};
ghost use Rattle.tdb_answer.specs.Commands.Erase.{EraseBroken};
ghost use Rattle.tdb_open.specs.Opening.{IsCheckedOn};

use crate::ending::Reply;
use tdb_disk::Disk;
use tdb_open::{Fault, Opened};
use tdb_space::{Direct, Io};

/// Takes all keys out of an opened file.
fn wipe<D: Disk>(disk: &mut D, opened: &Opened) -> Result<(), Io>
    requires within { IsTrue D.tells → length (seen (D.history disk.old)) < 2 ^ 32 }
    requires opened { IsTrue D.tells → IsCheckedOn (seen (D.history disk.old)) opened.now }
    ensures wiped { OnOk result (IsTrue D.tells → Wiped (form_of (seen (D.history disk.old))) (seen (D.history disk.old)) (seen (D.history disk.new))) }
    ensures broken { OnErr result (IsTrue D.tells → EraseBroken (D.history disk.old) (D.history disk.new)) }
    ensures cause { HasCause (D.faults disk.old) (D.faults disk.new) result }
{
    let mut space = Direct::new(disk, &opened.header);
    tdb_steps::wipe(&mut space)
}

/// Takes all keys out of an opened file, and brings that to the medium.
pub(crate) fn erase<D: Disk>(disk: &mut D, opened: &Opened) -> Result<Reply, Fault>
    requires within { IsTrue D.tells → length (seen (D.history disk.old)) < 2 ^ 32 }
    requires opened { IsTrue D.tells → IsCheckedOn (seen (D.history disk.old)) opened.now }
    ensures acted { (limit : ℕ) → IsTrue D.tells → Acted limit Erase (D.history disk.old) (D.history disk.new) result }
    ensures cause { HasCauseOf Device (D.faults disk.old) (D.faults disk.new) result }
{
    wipe(disk, opened)?;
    disk.sync()?;
    Ok(Reply::Done)
}

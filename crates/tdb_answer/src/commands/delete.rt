// The command that deletes a key.

ghost use Rattle.std.specs.Prelude.{◌≡◌, ◌^◌, ◌<◌, false, ℕ, length, IsTrue, IfOk, OnErr};
ghost use Rattle.tdb_disk.specs.Count.{HasCause, HasCauseOf};
ghost use Rattle.tdb_disk.specs.History.{seen};
ghost use Rattle.tdb_space.specs.Form.{form_of};
ghost use Rattle.tdb_edit.specs.Edited.{Deleted};
ghost use Rattle.tdb_cmdline.specs.declared.act.Verb.TheVariants.{Delete};
ghost use Rattle.tdb_open.specs.declared.halt.Fault.TheVariants.{Device};
ghost use Rattle.tdb_answer.specs.Acts.{Acted};
ghost use Rattle.tdb_answer.specs.Commands.Delete.{DeleteBroken};
ghost use Rattle.tdb_open.specs.Opening.{IsCheckedOn};

use crate::ending::Reply;
use tdb_disk::Disk;
use tdb_open::{Fault, Opened};
use tdb_space::{Direct, Io};

/// Takes a key out of an opened file, and says whether it was there.
fn take_out<D: Disk>(disk: &mut D, opened: &Opened, key: &[u8]) -> Result<bool, Io>
    requires short { length key.now < 2 ^ 32 }
    requires within { IsTrue D.tells → length (seen (D.history disk.old)) < 2 ^ 32 }
    requires opened { IsTrue D.tells → IsCheckedOn (seen (D.history disk.old)) opened.now }
    ensures deleted { IfOk result (λ there. IsTrue D.tells → Deleted (form_of (seen (D.history disk.old))) (seen (D.history disk.old)) (seen (D.history disk.new)) key.now there) }
    ensures absent { IfOk result (λ there. there ≡ false → D.history disk.new ≡ D.history disk.old) }
    ensures broken { OnErr result (IsTrue D.tells → DeleteBroken key.now (D.history disk.old) (D.history disk.new)) }
    ensures cause { HasCause (D.faults disk.old) (D.faults disk.new) result }
{
    let mut space = Direct::new(disk, &opened.header);
    tdb_edit::delete(&mut space, key)
}

/// Deletes a key from an opened file, and brings that to the medium.
pub(crate) fn delete<D: Disk>(disk: &mut D, opened: &Opened, key: &[u8]) -> Result<Reply, Fault>
    requires short { length key.now < 2 ^ 32 }
    requires within { IsTrue D.tells → length (seen (D.history disk.old)) < 2 ^ 32 }
    requires opened { IsTrue D.tells → IsCheckedOn (seen (D.history disk.old)) opened.now }
    ensures acted { (limit : ℕ) → IsTrue D.tells → Acted limit (Delete key.now) (D.history disk.old) (D.history disk.new) result }
    ensures cause { HasCauseOf Device (D.faults disk.old) (D.faults disk.new) result }
{
    if !take_out(disk, opened, key)? {
        return Ok(Reply::KeyMissing);
    }
    disk.sync()?;
    Ok(Reply::Done)
}

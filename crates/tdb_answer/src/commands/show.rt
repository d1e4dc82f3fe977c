// The command that shows the value of a key.

ghost use Rattle.std.specs.Prelude.{◌≡◌, ◌≢◌, ◌^◌, ◌<◌, ℕ, length, IsTrue, IfOk, IfErr};
ghost use Rattle.tdb_disk.specs.Count.{HasCauseOf};
ghost use Rattle.tdb_disk.specs.History.{seen};
ghost use Rattle.tdb_space.specs.Form.{form_of};
ghost use Rattle.tdb_space.specs.Pairs.{map_of};
ghost use Rattle.tdb_cmdline.specs.declared.act.Verb.TheVariants.{Show};
ghost use Rattle.tdb_open.specs.declared.halt.Fault.TheVariants.{Device, Log};
ghost use Rattle.tdb_answer.specs.Acts.{Acted};
ghost use Rattle.tdb_open.specs.Opening.{IsCheckedOn};

use crate::ending::Reply;
use std::alloc::Global;
use tdb_chain::{find, value};
use tdb_disk::Disk;
use tdb_open::{Fault, Opened};
use tdb_space::Direct;
use tdb_words::Bytes;

/// Looks up the value that an opened file holds for a key, if any. The memory that it takes is that of the value.
pub(crate) fn look_up<D: Disk>(
    alloc: Global,
    disk: &mut D,
    opened: &Opened,
    key: &[u8],
) -> Result<Option<Bytes>, Fault>
    requires short { length key.now < 2 ^ 32 }
    requires opened { IsTrue D.tells → IsCheckedOn (seen (D.history disk.old)) opened.now }
    ensures found { IfOk result (λ found. IsTrue D.tells → map_of (form_of (seen (D.history disk.old))) (seen (D.history disk.old)) key.now ≡ found) }
    ensures history { D.history disk.new ≡ D.history disk.old }
    ensures unlogged { IfErr result (λ fault. fault ≢ Log) }
    ensures cause { HasCauseOf Device (D.faults disk.old) (D.faults disk.new) result }
{
    let mut space = Direct::new(disk, &opened.header);
    match find(&mut space, key)? {
        Some(place) => Ok(Some(value(alloc, &mut space, &place)?)),
        None => Ok(None),
    }
}

/// Replies the value that an opened file holds for a key.
pub(crate) fn show<D: Disk>(
    alloc: Global,
    disk: &mut D,
    opened: &Opened,
    key: &[u8],
) -> Result<Reply, Fault>
    requires short { length key.now < 2 ^ 32 }
    requires opened { IsTrue D.tells → IsCheckedOn (seen (D.history disk.old)) opened.now }
    ensures acted { (limit : ℕ) → IsTrue D.tells → Acted limit (Show key.now) (D.history disk.old) (D.history disk.new) result }
    ensures cause { HasCauseOf Device (D.faults disk.old) (D.faults disk.new) result }
{
    match look_up(alloc, disk, opened, key)? {
        Some(value) => Ok(Reply::Value(value)),
        None => Ok(Reply::KeyMissing),
    }
}

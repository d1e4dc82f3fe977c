// The commands that show the first pair of a file, and the one behind it.

ghost use Rattle.std.specs.Prelude.{◌≡◌, ◌≢◌, ℕ, IsTrue, IfOk, IfErr};
ghost use Rattle.tdb_disk.specs.Count.{HasCauseOf};
ghost use Rattle.tdb_disk.specs.History.{seen};
ghost use Rattle.tdb_space.specs.Form.{form_of};
ghost use Rattle.tdb_space.specs.Pairs.{order_of};
ghost use Rattle.tdb_cmdline.specs.declared.act.Verb.TheVariants.{First};
ghost use Rattle.tdb_answer.specs.declared.ending.Reply.TheVariants.{End};
ghost use Rattle.tdb_open.specs.declared.halt.Fault.TheVariants.{Device, Log};
ghost use Rattle.tdb_answer.specs.Acts.{Acted};
ghost use Rattle.tdb_answer.specs.Commands.First.{first_pair_of};
ghost use Rattle.tdb_open.specs.Opening.{IsCheckedOn};

use crate::ending::Reply;
use std::alloc::Global;
use tdb_backup::Traversal;
use tdb_disk::Disk;
use tdb_open::{Fault, Opened};
use tdb_space::Direct;
use tdb_words::Bytes;

/// Reads the first pair of an opened file in the order of its chains, if it has one. It reads the heads of the chains
/// up to the first that has a pair, and takes the memory of that pair.
fn first_pair<D: Disk>(
    alloc: Global,
    disk: &mut D,
    opened: &Opened,
) -> Result<Option<(Bytes, Bytes)>, Fault>
    requires opened { IsTrue D.tells → IsCheckedOn (seen (D.history disk.old)) opened.now }
    ensures found { IfOk result (λ pair. IsTrue D.tells → first_pair_of (order_of (form_of (seen (D.history disk.old))) (seen (D.history disk.old))) ≡ pair) }
    ensures history { D.history disk.new ≡ D.history disk.old }
    ensures unlogged { IfErr result (λ fault. fault ≢ Log) }
    ensures cause { HasCauseOf Device (D.faults disk.old) (D.faults disk.new) result }
{
    let mut space = Direct::new(disk, &opened.header);
    let mut traversal = Traversal::new(alloc);
    if !traversal.advance(&mut space)? {
        return Ok(None);
    }
    let key = Bytes::copy(alloc, traversal.key())?;
    let value = Bytes::copy(alloc, traversal.value())?;
    Ok(Some((key, value)))
}

/// Replies the first pair of an opened file, or that it has none.
pub(crate) fn first<D: Disk>(alloc: Global, disk: &mut D, opened: &Opened) -> Result<Reply, Fault>
    requires opened { IsTrue D.tells → IsCheckedOn (seen (D.history disk.old)) opened.now }
    ensures acted { (limit : ℕ) → IsTrue D.tells → Acted limit First (D.history disk.old) (D.history disk.new) result }
    ensures cause { HasCauseOf Device (D.faults disk.old) (D.faults disk.new) result }
{
    match first_pair(alloc, disk, opened)? {
        Some((key, value)) => Ok(Reply::Pair { key, value }),
        None => Ok(Reply::End),
    }
}

/// Replies that there is no pair behind the one that was shown last, since a command alone has shown none.
pub(crate) fn next() -> Reply
    ensures { result ≡ End }
{
    Reply::End
}

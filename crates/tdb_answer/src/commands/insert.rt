// The command that adds a key with a value, where the key isn't there.

ghost use Rattle.std.specs.Prelude.{◌≡◌, ◌+◌, ◌^◌, ◌<◌, ◌≤◌, [], None, length, IsTrue, IsSome, IfOk, MatchBool};
ghost use Rattle.tdb_disk.specs.Count.{HasCause, HasCauseOf};
ghost use Rattle.tdb_disk.specs.History.{seen};
ghost use Rattle.tdb_space.specs.Form.{form_in};
ghost use Rattle.tdb_space.specs.Pairs.{map_of};
ghost use Rattle.tdb_space.specs.Accepted.{AcceptWith};
ghost use Rattle.tdb_cmdline.specs.declared.act.Verb.TheVariants.{Insert};
ghost use Rattle.tdb_open.specs.declared.halt.Fault.TheVariants.{Device};
ghost use Rattle.tdb_answer.specs.Acts.{Acted};
ghost use Rattle.tdb_open.specs.Opening.{IsCheckedOn};

use crate::commands::store::store;
use crate::ending::Reply;
use std::alloc::Global;
use tdb_chain::find;
use tdb_disk::Disk;
use tdb_open::{Fault, Opened};
use tdb_space::{Direct, Io};
use tdb_words::Header;

/// Whether an opened file, which has this header, has a key.
fn has_key<D: Disk>(disk: &mut D, header: &Header, key: &[u8]) -> Result<bool, Io>
    requires short { length key.now < 2 ^ 32 }
    requires chains { 0 < header.now.hash_size }
    ensures told { IfOk result (λ yes. IsTrue D.tells → AcceptWith (form_in header.now) (seen (D.history disk.old)) []
        → MatchBool yes (IsSome (map_of (form_in header.now) (seen (D.history disk.old)) key.now)) (map_of (form_in header.now) (seen (D.history disk.old)) key.now ≡ None)) }
    ensures size { D.size disk.new ≡ D.size disk.old }
    ensures history { D.history disk.new ≡ D.history disk.old }
    ensures cause { HasCause (D.faults disk.old) (D.faults disk.new) result }
{
    let mut space = Direct::new(disk, header);
    Ok(find(&mut space, key)?.is_some())
}

/// Stores a value for a key in an opened file, which may have so many bytes, unless the key is there, and brings that
/// to the medium.
pub(crate) fn insert<D: Disk>(
    alloc: Global,
    disk: &mut D,
    opened: &Opened,
    key: &[u8],
    value: &[u8],
    limit: u64,
) -> Result<Reply, Fault>
    requires short { length key.now + length value.now < 2 ^ 32 }
    requires limit { limit ≤ 4294963200 }
    requires within { IsTrue D.tells → length (seen (D.history disk.old)) < 2 ^ 32 }
    requires opened { IsTrue D.tells → IsCheckedOn (seen (D.history disk.old)) opened.now }
    ensures acted { IsTrue D.tells → Acted limit (Insert key.now value.now) (D.history disk.old) (D.history disk.new) result }
    ensures cause { HasCauseOf Device (D.faults disk.old) (D.faults disk.new) result }
{
    if has_key(disk, &opened.header, key)? {
        return Ok(Reply::KeyThere);
    }
    store(alloc, disk, opened, key, value, limit)
}

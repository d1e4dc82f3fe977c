// The command that stores a value for a key.

ghost use Rattle.std.specs.Prelude.{◌≡◌, ◌≢◌, ◌+◌, ◌^◌, ◌<◌, ◌≤◌, Some, true, length, IsTrue, IfErr, OnOk, OnErr};
ghost use Rattle.tdb_disk.specs.Count.{HasCauseOf};
ghost use Rattle.tdb_disk.specs.History.{seen};
ghost use Rattle.tdb_space.specs.Form.{form_of};
ghost use Rattle.tdb_space.specs.NewRecord.{rec_len_for};
ghost use Rattle.tdb_edit.specs.Edited.{KeyChanged};
ghost use Rattle.tdb_edit.specs.Stored.{has_room, FullRightly};
ghost use Rattle.tdb_edit.specs.declared.refusal.StoreRefusal.TheVariants.{Io as IoIs};
ghost use Rattle.tdb_cmdline.specs.declared.act.Verb.TheVariants.{Store};
ghost use Rattle.tdb_open.specs.declared.halt.Fault.TheVariants.{Device};
ghost use Rattle.tdb_answer.specs.Acts.{Acted};
ghost use Rattle.tdb_answer.specs.Commands.Store.{need_for, GrewFor, StoreBroken};
ghost use Rattle.tdb_open.specs.Opening.{IsCheckedOn};

use crate::ending::Reply;
use std::alloc::Global;
use tdb_disk::Disk;
use tdb_edit::StoreRefusal;
use tdb_open::{Fault, Opened};
use tdb_space::Direct;

/// Puts a value into an opened file, which may have so many bytes.
fn put<D: Disk>(
    alloc: Global,
    disk: &mut D,
    opened: &Opened,
    key: &[u8],
    value: &[u8],
    limit: u64,
) -> Result<(), StoreRefusal>
    requires short { length key.now + length value.now < 2 ^ 32 }
    requires limit { limit ≤ 4294963200 }
    requires within { IsTrue D.tells → length (seen (D.history disk.old)) < 2 ^ 32 }
    requires opened { IsTrue D.tells → IsCheckedOn (seen (D.history disk.old)) opened.now }
    ensures stored { OnOk result (IsTrue D.tells → KeyChanged (form_of (seen (D.history disk.old))) (seen (D.history disk.old)) (seen (D.history disk.new)) key.now (Some value.now)) }
    ensures grown { OnOk result (IsTrue D.tells → GrewFor limit (need_for key.now value.now) (seen (D.history disk.old)) (seen (D.history disk.new))) }
    ensures room { OnOk result (IsTrue D.tells → has_room (form_of (seen (D.history disk.old))) (seen (D.history disk.old)) (rec_len_for (length key.now) (length value.now)) limit ≡ true) }
    ensures full { IfErr result (λ e. IsTrue D.tells → FullRightly (form_of (seen (D.history disk.old))) (seen (D.history disk.old)) (rec_len_for (length key.now) (length value.now)) limit e) }
    ensures kept { IfErr result (λ e. IsTrue D.tells → e ≢ IoIs → D.history disk.new ≡ D.history disk.old) }
    ensures broken { OnErr result (IsTrue D.tells → StoreBroken key.now (D.history disk.old) (D.history disk.new)) }
    ensures cause { HasCauseOf IoIs (D.faults disk.old) (D.faults disk.new) result }
{
    let mut space = Direct::new(disk, &opened.header);
    tdb_edit::store(alloc, &mut space, key, value, limit)
}

/// Stores a value for a key in an opened file, which may have so many bytes, and brings that to the medium.
pub(crate) fn store<D: Disk>(
    alloc: Global,
    disk: &mut D,
    opened: &Opened,
    key: &[u8],
    value: &[u8],
    limit: u64,
) -> Result<Reply, Fault>
    requires short { length key.now + length value.now < 2 ^ 32 }
    requires limit { limit ≤ 4294963200 }
    requires within { IsTrue D.tells → length (seen (D.history disk.old)) < 2 ^ 32 }
    requires opened { IsTrue D.tells → IsCheckedOn (seen (D.history disk.old)) opened.now }
    ensures acted { IsTrue D.tells → Acted limit (Store key.now value.now) (D.history disk.old) (D.history disk.new) result }
    ensures cause { HasCauseOf Device (D.faults disk.old) (D.faults disk.new) result }
{
    match put(alloc, disk, opened, key, value, limit) {
        Ok(()) => {
            disk.sync()?;
            Ok(Reply::Done)
        }
        Err(StoreRefusal::Full { len, need }) => Ok(Reply::Full { len, need }),
        Err(StoreRefusal::Io) => Err(Fault::Device),
        Err(StoreRefusal::Memory) => Err(Fault::Memory),
    }
}

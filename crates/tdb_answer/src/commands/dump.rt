// The command that prints the value of one key alone.

ghost use Rattle.std.specs.Prelude.{◌≡◌, ◌≢◌, ◌^◌, ◌<◌, false, length, IsTrue};
ghost use Rattle.tdb_disk.specs.History.{seen};
ghost use Rattle.tdb_answer.specs.declared.ending.Ending.TheVariants.{Usage, LogFault};
ghost use Rattle.tdb_cmdline.specs.declared.look.Look.TheVariants.{Value};
ghost use Rattle.tdb_answer.specs.Commands.Restore.{of_input};
ghost use Rattle.tdb_answer.specs.Ending.{CountedBy};
ghost use Rattle.tdb_answer.specs.Looks.{LookEnds};
ghost use Rattle.tdb_open.specs.Opening.{CanRead, IsCheckedOn};

use crate::commands::show::look_up;
use crate::ending::{Ending, Reply};
use std::alloc::Global;
use tdb_disk::Disk;
use tdb_open::{Fault, Opened};

/// Replies the value that an opened file holds for a key, which is printed alone.
pub(crate) fn value<D: Disk>(alloc: Global, disk: &mut D, opened: &Opened, key: &[u8]) -> Ending
    requires short { length key.now < 2 ^ 32 }
    requires can_read { IsTrue D.tells → CanRead (seen (D.history disk.old)) }
    requires opened { IsTrue D.tells → IsCheckedOn (seen (D.history disk.old)) opened.now }
    ensures ends { IsTrue D.tells → LookEnds (Value key.now) (seen (D.history disk.old)) result }
    ensures history { D.history disk.new ≡ D.history disk.old }
    ensures counted { CountedBy (D.faults disk.old) (D.faults disk.new) result }
    ensures asked { result ≡ Usage → ⊥ }
    ensures unread { of_input result ≡ false }
    ensures unlogged { result ≢ LogFault }
{
    match look_up(alloc, disk, opened, key) {
        Ok(Some(value)) => Ending::Replied(Reply::Escaped(value)),
        Ok(None) => Ending::Replied(Reply::KeyMissing),
        Err(Fault::Device) => Ending::DeviceFault,
        Err(Fault::Memory) => Ending::NoMemory,
        Err(Fault::Log) => unreachable!(),
    }
}

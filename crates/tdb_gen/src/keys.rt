// How many keys and bytes a file has.

ghost use Rattle.std.specs.Prelude.{◌≡◌, ◌≢◌, ◌≤◌, [], IsTrue, IfOk, IfErr, length};
ghost use Rattle.tdb_disk.specs.Count.{HasCause, HasCauseOf};
ghost use Rattle.tdb_disk.specs.History.{seen};
ghost use Rattle.tdb_space.specs.Form.{form_in};
ghost use Rattle.tdb_space.specs.Frame.{Looked};
ghost use Rattle.tdb_space.specs.Accepted.{AcceptWith};
ghost use Rattle.tdb_space.specs.Pairs.{order_of};
ghost use Rattle.tdb_gen.specs.Taking.{UnlessIo};
ghost use Rattle.tdb_gen.specs.declared.fault.GenFault.TheVariants as Faults;

use crate::fault::GenFault;
use std::alloc::Global;
use tdb_check::{CheckRefusal, check};
use tdb_disk::Disk;
use tdb_space::{Direct, Io, Space};
use tdb_words::Header;

/// How many keys the file has.
///
/// `Io` where the disk failed, and where the file has a fault, which no command leaves: so over an accepted file the
/// disk failed.
fn live_keys<S: Space>(alloc: Global, space: &mut S) -> Result<u64, GenFault>
    ensures counted { IfOk result (λ live. IsTrue S.tells → AcceptWith (S.form space.old) (S.image space.old) [] → live ≡ length (order_of (S.form space.old) (S.image space.old))) }
    ensures looked { Looked S.Space space.old space.new }
    ensures fault { IfErr result (λ e. e ≢ Faults.Log) }
    ensures cause { IsTrue S.tells → AcceptWith (S.form space.old) (S.image space.old) [] → HasCauseOf Faults.Io (S.faults space.old) (S.faults space.new) result }
    ensures rises { S.faults space.old ≤ S.faults space.new }
    ensures quiet { UnlessIo result (S.faults space.new ≡ S.faults space.old) }
{
    match check(alloc, space) {
        Ok(report) => Ok(report.live),
        Err(CheckRefusal::Memory) => Err(GenFault::Memory),
        Err(CheckRefusal::Io) => Err(GenFault::Io),
        Err(CheckRefusal::Corrupt { .. }) => Err(GenFault::Io),
    }
}

/// How many keys the file on a disk has, whose header is this; and when that isn't told, as for `live_keys`.
pub(crate) fn keys_on_disk<D: Disk>(
    alloc: Global,
    disk: &mut D,
    header: &Header,
) -> Result<u64, GenFault>
    ensures counted { IfOk result (λ live. IsTrue D.tells → let f = form_in header.now in let img = seen (D.history disk.old) in AcceptWith f img [] → live ≡ length (order_of f img)) }
    ensures history { D.history disk.new ≡ D.history disk.old }
    ensures size { D.size disk.new ≡ D.size disk.old }
    ensures fault { IfErr result (λ e. e ≢ Faults.Log) }
    ensures cause { IsTrue D.tells → AcceptWith (form_in header.now) (seen (D.history disk.old)) [] → HasCauseOf Faults.Io (D.faults disk.old) (D.faults disk.new) result }
    ensures rises { D.faults disk.old ≤ D.faults disk.new }
    ensures quiet { UnlessIo result (D.faults disk.new ≡ D.faults disk.old) }
{
    let mut space = Direct::new(disk, header);
    live_keys(alloc, &mut space)
}

/// The length of the file.
pub(crate) fn length_of<D: Disk>(disk: &mut D) -> Result<u64, Io>
    ensures length { IfOk result (λ n. n ≡ D.size disk.old) }
    ensures size { D.size disk.new ≡ D.size disk.old }
    ensures history { D.history disk.new ≡ D.history disk.old }
    ensures cause { HasCause (D.faults disk.old) (D.faults disk.new) result }
{
    let length = disk.len()?;
    Ok(length)
}

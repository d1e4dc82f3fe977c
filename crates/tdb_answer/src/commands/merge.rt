// The command that stores the pairs of a file into another one.

ghost use Rattle.std.specs.Prelude.{◌≡◌, ◌≢◌, ◌≤◌, ℕ, List, Some, IsTrue, false};
ghost use Rattle.tdb_disk.specs.History.{seen};
ghost use Rattle.tdb_disk.specs.Names.{SameBut};
ghost use Rattle.tdb_open.specs.Opening.{IsCheckedOn};
ghost use Rattle.tdb_answer.specs.declared.ending.Ending.TheVariants.{Usage};
ghost use Rattle.tdb_answer.specs.Commands.Merge.{CountedPair, EndsMerge, MergeInto, MergeLeaves, MergeLeft, merge_told};
ghost use Rattle.tdb_answer.specs.Commands.Restore.{of_input};
ghost use Rattle.tdb_answer.specs.Ending.{CountedIf};
ghost use Rattle.tdb_answer.specs.Heard.{MergeHeard};
ghost use Rattle.tdb_disk.specs.declared.files.Take.TheVariants as Way;

use crate::commands::session::options_within;
use crate::ending::{Ending, Reply};
use std::alloc::Global;
use tdb_disk::{Disk, Files, Take};
use tdb_log::Logs;
use tdb_merge::{MergeFault, merge};
use tdb_open::Opened;
use tdb_space::Direct;
use tdb_world::World;

/// How a run ends whose merge answered so.
fn told(answer: Result<(), MergeFault>) -> Ending
    ensures { result ≡ merge_told answer }
{
    match answer {
        Ok(()) => Ending::Replied(Reply::Done),
        Err(MergeFault::Full { len, need }) => Ending::Replied(Reply::Full { len, need }),
        Err(MergeFault::Starved | MergeFault::Memory) => Ending::NoMemory,
        Err(MergeFault::Read | MergeFault::Device) => Ending::DeviceFault,
        Err(MergeFault::Log) => Ending::LogFault,
    }
}

/// Opens the file on a disk as for a session, merges into it the pairs of an opened file on another one whose key
/// begins with `prefix`, and gives the disk back.
fn merge_on_disk<D: Disk, L: Logs>(
    alloc: Global,
    first: &mut D,
    opened: &Opened,
    disk: D,
    prefix: &[u8],
    limit: u64,
    logs: &mut L,
) -> (D, Ending)
    requires opened { IsTrue D.tells → IsCheckedOn (seen (D.history first.old)) opened.now }
    requires limit { limit ≤ 4294963200 }
    ensures left { IsTrue D.tells → MergeLeft limit prefix.now (seen (D.history first.old)) (D.history disk) (D.history result.0) result.1 }
    ensures known { EndsMerge result.1 }
    ensures kept { D.history first.new ≡ D.history first.old }
    ensures counted { CountedPair D.tells (D.faults first.old) (D.faults first.new) (D.faults disk) (D.faults result.0) result.1 }
{
    let options = options_within(limit);
    let (world, _) = match World::load(alloc, disk, &options, logs) {
        Ok(loaded) => loaded,
        Err((disk, halt)) => return (disk, Ending::from(halt)),
    };
    let mut source = Direct::new(first, &opened.header);
    let (disk, answer) = merge(alloc, &mut source, prefix, world, logs);
    (disk, told(answer))
}

/// Merges the pairs of an opened file on a disk whose key begins with `prefix` into the file of this name.
fn merge_into<F: Files, L: Logs>(
    alloc: Global,
    from: &mut F::D,
    opened: &Opened,
    into: &str,
    prefix: &[u8],
    limit: u64,
    files: &mut F,
    logs: &mut L,
) -> Ending
    requires opened { IsTrue F.D.tells → IsCheckedOn (seen (F.D.history from.old)) opened.now }
    requires limit { limit ≤ 4294963200 }
    requires free { F.is_taken files.old into.now ≡ false }
    requires take { F.may_take into.now Way.Existing }
    ensures left { IsTrue F.D.tells → MergeInto limit prefix.now (seen (F.D.history from.old)) into.now (F.held files.old into.now) (F.held files.new into.now) result }
    ensures known { EndsMerge result }
    ensures kept { F.D.history from.new ≡ F.D.history from.old }
    ensures counted { CountedPair F.D.tells (F.D.faults from.old) (F.D.faults from.new) (F.faults files.old) (F.faults files.new) result }
    ensures others { SameBut into.now (F.held files.old) (F.held files.new) }
    ensures taken { (other : List ℕ) → F.is_taken files.new other ≡ F.is_taken files.old other }
{
    match files.take(alloc, into, Take::Existing) {
        Ok(disk) => {
            let (disk, ending) = merge_on_disk(alloc, from, opened, disk, prefix, limit, logs);
            files.give(into, disk);
            ending
        }
        Err(refusal) => Ending::untaken(alloc, into, refusal),
    }
}

/// Opens the file on a disk to read it alone, unless it has more bytes than it may, and merges its pairs whose key
/// begins with `prefix` into the file of this name.
fn merge_disk<F: Files, L: Logs>(
    alloc: Global,
    from: &mut F::D,
    into: &str,
    prefix: &[u8],
    limit: u64,
    files: &mut F,
    logs: &mut L,
) -> Ending
    requires limit { limit ≤ 4294963200 }
    requires free { F.is_taken files.old into.now ≡ false }
    requires take { F.may_take into.now Way.Existing }
    ensures left { IsTrue F.D.tells → (file : List ℕ) → MergeLeaves limit prefix.now file into.now (Some (F.D.history from.old)) (F.held files.old into.now) result (F.held files.new into.now) }
    ensures known { EndsMerge result }
    ensures kept { F.D.history from.new ≡ F.D.history from.old }
    ensures counted { CountedPair F.D.tells (F.D.faults from.old) (F.D.faults from.new) (F.faults files.old) (F.faults files.new) result }
    ensures others { SameBut into.now (F.held files.old) (F.held files.new) }
    ensures taken { (other : List ℕ) → F.is_taken files.new other ≡ F.is_taken files.old other }
    ensures heard { IsTrue F.D.tells → MergeHeard limit (Some (F.D.history from.old)) result (L.logs logs.old) (L.logs logs.new) }
{
    match Opened::open_to_read_below(alloc, from, limit, logs) {
        Ok(opened) => merge_into(alloc, from, &opened, into, prefix, limit, files, logs),
        Err(halt) => Ending::from(halt),
    }
}

/// Stores the pairs of the file of this name whose key begins with `prefix` into another one, in one transaction. Each
/// of the two may have `limit` bytes, before and after. The first file stays as it is.
pub(crate) fn merge_file<F: Files, L: Logs>(
    alloc: Global,
    file: &str,
    into: &str,
    prefix: &[u8],
    limit: u64,
    files: &mut F,
    logs: &mut L,
) -> Ending
    requires differ { into.now ≢ file.now }
    requires limit { limit ≤ 4294963200 }
    requires free { (other : List ℕ) → F.is_taken files.old other ≡ false }
    requires take_file { F.may_take file.now Way.ReadOnly }
    requires take_into { F.may_take into.now Way.Existing }
    ensures left { IsTrue F.D.tells → MergeLeaves limit prefix.now file.now into.now (F.held files.old file.now) (F.held files.old into.now) result (F.held files.new into.now) }
    ensures kept { IsTrue F.D.tells → F.held files.new file.now ≡ F.held files.old file.now }
    ensures asked { result ≢ Usage }
    ensures unread { of_input result ≡ false }
    ensures counted { CountedIf F.D.tells (F.faults files.old) (F.faults files.new) result }
    ensures others { (other : List ℕ) → other ≢ file.now → other ≢ into.now → F.held files.new other ≡ F.held files.old other }
    ensures given_back { (other : List ℕ) → F.is_taken files.new other ≡ false }
    ensures heard { IsTrue F.D.tells → MergeHeard limit (F.held files.old file.now) result (L.logs logs.old) (L.logs logs.new) }
{
    let mut disk = match files.take(alloc, file, Take::ReadOnly) {
        Ok(disk) => disk,
        Err(refusal) => return Ending::untaken(alloc, file, refusal),
    };
    let ending = merge_disk(alloc, &mut disk, into, prefix, limit, files, logs);
    files.give(file, disk);
    ending
}

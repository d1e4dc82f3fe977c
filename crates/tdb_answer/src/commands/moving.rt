// The command that moves a key of a file into another one.

ghost use Rattle.std.specs.Prelude.{◌≡◌, ◌≢◌, ◌<◌, ◌≤◌, ◌^◌, ℕ, List, Some, IsTrue, false, length};
ghost use Rattle.tdb_disk.specs.Names.{SameBut};
ghost use Rattle.tdb_world.specs.OverFiles.Opening.{IsBegun};
ghost use Rattle.tdb_answer.specs.declared.ending.Ending.TheVariants.{Usage};
ghost use Rattle.tdb_answer.specs.Commands.Merge.{CountedPair};
ghost use Rattle.tdb_answer.specs.Commands.Moving.{EndsMove, MoveFrom, MoveInto, MoveLeaves, MoveLeft, move_told};
ghost use Rattle.tdb_answer.specs.Commands.Restore.{of_input};
ghost use Rattle.tdb_answer.specs.Ending.{CountedIf};
ghost use Rattle.tdb_answer.specs.Heard.{MoveHeard};
ghost use Rattle.tdb_disk.specs.declared.files.Take.TheVariants as Way;

use crate::commands::session::options_within;
use crate::ending::{Ending, Reply};
use std::alloc::Global;
use tdb_disk::{Disk, Files, Take};
use tdb_log::Logs;
use tdb_move::{MoveFault, move_key};
use tdb_world::World;

/// How a run ends whose move answered so.
fn told(answer: Result<(), MoveFault>) -> Ending
    ensures { result ≡ move_told answer }
{
    match answer {
        Ok(()) => Ending::Replied(Reply::Done),
        Err(MoveFault::KeyMissing) => Ending::Replied(Reply::KeyMissing),
        Err(MoveFault::Full { len, need }) => Ending::Replied(Reply::Full { len, need }),
        Err(MoveFault::Device) => Ending::DeviceFault,
        Err(MoveFault::Log) => Ending::LogFault,
        Err(MoveFault::Memory) => Ending::NoMemory,
    }
}

/// Opens the file on a disk as for a session, moves the key of an opened file into it, and gives both disks back.
fn move_to_disk<D: Disk, L: Logs>(
    alloc: Global,
    from: World<D>,
    disk: D,
    key: &[u8],
    limit: u64,
    logs: &mut L,
) -> (D, D, Ending)
    requires begun { IsBegun D.tells from.world.openers.options from }
    requires writes { from.world.openers.options.read_only ≡ false }
    requires short { length key.now < 2 ^ 32 }
    requires limit { limit ≤ 4294963200 }
    ensures left { IsTrue D.tells → MoveLeft limit key.now from.history (D.history result.0) (D.history disk) (D.history result.1) result.2 }
    ensures known { EndsMove result.2 }
    ensures counted { CountedPair D.tells from.faults (D.faults result.0) (D.faults disk) (D.faults result.1) result.2 }
{
    let options = options_within(limit);
    let (into, _) = match World::load(alloc, disk, &options, logs) {
        Ok(loaded) => loaded,
        Err((disk, halt)) => return (from.close(), disk, Ending::from(halt)),
    };
    let (from, into, answer) = move_key(alloc, from, into, key, logs);
    (from, into, told(answer))
}

/// Moves the key of an opened file into the file of this name.
fn move_to_name<F: Files, L: Logs>(
    alloc: Global,
    from: World<F::D>,
    into: &str,
    key: &[u8],
    limit: u64,
    files: &mut F,
    logs: &mut L,
) -> (F::D, Ending)
    requires begun { IsBegun F.D.tells from.world.openers.options from }
    requires writes { from.world.openers.options.read_only ≡ false }
    requires short { length key.now < 2 ^ 32 }
    requires limit { limit ≤ 4294963200 }
    requires free { F.is_taken files.old into.now ≡ false }
    requires take { F.may_take into.now Way.Existing }
    ensures left { IsTrue F.D.tells → MoveInto limit key.now into.now from.history (F.D.history result.0) (F.held files.old into.now) (F.held files.new into.now) result.1 }
    ensures known { EndsMove result.1 }
    ensures counted { CountedPair F.D.tells from.faults (F.D.faults result.0) (F.faults files.old) (F.faults files.new) result.1 }
    ensures others { SameBut into.now (F.held files.old) (F.held files.new) }
    ensures taken { (other : List ℕ) → F.is_taken files.new other ≡ F.is_taken files.old other }
{
    match files.take(alloc, into, Take::Existing) {
        Ok(disk) => {
            let (from, disk, ending) = move_to_disk(alloc, from, disk, key, limit, logs);
            files.give(into, disk);
            (from, ending)
        }
        Err(refusal) => (from.close(), Ending::untaken(alloc, into, refusal)),
    }
}

/// Opens the file on a disk as for a session, and moves its key into the file of this name.
fn move_from_disk<F: Files, L: Logs>(
    alloc: Global,
    disk: F::D,
    into: &str,
    key: &[u8],
    limit: u64,
    files: &mut F,
    logs: &mut L,
) -> (F::D, Ending)
    requires short { length key.now < 2 ^ 32 }
    requires limit { limit ≤ 4294963200 }
    requires free { F.is_taken files.old into.now ≡ false }
    requires take { F.may_take into.now Way.Existing }
    ensures left { IsTrue F.D.tells → MoveFrom limit key.now into.now (F.D.history disk) (F.D.history result.0) (F.held files.old into.now) (F.held files.new into.now) result.1 }
    ensures known { EndsMove result.1 }
    ensures counted { CountedPair F.D.tells (F.D.faults disk) (F.D.faults result.0) (F.faults files.old) (F.faults files.new) result.1 }
    ensures others { SameBut into.now (F.held files.old) (F.held files.new) }
    ensures taken { (other : List ℕ) → F.is_taken files.new other ≡ F.is_taken files.old other }
    ensures heard { IsTrue F.D.tells → MoveHeard limit (Some (F.D.history disk)) result.1 (L.logs logs.old) (L.logs logs.new) }
{
    let options = options_within(limit);
    match World::load(alloc, disk, &options, logs) {
        Ok((from, _)) => move_to_name(alloc, from, into, key, limit, files, logs),
        Err((disk, halt)) => (disk, Ending::from(halt)),
    }
}

/// Moves a key of the file of this name with its value into another one, where it takes the place of the value that the
/// key has there. Each of the two may have `limit` bytes, before and after.
pub(crate) fn move_file<F: Files, L: Logs>(
    alloc: Global,
    file: &str,
    into: &str,
    key: &[u8],
    limit: u64,
    files: &mut F,
    logs: &mut L,
) -> Ending
    requires differ { into.now ≢ file.now }
    requires short { length key.now < 2 ^ 32 }
    requires limit { limit ≤ 4294963200 }
    requires free { (other : List ℕ) → F.is_taken files.old other ≡ false }
    requires take_file { F.may_take file.now Way.Existing }
    requires take_into { F.may_take into.now Way.Existing }
    ensures left { IsTrue F.D.tells → MoveLeaves limit key.now file.now into.now (F.held files.old file.now) (F.held files.new file.now) (F.held files.old into.now) (F.held files.new into.now) result }
    ensures asked { result ≢ Usage }
    ensures unread { of_input result ≡ false }
    ensures counted { CountedIf F.D.tells (F.faults files.old) (F.faults files.new) result }
    ensures others { (other : List ℕ) → other ≢ file.now → other ≢ into.now → F.held files.new other ≡ F.held files.old other }
    ensures given_back { (other : List ℕ) → F.is_taken files.new other ≡ false }
    ensures heard { IsTrue F.D.tells → MoveHeard limit (F.held files.old file.now) result (L.logs logs.old) (L.logs logs.new) }
{
    let disk = match files.take(alloc, file, Take::Existing) {
        Ok(disk) => disk,
        Err(refusal) => return Ending::untaken(alloc, file, refusal),
    };
    let (disk, ending) = move_from_disk(alloc, disk, into, key, limit, files, logs);
    files.give(file, disk);
    ending
}

// One key is moved from a file into another, by a transaction on each.

ghost use Rattle.std.specs.FinMap.{insert, remove};
ghost use Rattle.std.specs.Prelude.{◌≡◌, ◌≢◌, ◌<◌, ◌≤◌, ◌^◌, ◌⊎◌, ◌∷◌, [], ℕ, IfErr, IfOk, IsTrue, OnOk, false, length};
ghost use Rattle.tdb_disk.specs.Count.{Rose};
ghost use Rattle.tdb_world.specs.OverFiles.Opening.{IsBegun};
ghost use Rattle.tdb_world.specs.Whole.{form_at};
ghost use Rattle.tdb_locks.specs.declared.turn.Reply.TheVariants as Replied;
ghost use Rattle.tdb_group.specs.Group.{HasMaps, IsOpen, IsPrepared};
ghost use Rattle.tdb_group.specs.Members.{Maps};
ghost use Rattle.tdb_move.specs.Faults.{OnDevice, UnlessDevice, done_by};
ghost use Rattle.tdb_move.specs.Moved.{Moves};
ghost use Rattle.tdb_move.specs.Parts.{AreFresh, BothBegan, Edited, Fetched, GaveUp, Goes, LeadsTo, MovedIn, NotBoth, Readied, Went};
ghost use Rattle.tdb_move.specs.declared.fault.MoveFault.TheVariants as FaultIs;

use crate::fault::MoveFault;
use std::alloc::Global;
use tdb_commands::Command;
use tdb_disk::Disk;
use tdb_group::Group;
use tdb_locks::Reply;
use tdb_log::Logs;
use tdb_steps::Flag;
use tdb_words::Bytes;
use tdb_world::World;

/// The number in the group of the file into which the key is moved. It is finished first.
const INTO: u32 = 0;

/// The number of the file that had the key.
const FROM: u32 = 1;

/// A value that is short enough for the words of a file, as each value in a file is. `Memory` for a longer one.
fn short_value(value: Bytes) -> Result<Bytes, MoveFault>
    ensures value { IfOk result (λ v. (v ≡ value) × (length v < 2 ^ 32)) }
    ensures fault { IfErr result (λ e. e ≡ FaultIs.Memory) }
{
    if value.len() > u32::MAX as usize {
        return Err(MoveFault::Memory);
    }
    Ok(value)
}

/// The value that a fetch replies.
fn value_of(reply: Reply) -> Result<Bytes, MoveFault>
    ensures value { IfOk result (λ v. (reply ≡ Replied.Value v) × (length v < 2 ^ 32)) }
    ensures fault { IfErr result (λ e. ((e ≡ FaultIs.KeyMissing) × (reply ≡ Replied.KeyMissing)) ⊎ (e ≡ FaultIs.Memory)) }
{
    match reply {
        Reply::Value(value) => short_value(value),
        Reply::KeyMissing => Err(MoveFault::KeyMissing),
        _ => Err(MoveFault::Memory),
    }
}

/// The value that the key has in its file.
fn fetch<D: Disk>(alloc: Global, group: &mut Group<D>, key: &[u8]) -> Result<Bytes, MoveFault>
    requires open { IsOpen group.old }
    requires none { group.old.finished ≡ 0 }
    requires two { length group.old.files ≡ 2 }
    requires short { length key.now < 2 ^ 32 }
    ensures went { Went D.tells group.old group.new result }
    ensures goes { Goes D.tells group.old group.new result }
    ensures fetched { IsTrue D.tells → (ps : ℕ → Maps) → HasMaps ps group.old → Fetched key.now ps group.new result }
    ensures short { IfOk result (λ value. length value < 2 ^ 32) }
{
    let key = Bytes::copy(alloc, key)?;
    let reply = group.apply(FROM, Command::Fetch { key })?;
    value_of(reply)
}

/// Whether a command that changes a file was done, by its reply.
fn done(reply: Reply) -> Result<(), MoveFault>
    ensures { result ≡ done_by reply }
{
    match reply {
        Reply::Ok => Ok(()),
        Reply::Full { len, need } => Err(MoveFault::Full { len, need }),
        _ => Err(MoveFault::Memory),
    }
}

/// Stores the key with the value into the other file.
fn store<D: Disk>(
    alloc: Global,
    group: &mut Group<D>,
    key: &[u8],
    value: Bytes,
) -> Result<(), MoveFault>
    requires open { IsOpen group.old }
    requires none { group.old.finished ≡ 0 }
    requires two { length group.old.files ≡ 2 }
    requires key_short { length key.now < 2 ^ 32 }
    requires value_short { length value < 2 ^ 32 }
    ensures went { Went D.tells group.old group.new result }
    ensures goes { Goes D.tells group.old group.new result }
    ensures stored { IsTrue D.tells → (ps : ℕ → Maps) → HasMaps ps group.old → OnOk result (LeadsTo ps (insert (ps 0).after key.now value) (ps 1).after group.new) }
    ensures fault { IfErr result (λ e. e ≢ FaultIs.KeyMissing) }
{
    let key = Bytes::copy(alloc, key)?;
    let flag = Flag::Replace;
    let reply = group.apply(INTO, Command::Store { key, value, flag })?;
    done(reply)
}

/// Takes the key out of its file.
fn delete<D: Disk>(alloc: Global, group: &mut Group<D>, key: &[u8]) -> Result<(), MoveFault>
    requires open { IsOpen group.old }
    requires none { group.old.finished ≡ 0 }
    requires two { length group.old.files ≡ 2 }
    requires short { length key.now < 2 ^ 32 }
    ensures went { Went D.tells group.old group.new result }
    ensures goes { Goes D.tells group.old group.new result }
    ensures deleted { IsTrue D.tells → (ps : ℕ → Maps) → HasMaps ps group.old → OnOk result (LeadsTo ps (ps 0).after (remove (ps 1).after key.now) group.new) }
    ensures fault { IfErr result (λ e. e ≢ FaultIs.KeyMissing) }
{
    let key = Bytes::copy(alloc, key)?;
    let reply = group.apply(FROM, Command::Delete { key })?;
    done(reply)
}

/// Moves the key in the transactions of the two files.
fn edit<D: Disk>(alloc: Global, group: &mut Group<D>, key: &[u8]) -> Result<(), MoveFault>
    requires open { IsOpen group.old }
    requires none { group.old.finished ≡ 0 }
    requires two { length group.old.files ≡ 2 }
    requires short { length key.now < 2 ^ 32 }
    ensures went { Went D.tells group.old group.new result }
    ensures goes { Goes D.tells group.old group.new result }
    ensures edited { IsTrue D.tells → (ps : ℕ → Maps) → HasMaps ps group.old → AreFresh ps → Edited key.now ps group.new result }
{
    let value = fetch(alloc, group, key)?;
    store(alloc, group, key, value)?;
    delete(alloc, group, key)
}

/// Cancels the transactions, for a fault that isn't of a disk. The fault, or that of a disk.
fn give_up<D: Disk>(group: &mut Group<D>, fault: MoveFault) -> MoveFault
    requires open { IsOpen group.old }
    requires none { group.old.finished ≡ 0 }
    requires other { fault ≢ FaultIs.Device }
    ensures { GaveUp D.tells fault group.old group.new result }
{
    match group.cancel() {
        Ok(()) => fault,
        Err(stop) => MoveFault::from(stop),
    }
}

/// Moves the key in the transactions of the two files, and prepares them. Where it breaks off before that, the
/// transactions are cancelled.
fn ready<D: Disk, L: Logs>(
    alloc: Global,
    group: &mut Group<D>,
    key: &[u8],
    logs: &mut L,
) -> Result<(), MoveFault>
    requires open { IsOpen group.old }
    requires none { group.old.finished ≡ 0 }
    requires two { length group.old.files ≡ 2 }
    requires short { length key.now < 2 ^ 32 }
    ensures went { Went D.tells group.old group.new result }
    ensures prepared { OnOk result (IsPrepared group.new) }
    ensures readied { IsTrue D.tells → (ps : ℕ → Maps) → HasMaps ps group.old → AreFresh ps → Readied key.now ps group.new result }
{
    match edit(alloc, group, key) {
        Ok(()) => {
            group.prepare(logs)?;
            Ok(())
        }
        Err(MoveFault::Device) => Err(MoveFault::Device),
        Err(fault) => Err(give_up(group, fault)),
    }
}

/// Moves the key between the two files of the group, which are prepared, and then finished in their order.
fn move_in<D: Disk, L: Logs>(
    alloc: Global,
    group: &mut Group<D>,
    key: &[u8],
    logs: &mut L,
) -> Result<(), MoveFault>
    requires open { IsOpen group.old }
    requires none { group.old.finished ≡ 0 }
    requires two { length group.old.files ≡ 2 }
    requires short { length key.now < 2 ^ 32 }
    ensures { MovedIn D.tells key.now group.old group.new result }
{
    ready(alloc, group, key, logs)?;
    group.finish_next()?;
    group.finish_next()?;
    Ok(())
}

/// A group of the two files, first the one into which the key is moved. Where there is none the worlds come back.
fn both<D: Disk>(
    alloc: Global,
    from: World<D>,
    into: World<D>,
) -> Result<Group<D>, (World<D>, World<D>, MoveFault)>
    requires from_nobody { from.world.openers.openers ≡ [] }
    requires into_nobody { into.world.openers.openers ≡ [] }
    requires from_writes { from.world.openers.options.read_only ≡ false }
    requires into_writes { into.world.openers.options.read_only ≡ false }
    requires from_unspent { from.spent ≡ false }
    requires into_unspent { into.spent ≡ false }
    ensures began { IfOk result (λ g. BothBegan D.tells from into g) }
    ensures not { IfErr result (λ e. NotBoth D.tells from into e.0 e.1 e.2) }
{
    let mut group = Group::new(alloc);
    if let Err((into, stop)) = group.add(into) {
        group.end().done();
        return Err((from, into, MoveFault::from(stop)));
    }
    match group.add(from) {
        Ok(_) => Ok(group),
        Err((from, stop)) => {
            let mut worlds = group.end();
            let Some(into) = worlds.pop() else {
                unreachable!();
            };
            worlds.done();
            Err((from, into, MoveFault::from(stop)))
        }
    }
}

/// Gives the group up: the file that had the key, and the other.
fn parted<D: Disk>(group: Group<D>) -> (World<D>, World<D>)
    requires two { length group.files ≡ 2 }
    ensures { group.files ≡ result.1 ∷ result.0 ∷ [] }
{
    let mut worlds = group.end();
    let Some(from) = worlds.pop() else {
        unreachable!();
    };
    let Some(into) = worlds.pop() else {
        unreachable!();
    };
    worlds.done();
    (from, into)
}

/// Moves a key with its value from the file of one world into that of another, in which it takes the place of the value
/// that the key has there. Nobody has joined either world. Both are given up, and their disks come back, first that of
/// the file which had the key.
///
/// Each file has a transaction of its own. The other file is committed first, so each stop of the machine leaves the
/// key with its value in one of the two at least, in both where it comes between the two commits. The last log is told
/// how each file grows.
///
/// `KeyMissing` where the file doesn't have the key, and `Full` where one of the two finds no room within the limit of
/// its world: then the transactions are cancelled. `Device` where a disk failed, `Log` where a log did, and `Memory`
/// where that was wanting; but for `Device` nothing was moved then.
///
/// Cost: a walk along the chain of the key in each file; three copies of the key and two of its value; and for each
/// file the commit of the pages that were changed, with ten syncs at most.
pub fn move_key<D: Disk, L: Logs>(
    alloc: Global,
    from: World<D>,
    into: World<D>,
    key: &[u8],
    logs: &mut L,
) -> (D, D, Result<(), MoveFault>)
    requires from_begun { IsBegun D.tells from.world.openers.options from }
    requires into_begun { IsBegun D.tells into.world.openers.options into }
    requires from_writes { from.world.openers.options.read_only ≡ false }
    requires into_writes { into.world.openers.options.read_only ≡ false }
    requires short { length key.now < 2 ^ 32 }
    ensures moved { IsTrue D.tells → Moves (form_at from.world) (form_at into.world) key.now from.history into.history (D.history result.0) (D.history result.1) result.2 }
    ensures from_rises { from.faults ≤ D.faults result.0 }
    ensures into_rises { into.faults ≤ D.faults result.1 }
    ensures quiet { UnlessDevice result.2 ((D.faults result.0 ≡ from.faults) × (D.faults result.1 ≡ into.faults)) }
    ensures rose { IsTrue D.tells → OnDevice result.2 (Rose from.faults (D.faults result.0) ⊎ Rose into.faults (D.faults result.1)) }
{
    match both(alloc, from, into) {
        Ok(mut group) => {
            let answer = move_in(alloc, &mut group, key, logs);
            let (from, into) = parted(group);
            (from.close(), into.close(), answer)
        }
        Err((from, into, fault)) => (from.close(), into.close(), Err(fault)),
    }
}

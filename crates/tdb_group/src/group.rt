// Transactions on several files that are prepared together and finished in their order.

ghost use Rattle.std.specs.Prelude.{◌≡◌, ◌≤◌, ◌<◌, [], IfErr, IfOk, IsTrue, length, false};
ghost use Rattle.tdb_commands.specs.Short.{IsShortCommand};
ghost use Rattle.tdb_group.specs.Calls.{Added, CancelledAll, DidAt, FinishedNext, NotAdded, PreparedAll};
ghost use Rattle.tdb_group.specs.Commands.{IsOnKey};
ghost use Rattle.tdb_group.specs.Each.{CancelledEach, PreparedEach, with_file};
ghost use Rattle.tdb_group.specs.Faults.{refused};
ghost use Rattle.tdb_group.specs.Group.{EachFile, IsOpen, IsPrepared, no_files};

use crate::member::{apply, cancel, finish, prepare, start};
use crate::stop::{FileStop, GroupStop};
use crate::worlds::Worlds;
use std::alloc::Global;
use std::marker::Model;
use tdb_commands::Command;
use tdb_disk::Disk;
use tdb_locks::Reply;
use tdb_log::Logs;
use tdb_world::World;

/// Files, each with a transaction of its own. Commands are done in the transactions; then the files are prepared,
/// after which no commit wants room or memory; and then they are committed one by one, in the order in which they were
/// added. So a stop of the machine leaves some number of the first files as their transactions made them, and the
/// others as they were. Files don't change at once: a program that relies on several puts first what must not be lost.
///
/// The files lie on different disks, or have different names. It can't be dropped: `end` gives the worlds back.
pub struct Group<D: Disk> {
    worlds: Vec<World<D>>,
    prepared: bool,
    finished: u32,
    stopped: bool,
}

impl<D: Disk> Model for Group<D> {
    ghost use Rattle.tdb_world.specs.contracts.all_openers.AllOpeners as all;
    ghost use Rattle.tdb_world.specs.OverFile.{over_file_code};
    ghost use Rattle.tdb_group.specs.Group.{group_code, GroupState, IsSoundGroup};

    ghost Value = { GroupState };

    ghost coded = { group_code (over_file_code all.the_row.coded) };

    ghost view = { λ g. record { files = g.worlds.items; prepared = g.prepared; finished = g.finished; stopped = g.stopped } };

    ghost invariant = { λ g. IsSoundGroup (record { files = g.worlds.items; prepared = g.prepared; finished = g.finished; stopped = g.stopped }) };
}

/// Prepares files in their order, up to the first that can't be.
fn prepare_each<D: Disk, L: Logs>(worlds: &mut Vec<World<D>>, logs: &mut L) -> Result<(), GroupStop>
    requires few { length worlds.old.items ≤ 1000 }
    requires unspent { EachFile worlds.old.items (λ n w. w.spent ≡ false) }
    ensures { PreparedEach D.tells worlds.old.items worlds.new.items (L.logs logs.old) (L.logs logs.new) result }
{
    for at in 0..worlds.len() as u32 {
        if let Err(stop) = prepare(&mut worlds[at as usize], logs) {
            return Err(stop.at(at));
        }
    }
    Ok(())
}

/// The answer for some files with one file more, which has this number: that of the first that failed.
fn with_file(answer: Result<(), u32>, own: Result<(), FileStop>, at: u32) -> Result<(), u32>
    ensures { result ≡ with_file answer own at }
{
    match (answer, own) {
        (Err(first), _) => Err(first),
        (Ok(()), Err(_)) => Err(at),
        (Ok(()), Ok(())) => Ok(()),
    }
}

/// Cancels the transactions of all files. Where a disk fails the others are cancelled all the same, and the number of
/// the first such file is the answer.
fn cancel_each<D: Disk>(worlds: &mut Vec<World<D>>) -> Result<(), u32>
    requires few { length worlds.old.items ≤ 1000 }
    requires unspent { EachFile worlds.old.items (λ n w. w.spent ≡ false) }
    ensures { CancelledEach D.tells worlds.old.items worlds.new.items result }
{
    let mut answer = Ok(());
    for at in 0..worlds.len() as u32 {
        let own = cancel(&mut worlds[at as usize]);
        answer = with_file(answer, own, at);
    }
    answer
}

/// What it answers that there was no room for a file, once all were cancelled.
fn refused(stop: GroupStop, cancelled: Result<(), u32>) -> GroupStop
    ensures { result ≡ refused stop cancelled }
{
    match cancelled {
        Ok(()) => stop,
        Err(at) => GroupStop::Io { at },
    }
}

impl<D: Disk> Group<D> {
    /// A group without a file. It takes no memory.
    pub fn new(alloc: Global) -> Group<D>
        ensures { result ≡ no_files }
    {
        Group {
            worlds: Vec::new(alloc),
            prepared: false,
            finished: 0,
            stopped: false,
        }
    }

    /// How many files it has.
    pub fn count(&self) -> u32
        ensures { result ≡ length self.now.files }
    {
        self.worlds.len() as u32
    }

    /// How many of its first files are finished.
    pub fn finished(&self) -> u32
        ensures { result ≡ self.now.finished }
    {
        self.finished
    }

    /// Whether a call stopped it: one that broke off, but for `add`, or a `cancel`. Then no other call but `end` may
    /// follow, and each file that isn't finished opens to what it held before; only the file at which `finish_next`
    /// answered `Io` may open to what its transaction made.
    pub fn is_stopped(&self) -> bool
        ensures { result ≡ self.now.stopped }
    {
        self.stopped
    }

    /// Adds a world in which nobody has joined: an opener joins it, and begins a transaction. Its number in the group,
    /// from 0 on. It makes the room that the group needs in all later calls.
    ///
    /// `Memory` where that is wanting, and `Io` where the disk fails, after which the world is spent. A refusal gives
    /// the world back without a transaction, with its opener maybe, and leaves the group.
    ///
    /// Cost: that of a Start: one look at the length of the file, and one sync.
    pub fn add(&mut self, mut world: World<D>) -> Result<u32, (World<D>, GroupStop)>
        requires open { IsOpen self.old }
        requires few { length self.old.files < 1000 }
        requires nobody { world.world.openers.openers ≡ [] }
        requires writes { world.world.openers.options.read_only ≡ false }
        requires unspent { world.spent ≡ false }
        ensures added { IfOk result (λ n. Added D.tells world self.old self.new n) }
        ensures refused { IfErr result (λ e. NotAdded D.tells world e.0 self.old self.new e.1) }
    {
        let at = self.count();
        if self.worlds.reserve(1).is_err() {
            return Err((world, GroupStop::Memory { at }));
        }
        match start(&mut world) {
            Ok(()) => {
                self.worlds.push_reserved(world);
                Ok(at)
            }
            Err(stop) => Err((world, stop.at(at))),
        }
    }

    /// Does a command on one key in the transaction of the file with this number: `Fetch`, `Has`, `Store`, `Append` or
    /// `Delete`. The reply is what it finds there; `Full` where a store finds no room within the world's limit; and
    /// `Memory` where that is wanting, and nothing has changed.
    ///
    /// `Io` where the disk of the file fails, which stops the group.
    ///
    /// Cost: a copy of the key and the value, and a walk along the chain of the key.
    pub fn apply(&mut self, n: u32, command: Command) -> Result<Reply, GroupStop>
        requires open { IsOpen self.old }
        requires there { n < length self.old.files }
        requires on_key { IsOnKey command }
        requires short { IsShortCommand command }
        ensures { DidAt D.tells self.old self.new n command result }
    {
        let alloc = *self.worlds.allocator();
        match apply(alloc, &mut self.worlds[n as usize], command) {
            Ok(reply) => Ok(reply),
            Err(stop) => {
                self.stopped = true;
                Err(stop.at(n))
            }
        }
    }

    /// Prepares the files in the order of their numbers, after which each can be committed without more room or
    /// memory. The last log is told how each grows.
    ///
    /// `Refused` where there is no room for one within its world's limit; then every transaction was cancelled. `Io`
    /// where the disk of a file fails, also in such a cancel; `LogFailed` where a log does; `Memory` where that is
    /// wanting. Each stops the group.
    ///
    /// Cost: for each file that of a Prepare, with seven syncs at most.
    pub fn prepare<L: Logs>(&mut self, logs: &mut L) -> Result<(), GroupStop>
        requires open { IsOpen self.old }
        ensures { PreparedAll D.tells self.old self.new (L.logs logs.old) (L.logs logs.new) result }
    {
        let Err(stop) = prepare_each(&mut self.worlds, logs) else {
            self.prepared = true;
            return Ok(());
        };
        self.stopped = true;
        match stop {
            GroupStop::Refused { .. } => Err(refused(stop, cancel_each(&mut self.worlds))),
            _ => Err(stop),
        }
    }

    /// Commits the first file that isn't finished. Its number. It takes no memory, and no call is made on another
    /// file's disk.
    ///
    /// `Io` where the disk of the file fails, which stops the group. Then this file may open to what it held before,
    /// or to what its transaction made.
    ///
    /// Cost: that of the Commit of a prepared transaction, with two syncs.
    pub fn finish_next(&mut self) -> Result<u32, GroupStop>
        requires prepared { IsPrepared self.old }
        requires left { self.old.finished < length self.old.files }
        ensures { FinishedNext D.tells self.old self.new result }
    {
        let at = self.finished;
        match finish(&mut self.worlds[at as usize]) {
            Ok(()) => {
                self.finished = at + 1;
                Ok(at)
            }
            Err(stop) => {
                self.stopped = true;
                Err(stop.at(at))
            }
        }
    }

    /// Cancels every transaction, prepared or not, and stops the group. It takes no memory.
    ///
    /// `Io` where the disk of a file fails, the first in their order; the others are cancelled all the same.
    pub fn cancel(&mut self) -> Result<(), GroupStop>
        requires going { self.old.stopped ≡ false }
        requires none { self.old.finished ≡ 0 }
        ensures { CancelledAll D.tells self.old self.new result }
    {
        self.stopped = true;
        match cancel_each(&mut self.worlds) {
            Ok(()) => Ok(()),
            Err(at) => Err(GroupStop::Io { at }),
        }
    }

    /// Gives the group up, with transactions that aren't finished, and gives the worlds back in their order. It takes
    /// no memory, and no call is made on a disk.
    pub fn end(self) -> Worlds<D>
        ensures { result ≡ self.files }
    {
        let Group {
            worlds,
            prepared: _,
            finished: _,
            stopped: _,
        } = self;
        Worlds { worlds }
    }
}

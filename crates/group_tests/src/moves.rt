//! A key that is moved from one file to another, over disks that stop at each of their calls.

ghost use Rattle.std.specs.Prelude.{◌≡◌, ◌+◌, ◌<◌, ◌≤◌, IfOk, IsTrue, OnOk, length};
ghost use Rattle.group_tests.specs.Begun.{IsBegun};

use std::alloc::{AllocError, Global};
use tdb_commands::{Command, Options};
use tdb_disk::{FuseDisk, MemDisk, Pick};
use tdb_group::{Group, GroupStop};
use tdb_locks::Reply;
use tdb_log::Log;
use tdb_steps::Flag;
use tdb_words::{Bytes, HashKind, Order, header_bytes};
use tdb_world::World;

/// How a file is opened.
const OPTIONS: Options = Options {
    limit: 4_294_963_200,
    nesting: false,
    read_only: false,
    seqnum: false,
};

/// No disk has so many calls.
pub(crate) const ALL_CALLS: u64 = 1_000_000;

/// The numbers of the files: the one that gets the key is finished first.
const TO: u32 = 0;

const FROM: u32 = 1;

/// Disks that stop after some of their calls.
pub(crate) type Stopping = FuseDisk<MemDisk>;

/// A disk with a new file.
pub(crate) fn new_file(alloc: Global) -> Result<MemDisk, AllocError> {
    let mut bytes = vec![in alloc; 0u8; 696]?;
    let front = header_bytes(131, Order::Little, HashKind::Old);
    if front.len() <= bytes.len() {
        bytes[..front.len()].copy_from_slice(&front);
    }
    MemDisk::new(alloc, &bytes)
}

/// The key.
pub(crate) fn key(alloc: Global) -> Result<Bytes, AllocError>
    ensures { IfOk result (λ k. length k ≡ 1) }
{
    Bytes::copy(alloc, b"a")
}

/// Its value.
pub(crate) fn value(alloc: Global) -> Result<Bytes, AllocError>
    ensures { IfOk result (λ v. length v ≡ 1) }
{
    Bytes::copy(alloc, b"1")
}

/// Adds the file on a disk, which passes so many calls. Where it isn't added its disk, and why the group refused it;
/// without a reason where it isn't opened.
pub(crate) fn add(
    alloc: Global,
    group: &mut Group<Stopping>,
    disk: MemDisk,
    passes: u64,
) -> Result<(), (MemDisk, Option<GroupStop>)>
    requires begun { IsBegun (length group.old.files) group.old }
    requires few { length group.old.files < 2 }
    ensures { OnOk result (IsBegun (length group.old.files + 1) group.new) }
{
    let mut none: Vec<Box<dyn Log>> = Vec::new(alloc);
    match World::load(alloc, FuseDisk::new(disk, passes), &OPTIONS, &mut none) {
        Ok((world, _)) => match group.add(world) {
            Ok(_) => Ok(()),
            Err((world, stop)) => Err((world.close().inner(), Some(stop))),
        },
        Err((disk, _)) => Err((disk.inner(), None)),
    }
}

/// Does the commands of the move. Whether all was done.
fn act(alloc: Global, group: &mut Group<Stopping>) -> Result<bool, AllocError>
    requires { IsBegun 2 group.old }
    ensures { IfOk result (λ done. IsTrue done → IsBegun 2 group.new) }
{
    let fetch = Command::Fetch { key: key(alloc)? };
    let store = Command::Store {
        key: key(alloc)?,
        value: value(alloc)?,
        flag: Flag::Replace,
    };
    let delete = Command::Delete { key: key(alloc)? };
    let Ok(Reply::Value(_)) = group.apply(FROM, fetch) else {
        return Ok(false);
    };
    let Ok(Reply::Ok) = group.apply(TO, store) else {
        return Ok(false);
    };
    let Ok(Reply::Ok) = group.apply(FROM, delete) else {
        return Ok(false);
    };
    Ok(true)
}

/// Prepares the files, one or two, and finishes them. Whether all was done.
fn commit(alloc: Global, group: &mut Group<Stopping>, count: u32) -> bool
    requires begun { IsBegun count group.old }
    requires some { 1 ≤ count }
    requires few { count ≤ 2 }
{
    let mut none: Vec<Box<dyn Log>> = Vec::new(alloc);
    let Ok(()) = group.prepare(&mut none) else {
        return false;
    };
    let Ok(_) = group.finish_next() else {
        return false;
    };
    count == 1 || group.finish_next().is_ok()
}

/// Ends a group, and gives the disks back, the last in front. A disk for which there is no memory is given up.
pub(crate) fn close_all(alloc: Global, group: Group<Stopping>) -> Vec<MemDisk> {
    let mut disks = Vec::new(alloc);
    let mut worlds = group.end();
    while let Some(world) = worlds.pop() {
        let _ = disks.push(world.close().inner());
    }
    worlds.done();
    disks
}

/// Stores the key in the file on a disk.
fn stored(alloc: Global, disk: MemDisk) -> Result<Option<MemDisk>, AllocError> {
    let store = Command::Append {
        key: key(alloc)?,
        value: value(alloc)?,
    };
    let mut group = Group::new(alloc);
    let done = add(alloc, &mut group, disk, ALL_CALLS).is_ok()
        && group.apply(0, store).is_ok()
        && commit(alloc, &mut group, 1);
    let mut disks = close_all(alloc, group);
    Ok(if done { disks.pop() } else { None })
}

/// Whether the file on a disk has the key with its value. `None` where it isn't opened, or gives the key another value.
pub(crate) fn has_it(alloc: Global, disk: MemDisk) -> Result<Option<bool>, AllocError> {
    let fetch = Command::Fetch { key: key(alloc)? };
    let expected = value(alloc)?;
    let mut group = Group::new(alloc);
    let mut found = None;
    if add(alloc, &mut group, disk, ALL_CALLS).is_ok() {
        found = match &group.apply(0, fetch) {
            Ok(Reply::Value(value)) if *value == expected => Some(true),
            Ok(Reply::KeyMissing) => Some(false),
            _ => None,
        };
    }
    close_all(alloc, group);
    Ok(found)
}

/// What a move left.
#[derive(Drop)]
struct AfterMove {
    to: MemDisk,
    from: MemDisk,
    done: bool,
}

/// A move between files whose disks pass so many calls. `None` where one of them isn't opened.
fn moved(
    alloc: Global,
    (to, to_passes): (MemDisk, u64),
    (from, from_passes): (MemDisk, u64),
) -> Option<AfterMove> {
    let mut group = Group::new(alloc);
    let done = match add(alloc, &mut group, to, to_passes) {
        Ok(()) => match add(alloc, &mut group, from, from_passes) {
            Ok(()) => matches!(&act(alloc, &mut group), Ok(true)) && commit(alloc, &mut group, 2),
            Err(_) => false,
        },
        Err(_) => false,
    };
    let mut disks = close_all(alloc, group);
    Some(AfterMove {
        to: disks.pop()?,
        from: disks.pop()?,
        done,
    })
}

/// Whether each stop leaves the key in one of the files, and in the second alone where the move was done.
fn keeps_it(alloc: Global, moved: &AfterMove) -> Result<bool, AllocError> {
    for one in [Pick::Synced, Pick::Read, Pick::Torn] {
        let to = has_it(alloc, moved.to.after_stop(alloc, one)?)? == Some(true);
        for two in [Pick::Synced, Pick::Read, Pick::Torn] {
            let from = has_it(alloc, moved.from.after_stop(alloc, two)?)? == Some(true);
            if !to && !from || moved.done && (!to || from) {
                return Ok(false);
            }
        }
    }
    Ok(true)
}

/// After how many calls of the disk of the second file, or of the first, a stop loses the key: the least such number,
/// or 200 where the move isn't done by as many.
fn losing_stop(alloc: Global, second: bool) -> Result<Option<u64>, AllocError> {
    for calls in 0..200 {
        let (to, from) = if second {
            (calls, ALL_CALLS)
        } else {
            (ALL_CALLS, calls)
        };
        let Some(disk) = stored(alloc, new_file(alloc)?)? else {
            return Ok(Some(calls));
        };
        let Some(moved) = moved(alloc, (new_file(alloc)?, to), (disk, from)) else {
            continue;
        };
        if !keeps_it(alloc, &moved)? {
            return Ok(Some(calls));
        }
        if moved.done {
            return Ok(None);
        }
    }
    Ok(Some(200))
}

#[test]
fn no_stop_loses_the_key(rt: HostRuntime) {
    let alloc = rt.alloc();
    assert_eq!(rt; losing_stop(alloc, true), Ok(None), "the second file");
    assert_eq!(rt; losing_stop(alloc, false), Ok(None), "the first file");
}

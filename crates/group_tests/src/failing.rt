//! Each call of the disk of one file failing in turn, in each call of a group of two files.

ghost use Rattle.group_tests.specs.Begun.{IsBegun};

use crate::moves::{ALL_CALLS, Stopping, add, close_all, has_it, key, new_file, value};
use std::alloc::{AllocError, Global};
use tdb_commands::Command;
use tdb_disk::{Call, MemDisk, Pick};
use tdb_group::{Group, GroupStop};
use tdb_log::Log;

/// A call of a group of two files, each of which gets the key in its transaction.
#[derive(Clone, Copy, PartialEq, Eq)]
enum Step {
    Add,
    Apply,
    Prepare,
    FinishFirst,
    FinishSecond,
    Cancel,
}

/// What a file opens to, whatever a stop leaves of its disk.
#[derive(Clone, Copy)]
enum Opens {
    /// What it held before: no key.
    Before,
    /// What its transaction made of it: the key with its value.
    After,
    /// One of both.
    Either,
}

/// Each call of a disk that fails within a call of the group, in turn. That call answers `Io` at the file of the
/// failing disk.
struct Row {
    what: &'static str,
    /// Whether the prepared transactions are cancelled, and not finished.
    cancels: bool,
    /// The file whose disk fails.
    file: u32,
    /// The call of the group.
    step: Step,
    /// The kinds of calls that it makes on the disk.
    kinds: &'static [Call],
    /// Whether it stops the group.
    stops: bool,
    /// What each file opens to then, of those that were to be added so far.
    opens: &'static [Opens],
}

// A look at the length, and a sync.
const ADDING: [Call; 2] = [Call::Len, Call::Sync];

const APPLYING: [Call; 1] = [Call::Read];

// It alone makes the file longer.
const PREPARING: [Call; 6] = [
    Call::Len,
    Call::Read,
    Call::Write,
    Call::WriteWord,
    Call::Grow,
    Call::Sync,
];

const FINISHING: [Call; 3] = [Call::Write, Call::WriteWord, Call::Sync];

// The gate is shut.
const CANCELLING: [Call; 2] = [Call::WriteWord, Call::Sync];

const UNCHANGED: [Opens; 2] = [Opens::Before, Opens::Before];

static ROWS: [Row; 10] = [
    Row {
        what: "add of the first file",
        cancels: false,
        file: 0,
        step: Step::Add,
        kinds: &ADDING,
        stops: false,
        opens: &[Opens::Before],
    },
    Row {
        what: "add of the second file",
        cancels: false,
        file: 1,
        step: Step::Add,
        kinds: &ADDING,
        stops: false,
        opens: &UNCHANGED,
    },
    Row {
        what: "apply at the first file",
        cancels: false,
        file: 0,
        step: Step::Apply,
        kinds: &APPLYING,
        stops: true,
        opens: &UNCHANGED,
    },
    Row {
        what: "apply at the second file",
        cancels: false,
        file: 1,
        step: Step::Apply,
        kinds: &APPLYING,
        stops: true,
        opens: &UNCHANGED,
    },
    Row {
        what: "prepare, on the first disk",
        cancels: false,
        file: 0,
        step: Step::Prepare,
        kinds: &PREPARING,
        stops: true,
        opens: &UNCHANGED,
    },
    Row {
        what: "prepare, on the second disk",
        cancels: false,
        file: 1,
        step: Step::Prepare,
        kinds: &PREPARING,
        stops: true,
        opens: &UNCHANGED,
    },
    Row {
        what: "finish_next of the first file",
        cancels: false,
        file: 0,
        step: Step::FinishFirst,
        kinds: &FINISHING,
        stops: true,
        opens: &[Opens::Either, Opens::Before],
    },
    Row {
        what: "finish_next of the second file",
        cancels: false,
        file: 1,
        step: Step::FinishSecond,
        kinds: &FINISHING,
        stops: true,
        opens: &[Opens::After, Opens::Either],
    },
    Row {
        what: "cancel, on the first disk",
        cancels: true,
        file: 0,
        step: Step::Cancel,
        kinds: &CANCELLING,
        stops: true,
        opens: &UNCHANGED,
    },
    Row {
        what: "cancel, on the second disk",
        cancels: true,
        file: 1,
        step: Step::Cancel,
        kinds: &CANCELLING,
        stops: true,
        opens: &UNCHANGED,
    },
];

/// The kinds of calls of a disk.
const KINDS: [Call; 7] = [
    Call::Len,
    Call::Read,
    Call::Write,
    Call::WriteWord,
    Call::Grow,
    Call::Cut,
    Call::Sync,
];

/// No group makes so many calls of one kind on one disk.
const MOST_CALLS: u64 = 1000;

/// What the calls of a group came to.
#[derive(Drop)]
struct Ended {
    /// The last that was made.
    step: Step,
    /// Why it broke off. `None` also where a file wasn't opened to be added.
    stop: Option<GroupStop>,
    is_stopped: bool,
    /// The disks of the files that were to be added, the last in front.
    disks: Vec<MemDisk>,
}

/// Stores the key in both files, and ends the transactions. The last call that was made, and why it broke off.
fn act(
    alloc: Global,
    group: &mut Group<Stopping>,
    cancels: bool,
) -> Result<(Step, Option<GroupStop>), AllocError>
    requires { IsBegun 2 group.old }
{
    let one = Command::Append {
        key: key(alloc)?,
        value: value(alloc)?,
    };
    let two = Command::Append {
        key: key(alloc)?,
        value: value(alloc)?,
    };
    if let Err(stop) = group.apply(0, one) {
        return Ok((Step::Apply, Some(stop)));
    }
    if let Err(stop) = group.apply(1, two) {
        return Ok((Step::Apply, Some(stop)));
    }
    let mut none: Vec<Box<dyn Log>> = Vec::new(alloc);
    if let Err(stop) = group.prepare(&mut none) {
        return Ok((Step::Prepare, Some(stop)));
    }
    if cancels {
        return Ok((Step::Cancel, group.cancel().err()));
    }
    if let Err(stop) = group.finish_next() {
        return Ok((Step::FinishFirst, Some(stop)));
    }
    Ok((Step::FinishSecond, group.finish_next().err()))
}

/// Makes the calls of a group of the files on two disks.
fn run(alloc: Global, first: MemDisk, second: MemDisk, cancels: bool) -> Result<Ended, AllocError> {
    let mut group = Group::new(alloc);
    let mut left = None;
    let last = match add(alloc, &mut group, first, ALL_CALLS) {
        Ok(()) => match add(alloc, &mut group, second, ALL_CALLS) {
            Ok(()) => act(alloc, &mut group, cancels),
            Err((disk, stop)) => {
                left = Some(disk);
                Ok((Step::Add, stop))
            }
        },
        Err((disk, stop)) => {
            left = Some(disk);
            Ok((Step::Add, stop))
        }
    };
    let is_stopped = group.is_stopped();
    let mut disks = close_all(alloc, group);
    if let Some(disk) = left {
        disks.insert(0, disk)?;
    }
    let (step, stop) = last?;
    Ok(Ended {
        step,
        stop,
        is_stopped,
        disks,
    })
}

/// Whether the file on a disk opens so.
fn opens_so(alloc: Global, disk: &MemDisk, expected: Opens) -> Result<bool, AllocError> {
    for pick in [Pick::Synced, Pick::Read, Pick::Torn] {
        let found = has_it(alloc, disk.after_stop(alloc, pick)?)?;
        let is_so = match expected {
            Opens::Before => found == Some(false),
            Opens::After => found == Some(true),
            Opens::Either => found.is_some(),
        };
        if !is_so {
            return Ok(false);
        }
    }
    Ok(true)
}

/// Whether the calls of a group came to what the row says.
fn is_so(alloc: Global, mut ended: Ended, row: &Row) -> Result<bool, AllocError> {
    if ended.stop != Some(GroupStop::Io { at: row.file })
        || ended.is_stopped != row.stops
        || ended.disks.len() != row.opens.len()
    {
        return Ok(false);
    }
    for expected in row.opens {
        let Some(disk) = ended.disks.pop() else {
            return Ok(false);
        };
        if !opens_so(alloc, &disk, *expected)? {
            return Ok(false);
        }
    }
    Ok(true)
}

/// Whether any call of this kind fails within the row's step, where each fails in turn. `None` where one of these
/// doesn't come to what the row says.
fn fails_within(alloc: Global, row: &Row, kind: Call) -> Result<Option<bool>, AllocError> {
    let mut fails = false;
    for nth in 0..MOST_CALLS {
        let mut first = new_file(alloc)?;
        let mut second = new_file(alloc)?;
        if row.file == 0 {
            first.fail(kind, nth)?;
        } else {
            second.fail(kind, nth)?;
        }
        let ended = run(alloc, first, second, row.cancels)?;
        let is_whole = ended.stop.is_none() && ended.step != Step::Add;
        if is_whole || fails && ended.step != row.step {
            return Ok(Some(fails));
        }
        if ended.stop.is_some() && ended.step == row.step {
            fails = true;
            if !is_so(alloc, ended, row)? {
                return Ok(None);
            }
        }
    }
    Ok(None)
}

/// The first row that isn't so, and the kind of calls with which it isn't.
fn failing_row(alloc: Global) -> Result<Option<(&'static str, Call)>, AllocError> {
    for row in &ROWS {
        for kind in KINDS {
            if fails_within(alloc, row, kind)? != Some(row.kinds.contains(&kind)) {
                return Ok(Some((row.what, kind)));
            }
        }
    }
    Ok(None)
}

#[test]
fn a_failing_call_stops_the_group_and_leaves_the_files(rt: HostRuntime) {
    assert_eq!(rt; failing_row(rt.alloc()), Ok(None));
}

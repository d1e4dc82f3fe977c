//! Which other program has a file open, as far as the system lets it be seen.

use crate::holder::{Holder, ProcessName};
use crate::identity::Identity;
use crate::lock_table::{LockFamily, find_lock, has_lock};
use crate::reason::is_missing;
use std::{fs, io, process};

/// The system's table of locks.
const LOCK_TABLE: &str = "/proc/locks";

/// The folder that has a folder for each process.
const PROCESSES: &str = "/proc";

/// The process with its name, where that can be read.
fn named(rt: &HostRuntime, process: Option<u32>) -> Holder {
    let Some(process) = process else {
        return Holder::Unknown;
    };
    match read_name(rt, process) {
        Ok(name) => Holder::Named(name, process),
        Err(_) => Holder::Process(process),
    }
}

/// The name of a process.
fn read_name(rt: &HostRuntime, process: u32) -> io::Result<ProcessName> {
    let path = format!(in rt.alloc(); "{PROCESSES}/{process}/comm")?;
    Ok(ProcessName::of_file(fs::read(rt, &path)?.as_slice()))
}

/// The file of the program that a process runs.
fn program_of(rt: &HostRuntime, process: u32) -> io::Result<Identity> {
    let path = format!(in rt.alloc(); "{PROCESSES}/{process}/exe")?;
    Ok(Identity::of(&fs::metadata(rt, &path)?))
}

/// Whether a process has the file open. What an open file leads to is asked for, and nothing is opened.
fn has_open(rt: &HostRuntime, process: u32, file: Identity) -> io::Result<bool> {
    let path = format!(in rt.alloc(); "{PROCESSES}/{process}/fd")?;
    for entry in fs::read_dir(rt, &path)? {
        if let Ok(found) = fs::metadata(rt, entry?.path())
            && Identity::of(&found) == file
        {
            return Ok(true);
        }
    }
    Ok(false)
}

/// The runs of this program, as they are told from other processes.
#[derive(Clone, Copy)]
struct Runs<'a> {
    own: u32,
    program: Option<Identity>,
    table: &'a str,
}

impl Runs<'_> {
    /// Whether a process is a run of this program: this one, one of the same program, or one that has the lock on the
    /// whole file. One that ends counts as one: the system knows no program of it, shortly before it closes its files.
    fn has(&self, rt: &HostRuntime, process: u32, file: Identity) -> bool {
        let runs_it = match program_of(rt, process) {
            Ok(program) => Some(program) == self.program,
            Err(error) => is_missing(&error),
        };
        runs_it || process == self.own || has_lock(self.table, file, LockFamily::Whole, process)
    }
}

/// The first process that has the file open, and isn't a run of this program.
fn find_opener(rt: &HostRuntime, file: Identity, runs: &Runs<'_>) -> io::Result<Option<u32>> {
    for entry in fs::read_dir(rt, PROCESSES)? {
        if let Ok(process) = entry?.file_name().parse::<u32>()
            && has_open(rt, process, file).unwrap_or(false)
            && !runs.has(rt, process, file)
        {
            return Ok(Some(process));
        }
    }
    Ok(None)
}

/// Another program that has a lock on a part of the file. Costs a read of the system's table of locks, which anybody
/// may read.
pub(crate) fn find_part_locker(rt: &HostRuntime, file: Identity) -> Option<Holder> {
    let own = process::id(rt.process());
    let table = fs::read_to_string(rt, LOCK_TABLE).ok()?;
    let entry = find_lock(table.as_str(), file, LockFamily::Other, own)?;
    Some(named(rt, entry.process))
}

/// Another program that has the file open, and isn't a run of this one. The open files of all processes are looked
/// through whose files this user may see; of root's run these are all. A program in another container or on another
/// machine isn't seen. Costs a read of the table, a call of the system for each process, and one more for each file
/// that is open in those.
pub(crate) fn find_open(rt: &HostRuntime, file: Identity) -> Option<Holder> {
    let own = process::id(rt.process());
    let table = fs::read_to_string(rt, LOCK_TABLE).unwrap_or(String::new(rt.alloc()));
    let runs = Runs {
        own,
        program: program_of(rt, own).ok(),
        table: table.as_str(),
    };
    match find_opener(rt, file, &runs) {
        Ok(Some(process)) => Some(named(rt, Some(process))),
        _ => None,
    }
}

/// Another program that has the file locked or open.
pub(crate) fn find_other(rt: &HostRuntime, file: Identity) -> Option<Holder> {
    match find_part_locker(rt, file) {
        Some(holder) => Some(holder),
        None => find_open(rt, file),
    }
}

/// Who has the lock on the whole file, where the system's table of locks shows it.
pub(crate) fn find_locker(rt: &HostRuntime, file: Identity) -> Option<Holder> {
    let own = process::id(rt.process());
    let table = fs::read_to_string(rt, LOCK_TABLE).ok()?;
    let entry = find_lock(table.as_str(), file, LockFamily::Whole, own)?;
    Some(named(rt, entry.process))
}

//! How a file is opened or made, and kept from other runs of the program until it is closed.
ghost use Rattle.std.specs.Prelude.{◌≡◌, ◌≢◌, false, IfOk, IsErrOf, IsSome};
ghost use Rattle.tdb_disk.specs.declared.files.Take.TheVariants as mode;
ghost use Rattle.tdb_files.specs.FileDisk.{file_len, file_faults, file_syncs, file_bytes_read};
ghost use Rattle.tdb_files.specs.declared.opening.Refusal.TheVariants as refusal;

use crate::file_disk::FileDisk;
use crate::guard::Guard;
use crate::holder::Holder;
use crate::identity::Identity;
use crate::locks::{LockKind, lock};
use crate::manner::Manner;
use crate::others::{find_locker, find_open, find_part_locker};
use crate::part::{Part, is_free, remove_unused};
use crate::reason::Reason;
use crate::replacing::Access;
use crate::stamp::Stamp;
use std::collections::HashSet;
use std::fs::{self, File, Metadata, OpenOptions};
use std::io;
use std::os::fd::AsRawFd;
use tdb_disk::Take;

/// Why a file isn't taken.
#[derive(Clone, Copy)]
pub enum Refusal {
    /// It isn't there.
    Missing,
    /// It is there, and was to be made.
    There,
    /// A call failed.
    Failed(Reason),
    /// There was no memory.
    Memory,
}

/// What is known of a file that is to be made.
#[derive(Clone, Copy)]
pub(crate) struct Making {
    /// Who may use the file of which it is a copy, if it is one.
    pub(crate) source: Option<Access>,
    /// A file of its name was removed just before, so one that is there again is another run's, which makes the same.
    pub(crate) is_anew: bool,
}

/// Descriptors up to this one are those of the standard streams.
const LAST_STANDARD: i32 = 2;

/// A file with a descriptor above those of the standard streams, so that what is meant for one of those, where it was
/// closed, can't land in it.
pub(crate) fn above_standard(file: File) -> io::Result<File> {
    if file.as_raw_fd() > LAST_STANDARD {
        Ok(file)
    } else {
        file.try_clone()
    }
}

/// Opens a file that is there, for reading and, if that is asked, for writing. One that may only be read is opened for
/// that, and the second value is then why it may not be written.
fn open_readable(
    rt: &HostRuntime,
    name: &str,
    writable: bool,
) -> io::Result<(File, Option<Reason>)> {
    if !writable {
        return Ok((File::open(rt, name)?, None));
    }
    match OpenOptions::new().read(true).write(true).open(rt, name) {
        Ok(file) => Ok((file, None)),
        Err(error) => match File::open(rt, name) {
            Ok(file) => Ok((file, Some(Reason::from(error)))),
            Err(_) => Err(error),
        },
    }
}

/// Locks a file for this kind of use. Where another run of the program keeps it locked, that one is named, if it is
/// known.
fn lock_as(
    rt: &HostRuntime,
    file: &File,
    identity: Identity,
    kind: LockKind,
    manner: Manner,
) -> Result<(), Reason> {
    match lock(rt, file, kind, manner.seconds) {
        Err(Reason::InUse) => match find_locker(rt, identity) {
            Some(holder) => Err(Reason::Elsewhere(holder)),
            None => Err(Reason::InUse),
        },
        answer => answer,
    }
}

/// Locks a regular file that isn't taken yet, and sees that it still has its name then.
fn claim(
    rt: &HostRuntime,
    name: &str,
    file: &File,
    kind: LockKind,
    manner: Manner,
    taken: &HashSet<Identity>,
) -> Result<Identity, Reason> {
    let found = file.metadata()?;
    if !found.is_file() {
        return Err(Reason::NotRegular);
    }
    let identity = Identity::of(&found);
    if taken.contains(&identity) {
        return Err(Reason::TakenTwice);
    }
    lock_as(rt, file, identity, kind, manner)?;
    if Identity::of(&fs::metadata(rt, name)?) != identity {
        return Err(Reason::InUse);
    }
    Ok(identity)
}

/// Says on standard error that another program has the file open. What can't be said there is left out.
fn warn(rt: &HostRuntime, name: &str, holder: Holder) {
    let _ = eprintln!(rt;
        "tdb: warning: {name}: {holder} has the file open: what is read may be half of a change"
    );
}

/// Why a file may not be changed, if it may not: for the reason that is known already, or since another program has it
/// open and it isn't to be shared.
fn bar(known: Option<Reason>, other: Option<Holder>, is_shared: bool) -> Option<Reason>
    ensures known { IsSome known → IsSome result }
    ensures other { IsSome other → is_shared ≡ false → IsSome result }
{
    match other {
        Some(holder) if known.is_none() && !is_shared => Some(Reason::Elsewhere(holder)),
        _ => known,
    }
}

/// Opens a regular file that is there. Nothing else is opened: to open a pipe might wait.
fn open_existing(
    rt: &HostRuntime,
    name: &str,
    writable: bool,
    manner: Manner,
    taken: &HashSet<Identity>,
) -> Result<FileDisk, Reason>
    ensures faults { IfOk result (λ d. file_faults d ≡ 0) }
    ensures syncs { IfOk result (λ d. file_syncs d ≡ 0) }
    ensures bytes_read { IfOk result (λ d. file_bytes_read d ≡ 0) }
{
    if !fs::metadata(rt, name)?.is_file() {
        return Err(Reason::NotRegular);
    }
    let (file, unwritable) = open_readable(rt, name, writable)?;
    let file = above_standard(file)?;
    let kind = if writable && unwritable.is_none() && !manner.reads_first {
        LockKind::Exclusive
    } else {
        LockKind::Shared
    };
    // The long look comes before the lock, so that no other run waits for it.
    let opener = find_open(rt, Identity::of(&file.metadata()?));
    let identity = claim(rt, name, &file, kind, manner, taken)?;
    let other = find_part_locker(rt, identity).or(opener);
    if let Some(holder) = other
        && manner.warns
    {
        warn(rt, name, holder);
    }
    let unwritable = bar(unwritable, other, manner.is_shared);
    let found = file.metadata()?;
    let name = String::from_str(rt.alloc(), name).ok();
    let stamp = Stamp::of(&found);
    let guard = Guard::new(*rt, name, stamp, unwritable, kind, manner.seconds);
    Ok(FileDisk::new(file, identity, guard, None, found.len()))
}

/// How often a new file is tried to be made, where other runs make the same one.
const TRIES: u32 = 1000;

/// Whether nothing has the name of a new file. Where one of its name was removed just before, one that is there again
/// is another run's, which makes the same file: it is waited for, and removed where it was left. It is false then, as a
/// third run may have the name since.
fn is_name_free(
    rt: &HostRuntime,
    name: &str,
    manner: Manner,
    is_anew: bool,
) -> Result<bool, Refusal>
    ensures { IsErrOf result refusal.Missing → ⊥ }
{
    match is_free(rt, name) {
        Ok(true) => Ok(true),
        Ok(false) if is_anew => match remove_unused(rt, name, manner.seconds) {
            Ok(()) => Ok(false),
            Err(reason) => Err(Refusal::Failed(reason)),
        },
        Ok(false) => Err(Refusal::There),
        Err(error) => Err(Refusal::Failed(error.into())),
    }
}

/// Waits until nothing has the name of a new file, where only other runs that make the same one have it.
fn free_name(rt: &HostRuntime, name: &str, manner: Manner, is_anew: bool) -> Result<(), Refusal>
    ensures { IsErrOf result refusal.Missing → ⊥ }
{
    for _ in 0..TRIES {
        if is_name_free(rt, name, manner, is_anew)? {
            return Ok(());
        }
    }
    Err(Refusal::Failed(Reason::InUse))
}

/// Makes a new file under the name that it has until it is whole, and locks it, where its own name is free. No other
/// run can give that name to a file of its own then, so it is looked at once more. None where another run makes the
/// same file: that one was waited for.
fn try_make_part(
    rt: &HostRuntime,
    part: &Part,
    name: &str,
    manner: Manner,
    is_anew: bool,
) -> Result<Option<File>, Refusal>
    ensures { IsErrOf result refusal.Missing → ⊥ }
{
    free_name(rt, name, manner, is_anew)?;
    match part.try_make(rt, manner.seconds) {
        Ok(Some(file)) => match free_name(rt, name, manner, is_anew) {
            Ok(()) => Ok(Some(file)),
            Err(refusal) => {
                part.discard(rt);
                Err(refusal)
            }
        },
        Ok(None) => Ok(None),
        Err(reason) => Err(Refusal::Failed(reason)),
    }
}

/// Makes a new file under the name that it has until it is whole, and locks it.
fn make_part(
    rt: &HostRuntime,
    part: &Part,
    name: &str,
    manner: Manner,
    is_anew: bool,
) -> Result<File, Refusal>
    ensures { IsErrOf result refusal.Missing → ⊥ }
{
    for _ in 0..TRIES {
        if let Some(file) = try_make_part(rt, part, name, manner, is_anew)? {
            return Ok(file);
        }
    }
    Err(Refusal::Failed(Reason::InUse))
}

/// A file that was just made, above the standard streams, and what the system tells of it.
fn raise_new(file: File) -> io::Result<(File, Metadata)> {
    let file = above_standard(file)?;
    let found = file.metadata()?;
    Ok((file, found))
}

/// Makes a file where nothing has the name, not even a link. Only its owner may read and write it, whatever the process
/// takes away from new files. It gets its name once it is given back; after an Err nothing is left, nor a second
/// name that a run which was killed left of the file that is there.
fn make_new(
    rt: &HostRuntime,
    name: &str,
    manner: Manner,
    making: Making,
) -> Result<FileDisk, Refusal>
    ensures missing { IsErrOf result refusal.Missing → ⊥ }
    ensures len { IfOk result (λ d. file_len d ≡ 0) }
    ensures faults { IfOk result (λ d. file_faults d ≡ 0) }
    ensures syncs { IfOk result (λ d. file_syncs d ≡ 0) }
    ensures bytes_read { IfOk result (λ d. file_bytes_read d ≡ 0) }
{
    let Ok(part) = Part::of(rt.alloc(), name, making.source) else {
        return Err(Refusal::Memory);
    };
    let file = match make_part(rt, &part, name, manner, making.is_anew) {
        Ok(file) => file,
        Err(refusal) => {
            part.remove_second(rt, name);
            return Err(refusal);
        }
    };
    match raise_new(file) {
        Ok((file, found)) => {
            let stamp = Stamp::of(&found);
            let guard = Guard::new(*rt, None, stamp, None, LockKind::Exclusive, manner.seconds);
            Ok(FileDisk::new(file, Identity::of(&found), guard, Some(part), 0))
        }
        Err(error) => {
            part.discard(rt);
            Err(Refusal::Failed(error.into()))
        }
    }
}

/// Opens or makes the file, as it is asked, where none of the files that are taken is the same one. It has a lock until
/// it is closed: for writing where it may be changed, and else for reading.
pub(crate) fn open(
    rt: &HostRuntime,
    name: &str,
    how: Take,
    manner: Manner,
    making: Making,
    taken: &HashSet<Identity>,
) -> Result<FileDisk, Refusal>
    ensures missing { IsErrOf result refusal.Missing → how ≢ mode.New }
    ensures there { IsErrOf result refusal.There → how ≡ mode.New }
    ensures len { IfOk result (λ d. how ≡ mode.New → file_len d ≡ 0) }
    ensures faults { IfOk result (λ d. file_faults d ≡ 0) }
    ensures syncs { IfOk result (λ d. file_syncs d ≡ 0) }
    ensures bytes_read { IfOk result (λ d. file_bytes_read d ≡ 0) }
{
    match how {
        Take::Existing | Take::ReadOnly => {
            match open_existing(rt, name, how == Take::Existing, manner, taken) {
                Ok(disk) => Ok(disk),
                Err(reason) if reason.is_missing() => Err(Refusal::Missing),
                Err(reason) => Err(Refusal::Failed(reason)),
            }
        }
        Take::New => make_new(rt, name, manner, making),
    }
}

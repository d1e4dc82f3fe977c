//! The name under which a new file is written until it gets its own.

use crate::folder::sync_folder;
use crate::identity::Identity;
use crate::locks::{LockKind, lock};
use crate::reason::{Reason, is_missing};
use crate::replacing::{Access, copy_access};
use std::alloc::{AllocError, Global};
use std::fs::{self, File, OpenOptions, Permissions};
use std::io;
use std::os::unix::fs::{OpenOptionsExt, PermissionsExt};

/// What is set behind the name of a new file until it is whole.
const SUFFIX: &str = ".tdb-new";

/// The permissions of a new file: its owner may read and write it, and nobody else.
const NEW_MODE: u32 = 0o600;

/// The name of a new file until it is whole, and the file of which it is a copy, if it is one.
#[derive(Drop)]
pub struct Part {
    path: String,
    source: Option<Access>,
}

/// A file system has no hard links, or not for this file.
pub(crate) fn has_no_links(error: &io::Error) -> bool {
    matches!(
        error.kind(),
        io::ErrorKind::PermissionDenied | io::ErrorKind::Unsupported | io::ErrorKind::InvalidInput
    )
}

/// Nothing has the name, not even a link.
pub(crate) fn is_free(rt: &HostRuntime, name: &str) -> io::Result<bool> {
    match fs::symlink_metadata(rt, name) {
        Ok(_) => Ok(false),
        Err(error) if is_missing(&error) => Ok(true),
        Err(error) => Err(error),
    }
}

/// Gives a file a name that nothing has: as a second name, and else in place of the first.
fn name_anew(rt: &HostRuntime, from: &str, to: &str) -> io::Result<()> {
    match fs::hard_link(rt, from, to) {
        Ok(()) => fs::remove_file(rt, from),
        Err(error) if has_no_links(&error) && is_free(rt, to)? => fs::rename(rt, from, to),
        Err(error) => Err(error),
    }
}

/// The file at a path is this one.
pub(crate) fn is_at(rt: &HostRuntime, path: &str, identity: Identity) -> io::Result<bool> {
    match fs::symlink_metadata(rt, path) {
        Ok(found) => Ok(Identity::of(&found) == identity),
        Err(error) if is_missing(&error) => Ok(false),
        Err(error) => Err(error),
    }
}

/// The names are those of one file.
pub(crate) fn is_same(rt: &HostRuntime, one: &str, other: &str) -> io::Result<bool> {
    is_at(rt, other, Identity::of(&fs::symlink_metadata(rt, one)?))
}

/// A regular file that may be read, open. Nothing else is opened: to open a pipe might wait. An Err where nothing is at
/// the path, or the system doesn't tell.
fn open_regular(rt: &HostRuntime, path: &str) -> io::Result<Option<File>> {
    if !fs::symlink_metadata(rt, path)?.is_file() {
        return Ok(None);
    }
    match File::open(rt, path) {
        Ok(file) => Ok(Some(file)),
        Err(error) if is_missing(&error) => Err(error),
        Err(_) => Ok(None),
    }
}

/// Removes the file at a path, if there is one, once no other run has it. Where it got another name meanwhile it stays.
/// What isn't a regular file, or may not be read, isn't waited for.
pub(crate) fn remove_unused(rt: &HostRuntime, path: &str, seconds: u32) -> Result<(), Reason> {
    // The lock is kept up to the end.
    let file = match open_regular(rt, path) {
        Ok(file) => file,
        Err(error) if is_missing(&error) => return Ok(()),
        Err(error) => return Err(error.into()),
    };
    if let Some(file) = &file {
        lock(rt, file, LockKind::Exclusive, seconds)?;
        if !is_at(rt, path, Identity::of(&file.metadata()?))? {
            return Ok(());
        }
    }
    match fs::remove_file(rt, path) {
        Err(error) if !is_missing(&error) => Err(error.into()),
        _ => Ok(()),
    }
}

impl Part {
    /// The name of a new file until it is whole, in the same folder.
    pub(crate) fn of(
        alloc: Global,
        name: &str,
        source: Option<Access>,
    ) -> Result<Part, AllocError> {
        let mut path = String::from_str(alloc, name)?;
        path.push_str(SUFFIX)?;
        Ok(Part { path, source })
    }

    /// Makes the file, for its owner alone whatever the process takes away from new files, and locks it. None where
    /// another run came before: the lock was waited for then, and what was left of a run that was killed is removed.
    pub(crate) fn try_make(&self, rt: &HostRuntime, seconds: u32) -> Result<Option<File>, Reason> {
        let made = OpenOptions::new()
            .read(true)
            .write(true)
            .create_new(true)
            .mode(NEW_MODE)
            .open(rt, &self.path);
        let file = match made {
            Ok(file) => file,
            Err(error) if error.kind() == io::ErrorKind::AlreadyExists => {
                self.remove_left(rt, seconds)?;
                return Ok(None);
            }
            Err(error) => return Err(error.into()),
        };
        file.set_permissions(Permissions::from_mode(NEW_MODE))?;
        lock(rt, &file, LockKind::Exclusive, seconds)?;
        let is_there = is_at(rt, &self.path, Identity::of(&file.metadata()?))?;
        Ok(is_there.then_some(file))
    }

    /// Removes what a run left that was killed while it made the same file. The file of one that runs is waited for,
    /// and has its own name then. Nothing but a regular file is removed.
    fn remove_left(&self, rt: &HostRuntime, seconds: u32) -> Result<(), Reason> {
        match fs::symlink_metadata(rt, &self.path) {
            Ok(found) if found.is_file() => remove_unused(rt, &self.path, seconds),
            Ok(_) => Err(Reason::NotRegular),
            Err(error) if is_missing(&error) => Ok(()),
            Err(error) => Err(error.into()),
        }
    }

    /// Removes the name where it is a second one of the file of this name: what is left of a run that was killed while
    /// it gave the file its name. Where a run has the file, or the system refuses it, it stays.
    pub(crate) fn remove_second(&self, rt: &HostRuntime, name: &str) {
        if is_same(rt, name, &self.path).unwrap_or(false) {
            let _ = remove_unused(rt, &self.path, 0);
        }
    }

    /// The file is a copy of another one.
    pub(crate) fn is_copy(&self) -> bool {
        self.source.is_some()
    }

    /// Gives the file its name, where nothing has that, and syncs the folder. A copy gets the permissions, the group
    /// and the owner of its source before, as far as the system allows it.
    pub(crate) fn publish(&self, rt: &HostRuntime, name: &str) -> io::Result<()> {
        if let Some(source) = self.source {
            copy_access(rt, &self.path, source);
        }
        match name_anew(rt, &self.path, name) {
            Ok(()) => sync_folder(rt, name),
            Err(error) => {
                self.discard(rt);
                Err(error)
            }
        }
    }

    /// Removes the file. What can't be removed is left to the next run that makes the same file.
    pub(crate) fn discard(&self, rt: &HostRuntime) {
        let _ = fs::remove_file(rt, &self.path);
    }
}

//! How a file gets another name, also one that a file has already.

use crate::finding::Cause;
use crate::folder::sync_folder;
use crate::holder::Holder;
use crate::identity::Identity;
use crate::manner::{Kept, Manner};
use crate::others::{find_other, find_part_locker};
use crate::part::{has_no_links, is_free, is_same};
use crate::reason::Reason;
use std::alloc::{AllocError, Global};
use std::fs::{self, Metadata, Permissions};
use std::os::unix::fs::{MetadataExt, PermissionsExt, chown};
use std::time::Duration;
use std::{io, thread};

/// The permissions of the owner, the group and all others.
const ALL_PERMISSIONS: u32 = 0o777;

/// The permissions of the group.
const GROUP_PERMISSIONS: u32 = 0o070;

/// How many refused files of one name are kept.
const MOST_REFUSED: u32 = 1000;

/// How often the table of locks is looked at before a refused file is replaced.
const LOOKS: u32 = 20;

/// The pause behind each of those looks, in milliseconds.
const LOOK_PAUSE: u64 = 10;

/// Who may use a file: its permissions, its owner and its group.
#[derive(Clone, Copy, Debug, PartialEq, Eq)]
pub struct Access {
    mode: u32,
    owner: u32,
    group: u32,
}

impl Access {
    /// What was found of a file.
    pub(crate) fn of(found: &Metadata) -> Access {
        Access {
            mode: found.mode() & ALL_PERMISSIONS,
            owner: found.uid(),
            group: found.gid(),
        }
    }
}

/// The regular file at a name that one at another name is to replace, or to which a link at it leads; None where there
/// is no such one.
fn find_replaced(rt: &HostRuntime, from: &str, to: &str) -> Option<Metadata> {
    let moved = fs::symlink_metadata(rt, from).ok()?;
    let replaced = fs::metadata(rt, to).ok()?;
    (moved.is_file() && replaced.is_file()).then_some(replaced)
}

/// Another program that has a file locked or open which was refused. The table of locks is looked at several times: a
/// program that changes the file in a loop has a lock for a part of the time, and leaves what is refused in between.
fn find_changer(rt: &HostRuntime, file: Identity) -> Option<Holder> {
    for _ in 0..LOOKS {
        if let Some(holder) = find_part_locker(rt, file) {
            return Some(holder);
        }
        thread::sleep(rt, Duration::from_millis(LOOK_PAUSE));
    }
    find_other(rt, file)
}

/// The file may be replaced: no other program has it open, as far as that can be seen, or it is to be shared. For one
/// that is to be kept, as it was damaged, it takes 0.2 seconds.
pub(crate) fn check_replaced(
    rt: &HostRuntime,
    from: &str,
    to: &str,
    manner: Manner,
) -> Result<(), Reason> {
    let Some(replaced) = find_replaced(rt, from, to) else {
        return Ok(());
    };
    if manner.is_shared {
        return Ok(());
    }
    let file = Identity::of(&replaced);
    let holder = match manner.replaced {
        Kept::Nowhere => find_other(rt, file),
        Kept::AsRefused | Kept::AsBefore => find_changer(rt, file),
    };
    match holder {
        Some(holder) => Err(Reason::Elsewhere(holder)),
        None => Ok(()),
    }
}

/// The name under which a file stays that a mended one replaces: its own and `.before`.
pub fn before_name(alloc: Global, name: &str) -> Result<String, AllocError> {
    format!(in alloc; "{name}.before")
}

/// The name under which a refused file is kept, the one with this number.
fn refused_name(rt: &HostRuntime, name: &str, number: u32) -> io::Result<String> {
    let kept = match number {
        0 => format!(in rt.alloc(); "{name}.refused")?,
        _ => format!(in rt.alloc(); "{name}.refused.{number}")?,
    };
    Ok(kept)
}

/// The name is another file's.
fn is_taken(error: &io::Error) -> bool {
    error.kind() == io::ErrorKind::AlreadyExists
}

/// Gives a file that is replaced this name too, where nothing has it. A run that was killed may have given it the name
/// already. Where the file system has no hard links the file gets it in place of its own.
fn keep_as(rt: &HostRuntime, name: &str, kept: &str) -> io::Result<()> {
    match fs::hard_link(rt, name, kept) {
        Err(error) if has_no_links(&error) && !fs::exists(rt, kept)? => fs::rename(rt, name, kept),
        Err(error) if is_taken(&error) && is_same(rt, name, kept)? => Ok(()),
        answer => answer,
    }
}

/// Keeps a file that is replaced under its name and `.before`.
fn keep_before(rt: &HostRuntime, name: &str) -> io::Result<()> {
    let kept = before_name(rt.alloc(), name)?;
    keep_as(rt, name, &kept)
}

/// Keeps a refused file that is replaced under the first free one of its names for that, and says so on standard error,
/// and why it was refused. The name that it got.
fn keep_refused(rt: &HostRuntime, name: &str, cause: Cause) -> io::Result<String> {
    for number in 0..MOST_REFUSED {
        let kept = refused_name(rt, name, number)?;
        match keep_as(rt, name, &kept) {
            Err(error) if is_taken(&error) => {}
            Err(error) => return Err(error),
            Ok(()) => {
                let _ = eprintln!(rt; "tdb: {name}: {cause}, and is kept as {kept}");
                return Ok(kept);
            }
        }
    }
    Err(io::Error::from(io::ErrorKind::AlreadyExists))
}

/// Gives the file at `from` the name `to`. A regular file that is replaced passes its permissions, its group and its
/// owner on, as far as the system allows it, and one that is to be kept, which may have been refused for this cause,
/// stays under another name. Where `to` is a link, that is replaced or kept, and the file to which it leads stays as it
/// is. The folder of the new name is synced then, so that the name is on the medium; a folder that may not be opened,
/// or whose file system can't sync it, is left to the system. Where nothing is at `from`, nothing is done. The name
/// under which a refused file stays, where one was replaced.
pub(crate) fn replace(
    rt: &HostRuntime,
    from: &str,
    to: &str,
    manner: Manner,
    cause: Cause,
) -> Result<Option<String>, Reason> {
    if is_free(rt, from)? {
        return Ok(None);
    }
    let mut kept = None;
    if let Some(replaced) = find_replaced(rt, from, to) {
        match manner.replaced {
            Kept::Nowhere => {}
            Kept::AsRefused => kept = Some(keep_refused(rt, to, cause)?),
            Kept::AsBefore => keep_before(rt, to)?,
        }
        copy_access(rt, from, Access::of(&replaced));
    }
    fs::rename(rt, from, to)?;
    sync_folder(rt, to)?;
    Ok(kept)
}

/// Gives a file the permissions, the group and the owner of another, as far as the system allows it: only root may give
/// a file away, and only a member of a group may give it to that. What the group might do then stays forbidden to a
/// group that isn't the same.
pub(crate) fn copy_access(rt: &HostRuntime, name: &str, other: Access) {
    let has_group = chown(rt, name, None, Some(other.group)).is_ok();
    let _ = chown(rt, name, Some(other.owner), None);
    let forbidden = if has_group { 0 } else { GROUP_PERMISSIONS };
    let mode = other.mode & !forbidden;
    let _ = fs::set_permissions(rt, name, Permissions::from_mode(mode));
}

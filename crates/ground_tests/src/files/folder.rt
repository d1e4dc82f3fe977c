// The folder in which the cases are tried, and what is in it.

use std::fs::{self, File, OpenOptions, Permissions};
use std::io;
use std::os::unix::fs::PermissionsExt;
use tdb_files::FileFault;

pub(crate) const FOLDER: &str = "tdb_files_test";

/// Removes the folder and all that is in it.
pub(crate) fn remove(rt: HostRuntime) -> io::Result<()> {
    fs::remove_dir_all(&rt, FOLDER)
}

/// Makes the folder, without what an earlier case left there.
pub(crate) fn make(rt: HostRuntime) -> io::Result<()> {
    let _ = remove(rt);
    fs::create_dir(&rt, FOLDER)
}

/// Sets who may read, write and run a file.
pub(crate) fn set_mode(rt: HostRuntime, name: &str, mode: u32) -> io::Result<()> {
    fs::set_permissions(&rt, name, Permissions::from_mode(mode))
}

/// Who may read, write and run a file.
pub(crate) fn mode_of(rt: HostRuntime, name: &str) -> io::Result<u32> {
    Ok(fs::metadata(&rt, name)?.permissions().mode() & 0o777)
}

/// Lays a file with this content and these permissions, where one may be already.
pub(crate) fn lay(rt: HostRuntime, name: &str, content: &[u8], mode: u32) -> io::Result<()> {
    fs::write(&rt, name, content)?;
    set_mode(rt, name, mode)
}

/// The lock on a file, for reading or for writing.
pub(crate) enum Lock {
    Shared,
    Exclusive,
}

/// Opens a file as another run does.
pub(crate) fn open_other(rt: HostRuntime, name: &str) -> io::Result<File> {
    OpenOptions::new().read(true).write(true).open(&rt, name)
}

/// Whether another open of a file gets this lock on it.
pub(crate) fn gets_lock(other: &File, lock: &Lock) -> bool {
    match lock {
        Lock::Shared => other.try_lock_shared().is_ok(),
        Lock::Exclusive => other.try_lock().is_ok(),
    }
}

/// A name, and what the system has there; None where nothing is.
pub(crate) type Left = (&'static str, Option<&'static [u8]>);

/// Whether the system has all this.
pub(crate) fn has_all(rt: HostRuntime, left: &[Left]) -> bool {
    for (name, content) in left {
        let is_left = match (fs::read(&rt, name), content) {
            (Ok(bytes), Some(content)) => bytes.as_slice() == *content,
            (Err(_), None) => matches!(fs::exists(&rt, name), Ok(false)),
            _ => false,
        };
        if !is_left {
            return false;
        }
    }
    true
}

/// Whether a user is told of a fault in these words; of none, where there are no words.
pub(crate) fn is_told(rt: HostRuntime, fault: Option<&FileFault>, text: &str) -> bool {
    match fault {
        Some(fault) => match format!(in rt.alloc(); "{fault}") {
            Ok(told) => told.as_str() == text,
            Err(_) => false,
        },
        None => text.is_empty(),
    }
}

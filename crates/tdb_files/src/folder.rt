//! The folder of a file, which has the file's name.

use std::fs::File;
use std::io;
use std::path::Path;

/// The folder in which a name stands: the working folder, where none is before it.
fn folder_of(name: &str) -> &str {
    match Path::new(name).parent() {
        Some(folder) if !folder.as_str().is_empty() => folder.as_str(),
        _ => ".",
    }
}

/// The system syncs no such folder: it may not be opened, or its file system can't do that.
fn is_unsynced(error: &io::Error) -> bool {
    matches!(
        error.kind(),
        io::ErrorKind::PermissionDenied | io::ErrorKind::InvalidInput | io::ErrorKind::Unsupported
    )
}

/// Brings to the medium which names the folder of this one has. A folder that the system doesn't sync is left to it.
/// Costs three calls of the system.
pub(crate) fn sync_folder(rt: &HostRuntime, name: &str) -> io::Result<()> {
    let folder = File::open(rt, folder_of(name));
    match folder.and_then(|folder| folder.sync_all()) {
        Err(error) if is_unsynced(&error) => Ok(()),
        answer => answer,
    }
}

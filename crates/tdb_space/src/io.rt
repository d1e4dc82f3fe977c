// The fault of a view of a file.

use tdb_disk::DiskFault;
use thiserror::Error;

/// A call failed because the disk under it failed.
#[derive(Clone, Copy, Debug, PartialEq, Eq, Error)]
#[error("the disk failed")]
pub struct Io;

impl From<DiskFault> for Io {
    fn from(_fault: DiskFault) -> Self {
        Io
    }
}

//! Which file an open file is, whatever name it was opened by.

use std::fs::Metadata;
use std::os::unix::fs::MetadataExt;

/// A file's number and that of its device, which no other file has as long as it is open.
#[derive(Clone, Copy, Debug, PartialEq, Eq, Hash)]
pub struct Identity {
    device: u64,
    inode: u64,
}

/// Linux's number of a device.
const fn device_number(major: u32, minor: u32) -> u64 {
    let (major, minor) = (major as u64, minor as u64);
    ((major & 0xffff_f000) << 32)
        | ((major & 0xfff) << 8)
        | ((minor & 0xffff_ff00) << 12)
        | (minor & 0xff)
}

impl Identity {
    /// The file with this number on the device with these ones.
    pub const fn on_device(major: u32, minor: u32, inode: u64) -> Identity {
        Identity {
            device: device_number(major, minor),
            inode,
        }
    }

    /// The file that this was found of.
    pub(crate) fn of(found: &Metadata) -> Identity {
        Identity {
            device: found.dev(),
            inode: found.ino(),
        }
    }
}

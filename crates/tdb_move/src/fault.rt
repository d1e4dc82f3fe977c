// Why a key isn't moved.

ghost use Rattle.std.specs.Prelude.{◌≡◌};
ghost use Rattle.tdb_move.specs.Faults.{of_stop};
ghost use Rattle.tdb_move.specs.declared.fault.MoveFault.TheVariants as FaultIs;

use std::alloc::AllocError;
use tdb_group::GroupStop;
use tdb_locks::Reply;
use thiserror::Error;

/// Why a key isn't moved from a file into another.
#[derive(Clone, Copy, Debug, PartialEq, Eq, Error)]
pub enum MoveFault {
    /// The file doesn't have the key. Nothing was changed.
    #[error("the file doesn't have the key")]
    KeyMissing,

    /// One of the files has no room within its limit. Lengths are in bytes. Nothing was changed.
    #[error("a file of {len} bytes has no room for {need} more")]
    Full {
        /// The length of the file.
        len: u64,

        /// How many bytes are needed.
        need: u64,
    },

    /// The disk of one of the files failed.
    #[error("a disk failed")]
    Device,

    /// A log failed to take a notice of how a file grew. Nothing was changed.
    #[error("a log failed")]
    Log,

    /// Memory is wanting. Nothing was changed.
    #[error("no memory")]
    Memory,
}

impl From<AllocError> for MoveFault {
    ghost from_gives = { λ _ e. e ≡ FaultIs.Memory };

    fn from(_fault: AllocError) -> Self {
        MoveFault::Memory
    }
}

impl From<GroupStop> for MoveFault {
    ghost from_gives = { λ stop e. e ≡ of_stop stop };

    fn from(stop: GroupStop) -> Self {
        match stop {
            GroupStop::Refused {
                reply: Reply::Full { len, need },
                ..
            } => MoveFault::Full { len, need },
            GroupStop::Refused { .. } | GroupStop::Memory { .. } => MoveFault::Memory,
            GroupStop::Io { .. } => MoveFault::Device,
            GroupStop::LogFailed { .. } => MoveFault::Log,
        }
    }
}

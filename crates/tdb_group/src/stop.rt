// Why a call of a group breaks off.

ghost use Rattle.std.specs.Prelude.{◌≡◌};
ghost use Rattle.tdb_group.specs.Faults.{at_file, of_log};
ghost use Rattle.tdb_group.specs.declared.stop.FileStop.TheVariants as StopIs;

use tdb_locks::Reply;
use tdb_log::LogRefusal;
use tdb_space::Io;
use thiserror::Error;

/// Why a call of a group broke off: at the file with the number `at`, from 0 on.
#[derive(Debug, Drop, PartialEq, Eq, Error)]
pub enum GroupStop {
    /// The file has no room for its commit, as this reply of its Prepare tells, which is `Full`. Every transaction was
    /// cancelled.
    #[error("file {at} has no room for its commit")]
    Refused { at: u32, reply: Reply },

    /// The disk of the file failed.
    #[error("the disk of file {at} failed")]
    Io { at: u32 },

    /// A log failed to take a notice of how the file grew.
    #[error("a log failed at file {at}")]
    LogFailed { at: u32 },

    /// Memory is wanting.
    #[error("no memory for file {at}")]
    Memory { at: u32 },
}

/// The same of one file.
#[derive(Debug, Drop, PartialEq, Eq)]
pub(crate) enum FileStop {
    Refused(Reply),
    Io,
    LogFailed,
    Memory,
}

impl FileStop {
    /// As a stop at the file with this number.
    pub(crate) fn at(self, at: u32) -> GroupStop
        ensures { result ≡ at_file self at }
    {
        match self {
            FileStop::Refused(reply) => GroupStop::Refused { at, reply },
            FileStop::Io => GroupStop::Io { at },
            FileStop::LogFailed => GroupStop::LogFailed { at },
            FileStop::Memory => GroupStop::Memory { at },
        }
    }
}

impl From<Io> for FileStop {
    ghost from_gives = { λ _ e. e ≡ StopIs.Io };

    fn from(_fault: Io) -> Self {
        FileStop::Io
    }
}

impl From<LogRefusal> for FileStop {
    ghost from_gives = { λ refusal e. e ≡ of_log refusal };

    fn from(refusal: LogRefusal) -> Self {
        match refusal {
            LogRefusal::Failed => FileStop::LogFailed,
            LogRefusal::Memory => FileStop::Memory,
        }
    }
}

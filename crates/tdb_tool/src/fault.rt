// How a session ends.

ghost use Rattle.std.specs.Prelude.{◌≡◌};
ghost use Rattle.tdb_tool.specs.declared.fault.SessionFault.TheVariants as FaultIs;
ghost use Rattle.tdb_tool.specs.Serving.{of_run, of_log};

use std::alloc::AllocError;
use tdb_disk::SinkFault;
use tdb_log::LogRefusal;
use tdb_openers::RunFault;
use thiserror::Error;

/// How a session ends whose commands were all taken.
#[derive(Clone, Copy, Debug, PartialEq, Eq)]
pub enum SessionEnd {
    /// The input ended, or a line was `quit`.
    Ended,
    /// The line that begins at the byte `at` of the input, counted from 0, is no command, or is too long.
    Malformed { at: u64 },
}

/// Why a session broke off.
#[derive(Clone, Copy, Debug, PartialEq, Eq, Error)]
pub enum SessionFault {
    /// A read of the input failed.
    #[error("the input failed")]
    Input,
    /// A write of the output failed.
    #[error("the output failed")]
    Output,
    /// A call of the disk failed, or a check found a fault in the file, which no turn leaves.
    #[error("the disk failed")]
    Device,
    /// A log failed to take a notice of what a command had done.
    #[error("a log failed")]
    Log,
    #[error("out of memory")]
    Memory,
}

impl From<AllocError> for SessionFault {
    ghost from_gives = { λ _ e. e ≡ FaultIs.Memory };

    fn from(_: AllocError) -> Self {
        SessionFault::Memory
    }
}

impl From<RunFault> for SessionFault {
    ghost from_gives = { λ fault e. e ≡ of_run fault };

    fn from(fault: RunFault) -> Self {
        match fault {
            RunFault::Io => SessionFault::Device,
            RunFault::Memory => SessionFault::Memory,
        }
    }
}

impl From<SinkFault> for SessionFault {
    ghost from_gives = { λ _ e. e ≡ FaultIs.Output };

    fn from(_: SinkFault) -> Self {
        SessionFault::Output
    }
}

impl From<LogRefusal> for SessionFault {
    ghost from_gives = { λ refusal e. e ≡ of_log refusal };

    fn from(refusal: LogRefusal) -> Self {
        match refusal {
            LogRefusal::Failed => SessionFault::Log,
            LogRefusal::Memory => SessionFault::Memory,
        }
    }
}

// Why pairs aren't merged.

ghost use Rattle.std.specs.Prelude.{◌≡◌};
ghost use Rattle.tdb_merge.specs.Faults.{of_log, of_run, of_value};
ghost use Rattle.tdb_merge.specs.declared.fault.MergeFault.TheVariants as FaultIs;

use std::alloc::AllocError;
use tdb_chain::ValueRefusal;
use tdb_log::LogRefusal;
use tdb_world::RunFault;
use thiserror::Error;

/// Why the pairs of a file aren't merged into another.
#[derive(Clone, Copy, Debug, PartialEq, Eq, Error)]
pub enum MergeFault {
    /// The file into which they are merged has no room within its limit. Lengths are in bytes. Nothing was merged.
    #[error("a file of {len} bytes has no room for {need} more")]
    Full {
        /// The length of the file.
        len: u64,

        /// How many bytes are needed.
        need: u64,
    },

    /// A command of the transaction found no memory. Nothing was merged.
    #[error("no memory for a command")]
    Starved,

    /// The disk failed from which the pairs are read. Nothing was merged.
    #[error("the pairs can't be read")]
    Read,

    /// The disk failed that has the file into which they are merged.
    #[error("the disk failed")]
    Device,

    /// A log failed to take a notice of what a command had done.
    #[error("a log failed")]
    Log,

    /// Memory is wanting for a pair, a report or a log.
    #[error("no memory")]
    Memory,
}

impl From<AllocError> for MergeFault {
    ghost from_gives = { λ _ e. e ≡ FaultIs.Memory };

    fn from(_fault: AllocError) -> Self {
        MergeFault::Memory
    }
}

impl From<RunFault> for MergeFault {
    ghost from_gives = { λ fault e. e ≡ of_run fault };

    fn from(fault: RunFault) -> Self {
        match fault {
            RunFault::Io => MergeFault::Device,
            RunFault::Memory => MergeFault::Memory,
        }
    }
}

impl From<LogRefusal> for MergeFault {
    ghost from_gives = { λ refusal e. e ≡ of_log refusal };

    fn from(refusal: LogRefusal) -> Self {
        match refusal {
            LogRefusal::Failed => MergeFault::Log,
            LogRefusal::Memory => MergeFault::Memory,
        }
    }
}

impl From<ValueRefusal> for MergeFault {
    ghost from_gives = { λ refusal e. e ≡ of_value refusal };

    fn from(refusal: ValueRefusal) -> Self {
        match refusal {
            ValueRefusal::Io => MergeFault::Read,
            ValueRefusal::Memory => MergeFault::Memory,
        }
    }
}

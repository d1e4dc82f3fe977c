// Why no summary is given.

use std::alloc::AllocError;
use tdb_log::LogRefusal;
use tdb_space::Io;
use tdb_world::RunFault;
use thiserror::Error;

/// Why there is no summary.
#[derive(Clone, Copy, Debug, PartialEq, Eq, Error)]
pub enum GenFault {
    /// A call of the disk failed, or a check found a fault in the file, which no turn leaves.
    #[error("the disk failed")]
    Io,
    /// There was no memory for an opener, a command or its copy, or a notice in a log.
    #[error("out of memory")]
    Memory,
    /// A log failed to take a notice of what a turn had done.
    #[error("a log failed")]
    Log,
}

impl From<Io> for GenFault {
    ghost use Rattle.std.specs.Prelude.{◌≡◌};
    ghost use Rattle.tdb_gen.specs.declared.fault.GenFault.TheVariants as GenFaults;

    ghost from_gives = { λ _ e. e ≡ GenFaults.Io };

    fn from(_fault: Io) -> Self {
        GenFault::Io
    }
}

impl From<AllocError> for GenFault {
    ghost use Rattle.std.specs.Prelude.{◌≡◌};
    ghost use Rattle.tdb_gen.specs.declared.fault.GenFault.TheVariants as GenFaults;

    ghost from_gives = { λ _ e. e ≡ GenFaults.Memory };

    fn from(_fault: AllocError) -> Self {
        GenFault::Memory
    }
}

impl From<RunFault> for GenFault {
    ghost use Rattle.std.specs.Prelude.{◌≡◌};
    ghost use Rattle.tdb_gen.specs.Taking.{of_run};

    ghost from_gives = { λ fault e. e ≡ of_run fault };

    fn from(fault: RunFault) -> Self {
        match fault {
            RunFault::Io => GenFault::Io,
            RunFault::Memory => GenFault::Memory,
        }
    }
}

impl From<LogRefusal> for GenFault {
    ghost use Rattle.std.specs.Prelude.{◌≡◌};
    ghost use Rattle.tdb_gen.specs.Taking.{of_log};

    ghost from_gives = { λ refusal e. e ≡ of_log refusal };

    fn from(refusal: LogRefusal) -> Self {
        match refusal {
            LogRefusal::Failed => GenFault::Log,
            LogRefusal::Memory => GenFault::Memory,
        }
    }
}

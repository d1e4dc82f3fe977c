// Why plays break off.

use std::alloc::AllocError;
use tdb_space::Io;
use thiserror::Error;

/// Why plays broke off.
#[derive(Clone, Copy, Debug, PartialEq, Eq, Error)]
pub enum RunFault {
    /// A call of the disk failed, or a check found a fault in the file, which no turn leaves.
    #[error("the disk failed")]
    Io,
    /// There was no memory for a line, or for the copy of a command.
    #[error("out of memory")]
    Memory,
}

impl From<Io> for RunFault {
    ghost use Rattle.std.specs.Prelude.{◌≡◌};
    ghost use Rattle.tdb_openers.specs.declared.fault.RunFault.TheVariants as RunFaults;

    ghost from_gives = { λ _ e. e ≡ RunFaults.Io };

    fn from(_fault: Io) -> Self {
        RunFault::Io
    }
}

impl From<AllocError> for RunFault {
    ghost use Rattle.std.specs.Prelude.{◌≡◌};
    ghost use Rattle.tdb_openers.specs.declared.fault.RunFault.TheVariants as RunFaults;

    ghost from_gives = { λ _ e. e ≡ RunFaults.Memory };

    fn from(_fault: AllocError) -> Self {
        RunFault::Memory
    }
}

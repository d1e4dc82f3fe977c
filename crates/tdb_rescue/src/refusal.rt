// Why the pairs that can be read aren't written to the end.

ghost use Rattle.std.specs.Prelude.{◌≡◌};
ghost use Rattle.tdb_rescue.specs.declared.refusal.RescueRefusal.TheVariants.{Io, OutFailed, Memory};

use std::alloc::AllocError;
use tdb_disk::SinkFault;
use tdb_space::Io as SpaceIo;
use thiserror::Error;

/// Why the pairs that can be read aren't written to the end.
#[derive(Clone, Copy, Debug, PartialEq, Eq, Error)]
pub enum RescueRefusal {
    /// A read of the file failed.
    #[error("the disk failed")]
    Io,

    /// A write to the sink failed.
    #[error("the sink failed")]
    OutFailed,

    /// Memory is wanting.
    #[error("no memory")]
    Memory,
}

impl From<SpaceIo> for RescueRefusal {
    ghost from_gives = { λ _ e. e ≡ Io };

    fn from(_fault: SpaceIo) -> Self {
        RescueRefusal::Io
    }
}

impl From<SinkFault> for RescueRefusal {
    ghost from_gives = { λ _ e. e ≡ OutFailed };

    fn from(_fault: SinkFault) -> Self {
        RescueRefusal::OutFailed
    }
}

impl From<AllocError> for RescueRefusal {
    ghost from_gives = { λ _ e. e ≡ Memory };

    fn from(_fault: AllocError) -> Self {
        RescueRefusal::Memory
    }
}

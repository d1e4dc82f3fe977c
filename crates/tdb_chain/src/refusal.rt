// Why the value of a record isn't given.

use std::alloc::AllocError;
use tdb_space::Io as SpaceIo;
use thiserror::Error;

/// Why the value of a record isn't given.
#[derive(Clone, Copy, Debug, PartialEq, Eq, Error)]
pub enum ValueRefusal {
    /// The disk failed.
    #[error("the disk failed")]
    Io,

    /// Memory is wanting.
    #[error("no memory")]
    Memory,
}

impl From<SpaceIo> for ValueRefusal {
    ghost use Rattle.std.specs.Prelude.{◌≡◌};
    ghost use Rattle.tdb_chain.specs.declared.refusal.ValueRefusal.{ValueRefusal};
    ghost use Rattle.tdb_chain.specs.declared.refusal.ValueRefusal.TheVariants.{Io};

    ghost from_gives = { λ _ e. e ≡ Io };

    fn from(_fault: SpaceIo) -> Self {
        ValueRefusal::Io
    }
}

impl From<AllocError> for ValueRefusal {
    ghost use Rattle.std.specs.Prelude.{◌≡◌};
    ghost use Rattle.tdb_chain.specs.declared.refusal.ValueRefusal.{ValueRefusal};
    ghost use Rattle.tdb_chain.specs.declared.refusal.ValueRefusal.TheVariants.{Memory};

    ghost from_gives = { λ _ e. e ≡ Memory };

    fn from(_fault: AllocError) -> Self {
        ValueRefusal::Memory
    }
}

// Why the free list isn't told.

use std::alloc::AllocError;
use tdb_space::Io as SpaceIo;
use thiserror::Error;

/// Why the free list isn't told.
#[derive(Clone, Copy, Debug, PartialEq, Eq, Error)]
pub enum ListRefusal {
    /// The disk failed.
    #[error("the disk failed")]
    Io,

    /// Memory is wanting.
    #[error("no memory")]
    Memory,
}

impl From<SpaceIo> for ListRefusal {
    ghost use Rattle.std.specs.Prelude.{◌≡◌};
    ghost use Rattle.tdb_free.specs.declared.list_refusal.ListRefusal.{ListRefusal};
    ghost use Rattle.tdb_free.specs.declared.list_refusal.ListRefusal.TheVariants.{Io};

    ghost from_gives = { λ _ e. e ≡ Io };

    fn from(_fault: SpaceIo) -> Self {
        ListRefusal::Io
    }
}

impl From<AllocError> for ListRefusal {
    ghost use Rattle.std.specs.Prelude.{◌≡◌};
    ghost use Rattle.tdb_free.specs.declared.list_refusal.ListRefusal.{ListRefusal};
    ghost use Rattle.tdb_free.specs.declared.list_refusal.ListRefusal.TheVariants.{Memory};

    ghost from_gives = { λ _ e. e ≡ Memory };

    fn from(_fault: AllocError) -> Self {
        ListRefusal::Memory
    }
}

// Why a cursor doesn't go on.

use std::alloc::AllocError;
use tdb_space::Io as SpaceIo;
use thiserror::Error;

/// Why a cursor doesn't go on.
#[derive(Clone, Copy, Debug, PartialEq, Eq, Error)]
pub enum WalkRefusal {
    /// The disk failed.
    #[error("the disk failed")]
    Io,

    /// Memory is wanting.
    #[error("no memory")]
    Memory,
}

impl From<SpaceIo> for WalkRefusal {
    ghost use Rattle.std.specs.Prelude.{◌≡◌};
    ghost use Rattle.tdb_walk.specs.declared.refusal.WalkRefusal.{WalkRefusal};
    ghost use Rattle.tdb_walk.specs.declared.refusal.WalkRefusal.TheVariants.{Io};

    ghost from_gives = { λ _ e. e ≡ Io };

    fn from(_fault: SpaceIo) -> Self {
        WalkRefusal::Io
    }
}

impl From<AllocError> for WalkRefusal {
    ghost use Rattle.std.specs.Prelude.{◌≡◌};
    ghost use Rattle.tdb_walk.specs.declared.refusal.WalkRefusal.{WalkRefusal};
    ghost use Rattle.tdb_walk.specs.declared.refusal.WalkRefusal.TheVariants.{Memory};

    ghost from_gives = { λ _ e. e ≡ Memory };

    fn from(_fault: AllocError) -> Self {
        WalkRefusal::Memory
    }
}

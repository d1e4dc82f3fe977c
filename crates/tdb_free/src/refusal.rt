// Why a free record isn't given or taken.

use tdb_space::Io as SpaceIo;
use thiserror::Error;

/// Why a record isn't given to the free list or taken from it.
#[derive(Clone, Copy, Debug, PartialEq, Eq, Error)]
pub enum FreeRefusal {
    /// No free record is long enough, and the file must not grow by so much. Lengths are in bytes.
    #[error("a file of {len} bytes has no room for {need} more")]
    Full {
        /// The length of the file.
        len: u64,

        /// How many bytes the record needs, with its header.
        need: u64,
    },

    /// The disk failed.
    #[error("the disk failed")]
    Io,
}

impl From<SpaceIo> for FreeRefusal {
    ghost use Rattle.std.specs.Prelude.{◌≡◌};
    ghost use Rattle.tdb_free.specs.declared.refusal.FreeRefusal.{FreeRefusal};
    ghost use Rattle.tdb_free.specs.declared.refusal.FreeRefusal.TheVariants.{Io};

    ghost from_gives = { λ _ e. e ≡ Io };

    fn from(_fault: SpaceIo) -> Self {
        FreeRefusal::Io
    }
}

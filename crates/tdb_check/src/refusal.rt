// Why a check gives no report.

use std::alloc::AllocError;
use tdb_space::Io as SpaceIo;
use tdb_words::What;
use thiserror::Error;

/// Why a check gives no report.
#[derive(Clone, Copy, Debug, PartialEq, Eq, Error)]
pub enum CheckRefusal {
    /// The file has a fault, and this is its first. `at` is its place, an offset in bytes.
    #[error("corrupt {what} {at}")]
    Corrupt { what: What, at: u64 },

    /// The disk failed.
    #[error("the disk failed")]
    Io,

    /// Memory is wanting.
    #[error("no memory")]
    Memory,
}

impl From<SpaceIo> for CheckRefusal {
    ghost use Rattle.std.specs.Prelude.{◌≡◌};
    ghost use Rattle.tdb_check.specs.declared.refusal.CheckRefusal.{CheckRefusal};
    ghost use Rattle.tdb_check.specs.declared.refusal.CheckRefusal.TheVariants.{Io};

    ghost from_gives = { λ _ e. e ≡ Io };

    fn from(_fault: SpaceIo) -> Self {
        CheckRefusal::Io
    }
}

impl From<AllocError> for CheckRefusal {
    ghost use Rattle.std.specs.Prelude.{◌≡◌};
    ghost use Rattle.tdb_check.specs.declared.refusal.CheckRefusal.{CheckRefusal};
    ghost use Rattle.tdb_check.specs.declared.refusal.CheckRefusal.TheVariants.{Memory};

    ghost from_gives = { λ _ e. e ≡ Memory };

    fn from(_fault: AllocError) -> Self {
        CheckRefusal::Memory
    }
}

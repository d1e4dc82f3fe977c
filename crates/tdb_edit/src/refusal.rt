// Why a value isn't stored.

ghost use Rattle.std.specs.Prelude.{◌≡◌};
ghost use Rattle.tdb_edit.specs.declared.refusal.StoreRefusal.TheVariants.{Io as IoIs};
ghost use Rattle.tdb_edit.specs.Stored.{of_free, of_list};

use tdb_free::{FreeRefusal, ListRefusal};
use tdb_space::Io;
use thiserror::Error;

/// Why a value isn't stored.
#[derive(Clone, Copy, Debug, PartialEq, Eq, Error)]
pub enum StoreRefusal {
    /// No free record is long enough, and the file may not grow by so much. Lengths are in bytes.
    #[error("a file of {len} bytes has no room for {need} more")]
    Full {
        /// The length of the file.
        len: u64,

        /// How many bytes the record needs, with its header.
        need: u64,
    },

    /// The disk failed.
    #[error("the disk failed")]
    Io,

    /// Memory is wanting.
    #[error("no memory")]
    Memory,
}

impl From<Io> for StoreRefusal {
    ghost from_gives = { λ _ e. e ≡ IoIs };

    fn from(_: Io) -> Self {
        StoreRefusal::Io
    }
}

impl From<FreeRefusal> for StoreRefusal {
    ghost from_gives = { λ refusal e. e ≡ of_free refusal };

    fn from(refusal: FreeRefusal) -> Self {
        match refusal {
            FreeRefusal::Full { len, need } => StoreRefusal::Full { len, need },
            FreeRefusal::Io => StoreRefusal::Io,
        }
    }
}

impl From<ListRefusal> for StoreRefusal {
    ghost from_gives = { λ refusal e. e ≡ of_list refusal };

    fn from(refusal: ListRefusal) -> Self {
        match refusal {
            ListRefusal::Io => StoreRefusal::Io,
            ListRefusal::Memory => StoreRefusal::Memory,
        }
    }
}

// Why the undo area of a file isn't looked at or undone.

use tdb_disk::DiskFault;
use tdb_space::Io as SpaceIo;
use tdb_words::What;
use thiserror::Error;

/// Why the undo area of a file isn't looked at or undone.
#[derive(Clone, Copy, Debug, PartialEq, Eq, Error)]
pub enum UndoRefusal {
    /// The undo area has a fault, and this is the first one in the order in which it is opened. `what` is `AreaBad`
    /// where it can't stand where the header says, its length doesn't fit or its gate word is neither open nor shut,
    /// and `UndoBad` where its gate is open and what it keeps can't be undone. `at` is the place of the fault, an
    /// offset in bytes.
    #[error("corrupt {what} {at}")]
    UndoBad { what: What, at: u64 },

    /// The disk failed.
    #[error("the disk failed")]
    Io,
}

impl From<DiskFault> for UndoRefusal {
    ghost use Rattle.std.specs.Prelude.{◌≡◌};
    ghost use Rattle.tdb_undo.specs.declared.refusal.UndoRefusal.{UndoRefusal};
    ghost use Rattle.tdb_undo.specs.declared.refusal.UndoRefusal.TheVariants.{Io};

    ghost from_gives = { λ _ e. e ≡ Io };

    fn from(_fault: DiskFault) -> Self {
        UndoRefusal::Io
    }
}

impl From<SpaceIo> for UndoRefusal {
    ghost use Rattle.std.specs.Prelude.{◌≡◌};
    ghost use Rattle.tdb_undo.specs.declared.refusal.UndoRefusal.{UndoRefusal};
    ghost use Rattle.tdb_undo.specs.declared.refusal.UndoRefusal.TheVariants.{Io};

    ghost from_gives = { λ _ e. e ≡ Io };

    fn from(_fault: SpaceIo) -> Self {
        UndoRefusal::Io
    }
}

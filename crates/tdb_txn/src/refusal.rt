//! Why a call on a transaction failed.

use crate::comparing::RunsRefusal;
use std::alloc::AllocError;
use tdb_disk::DiskFault;
use tdb_space::Io as SpaceIo;
use thiserror::Error;

/// A call on a transaction failed.
#[derive(Clone, Copy, Debug, PartialEq, Eq, Error)]
pub enum TxnRefusal {
    /// The file has `len` bytes and needs `need` more, which is past its greatest length.
    #[error("full: {len} bytes, and {need} more are needed")]
    Full {
        /// The length in bytes.
        len: u64,

        /// How many bytes more are needed.
        need: u64,
    },

    /// The disk failed.
    #[error("the disk failed")]
    Io,

    /// There was no memory.
    #[error("out of memory")]
    Memory,
}

impl From<DiskFault> for TxnRefusal {
    ghost use Rattle.std.specs.Prelude.{◌≡◌};
    ghost use Rattle.tdb_txn.specs.declared.refusal.TxnRefusal.{TxnRefusal};
    ghost use Rattle.tdb_txn.specs.declared.refusal.TxnRefusal.TheVariants.{Io};

    ghost from_gives = { λ _ e. e ≡ Io };

    fn from(_fault: DiskFault) -> Self {
        TxnRefusal::Io
    }
}

impl From<AllocError> for TxnRefusal {
    ghost use Rattle.std.specs.Prelude.{◌≡◌};
    ghost use Rattle.tdb_txn.specs.declared.refusal.TxnRefusal.{TxnRefusal};
    ghost use Rattle.tdb_txn.specs.declared.refusal.TxnRefusal.TheVariants.{Memory};

    ghost from_gives = { λ _ e. e ≡ Memory };

    fn from(_fault: AllocError) -> Self {
        TxnRefusal::Memory
    }
}

impl From<SpaceIo> for TxnRefusal {
    ghost use Rattle.std.specs.Prelude.{◌≡◌};
    ghost use Rattle.tdb_txn.specs.declared.refusal.TxnRefusal.{TxnRefusal};
    ghost use Rattle.tdb_txn.specs.declared.refusal.TxnRefusal.TheVariants.{Io};

    ghost from_gives = { λ _ e. e ≡ Io };

    fn from(_fault: SpaceIo) -> Self {
        TxnRefusal::Io
    }
}

impl From<RunsRefusal> for TxnRefusal {
    ghost use Rattle.std.specs.Prelude.{◌≡◌};
    ghost use Rattle.tdb_txn.specs.Answered.{of_runs};

    ghost from_gives = { λ refusal e. e ≡ of_runs refusal };

    fn from(refusal: RunsRefusal) -> Self {
        match refusal {
            RunsRefusal::Io => TxnRefusal::Io,
            RunsRefusal::Memory { content: _ } => TxnRefusal::Memory,
        }
    }
}

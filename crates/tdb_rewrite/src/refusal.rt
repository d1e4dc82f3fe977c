// Why a file isn't summed up or shown.

ghost use Rattle.std.specs.Prelude.{◌≡◌};
ghost use Rattle.tdb_rewrite.specs.Refusal.{of_check, of_dump, of_lines, of_list};
ghost use Rattle.tdb_rewrite.specs.declared.refusal.SummaryRefusal.TheVariants.{Io as SummaryIo};
ghost use Rattle.tdb_rewrite.specs.declared.refusal.LinesRefusal.TheVariants.{Io as LinesIo, Memory as LinesMemory};
ghost use Rattle.tdb_rewrite.specs.declared.refusal.ShowRefusal.TheVariants.{Io as ShowIo, Failed, Memory as ShowMemory};

use std::alloc::AllocError;
use tdb_backup::DumpRefusal;
use tdb_check::CheckRefusal;
use tdb_disk::SinkFault;
use tdb_free::ListRefusal;
use tdb_space::Io as SpaceIo;
use tdb_words::What;
use thiserror::Error;

/// Why a file isn't summed up.
#[derive(Clone, Copy, Debug, PartialEq, Eq, Error)]
pub enum SummaryRefusal {
    /// The file isn't accepted, and this is its first fault. `at` is its place, an offset in bytes.
    #[error("corrupt {what} {at}")]
    Corrupt {
        /// What is wrong.
        what: What,

        /// The place.
        at: u64,
    },

    /// The disk failed.
    #[error("the disk failed")]
    Io,

    /// Memory is wanting.
    #[error("no memory")]
    Memory,
}

impl From<CheckRefusal> for SummaryRefusal {
    ghost from_gives = { λ refusal e. e ≡ of_check refusal };

    fn from(refusal: CheckRefusal) -> Self {
        match refusal {
            CheckRefusal::Corrupt { what, at } => SummaryRefusal::Corrupt { what, at },
            CheckRefusal::Io => SummaryRefusal::Io,
            CheckRefusal::Memory => SummaryRefusal::Memory,
        }
    }
}

impl From<SpaceIo> for SummaryRefusal {
    ghost from_gives = { λ _ e. e ≡ SummaryIo };

    fn from(_fault: SpaceIo) -> Self {
        SummaryRefusal::Io
    }
}

/// Why the records of a chain aren't shown.
#[derive(Clone, Copy, Debug, PartialEq, Eq, Error)]
pub enum LinesRefusal {
    /// The disk failed.
    #[error("the disk failed")]
    Io,

    /// Memory is wanting.
    #[error("no memory")]
    Memory,
}

impl From<SpaceIo> for LinesRefusal {
    ghost from_gives = { λ _ e. e ≡ LinesIo };

    fn from(_fault: SpaceIo) -> Self {
        LinesRefusal::Io
    }
}

impl From<AllocError> for LinesRefusal {
    ghost from_gives = { λ _ e. e ≡ LinesMemory };

    fn from(_fault: AllocError) -> Self {
        LinesRefusal::Memory
    }
}

/// Why what a file holds isn't written to the end.
#[derive(Clone, Copy, Debug, PartialEq, Eq, Error)]
pub enum ShowRefusal {
    /// The disk failed.
    #[error("the disk failed")]
    Io,

    /// The sink failed.
    #[error("the sink failed")]
    Failed,

    /// Memory is wanting.
    #[error("no memory")]
    Memory,
}

impl From<DumpRefusal> for ShowRefusal {
    ghost from_gives = { λ refusal e. e ≡ of_dump refusal };

    fn from(refusal: DumpRefusal) -> Self {
        match refusal {
            DumpRefusal::Io => ShowRefusal::Io,
            DumpRefusal::Failed => ShowRefusal::Failed,
            DumpRefusal::Memory => ShowRefusal::Memory,
        }
    }
}

impl From<LinesRefusal> for ShowRefusal {
    ghost from_gives = { λ refusal e. e ≡ of_lines refusal };

    fn from(refusal: LinesRefusal) -> Self {
        match refusal {
            LinesRefusal::Io => ShowRefusal::Io,
            LinesRefusal::Memory => ShowRefusal::Memory,
        }
    }
}

impl From<ListRefusal> for ShowRefusal {
    ghost from_gives = { λ refusal e. e ≡ of_list refusal };

    fn from(refusal: ListRefusal) -> Self {
        match refusal {
            ListRefusal::Io => ShowRefusal::Io,
            ListRefusal::Memory => ShowRefusal::Memory,
        }
    }
}

impl From<SpaceIo> for ShowRefusal {
    ghost from_gives = { λ _ e. e ≡ ShowIo };

    fn from(_fault: SpaceIo) -> Self {
        ShowRefusal::Io
    }
}

impl From<SinkFault> for ShowRefusal {
    ghost from_gives = { λ _ e. e ≡ Failed };

    fn from(_fault: SinkFault) -> Self {
        ShowRefusal::Failed
    }
}

impl From<AllocError> for ShowRefusal {
    ghost from_gives = { λ _ e. e ≡ ShowMemory };

    fn from(_fault: AllocError) -> Self {
        ShowRefusal::Memory
    }
}

// Why pairs aren't written, added, copied or restored.

ghost use Rattle.std.specs.Prelude.{◌≡◌};
ghost use Rattle.tdb_backup.specs.declared.refusal.DumpRefusal.TheVariants.{Failed, Memory};
ghost use Rattle.tdb_backup.specs.declared.refusal.AddRefusal.TheVariants as AddIs;
ghost use Rattle.tdb_backup.specs.declared.refusal.BackupRefusal.TheVariants as BackupIs;
ghost use Rattle.tdb_backup.specs.declared.refusal.InsertRefusal.TheVariants.{Io as InsertIo, Memory as InsertMemory};
ghost use Rattle.tdb_backup.specs.declared.refusal.RestoreRefusal.TheVariants.{Input, Memory as RestoreMemory};
ghost use Rattle.tdb_backup.specs.Building.{of_read, of_insert, of_added};
ghost use Rattle.tdb_backup.specs.Dump.{of_value};
ghost use Rattle.tdb_backup.specs.Filling.{of_free};
ghost use Rattle.tdb_backup.specs.Restoring.{of_text, of_pair, of_added_pair};

use std::alloc::AllocError;
use tdb_chain::ValueRefusal;
use tdb_disk::{SinkFault, SourceFault};
use tdb_dump::ReadRefusal;
use tdb_free::FreeRefusal;
use tdb_log::LogRefusal;
use tdb_space::Io as SpaceIo;
use thiserror::Error;

/// Why the pairs of a file aren't written to the end.
#[derive(Clone, Copy, Debug, PartialEq, Eq, Error)]
pub enum DumpRefusal {
    /// The disk failed.
    #[error("the disk failed")]
    Io,

    /// The sink failed.
    #[error("the sink failed")]
    Failed,

    /// Memory is wanting.
    #[error("no memory")]
    Memory,
}

impl From<ValueRefusal> for DumpRefusal {
    ghost from_gives = { λ refusal e. e ≡ of_value refusal };

    fn from(refusal: ValueRefusal) -> Self {
        match refusal {
            ValueRefusal::Io => DumpRefusal::Io,
            ValueRefusal::Memory => DumpRefusal::Memory,
        }
    }
}

impl From<SinkFault> for DumpRefusal {
    ghost from_gives = { λ _ e. e ≡ Failed };

    fn from(_fault: SinkFault) -> Self {
        DumpRefusal::Failed
    }
}

impl From<AllocError> for DumpRefusal {
    ghost from_gives = { λ _ e. e ≡ Memory };

    fn from(_fault: AllocError) -> Self {
        DumpRefusal::Memory
    }
}

/// Why a pair isn't added to a file.
#[derive(Clone, Copy, Debug, PartialEq, Eq, Error)]
pub enum InsertRefusal {
    /// No free record is long enough, and the file must not grow by so much. Lengths are in bytes.
    #[error("a file of {len} bytes has no room for {need} more")]
    Full {
        /// The length of the file.
        len: u64,

        /// How many bytes the record needs, with its header.
        need: u64,
    },

    /// The disk failed.
    #[error("the disk failed")]
    Io,

    /// Memory is wanting.
    #[error("no memory")]
    Memory,
}

impl From<FreeRefusal> for InsertRefusal {
    ghost from_gives = { λ refusal e. e ≡ of_free refusal };

    fn from(refusal: FreeRefusal) -> Self {
        match refusal {
            FreeRefusal::Full { len, need } => InsertRefusal::Full { len, need },
            FreeRefusal::Io => InsertRefusal::Io,
        }
    }
}

impl From<SpaceIo> for InsertRefusal {
    ghost from_gives = { λ _ e. e ≡ InsertIo };

    fn from(_fault: SpaceIo) -> Self {
        InsertRefusal::Io
    }
}

impl From<AllocError> for InsertRefusal {
    ghost from_gives = { λ _ e. e ≡ InsertMemory };

    fn from(_fault: AllocError) -> Self {
        InsertRefusal::Memory
    }
}

/// Why a pair isn't added to a file where logs are told of each growth, or why that isn't told.
#[derive(Clone, Copy, Debug, PartialEq, Eq, Error)]
pub(crate) enum AddRefusal {
    /// The pair isn't added.
    #[error("the pair isn't added")]
    Insert(InsertRefusal),

    /// The pair is added, and the last log didn't take that the file grew.
    #[error("the growth isn't told")]
    Log(LogRefusal),
}

impl From<InsertRefusal> for AddRefusal {
    ghost from_gives = { λ refusal e. e ≡ AddIs.Insert refusal };

    fn from(refusal: InsertRefusal) -> Self {
        AddRefusal::Insert(refusal)
    }
}

impl From<SpaceIo> for AddRefusal {
    ghost from_gives = { λ _ e. e ≡ AddIs.Insert InsertIo };

    fn from(_fault: SpaceIo) -> Self {
        AddRefusal::Insert(InsertRefusal::Io)
    }
}

impl From<LogRefusal> for AddRefusal {
    ghost from_gives = { λ refusal e. e ≡ AddIs.Log refusal };

    fn from(refusal: LogRefusal) -> Self {
        AddRefusal::Log(refusal)
    }
}

/// Why not all pairs of a file are copied to another one.
#[derive(Clone, Copy, Debug, PartialEq, Eq, Error)]
pub enum CopyRefusal {
    /// The disk of the file that is read failed.
    #[error("the disk that is read failed")]
    Read,

    /// The disk of the file that is written failed.
    #[error("the disk that is written failed")]
    Write,

    /// The file that is written has no room for a pair. Lengths are in bytes.
    #[error("a file of {len} bytes has no room for {need} more")]
    Full {
        /// The length of the file.
        len: u64,

        /// How many bytes the pair's record needs, with its header.
        need: u64,
    },

    /// Memory is wanting.
    #[error("no memory")]
    Memory,
}

impl From<ValueRefusal> for CopyRefusal {
    ghost from_gives = { λ refusal e. e ≡ of_read refusal };

    fn from(refusal: ValueRefusal) -> Self {
        match refusal {
            ValueRefusal::Io => CopyRefusal::Read,
            ValueRefusal::Memory => CopyRefusal::Memory,
        }
    }
}

impl From<InsertRefusal> for CopyRefusal {
    ghost from_gives = { λ refusal e. e ≡ of_insert refusal };

    fn from(refusal: InsertRefusal) -> Self {
        match refusal {
            InsertRefusal::Full { len, need } => CopyRefusal::Full { len, need },
            InsertRefusal::Io => CopyRefusal::Write,
            InsertRefusal::Memory => CopyRefusal::Memory,
        }
    }
}

/// Why not all pairs of a file are copied to another one where logs are told of each growth, or why that isn't told.
#[derive(Clone, Copy, Debug, PartialEq, Eq, Error)]
pub enum BackupRefusal {
    /// The pairs aren't copied.
    #[error("the pairs aren't copied")]
    Copy(CopyRefusal),

    /// The last log didn't take that the file that is written grew.
    #[error("the growth isn't told")]
    Log(LogRefusal),
}

impl From<ValueRefusal> for BackupRefusal {
    ghost from_gives = { λ refusal e. e ≡ BackupIs.Copy (of_read refusal) };

    fn from(refusal: ValueRefusal) -> Self {
        BackupRefusal::Copy(CopyRefusal::from(refusal))
    }
}

impl From<AddRefusal> for BackupRefusal {
    ghost from_gives = { λ refusal e. e ≡ of_added refusal };

    fn from(refusal: AddRefusal) -> Self {
        match refusal {
            AddRefusal::Insert(refusal) => BackupRefusal::Copy(CopyRefusal::from(refusal)),
            AddRefusal::Log(refusal) => BackupRefusal::Log(refusal),
        }
    }
}

/// Why not all pairs of a dump text are added to a file.
#[derive(Clone, Copy, Debug, PartialEq, Eq, Error)]
pub enum RestoreRefusal {
    /// The source of the text failed.
    #[error("the source failed")]
    Input,

    /// The disk of the file failed.
    #[error("the disk failed")]
    Io,

    /// The text stops to be dump text at this place, in bytes from 0, or is too long.
    #[error("malformed at {at}")]
    Malformed {
        /// The place.
        at: u64,
    },

    /// The file has no room for a pair. Lengths are in bytes.
    #[error("a file of {len} bytes has no room for {need} more")]
    Full {
        /// The length of the file.
        len: u64,

        /// How many bytes the pair's record needs, with its header.
        need: u64,
    },

    /// Memory is wanting.
    #[error("no memory")]
    Memory,

    /// The last log didn't take that the file grew.
    #[error("the growth isn't told")]
    Log(LogRefusal),
}

impl From<SourceFault> for RestoreRefusal {
    ghost from_gives = { λ _ e. e ≡ Input };

    fn from(_fault: SourceFault) -> Self {
        RestoreRefusal::Input
    }
}

impl From<ReadRefusal> for RestoreRefusal {
    ghost from_gives = { λ refusal e. e ≡ of_text refusal };

    fn from(refusal: ReadRefusal) -> Self {
        match refusal {
            ReadRefusal::Malformed { at } => RestoreRefusal::Malformed { at },
            ReadRefusal::Memory => RestoreRefusal::Memory,
        }
    }
}

impl From<InsertRefusal> for RestoreRefusal {
    ghost from_gives = { λ refusal e. e ≡ of_pair refusal };

    fn from(refusal: InsertRefusal) -> Self {
        match refusal {
            InsertRefusal::Full { len, need } => RestoreRefusal::Full { len, need },
            InsertRefusal::Io => RestoreRefusal::Io,
            InsertRefusal::Memory => RestoreRefusal::Memory,
        }
    }
}

impl From<AddRefusal> for RestoreRefusal {
    ghost from_gives = { λ refusal e. e ≡ of_added_pair refusal };

    fn from(refusal: AddRefusal) -> Self {
        match refusal {
            AddRefusal::Insert(refusal) => RestoreRefusal::from(refusal),
            AddRefusal::Log(refusal) => RestoreRefusal::Log(refusal),
        }
    }
}

impl From<AllocError> for RestoreRefusal {
    ghost from_gives = { λ _ e. e ≡ RestoreMemory };

    fn from(_fault: AllocError) -> Self {
        RestoreRefusal::Memory
    }
}

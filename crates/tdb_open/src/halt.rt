// Why a file isn't opened, and why a look into it ends without an answer.

ghost use Rattle.std.specs.Prelude.{◌≡◌};
ghost use Rattle.tdb_open.specs.declared.halt.Fault.TheVariants as FaultIs;
ghost use Rattle.tdb_open.specs.declared.halt.Halt.TheVariants.{Device};
ghost use Rattle.tdb_open.specs.Opening.{asks_for_undo, of_fault, of_front, of_restored_front, of_undo, of_check, of_value, of_log, log_fault};

use std::alloc::AllocError;
use tdb_chain::ValueRefusal;
use tdb_check::{CheckRefusal, FrontRefusal};
use tdb_disk::DiskFault;
use tdb_log::LogRefusal;
use tdb_space::Io;
use tdb_undo::UndoRefusal;
use tdb_words::{HeaderFault, What};
use thiserror::Error;

/// Why a file isn't opened: a fact about its bytes. Lengths and places are in bytes.
#[derive(Clone, Copy, Debug, PartialEq, Eq, Error)]
pub enum Refusal {
    /// The file, of `len` bytes, is longer than the longest.
    #[error("the file is too long")]
    TooLong { len: u64 },

    /// The header has a fault, and this is its first.
    #[error("the header has a fault")]
    Header { fault: HeaderFault },

    /// Its own header is sound, and this is the first fault that opening the file meets behind it, or in what its
    /// undo gives.
    #[error("the file has a fault")]
    Corrupt { what: What, at: u64 },

    /// It was to be read alone, and a change that wasn't finished would have to be undone first.
    #[error("needs recovery")]
    NeedsRecovery,
}

/// Why a look into a file ends without an answer.
#[derive(Clone, Copy, Debug, PartialEq, Eq, Error)]
pub enum Halt {
    /// The file isn't opened.
    #[error("the file is refused")]
    Refused { refusal: Refusal },

    /// A call of the disk failed.
    #[error("device fault")]
    Device,
    #[error("out of memory")]
    Memory,

    /// A log failed.
    #[error("log fault")]
    Log,
}

/// Why an act on an opened file ends without a reply.
#[derive(Clone, Copy, Debug, PartialEq, Eq, Error)]
pub enum Fault {
    /// A call of the disk failed.
    #[error("device fault")]
    Device,
    #[error("out of memory")]
    Memory,

    /// A log failed.
    #[error("log fault")]
    Log,
}

impl From<DiskFault> for Fault {
    ghost from_gives = { λ _ e. e ≡ FaultIs.Device };

    fn from(_: DiskFault) -> Self {
        Fault::Device
    }
}

impl From<Io> for Fault {
    ghost from_gives = { λ _ e. e ≡ FaultIs.Device };

    fn from(_: Io) -> Self {
        Fault::Device
    }
}

impl From<AllocError> for Fault {
    ghost from_gives = { λ _ e. e ≡ FaultIs.Memory };

    fn from(_: AllocError) -> Self {
        Fault::Memory
    }
}

impl From<ValueRefusal> for Fault {
    ghost from_gives = { λ refusal e. e ≡ of_value refusal };

    fn from(refusal: ValueRefusal) -> Self {
        match refusal {
            ValueRefusal::Io => Fault::Device,
            ValueRefusal::Memory => Fault::Memory,
        }
    }
}

impl From<Fault> for Halt {
    ghost from_gives = { λ fault e. e ≡ of_fault fault };

    fn from(fault: Fault) -> Self {
        match fault {
            Fault::Device => Halt::Device,
            Fault::Memory => Halt::Memory,
            Fault::Log => Halt::Log,
        }
    }
}

impl From<LogRefusal> for Fault {
    ghost from_gives = { λ refusal e. e ≡ log_fault refusal };

    fn from(refusal: LogRefusal) -> Self {
        match refusal {
            LogRefusal::Failed => Fault::Log,
            LogRefusal::Memory => Fault::Memory,
        }
    }
}

impl From<LogRefusal> for Halt {
    ghost from_gives = { λ refusal e. e ≡ of_log refusal };

    fn from(refusal: LogRefusal) -> Self {
        match refusal {
            LogRefusal::Failed => Halt::Log,
            LogRefusal::Memory => Halt::Memory,
        }
    }
}

impl From<DiskFault> for Halt {
    ghost from_gives = { λ _ e. e ≡ Device };

    fn from(_: DiskFault) -> Self {
        Halt::Device
    }
}

impl From<FrontRefusal> for Halt {
    ghost from_gives = { λ front e. e ≡ of_front front };

    fn from(front: FrontRefusal) -> Self {
        match front {
            FrontRefusal::Short { len } => Halt::Refused {
                refusal: Refusal::Corrupt {
                    what: What::Short,
                    at: len,
                },
            },
            FrontRefusal::Header { fault } => Halt::Refused {
                refusal: Refusal::Header { fault },
            },
            FrontRefusal::Io => Halt::Device,
        }
    }
}

impl From<UndoRefusal> for Halt {
    ghost from_gives = { λ refusal e. e ≡ of_undo refusal };

    fn from(refusal: UndoRefusal) -> Self {
        match refusal {
            UndoRefusal::UndoBad { what, at } => Halt::Refused {
                refusal: Refusal::Corrupt { what, at },
            },
            UndoRefusal::Io => Halt::Device,
        }
    }
}

impl From<CheckRefusal> for Halt {
    ghost from_gives = { λ fault e. e ≡ of_check fault };

    fn from(fault: CheckRefusal) -> Self {
        match fault {
            CheckRefusal::Corrupt { what, at } => Halt::Refused {
                refusal: Refusal::Corrupt { what, at },
            },
            CheckRefusal::Io => Halt::Device,
            CheckRefusal::Memory => Halt::Memory,
        }
    }
}

impl Halt {
    /// Whether the file was to be read alone, and would have to be undone first.
    pub fn asks_for_undo(self) -> bool
        ensures { result ≡ asks_for_undo self }
    {
        match self {
            Halt::Refused {
                refusal: Refusal::NeedsRecovery,
            } => true,
            Halt::Refused {
                refusal: Refusal::TooLong { len: _ } | Refusal::Header { fault: _ },
            } => false,
            Halt::Refused {
                refusal: Refusal::Corrupt { what: _, at: _ },
            } => false,
            Halt::Device | Halt::Memory | Halt::Log => false,
        }
    }

    /// How a look ends where the front that an undo gave a file is refused: a fault of that header isn't one of the
    /// file's own, and is told with its place.
    pub fn after_undo(front: FrontRefusal) -> Halt
        ensures { result ≡ of_restored_front front }
    {
        match front {
            FrontRefusal::Header { fault: _ } => Halt::Refused {
                refusal: Refusal::Corrupt {
                    what: What::Header,
                    at: 0,
                },
            },
            FrontRefusal::Short { len: _ } | FrontRefusal::Io => Halt::from(front),
        }
    }
}

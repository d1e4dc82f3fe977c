// Why words have no reading.

ghost use Rattle.std.specs.Prelude.{◌≡◌};

use std::alloc::AllocError;
use thiserror::Error;

/// Why words have no reading.
#[derive(Clone, Copy, Debug, PartialEq, Eq, Error)]
pub(crate) enum Unread {
    /// They say nothing that a script may say.
    #[error("no reading")]
    NoReading,
    #[error("out of memory")]
    Memory,
}

impl From<AllocError> for Unread {
    ghost use Rattle.tdb_script.specs.declared.unread.Unread.TheVariants.{Memory};

    ghost from_gives = { λ _ unread. unread ≡ Memory };

    fn from(_error: AllocError) -> Self {
        Unread::Memory
    }
}

// A log.

ghost use Rattle.std.specs.Prelude.{◌≡◌, ◌∷◌, [], ◌++◌, ℕ, Bool, List, IsTrue, None, false, slice_get, OnOk, OnErr};
ghost use Rattle.tdb_disk.specs.Count.{HasCauseOf};
ghost use Rattle.tdb_log.specs.declared.notice.Notice.{Notice};

use crate::notice::Notice;
use thiserror::Error;

/// Why a log didn't take a notice.
#[derive(Clone, Copy, Debug, PartialEq, Eq, Error)]
pub enum LogRefusal {
    /// The log failed.
    #[error("log fault")]
    Failed,
    #[error("out of memory")]
    Memory,
}

/// Something that is told notices, in order.
pub trait Log: Drop {
    /// Whether a contract sees the notices, which then can be read back.
    ghost tells: { Self → Bool };

    /// The notices so far. It says something of the log only where it `tells`.
    ghost notices: { Self → List Notice };

    /// How many notices it failed to take.
    ghost faults: { Self → ℕ };

    /// Takes one more notice. After a refusal the notices are as before.
    fn note(&mut self, notice: &Notice) -> Result<(), LogRefusal>
        ensures taken { OnOk result (IsTrue (tells self.old) → notices self.new ≡ notices self.old ++ notice.now ∷ []) }
        ensures kept { OnErr result (IsTrue (tells self.old) → notices self.new ≡ notices self.old) }
        ensures tells { tells self.new ≡ tells self.old }
        ensures cause { HasCauseOf LogRefusal.Failed (faults self.old) (faults self.new) result };

    /// The notice with this number, counted from 0; None from their count on, and where the log doesn't tell them. It
    /// takes no memory.
    fn told(&self, number: u64) -> Option<Notice>
        ensures told { IsTrue (tells self.now) → result ≡ slice_get (notices self.now) number }
        ensures untold { tells self.now ≡ false → result ≡ None };
}

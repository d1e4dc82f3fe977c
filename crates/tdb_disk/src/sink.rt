//! A sink of bytes: they are written one after the other, and never read.
ghost use Rattle.std.specs.Prelude.{◌≡◌, ◌≤◌, ℕ, Bool, List, ◌++◌, IsTrue, length, take, OnOk, OnErr};
ghost use Rattle.tdb_disk.specs.Count.{HasCause};

use thiserror::Error;

/// A write of a sink that failed.
#[derive(Clone, Copy, Debug, PartialEq, Eq, Error)]
#[error("sink fault")]
pub struct SinkFault;

/// Bytes that are written in order.
pub trait Sink {
    /// Whether a contract sees the bytes that were written.
    ghost tells: { Bool };

    /// The bytes that were written so far. It says something of the sink only where `tells`.
    ghost written: { Self → List ℕ };

    /// How many calls have failed.
    ghost faults: { Self → ℕ };

    /// Writes all the bytes behind those before. After a fault some of them, from the first on, were written.
    fn write(&mut self, bytes: &[u8]) -> Result<(), SinkFault>
        ensures all { OnOk result (IsTrue tells → written self.new ≡ written self.old ++ bytes.now) }
        ensures some { OnErr result (IsTrue tells → (n : ℕ) × (n ≤ length bytes.now) × (written self.new ≡ written self.old ++ take n bytes.now)) }
        ensures cause { HasCause (faults self.old) (faults self.new) result };
}

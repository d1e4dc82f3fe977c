//! A source of bytes that is read once, from its beginning to its end.
ghost use Rattle.std.specs.Prelude.{◌≡◌, ◌<◌, ◌≤◌, ℕ, Bool, List, [], ◌++◌, IsTrue, length, take, IfOk, OnErr};
ghost use Rattle.tdb_disk.specs.Count.{HasCause};

use thiserror::Error;

/// A read of a source that failed.
#[derive(Clone, Copy, Debug, PartialEq, Eq, Error)]
#[error("source fault")]
pub struct SourceFault;

/// Bytes that are read once, in order.
pub trait Source {
    /// Whether a contract sees the bytes that are left.
    ghost tells: { Bool };

    /// The bytes that are left. It says something of the source only where `tells`.
    ghost left: { Self → List ℕ };

    /// How many calls have failed.
    ghost faults: { Self → ℕ };

    /// Reads some of the bytes that are left into the front of `buf`, and says how many. Zero, for a `buf` that isn't
    /// empty, is the end.
    fn read(&mut self, buf: &mut [u8]) -> Result<usize, SourceFault>
        ensures within { IfOk result (λ n. n ≤ length buf.old) }
        ensures bytes { IfOk result (λ n. IsTrue tells → left self.old ≡ take n buf.new ++ left self.new) }
        ensures end { IfOk result (λ n. IsTrue tells → n ≡ 0 → 0 < length buf.old → left self.old ≡ []) }
        ensures kept { OnErr result (IsTrue tells → left self.new ≡ left self.old) }
        ensures cause { HasCause (faults self.old) (faults self.new) result };
}

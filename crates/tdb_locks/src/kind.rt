// The two kinds of lock.
ghost use Rattle.std.specs.Prelude.{◌≡◌};
ghost use Rattle.tdb_locks.specs.LockTable.{kinds_conflict};

/// What a lock is for: many owners may read a byte at once, and one that writes it is alone.
#[derive(Clone, Copy, Debug, PartialEq, Eq)]
pub enum Kind {
    Read,
    Write,
}

impl Kind {
    /// Whether two owners may not hold these kinds on one byte.
    pub fn conflicts_with(self, other: Kind) -> bool
        ensures { result ≡ kinds_conflict self other }
    {
        matches!((self, other), (Kind::Write, _) | (_, Kind::Write))
    }
}

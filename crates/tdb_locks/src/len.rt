// How far a range of bytes reaches.
ghost use Rattle.std.specs.Prelude.{◌≡◌};
ghost use Rattle.tdb_locks.specs.LockTable.{IsRange, stop};

/// How many bytes a range has: a count, or all that follow its start, however long the file grows.
#[derive(Clone, Copy, Debug, PartialEq, Eq)]
pub enum Len {
    Bytes(u64),
    ToEnd,
}

impl Len {
    /// The byte past the last of the range that begins at `start`: 2^63 for `ToEnd`.
    pub fn end_from(self, start: u64) -> u64
        requires { IsRange start self }
        ensures { result ≡ stop start self }
    {
        match self {
            Len::Bytes(count) => start + count,
            Len::ToEnd => 1 << 63,
        }
    }
}

// Where a cursor stands.

ghost use Rattle.std.specs.Prelude.{◌≡◌};
ghost use Rattle.tdb_walk.specs.Cursors.{is_on};

/// Where a cursor stands. Chains count from 0, and offsets are in bytes.
#[derive(Clone, Copy, Debug, PartialEq, Eq)]
pub enum Standing {
    /// Before the first record of this chain.
    Before(u32),

    /// On the record of this chain at this offset.
    On(u32, u32),

    /// Past the last chain.
    Past,
}

impl Standing {
    /// Whether a cursor that stands there stands on the record at this offset.
    pub(crate) fn is_on(self, off: u32) -> bool
        ensures { result ≡ is_on self off }
    {
        match self {
            Standing::On(_, at) => at == off,
            Standing::Before(_) | Standing::Past => false,
        }
    }
}

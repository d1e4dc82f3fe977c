// The bytes that belong to records and to the undo area, and whether two of them share one.

ghost use Rattle.std.specs.Prelude.{◌≡◌, ℕ, ◌+◌, ◌<◌, ◌≤◌, [], ◌∷◌, ◌++◌, OnOk, OnErr, MatchOption};
ghost use Rattle.std.specs.List.Sorted.{IsNonDecreasingBy};
ghost use Rattle.tdb_space.specs.Extents.{times};
ghost use Rattle.tdb_check.specs.Extent.{extents_seen, off_of};

use std::alloc::AllocError;

/// The bytes of a record or of the undo area: 24 of its header, and `rec_len` behind them.
#[derive(Clone, Copy, Debug, PartialEq, Eq)]
pub struct Extent {
    /// The offset of the first byte.
    pub off: u32,

    /// How many bytes follow the header.
    pub rec_len: u32,
}

impl Extent {
    /// The offset behind the last byte.
    pub fn end(self) -> u64
        ensures { result ≡ self.off + 24 + self.rec_len }
    {
        self.off as u64 + 24 + self.rec_len as u64
    }
}

/// Puts an extent at the end.
pub fn put(extents: &mut Vec<Extent>, e: Extent) -> Result<(), AllocError>
    ensures ok { OnOk result (extents.new.items ≡ extents.old.items ++ e ∷ []) }
    ensures err { OnErr result (extents.new.items ≡ extents.old.items) }
{
    extents.push(e)?;
    Ok(())
}

/// Puts extents into the order of their offsets. It takes no memory and time n log n.
pub fn sort_extents(extents: &mut Vec<Extent>)
    ensures ordered { IsNonDecreasingBy off_of extents.new.items }
    ensures same { (i : ℕ) → times (extents_seen extents.new.items) i ≡ times (extents_seen extents.old.items) i }
{
    extents.sort_unstable_by_key(|e| e.off);
}

/// The least byte that these extents, in the order of their offsets, hold more than once.
pub fn first_overlap(extents: &[Extent]) -> Option<u32>
    requires { IsNonDecreasingBy off_of extents.now }
    ensures { MatchOption result ((i : ℕ) → times (extents_seen extents.now) i ≤ 1)
        (λ at. (2 ≤ times (extents_seen extents.now) at) × ((i : ℕ) → i < at → times (extents_seen extents.now) i ≤ 1)) }
{
    let mut reach = 0u64;
    for e in extents {
        if (e.off as u64) < reach {
            return Some(e.off);
        }
        reach = e.end();
    }
    None
}

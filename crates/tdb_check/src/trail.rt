// The offsets that were met in one list.

ghost use Rattle.std.specs.Prelude.{◌≡◌, ℕ, ◌||◌, false, nat_eq, OnOk};
ghost use Rattle.std.specs.BTreeSet.{contains};

use std::alloc::{AllocError, Global};
use std::collections::BTreeSet;

/// How many offsets stand in the vector, before the others go to the set.
const NEAR: usize = 16;

/// The offsets that were met in one list, among `n` of which one is looked up in log n steps. The first 16 stand in a
/// vector that `clear` keeps, so short lists that are followed one after the other take memory once.
#[derive(Drop)]
pub struct Trail {
    near: Vec<u32>,
    far: BTreeSet<u32>,
}

impl Trail {
    ghost use Rattle.tdb_check.specs.Trail.{met};

    /// A trail without an offset. It takes no memory.
    pub fn new(alloc: Global) -> Self
        ensures { (q : ℕ) → met result q ≡ false }
    {
        Trail {
            near: Vec::new(alloc),
            far: BTreeSet::new(alloc),
        }
    }

    /// Whether the offset was noted.
    pub fn contains(&self, at: u32) -> bool
        ensures { result ≡ met self.now at }
    {
        self.near.contains(&at) || self.far.contains(&at)
    }

    /// Notes an offset. Fails only for want of memory.
    pub fn note(&mut self, at: u32) -> Result<(), AllocError>
        ensures { OnOk result ((q : ℕ) → met self.new q ≡ (nat_eq q at || met self.old q)) }
    {
        if self.near.len() < NEAR {
            self.near.push(at)?;
        } else {
            self.far.insert(at)?;
        }
        Ok(())
    }

    /// Forgets all offsets.
    pub fn clear(&mut self)
        ensures { (q : ℕ) → met self.new q ≡ false }
    {
        self.near.clear();
        self.far.clear();
    }
}

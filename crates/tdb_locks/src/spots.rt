// The records on which cursors stand.
ghost use Rattle.std.specs.Prelude.{◌≡◌, ◌==◌, ◌++◌, ◌∷◌, ◌↔◌, ◌<◌, [], Contains, IsTrue, OnErr, OnOk, length, set, position};
ghost use Rattle.tdb_locks.specs.Spots.{without_first};

use std::alloc::{AllocError, Global};
use std::marker::Model;

/// The offsets of the records on which cursors stand, once for each cursor, in the order in which
/// they were put there.
#[derive(Drop)]
pub struct Spots {
    offsets: Vec<u32>,
}

impl Model for Spots {
    ghost use Rattle.std.specs.Prelude.{List, ℕ};

    ghost Value = { List ℕ };

    ghost view = { λ a. a.offsets.items };
}

impl Spots {
    /// No cursor stands anywhere. It takes no memory.
    pub fn new(alloc: Global) -> Spots
        ensures { result ≡ [] }
    {
        Spots {
            offsets: Vec::new(alloc),
        }
    }

    /// Whether a cursor stands on the record at `off`. Cost: a pass over the cursors.
    pub fn has(&self, off: u32) -> bool
        ensures { IsTrue result ↔ Contains self.now off }
    {
        self.offsets.contains(&off)
    }

    /// One more cursor stands on the record at `off`.
    pub fn push(&mut self, off: u32) -> Result<(), AllocError>
        ensures ok { OnOk result (self.new ≡ self.old ++ off ∷ []) }
        ensures err { OnErr result (self.new ≡ self.old) }
    {
        self.offsets.push(off)?;
        Ok(())
    }

    /// The entry at this place is `off` from now on. It takes no memory.
    pub fn set(&mut self, at: usize, off: u32)
        requires { at < length self.old }
        ensures { self.new ≡ set self.old at off }
    {
        self.offsets[at] = off;
    }

    /// Takes out the first entry of `off`, if there is one. Cost: a pass over the cursors.
    pub fn remove(&mut self, off: u32)
        ensures { self.new ≡ without_first off self.old }
    {
        if let Some(at) = first_place(&self.offsets, off) {
            self.offsets.remove(at);
        }
    }
}

/// Where the offset first stands.
fn first_place(offsets: &[u32], off: u32) -> Option<usize>
    ensures { result ≡ position (λ spot. spot == off) offsets.now }
{
    offsets.iter().position(|spot| *spot == off)
}

// Runs of bytes of a file.

ghost use Rattle.std.specs.Prelude.{◌≡◌, ◌<◌, ◌≤◌, [], ◌∷◌, ◌++◌, length, slice_index_or, MatchOption, OnOk, OnErr};

use std::alloc::{AllocError, Global};
use std::marker::Model;

/// Runs of bytes of a file, in order: of each its offset and its length, both in bytes. A contract sees them as the
/// list of these pairs.
#[derive(Debug, Drop)]
pub struct Runs {
    extents: Vec<(u32, u32)>,
}

impl Model for Runs {
    ghost use Rattle.std.specs.Prelude.{List, ℕ};

    ghost Value = { List (ℕ × ℕ) };

    ghost view = { λ a. a.extents.items };
}

impl Runs {
    /// No run. It takes no memory.
    pub fn new(alloc: Global) -> Runs
        ensures { result ≡ [] }
    {
        Runs {
            extents: Vec::new(alloc),
        }
    }

    /// Puts a run at the end, by its offset and its length. Where memory is wanting the list stays as it was.
    pub fn push(&mut self, run: (u32, u32)) -> Result<(), AllocError>
        ensures ok { OnOk result (self.new ≡ self.old ++ run ∷ []) }
        ensures err { OnErr result (self.new ≡ self.old) }
    {
        self.extents.push(run)?;
        Ok(())
    }

    /// How many runs there are.
    pub fn len(&self) -> usize
        ensures { result ≡ length self.now }
    {
        self.extents.len()
    }

    /// The offset and the length of the run at a place, counted from 0.
    pub fn get(&self, index: usize) -> Option<(u32, u32)>
        ensures { MatchOption result (length self.now ≤ index) (λ r. (index < length self.now) × (r ≡ slice_index_or self.now index r)) }
    {
        self.extents.get(index).copied()
    }
}

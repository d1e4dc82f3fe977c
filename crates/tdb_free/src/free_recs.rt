// The records of a free list, by their offset and length.

ghost use Rattle.std.specs.Prelude.{◌≡◌, ◌<◌, ◌≤◌, ◌==◌, [], ◌∷◌, ◌++◌, length, slice_index_or, MatchOption, OnOk, OnErr};

use std::alloc::{AllocError, Global};
use std::marker::Model;

/// The records of a free list in their order: of each its offset and its `rec_len`, both in bytes. A contract sees it
/// as the list of these pairs.
#[derive(Debug, Drop)]
pub struct FreeRecs {
    records: Vec<(u32, u32)>,
}

impl Model for FreeRecs {
    ghost use Rattle.std.specs.Prelude.{List, ℕ};

    ghost Value = { List (ℕ × ℕ) };

    ghost view = { λ a. a.records.items };
}

impl FreeRecs {
    /// No record. It takes no memory.
    pub fn new(alloc: Global) -> FreeRecs
        ensures { result ≡ [] }
    {
        FreeRecs {
            records: Vec::new(alloc),
        }
    }

    /// Puts a record at the end, by its offset and its `rec_len`. Where memory is wanting the list stays as it was.
    pub fn push(&mut self, pair: (u32, u32)) -> Result<(), AllocError>
        ensures ok { OnOk result (self.new ≡ self.old ++ pair ∷ []) }
        ensures err { OnErr result (self.new ≡ self.old) }
    {
        self.records.push(pair)?;
        Ok(())
    }

    /// How many records there are.
    pub fn len(&self) -> usize
        ensures { result ≡ length self.now }
    {
        self.records.len()
    }

    /// Whether there is no record.
    pub fn is_empty(&self) -> bool
        ensures { result ≡ (length self.now == 0) }
    {
        self.records.is_empty()
    }

    /// The offset and the `rec_len` of the record at a place, counted from 0.
    pub fn get(&self, index: usize) -> Option<(u32, u32)>
        ensures { MatchOption result (length self.now ≤ index) (λ r. (index < length self.now) × (r ≡ slice_index_or self.now index r)) }
    {
        self.records.get(index).copied()
    }

    /// Lets every record go, and keeps the list's memory.
    pub fn clear(&mut self)
        ensures { self.new ≡ [] }
    {
        self.records.clear();
    }
}

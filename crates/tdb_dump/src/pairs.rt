//! Pairs of a key and a value.

ghost use Rattle.std.specs.Prelude.{◌≡◌, ◌==◌, ◌<◌, ◌≤◌, [], ◌∷◌, ◌++◌, length, slice_index_or, MatchOption, OnOk, OnErr};

use std::alloc::{AllocError, Global};
use std::marker::Model;
use tdb_words::Bytes;

/// A key and its value.
#[derive(Debug, Drop)]
pub struct Pair {
    pub key: Bytes,
    pub value: Bytes,
}

/// A list of pairs. A contract sees it as the list of them.
#[derive(Debug, Drop)]
pub struct Pairs {
    items: Vec<Pair>,
}

impl Model for Pairs {
    ghost use Rattle.std.specs.Prelude.{List};
    ghost use Rattle.tdb_dump.specs.declared.pairs.Pair.{Pair};

    ghost Value = { List Pair };

    ghost view = { λ p. p.items.items };
}

impl Pairs {
    /// The empty list. It takes no memory.
    pub fn new(alloc: Global) -> Self
        ensures { result ≡ [] }
    {
        Pairs {
            items: Vec::new(alloc),
        }
    }

    /// The list of these.
    pub(crate) fn of(items: Vec<Pair>) -> Self
        ensures { result ≡ items.items }
    {
        Pairs { items }
    }

    /// Puts a pair at the end. Where memory is wanting the list stays as it was.
    pub fn push(&mut self, pair: Pair) -> Result<(), AllocError>
        ensures ok { OnOk result (self.new ≡ self.old ++ pair ∷ []) }
        ensures err { OnErr result (self.new ≡ self.old) }
    {
        self.items.push(pair)?;
        Ok(())
    }

    pub fn len(&self) -> usize
        ensures { result ≡ length self.now }
    {
        self.items.len()
    }

    pub fn is_empty(&self) -> bool
        ensures { result ≡ (length self.now == 0) }
    {
        self.items.is_empty()
    }

    /// The pair at a place, counted from 0.
    pub fn get(&self, i: usize) -> Option<&Pair>
        ensures { MatchOption result (length self.now ≤ i) (λ p. (i < length self.now) × (p.now ≡ slice_index_or self.now i p.now)) }
    {
        self.items.get(i)
    }

    /// Lets every pair go, and keeps the list's memory.
    pub fn clear(&mut self)
        ensures { self.new ≡ [] }
    {
        self.items.clear();
    }

    /// The pairs as a `Vec`. It takes no memory.
    pub fn into_vec(self) -> Vec<Pair>
        ensures { result.items ≡ self }
    {
        let Pairs { items } = self;
        items
    }
}

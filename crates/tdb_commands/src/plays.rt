// A list of plays.

ghost use Rattle.std.specs.Prelude.{◌≡◌, ◌==◌, ◌<◌, ◌≤◌, [], ◌∷◌, ◌++◌, length, slice_index_or, MatchOption, OnOk, OnErr};

use crate::play::Play;
use std::alloc::{AllocError, Global};
use std::marker::Model;

/// A list of plays. A contract sees it as the list of them.
#[derive(Debug, Drop)]
pub struct Plays {
    items: Vec<Play>,
}

impl Model for Plays {
    ghost use Rattle.std.specs.Prelude.{List};
    ghost use Rattle.tdb_commands.specs.declared.play.Play.{Play};

    ghost Value = { List Play };

    ghost view = { λ p. p.items.items };
}

impl Plays {
    /// The empty list. It takes no memory.
    pub fn new(alloc: Global) -> Self
        ensures { result ≡ [] }
    {
        Plays {
            items: Vec::new(alloc),
        }
    }

    /// Puts a play at the end. Where memory is wanting the list stays as it was.
    pub fn push(&mut self, play: Play) -> Result<(), AllocError>
        ensures ok { OnOk result (self.new ≡ self.old ++ play ∷ []) }
        ensures err { OnErr result (self.new ≡ self.old) }
    {
        self.items.push(play)?;
        Ok(())
    }

    pub fn len(&self) -> usize
        ensures { result ≡ length self.now }
    {
        self.items.len()
    }

    pub fn is_empty(&self) -> bool
        ensures { result ≡ (length self.now == 0) }
    {
        self.items.is_empty()
    }

    /// The play at a place, counted from 0.
    pub fn get(&self, i: usize) -> Option<&Play>
        ensures { MatchOption result (length self.now ≤ i) (λ p. (i < length self.now) × (p.now ≡ slice_index_or self.now i p.now)) }
    {
        self.items.get(i)
    }

    /// The plays, in order.
    pub fn as_slice(&self) -> &[Play]
        ensures { result.now ≡ self.now }
    {
        self.items.as_slice()
    }

    /// Lets every play go, and keeps the list's memory.
    pub fn clear(&mut self)
        ensures { self.new ≡ [] }
    {
        self.items.clear();
    }
}

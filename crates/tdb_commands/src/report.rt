// The lines that a world has given.

ghost use Rattle.std.specs.Prelude.{◌≡◌, ◌==◌, ◌+◌, ◌<◌, ◌≤◌, [], ◌∷◌, ◌++◌, length, slice_index_or, MatchOption, OnOk, OnErr};

use crate::line::Line;
use std::alloc::{AllocError, Global};
use std::marker::Model;

/// A list of lines. A contract sees the list, and for how many lines more there is room: so many can be added without
/// taking memory.
#[derive(Debug, Drop)]
pub struct TurnReport {
    items: Vec<Line>,
}

impl Model for TurnReport {
    ghost use Rattle.std.specs.Prelude.{◌-◌, vec_len, vec_capacity};
    ghost use Rattle.tdb_commands.specs.Report.{Report};

    ghost Value = { Report };

    ghost view = { λ r. record { lines = r.items.items; room = vec_capacity r.items - vec_len r.items } };
}

impl TurnReport {
    /// The empty list. It takes no memory.
    pub fn new(alloc: Global) -> Self
        ensures { result.lines ≡ [] }
    {
        TurnReport {
            items: Vec::new(alloc),
        }
    }

    /// Makes room for so many lines more. Where memory is wanting, and where there was room, all stays as it was.
    pub fn reserve(&mut self, more: usize) -> Result<(), AllocError>
        ensures lines { self.new.lines ≡ self.old.lines }
        ensures ok { OnOk result (more ≤ self.new.room) }
        ensures err { OnErr result (self.new ≡ self.old) }
        ensures kept { more ≤ self.old.room → OnErr result ⊥ }
    {
        self.items.reserve(more)
    }

    /// Puts a line at the end. Where memory is wanting the list stays as it was; where there is room it isn't wanting.
    pub fn push(&mut self, line: Line) -> Result<(), AllocError>
        ensures ok { OnOk result (self.new.lines ≡ self.old.lines ++ line ∷ []) }
        ensures err { OnErr result (self.new.lines ≡ self.old.lines) }
        ensures room { OnOk result (self.old.room ≤ self.new.room + 1) }
        ensures full { OnErr result (self.old.room ≡ 0) }
    {
        self.items.push(line)?;
        Ok(())
    }

    pub fn len(&self) -> usize
        ensures { result ≡ length self.now.lines }
    {
        self.items.len()
    }

    pub fn is_empty(&self) -> bool
        ensures { result ≡ (length self.now.lines == 0) }
    {
        self.items.is_empty()
    }

    /// The line at a place, counted from 0.
    pub fn get(&self, i: usize) -> Option<&Line>
        ensures { MatchOption result (length self.now.lines ≤ i)
            (λ line. (i < length self.now.lines) × (line.now ≡ slice_index_or self.now.lines i line.now)) }
    {
        self.items.get(i)
    }

    /// Lets every line go, and keeps the list's memory.
    pub fn clear(&mut self)
        ensures { self.new.lines ≡ [] }
    {
        self.items.clear();
    }
}

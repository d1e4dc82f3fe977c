//! Collecting the runs of the bytes that a transaction changes.
ghost use Rattle.std.specs.Prelude.{◌≡◌, ◌+◌, ◌-◌, ◌<◌, ◌^◌, ◌++◌, ◌∷◌, [], ℕ, List, IfOk, IfErr};
ghost use Rattle.tdb_space.specs.Extents.{Extent};
ghost use Rattle.tdb_space.specs.Runs.{Changed, ChangedRuns};

use std::alloc::Global;
use tdb_undo::Runs;

/// How many bytes may stay as they are between two that change, for both to lie in one run.
const GAP: u32 = 8;

/// How many bytes the content of an undo area has without a run.
const EMPTY_CONTENT: u64 = 4;

/// How many bytes it has for a run, besides those of the run.
const RUN_WORDS: u64 = 8;

/// The runs that were found so far: those that are done, and one that may still go on, from `from` up to `to`, which
/// are equal where there is none yet. All bytes below `next` were looked at. Offsets are in bytes.
#[derive(Drop)]
pub(crate) struct Found {
    /// Those that are done, in front of the first for which memory was wanting.
    pub list: Runs,

    /// Whether memory was wanting for one.
    pub starved: bool,

    /// How many bytes the content of an undo area has for all that are done.
    pub content: u64,
    pub from: u32,
    pub to: u32,
    pub next: u32,
}

impl Found {
    ghost use Rattle.tdb_txn.specs.EndBelow.{EndBelow};
    ghost use Rattle.tdb_txn.specs.Found.{FoundSoFar, HasRuns, InPlace, Keeps};

    /// Nothing yet. It takes no memory.
    pub(crate) fn new(alloc: Global) -> Found
        ensures place { InPlace result }
        ensures next { result.next ≡ 0 }
        ensures found { (a b : List ℕ) (old : ℕ) (skip : Extent) → FoundSoFar a b old skip result }
    {
        Found {
            list: Runs::new(alloc),
            starved: false,
            content: EMPTY_CONTENT,
            from: 0,
            to: 0,
            next: 0,
        }
    }

    /// Puts the run that may still go on to those that are done. Where memory is wanting it is only counted, and so are
    /// those behind it.
    fn close(&mut self)
        requires ends { self.old.from < self.old.to }
        ensures keeps { (runs : List Extent) → Keeps runs self.old → Keeps (runs ++ (self.old.from, self.old.to - self.old.from) ∷ []) self.new }
        ensures done { EndBelow self.old.to self.old.list → EndBelow self.old.to self.new.list }
        ensures from { self.new.from ≡ self.old.from }
        ensures to { self.new.to ≡ self.old.to }
        ensures next { self.new.next ≡ self.old.next }
    {
        let length = self.to - self.from;
        self.content = self.content.saturating_add(RUN_WORDS + length as u64);
        if self.starved {
            return;
        }
        match self.list.push((self.from, length)) {
            Ok(()) => {}
            Err(_) => self.starved = true,
        }
    }

    /// Adds the next byte, which changes.
    pub(crate) fn add(&mut self)
        requires place { InPlace self.old }
        requires short { self.old.next < 2 ^ 32 - 1 }
        ensures place { InPlace self.new }
        ensures next { self.new.next ≡ self.old.next + 1 }
        ensures found { (a b : List ℕ) (old : ℕ) (skip : Extent) → Changed a b old skip self.old.next
            → FoundSoFar a b old skip self.old → FoundSoFar a b old skip self.new }
    {
        let at = self.next;
        if self.from == self.to {
            self.from = at;
        } else if at - self.to > GAP {
            self.close();
            self.from = at;
        }
        self.to = at + 1;
        self.next = at + 1;
    }

    /// The runs, once all bytes that change were looked at; or, where memory was wanting for one, how many bytes the
    /// content of an undo area has for them.
    pub(crate) fn finish(mut self) -> Result<Runs, u64>
        requires place { InPlace self }
        ensures runs { IfOk result (λ runs. (a b : List ℕ) (old : ℕ) (skip : Extent) → ((i : ℕ) → Changed a b old skip i → i < self.next)
            → FoundSoFar a b old skip self → ChangedRuns a b old skip runs) }
        ensures starved { IfErr result (λ content. (a b : List ℕ) (old : ℕ) (skip : Extent) → ((i : ℕ) → Changed a b old skip i → i < self.next)
            → FoundSoFar a b old skip self → HasRuns a b old skip content) }
        ensures ends { IfOk result (λ runs. EndBelow self.next runs) }
    {
        if self.from < self.to {
            self.close();
        }
        let Found {
            list,
            starved,
            content,
            from: _,
            to: _,
            next: _,
        } = self;
        if starved { Err(content) } else { Ok(list) }
    }
}

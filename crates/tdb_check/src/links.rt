// The records of some lists, as they stand in the file, and where each leads.

ghost use Rattle.std.specs.Prelude.{◌≡◌, ℕ, ◌+◌, ◌<◌, ◌≤◌, List, IsTrue, IfOk, OnOk, IfSome, length, slice_index};
ghost use Rattle.tdb_space.specs.Form.{Form};
ghost use Rattle.tdb_space.specs.FirstFault.{ListKind as Kind};

use std::alloc::{AllocError, Global};

/// How many bytes of a file have one place in the index.
const BLOCK: u32 = 1024;

/// How many records begin in so many bytes at most, since each has 28.
const IN_BLOCK: usize = 37;

/// How many records of the row are looked at once for where a part of the file begins that was filled in one go.
const ROW: usize = 64;

/// How many of these tell whether they lead to later ones.
const SAMPLE: usize = 8;

/// How many records one after the other end a run, where no list was followed to any of them.
const MOST_MISSED: u32 = 256;

/// How many lists are followed in turns.
const TOGETHER: usize = 8;

/// The number of no list.
pub(crate) const NO_LIST: u32 = u32::MAX;

/// A record of a list.
#[derive(Clone, Copy)]
pub(crate) struct Link {
    /// Its offset.
    at: u32,

    /// The offset of the record that comes next in its list; 0 where none does.
    next: u32,

    /// The number of its list; that of no list once it was taken out.
    list: u32,
}

/// The records of some lists in the order in which they stand in the file: 12 bytes each, and 4 for each 1,024 bytes of
/// the file. Each can be taken out once.
#[derive(Drop)]
pub(crate) struct Links {
    links: Vec<Link>,

    /// For each 1,024 bytes of the file, how many of the records stand before them.
    index: Vec<u32>,
}

impl Links {
    ghost use Rattle.tdb_space.specs.Record.{next_of};
    ghost use Rattle.tdb_check.specs.declared.links.TheConstants.{NO_LIST as no_list};
    ghost use Rattle.tdb_check.specs.InSequence.{StandsIn};
    ghost use Rattle.tdb_check.specs.Links.{AllTold, left, StillReached, ListsTaken};

    /// No record, and room for so many.
    pub fn with_room(alloc: Global, room: usize) -> Result<Self, AllocError>
        ensures { IfOk result (λ ls. length ls.links.items ≡ 0) }
    {
        Ok(Links {
            links: Vec::with_capacity(alloc, room)?,
            index: Vec::new(alloc),
        })
    }

    /// Puts a record of a list behind the others, which stand before it in the file.
    pub fn put(&mut self, list: u32, at: u32, next: u32) -> Result<(), AllocError>
        requires number { list < no_list }
        ensures told { OnOk result ((kinds : ℕ → Kind) (f : Form) (img : List ℕ) → AllTold kinds f img self.old → StandsIn f (kinds list) img at → next ≡ next_of f.order img at → AllTold kinds f img self.new) }
        ensures weight { OnOk result ((w : ℕ → ℕ) → left w self.new ≡ left w self.old + w at) }
    {
        self.index_to(at)?;
        self.links.push(Link { at, next, list })?;
        Ok(())
    }

    /// Makes the index reach up to an offset.
    fn index_to(&mut self, at: u32) -> Result<(), AllocError>
        ensures { self.new.links ≡ self.old.links }
    {
        let block = (at / BLOCK) as usize;
        if self.index.len() <= block {
            let before = u32::try_from(self.links.len()).unwrap_or(u32::MAX);
            self.index.resize(block + 1, before)?;
        }
        Ok(())
    }

    /// The place of the first record from an offset on, where there is one in the same 1,024 bytes.
    fn place_of(&self, at: u32) -> Option<usize>
        ensures { IfSome result (λ i. i < length self.now.links.items) }
    {
        let first = *self.index.get((at / BLOCK) as usize)? as usize;
        let last = self.links.len().min(first.saturating_add(IN_BLOCK));
        for i in first..last {
            if self.links[i].at >= at {
                return Some(i);
            }
        }
        None
    }

    /// Takes the record at a place in the row out, where its list was followed to it; the list is then followed to
    /// where it leads. False where it wasn't, or where the record was taken out before.
    fn step(&mut self, i: usize, at: &mut [u32]) -> bool
        requires place { i < length self.old.links.items }
        requires lists { length at.old ≤ no_list }
        ensures reached { StillReached self.old at.old self.new at.new }
        ensures long { length at.new ≡ length at.old }
        ensures as_many { length self.new.links.items ≡ length self.old.links.items }
    {
        let link = self.links[i];
        let list = link.list as usize;
        if list >= at.len() {
            return false;
        }
        if at[list] != link.at {
            return false;
        }
        at[list] = link.next;
        self.links[i] = Link {
            at: link.at,
            next: link.next,
            list: NO_LIST,
        };
        true
    }

    /// Goes along the row from a place on, and takes out each record that its list was followed to, up to so many one
    /// after the other that none was followed to.
    fn run(&mut self, from: usize, at: &mut [u32])
        requires lists { length at.old ≤ no_list }
        ensures reached { StillReached self.old at.old self.new at.new }
        ensures long { length at.new ≡ length at.old }
        ensures as_many { length self.new.links.items ≡ length self.old.links.items }
    {
        let mut missed = 0u32;
        for i in from..self.links.len() {
            if self.step(i, at) {
                missed = 0;
            } else {
                missed = missed.saturating_add(1);
            }
            if missed > MOST_MISSED {
                return;
            }
        }
    }

    /// Whether most of the records at a place in the row lead to later ones.
    fn rises(&self, from: usize) -> bool {
        let end = self.links.len().min(from.saturating_add(SAMPLE));
        let mut up = 0usize;
        for i in from..end {
            if self.links[i].next > self.links[i].at {
                up = up.saturating_add(1);
            }
        }
        up > SAMPLE / 2
    }

    /// Goes along the row from each place where records begin that lead to later ones, the last such place first. So
    /// the records of a file that grew are met in the order of their lists, since what is stored is put before the
    /// others of its chain, and at the end of what is free.
    fn sweep(&mut self, at: &mut [u32])
        requires lists { length at.old ≤ no_list }
        ensures reached { StillReached self.old at.old self.new at.new }
        ensures long { length at.new ≡ length at.old }
        ensures as_many { length self.new.links.items ≡ length self.old.links.items }
    {
        let blocks = self.links.len() / ROW;
        let mut rose = false;
        for k in 0..blocks {
            let from = (blocks - 1 - k) * ROW;
            let rises = self.rises(from);
            if rose && !rises {
                self.run(from, at);
            }
            rose = rises;
        }
        self.run(0, at);
    }

    /// Takes one record out of each list of a number from `first` up to `end` that wasn't followed to its end. None
    /// where one leads to what isn't a record of it, or back; else whether one was taken out.
    fn turn(&mut self, first: usize, end: usize, at: &mut [u32]) -> Option<bool>
        requires within { end ≤ length at.old }
        requires lists { length at.old ≤ no_list }
        ensures reached { StillReached self.old at.old self.new at.new }
        ensures long { length at.new ≡ length at.old }
        ensures as_many { length self.new.links.items ≡ length self.old.links.items }
    {
        let mut went = false;
        for j in first..end {
            if at[j] == 0 {
                continue;
            }
            let i = self.place_of(at[j])?;
            if !self.step(i, at) {
                return None;
            }
            went = true;
        }
        Some(went)
    }

    /// Takes the records of the lists of numbers from `first` up to `end` out, to their ends, in turns. False where
    /// one leads to what isn't a record of it, or back.
    fn follow_some(&mut self, first: usize, end: usize, at: &mut [u32]) -> bool
        requires within { end ≤ length at.old }
        requires lists { length at.old ≤ no_list }
        ensures reached { StillReached self.old at.old self.new at.new }
        ensures long { length at.new ≡ length at.old }
        ensures as_many { length self.new.links.items ≡ length self.old.links.items }
    {
        for _turn in 0..self.links.len() + 1 {
            match self.turn(first, end, at) {
                None => return false,
                Some(false) => return true,
                Some(true) => {}
            }
        }
        false
    }

    /// Takes the records of some lists out, from their heads to their ends; then `heads` has zeros. False where one
    /// leads to what isn't a record of it, or back. Records that stand in the order of their lists are met one after
    /// the other; of the other lists eight are followed in turns, so that the processor waits for their places of
    /// memory at once. It takes time in proportion to the number of records and of lists.
    pub fn follow(&mut self, heads: &mut [u32]) -> bool
        requires lists { length heads.old ≤ no_list }
        ensures { IsTrue result → (kinds : ℕ → Kind) (f : Form) (img : List ℕ) → AllTold kinds f img self.old → ListsTaken kinds f img heads.old self.old self.new }
    {
        self.sweep(heads);
        let mut first = 0;
        while first < heads.len() {
            let end = heads.len().min(first + TOGETHER);
            if !self.follow_some(first, end, heads) {
                return false;
            }
            first = end;
        }
        have_ended(heads)
    }

    /// Whether each record was taken out.
    pub fn are_taken(&self) -> bool
        ensures { IsTrue result → (w : ℕ → ℕ) → left w self.now ≡ 0 }
    {
        for i in 0..self.links.len() {
            if self.links[i].list != NO_LIST {
                return false;
            }
        }
        true
    }
}

/// Whether each list was followed to its end.
fn have_ended(at: &[u32]) -> bool
    ensures { IsTrue result → (j : ℕ) → j < length at.now → slice_index at.now j ≡ 0 }
{
    for j in 0..at.len() {
        if at[j] != 0 {
            return false;
        }
    }
    true
}

// The records of all lists of a file, and whether the lists have just these.

ghost use Rattle.std.specs.Prelude.{◌≡◌, ℕ, ◌+◌, ◌*◌, ◌^◌, ◌<◌, ◌≤◌, List, [], ◌∷◌, ◌++◌, IsTrue, IfOk, IfErr, OnOk, length, take, drop};
ghost use Rattle.tdb_disk.specs.Count.{HasCauseOf, RoseUpTo};
ghost use Rattle.tdb_words.specs.Record.{rec_at};
ghost use Rattle.tdb_space.specs.Form.{Form, data_start, chain_head};
ghost use Rattle.tdb_space.specs.Frame.{Looked};
ghost use Rattle.tdb_check.specs.declared.links.TheConstants.{NO_LIST as no_list};
ghost use Rattle.tdb_check.specs.InSequence.{IsAmong};
ghost use Rattle.tdb_check.specs.Links.{HeadsRead};
ghost use Rattle.tdb_check.specs.Seen.{Names};
ghost use Rattle.tdb_check.specs.declared.refusal.CheckRefusal.TheVariants.{Io as DiskFailed};

use crate::chain::used_count;
use crate::links::Links;
use crate::list_kind::ListKind;
use crate::refusal::CheckRefusal;
use std::alloc::{AllocError, Global};
use tdb_space::Space;
use tdb_words::{Order, Rec, word_at, word_in};

/// How many heads are read at once.
const HEADS: u32 = 1024;

/// The records of all lists of a file, as far as they were met.
#[derive(Drop)]
pub(crate) struct AllLinks {
    /// Those of the chains, by the number of the chain.
    chained: Links,

    /// Those of the free list.
    free: Links,

    /// How many used records there are.
    pub live: u64,

    /// How many dead records there are.
    pub dead: u64,

    /// How many free records there are.
    pub free_records: u64,
}

impl AllLinks {
    ghost use Rattle.tdb_check.specs.Seen.{kind_of};
    ghost use Rattle.tdb_space.specs.FirstFault.{chain_number, free_list};
    ghost use Rattle.tdb_check.specs.InSequence.{StandsIn};
    ghost use Rattle.tdb_check.specs.Links.{PutDown, AreLists, count_of, all_left};

    /// No record, and room for so many in chains.
    pub fn with_room(alloc: Global, room: usize) -> Result<Self, AllocError>
        ensures none { IfOk result (λ a. (f : Form) (img : List ℕ) → PutDown f img [] a) }
        ensures count { IfOk result (λ a. count_of a ≡ 0) }
    {
        let chained = Links::with_room(alloc, room)?;
        let free = Links::with_room(alloc, 0)?;
        Ok(AllLinks {
            chained,
            free,
            live: 0,
            dead: 0,
            free_records: 0,
        })
    }

    /// Puts the record at an offset, which has this header, into its list.
    pub fn put(&mut self, list: ListKind, at: u32, header: &Rec) -> Result<(), AllocError>
        requires among { IsAmong no_list list }
        requires room { count_of self.old + 1 < 2 ^ 64 }
        ensures put { OnOk result ((f : Form) (img xs : List ℕ) → PutDown f img xs self.old → StandsIn f (kind_of list) img at → header.now ≡ rec_at f.order img at → PutDown f img (xs ++ at ∷ []) self.new) }
        ensures count { OnOk result (count_of self.new ≡ count_of self.old + 1) }
    {
        match list {
            ListKind::Chain(j) => self.put_chained(j, at, header),
            ListKind::Free => self.put_free(at, header),
        }
    }

    /// Puts a record into a chain.
    fn put_chained(&mut self, j: u32, at: u32, header: &Rec) -> Result<(), AllocError>
        requires number { j < no_list }
        requires room { count_of self.old + 1 < 2 ^ 64 }
        ensures put { OnOk result ((f : Form) (img xs : List ℕ) → PutDown f img xs self.old → StandsIn f (chain_number j) img at → header.now ≡ rec_at f.order img at → PutDown f img (xs ++ at ∷ []) self.new) }
        ensures count { OnOk result (count_of self.new ≡ count_of self.old + 1) }
    {
        self.chained.put(j, at, header.next)?;
        let used = used_count(header);
        self.live += used;
        self.dead += 1 - used;
        Ok(())
    }

    /// Puts a record into the free list.
    fn put_free(&mut self, at: u32, header: &Rec) -> Result<(), AllocError>
        requires room { count_of self.old + 1 < 2 ^ 64 }
        ensures put { OnOk result ((f : Form) (img xs : List ℕ) → PutDown f img xs self.old → StandsIn f free_list img at → header.now ≡ rec_at f.order img at → PutDown f img (xs ++ at ∷ []) self.new) }
        ensures count { OnOk result (count_of self.new ≡ count_of self.old + 1) }
    {
        self.free.put(0, at, header.next)?;
        self.free_records += 1;
        Ok(())
    }

    /// Whether the lists have just these records, by their heads: takes out what each list leads to. It reads all
    /// heads, and keeps those of the chains, 4 bytes each. At the end it gives back all memory.
    pub fn are_lists<S: Space>(mut self, alloc: Global, s: &mut S) -> Result<bool, CheckRefusal>
        requires heads { data_start (S.form s.old) ≤ S.size s.old }
        ensures lists { IfOk result (λ all. IsTrue all → IsTrue S.tells → (xs : List ℕ) → PutDown (S.form s.old) (S.image s.old) xs self → AreLists (S.form s.old) (S.image s.old) self) }
        ensures no_fault { IfErr result (λ e. Names e (λ _. ⊥)) }
        ensures looked { Looked S.Space s.old s.new }
        ensures cause { HasCauseOf DiskFailed (S.faults s.old) (S.faults s.new) result }
        ensures bytes_read { RoseUpTo (4 + 4 * (S.form s.old).chains) (S.bytes_read s.old) (S.bytes_read s.new) }
    {
        let mut word = [0u8; 4];
        s.read(168, &mut word)?;
        let mut free_head = [word_at(&word, s.order())];
        if !self.free.follow(&mut free_head) {
            return Ok(false);
        }
        let mut heads = read_heads(alloc, s)?;
        if !self.chained.follow(&mut heads) {
            return Ok(false);
        }
        Ok(self.are_taken())
    }

    /// Whether each record was taken out.
    fn are_taken(&self) -> bool
        ensures { IsTrue result → (w : ℕ → ℕ) → all_left w self.now ≡ 0 }
    {
        self.chained.are_taken() && self.free.are_taken()
    }
}

/// The heads of all chains, by number. It reads 1,024 at a time.
fn read_heads<S: Space>(alloc: Global, s: &mut S) -> Result<Vec<u32>, CheckRefusal>
    requires heads { data_start (S.form s.old) ≤ S.size s.old }
    ensures heads { IfOk result (λ heads. IsTrue S.tells → HeadsRead (S.form s.old) (S.image s.old) heads.items) }
    ensures long { IfOk result (λ heads. length heads.items ≡ (S.form s.old).chains) }
    ensures low { (S.form s.old).chains < 2 ^ 32 }
    ensures no_fault { IfErr result (λ e. Names e (λ _. ⊥)) }
    ensures looked { Looked S.Space s.old s.new }
    ensures cause { HasCauseOf DiskFailed (S.faults s.old) (S.faults s.new) result }
    ensures bytes_read { RoseUpTo (4 * (S.form s.old).chains) (S.bytes_read s.old) (S.bytes_read s.new) }
{
    let chains = s.hash_size();
    let mut heads = Vec::with_capacity(alloc, chains as usize)?;
    let mut block = [0u8; 4096];
    let mut first = 0u32;
    while first < chains {
        let count = HEADS.min(chains - first);
        let words = &mut block[..4 * count as usize];
        s.read(172 + 4 * first as u64, words)?;
        put_words(words, count, s.order(), &mut heads)?;
        first += count;
    }
    Ok(heads)
}

/// Puts the words of a block behind the heads before them.
fn put_words(words: &[u8], count: u32, order: Order, heads: &mut Vec<u32>) -> Result<(), AllocError>
    requires block { length words.now ≡ 4 * count }
    ensures heads { OnOk result ((f : Form) (img : List ℕ) → order ≡ f.order → words.now ≡ take (4 * count) (drop (chain_head (length heads.old.items)) img)
        → HeadsRead f img heads.old.items → HeadsRead f img heads.new.items) }
    ensures long { OnOk result (length heads.new.items ≡ length heads.old.items + count) }
{
    for i in 0..count {
        heads.push(word_in(words, 4 * i as usize, order))?;
    }
    Ok(())
}

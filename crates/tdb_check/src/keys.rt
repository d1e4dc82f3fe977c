// The keys of one chain, by what is known of them without reading, and the first of them that an earlier record has.

ghost use Rattle.std.specs.Prelude.{◌≡◌, ℕ, ◌+◌, ◌*◌, None, slice_index_or, sum_by, ◌<◌, ◌≤◌, true, List, [], ◌∷◌, ◌++◌, false, map, IsTrue, length, take, IfOk, IfErr, OnOk, MatchBool};
ghost use Rattle.tdb_disk.specs.Count.{HasCauseOf, RoseUpTo};
ghost use Rattle.std.specs.List.{filter};
ghost use Rattle.std.specs.List.Sorted.{IsNonDecreasingBy, IsPermutation};
ghost use Rattle.tdb_words.specs.Hash.{h_jenkins};
ghost use Rattle.tdb_space.specs.Form.{Form};
ghost use Rattle.tdb_space.specs.Accepted.{KeysDiffer};
ghost use Rattle.tdb_check.specs.Seen.{Names, FoundAt};
ghost use Rattle.tdb_check.specs.Keys.{mark_of, notes_of, digested, MarksRise, NoLargeGroup, AllNoted, NotedDiffer, TwinAt, NoTwinBefore, CountsMarks, is_alike};
ghost use Rattle.tdb_check.specs.Reads.{key_bytes, shared, shared_by_pairs, twin_reads};
ghost use Rattle.tdb_space.specs.Frame.{Looked};
ghost use Rattle.tdb_check.specs.declared.refusal.CheckRefusal.TheVariants.{Io};

use crate::record::Found;
use crate::refusal::CheckRefusal;
use crate::same_key::{key_digest, same_key};
use std::alloc::{AllocError, Global};
use std::mem::swap;
use tdb_space::Space;
use tdb_words::USED;

/// How many places a table of marks has for each record.
const PLACES: u32 = 4;

/// A used record, by what tells its key from most others.
#[derive(Clone, Copy)]
pub struct Noted {
    /// A number that its key determines: Jenkins' hash of the key, or the first word of a digest.
    pub mark: u32,

    /// The length of its key in bytes.
    pub key_len: u32,

    /// Its offset.
    pub at: u32,
}

/// The used records of one chain in their order, 12 bytes each, and room for as many in the order of their marks.
/// `clear` keeps the memory.
#[derive(Drop)]
pub struct Keys {
    noted: Vec<Noted>,
    sorted: Vec<Noted>,
}

impl Keys {
    ghost use Rattle.tdb_check.specs.Keys.{KeptIn, KeptAlike, IsKeyed, TwinFound};

    /// No record. It takes no memory.
    pub fn new(alloc: Global) -> Self
        ensures { (f : Form) (img : List ℕ) → KeptIn f img [] result }
    {
        Keys {
            noted: Vec::new(alloc),
            sorted: Vec::new(alloc),
        }
    }

    /// No record, and room for so many.
    pub fn with_room(alloc: Global, room: usize) -> Result<Self, AllocError>
        ensures { IfOk result (λ k. (f : Form) (img : List ℕ) → KeptIn f img [] k) }
    {
        Ok(Keys {
            noted: Vec::with_capacity(alloc, room)?,
            sorted: Vec::new(alloc),
        })
    }

    /// Forgets all records.
    pub fn clear(&mut self)
        ensures { (f : Form) (img : List ℕ) → KeptIn f img [] self.new }
    {
        self.noted.clear();
    }

    /// Notes the record that was found at an offset, where it is used. Fails only for want of memory.
    pub fn note(&mut self, at: u32, found: &Found) -> Result<(), AllocError>
        ensures { OnOk result ((f : Form) (img xs : List ℕ) → KeptIn f img xs self.old → FoundAt f img at found.now → IsKeyed f img at → KeptIn f img (xs ++ at ∷ []) self.new) }
    {
        if found.header.magic != USED {
            return Ok(());
        }
        self.noted.push(Noted {
            mark: found.mark,
            key_len: found.header.key_len,
            at,
        })?;
        Ok(())
    }

    /// The offset of the first record whose key an earlier one has, if there is one. Keys are read only where two have
    /// one mark: those of one length are compared where at most eight have it, else a digest of each key is made, and
    /// those with one digest are compared. Where no two keys are the same this is done once, and else once more for
    /// each halving of the number of records. It takes n log n steps for n records.
    pub fn first_twin<S: Space>(&mut self, s: &mut S, len: u64) -> Result<Option<u32>, CheckRefusal>
        requires length { len ≡ S.size s.old }
        ensures found { IfOk result (λ twin. IsTrue S.tells → length (S.image s.old) ≡ len → (xs : List ℕ) → KeptIn (S.form s.old) (S.image s.old) xs self.old → TwinFound (S.form s.old) (S.image s.old) xs twin) }
        ensures no_fault { IfErr result (λ e. IsTrue S.tells → length (S.image s.old) ≡ len → (xs : List ℕ) → KeptIn (S.form s.old) (S.image s.old) xs self.old → Names e (λ _. ⊥)) }
        ensures looked { Looked S.Space s.old s.new }
        ensures cause { HasCauseOf Io (S.faults s.old) (S.faults s.new) result }
        ensures bytes_read { IfOk result (λ twin. twin ≡ None → IsTrue S.tells → length (S.image s.old) ≡ len → (xs : List ℕ) → KeptIn (S.form s.old) (S.image s.old) xs self.old → RoseUpTo (twin_reads (S.form s.old) (S.image s.old) (notes_of (S.form s.old) (S.image s.old) xs)) (S.bytes_read s.old) (S.bytes_read s.new)) }
        ensures bytes_in_all { IsTrue S.tells → length (S.image s.old) ≡ len → (xs : List ℕ) → KeptIn (S.form s.old) (S.image s.old) xs self.old → RoseUpTo (65 * twin_reads (S.form s.old) (S.image s.old) (notes_of (S.form s.old) (S.image s.old) xs)) (S.bytes_read s.old) (S.bytes_read s.new) }
    {
        let mut most = self.noted.len();
        let twins = match self.has_twins(s, len, most) {
            Ok(twins) => twins,
            Err(e) => return Err(e),
        };
        if !twins {
            return Ok(None);
        }
        let mut least = 0;
        while most - least > 1 {
            let middle = least + (most - least) / 2;
            let twins = match self.has_twins(s, len, middle) {
                Ok(twins) => twins,
                Err(e) => return Err(e),
            };
            if twins {
                most = middle;
            } else {
                least = middle;
            }
        }
        Ok(Some(self.noted[least].at))
    }

    /// Forgets most of the records whose key no other has, by their marks, and none of the others. It takes time in
    /// proportion to the number of records; while it runs four bytes a record, and twelve for each that is left at
    /// first.
    pub fn keep_alike(&mut self, alloc: Global) -> Result<(), AllocError>
        ensures kept { OnOk result ((f : Form) (img xs : List ℕ) → KeptIn f img xs self.old → KeptAlike f img xs self.new) }
        ensures bytes { OnOk result (key_bytes self.new.noted.items ≤ key_bytes self.old.noted.items) }
    {
        self.forget_lone(alloc)?;
        self.forget_lone(alloc)?;
        self.forget_lone(alloc)?;
        Ok(())
    }

    /// Forgets each record whose mark has a place in a table that no other mark has: no other record has its key. Since
    /// the table's length goes by the number of records, other marks share a place each time.
    fn forget_lone(&mut self, alloc: Global) -> Result<(), AllocError>
        ensures kept { OnOk result ((f : Form) (img xs : List ℕ) → KeptIn f img xs self.old → KeptAlike f img xs self.new) }
        ensures bytes { OnOk result (key_bytes self.new.noted.items ≤ key_bytes self.old.noted.items) }
    {
        let places = places_for(self.noted.len());
        let counts = mark_counts(alloc, &self.noted, places)?;
        copy_alike(&self.noted, &counts, places, &mut self.sorted)?;
        swap(&mut self.noted, &mut self.sorted);
        Ok(())
    }

    /// Whether no two of the records have the same key; false also where more than eight have one mark. Keys are read
    /// only where two have one mark. It takes n log n steps for n records and no memory, and leaves no record.
    pub fn differ<S: Space>(&mut self, s: &mut S, len: u64) -> Result<bool, CheckRefusal>
        requires length { len ≡ S.size s.old }
        ensures differ { IfOk result (λ differ. IsTrue differ → IsTrue S.tells → length (S.image s.old) ≡ len → (xs : List ℕ) → KeptIn (S.form s.old) (S.image s.old) xs self.old → KeysDiffer (S.form s.old) (S.image s.old) xs) }
        ensures no_fault { IfErr result (λ e. IsTrue S.tells → length (S.image s.old) ≡ len → (xs : List ℕ) → KeptIn (S.form s.old) (S.image s.old) xs self.old → Names e (λ _. ⊥)) }
        ensures looked { Looked S.Space s.old s.new }
        ensures cause { HasCauseOf Io (S.faults s.old) (S.faults s.new) result }
        ensures bytes_read { RoseUpTo (14 * key_bytes self.old.noted.items) (S.bytes_read s.old) (S.bytes_read s.new) }
    {
        sort_by_mark(&mut self.noted);
        if !has_equal_marks(&self.noted) {
            return Ok(true);
        }
        if has_large_group(&self.noted) {
            return Ok(false);
        }
        let twins = any_twins(s, len, &self.noted)?;
        Ok(!twins)
    }

    /// Whether two of the first records have the same key.
    fn has_twins<S: Space>(
        &mut self,
        s: &mut S,
        len: u64,
        count: usize,
    ) -> Result<bool, CheckRefusal>
        requires length { len ≡ S.size s.old }
        requires within { count ≤ length self.old.noted.items }
        ensures noted { self.new.noted ≡ self.old.noted }
        ensures some { IfOk result (λ twins. twins ≡ true → 0 < count) }
        ensures twins { IfOk result (λ twins. IsTrue S.tells → length (S.image s.old) ≡ len → AllNoted h_jenkins (S.form s.old) (S.image s.old) self.old.noted.items
            → MatchBool twins (NotedDiffer (S.form s.old) (S.image s.old) (take count self.old.noted.items) → ⊥) (NotedDiffer (S.form s.old) (S.image s.old) (take count self.old.noted.items))) }
        ensures no_fault { IfErr result (λ e. IsTrue S.tells → length (S.image s.old) ≡ len → AllNoted h_jenkins (S.form s.old) (S.image s.old) self.old.noted.items → Names e (λ _. ⊥)) }
        ensures looked { Looked S.Space s.old s.new }
        ensures cause { HasCauseOf Io (S.faults s.old) (S.faults s.new) result }
        ensures bytes_read { IsTrue S.tells → length (S.image s.old) ≡ len → AllNoted h_jenkins (S.form s.old) (S.image s.old) self.old.noted.items
            → RoseUpTo (twin_reads (S.form s.old) (S.image s.old) (take count self.old.noted.items)) (S.bytes_read s.old) (S.bytes_read s.new) }
    {
        copy_noted(&self.noted[..count], &mut self.sorted)?;
        sort_by_mark(&mut self.sorted);
        if !has_equal_marks(&self.sorted) {
            return Ok(false);
        }
        if has_large_group(&self.sorted) {
            return has_digested_twins(s, len, &self.noted[..count], &mut self.sorted);
        }
        any_twins(s, len, &self.sorted)
    }
}

/// How many places a table of the marks of so many records has.
fn places_for(count: usize) -> u32
    ensures { 0 < result }
{
    let count = u32::try_from(count).unwrap_or(u32::MAX);
    count.saturating_mul(PLACES).saturating_add(1)
}

/// How many records there are of the marks of each place in a table of so many. More than 255 count as 255.
fn mark_counts(alloc: Global, noted: &[Noted], places: u32) -> Result<Vec<u8>, AllocError>
    requires some { 0 < places }
    ensures long { IfOk result (λ counts. length counts.items ≡ places) }
    ensures counted { IfOk result (λ counts. CountsMarks counts.items noted.now) }
{
    let mut counts = Vec::new(alloc);
    counts.resize(places as usize, 0u8)?;
    for record in noted {
        let place = (record.mark % places) as usize;
        counts[place] = counts[place].saturating_add(1);
    }
    Ok(counts)
}

/// Makes a list those of these records whose mark has a place that is counted more than once.
fn copy_alike(
    noted: &[Noted],
    counts: &[u8],
    places: u32,
    alike: &mut Vec<Noted>,
) -> Result<(), AllocError>
    requires some { 0 < places }
    requires long { length counts.now ≡ places }
    ensures { OnOk result (alike.new.items ≡ filter (is_alike counts.now) noted.now) }
{
    alike.clear();
    for record in noted {
        if counts[(record.mark % places) as usize] > 1 {
            put(alike, *record)?;
        }
    }
    Ok(())
}

/// Whether two of these records have the same key, by digests of all keys, for which there is a list.
fn has_digested_twins<S: Space>(
    s: &mut S,
    len: u64,
    noted: &[Noted],
    sorted: &mut Vec<Noted>,
) -> Result<bool, CheckRefusal>
    requires length { len ≡ S.size s.old }
    ensures some { IfOk result (λ twins. twins ≡ true → 0 < length noted.now) }
    ensures twins { IfOk result (λ twins. IsTrue S.tells → length (S.image s.old) ≡ len → AllNoted h_jenkins (S.form s.old) (S.image s.old) noted.now
        → MatchBool twins (NotedDiffer (S.form s.old) (S.image s.old) noted.now → ⊥) (NotedDiffer (S.form s.old) (S.image s.old) noted.now)) }
    ensures no_fault { IfErr result (λ e. IsTrue S.tells → length (S.image s.old) ≡ len → AllNoted h_jenkins (S.form s.old) (S.image s.old) noted.now → Names e (λ _. ⊥)) }
    ensures looked { Looked S.Space s.old s.new }
    ensures cause { HasCauseOf Io (S.faults s.old) (S.faults s.new) result }
    ensures bytes_read { IsTrue S.tells → length (S.image s.old) ≡ len → AllNoted h_jenkins (S.form s.old) (S.image s.old) noted.now
        → RoseUpTo (key_bytes noted.now + 2 * shared_by_pairs (map (digested (S.form s.old) (S.image s.old)) noted.now)) (S.bytes_read s.old) (S.bytes_read s.new) }
{
    match copy_digests(s, len, noted, sorted) {
        Ok(()) => {}
        Err(e) => return Err(e),
    }
    sort_by_mark(sorted);
    any_twins(s, len, sorted)
}

/// Makes a list that of these records.
fn copy_noted(noted: &[Noted], sorted: &mut Vec<Noted>) -> Result<(), AllocError>
    ensures { OnOk result (sorted.new.items ≡ noted.now) }
{
    sorted.clear();
    sorted.extend_from_slice(noted)
}

/// Puts a record at the end.
fn put(records: &mut Vec<Noted>, one: Noted) -> Result<(), AllocError>
    ensures { OnOk result (records.new.items ≡ records.old.items ++ one ∷ []) }
{
    records.push(one)?;
    Ok(())
}

/// Makes a list that of these records, each marked by a digest of its key, which is read.
fn copy_digests<S: Space>(
    s: &mut S,
    len: u64,
    noted: &[Noted],
    sorted: &mut Vec<Noted>,
) -> Result<(), CheckRefusal>
    requires length { len ≡ S.size s.old }
    ensures marked { OnOk result (IsTrue S.tells → length (S.image s.old) ≡ len → (mark : List ℕ → ℕ) → AllNoted mark (S.form s.old) (S.image s.old) noted.now
        → sorted.new.items ≡ map (digested (S.form s.old) (S.image s.old)) noted.now) }
    ensures long { OnOk result (length sorted.new.items ≡ length noted.now) }
    ensures no_fault { IfErr result (λ e. IsTrue S.tells → length (S.image s.old) ≡ len → (mark : List ℕ → ℕ) → AllNoted mark (S.form s.old) (S.image s.old) noted.now → Names e (λ _. ⊥)) }
    ensures looked { Looked S.Space s.old s.new }
    ensures cause { HasCauseOf Io (S.faults s.old) (S.faults s.new) result }
    ensures bytes_read { RoseUpTo (key_bytes noted.now) (S.bytes_read s.old) (S.bytes_read s.new) }
{
    sorted.clear();
    for record in noted {
        let mark = match key_digest(s, len, record) {
            Ok(mark) => mark,
            Err(e) => return Err(e),
        };
        put(
            sorted,
            Noted {
                mark,
                key_len: record.key_len,
                at: record.at,
            },
        )?;
    }
    Ok(())
}

/// Whether two of these records, in the order of their marks, have the same mark.
fn has_equal_marks(sorted: &[Noted]) -> bool
    requires ordered { IsNonDecreasingBy mark_of sorted.now }
    ensures some { result ≡ true → 0 < length sorted.now }
    ensures apart { result ≡ false → MarksRise sorted.now (length sorted.now) }
{
    for i in 1..sorted.len() {
        if sorted[i - 1].mark == sorted[i].mark {
            return true;
        }
    }
    false
}

/// Whether more of these records, in the order of their marks, have one mark than are worth comparing with each other.
fn has_large_group(sorted: &[Noted]) -> bool
    ensures small { result ≡ false → NoLargeGroup sorted.now (length sorted.now) }
{
    for i in 8..sorted.len() {
        if sorted[i - 8].mark == sorted[i].mark {
            return true;
        }
    }
    false
}

/// Puts records into the order of their marks. It takes no memory and time n log n.
fn sort_by_mark(sorted: &mut Vec<Noted>)
    ensures ordered { IsNonDecreasingBy mark_of sorted.new.items }
    ensures same { IsPermutation sorted.old.items sorted.new.items }
{
    sorted.sort_unstable_by_key(|record| record.mark);
}

/// Whether two of these records, in the order of their marks, have the same key.
fn any_twins<S: Space>(s: &mut S, len: u64, sorted: &[Noted]) -> Result<bool, CheckRefusal>
    requires length { len ≡ S.size s.old }
    requires ordered { IsNonDecreasingBy mark_of sorted.now }
    ensures some { IfOk result (λ twins. twins ≡ true → 0 < length sorted.now) }
    ensures twins { IfOk result (λ twins. IsTrue S.tells → length (S.image s.old) ≡ len → (mark : List ℕ → ℕ) → AllNoted mark (S.form s.old) (S.image s.old) sorted.now
        → MatchBool twins (NotedDiffer (S.form s.old) (S.image s.old) sorted.now → ⊥) (NotedDiffer (S.form s.old) (S.image s.old) sorted.now)) }
    ensures no_fault { IfErr result (λ e. IsTrue S.tells → length (S.image s.old) ≡ len → (mark : List ℕ → ℕ) → AllNoted mark (S.form s.old) (S.image s.old) sorted.now → Names e (λ _. ⊥)) }
    ensures looked { Looked S.Space s.old s.new }
    ensures cause { HasCauseOf Io (S.faults s.old) (S.faults s.new) result }
    ensures bytes_read { RoseUpTo (2 * shared_by_pairs sorted.now) (S.bytes_read s.old) (S.bytes_read s.new) }
{
    for i in 0..sorted.len() {
        let twin = match has_twin_before(s, len, sorted, i) {
            Ok(twin) => twin,
            Err(e) => return Err(e),
        };
        if twin {
            return Ok(true);
        }
    }
    Ok(false)
}

/// Whether the key of one of these records, in the order of their marks, is that of one before it.
fn has_twin_before<S: Space>(
    s: &mut S,
    len: u64,
    sorted: &[Noted],
    i: usize,
) -> Result<bool, CheckRefusal>
    requires length { len ≡ S.size s.old }
    requires ordered { IsNonDecreasingBy mark_of sorted.now }
    requires within { i < length sorted.now }
    ensures twin { IfOk result (λ twin. IsTrue S.tells → length (S.image s.old) ≡ len → (mark : List ℕ → ℕ) → AllNoted mark (S.form s.old) (S.image s.old) sorted.now
        → MatchBool twin (TwinAt (S.form s.old) (S.image s.old) sorted.now i) (NoTwinBefore (S.form s.old) (S.image s.old) sorted.now i 0)) }
    ensures no_fault { IfErr result (λ e. IsTrue S.tells → length (S.image s.old) ≡ len → (mark : List ℕ → ℕ) → AllNoted mark (S.form s.old) (S.image s.old) sorted.now → Names e (λ _. ⊥)) }
    ensures looked { Looked S.Space s.old s.new }
    ensures cause { HasCauseOf Io (S.faults s.old) (S.faults s.new) result }
    ensures bytes_read { (d : Noted) → RoseUpTo (2 * sum_by (shared (slice_index_or sorted.now i d)) (take i sorted.now)) (S.bytes_read s.old) (S.bytes_read s.new) }
{
    let last = sorted[i];
    let mut k = i;
    while k > 0 {
        let other = sorted[k - 1];
        if other.mark != last.mark {
            return Ok(false);
        }
        let same = match same_key(s, len, &other, &last) {
            Ok(same) => same,
            Err(e) => return Err(e),
        };
        if same {
            return Ok(true);
        }
        k -= 1;
    }
    Ok(false)
}

// The walk along one chain.

ghost use Rattle.std.specs.Prelude.{◌≡◌, ℕ, ◌+◌, ◌<◌, ◌≤◌, ◌==◌, if◌then◌else◌, List, [], ◌∷◌, ◌++◌, IsTrue, length, sum_by, Some, IfOk, IfErr, OnOk};
ghost use Rattle.tdb_disk.specs.Count.{HasCauseOf, RoseUpTo};
ghost use Rattle.tdb_words.specs.Word.{word};
ghost use Rattle.tdb_space.specs.Form.{Form, data_start, chain_head};
ghost use Rattle.tdb_space.specs.Chain.{chain_of};
ghost use Rattle.tdb_space.specs.Extents.{Extent as Held};
ghost use Rattle.tdb_space.specs.FirstFault.{chain_number, FirstInList};
ghost use Rattle.tdb_check.specs.Seen.{Names};
ghost use Rattle.tdb_check.specs.Followed.{ChainFollowed};
ghost use Rattle.tdb_check.specs.Extent.{extents_seen};
ghost use Rattle.tdb_check.specs.Tails.{TailsOf};
ghost use Rattle.tdb_check.specs.Walked.{fault_but_twin};
ghost use Rattle.tdb_check.specs.Notes.{NotesOf, RecordPassed, WalkDone};
ghost use Rattle.tdb_check.specs.Reads.{record_reads, chain_reads};
ghost use Rattle.tdb_space.specs.Frame.{Looked};
ghost use Rattle.tdb_check.specs.declared.refusal.CheckRefusal.TheVariants.{Io};

use crate::area::can_stand;
use crate::extent::{Extent, put};
use crate::keys::Keys;
use crate::list_kind::ListKind;
use crate::record::read_record;
use crate::refusal::CheckRefusal;
use crate::tails::Tails;
use crate::trail::Trail;
use std::alloc::{AllocError, Global};
use tdb_space::Space;
use tdb_words::{Rec, USED, What};

/// What is noted along one chain. It is cleared for the next one, and then keeps the memory that short chains take.
#[derive(Drop)]
pub struct Notes {
    /// The offsets of the records so far.
    offsets: Trail,

    /// Their keys.
    keys: Keys,

    /// The extents of the dead ones behind the last used one.
    dead: Vec<Extent>,

    /// The dead records at the ends of the chains before.
    tails: Tails,
}

impl Notes {
    /// Notes of no record. They take no memory.
    pub fn new(alloc: Global) -> Self
        ensures { (f : Form) (img : List ℕ) (seen : List Held) → TailsOf f img seen result.tails }
    {
        Notes {
            offsets: Trail::new(alloc),
            keys: Keys::new(alloc),
            dead: Vec::new(alloc),
            tails: Tails::new(alloc),
        }
    }

    /// Forgets the records of the chain, but not those at the ends of chains.
    fn clear(&mut self)
        ensures none { (f : Form) (img : List ℕ) → NotesOf f img [] self.new }
        ensures tails { self.new.tails ≡ self.old.tails }
    {
        self.offsets.clear();
        self.keys.clear();
        self.dead.clear();
    }
}

/// Puts a dead record down behind the others; a used one ends them.
fn note_dead(dead: &mut Vec<Extent>, at: u32, r: &Rec) -> Result<(), AllocError>
    ensures { OnOk result (dead.new.items ≡ (if r.now.magic == USED then [] else dead.old.items ++ (record { off = at; rec_len = r.now.rec_len }) ∷ [])) }
{
    if r.magic == USED {
        dead.clear();
        return Ok(());
    }
    put(
        dead,
        Extent {
            off: at,
            rec_len: r.rec_len,
        },
    )
}

/// The header of the record that the word at a place leads to, in chain `j` after the records that are noted; it is
/// noted too. Or what is first wrong there: the word leads out of the file or back into the chain, or the record is bad
/// by itself. Whether an earlier one has its key isn't looked for.
fn pass_record<S: Space>(
    s: &mut S,
    len: u64,
    j: u32,
    place: u64,
    at: u32,
    notes: &mut Notes,
) -> Result<Rec, CheckRefusal>
    requires length { len ≡ S.size s.old }
    requires chains { 0 < (S.form s.old).chains }
    ensures good { IfOk result (λ r. IsTrue S.tells → length (S.image s.old) ≡ len → (xs : List ℕ) → NotesOf (S.form s.old) (S.image s.old) xs notes.old
        → RecordPassed (S.form s.old) j (S.image s.old) xs place at r notes.new) }
    ensures bad { IfErr result (λ e. IsTrue S.tells → length (S.image s.old) ≡ len → (xs : List ℕ) → NotesOf (S.form s.old) (S.image s.old) xs notes.old
        → Names e (λ fault. fault_but_twin (S.form s.old) (chain_number j) (S.image s.old) xs place at ≡ Some fault)) }
    ensures kept { IfErr result (λ e. Names e (λ _. notes.new ≡ notes.old)) }
    ensures tails { notes.new.tails ≡ notes.old.tails }
    ensures looked { Looked S.Space s.old s.new }
    ensures cause { HasCauseOf Io (S.faults s.old) (S.faults s.new) result }
    ensures bytes_read { IsTrue S.tells → length (S.image s.old) ≡ len → RoseUpTo (record_reads (S.form s.old) (S.image s.old) at) (S.bytes_read s.old) (S.bytes_read s.new) }
{
    if !can_stand(at, len, s.hash_size()) {
        return Err(CheckRefusal::Corrupt {
            what: What::ChainOut,
            at: place,
        });
    }
    if notes.offsets.contains(at) {
        return Err(CheckRefusal::Corrupt {
            what: What::ChainLoop,
            at: place,
        });
    }
    let found = match read_record(s, len, ListKind::Chain(j), at) {
        Ok(found) => found,
        Err(e) => return Err(e),
    };
    notes.offsets.note(at)?;
    notes.keys.note(at, &found)?;
    note_dead(&mut notes.dead, at, &found.header)?;
    Ok(found.header)
}

/// How many used records a record counts for: one or none.
pub(crate) fn used_count(r: &Rec) -> u64
    ensures one { result ≡ (if r.now.magic == USED then 1 else 0) }
    ensures at_most { result ≤ 1 }
{
    if r.magic == USED { 1 } else { 0 }
}

/// How a walk along a chain ends.
#[derive(Clone, Copy)]
pub enum End {
    /// At a word 0.
    Last,

    /// At the end of an earlier chain, where this is the least extent.
    Known(Extent),

    /// At a fault of the file.
    Fault { what: What, at: u64 },
}

/// A walk along a chain.
#[derive(Clone, Copy)]
pub struct Walk {
    /// How many of the records are used.
    pub live: u64,

    /// How it ends.
    pub end: End,
}

/// Walks along chain `j` from the first word that its head holds, puts the extents of its records behind those that are
/// there, and notes the records. Whether two of them have one key isn't looked for.
fn walk_chain<S: Space>(
    s: &mut S,
    len: u64,
    j: u32,
    first: u32,
    notes: &mut Notes,
    extents: &mut Vec<Extent>,
) -> Result<Walk, CheckRefusal>
    requires length { len ≡ S.size s.old }
    requires heads { data_start (S.form s.old) ≤ len }
    requires chains { 0 < (S.form s.old).chains }
    ensures walked { IfOk result (λ walk. IsTrue S.tells → length (S.image s.old) ≡ len → word (S.form s.old).order (S.image s.old) (chain_head j) ≡ first
        → WalkDone (S.form s.old) j (S.image s.old) notes.new extents.old.items extents.new.items walk) }
    ensures no_fault { IfErr result (λ e. Names e (λ _. ⊥)) }
    ensures tails { notes.new.tails ≡ notes.old.tails }
    ensures count { IfOk result (λ walk. walk.live + length extents.old.items ≤ length extents.new.items) }
    ensures looked { Looked S.Space s.old s.new }
    ensures cause { HasCauseOf Io (S.faults s.old) (S.faults s.new) result }
    ensures bytes_read { IsTrue S.tells → length (S.image s.old) ≡ len → word (S.form s.old).order (S.image s.old) (chain_head j) ≡ first
        → RoseUpTo (sum_by (record_reads (S.form s.old) (S.image s.old)) (chain_of (S.form s.old) (S.image s.old) j)) (S.bytes_read s.old) (S.bytes_read s.new) }
{
    notes.clear();
    let mut place = 172 + 4 * j as u64;
    let mut at = first;
    let mut live = 0u64;
    for _turn in 0..len {
        if at == 0 {
            return Ok(Walk {
                live,
                end: End::Last,
            });
        }
        if let Some(least) = notes.tails.least_from(at) {
            return Ok(Walk {
                live,
                end: End::Known(least),
            });
        }
        let r = match pass_record(s, len, j, place, at, notes) {
            Ok(r) => r,
            Err(CheckRefusal::Corrupt { what, at }) => {
                return Ok(Walk {
                    live,
                    end: End::Fault { what, at },
                });
            }
            Err(CheckRefusal::Io) => return Err(CheckRefusal::Io),
            Err(CheckRefusal::Memory) => return Err(CheckRefusal::Memory),
        };
        put(
            extents,
            Extent {
                off: at,
                rec_len: r.rec_len,
            },
        )?;
        live += used_count(&r);
        place = at as u64;
        at = r.next;
    }
    Ok(Walk {
        live,
        end: End::Fault {
            what: What::ChainLoop,
            at: place,
        },
    })
}

/// Follows chain `j` from the first word that its head holds to its end, and puts the extents of its records behind
/// those that are there. Answers how many of the records are used, or what is first wrong with the chain. Where the
/// rest of it is known, as the end of an earlier chain, only the least extent of the rest is put down, once more.
pub fn follow_chain<S: Space>(
    s: &mut S,
    len: u64,
    j: u32,
    first: u32,
    notes: &mut Notes,
    extents: &mut Vec<Extent>,
) -> Result<u64, CheckRefusal>
    requires length { len ≡ S.size s.old }
    requires heads { data_start (S.form s.old) ≤ len }
    requires chains { 0 < (S.form s.old).chains }
    requires number { j < (S.form s.old).chains }
    ensures sound { IfOk result (λ live. IsTrue S.tells → length (S.image s.old) ≡ len → word (S.form s.old).order (S.image s.old) (chain_head j) ≡ first
        → TailsOf (S.form s.old) (S.image s.old) (extents_seen extents.old.items) notes.old.tails
        → ChainFollowed (S.form s.old) j (S.image s.old) extents.old.items extents.new.items live
        × TailsOf (S.form s.old) (S.image s.old) (extents_seen extents.new.items) notes.new.tails) }
    ensures bad { IfErr result (λ e. IsTrue S.tells → length (S.image s.old) ≡ len → word (S.form s.old).order (S.image s.old) (chain_head j) ≡ first
        → Names e (FirstInList (S.form s.old) (chain_number j) (S.image s.old) (chain_head j))) }
    ensures count { IfOk result (λ live. live + length extents.old.items ≤ length extents.new.items) }
    ensures looked { Looked S.Space s.old s.new }
    ensures cause { HasCauseOf Io (S.faults s.old) (S.faults s.new) result }
    ensures bytes_read { OnOk result (IsTrue S.tells → length (S.image s.old) ≡ len → word (S.form s.old).order (S.image s.old) (chain_head j) ≡ first
        → RoseUpTo (chain_reads 1 (S.form s.old) (S.image s.old) j) (S.bytes_read s.old) (S.bytes_read s.new)) }
    ensures bytes_in_all { IsTrue S.tells → length (S.image s.old) ≡ len → word (S.form s.old).order (S.image s.old) (chain_head j) ≡ first
        → RoseUpTo (chain_reads 65 (S.form s.old) (S.image s.old) j) (S.bytes_read s.old) (S.bytes_read s.new) }
{
    if first == 0 {
        return Ok(0);
    }
    let walk = match walk_chain(s, len, j, first, notes, extents) {
        Ok(walk) => walk,
        Err(e) => return Err(e),
    };
    let twin = match notes.keys.first_twin(s, len) {
        Ok(twin) => twin,
        Err(e) => return Err(e),
    };
    if let Some(at) = twin {
        return Err(CheckRefusal::Corrupt {
            what: What::TwiceKey,
            at: at as u64,
        });
    }
    match walk.end {
        End::Fault { what, at } => Err(CheckRefusal::Corrupt { what, at }),
        End::Last => {
            notes.tails.keep(&mut notes.dead, None)?;
            Ok(walk.live)
        }
        End::Known(least) => {
            notes.tails.keep(&mut notes.dead, Some(least))?;
            put(extents, least)?;
            Ok(walk.live)
        }
    }
}

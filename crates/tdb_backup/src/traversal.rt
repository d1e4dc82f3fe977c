// All pairs of a file, one after the other.

ghost use Rattle.std.specs.Prelude.{◌≡◌, ◌↔◌, ◌+◌, ◌-◌, ◌*◌, ◌/◌, ◌≤◌, ◌<◌, ◌==◌, if◌then◌else◌, [], ◌∷◌, ◌++◌, ℕ, List, ◌^◌, length, min, Some, IsTrue, IfOk, IfSome, OnOk, OnErr, MatchBool};
ghost use Rattle.tdb_disk.specs.Count.{HasCause, HasCauseOf, RoseUpTo};
ghost use Rattle.tdb_space.specs.Frame.{Looked};
ghost use Rattle.tdb_words.specs.declared.record.TheConstants.{USED};
ghost use Rattle.tdb_words.specs.Word.{word};
ghost use Rattle.tdb_words.specs.Record.{rec_at};
ghost use Rattle.tdb_space.specs.Form.{Form, data_start, chain_head};
ghost use Rattle.tdb_space.specs.Record.{Fits, magic_of};
ghost use Rattle.tdb_space.specs.Chain.{IsLink};
ghost use Rattle.tdb_space.specs.Pairs.{order_of};
ghost use Rattle.tdb_space.specs.Extents.{HandPair};
ghost use Rattle.tdb_space.specs.Accepted.{AcceptWith};
ghost use Rattle.tdb_chain.specs.declared.refusal.ValueRefusal.TheVariants.{Io as IoRefusal};
ghost use Rattle.tdb_chain.specs.Place.{LiesWithin};
ghost use Rattle.tdb_backup.specs.Held.{IsFront, Shows, IsPairOf};
ghost use Rattle.tdb_backup.specs.Traversal.{Gave, GaveChains, pair_at_hand, most_left};
ghost use Rattle.tdb_backup.specs.Reads.{ReadsAlong, rest_reads, ahead_reads, pairs_reads};

use crate::held::Held;
use std::alloc::Global;
use tdb_chain::ValueRefusal;
use tdb_space::{Io, Space, chain_head, content_stands, data_start, header_stands, read_word};
use tdb_words::{Rec, USED};

/// A walk over all pairs of a file in the order of a dump: chain 0 first, each chain from its head on. It holds one
/// pair.
///
/// It reads each record once: the header and 104 bytes more at most, and what a pair has besides.
#[derive(Drop)]
pub struct Traversal {
    /// The number of the chain behind the one at hand, or 0 at the beginning.
    next_chain: u32,

    /// The offset of the next record of the chain at hand, or 0 at its end.
    at: u32,

    /// How many records of the chain at hand may still be read.
    left: u64,

    /// The pair that was read last.
    held: Held,
}

/// Whether a used record has room for its key, its value and its tailer.
fn fits(rec: &Rec) -> bool
    ensures { IsTrue result ↔ rec.now.key_len + rec.now.data_len + 4 ≤ rec.now.rec_len }
{
    rec.key_len as u64 + rec.data_len as u64 + 4 <= rec.rec_len as u64
}

impl Traversal {
    /// A walk that stands before the first pair. It takes no memory.
    pub fn new(alloc: Global) -> Traversal
        ensures gave { (f : Form) (img : List ℕ) → Gave f img [] result }
        ensures reads { (f : Form) (img : List ℕ) → ahead_reads f img result ≡ pairs_reads f img }
    {
        Traversal {
            next_chain: 0,
            at: 0,
            left: 0,
            held: Held::new(alloc),
        }
    }

    /// The key of the pair that was read last.
    pub fn key(&self) -> &[u8]
        ensures { result.now ≡ (pair_at_hand self.now).0 }
    {
        self.held.key()
    }

    /// The value of the pair that was read last.
    pub fn value(&self) -> &[u8]
        ensures { result.now ≡ (pair_at_hand self.now).1 }
    {
        self.held.value()
    }

    /// Reads the next pair, if there is one.
    ///
    /// Over an accepted file the pairs come in its order, and after the last one the answer stays `false`. Where the
    /// file's bytes aren't those of an accepted one, these end a chain as a 0 does: a word that leads in front of the
    /// data, to no whole word, or to fewer than 24 bytes of the file; a record that isn't of whole words, has no room
    /// for its tailer or doesn't end within the file; and a used one without room for what it holds. A chain also ends
    /// after as many records as the file has words.
    ///
    /// `Io` where the disk failed, and `Memory` where it is wanting for the pair. Then the walk stands where it stood,
    /// in front of the same pair.
    pub fn advance<S: Space>(&mut self, s: &mut S) -> Result<bool, ValueRefusal>
        ensures gave { IfOk result (λ more. IsTrue S.tells → (hands : List HandPair) → AcceptWith (S.form s.old) (S.image s.old) hands
            → (given : List (List ℕ × List ℕ)) → Gave (S.form s.old) (S.image s.old) given self.old
            → MatchBool more (Gave (S.form s.old) (S.image s.old) (given ++ pair_at_hand self.new ∷ []) self.new)
            (Gave (S.form s.old) (S.image s.old) given self.new × (order_of (S.form s.old) (S.image s.old) ≡ given))) }
        ensures short { IfOk result (λ more. IsTrue more → (length (pair_at_hand self.new).0 < 2 ^ 32) × (length (pair_at_hand self.new).1 < 2 ^ 32)) }
        ensures kept { OnErr result (IsTrue S.tells → (hands : List HandPair) → AcceptWith (S.form s.old) (S.image s.old) hands
            → (given : List (List ℕ × List ℕ)) → Gave (S.form s.old) (S.image s.old) given self.old → Gave (S.form s.old) (S.image s.old) given self.new) }
        ensures fewer { IfOk result (λ more. IsTrue more → most_left (S.form s.old).chains (S.size s.old) self.new < most_left (S.form s.old).chains (S.size s.old) self.old) }
        ensures looked { Looked S.Space s.old s.new }
        ensures cause { HasCauseOf IoRefusal (S.faults s.old) (S.faults s.new) result }
        ensures bytes_read { S.bytes_read s.old ≤ S.bytes_read s.new }
        ensures reads { IfOk result (λ more. IsTrue S.tells → IsTrue more → ReadsAlong (S.form s.old) (S.image s.old) self.old self.new (S.bytes_read s.old) (S.bytes_read s.new)) }
        ensures reads_at_most { IsTrue S.tells → RoseUpTo (ahead_reads (S.form s.old) (S.image s.old) self.old) (S.bytes_read s.old) (S.bytes_read s.new) }
    {
        let len = s.len()?;
        let chains = s.hash_size();
        if len < data_start(chains) {
            return Ok(false);
        }
        loop {
            if self.advance_in_chain(s, len)? {
                return Ok(true);
            }
            if self.next_chain >= chains {
                return Ok(false);
            }
            self.enter_chain(s, len)?;
        }
    }

    /// Goes on at the head of the next chain.
    fn enter_chain<S: Space>(&mut self, s: &mut S, len: u64) -> Result<(), Io>
        requires length { len ≡ S.size s.old }
        requires more { self.old.next_chain < (S.form s.old).chains }
        requires few { (S.form s.old).chains < 2 ^ 32 }
        requires heads { data_start (S.form s.old) ≤ len }
        ensures gave { IsTrue S.tells → (hands : List HandPair) → AcceptWith (S.form s.old) (S.image s.old) hands
            → (given : List (List ℕ × List ℕ)) → GaveChains (S.form s.old) (S.image s.old) given self.old → Gave (S.form s.old) (S.image s.old) given self.new }
        ensures entered { OnOk result (self.new.next_chain ≡ self.old.next_chain + 1) }
        ensures head { OnOk result (IsTrue S.tells → self.new.at ≡ word (S.form s.old).order (S.image s.old) (chain_head self.old.next_chain)) }
        ensures all_left { OnOk result (self.new.left ≡ len / 4) }
        ensures counted { OnOk result (4 * self.new.left ≤ len) }
        ensures looked { Looked S.Space s.old s.new }
        ensures cause { HasCause (S.faults s.old) (S.faults s.new) result }
        ensures bytes_read { RoseUpTo (4) (S.bytes_read s.old) (S.bytes_read s.new) }
    {
        self.at = read_word(s, chain_head(self.next_chain))?;
        self.left = len / 4;
        self.next_chain += 1;
        Ok(())
    }

    /// Reads the next pair of the chain at hand, if there is one. It passes dead records.
    fn advance_in_chain<S: Space>(&mut self, s: &mut S, len: u64) -> Result<bool, ValueRefusal>
        requires length { len ≡ S.size s.old }
        ensures gave { IfOk result (λ more. IsTrue S.tells → (given : List (List ℕ × List ℕ)) → Gave (S.form s.old) (S.image s.old) given self.old
            → MatchBool more (Gave (S.form s.old) (S.image s.old) (given ++ pair_at_hand self.new ∷ []) self.new)
            (GaveChains (S.form s.old) (S.image s.old) given self.new)) }
        ensures short { IfOk result (λ more. IsTrue more → (length (pair_at_hand self.new).0 < 2 ^ 32) × (length (pair_at_hand self.new).1 < 2 ^ 32)) }
        ensures kept { OnErr result (IsTrue S.tells → (given : List (List ℕ × List ℕ)) → Gave (S.form s.old) (S.image s.old) given self.old
            → Gave (S.form s.old) (S.image s.old) given self.new) }
        ensures same_chain { self.new.next_chain ≡ self.old.next_chain }
        ensures fewer { IfOk result (λ more. IsTrue more → self.new.left < self.old.left) }
        ensures no_more { self.new.left ≤ self.old.left }
        ensures looked { Looked S.Space s.old s.new }
        ensures cause { HasCauseOf IoRefusal (S.faults s.old) (S.faults s.new) result }
        ensures bytes_read { S.bytes_read s.old ≤ S.bytes_read s.new }
        ensures reads { IfOk result (λ more. IsTrue S.tells → IsTrue more → S.bytes_read s.new + rest_reads (S.form s.old) (S.image s.old) self.new ≤ S.bytes_read s.old + rest_reads (S.form s.old) (S.image s.old) self.old) }
        ensures reads_at_most { IsTrue S.tells → RoseUpTo (rest_reads (S.form s.old) (S.image s.old) self.old) (S.bytes_read s.old) (S.bytes_read s.new) }
    {
        while self.left > 0 {
            let Some(rec) = self.record_ahead(s, len)? else {
                return Ok(false);
            };
            if rec.magic == USED {
                self.take_pair(s, rec)?;
                return Ok(true);
            }
            self.at = rec.next;
            self.left -= 1;
        }
        Ok(false)
    }

    /// Reads the pair of the next record of the chain at hand, whose front was read and which has this header, and
    /// passes it.
    fn take_pair<S: Space>(&mut self, s: &mut S, rec: Rec) -> Result<(), ValueRefusal>
        requires front { IsFront self.old.held self.old.at (S.size s.old) }
        requires within { self.old.at + 24 + rec.key_len + rec.data_len ≤ S.size s.old }
        requires some { 0 < self.old.left }
        ensures pair { OnOk result (IsTrue S.tells → Shows self.old.held (S.image s.old) self.old.at → IsPairOf rec (S.image s.old) self.old.at (pair_at_hand self.new)) }
        ensures short { OnOk result ((length (pair_at_hand self.new).0 < 2 ^ 32) × (length (pair_at_hand self.new).1 < 2 ^ 32)) }
        ensures passed { OnOk result ((self.new.at ≡ rec.next) × (self.new.left ≡ self.old.left - 1)) }
        ensures stays { OnErr result ((self.new.at ≡ self.old.at) × (self.new.left ≡ self.old.left)) }
        ensures same_chain { self.new.next_chain ≡ self.old.next_chain }
        ensures looked { Looked S.Space s.old s.new }
        ensures cause { HasCauseOf IoRefusal (S.faults s.old) (S.faults s.new) result }
        ensures bytes_read { RoseUpTo (24 + rec.key_len + rec.data_len - self.old.held.end) (S.bytes_read s.old) (S.bytes_read s.new) }
    {
        self.held.read_rest(s, self.at, &rec)?;
        self.at = rec.next;
        self.left -= 1;
        Ok(())
    }

    /// Reads the front of the next record of the chain at hand: its header, or nothing where the chain ends.
    fn record_ahead<S: Space>(&mut self, s: &mut S, len: u64) -> Result<Option<Rec>, ValueRefusal>
        requires length { len ≡ S.size s.old }
        ensures there { IfOk result (λ found. IsTrue S.tells → IsLink (S.form s.old) (S.image s.old) self.old.at → (magic_of (S.form s.old).order (S.image s.old) self.old.at ≡ USED → Fits (S.form s.old).order (S.image s.old) self.old.at)
            → found ≡ Some (rec_at (S.form s.old).order (S.image s.old) self.old.at)) }
        ensures header { IfOk result (λ found. IsTrue S.tells → IfSome found (λ rec. rec ≡ rec_at (S.form s.old).order (S.image s.old) self.old.at)) }
        ensures above { IfOk result (λ found. IfSome found (λ rec. data_start (S.form s.old) ≤ self.old.at)) }
        ensures lies { IfOk result (λ found. IfSome found (λ rec. LiesWithin rec self.old.at len)) }
        ensures front { IfOk result (λ found. IfSome found (λ rec. IsFront self.new.held self.old.at len)) }
        ensures end { IfOk result (λ found. IfSome found (λ rec. self.new.held.end ≡ min 128 (len - self.old.at))) }
        ensures shows { IfOk result (λ found. IfSome found (λ rec. IsTrue S.tells → Shows self.new.held (S.image s.old) self.old.at)) }
        ensures same_place { (self.new.at ≡ self.old.at) × (self.new.left ≡ self.old.left) × (self.new.next_chain ≡ self.old.next_chain) }
        ensures looked { Looked S.Space s.old s.new }
        ensures cause { HasCauseOf IoRefusal (S.faults s.old) (S.faults s.new) result }
        ensures bytes_read { RoseUpTo (if self.old.at == 0 then 0 else min 128 (len - self.old.at)) (S.bytes_read s.old) (S.bytes_read s.new) }
    {
        let at = self.at;
        if !header_stands(at, len, s.hash_size()) {
            return Ok(None);
        }
        let rec = self.held.read_front(s, len, at)?;
        if !content_stands(rec.rec_len, at, len) || rec.magic == USED && !fits(&rec) {
            return Ok(None);
        }
        Ok(Some(rec))
    }
}

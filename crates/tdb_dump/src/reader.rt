//! Dump text, as it is read in pieces.

ghost use Rattle.std.specs.Prelude.{◌≡◌, ◌≤◌, ◌<◌, ℕ, List, [], ◌∷◌, ◌++◌, length, take, true, IfOk, IfErr, OnOk, OnErr, Some, None, vec_len, vec_capacity};
ghost use Rattle.std.specs.Option.{option_to_list};
ghost use Rattle.tdb_dump.specs.declared.pairs.Pair.{Pair};
ghost use Rattle.tdb_dump.specs.declared.reader.ReadRefusal.TheVariants.{Malformed, Memory};
ghost use Rattle.tdb_dump.specs.BadAt.{BeginsWith};
ghost use Rattle.tdb_dump.specs.Spelled.{Dump, has_key};
ghost use Rattle.tdb_dump.specs.Partial.{state_of};

use crate::key_set::KeySet;
use crate::pairs::{Pair, Pairs};
use crate::partial::{Partial, Taken};
use std::alloc::{AllocError, AllocFailed, Global};
use thiserror::Error;

/// Why a text isn't read further.
#[derive(Clone, Copy, Debug, PartialEq, Eq, Error)]
pub enum ReadRefusal {
    /// The text stops to be dump text at this place, in bytes from 0.
    #[error("malformed at {at}")]
    Malformed { at: u64 },
    #[error("out of memory")]
    Memory,
}

impl From<AllocError> for ReadRefusal {
    ghost from_gives = { λ _ e. e ≡ Memory };

    fn from(_: AllocError) -> Self {
        ReadRefusal::Memory
    }
}

impl<T: Drop> From<AllocFailed<T>> for ReadRefusal {
    ghost from_gives = { λ _ e. e ≡ Memory };

    fn from(_: AllocFailed<T>) -> Self {
        ReadRefusal::Memory
    }
}

/// A reader of dump text. It keeps the keys that it has given, so as to refuse a second one, and the record at hand.
#[derive(Drop)]
pub struct Reader {
    alloc: Global,
    partial: Partial,
    keys: KeySet,
    /// The place of the record at hand.
    start: u64,
    /// How many bytes were taken.
    taken: u64,
    refusal: Option<ReadRefusal>,
}

impl Reader {
    ghost use Rattle.tdb_dump.specs.Taken.{Goes, StillGoes, GoesNoFurther, Took, RefusedAt, EndsBadlyAt, HasKeysOf, AddsRecord, refusal_of};

    /// A reader of a text from its beginning. It takes no memory.
    pub fn new(alloc: Global) -> Self
        ensures took { Took [] [] result }
        ensures none { refusal_of result ≡ None }
    {
        Reader {
            alloc,
            partial: Partial::new(alloc),
            keys: KeySet::new(alloc),
            start: 0,
            taken: 0,
            refusal: None,
        }
    }

    /// Takes the next piece of the text, and gives the pairs that became whole. Where the piece has a fault
    /// behind such pairs, or memory is wanting there, they are given, and the next call answers the refusal.
    /// After a refusal every later call answers the same, and what was read is given in full up to the place
    /// of it: no record is whole in front of that place but those whose pairs were given. Takes time in the
    /// length of the piece, and for each pair in the logarithm of the number of keys.
    pub fn feed(&mut self, piece: &[u8]) -> Result<Pairs, ReadRefusal>
        ensures given { IfOk result (λ pairs. (text : List ℕ) (before : List Pair) →
            Took text before self.old → Took (text ++ piece.now) (before ++ pairs) self.new) }
        ensures refused { OnErr result ((text : List ℕ) (before : List Pair) →
            Took text before self.old → Took (text ++ piece.now) before self.new) }
        ensures malformed { (text : List ℕ) (before : List Pair) (at : ℕ) →
            Took text before self.old → result ≡ Err (Malformed at) →
            RefusedAt (text ++ piece.now) before at }
        ensures stands { IfErr result (λ e. refusal_of self.new ≡ Some e) }
        ensures at_once { IfOk result (λ pairs. pairs ≡ [] → refusal_of self.new ≡ None) }
        ensures again { (e : ReadRefusal) → refusal_of self.old ≡ Some e →
            (result ≡ Err e) × (self.new ≡ self.old) }
    {
        if let Some(refusal) = self.refusal {
            return Err(refusal);
        }
        let mut pairs = Vec::new(self.alloc);
        match self.read(piece, &mut pairs) {
            Ok(()) => Ok(Pairs::of(pairs)),
            Err(refusal) => {
                self.refusal = Some(refusal);
                if pairs.is_empty() {
                    Err(refusal)
                } else {
                    Ok(Pairs::of(pairs))
                }
            }
        }
    }

    /// Ends the text. It is refused where a record is unfinished, at its length.
    pub fn end(&mut self) -> Result<(), ReadRefusal>
        ensures whole { OnOk result ((text : List ℕ) (pairs : List Pair) →
            Took text pairs self.old → Dump text pairs) }
        ensures same { OnOk result (self.new ≡ self.old) }
        ensures malformed { (text : List ℕ) (pairs : List Pair) (at : ℕ) →
            Took text pairs self.old → result ≡ Err (Malformed at) → EndsBadlyAt text pairs at }
        ensures stands { IfErr result (λ e. refusal_of self.new ≡ Some e) }
        ensures again { (e : ReadRefusal) → refusal_of self.old ≡ Some e →
            (result ≡ Err e) × (self.new ≡ self.old) }
        ensures no_memory { refusal_of self.old ≡ None → result ≡ Err Memory → ⊥ }
    {
        if let Some(refusal) = self.refusal {
            return Err(refusal);
        }
        if self.partial.is_between() {
            return Ok(());
        }
        let refusal = ReadRefusal::Malformed { at: self.taken };
        self.refusal = Some(refusal);
        Err(refusal)
    }

    /// Reads a piece to its end, or to its first fault, and puts the pairs that became whole at the end of the list. It
    /// makes room for a pair before it reads one, so that none is lost where memory is wanting.
    fn read(&mut self, piece: &[u8], pairs: &mut Vec<Pair>) -> Result<(), ReadRefusal>
        requires { pairs.old.items ≡ [] }
        ensures goes { OnOk result ((text : List ℕ) (before : List Pair) →
            Goes text before self.old → Goes (text ++ piece.now) (before ++ pairs.new.items) self.new) }
        ensures malformed { (text : List ℕ) (before : List Pair) (at : ℕ) →
            Goes text before self.old → result ≡ Err (Malformed at) →
            RefusedAt (text ++ piece.now) (before ++ pairs.new.items) at }
        ensures wanting { result ≡ Err Memory → (text : List ℕ) (before : List Pair) → Goes text before self.old →
            GoesNoFurther (text ++ piece.now) (before ++ pairs.new.items) self.new }
        ensures begins { (text : List ℕ) (before : List Pair) → Goes text before self.old →
            BeginsWith (text ++ piece.now) (before ++ pairs.new.items) }
        ensures refusal { refusal_of self.new ≡ refusal_of self.old }
    {
        let mut at = 0;
        while at < piece.len() {
            pairs.reserve(1)?;
            let (count, pair) = self.advance(&piece[at..])?;
            add(pairs, pair);
            at += count;
        }
        Ok(())
    }

    /// Takes at least one byte of a piece. Answers how many, and the pair that became whole.
    fn advance(&mut self, piece: &[u8]) -> Result<(usize, Option<Pair>), ReadRefusal>
        requires { 0 < length piece.now }
        ensures taken { IfOk result (λ x. (0 < x.0) × (x.0 ≤ length piece.now)) }
        ensures goes { IfOk result (λ x. (text : List ℕ) (before : List Pair) →
            Goes text before self.old →
            Goes (text ++ take x.0 piece.now) (before ++ option_to_list x.1) self.new) }
        ensures malformed { (text : List ℕ) (before : List Pair) (at : ℕ) →
            Goes text before self.old → result ≡ Err (Malformed at) →
            RefusedAt (text ++ piece.now) before at }
        ensures wanting { result ≡ Err Memory → StillGoes self.old self.new }
        ensures refusal { refusal_of self.new ≡ refusal_of self.old }
    {
        let run = self.partial.take_run(piece)?;
        if run > 0 {
            self.taken = self.taken.saturating_add(run as u64);
            return Ok((run, None));
        }
        match self.partial.take_byte(piece[0])? {
            Taken::More => {
                self.taken = self.taken.saturating_add(1);
                Ok((1, None))
            }
            Taken::Ended => {
                let pair = self.end_record()?;
                Ok((1, Some(pair)))
            }
            Taken::Refused => Err(ReadRefusal::Malformed { at: self.taken }),
        }
    }

    /// Gives the pair of the record that the next byte ends, unless its key came before. Where memory is wanting the
    /// record stays at hand.
    fn end_record(&mut self) -> Result<Pair, ReadRefusal>
        ensures added { IfOk result (AddsRecord self.old self.new) }
        ensures repeated { (at : ℕ) (before : List Pair) → HasKeysOf self.old.keys before →
            result ≡ Err (Malformed at) →
            (has_key before (state_of self.old.partial).key ≡ true) × (at ≡ self.old.start) }
        ensures wanting { result ≡ Err Memory → StillGoes self.old self.new }
        ensures refusal { refusal_of self.new ≡ refusal_of self.old }
    {
        if !self.keys.insert(self.partial.key())? {
            return Err(ReadRefusal::Malformed { at: self.start });
        }
        self.taken = self.taken.saturating_add(1);
        self.start = self.taken;
        Ok(self.partial.finish(self.alloc))
    }
}

/// Puts the pair at the end, where there is one.
fn add(pairs: &mut Vec<Pair>, pair: Option<Pair>)
    requires room { vec_len pairs.old < vec_capacity pairs.old }
    ensures { pairs.new.items ≡ pairs.old.items ++ option_to_list pair }
{
    if let Some(pair) = pair {
        let _ = pairs.push(pair);
    }
}

//! Keys, kept so that one more can be told from all of them.

ghost use Rattle.std.specs.Prelude.{◌≡◌, ℕ, ◌+◌, ◌<◌, ◌≤◌, ◌^◌, Bool, false, not, ◌||◌, List, length, Option, None, Some, IfOk, OnOk, OnErr};
ghost use Rattle.std.specs.Ordering.{nat_cmp};
ghost use Rattle.std.specs.BTreeMap.{get};
ghost use Rattle.std.specs.Str.{bytes_eq};
ghost use Rattle.tdb_dump.specs.KeyPlaces.{mark_of, is_there, AllWithin, NoneBeside};

use std::alloc::{AllocError, Global};
use std::collections::{BTreeMap, BTreeSet};
use tdb_words::{Bytes, hash_jenkins};

/// Where a key's bytes stand among those of others.
#[derive(Clone, Copy)]
pub(crate) struct Place {
    start: u32,
    end: u32,
}

/// Keys. Most of them cost their bytes, a mark and a place: one is looked up by its mark, which is Jenkins' hash. Those
/// whose mark an earlier key has stand in a tree by themselves: they are few, but where a stranger chose the keys.
#[derive(Drop)]
pub(crate) struct KeySet {
    alloc: Global,

    /// The bytes of the keys that have a place, one behind the other. Those that no place names are of no key.
    bytes: Vec<u8>,

    /// Of each mark the place of the key that came first with it.
    first: BTreeMap<u32, Place>,

    /// The keys whose mark an earlier, other key has, and those that no place could name.
    others: BTreeSet<Bytes>,
    ghost within: { AllWithin first bytes.items },
    ghost beside: { NoneBeside first bytes.items others },
}

impl KeySet {
    ghost use Rattle.tdb_dump.specs.KeySet.{has};

    /// No key. It takes no memory.
    pub fn new(alloc: Global) -> Self
        ensures { (q : List ℕ) → has result q ≡ false }
    {
        KeySet {
            alloc,
            bytes: Vec::new(alloc),
            first: BTreeMap::new(alloc),
            others: BTreeSet::new(alloc),
        }
    }

    /// Puts a key into the set. False where it was there. Where memory is wanting the set has the keys that it had.
    /// Takes time in the logarithm of the number of keys, whatever keys a stranger chose.
    pub fn insert(&mut self, key: &[u8]) -> Result<bool, AllocError>
        ensures added { IfOk result (λ added. added ≡ not (has self.old key.now)) }
        ensures keys { OnOk result ((q : List ℕ) → has self.new q ≡ (has self.old q || bytes_eq q key.now)) }
        ensures err { OnErr result ((q : List ℕ) → has self.new q ≡ has self.old q) }
    {
        let mark = mark_of(key);
        let Some(place) = self.first.get(&mark).copied() else {
            return self.put_first(mark, key);
        };
        if key == &self.bytes[place.start as usize..place.end as usize] {
            return Ok(false);
        }
        self.put_other(key)
    }

    /// Puts a key whose mark no key with a place has.
    fn put_first(&mut self, mark: u32, key: &[u8]) -> Result<bool, AllocError>
        requires mark { mark ≡ mark_of key.now }
        requires unseen { get nat_cmp self.old.first mark ≡ None }
        ensures added { IfOk result (λ added. added ≡ not (has self.old key.now)) }
        ensures keys { OnOk result ((q : List ℕ) → has self.new q ≡ (has self.old q || bytes_eq q key.now)) }
        ensures err { OnErr result ((q : List ℕ) → has self.new q ≡ has self.old q) }
    {
        let start = self.bytes.len();
        let Ok(end) = u32::try_from(start.saturating_add(key.len())) else {
            return self.put_other(key);
        };
        self.bytes.extend_from_slice(key)?;
        let place = Place {
            start: start as u32,
            end,
        };
        self.first.insert(mark, place)?;
        Ok(true)
    }

    /// Puts a key that isn't at its mark's place among the others.
    fn put_other(&mut self, key: &[u8]) -> Result<bool, AllocError>
        requires elsewhere { is_there self.old.bytes.items key.now (get nat_cmp self.old.first (mark_of key.now)) ≡ false }
        requires no_place { get nat_cmp self.old.first (mark_of key.now) ≡ None → length self.old.bytes.items + length key.now < 2 ^ 32 → ⊥ }
        ensures added { IfOk result (λ added. added ≡ not (has self.old key.now)) }
        ensures keys { OnOk result ((q : List ℕ) → has self.new q ≡ (has self.old q || bytes_eq q key.now)) }
        ensures err { OnErr result ((q : List ℕ) → has self.new q ≡ has self.old q) }
    {
        let key = Bytes::copy(self.alloc, key)?;
        Ok(self.others.insert(key)?)
    }
}

/// The mark of a key: Jenkins' hash, and 0 for a key that is too long for it.
#[tactic(auto, unfolding(crate::specs::KeyPlaces::mark_of))]
fn mark_of(key: &[u8]) -> u32
    ensures { result ≡ mark_of key.now }
{
    if key.len() > u32::MAX as usize {
        return 0;
    }
    hash_jenkins(key)
}

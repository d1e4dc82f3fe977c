// The locks that an opener has taken explicitly.
ghost use Rattle.std.specs.Prelude.{◌≡◌, ◌<◌, IsOk, OnErr, OnOk};
ghost use Rattle.tdb_locks.specs.HeldLocks.{AreCounts, Lowers, Raises, SetsAll, SetsCount, count_in, count_of, count_of_all, nothing_held, total_of};

use crate::kind::Kind;
use std::alloc::{AllocError, Global};
use std::collections::BTreeMap;
use std::marker::Model;

/// How many times an opener holds each chain explicitly, and all records: the kind and how many
/// times.
#[derive(Drop)]
pub struct Held {
    chains: BTreeMap<u32, u32>,
    chain_total: u64,
    all: Option<(Kind, u32)>,
}

impl Model for Held {
    ghost use Rattle.std.specs.Prelude.{◌≡◌, sum};
    ghost use Rattle.std.specs.Map.{values_of};
    ghost use Rattle.tdb_locks.specs.HeldLocks.{AreCounts, HeldLocks};

    ghost Value = { HeldLocks };

    ghost view = { λ a. record { chains = a.chains.entries; all = a.all } };

    ghost invariant = { λ a. AreCounts a.chains.entries × (a.chain_total ≡ sum (values_of a.chains.entries)) };
}

impl Held {
    /// No lock is held. It takes no memory.
    pub fn new(alloc: Global) -> Held
        ensures { result ≡ nothing_held }
    {
        Held {
            chains: BTreeMap::new(alloc),
            chain_total: 0,
            all: None,
        }
    }

    /// How many times the chain is held. Cost: a look-up among the chains that are held.
    pub fn chain_count(&self, chain: u32) -> u32
        ensures { result ≡ count_of self.now chain }
    {
        self.chains.get(&chain).copied().unwrap_or(0)
    }

    /// The kind with which all records are held, and how many times.
    pub fn all(&self) -> Option<(Kind, u32)>
        ensures { result ≡ self.now.all }
    {
        self.all
    }

    /// Holds the chain once more; a count that is at its type's end stands still. Cost: a look-up
    /// among the chains that are held.
    pub fn raise_chain(&mut self, chain: u32) -> Result<(), AllocError>
        ensures ok { OnOk result (Raises self.old self.new chain) }
        ensures counts { AreCounts self.new.chains }
        ensures err { OnErr result (self.new ≡ self.old) }
    {
        let count = self.chain_count(chain);
        if count < u32::MAX {
            set_count(&mut self.chains, chain, count + 1)?;
            self.chain_total += 1;
        }
        Ok(())
    }

    /// Holds the chain once less. Cost: a look-up among the chains that are held.
    pub fn lower_chain(&mut self, chain: u32)
        requires { 0 < count_of self.old chain }
        ensures lowered { Lowers self.old self.new chain }
        ensures counts { AreCounts self.new.chains }
    {
        let count = self.chain_count(chain);
        set_count(&mut self.chains, chain, count - 1).unwrap();
        self.chain_total -= 1;
    }

    /// Says how all records are held.
    pub fn set_all(&mut self, all: Option<(Kind, u32)>)
        ensures { SetsAll self.old self.new all }
    {
        self.all = all;
    }

    /// The sum of all counts, that of all records among them.
    pub fn total(&self) -> u64
        ensures { result ≡ total_of self.now }
    {
        self.chain_total + u64::from(all_count(self.all))
    }
}

/// How many times all records are held.
fn all_count(all: Option<(Kind, u32)>) -> u32
    ensures { result ≡ count_of_all all }
{
    all.map_or(0, |(_, count)| count)
}

/// Puts the count of a chain in place of the one that it had; a count of 0 takes the chain out. A
/// chain that has a count needs no memory for another one.
fn set_count(chains: &mut BTreeMap<u32, u32>, chain: u32, count: u32) -> Result<(), AllocError>
    requires { AreCounts chains.old.entries }
    ensures ok { OnOk result (SetsCount chains.old.entries chains.new.entries chain count) }
    ensures counts { AreCounts chains.new.entries }
    ensures err { OnErr result (chains.new.entries ≡ chains.old.entries) }
    ensures there { 0 < count_in chains.old.entries chain → IsOk result }
{
    if count == 0 {
        chains.remove(&chain);
    } else {
        chains.insert(chain, count)?;
    }
    Ok(())
}

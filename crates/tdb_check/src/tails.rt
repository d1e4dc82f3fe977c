// The dead records at the ends of chains, which later chains may lead into.

ghost use Rattle.std.specs.Prelude.{◌≡◌, ℕ, List, Option, Some, nat_eq, if◌then◌else◌, OnOk};
ghost use Rattle.tdb_check.specs.Tails.{lower_of};

use crate::extent::Extent;
use std::alloc::{AllocError, Global};
use std::collections::BTreeMap;

/// The dead records behind the last used ones of chains: of each, by its offset, the extent of the least offset from
/// there to the end of its chain. In a file without a fault no later chain leads to one of them.
#[derive(Drop)]
pub struct Tails {
    least: BTreeMap<u32, Extent>,
}

impl Tails {
    ghost use Rattle.tdb_space.specs.Form.{Form};
    ghost use Rattle.tdb_space.specs.Extents.{Extent as Held};
    ghost use Rattle.tdb_check.specs.Tails.{least_from, AllKept, TailsOf, Closing};

    /// No record. It takes no memory.
    pub fn new(alloc: Global) -> Self
        ensures { (f : Form) (img : List ℕ) (seen : List Held) → TailsOf f img seen result }
    {
        Tails {
            least: BTreeMap::new(alloc),
        }
    }

    /// The extent of the least offset from a record to the end of its chain, where it is one of these.
    pub fn least_from(&self, at: u32) -> Option<Extent>
        ensures { result ≡ least_from self.now at }
    {
        self.least.get(&at).copied()
    }

    /// Keeps the dead records that a chain ends in, as far as they were followed; `rest` is the least extent of those
    /// behind them, where there are some. It takes `n log n` steps, and leaves no record in the list.
    pub fn keep(&mut self, dead: &mut Vec<Extent>, rest: Option<Extent>) -> Result<(), AllocError>
        ensures tails { OnOk result ((f : Form) (img : List ℕ) (seen : List Held) → Closing f img seen self.old dead.old.items rest → TailsOf f img seen self.new) }
        ensures kept { OnOk result (AllKept self.new dead.old.items) }
    {
        let mut least = rest;
        while let Some(e) = dead.pop() {
            let from = lower(e, least);
            self.put(e.off, from)?;
            least = Some(from);
        }
        Ok(())
    }

    /// Puts one record down.
    fn put(&mut self, at: u32, least: Extent) -> Result<(), AllocError>
        ensures { OnOk result ((q : ℕ) → least_from self.new q ≡ (if nat_eq q at then Some least else least_from self.old q)) }
    {
        self.least.insert(at, least)?;
        Ok(())
    }
}

/// The one of two extents with the lower offset.
fn lower(e: Extent, other: Option<Extent>) -> Extent
    ensures { result ≡ lower_of e other }
{
    match other {
        Some(o) if o.off < e.off => o,
        _ => e,
    }
}

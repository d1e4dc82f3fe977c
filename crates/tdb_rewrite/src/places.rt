// The records of a file's chains, from the last one to the first.

ghost use Rattle.std.specs.Prelude.{◌≡◌, ◌++◌, ◌∷◌, ◌+◌, ◌*◌, ◌<◌, ◌≤◌, [], List, ℕ, length, IsTrue, IsSome, IfSome, IfOk, OnOk, IfNone, option_to_list};
ghost use Rattle.tdb_disk.specs.Count.{HasCauseOf};
ghost use Rattle.tdb_space.specs.Chain.{chain_of};
ghost use Rattle.tdb_space.specs.Frame.{Looked};
ghost use Rattle.tdb_check.specs.Report.{chained};
ghost use Rattle.tdb_chain.specs.declared.refusal.ValueRefusal.TheVariants.{Io};
ghost use Rattle.tdb_rewrite.specs.Places.{HasHeader, HaveHeaders, offs_of, to_come, most_to_come};
ghost use Rattle.tdb_rewrite.specs.Readable.{Readable};

use crate::walk::{ListWalk, Listed};
use std::alloc::{AllocError, Global};
use tdb_chain::ValueRefusal;
use tdb_space::{Space, chain_head};

/// The places of the records that stand in the chains of a file, from the last one to the first: the last chain first,
/// each chain from its end on. It holds those of one chain, with their headers.
#[derive(Drop)]
pub struct Places {
    /// The length of the file in bytes.
    pub len: u64,

    /// How many chains are still to be walked along, from chain 0 on.
    chains: u32,

    /// The records of the chain behind these that are still to come, from its head on.
    records: Vec<Listed>,
}

impl Places {
    /// The places of the records of a file, all of which are still to come. It takes no memory.
    pub fn of<S: Space>(alloc: Global, s: &mut S) -> Result<Places, ValueRefusal>
        ensures all { IfOk result (λ places. to_come (S.form s.old) (S.image s.old) places ≡ chained (S.form s.old) (S.image s.old)) }
        ensures headers { IfOk result (λ places. HaveHeaders (S.form s.old) (S.image s.old) places.records.items) }
        ensures chains { IfOk result (λ places. places.chains ≡ (S.form s.old).chains) }
        ensures length { IfOk result (λ places. places.len ≡ S.size s.old) }
        ensures looked { Looked S.Space s.old s.new }
        ensures cause { HasCauseOf Io (S.faults s.old) (S.faults s.new) result }
    {
        Ok(Places {
            len: s.len()?,
            chains: s.hash_size(),
            records: Vec::new(alloc),
        })
    }

    /// The next record, if there is one, with its header.
    ///
    /// Where those of a chain were all given it walks along the one before it: it reads 4 bytes of the chain and 24 of
    /// each of its records, and holds 28 for each.
    pub fn next<S: Space>(&mut self, s: &mut S) -> Result<Option<Listed>, ValueRefusal>
        requires length { self.old.len ≡ S.size s.old }
        ensures gives { IfOk result (λ found. IsTrue S.tells → self.old.chains ≤ (S.form s.old).chains → Readable (S.form s.old) (S.image s.old)
            → to_come (S.form s.old) (S.image s.old) self.old ≡ to_come (S.form s.old) (S.image s.old) self.new ++ offs_of (option_to_list found)) }
        ensures headers { IfOk result (λ found. IsTrue S.tells → HaveHeaders (S.form s.old) (S.image s.old) self.old.records.items
            → HaveHeaders (S.form s.old) (S.image s.old) self.new.records.items × IfSome found (HasHeader (S.form s.old) (S.image s.old))) }
        ensures none { IfOk result (λ found. IfNone found (to_come (S.form s.old) (S.image s.old) self.new ≡ [])) }
        ensures fewer { IfOk result (λ found. IsSome found → most_to_come self.new < most_to_come self.old) }
        ensures chains { self.new.chains ≤ self.old.chains }
        ensures same { self.new.len ≡ self.old.len }
        ensures looked { Looked S.Space s.old s.new }
        ensures cause { HasCauseOf Io (S.faults s.old) (S.faults s.new) result }
    {
        self.fill(s)?;
        Ok(self.records.pop())
    }

    /// Walks along the chains that weren't walked along yet, from the last one on, up to one that has a record, unless
    /// records of one are still to come.
    fn fill<S: Space>(&mut self, s: &mut S) -> Result<(), ValueRefusal>
        requires length { self.old.len ≡ S.size s.old }
        ensures kept { OnOk result (IsTrue S.tells → self.old.chains ≤ (S.form s.old).chains → Readable (S.form s.old) (S.image s.old)
            → to_come (S.form s.old) (S.image s.old) self.new ≡ to_come (S.form s.old) (S.image s.old) self.old) }
        ensures headers { OnOk result (IsTrue S.tells → HaveHeaders (S.form s.old) (S.image s.old) self.old.records.items
            → HaveHeaders (S.form s.old) (S.image s.old) self.new.records.items) }
        ensures filled { OnOk result (self.new.records.items ≡ [] → self.new.chains ≡ 0) }
        ensures no_more { OnOk result (most_to_come self.new ≤ most_to_come self.old) }
        ensures chains { self.new.chains ≤ self.old.chains }
        ensures same { self.new.len ≡ self.old.len }
        ensures looked { Looked S.Space s.old s.new }
        ensures cause { HasCauseOf Io (S.faults s.old) (S.faults s.new) result }
    {
        while self.records.is_empty() && self.chains > 0 {
            self.chains -= 1;
            self.add_chain(s, self.chains)?;
        }
        Ok(())
    }

    /// Puts the records of one chain behind the others.
    fn add_chain<S: Space>(&mut self, s: &mut S, chain: u32) -> Result<(), ValueRefusal>
        requires length { self.old.len ≡ S.size s.old }
        ensures added { OnOk result (IsTrue S.tells → chain < (S.form s.old).chains → Readable (S.form s.old) (S.image s.old)
            → offs_of self.new.records.items ≡ offs_of self.old.records.items ++ chain_of (S.form s.old) (S.image s.old) chain) }
        ensures headers { OnOk result (IsTrue S.tells → HaveHeaders (S.form s.old) (S.image s.old) self.old.records.items
            → HaveHeaders (S.form s.old) (S.image s.old) self.new.records.items) }
        ensures few { OnOk result (4 * length self.new.records.items ≤ 4 * length self.old.records.items + self.old.len) }
        ensures chains { self.new.chains ≡ self.old.chains }
        ensures same { self.new.len ≡ self.old.len }
        ensures looked { Looked S.Space s.old s.new }
        ensures cause { HasCauseOf Io (S.faults s.old) (S.faults s.new) result }
    {
        let mut walk = ListWalk::from_head(s, self.len, chain_head(chain))?;
        while let Some(found) = walk.next(s, self.len)? {
            self.push(found)?;
        }
        Ok(())
    }

    /// Puts a record at the end.
    fn push(&mut self, found: Listed) -> Result<(), AllocError>
        ensures pushed { OnOk result (self.new.records.items ≡ self.old.records.items ++ found ∷ []) }
        ensures chains { self.new.chains ≡ self.old.chains }
        ensures same { self.new.len ≡ self.old.len }
    {
        self.records.push(found)?;
        Ok(())
    }
}

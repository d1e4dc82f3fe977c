// A log in memory, which fails where it is told to.

ghost use Rattle.std.specs.Prelude.{◌≡◌, ◌+◌, ◌-◌, ◌^◌, ◌↔◌, [], ◌∷◌, ◌++◌, true, min, Contains, IsErrOf, OnOk, OnErr};
ghost use Rattle.tdb_disk.specs.Count.{HasCauseOf};

use crate::log::{Log, LogRefusal};
use crate::notice::Notice;
use std::alloc::{AllocError, Global};

/// A log that keeps its notices. It answers `Failed` exactly at the calls of `note` that are named.
#[derive(Drop)]
pub struct MemLog {
    notices: Vec<Notice>,
    failing: Vec<u64>,
    made: u64,
    faults: u64,
}

impl MemLog {
    /// A log that was told nothing, and in which no call is to fail. It takes no memory.
    pub fn new(alloc: Global) -> MemLog
        ensures notices { result.notices.items ≡ [] }
        ensures failing { result.failing.items ≡ [] }
        ensures made { result.made ≡ 0 }
        ensures faults { result.faults ≡ 0 }
    {
        MemLog {
            notices: Vec::new(alloc),
            failing: Vec::new(alloc),
            made: 0,
            faults: 0,
        }
    }

    /// The call of `note` with this number, counted from 0 since the log was made, is to fail.
    pub fn fail(&mut self, nth: u64) -> Result<(), AllocError>
        ensures added { OnOk result (self.new.failing.items ≡ self.old.failing.items ++ nth ∷ []) }
        ensures kept { OnErr result (self.new.failing.items ≡ self.old.failing.items) }
        ensures notices { self.new.notices ≡ self.old.notices }
        ensures made { self.new.made ≡ self.old.made }
        ensures faults { self.new.faults ≡ self.old.faults }
    {
        self.failing.push(nth)?;
        Ok(())
    }
}

impl Log for MemLog {
    ghost tells = { λ _. true };

    ghost notices = { λ l. l.notices.items };

    ghost faults = { λ l. l.faults };

    fn note(&mut self, notice: &Notice) -> Result<(), LogRefusal>
        ensures taken { OnOk result (self.new.notices.items ≡ self.old.notices.items ++ notice.now ∷ []) }
        ensures kept { OnErr result (self.new.notices.items ≡ self.old.notices.items) }
        ensures cause { HasCauseOf LogRefusal.Failed self.old.faults self.new.faults result }
        ensures fails { IsErrOf result LogRefusal.Failed ↔ Contains self.old.failing.items self.old.made }
        ensures made { self.new.made ≡ min (self.old.made + 1) (2 ^ 64 - 1) }
        ensures failing { self.new.failing ≡ self.old.failing }
    {
        let nth = self.made;
        self.made = nth.saturating_add(1);
        if self.failing.contains(&nth) {
            self.faults = self.faults.saturating_add(1);
            return Err(LogRefusal::Failed);
        }
        match self.notices.push(*notice) {
            Ok(()) => Ok(()),
            Err(_) => Err(LogRefusal::Memory),
        }
    }

    fn told(&self, number: u64) -> Option<Notice> {
        self.notices.get(number as usize).copied()
    }
}

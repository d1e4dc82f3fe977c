// A log that only counts.

ghost use Rattle.std.specs.Prelude.{◌≡◌, ◌+◌, ◌-◌, ◌^◌, [], false, min, IsOk};

use crate::log::{Log, LogRefusal};
use crate::notice::Notice;

/// A log that keeps how many notices it was told, and nothing else. It refuses none.
#[derive(Debug, Drop)]
pub struct CountLog {
    count: u64,
}

impl CountLog {
    /// A log that was told nothing. It takes no memory.
    pub fn new() -> CountLog
        ensures { result.count ≡ 0 }
    {
        CountLog { count: 0 }
    }

    /// How many notices it was told; at the greatest number of 64 bits the count stands still.
    pub fn count(&self) -> u64
        ensures { result ≡ self.now.count }
    {
        self.count
    }
}

impl Log for CountLog {
    ghost tells = { λ _. false };

    ghost notices = { λ _. [] };

    ghost faults = { λ _. 0 };

    fn note(&mut self, _notice: &Notice) -> Result<(), LogRefusal>
        ensures never { IsOk result }
        ensures counted { self.new.count ≡ min (self.old.count + 1) (2 ^ 64 - 1) }
    {
        self.count = self.count.saturating_add(1);
        Ok(())
    }

    fn told(&self, _number: u64) -> Option<Notice> {
        None
    }
}

//! The count of the calls that failed, and why the last of them did.
ghost use Rattle.std.specs.Prelude.{◌≡◌, ◌<◌, ◌≤◌, ◌↔◌, IsSome, Some, None, option_copied};
ghost use Rattle.tdb_disk.specs.Count.{Rose};

/// How many calls have failed, and why the last did. The count stands still at its last value.
#[derive(Drop)]
pub(crate) struct Faults<T> {
    count: u64,
    last: Option<T>,
    ghost explained: { IsSome last ↔ (0 < count) },
}

impl<T: Drop> Faults<T> {
    ghost use Rattle.tdb_files.specs.Faults.{fault_count, last_fault};

    /// None yet.
    pub(crate) fn new() -> Faults<T>
        ensures { fault_count result ≡ 0 }
    {
        Faults {
            count: 0,
            last: None,
        }
    }

    /// Counts a call that failed, and keeps why.
    pub(crate) fn raise(&mut self, why: T)
        ensures rose { Rose (fault_count self.old) (fault_count self.new) }
        ensures never_falls { fault_count self.old ≤ fault_count self.new }
        ensures last { last_fault self.new ≡ Some why }
    {
        self.count = self.count.saturating_add(1);
        self.last = Some(why);
    }

    /// Why the last call that failed did.
    pub(crate) fn last(&self) -> Option<&T>
        ensures last { option_copied result ≡ last_fault self.now }
        ensures some { IsSome result ↔ (0 < fault_count self.now) }
    {
        self.last.as_ref()
    }
}

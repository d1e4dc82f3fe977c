// A log that is written to a sink.

ghost use Rattle.std.specs.Prelude.{◌≡◌, ◌≤◌, ◌++◌, [], ℕ, IsTrue, false, length, take, IfErr, OnOk, OnErr};
ghost use Rattle.tdb_disk.specs.Count.{HasCauseOf};
ghost use Rattle.tdb_log.specs.Texts.{notice_line};

use crate::log::{Log, LogRefusal};
use crate::notice::Notice;
use tdb_disk::Sink;

/// A log whose notices are lines of a sink.
#[derive(Drop)]
pub struct SinkLog<K: Sink + Drop> {
    pub sink: K,
}

impl<K: Sink + Drop> SinkLog<K> {
    /// A log that writes to this sink. It takes no memory.
    pub fn new(sink: K) -> SinkLog<K>
        ensures { result.sink ≡ sink }
    {
        SinkLog { sink }
    }
}

impl<K: Sink + Drop> Log for SinkLog<K> {
    ghost tells = { λ _. false };

    ghost notices = { λ _. [] };

    ghost faults = { λ l. K.faults l.sink };

    fn note(&mut self, notice: &Notice) -> Result<(), LogRefusal>
        ensures line { OnOk result (IsTrue K.tells → K.written self.new.sink ≡ K.written self.old.sink ++ notice_line notice.now) }
        ensures front { OnErr result (IsTrue K.tells → (n : ℕ) × (n ≤ length (notice_line notice.now))
            × (K.written self.new.sink ≡ K.written self.old.sink ++ take n (notice_line notice.now))) }
        ensures no_memory { IfErr result (λ refusal. refusal ≡ LogRefusal.Failed) }
        ensures cause { HasCauseOf LogRefusal.Failed (K.faults self.old.sink) (K.faults self.new.sink) result }
    {
        match self.sink.write(notice.line().as_str().as_bytes()) {
            Ok(()) => Ok(()),
            Err(_) => Err(LogRefusal::Failed),
        }
    }

    fn told(&self, _number: u64) -> Option<Notice> {
        None
    }
}

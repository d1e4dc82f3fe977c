//! Logs that tell the files for which fault a file was refused.

ghost use Rattle.std.specs.Prelude.{◌≡◌};

use tdb_files::Finding;
use tdb_log::{LogRefusal, Logs, Notice};

/// The logs of a run. A fault for which a file is refused is told to the files too, whatever becomes of the logs, so
/// that they can say it where they replace that file.
#[derive(Drop)]
pub(crate) struct FindingLogs<L: Logs + Drop> {
    logs: L,
    finding: Finding,
}

impl<L: Logs + Drop> FindingLogs<L> {
    /// These logs, which tell the files that share the finding.
    pub(crate) fn over(logs: L, finding: Finding) -> FindingLogs<L>
        ensures { result.logs ≡ logs }
    {
        FindingLogs { logs, finding }
    }
}

impl<L: Logs + Drop> Logs for FindingLogs<L> {
    ghost logs = { λ told. L.logs told.logs };

    fn note(&mut self, notice: &Notice) -> Result<(), LogRefusal> {
        if let Notice::Refused { what, at } = *notice {
            self.finding.note(what, at);
        }
        self.logs.note(notice)
    }

    fn drop_last(&mut self) -> usize {
        self.logs.drop_last()
    }
}

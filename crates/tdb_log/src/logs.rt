// The logs of a run, of which the last is told what becomes of the file.

ghost use Rattle.std.specs.Prelude.{◌≡◌, List, map, length, OnOk, IfErr};
ghost use Rattle.tdb_log.specs.Logs.{Logged, Took, ToldAll, ToldUpTo, LastBecame, LastRefused, but_last, growth};

use crate::log::{Log, LogRefusal};
use crate::notice::Notice;

/// A list of logs. The last is told each notice; it may be dropped, and then the one before it is told what follows.
/// With none left nobody is told.
pub trait Logs {
    /// Each log, as a contract sees it.
    ghost logs: { Self → List Logged };

    /// Tells the last log one more notice. After a refusal its notices are as before. With no log it is Ok.
    fn note(&mut self, notice: &Notice) -> Result<(), LogRefusal>
        ensures taken { OnOk result (LastBecame (Took notice.now) (logs self.old) (logs self.new)) }
        ensures refused { IfErr result (λ refusal. LastRefused refusal (logs self.old) (logs self.new)) };

    /// Drops the last log, where there is one. How many are left.
    fn drop_last(&mut self) -> usize
        ensures dropped { logs self.new ≡ but_last (logs self.old) }
        ensures left { result ≡ length (logs self.new) };
}

impl Logs for Vec<Box<dyn Log>> {
    ghost logs = { λ v. map (λ log. record { tells = (Log-box log).tells log.value; notices = (Log-box log).notices log.value; faults = (Log-box log).faults log.value }) v.items };

    fn note(&mut self, notice: &Notice) -> Result<(), LogRefusal> {
        match self.last_mut() {
            Some(log) => log.as_mut().note(notice),
            None => Ok(()),
        }
    }

    fn drop_last(&mut self) -> usize {
        self.pop();
        self.len()
    }
}

/// Tells the last log that a file grew from one length to another, if it did. Lengths are in bytes. A log that refuses
/// it was told nothing.
pub fn tell_growth<L: Logs>(from: u64, to: u64, logs: &mut L) -> Result<(), LogRefusal>
    ensures told { OnOk result (ToldAll (growth from to) (L.logs logs.old) (L.logs logs.new)) }
    ensures refused { IfErr result (λ refusal. ToldUpTo refusal (growth from to) (L.logs logs.old) (L.logs logs.new)) }
{
    if from < to {
        return logs.note(&Notice::Grew { from, to });
    }
    Ok(())
}

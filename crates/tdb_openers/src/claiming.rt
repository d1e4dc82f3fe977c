// An opener claims all records, beside its commands, and lets go of them.

ghost use Rattle.std.specs.Prelude.{◌≡◌, ◌↔◌, None, Some, IsTrue, IfErr, OnErr, OnOk};
ghost use Rattle.tdb_law.specs.Rows.{all_end};
ghost use Rattle.tdb_locks.specs.LockTable.{ChangesRange, IsFree, held};
ghost use Rattle.tdb_openers.specs.Aside.{IsBare, with_records};
ghost use Rattle.tdb_openers.specs.Locked.{all_row, IsInTheWay};

use crate::holding::row_of_all;
use crate::opener::Opener;
use crate::refusing::has_chains;
use tdb_locks::{Kind, LockRefusal, Locks};
use tdb_steps::let_go_of;

impl Opener {
    /// Whether the opener is live, and has no command, no cursor, and no explicit lock but one of all records.
    pub(crate) fn is_bare(&self) -> bool
        ensures { IsTrue result ↔ IsBare self.now }
    {
        self.live && self.task.is_none() && !has_chains(&self.held) && self.walk.shown.is_none()
    }

    /// Locks all records with this kind, whatever their kind was before, and counts that once. `owner` is the opener's
    /// number in the lock table.
    ///
    /// `Conflict` is the first one, and `Memory` says that it is wanting. After both all is as it was.
    pub(crate) fn lock_records(
        &mut self,
        locks: &mut Locks,
        owner: u32,
        kind: Kind,
    ) -> Result<(), LockRefusal>
        ensures opener { OnOk result (self.new ≡ with_records self.old (Some (kind, 1))) }
        ensures taken { OnOk result (ChangesRange locks.old locks.new owner 168 all_end (Some kind)) }
        ensures free { OnOk result (IsFree locks.old owner 168 all_end kind) }
        ensures refused { IfErr result (IsInTheWay locks.old owner (all_row kind)) }
        ensures walk { self.new.walk ≡ self.old.walk }
        ensures same { OnErr result (self.new ≡ self.old) }
        ensures err { OnErr result (locks.new ≡ locks.old) }
    {
        let row = row_of_all(kind);
        locks.try_lock(owner, row.region.start(), row.region.len(), row.kind)?;
        self.held.set_all(Some((kind, 1)));
        Ok(())
    }

    /// Lets go of all records. It takes no memory.
    pub(crate) fn let_go_of_records(&mut self, locks: &mut Locks, owner: u32)
        requires alone { held locks.old owner 167 ≡ None }
        ensures opener { self.new ≡ with_records self.old None }
        ensures let_go { ChangesRange locks.old locks.new owner 168 all_end None }
    {
        self.held.set_all(None);
        let_go_of(locks, owner, &self.held, row_of_all(Kind::Read));
    }
}

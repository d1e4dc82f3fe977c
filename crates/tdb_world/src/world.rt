//! The world together with the disk that has its file.
ghost use Rattle.std.specs.Prelude.{◌≡◌, IsTrue, IfOk, is_err, length, false};
ghost use Rattle.tdb_disk.specs.Count.{HasCause};
ghost use Rattle.tdb_disk.specs.History.{seen};
ghost use Rattle.tdb_world.specs.OverFile.{FitsFile, IsDiskOf};

mod memory;
mod openers;
mod opening;
mod plays;
mod turns;

use crate::all_openers::AllOpeners;
use std::marker::Model;
use tdb_disk::Disk;
use tdb_space::Io;

/// All openers of one tdb file, and the disk that has the file. Contracts see the openers, what the disk tells, and
/// whether the world is spent: the disk failed in a call, and no turn may be taken any more. It can't be dropped:
/// `close` gives the disk back.
pub struct World<D: Disk> {
    pub(crate) openers: AllOpeners,
    pub(crate) disk: D,
    pub(crate) spent: bool,
}

impl<D: Disk> Model for World<D> {
    ghost use Rattle.std.specs.Prelude.{◌≡◌, false};
    ghost use Rattle.tdb_disk.specs.History.{seen};
    ghost use Rattle.tdb_world.specs.contracts.all_openers.AllOpeners as all;
    ghost use Rattle.tdb_world.specs.Whole.{WorldFits};
    ghost use Rattle.tdb_world.specs.OverFile.{over_file_code, OverFile};

    ghost Value = { OverFile };

    ghost coded = { over_file_code all.the_row.coded };

    ghost view = { λ w. record { world = w.openers; history = D.history w.disk; size = D.size w.disk; faults = D.faults w.disk; syncs = D.syncs w.disk; bytes_read = D.bytes_read w.disk; spent = w.spent } };

    ghost invariant = { λ w. w.spent ≡ false → WorldFits w.openers (seen (D.history w.disk)) (D.size w.disk) };
}

impl<D: Disk> World<D> {
    /// Whether the disk failed in a call.
    pub fn is_spent(&self) -> bool
        ensures { result ≡ self.now.spent }
    {
        self.spent
    }

    /// What holds between any two calls, for a caller's proof: unless it is spent the openers fit the file; and a file
    /// that tells its bytes has as many as its length says. The function does nothing.
    pub fn stands(&self)
        ensures fits { self.now.spent ≡ false → FitsFile self.now }
        ensures sized { IsTrue D.tells → length (seen self.now.history) ≡ self.now.size }
    {
        let _ = &self.disk;
    }

    /// The length of the file in bytes. After `Io` the world is spent: the disk failed.
    ///
    /// Cost: one call of the disk.
    pub fn length(&mut self) -> Result<u64, Io>
        requires unspent { self.old.spent ≡ false }
        ensures length { IfOk result (λ n. n ≡ self.old.size) }
        ensures kept { self.new ≡ record self.old { faults = self.new.faults; spent = is_err result } }
        ensures cause { HasCause self.old.faults self.new.faults result }
    {
        let length = self.disk.len();
        self.spent = length.is_err();
        Ok(length?)
    }

    /// Gives the openers up, with commands that aren't done and a transaction that isn't committed, and gives the disk
    /// back, on which no call is made. A gate that stands open is undone by whoever opens the file next.
    pub fn close(self) -> D
        ensures { IsDiskOf D.Disk result self }
    {
        let World {
            openers,
            disk,
            spent: _,
        } = self;
        openers.end();
        disk
    }
}

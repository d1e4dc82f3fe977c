//! One turn of an opener, and the undo of a gate that a dead one left open, in a world that has its disk.
ghost use Rattle.std.specs.Prelude.{◌≡◌, ◌≤◌, IsTrue, IfOk, OnErr, is_err, true, false};
ghost use Rattle.tdb_disk.specs.Count.{HasCause};
ghost use Rattle.tdb_world.specs.Steps.{HasCommand};
ghost use Rattle.tdb_world.specs.Stopped.{StopsRightly};
ghost use Rattle.tdb_world.specs.OverFiles.Turns.{CountsFaults, LeavesFile, LooksUnsynced, StopsInTurn, StopsInUndo, TookTurn, WasUndone};

use crate::Undone;
use crate::world::World;
use tdb_disk::Disk;
use tdb_locks::Turn;
use tdb_space::Io;

impl<D: Disk> World<D> {
    /// Takes one turn of the opener's command. After `Io` the world is spent: the disk failed, or a check found a fault
    /// in the file, which no turn leaves. A Commit of a prepared transaction is never blocked, and is done after at
    /// most four turns of its opener.
    ///
    /// `Full` comes exactly where there is no room for what the command stores, up to the limit, with the length of the
    /// image and what it needs: outside a transaction in the file, at the turn in which it takes a record, and inside
    /// one in the image of the transaction. Of a Commit and a Prepare it comes at the turn that plans, and only where
    /// a new undo area has no room in the file. The first turn of a Start is `Blocked` by the opener that holds the
    /// lock byte of transactions, and never ends with `Memory` there.
    ///
    /// After `Io` outside a transaction the file isn't shorter, and at most the chain of the command's key, the free
    /// list, their heads, the command's record and the sequence number have changed: no other byte of the header, and
    /// none of the undo area. A wipe, and a command on a cursor that purges a record, leave what these may. Of an
    /// opener that has a transaction, each stop in the turn and behind it leaves what its stage says: a file that opens
    /// to the map before, or from the turn on that shuts the gate of a Commit to that of the transaction.
    ///
    /// Outside a transaction no turn of a command that changes no map writes to the file, nor the first one of a
    /// command that does, nor one that is refused; of those on a cursor only one that purges a dead record writes, at
    /// its third turn.
    ///
    /// Cost: that of the command's turn, and a search in the lock table; nothing is passed over that doesn't belong to
    /// it. A turn of a Start, a Commit or a Prepare, or one that ends a transaction, syncs the disk as often as its
    /// stage says. That makes four times for a Commit that keeps the undo area, seven with a first one, nine with one
    /// that takes the place of another, and none where nothing changes. A turn that only looks at the file never does.
    pub fn turn(&mut self, who: u32) -> Result<Turn, Io>
        requires named { 1 ≤ who }
        requires busy { HasCommand self.old.world who }
        requires fresh { self.old.world.stale ≡ false }
        requires unspent { self.old.spent ≡ false }
        ensures turned { IfOk result (λ turn. TookTurn D.tells self.old self.new who turn) }
        ensures stopped { OnErr result (IsTrue D.tells → StopsRightly self.old.world self.old.history self.new.history who) }
        ensures stops { IsTrue D.tells → StopsInTurn self.old self.new who }
        ensures no_sync { LooksUnsynced self.old self.new who }
        ensures still { LeavesFile self.old self.new who }
        ensures faults { CountsFaults D.tells self.old self.new result }
        ensures spent { self.new.spent ≡ is_err result }
    {
        let turned = self.openers.turn(&mut self.disk, who);
        self.spent = turned.is_err();
        turned
    }

    /// Whether a gate stands open that an opener left by dying.
    pub fn is_stale(&self) -> bool
        ensures { result ≡ self.now.world.stale }
    {
        self.openers.is_stale()
    }

    /// Undoes the gate that an opener left open: syncs, and puts the old bytes back. No turn is taken in a stale world
    /// before that. After `Io` the world is spent.
    ///
    /// Where the file doesn't tell its bytes, an undo area that is none puts back nothing. Bytes are told only where an
    /// undo was made.
    ///
    /// Cost: a read and a write of each entry, and at most 7 syncs. It takes no memory.
    pub fn undo_stale(&mut self) -> Result<Undone, Io>
        requires stale { self.old.world.stale ≡ true }
        requires unspent { self.old.spent ≡ false }
        ensures undone { IfOk result (λ undone. WasUndone D.tells self.old self.new undone) }
        ensures stops { IsTrue D.tells → StopsInUndo self.old self.new }
        ensures cause { HasCause self.old.faults self.new.faults result }
        ensures spent { self.new.spent ≡ is_err result }
    {
        let undone = self.openers.undo_stale(&mut self.disk);
        self.spent = undone.is_err();
        undone
    }
}

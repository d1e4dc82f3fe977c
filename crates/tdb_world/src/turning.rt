//! One turn of an opener.
ghost use Rattle.std.specs.Prelude.{◌≡◌, ◌≤◌, ℕ, IsTrue, IfOk, OnOk, OnErr, false};
ghost use Rattle.tdb_disk.specs.Count.{HasCause};
ghost use Rattle.tdb_disk.specs.History.{seen};
ghost use Rattle.tdb_disk.specs.Stop.{LeavesOnly};
ghost use Rattle.tdb_law.specs.World.{State};
ghost use Rattle.tdb_commands.specs.InLaw.{law_opener, law_turn};
ghost use Rattle.tdb_world.specs.Whole.{form_at, WorldFits};
ghost use Rattle.tdb_world.specs.States.{IsStateOf};
ghost use Rattle.tdb_world.specs.Steps.{HasCommand, StartWaits, TurnLeads};
ghost use Rattle.tdb_world.specs.Room.{FullOfTurn, StarvesInFile};
ghost use Rattle.tdb_world.specs.Stopped.{StopsRightly};
ghost use Rattle.tdb_world.specs.Stops.{IsChanging, IsSafe, TurnMayLeave};
ghost use Rattle.tdb_world.specs.Prepared.{GoesAsPrepared};
ghost use Rattle.tdb_world.specs.Syncs.{OnlyLooks, SyncsByStage};
ghost use Rattle.tdb_world.specs.Looks.{StaysUnwritten};

use crate::all_openers::AllOpeners;
use tdb_disk::Disk;
use tdb_locks::Turn;
use tdb_space::Io;

impl AllOpeners {
    /// Takes one turn of the opener's command. After `Io` no other turn may be taken in the world: the disk failed, or
    /// a check found a fault in the file, which no turn leaves. A Commit of a prepared transaction is never blocked,
    /// and is done after at most four turns of its opener. `Full` comes exactly where the image that the opener sees
    /// has no room, up to the limit, for what the command stores; inside a transaction it may be that memory is wanting
    /// there. Outside one a command on the map wants memory only where its turn takes a lock, the value that a fetch
    /// tells or an append joins, or the count of a check. The first turn of a Start is blocked by the one aside where
    /// that holds the lock byte of transactions, and never wants memory there. After `Io` outside a transaction
    /// at most the chain of the command's key, the free list, their heads, the command's record and the sequence number
    /// have changed. Outside a transaction a turn writes nothing unless it is in the middle of a change: not where its
    /// command changes no map, and not in the first turn of one that does.
    ///
    /// Cost: that of the command's turn, and a search in the lock table; nothing is passed over that doesn't belong to
    /// it. A turn of a Start, a Commit or a Prepare, or one that ends a transaction, syncs the disk as often as its
    /// stage says. That makes four times for a Commit that keeps the undo area, seven with a first one, nine with one
    /// that takes the place of another, and none where nothing changes. A turn that only looks at the file never does.
    pub(crate) fn turn<D: Disk>(&mut self, d: &mut D, who: u32) -> Result<Turn, Io>
        requires named { 1 ≤ who }
        requires busy { HasCommand self.old who }
        requires fresh { self.old.stale ≡ false }
        requires fits { WorldFits self.old (seen (D.history d.old)) (D.size d.old) }
        ensures fits { OnOk result (WorldFits self.new (seen (D.history d.new)) (D.size d.new)) }
        ensures fresh { OnOk result (self.new.stale ≡ false) }
        ensures turned { IfOk result (λ turn. IsTrue D.tells → TurnLeads self.old self.new (D.history d.old) (D.history d.new) who (law_turn turn)) }
        ensures full { IfOk result (λ turn. IsTrue D.tells → FullOfTurn self.old (D.history d.old) who (law_turn turn)) }
        ensures starves { IfOk result (λ turn. StarvesInFile self.old who (law_turn turn)) }
        ensures waits { IfOk result (λ turn. StartWaits self.old who (law_turn turn)) }
        ensures stopped { OnErr result (IsTrue D.tells → StopsRightly self.old (D.history d.old) (D.history d.new) who) }
        ensures prepared { IfOk result (λ turn. IsTrue D.tells → GoesAsPrepared self.old (D.history d.old) (law_opener who) (law_turn turn)) }
        ensures stops { IsTrue D.tells → (state : State) → let f = form_at self.old in IsStateOf self.old (D.history d.old) state → IsSafe f (D.history d.old) → (IsChanging f state (law_opener who) → ⊥)
            → LeavesOnly (D.history d.old) (D.history d.new) (TurnMayLeave f state (law_opener who)) }
        ensures safe { OnOk result (IsTrue D.tells → (state : State) → let f = form_at self.old in IsStateOf self.old (D.history d.old) state → IsSafe f (D.history d.old) → (IsChanging f state (law_opener who) → ⊥)
            → IsSafe f (D.history d.new)) }
        ensures syncs { IfOk result (λ turn. SyncsByStage D.tells self.old (D.history d.old) who turn (D.syncs d.old) (D.syncs d.new)) }
        ensures no_sync { (state : State) → IsStateOf self.old (D.history d.old) state → OnlyLooks (form_at self.old) state (law_opener who) → D.syncs d.new ≡ D.syncs d.old }
        ensures still { StaysUnwritten self.old who (D.history d.old) (D.history d.new) }
        ensures busy { IfOk result (λ turn. turn ≡ Turn.Step → HasCommand self.new who) }
        ensures header { OnOk result (self.new.openers.header ≡ self.old.openers.header) }
        ensures options { OnOk result (self.new.openers.options ≡ self.old.openers.options) }
        ensures cause { IsTrue D.tells → (state : State) → IsStateOf self.old (D.history d.old) state → HasCause (D.faults d.old) (D.faults d.new) result }
        ensures done { OnOk result (D.faults d.new ≡ D.faults d.old) }
        ensures rises { D.faults d.old ≤ D.faults d.new }
        ensures longer { OnOk result (D.size d.old ≤ D.size d.new) }
    {
        if self.is_aside(who) {
            return self.aside_turn(d, who);
        }
        if self.is_starting(who) {
            return self.start_turn(d, who);
        }
        self.other_turn(d, who)
    }
}

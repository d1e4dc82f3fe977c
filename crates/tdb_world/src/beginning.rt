//! The first turn of a Start.
ghost use Rattle.std.specs.Prelude.{◌≡◌, ◌≤◌, ◌<◌, ℕ, List, slice_set, IsTrue, IfOk, OnOk, Some, true, false, OnErr};
ghost use Rattle.tdb_disk.specs.Count.{HasCause};
ghost use Rattle.tdb_disk.specs.History.{History, seen};
ghost use Rattle.tdb_disk.specs.Stop.{LeavesOnly};
ghost use Rattle.tdb_txn_owner.specs.Holders.{HolderState};
ghost use Rattle.tdb_law.specs.Commands.Reply.{Full};
ghost use Rattle.tdb_law.specs.Commands.Turn.{Blocked, Ends};
ghost use Rattle.tdb_law.specs.World.{State};
ghost use Rattle.tdb_commands.specs.InLaw.{law_opener, law_turn};
ghost use Rattle.tdb_world.specs.Whole.{form_at, is_starting, WorldFits};
ghost use Rattle.tdb_world.specs.States.{IsStateOf};
ghost use Rattle.tdb_steps.specs.Holdings.{table_of};
ghost use Rattle.tdb_world.specs.Steps.{HasCommand, IsAmong, StartWaits, TurnLeads};
ghost use Rattle.tdb_world.specs.Room.{FullOfTurn};
ghost use Rattle.tdb_world.specs.Stopped.{StopsRightly};
ghost use Rattle.tdb_world.specs.Stops.{IsSafe, TurnMayLeave};
ghost use Rattle.tdb_txn_turns.specs.declared.starting.Starting.TheVariants as Starting;
ghost use Rattle.tdb_txn_owner.specs.declared.stage.Stage.TheVariants as Stage;
ghost use Rattle.tdb_txn_owner.specs.Syncs.{HolderSyncs};

use crate::all_openers::AllOpeners;
use tdb_disk::Disk;
use tdb_locks::{Reply, Turn};
use tdb_space::Io;
use tdb_txn_owner::TxnOwner;

/// The lock byte of transactions.
const TXN_BYTE: u64 = 8;

impl AllOpeners {
    /// Takes from an opener its Start, which has had no turn.
    fn drop_start(&mut self, who: u32)
        requires begun { is_starting self.old.starts (law_opener who) ≡ true }
        requires named { 1 ≤ who }
        ensures { self.new ≡ record self.old { starts = slice_set self.old.starts (law_opener who) false } }
    {
        self.starts[who as usize - 1] = false;
    }

    /// The first turn of a Start beside the one aside, which holds the lock of transactions since its own first turn.
    /// If it didn't hold it, which no contract below rules out, the Start would end with `Memory`.
    fn barred_start(&mut self, who: u32) -> Turn
        requires named { 1 ≤ who }
        requires aside { (h : HolderState) × (self.old.aside ≡ Some h) }
        requires begun { is_starting self.old.starts (law_opener who) ≡ true }
        requires fresh { self.old.stale ≡ false }
        ensures fits { (img : List ℕ) (size : ℕ) → WorldFits self.old img size → WorldFits self.new img size }
        ensures rest { record self.new { starts = self.old.starts } ≡ self.old }
        ensures step { result ≡ Turn.Step → ⊥ }
        ensures waits { (h : HolderState) → self.old.aside ≡ Some h → 0 < table_of h.locks h.owner 8 → law_turn result ≡ Blocked (law_opener h.owner) 8 }
        ensures full { (len need : ℕ) → law_turn result ≡ Ends (Full len need) → ⊥ }
        ensures turned { (img : List ℕ) (size : ℕ) (h : History) → WorldFits self.old img size → TurnLeads self.old self.new h h who (law_turn result) }
    {
        let Some(holder) = &self.aside else {
            unreachable!();
        };
        if holder.holds(TXN_BYTE) {
            return Turn::Blocked {
                owner: holder.owner(),
                byte: TXN_BYTE,
            };
        }
        self.drop_start(who);
        Turn::Done(Reply::Memory)
    }

    /// Takes the first turn of a Start: it is barred by the one aside, or its opener goes aside.
    pub(crate) fn start_turn<D: Disk>(&mut self, d: &mut D, who: u32) -> Result<Turn, Io>
        requires named { 1 ≤ who }
        requires among { IsAmong self.old who }
        requires begun { is_starting self.old.starts (law_opener who) ≡ true }
        requires fresh { self.old.stale ≡ false }
        requires fits { WorldFits self.old (seen (D.history d.old)) (D.size d.old) }
        ensures fits { OnOk result (WorldFits self.new (seen (D.history d.new)) (D.size d.new)) }
        ensures fresh { OnOk result (self.new.stale ≡ false) }
        ensures turned { IfOk result (λ turn. IsTrue D.tells → TurnLeads self.old self.new (D.history d.old) (D.history d.new) who (law_turn turn)) }
        ensures full { IfOk result (λ turn. IsTrue D.tells → FullOfTurn self.old (D.history d.old) who (law_turn turn)) }
        ensures waits { IfOk result (λ turn. StartWaits self.old who (law_turn turn)) }
        ensures stopped { OnErr result (IsTrue D.tells → StopsRightly self.old (D.history d.old) (D.history d.new) who) }
        ensures stops { IsTrue D.tells → (state : State) → let f = form_at self.old in IsStateOf self.old (D.history d.old) state → IsSafe f (D.history d.old)
            → LeavesOnly (D.history d.old) (D.history d.new) (TurnMayLeave f state (law_opener who)) }
        ensures safe { OnOk result (IsTrue D.tells → (state : State) → let f = form_at self.old in IsStateOf self.old (D.history d.old) state → IsSafe f (D.history d.old)
            → IsSafe f (D.history d.new)) }
        ensures syncs { IfOk result (λ turn. HolderSyncs (Stage.Starting Starting.Begun) turn (D.syncs d.old) (D.syncs d.new)) }
        ensures busy { IfOk result (λ turn. turn ≡ Turn.Step → HasCommand self.new who) }
        ensures header { OnOk result (self.new.openers.header ≡ self.old.openers.header) }
        ensures options { OnOk result (self.new.openers.options ≡ self.old.openers.options) }
        ensures cause { IsTrue D.tells → (state : State) → IsStateOf self.old (D.history d.old) state → HasCause (D.faults d.old) (D.faults d.new) result }
        ensures done { OnOk result (D.faults d.new ≡ D.faults d.old) }
        ensures rises { D.faults d.old ≤ D.faults d.new }
        ensures longer { OnOk result (D.size d.old ≤ D.size d.new) }
    {
        if self.aside.is_some() {
            return Ok(self.barred_start(who));
        }
        self.drop_start(who);
        let holder = TxnOwner::start(self.openers.alloc(), who);
        self.step_aside(d, holder)
    }
}

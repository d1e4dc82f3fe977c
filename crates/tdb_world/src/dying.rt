//! Openers that die.
ghost use Rattle.std.specs.Prelude.{◌≡◌, ◌≤◌, ℕ, List, IsTrue, Some, false};
ghost use Rattle.tdb_disk.specs.History.{History};
ghost use Rattle.tdb_law.specs.Lines.{MayDie};
ghost use Rattle.tdb_law.specs.World.{State};
ghost use Rattle.tdb_txn_owner.specs.Holders.{HolderState};
ghost use Rattle.tdb_txn_owner.specs.Stages.{stage_task};
ghost use Rattle.tdb_commands.specs.InLaw.{law_opener};
ghost use Rattle.tdb_openers.specs.Died.{MayDieIn};
ghost use Rattle.tdb_world.specs.Died.{CanDie};
ghost use Rattle.tdb_world.specs.Whole.{WorldFits};
ghost use Rattle.tdb_world.specs.States.{IsStateOf};
ghost use Rattle.tdb_world.specs.Steps.{DeathLeads};

use crate::all_openers::AllOpeners;

impl AllOpeners {
    /// Whether the opener with this number, from 1 on, may die: it is live, and has no command, or a Commit or a
    /// Prepare.
    pub(crate) fn may_die(&self, who: u32) -> bool
        requires named { 1 ≤ who }
        requires fits { (img : List ℕ) × (size : ℕ) × WorldFits self.now img size }
        ensures can { IsTrue result → CanDie self.now who }
        ensures may { IsTrue result → (h : History) (state : State) → IsStateOf self.now h state → MayDieIn state (law_opener who) }
        ensures may_not { result ≡ false → (h : History) (state : State) → IsStateOf self.now h state → MayDieIn state (law_opener who) → ⊥ }
    {
        match self.holder(who) {
            Some(holder) => holder.may_die(),
            None => !self.is_starting(who) && self.openers.may_die(who),
        }
    }

    /// The one aside dies. The world is stale where that leaves an open gate.
    fn die_aside(&mut self, who: u32)
        requires aside { (h : HolderState) × (self.old.aside ≡ Some h) × (who ≡ h.owner) × MayDie (stage_task h.stage) }
        requires fits { (img : List ℕ) × (size : ℕ) × WorldFits self.old img size }
        ensures fits { (img : List ℕ) (size : ℕ) → WorldFits self.old img size → WorldFits self.new img size }
        ensures dies { (h : History) → DeathLeads self.old self.new h who }
        ensures header { self.new.openers.header ≡ self.old.openers.header }
        ensures options { self.new.openers.options ≡ self.old.openers.options }
    {
        let Some(holder) = self.aside.take() else {
            unreachable!();
        };
        let stale = holder.leaves_gate();
        holder.end();
        self.stale = stale;
        self.openers.die(who);
    }

    /// An opener dies, as a process that is killed: it isn't live any more, holds no lock, and its transaction is lost.
    /// A dead record on which its cursor stands stays in its chain. Where its commit has opened its gate and not shut
    /// it, the world is stale from then on. It takes no memory, and makes no call on the file.
    ///
    /// Cost: one pass over the lock table.
    pub(crate) fn die(&mut self, who: u32)
        requires named { 1 ≤ who }
        requires can { CanDie self.old who }
        requires fits { (img : List ℕ) × (size : ℕ) × WorldFits self.old img size }
        ensures fits { (img : List ℕ) (size : ℕ) → WorldFits self.old img size → WorldFits self.new img size }
        ensures dies { (h : History) → DeathLeads self.old self.new h who }
        ensures header { self.new.openers.header ≡ self.old.openers.header }
        ensures options { self.new.openers.options ≡ self.old.openers.options }
    {
        if self.is_aside(who) {
            return self.die_aside(who);
        }
        self.openers.die(who);
    }
}

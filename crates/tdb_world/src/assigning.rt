//! How an opener stands, and the command that it is given.
ghost use Rattle.std.specs.Prelude.{◌≡◌, ◌≤◌, ℕ, List, length, set, IsTrue, IfOk, IfSome, IfNone, OnOk, OnErr, Some, false, true};
ghost use Rattle.tdb_disk.specs.History.{History};
ghost use Rattle.tdb_law.specs.Openers.{Task};
ghost use Rattle.tdb_law.specs.World.{State};
ghost use Rattle.tdb_commands.specs.InLaw.{law_opener, law_command};
ghost use Rattle.tdb_commands.specs.Short.{IsShortCommand};
ghost use Rattle.tdb_world.specs.Whole.{is_starting, WorldFits};
ghost use Rattle.tdb_world.specs.States.{IsStateOf};
ghost use Rattle.tdb_world.specs.Steps.{GiftLeads, HasCommand, HasNoCommand, HasRoom, HasThis, IsAmong};
ghost use Rattle.tdb_law.specs.OneAside.Sides.{Past, Side};
ghost use Rattle.tdb_txn_owner.specs.Ends.{task_of};
ghost use Rattle.tdb_txn_owner.specs.Holders.{is_idle, stage_depth, with_command, HolderState};
ghost use Rattle.tdb_txn_owner.specs.Stages.{Known, IsFit, IsSide, KnowsFile, MayBeGiven};
ghost use Rattle.tdb_commands.specs.declared.options.Options.{Options};
ghost use Rattle.tdb_space.specs.Form.{Form};
ghost use Rattle.tdb_words.specs.declared.header.Header.{Header};
ghost use Rattle.tdb_openers.specs.declared.standings.OpenerStanding.TheVariants as OpenerStanding;

use crate::all_openers::AllOpeners;
use std::alloc::AllocError;
use tdb_commands::Command;
use tdb_openers::OpenerStanding;
use tdb_txn_owner::TxnOwner;

/// Gives the one aside a command, where it may be given.
fn give_holder(holder: &mut TxnOwner, command: Command) -> Result<(), AllocError>
    requires idle { is_idle holder.old.stage ≡ true }
    requires short { IsShortCommand command }
    ensures given { OnOk result (holder.new ≡ record holder.old { stage = with_command holder.old.stage command }) }
    ensures busy { OnOk result (is_idle holder.new.stage ≡ false) }
    ensures side { OnOk result ((f : Form) (o : Options) (k : Known) (past : Past) (s : Side) → IsSide f o holder.old.owner holder.old.locks holder.old.stage k past s
        → IsSide f o holder.new.owner holder.new.locks holder.new.stage k past (record s { task = Some (task_of (law_command command) 0) })) }
    ensures file { OnOk result ((f : Form) (h : History) (k : Known) → KnowsFile f holder.old.stage h k → KnowsFile f holder.new.stage h k) }
    ensures fits { OnOk result ((h : Header) (limit size : ℕ) → IsFit holder.old.stage h limit size → IsFit holder.new.stage h limit size) }
    ensures may { OnOk result (MayBeGiven command (stage_depth holder.old.stage)) }
    ensures full { OnErr result (MayBeGiven command (stage_depth holder.old.stage) → ⊥) }
    ensures err { OnErr result (holder.new ≡ holder.old) }
{
    if !holder.may_be_given(&command) {
        return Err(AllocError);
    }
    holder.assign(command);
    Ok(())
}

impl AllOpeners {
    /// The opener with this number, where it is aside.
    pub(crate) fn holder(&self, who: u32) -> Option<&TxnOwner>
        ensures some { IfSome result (λ h. (self.now.aside ≡ Some h.now) × (who ≡ h.now.owner)) }
        ensures none { IfNone result (IsAmong self.now who) }
    {
        match &self.aside {
            Some(holder) if holder.owner() == who => Some(holder),
            _ => None,
        }
    }

    /// Whether the opener with this number is aside.
    pub(crate) fn is_aside(&self, who: u32) -> bool
        ensures yes { IsTrue result → (h : HolderState) × (self.now.aside ≡ Some h) × (who ≡ h.owner) }
        ensures no { result ≡ false → IsAmong self.now who }
    {
        self.holder(who).is_some()
    }

    /// Whether the opener with this number has a Start that has had no turn.
    pub(crate) fn is_starting(&self, who: u32) -> bool
        ensures { result ≡ is_starting self.now.starts (law_opener who) }
    {
        match self.starts.get((who as usize).saturating_sub(1)) {
            Some(starting) => *starting,
            None => false,
        }
    }

    /// How the opener with this number, from 1 on, stands.
    pub(crate) fn standing(&self, who: u32) -> OpenerStanding
        requires named { 1 ≤ who }
        requires fits { (img : List ℕ) × (size : ℕ) × WorldFits self.now img size }
        ensures absent { result ≡ OpenerStanding.Absent → (h : History) (state : State) → IsStateOf self.now h state → (state.own (law_opener who)).live ≡ false }
        ensures nobody { result ≡ OpenerStanding.Absent → HasCommand self.now who → ⊥ }
        ensures idle { result ≡ OpenerStanding.Idle → HasNoCommand self.now who }
        ensures busy { result ≡ OpenerStanding.Busy → HasCommand self.now who }
    {
        if let Some(holder) = self.holder(who) {
            return if holder.is_idle() {
                OpenerStanding::Idle
            } else {
                OpenerStanding::Busy
            };
        }
        if self.is_starting(who) {
            return OpenerStanding::Busy;
        }
        self.openers.standing(who)
    }

    /// The command of an opener as a report tells it, at the cost of its key's and its value's length.
    pub(crate) fn told(&self, who: u32) -> Result<Command, AllocError>
        requires fits { (img : List ℕ) × (size : ℕ) × WorldFits self.now img size }
        requires busy { HasCommand self.now who }
        ensures told { IfOk result (λ command. (h : History) (state : State) (t : Task) → IsStateOf self.now h state → state.task (law_opener who) ≡ Some t → law_command command ≡ t.command) }
        ensures has { IfOk result (λ command. HasThis self.now who (law_command command)) }
    {
        if let Some(holder) = self.holder(who) {
            return holder.told(self.openers.alloc());
        }
        if self.is_starting(who) {
            return Ok(Command::Start);
        }
        self.openers.told(who)
    }

    /// Gives the one aside a command, where it may be given.
    fn assign_aside(&mut self, who: u32, command: Command) -> Result<(), AllocError>
        requires aside { (h : HolderState) × (self.old.aside ≡ Some h) × (who ≡ h.owner) }
        requires free { HasNoCommand self.old who }
        requires fits { (img : List ℕ) × (size : ℕ) × WorldFits self.old img size }
        requires short { IsShortCommand command }
        ensures fits { (img : List ℕ) (size : ℕ) → WorldFits self.old img size → WorldFits self.new img size }
        ensures may { OnOk result (HasRoom self.old who command) }
        ensures full { OnErr result (HasRoom self.old who command → ⊥) }
        ensures busy { OnOk result (HasCommand self.new who) }
        ensures given { OnOk result ((h : History) → GiftLeads self.old self.new h who (law_command command)) }
        ensures header { self.new.openers.header ≡ self.old.openers.header }
        ensures options { self.new.openers.options ≡ self.old.openers.options }
        ensures stale { self.new.stale ≡ self.old.stale }
        ensures err { OnErr result (self.new ≡ self.old) }
    {
        let Some(holder) = &mut self.aside else {
            unreachable!();
        };
        give_holder(holder, command)
    }

    /// The opener has a Start from now on, of which it has had no turn.
    fn begin(&mut self, who: u32)
        requires named { 1 ≤ who }
        requires there { who ≤ length self.old.starts }
        ensures { self.new ≡ record self.old { starts = set self.old.starts (law_opener who) true } }
    {
        self.starts[who as usize - 1] = true;
    }

    /// Gives an opener that isn't aside a command.
    fn assign_among(&mut self, who: u32, command: Command, told: Command)
        requires named { 1 ≤ who }
        requires same { told ≡ command }
        requires among { IsAmong self.old who }
        requires free { HasNoCommand self.old who }
        requires fits { (img : List ℕ) × (size : ℕ) × WorldFits self.old img size }
        requires short { IsShortCommand command }
        ensures fits { (img : List ℕ) (size : ℕ) → WorldFits self.old img size → WorldFits self.new img size }
        ensures busy { HasCommand self.new who }
        ensures given { (h : History) → GiftLeads self.old self.new h who (law_command command) }
        ensures header { self.new.openers.header ≡ self.old.openers.header }
        ensures options { self.new.openers.options ≡ self.old.openers.options }
        ensures stale { self.new.stale ≡ self.old.stale }
    {
        if self.openers.begins(who, &command) {
            self.begin(who);
        } else {
            self.openers.assign(who, command, told);
        }
    }

    /// Gives a live opener that has no command this one, of which it then takes turns. `told` is the same command, of
    /// which a report's lines are copies. It takes no memory.
    ///
    /// `Memory` where a transaction would begin within more than 2^32 - 2 others: then nothing has changed.
    ///
    /// Cost: a hash of the key, and a look-up among the chains that the opener holds.
    pub(crate) fn assign(
        &mut self,
        who: u32,
        command: Command,
        told: Command,
    ) -> Result<(), AllocError>
        requires named { 1 ≤ who }
        requires same { told ≡ command }
        requires free { HasNoCommand self.old who }
        requires fits { (img : List ℕ) × (size : ℕ) × WorldFits self.old img size }
        requires short { IsShortCommand command }
        ensures fits { (img : List ℕ) (size : ℕ) → WorldFits self.old img size → WorldFits self.new img size }
        ensures may { OnOk result (HasRoom self.old who command) }
        ensures full { OnErr result (HasRoom self.old who command → ⊥) }
        ensures busy { OnOk result (HasCommand self.new who) }
        ensures given { OnOk result ((h : History) → GiftLeads self.old self.new h who (law_command command)) }
        ensures header { self.new.openers.header ≡ self.old.openers.header }
        ensures options { self.new.openers.options ≡ self.old.openers.options }
        ensures stale { self.new.stale ≡ self.old.stale }
        ensures err { OnErr result (self.new ≡ self.old) }
    {
        if self.is_aside(who) {
            return self.assign_aside(who, command);
        }
        self.assign_among(who, command, told);
        Ok(())
    }
}

//! The openers of a world that has its disk: who joins, how they stand, the command that one is given, and who dies.
ghost use Rattle.std.specs.Prelude.{◌≡◌, ◌≤◌, ◌⊎◌, IsTrue, IfOk, IfErr, OnOk, OnErr, length, false};
ghost use Rattle.tdb_disk.specs.History.{History};
ghost use Rattle.tdb_law.specs.World.{State};
ghost use Rattle.tdb_commands.specs.InLaw.{law_opener};
ghost use Rattle.tdb_commands.specs.Short.{IsShortCommand};
ghost use Rattle.tdb_openers.specs.Died.{MayDieIn};
ghost use Rattle.tdb_world.specs.Died.{CanDie};
ghost use Rattle.tdb_world.specs.States.{IsStateOf};
ghost use Rattle.tdb_world.specs.Steps.{HasCommand, HasNoCommand, HasRoom};
ghost use Rattle.tdb_world.specs.OverFiles.Openers.{CannotJoin, HasDied, HasJoined, IsAbsent, IsLive, StandsSo, WasGiven};

use crate::world::World;
use crate::{JoinRefusal, OpenerStanding};
use std::alloc::AllocError;
use tdb_commands::Command;
use tdb_disk::Disk;

impl<D: Disk> World<D> {
    /// How many openers have joined.
    pub fn joined(&self) -> u32
        requires unspent { self.now.spent ≡ false }
        ensures { result ≡ length self.now.world.openers.openers }
    {
        self.openers.joined()
    }

    /// A new opener joins, and gets the next number. After a refusal nothing has changed.
    pub fn join(&mut self) -> Result<u32, JoinRefusal>
        requires unspent { self.old.spent ≡ false }
        ensures joined { IfOk result (λ who. HasJoined self.old self.new who) }
        ensures refused { IfErr result (λ e. CannotJoin self.old e) }
        ensures err { OnErr result (self.new ≡ self.old) }
    {
        self.openers.join()
    }

    /// How the opener with this number, from 1 on, stands.
    pub fn standing(&self, who: u32) -> OpenerStanding
        requires named { 1 ≤ who }
        requires unspent { self.now.spent ≡ false }
        ensures { StandsSo self.now who result }
    {
        self.openers.standing(who)
    }

    /// Whether the opener with this number, from 1 on, is live: it has joined, and has neither closed nor died.
    pub fn is_live(&self, who: u32) -> bool
        requires named { 1 ≤ who }
        requires unspent { self.now.spent ≡ false }
        ensures yes { IsTrue result → IsLive self.now who }
        ensures no { result ≡ false → IsAbsent self.now who }
    {
        match self.standing(who) {
            OpenerStanding::Absent => false,
            OpenerStanding::Idle | OpenerStanding::Busy => true,
        }
    }

    /// Whether the opener with this number, from 1 on, is live and has no command.
    pub fn is_idle(&self, who: u32) -> bool
        requires named { 1 ≤ who }
        requires unspent { self.now.spent ≡ false }
        ensures yes { IsTrue result → HasNoCommand self.now.world who }
        ensures no { result ≡ false → HasCommand self.now.world who ⊎ IsAbsent self.now who }
    {
        match self.standing(who) {
            OpenerStanding::Idle => true,
            OpenerStanding::Absent | OpenerStanding::Busy => false,
        }
    }

    /// Gives a live opener that has no command this one, of which it then takes turns. `told` is the same command, of
    /// which a report's lines are copies. It takes no memory.
    ///
    /// `Memory` where a transaction would begin within more than 2^32 - 2 others: then nothing has changed.
    ///
    /// Cost: a hash of the key, and a look-up among the chains that the opener holds.
    pub fn assign(&mut self, who: u32, command: Command, told: Command) -> Result<(), AllocError>
        requires named { 1 ≤ who }
        requires idle { HasNoCommand self.old.world who }
        requires unspent { self.old.spent ≡ false }
        requires short { IsShortCommand command }
        requires same { told ≡ command }
        ensures given { OnOk result (WasGiven self.old self.new who command) }
        ensures full { OnErr result (HasRoom self.old.world who command → ⊥) }
        ensures err { OnErr result (self.new ≡ self.old) }
    {
        self.openers.assign(who, command, told)
    }

    /// Whether the opener with this number, from 1 on, may die: it is live, and has no command, or a Commit or a
    /// Prepare.
    pub fn may_die(&self, who: u32) -> bool
        requires named { 1 ≤ who }
        requires unspent { self.now.spent ≡ false }
        ensures can { IsTrue result → CanDie self.now.world who }
        ensures may { IsTrue result → (h : History) (state : State) → IsStateOf self.now.world h state → MayDieIn state (law_opener who) }
        ensures may_not { result ≡ false → (h : History) (state : State) → IsStateOf self.now.world h state → MayDieIn state (law_opener who) → ⊥ }
    {
        self.openers.may_die(who)
    }

    /// An opener dies, as a process that is killed: it isn't live any more, holds no lock, and its transaction is lost.
    /// A dead record on which its cursor stands stays in its chain. Where its commit has opened its gate and not shut
    /// it, the world is stale from then on. It takes no memory, and makes no call on the disk.
    ///
    /// Cost: one pass over the lock table.
    pub fn die(&mut self, who: u32)
        requires named { 1 ≤ who }
        requires can { CanDie self.old.world who }
        requires unspent { self.old.spent ≡ false }
        ensures { HasDied self.old self.new who }
    {
        self.openers.die(who);
    }
}

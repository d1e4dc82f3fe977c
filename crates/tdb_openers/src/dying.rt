// Openers that die.

ghost use Rattle.std.specs.Prelude.{◌≡◌, ◌≤◌, ℕ, List, IsTrue, MatchBool, false};
ghost use Rattle.tdb_space.specs.Form.{form_in};
ghost use Rattle.tdb_law.specs.Events.{Dies};
ghost use Rattle.tdb_law.specs.Lines.{EndsTransaction, MayDie};
ghost use Rattle.tdb_commands.specs.InLaw.{law_opener};
ghost use Rattle.tdb_openers.specs.declared.opener.Opener.{Opener};
ghost use Rattle.tdb_openers.specs.Openers.{command_in, law_task};
ghost use Rattle.tdb_openers.specs.Worlds.{state_in, Stands, BytesStand};
ghost use Rattle.tdb_openers.specs.Died.{CanDie, HasDied, MayDieIn};

use crate::job::Job;
use crate::opener::Opener;
use crate::openers::Openers;
use tdb_commands::Command;

impl Job {
    /// Whether the command would end a transaction: it is a Commit or a Prepare, which is refused, since nobody has
    /// one.
    fn ends_transaction(&self) -> bool
        ensures { MatchBool result (EndsTransaction (command_in self.now)) (EndsTransaction (command_in self.now) → ⊥) }
    {
        match self {
            Job::Refused { command, .. } => matches!(command, Command::Commit | Command::Prepare),
            Job::Plain(_) | Job::Check(_) | Job::Locking(_) | Job::Seqnum | Job::Walk(_) => false,
        }
    }
}

impl Opener {
    /// Whether the opener may die, where it is live: it has no command, or one that would end a transaction.
    fn may_die(&self) -> bool
        ensures { MatchBool result (MayDie (law_task self.now.task)) (MayDie (law_task self.now.task) → ⊥) }
    {
        match &self.task {
            Some(task) => task.job.ends_transaction(),
            None => true,
        }
    }
}

impl Openers {
    /// Whether the opener with this number, from 1 on, may die: it is live, and has no command, or a refused Commit or
    /// Prepare.
    pub fn may_die(&self, who: u32) -> bool
        requires named { 1 ≤ who }
        ensures can { IsTrue result → (x : Opener) × CanDie self.now who x }
        ensures may { IsTrue result → (img : List ℕ) → MayDieIn (state_in self.now img) (law_opener who) }
        ensures may_not { result ≡ false → (img : List ℕ) → MayDieIn (state_in self.now img) (law_opener who) → ⊥ }
    {
        match self.opener(who) {
            Some(opener) => opener.live && opener.may_die(),
            None => false,
        }
    }

    /// An opener dies, as a process that is killed: it isn't live any more, and holds no lock. A dead record on which
    /// its cursor stands stays in its chain. It takes no memory, and the file stays.
    ///
    /// Cost: one pass over the lock table.
    pub fn die(&mut self, who: u32)
        requires can { (x : Opener) × CanDie self.old who x }
        ensures died { HasDied self.old who self.new }
        ensures dies { (img : List ℕ) → Dies (form_in self.old.header) (state_in self.old img) (law_opener who) (state_in self.new img) }
        ensures stands { (img : List ℕ) (size : ℕ) → Stands self.old img size → Stands self.new img size }
        ensures bytes { (img : List ℕ) → BytesStand self.old img → BytesStand self.new img }
        ensures header { self.new.header ≡ self.old.header }
        ensures options { self.new.options ≡ self.old.options }
    {
        self.strip(who);
    }
}

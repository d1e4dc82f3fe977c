// Openers that end without a command.

ghost use Rattle.std.specs.Prelude.{◌≡◌, ℕ, List};
ghost use Rattle.tdb_commands.specs.InLaw.{law_opener};
ghost use Rattle.tdb_openers.specs.Aside.{IsBare};
ghost use Rattle.tdb_openers.specs.Died.{HasDied, without_opener};
ghost use Rattle.tdb_openers.specs.declared.opener.Opener.{Opener};
ghost use Rattle.tdb_openers.specs.Worlds.{state_in, Stands, BytesStand, IsNumber};

use crate::openers::Openers;

impl Openers {
    /// An opener that has no command, no cursor, and no explicit lock but one of all records ends, as by a Close inside
    /// a transaction that it has elsewhere: it isn't live any more, and holds no lock. It takes no memory, and the file
    /// stays.
    ///
    /// Cost: one pass over the lock table.
    pub fn close(&mut self, who: u32)
        requires bare { (x : Opener) × IsNumber self.old who x × IsBare x }
        requires stands { (img : List ℕ) × (size : ℕ) × Stands self.old img size }
        ensures closed { HasDied self.old who self.new }
        ensures state { (img : List ℕ) → state_in self.new img ≡ without_opener (state_in self.old img) (law_opener who) }
        ensures stands { (img : List ℕ) (size : ℕ) → Stands self.old img size → Stands self.new img size }
        ensures bytes { (img : List ℕ) → BytesStand self.old img → BytesStand self.new img }
        ensures header { self.new.header ≡ self.old.header }
        ensures options { self.new.options ≡ self.old.options }
    {
        self.die(who);
    }
}

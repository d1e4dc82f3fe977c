// Moves of cursors while another opener holds all records for writing: they read nothing but the heads of the chains.

ghost use Rattle.std.specs.Prelude.{◌≡◌, ◌≢◌, ℕ, List, length, None, IsTrue, IfOk, OnErr, MatchBool, slice_get};
ghost use Rattle.tdb_disk.specs.Count.{HasCause};
ghost use Rattle.tdb_space.specs.Form.{form_in};
ghost use Rattle.tdb_space.specs.Frame.{Looked};
ghost use Rattle.tdb_law.specs.OneAside.Sides.{Past, Side};
ghost use Rattle.tdb_commands.specs.InLaw.{law_opener, law_turn};
ghost use Rattle.tdb_walk.specs.Cursors.{spot_of};
ghost use Rattle.tdb_openers.specs.declared.job.Job.TheVariants as Jobs;
ghost use Rattle.tdb_openers.specs.declared.job.Task.{Task};
ghost use Rattle.tdb_openers.specs.declared.opener.Opener.{Opener};
ghost use Rattle.tdb_openers.specs.ShutOut.{HoldsAll, ShutsOut, HeadsShow, HasPassed, IsTurnBeside, IsMove};
ghost use Rattle.tdb_openers.specs.Worlds.{law_of_task, Stands, BytesStand, IsBusy};

use crate::job::{Job, Walking};
use crate::opener::Opener;
use crate::openers::Openers;
use crate::shut_out::waits_for;
use tdb_locks::{Reply, Turn};
use tdb_space::{Io, Space};
use tdb_steps::Region;

impl Walking {
    /// Whether it is a First or a Next.
    fn moves(self) -> bool
        ensures { MatchBool result (IsMove (Jobs.Walk self)) (IsMove (Jobs.Walk self) → ⊥) }
    {
        matches!(self, Walking::First | Walking::Next)
    }
}

impl Job {
    /// Whether it moves the opener's cursor.
    fn moves(&self) -> bool
        ensures { MatchBool result (IsMove self.now) (IsMove self.now → ⊥) }
    {
        match self {
            Job::Walk(walking) => walking.moves(),
            _ => false,
        }
    }
}

impl Opener {
    /// Takes a turn of a First or a Next, by which the cursor moves, while `holder` holds all records for writing. The
    /// cursor stands on no record.
    pub(crate) fn move_shut_out<S: Space>(&mut self, s: &mut S, holder: u32) -> Result<Turn, Io>
        requires off { spot_of self.old.walk.cursor.place ≡ None }
        ensures passed { IfOk result (HasPassed (IsTrue S.tells) (S.form s.old) (S.image s.old) (S.size s.old) holder self.old self.new) }
        ensures off { spot_of self.new.walk.cursor.place ≡ None }
        ensures stays { OnErr result (self.new ≡ self.old) }
        ensures looked { Looked S.Space s.old s.new }
        ensures cause { HasCause (S.faults s.old) (S.faults s.new) result }
    {
        match self.walk.pass_empty(s)? {
            Some(chain) => Ok(waits_for(Region::Chain(chain), holder)),
            None => {
                self.task = None;
                Ok(Turn::Done(Reply::End))
            }
        }
    }
}

impl Openers {
    /// Whether the command of the opener with this number moves its cursor: it is a First or a Next.
    pub fn moves(&self, who: u32) -> bool
        ensures { (x : Opener) (t : Task) → IsBusy self.now who x t → MatchBool result (IsMove t.job) (IsMove t.job → ⊥) }
    {
        match self.opener(who) {
            Some(
                Opener {
                    task: Some(task),
                    ..
                },
            ) => task.job.moves(),
            _ => false,
        }
    }

    /// Takes a turn of an opener whose cursor moves while `holder` holds all records for writing. Of the file it reads
    /// the heads of the chains alone. The cursor passes over the chains whose heads are 0; it is blocked before the
    /// first other one on its way, and the walk ends where there is none. It takes no memory.
    ///
    /// The heads are those that the file has at the time: so a walk may see the emptiness of a commit that is undone
    /// later.
    pub fn move_shut_out<S: Space>(&mut self, s: &mut S, who: u32, holder: u32) -> Result<Turn, Io>
        requires busy { (x : Opener) × (t : Task) × IsBusy self.old who x t × IsMove t.job }
        requires form { S.form s.old ≡ form_in self.old.header }
        requires other { holder ≢ who }
        requires stands { (img : List ℕ) × (size : ℕ) × Stands self.old img size }
        requires shut { HoldsAll self.old holder }
        ensures turned { IfOk result (λ turn. IsTrue S.tells → (img : List ℕ) (past : Past) (side : Side) (x : Opener) (t : Task) → IsBusy self.old who x t → ShutsOut self.old img past side holder
            → HeadsShow self.old img (S.image s.old) side
            → IsTurnBeside self.old self.new img past side (law_opener who) (law_of_task t) (law_turn turn)) }
        ensures step { IfOk result (λ turn. turn ≡ Turn.Step → ⊥) }
        ensures stays { OnErr result (self.new ≡ self.old) }
        ensures joined { length self.new.openers ≡ length self.old.openers }
        ensures others { (o : ℕ) → o ≢ law_opener who → slice_get self.new.openers o ≡ slice_get self.old.openers o }
        ensures stands { (img : List ℕ) (size : ℕ) → Stands self.old img size → Stands self.new img size }
        ensures bytes { (img : List ℕ) → BytesStand self.old img → BytesStand self.new img }
        ensures header { self.new.header ≡ self.old.header }
        ensures options { self.new.options ≡ self.old.options }
        ensures looked { Looked S.Space s.old s.new }
        ensures cause { HasCause (S.faults s.old) (S.faults s.new) result }
    {
        self.pass(s, who, holder)
    }
}

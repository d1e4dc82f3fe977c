// How openers stand.

ghost use Rattle.std.specs.Prelude.{◌≡◌, ◌≤◌, ℕ, List, true, false};
ghost use Rattle.tdb_commands.specs.InLaw.{law_opener};
ghost use Rattle.tdb_openers.specs.declared.job.Task.{Task};
ghost use Rattle.tdb_openers.specs.declared.opener.Opener.{Opener};
ghost use Rattle.tdb_openers.specs.Worlds.{state_in, IsFree, IsBusy};

use crate::openers::Openers;

/// How the opener with a number stands: it isn't live, it has no command, or it has one.
#[derive(Clone, Copy, Debug, PartialEq, Eq)]
pub enum OpenerStanding {
    /// No live opener has the number.
    Absent,
    /// It is live, and has no command.
    Idle,
    /// It is live, and has a command that isn't done.
    Busy,
}

impl Openers {
    /// How the opener with this number, counted from 1, stands.
    pub fn standing(&self, who: u32) -> OpenerStanding
        requires { 1 ≤ who }
        ensures absent { result ≡ OpenerStanding.Absent → (img : List ℕ) → ((state_in self.now img).own (law_opener who)).live ≡ false }
        ensures idle { result ≡ OpenerStanding.Idle → (x : Opener) × IsFree self.now who x }
        ensures busy { result ≡ OpenerStanding.Busy → (x : Opener) × (t : Task) × IsBusy self.now who x t × (x.live ≡ true) }
    {
        match self.opener(who) {
            Some(opener) if opener.live => match opener.task {
                Some(_) => OpenerStanding::Busy,
                None => OpenerStanding::Idle,
            },
            _ => OpenerStanding::Absent,
        }
    }
}

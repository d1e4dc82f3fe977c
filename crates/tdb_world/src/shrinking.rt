//! Memory that was made ready for the next commands of the one aside, and is given back.
ghost use Rattle.std.specs.Prelude.{◌≡◌};
ghost use Rattle.tdb_world.specs.ButRoom.{aside_left, WholeButRoom};

use crate::all_openers::AllOpeners;

impl AllOpeners {
    /// Gives back the memory that was made ready for the next commands of a transaction. Nothing else changes.
    pub(crate) fn shrink_to_fit(&mut self)
        ensures room { WholeButRoom self.old self.new }
        ensures left { aside_left self.new.aside ≡ 0 }
    {
        let Some(holder) = &mut self.aside else {
            return;
        };
        holder.shrink_to_fit();
    }
}

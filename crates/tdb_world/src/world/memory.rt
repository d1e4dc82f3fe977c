//! The memory of a world that rests.
ghost use Rattle.std.specs.Prelude.{◌≡◌};
ghost use Rattle.tdb_disk.specs.History.{History};
ghost use Rattle.tdb_law.specs.World.{State};
ghost use Rattle.tdb_world.specs.ButRoom.{aside_left, WholeButRoom};
ghost use Rattle.tdb_world.specs.OverFile.{OnlyInMemory};
ghost use Rattle.tdb_world.specs.States.{IsStateOf};

use crate::world::World;
use tdb_disk::Disk;

impl<D: Disk> World<D> {
    /// Gives back the memory that was made ready for the next commands of a transaction: of its pages only those stay
    /// that it has changed. Nothing else changes, and each state that the world may have had it may have still.
    ///
    /// Cost: the next command in the transaction makes room anew, by an allocation for each page. So this pays only
    /// where a world rests beside others.
    pub fn shrink_to_fit(&mut self)
        ensures states { (h : History) (state : State) → IsStateOf self.old.world h state → IsStateOf self.new.world h state }
        ensures room { WholeButRoom self.old.world self.new.world }
        ensures left { aside_left self.new.world.aside ≡ 0 }
        ensures memory { OnlyInMemory self.old self.new }
    {
        self.openers.shrink_to_fit();
    }
}

// The worlds of a group that has ended.

ghost use Rattle.std.specs.Prelude.{◌≡◌, ◌∷◌, ◌++◌, [], List, IfNone, IfSome};

use std::marker::Model;
use tdb_disk::Disk;
use tdb_world::World;

/// The worlds of a group that has ended, in their order. It can't be dropped: each is taken out, and then it is given
/// up.
pub struct Worlds<D: Disk> {
    pub(crate) worlds: Vec<World<D>>,
}

impl<D: Disk> Model for Worlds<D> {
    ghost use Rattle.std.specs.Coded.{coded_list};
    ghost use Rattle.std.specs.Prelude.{List};
    ghost use Rattle.tdb_world.specs.contracts.all_openers.AllOpeners as all;
    ghost use Rattle.tdb_world.specs.OverFile.{over_file_code, OverFile};

    ghost Value = { List OverFile };

    ghost coded = { coded_list (over_file_code all.the_row.coded) };

    ghost view = { λ w. w.worlds.items };
}

impl<D: Disk> Worlds<D> {
    /// Hands out the last world; `None` where there is none. It takes no memory.
    pub fn pop(&mut self) -> Option<World<D>>
        ensures some { IfSome result (λ w. self.old ≡ self.new ++ w ∷ []) }
        ensures none { IfNone result (self.old ≡ []) }
        ensures empty { IfNone result (self.new ≡ []) }
    {
        self.worlds.pop()
    }

    /// Gives up the list, from which every world was taken.
    pub fn done(self)
        requires empty { self ≡ [] }
    {
        let Worlds { worlds } = self;
        worlds.destroy_empty();
    }
}

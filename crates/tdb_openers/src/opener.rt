// An opener of the file.

ghost use Rattle.std.specs.Prelude.{◌≡◌};
ghost use Rattle.tdb_openers.specs.Worlds.{fresh};

use crate::job::Task;
use std::alloc::Global;
use tdb_locks::Held;
use tdb_walk::Walk;

/// An opener of the file.
#[derive(Drop)]
pub(crate) struct Opener {
    /// Whether it has joined and not ended.
    pub(crate) live: bool,
    /// The locks that it has taken explicitly.
    pub(crate) held: Held,
    /// The command that it has, if it has one.
    pub(crate) task: Option<Task>,
    /// Its cursor.
    pub(crate) walk: Walk,
}

impl Opener {
    /// An opener that has nothing: it has just joined, or has died and isn't live. It takes no memory.
    pub(crate) fn bare(alloc: Global, live: bool) -> Opener
        ensures { result ≡ record fresh { live = live } }
    {
        Opener {
            live,
            held: Held::new(alloc),
            task: None,
            walk: Walk::new(),
        }
    }
}

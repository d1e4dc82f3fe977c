// What a command knows and holds between two of its turns.

ghost use Rattle.std.specs.Prelude.{◌≡◌};
ghost use Rattle.tdb_steps.specs.Stages.{locked_stage};

use crate::plain::Plain;
use tdb_chain::Place;
use tdb_locks::Reply;
use tdb_space::Hand;

/// What a command knows and holds between two of its turns. Nothing else is remembered.
///
/// It can't be dropped, since it may hold a record that is in no list.
pub enum Stage {
    /// No turn was taken.
    Begun,

    /// The chain of the key is locked.
    Chained,

    /// The key was looked up in its chain: its record, if there is one. The command goes on.
    Looked(Option<Place>),

    /// The same, and the free list is locked too.
    Listed(Option<Place>),

    /// The same, and a record for the new value was taken from the free list.
    Taken(Option<Place>, Hand),

    /// The change is made, and the old record was taken out of its chain.
    Changed(Hand),

    /// All records are locked, for a wipe that isn't made yet.
    Wiping(WipeStage),

    /// The change is made, and no record is held.
    Ending,
}

/// What a wipe has locked before it changes the file.
#[derive(Clone, Copy, Debug, PartialEq, Eq)]
pub enum WipeStage {
    /// All records are locked.
    Records,

    /// The same, and the free list is locked too.
    FreeList,
}

/// What a turn leads to.
pub enum Next {
    /// The command goes on.
    Step(Stage),

    /// The command is done.
    Done(Reply),
}

impl Stage {
    /// The stage of a command after the turn that takes a lock.
    pub(crate) fn locked(self, command: &Plain) -> Stage
        ensures { result ≡ locked_stage command.now self }
    {
        match self {
            Stage::Begun => match command {
                Plain::Wipe => Stage::Wiping(WipeStage::Records),
                Plain::Fetch { .. }
                | Plain::Has { .. }
                | Plain::Store { .. }
                | Plain::Append { .. }
                | Plain::Delete { .. } => Stage::Chained,
            },
            Stage::Looked(found) => Stage::Listed(found),
            Stage::Wiping(WipeStage::Records) => Stage::Wiping(WipeStage::FreeList),
            other => other,
        }
    }

    /// Gives the command up, with the record that it may hold. It takes no memory and changes nothing.
    pub fn end(self) {
        match self {
            Stage::Begun
            | Stage::Chained
            | Stage::Looked(_)
            | Stage::Listed(_)
            | Stage::Wiping(_)
            | Stage::Ending => {}
            Stage::Taken(_, hand) | Stage::Changed(hand) => hand.end(),
        }
    }
}

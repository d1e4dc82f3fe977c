// The laws of rounds of turns.

ghost use Rattle.tdb_gen.specs.Rounds.{RoundGoesOn, GroupsAreDone};

/// The turns of a group end its commands: in each round of turns one of them goes on, and together they have at most 21
/// turns that aren't blocked. The law is over all worlds; the function does nothing.
pub fn groups_end()
    ensures round { RoundGoesOn }
    ensures group { GroupsAreDone }
{}

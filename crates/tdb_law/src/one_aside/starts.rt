// The laws of openers that have a Start of which they have had no step.

ghost use Rattle.tdb_law.specs.OneAside.Laws.{StartsAreSound, WholeStartsAreSound, StartsArePlain, StartsStandAside, StartsTurn, StartsJoin, StartsGiven, StartsDie, StartIsGiven, StartEnds, AsideHidesStart};

/// A state in which openers that are live and had no command have a Start, of which they have had no step, is as sound
/// and as plain as the one without; and who is aside goes on to stand so. It comes by giving them the Start, one by
/// one, and goes where that ends at once or its opener is aside. The laws are over all states; the function does
/// nothing.
pub fn starts_stand()
    ensures sound { StartsAreSound }
    ensures whole { WholeStartsAreSound }
    ensures plain { StartsArePlain }
    ensures aside { StartsStandAside }
    ensures given { StartIsGiven }
    ensures ended { StartEnds }
    ensures hidden { AsideHidesStart }
{}

/// What another opener does is the same in the state with these Starts as without: it takes a turn, joins, is given a
/// command, or dies. The laws are over all states; the function does nothing.
pub fn starts_turn()
    ensures turn { StartsTurn }
    ensures join { StartsJoin }
    ensures gift { StartsGiven }
    ensures death { StartsDie }
{}

// The laws of moves, and of the turns of cursors in a world.

ghost use Rattle.tdb_walk.specs.Again.{CursorStandsAgain, CursorShows, CursorBegins, CursorLeavesOthers};
ghost use Rattle.tdb_walk.specs.Holds.{CursorHolds};
ghost use Rattle.tdb_walk.specs.Laws.{MovesAreWalks};
ghost use Rattle.tdb_walk.specs.Walkers.{CursorIsTurned};
ghost use Rattle.tdb_walk.specs.InLaw.{CursorIsLawful, WalkIsLawful, OthersStay, ViewIsSo};

/// Keys that are further on are those of live records that are left; so a move that ends leaves none, and one that is
/// blocked loses none. The law is over all chains and places; the function does nothing.
pub fn moves_are_walks()
    ensures law { MovesAreWalks }
{}

/// A turn of a cursor is one of the law of reports: `turn` says so of its row, of the locks before it and after it as
/// strengths, of what it wants and which conflict blocks it, and of its effect; `walk` of its own walk. By `others` it
/// leaves the walks of all other cursors; `view` gives what the file adds to its opener. By `world` all this is a turn
/// of a world whose openers have cursors. The law is over all turns; the function does nothing.
pub fn cursors_are_lawful()
    ensures turn { CursorIsLawful }
    ensures walk { WalkIsLawful }
    ensures others { OthersStay }
    ensures view { ViewIsSo }
    ensures world { CursorIsTurned }
{}

/// What a turn of a cursor leaves: by `again` it stands so that its next turn is one of the law, or rests where its
/// command has ended; by `shows` the key that the law keeps of the last pair is that of the turns; by `begins` a cursor
/// that rests can be asked for any command. By `others` the image is accepted with the same hands, and at most a chain
/// of which the cursor purges a record has changed. The law is over all turns; the function does nothing.
pub fn cursors_go_on()
    ensures again { CursorStandsAgain }
    ensures shows { CursorShows }
    ensures begins { CursorBegins }
    ensures others { CursorLeavesOthers }
{}

/// What a cursor holds after each turn, and where it stands then, whatever the bytes of the file are: what its opener
/// holds is what the law of reports says, and its next turn is one of that law again, or it rests. The law is over all
/// turns; the function does nothing.
pub fn cursors_hold()
    ensures law { CursorHolds }
{}

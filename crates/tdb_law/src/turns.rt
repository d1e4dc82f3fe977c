// The law of one turn.

ghost use Rattle.tdb_law.specs.Laws.{TurnIsLawful};

/// Every turn of every command is lawful: in a sound world, from each replay that stands for it, the world after a
/// turn is sound, the report may tell the turn, and the replay after it stands for the world. The law is over all
/// states; the function does nothing.
pub fn turn_is_lawful()
    ensures law { TurnIsLawful }
{}

// The laws of what happens besides turns.

ghost use Rattle.tdb_law.specs.Laws.{JoinIsLawful, DeathIsLawful, UndoIsLawful, ToldIsLawful, GiftIsLawful};

/// Every line that isn't a turn is lawful: an opener that joins, one that dies, a gate that is undone, and what is
/// only told. In a sound world, from each replay that stands for it, the world after it is sound, the report may
/// have the line, and the replay after it stands for the world. The law is over all states; the function does
/// nothing.
pub fn event_is_lawful()
    ensures join { JoinIsLawful }
    ensures death { DeathIsLawful }
    ensures undo { UndoIsLawful }
    ensures told { ToldIsLawful }
{}

/// A command that is given leaves a world sound, and the same replay stands for it. The law is over all states; the
/// function does nothing.
pub fn gift_is_lawful()
    ensures law { GiftIsLawful }
{}

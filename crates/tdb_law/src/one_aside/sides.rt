// The laws of what the locks of an opener aside leave to the others.

ghost use Rattle.tdb_law.specs.OneAside.Laws.{RecordsAreHeld, OthersOnlyRead, OthersAreShutOut, ShutOutMeets};

/// In a sound world the opener aside holds all records, for reading at least, from the second step of its Start on,
/// and what it holds no other opener holds for writing. While it shuts the others out they hold no record, no cursor of
/// theirs stands on one, and their commands have locked none; one that then wants a record, and no byte below, meets
/// the opener aside at the first one. The law is over all states; the function does nothing.
pub fn joined_side()
    ensures held { RecordsAreHeld }
    ensures readers { OthersOnlyRead }
    ensures shut { OthersAreShutOut }
    ensures meets { ShutOutMeets }
{}

//! A turn of the opener aside is a turn of the whole.
ghost use Rattle.tdb_txn_owner.specs.Lifts.{ShownTurns, BesideTurns, BesideEnds, BesideBegins};

/// A turn of the opener aside that leaves the others as a turn does is a turn of the whole state: where the opener is
/// aside before it and after it, where it comes back to the others by it, and where it goes aside by it. The laws are
/// over all states and sides; the function does nothing.
pub fn side_turns()
    ensures shown { ShownTurns }
    ensures beside { BesideTurns }
    ensures ends { BesideEnds }
    ensures begins { BesideBegins }
{}

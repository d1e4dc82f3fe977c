// The laws of moves of openers that are shut out.

ghost use Rattle.tdb_law.specs.OneAside.Laws.{ShutOutEnds, ShutOutHalts};

/// A move that is shut out passes over the chains whose heads are 0. It has taken a turn of the law by coming to its
/// end where no other is left, and by being blocked before the first one, as long as the heads tell of each key of the
/// file that the one aside hasn't taken out. The law is over all states; the function does nothing.
pub fn moves_pass()
    ensures ends { ShutOutEnds }
    ensures halts { ShutOutHalts }
{}

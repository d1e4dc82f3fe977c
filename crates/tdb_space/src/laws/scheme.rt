// What a commit writes while its gate is open, and that it is undone.

ghost use Rattle.tdb_space.specs.Scheme.{WithinIsKept, RunsAreAlike, RunsAreUndone, RunsReopen, OpenedReopens};

/// What is written where the plan of a commit writes is undone like the image before, in whatever way a stop tears it;
/// so the file reopens to the map that it held. The law is over all lists of bytes; the function does nothing.
pub fn scheme_law()
    ensures within { WithinIsKept }
    ensures alike { RunsAreAlike }
    ensures undone { RunsAreUndone }
    ensures reopen { RunsReopen }
    ensures opened { OpenedReopens }
{}

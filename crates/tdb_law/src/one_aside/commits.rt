// The law of walks over a file into which a commit puts another image.

ghost use Rattle.tdb_law.specs.OneAside.Laws.{CommitShifts, GateShifts};

/// A walk that stands on no record loses only keys that the new image lacks; and by the step that makes the change of a
/// Commit, only keys that the Commit takes out. The law is over all images and places; the function does nothing.
pub fn commit_shifts()
    ensures image { CommitShifts }
    ensures gate { GateShifts }
{}

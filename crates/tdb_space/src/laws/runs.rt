// The bytes that a commit changes, in runs.

ghost use Rattle.tdb_space.specs.Runs.{RunsAreOne, NoRunNoChange, RunsOfOther, RunsLieSo};

/// There is one list of runs of the bytes that change, none just where no byte does; where they lie, and for which
/// other file they are the same. The law is over all lists of bytes; the function does nothing.
pub fn runs_law()
    ensures one { RunsAreOne }
    ensures none { NoRunNoChange }
    ensures other { RunsOfOther }
    ensures place { RunsLieSo }
{}
